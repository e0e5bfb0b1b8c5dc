//! Reads words as booleans and integers.

ghost use Rattle.std.specs.Prelude.{◌≡◌, chars, option_map, pos};
ghost use Rattle.std.specs.Option.{ok_or};
ghost use Rattle.command_table.specs.Numbers.{boolean_of, number_of, integer_of};

use crate::words::is_among;
use thiserror::Error;

/// Why the word for a value is refused.
#[derive(Clone, Copy, Debug, PartialEq, Eq, Drop, Error)]
pub enum ValueFault {
    /// The word is no boolean.
    #[error("expected boolean value")]
    ExpectedBoolean,
    /// The word is no integer.
    #[error("expected integer")]
    ExpectedInteger,
}

/// The boolean that a word is, in lower case: true for `1`, `true`, `yes` and `on`, false for `0`, `false`, `no` and
/// `off` (Tcl's manual has more spellings; these are the ones that are taken here).
pub fn boolean(word: &str) -> Result<bool, ValueFault>
    ensures { result ≡ ok_or (boolean_of (chars word.now)) ValueFault.ExpectedBoolean }
{
    if is_among(&["1", "true", "yes", "on"], word) {
        Ok(true)
    } else if is_among(&["0", "false", "no", "off"], word) {
        Ok(false)
    } else {
        Err(ValueFault::ExpectedBoolean)
    }
}

/// The number that one to nine decimal digits spell.
fn read_digits(digits: &[u8]) -> Option<i32>
    ensures { result ≡ option_map (λ n. pos n) (number_of digits.now) }
{
    if digits.is_empty() || digits.len() > 9 {
        return None;
    }
    let mut number = 0u32;
    for digit in digits {
        if !digit.is_ascii_digit() {
            return None;
        }
        number = number * 10 + u32::from(*digit - b'0');
    }
    Some(number as i32)
}

/// The integer that the bytes of a word spell.
fn read_integer(word: &[u8]) -> Option<i32>
    ensures { result ≡ integer_of word.now }
{
    match word {
        [b'+', digits @ ..] => read_digits(digits),
        [b'-', digits @ ..] => match read_digits(digits) {
            None => None,
            Some(number) => Some(-number),
        },
        _ => read_digits(word),
    }
}

/// The integer that a word spells: perhaps a sign, and one to nine decimal digits.
pub fn integer(word: &str) -> Result<i32, ValueFault>
    ensures { result ≡ ok_or (integer_of (chars word.now)) ValueFault.ExpectedInteger }
{
    read_integer(word.as_bytes()).ok_or(ValueFault::ExpectedInteger)
}
