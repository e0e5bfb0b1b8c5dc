//! Reads digits as a number, which is the maximum if they spell a greater one.

ghost use Rattle.std.specs.Prelude.{◌≡◌, ◌<◌, ◌*◌, ◌+◌, ◌-◌, min, take, drop, option_map, IfSome};
ghost use Rattle.std.specs.List.{prefix_len};
ghost use Rattle.std.specs.Char.{is_ascii_digit};
ghost use Rattle.index_grammar.specs.Grammar.{number_of};

/// A number with one more digit, or the maximum where that is greater.
#[inline(always)]
fn with_digit(number: usize, digit: u8) -> usize
    requires { digit < 10 }
    ensures { result ≡ min usize.MAX (number * 10 + digit) }
{
    let digit = usize::from(digit);
    if number < usize::MAX / 10 {
        return number * 10 + digit;
    }
    number.saturating_mul(10).saturating_add(digit)
}

/// Reads the digits that a text begins with as a number, or the maximum where they spell a greater one. Returns it with
/// what follows them, and `None` where the text begins with no digit.
#[inline(always)]
pub(crate) fn front_number(text: &[u8]) -> Option<(usize, &[u8])>
    ensures number { option_map (λ found. found.0) result
        ≡ option_map (min usize.MAX) (number_of (take (prefix_len is_ascii_digit text.now) text.now)) }
    ensures rest { IfSome result (λ found.
        found.1.now ≡ drop (prefix_len is_ascii_digit text.now) text.now) }
{
    let mut number = 0usize;
    let mut at = 0;
    while at < text.len() && text[at].is_ascii_digit() {
        number = with_digit(number, text[at] - b'0');
        at += 1;
    }
    if at == 0 {
        return None;
    }
    Some((number, text.split_at(at).1))
}
