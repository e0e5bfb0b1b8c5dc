//! Reads the words of a command as its shape, or reports why they are no command.

ghost use Rattle.std.specs.Prelude.{◌≡◌, ◌<◌, ◌≤◌, ◌+◌, ◌∷◌, chars, length, option_map, IfOk, IfSome};
ghost use Rattle.command_table.specs.Words.{texts_of};
ghost use Rattle.command_table.specs.Reading.{found, unknown, reading};
ghost use Rattle.command_table.specs.Spelled.{spelled, entry_rule};

use crate::entries::{Entry, destroy_entry, find_entry, goes_on, text_entry};
use crate::shapes::{Shape, ShapeFault};
use crate::words::is_word;

/// Why words that begin with no subcommand are refused.
fn unknown(words: &[String]) -> ShapeFault
    ensures { Err result ≡ unknown (texts_of words.now) }
{
    if goes_on(words) {
        return ShapeFault::WrongArguments;
    }
    match words {
        [first, _, ..] => ShapeFault::BadOption(if goes_on(&words[..1]) { 2 } else { 1 }),
        _ => ShapeFault::BadOption(1),
    }
}

/// The entry of a command by its name and the words after it, or `None` where these begin no subcommand.
fn entry_of(name: &str, words: &[String]) -> Option<&'static Entry>
    ensures value { found (texts_of words.now) (option_map (λ entry. entry_rule entry.now) result)
        ≡ reading (chars name.now ∷ texts_of words.now) }
    ensures short { IfSome result (λ entry. length (spelled entry.now.spelling) ≤ length words.now) }
{
    if is_word(name, "text") {
        Some(text_entry())
    } else if is_word(name, "destroy") {
        Some(destroy_entry())
    } else {
        find_entry(words)
    }
}

/// What the words of a command are, for `text`, `destroy` or the command of a widget, whatever its name is: first the
/// subcommand is decided, then switches and options from left to right, then how many words there are.
pub fn shape(words: &[String]) -> Result<Shape, ShapeFault>
    requires { 0 < length words.now }
    ensures value { result ≡ reading (texts_of words.now) }
    ensures within { IfOk result (λ shape. shape.arguments + shape.count ≤ length words.now) }
    ensures ordered { IfOk result (λ shape. shape.switches ≤ shape.arguments) }
{
    let [name, rest @ ..] = words else {
        unreachable!()
    };
    match entry_of(name.as_str(), rest) {
        None => Err(unknown(rest)),
        Some(entry) => {
            let count = entry.spelling.len();
            entry.read(1 + count, &rest[count..])
        }
    }
}
