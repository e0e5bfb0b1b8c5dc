//! Whether a name is in a list of names.

ghost use Rattle.std.specs.Prelude.{◌≡◌, chars};
ghost use Rattle.tcl_words.specs.Unread.{texts_of};
ghost use Rattle.command_effects.specs.Words.{is_among};

use command_table::is_word;

/// Whether a name is one of these.
pub fn is_among(name: &str, names: &[String]) -> bool
    ensures { result ≡ is_among (chars name.now) (texts_of names.now) }
{
    for other in names {
        if is_word(name, other.as_str()) {
            return true;
        }
    }
    false
}
