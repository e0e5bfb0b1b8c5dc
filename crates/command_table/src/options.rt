//! The options of a command: where they begin, whether they have values, and the first word that is no option.

ghost use Rattle.std.specs.Prelude.{◌≡◌, ◌≤◌, ◌+◌, true, length, chars};
ghost use Rattle.command_table.specs.Words.{texts_of, is_among};
ghost use Rattle.command_table.specs.Entries.{is_option_place, bad_option, are_paired};
ghost use Rattle.command_table.specs.Table.{option_names};
ghost use Rattle.command_table.specs.Spelled.{option_rule};

use crate::words::is_word;

/// Whether a word is the name of an option of a widget and of its document.
fn is_option(word: &str) -> bool
    ensures { result ≡ is_among option_names (chars word.now) }
{
    is_word(word, "-undo")
        || is_word(word, "-maxundo")
        || is_word(word, "-autoseparators")
        || is_word(word, "-state")
        || is_word(word, "-startline")
        || is_word(word, "-endline")
}

/// Where options stand in a command: they are found by their place among the arguments.
#[derive(Clone, Copy)]
pub struct Options {
    /// How many arguments stand before them.
    pub after: usize,
    /// Whether each has a value behind it, and others may follow.
    pub valued: bool,
}

impl Options {
    /// Whether an option stands at a place among the arguments, from 0.
    fn stands_at(self, place: usize) -> bool
        ensures { result ≡ is_option_place (option_rule self) place }
    {
        if self.valued {
            self.after <= place && (place - self.after) % 2 == 0
        } else {
            place == self.after
        }
    }

    /// Whether of so many arguments those before the options are there, and each option has its value.
    pub fn are_paired(self, count: usize) -> bool
        ensures value { result ≡ are_paired (Some (option_rule self)) count }
        ensures enough { result ≡ true → self.after ≤ count }
    {
        self.after <= count && (!self.valued || (count - self.after) % 2 == 0)
    }

    /// The position of the first word that stands in place of an option and is none. The arguments stand from a
    /// position on.
    pub fn first_bad(self, position: usize, arguments: &[String]) -> Option<usize>
        requires { position + length arguments.now ≤ usize.MAX }
        ensures { result ≡ bad_option (Some (option_rule self)) position (texts_of arguments.now) }
    {
        for (place, word) in arguments.iter().enumerate() {
            if self.stands_at(place) && !is_option(word.as_str()) {
                return Some(position + place);
            }
        }
        None
    }
}
