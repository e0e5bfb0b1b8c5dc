//! The words that name a subcommand: none, one, or a family and its member.

ghost use Rattle.std.specs.Prelude.{◌≡◌, ◌≤◌, length, IsTrue};
ghost use Rattle.command_table.specs.Words.{texts_of};
ghost use Rattle.command_table.specs.Entries.{begins};
ghost use Rattle.command_table.specs.Spelled.{spelled};

use crate::words::is_word;

/// The words by which a subcommand is named, behind the name of the widget.
#[derive(Clone, Copy)]
pub enum Spelling {
    /// None, since the first word of the command says it all.
    First,
    /// One word.
    Alone(&'static str),
    /// The word of a family of subcommands, and the word of one of them.
    Member(&'static str, &'static str),
}

impl Spelling {
    /// How many words it has.
    pub fn len(self) -> usize
        ensures { result ≡ length (spelled self) }
    {
        match self {
            Spelling::First => 0,
            Spelling::Alone(_) => 1,
            Spelling::Member(_, _) => 2,
        }
    }

    /// Whether the words begin with it.
    pub fn begins(self, words: &[String]) -> bool
        ensures value { result ≡ begins (spelled self) (texts_of words.now) }
        ensures short { IsTrue result → length (spelled self) ≤ length words.now }
    {
        match (self, words) {
            (Spelling::First, _) => true,
            (Spelling::Alone(name), [first, ..]) => is_word(first.as_str(), name),
            (Spelling::Member(family, name), [first, second, ..]) => {
                is_word(first.as_str(), family) && is_word(second.as_str(), name)
            }
            _ => false,
        }
    }

    /// Whether it begins with the words.
    pub fn goes_on(self, words: &[String]) -> bool
        ensures { result ≡ begins (texts_of words.now) (spelled self) }
    {
        match self {
            Spelling::First => match words {
                [] => true,
                [_, ..] => false,
            },
            Spelling::Alone(name) => match words {
                [] => true,
                [first] => is_word(name, first.as_str()),
                [_, _, ..] => false,
            },
            Spelling::Member(family, name) => match words {
                [] => true,
                [first] => is_word(family, first.as_str()),
                [first, second] => {
                    is_word(family, first.as_str()) && is_word(name, second.as_str())
                }
                [_, _, _, ..] => false,
            },
        }
    }
}
