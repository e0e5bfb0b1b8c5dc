//! The switches before the arguments: their names, abbreviations and number, and the first unknown one.

ghost use Rattle.std.specs.Prelude.{◌≡◌, ◌≤◌, ◌+◌, length, filter, take, chars};
ghost use Rattle.std.specs.List.{starts_with};
ghost use Rattle.command_table.specs.Words.{texts_of, lent, is_character};
ghost use Rattle.command_table.specs.Entries.{ends_switches, dashed_words, is_switch, bad_switch};
ghost use Rattle.command_table.specs.Spelled.{switch_rule};

use crate::words::{abbreviates, is_among, is_dashed, is_word};

/// The switches that a command takes: words that begin with `-`, in an unbroken run in front of the arguments.
#[derive(Clone, Copy)]
pub struct Switches {
    /// Their names. `--`, where it is one, ends the run.
    pub names: &'static [&'static str],
    /// Whether a word that is the front of one name alone stands for it.
    pub abbreviated: bool,
}

/// How many of the names the word is the front of.
fn count_abbreviated(names: &[&str], word: &str) -> usize
    ensures { result ≡ length (filter (λ name. starts_with is_character name (chars word.now)) (lent names.now)) }
{
    let mut count = 0;
    for name in names {
        if abbreviates(word, name) {
            count += 1;
        }
    }
    count
}

impl Switches {
    /// Whether a word is one of them.
    fn has(self, word: &str) -> bool
        ensures { result ≡ is_switch (switch_rule self) (chars word.now) }
    {
        if self.abbreviated {
            count_abbreviated(self.names, word) == 1
        } else {
            is_among(self.names, word)
        }
    }

    /// Whether a word ends the run of switches.
    fn ends_at(self, word: &str) -> bool
        ensures { result ≡ ends_switches (switch_rule self) (chars word.now) }
    {
        is_word(word, "--") && is_among(self.names, word)
    }

    /// How many words stand in place of switches.
    pub fn count(self, words: &[String]) -> usize
        ensures value { result ≡ length (dashed_words (switch_rule self) (texts_of words.now)) }
        ensures bound { result ≤ length words.now }
        ensures front { take result (texts_of words.now) ≡ dashed_words (switch_rule self) (texts_of words.now) }
    {
        for (index, word) in words.iter().enumerate() {
            if !is_dashed(word.as_str()) {
                return index;
            }
            if self.ends_at(word.as_str()) {
                return index + 1;
            }
        }
        words.len()
    }

    /// The position of the first word that is none of them. The words stand from a position on.
    pub fn first_bad(self, position: usize, words: &[String]) -> Option<usize>
        requires { position + length words.now ≤ usize.MAX }
        ensures { result ≡ bad_switch (Some (switch_rule self)) position (texts_of words.now) }
    {
        for (index, word) in words.iter().enumerate() {
            if !self.has(word.as_str()) {
                return Some(position + index);
            }
        }
        None
    }
}
