//! The operators of `compare`: their spellings, and whether they hold of two places.

ghost use Rattle.std.specs.Prelude.{◌≡◌, chars};
ghost use Rattle.peers.specs.Comparisons.{comparison_of, holds};

use command_table::is_word;

/// How two places are compared (text(n), "compare").
#[derive(Clone, Copy)]
pub enum Comparison {
    /// `<`
    Below,
    /// `<=`
    UpTo,
    /// `==`
    Same,
    /// `>=`
    From,
    /// `>`
    Above,
    /// `!=`
    Other,
}

impl Comparison {
    /// Returns the comparison that a word is, if it is one.
    pub fn read(word: &str) -> Option<Comparison>
        ensures { result ≡ comparison_of (chars word.now) }
    {
        if is_word(word, "<") {
            Some(Comparison::Below)
        } else if is_word(word, "<=") {
            Some(Comparison::UpTo)
        } else if is_word(word, "==") {
            Some(Comparison::Same)
        } else if is_word(word, ">=") {
            Some(Comparison::From)
        } else if is_word(word, ">") {
            Some(Comparison::Above)
        } else if is_word(word, "!=") {
            Some(Comparison::Other)
        } else {
            None
        }
    }

    /// Returns whether it holds of two places.
    pub fn holds(self, left: usize, right: usize) -> bool
        ensures { result ≡ holds self left right }
    {
        match self {
            Comparison::Below => left < right,
            Comparison::UpTo => left <= right,
            Comparison::Same => left == right,
            Comparison::From => left >= right,
            Comparison::Above => left > right,
            Comparison::Other => left != right,
        }
    }
}
