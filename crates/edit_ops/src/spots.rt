//! The line and column of an offset, the column in characters, in bytes of UTF-8 and in units of UTF-16.

ghost use Rattle.std.specs.Prelude.{◌≡◌, ◌+◌, ◌++◌, ◌∷◌, [], ℕ, List, chars, length};
ghost use Rattle.std.specs.Char.{len_utf8};
ghost use Rattle.edit_ops.specs.Told.{end_of, HasRoom};

/// Where an offset of a text is, as editors and parsers count: its line, from 1, and what stands before it in that
/// line, in characters, in bytes of UTF-8 and in units of UTF-16.
#[derive(Clone, Copy)]
pub struct Spot {
    pub line: usize,
    pub column: usize,
    pub bytes: usize,
    pub units: usize,
}

impl Spot {
    /// Where a line begins.
    pub(crate) fn start_of(line: usize) -> Spot
        ensures { result ≡ record { line = line; column = 0; bytes = 0; units = 0 } }
    {
        Spot {
            line,
            column: 0,
            bytes: 0,
            units: 0,
        }
    }

    /// Where a character ends that stands here.
    fn past(self, character: char) -> Spot
        requires { HasRoom self (len_utf8 character) }
        ensures end { (before : List ℕ) → self ≡ end_of before → result ≡ end_of (before ++ character ∷ []) }
        ensures room { (count : ℕ) → HasRoom self (len_utf8 character + count) → HasRoom result count }
    {
        if character == '\n' {
            return Spot::start_of(self.line + 1);
        }
        Spot {
            line: self.line,
            column: self.column + 1,
            bytes: self.bytes + character.len_utf8(),
            units: self.units + character.len_utf16(),
        }
    }

    /// Where a text ends that begins here.
    pub(crate) fn behind(self, text: &str) -> Spot
        requires { HasRoom self (length text.now) }
        ensures { (before : List ℕ) → self ≡ end_of before → result ≡ end_of (before ++ chars text.now) }
    {
        let mut spot = self;
        for character in text.chars() {
            spot = spot.past(character);
        }
        spot
    }
}
