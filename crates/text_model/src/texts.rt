//! A string that contracts see as the list of its characters.

ghost use Rattle.std.specs.Prelude.{◌≡◌, chars, string_bytes, encode_utf8_all};

use std::marker::Model;

/// A text, which contracts see as the list of its characters.
#[derive(Drop)]
pub struct Text {
    text: String,
}

impl Model for Text {
    ghost use Rattle.std.specs.Prelude.{List, ℕ, chars, string_bytes};

    ghost Value = { List ℕ };

    ghost view = { λ a. chars (string_bytes a.text) };
}

impl Text {
    pub fn new(text: String) -> Text
        ensures { result ≡ chars (string_bytes text) }
    {
        Text { text }
    }

    /// Gives the string back, which takes no memory.
    pub fn into_string(self) -> String
        ensures { chars (string_bytes result) ≡ self }
    {
        self.text
    }

    pub fn as_str(&self) -> &str
        ensures characters { chars result.now ≡ self.now }
        ensures bytes { result.now ≡ encode_utf8_all self.now }
    {
        self.text.as_str()
    }
}
