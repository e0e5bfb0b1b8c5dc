//! The longest prefix of bytes that is UTF-8, and why it ends.

ghost use Rattle.std.specs.Prelude.{◌≤◌, length, take, drop, IsUtf8};
ghost use Rattle.tcl_words.specs.Encoding.{StopsAs};

/// Why the text at the front of some bytes is not longer.
#[derive(Clone, Copy)]
pub enum TextStop {
    /// The bytes end.
    AtEnd,
    /// The bytes end within a character.
    WithinCharacter,
    /// The bytes that follow begin no character, however they go on.
    Broken,
}

/// The text at the front of some bytes.
#[derive(Clone, Copy)]
pub struct TextFront {
    pub len: usize,
    pub stop: TextStop,
}

/// The longest front of the bytes that is UTF-8.
pub fn text_front(bytes: &[u8]) -> TextFront
    ensures within { result.len ≤ length bytes.now }
    ensures text { IsUtf8 (take result.len bytes.now) }
    ensures stop { StopsAs result.stop (drop result.len bytes.now) }
{
    match str::from_utf8(bytes) {
        Ok(_) => TextFront {
            len: bytes.len(),
            stop: TextStop::AtEnd,
        },
        Err(error) => TextFront {
            len: error.valid_up_to(),
            stop: if error.error_len().is_some() {
                TextStop::Broken
            } else {
                TextStop::WithinCharacter
            },
        },
    }
}
