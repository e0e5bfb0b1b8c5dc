//! Whether a word can name a widget.

ghost use Rattle.std.specs.Prelude.{◌≡◌, chars, false};
ghost use Rattle.documents.specs.Kept.{is_window_name};

/// Whether a word may name a widget: a dot and at least one more character.
pub fn is_window_name(word: &str) -> bool
    ensures { result ≡ is_window_name (chars word.now) }
{
    match word.as_bytes() {
        [first, _, ..] => *first == b'.',
        _ => false,
    }
}
