//! Comparisons of a word with known ones: equal to one, among several, or a prefix.

ghost use Rattle.std.specs.Prelude.{◌≡◌, chars};
ghost use Rattle.std.specs.List.{starts_with};
ghost use Rattle.command_table.specs.Words.{is_same, is_among, is_character, is_dashed, lent};

/// Whether a word is one that the program knows.
pub fn is_word(word: &str, known: &str) -> bool
    ensures { result ≡ is_same (chars word.now) (chars known.now) }
{
    // Most words differ in length, and `==` alone would be a call.
    word.len() == known.len() && word == known
}

/// Whether a word is one of these.
pub fn is_among(names: &[&str], word: &str) -> bool
    ensures { result ≡ is_among (lent names.now) (chars word.now) }
{
    for name in names {
        if is_word(word, name) {
            return true;
        }
    }
    false
}

/// Whether a word is the front of one that the program knows, or the whole of it.
pub fn abbreviates(word: &str, known: &str) -> bool
    ensures { result ≡ starts_with is_character (chars known.now) (chars word.now) }
{
    known.as_bytes().starts_with(word.as_bytes())
}

/// Whether a word begins with `-`.
pub fn is_dashed(word: &str) -> bool
    ensures { result ≡ is_dashed (chars word.now) }
{
    match word.as_bytes() {
        [first, ..] => *first == b'-',
        _ => false,
    }
}
