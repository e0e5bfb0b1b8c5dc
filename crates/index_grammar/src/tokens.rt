//! Splits what follows the base of an index into signs, digits and words, without the blanks.

ghost use Rattle.std.specs.Prelude.{◌≡◌, ◌<◌, ◌≤◌, ◌+◌, not, drop, length, position, IfSome};
ghost use Rattle.std.specs.List.{prefix_len};
ghost use Rattle.std.specs.Char.{is_ascii_digit};
ghost use Rattle.index_grammar.specs.Characters.{is_blank, is_sign, is_break, closes};
ghost use Rattle.index_grammar.specs.Grammar.{tokens_of};
ghost use Rattle.index_grammar.specs.LentTokens.{before_rest, piece_len};

/// What an index is made of behind its base, without the blanks.
#[derive(Clone, Copy)]
pub(crate) enum LentToken<'a> {
    /// `+` (true) or `-`.
    Sign(bool),
    Digits(&'a [u8]),
    /// Characters of any other kind, up to a blank or a sign.
    Word(&'a [u8]),
}

/// Whether a byte is a space or a tab.
fn is_blank(byte: u8) -> bool
    ensures { result ≡ is_blank byte }
{
    byte == b' ' || byte == b'\t'
}

/// Whether a byte is `+` or `-`.
fn is_sign(byte: u8) -> bool
    ensures { result ≡ is_sign byte }
{
    byte == b'+' || byte == b'-'
}

pub(crate) fn is_break(byte: u8) -> bool
    ensures { result ≡ is_break byte }
{
    is_blank(byte) || is_sign(byte)
}

/// Whether what stands before a text is closed: the text is empty, or begins with a blank, `+` or `-`.
#[inline(always)]
pub(crate) fn closes(text: &[u8]) -> bool
    ensures { result ≡ closes text.now }
{
    match text.first() {
        Some(byte) => is_break(*byte),
        None => true,
    }
}

/// Where the first byte stands that is no blank.
fn find_other(text: &[u8]) -> Option<usize>
    ensures { result ≡ position (λ c. not (is_blank c)) text.now }
{
    text.iter().position(|byte| !is_blank(*byte))
}

/// How many blanks a text begins with.
fn blanks(text: &[u8]) -> usize
    ensures { result ≡ prefix_len is_blank text.now }
{
    match find_other(text) {
        Some(at) => at,
        None => text.len(),
    }
}

/// Where the first byte stands that is no digit.
fn find_no_digit(text: &[u8]) -> Option<usize>
    ensures { result ≡ position (λ c. not (is_ascii_digit c)) text.now }
{
    text.iter().position(|byte| !byte.is_ascii_digit())
}

/// How many digits a text begins with.
fn digits(text: &[u8]) -> usize
    ensures { result ≡ prefix_len is_ascii_digit text.now }
{
    match find_no_digit(text) {
        Some(at) => at,
        None => text.len(),
    }
}

/// Where the first blank, `+` or `-` stands.
fn find_break(text: &[u8]) -> Option<usize>
    ensures { result ≡ position is_break text.now }
{
    text.iter().position(|byte| is_break(*byte))
}

/// How many bytes stand before the first blank, `+` or `-`.
pub(crate) fn unbroken(text: &[u8]) -> usize
    ensures { result ≡ prefix_len (λ c. not (is_break c)) text.now }
{
    match find_break(text) {
        Some(at) => at,
        None => text.len(),
    }
}

/// A text without the blanks that it begins with.
pub(crate) fn skip_blanks(text: &[u8]) -> &[u8]
    ensures { result.now ≡ drop (prefix_len is_blank text.now) text.now }
{
    text.split_at(blanks(text)).1
}

/// The first piece of a text, and what stands behind it.
pub(crate) fn next_piece(text: &[u8]) -> Option<(LentToken<'_>, &[u8])>
    ensures value { tokens_of text.now ≡ before_rest result }
    ensures bound { IfSome result (λ found. length found.1.now < length text.now) }
    ensures taken { IfSome result (λ found. piece_len found.0 + length found.1.now ≤ length text.now) }
{
    let text = skip_blanks(text);
    let first = *text.first()?;
    if is_sign(first) {
        let (_, rest) = text.split_at(1);
        return Some((LentToken::Sign(first == b'+'), rest));
    }
    if first.is_ascii_digit() {
        let (digits, rest) = text.split_at(digits(text));
        return Some((LentToken::Digits(digits), rest));
    }
    let (word, rest) = text.split_at(unbroken(text));
    Some((LentToken::Word(word), rest))
}
