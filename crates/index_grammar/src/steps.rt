//! Reads the modifiers of an index: counts of characters, indices or lines, and abbreviated keywords.

ghost use Rattle.std.specs.Prelude.{◌≡◌, ◌≢◌, ◌<◌, ◌≤◌, ◌+◌, ◌∷◌, ℕ, min, length, Option, None, Some, IfOk, IfErr};
ghost use Rattle.std.specs.Prelude.{IfSome, IsTrue, option_map};
ghost use Rattle.index_grammar.specs.Grammar.{abbreviates, unit_of, keyword_of, tokens_of, modifiers_of};
ghost use Rattle.index_grammar.specs.Grammar as grammar;
ghost use Rattle.index_grammar.specs.LentTokens.{token_of, piece_len};
ghost use Rattle.index_grammar.specs.LentTokens.{digits_first, front_digits, word_first, unit_first, bytes_first};
ghost use Rattle.index_grammar.specs.Steps.{left, saturated, stepped};
ghost use Rattle.index_grammar.specs.declared.faults.IndexFault.TheVariants.{Memory, BadIndex};

use crate::faults::IndexFault;
use crate::indices::{Modifier, Modifiers, Unit};
use crate::numbers::front_number;
use crate::tokens::{LentToken, next_piece, skip_blanks};
use std::alloc::Global;

/// Whether a word is a front of another of so many bytes at least.
fn abbreviates(word: &[u8], least: usize, whole: &[u8]) -> bool
    ensures value { result ≡ abbreviates word.now least whole.now }
    ensures long { IsTrue result → least ≤ length word.now }
{
    word.len() >= least && whole.starts_with(word)
}

/// What a word counts, if it is an abbreviation of `chars`, `indices` or `lines`.
fn read_unit(word: &[u8]) -> Option<Unit>
    ensures { result ≡ unit_of word.now }
{
    if abbreviates(word, 1, b"chars") || abbreviates(word, 1, b"indices") {
        return Some(Unit::Characters);
    }
    if abbreviates(word, 1, b"lines") {
        return Some(Unit::Lines);
    }
    None
}

/// The step that a word is, if it is an abbreviation of a keyword.
fn read_keyword(word: &[u8]) -> Option<Modifier>
    ensures value { result ≡ keyword_of word.now }
    ensures long { IfSome result (λ _. 5 ≤ length word.now) }
{
    if abbreviates(word, 5, b"linestart") {
        return Some(Modifier::LineStart);
    }
    if abbreviates(word, 5, b"lineend") {
        return Some(Modifier::LineEnd);
    }
    if abbreviates(word, 5, b"wordstart") {
        return Some(Modifier::WordStart);
    }
    if abbreviates(word, 5, b"wordend") {
        return Some(Modifier::WordEnd);
    }
    None
}

/// A count of units, forward or back.
fn read_count(is_plus: bool, count: usize, word: &[u8]) -> Option<Modifier>
    ensures { (number : Option ℕ) → Some count ≡ option_map (min usize.MAX) number →
        result ≡ option_map grammar.saturated_modifier (grammar.counted is_plus number word.now) }
{
    let unit = read_unit(word)?;
    if is_plus {
        return Some(Modifier::Forward(unit, count));
    }
    Some(Modifier::Back(unit, count))
}

/// Reads the digits that a text begins with, blanks before them, as a number. Returns it with what follows it.
fn next_number(text: &[u8]) -> Option<(usize, &[u8])>
    ensures first { digits_first (tokens_of text.now)
        ≡ option_map (λ found. (front_digits text.now, tokens_of found.1.now)) result }
    ensures number { option_map (λ found. found.0) result
        ≡ option_map (min usize.MAX) (grammar.number_of (front_digits text.now)) }
    ensures bound { IfSome result (λ found. length found.1.now + 1 ≤ length text.now) }
{
    front_number(skip_blanks(text))
}

/// The word that a text begins with, and what stands behind it.
fn next_word(text: &[u8]) -> Option<(&[u8], &[u8])>
    ensures value { word_first (tokens_of text.now) ≡ bytes_first result }
    ensures bound { IfSome result (λ found. length found.1.now + 1 ≤ length text.now) }
{
    match next_piece(text)? {
        (LentToken::Word(word), rest) => Some((word, rest)),
        _ => None,
    }
}

/// The unit that a text begins with, behind `any` or without, and what stands behind it.
fn next_unit(text: &[u8]) -> Option<(&[u8], &[u8])>
    ensures value { unit_first (tokens_of text.now) ≡ bytes_first result }
    ensures bound { IfSome result (λ found. length found.1.now + 1 ≤ length text.now) }
{
    let (word, rest) = next_word(text)?;
    if word != b"any".as_slice() {
        return Some((word, rest));
    }
    next_word(rest)
}

/// What follows a sign: a count and a unit, with `any` before the unit or without; and what stands behind that.
fn read_counted(is_plus: bool, text: &[u8]) -> Option<(Modifier, &[u8])>
    ensures value { saturated (modifiers_of (grammar.Token.Sign is_plus ∷ tokens_of text.now)) ≡ stepped result }
    ensures bound { IfSome result (λ found. length found.1.now + 2 ≤ length text.now) }
{
    let (count, rest) = next_number(text)?;
    let (word, rest) = next_unit(rest)?;
    let modifier = read_count(is_plus, count, word)?;
    Some((modifier, rest))
}

/// The first modifier of a text after its first piece, and what stands behind it.
fn read_step<'a>(first: LentToken<'a>, text: &'a [u8]) -> Option<(Modifier, &'a [u8])>
    ensures value { saturated (modifiers_of (token_of first.entry ∷ tokens_of text.now)) ≡ stepped result }
    ensures bound { IfSome result (λ found. length found.1.now + 3 ≤ piece_len first.entry + length text.now) }
{
    match first {
        LentToken::Sign(is_plus) => read_counted(is_plus, text),
        LentToken::Word(word) => Some((read_keyword(word)?, text)),
        LentToken::Digits(_) => None,
    }
}

/// Reads the first modifier of what follows the base of an index. Returns it with what follows it, and `None` where no
/// more than blanks are left; "bad text index" where what comes first is no modifier.
pub fn next_modifier(text: &[u8]) -> Result<Option<(Modifier, &[u8])>, IndexFault>
    ensures ok { IfOk result (λ found. saturated (modifiers_of (tokens_of text.now)) ≡ left found) }
    ensures err { IfErr result (λ fault. (fault ≡ BadIndex) × (saturated (modifiers_of (tokens_of text.now)) ≡ None)) }
    ensures bound { IfOk result (λ found. IfSome found (λ step. length step.1.now < length text.now)) }
{
    let Some((first, behind)) = next_piece(text) else {
        return Ok(None);
    };
    match read_step(first, behind) {
        Some(step) => Ok(Some(step)),
        None => Err(IndexFault::BadIndex),
    }
}

/// The modifiers that a text is.
pub(crate) fn read_steps(alloc: Global, text: &[u8]) -> Result<Modifiers, IndexFault>
    ensures ok { IfOk result (λ steps. saturated (modifiers_of (tokens_of text.now)) ≡ Some steps) }
    ensures err { IfErr result (λ fault. fault ≢ Memory → (fault ≡ BadIndex)
        × (saturated (modifiers_of (tokens_of text.now)) ≡ None)) }
{
    let mut modifiers = Vec::new(alloc);
    let mut rest = text;
    while let Some((modifier, behind)) = next_modifier(rest)? {
        modifiers.reserve(1)?;
        modifiers.push(modifier).unwrap();
        rest = behind;
    }
    Ok(Modifiers::new(modifiers))
}
