//! Reads the place that a word begins with: a line, a dot, and a character of the line or `end`.

ghost use Rattle.std.specs.Prelude.{◌≡◌, ◌≢◌, ◌∷◌, ℕ, List, chars, position, IfSome, MatchOption};
ghost use Rattle.index_grammar.specs.Grammar.{in_line, around_dot, place_of, place_base};
ghost use Rattle.index_grammar.specs.Reading.{is_dot, read_of, found_of, Reads};
ghost use Rattle.index_grammar.specs.Reading.{HasSlot};

use crate::indices::Base;
use crate::numbers::front_number;
use crate::tokens::closes;

/// Reads what follows a line and its dot: a character of the line, or `end`. Returns it with what follows it.
#[inline(always)]
fn read_in_line(line: usize, text: &[u8]) -> Option<(Base, &[u8])>
    ensures value { Reads (in_line line) text.now result }
    ensures slot { IfSome result (λ found. HasSlot found.0) }
{
    if let Some(rest) = text.strip_prefix(b"end") {
        return Some((Base::LineEnd(line), rest));
    }
    let (character, rest) = front_number(text)?;
    Some((Base::At(line, character), rest))
}

/// What follows the dot that a text begins with.
#[inline(always)]
fn strip_dot(text: &[u8]) -> Option<&[u8]>
    ensures { MatchOption result ((rest : List ℕ) → text.now ≢ 46 ∷ rest) (λ rest. text.now ≡ 46 ∷ rest.now) }
{
    match text {
        [b'.', rest @ ..] => Some(rest),
        _ => None,
    }
}

/// Reads a line, a dot, and a character of the line or `end`. Returns the place with what follows it.
#[inline(always)]
fn read_around_dot(text: &[u8]) -> Option<(Base, &[u8])>
    ensures value { Reads (λ front. around_dot front (position is_dot front)) text.now result }
    ensures slot { IfSome result (λ found. HasSlot found.0) }
{
    let (line, rest) = front_number(text)?;
    read_in_line(line, strip_dot(rest)?)
}

/// Reads the place that a text begins with, and returns it with what follows it.
#[inline(always)]
fn read_place(text: &[u8]) -> Option<(Base, &[u8])>
    ensures value { Reads place_of text.now result }
    ensures slot { IfSome result (λ found. HasSlot found.0) }
{
    if let Some(rest) = text.strip_prefix(b"end") {
        return Some((Base::End, rest));
    }
    read_around_dot(text)
}

/// Reads the place that a word begins with, up to a blank, a sign or the end, and returns it with what follows it.
#[inline(always)]
pub(crate) fn find_place(word: &str) -> Option<(Base, &str)>
    ensures value { read_of (chars word.now) (place_base (chars word.now)) ≡ found_of result }
    ensures slot { IfSome result (λ found. HasSlot found.0) }
{
    let (base, rest) = read_place(word.as_bytes())?;
    if !closes(rest) {
        return None;
    }
    Some((base, &word[word.len() - rest.len()..]))
}
