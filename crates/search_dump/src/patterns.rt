//! Patterns of a search: case folding, the period of a pattern, and where it is in a text.

ghost use Rattle.std.specs.Prelude.{◌≡◌, ◌+◌, chars, find, length, map, reverse, string_bytes, IfOk, IfSome};
ghost use Rattle.ucd_case.specs.CaseFolding.{simple_fold};
ghost use Rattle.std.specs.Option.{ForSome};
ghost use Rattle.std.specs.Str.{IsAscii};
ghost use Rattle.search_dump.specs.Matches.{compared, matches_at, places};
ghost use Rattle.search_dump.specs.Stretches.{ordered, IsPeriod};

use std::alloc::{AllocError, Global};
use text_index::Direction;
use unicode::case::simple_fold;

/// The simple fold of a character. The tables are asked for one that isn't ASCII alone.
fn fold_of(character: char) -> char
    ensures { result ≡ simple_fold character }
{
    if character.is_ascii() {
        return character.to_ascii_lowercase();
    }
    simple_fold(character)
}

/// The simple fold of each character.
fn folded(alloc: Global, text: &str) -> Result<String, AllocError>
    ensures { IfOk result (λ folds. chars (string_bytes folds) ≡ map simple_fold (chars text.now)) }
{
    let mut folds = String::with_capacity(alloc, text.len())?;
    for character in text.chars() {
        folds.push(fold_of(character))?;
    }
    Ok(folds)
}

/// The simple fold of each character of a text that is ASCII, in its place.
fn lowered(text: String) -> String
    requires { IsAscii (string_bytes text) }
    ensures { chars (string_bytes result) ≡ map simple_fold (chars (string_bytes text)) }
{
    let mut text = text;
    text.make_ascii_lowercase();
    text
}

/// A text as it is compared: its simple folds where case is ignored.
pub fn compared(text: String, ignores_case: bool) -> Result<String, AllocError>
    ensures { IfOk result (λ made. chars (string_bytes made) ≡ compared ignores_case (chars (string_bytes text))) }
{
    if !ignores_case {
        return Ok(text);
    }
    if text.as_str().is_ascii() {
        return Ok(lowered(text));
    }
    folded(*text.allocator(), text.as_str())
}

/// The least distance, if it is about half of a pattern at most, at which a second match may begin in one: the
/// characters before that distance are those that the pattern repeats.
#[derive(Clone, Copy)]
pub struct Period<'a> {
    /// The distance, in characters.
    pub len: usize,
    /// So many characters at the front of the pattern.
    pub front: &'a str,
    /// So many characters at its end.
    pub tail: &'a str,
}

impl<'a> Period<'a> {
    /// The period of a pattern. The half of the pattern stands in it a second time at the period first; where the rest
    /// doesn't go on like that, no distance within the half has a second match.
    fn of(pattern: &'a str) -> Option<Period<'a>>
        ensures { IfSome result (λ period. IsPeriod (chars pattern.now) period.len (chars period.front.now)
            (chars period.tail.now)) }
    {
        let half = &pattern[..pattern.ceil_char_boundary(pattern.len().div_ceil(2))];
        let mut characters = pattern.chars();
        characters.next()?;
        let later = characters.as_str();
        let at = pattern.len() - later.len() + later.find(half)?;
        let tail = pattern.strip_prefix(&pattern[at..])?;
        let front = &pattern[..at];
        Some(Period {
            len: front.chars().count(),
            front,
            tail,
        })
    }
}

/// What is searched, as the text is compared with it.
#[derive(Clone, Copy)]
pub struct Pattern<'a> {
    pub text: &'a str,
    /// How many characters it has.
    pub len: usize,
    pub ignores_case: bool,
    pub period: Option<Period<'a>>,
    ghost counted: { len ≡ length (chars text.now) },
    ghost repeats: { ForSome period (λ at. IsPeriod (chars text.now) at.len (chars at.front.now) (chars at.tail.now)) },
}

impl<'a> Pattern<'a> {
    /// A pattern of characters that are folded where case is ignored.
    pub fn new(text: &'a str, ignores_case: bool) -> Pattern<'a>
        ensures text { result.text.now ≡ text.now }
        ensures case { result.ignores_case ≡ ignores_case }
    {
        Pattern {
            text,
            len: text.chars().count(),
            ignores_case,
            period: Period::of(text),
        }
    }
}

/// How many characters a text has. Those of an ASCII text needn't be counted.
#[tactic(auto, using(crate::proofs::TextLaws::ascii_count))]
fn count(text: &str) -> usize
    ensures { result ≡ length (chars text.now) }
{
    if text.is_ascii() {
        return text.len();
    }
    text.chars().count()
}

/// How many characters stand before the first place in a text at which a pattern does.
fn first_place(text: &str, pattern: &str) -> Option<usize>
    ensures { result ≡ find (matches_at (chars pattern.now) (chars text.now) (length (chars text.now)))
        (places 0 (length (chars text.now) + 1)) }
{
    let at = text.find(pattern)?;
    Some(count(&text[..at]))
}

/// How many characters stand before the last place in a text at which a pattern does.
fn last_place(text: &str, pattern: &str) -> Option<usize>
    ensures { result ≡ find (matches_at (chars pattern.now) (chars text.now) (length (chars text.now)))
        (reverse (places 0 (length (chars text.now) + 1))) }
{
    let at = text.rfind(pattern)?;
    Some(count(&text[..at]))
}

/// How many characters stand before the place in a text at which a pattern does first in a direction.
pub fn nearest_place(direction: Direction, text: &str, pattern: &str) -> Option<usize>
    ensures { result ≡ find (matches_at (chars pattern.now) (chars text.now) (length (chars text.now)))
        (ordered direction (places 0 (length (chars text.now) + 1))) }
{
    match direction {
        Direction::Forward => first_place(text, pattern),
        Direction::Back => last_place(text, pattern),
    }
}
