//! What a store is asked, as data: each query of `TextStore` at an offset, of a line or of a mark, but for the text.

ghost use Rattle.std.specs.Prelude.{◌<◌, ◌==◌, ◌&&◌, length, not, refl};

use crate::edits::SLOTS;
use text_model::{CharacterTest, Gravity, MarkNo, TagSet, TextStore};

/// What is found where there is nothing.
pub const NONE: usize = 999_999;

/// What is asked of a store at an offset, or of a line or a mark of that number. Two numbers are answered.
#[derive(Clone, Copy)]
pub enum Query {
    /// How many characters there are, and how many newlines.
    Size,
    /// The character, and the number of its line.
    Character,
    /// Where a line begins.
    Line,
    /// Where a line begins and ends that has a newline.
    Bounds,
    /// The number of the line of an offset, and where the line begins.
    LineAt,
    /// Where the line of an offset ends.
    LineEnd,
    /// Where the run up to a character begins, and where the one from it on ends: see `RunTest`.
    Run,
    /// Which of `SLOTS` the character before has, and which the one at the offset, as bits; `NONE` with others.
    Tags,
    /// Whether the character has one of `SLOTS`, and what `tags_at` says of that.
    HasTag(usize),
    /// Where one of `SLOTS` changed last, up to the character, and where next after it.
    Change(usize),
    /// Where a mark is, and 1 if its gravity is right.
    Mark,
    /// The last mark before an offset, and the next from it on.
    MarksNear,
    /// The marks of two numbers in the order of those at an offset.
    MarksAt(usize),
}

/// A run ends at a newline, and at an `n`.
struct RunTest;

impl CharacterTest for RunTest {
    ghost test = { λ c. not (c == 10) && not (c == 110) };

    fn passes(character: char) -> bool {
        character != '\n' && character != 'n'
    }

    ghost stops_at_newline = { refl };
}

type Answer = (usize, usize);

fn line<S: TextStore>(store: &S, number: usize) -> Option<Answer> {
    if store.lines() < number {
        return None;
    }
    Some((store.line_start(number), 0))
}

fn bounds<S: TextStore>(store: &S, number: usize) -> Option<Answer> {
    if store.lines() <= number {
        return None;
    }
    Some(store.line_bounds(number))
}

fn line_at<S: TextStore>(store: &S, offset: usize) -> Option<Answer> {
    if store.len() < offset {
        return None;
    }
    let line = store.line_at(offset);
    Some((line.number, line.start))
}

fn line_end<S: TextStore>(store: &S, offset: usize) -> Option<Answer> {
    if store.len() < offset {
        return None;
    }
    Some((store.line_at(offset).end, 0))
}

fn bit(index: usize) -> usize {
    match index {
        0 => 1,
        1 => 2,
        2 => 4,
        _ => 8,
    }
}

/// The bits of those of `SLOTS` that are in a set, if it has no others.
pub fn bits_of(tags: &TagSet) -> usize {
    let mut bits = 0usize;
    let mut rest = *tags;
    for (index, slot) in SLOTS.iter().enumerate() {
        if tags.has(*slot) {
            bits = bits.wrapping_add(bit(index));
            rest = rest.without(*slot);
        }
    }
    if rest.is_empty() { bits } else { NONE }
}

fn tags<S: TextStore>(store: &S, offset: usize) -> Answer
    requires { offset < length (S.content store.now).cells }
{
    let (before, at) = store.tags_around(offset);
    let is_same = store.tags_at(offset).words() == at.words();
    (bits_of(&before), if is_same { bits_of(&at) } else { NONE })
}

/// The answer of a query at a character.
fn ask_character<S: TextStore>(store: &S, query: Query, offset: usize) -> Option<Answer> {
    if store.len() <= offset {
        return None;
    }
    match query {
        Query::Character => Some((store.char_at(offset) as usize, store.line_of(offset))),
        Query::Run => Some((
            store.run_start::<RunTest>(offset + 1),
            store.run_end::<RunTest>(offset),
        )),
        Query::Tags => Some(tags(store, offset)),
        _ => None,
    }
}

/// The answer of a query of one of `SLOTS` at a character.
fn ask_slot<S: TextStore>(store: &S, query: Query, offset: usize) -> Option<Answer> {
    if store.len() <= offset {
        return None;
    }
    match query {
        Query::HasTag(index) if index < 4 => {
            let slot = SLOTS[index];
            let is_on = store.has_tag(offset, slot);
            Some((is_on as usize, store.tags_at(offset).has(slot) as usize))
        }
        Query::Change(index) if index < 4 => Some((
            store.previous_change(offset + 1, SLOTS[index]),
            store.next_change(offset, SLOTS[index]),
        )),
        _ => None,
    }
}

fn mark<S: TextStore>(store: &S, number: usize) -> Option<Answer> {
    if 1_000 < number {
        return None;
    }
    match store.mark_place(MarkNo(number as u16)) {
        Some(place) => Some((place.offset, (place.gravity == Gravity::Right) as usize)),
        None => Some((NONE, 0)),
    }
}

fn marks_near<S: TextStore>(store: &S, offset: usize) -> Answer {
    (
        store.previous_mark(offset).unwrap_or(NONE),
        store.next_mark(offset).unwrap_or(NONE),
    )
}

/// The number of a mark, if there is one.
pub fn number_of(mark: Option<MarkNo>) -> usize {
    match mark {
        Some(mark) => mark.0 as usize,
        None => NONE,
    }
}

fn marks_at<S: TextStore>(store: &S, offset: usize, index: usize) -> Answer {
    (
        number_of(store.mark_at(offset, index)),
        number_of(store.mark_at(offset, index.saturating_add(1))),
    )
}

/// What a store answers, where there is such a place.
pub fn ask<S: TextStore>(store: &S, query: Query, at: usize) -> Option<Answer> {
    match query {
        Query::Size => Some((store.len(), store.lines())),
        Query::Line => line(store, at),
        Query::Bounds => bounds(store, at),
        Query::LineAt => line_at(store, at),
        Query::LineEnd => line_end(store, at),
        Query::HasTag(_) | Query::Change(_) => ask_slot(store, query, at),
        Query::Mark => mark(store, at),
        Query::MarksNear => Some(marks_near(store, at)),
        Query::MarksAt(index) => Some(marks_at(store, at, index)),
        Query::Character | Query::Run | Query::Tags => ask_character(store, query, at),
    }
}
