//! The part of a text that a widget shows, with places and lines counted from its start.

ghost use Rattle.std.specs.Prelude.{◌≡◌, ℕ, suc, ◌≤◌, ◌<◌, ◌+◌, ◌-◌, None, Some, length, IfOk, IfSome};
ghost use Rattle.std.specs.Prelude.{IsSome, IsTrue, chars, slice_index, slice_range, string_bytes};
ghost use Rattle.text_model.specs.Content.{characters};
ghost use Rattle.text_model.specs.Lines.{IsLineOf, IsLineStart, lines, line_of, line_start};
ghost use Rattle.text_index.specs.Views.{shown, IsView};

use std::alloc::AllocError;
use text_model::{LineSpan, TextStore};

/// Whether a line begins at an offset, or the text ends there.
fn is_line_start<S: TextStore>(store: &S, offset: usize) -> bool
    ensures yes { IsTrue result → IsLineStart (characters (S.content store.now).cells) offset }
    ensures no { IsLineStart (characters (S.content store.now).cells) offset → IsTrue result }
{
    offset <= store.len() && store.line_start(store.line_of(offset)) == offset
}

/// How many newlines stand before an offset; all of them for one behind the end.
fn lines_before<S: TextStore>(store: &S, offset: usize) -> usize
    ensures { result ≡ line_of (characters (S.content store.now).cells) offset }
{
    if offset == 0 {
        0
    } else if offset < store.len() {
        store.line_of(offset)
    } else {
        store.lines()
    }
}

/// The part of a text that a widget shows: whole lines, from the character at offset `start` to before the one at
/// `end`. Places and lines of a view count from 0. The number of its first line in the text may be known.
#[derive(Drop)]
pub struct View<'a, S: TextStore> {
    pub store: &'a S,
    pub start: usize,
    pub end: usize,
    first_line: Option<usize>,
    ghost whole_lines: { IsView (record { content = S.content store.now; start = start; end = end }) },
    ghost numbered: { (line : ℕ) → first_line ≡ Some line →
        line ≡ line_of (characters (S.content store.now).cells) start },
}

impl<'a, S: TextStore> View<'a, S> {
    ghost use Rattle.text_index.specs.Parts.{part_of};

    /// Returns the view from one offset to another, both of which are the start of a line or the end of the text. The
    /// store isn't asked for a line.
    #[inline(always)]
    pub fn new(store: &'a S, start: usize, end: usize) -> View<'a, S>
        requires { IsView (record { content = S.content store.now; start = start; end = end }) }
        ensures { part_of result ≡ record { content = S.content store.now; start = start; end = end } }
    {
        View {
            store,
            start,
            end,
            first_line: (start == 0).then_some(0),
        }
    }

    /// Returns the view from one offset to another, if each of the two is the start of a line or the end of the text.
    pub fn try_new(store: &'a S, start: usize, end: usize) -> Option<View<'a, S>>
        ensures some { IfSome result (λ view.
            part_of view ≡ record { content = S.content store.now; start = start; end = end }) }
        ensures none { IsView (record { content = S.content store.now; start = start; end = end }) →
            IsSome result }
    {
        if start <= end && is_line_start(store, start) && is_line_start(store, end) {
            Some(View::new(store, start, end))
        } else {
            None
        }
    }

    /// Returns the same view, for callers that ask for the lines of several places: the store is asked for the first
    /// line now, and then no more.
    pub fn lined(&self) -> View<'a, S>
        ensures { part_of result ≡ part_of self.now }
    {
        let first_line = match self.first_line {
            Some(line) => line,
            None => lines_before(self.store, self.start),
        };
        View {
            store: self.store,
            start: self.start,
            end: self.end,
            first_line: Some(first_line),
        }
    }

    /// How many characters it shows.
    pub fn len(&self) -> usize
        ensures { result ≡ length (shown (part_of self.now)) }
    {
        self.end - self.start
    }

    /// The number of its first line in the text.
    #[inline(always)]
    fn first_line(&self) -> usize
        ensures { result ≡ line_of (characters (S.content self.now.store.now).cells) self.now.start }
    {
        match self.first_line {
            Some(line) => line,
            None => self.store.line_of(self.start),
        }
    }

    /// How many lines it shows.
    pub fn lines(&self) -> usize
        ensures { result ≡ lines (shown (part_of self.now)) }
    {
        self.store.line_of(self.end) - self.first_line()
    }

    /// The line of a place.
    pub fn line_of(&self, place: usize) -> usize
        requires within { self.now.start + place ≤ self.now.end }
        ensures { result ≡ line_of (shown (part_of self.now)) place }
    {
        self.store.line_of(self.start + place) - self.first_line()
    }

    /// The line of a place, with where it begins and where the line behind it does. The store is asked once, and for
    /// the first line where that isn't known.
    pub fn line_at(&self, place: usize) -> LineSpan
        requires within { self.now.start + place ≤ self.now.end }
        ensures line { IsLineOf (shown (part_of self.now)) place result }
        ensures before { result.start ≤ place }
        ensures bound { self.now.start + result.end ≤ self.now.end }
    {
        let line = self.store.line_at(self.start + place);
        LineSpan {
            number: line.number - self.first_line(),
            start: line.start - self.start,
            end: line.end.min(self.end) - self.start,
        }
    }

    /// The line of a place, where that of another place is at hand: the store is asked only where it is another line.
    pub fn line_on(&self, from: usize, line: LineSpan, place: usize) -> LineSpan
        requires from { IsLineOf (shown (part_of self.now)) from line }
        requires within { self.now.start + place ≤ self.now.end }
        ensures line { IsLineOf (shown (part_of self.now)) place result }
        ensures before { result.start ≤ place }
    {
        if line.start <= place && place < line.end {
            return line;
        }
        self.line_at(place)
    }

    /// Where the line of a place begins.
    pub fn start_at(&self, place: usize) -> usize
        requires within { self.now.start + place ≤ self.now.end }
        ensures value { result ≡ line_start (line_of (shown (part_of self.now)) place)
            (shown (part_of self.now)) }
        ensures bound { self.now.start + result ≤ self.now.end }
    {
        self.store.line_at(self.start + place).start - self.start
    }

    /// Where the line behind that of a place begins.
    pub fn behind_at(&self, place: usize) -> usize
        requires within { self.now.start + place < self.now.end }
        ensures value { result ≡ line_start (line_of (shown (part_of self.now)) place
            + 1)
            (shown (part_of self.now)) }
        ensures some { 0 < result }
        ensures bound { self.now.start + result ≤ self.now.end }
    {
        self.store.line_at(self.start + place).end - self.start
    }

    /// Where a line begins; the end for one behind the last.
    pub fn line_start(&self, line: usize) -> usize
        ensures value { result ≡ line_start line (shown (part_of self.now)) }
        ensures bound { self.now.start + result ≤ self.now.end }
    {
        let number = self.first_line().saturating_add(line);
        if number >= self.store.lines() {
            return self.end - self.start;
        }
        self.store.line_start(number).min(self.end) - self.start
    }

    /// Where a line begins, and where the line behind it does, if the view has that line. The store is asked once, and
    /// for the first line where that isn't known.
    #[inline(always)]
    pub fn line_bounds(&self, line: usize) -> Option<(usize, usize)>
        ensures none { result ≡ None → lines (shown (part_of self.now)) ≤ line }
        ensures some { IfSome result (λ _. line < lines (shown (part_of self.now))) }
        ensures start { IfSome result (λ bounds.
            bounds.0 ≡ line_start line (shown (part_of self.now))) }
        ensures end { IfSome result (λ bounds.
            bounds.1 ≡ line_start (suc line) (shown (part_of self.now))) }
        ensures bound { IfSome result (λ bounds. self.now.start + bounds.1 ≤ self.now.end) }
    {
        let number = self.first_line().saturating_add(line);
        if number >= self.store.lines() {
            return None;
        }
        let (start, behind) = self.store.line_bounds(number);
        if self.end < behind {
            return None;
        }
        Some((start - self.start, behind - self.start))
    }

    /// Where the line behind a line begins, if the view has that line.
    pub fn behind_line(&self, line: usize) -> Option<usize>
        ensures none { result ≡ None → lines (shown (part_of self.now)) ≤ line }
        ensures some { IfSome result (λ _. line < lines (shown (part_of self.now))) }
        ensures value { IfSome result (λ behind.
            behind ≡ line_start (suc line) (shown (part_of self.now))) }
        ensures bound { IfSome result (λ behind. self.now.start + behind ≤ self.now.end) }
    {
        let number = self.first_line().saturating_add(line);
        if number >= self.store.lines() {
            return None;
        }
        let behind = self.store.line_start(number + 1);
        if self.end < behind {
            return None;
        }
        Some(behind - self.start)
    }

    /// The characters from one place to another.
    pub fn copy_text(&self, from: usize, to: usize) -> Result<String, AllocError>
        requires ordered { from ≤ to }
        requires within { self.now.start + to ≤ self.now.end }
        ensures { IfOk result (λ text. chars (string_bytes text) ≡ slice_range (shown (part_of self.now)) from to) }
    {
        self.store.copy_text(self.start + from, self.start + to)
    }

    /// The character at a place.
    pub fn char_at(&self, place: usize) -> char
        requires within { self.now.start + place < self.now.end }
        ensures { result ≡ slice_index (shown (part_of self.now)) place }
    {
        self.store.char_at(self.start + place)
    }
}
