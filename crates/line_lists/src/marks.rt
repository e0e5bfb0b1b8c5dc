//! Finds, removes and adds the marks of a draft by their numbers.

ghost use Rattle.std.specs.Prelude.{◌≡◌, ◌-◌, ◌<◌, ◌≤◌, [], ◌∷◌, IfSome, OnOk, None, length, take, drop};
ghost use Rattle.std.specs.FinMap as finite;
ghost use Rattle.line_lists.specs.DraftTexts.{IsTextIn, lines_in, text_in};
ghost use Rattle.line_lists.specs.Drafts.{CanFollow, copies_of, made_lines};
ghost use Rattle.line_lists.specs.Edits.{with_mark, without_mark};
ghost use Rattle.line_lists.specs.Lists.{has_mark, next_line};
ghost use Rattle.line_lists.specs.Marking.{StandsIn, lines_with};
ghost use Rattle.line_lists.specs.Texts.{whole};

use crate::drafts::{Copied, Draft, Found, Reached, span};
use crate::lists::LineList;
use segments::Line;
use std::alloc::AllocError;
use text_model::{MarkNo, Place};

/// The column before which the mark of a number stands in a line, that of the last character if it stands at the end.
fn mark_column(line: &Line, number: MarkNo) -> Option<usize>
    requires { 0 < length line.now.columns }
    ensures some { IfSome result (λ column. StandsIn number.0 column (line.now ∷ [])) }
    ensures inside { IfSome result (λ column. column < length line.now.columns) }
    ensures none { result ≡ None → finite.get line.now.marks number.0 ≡ None }
{
    let place = line.mark_place(number)?;
    Some(place.offset.min(line.len() - 1))
}

impl<'a, L: LineList> Draft<'a, L> {
    /// Puts the mark of a number, which marks nothing, at the end of the text.
    pub fn put_last_mark(&mut self, number: MarkNo, place: Place) -> Result<(), AllocError>
        requires is { IsTextIn L.lines self.old }
        requires end { place.offset ≡ length (text_in L.lines self.old).columns }
        requires free { finite.get (text_in L.lines self.old).marks number.0 ≡ None }
        ensures list { self.new.list.now ≡ self.old.list.now }
        ensures is { OnOk result (IsTextIn L.lines self.new) }
        ensures new { OnOk result (text_in L.lines self.new ≡ with_mark number.0 place (text_in L.lines self.old)) }
    {
        let Found { mut stop, column } = self.take(place.offset - 1)?;
        let there = Place {
            offset: column + 1,
            gravity: place.gravity,
        };
        stop.copy.line.put_mark(number, there)?;
        self.put(stop);
        Ok(())
    }

    /// Where the mark of a number stands in the lines of the list from one to another, counted from the first of them.
    /// In the whole list it stands in a line that is given.
    fn find_kept(
        &self,
        from: usize,
        to: usize,
        number: MarkNo,
        marked: Option<usize>,
    ) -> Option<usize>
        requires ordered { from ≤ to }
        requires within { to ≤ length (L.lines self.now.list.now) }
        requires marked { marked ≡ next_line (has_mark number.0) 0 (L.lines self.now.list.now) }
        ensures some { IfSome result (λ offset.
            StandsIn number.0 offset (take (to - from) (drop from (L.lines self.now.list.now)))) }
        ensures none { result ≡ None → finite.get
            (whole (take (to - from) (drop from (L.lines self.now.list.now)))).marks number.0 ≡ None }
    {
        let index = marked?;
        if index < from || to <= index {
            return None;
        }
        let column = mark_column(self.list.line(index), number)?;
        Some(span(self.list, from, index - from) + column)
    }

    /// Where the mark of a number stands in the lines that are kept before a copy and in the copy's line, counted from
    /// the first of them. In the list it stands in a line that is given.
    fn find_copied(
        &self,
        reached: &Reached,
        copy: &Copied,
        number: MarkNo,
        marked: Option<usize>,
    ) -> Option<usize>
        requires follows { CanFollow reached.now copy.now (L.lines self.now.list.now) }
        requires some { 0 < length copy.now.line.columns }
        requires marked { marked ≡ next_line (has_mark number.0) 0 (L.lines self.now.list.now) }
        ensures some { IfSome result (λ offset.
            StandsIn number.0 offset (lines_with reached.now copy.now (L.lines self.now.list.now))) }
        ensures none { result ≡ None → finite.get
            (whole (lines_with reached.now copy.now (L.lines self.now.list.now))).marks number.0 ≡ None }
    {
        let from = reached.used;
        let to = from + copy.kept;
        let Some(column) = mark_column(&copy.line, number) else {
            return self.find_kept(from, to, number, marked);
        };
        Some(span(self.list, from, copy.kept) + column)
    }

    /// Where the mark of a number stands in the text, if that is in what the copies before the place cover.
    fn find_before(&self, number: MarkNo, marked: Option<usize>) -> Option<usize>
        requires is { IsTextIn L.lines self.now }
        requires marked { marked ≡ next_line (has_mark number.0) 0 (L.lines self.now.list.now) }
        ensures some { IfSome result (λ offset. StandsIn number.0 offset (lines_in L.lines self.now)) }
        ensures none { result ≡ None → finite.get
            (whole (made_lines (copies_of self.now.front.items) (L.lines self.now.list.now))).marks number.0 ≡ None }
    {
        for stop in &self.front {
            if let Some(offset) = self.find_copied(&stop.reached, &stop.copy, number, marked) {
                return Some(stop.reached.characters + offset);
            }
        }
        None
    }

    /// Where the mark of a number stands in the text, if it isn't in what the copies before the place cover.
    fn find_behind(&self, number: MarkNo, marked: Option<usize>) -> Option<usize>
        requires is { IsTextIn L.lines self.now }
        requires marked { marked ≡ next_line (has_mark number.0) 0 (L.lines self.now.list.now) }
        requires none { finite.get
            (whole (made_lines (copies_of self.now.front.items) (L.lines self.now.list.now))).marks number.0 ≡ None }
        ensures some { IfSome result (λ offset. StandsIn number.0 offset (lines_in L.lines self.now)) }
        ensures none { result ≡ None → finite.get (text_in L.lines self.now).marks number.0 ≡ None }
    {
        let mut reached = self.reached();
        for index in (0..self.back.len()).rev() {
            let copy = &self.back[index];
            if let Some(offset) = self.find_copied(&reached, copy, number, marked) {
                return Some(reached.characters + offset);
            }
            reached = reached.with(self.list, copy);
        }
        let offset = self.find_kept(reached.used, self.list.len(), number, marked)?;
        Some(reached.characters + offset)
    }

    /// Where the mark of a number stands in the text of the list, which is that of a draft without copies.
    fn find_listed(&self, number: MarkNo) -> Option<usize>
        ensures some { IfSome result (λ offset. StandsIn number.0 offset (L.lines self.now.list.now)) }
        ensures none { result ≡ None → finite.get (whole (L.lines self.now.list.now)).marks number.0 ≡ None }
    {
        let (start, line) = self.list.marked_line(number)?;
        let column = mark_column(line, number)?;
        Some(start + column)
    }

    /// Where the mark of a number stands in the text.
    fn find_mark(&self, number: MarkNo) -> Option<usize>
        requires { IsTextIn L.lines self.now }
        ensures some { IfSome result (λ offset. StandsIn number.0 offset (lines_in L.lines self.now)) }
        ensures none { result ≡ None → finite.get (text_in L.lines self.now).marks number.0 ≡ None }
    {
        if self.front.is_empty() && self.back.is_empty() {
            return self.find_listed(number);
        }
        let marked = self.list.mark_line(number);
        match self.find_before(number, marked) {
            None => self.find_behind(number, marked),
            Some(offset) => Some(offset),
        }
    }

    /// Takes the mark of a number away, wherever it stands, if it does.
    pub fn take_mark(&mut self, number: MarkNo) -> Result<(), AllocError>
        requires is { IsTextIn L.lines self.old }
        ensures list { self.new.list.now ≡ self.old.list.now }
        ensures is { OnOk result (IsTextIn L.lines self.new) }
        ensures new { OnOk result (text_in L.lines self.new ≡ without_mark number.0 (text_in L.lines self.old)) }
    {
        match self.find_mark(number) {
            None => Ok(()),
            Some(offset) => self.take_mark_at(offset, number),
        }
    }
}
