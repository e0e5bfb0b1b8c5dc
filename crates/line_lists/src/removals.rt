//! Removes characters from a draft, and joins the lines whose newlines are removed.

ghost use Rattle.std.specs.Prelude.{◌≡◌, ◌+◌, ◌<◌, ◌≤◌, ◌^◌, ◌∷◌, [], ◌++◌, IfOk, OnOk, length, take, drop, vec_len};
ghost use Rattle.std.specs.Prelude.{vec_capacity};
ghost use Rattle.segments.specs.Columns.{after_removal, joined};
ghost use Rattle.line_lists.specs.DraftTexts.{IsTakenFrom, IsTextIn, text_in};
ghost use Rattle.line_lists.specs.Drafts.{IsTaken, copies_of, covered, lines_behind};
ghost use Rattle.line_lists.specs.Removals.{HoldsMore, IsHeld, JoinsNext, held_at, held_text};
ghost use Rattle.line_lists.specs.Texts.{whole};

use crate::drafts::{Copied, Draft, Found, Stop};
use crate::lists::LineList;
use std::alloc::AllocError;

impl Copied {
    /// Joins the line of the copy behind it, before which no line is kept.
    fn join(&mut self, next: &Copied) -> Result<(), AllocError>
        requires { self.old.gone + next.now.gone < 2 ^ 64 }
        ensures kept { self.new.kept ≡ self.old.kept }
        ensures gone { OnOk result (self.new.gone ≡ self.old.gone + next.now.gone) }
        ensures line { OnOk result (self.new.line ≡ joined self.old.line next.now.line) }
    {
        self.line.join_copy(&next.line)?;
        self.gone += next.gone;
        Ok(())
    }
}

impl<'a, L: LineList> Draft<'a, L> {
    /// Joins the line of the list behind those that a copy covers to the copy's line.
    fn join_kept(&self, stop: &mut Stop) -> Result<(), AllocError>
        requires { stop.old.reached.used + covered stop.old.copy < length (L.lines self.now.list.now) }
        ensures reached { stop.new.reached ≡ stop.old.reached }
        ensures start { stop.new.start ≡ stop.old.start }
        ensures kept { stop.new.copy.kept ≡ stop.old.copy.kept }
        ensures gone { OnOk result (stop.new.copy.gone ≡ stop.old.copy.gone + 1) }
        ensures line { OnOk result (stop.new.copy.line ≡ joined stop.old.copy.line (whole
            (take 1 (drop (stop.old.reached.used + covered stop.old.copy) (L.lines self.now.list.now))))) }
    {
        let index = stop.reached.used + stop.copy.kept + stop.copy.gone;
        stop.copy.line.join_copy(self.list.line(index))?;
        stop.copy.gone += 1;
        Ok(())
    }

    /// Joins the next line to that of a copy which was taken out, where the copy behind it was taken out too.
    fn join_before(&mut self, stop: &mut Stop, mut next: Copied) -> Result<(), AllocError>
        requires taken { IsTaken (L.lines self.old.list.now) self.old.front.items (self.old.back.items ++ next ∷ [])
            stop.old }
        requires room { vec_len self.old.back < vec_capacity self.old.back }
        ensures list { self.new.list.now ≡ self.old.list.now }
        ensures front { self.new.front ≡ self.old.front }
        ensures kept { stop.new.copy.kept ≡ stop.old.copy.kept }
        ensures taken { OnOk result (IsTakenFrom L.lines self.new stop.new) }
        ensures joins { OnOk result (JoinsNext stop.old.copy.line stop.new.copy.line
            (lines_behind (copies_of self.old.front.items) stop.old.copy (self.old.back.items ++ next ∷ [])
            (L.lines self.old.list.now))
            (lines_behind (copies_of self.new.front.items) stop.new.copy self.new.back.items
            (L.lines self.new.list.now))) }
    {
        if next.kept == 0 {
            return stop.copy.join(&next);
        }
        self.join_kept(stop)?;
        next.kept -= 1;
        self.back.push_reserved(next);
        Ok(())
    }

    /// Joins the next line of the text to that of a copy which was taken out.
    fn join_next(&mut self, stop: &mut Stop) -> Result<(), AllocError>
        requires taken { IsTakenFrom L.lines self.old stop.old }
        requires some { 0 < length (lines_behind (copies_of self.old.front.items) stop.old.copy self.old.back.items
            (L.lines self.old.list.now)) }
        ensures list { self.new.list.now ≡ self.old.list.now }
        ensures front { self.new.front ≡ self.old.front }
        ensures kept { stop.new.copy.kept ≡ stop.old.copy.kept }
        ensures taken { OnOk result (IsTakenFrom L.lines self.new stop.new) }
        ensures joins { OnOk result (JoinsNext stop.old.copy.line stop.new.copy.line
            (lines_behind (copies_of self.old.front.items) stop.old.copy self.old.back.items
            (L.lines self.old.list.now))
            (lines_behind (copies_of self.new.front.items) stop.new.copy self.new.back.items
            (L.lines self.new.list.now))) }
    {
        match self.back.pop() {
            None => self.join_kept(stop),
            Some(next) => self.join_before(stop, next),
        }
    }

    /// Takes some characters out behind a column of a copy's line, which goes on with the next line where its newline
    /// is one of them. Answers how many: all that are left to take out, or the rest of the line.
    fn remove_some(
        &mut self,
        stop: &mut Stop,
        column: usize,
        left: usize,
    ) -> Result<usize, AllocError>
        requires held { IsHeld (L.lines self.old.list.now) self.old.front.items self.old.back.items stop.old column }
        requires some { 0 < left }
        requires within { HoldsMore (L.lines self.old.list.now) self.old.front.items self.old.back.items
            stop.old.copy column left }
        ensures list { self.new.list.now ≡ self.old.list.now }
        ensures front { self.new.front ≡ self.old.front }
        ensures kept { stop.new.copy.kept ≡ stop.old.copy.kept }
        ensures held { OnOk result
            (IsHeld (L.lines self.new.list.now) self.new.front.items self.new.back.items stop.new column) }
        ensures some { IfOk result (λ count. 0 < count) }
        ensures most { IfOk result (λ count. count ≤ left) }
        ensures new { IfOk result (λ count.
            held_text (L.lines self.new.list.now) self.new.front.items self.new.back.items stop.new.copy
            ≡ after_removal (held_at (L.lines self.old.list.now) self.old.front.items stop.old.copy column)
            (held_at (L.lines self.old.list.now) self.old.front.items stop.old.copy column + count)
            (held_text (L.lines self.old.list.now) self.old.front.items self.old.back.items stop.old.copy)) }
    {
        let rest = stop.copy.line.len() - column;
        if left < rest {
            stop.copy.line.remove_range(column, column + left)?;
            return Ok(left);
        }
        self.join_next(stop)?;
        stop.copy.line.remove_range(column, column + rest)?;
        Ok(rest)
    }

    /// Takes so many characters out behind a column of the line of a copy that was taken out.
    fn remove_behind(
        &mut self,
        stop: &mut Stop,
        column: usize,
        count: usize,
    ) -> Result<(), AllocError>
        requires held { IsHeld (L.lines self.old.list.now) self.old.front.items self.old.back.items stop.old column }
        requires within { HoldsMore (L.lines self.old.list.now) self.old.front.items self.old.back.items
            stop.old.copy column count }
        ensures list { self.new.list.now ≡ self.old.list.now }
        ensures front { self.new.front ≡ self.old.front }
        ensures held { OnOk result
            (IsHeld (L.lines self.new.list.now) self.new.front.items self.new.back.items stop.new column) }
        ensures new { OnOk result
            (held_text (L.lines self.new.list.now) self.new.front.items self.new.back.items stop.new.copy
            ≡ after_removal (held_at (L.lines self.old.list.now) self.old.front.items stop.old.copy column)
            (held_at (L.lines self.old.list.now) self.old.front.items stop.old.copy column + count)
            (held_text (L.lines self.old.list.now) self.old.front.items self.old.back.items stop.old.copy)) }
    {
        let mut left = count;
        while left > 0 {
            left -= self.remove_some(stop, column, left)?;
        }
        Ok(())
    }

    /// Takes the characters from one offset to another out. What was toggled an odd number of times in these is toggled
    /// before the character behind them, and their marks go there.
    pub fn remove(&mut self, from: usize, to: usize) -> Result<(), AllocError>
        requires is { IsTextIn L.lines self.old }
        requires ordered { from ≤ to }
        requires within { to < length (text_in L.lines self.old).columns }
        ensures list { self.new.list.now ≡ self.old.list.now }
        ensures is { OnOk result (IsTextIn L.lines self.new) }
        ensures new { OnOk result (text_in L.lines self.new ≡ after_removal from to (text_in L.lines self.old)) }
    {
        let Found { mut stop, column } = self.take(from)?;
        self.remove_behind(&mut stop, column, to - from)?;
        self.put(stop);
        Ok(())
    }
}
