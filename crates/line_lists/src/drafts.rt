//! Drafts of a list of lines: the copies of the lines that an edit changes, with the current place among them.

ghost use Rattle.std.specs.Prelude.{◌≡◌, ◌+◌, ◌-◌, ◌<◌, ◌≤◌, ◌^◌, List, ◌∷◌, [], ◌++◌, IfOk, IfSome, OnOk, drop};
ghost use Rattle.std.specs.Prelude.{length, take, slice_get, vec_len, vec_capacity, true, false, chars, None, Some};
ghost use Rattle.std.specs.FinMap as finite;
ghost use Rattle.text_model.specs.Lines.{lines};
ghost use Rattle.segments.specs.Columns.{LineContent, after_text};
ghost use Rattle.line_lists.specs.Texts.{whole};
ghost use Rattle.line_lists.specs.Drafts.{CanFollow, IsDraft, IsFound, IsKnown, IsKnown-prop, IsReached, IsSeen};
ghost use Rattle.line_lists.specs.Drafts.{IsSeen-prop, LastBeginsBehind, StandsAt, StandsBy, copies_of, drafted_at};
ghost use Rattle.line_lists.specs.Drafts.{line_start, lines_before};
ghost use Rattle.line_lists.specs.Edits.{with_mark, with_toggled, without_mark};

use crate::lists::LineList;
use segments::Line;
use std::alloc::{AllocError, Global};
use text_model::{MarkNo, Place, TagSet};

/// A line that the text will have: so many lines of the list are kept before it, and it comes in the place of so many.
#[derive(Drop)]
pub struct Copied {
    pub kept: usize,
    pub gone: usize,
    pub line: Line,
}

/// What some copies of a list's lines cover from its first line on: how many lines of the list, and how many characters
/// the text will have there.
#[derive(Clone, Copy)]
pub struct Reached {
    pub used: usize,
    pub characters: usize,
}

/// How many characters so many lines from one on have.
pub fn span<L: LineList>(list: &L, from: usize, count: usize) -> usize
    requires { from + count ≤ length (L.lines list.now) }
    ensures { result ≡ length (whole (take count (drop from (L.lines list.now)))).columns }
{
    if count == 0 {
        return 0;
    }
    list.start(from + count) - list.start(from)
}

impl Reached {
    /// Nothing is covered.
    fn nothing() -> Reached
        ensures { (lines : List LineContent) → IsReached result [] lines }
    {
        Reached {
            used: 0,
            characters: 0,
        }
    }

    /// What is covered with one copy more.
    pub fn with<L: LineList>(&self, list: &L, copy: &Copied) -> Reached
        requires { CanFollow self.now copy.now (L.lines list.now) }
        ensures { (copies : List Copied) → IsReached self.now copies (L.lines list.now) →
            IsReached result (copies ++ copy.now ∷ []) (L.lines list.now) }
    {
        Reached {
            used: self.used + copy.kept + copy.gone,
            characters: self.characters + span(list, self.used, copy.kept) + copy.line.len(),
        }
    }
}

/// A copy, what the copies before it cover, and where its line begins in the text.
#[derive(Drop)]
pub struct Stop {
    pub reached: Reached,
    pub start: usize,
    pub copy: Copied,
}

/// Which slots are on before a line of a list.
#[derive(Drop)]
pub struct Before {
    pub line: usize,
    pub tags: TagSet,
}

/// Which slots are on behind the first so many copies before a place, and before the line that the list was last asked
/// for.
#[derive(Drop)]
pub struct Known {
    pub count: usize,
    pub tags: TagSet,
    pub before: Before,
}

/// A line of a list, lent, with its number and how many characters stand before it.
#[derive(Clone, Copy)]
pub struct Seen<'a> {
    pub index: usize,
    pub start: usize,
    pub line: &'a Line,
}

/// The lines that the text of a list will have: copies of some of its lines, in order, with a place between two of
/// them.
/// It reads the list, and changes its copies alone.
#[derive(Drop)]
pub struct Draft<'a, L: LineList> {
    pub alloc: Global,
    pub list: &'a L,
    /// The copies before the place.
    pub front: Vec<Stop>,
    /// The copies behind the place, the nearest last.
    pub back: Vec<Copied>,
    /// Brought up to date where slots are asked for.
    pub known: Known,
    /// The line of the list that was found last.
    pub seen: Option<Seen<'a>>,
    ghost told: { IsKnown (L.lines list.now) front.items known } by { IsKnown-prop },
    ghost shown: { IfSome seen (IsSeen (L.lines list.now)) } by { IsSeen-prop (L.lines list.now) seen },
}

impl<'a, L: LineList> Draft<'a, L> {
    ghost use Rattle.line_lists.specs.DraftTexts.{IsAhead, IsBegun, IsDraftIn, IsTakenFrom, IsTextIn};
    ghost use Rattle.line_lists.specs.DraftTexts.{lines_in, place_in, taken_in, text_in};

    /// The lines of a list, none of them copied.
    pub fn new(alloc: Global, list: &'a L) -> Draft<'a, L>
        ensures is { IsDraft (L.lines list.now) result.front.items result.back.items }
        ensures same { drafted_at (L.lines list.now) result.front.items result.back.items ≡ L.lines list.now }
        ensures list { result.list.now ≡ list.now }
    {
        Draft {
            alloc,
            list,
            front: Vec::new(alloc),
            back: Vec::new(alloc),
            known: Known::nothing(),
            seen: None,
        }
    }

    /// How many characters stand before a line of the list, which isn't asked where the line found last tells it.
    fn list_start(&self, line: usize) -> usize
        requires { line ≤ length (L.lines self.now.list.now) }
        ensures { result ≡ length (whole (take line (L.lines self.now.list.now))).columns }
    {
        if let Some(seen) = self.seen {
            if line == seen.index {
                return seen.start;
            }
            if line == seen.index + 1 {
                return seen.start + seen.line.len();
            }
        }
        self.list.start(line)
    }

    /// Where the line of a copy that follows what is covered begins in the text.
    fn start_of(&self, reached: &Reached, copy: &Copied) -> usize
        requires { CanFollow reached.now copy.now (L.lines self.now.list.now) }
        ensures { result ≡ line_start reached.now copy.now (L.lines self.now.list.now) }
    {
        if copy.kept == 0 {
            return reached.characters;
        }
        let first = self.list_start(reached.used);
        reached.characters + (self.list_start(reached.used + copy.kept) - first)
    }

    /// A copy that follows what is covered, with this and with where its line begins.
    pub fn stop(&self, reached: Reached, copy: Copied) -> Stop
        requires { CanFollow reached copy (L.lines self.now.list.now) }
        ensures { result ≡ record {
          reached = reached;
          start = line_start reached copy (L.lines self.now.list.now);
          copy = copy;
        } }
    {
        Stop {
            reached,
            start: self.start_of(&reached, &copy),
            copy,
        }
    }

    /// What the copies before the place cover.
    pub fn reached(&self) -> Reached
        requires { IsDraftIn L.lines self.now }
        ensures { IsReached result (copies_of self.now.front.items) (L.lines self.now.list.now) }
    {
        match self.front.last() {
            None => Reached::nothing(),
            Some(stop) => Reached {
                used: stop.reached.used + stop.copy.kept + stop.copy.gone,
                characters: stop.start + stop.copy.line.len(),
            },
        }
    }

    /// How many characters the text has up to the end of the last copy before the place.
    pub fn covered(&self) -> usize
        requires { IsDraftIn L.lines self.now }
        ensures { result ≡ place_in L.lines self.now }
    {
        match self.front.last() {
            None => 0,
            Some(stop) => stop.start + stop.copy.line.len(),
        }
    }

    /// Goes back by one copy.
    pub fn step_back(&mut self) -> Result<(), AllocError>
        requires { IsDraftIn L.lines self.old }
        ensures list { self.new.list.now ≡ self.old.list.now }
        ensures is { IsDraftIn L.lines self.new }
        ensures same { lines_in L.lines self.new ≡ lines_in L.lines self.old }
        ensures moved { OnOk result (vec_len self.new.front ≡ vec_len self.old.front - 1) }
    {
        self.back.reserve(1)?;
        self.known.leave_last(self.list, &self.front);
        if let Some(stop) = self.front.pop() {
            self.back.push_reserved(stop.copy);
        }
        Ok(())
    }

    /// Whether the line of the last copy before the place begins at an offset or before it, or there is no such copy.
    fn is_begun(&self, offset: usize) -> bool
        requires { IsDraftIn L.lines self.now }
        ensures yes { result ≡ true → IsBegun L.lines self.now offset }
        ensures no { result ≡ false → 0 < vec_len self.now.front }
    {
        match self.front.last() {
            None => true,
            Some(stop) => stop.start <= offset,
        }
    }

    /// Goes on by one copy, if its line begins at an offset or before it. Answers whether it did.
    fn step_forth_by(&mut self, offset: usize) -> Result<bool, AllocError>
        requires is { IsDraftIn L.lines self.old }
        requires begun { IsBegun L.lines self.old offset }
        ensures list { self.new.list.now ≡ self.old.list.now }
        ensures is { IsDraftIn L.lines self.new }
        ensures same { lines_in L.lines self.new ≡ lines_in L.lines self.old }
        ensures begun { OnOk result (IsBegun L.lines self.new offset) }
        ensures moved { IfOk result (λ went. went ≡ true → vec_len self.new.back < vec_len self.old.back) }
        ensures ahead { IfOk result (λ went. went ≡ false → IsAhead L.lines self.new offset) }
    {
        let Some(copy) = self.back.last() else {
            return Ok(false);
        };
        let reached = self.reached();
        let start = self.start_of(&reached, copy);
        if offset < start {
            return Ok(false);
        }
        self.front.reserve(1)?;
        if let Some(copy) = self.back.pop() {
            self.front.push_reserved(Stop {
                reached,
                start,
                copy,
            });
        }
        Ok(true)
    }

    /// Whether the line of the last copy before the place holds an offset, where the copies end at another one.
    fn is_last(&self, offset: usize, end: usize) -> bool
        requires is { IsDraftIn L.lines self.now }
        requires end { end ≡ place_in L.lines self.now }
        ensures begun { result ≡ true → IsBegun L.lines self.now offset }
        ensures within { result ≡ true → offset < end }
        ensures other { result ≡ false → offset < end →
            LastBeginsBehind (L.lines self.now.list.now) offset self.now.front.items }
    {
        match self.front.last() {
            None => false,
            Some(stop) => offset < end && end - stop.copy.line.len() <= offset,
        }
    }

    /// Goes back until the line of the last copy before the place begins at an offset or before it.
    pub fn back_to(&mut self, offset: usize) -> Result<(), AllocError>
        requires { IsDraftIn L.lines self.old }
        ensures list { self.new.list.now ≡ self.old.list.now }
        ensures is { IsDraftIn L.lines self.new }
        ensures same { lines_in L.lines self.new ≡ lines_in L.lines self.old }
        ensures begun { OnOk result (IsBegun L.lines self.new offset) }
    {
        while !self.is_begun(offset) {
            self.step_back()?;
        }
        Ok(())
    }

    /// Goes on until the line of the first copy behind the place begins behind an offset.
    pub fn forth_to(&mut self, offset: usize) -> Result<(), AllocError>
        requires is { IsDraftIn L.lines self.old }
        requires begun { IsBegun L.lines self.old offset }
        ensures list { self.new.list.now ≡ self.old.list.now }
        ensures is { IsDraftIn L.lines self.new }
        ensures same { lines_in L.lines self.new ≡ lines_in L.lines self.old }
        ensures begun { OnOk result (IsBegun L.lines self.new offset) }
        ensures ahead { OnOk result (IsAhead L.lines self.new offset) }
    {
        while self.step_forth_by(offset)? {}
        Ok(())
    }

    /// The line of the list that is kept at an offset of the text, behind what is covered, lent, behind its number and
    /// the column there. The list stays as it is while it has a draft: of the line found last it isn't asked again.
    pub fn find_line(&mut self, reached: &Reached, offset: usize) -> (usize, usize, &'a Line)
        requires used { reached.now.used ≤ length (L.lines self.old.list.now) }
        requires behind { reached.now.characters ≤ offset }
        requires within { offset + length (whole (take reached.now.used (L.lines self.old.list.now))).columns
            < reached.now.characters + length (whole (L.lines self.old.list.now)).columns }
        ensures list { self.new.list.now ≡ self.old.list.now }
        ensures front { self.new.front ≡ self.old.front }
        ensures back { self.new.back ≡ self.old.back }
        ensures known { self.new.known ≡ self.old.known }
        ensures place { IsFound reached.now (L.lines self.old.list.now) offset result.0 result.1 }
        ensures line { slice_get (L.lines self.old.list.now) result.0 ≡ Some result.2.now }
    {
        let before = self.list_start(reached.used);
        let place = offset - reached.characters + before;
        if let Some(seen) = self.seen {
            if seen.start <= place && place - seen.start < seen.line.len() {
                return (seen.index, place - seen.start, seen.line);
            }
        }
        let (index, column, line) = self.list.line_at(place);
        self.seen = Some(Seen {
            index,
            start: place - column,
            line,
        });
        (index, column, line)
    }

    /// Takes the last copy before the place out, whose line holds an offset, where the copies end at another one.
    fn take_last(&mut self, offset: usize, end: usize) -> Found
        requires is { IsDraftIn L.lines self.old }
        requires begun { IsBegun L.lines self.old offset }
        requires end { end ≡ place_in L.lines self.old }
        requires within { offset < end }
        ensures list { self.new.list.now ≡ self.old.list.now }
        ensures taken { IsTakenFrom L.lines self.new result.stop }
        ensures same { taken_in L.lines self.new result.stop.copy ≡ lines_in L.lines self.old }
        ensures place { StandsAt (L.lines self.new.list.now) self.new.front.items result.stop.copy offset
            result.column }
        ensures room { vec_len self.new.front < vec_capacity self.new.front }
    {
        self.known.leave_last(self.list, &self.front);
        let stop = self.front.pop().unwrap();
        let start = end - stop.copy.line.len();
        Found {
            stop,
            column: offset - start,
        }
    }

    /// Copies the line of the list that holds an offset behind all copies.
    fn copy_rest(&mut self, reached: Reached, offset: usize) -> Result<Found, AllocError>
        requires is { IsDraft (L.lines self.old.list.now) self.old.front.items [] }
        requires back { self.old.back.items ≡ [] }
        requires reached { IsReached reached (copies_of self.old.front.items) (L.lines self.old.list.now) }
        requires behind { reached.characters ≤ offset }
        requires within { offset
            < length (whole (drafted_at (L.lines self.old.list.now) self.old.front.items [])).columns }
        ensures list { self.new.list.now ≡ self.old.list.now }
        ensures front { self.new.front ≡ self.old.front }
        ensures taken { IfOk result (λ found. IsTakenFrom L.lines self.new found.stop) }
        ensures same { IfOk result (λ found. taken_in L.lines self.new found.stop.copy
            ≡ drafted_at (L.lines self.old.list.now) self.old.front.items []) }
        ensures place { IfOk result (λ found.
            StandsAt (L.lines self.new.list.now) self.new.front.items found.stop.copy offset found.column) }
    {
        let (index, column, line) = self.find_line(&reached, offset);
        let copy = Copied {
            kept: index - reached.used,
            gone: 1,
            line: line.try_clone()?,
        };
        Ok(Found {
            stop: Stop {
                reached,
                start: offset - column,
                copy,
            },
            column,
        })
    }

    /// Copies the line of the list that holds an offset before the next copy, which was taken out.
    fn copy_kept(
        &mut self,
        reached: Reached,
        mut next: Copied,
        offset: usize,
    ) -> Result<Found, AllocError>
        requires is { IsDraft (L.lines self.old.list.now) self.old.front.items (self.old.back.items ++ next ∷ []) }
        requires reached { IsReached reached (copies_of self.old.front.items) (L.lines self.old.list.now) }
        requires behind { reached.characters ≤ offset }
        requires ahead { offset < length (whole
            (lines_before (copies_of self.old.front.items) next (L.lines self.old.list.now))).columns }
        requires room { vec_len self.old.back < vec_capacity self.old.back }
        ensures list { self.new.list.now ≡ self.old.list.now }
        ensures front { self.new.front ≡ self.old.front }
        ensures taken { IfOk result (λ found. IsTakenFrom L.lines self.new found.stop) }
        ensures same { IfOk result (λ found. taken_in L.lines self.new found.stop.copy
            ≡ drafted_at (L.lines self.old.list.now) self.old.front.items (self.old.back.items ++ next ∷ [])) }
        ensures place { IfOk result (λ found.
            StandsAt (L.lines self.new.list.now) self.new.front.items found.stop.copy offset found.column) }
    {
        let (index, column, line) = self.find_line(&reached, offset);
        let copy = Copied {
            kept: index - reached.used,
            gone: 1,
            line: line.try_clone()?,
        };
        next.kept -= copy.kept + 1;
        self.back.push_reserved(next);
        Ok(Found {
            stop: Stop {
                reached,
                start: offset - column,
                copy,
            },
            column,
        })
    }

    /// Takes the copy of the line that holds an offset out, with the column there; where there is none it is made.
    pub fn take(&mut self, offset: usize) -> Result<Found, AllocError>
        requires is { IsDraftIn L.lines self.old }
        requires within { offset < length (whole (lines_in L.lines self.old)).columns }
        ensures list { self.new.list.now ≡ self.old.list.now }
        ensures room { OnOk result (vec_len self.new.front < vec_capacity self.new.front) }
        ensures taken { IfOk result (λ found. IsTakenFrom L.lines self.new found.stop) }
        ensures same { IfOk result (λ found. taken_in L.lines self.new found.stop.copy ≡ lines_in L.lines self.old) }
        ensures place { IfOk result (λ found.
            StandsAt (L.lines self.new.list.now) self.new.front.items found.stop.copy offset found.column) }
    {
        let end = self.covered();
        if self.is_last(offset, end) {
            return Ok(self.take_last(offset, end));
        }
        self.back_to(offset)?;
        self.forth_to(offset)?;
        self.front.reserve(1)?;
        let covered = self.covered();
        if offset < covered {
            return Ok(self.take_last(offset, covered));
        }
        let reached = self.reached();
        match self.back.pop() {
            None => self.copy_rest(reached, offset),
            Some(next) => self.copy_kept(reached, next, offset),
        }
    }

    /// Puts a copy that was taken out back to its place, with its line as it is now.
    pub fn put(&mut self, stop: Stop)
        requires room { vec_len self.old.front < vec_capacity self.old.front }
        requires taken { IsTakenFrom L.lines self.old stop }
        requires counted { length (whole (taken_in L.lines self.old stop.copy)).columns < 2 ^ 64 }
        ensures list { self.new.list.now ≡ self.old.list.now }
        ensures is { IsDraftIn L.lines self.new }
        ensures lines { lines_in L.lines self.new ≡ taken_in L.lines self.old stop.copy }
    {
        self.front.push_reserved(stop);
    }

    /// Toggles each slot of a set before the character at an offset.
    pub fn toggle(&mut self, offset: usize, slots: &TagSet) -> Result<(), AllocError>
        requires is { IsTextIn L.lines self.old }
        requires within { offset < length (text_in L.lines self.old).columns }
        ensures list { self.new.list.now ≡ self.old.list.now }
        ensures is { OnOk result (IsTextIn L.lines self.new) }
        ensures new { OnOk result (text_in L.lines self.new
            ≡ with_toggled offset slots.now (text_in L.lines self.old)) }
    {
        let Found { mut stop, column } = self.take(offset)?;
        stop.copy.line.toggle(column, slots)?;
        self.put(stop);
        Ok(())
    }

    /// Puts a text without newlines in before the character at an offset.
    pub fn insert_within(&mut self, offset: usize, text: &str) -> Result<(), AllocError>
        requires is { IsTextIn L.lines self.old }
        requires within { offset < length (text_in L.lines self.old).columns }
        requires free { lines (chars text.now) ≡ 0 }
        requires counted { length (text_in L.lines self.old).columns + length (chars text.now) < 2 ^ 64 }
        ensures list { self.new.list.now ≡ self.old.list.now }
        ensures is { OnOk result (IsTextIn L.lines self.new) }
        ensures new { OnOk result (text_in L.lines self.new
            ≡ after_text offset (chars text.now) (text_in L.lines self.old)) }
    {
        let Found { mut stop, column } = self.take(offset)?;
        stop.copy.line.insert_text(column, text)?;
        self.put(stop);
        Ok(())
    }

    /// Puts the mark of a number, which marks nothing, at a place before a character.
    pub fn put_mark(&mut self, number: MarkNo, place: Place) -> Result<(), AllocError>
        requires is { IsTextIn L.lines self.old }
        requires within { place.offset < length (text_in L.lines self.old).columns }
        requires free { finite.get (text_in L.lines self.old).marks number.0 ≡ None }
        ensures list { self.new.list.now ≡ self.old.list.now }
        ensures is { OnOk result (IsTextIn L.lines self.new) }
        ensures new { OnOk result (text_in L.lines self.new ≡ with_mark number.0 place (text_in L.lines self.old)) }
    {
        let Found { mut stop, column } = self.take(place.offset)?;
        let there = Place {
            offset: column,
            gravity: place.gravity,
        };
        stop.copy.line.put_mark(number, there)?;
        self.put(stop);
        Ok(())
    }

    /// Takes the mark of a number away, which stands before the character at an offset, or behind that one if it's the
    /// last, or nowhere.
    pub fn take_mark_at(&mut self, offset: usize, number: MarkNo) -> Result<(), AllocError>
        requires is { IsTextIn L.lines self.old }
        requires within { offset < length (text_in L.lines self.old).columns }
        requires stands { StandsBy number.0 offset (text_in L.lines self.old) }
        ensures list { self.new.list.now ≡ self.old.list.now }
        ensures is { OnOk result (IsTextIn L.lines self.new) }
        ensures new { OnOk result (text_in L.lines self.new ≡ without_mark number.0 (text_in L.lines self.old)) }
    {
        let Found { mut stop, .. } = self.take(offset)?;
        stop.copy.line.take_mark(number);
        self.put(stop);
        Ok(())
    }
}

/// A copy that is taken out of a draft, and the column of its line that was looked for.
#[derive(Drop)]
pub struct Found {
    pub stop: Stop,
    pub column: usize,
}
