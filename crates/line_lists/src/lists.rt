//! The trait of a list of lines: queries by line and offset, reservation of capacity, and splicing of lines.

ghost use Rattle.std.specs.Prelude.{◌≡◌, ℕ, ◌+◌, ◌<◌, ◌≤◌, List, [], ◌∷◌, length, map, take, slice_get, Some, IfOk};
ghost use Rattle.std.specs.Prelude.{◌++◌, IfSome, None, OnErr, OnOk, chars, slice_range, string_bytes, true};
ghost use Rattle.std.specs.List.{All};
ghost use Rattle.std.specs.FinSet as set;
ghost use Rattle.text_model.specs.TagBits.{slot_count};
ghost use Rattle.toggle_sums.specs.Counts.{IsBare, plus};
ghost use Rattle.segments.specs.Columns.{LineContent, characters, plain_line};
ghost use Rattle.line_lists.specs.Changes.{CanEdit, CanMark, lines_marked};
ghost use Rattle.line_lists.specs.Edits.{without_mark};
ghost use Rattle.line_lists.specs.Lists.{AreLines, Holds, IsCounted, IsMarked, NumbersBelow, count_of, has_mark};
ghost use Rattle.line_lists.specs.Lists.{has_marks, has_toggle, more_lines, next_line, previous_line, row_of};
ghost use Rattle.line_lists.specs.Lists.{spliced};
ghost use Rattle.line_lists.specs.Texts.{whole};

use segments::{Line, LineEdit};
use std::alloc::{AllocError, Global};
use text_model::{MarkNo, Place, TagSet, TagSlot, WORDS};
use toggle_sums::Sums;

/// A list of the lines of a text, at least one, each with its newline at its end and no other.
///
/// Lines count from 0, offsets count the characters of the text. No mark stands at the end of a line but the last, and
/// no number is that of two marks. No query takes memory. Room for lines and marks is reserved, which changes nothing
/// that can be seen; then lines are spliced in, which can't fail.
pub trait LineList: Drop {
    /// The lines, however they are kept.
    ghost lines: { Self → List LineContent };

    /// Whether so many lines that come in so many rows, beyond those in whose place they come, can be put in before
    /// more is reserved.
    ghost has_room: { Self → ℕ → ℕ → Type 0 };

    /// A bound of the numbers of marks that can be put in before more is reserved.
    ghost mark_room: { Self → ℕ };

    ghost are_lines: { (list : Self) → AreLines (lines list) };

    /// One line, which has its newline alone.
    fn new(alloc: Global) -> Result<Self, AllocError>
        ensures { IfOk result (λ list. lines list ≡ plain_line (10 ∷ []) ∷ []) };

    /// How many lines there are.
    fn len(&self) -> usize
        ensures { result ≡ length (lines self.now) };

    /// A line, lent.
    fn line(&self, index: usize) -> &Line
        requires { index < length (lines self.now) }
        ensures { slice_get (lines self.now) index ≡ Some result.now };

    /// A line, lent, behind how many characters stand before it.
    fn placed_line(&self, index: usize) -> (usize, &Line)
        requires { index < length (lines self.now) }
        ensures start { result.0 ≡ length (whole (take index (lines self.now))).columns }
        ensures line { slice_get (lines self.now) index ≡ Some result.1.now }
    {
        (self.start(index), self.line(index))
    }

    /// The number of the line that holds an offset, and the column there.
    fn locate(&self, offset: usize) -> (usize, usize)
        requires { offset < length (whole (lines self.now)).columns }
        ensures { Holds (lines self.now) offset result.0 result.1 };

    /// The same, before something is done in the line: the list may remember where it is.
    fn seek(&mut self, offset: usize) -> (usize, usize)
        requires { offset < length (whole (lines self.old)).columns }
        ensures same { lines self.new ≡ lines self.old }
        ensures place { Holds (lines self.old) offset result.0 result.1 };

    /// Looks up a line that the caller needs next: a list that remembers it then finds it without a search. Does
    /// nothing if there is no such line.
    fn seek_line(&mut self, _index: usize)
        ensures { lines self.new ≡ lines self.old }
    {}

    /// The line that holds an offset, lent, behind its number and the column there.
    fn line_at(&self, offset: usize) -> (usize, usize, &Line)
        requires { offset < length (whole (lines self.now)).columns }
        ensures place { Holds (lines self.now) offset result.0 result.1 }
        ensures line { slice_get (lines self.now) result.0 ≡ Some result.2.now };

    /// How many characters stand before a line; all of them, for the line behind the last.
    fn start(&self, line: usize) -> usize
        requires { line ≤ length (lines self.now) }
        ensures { result ≡ length (whole (take line (lines self.now))).columns };

    /// The slots that are toggled an odd number of times before a line.
    fn odd_slots(&self, line: usize) -> TagSet
        requires { line ≤ length (lines self.now) }
        ensures { result ≡ (count_of (take line (lines self.now))).parity };

    /// Returns whether a slot is toggled an odd number of times before a line.
    fn is_odd(&self, slot: TagSlot, line: usize) -> bool
        requires slot { slot.0 < slot_count }
        requires within { line ≤ length (lines self.now) }
        ensures { result ≡ set.contains (count_of (take line (lines self.now))).parity slot.0 }
    {
        self.odd_slots(line).has(slot)
    }

    /// The sum of so many lines from the first.
    fn prefix(&self, count: usize) -> Sums<WORDS>
        requires { count ≤ length (lines self.now) }
        ensures { result ≡ count_of (take count (lines self.now)) };

    /// How many marks stand in the lines.
    fn marks(&self) -> usize
        ensures { result ≡ (count_of (lines self.now)).marks }
    {
        self.prefix(self.len()).marks()
    }

    /// Whether no slot is toggled in any line.
    fn is_bare(&self) -> bool
        ensures yes { result ≡ true → IsBare (count_of (lines self.now)) }
        ensures no { IsBare (count_of (lines self.now)) → result ≡ true }
    {
        self.prefix(self.len()).is_bare()
    }

    /// The first line from one on in which a slot is toggled.
    fn next_with(&self, slot: TagSlot, from: usize) -> Option<usize>
        requires slot { slot.0 < slot_count }
        requires within { from ≤ length (lines self.now) }
        ensures { result ≡ next_line (has_toggle slot.0) from (lines self.now) };

    /// The last line below one in which a slot is toggled.
    fn previous_with(&self, slot: TagSlot, to: usize) -> Option<usize>
        requires slot { slot.0 < slot_count }
        requires within { to ≤ length (lines self.now) }
        ensures { result ≡ previous_line (has_toggle slot.0) to (lines self.now) };

    /// The first line from one on in which a mark stands.
    fn next_marked(&self, from: usize) -> Option<usize>
        requires { from ≤ length (lines self.now) }
        ensures { result ≡ next_line has_marks from (lines self.now) };

    /// The last line below one in which a mark stands.
    fn previous_marked(&self, to: usize) -> Option<usize>
        requires { to ≤ length (lines self.now) }
        ensures { result ≡ previous_line has_marks to (lines self.now) };

    /// The line in which the mark of a number stands.
    fn mark_line(&self, number: MarkNo) -> Option<usize>
        ensures { result ≡ next_line (has_mark number.0) 0 (lines self.now) };

    /// The line in which the mark of a number stands, lent, behind how many characters stand before it.
    fn marked_line(&self, number: MarkNo) -> Option<(usize, &Line)>
        ensures some { IfSome result (λ found. IsMarked number.0 (lines self.now) found.0 found.1.now) }
        ensures none { result ≡ None → next_line (has_mark number.0) 0 (lines self.now) ≡ None }
    {
        let index = self.mark_line(number)?;
        Some(self.placed_line(index))
    }

    /// Adds the characters of the lines from one to another to a text. Fails for want of memory; the text may then have
    /// some of them.
    fn push_lines(&self, from: usize, to: usize, text: &mut String) -> Result<(), AllocError>
        requires ordered { from ≤ to }
        requires within { to ≤ length (lines self.now) }
        ensures { OnOk result (chars (string_bytes text.new)
            ≡ chars (string_bytes text.old) ++ characters (whole (slice_range (lines self.now) from to)).columns) }
    {
        for index in from..to {
            let line = self.line(index);
            line.push_text(0, line.len(), text)?;
        }
        Ok(())
    }

    /// Reserves room for so many lines that come in so many rows, and for marks with numbers below a bound.
    fn reserve(&mut self, count: usize, rows: usize, numbers: usize) -> Result<(), AllocError>
        ensures same { lines self.new ≡ lines self.old }
        ensures room { OnOk result (has_room self.new count rows) }
        ensures numbers { OnOk result (numbers ≤ mark_room self.new) };

    /// Gives back room that was reserved for lines, or that lines left, beyond a part of what there is.
    fn free_room(&mut self)
        ensures lines { lines self.new ≡ lines self.old }
        ensures numbers { mark_room self.old ≤ mark_room self.new };

    /// Takes the mark of a number away.
    fn take_mark(&mut self, number: MarkNo)
        ensures lines { lines self.new ≡ map (without_mark number.0) (lines self.old) }
        ensures room { (count rows : ℕ) → has_room self.old count rows → has_room self.new count rows }
        ensures numbers { mark_room self.old ≤ mark_room self.new };

    /// Puts a line in the place of another, which takes no room.
    fn replace(&mut self, index: usize, line: Line)
        requires within { index < length (lines self.old) }
        requires numbers { NumbersBelow (mark_room self.old) line.marks }
        requires lines { AreLines (spliced index 1 (line ∷ []) (lines self.old)) }
        requires counted { IsCounted (plus (count_of (lines self.old)) (count_of (line ∷ []))) }
        ensures lines { lines self.new ≡ spliced index 1 (line ∷ []) (lines self.old) }
        ensures room { (count rows : ℕ) → has_room self.old count rows → has_room self.new count rows }
        ensures numbers { mark_room self.old ≤ mark_room self.new };

    /// Makes an edit of a line where it lies; each mark stays in its line. If memory is refused, all is as it was.
    fn edit_line<E: LineEdit>(&mut self, index: usize, edit: &E) -> Result<(), AllocError>
        requires { CanEdit (lines self.old) index (E.fits edit.now) (E.edited edit.now) }
        ensures made { OnOk result ((line : LineContent) → slice_get (lines self.old) index ≡ Some line →
            lines self.new ≡ spliced index 1 (E.edited edit.now line ∷ []) (lines self.old)) }
        ensures refused { OnErr result (lines self.new ≡ lines self.old) };

    /// Puts the mark of a number at a place of a line, whose offset is a column, wherever the mark is, or as a new one.
    /// If memory is refused, all is as it was.
    fn move_mark(&mut self, number: MarkNo, index: usize, place: Place) -> Result<(), AllocError>
        requires { CanMark (lines self.old) number.0 index place }
        ensures made { OnOk result ((line : LineContent) → slice_get (lines self.old) index ≡ Some line →
            lines self.new ≡ lines_marked number.0 index place line (lines self.old)) }
        ensures refused { OnErr result (lines self.new ≡ lines self.old) }
        ensures numbers { mark_room self.old ≤ mark_room self.new };

    /// Puts lines in the place of so many from one on: only those beyond these take room, in one row.
    fn splice(&mut self, from: usize, count: usize, new: Vec<Line>)
        requires within { from + count ≤ length (lines self.old) }
        requires room { (c : ℕ) × (r : ℕ)
            × has_room self.old (more_lines count new.items + c) (row_of count new.items + r) }
        requires numbers { All (λ (line : LineContent). NumbersBelow (mark_room self.old) line.marks) new.items }
        requires lines { AreLines (spliced from count new.items (lines self.old)) }
        requires counted { IsCounted (plus (count_of (lines self.old)) (count_of new.items)) }
        ensures lines { lines self.new ≡ spliced from count new.items (lines self.old) }
        ensures room { (c r : ℕ) → has_room self.old (more_lines count new.items + c) (row_of count new.items + r)
            → has_room self.new c r }
        ensures numbers { mark_room self.old ≤ mark_room self.new };
}
