//! A line with lists of toggles and marks, which are kept in step with its characters.

ghost use Rattle.std.specs.Prelude.{◌≡◌, ◌+◌, ◌-◌, ◌++◌, ◌<◌, ◌≤◌, ◌^◌, false, true, length, take};
ghost use Rattle.std.specs.Prelude.{slice_get, slice_range, Some, IfSome, IfOk, OnOk, OnErr, chars};
ghost use Rattle.std.specs.Prelude.{string_bytes, drop, nat_lt, option_map, vec_capacity, vec_len};
ghost use Rattle.std.specs.FinMap as finite;
ghost use Rattle.std.specs.FinSet as set;
ghost use Rattle.std.specs.List.{prefix_len, suffix_len};
ghost use Rattle.text_model.specs.declared.places.MarkNo.{MarkNo};
ghost use Rattle.text_model.specs.MarkOrder.{marks_at, next_mark, previous_mark};
ghost use Rattle.text_model.specs.SlotSets.{differing};
ghost use Rattle.text_model.specs.Splices.{changed};
ghost use Rattle.text_model.specs.TagBits.{slot_count};
ghost use Rattle.segments.specs.Columns.{after_removal, after_text, characters, joined, line_before, line_behind};
ghost use Rattle.segments.specs.Columns.{line_count, next_toggle, plain_line, previous_toggle, reset, tags_before};
ghost use Rattle.segments.specs.Columns.{toggled_more, toggles, with_toggle};
ghost use Rattle.toggle_sums.specs.Counts.{CountsFit, no_text, plus, with_toggles_of};
ghost use Rattle.toggle_sums.specs.Toggles.{parity};

use crate::characters::Characters;
use crate::marks::{
    Mark, draw_marks, find_mark, joined_marks, keep_before, mark_at, marks_behind, move_marks,
    next_mark, previous_mark, put_mark, take_mark,
};
use crate::toggles::{
    Toggled, clear, count_before, flip, flip_if, flip_slot, has_toggle, is_odd, move_rest_back,
    move_rest_on, next_toggle, odd_slots, previous_toggle, remove_columns, reserve_ends, turn_odd,
};
use std::alloc::{AllocError, AllocFailed, Global};
use std::marker::Model;
use text_model::{CharacterTest, MarkNo, Place, TagSet, TagSlot, WORDS};
use toggle_sums::Sums;

/// Whether a list has room for more.
fn has_room<T>(list: &Vec<T>) -> bool
    ensures { result ≡ nat_lt (vec_len list.now) (vec_capacity list.now) }
{
    list.len() < list.capacity()
}

/// Gives back room of a list that isn't needed, where memory allows it: more than for twice as much, and a little.
fn trim_list<T>(list: &mut Vec<T>)
    ensures { list.new.items ≡ list.old.items }
{
    if list.capacity() > list.len().saturating_mul(2).saturating_add(8) {
        list.shrink_to(list.len());
    }
}

/// A line of text with room for toggles and marks: its characters, the slots that are toggled before each of them, and
/// the marks in it, whose places are columns. A place behind the last character is a mark's alone.
#[derive(Drop)]
pub struct RichLine {
    alloc: Global,
    text: Characters,
    toggles: Vec<Toggled>,
    marks: Vec<Mark>,
    /// No mark stands behind this column, so that those before a change needn't be looked at.
    reach: usize,
}

impl Model for RichLine {
    ghost use Rattle.std.specs.Prelude.{length};
    ghost use Rattle.std.specs.FinMap as finite;
    ghost use Rattle.segments.specs.Columns.{LineContent};
    ghost use Rattle.segments.specs.Entries.{LieIn};
    ghost use Rattle.segments.specs.Kept.{columns_from, AreKept};
    ghost use Rattle.segments.specs.Marks.{marks_of};
    ghost use Rattle.std.specs.Coded.{codes, coded_ℕ};
    ghost use Rattle.std.specs.FinSet as set;
    ghost use Rattle.std.specs.Ordering.{nat_cmp};
    ghost use Rattle.text_model.specs.contracts.places.Place as place;

    ghost Value = { LineContent };

    ghost coded = { Prim.hlevel (
      codes,
      place.the_row.coded,
      set.code {R = nat_cmp} coded_ℕ,
      finite.code {R = nat_cmp} coded_ℕ place.the_row.coded,
    ) };

    ghost view = { λ a. record { columns = columns_from 0 a.text a.toggles.items; marks = marks_of a.marks.items } };

    ghost invariant = { λ a. LieIn 0 (length a.text) a.toggles.items × AreKept (length a.text) a.reach a.marks.items };
}

impl RichLine {
    /// A line of these characters, without toggles and marks. It takes no memory.
    pub fn plain(alloc: Global, text: Characters) -> RichLine
        ensures { result ≡ plain_line text }
    {
        RichLine {
            alloc,
            text,
            toggles: Vec::new(alloc),
            marks: Vec::new(alloc),
            reach: 0,
        }
    }

    /// Whether there is no toggle and no mark.
    pub fn is_bare(&self) -> bool
        ensures { result ≡ true → self.now ≡ plain_line (characters self.now.columns) }
    {
        self.toggles.len() == 0 && self.marks.len() == 0
    }

    /// Whether the line has more room than it needs: any for toggles and marks where there are none, or for more of
    /// them than there are, or for more characters than a copy of it. The room is no part of its value.
    pub fn has_spare_room(&self) -> bool {
        self.is_bare()
            || has_room(&self.toggles)
            || has_room(&self.marks)
            || self.text.has_spare_room()
    }

    /// Gives back room that isn't needed, where memory allows it.
    pub fn trim(&mut self)
        ensures { self.new ≡ self.old }
    {
        self.text.trim();
        trim_list(&mut self.toggles);
        trim_list(&mut self.marks);
    }

    /// The characters alone.
    pub fn into_text(self) -> Characters
        ensures { result ≡ characters self.columns }
    {
        let RichLine { text, .. } = self;
        text
    }

    /// How many characters there are.
    pub fn len(&self) -> usize
        ensures { result ≡ length self.now.columns }
    {
        self.text.len()
    }

    /// The character at a column.
    pub fn char_at(&self, column: usize) -> char
        requires { column < length self.now.columns }
        ensures { slice_get (characters self.now.columns) column ≡ Some result }
    {
        self.text.at(column)
    }

    /// Where the run of characters from a column on that pass a test ends.
    pub fn run_end<T: CharacterTest>(&self, column: usize) -> usize
        requires { column ≤ length self.now.columns }
        ensures value { result ≡ column + prefix_len T.test (drop column (characters self.now.columns)) }
        ensures bound { result ≤ length self.now.columns }
    {
        self.text.run_end::<T>(column)
    }

    /// Where the run of characters before a column that pass a test begins.
    pub fn run_start<T: CharacterTest>(&self, column: usize) -> usize
        requires { column ≤ length self.now.columns }
        ensures value { result ≡ column - suffix_len T.test (take column (characters self.now.columns)) }
        ensures bound { result ≤ column }
    {
        self.text.run_start::<T>(column)
    }

    /// The slots that are toggled an odd number of times before the character at a column; at the end of the line those
    /// that are in the whole line.
    pub fn tags_before(&self, column: usize) -> TagSet
        requires { column ≤ length self.now.columns }
        ensures { result ≡ tags_before column self.now.columns }
    {
        let mut slots = TagSet::empty();
        self.turn_tags_before(column, &mut slots);
        slots
    }

    /// Turns these slots in a set.
    pub fn turn_tags_before(&self, column: usize, slots: &mut TagSet)
        requires { column ≤ length self.now.columns }
        ensures { slots.new ≡ differing slots.old (tags_before column self.now.columns) }
    {
        if column == self.text.len() {
            turn_odd(&self.toggles, slots);
            return;
        }
        let count = count_before(&self.toggles, column + 1);
        turn_odd(&self.toggles[..count], slots);
    }

    /// The slots that are toggled an odd number of times before the characters before a column.
    pub fn tags_left_of(&self, column: usize) -> TagSet
        requires { column ≤ length self.now.columns }
        ensures { result ≡ parity (toggles (take column self.now.columns)) }
    {
        let count = count_before(&self.toggles, column);
        odd_slots(&self.toggles[..count])
    }

    /// Returns whether a slot is toggled an odd number of times in the line.
    pub fn is_odd(&self, slot: TagSlot) -> bool
        ensures { result ≡ set.contains (line_count self.now).parity slot.0 }
    {
        is_odd(&self.toggles, slot)
    }

    /// Returns whether a slot is toggled an odd number of times to the left of a column.
    pub fn is_odd_left_of(&self, column: usize, slot: TagSlot) -> bool
        requires { column ≤ length self.now.columns }
        ensures { result ≡ set.contains (parity (toggles (take column self.now.columns))) slot.0 }
    {
        let count = count_before(&self.toggles, column);
        is_odd(&self.toggles[..count], slot)
    }

    /// Returns whether a slot is toggled before the character at a column.
    pub fn is_toggled(&self, column: usize) -> bool
        requires { column < length self.now.columns }
        ensures { result ≡ false →
            tags_before column self.now.columns ≡ parity (toggles (take column self.now.columns)) }
    {
        let index = count_before(&self.toggles, column);
        match self.toggles.get(index) {
            Some(entry) => entry.column == column,
            None => false,
        }
    }

    /// The first column from one on before which a slot is toggled.
    pub fn next_toggle(&self, column: usize, slot: TagSlot) -> Option<usize>
        requires slot { slot.0 < slot_count }
        requires within { column ≤ length self.now.columns }
        ensures value { result ≡ next_toggle slot.0 column self.now.columns }
        ensures above { IfSome result (λ next. column ≤ next) }
        ensures bound { IfSome result (λ next. next < length self.now.columns) }
    {
        let start = count_before(&self.toggles, column);
        next_toggle(&self.toggles[start..], column, slot)
    }

    /// The last column below one before which a slot is toggled.
    pub fn previous_toggle(&self, column: usize, slot: TagSlot) -> Option<usize>
        requires slot { slot.0 < slot_count }
        requires within { column ≤ length self.now.columns }
        ensures value { result ≡ previous_toggle slot.0 column self.now.columns }
        ensures below { IfSome result (λ previous. previous < column) }
    {
        previous_toggle(&self.toggles, column, slot)
    }

    /// Of the marks, in the order of their numbers, the one at an index.
    pub fn mark(&self, index: usize) -> Option<(MarkNo, Place)>
        ensures value { option_map (λ (mark : MarkNo × Place). (mark.0.0, mark.1)) result
            ≡ slice_get (finite.entries self.now.marks) index }
        ensures bound { IfSome result (λ mark. mark.1.offset ≤ length self.now.columns) }
    {
        match self.marks.get(index) {
            Some(mark) => Some((mark.number, mark.place)),
            None => None,
        }
    }

    /// Where the mark of a number stands.
    pub fn mark_place(&self, number: MarkNo) -> Option<Place>
        ensures value { result ≡ finite.get self.now.marks number.0 }
        ensures bound { IfSome result (λ place. place.offset ≤ length self.now.columns) }
    {
        find_mark(&self.marks, number)
    }

    /// The least column at or above this one at which a mark stands.
    pub fn next_mark(&self, column: usize) -> Option<usize>
        ensures value { result ≡ next_mark column self.now.marks }
        ensures above { IfSome result (λ next. column ≤ next) }
        ensures bound { IfSome result (λ next. next ≤ length self.now.columns) }
    {
        next_mark(&self.marks, column)
    }

    /// The greatest column below this one at which a mark stands.
    pub fn previous_mark(&self, column: usize) -> Option<usize>
        ensures value { result ≡ previous_mark column self.now.marks }
        ensures below { IfSome result (λ previous. previous < column) }
        ensures bound { IfSome result (λ previous. previous ≤ length self.now.columns) }
    {
        previous_mark(&self.marks, column)
    }

    /// Of the marks that stand at a column, in the order of their numbers, the one at an index.
    pub fn mark_at(&self, column: usize, index: usize) -> Option<MarkNo>
        ensures { result ≡ slice_get (marks_at column self.now.marks) index }
    {
        mark_at(&self.marks, column, index)
    }

    /// How many marks there are.
    pub fn marks(&self) -> usize
        ensures { result ≡ (line_count self.now).marks }
    {
        self.marks.len()
    }

    /// Whether a slot is toggled before one of the characters.
    pub fn has_toggle(&self, slot: TagSlot) -> bool
        requires { slot.0 < slot_count }
        ensures { result ≡ set.contains (line_count self.now).presence slot.0 }
    {
        for entry in &self.toggles {
            if entry.slots.has(slot) {
                return true;
            }
        }
        false
    }

    /// Adds the toggles of the line to a sum.
    fn add_toggles(&self, sum: &mut Sums<WORDS>)
        ensures { sum.new ≡ with_toggles_of (line_count self.now) sum.old }
    {
        for entry in &self.toggles {
            sum.add_word(&entry.slots);
        }
    }

    /// Makes an empty sum what is counted of the line.
    pub fn sum_to(&self, sum: &mut Sums<WORDS>)
        requires { sum.old ≡ no_text }
        ensures { sum.new ≡ line_count self.now }
    {
        sum.add_counts(1, self.text.len(), self.marks.len());
        self.add_toggles(sum);
    }

    /// Adds what is counted of the line to a sum.
    pub fn add_to(&self, sum: &mut Sums<WORDS>)
        requires { CountsFit sum.old (line_count self.now) }
        ensures { sum.new ≡ plus sum.old (line_count self.now) }
    {
        sum.add_counts(1, self.text.len(), self.marks.len());
        self.add_toggles(sum);
    }

    /// The characters from one column to another.
    pub fn copy_text(&self, from: usize, to: usize) -> Result<String, AllocError>
        requires ordered { from ≤ to }
        requires within { to ≤ length self.now.columns }
        ensures { IfOk result (λ text. chars (string_bytes text) ≡ slice_range (characters self.now.columns) from to) }
    {
        self.text.copy(self.alloc, from, to)
    }

    /// Adds the characters from one column to another to a text.
    pub fn push_text(&self, from: usize, to: usize, text: &mut String) -> Result<(), AllocError>
        requires ordered { from ≤ to }
        requires within { to ≤ length self.now.columns }
        ensures { OnOk result (chars (string_bytes text.new)
            ≡ chars (string_bytes text.old) ++ slice_range (characters self.now.columns) from to) }
    {
        self.text.push(from, to, text)
    }

    /// A copy of the line.
    pub fn try_clone(&self) -> Result<RichLine, AllocError>
        ensures { IfOk result (λ copy. copy ≡ self.now) }
    {
        Ok(RichLine {
            alloc: self.alloc,
            text: self.text.try_clone(self.alloc)?,
            toggles: Vec::from_slice(self.alloc, &self.toggles)?,
            marks: Vec::from_slice(self.alloc, &self.marks)?,
            reach: self.reach,
        })
    }

    /// Takes the characters from a column on off, with their toggles and the marks from there on, and hands them out.
    pub fn cut(&mut self, column: usize) -> Result<RichLine, AllocError>
        requires { column ≤ length self.old.columns }
        ensures head { OnOk result (self.new ≡ line_before column self.old) }
        ensures tail { IfOk result (λ tail. tail ≡ line_behind column self.old) }
        ensures refused { OnErr result (self.new ≡ self.old) }
    {
        let count = count_before(&self.toggles, column);
        let mut toggles = Vec::from_slice(self.alloc, &self.toggles[count..])?;
        let marks = marks_behind(self.alloc, &self.marks, column)?;
        let text = self.text.cut(column)?;
        move_rest_back(&mut toggles, 0, column);
        self.toggles.truncate(count);
        keep_before(&mut self.marks, column);
        let reach = self.reach.saturating_sub(column);
        self.reach = self.reach.min(column);
        Ok(RichLine {
            alloc: self.alloc,
            text,
            toggles,
            marks,
            reach,
        })
    }

    /// Adds a copy of some characters behind the line.
    pub fn join_text(&mut self, other: &Characters) -> Result<(), AllocError>
        ensures new { OnOk result (self.new ≡ joined self.old (plain_line other.now)) }
        ensures refused { OnErr result (self.new ≡ self.old) }
    {
        self.text.join(other)?;
        Ok(())
    }

    /// Adds a copy of the characters of another line and of its toggles behind the line.
    fn join_columns(&mut self, other: &RichLine) -> Result<(), AllocError>
        requires { length self.old.columns + length other.now.columns < 2 ^ 64 }
        ensures columns { OnOk result (self.new.columns ≡ self.old.columns ++ other.now.columns) }
        ensures marks { self.new.marks ≡ self.old.marks }
        ensures refused { OnErr result (self.new ≡ self.old) }
    {
        let len = self.text.len();
        let count = self.toggles.len();
        self.toggles.extend_from_slice(&other.toggles)?;
        if self.text.join(&other.text).is_err() {
            self.toggles.truncate(count);
            return Err(AllocError);
        }
        move_rest_on(&mut self.toggles, count, len);
        Ok(())
    }

    /// Adds a copy of another line behind this one. Where that has no marks, those of this one aren't looked at.
    pub fn join_copy(&mut self, other: &RichLine) -> Result<(), AllocError>
        ensures new { OnOk result (self.new ≡ joined self.old other.now) }
        ensures refused { OnErr result (self.new ≡ self.old) }
    {
        let len = self.text.len();
        // More characters than a number can count have no room in memory.
        if other.text.len() > usize::MAX - len {
            return Err(AllocError);
        }
        if other.marks.is_empty() {
            return self.join_columns(other);
        }
        let marks = joined_marks(self.alloc, &self.marks, &other.marks, len)?;
        self.join_columns(other)?;
        self.marks = marks;
        self.reach = len + other.reach;
        Ok(())
    }

    /// Puts a text in before the character at a column.
    pub fn insert_text(&mut self, column: usize, text: &str) -> Result<(), AllocError>
        requires { column ≤ length self.old.columns }
        ensures new { OnOk result (self.new ≡ after_text column (chars text.now) self.old) }
        ensures refused { OnErr result (self.new ≡ self.old) }
    {
        let len = self.text.len();
        self.text.insert(column, text)?;
        let count = self.text.len() - len;
        let start = count_before(&self.toggles, column);
        move_rest_on(&mut self.toggles, start, count);
        self.reach = move_marks(&mut self.marks, self.reach, column, count);
        Ok(())
    }

    /// Takes the characters from one column to another out. What was toggled an odd number of times in these is toggled
    /// before the character behind them, if there is one.
    pub fn remove_range(&mut self, from: usize, to: usize) -> Result<(), AllocError>
        requires ordered { from ≤ to }
        requires within { to ≤ length self.old.columns }
        ensures new { OnOk result (self.new ≡ after_removal from to self.old) }
        ensures refused { OnErr result (self.new ≡ self.old) }
    {
        let len = self.text.len();
        self.text.remove(from, to)?;
        remove_columns(&mut self.toggles, from, to, len);
        self.reach = draw_marks(&mut self.marks, self.reach, from, to);
        Ok(())
    }

    /// Says whether a slot is toggled before the character at a column.
    pub fn set_toggle(
        &mut self,
        column: usize,
        slot: TagSlot,
        is_toggled: bool,
    ) -> Result<(), AllocError>
        requires slot { slot.0 < slot_count }
        requires within { column < length self.old.columns }
        ensures columns { OnOk result (self.new.columns
            ≡ changed (with_toggle slot.0 is_toggled) column (column + 1) self.old.columns) }
        ensures marks { self.new.marks ≡ self.old.marks }
        ensures refused { OnErr result (self.new ≡ self.old) }
    {
        if has_toggle(&self.toggles, column, slot) == is_toggled {
            return Ok(());
        }
        flip_slot(&mut self.toggles, column, slot)
    }

    /// Toggles each slot of a set before the character at a column.
    pub fn toggle(&mut self, column: usize, slots: &TagSet) -> Result<(), AllocError>
        requires { column < length self.old.columns }
        ensures columns { OnOk result (self.new.columns
            ≡ changed (toggled_more slots.now) column (column + 1) self.old.columns) }
        ensures marks { self.new.marks ≡ self.old.marks }
        ensures refused { OnErr result (self.new ≡ self.old) }
    {
        flip(&mut self.toggles, column, slots)
    }

    /// Toggles a slot before the character at a column.
    pub fn toggle_slot(&mut self, column: usize, slot: TagSlot) -> Result<(), AllocError>
        requires slot { slot.0 < slot_count }
        requires within { column < length self.old.columns }
        ensures columns { OnOk result (self.new.columns
            ≡ changed (toggled_more (set.insert set.empty slot.0)) column (column + 1) self.old.columns) }
        ensures marks { self.new.marks ≡ self.old.marks }
        ensures refused { OnErr result (self.new ≡ self.old) }
    {
        flip_slot(&mut self.toggles, column, slot)
    }

    /// Removes the toggles of a slot before the characters from one column to another, and toggles it before each of
    /// the characters at these two columns if that is asked for.
    pub fn reset_toggles(
        &mut self,
        slot: TagSlot,
        from: usize,
        to: usize,
        first: bool,
        last: bool,
    ) -> Result<(), AllocError>
        requires slot { slot.0 < slot_count }
        requires ordered { from ≤ to }
        requires within { to < length self.old.columns }
        ensures columns { OnOk result (self.new.columns ≡ reset slot.0 from to first last self.old.columns) }
        ensures marks { self.new.marks ≡ self.old.marks }
        ensures refused { OnErr result (self.new ≡ self.old) }
    {
        reserve_ends(&mut self.toggles, first || last)?;
        clear(&mut self.toggles, slot, from, to);
        flip_if(&mut self.toggles, from, slot, first);
        flip_if(&mut self.toggles, to, slot, last);
        Ok(())
    }

    /// Takes the toggles of a slot before the characters from one column to another away, which takes no memory.
    pub fn clear(&mut self, slot: TagSlot, from: usize, to: usize)
        requires slot { slot.0 < slot_count }
        requires ordered { from ≤ to }
        requires within { to ≤ length self.old.columns }
        ensures columns { self.new.columns ≡ changed (with_toggle slot.0 false) from to self.old.columns }
        ensures marks { self.new.marks ≡ self.old.marks }
    {
        clear(&mut self.toggles, slot, from, to);
    }

    /// Puts the mark of a number at a place.
    pub fn put_mark(&mut self, number: MarkNo, place: Place) -> Result<(), AllocError>
        requires { place.offset ≤ length self.old.columns }
        ensures columns { self.new.columns ≡ self.old.columns }
        ensures marks { OnOk result (self.new.marks ≡ finite.insert self.old.marks number.0 place) }
        ensures refused { OnErr result (self.new ≡ self.old) }
    {
        self.reach = self.reach.max(place.offset);
        put_mark(&mut self.marks, number, place)
    }

    /// Takes the mark of a number away.
    pub fn take_mark(&mut self, number: MarkNo)
        ensures columns { self.new.columns ≡ self.old.columns }
        ensures marks { self.new.marks ≡ finite.remove self.old.marks number.0 }
    {
        take_mark(&mut self.marks, number)
    }
}
