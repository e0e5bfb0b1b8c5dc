//! A line of text: its characters, and the toggles and marks at its columns.

ghost use Rattle.std.specs.Prelude.{◌≡◌, ◌+◌, ◌-◌, ◌++◌, ◌<◌, ◌≤◌, false, length, take, slice_get};
ghost use Rattle.std.specs.Prelude.{slice_range, Some, IfSome, IfOk, IfErr, OnOk, OnErr, chars, string_bytes};
ghost use Rattle.std.specs.Prelude.{drop, option_map};
ghost use Rattle.std.specs.FinMap as finite;
ghost use Rattle.std.specs.FinSet as set;
ghost use Rattle.std.specs.List.{prefix_len, suffix_len};
ghost use Rattle.text_model.specs.declared.places.MarkNo.{MarkNo};
ghost use Rattle.text_model.specs.MarkOrder.{marks_at, next_mark, previous_mark};
ghost use Rattle.text_model.specs.SlotSets.{differing};
ghost use Rattle.text_model.specs.Splices.{changed};
ghost use Rattle.text_model.specs.TagBits.{slot_count};
ghost use Rattle.segments.specs.Columns.{after_removal, after_text, characters, joined, line_before, line_behind};
ghost use Rattle.segments.specs.Columns.{line_count, next_toggle, plain_line, previous_toggle, reset, tags_before};
ghost use Rattle.segments.specs.Columns.{toggled_more, toggles, with_toggle};
ghost use Rattle.toggle_sums.specs.Counts.{CountsFit, no_text, plus};
ghost use Rattle.toggle_sums.specs.Toggles.{parity};

use crate::characters::Characters;
use crate::form::Form;
use std::alloc::{AllocError, AllocFailed, Global};
use std::marker::Model;
use text_model::{CharacterTest, MarkNo, Place, TagSet, TagSlot, WORDS};
use toggle_sums::Sums;

/// A line of text: its characters, the slots that are toggled before each of them, and the marks in it, whose places
/// are columns. A place behind the last character is a mark's alone.
#[derive(Drop)]
pub struct Line {
    alloc: Global,
    form: Form,
}

impl Model for Line {
    ghost use Rattle.std.specs.FinMap as finite;
    ghost use Rattle.segments.specs.Columns.{LineContent};
    ghost use Rattle.segments.specs.Forms.{content};
    ghost use Rattle.std.specs.Coded.{codes, coded_ℕ};
    ghost use Rattle.std.specs.FinSet as set;
    ghost use Rattle.std.specs.Ordering.{nat_cmp};
    ghost use Rattle.text_model.specs.contracts.places.Place as place;

    ghost Value = { LineContent };

    ghost coded = { Prim.hlevel (
      codes,
      place.the_row.coded,
      set.code {R = nat_cmp} coded_ℕ,
      finite.code {R = nat_cmp} coded_ℕ place.the_row.coded,
    ) };

    ghost view = { λ a. content a.form };
}

impl Line {
    /// A line of these characters and no others, without toggles and marks.
    pub fn new(alloc: Global, text: &str) -> Result<Line, AllocError>
        ensures { IfOk result (λ line. line ≡ plain_line (chars text.now)) }
    {
        Ok(Line {
            alloc,
            form: Form::Plain(Characters::new(alloc, text)?),
        })
    }

    /// How many characters there are.
    pub fn len(&self) -> usize
        ensures { result ≡ length self.now.columns }
    {
        match &self.form {
            Form::Plain(text) => text.len(),
            Form::Rich(line) => line.len(),
        }
    }

    /// The character at a column.
    pub fn char_at(&self, column: usize) -> char
        requires { column < length self.now.columns }
        ensures { slice_get (characters self.now.columns) column ≡ Some result }
    {
        match &self.form {
            Form::Plain(text) => text.at(column),
            Form::Rich(line) => line.char_at(column),
        }
    }

    /// Where the run of characters from a column on that pass a test ends.
    pub fn run_end<T: CharacterTest>(&self, column: usize) -> usize
        requires { column ≤ length self.now.columns }
        ensures value { result ≡ column + prefix_len T.test (drop column (characters self.now.columns)) }
        ensures bound { result ≤ length self.now.columns }
    {
        match &self.form {
            Form::Plain(text) => text.run_end::<T>(column),
            Form::Rich(line) => line.run_end::<T>(column),
        }
    }

    /// Where the run of characters before a column that pass a test begins.
    pub fn run_start<T: CharacterTest>(&self, column: usize) -> usize
        requires { column ≤ length self.now.columns }
        ensures value { result ≡ column - suffix_len T.test (take column (characters self.now.columns)) }
        ensures bound { result ≤ column }
    {
        match &self.form {
            Form::Plain(text) => text.run_start::<T>(column),
            Form::Rich(line) => line.run_start::<T>(column),
        }
    }

    /// The slots that are toggled an odd number of times before the character at a column; at the end of the line those
    /// that are in the whole line.
    pub fn tags_before(&self, column: usize) -> TagSet
        requires { column ≤ length self.now.columns }
        ensures { result ≡ tags_before column self.now.columns }
    {
        match &self.form {
            Form::Plain(_) => TagSet::empty(),
            Form::Rich(line) => line.tags_before(column),
        }
    }

    /// Turns these slots in a set.
    pub fn turn_tags_before(&self, column: usize, slots: &mut TagSet)
        requires { column ≤ length self.now.columns }
        ensures { slots.new ≡ differing slots.old (tags_before column self.now.columns) }
    {
        match &self.form {
            Form::Plain(_) => {}
            Form::Rich(line) => line.turn_tags_before(column, slots),
        }
    }

    /// Turns in a set the slots that are toggled an odd number of times in the line.
    pub fn turn_odd_slots(&self, slots: &mut TagSet)
        ensures { slots.new ≡ differing slots.old (line_count self.now).parity }
    {
        self.turn_tags_before(self.len(), slots);
    }

    /// How many marks there are.
    pub fn marks(&self) -> usize
        ensures { result ≡ (line_count self.now).marks }
    {
        match &self.form {
            Form::Plain(_) => 0,
            Form::Rich(line) => line.marks(),
        }
    }

    /// Whether a slot is toggled before one of the characters.
    pub fn has_toggle(&self, slot: TagSlot) -> bool
        requires { slot.0 < slot_count }
        ensures { result ≡ set.contains (line_count self.now).presence slot.0 }
    {
        match &self.form {
            Form::Plain(_) => false,
            Form::Rich(line) => line.has_toggle(slot),
        }
    }

    /// The slots that are toggled an odd number of times before the characters before a column.
    pub fn tags_left_of(&self, column: usize) -> TagSet
        requires { column ≤ length self.now.columns }
        ensures { result ≡ parity (toggles (take column self.now.columns)) }
    {
        match &self.form {
            Form::Plain(_) => TagSet::empty(),
            Form::Rich(line) => line.tags_left_of(column),
        }
    }

    /// Returns whether a slot is toggled an odd number of times to the left of a column.
    pub fn is_odd_left_of(&self, column: usize, slot: TagSlot) -> bool
        requires { column ≤ length self.now.columns }
        ensures { result ≡ set.contains (parity (toggles (take column self.now.columns))) slot.0 }
    {
        match &self.form {
            Form::Plain(_) => false,
            Form::Rich(line) => line.is_odd_left_of(column, slot),
        }
    }

    /// Returns whether a slot is toggled an odd number of times in the line.
    pub fn is_odd(&self, slot: TagSlot) -> bool
        ensures { result ≡ set.contains (line_count self.now).parity slot.0 }
    {
        match &self.form {
            Form::Plain(_) => false,
            Form::Rich(line) => line.is_odd(slot),
        }
    }

    /// Returns whether a slot is toggled before the character at a column. No clause says when it is: an entry for no
    /// slot would count too.
    pub fn is_toggled(&self, column: usize) -> bool
        requires { column < length self.now.columns }
        ensures { result ≡ false →
            tags_before column self.now.columns ≡ parity (toggles (take column self.now.columns)) }
    {
        match &self.form {
            Form::Plain(_) => false,
            Form::Rich(line) => line.is_toggled(column),
        }
    }

    /// The first column from one on before which a slot is toggled.
    pub fn next_toggle(&self, column: usize, slot: TagSlot) -> Option<usize>
        requires slot { slot.0 < slot_count }
        requires within { column ≤ length self.now.columns }
        ensures value { result ≡ next_toggle slot.0 column self.now.columns }
        ensures above { IfSome result (λ next. column ≤ next) }
        ensures bound { IfSome result (λ next. next < length self.now.columns) }
    {
        match &self.form {
            Form::Plain(_) => None,
            Form::Rich(line) => line.next_toggle(column, slot),
        }
    }

    /// The last column below one before which a slot is toggled.
    pub fn previous_toggle(&self, column: usize, slot: TagSlot) -> Option<usize>
        requires slot { slot.0 < slot_count }
        requires within { column ≤ length self.now.columns }
        ensures value { result ≡ previous_toggle slot.0 column self.now.columns }
        ensures below { IfSome result (λ previous. previous < column) }
    {
        match &self.form {
            Form::Plain(_) => None,
            Form::Rich(line) => line.previous_toggle(column, slot),
        }
    }

    /// Of the marks, in the order of their numbers, the one at an index.
    pub fn mark(&self, index: usize) -> Option<(MarkNo, Place)>
        ensures value { option_map (λ (mark : MarkNo × Place). (mark.0.0, mark.1)) result
            ≡ slice_get (finite.entries self.now.marks) index }
        ensures bound { IfSome result (λ mark. mark.1.offset ≤ length self.now.columns) }
    {
        match &self.form {
            Form::Plain(_) => None,
            Form::Rich(line) => line.mark(index),
        }
    }

    /// Where the mark of a number stands.
    pub fn mark_place(&self, number: MarkNo) -> Option<Place>
        ensures value { result ≡ finite.get self.now.marks number.0 }
        ensures bound { IfSome result (λ place. place.offset ≤ length self.now.columns) }
    {
        match &self.form {
            Form::Plain(_) => None,
            Form::Rich(line) => line.mark_place(number),
        }
    }

    /// The least column at or above this one at which a mark stands.
    pub fn next_mark(&self, column: usize) -> Option<usize>
        ensures value { result ≡ next_mark column self.now.marks }
        ensures above { IfSome result (λ next. column ≤ next) }
        ensures bound { IfSome result (λ next. next ≤ length self.now.columns) }
    {
        match &self.form {
            Form::Plain(_) => None,
            Form::Rich(line) => line.next_mark(column),
        }
    }

    /// The greatest column below this one at which a mark stands.
    pub fn previous_mark(&self, column: usize) -> Option<usize>
        ensures value { result ≡ previous_mark column self.now.marks }
        ensures below { IfSome result (λ previous. previous < column) }
        ensures bound { IfSome result (λ previous. previous ≤ length self.now.columns) }
    {
        match &self.form {
            Form::Plain(_) => None,
            Form::Rich(line) => line.previous_mark(column),
        }
    }

    /// Of the marks that stand at a column, in the order of their numbers, the one at an index.
    pub fn mark_at(&self, column: usize, index: usize) -> Option<MarkNo>
        ensures { result ≡ slice_get (marks_at column self.now.marks) index }
    {
        match &self.form {
            Form::Plain(_) => None,
            Form::Rich(line) => line.mark_at(column, index),
        }
    }

    /// What is counted of the line.
    pub fn sum(&self) -> Sums<WORDS>
        ensures { result ≡ line_count self.now }
    {
        let mut sum = Sums::counting(0, 0, 0);
        self.sum_to(&mut sum);
        sum
    }

    /// Makes an empty sum what is counted of the line: without a copy of the sum, which takes much room.
    pub fn sum_to(&self, sum: &mut Sums<WORDS>)
        requires { sum.old ≡ no_text }
        ensures { sum.new ≡ line_count self.now }
    {
        match &self.form {
            Form::Plain(text) => sum.add_counts(1, text.len(), 0),
            Form::Rich(line) => line.sum_to(sum),
        }
    }

    /// Adds what is counted of the line to a sum.
    pub fn add_to(&self, sum: &mut Sums<WORDS>)
        requires { CountsFit sum.old (line_count self.now) }
        ensures { sum.new ≡ plus sum.old (line_count self.now) }
    {
        match &self.form {
            Form::Plain(text) => sum.add_counts(1, text.len(), 0),
            Form::Rich(line) => line.add_to(sum),
        }
    }

    /// The characters from one column to another.
    pub fn copy_text(&self, from: usize, to: usize) -> Result<String, AllocError>
        requires ordered { from ≤ to }
        requires within { to ≤ length self.now.columns }
        ensures { IfOk result (λ text. chars (string_bytes text) ≡ slice_range (characters self.now.columns) from to) }
    {
        match &self.form {
            Form::Plain(text) => text.copy(self.alloc, from, to),
            Form::Rich(line) => line.copy_text(from, to),
        }
    }

    /// Adds the characters from one column to another to a text.
    pub fn push_text(&self, from: usize, to: usize, text: &mut String) -> Result<(), AllocError>
        requires ordered { from ≤ to }
        requires within { to ≤ length self.now.columns }
        ensures { OnOk result (chars (string_bytes text.new)
            ≡ chars (string_bytes text.old) ++ slice_range (characters self.now.columns) from to) }
    {
        match &self.form {
            Form::Plain(characters) => characters.push(from, to, text),
            Form::Rich(line) => line.push_text(from, to, text),
        }
    }

    /// Whether edits left room in the line that is given back where it is copied and cleared of a slot, also of one
    /// that isn't in it. The room is no part of the line's value: this tells which lines are worth that copy.
    pub fn has_spare_room(&self) -> bool {
        self.form.has_spare_room()
    }

    /// Gives back room that isn't needed, where memory allows it: of its characters more than twice what they take and
    /// 64 bytes, of its toggles and of its marks more than for twice their number and 8, and the room for both where
    /// there are none. No clause can bound what stays, since memory may be refused for what is smaller.
    #[inline]
    pub fn trim(&mut self)
        ensures { self.new ≡ self.old }
    {
        self.form.trim(self.alloc);
    }

    /// A copy of the line.
    pub fn try_clone(&self) -> Result<Line, AllocError>
        ensures { IfOk result (λ copy. copy ≡ self.now) }
    {
        Ok(Line {
            alloc: self.alloc,
            form: self.form.try_clone(self.alloc)?,
        })
    }

    /// Takes the characters from a column on off, with their toggles and the marks from there on, and hands them out.
    pub fn cut(&mut self, column: usize) -> Result<Line, AllocError>
        requires { column ≤ length self.old.columns }
        ensures head { OnOk result (self.new ≡ line_before column self.old) }
        ensures tail { IfOk result (λ tail. tail ≡ line_behind column self.old) }
        ensures refused { OnErr result (self.new ≡ self.old) }
    {
        Ok(Line {
            alloc: self.alloc,
            form: self.form.cut(column, self.alloc)?,
        })
    }

    /// Adds another line behind this one. Where memory is refused, the other line comes back.
    pub fn join(&mut self, other: Line) -> Result<(), AllocFailed<Line>>
        ensures new { OnOk result (self.new ≡ joined self.old other) }
        ensures refused { OnErr result (self.new ≡ self.old) }
        ensures back { IfErr result (λ refused. refused.value ≡ other) }
    {
        if self.join_copy(&other).is_err() {
            return Err(AllocFailed { value: other });
        }
        Ok(())
    }

    /// Adds a copy of another line behind this one.
    pub fn join_copy(&mut self, other: &Line) -> Result<(), AllocError>
        ensures new { OnOk result (self.new ≡ joined self.old other.now) }
        ensures refused { OnErr result (self.new ≡ self.old) }
    {
        self.form.join_copy(&other.form, self.alloc)
    }

    /// Puts a text in before the character at a column.
    pub fn insert_text(&mut self, column: usize, text: &str) -> Result<(), AllocError>
        requires { column ≤ length self.old.columns }
        ensures new { OnOk result (self.new ≡ after_text column (chars text.now) self.old) }
        ensures refused { OnErr result (self.new ≡ self.old) }
    {
        self.form.insert_text(column, text)
    }

    /// Takes the characters from one column to another out. What was toggled an odd number of times in these is toggled
    /// before the character behind them, if there is one.
    pub fn remove_range(&mut self, from: usize, to: usize) -> Result<(), AllocError>
        requires ordered { from ≤ to }
        requires within { to ≤ length self.old.columns }
        ensures new { OnOk result (self.new ≡ after_removal from to self.old) }
        ensures refused { OnErr result (self.new ≡ self.old) }
    {
        self.form.remove_range(from, to)
    }

    /// Says whether a slot is toggled before the character at a column.
    pub fn set_toggle(
        &mut self,
        column: usize,
        slot: TagSlot,
        is_toggled: bool,
    ) -> Result<(), AllocError>
        requires slot { slot.0 < slot_count }
        requires within { column < length self.old.columns }
        ensures columns { OnOk result (self.new.columns
            ≡ changed (with_toggle slot.0 is_toggled) column (column + 1) self.old.columns) }
        ensures marks { self.new.marks ≡ self.old.marks }
        ensures refused { OnErr result (self.new ≡ self.old) }
    {
        if is_toggled {
            self.form.enrich(self.alloc)?;
        }
        self.form.set_toggle(column, slot, is_toggled)
    }

    /// Toggles each slot of a set before the character at a column.
    pub fn toggle(&mut self, column: usize, slots: &TagSet) -> Result<(), AllocError>
        requires { column < length self.old.columns }
        ensures columns { OnOk result (self.new.columns
            ≡ changed (toggled_more slots.now) column (column + 1) self.old.columns) }
        ensures marks { self.new.marks ≡ self.old.marks }
        ensures refused { OnErr result (self.new ≡ self.old) }
    {
        if !slots.is_empty() {
            self.form.enrich(self.alloc)?;
        }
        self.form.toggle(column, slots)
    }

    /// Toggles a slot before the character at a column.
    pub fn toggle_slot(&mut self, column: usize, slot: TagSlot) -> Result<(), AllocError>
        requires slot { slot.0 < slot_count }
        requires within { column < length self.old.columns }
        ensures columns { OnOk result (self.new.columns
            ≡ changed (toggled_more (set.insert set.empty slot.0)) column (column + 1) self.old.columns) }
        ensures marks { self.new.marks ≡ self.old.marks }
        ensures refused { OnErr result (self.new ≡ self.old) }
    {
        self.form.enrich(self.alloc)?;
        match &mut self.form {
            Form::Plain(_) => unreachable!(),
            Form::Rich(line) => line.toggle_slot(column, slot),
        }
    }

    /// Removes the toggles of a slot before the characters from one column to another, and toggles it before each of
    /// the characters at these two columns if that is asked for.
    pub fn reset_toggles(
        &mut self,
        slot: TagSlot,
        from: usize,
        to: usize,
        first: bool,
        last: bool,
    ) -> Result<(), AllocError>
        requires slot { slot.0 < slot_count }
        requires ordered { from ≤ to }
        requires within { to < length self.old.columns }
        ensures columns { OnOk result (self.new.columns ≡ reset slot.0 from to first last self.old.columns) }
        ensures marks { self.new.marks ≡ self.old.marks }
        ensures refused { OnErr result (self.new ≡ self.old) }
    {
        if first || last {
            self.form.enrich(self.alloc)?;
        }
        self.form.reset_toggles(slot, from, to, first, last)?;
        self.form.settle(self.alloc);
        Ok(())
    }

    /// Takes the toggles of a slot before the characters from one column to another away, which takes no memory.
    #[inline]
    pub fn clear(&mut self, slot: TagSlot, from: usize, to: usize)
        requires slot { slot.0 < slot_count }
        requires ordered { from ≤ to }
        requires within { to ≤ length self.old.columns }
        ensures columns { self.new.columns ≡ changed (with_toggle slot.0 false) from to self.old.columns }
        ensures marks { self.new.marks ≡ self.old.marks }
    {
        self.form.clear(slot, from, to);
        self.form.settle(self.alloc);
    }

    /// Puts the mark of a number at a place.
    pub fn put_mark(&mut self, number: MarkNo, place: Place) -> Result<(), AllocError>
        requires { place.offset ≤ length self.old.columns }
        ensures columns { self.new.columns ≡ self.old.columns }
        ensures marks { OnOk result (self.new.marks ≡ finite.insert self.old.marks number.0 place) }
        ensures refused { OnErr result (self.new ≡ self.old) }
    {
        self.form.enrich(self.alloc)?;
        match &mut self.form {
            Form::Plain(_) => unreachable!(),
            Form::Rich(line) => line.put_mark(number, place),
        }
    }

    /// Takes the mark of a number away.
    pub fn take_mark(&mut self, number: MarkNo)
        ensures columns { self.new.columns ≡ self.old.columns }
        ensures marks { self.new.marks ≡ finite.remove self.old.marks number.0 }
    {
        self.form.take_mark(number);
        self.form.settle(self.alloc);
    }
}
