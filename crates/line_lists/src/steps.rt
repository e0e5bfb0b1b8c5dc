//! Applies the steps of an edit to a draft: text, slots and marks, by offsets in characters.

ghost use Rattle.std.specs.Prelude.{◌≡◌, ◌+◌, ◌<◌, ◌≤◌, IfOk, OnOk, chars, length, take};
ghost use Rattle.text_model.specs.SlotSets.{differing};
ghost use Rattle.text_model.specs.Steps.{Fits, StepFitsIn, after, set_slot};
ghost use Rattle.text_model.specs.TagBits.{slot_count};
ghost use Rattle.text_model.specs.declared.edits.Step.TheVariants.{ClearSlot, ClearTags, Insert, PutMark, SetTag};
ghost use Rattle.segments.specs.Columns.{tags_before};
ghost use Rattle.line_lists.specs.DraftTexts.{IsTakenFrom, IsTextIn, lines_in, text_in};
ghost use Rattle.line_lists.specs.Drafts.{copies_of, lines_before};
ghost use Rattle.line_lists.specs.Edits.{made, with_toggled};
ghost use Rattle.line_lists.specs.Texts.{text_of, whole};
ghost use Rattle.line_lists.specs.Toggling.{switched, tags_left_of};

use crate::drafts::{Draft, Found, Stop};
use crate::lists::LineList;
use std::alloc::AllocError;
use text_model::{MarkNo, Place, Step, TagSet, TagSlot, count_characters};

/// The slots that change where one is put in a set, or taken out.
pub fn switched_slots(before: &TagSet, slot: TagSlot, is_on: bool) -> TagSet
    requires { slot.0 < slot_count }
    ensures { result ≡ differing before.now (set_slot slot.0 is_on before.now) }
{
    if before.has(slot) == is_on {
        TagSet::empty()
    } else {
        TagSet::empty().with(slot)
    }
}

impl<'a, L: LineList> Draft<'a, L> {
    /// Toggles each slot of a set before the character at an offset of a text of so many characters; at its end there
    /// is nothing to toggle.
    fn toggle_before(&mut self, offset: usize, slots: &TagSet, len: usize) -> Result<(), AllocError>
        requires is { IsTextIn L.lines self.old }
        requires len { len ≡ length (text_in L.lines self.old).columns }
        ensures list { self.new.list.now ≡ self.old.list.now }
        ensures is { OnOk result (IsTextIn L.lines self.new) }
        ensures new { OnOk result (text_in L.lines self.new
            ≡ with_toggled offset slots.now (text_in L.lines self.old)) }
    {
        if len <= offset || slots.is_empty() {
            return Ok(());
        }
        self.toggle(offset, slots)
    }

    /// Toggles slots before the characters at two offsets of a text of so many, in the order in which the draft comes
    /// by: where its copies reach beyond the first of the two, it stands near the second.
    fn toggle_ends(
        &mut self,
        from: usize,
        to: usize,
        first: &TagSet,
        last: &TagSet,
        len: usize,
    ) -> Result<(), AllocError>
        requires is { IsTextIn L.lines self.old }
        requires len { len ≡ length (text_in L.lines self.old).columns }
        ensures list { self.new.list.now ≡ self.old.list.now }
        ensures is { OnOk result (IsTextIn L.lines self.new) }
        ensures new { OnOk result (text_in L.lines self.new
            ≡ with_toggled to last.now (with_toggled from first.now (text_in L.lines self.old))) }
    {
        if self.covered() > from {
            self.toggle_before(to, last, len)?;
            return self.toggle_before(from, first, len);
        }
        self.toggle_before(from, first, len)?;
        self.toggle_before(to, last, len)
    }

    /// The slots that are on behind the lines before that of a copy which was taken out.
    fn tags_up_to(&mut self, stop: &Stop) -> TagSet
        requires { IsTakenFrom L.lines self.old stop.now }
        ensures list { self.new.list.now ≡ self.old.list.now }
        ensures front { self.new.front ≡ self.old.front }
        ensures back { self.new.back ≡ self.old.back }
        ensures value { result ≡ tags_left_of (whole
            (lines_before (copies_of self.old.front.items) stop.now.copy (L.lines self.old.list.now))).columns }
    {
        let mut slots = self.known.all(self.list, &self.front);
        stop.reached.turn_kept(
            self.list,
            &mut self.known.before,
            stop.copy.kept,
            &mut slots,
        );
        slots
    }

    /// The slots that are on at a character.
    fn tags_at(&mut self, offset: usize) -> Result<TagSet, AllocError>
        requires is { IsTextIn L.lines self.old }
        requires within { offset < length (text_in L.lines self.old).columns }
        ensures list { self.new.list.now ≡ self.old.list.now }
        ensures is { OnOk result (IsTextIn L.lines self.new) }
        ensures same { OnOk result (lines_in L.lines self.new ≡ lines_in L.lines self.old) }
        ensures value { IfOk result (λ slots. slots ≡ tags_before offset (text_in L.lines self.old).columns) }
    {
        let Found { stop, column } = self.take(offset)?;
        let mut slots = self.tags_up_to(&stop);
        stop.copy.line.turn_tags_before(column, &mut slots);
        self.put(stop);
        Ok(slots)
    }

    /// The slots that are on behind so many characters of a text; the line of the next one is copied.
    fn left_tags(&mut self, offset: usize) -> Result<TagSet, AllocError>
        requires is { IsTextIn L.lines self.old }
        requires within { offset < length (text_in L.lines self.old).columns }
        ensures list { self.new.list.now ≡ self.old.list.now }
        ensures is { OnOk result (IsTextIn L.lines self.new) }
        ensures same { OnOk result (lines_in L.lines self.new ≡ lines_in L.lines self.old) }
        ensures value { IfOk result (λ slots. slots ≡ tags_left_of (take offset (text_in L.lines self.old).columns)) }
    {
        let Found { stop, column } = self.take(offset)?;
        let mut slots = self.tags_up_to(&stop);
        slots.flip(&stop.copy.line.tags_left_of(column));
        self.put(stop);
        Ok(slots)
    }

    /// The slots that change before an offset of a text of so many characters where one is put on there, or taken off;
    /// of its end nothing is asked.
    fn switched(
        &mut self,
        offset: usize,
        slot: TagSlot,
        is_on: bool,
        len: usize,
    ) -> Result<TagSet, AllocError>
        requires is { IsTextIn L.lines self.old }
        requires slot { slot.0 < slot_count }
        requires len { len ≡ length (text_in L.lines self.old).columns }
        ensures list { self.new.list.now ≡ self.old.list.now }
        ensures is { IsTextIn L.lines self.new }
        ensures same { lines_in L.lines self.new ≡ lines_in L.lines self.old }
        ensures value { IfOk result (λ slots. offset < len → slots
            ≡ switched (set_slot slot.0 is_on) offset (text_in L.lines self.old).columns) }
    {
        if len <= offset {
            return Ok(TagSet::empty());
        }
        let before = self.tags_left_of(offset)?;
        Ok(switched_slots(&before, slot, is_on))
    }

    /// Puts a text with slots in a text of so many characters, before the one at an offset, and gives how many there
    /// are then.
    fn insert_tagged(
        &mut self,
        offset: usize,
        text: &str,
        slots: &TagSet,
        len: usize,
    ) -> Result<usize, AllocError>
        requires is { IsTextIn L.lines self.old }
        requires len { len ≡ length (text_in L.lines self.old).columns }
        requires within { offset < len }
        ensures list { self.new.list.now ≡ self.old.list.now }
        ensures is { OnOk result (IsTextIn L.lines self.new) }
        ensures new { OnOk result (text_in L.lines self.new
            ≡ made (Insert offset (chars text.now) slots.now) (text_in L.lines self.old)) }
        ensures len { IfOk result (λ longer. longer ≡ len + length (chars text.now)) }
    {
        let count = count_characters(text);
        // More characters than a number can count have no room in memory.
        let longer = len.checked_add(count).ok_or(AllocError)?;
        let before = self.left_tags(offset)?;
        let differ = before.differing(slots);
        self.insert(offset, text)?;
        self.toggle_before(offset + count, &differ, longer)?;
        self.toggle_before(offset, &differ, longer)?;
        Ok(longer)
    }

    /// Puts a slot on the characters from one offset to another of a text of so many, or takes it off them.
    fn set_tag(
        &mut self,
        from: usize,
        to: usize,
        slot: TagSlot,
        is_on: bool,
        len: usize,
    ) -> Result<(), AllocError>
        requires is { IsTextIn L.lines self.old }
        requires len { len ≡ length (text_in L.lines self.old).columns }
        requires slot { slot.0 < slot_count }
        requires ordered { from ≤ to }
        requires within { to ≤ len }
        ensures list { self.new.list.now ≡ self.old.list.now }
        ensures is { OnOk result (IsTextIn L.lines self.new) }
        ensures new { OnOk result (text_in L.lines self.new
            ≡ made (SetTag from to slot is_on) (text_in L.lines self.old)) }
    {
        let first = self.switched(from, slot, is_on, len)?;
        let last = self.switched(to, slot, is_on, len)?;
        self.clear(slot, from, to)?;
        self.toggle_ends(from, to, &first, &last, len)
    }

    /// Takes all slots off a character of a text of so many.
    fn clear_tags(&mut self, offset: usize, len: usize) -> Result<(), AllocError>
        requires is { IsTextIn L.lines self.old }
        requires len { len ≡ length (text_in L.lines self.old).columns }
        requires within { offset < len }
        ensures list { self.new.list.now ≡ self.old.list.now }
        ensures is { OnOk result (IsTextIn L.lines self.new) }
        ensures new { OnOk result (text_in L.lines self.new ≡ made (ClearTags offset) (text_in L.lines self.old)) }
    {
        let here = self.tags_at(offset)?;
        self.toggle_before(offset + 1, &here, len)?;
        self.toggle_before(offset, &here, len)
    }

    /// Puts the mark of a number at a place of a text of so many characters, wherever it stood.
    fn move_mark(&mut self, number: MarkNo, place: Place, len: usize) -> Result<(), AllocError>
        requires is { IsTextIn L.lines self.old }
        requires len { len ≡ length (text_in L.lines self.old).columns }
        requires some { 0 < len }
        requires within { place.offset ≤ len }
        ensures list { self.new.list.now ≡ self.old.list.now }
        ensures is { OnOk result (IsTextIn L.lines self.new) }
        ensures new { OnOk result (text_in L.lines self.new ≡ made (PutMark number place) (text_in L.lines self.old)) }
    {
        self.take_mark(number)?;
        if place.offset < len {
            self.put_mark(number, place)
        } else {
            self.put_last_mark(number, place)
        }
    }

    /// Makes a step in a text of so many characters, at least one, and gives how many there are then.
    fn make_step(&mut self, step: &Step, len: usize) -> Result<usize, AllocError>
        requires is { IsTextIn L.lines self.old }
        requires len { len ≡ length (text_in L.lines self.old).columns }
        requires some { 0 < len }
        requires fits { StepFitsIn step.now len }
        ensures list { self.new.list.now ≡ self.old.list.now }
        ensures is { OnOk result (IsTextIn L.lines self.new) }
        ensures new { OnOk result (text_in L.lines self.new ≡ made step.now (text_in L.lines self.old)) }
        ensures len { IfOk result (λ after. after ≡ length (text_in L.lines self.new).columns) }
        ensures some { IfOk result (λ after. 0 < after) }
    {
        match step {
            Step::Remove(from, to) => {
                self.remove(*from, *to)?;
                return Ok(len - (*to - *from));
            }
            Step::Insert(offset, text, slots) => {
                return self.insert_tagged(*offset, text.as_str(), slots, len);
            }
            Step::SetTag(from, to, slot, is_on) => {
                self.set_tag(*from, *to, *slot, *is_on, len)?;
            }
            Step::ClearTags(offset) => self.clear_tags(*offset, len)?,
            Step::ClearSlot(slot) => self.clear_slot(*slot, len)?,
            Step::PutMark(number, place) => self.move_mark(*number, *place, len)?,
            Step::TakeMark(number) => self.take_mark(*number)?,
        }
        Ok(len)
    }

    /// Makes the steps of an edit.
    pub fn make_steps(&mut self, steps: &[Step], len: usize) -> Result<(), AllocError>
        requires is { IsTextIn L.lines self.old }
        requires len { len ≡ length (text_in L.lines self.old).columns }
        requires some { 0 < len }
        requires fits { Fits steps.now (text_of (text_in L.lines self.old)) }
        ensures list { self.new.list.now ≡ self.old.list.now }
        ensures is { OnOk result (IsTextIn L.lines self.new) }
        ensures new { OnOk result (text_of (text_in L.lines self.new)
            ≡ after steps.now (text_of (text_in L.lines self.old))) }
    {
        let mut len = len;
        for step in steps {
            len = self.make_step(step, len)?;
        }
        Ok(())
    }
}
