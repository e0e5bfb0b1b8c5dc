//! Edits of one step that change one line alone: a copy of the line takes the step, and comes in the line's place.

ghost use Rattle.std.specs.Prelude.{◌≡◌, ◌<◌, ◌≤◌, IfOk, IfSome, OnOk, chars, length, take};
ghost use Rattle.std.specs.FinSet as set;
ghost use Rattle.text_model.specs.Content.{Slots};
ghost use Rattle.text_model.specs.SlotSets.{differing};
ghost use Rattle.text_model.specs.Steps.{StepFitsIn, set_slot};
ghost use Rattle.text_model.specs.TagBits.{slot_count};
ghost use Rattle.text_model.specs.declared.edits.Step.TheVariants.{Insert, PutMark, Remove, SetTag};
ghost use Rattle.line_lists.specs.Changes.{IsChangedBy, IsLineReady, lines_changed};
ghost use Rattle.line_lists.specs.Edits.{with_toggled};
ghost use Rattle.line_lists.specs.Texts.{whole};
ghost use Rattle.line_lists.specs.Toggling.{tags_left_of};

use crate::insertions::cut_line;
use crate::lists::LineList;
use crate::queries;
use segments::Line;
use std::alloc::AllocError;
use text_model::{MarkNo, Place, Step, TagSet, TagSlot};

/// A line that comes in the place of the one at an index, where a mark may be taken off all lines before.
#[derive(Drop)]
pub struct LineChange {
    pub taken: Option<MarkNo>,
    pub index: usize,
    pub line: Line,
}

/// The slots that are on before a column of a line, where some are on before the line.
fn slots_before(tags: &TagSet, line: &Line, column: usize) -> TagSet
    requires { column ≤ length line.now.columns }
    ensures { result ≡ differing tags.now (tags_left_of (take column line.now.columns)) }
{
    let mut slots = *tags;
    if column > 0 {
        line.turn_tags_before(column - 1, &mut slots);
    }
    slots
}

/// Returns whether a slot is on before a column of a line. `is_on` says whether it is on before the line.
pub fn is_on_before(is_on: bool, line: &Line, column: usize, slot: TagSlot) -> bool
    requires { column ≤ length line.now.columns }
    ensures { (tags : Slots) → is_on ≡ set.contains tags slot.0 →
        result ≡ set.contains (differing tags (tags_left_of (take column line.now.columns))) slot.0 }
{
    is_on != line.is_odd_left_of(column, slot)
}

/// Toggles a slot before the character at a column of a line if it isn't on there as it is to be.
fn switch(
    line: &mut Line,
    column: usize,
    slot: TagSlot,
    was_on: bool,
    is_on: bool,
) -> Result<(), AllocError>
    requires slot { slot.0 < slot_count }
    requires within { column < length line.old.columns }
    ensures { OnOk result ((tags : Slots) → was_on ≡ set.contains tags slot.0 →
        line.new ≡ with_toggled column (differing tags (set_slot slot.0 is_on tags)) line.old) }
{
    if was_on == is_on {
        return Ok(());
    }
    line.toggle_slot(column, slot)
}

/// Toggles each slot of a set before the characters at two columns of a line.
fn toggle_ends(line: &mut Line, from: usize, to: usize, slots: &TagSet) -> Result<(), AllocError>
    requires from { from < length line.old.columns }
    requires to { to < length line.old.columns }
    ensures { OnOk result (line.new ≡ with_toggled from slots.now (with_toggled to slots.now line.old)) }
{
    if slots.is_empty() {
        return Ok(());
    }
    line.toggle(to, slots)?;
    line.toggle(from, slots)
}

/// Puts a text with slots in before the character at an offset, unless it has a newline.
fn insert_text<L: LineList>(
    list: &mut L,
    offset: usize,
    text: &str,
    slots: &TagSet,
) -> Result<Option<LineChange>, AllocError>
    requires { offset < length (whole (L.lines list.old)).columns }
    ensures same { L.lines list.new ≡ L.lines list.old }
    ensures changed { IfOk result (λ found. IfSome found
        (IsChangedBy (Insert offset (chars text.now) slots.now) (L.lines list.old))) }
{
    if cut_line(text).is_some() {
        return Ok(None);
    }
    let (index, column) = list.seek(offset);
    let here = list.line(index);
    let differ = slots_before(&list.odd_slots(index), here, column).differing(slots);
    let mut line = here.try_clone()?;
    let rest = line.len() - column;
    line.insert_text(column, text)?;
    let end = line.len() - rest;
    toggle_ends(&mut line, column, end, &differ)?;
    Ok(Some(LineChange {
        taken: None,
        index,
        line,
    }))
}

/// Takes the characters from one offset to another out, unless the newline of their line is one of them.
fn remove_range<L: LineList>(
    list: &mut L,
    from: usize,
    to: usize,
) -> Result<Option<LineChange>, AllocError>
    requires ordered { from ≤ to }
    requires within { to < length (whole (L.lines list.old)).columns }
    ensures same { L.lines list.new ≡ L.lines list.old }
    ensures changed { IfOk result (λ found. IfSome found (IsChangedBy (Remove from to) (L.lines list.old))) }
{
    let (index, column) = list.seek(from);
    let here = list.line(index);
    let end = column + (to - from);
    if here.len() <= end {
        return Ok(None);
    }
    let mut line = here.try_clone()?;
    line.remove_range(column, end)?;
    Ok(Some(LineChange {
        taken: None,
        index,
        line,
    }))
}

/// Puts a slot on the characters from one offset to another, or takes it off them, unless the newline of their line is
/// one of them.
fn set_tag<L: LineList>(
    list: &mut L,
    from: usize,
    to: usize,
    slot: TagSlot,
    is_on: bool,
) -> Result<Option<LineChange>, AllocError>
    requires slot { slot.0 < slot_count }
    requires ordered { from < to }
    requires within { to ≤ length (whole (L.lines list.old)).columns }
    ensures same { L.lines list.new ≡ L.lines list.old }
    ensures changed { IfOk result (λ found. IfSome found
        (IsChangedBy (SetTag from to slot is_on) (L.lines list.old))) }
{
    let (index, column) = list.seek(from);
    let here = list.line(index);
    let end = column + (to - from);
    if here.len() <= end {
        return Ok(None);
    }
    let was_on = list.is_odd(slot, index);
    let first = is_on_before(was_on, here, column, slot);
    let last = is_on_before(was_on, here, end, slot);
    let mut line = here.try_clone()?;
    line.clear(slot, column, end);
    switch(&mut line, column, slot, first, is_on)?;
    switch(&mut line, end, slot, last, is_on)?;
    Ok(Some(LineChange {
        taken: None,
        index,
        line,
    }))
}

/// Puts the mark of a number at a place, wherever it stood.
fn put_mark<L: LineList>(list: &L, number: MarkNo, place: Place) -> Result<LineChange, AllocError>
    requires { place.offset ≤ length (whole (L.lines list.now)).columns }
    ensures { IfOk result (IsChangedBy (PutMark number place) (L.lines list.now)) }
{
    let (index, column, here) = queries::place_of(list, place.offset);
    let mut line = here.try_clone()?;
    let there = Place {
        offset: column,
        gravity: place.gravity,
    };
    line.put_mark(number, there)?;
    Ok(LineChange {
        taken: Some(number),
        index,
        line,
    })
}

/// What a step makes of one line, where it changes that line alone.
fn change_by<L: LineList>(list: &mut L, step: &Step) -> Result<Option<LineChange>, AllocError>
    requires { StepFitsIn step.now (length (whole (L.lines list.old)).columns) }
    ensures same { L.lines list.new ≡ L.lines list.old }
    ensures changed { IfOk result (λ found. IfSome found (IsChangedBy step.now (L.lines list.old))) }
{
    match step {
        Step::Insert(offset, text, slots) => insert_text(list, *offset, text.as_str(), slots),
        Step::Remove(from, to) => remove_range(list, *from, *to),
        Step::SetTag(from, to, slot, is_on) if from < to => {
            set_tag(list, *from, *to, *slot, *is_on)
        }
        Step::PutMark(number, place) => Ok(Some(put_mark(list, *number, *place)?)),
        _ => Ok(None),
    }
}

/// What a step makes of one line of a list, where it changes that line alone; the list stays as it is. The line keeps
/// no more room than it needs.
pub fn line_change<L: LineList>(list: &mut L, step: &Step) -> Result<Option<LineChange>, AllocError>
    requires { StepFitsIn step.now (length (whole (L.lines list.old)).columns) }
    ensures same { L.lines list.new ≡ L.lines list.old }
    ensures changed { IfOk result (λ found. IfSome found (IsChangedBy step.now (L.lines list.old))) }
{
    let Some(mut change) = change_by(list, step)? else {
        return Ok(None);
    };
    change.line.trim();
    Ok(Some(change))
}

/// Puts the changed line in its place.
pub fn put_line<L: LineList>(list: &mut L, change: LineChange)
    requires { IsLineReady (L.lines list.old) (L.mark_room list.old) change }
    ensures { L.lines list.new ≡ lines_changed change (L.lines list.old) }
{
    if let Some(number) = change.taken {
        list.take_mark(number);
    }
    list.replace(change.index, change.line);
}
