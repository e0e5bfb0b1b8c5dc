//! Edits that are made in lines where they lie, as `TextStore` has them: without a copy of the line, and without a
//! second look-up.

ghost use Rattle.std.specs.Prelude.{◌≡◌, ◌∷◌, [], ◌<◌, ◌≤◌, IfOk, OnErr, chars, false, length, true};
ghost use Rattle.text_model.specs.Content.{shared_slots};
ghost use Rattle.text_model.specs.Steps.{after};
ghost use Rattle.text_model.specs.TagBits.{slot_count};
ghost use Rattle.text_model.specs.declared.edits.Step.TheVariants.{Insert, PutMark, Remove, SetTag};
ghost use Rattle.line_lists.specs.Texts.{content_of};

use crate::insertions::cut_line;
use crate::line_changes::is_on_before;
use crate::lists::LineList;
use crate::pieces::{count_longer, count_marked};
use crate::queries;
use segments::{InsertText, RemoveRange, ResetToggles};
use std::alloc::AllocError;
use text_model::{MarkNo, Place, TagSlot};

/// Inserts a text before the character at an offset, with the slots that the characters on both sides share, unless it
/// has a newline or a slot is toggled there. Returns whether it did.
pub fn put_within<L: LineList>(list: &mut L, at: usize, text: &str) -> Result<bool, AllocError>
    requires { at < length (content_of (L.lines list.old)).cells }
    ensures made { IfOk result (λ is_made. is_made ≡ true → let old = content_of (L.lines list.old) in
        content_of (L.lines list.new) ≡ after (Insert at (chars text.now) (shared_slots at old.cells) ∷ []) old) }
    ensures other { IfOk result (λ is_made. is_made ≡ false → L.lines list.new ≡ L.lines list.old) }
    ensures refused { OnErr result (L.lines list.new ≡ L.lines list.old) }
{
    if cut_line(text).is_some() {
        return Ok(false);
    }
    let (index, column) = list.seek(at);
    let line = list.line(index);
    if line.is_toggled(column) {
        return Ok(false);
    }
    count_longer(list, line, text.len())?;
    list.edit_line(index, &InsertText { column, text })?;
    Ok(true)
}

/// Removes the characters from one offset to another, unless the newline of their line is one of them. Returns whether
/// it did.
pub fn take_within<L: LineList>(list: &mut L, from: usize, to: usize) -> Result<bool, AllocError>
    requires ordered { from ≤ to }
    requires within { to < length (content_of (L.lines list.old)).cells }
    ensures made { IfOk result (λ is_made. is_made ≡ true →
        content_of (L.lines list.new) ≡ after (Remove from to ∷ []) (content_of (L.lines list.old))) }
    ensures other { IfOk result (λ is_made. is_made ≡ false → L.lines list.new ≡ L.lines list.old) }
    ensures refused { OnErr result (L.lines list.new ≡ L.lines list.old) }
{
    let (index, column) = list.seek(from);
    let end = column + (to - from);
    let line = list.line(index);
    if line.len() <= end {
        return Ok(false);
    }
    count_longer(list, line, 0)?;
    list.edit_line(
        index,
        &RemoveRange {
            from: column,
            to: end,
        },
    )?;
    Ok(true)
}

/// Adds a slot to the characters from one offset to another, or removes it from them, unless the newline of their line
/// is one of them. Returns whether it did.
pub fn tag_within<L: LineList>(
    list: &mut L,
    from: usize,
    to: usize,
    slot: TagSlot,
    is_on: bool,
) -> Result<bool, AllocError>
    requires ordered { from ≤ to }
    requires within { to ≤ length (content_of (L.lines list.old)).cells }
    requires known { slot.0 < slot_count }
    ensures made { IfOk result (λ is_made. is_made ≡ true →
        content_of (L.lines list.new) ≡ after (SetTag from to slot is_on ∷ []) (content_of (L.lines list.old))) }
    ensures other { IfOk result (λ is_made. is_made ≡ false → L.lines list.new ≡ L.lines list.old) }
    ensures refused { OnErr result (L.lines list.new ≡ L.lines list.old) }
{
    if from == to {
        return Ok(false);
    }
    let (index, column) = list.seek(from);
    let end = column + (to - from);
    let line = list.line(index);
    if line.len() <= end {
        return Ok(false);
    }
    let was_on = list.is_odd(slot, index);
    let edit = ResetToggles {
        slot,
        from: column,
        to: end,
        first: is_on_before(was_on, line, column, slot) != is_on,
        last: is_on_before(was_on, line, end, slot) != is_on,
    };
    count_longer(list, line, 0)?;
    list.edit_line(index, &edit)?;
    Ok(true)
}

/// Puts the mark of a number at a place, wherever it is, or as a new one, unless that is the end of the text. Returns
/// whether it did.
pub fn move_mark<L: LineList>(
    list: &mut L,
    number: MarkNo,
    place: Place,
) -> Result<bool, AllocError>
    requires { place.offset ≤ length (content_of (L.lines list.old)).cells }
    ensures made { IfOk result (λ is_made. is_made ≡ true →
        content_of (L.lines list.new) ≡ after (PutMark number place ∷ []) (content_of (L.lines list.old))) }
    ensures other { IfOk result (λ is_made. is_made ≡ false → L.lines list.new ≡ L.lines list.old) }
    ensures refused { OnErr result (L.lines list.new ≡ L.lines list.old) }
{
    if place.offset == queries::len(list) {
        return Ok(false);
    }
    let (index, column) = list.seek(place.offset);
    count_marked(list, list.line(index))?;
    let there = Place {
        offset: column,
        gravity: place.gravity,
    };
    list.move_mark(number, index, there)?;
    Ok(true)
}
