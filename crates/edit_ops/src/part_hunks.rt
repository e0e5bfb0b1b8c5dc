//! The delta of a text that is made of parts of an old one and of new texts.

ghost use Rattle.std.specs.Prelude.{◌≡◌, ◌<◌, ◌≤◌, ◌^◌, ◌++◌, ◌∷◌, [], List, length, chars, string_bytes, IfOk, OnOk};
ghost use Rattle.std.specs.Prelude.{encode_utf8_all, min};
ghost use Rattle.std.specs.List.{All};
ghost use Rattle.edit_ops.specs.Deltas.{KnowsDelta};
ghost use Rattle.edit_ops.specs.Replays.{Leads};
ghost use Rattle.edit_ops.specs.PartHunks.{hunks_before, part_hunks, part_runs, pending_after};
ghost use Rattle.edit_ops.specs.Told.{AreHunks, AreSeparate, patched, replacing};
ghost use Rattle.text_cursor.specs.Cursors.{cursor_cells, front_cells, old_place, source_len, IsCursor, PartFits, Rise};
ghost use Rattle.text_cursor.specs.Parts.{parts_len};
ghost use Rattle.text_model.specs.Content.{characters};
ghost use Rattle.text_model.specs.declared.cells.Cell.{Cell};
ghost use Rattle.undo_stack.specs.declared.actions.Action.{Action};

use crate::deltas::Delta;
use crate::hunks::{Hunk, push_replacement};
use crate::slot_runs::SlotRun;
use std::alloc::{AllocError, Global};
use std::mem;
use text_cursor::{Cursor, Part, TextParts};
use text_model::Text;

/// Adds a character to a text.
fn push_char(text: &mut String, character: char) -> Result<(), AllocError>
    ensures { OnOk result (chars (string_bytes text.new) ≡ chars (string_bytes text.old) ++ character ∷ []) }
{
    text.push(character)?;
    Ok(())
}

/// Returns the number of bytes that characters take in UTF-8; `usize::MAX` if that is smaller.
fn byte_count(characters: &[char]) -> usize
    ensures { result ≡ min usize.MAX (length (encode_utf8_all characters.now)) }
{
    let mut count: usize = 0;
    for character in characters {
        count = count.saturating_add(character.len_utf8());
    }
    count
}

/// Adds characters to a text, which asks for room once.
fn push_characters(text: &mut String, characters: &[char]) -> Result<(), AllocError>
    ensures { OnOk result (chars (string_bytes text.new) ≡ chars (string_bytes text.old) ++ characters.now) }
{
    text.reserve(byte_count(characters))?;
    for character in characters {
        push_char(text, *character)?;
    }
    Ok(())
}

/// Hunks up to a border in an old text, and the text that is pending there: it comes in the place of what is between
/// the border and the next part of the old text that stays.
#[derive(Drop)]
struct HunkWriter {
    alloc: Global,
    hunks: Vec<Hunk>,
    border: usize,
    text: String,
}

impl HunkWriter {
    /// Keeps the characters of the old text from one offset to another.
    fn keep(&mut self, from: usize, to: usize) -> Result<(), AllocError>
        ensures hunks { OnOk result (self.new.hunks.items
            ≡ self.old.hunks.items ++ replacing self.old.border from (chars (string_bytes self.old.text))) }
        ensures text { OnOk result (chars (string_bytes self.new.text) ≡ []) }
        ensures border { OnOk result (self.new.border ≡ to) }
    {
        let text = mem::replace(&mut self.text, String::new(self.alloc));
        push_replacement(&mut self.hunks, self.border, from, Text::new(text))?;
        self.border = to;
        Ok(())
    }

    /// Keeps a part of the old text, or adds one of the new characters to what is pending.
    fn write(&mut self, part: &Part, fresh: &[char]) -> Result<(), AllocError>
        requires ordered { part.now.from ≤ part.now.to }
        requires within { part.now.to ≤ source_len part.now.slots part.now.to (length fresh.now) }
        ensures hunks { OnOk result (self.new.hunks.items ≡ self.old.hunks.items
            ++ hunks_before part.now.slots part.now.from self.old.border (chars (string_bytes self.old.text))) }
        ensures text { OnOk result (chars (string_bytes self.new.text)
            ≡ pending_after part.now.slots part.now.from part.now.to fresh.now (chars (string_bytes self.old.text))) }
        ensures border { OnOk result (self.new.border ≡ old_place part.now.slots part.now.to self.old.border) }
    {
        match part.slots {
            None => self.keep(part.from, part.to),
            Some(_) => push_characters(&mut self.text, &fresh[part.from..part.to]),
        }
    }
}

/// Returns the hunks of an old text of `len` characters that make a text of these parts of it.
fn hunks_of(alloc: Global, parts: &TextParts, len: usize) -> Result<Vec<Hunk>, AllocError>
    requires rising { Rise 0 len parts.now.parts.items }
    requires fit { All (PartFits len (length parts.now.fresh.items)) parts.now.parts.items }
    ensures hunks { IfOk result (λ hunks.
        hunks.items ≡ part_hunks 0 [] len parts.now.fresh.items parts.now.parts.items) }
    ensures stand { IfOk result (λ hunks. AreHunks 0 len hunks.items) }
    ensures apart { IfOk result (λ hunks. AreSeparate hunks.items) }
    ensures patched { IfOk result (λ hunks. (old : List Cell) → length old ≡ len →
        patched 0 hunks.items (characters old)
        ≡ characters (front_cells old parts.now.fresh.items parts.now.parts.items)) }
{
    let mut writer = HunkWriter {
        alloc,
        hunks: Vec::new(alloc),
        border: 0,
        text: String::new(alloc),
    };
    for part in &parts.parts {
        writer.write(part, &parts.fresh)?;
    }
    writer.keep(len, len)?;
    let HunkWriter { hunks, .. } = writer;
    Ok(hunks)
}

/// The runs of what is put in, in the text that these parts make, with its slots.
fn runs_of(alloc: Global, parts: &TextParts) -> Result<Vec<SlotRun>, AllocError>
    requires some { All (λ part. part.from < part.to) parts.now.parts.items }
    requires short { parts_len parts.now.parts.items < 2 ^ 64 }
    ensures { IfOk result (λ runs. runs.items ≡ part_runs 0 parts.now.parts.items) }
{
    let mut runs = Vec::new(alloc);
    let mut at = 0;
    for part in &parts.parts {
        let end = at + (part.to - part.from);
        if let Some(slots) = part.slots {
            runs.push(SlotRun {
                from: at,
                to: end,
                slots,
            })?;
        }
        at = end;
    }
    Ok(runs)
}

/// Returns the delta of an edit if its caller follows. The cursor is in the text that the edit makes.
pub fn delta_of(
    alloc: Global,
    cursor: Cursor,
    follows: bool,
) -> Result<Option<Box<Delta>>, AllocError>
    requires cursor { IsCursor cursor }
    requires short { cursor.len < 2 ^ 64 }
    ensures { IfOk result (λ delta. (actions : List Action) (old : List Cell) → length old ≡ cursor.old_len →
        Leads actions cursor → KnowsDelta follows actions old (cursor_cells old cursor) delta) }
{
    if !follows {
        return Ok(None);
    }
    let len = cursor.old_len;
    let parts = cursor.into_parts(alloc)?;
    let hunks = hunks_of(alloc, &parts, len)?;
    let gained = runs_of(alloc, &parts)?;
    let delta = Delta {
        hunks,
        lost: None,
        gained,
    };
    Ok(Some(Box::new(alloc, delta)?))
}
