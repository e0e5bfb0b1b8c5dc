//! Edits that a store makes at once in one line, without a plan: an insertion of one text, and a deletion of one span.

ghost use Rattle.std.specs.Prelude.{◌≡◌, ◌∷◌, [], ℕ, ◌+◌, ◌<◌, ◌≤◌, None, true, false, length, chars, OnOk, OnErr};
ghost use Rattle.std.specs.Prelude.{IfOk};
ghost use Rattle.std.specs.List.{All};
ghost use Rattle.edit_ops.specs.Anchors.{AnchorsStand};
ghost use Rattle.edit_ops.specs.Deletions.{deleted};
ghost use Rattle.edit_ops.specs.Insertions.{inserted_texts};
ghost use Rattle.edit_ops.specs.States.{log_noted, log_of, state_in, IsUnchanged};

use crate::anchors::{draw_anchors, move_anchors};
use crate::outlines::kept_text;
use crate::plans::Recording;
use crate::spans::Span;
use crate::texts::{EditRules, EditedText};
use std::alloc::{AllocError, Global};
use text_model::{Text, TextStore};
use undo_stack::{Action, EditKind, UndoStack};

/// Reserves what the note of one action takes, if actions are kept. The history stays as it is.
fn reserve_note(history: &mut UndoStack, recording: Recording) -> Result<(), AllocError>
    ensures same { log_of history.new ≡ log_of history.old }
    ensures room { OnOk result (recording.undo ≡ true → 0 < history.new.room) }
{
    if recording.undo {
        history.reserve(1)?;
    }
    Ok(())
}

/// Notes an action of an edit of a kind, for which memory is reserved, and releases what the history no longer needs.
fn note_action(history: &mut UndoStack, kind: EditKind, action: Action, recording: Recording)
    requires { recording.undo ≡ true → 0 < history.old.room }
    ensures { log_of history.new ≡ log_noted recording kind action (log_of history.old) }
{
    history.note(kind, action, recording.undo, recording.separators);
    history.give_back_room();
}

/// Returns a copy of a text if it is to be kept, and else an empty text.
fn kept_piece(alloc: Global, piece: &str, keeps: bool) -> Result<Text, AllocError>
    ensures { IfOk result (λ text. keeps ≡ true → text ≡ chars piece.now) }
{
    if !keeps {
        return Ok(Text::new(String::new(alloc)));
    }
    Ok(Text::new(String::from_str(alloc, piece)?))
}

/// The maximum number of bytes of a text that is inserted without a plan. A plan of a longer text costs little next to
/// its bytes, which are searched for a newline here and in the store.
const FEW_BYTES: usize = 256;

/// Returns whether a text may be inserted without a plan into one of `len` characters: no report is wanted, it has few
/// bytes, none of them a newline, and the limit has space for them.
fn needs_no_plan(rules: &EditRules<'_>, len: usize, piece: &str) -> bool
    ensures quiet { result ≡ true → rules.now.follows ≡ false }
    ensures some { result ≡ true → 0 < length (chars piece.now) }
    ensures fits { result ≡ true → len + length (chars piece.now) ≤ rules.now.limits.now.chars }
{
    if rules.follows || piece.is_empty() || piece.len() > FEW_BYTES {
        return false;
    }
    if piece.as_bytes().contains(&b'\n') {
        return false;
    }
    len.saturating_add(piece.len()) <= rules.limits.chars()
}

/// Inserts a text before the character at an offset, in characters, where the store can make that in one line, and
/// notes it as `plan_insert` does. Returns whether the insertion was made; otherwise, and where an allocation fails,
/// nothing changes. It isn't made where reports are wanted, for a text that is empty, has a newline or more than 256
/// bytes, and where these exceed the limit on characters. Its cost is that of the line.
pub fn insert_within<S: TextStore>(
    rules: &EditRules<'_>,
    text: &mut EditedText<S>,
    at: usize,
    piece: &str,
) -> Result<bool, AllocError>
    requires within { at < length (S.content text.old.store).cells }
    requires stand { All (AnchorsStand (length (S.content text.old.store).cells)) text.old.anchors.items }
    ensures made { IfOk result (λ is_made. is_made ≡ true → state_in S.content text.new
        ≡ inserted_texts rules.now.recording EditKind.Insert at (record { text = chars piece.now; slots = None } ∷ [])
        (state_in S.content text.old)) }
    ensures fits { IfOk result (λ is_made. is_made ≡ true →
        length (S.content text.old.store).cells + length (chars piece.now) ≤ rules.now.limits.now.chars) }
    ensures quiet { IfOk result (λ is_made. is_made ≡ true → rules.now.follows ≡ false) }
    ensures other { IfOk result (λ is_made. is_made ≡ false → IsUnchanged S.content text.old text.new) }
    ensures refused { OnErr result (IsUnchanged S.content text.old text.new) }
{
    let len = text.store.len();
    if !needs_no_plan(rules, len, piece) {
        return Ok(false);
    }
    reserve_note(&mut text.history, rules.recording)?;
    let kept = kept_piece(rules.alloc, piece, rules.recording.undo)?;
    if !text.store.put_within(at, piece)? {
        return Ok(false);
    }
    let count = text.store.len() - len;
    move_anchors(&mut text.anchors, at, count, len);
    let action = Action {
        inserts: true,
        at,
        text: kept,
    };
    note_action(&mut text.history, EditKind::Insert, action, rules.recording);
    Ok(true)
}

/// Deletes a span of what a widget shows up to `end`, an offset in characters, where the store can make that in one
/// line, and notes it as `plan_delete` does. Returns whether the deletion was made; otherwise, and where an allocation
/// fails, nothing changes. It isn't made where reports are wanted, for an empty span, and for one that holds a newline
/// or the last character shown. Its cost is that of the line.
pub fn delete_within<S: TextStore>(
    rules: &EditRules<'_>,
    text: &mut EditedText<S>,
    end: usize,
    span: Span,
) -> Result<bool, AllocError>
    requires { end ≤ length (S.content text.old.store).cells }
    ensures made { IfOk result (λ is_made. is_made ≡ true → (start : ℕ) → state_in S.content text.new
        ≡ deleted rules.now.recording start end (span ∷ []) (state_in S.content text.old)) }
    ensures quiet { IfOk result (λ is_made. is_made ≡ true → rules.now.follows ≡ false) }
    ensures other { IfOk result (λ is_made. is_made ≡ false → IsUnchanged S.content text.old text.new) }
    ensures refused { OnErr result (IsUnchanged S.content text.old text.new) }
{
    if rules.follows || span.from >= span.to || span.to >= end {
        return Ok(false);
    }
    let line = text.store.line_at(span.from);
    if span.to >= line.end {
        return Ok(false);
    }
    reserve_note(&mut text.history, rules.recording)?;
    let kept = kept_text(rules.alloc, &text.store, span, rules.recording.undo)?;
    if !text.store.take_within(span.from, span.to)? {
        return Ok(false);
    }
    let next = line.end - (span.to - span.from);
    draw_anchors(&mut text.anchors, line.start, next, span.from, span.to);
    let action = Action {
        inserts: false,
        at: span.from,
        text: kept,
    };
    note_action(&mut text.history, EditKind::Delete, action, rules.recording);
    Ok(true)
}
