//! Plans of replacements: a span is deleted and pieces of text are inserted in its place.

ghost use Rattle.std.specs.Prelude.{◌≡◌, ◌+◌, ◌-◌, ◌<◌, ◌≤◌, ◌^◌, ◌↔◌, true, min, length, option_and_then, IfOk};
ghost use Rattle.std.specs.Prelude.{OnOk, Err};
ghost use Rattle.std.specs.Char.{IsScalar};
ghost use Rattle.std.specs.List.{All};
ghost use Rattle.edit_ops.specs.Anchors.{AnchorsStand};
ghost use Rattle.edit_ops.specs.Deltas.{KnowsDelta};
ghost use Rattle.edit_ops.specs.Inserted.{removal_steps, replacement, PutInPlace};
ghost use Rattle.edit_ops.specs.Insertions.{pieces_text, total};
ghost use Rattle.edit_ops.specs.Removals.{clipped, removed_span, replaced_span, replaced};
ghost use Rattle.edit_ops.specs.Plans.{planned, HasRoomFor, KeepsWidgets};
ghost use Rattle.edit_ops.specs.declared.plans.Recording.{Recording};
ghost use Rattle.edit_ops.specs.States.{Log, log_of, state_of, state_in, outlineed, IsUnchanged};
ghost use Rattle.text_model.specs.Splices.{removed};
ghost use Rattle.text_model.specs.Steps.{Fits, after};

use crate::faults::EditFault;
use crate::insertions::{Gap, is_too_long, needs_shared, slots_beside};
use crate::outlines::{Outline, kept_text};
use crate::plans::{Plan, prepare};
use crate::slotted_texts::SlottedText;
use crate::spans::Span;
use crate::texts::{EditRules, EditedText, Target};
use std::alloc::AllocError;
use text_cursor::{line_at, line_behind};
use text_model::{MarkNo, Place, TextStore};
use undo_stack::EditKind;

/// Returns the edit that deletes the characters of a span, with the text of its action where that is kept, and with
/// space for `room` steps.
fn outline_removal<S: TextStore>(
    rules: &EditRules<'_>,
    text: &EditedText<S>,
    span: Span,
    room: usize,
) -> Result<Outline, AllocError>
    requires ordered { span.from ≤ span.to }
    requires within { span.to < length (S.content text.now.store).cells }
    requires stand { All (AnchorsStand (length (S.content text.now.store).cells)) text.now.anchors.items }
    ensures widgets { IfOk result (λ outline. length outline.anchors ≡ length text.now.anchors.items) }
    ensures stand { IfOk result (λ outline. All
        (AnchorsStand (length (S.content text.now.store).cells - (span.to - span.from))) outline.anchors) }
    ensures fits { IfOk result (λ outline. Fits outline.steps (S.content text.now.store)) }
    ensures steps { IfOk result (λ outline. outline.steps ≡ removal_steps span.from span.to) }
    ensures cells { IfOk result (λ outline. (after outline.steps (S.content text.now.store)).cells
        ≡ removed span.from span.to (S.content text.now.store).cells) }
    ensures makes { IfOk result (λ outline. (recording : Recording) (kind : EditKind) (log : Log) →
        (recording.undo ≡ true → rules.now.recording.undo ≡ true) →
        outlineed recording kind outline (state_of (S.content text.now.store) text.now.anchors.items log)
        ≡ removed_span recording kind span.from span.to
        (state_of (S.content text.now.store) text.now.anchors.items log)) }
{
    let mut outline = Outline::new(rules.alloc, text, room)?;
    let Span { from, to } = span;
    if from == to {
        return Ok(outline);
    }
    let store = &text.store;
    let taken = kept_text(rules.alloc, store, span, rules.recording.undo)?;
    let next = line_behind(store, to) - (to - from);
    outline.remove(from, to, taken, line_at(store, from), next)?;
    Ok(outline)
}

/// Returns the place of a mark within a range, once the range is replaced by `count` characters.
fn clipped(place: Option<Place>, from: usize, to: usize, count: usize) -> Option<Place>
    ensures { result ≡ option_and_then (clipped from to count) place }
{
    let place = place?;
    if place.offset < from || to <= place.offset {
        return None;
    }
    Some(Place {
        offset: from + count.min(place.offset - from),
        gravity: place.gravity,
    })
}

/// The edit that puts texts in the place of the characters of a span, and clips a mark, with the texts of its actions
/// where these are to be kept.
fn outline_replace<S: TextStore>(
    rules: &EditRules<'_>,
    text: &EditedText<S>,
    span: Span,
    pieces: Vec<SlottedText>,
    mark: MarkNo,
) -> Result<Outline, AllocError>
    requires ordered { span.from ≤ span.to }
    requires within { span.to < length (S.content text.now.store).cells }
    requires stand { All (AnchorsStand (length (S.content text.now.store).cells)) text.now.anchors.items }
    requires room { length (S.content text.now.store).cells - (span.to - span.from) + total pieces.items < 2 ^ 64 }
    ensures widgets { IfOk result (λ outline. length outline.anchors ≡ length text.now.anchors.items) }
    ensures fits { IfOk result (λ outline. Fits outline.steps (S.content text.now.store)) }
    ensures makes { IfOk result (λ outline. (recording : Recording) (log : Log) →
        (recording.undo ≡ true → rules.now.recording.undo ≡ true) →
        outlineed recording EditKind.Replace outline (state_of (S.content text.now.store) text.now.anchors.items log)
        ≡ replaced_span recording mark.0 span.from span.to pieces.items
        (state_of (S.content text.now.store) text.now.anchors.items log)) }
    ensures put { IfOk result (λ outline. PutInPlace span.from span.to pieces.items (S.content text.now.store).cells
        (after outline.steps (S.content text.now.store)).cells outline.steps) }
{
    let mut outline = outline_removal(rules, text, span, pieces.len() + 2)?;
    let store = &text.store;
    let Span { from, to } = span;
    let (before, behind) = slots_beside(store, from, to, needs_shared(&pieces));
    let gap = Gap {
        at: from,
        len: store.len() - (to - from),
        before,
        behind,
    };
    let end = outline.insert_pieces(pieces, &gap, rules.recording.undo)?;
    match clipped(store.mark_place(mark), from, to, end - from) {
        None => {}
        Some(place) => outline.put_mark(mark, place)?,
    }
    Ok(outline)
}

/// A plan that puts texts in the place of the characters from one offset to another, where both are cut to the last
/// character that the acting widget shows. The characters are taken out, and the texts put in as by `plan_insert`; each
/// is an action of a replacement. The target's mark, if it stands before a character that is taken out, stays as far
/// behind the place as it was, or goes to the end of the new text (text(n), "replace").
pub fn plan_replace<S: TextStore>(
    rules: &EditRules<'_>,
    text: &mut EditedText<S>,
    target: Target,
    pieces: Vec<SlottedText>,
) -> Result<Plan<S>, EditFault>
    requires within { target.last < length (S.content text.old.store).cells }
    requires stand { All (AnchorsStand (length (S.content text.old.store).cells)) text.old.anchors.items }
    ensures same { IsUnchanged S.content text.old text.new }
    ensures order { (result ≡ Err EditFault.IndexOrder) ↔ (target.to < target.from) }
    ensures too_long { (result ≡ Err EditFault.TextTooLong) ↔ ((target.from ≤ target.to) ×
        (rules.now.limits.now.chars < length (S.content text.old.store).cells
        - (min target.to target.last - min target.from target.last) + total pieces.items)) }
    ensures scalars { OnOk result (All (λ piece. All IsScalar piece.text) pieces.items) }
    ensures ready { IfOk result (λ plan. S.ready text.new.store plan.prepared) }
    ensures room { IfOk result (λ plan. HasRoomFor plan.effects text.new.history) }
    ensures widgets { IfOk result (λ plan. KeepsWidgets plan.effects text.old.anchors.items) }
    ensures outcome { IfOk result (λ plan.
        planned plan.effects (S.outcome text.new.store plan.prepared) text.old.anchors.items (log_of text.old.history)
        ≡ replaced rules.now.recording target.mark.0 target.last target.from target.to pieces.items
        (state_in S.content text.old)) }
    ensures delta { IfOk result (λ plan. KnowsDelta rules.now.follows
        (replacement (S.content text.old.store).cells (min target.from target.last) (min target.to target.last)
        (pieces_text pieces.items))
        (S.content text.old.store).cells (S.outcome text.new.store plan.prepared).cells plan.delta) }
{
    if target.to < target.from {
        return Err(EditFault::IndexOrder);
    }
    let from = target.from.min(target.last);
    let to = target.to.min(target.last);
    if is_too_long(rules.limits, text.store.len() - (to - from), &pieces) {
        return Err(EditFault::TextTooLong);
    }
    let outline = outline_replace(rules, text, Span { from, to }, pieces, target.mark)?;
    let delta = outline.delta_of_texts(rules.follows, from, to)?;
    Ok(prepare(text, outline, EditKind::Replace, rules.recording, delta)?)
}
