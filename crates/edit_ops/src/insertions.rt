//! Plans of insertions: one text, or pieces in which each character has tags of its own.

ghost use Rattle.std.specs.Prelude.{◌≡◌, ◌≢◌, ◌+◌, ◌<◌, ◌≤◌, ◌^◌, ◌↔◌, ◌-◌, nat_lt, min, length, OnOk, IfOk, Err};
ghost use Rattle.std.specs.Prelude.{true, false, Some, slice_get, ◌∷◌, []};
ghost use Rattle.std.specs.Char.{IsScalar};
ghost use Rattle.std.specs.FinSet as set;
ghost use Rattle.std.specs.List.{All};
ghost use Rattle.edit_ops.specs.Anchors.{AnchorsStand};
ghost use Rattle.edit_ops.specs.Deltas.{KnowsDelta};
ghost use Rattle.edit_ops.specs.Inserted.{GoesOn, PutInPlace};
ghost use Rattle.edit_ops.specs.Insertions.{inserted_texts, needs_shared, pieces_text, slots_or, total, total_bytes};
ghost use Rattle.edit_ops.specs.Insertions.{IsBetween};
ghost use Rattle.edit_ops.specs.Plans.{planned, HasRoomFor, KeepsWidgets};
ghost use Rattle.edit_ops.specs.declared.plans.Recording.{Recording};
ghost use Rattle.edit_ops.specs.States.{State, Log, log_of, state_of, state_in, outlineed, IsUnchanged};
ghost use Rattle.edit_ops.specs.Told.{insertion};
ghost use Rattle.text_model.specs.Content.{slot_sets, slots_left_of};
ghost use Rattle.text_model.specs.Steps.{Fits, after};

use crate::faults::EditFault;
use crate::outlines::{Insertion, Outline};
use crate::plans::{Plan, prepare};
use crate::slotted_texts::SlottedText;
use crate::texts::{EditRules, EditedText};
use std::alloc::AllocError;
use text_model::{Limits, TagSet, Text, TextStore, count_characters};
use undo_stack::EditKind;

/// How many characters a text has.
pub fn count_of(text: &Text) -> usize
    ensures { result ≡ length text.now }
{
    count_characters(text.as_str())
}

/// How many characters texts have, or the greatest number where that is more.
fn total_of(pieces: &[SlottedText]) -> usize
    ensures { result ≡ min (total pieces.now) (2 ^ 64 - 1) }
{
    let mut most = 0usize;
    for piece in pieces {
        most = most.saturating_add(count_of(&piece.text));
    }
    most
}

/// How many bytes texts have, or the greatest number where that is more.
fn bytes_of(pieces: &[SlottedText]) -> usize
    ensures value { result ≡ min (total_bytes pieces.now) (2 ^ 64 - 1) }
    ensures scalars { All (λ piece. All IsScalar piece.text) pieces.now }
{
    let mut most = 0usize;
    for piece in pieces {
        most = most.saturating_add(piece.text.as_str().len());
    }
    most
}

/// Whether a text of so many characters is too long with these texts more. Their characters are counted only where
/// their bytes are too many.
pub fn is_too_long(limits: &Limits, len: usize, pieces: &[SlottedText]) -> bool
    ensures value { result ≡ nat_lt limits.now.chars (len + total pieces.now) }
    ensures short { result ≡ false → len + total pieces.now < 2 ^ 64 }
    ensures scalars { All (λ piece. All IsScalar piece.text) pieces.now }
{
    let most = limits.chars();
    if len.saturating_add(bytes_of(pieces)) <= most {
        return false;
    }
    len.saturating_add(total_of(pieces)) > most
}

/// The slots of the character before an offset; none at the start.
fn slots_before<S: TextStore>(store: &S, offset: usize) -> TagSet
    requires within { offset ≤ length (S.content store.now).cells }
    ensures { result ≡ slots_left_of offset (S.content store.now).cells }
{
    if offset == 0 {
        return TagSet::empty();
    }
    store.tags_at(offset - 1)
}

/// Whether a text has no slots of its own.
pub fn needs_shared(pieces: &[SlottedText]) -> bool
    ensures { result ≡ needs_shared pieces.now }
{
    for piece in pieces {
        if piece.slots.is_none() {
            return true;
        }
    }
    false
}

/// The slots of the character before an offset, none at the start, and those of the one at another offset, where they
/// are needed, and else none.
pub fn slots_beside<S: TextStore>(
    store: &S,
    from: usize,
    to: usize,
    needed: bool,
) -> (TagSet, TagSet)
    requires ordered { from ≤ to }
    requires within { to < length (S.content store.now).cells }
    ensures before { needed ≡ true → result.0 ≡ slots_left_of from (S.content store.now).cells }
    ensures behind { needed ≡ true → slice_get (slot_sets (S.content store.now).cells) to ≡ Some result.1 }
{
    if !needed {
        return (TagSet::empty(), TagSet::empty());
    }
    if from == to {
        return store.tags_around(to);
    }
    (slots_before(store, from), store.tags_at(to))
}

/// The slots of a list, or without a list those that the characters on both sides share.
fn slots_or(slots: Option<TagSet>, before: &TagSet, behind: &TagSet) -> TagSet
    ensures { result ≡ slots_or slots (set.intersection before.now behind.now) }
{
    match slots {
        None => before.common(behind),
        Some(slots) => slots,
    }
}

/// A gap between two characters of a text of `len` characters: the offset of the one after it, the slots of the one
/// before it, none at the start, and those of the one after it.
#[derive(Clone, Copy)]
pub struct Gap {
    pub at: usize,
    pub len: usize,
    pub before: TagSet,
    pub behind: TagSet,
}

impl Outline {
    /// Inserts texts into a gap, each right after the one before it, with the texts of the actions where these are to
    /// be kept. A text that has no slots of its own gets those that the characters on both sides share. Returns where
    /// the last text ends.
    pub fn insert_pieces(
        &mut self,
        pieces: Vec<SlottedText>,
        gap: &Gap,
        keeps: bool,
    ) -> Result<usize, AllocError>
        requires within { gap.now.at < gap.now.len }
        requires stand { All (AnchorsStand gap.now.len) self.old.anchors }
        requires fits { gap.now.len + total pieces.items < 2 ^ 64 }
        ensures end { IfOk result (λ end. end ≡ gap.now.at + total pieces.items) }
        ensures widgets { OnOk result (length self.new.anchors ≡ length self.old.anchors) }
        ensures makes { OnOk result ((recording : Recording) (kind : EditKind) (state : State) →
            (recording.undo ≡ true → keeps ≡ true) →
            Fits self.old.steps state.content →
            IsBetween (needs_shared pieces.items) (set.intersection gap.now.before gap.now.behind) gap.now.behind
            gap.now.len gap.now.at (after self.old.steps state.content).cells →
            Fits self.new.steps state.content
            × (length (after self.new.steps state.content).cells ≡ gap.now.len + total pieces.items) ×
            (outlineed recording kind self.new state
            ≡ inserted_texts recording kind gap.now.at pieces.items (outlineed recording kind self.old state))) }
        ensures steps { OnOk result (GoesOn gap.now.at pieces.items self.old.steps self.new.steps) }
    {
        let mut at = gap.at;
        let mut len = gap.len;
        let mut slots = gap.before;
        for piece in pieces {
            let count = count_of(&piece.text);
            if count > 0 {
                slots = slots_or(piece.slots, &slots, &gap.behind);
                let kept = self.kept_copy(&piece.text, keeps)?;
                let insertion = Insertion {
                    at,
                    count,
                    len,
                    slots,
                };
                self.insert(piece.text, kept, insertion)?;
                at += count;
                len += count;
            }
        }
        Ok(at)
    }
}

/// The edit that inserts texts at an offset, with the texts of its actions where these are to be kept.
fn outline_insert<S: TextStore>(
    rules: &EditRules<'_>,
    text: &EditedText<S>,
    at: usize,
    pieces: Vec<SlottedText>,
) -> Result<Outline, AllocError>
    requires within { at < length (S.content text.now.store).cells }
    requires stand { All (AnchorsStand (length (S.content text.now.store).cells)) text.now.anchors.items }
    requires fits { length (S.content text.now.store).cells + total pieces.items < 2 ^ 64 }
    ensures widgets { IfOk result (λ outline. length outline.anchors ≡ length text.now.anchors.items) }
    ensures makes { IfOk result (λ outline. (recording : Recording) (kind : EditKind) (log : Log) →
        (recording.undo ≡ true → rules.now.recording.undo ≡ true) →
        Fits outline.steps (S.content text.now.store) ×
        (outlineed recording kind outline (state_of (S.content text.now.store) text.now.anchors.items log)
        ≡ inserted_texts recording kind at pieces.items
        (state_of (S.content text.now.store) text.now.anchors.items log))) }
    ensures put { IfOk result (λ outline. PutInPlace at at pieces.items (S.content text.now.store).cells
        (after outline.steps (S.content text.now.store)).cells outline.steps) }
{
    let mut outline = Outline::new(rules.alloc, text, pieces.len())?;
    let store = &text.store;
    let (before, behind) = slots_beside(store, at, at, needs_shared(&pieces));
    let gap = Gap {
        at,
        len: store.len(),
        before,
        behind,
    };
    outline.insert_pieces(pieces, &gap, rules.recording.undo)?;
    Ok(outline)
}

/// A plan that puts texts in before the character at an offset, each right behind the one before it. A text without
/// slots gets those that the characters on both sides of it have, the text before it among them, and none at the start.
/// A mark above the offset moves along, and so does one that stands there with right gravity; an anchor moves if it
/// stands above it. Each text that isn't empty is an action (text(n), "insert").
pub fn plan_insert<S: TextStore>(
    rules: &EditRules<'_>,
    text: &mut EditedText<S>,
    at: usize,
    pieces: Vec<SlottedText>,
) -> Result<Plan<S>, EditFault>
    requires within { at < length (S.content text.old.store).cells }
    requires stand { All (AnchorsStand (length (S.content text.old.store).cells)) text.old.anchors.items }
    ensures same { IsUnchanged S.content text.old text.new }
    ensures too_long { (result ≡ Err EditFault.TextTooLong)
        ↔ (rules.now.limits.now.chars < length (S.content text.old.store).cells + total pieces.items) }
    ensures never { result ≢ Err EditFault.IndexOrder }
    ensures scalars { OnOk result (All (λ piece. All IsScalar piece.text) pieces.items) }
    ensures ready { IfOk result (λ plan. S.ready text.new.store plan.prepared) }
    ensures room { IfOk result (λ plan. HasRoomFor plan.effects text.new.history) }
    ensures widgets { IfOk result (λ plan. KeepsWidgets plan.effects text.old.anchors.items) }
    ensures outcome { IfOk result (λ plan.
        planned plan.effects (S.outcome text.new.store plan.prepared) text.old.anchors.items (log_of text.old.history)
        ≡ inserted_texts rules.now.recording EditKind.Insert at pieces.items (state_in S.content text.old)) }
    ensures delta { IfOk result (λ plan.
        KnowsDelta rules.now.follows (insertion at (pieces_text pieces.items) ∷ []) (S.content text.old.store).cells
        (S.outcome text.new.store plan.prepared).cells plan.delta) }
{
    if is_too_long(rules.limits, text.store.len(), &pieces) {
        return Err(EditFault::TextTooLong);
    }
    let outline = outline_insert(rules, text, at, pieces)?;
    let delta = outline.delta_of_texts(rules.follows, at, at)?;
    Ok(prepare(text, outline, EditKind::Insert, rules.recording, delta)?)
}
