//! Plans of undo and redo: the last group of actions is reverted, or made once more.

ghost use Rattle.std.specs.Prelude.{◌≡◌, ◌+◌, ◌-◌, ◌<◌, ◌≤◌, ◌^◌, ◌∷◌, [], not, length, option_map, OnOk, IfOk, Some};
ghost use Rattle.std.specs.Prelude.{None, Ok, IsSome, IfSome, true, false, if◌then◌else◌, List, ℕ};
ghost use Rattle.std.specs.Prelude.{◌↔◌, option_and_then};
ghost use Rattle.std.specs.Char.{IsScalar};
ghost use Rattle.std.specs.List.{All};
ghost use Rattle.edit_ops.specs.Anchors.{AnchorsStand};
ghost use Rattle.edit_ops.specs.Deltas.{KnowsDelta};
ghost use Rattle.edit_ops.specs.Plans.{anchors_left, planned, HasRoomFor, KeepsWidgets};
ghost use Rattle.edit_ops.specs.Replays.{ActsOn, AreScalars, Follows, drawn_up, replays, replayed_group};
ghost use Rattle.edit_ops.specs.Reversals.{put_back, taken_back, action_redone, group_redone, redo_end, stood, undone};
ghost use Rattle.edit_ops.specs.Reversals.{redone};
ghost use Rattle.edit_ops.specs.States.{Log, log_of, state_of, state_in, IsUnchanged};
ghost use Rattle.text_model.specs.Content.{characters};
ghost use Rattle.text_model.specs.Steps.{Fits, after};
ghost use Rattle.text_model.specs.declared.places.Place.{Place};
ghost use Rattle.undo_stack.specs.Fits.{repeated_group, FitsText};
ghost use Rattle.undo_stack.specs.History.{next_redo, next_undo};
ghost use Rattle.text_model.specs.LimitTable.{AreLimits};

use crate::deltas::Delta;
use crate::orders::put_in_order;
use crate::outlines::{Insertion, Outline};
use crate::part_hunks::delta_of;
use crate::plans::{Effects, Notes, Plan, prepare_steps};
use crate::texts::{EditRules, EditedText};
use std::alloc::AllocError;
use text_cursor::Cursor;
use text_model::{MarkNo, Place, Text, TextStore, count_characters};
use undo_stack::{Action, Group};

/// Whether an action puts its text in, as it is made once more, or reverted.
fn puts_in(action: &Action, back: bool) -> bool
    ensures { result ≡ (if back then not action.now.inserts else action.now.inserts) }
{
    if back {
        !action.inserts
    } else {
        action.inserts
    }
}

/// Returns which of `count` actions is the one at an index, counted from the last where they are reverted.
fn nth_of(index: usize, count: usize, back: bool) -> usize
    requires { index < count }
    ensures place { result ≡ (if back then count - 1 - index else index) }
    ensures within { result < count }
{
    if back { count - 1 - index } else { index }
}

/// Where a mark stands once a group is made, if there is one, and the group ended somewhere.
fn stood(place: Option<Place>, end: Option<usize>) -> Option<Place>
    ensures { result ≡ option_and_then (λ (place : Place). option_map (λ at. record place { offset = at }) end) place }
{
    let place = place?;
    let offset = end?;
    Some(Place {
        offset,
        gravity: place.gravity,
    })
}

impl Outline {
    /// Inserts a text of `count` characters at an offset again, with the slots that the characters on both sides share.
    fn put_back<S: TextStore>(
        &mut self,
        store: &S,
        cursor: &mut Cursor,
        at: usize,
        text: &Text,
        count: usize,
    ) -> Result<(), AllocError>
        requires follows { Follows (S.content store.now) self.old cursor.old }
        requires counted { count ≡ length text.now }
        requires within { at < cursor.old.len }
        requires fits { cursor.old.len + length text.now < 2 ^ 64 }
        ensures follows { OnOk result (Follows (S.content store.now) self.new cursor.new) }
        ensures len { OnOk result (cursor.new.len ≡ cursor.old.len + length text.now) }
        ensures makes { OnOk result ((log : Log) →
            drawn_up self.new (S.content store.now) log
            ≡ put_back at text.now (drawn_up self.old (S.content store.now) log)) }
        ensures acts { OnOk result
            (ActsOn (record { inserts = true; at = at; text = text.now } ∷ []) cursor.old cursor.new) }
    {
        cursor.seek(at)?;
        let slots = cursor.shared(store);
        let insertion = Insertion {
            at,
            count,
            len: cursor.len,
            slots,
        };
        self.put_copy(text, insertion)?;
        cursor.put(text, count, slots)?;
        Ok(())
    }

    /// Takes out again what stands from one offset to another.
    fn take_back<S: TextStore>(
        &mut self,
        store: &S,
        cursor: &mut Cursor,
        from: usize,
        to: usize,
    ) -> Result<(), AllocError>
        requires follows { Follows (S.content store.now) self.old cursor.old }
        requires ordered { from ≤ to }
        requires within { to < cursor.old.len }
        ensures follows { OnOk result (Follows (S.content store.now) self.new cursor.new) }
        ensures len { OnOk result (cursor.new.len ≡ cursor.old.len - (to - from)) }
        ensures makes { OnOk result ((log : Log) →
            drawn_up self.new (S.content store.now) log
            ≡ taken_back from to (drawn_up self.old (S.content store.now) log)) }
        ensures acts { OnOk result ((text : List ℕ) → from + length text ≡ to →
            ActsOn (record { inserts = false; at = from; text = text } ∷ []) cursor.old cursor.new) }
    {
        cursor.seek(from)?;
        cursor.remove(to - from)?;
        let line = cursor.line(store);
        let next = from + cursor.next(store);
        self.take_out(from, to, line, next)?;
        Ok(())
    }

    /// Puts a text back, or takes it out again. Where that ends: at the end of the text, or at the place.
    fn replay<S: TextStore>(
        &mut self,
        store: &S,
        cursor: &mut Cursor,
        inserts: bool,
        at: usize,
        text: &Text,
    ) -> Result<usize, AllocError>
        requires follows { Follows (S.content store.now) self.old cursor.old }
        requires puts { inserts ≡ true → at < cursor.old.len }
        requires room { inserts ≡ true → cursor.old.len + length text.now < 2 ^ 64 }
        requires takes { inserts ≡ false → at + length text.now < cursor.old.len }
        ensures follows { OnOk result (Follows (S.content store.now) self.new cursor.new) }
        ensures end { IfOk result (λ end. end ≡ (if inserts then at + length text.now else at)) }
        ensures bound { IfOk result (λ end. end ≤ cursor.new.len) }
        ensures makes { OnOk result ((log : Log) →
            drawn_up self.new (S.content store.now) log
            ≡ action_redone (record { inserts = inserts; at = at; text = text.now })
            (drawn_up self.old (S.content store.now) log)) }
        ensures acts { OnOk result
            (ActsOn (record { inserts = inserts; at = at; text = text.now } ∷ []) cursor.old cursor.new) }
        ensures scalars { OnOk result (All IsScalar text.now) }
    {
        let count = count_characters(text.as_str());
        if inserts {
            self.put_back(store, cursor, at, text, count)?;
            Ok(at + count)
        } else {
            self.take_back(store, cursor, at, at + count)?;
            Ok(at)
        }
    }

    /// Makes the actions of a group once more, or, back, reverts them from the last. Where the last of these ends.
    fn replay_all<S: TextStore>(
        &mut self,
        store: &S,
        cursor: &mut Cursor,
        group: &Group<'_>,
        back: bool,
        limit: usize,
    ) -> Result<Option<usize>, AllocError>
        requires follows { Follows (S.content store.now) self.old cursor.old }
        requires fits { IsSome (repeated_group limit (replays back group.now)
            (characters (after self.old.steps (S.content store.now)).cells)) }
        ensures follows { OnOk result (Follows (S.content store.now) self.new cursor.new) }
        ensures end { IfOk result (λ end. end ≡ redo_end (replays back group.now)) }
        ensures bound { IfOk result (λ end. IfSome end (λ at. at ≤ cursor.new.len)) }
        ensures makes { OnOk result ((log : Log) →
            drawn_up self.new (S.content store.now) log
            ≡ group_redone (replays back group.now) (drawn_up self.old (S.content store.now) log)) }
        ensures acts { OnOk result (ActsOn (replays back group.now) cursor.old cursor.new) }
        ensures scalars { OnOk result (AreScalars (replays back group.now)) }
    {
        let count = group.len();
        let mut end = None;
        for index in 0..count {
            let action = group.action(nth_of(index, count, back));
            let inserts = puts_in(action, back);
            let there = self.replay(store, cursor, inserts, action.at, &action.text)?;
            end = Some(there);
        }
        Ok(end)
    }
}

impl Outline {
    /// Puts the mark of a number, if there is one, where a group ended, if it ended somewhere.
    fn put_end<S: TextStore>(
        &mut self,
        store: &S,
        mark: MarkNo,
        end: Option<usize>,
    ) -> Result<(), AllocError>
        requires fits { Fits self.old.steps (S.content store.now) }
        requires bound { IfSome end (λ at. at ≤ length (after self.old.steps (S.content store.now)).cells) }
        ensures fits { OnOk result (Fits self.new.steps (S.content store.now)) }
        ensures makes { OnOk result ((log : Log) → let made = drawn_up self.old (S.content store.now) log in
            drawn_up self.new (S.content store.now) log
            ≡ record made { content = stood mark.0 end (S.content store.now) made.content }) }
    {
        match stood(store.mark_place(mark), end) {
            None => {}
            Some(place) => self.put_mark(mark, place)?,
        }
        Ok(())
    }
}

/// Returns the edit that makes a group once more, or, back, reverts it, and puts the mark of a number where that ends,
/// with its delta if the caller follows.
fn outline_group<S: TextStore>(
    rules: &EditRules<'_>,
    text: &EditedText<S>,
    group: &Group<'_>,
    back: bool,
    mark: MarkNo,
) -> Result<(Outline, Option<Box<Delta>>), AllocError>
    requires stand { All (AnchorsStand (length (S.content text.now.store).cells)) text.now.anchors.items }
    requires fits { IsSome (repeated_group rules.now.limits.now.chars (replays back group.now)
        (characters (S.content text.now.store).cells)) }
    ensures fits { IfOk result (λ made. Fits made.0.steps (S.content text.now.store)) }
    ensures makes { IfOk result (λ made. (log : Log) → drawn_up made.0 (S.content text.now.store) log
        ≡ replayed_group mark.0 (replays back group.now)
        (state_of (S.content text.now.store) text.now.anchors.items log)) }
    ensures bounds { AreLimits rules.now.limits.now }
    ensures scalars { OnOk result (AreScalars (replays back group.now)) }
    ensures delta { IfOk result (λ made. KnowsDelta rules.now.follows (replays back group.now)
        (S.content text.now.store).cells (after made.0.steps (S.content text.now.store)).cells made.1) }
{
    let alloc = rules.alloc;
    let limit = rules.limits.chars();
    let room = group.len().saturating_add(1);
    let mut outline = Outline::new(alloc, text, room)?;
    let store = &text.store;
    let mut cursor = Cursor::new(alloc, store.len(), room.saturating_mul(2))?;
    let end = outline.replay_all(store, &mut cursor, group, back, limit)?;
    outline.put_end(store, mark, end)?;
    let delta = delta_of(alloc, cursor, rules.follows)?;
    Ok((outline, delta))
}

/// Returns the plan of an edit with its delta and with what it does to the history.
fn plan_reversal<S: TextStore>(
    text: &mut EditedText<S>,
    outline: Outline,
    delta: Option<Box<Delta>>,
    notes: Notes,
) -> Result<Plan<S>, AllocError>
    requires { Fits outline.steps (S.content text.old.store) }
    ensures same { IsUnchanged S.content text.old text.new }
    ensures ready { IfOk result (λ plan. S.ready text.new.store plan.prepared) }
    ensures notes { IfOk result (λ plan. option_map (λ effects. effects.notes) plan.effects ≡ Some notes) }
    ensures outcome { IfOk result (λ plan. (log : Log) →
        state_of (S.outcome text.new.store plan.prepared) (anchors_left plan.effects text.old.anchors.items) log
        ≡ drawn_up outline (S.content text.old.store) log) }
    ensures content { IfOk result (λ plan.
        S.outcome text.new.store plan.prepared ≡ after outline.steps (S.content text.old.store)) }
    ensures delta { IfOk result (λ plan. plan.delta ≡ delta) }
{
    let Outline {
        alloc,
        steps,
        anchors,
        ..
    } = outline;
    let steps = put_in_order(alloc, steps)?;
    prepare_steps(text, steps, Some(Effects { anchors, notes }), delta)
}

/// Returns a plan that reverts the actions of the last group, the last first, or `None` where there is no group. A text
/// that was inserted is removed, and one that was removed comes back with the slots that the characters on both sides
/// share. The mark of a number, if there is one, then is where the last of that ends. The group counts as undone, and
/// nothing is noted (text(n), "edit undo"). It isn't refused for its length, since the history fits the text within the
/// limit.
pub fn plan_undo<S: TextStore>(
    rules: &EditRules<'_>,
    text: &mut EditedText<S>,
    mark: MarkNo,
) -> Result<Option<Plan<S>>, AllocError>
    requires stand { All (AnchorsStand (length (S.content text.old.store).cells)) text.old.anchors.items }
    requires fits { FitsText rules.now.limits.now.chars (characters (S.content text.old.store).cells)
        text.old.history.history }
    ensures same { IsUnchanged S.content text.old text.new }
    ensures none { result ≡ Ok None ↔ next_undo text.old.history.history ≡ None }
    ensures bounds { OnOk result (IsSome (next_undo text.old.history.history) → AreLimits rules.now.limits.now) }
    ensures scalars { OnOk result
        (IfSome (next_undo text.old.history.history) (λ group. AreScalars (replays true group))) }
    ensures ready { IfOk result (λ found. IfSome found (λ plan. S.ready text.new.store plan.prepared)) }
    ensures room { IfOk result (λ found. IfSome found (λ plan. HasRoomFor plan.effects text.new.history)) }
    ensures widgets { IfOk result (λ found. IfSome found (λ plan.
        KeepsWidgets plan.effects text.old.anchors.items)) }
    ensures outcome { IfOk result (λ found. IfSome found (λ plan.
        planned plan.effects (S.outcome text.new.store plan.prepared) text.old.anchors.items (log_of text.old.history)
        ≡ undone mark.0 (state_in S.content text.old))) }
    ensures delta { IfSome (next_undo text.old.history.history) (λ group. IfOk result (λ found. IfSome found (λ plan.
        KnowsDelta rules.now.follows (replays true group) (S.content text.old.store).cells
        (S.outcome text.new.store plan.prepared).cells plan.delta))) }
{
    let Some(group) = text.history.last_undo() else {
        return Ok(None);
    };
    let (outline, delta) = outline_group(rules, text, &group, true, mark)?;
    let plan = plan_reversal(text, outline, delta, Notes::Undone)?;
    Ok(Some(plan))
}

/// Returns a plan that makes the actions of the group that was undone last once more, the first first, or `None` where
/// there is no such group. Texts come back and are removed as by `plan_undo`, and the mark of a number is where the
/// last of that ends. The group no longer counts as undone (text(n), "edit redo").
pub fn plan_redo<S: TextStore>(
    rules: &EditRules<'_>,
    text: &mut EditedText<S>,
    mark: MarkNo,
) -> Result<Option<Plan<S>>, AllocError>
    requires stand { All (AnchorsStand (length (S.content text.old.store).cells)) text.old.anchors.items }
    requires fits { FitsText rules.now.limits.now.chars (characters (S.content text.old.store).cells)
        text.old.history.history }
    ensures same { IsUnchanged S.content text.old text.new }
    ensures none { result ≡ Ok None ↔ next_redo text.old.history.history ≡ None }
    ensures bounds { OnOk result (IsSome (next_redo text.old.history.history) → AreLimits rules.now.limits.now) }
    ensures scalars { OnOk result
        (IfSome (next_redo text.old.history.history) (λ group. AreScalars (replays false group))) }
    ensures ready { IfOk result (λ found. IfSome found (λ plan. S.ready text.new.store plan.prepared)) }
    ensures room { IfOk result (λ found. IfSome found (λ plan. HasRoomFor plan.effects text.new.history)) }
    ensures widgets { IfOk result (λ found. IfSome found (λ plan.
        KeepsWidgets plan.effects text.old.anchors.items)) }
    ensures outcome { IfOk result (λ found. IfSome found (λ plan.
        planned plan.effects (S.outcome text.new.store plan.prepared) text.old.anchors.items (log_of text.old.history)
        ≡ redone mark.0 (state_in S.content text.old))) }
    ensures delta { IfSome (next_redo text.old.history.history) (λ group. IfOk result (λ found. IfSome found (λ plan.
        KnowsDelta rules.now.follows (replays false group) (S.content text.old.store).cells
        (S.outcome text.new.store plan.prepared).cells plan.delta))) }
{
    let Some(group) = text.history.last_redo() else {
        return Ok(None);
    };
    let (outline, delta) = outline_group(rules, text, &group, false, mark)?;
    let plan = plan_reversal(text, outline, delta, Notes::Redone)?;
    Ok(Some(plan))
}
