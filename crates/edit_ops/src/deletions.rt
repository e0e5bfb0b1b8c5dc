//! Plans of deletions: spans are deleted, but the last character that the widget shows is kept.

ghost use Rattle.std.specs.Prelude.{◌≡◌, true, ℕ, ◌+◌, ◌-◌, ◌<◌, ◌≤◌, ◌^◌, ◌&&◌, ◌∷◌, [], nat_le, nat_lt};
ghost use Rattle.std.specs.Prelude.{get_or, length, map, slice_get, sum_by, OnOk, IfOk, IfErr, Some, if◌then◌else◌};
ghost use Rattle.std.specs.List.{All};
ghost use Rattle.edit_ops.specs.Deletions.{in_spans, delete_set, deletions_in, runs_below, AreApart, deleted};
ghost use Rattle.edit_ops.specs.Deletions.{removed_spans};
ghost use Rattle.edit_ops.specs.Deltas.{KnowsDelta};
ghost use Rattle.edit_ops.specs.Told.{deletion, removed_all};
ghost use Rattle.edit_ops.specs.Plans.{planned, HasRoomFor, KeepsWidgets};
ghost use Rattle.edit_ops.specs.States.{State, Log, log_of, state_of, state_in, outlineed, IsUnchanged};
ghost use Rattle.text_model.specs.Content.{characters, slot_sets};
ghost use Rattle.text_model.specs.Lines.{is_newline};
ghost use Rattle.text_model.specs.Splices.{changed};
ghost use Rattle.text_model.specs.Steps.{Fits, after, without_slots};
ghost use Rattle.edit_ops.specs.declared.plans.Recording.{Recording};

use crate::deltas::Delta;
use crate::faults::EditFault;
use crate::hunks::take_spans;
use crate::outlines::{Outline, kept_text};
use crate::plans::{Plan, prepare};
use crate::runs::{spare_last, union};
use crate::slot_runs::SlotRun;
use crate::spans::Span;
use crate::texts::{EditRules, EditedText};
use std::alloc::{AllocError, Global};
use text_cursor::{line_at, line_behind};
use text_model::{Step, StepList, TextStore};
use undo_stack::EditKind;

/// How far behind an offset the next line begins, where the old text goes on to a border, in which the next line begins
/// at `behind`, and from the border it is so many characters to the next line.
fn to_next_line(offset: usize, behind: usize, border: usize, rest: usize) -> usize
    requires behind { offset ≤ behind }
    requires before { offset ≤ border }
    requires fits { border + rest < 2 ^ 64 }
    ensures { result ≡ (if nat_le behind border then behind - offset else border - offset + rest) }
{
    if behind <= border {
        behind - offset
    } else {
        border - offset + rest
    }
}

impl Outline {
    /// Takes spans of a text out, the last first, with the texts of the actions where these are to be kept.
    fn remove_spans<S: TextStore>(
        &mut self,
        alloc: Global,
        store: &S,
        spans: &[Span],
        keeps: bool,
    ) -> Result<(), AllocError>
        requires apart { AreApart (length (S.content store.now).cells) spans.now }
        ensures widgets { OnOk result (length self.new.anchors ≡ length self.old.anchors) }
        ensures makes { OnOk result ((recording : Recording) (kind : EditKind) (state : State) →
            (recording.undo ≡ true → keeps ≡ true) →
            Fits self.old.steps state.content →
            characters (after self.old.steps state.content).cells ≡ characters (S.content store.now).cells →
            Fits self.new.steps state.content ×
            (outlineed recording kind self.new state
            ≡ removed_spans recording kind spans.now (outlineed recording kind self.old state))) }
    {
        let mut border = store.len();
        let mut rest = 0;
        for span in spans {
            let behind = line_behind(store, span.to);
            rest = to_next_line(span.to, behind, border, rest);
            let text = kept_text(alloc, store, *span, keeps)?;
            let line = line_at(store, span.from);
            self.remove(span.from, span.to, text, line, span.from + rest)?;
            border = span.from;
        }
        Ok(())
    }
}

/// Whether a newline stands before an offset, which a widget shows that begins at `start`.
fn newline_before<S: TextStore>(store: &S, start: usize, offset: usize) -> bool
    requires { offset ≤ length (S.content store.now).cells }
    ensures { result ≡ (nat_lt start offset
        && is_newline (get_or (characters (S.content store.now).cells) (offset - 1) 0)) }
{
    start < offset && store.char_at(offset - 1) == '\n'
}

/// Makes of runs of characters that are to be deleted those that go: the last character that a widget shows from
/// `start` to
/// `end` stays. Whether it was among them.
fn spare_shown<S: TextStore>(store: &S, start: usize, end: usize, runs: &mut Vec<Span>) -> bool
    requires shows { start < end }
    requires within { end ≤ length (S.content store.now).cells }
    requires apart { AreApart (end + 1) runs.old.items }
    ensures takes { result ≡ in_spans runs.old.items (end - 1) }
    ensures apart { AreApart end runs.new.items }
    ensures covers { (offset : ℕ) → in_spans runs.new.items offset
        ≡ delete_set (characters (S.content store.now).cells) start end (in_spans runs.old.items) offset }
{
    if runs.is_empty() || runs[0].to < end {
        return false;
    }
    let joins = newline_before(store, start, runs[0].from);
    spare_last(runs, end - 1, joins);
    true
}

/// The step that takes all slots off a character, if it is to be made.
fn bare(alloc: Global, offset: usize, is_bared: bool) -> Result<StepList, AllocError>
    ensures { IfOk result (λ steps. steps ≡ (if is_bared then Step.ClearTags offset ∷ [] else [])) }
{
    let mut steps = StepList::new(alloc);
    if is_bared {
        steps.push(Step::ClearTags(offset))?;
    }
    Ok(steps)
}

/// The runs of characters that go when spans are deleted of what a widget shows from `start` to `end`, the last first,
/// and whether the last character that it shows is among the spans.
pub fn deleted_runs<S: TextStore>(
    alloc: Global,
    store: &S,
    start: usize,
    end: usize,
    spans: &[Span],
) -> Result<(Vec<Span>, bool), AllocError>
    requires shows { start < end }
    requires within { end ≤ length (S.content store.now).cells }
    requires spans { All (λ span. span.to ≤ end) spans.now }
    ensures takes { IfOk result (λ found. found.1 ≡ in_spans spans.now (end - 1)) }
    ensures apart { IfOk result (λ found. AreApart (length (S.content store.now).cells) found.0.items) }
    ensures below { IfOk result (λ found. AreApart end found.0.items) }
    ensures runs { IfOk result (λ found. found.0.items ≡ runs_below (length (S.content store.now).cells)
        (delete_set (characters (S.content store.now).cells) start end (in_spans spans.now))) }
{
    let mut runs = union(alloc, spans)?;
    let takes_last = spare_shown(store, start, end, &mut runs);
    Ok((runs, takes_last))
}

/// Returns the number of characters in spans, of which the last comes first.
fn count_in(spans: &[Span]) -> usize
    requires { AreApart (2 ^ 64) spans.now }
    ensures { result ≡ sum_by (λ span. span.to - span.from) spans.now }
{
    let mut count = 0;
    for span in spans {
        count += span.to - span.from;
    }
    count
}

/// Returns the character before an offset with its slots, at its place in the text without runs before it, of which the
/// last comes first.
fn run_before<S: TextStore>(store: &S, runs: &[Span], end: usize) -> SlotRun
    requires some { 0 < end }
    requires within { end ≤ length (S.content store.now).cells }
    requires apart { AreApart end runs.now }
    ensures start { result.from + sum_by (λ span. span.to - span.from) runs.now ≡ end - 1 }
    ensures one { result.to ≡ result.from + 1 }
    ensures slots { slice_get (slot_sets (S.content store.now).cells) (end - 1) ≡ Some result.slots }
{
    let last = end - 1;
    let from = last - count_in(runs);
    SlotRun {
        from,
        to: from + 1,
        slots: store.tags_at(last),
    }
}

/// The delta of an edit that deletes runs before an offset, the last first, if its caller follows: the character before
/// the offset, if it is bared, loses its slots.
fn deletion_delta<S: TextStore>(
    rules: &EditRules<'_>,
    store: &S,
    runs: Vec<Span>,
    end: usize,
    is_bared: bool,
) -> Result<Option<Box<Delta>>, AllocError>
    requires some { 0 < end }
    requires within { end ≤ length (S.content store.now).cells }
    requires apart { AreApart end runs.items }
    ensures { let cells = (S.content store.now).cells in
        let left = (if is_bared then changed without_slots (end - 1) end cells else cells) in
        IfOk result (λ delta. KnowsDelta rules.now.follows
        (map (λ run. deletion (characters cells) run.from run.to) runs.items) cells
        (removed_all runs.items left) delta) }
{
    if !rules.follows {
        return Ok(None);
    }
    let lost = if is_bared {
        Some(Box::new(rules.alloc, run_before(store, &runs, end))?)
    } else {
        None
    };
    let delta = Delta {
        hunks: take_spans(rules.alloc, runs)?,
        lost,
        gained: Vec::new(rules.alloc),
    };
    Ok(Some(Box::new(rules.alloc, delta)?))
}

/// The edit that deletes spans of what a widget shows, and its delta, if the caller follows.
fn outline_delete<S: TextStore>(
    rules: &EditRules<'_>,
    text: &EditedText<S>,
    start: usize,
    end: usize,
    spans: &[Span],
) -> Result<(Outline, Option<Box<Delta>>), AllocError>
    requires shows { start < end }
    requires within { end ≤ length (S.content text.now.store).cells }
    requires spans { All (λ span. span.to ≤ end) spans.now }
    ensures widgets { IfOk result (λ made. length made.0.anchors ≡ length text.now.anchors.items) }
    ensures makes { IfOk result (λ made. (log : Log) → Fits made.0.steps (S.content text.now.store) ×
        (outlineed rules.now.recording EditKind.Delete made.0
        (state_of (S.content text.now.store) text.now.anchors.items log)
        ≡ deleted rules.now.recording start end spans.now
        (state_of (S.content text.now.store) text.now.anchors.items log))) }
    ensures delta { IfOk result (λ made. KnowsDelta rules.now.follows
        (deletions_in (S.content text.now.store).cells start end spans.now) (S.content text.now.store).cells
        (after made.0.steps (S.content text.now.store)).cells made.1) }
{
    let store = &text.store;
    let (runs, takes_last) = deleted_runs(rules.alloc, store, start, end, spans)?;
    let steps = bare(rules.alloc, end - 1, takes_last)?;
    let mut outline = Outline::of_steps(rules.alloc, text, steps, runs.len())?;
    outline.remove_spans(rules.alloc, store, &runs, rules.recording.undo)?;
    let delta = deletion_delta(rules, store, runs, end, takes_last)?;
    Ok((outline, delta))
}

/// A plan that deletes spans, in any order, of what a widget shows from `start` to `end`; spans may overlap or be
/// empty. The last character that it shows stays, and if it is in a span it loses its tags; then a newline before the
/// run that held it goes in its place, if the widget shows that. The runs are deleted one by one, the last first, and
/// each run is an action (text(n), "delete").
pub fn plan_delete<S: TextStore>(
    rules: &EditRules<'_>,
    text: &mut EditedText<S>,
    start: usize,
    end: usize,
    spans: &[Span],
) -> Result<Plan<S>, EditFault>
    requires shows { start < end }
    requires within { end ≤ length (S.content text.old.store).cells }
    requires spans { All (λ span. span.to ≤ end) spans.now }
    ensures same { IsUnchanged S.content text.old text.new }
    ensures refused { IfErr result (λ fault. fault ≡ EditFault.Memory) }
    ensures ready { IfOk result (λ plan. S.ready text.new.store plan.prepared) }
    ensures room { IfOk result (λ plan. HasRoomFor plan.effects text.new.history) }
    ensures widgets { IfOk result (λ plan. KeepsWidgets plan.effects text.old.anchors.items) }
    ensures outcome { IfOk result (λ plan.
        planned plan.effects (S.outcome text.new.store plan.prepared) text.old.anchors.items (log_of text.old.history)
        ≡ deleted rules.now.recording start end spans.now (state_in S.content text.old)) }
    ensures delta { IfOk result (λ plan. KnowsDelta rules.now.follows
        (deletions_in (S.content text.old.store).cells start end spans.now) (S.content text.old.store).cells
        (S.outcome text.new.store plan.prepared).cells plan.delta) }
{
    let (outline, delta) = outline_delete(rules, text, start, end, spans)?;
    Ok(prepare(text, outline, EditKind::Delete, rules.recording, delta)?)
}
