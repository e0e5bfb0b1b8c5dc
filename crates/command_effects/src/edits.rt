//! Edits of a store that set or remove marks, and that add or remove the slots of tags.

ghost use Rattle.std.specs.Prelude.{◌≡◌, ◌∷◌, ◌+◌, ◌*◌, ◌<◌, ◌≤◌, [], length, map, OnOk, OnErr, IfOk, IfErr, false};
ghost use Rattle.std.specs.Prelude.{true};
ghost use Rattle.std.specs.List.{All};
ghost use Rattle.std.specs.FinMap as finite;
ghost use Rattle.text_model.specs.Steps.{Fits, after};
ghost use Rattle.text_model.specs.TagBits.{slot_count};
ghost use Rattle.text_model.specs.declared.limits.TheConstants.Limits.{MOST_WIDGETS};
ghost use Rattle.edit_ops.specs.States.{log_of};
ghost use Rattle.edit_ops.specs.Tagging.{SpanFits, tagged, cleared};
ghost use Rattle.command_effects.specs.declared.answers.Fault.TheVariants.{Memory};
ghost use Rattle.command_effects.specs.Marking.{taken};
ghost use Rattle.command_effects.specs.Edits.{with_own_marks, without_widgets};

use crate::answers::Fault;
use edit_ops::{EditedText, Span, commit, plan_clear, plan_tag};
use std::alloc::{AllocError, Global};
use text_model::{Edit, Gravity, MarkNo, Place, Step, StepList, TagSlot, TextStore};

/// Makes an edit. Where memory is refused nothing changes.
fn make<S: TextStore>(store: &mut S, edit: Edit) -> Result<(), AllocError>
    requires { Fits edit.steps (S.content store.old) }
    ensures ok { OnOk result (S.content store.new ≡ after edit.steps (S.content store.old)) }
    ensures err { OnErr result (S.content store.new ≡ S.content store.old) }
{
    let prepared = store.prepare_owned(edit)?;
    store.commit(prepared);
    Ok(())
}

/// An edit that puts both marks of a widget's own before the character at an offset, with right gravity.
fn own_marks(alloc: Global, slot: TagSlot, offset: usize) -> Result<Edit, AllocError>
    requires { slot.0 < MOST_WIDGETS }
    ensures { IfOk result (λ edit. let place : Place = record { offset = offset; gravity = Gravity.Right } in
        edit.steps ≡ Step.PutMark (record { 0 = 2 * slot.0 }) place
        ∷ Step.PutMark (record { 0 = 2 * slot.0 + 1 }) place ∷ []) }
{
    let place = Place {
        offset,
        gravity: Gravity::Right,
    };
    let mut steps = StepList::new(alloc);
    steps.push(Step::PutMark(MarkNo(2 * slot.0), place))?;
    steps.push(Step::PutMark(MarkNo(2 * slot.0 + 1), place))?;
    Ok(Edit { steps })
}

/// Puts both marks of a widget's own at an offset of a store, with right gravity; the widget is known by its slot.
/// Where memory is refused nothing changes.
pub fn put_widget_marks<S: TextStore>(
    alloc: Global,
    store: &mut S,
    slot: TagSlot,
    offset: usize,
) -> Result<(), AllocError>
    requires known { slot.0 < MOST_WIDGETS }
    requires within { offset ≤ length (S.content store.old).cells }
    ensures ok { OnOk result (S.content store.new
        ≡ with_own_marks slot.0 (record { offset = offset; gravity = Gravity.Right }) (S.content store.old)) }
    ensures err { OnErr result (S.content store.new ≡ S.content store.old) }
{
    make(store, own_marks(alloc, slot, offset)?)
}

/// Puts a mark at a place.
pub fn put_mark<S: TextStore>(
    alloc: Global,
    store: &mut S,
    number: MarkNo,
    place: Place,
) -> Result<(), AllocError>
    requires { place.offset ≤ length (S.content store.old).cells }
    ensures ok { OnOk result (S.content store.new
        ≡ record (S.content store.old) { marks = finite.insert (S.content store.old).marks number.0 place }) }
    ensures err { OnErr result (S.content store.new ≡ S.content store.old) }
{
    if store.move_mark(number, place)? {
        return Ok(());
    }
    let mut steps = StepList::new(alloc);
    steps.push(Step::PutMark(number, place))?;
    make(store, Edit { steps })
}

/// Takes marks out.
pub fn take_marks<S: TextStore>(
    alloc: Global,
    store: &mut S,
    numbers: &[MarkNo],
) -> Result<(), AllocError>
    ensures ok { OnOk result (S.content store.new
        ≡ record (S.content store.old) {
          marks = taken (map (λ number. number.0) numbers.now)
              (S.content store.old).marks;
        }) }
    ensures err { OnErr result (S.content store.new ≡ S.content store.old) }
{
    let mut steps = StepList::new(alloc);
    for number in numbers {
        steps.push(Step::TakeMark(*number))?;
    }
    make(store, Edit { steps })
}

/// Prepares to take what widgets have of their own out of a store: the slot of the `sel` of each off all characters,
/// and its two marks; all in one edit.
pub fn prepare_drop<S: TextStore>(
    alloc: Global,
    store: &mut S,
    slots: &[TagSlot],
) -> Result<S::Prepared, AllocError>
    requires { All (λ (slot : TagSlot). slot.0 < MOST_WIDGETS) slots.now }
    ensures same { S.content store.new ≡ S.content store.old }
    ensures ready { IfOk result (λ change. S.ready store.new change) }
    ensures outcome { IfOk result (λ change. S.outcome store.new change
        ≡ without_widgets (map (λ slot. slot.0) slots.now) (S.content store.old)) }
{
    let mut steps = StepList::new(alloc);
    for slot in slots {
        steps.push(Step::ClearSlot(*slot))?;
        steps.push(Step::TakeMark(MarkNo(2 * slot.0)))?;
        steps.push(Step::TakeMark(MarkNo(2 * slot.0 + 1)))?;
    }
    store.prepare_owned(Edit { steps })
}

/// Sets a slot on the characters of a single span that isn't empty, or takes it off them, where the store can make that
/// in one line. Returns whether it was made; otherwise, and where an allocation fails, nothing changes.
fn set_within<S: TextStore>(
    store: &mut S,
    spans: &[Span],
    slot: TagSlot,
    is_on: bool,
) -> Result<bool, AllocError>
    requires spans { All (SpanFits (length (S.content store.old).cells)) spans.now }
    requires known { slot.0 < slot_count }
    ensures made { IfOk result (λ is_made. is_made ≡ true →
        S.content store.new ≡ tagged slot.0 is_on spans.now (S.content store.old)) }
    ensures other { IfOk result (λ is_made. is_made ≡ false → S.content store.new ≡ S.content store.old) }
    ensures refused { OnErr result (S.content store.new ≡ S.content store.old) }
{
    let [span] = spans else {
        return Ok(false);
    };
    if span.from >= span.to {
        return Ok(false);
    }
    store.tag_within(span.from, span.to, slot, is_on)
}

/// Sets a slot on spans of a text, or takes it off them.
pub fn set_slot<S: TextStore>(
    alloc: Global,
    text: &mut EditedText<S>,
    spans: &[Span],
    slot: TagSlot,
    is_on: bool,
) -> Result<(), Fault>
    requires spans { All (SpanFits (length (S.content text.old.store).cells)) spans.now }
    requires known { slot.0 < slot_count }
    ensures ok { OnOk result (S.content text.new.store ≡ tagged slot.0 is_on spans.now (S.content text.old.store)) }
    ensures err { OnErr result (S.content text.new.store ≡ S.content text.old.store) }
    ensures log { log_of text.new.history ≡ log_of text.old.history }
    ensures anchors { text.new.anchors.items ≡ text.old.anchors.items }
    ensures fault { IfErr result (λ fault. fault ≡ Memory) }
{
    if set_within(&mut text.store, spans, slot, is_on)? {
        return Ok(());
    }
    let plan = plan_tag(alloc, text, spans, slot, is_on)?;
    commit(plan, text);
    Ok(())
}

/// Takes slots off all characters of a text.
pub fn clear_slots<S: TextStore>(
    alloc: Global,
    text: &mut EditedText<S>,
    slots: &[TagSlot],
) -> Result<(), Fault>
    requires { All (λ slot. slot.0 < slot_count) slots.now }
    ensures ok { OnOk result (S.content text.new.store
        ≡ cleared (map (λ slot. slot.0) slots.now) (S.content text.old.store)) }
    ensures err { OnErr result (S.content text.new.store ≡ S.content text.old.store) }
    ensures log { log_of text.new.history ≡ log_of text.old.history }
    ensures anchors { text.new.anchors.items ≡ text.old.anchors.items }
    ensures fault { IfErr result (λ fault. fault ≡ Memory) }
{
    let plan = plan_clear(alloc, text, slots)?;
    commit(plan, text);
    Ok(())
}
