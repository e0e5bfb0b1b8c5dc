//! Plans of tag changes: a slot is set on spans or removed from them, or slots are removed from all characters.

ghost use Rattle.std.specs.Prelude.{◌≡◌, ◌<◌, length, map, IfOk, IfErr};
ghost use Rattle.std.specs.List.{All};
ghost use Rattle.edit_ops.specs.Tagging.{SpanFits, tagged, cleared};
ghost use Rattle.edit_ops.specs.Plans.{planned, HasRoomFor, KeepsWidgets};
ghost use Rattle.edit_ops.specs.States.{log_of, state_of, IsUnchanged};
ghost use Rattle.text_model.specs.Content.{Content};
ghost use Rattle.text_model.specs.Steps.{Fits, after};
ghost use Rattle.text_model.specs.TagBits.{slot_count};
ghost use Rattle.text_model.specs.declared.places.TagSlot.{TagSlot};

use crate::faults::EditFault;
use crate::plans::{Plan, prepare_steps};
use crate::runs::union;
use crate::spans::Span;
use crate::texts::EditedText;
use std::alloc::{AllocError, Global};
use text_model::{Step, StepList, TagSlot, TextStore};

/// The steps that set a slot on spans of a text of so many characters, or take it off them, one after the other.
fn span_steps(
    alloc: Global,
    spans: &[Span],
    slot: TagSlot,
    is_on: bool,
    len: usize,
) -> Result<StepList, AllocError>
    requires spans { All (SpanFits len) spans.now }
    requires known { slot.0 < slot_count }
    ensures { IfOk result (λ steps. (content : Content) → length content.cells ≡ len →
        Fits steps content × (after steps content ≡ tagged slot.0 is_on spans.now content)) }
{
    let mut steps = StepList::new(alloc);
    steps.reserve(spans.len())?;
    for span in spans {
        steps.push(Step::SetTag(span.from, span.to, slot, is_on))?;
    }
    Ok(steps)
}

/// Whether each span begins where the one before it ends, or behind that: either answer leads to the same text.
fn do_rise(spans: &[Span]) -> bool {
    spans.windows(2).all(|pair| pair[0].to <= pair[1].from)
}

/// The same steps where spans are in any order: those of the runs that they make together, from the first on, since a
/// step that goes back over what is changed already costs as much as that.
fn tag_steps(
    alloc: Global,
    spans: &[Span],
    slot: TagSlot,
    is_on: bool,
    len: usize,
) -> Result<StepList, AllocError>
    requires spans { All (SpanFits len) spans.now }
    requires known { slot.0 < slot_count }
    ensures { IfOk result (λ steps. (content : Content) → length content.cells ≡ len →
        Fits steps content × (after steps content ≡ tagged slot.0 is_on spans.now content)) }
{
    if do_rise(spans) {
        return span_steps(alloc, spans, slot, is_on, len);
    }
    let mut runs = union(alloc, spans)?;
    runs.reverse();
    span_steps(alloc, runs.as_slice(), slot, is_on, len)
}

/// A plan that sets a slot on spans, or takes it off them (text(n), "tag add" and "tag remove"). Nothing is noted.
pub fn plan_tag<S: TextStore>(
    alloc: Global,
    text: &mut EditedText<S>,
    spans: &[Span],
    slot: TagSlot,
    is_on: bool,
) -> Result<Plan<S>, EditFault>
    requires spans { All (SpanFits (length (S.content text.old.store).cells)) spans.now }
    requires known { slot.0 < slot_count }
    ensures same { IsUnchanged S.content text.old text.new }
    ensures refused { IfErr result (λ fault. fault ≡ EditFault.Memory) }
    ensures ready { IfOk result (λ plan. S.ready text.new.store plan.prepared) }
    ensures room { IfOk result (λ plan. HasRoomFor plan.effects text.new.history) }
    ensures widgets { IfOk result (λ plan. KeepsWidgets plan.effects text.old.anchors.items) }
    ensures outcome { IfOk result (λ plan.
        planned plan.effects (S.outcome text.new.store plan.prepared) text.old.anchors.items (log_of text.old.history)
        ≡ state_of (tagged slot.0 is_on spans.now (S.content text.old.store)) text.old.anchors.items
        (log_of text.old.history)) }
{
    let steps = tag_steps(alloc, spans, slot, is_on, text.store.len())?;
    Ok(prepare_steps(text, steps, None, None)?)
}

/// The steps that take slots off all characters.
fn clear_steps(alloc: Global, slots: &[TagSlot]) -> Result<StepList, AllocError>
    requires { All (λ (slot : TagSlot). slot.0 < slot_count) slots.now }
    ensures { IfOk result (λ steps. (content : Content) →
        Fits steps content × (after steps content ≡ cleared (map (λ (slot : TagSlot). slot.0) slots.now) content)) }
{
    let mut steps = StepList::new(alloc);
    steps.reserve(slots.len())?;
    for slot in slots {
        steps.push(Step::ClearSlot(*slot))?;
    }
    Ok(steps)
}

/// A plan that takes slots off all characters (text(n), "tag delete"). Nothing is noted.
pub fn plan_clear<S: TextStore>(
    alloc: Global,
    text: &mut EditedText<S>,
    slots: &[TagSlot],
) -> Result<Plan<S>, EditFault>
    requires { All (λ (slot : TagSlot). slot.0 < slot_count) slots.now }
    ensures same { IsUnchanged S.content text.old text.new }
    ensures refused { IfErr result (λ fault. fault ≡ EditFault.Memory) }
    ensures ready { IfOk result (λ plan. S.ready text.new.store plan.prepared) }
    ensures room { IfOk result (λ plan. HasRoomFor plan.effects text.new.history) }
    ensures widgets { IfOk result (λ plan. KeepsWidgets plan.effects text.old.anchors.items) }
    ensures outcome { IfOk result (λ plan.
        planned plan.effects (S.outcome text.new.store plan.prepared) text.old.anchors.items (log_of text.old.history)
        ≡ state_of (cleared (map (λ (slot : TagSlot). slot.0) slots.now) (S.content text.old.store))
        text.old.anchors.items (log_of text.old.history)) }
{
    let steps = clear_steps(alloc, slots)?;
    Ok(prepare_steps(text, steps, None, None)?)
}
