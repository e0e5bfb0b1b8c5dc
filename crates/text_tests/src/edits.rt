//! Edits of stores as data, and what makes an edit where its steps fit.

ghost use Rattle.std.specs.Prelude.{◌≡◌, ◌<◌, true, length, IfSome};
ghost use Rattle.text_model.specs.Steps.{length_after, FitsIn, StepFitsIn};

use std::alloc::{AllocError, Global};
use std::process::Abort;
use text_model::{Edit, Gravity, MarkNo, Place, Step, StepList, TagSet, TagSlot, Text, TextStore};

/// The slots that the tests use: at both ends of the words of a set.
pub static SLOTS: [TagSlot; 4] = [TagSlot(0), TagSlot(63), TagSlot(64), TagSlot(1023)];

/// A step as the tests keep it.
#[derive(Clone, Copy)]
pub enum PlainStep {
    Remove(usize, usize),
    Insert(usize, &'static str, &'static [u16]),
    SetTag(usize, usize, TagSlot, bool),
    ClearTags(usize),
    ClearSlot(TagSlot),
    PutMark(u16, usize, Gravity),
    TakeMark(u16),
}

/// The set of these slots.
pub fn tags_of(slots: &[u16]) -> TagSet {
    let mut tags = TagSet::empty();
    for slot in slots {
        if *slot < TagSet::SLOTS {
            tags = tags.with(TagSlot(*slot));
        }
    }
    tags
}

fn step_of(alloc: Global, step: PlainStep) -> Result<Step, AllocError> {
    Ok(match step {
        PlainStep::Remove(from, to) => Step::Remove(from, to),
        PlainStep::Insert(at, text, slots) => {
            let text = Text::new(String::from_str(alloc, text)?);
            Step::Insert(at, text, tags_of(slots))
        }
        PlainStep::SetTag(from, to, slot, is_on) => Step::SetTag(from, to, slot, is_on),
        PlainStep::ClearTags(at) => Step::ClearTags(at),
        PlainStep::ClearSlot(slot) => Step::ClearSlot(slot),
        PlainStep::PutMark(mark, offset, gravity) => {
            Step::PutMark(MarkNo(mark), Place { offset, gravity })
        }
        PlainStep::TakeMark(mark) => Step::TakeMark(MarkNo(mark)),
    })
}

/// An edit of these steps.
pub fn edit_of(alloc: Global, steps: &[PlainStep]) -> Result<Edit, AllocError> {
    let mut list = StepList::new(alloc);
    for step in steps {
        list.push(step_of(alloc, *step)?)?;
    }
    Ok(Edit { steps: list })
}

/// How many characters a text has.
pub fn count(text: &Text) -> usize
    ensures { result ≡ length text.now }
{
    text.as_str().chars().count()
}

/// The number of characters after a step, if it fits a text of `len`.
fn length_after(len: usize, step: &Step) -> Option<usize>
    ensures { IfSome result (λ after. StepFitsIn step.now len × (after ≡ length_after step.now len)) }
{
    match step {
        Step::Remove(from, to) if from <= to && *to < len => Some(len - (to - from)),
        Step::Insert(at, text, _) if *at < len && count(text) < usize::MAX - len => {
            Some(len + count(text))
        }
        Step::SetTag(from, to, slot, _) if from <= to && *to <= len && slot.0 < TagSet::SLOTS => {
            Some(len)
        }
        Step::ClearTags(at) if *at < len => Some(len),
        Step::ClearSlot(slot) if slot.0 < TagSet::SLOTS => Some(len),
        Step::PutMark(_, place) if place.offset <= len => Some(len),
        Step::TakeMark(_) => Some(len),
        _ => None,
    }
}

/// Whether steps fit a text of `len` characters.
fn fits(len: usize, steps: &[Step]) -> bool
    ensures { result ≡ true → FitsIn steps.now len }
{
    let mut len = len;
    for step in steps {
        let Some(after) = length_after(len, step) else {
            return false;
        };
        len = after;
    }
    true
}

/// Makes an edit, if its steps fit.
pub fn make<S: TextStore>(store: &mut S, edit: &Edit) -> Result<bool, AllocError> {
    let fits = fits(store.len(), edit.steps.as_slice());
    if fits {
        let prepared = store.prepare(edit)?;
        store.commit(prepared);
    }
    Ok(fits)
}

/// A store after one edit of these steps.
pub fn store_of<S: TextStore>(
    rt: &impl Abort,
    alloc: Global,
    steps: &[PlainStep],
) -> Result<S, AllocError> {
    let mut store = S::new(alloc)?;
    let is_made = make(&mut store, &edit_of(alloc, steps)?)?;
    assert!(rt; is_made);
    Ok(store)
}
