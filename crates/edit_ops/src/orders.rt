//! Reorders the steps of an edit without changing their effect, so that a store passes through the text few times.

ghost use Rattle.std.specs.Prelude.{◌≡◌, ◌+◌, ◌<◌, ◌∷◌, [], ◌++◌, List, IfOk, IfSome, Some, None, length};
ghost use Rattle.text_model.specs.declared.edits.Step.{Step};
ghost use Rattle.edit_ops.specs.Orders.{AreAlike, AreWatched, IsBefore, IsLowered, LetsPass, Passes, at_span};
ghost use Rattle.edit_ops.specs.Orders.{steps_in};

use crate::insertions::count_of;
use crate::spans::Span;
use std::alloc::{AllocError, Global};
use std::collections::VecDeque;
use text_model::{Step, StepList};

/// How often steps may go over the part of a text in which they act before it pays to put them in order.
const FEW_PASSES: usize = 16;

/// How many characters steps may go, one with another, from place to place before it pays to put them in order.
const NEAR: usize = 256;

/// How far up in a text steps reach that are made in a row: none of them acts above an offset, which goes with what the
/// steps before it put in and take out.
#[derive(Clone, Copy)]
pub struct Reach {
    /// That offset, before the first of them.
    pub top: usize,
    /// How many characters they put in.
    pub added: usize,
    /// How many they take out.
    pub taken: usize,
}

/// A step, with the reach of it and of the steps that are made behind it, if steps may pass over these.
#[derive(Drop)]
pub struct Watched {
    pub step: Step,
    pub reach: Option<Reach>,
}

impl Reach {
    /// The reach of no steps.
    fn none() -> Reach
        ensures { LetsPass [] result }
    {
        Reach {
            top: 0,
            added: 0,
            taken: 0,
        }
    }

    /// The reach of these steps and one before them, if it is known.
    fn and_before(&self, step: &Step) -> Option<Reach>
        ensures { (steps : List Step) → LetsPass steps self.now → IfSome result (LetsPass (step.now ∷ steps)) }
    {
        match step {
            Step::Insert(at, text, _) => {
                let count = count_of(text);
                Some(Reach {
                    top: self.top.saturating_sub(count).max(*at),
                    added: self.added.checked_add(count)?,
                    taken: self.taken,
                })
            }
            Step::Remove(from, to) => {
                let count = to.checked_sub(*from)?;
                Some(Reach {
                    top: self.top.checked_add(count)?.max(*to),
                    added: self.added,
                    taken: self.taken.checked_add(count)?,
                })
            }
            _ => None,
        }
    }

    /// The offset before these steps of what stands at an offset after them, if it stands above all of them.
    fn before(&self, offset: usize) -> Option<usize>
        ensures { IfSome result (IsBefore self.now offset) }
    {
        let before = offset.checked_add(self.taken)?.checked_sub(self.added)?;
        if before <= self.top {
            return None;
        }
        Some(before)
    }

    /// Where a step that comes after these steps acts before them, if it acts above all of them.
    fn lowered(&self, step: &Step) -> Option<Span>
        ensures { IfSome result (IsLowered self.now step.now) }
    {
        match step {
            Step::Insert(at, _, _) => {
                let before = self.before(*at)?;
                Some(Span {
                    from: before,
                    to: before,
                })
            }
            Step::Remove(from, to) => {
                if to < from {
                    return None;
                }
                Some(Span {
                    from: self.before(*from)?,
                    to: self.before(*to)?,
                })
            }
            _ => None,
        }
    }
}

/// A step at other offsets.
fn at_span(step: Step, span: Span) -> Step
    ensures { result ≡ at_span step span }
{
    match step {
        Step::Insert(_, text, slots) => Step::Insert(span.from, text, slots),
        Step::Remove(_, _) => Step::Remove(span.from, span.to),
        other => other,
    }
}

/// The reach of steps with one before them, if that of the others is known.
fn reach_with(watched: &VecDeque<Watched>, step: &Step) -> Option<Reach>
    requires { AreWatched watched.now.items }
    ensures { IfSome result (LetsPass (step.now ∷ steps_in watched.now.items)) }
{
    match watched.front() {
        None => Reach::none().and_before(step),
        Some(next) => next.reach?.and_before(step),
    }
}

/// Steps with the reach of each and those behind it.
fn watch(alloc: Global, steps: VecDeque<Step>) -> Result<VecDeque<Watched>, AllocError>
    ensures watched { IfOk result (λ watched. AreWatched watched.items) }
    ensures steps { IfOk result (λ watched. steps_in watched.items ≡ steps.items) }
{
    let mut steps = steps;
    let mut watched = VecDeque::with_capacity(alloc, steps.len())?;
    while let Some(step) = steps.pop_back() {
        let reach = reach_with(&watched, &step);
        watched.push_front(Watched { step, reach })?;
    }
    Ok(watched)
}

/// Where the first step of a row acts before the steps of another row, behind which it is made, if it may be made
/// before them.
fn passing(first: &VecDeque<Watched>, second: &VecDeque<Step>) -> Option<Span>
    requires { AreWatched first.now.items }
    ensures { IfSome result (λ span. Passes span (steps_in first.now.items) second.now.items) }
{
    let reach = first.front()?.reach?;
    reach.lowered(second.front()?)
}

/// Takes out what is to be made first of two rows of steps, of which the second is made behind the first: a step of the
/// second that acts above all of the first, or else one of the first.
fn take_next(first: &mut VecDeque<Watched>, second: &mut VecDeque<Step>) -> Option<Step>
    requires { AreWatched first.old.items }
    ensures watched { AreWatched first.new.items }
    ensures next { IfSome result (λ step. AreAlike (steps_in first.old.items ++ second.old.items)
        (step ∷ steps_in first.new.items ++ second.new.items)) }
    ensures fewer { IfSome result (λ _. length first.new.items + length second.new.items
        < length first.old.items + length second.old.items) }
    ensures last { result ≡ None → steps_in first.old.items ++ second.old.items ≡ [] }
{
    if let Some(span) = passing(first, second) {
        let step = second.pop_front()?;
        return Some(at_span(step, span));
    }
    match first.pop_front() {
        Some(watched) => Some(watched.step),
        None => second.pop_front(),
    }
}

/// Two rows of steps, of which the second is made behind the first, as one.
fn merged(
    alloc: Global,
    first: VecDeque<Step>,
    second: VecDeque<Step>,
) -> Result<VecDeque<Step>, AllocError>
    ensures { IfOk result (λ all. AreAlike (first.items ++ second.items) all.items) }
{
    let mut all = VecDeque::with_capacity(alloc, first.len().saturating_add(second.len()))?;
    let mut first = watch(alloc, first)?;
    let mut second = second;
    while let Some(step) = take_next(&mut first, &mut second) {
        all.push_back(step)?;
    }
    Ok(all)
}

/// Steps in falling order of their places, as far as they don't touch each other: each half is put in order, and then
/// the steps of the second half pass over those of the first.
fn sorted(alloc: Global, steps: VecDeque<Step>) -> Result<VecDeque<Step>, AllocError>
    ensures { IfOk result (λ sorted. AreAlike steps.items sorted.items) }
{
    if steps.len() < 2 {
        return Ok(steps);
    }
    let mut first = steps;
    let second = first.split_off(first.len() / 2)?;
    let first = sorted(alloc, first)?;
    let second = sorted(alloc, second)?;
    Ok(merged(alloc, first, second)?)
}

/// The place of a step that puts in or takes out.
fn place_of(step: &Step) -> Option<usize> {
    match step {
        Step::Insert(at, _, _) => Some(*at),
        Step::Remove(from, _) => Some(*from),
        _ => None,
    }
}

/// Whether steps go to and fro so often and so far that it pays to put them in order: not where their places rise or
/// fall, nor where they stand near each other.
fn are_scattered(steps: &[Step]) -> bool {
    let mut low = usize::MAX;
    let mut high = 0usize;
    let mut last = None;
    let mut way = 0usize;
    for step in steps {
        if let Some(place) = place_of(step) {
            low = low.min(place);
            high = high.max(place);
            way = way.saturating_add(place.abs_diff(last.unwrap_or(place)));
            last = Some(place);
        }
    }
    way / FEW_PASSES > high.saturating_sub(low) && way / NEAR > steps.len()
}

/// Steps that make the same, in an order in which a store goes through the text few times.
pub fn put_in_order(alloc: Global, steps: StepList) -> Result<StepList, AllocError>
    ensures { IfOk result (λ ordered. AreAlike steps ordered) }
{
    if !are_scattered(steps.as_slice()) {
        return Ok(steps);
    }
    let sorted = sorted(alloc, VecDeque::from_vec(steps.into_vec()))?;
    Ok(StepList::from_vec(sorted.into_vec()))
}
