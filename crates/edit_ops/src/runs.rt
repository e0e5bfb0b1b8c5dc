//! Merges spans, which may overlap, into the longest runs of offsets, the last run first.

ghost use Rattle.std.specs.Prelude.{◌≡◌, ℕ, ◌+◌, ◌<◌, ◌≤◌, ◌==◌, ◌&&◌, ◌||◌, not, true, length, get_or, IfOk};
ghost use Rattle.std.specs.List.{All};
ghost use Rattle.std.specs.List.Sorted.{IsNonDecreasingBy};
ghost use Rattle.edit_ops.specs.Deletions.{in_spans, AreApart};
ghost use Rattle.edit_ops.specs.declared.spans.Span.{Span};

use crate::spans::Span;
use std::alloc::{AllocError, Global};

/// Those of some spans that aren't empty.
fn filled(alloc: Global, spans: &[Span]) -> Result<Vec<Span>, AllocError>
    ensures filled { IfOk result (λ kept. All (λ span. span.from < span.to) kept.items) }
    ensures covers { IfOk result (λ kept. (offset : ℕ) → in_spans kept.items offset ≡ in_spans spans.now offset) }
{
    let mut kept = Vec::with_capacity(alloc, spans.len())?;
    for span in spans {
        if span.from < span.to {
            kept.push(*span)?;
        }
    }
    Ok(kept)
}

/// The same, in the order of their ends.
fn by_end(alloc: Global, spans: &[Span]) -> Result<Vec<Span>, AllocError>
    ensures filled { IfOk result (λ kept. All (λ span. span.from < span.to) kept.items) }
    ensures covers { IfOk result (λ kept. (offset : ℕ) → in_spans kept.items offset ≡ in_spans spans.now offset) }
    ensures ordered { IfOk result (λ kept. IsNonDecreasingBy (λ (span : Span). span.to) kept.items) }
{
    let mut kept = filled(alloc, spans)?;
    kept.sort_unstable_by_key(|span| span.to);
    Ok(kept)
}

/// The longest runs of offsets that lie in some spans, the last first.
pub fn union(alloc: Global, spans: &[Span]) -> Result<Vec<Span>, AllocError>
    ensures apart { (end : ℕ) → All (λ span. span.to ≤ end) spans.now →
        IfOk result (λ runs. AreApart (end + 1) runs.items) }
    ensures covers { IfOk result (λ runs. (offset : ℕ) → in_spans runs.items offset ≡ in_spans spans.now offset) }
{
    let mut left = by_end(alloc, spans)?;
    // Where there is one at most, no other list is needed.
    if left.len() < 2 {
        return Ok(left);
    }
    let mut runs = Vec::with_capacity(alloc, left.len())?;
    let Some(mut run) = left.pop() else {
        return Ok(runs);
    };
    for _ in 0..left.len() {
        if let Some(span) = left.pop() {
            if span.to < run.from {
                runs.push(run)?;
                run = span;
            } else {
                run.from = run.from.min(span.from);
            }
        }
    }
    runs.push(run)?;
    Ok(runs)
}

/// Takes an offset, the last of all, out of the runs that hold it; the offset before the run that held it may join
/// them.
pub fn spare_last(runs: &mut Vec<Span>, last: usize, joins: bool)
    requires some { 0 < length runs.old.items }
    requires apart { AreApart (last + 2) runs.old.items }
    requires held { (d : Span) → (get_or runs.old.items 0 d).to ≡ last + 1 }
    requires before { (d : Span) → joins ≡ true → 0 < (get_or runs.old.items 0 d).from }
    ensures apart { AreApart (last + 1) runs.new.items }
    ensures covers { (d : Span) (offset : ℕ) → in_spans runs.new.items offset
        ≡ (in_spans runs.old.items offset && not (offset == last)
        || (joins && (offset + 1 == (get_or runs.old.items 0 d).from))) }
{
    let mut from = runs[0].from;
    if joins {
        from -= 1;
        if runs.len() > 1 && runs[1].to == from {
            from = runs[1].from;
            runs.remove(1);
        }
    }
    if from < last {
        runs[0] = Span { from, to: last };
    } else {
        runs.remove(0);
    }
}
