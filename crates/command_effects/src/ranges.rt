//! Converts pairs of places in a view to ranges of the document.

ghost use Rattle.std.specs.Prelude.{◌≡◌, ◌+◌, ◌-◌, ◌≤◌, min, max, IfOk};
ghost use Rattle.std.specs.List.{All};
ghost use Rattle.command_effects.specs.Ranges.{span, spans_of};

use edit_ops::Span;
use std::alloc::{AllocError, Global};

/// Returns the range of a document from one place of a view that begins at an offset to another, or to the same where
/// that one is before it. All count characters.
pub fn span_between(start: usize, from: usize, to: usize) -> Span
    requires from { start + from ≤ usize.MAX }
    requires to { start + to ≤ usize.MAX }
    ensures { result ≡ span start from to }
{
    Span {
        from: start + from,
        to: start + to.max(from),
    }
}

/// Pairs of places as ranges of a document, of a view of so many characters that begins at an offset. A last place
/// alone stands for one character.
pub fn spans_of(
    alloc: Global,
    start: usize,
    len: usize,
    places: &[usize],
) -> Result<Vec<Span>, AllocError>
    requires within { All (λ place. place ≤ len) places.now }
    requires room { start + len ≤ usize.MAX }
    ensures { IfOk result (λ spans. spans.items ≡ spans_of start len places.now) }
{
    let mut spans = Vec::with_capacity(alloc, places.len() / 2 + 1)?;
    let mut rest = places;
    while rest.len() >= 2 {
        spans.push(span_between(start, rest[0], rest[1]))?;
        rest = &rest[2..];
    }
    if rest.is_empty() {
        return Ok(spans);
    }
    let from = rest[0];
    spans.push(span_between(start, from, from + (len - from).min(1)))?;
    Ok(spans)
}
