//! Converts pairs of places in a widget's view to ranges of the document.

ghost use Rattle.std.specs.Prelude.{◌≡◌, ◌-◌, ◌<◌, ◌≤◌, length, IfOk};
ghost use Rattle.std.specs.List.{All};
ghost use Rattle.documents.specs.Documents.{widget_at};
ghost use Rattle.documents.specs.Ranges.{ranges_in, spans_shown};
ghost use Rattle.documents.specs.Views.{shown};
ghost use Rattle.edit_ops.specs.Tagging.{SpanFits};

use crate::documents::Document;
use command_effects::{span_between, spans_of};
use edit_ops::Span;
use std::alloc::AllocError;
use text_model::TextStore;

/// Ranges of a document. A single one is kept without an allocation.
#[derive(Drop)]
pub(crate) enum Ranges {
    One([Span; 1]),
    Many(Vec<Span>),
}

impl Ranges {
    pub(crate) fn as_slice(&self) -> &[Span]
        ensures { result.now ≡ ranges_in self.now }
    {
        match self {
            Ranges::One(span) => span,
            Ranges::Many(spans) => spans.as_slice(),
        }
    }
}

impl<S: TextStore> Document<S> {
    /// Pairs of places that a widget shows as ranges of the document.
    pub(crate) fn spans_at(&self, seat: usize, places: &[usize]) -> Result<Ranges, AllocError>
        requires shown { seat < length self.now.widgets }
        requires within { All (λ place. place ≤ length (shown self.now (widget_at self.now seat))) places.now }
        ensures value { IfOk result (λ ranges. ranges_in ranges
            ≡ spans_shown self.now (widget_at self.now seat) places.now) }
        ensures fit { IfOk result (λ ranges. All (SpanFits (length self.now.cells)) (ranges_in ranges)) }
    {
        let view = self.view_at(seat);
        if let [from, to] = places {
            return Ok(Ranges::One([span_between(view.start, *from, *to)]));
        }
        let spans = spans_of(self.alloc, view.start, view.end - view.start, places)?;
        Ok(Ranges::Many(spans))
    }
}
