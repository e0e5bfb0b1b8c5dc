//! Where a widget's view begins and ends, by the widget's slot.

ghost use Rattle.std.specs.Prelude.{◌≡◌, ◌-◌, ◌<◌, ◌≤◌, length, get_or, unwrap_or};
ghost use Rattle.text_model.specs.declared.limits.TheConstants.Limits.{MOST_CHARS};
ghost use Rattle.text_index.specs.Parts.{part_of};
ghost use Rattle.text_index.specs.Views.{IsView, shown as shown_in};
ghost use Rattle.documents.specs.Documents.{whole, widget_at};
ghost use Rattle.documents.specs.Views.{part_between, shown, view_end, view_start};

use crate::documents::Document;
use edit_ops::Anchors;
use mark_table::MarkView;
use text_index::View;
use text_model::{TagSlot, TextStore};

/// The offset at which the view of a slot begins.
pub fn start_of(anchors: &[Anchors], slot: u16) -> usize
    requires { slot < length anchors.now }
    ensures { result ≡ unwrap_or (get_or anchors.now slot whole).start 0 }
{
    anchors[slot as usize].start.unwrap_or(0)
}

/// The offset at which the view of a slot ends, in a document of so many characters.
pub fn end_of(anchors: &[Anchors], slot: u16, len: usize) -> usize
    requires { slot < length anchors.now }
    ensures { result ≡ unwrap_or (get_or anchors.now slot whole).end len }
{
    anchors[slot as usize].end.unwrap_or(len)
}

/// The view of a slot.
pub fn view_of<'a, S: TextStore>(store: &'a S, anchors: &[Anchors], slot: u16) -> View<'a, S>
    requires slot { slot < length anchors.now }
    requires lines { IsView (part_between (S.content store.now) anchors.now slot) }
    ensures { part_of result ≡ part_between (S.content store.now) anchors.now slot }
{
    View::new(
        store,
        start_of(anchors, slot),
        end_of(anchors, slot, store.len()),
    )
}

/// The widget of a slot as it asks for marks, in a document of so many characters.
pub fn mark_view_of(anchors: &[Anchors], slot: u16, len: usize) -> MarkView
    requires { slot < length anchors.now }
    ensures { result ≡ record {
      widget = record { 0 = slot };
      start = unwrap_or (get_or anchors.now slot whole).start 0;
      end = unwrap_or (get_or anchors.now slot whole).end len;
    } }
{
    MarkView {
        widget: TagSlot(slot),
        start: start_of(anchors, slot),
        end: end_of(anchors, slot, len),
    }
}

impl<S: TextStore> Document<S> {
    /// The view of a widget.
    pub(crate) fn view_at(&self, seat: usize) -> View<'_, S>
        requires { seat < length self.now.widgets }
        ensures text { shown_in (part_of result) ≡ shown self.now (widget_at self.now seat) }
        ensures start { result.start ≡ view_start (widget_at self.now seat) }
        ensures end { result.end ≡ view_end self.now (widget_at self.now seat) }
        ensures count { length (shown self.now (widget_at self.now seat)) ≡ result.end - result.start }
        ensures ordered { result.start ≤ result.end }
        ensures within { result.end ≤ length self.now.cells }
        ensures cells { length (S.content result.store.now).cells ≡ length self.now.cells }
        ensures short { length self.now.cells ≤ MOST_CHARS }
    {
        view_of(
            &self.text.store,
            &self.text.anchors,
            self.seats.number(seat),
        )
    }
}
