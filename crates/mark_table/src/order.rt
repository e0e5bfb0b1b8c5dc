//! The order of the marks that a widget can use: by place, then `insert`, `current` and the shared ones by creation.

ghost use Rattle.std.specs.Prelude.{◌≡◌, ◌+◌, ◌*◌, ◌<◌, ◌≤◌, Some};
ghost use Rattle.std.specs.FinMap as finite;
ghost use Rattle.std.specs.Option.{option_to_list};
ghost use Rattle.text_model.specs.declared.limits.TheConstants.Limits.{MOST_WIDGETS};

use crate::marks::MarkTable;
use text_model::{Limits, MarkNo, TagSlot, TextStore};

/// A mark that a widget can use.
#[derive(Clone, Copy, Debug, PartialEq, Eq)]
pub enum WidgetMark {
    /// The widget's own `insert`.
    Insert,
    /// The widget's own `current`.
    Current,
    /// The shared mark at a place of the table.
    Shared(usize),
}

/// From where the next or the previous mark is asked for.
#[derive(Clone, Copy, Debug, PartialEq, Eq)]
pub enum Origin {
    /// From a mark.
    Mark(WidgetMark),
    /// From an offset, in characters from the start of the text.
    Place(usize),
}

/// Which widget asks: the slot of its `sel`, and the offsets at which its view starts and ends.
#[derive(Clone, Copy, Debug, PartialEq, Eq)]
pub struct MarkView {
    pub widget: TagSlot,
    pub start: usize,
    pub end: usize,
}

/// A mark as it is shown: its place, in characters from the start of the text or of a view, and its rank among the
/// marks at one place, which is 0 for `insert`, 1 for `current` and 2 or more for the shared ones by their creation.
#[derive(Clone, Copy)]
pub struct Shown {
    pub place: usize,
    pub rank: usize,
}

impl Shown {
    ghost use Rattle.mark_table.specs.Order.{earlier, mark_of};

    /// Whether this mark stands before another one.
    pub(crate) fn is_earlier(self, other: Shown) -> bool
        ensures { result ≡ earlier self other }
    {
        self.place < other.place || self.place == other.place && self.rank < other.rank
    }

    pub(crate) fn mark(self) -> WidgetMark
        ensures { result ≡ mark_of self.rank }
    {
        match self.rank {
            0 => WidgetMark::Insert,
            1 => WidgetMark::Current,
            _ => WidgetMark::Shared(self.rank - 2),
        }
    }
}

impl MarkView {
    ghost use Rattle.mark_table.specs.Order.{own_place, own_mark};

    /// Where a mark of the widget's own is shown.
    fn own_place(self, offset: usize) -> usize
        requires { self.start ≤ self.end }
        ensures { result ≡ own_place self offset }
    {
        if self.start == self.end {
            return self.start;
        }
        self.start.max(offset.min(self.end - 1))
    }

    /// The widget's `insert`, of rank 0, or its `current`, of rank 1.
    pub(crate) fn own_mark<S: TextStore>(self, store: &S, rank: u16) -> Option<Shown>
        requires ordered { self.start ≤ self.end }
        requires widget { self.widget.0 < MOST_WIDGETS }
        requires own { rank ≤ 1 }
        ensures { option_to_list result ≡ own_mark self rank
            (finite.get (S.content store.now).marks (2 * self.widget.0 + rank)) }
    {
        let place = store.mark_place(MarkNo(2 * self.widget.0 + rank))?;
        Some(Shown {
            place: self.own_place(place.offset),
            rank: rank as usize,
        })
    }
}
