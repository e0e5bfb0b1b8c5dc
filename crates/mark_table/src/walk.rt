//! Finds the next or the previous mark that a widget can use, from a mark or from an offset.

ghost use Rattle.std.specs.Prelude.{◌≡◌, ℕ, ◌+◌, ◌-◌, ◌^◌, ◌<◌, ◌≤◌, ◌⊎◌, max, None, Some, IfSome, length, slice_get};
ghost use Rattle.std.specs.Prelude.{true, false};
ghost use Rattle.std.specs.Option.{option_to_list};
ghost use Rattle.text_model.specs.declared.limits.TheConstants.Limits.{MOST_MARKS, MOST_WIDGETS};
ghost use Rattle.text_model.specs.MarkOrder.{marks_at, next_mark as next_in_store};
ghost use Rattle.mark_table.specs.Order.{shared_marks, shown_mark, usable, next_mark, next_shown, previous_mark};
ghost use Rattle.mark_table.specs.Order.{previous_shown};
ghost use Rattle.mark_table.specs.SharedMarks.{numbers_of};
ghost use Rattle.mark_table.specs.Walk.{IsAt, IsFirstAt, IsLastAt, IsFirst, IsLast, first_of, last_of, shared_at};

use crate::marks::MarkTable;
use crate::order::{MarkView, Origin, Shown, WidgetMark};
use text_model::{MarkNo, TextStore};

// The mark, if it isn't before a bound.
fn from_bound(mark: Option<Shown>, bound: Shown) -> Option<Shown>
    ensures { IsFirst (option_to_list mark) bound result }
{
    let mark = mark?;
    if mark.is_earlier(bound) {
        return None;
    }
    Some(mark)
}

// The mark, if it is before a bound.
fn before_bound(mark: Option<Shown>, bound: Shown) -> Option<Shown>
    ensures { IsLast (option_to_list mark) bound result }
{
    let mark = mark?;
    if !mark.is_earlier(bound) {
        return None;
    }
    Some(mark)
}

// The earlier of two marks.
fn first_of(one: Option<Shown>, other: Option<Shown>) -> Option<Shown>
    ensures { result ≡ first_of one other }
{
    let Some(a) = one else { return other };
    let Some(b) = other else { return one };
    Some(if b.is_earlier(a) { b } else { a })
}

// The later of two marks.
fn last_of(one: Option<Shown>, other: Option<Shown>) -> Option<Shown>
    ensures { result ≡ last_of one other }
{
    let Some(a) = one else { return other };
    let Some(b) = other else { return one };
    Some(if a.is_earlier(b) { b } else { a })
}

// The first offset to look at for a mark in the order that isn't before a bound. Where the bound is a place, it is the
// next one at which a mark stands; where it is a mark, that mark's own.
fn first_offset<S: TextStore>(store: &S, view: MarkView, bound: Shown) -> Option<usize>
    ensures none { result ≡ None →
        next_in_store (max bound.place view.start) (S.content store.now).marks ≡ None }
    ensures some { IfSome result (λ offset. (offset ≡ max bound.place view.start)
        ⊎ (next_in_store (max bound.place view.start) (S.content store.now).marks ≡ Some offset)) }
    ensures above { IfSome result (λ offset. max bound.place view.start ≤ offset) }
{
    let start = bound.place.max(view.start);
    if bound.rank > 0 {
        return Some(start);
    }
    store.next_mark(start)
}

impl MarkTable {
    // The place of the mark of a number, if it is at `from` or behind; else the length.
    fn place_from(&self, number: MarkNo, from: usize) -> usize
        ensures fits { number.0 < 2 ^ 16 }
        ensures within { result ≤ length self.now.marks }
        ensures found { result < length self.now.marks → (from ≤ result)
            × (slice_get (numbers_of self.now.marks) result ≡ Some number.0) }
        ensures least { (place : ℕ) → slice_get (numbers_of self.now.marks) place ≡ Some number.0 → from ≤ place →
            result ≤ place }
    {
        let len = self.len();
        match self.place(number) {
            Some(place) if from <= place => place,
            _ => len,
        }
    }

    // One more than the place of the mark of a number, if it is before `upto`; else 0.
    fn places_before(&self, number: MarkNo, upto: usize) -> usize
        ensures fits { number.0 < 2 ^ 16 }
        ensures found { 0 < result → (result ≤ upto)
            × (slice_get (numbers_of self.now.marks) (result - 1) ≡ Some number.0) }
        ensures greatest { (place : ℕ) → slice_get (numbers_of self.now.marks) place ≡ Some number.0 → place < upto →
            place < result }
    {
        match self.place(number) {
            Some(place) if place < upto => place + 1,
            _ => 0,
        }
    }

    // Whether the shared mark at a place of the table stands at an offset.
    fn stands_at<S: TextStore>(&self, store: &S, place: usize, offset: usize) -> bool
        requires { place < length self.now.marks }
        ensures yes { result ≡ true →
            IsAt (marks_at offset (S.content store.now).marks) (numbers_of self.now.marks) place }
        ensures no { result ≡ false →
            ¬ IsAt (marks_at offset (S.content store.now).marks) (numbers_of self.now.marks) place }
    {
        match store.mark_place(self.number(place)) {
            Some(found) => found.offset == offset,
            None => false,
        }
    }

    // Of the shared marks at an offset the first by creation, from a place of the table on. Where more than one stands
    // there the next by creation is mostly one of them, so both are gone through side by side: the marks at the offset,
    // and those that were made next.
    fn first_at<S: TextStore>(&self, store: &S, offset: usize, from: usize) -> Option<usize>
        ensures first { IsFirstAt (marks_at offset (S.content store.now).marks) (numbers_of self.now.marks) from
            result }
        ensures small { IfSome result (λ place. place < MOST_MARKS) }
    {
        let len = self.len();
        let number = store.mark_at(offset, 0)?;
        let mut first = self.place_from(number, from);
        let mut place = from;
        let mut index = 1;
        while let Some(number) = store.mark_at(offset, index) {
            if place >= len {
                return None;
            }
            if self.stands_at(store, place, offset) {
                return Some(place);
            }
            place += 1;
            first = first.min(self.place_from(number, from));
            index += 1;
        }
        (first < len).then_some(first)
    }

    // Of the shared marks at an offset the last by creation, before a place of the table; looked for in the same way.
    fn last_at<S: TextStore>(&self, store: &S, offset: usize, upto: usize) -> Option<usize>
        ensures last { IsLastAt (marks_at offset (S.content store.now).marks) (numbers_of self.now.marks) upto result }
        ensures small { IfSome result (λ place. place < MOST_MARKS) }
    {
        let mut near = upto.min(self.len());
        let number = store.mark_at(offset, 0)?;
        let mut places = self.places_before(number, upto);
        let mut index = 1;
        while let Some(number) = store.mark_at(offset, index) {
            let place = near.checked_sub(1)?;
            if self.stands_at(store, place, offset) {
                return Some(place);
            }
            near = place;
            places = places.max(self.places_before(number, upto));
            index += 1;
        }
        places.checked_sub(1)
    }

    // The first of the shared marks in the order that isn't before a bound.
    fn next_shared<S: TextStore>(&self, store: &S, view: MarkView, bound: Shown) -> Option<Shown>
        ensures { IsFirst (shared_marks view (S.content store.now).marks 2 (numbers_of self.now.marks)) bound result }
    {
        let mut offset = first_offset(store, view, bound)?;
        let mut from = if offset == bound.place {
            bound.rank.saturating_sub(2)
        } else {
            0
        };
        while offset <= view.end {
            if let Some(place) = self.first_at(store, offset, from) {
                return Some(Shown {
                    place: offset,
                    rank: 2 + place,
                });
            }
            if offset == view.end {
                return None;
            }
            offset = store.next_mark(offset + 1)?;
            from = 0;
        }
        None
    }

    // The last of the shared marks in the order that is before a bound.
    fn previous_shared<S: TextStore>(
        &self,
        store: &S,
        view: MarkView,
        bound: Shown,
    ) -> Option<Shown>
        ensures { IsLast (shared_marks view (S.content store.now).marks 2 (numbers_of self.now.marks)) bound result }
    {
        let len = self.len();
        let mut offset = bound.place.min(view.end);
        let mut upto = if offset == bound.place {
            bound.rank.saturating_sub(2)
        } else {
            len
        };
        while view.start <= offset {
            if let Some(place) = self.last_at(store, offset, upto) {
                return Some(Shown {
                    place: offset,
                    rank: 2 + place,
                });
            }
            offset = store.previous_mark(offset)?;
            upto = len;
        }
        None
    }
    // The first of the marks that a widget can use that isn't before a bound.
    fn first_from<S: TextStore>(&self, store: &S, view: MarkView, bound: Shown) -> Option<Shown>
        requires ordered { view.start ≤ view.end }
        requires widget { view.widget.0 < MOST_WIDGETS }
        ensures { IsFirst (usable view (S.content store.now).marks (numbers_of self.now.marks)) bound result }
    {
        let insert = from_bound(view.own_mark(store, 0), bound);
        let current = from_bound(view.own_mark(store, 1), bound);
        let shared = self.next_shared(store, view, bound);
        first_of(insert, first_of(current, shared))
    }

    // The last of the marks that a widget can use that is before a bound.
    fn last_before<S: TextStore>(&self, store: &S, view: MarkView, bound: Shown) -> Option<Shown>
        requires ordered { view.start ≤ view.end }
        requires widget { view.widget.0 < MOST_WIDGETS }
        ensures { IsLast (usable view (S.content store.now).marks (numbers_of self.now.marks)) bound result }
    {
        let insert = before_bound(view.own_mark(store, 0), bound);
        let current = before_bound(view.own_mark(store, 1), bound);
        let shared = self.previous_shared(store, view, bound);
        last_of(insert, last_of(current, shared))
    }

    // The shared mark at a place of the table, if the widget can use it.
    fn shared_mark<S: TextStore>(&self, store: &S, view: MarkView, place: usize) -> Option<Shown>
        ensures mark { option_to_list result
            ≡ shared_at view (S.content store.now).marks (numbers_of self.now.marks) place }
        ensures small { IfSome result (λ shown. shown.rank < MOST_MARKS + 2) }
    {
        if place >= self.len() {
            return None;
        }
        let offset = store.mark_place(self.number(place))?.offset;
        if offset < view.start || view.end < offset {
            return None;
        }
        Some(Shown {
            place: offset,
            rank: 2 + place,
        })
    }

    // A mark as it is shown, if the widget can use it.
    fn shown<S: TextStore>(&self, store: &S, view: MarkView, mark: WidgetMark) -> Option<Shown>
        requires ordered { view.start ≤ view.end }
        requires widget { view.widget.0 < MOST_WIDGETS }
        ensures mark { result ≡ shown_mark mark (usable view (S.content store.now).marks (numbers_of self.now.marks)) }
        ensures small { IfSome result (λ shown. shown.rank < MOST_MARKS + 2) }
    {
        match mark {
            WidgetMark::Insert => view.own_mark(store, 0),
            WidgetMark::Current => view.own_mark(store, 1),
            WidgetMark::Shared(place) => self.shared_mark(store, view, place),
        }
    }

    // The first mark behind another one, or at or behind a place.
    fn next_shown<S: TextStore>(&self, store: &S, view: MarkView, origin: Origin) -> Option<Shown>
        requires ordered { view.start ≤ view.end }
        requires widget { view.widget.0 < MOST_WIDGETS }
        ensures { result ≡ next_shown origin (usable view (S.content store.now).marks (numbers_of self.now.marks)) }
    {
        match origin {
            Origin::Place(place) => self.first_from(store, view, Shown { place, rank: 0 }),
            Origin::Mark(mark) => {
                let from = self.shown(store, view, mark)?;
                let bound = Shown {
                    place: from.place,
                    rank: from.rank + 1,
                };
                self.first_from(store, view, bound)
            }
        }
    }

    // The last mark before another one, or before a place.
    fn previous_shown<S: TextStore>(
        &self,
        store: &S,
        view: MarkView,
        origin: Origin,
    ) -> Option<Shown>
        requires ordered { view.start ≤ view.end }
        requires widget { view.widget.0 < MOST_WIDGETS }
        ensures { result ≡ previous_shown origin (usable view (S.content store.now).marks (numbers_of self.now.marks)) }
    {
        match origin {
            Origin::Place(place) => self.last_before(store, view, Shown { place, rank: 0 }),
            Origin::Mark(mark) => {
                let from = self.shown(store, view, mark)?;
                self.last_before(store, view, from)
            }
        }
    }

    /// The mark behind a mark in the order of the marks that the widget can use, or the first mark at or behind a
    /// place; none behind a mark that the widget can't use (text(n), "mark next").
    pub fn next<S: TextStore>(
        &self,
        store: &S,
        view: MarkView,
        origin: Origin,
    ) -> Option<WidgetMark>
        requires ordered { view.start ≤ view.end }
        requires widget { view.widget.0 < MOST_WIDGETS }
        ensures { result ≡ next_mark origin (usable view (S.content store.now).marks (numbers_of self.now.marks)) }
    {
        Some(self.next_shown(store, view, origin)?.mark())
    }

    /// The mark before a mark in the order of the marks that the widget can use, or the last mark before a place; none
    /// before a mark that the widget can't use (text(n), "mark previous").
    pub fn previous<S: TextStore>(
        &self,
        store: &S,
        view: MarkView,
        origin: Origin,
    ) -> Option<WidgetMark>
        requires ordered { view.start ≤ view.end }
        requires widget { view.widget.0 < MOST_WIDGETS }
        ensures { result ≡ previous_mark origin (usable view (S.content store.now).marks (numbers_of self.now.marks)) }
    {
        Some(self.previous_shown(store, view, origin)?.mark())
    }
}
