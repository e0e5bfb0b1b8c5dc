//! The marks that a widget can use, in the order in which a dump lists them.

ghost use Rattle.std.specs.Prelude.{◌≡◌, ◌≤◌, ◌<◌, ◌+◌, chars, length};
ghost use Rattle.text_model.specs.declared.limits.TheConstants.Limits.{MOST_WIDGETS};
ghost use Rattle.std.specs.FinMap as finite;
ghost use Rattle.std.specs.Option.{option_map};
ghost use Rattle.mark_table.specs.Order.{next_shown, rank_of};
ghost use Rattle.mark_table.specs.SharedMarks.{names_of};
ghost use Rattle.search_dump.specs.Dump.{name_of_rank, usable_by};
ghost use Rattle.search_dump.specs.MarksAhead.{own_place_in, place_in, shared_place_in, shown_of, Has, IsFirstMark};
ghost use Rattle.search_dump.specs.MarksAhead.{IsMarkBehind};
ghost use Rattle.search_dump.specs.Sights.{outlook};
ghost use Rattle.text_index.specs.Parts.{part_of};

use crate::sights::Sight;
use mark_table::{MarkView, Origin, WidgetMark};
use text_index::{Names, View};
use text_model::{MarkNo, TextStore};

/// A mark that the widget can use, with its place in the view.
#[derive(Clone, Copy)]
pub struct Marked {
    mark: WidgetMark,
    pub place: usize,
}

impl Marked {
    /// Its name.
    pub fn name<'a>(self, names: &Names<'a>) -> &'a str
        requires { rank_of self.mark < 2 + length names.now.marks.now.marks }
        ensures { chars result.now ≡ name_of_rank (names_of names.now.marks.now.marks) (rank_of self.mark) }
    {
        match self.mark {
            WidgetMark::Insert => "insert",
            WidgetMark::Current => "current",
            WidgetMark::Shared(at) => names.marks.name(at),
        }
    }

    /// The mark behind it in the order of the marks that the widget can use.
    pub fn next<S: TextStore>(self, sight: &Sight<'_, S>) -> Option<Marked>
        requires widget { sight.now.names.now.widget.0 < MOST_WIDGETS }
        requires usable { Has (usable_by (outlook sight.now)) (shown_of sight.now.view.now.start self) }
        ensures { IsMarkBehind (usable_by (outlook sight.now)) (shown_of sight.now.view.now.start self)
            (option_map (shown_of sight.now.view.now.start) result) }
    {
        next_mark(sight, Origin::Mark(self.mark))
    }
}

/// Where a mark of the widget's own is shown: on the last character at most.
fn own_place<S: TextStore>(view: &View<'_, S>, number: MarkNo) -> Option<usize>
    ensures { result ≡ own_place_in view.now.start view.now.end (finite.get (part_of view.now).content.marks number.0) }
{
    let offset = view.store.mark_place(number)?.offset;
    Some(
        offset
            .saturating_sub(view.start)
            .min(view.len().saturating_sub(1)),
    )
}

/// Where a shared mark stands, if it does behind the start of the view.
fn shared_place<S: TextStore>(view: &View<'_, S>, number: MarkNo) -> Option<usize>
    ensures { result ≡ shared_place_in view.now.start (finite.get (part_of view.now).content.marks number.0) }
{
    let offset = view.store.mark_place(number)?.offset;
    if offset < view.start {
        return None;
    }
    Some(offset - view.start)
}

/// Where a mark stands that the widget can use.
fn place_of<S: TextStore>(sight: &Sight<'_, S>, mark: WidgetMark) -> Option<usize>
    requires widget { sight.now.names.now.widget.0 < MOST_WIDGETS }
    ensures { result ≡ place_in (outlook sight.now) mark }
{
    match mark {
        WidgetMark::Insert => own_place(sight.view, MarkNo(2 * sight.names.widget.0)),
        WidgetMark::Current => own_place(sight.view, MarkNo(2 * sight.names.widget.0 + 1)),
        WidgetMark::Shared(at) => {
            if at >= sight.names.marks.len() {
                return None;
            }
            shared_place(sight.view, sight.names.marks.number(at))
        }
    }
}

/// The next of the marks that the widget can use, from a mark or a place on.
fn next_mark<S: TextStore>(sight: &Sight<'_, S>, origin: Origin) -> Option<Marked>
    requires widget { sight.now.names.now.widget.0 < MOST_WIDGETS }
    ensures { option_map (shown_of sight.now.view.now.start) result
        ≡ next_shown origin (usable_by (outlook sight.now)) }
{
    let mark_view = MarkView {
        widget: sight.names.widget,
        start: sight.view.start,
        end: sight.view.end,
    };
    let mark = sight.names.marks.next(sight.view.store, mark_view, origin)?;
    let place = place_of(sight, mark)?;
    Some(Marked { mark, place })
}

/// The first mark at a place of the view or behind it.
pub fn mark_from<S: TextStore>(sight: &Sight<'_, S>, place: usize) -> Option<Marked>
    requires widget { sight.now.names.now.widget.0 < MOST_WIDGETS }
    requires within { sight.now.view.now.start + place ≤ sight.now.view.now.end }
    ensures { IsFirstMark (outlook sight.now) (sight.now.view.now.start + place) result }
{
    next_mark(sight, Origin::Place(sight.view.start + place))
}
