//! The query `dump`: the tags, marks and text between two places, as a list.

ghost use Rattle.std.specs.Prelude.{◌≡◌, ◌≢◌, ℕ, ◌≤◌, ◌<◌, ◌+◌, ◌++◌, ◌&&◌, ◌==◌, [], chars, length, not};
ghost use Rattle.std.specs.Prelude.{string_bytes, encode_utf8_all, codes, slice_range, IfOk, IfSome, IsTrue, OnOk};
ghost use Rattle.std.specs.Prelude.{false, slice_index_or};
ghost use Rattle.std.specs.FinSet as set;
ghost use Rattle.std.specs.List.{flat_map};
ghost use Rattle.mark_table.specs.SharedMarks as marks;
ghost use Rattle.tag_table.specs.Tags.{names_of, slots_of};
ghost use Rattle.text_model.specs.TagBits.{slot_count};
ghost use Rattle.tcl_words.specs.ListText.{list_text, needs_quotes};
ghost use Rattle.text_model.specs.declared.limits.TheConstants.Limits.{MOST_WIDGETS};
ghost use Rattle.text_index.specs.Values.{column_of};
ghost use Rattle.text_index.specs.Parts.{part_of};
ghost use Rattle.text_index.specs.Views.{shown};
ghost use Rattle.search_dump.specs.Stops.{has_tag_at, stop_at_mark, stops_at_marks, stops_at_tags, tag_stops};
ghost use Rattle.search_dump.specs.Stops.{IsNextStop};
ghost use Rattle.search_dump.specs.Stops.{IsStop};
ghost use Rattle.search_dump.specs.Matches.{places};
ghost use Rattle.search_dump.specs.MarksAhead.{mark_element, shown_of, Has, IsFirstMark};
ghost use Rattle.search_dump.specs.Dump.{dump_elements, elements_at, element, if_listed, mark_elements, only_in};
ghost use Rattle.search_dump.specs.Dump.{seen_by, tagoff_elements, usable_by};
ghost use Rattle.tcl_words.specs.ListGrowth.{Goes};
ghost use Rattle.search_dump.specs.Ahead.{AreAhead, AreAt, AreBefore, AreKnownTo};
ghost use Rattle.search_dump.specs.Sights.{outlook};
ghost use Rattle.search_dump.specs.Spots.{IsSpot};
ghost use Rattle.search_dump.specs.Turns.{AreAlike, AreBehind, AreQuiet, IsTurnBehind};
ghost use Rattle.search_dump.specs.Copies.{AreLeft};

use crate::copied::Copied;
use crate::dumped_marks::{Marked, mark_from};
use crate::listing::{Listing, Spot};
use crate::sights::Sight;
use crate::tag_changes::{TagChanges, own_slot, tags_at, tags_left_of};
use crate::turns::{Rows, Turn};
use std::alloc::{AllocError, Global};
use text_index::View;
use text_model::{LineSpan, TagSet, TagSlot, TextStore};

/// What a dump lists.
#[derive(Clone, Copy, Debug, PartialEq, Eq)]
pub struct Listed {
    pub tags: bool,
    pub marks: bool,
    pub text: bool,
}

impl Listed {
    /// Whether a dump stops where tags begin and end.
    fn stops_at_tags(self) -> bool
        ensures { result ≡ stops_at_tags self }
    {
        self.tags || self.text
    }

    /// Whether a dump stops where marks stand.
    fn stops_at_marks(self) -> bool
        ensures { result ≡ stops_at_marks self }
    {
        self.marks || self.text
    }
}

/// Appends the tag at a place of the table as one that begins or ends, if it is one.
fn push_tag<S: TextStore>(
    out: &mut Listing,
    sight: &Sight<'_, S>,
    key: &str,
    spot: Spot,
    at: usize,
    is_listed: bool,
) -> Result<(), AllocError>
    requires spot { IsSpot (shown (part_of sight.now.view.now)) spot }
    requires plain { needs_quotes (chars key.now) ≡ false }
    requires tag { at < length sight.now.names.now.tags.now.tags }
    ensures { OnOk result (Goes (string_bytes out.old.list) (string_bytes out.new.list) (if_listed is_listed
        (element (chars key.now) (shown (part_of sight.now.view.now)) spot.place
        (slice_index_or (names_of sight.now.names.now.tags.now.tags) at [])))) }
{
    if !is_listed {
        return Ok(());
    }
    out.push(key, sight.names.tags.name(at), spot)
}

/// Whether a slot is on in one set and not in another.
fn is_only_in(on: &TagSet, off: &TagSet, slot: TagSlot) -> bool
    requires { slot.0 < slot_count }
    ensures { result ≡ (set.contains on.now slot.0 && not (set.contains off.now slot.0)) }
{
    on.has(slot) && !off.has(slot)
}

/// Two sets of tags, and rows of the table: the tags of the others are on in both sets or in none.
#[derive(Drop)]
struct Sides<'a> {
    on: &'a TagSet,
    off: &'a TagSet,
    rows: Rows,
}

/// Appends the tags at a place that stand in one set and not in another, from the lowest.
fn push_tags<S: TextStore>(
    out: &mut Listing,
    sight: &Sight<'_, S>,
    key: &str,
    spot: Spot,
    sides: &Sides<'_>,
) -> Result<(), AllocError>
    requires spot { IsSpot (shown (part_of sight.now.view.now)) spot }
    requires plain { needs_quotes (chars key.now) ≡ false }
    requires widget { sight.now.names.now.widget.0 < MOST_WIDGETS }
    requires rows { sides.now.rows.end ≤ length sight.now.names.now.tags.now.tags }
    requires alike { AreAlike sight.now.names.now.widget.0 (slots_of sight.now.names.now.tags.now.tags)
        (length sight.now.names.now.tags.now.tags) sides.now.rows sides.now.on.now sides.now.off.now }
    ensures { OnOk result (Goes (string_bytes out.old.list) (string_bytes out.new.list) (flat_map
        (only_in sides.now.on.now sides.now.off.now sight.now.names.now.widget.0 (chars key.now)
        (shown (part_of sight.now.view.now)) spot.place) sight.now.names.now.tags.now.tags)) }
{
    for at in sides.rows.first..sides.rows.end {
        let slot = own_slot(sight.names, at);
        push_tag(
            out,
            sight,
            key,
            spot,
            at,
            is_only_in(sides.on, sides.off, slot),
        )?;
    }
    Ok(())
}

/// Appends a mark that stands at a place, if it is listed.
fn push_mark<S: TextStore>(
    out: &mut Listing,
    sight: &Sight<'_, S>,
    is_listed: bool,
    spot: Spot,
    mark: Marked,
) -> Result<(), AllocError>
    requires spot { IsSpot (shown (part_of sight.now.view.now)) spot }
    requires usable { Has (usable_by (outlook sight.now))
        (shown_of sight.now.view.now.start mark) }
    ensures { OnOk result (Goes (string_bytes out.old.list) (string_bytes out.new.list) (if_listed is_listed
        (mark_element (shown (part_of sight.now.view.now)) (marks.names_of sight.now.names.now.marks.now.marks)
        spot.place (shown_of sight.now.view.now.start mark)))) }
{
    if !is_listed {
        return Ok(());
    }
    out.push("mark", mark.name(sight.names), spot)
}

/// Appends the marks at a place from the first one on, if they are listed, and answers the first mark behind the place.
fn push_marks_at<S: TextStore>(
    out: &mut Listing,
    sight: &Sight<'_, S>,
    is_listed: bool,
    spot: Spot,
    first: Option<Marked>,
) -> Result<Option<Marked>, AllocError>
    requires spot { IsSpot (shown (part_of sight.now.view.now)) spot }
    requires widget { sight.now.names.now.widget.0 < MOST_WIDGETS }
    requires within { sight.now.view.now.start + spot.place ≤ sight.now.view.now.end }
    requires first { IsFirstMark (outlook sight.now)
        (sight.now.view.now.start + spot.place) first }
    ensures goes { OnOk result (Goes (string_bytes out.old.list) (string_bytes out.new.list)
        (if_listed is_listed (mark_elements (seen_by (outlook sight.now)) spot.place))) }
    ensures next { IfOk result (λ next. IsFirstMark (outlook sight.now)
        (sight.now.view.now.start + spot.place + 1) next) }
{
    let mut next = first;
    while let Some(mark) = next {
        if mark.place != spot.place {
            return Ok(next);
        }
        push_mark(out, sight, is_listed, spot, mark)?;
        next = mark.next(sight);
    }
    Ok(None)
}

/// Appends the tags that end at a place, and those that begin there, if tags are listed, by those of the character
/// before it and of the one at it.
fn push_listed_tags<S: TextStore>(
    out: &mut Listing,
    sight: &Sight<'_, S>,
    listed: Listed,
    spot: Spot,
    sides: &Sides<'_>,
) -> Result<(), AllocError>
    requires spot { IsSpot (shown (part_of sight.now.view.now)) spot }
    requires widget { sight.now.names.now.widget.0 < MOST_WIDGETS }
    requires rows { sides.now.rows.end ≤ length sight.now.names.now.tags.now.tags }
    requires quiet { IsTrue listed.tags → AreQuiet (outlook sight.now)
        sides.now.rows spot.place }
    requires before { IsTrue listed.tags → AreBefore (outlook sight.now) spot.place
        sides.now.on.now }
    requires behind { IsTrue listed.tags → AreAt (outlook sight.now) spot.place
        sides.now.off.now }
    ensures { OnOk result (Goes (string_bytes out.old.list) (string_bytes out.new.list)
        (tag_stops listed (seen_by (outlook sight.now)) spot.place)) }
{
    if !listed.tags {
        return Ok(());
    }
    push_tags(out, sight, "tagoff", spot, sides)?;
    let back = Sides {
        on: sides.off,
        off: sides.on,
        rows: sides.rows,
    };
    push_tags(out, sight, "tagon", spot, &back)?;
    Ok(())
}

/// Appends the marks at a place, if marks are listed, and answers the first mark behind the place, if a dump stops at
/// marks.
fn push_listed_marks<S: TextStore>(
    out: &mut Listing,
    sight: &Sight<'_, S>,
    listed: Listed,
    spot: Spot,
    first: Option<Marked>,
) -> Result<Option<Marked>, AllocError>
    requires spot { IsSpot (shown (part_of sight.now.view.now)) spot }
    requires widget { sight.now.names.now.widget.0 < MOST_WIDGETS }
    requires within { sight.now.view.now.start + spot.place ≤ sight.now.view.now.end }
    requires first { IsTrue (stops_at_marks listed) →
        IsFirstMark (outlook sight.now) (sight.now.view.now.start + spot.place) first }
    ensures goes { OnOk result (Goes (string_bytes out.old.list) (string_bytes out.new.list)
        (if_listed listed.marks (mark_elements (seen_by (outlook sight.now))
        spot.place))) }
    ensures next { IfOk result (λ next. IsTrue (stops_at_marks listed) →
        IsFirstMark (outlook sight.now) (sight.now.view.now.start + spot.place + 1) next) }
    ensures behind { IfOk result (λ next. IfSome next (λ mark. spot.place < mark.place)) }
{
    if !listed.stops_at_marks() {
        return Ok(None);
    }
    push_marks_at(out, sight, listed.marks, spot, first)
}

/// Appends the text from one place to another, if text is listed, out of what is copied.
fn push_listed_text<S: TextStore>(
    out: &mut Listing,
    view: &View<'_, S>,
    listed: Listed,
    spot: Spot,
    to: usize,
    copied: &mut Copied,
) -> Result<(), AllocError>
    requires spot { IsSpot (shown (part_of view.now)) spot }
    requires ordered { spot.place ≤ to }
    requires within { view.now.start + to ≤ view.now.end }
    requires left { AreLeft (shown (part_of view.now)) copied.old }
    ensures goes { OnOk result (Goes (string_bytes out.old.list) (string_bytes out.new.list)
        (if_listed listed.text (element (codes "text")
        (shown (part_of view.now)) spot.place (slice_range (shown (part_of view.now)) spot.place to)))) }
    ensures left { IfOk result (λ _. AreLeft (shown (part_of view.now)) copied.new) }
{
    if !listed.text {
        return Ok(());
    }
    copied.hold(view, spot, to)?;
    copied.list(out, spot, to)?;
    Ok(())
}

/// What is known at first of the next changes of the tags behind a place, where a dump lists places from there on and
/// stops at tags, and else nothing, which takes no memory.
fn listed_changes<S: TextStore>(
    alloc: Global,
    sight: &Sight<'_, S>,
    listed: Listed,
    from: usize,
    to: usize,
) -> Result<TagChanges, AllocError>
    ensures { IfOk result (λ changes. IsTrue (stops_at_tags listed) → from < to →
        AreAhead (outlook sight.now) from changes.next.items) }
{
    if from == to || !listed.stops_at_tags() {
        return TagChanges::new(alloc, 0, from);
    }
    TagChanges::new(alloc, sight.names.tags.len(), from)
}

/// The first turn of a dump: where it begins, with all rows of the table, or where it ends, if it doesn't stop at tags.
fn first_turn<S: TextStore>(sight: &Sight<'_, S>, listed: Listed, from: usize, to: usize) -> Turn
    ensures from { IsTrue (stops_at_tags listed) → result.place ≡ from }
    ensures to { stops_at_tags listed ≡ false → result.place ≡ to }
    ensures all { IsTrue (stops_at_tags listed) → result.rows ≡ record {
      first = 0;
      end = length sight.now.names.now.tags.now.tags;
    } }
    ensures rows { result.rows.end ≤ length sight.now.names.now.tags.now.tags }
{
    let count = sight.names.tags.len();
    if !listed.stops_at_tags() {
        return Turn::bare(to);
    }
    Turn {
        place: from,
        rows: Rows {
            first: 0,
            end: count,
        },
    }
}

/// The next turn behind a place, or another place, if that stands before it: the turn that is known, if it stands
/// behind the place.
fn next_turn<S: TextStore>(
    changes: &mut TagChanges,
    sight: &Sight<'_, S>,
    turn: Turn,
    place: usize,
    to: usize,
) -> Turn
    requires widget { sight.now.names.now.widget.0 < MOST_WIDGETS }
    requires some { place < to }
    requires within { sight.now.view.now.start + to ≤ sight.now.view.now.end }
    requires from { place ≤ turn.place }
    requires upto { turn.place ≤ to }
    requires rows { turn.rows.end ≤ length sight.now.names.now.tags.now.tags }
    requires ahead { turn.place ≡ place → AreAhead (outlook sight.now)
        place changes.old.next.items }
    requires apart { turn.place ≡ place → AreBehind turn.rows changes.old.next.items
        (length sight.now.names.now.tags.now.tags) place }
    ensures found { turn.place ≡ place → IsTurnBehind (outlook sight.now) place to
        changes.new.next.items result }
    ensures kept { turn.place ≢ place → result ≡ turn }
    ensures same { turn.place ≢ place → changes.new.next.items ≡ changes.old.next.items }
    ensures above { place < result.place }
    ensures below { result.place ≤ to }
    ensures rows { result.rows.end ≤ length sight.now.names.now.tags.now.tags }
{
    if turn.place != place {
        return turn;
    }
    changes.pass(sight, turn.rows, place);
    changes.nearest(to)
}

/// The place of a mark, or another place, if that stands before it.
fn stop_at_mark(mark: Option<Marked>, to: usize) -> usize
    ensures { result ≡ stop_at_mark to mark }
{
    match mark {
        Some(mark) => to.min(mark.place),
        None => to,
    }
}

/// Where the line behind that of a place begins, or another place, if that stands before it or text isn't listed.
fn stop_at_line<S: TextStore>(view: &View<'_, S>, listed: Listed, spot: Spot, to: usize) -> usize
    requires spot { IsSpot (shown (part_of view.now)) spot }
    requires some { spot.place < to }
    requires within { view.now.start + to ≤ view.now.end }
    ensures above { spot.place < result }
    ensures below { result ≤ to }
    ensures stop { IsTrue listed.text →
        IsNextStop (λ k. column_of (shown (part_of view.now)) k == 0) spot.place to result }
{
    if !listed.text {
        return to;
    }
    to.min(spot.line.end)
}

/// The next stop of a dump behind a place, if tags begin or end next at another one, or where the dump ends there.
fn next_stop<S: TextStore>(
    sight: &Sight<'_, S>,
    listed: Listed,
    mark: Option<Marked>,
    spot: Spot,
    tag: usize,
    to: usize,
) -> usize
    requires spot { IsSpot (shown (part_of sight.now.view.now)) spot }
    requires some { spot.place < tag }
    requires upto { tag ≤ to }
    requires within { sight.now.view.now.start + to ≤ sight.now.view.now.end }
    requires tag { IsTrue (stops_at_tags listed) →
        IsNextStop (has_tag_at (seen_by (outlook sight.now))) spot.place to tag }
    requires mark { IsTrue (stops_at_marks listed) →
        IsFirstMark (outlook sight.now) (sight.now.view.now.start + spot.place + 1) mark }
    requires behind { IfSome mark (λ next. spot.place < next.place) }
    ensures mark { IsTrue (stops_at_marks listed) →
        IsFirstMark (outlook sight.now) (sight.now.view.now.start + result) mark }
    ensures stop { IsStop listed (seen_by (outlook sight.now)) spot.place to result }
    ensures before { result ≤ tag }
{
    stop_at_line(sight.view, listed, spot, stop_at_mark(mark, tag))
}

/// The first mark at a place or behind it, if a dump stops at marks.
fn listed_mark<S: TextStore>(sight: &Sight<'_, S>, listed: Listed, place: usize) -> Option<Marked>
    requires widget { sight.now.names.now.widget.0 < MOST_WIDGETS }
    requires within { sight.now.view.now.start + place ≤ sight.now.view.now.end }
    ensures { IsTrue (stops_at_marks listed) →
        IsFirstMark (outlook sight.now) (sight.now.view.now.start + place) result }
{
    if !listed.stops_at_marks() {
        return None;
    }
    mark_from(sight, place)
}

/// The tags of the character before a place, if tags are listed.
fn listed_before<S: TextStore>(sight: &Sight<'_, S>, listed: Listed, place: usize) -> TagSet
    requires within { sight.now.view.now.start + place ≤ sight.now.view.now.end }
    ensures { IsTrue listed.tags → AreBefore (outlook sight.now) place result }
{
    if !listed.tags {
        return TagSet::empty();
    }
    tags_left_of(sight.view, place)
}

/// The tags of the character at a place, if tags are listed.
fn listed_behind<S: TextStore>(sight: &Sight<'_, S>, listed: Listed, place: usize) -> TagSet
    requires within { sight.now.view.now.start + place ≤ sight.now.view.now.end }
    ensures { IsTrue listed.tags → AreAt (outlook sight.now) place result }
{
    if !listed.tags {
        return TagSet::empty();
    }
    tags_at(sight.view, place)
}

/// The tags of the character at a stop, if tags are listed, by those of the character before it: none begin or end
/// there besides those of some rows.
fn turned_tags<S: TextStore>(
    changes: &TagChanges,
    sight: &Sight<'_, S>,
    listed: Listed,
    rows: Rows,
    stop: usize,
    before: &TagSet,
) -> TagSet
    requires widget { sight.now.names.now.widget.0 < MOST_WIDGETS }
    requires rows { rows.end ≤ length sight.now.names.now.tags.now.tags }
    requires known { IsTrue listed.tags → (place : ℕ) × (place < stop)
        × AreKnownTo (outlook sight.now) place stop changes.now.next.items }
    requires apart { IsTrue listed.tags → AreBehind rows changes.now.next.items
        (length sight.now.names.now.tags.now.tags) stop }
    requires before { IsTrue listed.tags → AreBefore (outlook sight.now) stop
        before.now }
    ensures { IsTrue listed.tags → sight.now.view.now.start + stop < sight.now.view.now.end →
        AreAt (outlook sight.now) stop result }
{
    if !listed.tags {
        return TagSet::empty();
    }
    changes.turned(sight.names, rows, stop, before)
}

/// What a dump knows at a place: the first mark that isn't passed, the tags of the character before, the rows of those
/// that may begin or end there, and its line.
#[derive(Clone, Copy)]
struct Reached {
    mark: Option<Marked>,
    before: TagSet,
    rows: Rows,
    line: LineSpan,
}

/// Appends the elements of the places from one to before another, and answers what is known there.
fn push_elements<S: TextStore>(
    out: &mut Listing,
    sight: &Sight<'_, S>,
    listed: Listed,
    from: usize,
    to: usize,
) -> Result<Reached, AllocError>
    requires widget { sight.now.names.now.widget.0 < MOST_WIDGETS }
    requires ordered { from ≤ to }
    requires within { sight.now.view.now.start + to ≤ sight.now.view.now.end }
    ensures goes { OnOk result (Goes (string_bytes out.old.list) (string_bytes out.new.list)
        (flat_map (elements_at listed (seen_by (outlook sight.now)) from to)
        (places from to))) }
    ensures spot { IfOk result (λ reached. IsSpot (shown (part_of sight.now.view.now))
        (record { place = to; line = reached.line })) }
    ensures mark { IfOk result (λ reached. IsTrue (stops_at_marks listed) →
        IsFirstMark (outlook sight.now) (sight.now.view.now.start + to) reached.mark) }
    ensures before { IfOk result (λ reached. IsTrue listed.tags →
        AreBefore (outlook sight.now) to reached.before) }
    ensures rows { IfOk result (λ reached. reached.rows.end ≤ length sight.now.names.now.tags.now.tags) }
    ensures quiet { IfOk result (λ reached. IsTrue listed.tags →
        AreQuiet (outlook sight.now) reached.rows to) }
{
    let mut changes = listed_changes(*out.list.allocator(), sight, listed, from, to)?;
    let mut mark = listed_mark(sight, listed, from);
    let mut before = listed_before(sight, listed, from);
    let mut behind = listed_behind(sight, listed, from);
    let mut line = sight.view.line_at(from);
    let mut turn = first_turn(sight, listed, from, to);
    let mut rows = turn.rows_at(from);
    let mut copied = Copied::new(*out.list.allocator(), from, to);
    let mut place = from;
    while place < to {
        let spot = Spot { place, line };
        let sides = Sides {
            on: &before,
            off: &behind,
            rows,
        };
        push_listed_tags(out, sight, listed, spot, &sides)?;
        mark = push_listed_marks(out, sight, listed, spot, mark)?;
        turn = next_turn(&mut changes, sight, turn, place, to);
        let next = next_stop(sight, listed, mark, spot, turn.place, to);
        push_listed_text(out, sight.view, listed, spot, next, &mut copied)?;
        rows = turn.rows_at(next);
        before = behind;
        behind = turned_tags(&changes, sight, listed, rows, next, &before);
        line = spot.line_on(sight.view, next);
        place = next;
    }
    Ok(Reached {
        mark,
        before,
        rows,
        line,
    })
}

/// Appends what is listed at the end of the view, by what is known there.
fn push_end<S: TextStore>(
    out: &mut Listing,
    sight: &Sight<'_, S>,
    listed: Listed,
    end: usize,
    reached: &Reached,
) -> Result<(), AllocError>
    requires spot { IsSpot (shown (part_of sight.now.view.now)) (record { place = end; line = reached.now.line }) }
    requires widget { sight.now.names.now.widget.0 < MOST_WIDGETS }
    requires end { end ≡ length (shown (part_of sight.now.view.now)) }
    requires mark { IsTrue (stops_at_marks listed) →
        IsFirstMark (outlook sight.now) (sight.now.view.now.start + end) reached.now.mark }
    requires before { IsTrue listed.tags → AreBefore (outlook sight.now)
        end reached.now.before }
    requires rows { reached.now.rows.end ≤ length sight.now.names.now.tags.now.tags }
    requires quiet { IsTrue listed.tags → AreQuiet (outlook sight.now)
        reached.now.rows end }
    ensures { OnOk result (Goes (string_bytes out.old.list) (string_bytes out.new.list)
        (if_listed listed.tags (tagoff_elements (seen_by (outlook sight.now)) end)
        ++ if_listed listed.marks (mark_elements (seen_by (outlook sight.now)) end))) }
{
    let spot = Spot {
        place: end,
        line: reached.line,
    };
    let sides = Sides {
        on: &reached.before,
        off: &TagSet::empty(),
        rows: reached.rows,
    };
    push_listed_tags(out, sight, listed, spot, &sides)?;
    push_listed_marks(out, sight, listed, spot, reached.mark)?;
    Ok(())
}

/// Appends what stands in the view from one place to before another.
fn push_dump<S: TextStore>(
    out: &mut Listing,
    sight: &Sight<'_, S>,
    listed: Listed,
    from: usize,
    to: usize,
) -> Result<(), AllocError>
    requires widget { sight.now.names.now.widget.0 < MOST_WIDGETS }
    requires from { sight.now.view.now.start + from ≤ sight.now.view.now.end }
    requires to { sight.now.view.now.start + to ≤ sight.now.view.now.end }
    ensures { OnOk result (Goes (string_bytes out.old.list) (string_bytes out.new.list)
        (dump_elements listed (seen_by (outlook sight.now)) from to)) }
{
    if to < from {
        return Ok(());
    }
    let reached = push_elements(out, sight, listed, from, to)?;
    if to != sight.view.len() {
        return Ok(());
    }
    push_end(out, sight, listed, to, &reached)
}

/// What stands in the view from one place to before another (text(n), "dump"), as the text of a list: at each place the
/// tags that end there and those that begin there, from the lowest, the marks, and the text up to where the next line
/// begins, a mark stands or a tag begins or ends. Where the second place is the end of the view, the tags that end
/// there and its marks come last.
pub fn dump<S: TextStore>(
    alloc: Global,
    sight: &Sight<'_, S>,
    listed: Listed,
    from: usize,
    to: usize,
) -> Result<String, AllocError>
    requires widget { sight.now.names.now.widget.0 < MOST_WIDGETS }
    requires from { sight.now.view.now.start + from ≤ sight.now.view.now.end }
    requires to { sight.now.view.now.start + to ≤ sight.now.view.now.end }
    ensures { IfOk result (λ answer. string_bytes answer
        ≡ encode_utf8_all (list_text (dump_elements listed (seen_by (outlook sight.now)) from to))) }
{
    let mut out = Listing::new(alloc);
    push_dump(&mut out, sight, listed, from, to)?;
    Ok(out.list)
}
