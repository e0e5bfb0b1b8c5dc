//! The marks of a line as a list sorted by number, and how their columns change with edits.

ghost use Rattle.std.specs.Prelude.{◌≡◌, ℕ, ◌+◌, ◌-◌, ◌<◌, ◌≤◌, ◌^◌, length, map, take, drop};
ghost use Rattle.std.specs.Prelude.{slice_get, nat_le, nat_lt, if◌then◌else◌, min, OnOk, OnErr, IfOk};
ghost use Rattle.std.specs.List.{All, filter};
ghost use Rattle.std.specs.FinMap as finite;
ghost use Rattle.text_model.specs.declared.places.Place.{Place};
ghost use Rattle.text_model.specs.MarkOrder.{marks_at, next_mark, previous_mark};
ghost use Rattle.text_model.specs.Splices.{moved, drawn};
ghost use Rattle.segments.specs.declared.marks.Mark.{Mark};
ghost use Rattle.segments.specs.Columns.{earlier, joined_marks};
ghost use Rattle.segments.specs.Marks.{Below, HaveRoom, Rise, StandIn, marks_of, with_place};

use std::alloc::{AllocError, Global};
use text_model::{MarkNo, Place};

/// A mark of a line: its number, and its place in columns.
#[derive(Clone, Copy)]
pub struct Mark {
    pub number: MarkNo,
    pub place: Place,
}

/// How many of the marks have a lower number.
pub fn count_below(marks: &[Mark], number: MarkNo) -> usize
    requires { Rise marks.now }
    ensures bound { result ≤ length marks.now }
    ensures below { All (Below number.0) (take result marks.now) }
    ensures above { All (λ (mark : Mark). number.0 ≤ mark.number.0) (take 1 (drop result marks.now)) }
{
    marks.partition_point(|mark| mark.number.0 < number.0)
}

/// Where the mark of a number stands.
pub fn find_mark(marks: &[Mark], number: MarkNo) -> Option<Place>
    requires { Rise marks.now }
    ensures { result ≡ finite.get (marks_of marks.now) number.0 }
{
    let index = count_below(marks, number);
    if index < marks.len() && marks[index].number.0 == number.0 {
        return Some(marks[index].place);
    }
    None
}

/// Puts the mark of a number at a place.
pub fn put_mark(marks: &mut Vec<Mark>, number: MarkNo, place: Place) -> Result<(), AllocError>
    requires { Rise marks.old.items }
    ensures rise { Rise marks.new.items }
    ensures stand { (len : ℕ) → StandIn len marks.old.items → place.offset ≤ len → StandIn len marks.new.items }
    ensures new { OnOk result (marks_of marks.new.items ≡ finite.insert (marks_of marks.old.items) number.0 place) }
    ensures refused { OnErr result (marks.new.items ≡ marks.old.items) }
{
    let index = count_below(marks, number);
    if index < marks.len() && marks[index].number.0 == number.0 {
        marks[index].place = place;
        return Ok(());
    }
    marks.insert(index, Mark { number, place })?;
    Ok(())
}

/// Takes the mark of a number away.
pub fn take_mark(marks: &mut Vec<Mark>, number: MarkNo)
    requires { Rise marks.old.items }
    ensures rise { Rise marks.new.items }
    ensures stand { (len : ℕ) → StandIn len marks.old.items → StandIn len marks.new.items }
    ensures new { marks_of marks.new.items ≡ finite.remove (marks_of marks.old.items) number.0 }
{
    let index = count_below(marks, number);
    if index < marks.len() && marks[index].number.0 == number.0 {
        marks.remove(index);
    }
}

/// Moves marks, of which none stands behind column `reach`, as an insertion of so many characters at a column does:
/// none is looked at where all stand before it. Gives the column behind which none stands then.
pub fn move_marks(marks: &mut [Mark], reach: usize, at: usize, count: usize) -> usize
    requires stand { StandIn reach marks.old }
    requires room { reach + count < 2 ^ 64 }
    ensures moved { marks.new ≡ map (with_place (moved at count)) marks.old }
    ensures reach { result ≡ (if nat_lt reach at then reach else reach + count) }
{
    if reach < at {
        return reach;
    }
    for mark in marks.iter_mut() {
        mark.place = mark.place.moved(at, count);
    }
    reach + count
}

/// Draws marks, of which none stands behind column `reach`, as the removal of the characters from one column to another
/// does: none is looked at where none stands behind the first of these. Gives the column behind which none stands then.
pub fn draw_marks(marks: &mut [Mark], reach: usize, from: usize, to: usize) -> usize
    requires ordered { from ≤ to }
    requires stand { StandIn reach marks.old }
    ensures drawn { marks.new ≡ map (with_place (drawn from to)) marks.old }
    ensures reach { result ≡ min reach from + (reach - to) }
{
    if reach <= from {
        return reach;
    }
    for mark in marks.iter_mut() {
        mark.place = mark.place.drawn(from, to);
    }
    from + reach.saturating_sub(to)
}

/// The marks from a column on, in columns from there.
pub fn marks_behind(alloc: Global, marks: &[Mark], column: usize) -> Result<Vec<Mark>, AllocError>
    ensures { IfOk result (λ behind. behind.items
        ≡ map (with_place (earlier column)) (filter (λ (mark : Mark). nat_le column mark.place.offset) marks.now)) }
{
    let mut behind = Vec::new(alloc);
    for mark in marks {
        if column <= mark.place.offset {
            behind.push(Mark {
                number: mark.number,
                place: Place {
                    offset: mark.place.offset - column,
                    gravity: mark.place.gravity,
                },
            })?;
        }
    }
    Ok(behind)
}

/// Takes the marks from a column on away.
pub fn keep_before(marks: &mut Vec<Mark>, column: usize)
    ensures { marks.new.items ≡ filter (λ (mark : Mark). nat_lt mark.place.offset column) marks.old.items }
{
    marks.retain(|mark| mark.place.offset < column);
}

/// The marks of two texts, of which the first has so many characters. Room for all of them is asked for once, and no
/// more is left than for those of a number that both have.
pub fn joined_marks(
    alloc: Global,
    first: &[Mark],
    second: &[Mark],
    len: usize,
) -> Result<Vec<Mark>, AllocError>
    requires first { Rise first.now }
    requires second { Rise second.now }
    requires room { All (HaveRoom len) second.now }
    ensures rise { IfOk result (λ marks. Rise marks.items) }
    ensures stand { IfOk result (λ marks. (more : ℕ) → StandIn len first.now → StandIn more second.now →
        StandIn (len + more) marks.items) }
    ensures marks { IfOk result (λ marks. marks_of marks.items
        ≡ joined_marks len (marks_of first.now) (marks_of second.now)) }
{
    let mut marks = Vec::with_capacity(alloc, first.len().saturating_add(second.len()))?;
    let (mut one, mut two) = (0, 0);
    while two < second.len() {
        let mark = second[two];
        if one < first.len() && first[one].number.0 < mark.number.0 {
            marks.push(first[one])?;
            one += 1;
            continue;
        }
        // Of two marks of a number that of the second stays.
        if one < first.len() && first[one].number.0 == mark.number.0 {
            one += 1;
        }
        marks.push(Mark {
            number: mark.number,
            place: Place {
                offset: mark.place.offset + len,
                gravity: mark.place.gravity,
            },
        })?;
        two += 1;
    }
    marks.extend_from_slice(&first[one..])?;
    Ok(marks)
}

/// The least column at or above one at which a mark stands.
pub fn next_mark(marks: &[Mark], column: usize) -> Option<usize>
    requires { Rise marks.now }
    ensures { result ≡ next_mark column (marks_of marks.now) }
{
    let mut next: Option<usize> = None;
    for mark in marks {
        if column <= mark.place.offset {
            next = Some(match next {
                None => mark.place.offset,
                Some(least) => least.min(mark.place.offset),
            });
        }
    }
    next
}

/// The greatest column below one at which a mark stands.
pub fn previous_mark(marks: &[Mark], column: usize) -> Option<usize>
    requires { Rise marks.now }
    ensures { result ≡ previous_mark column (marks_of marks.now) }
{
    let mut previous: Option<usize> = None;
    for mark in marks {
        if mark.place.offset < column {
            previous = Some(match previous {
                None => mark.place.offset,
                Some(greatest) => greatest.max(mark.place.offset),
            });
        }
    }
    previous
}

/// Of the marks at a column, the one at an index.
pub fn mark_at(marks: &[Mark], column: usize, index: usize) -> Option<MarkNo>
    requires { Rise marks.now }
    ensures { result ≡ slice_get (marks_at column (marks_of marks.now)) index }
{
    let mut left = index;
    for mark in marks {
        if mark.place.offset != column {
            continue;
        }
        if left == 0 {
            return Some(mark.number);
        }
        left -= 1;
    }
    None
}
