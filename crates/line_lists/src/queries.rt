//! The queries of a text over any list of its lines: sums say where a line stands, the rest is asked of that line.

ghost use Rattle.std.specs.Prelude.{◌≡◌, ◌+◌, ◌-◌, ◌<◌, ◌≤◌, length, slice_get, slice_range, Some, IfSome, IfOk};
ghost use Rattle.std.specs.Prelude.{chars, drop, string_bytes, take};
ghost use Rattle.std.specs.FinMap as finite;
ghost use Rattle.std.specs.List.{prefix_len, suffix_len};
ghost use Rattle.text_model.specs.Changes.{next_change, previous_change};
ghost use Rattle.text_model.specs.Content.{characters, flags, slot_sets, slots_left_of};
ghost use Rattle.text_model.specs.Lines.{IsLineOf, lines, line_of, line_start};
ghost use Rattle.text_model.specs.MarkOrder.{marks_at, next_mark, previous_mark};
ghost use Rattle.text_model.specs.TagBits.{slot_count};
ghost use Rattle.line_lists.specs.Places.{IsAt};
ghost use Rattle.line_lists.specs.Texts.{content_of};

use crate::lists::LineList;
use segments::Line;
use std::alloc::AllocError;
use text_model::{CharacterTest, LineSpan, MarkNo, Place, TagSet, TagSlot};

/// How many characters the text has.
pub fn len<L: LineList>(list: &L) -> usize
    ensures { result ≡ length (content_of (L.lines list.now)).cells }
{
    list.start(list.len())
}

/// How many lines the text has, which is how many newlines.
pub fn lines<L: LineList>(list: &L) -> usize
    ensures { result ≡ lines (characters (content_of (L.lines list.now)).cells) }
{
    list.len()
}

/// The character at an offset.
pub fn char_at<L: LineList>(list: &L, offset: usize) -> char
    requires { offset < length (content_of (L.lines list.now)).cells }
    ensures { slice_get (characters (content_of (L.lines list.now)).cells) offset ≡ Some result }
{
    let (_, column, line) = list.line_at(offset);
    line.char_at(column)
}

/// The tags of the character at an offset.
pub fn tags_at<L: LineList>(list: &L, offset: usize) -> TagSet
    requires { offset < length (content_of (L.lines list.now)).cells }
    ensures { slice_get (slot_sets (content_of (L.lines list.now)).cells) offset ≡ Some result }
{
    if list.is_bare() {
        return TagSet::empty();
    }
    let (index, column, line) = list.line_at(offset);
    let mut tags = list.odd_slots(index);
    line.turn_tags_before(column, &mut tags);
    tags
}

/// The tags of the character before an offset, of which there are none before the first, and those of the one at it.
pub fn tags_around<L: LineList>(list: &L, offset: usize) -> (TagSet, TagSet)
    requires { offset < length (content_of (L.lines list.now)).cells }
    ensures before { result.0 ≡ slots_left_of offset (content_of (L.lines list.now)).cells }
    ensures at { slice_get (slot_sets (content_of (L.lines list.now)).cells) offset ≡ Some result.1 }
{
    if list.is_bare() {
        return (TagSet::empty(), TagSet::empty());
    }
    let (index, column, line) = list.line_at(offset);
    let mut here = list.odd_slots(index);
    let before = here.differing(&line.tags_left_of(column));
    line.turn_tags_before(column, &mut here);
    (before, here)
}

/// Whether the character at an offset has a tag.
pub fn has_tag<L: LineList>(list: &L, offset: usize, slot: TagSlot) -> bool
    requires within { offset < length (content_of (L.lines list.now)).cells }
    requires known { slot.0 < slot_count }
    ensures { slice_get (flags slot.0 (content_of (L.lines list.now)).cells) offset ≡ Some result }
{
    if list.is_bare() {
        return false;
    }
    let (index, column, line) = list.line_at(offset);
    list.is_odd(slot, index) != line.is_odd_left_of(column + 1, slot)
}

/// The offset of the first character of a line; the length for the line behind the last.
pub fn line_start<L: LineList>(list: &L, line: usize) -> usize
    requires { line ≤ lines (characters (content_of (L.lines list.now)).cells) }
    ensures value { result ≡ line_start line (characters (content_of (L.lines list.now)).cells) }
    ensures bound { result ≤ length (content_of (L.lines list.now)).cells }
{
    list.start(line)
}

/// Where a line begins, and where the line behind it does.
pub fn line_bounds<L: LineList>(list: &L, line: usize) -> (usize, usize)
    requires { line < lines (characters (content_of (L.lines list.now)).cells) }
    ensures start { result.0 ≡ line_start line (characters (content_of (L.lines list.now)).cells) }
    ensures end { result.1 ≡ line_start (line + 1) (characters (content_of (L.lines list.now)).cells) }
    ensures bound { result.1 ≤ length (content_of (L.lines list.now)).cells }
{
    let (start, here) = list.placed_line(line);
    (start, start + here.len())
}

/// The line that an offset stands in, which is how many newlines stand before it.
pub fn line_of<L: LineList>(list: &L, offset: usize) -> usize
    requires { offset ≤ length (content_of (L.lines list.now)).cells }
    ensures { result ≡ line_of (characters (content_of (L.lines list.now)).cells) offset }
{
    if offset == len(list) {
        return list.len();
    }
    list.locate(offset).0
}

/// The line that an offset stands in, with where it begins and where the line behind it does. From the end of the text
/// on both are the length.
pub fn line_at<L: LineList>(list: &L, offset: usize) -> LineSpan
    requires { offset ≤ length (content_of (L.lines list.now)).cells }
    ensures { IsLineOf (characters (content_of (L.lines list.now)).cells) offset result }
{
    if offset == len(list) {
        return LineSpan {
            number: list.len(),
            start: offset,
            end: offset,
        };
    }
    let (number, column, line) = list.line_at(offset);
    let start = offset - column;
    LineSpan {
        number,
        start,
        end: start + line.len(),
    }
}

/// The line that holds an offset, lent, behind its number and the column there; from the end of the text on it is the
/// last line.
pub fn place_of<L: LineList>(list: &L, offset: usize) -> (usize, usize, &Line)
    ensures place { IsAt (L.lines list.now) offset result.0 result.1 }
    ensures line { slice_get (L.lines list.now) result.0 ≡ Some result.2.now }
{
    if offset < len(list) {
        return list.line_at(offset);
    }
    let last = list.len() - 1;
    let (start, line) = list.placed_line(last);
    (last, offset - start, line)
}

/// The place of the mark of a number, if there is one.
pub fn mark_place<L: LineList>(list: &L, number: MarkNo) -> Option<Place>
    ensures value { result ≡ finite.get (content_of (L.lines list.now)).marks number.0 }
    ensures bound { IfSome result (λ place. place.offset ≤ length (content_of (L.lines list.now)).cells) }
{
    let (start, line) = list.marked_line(number)?;
    let place = line.mark_place(number)?;
    Some(Place {
        offset: start + place.offset,
        gravity: place.gravity,
    })
}

/// Where the run of characters from an offset on that pass a test ends.
pub fn run_end<L: LineList, T: CharacterTest>(list: &L, offset: usize) -> usize
    requires { offset < length (content_of (L.lines list.now)).cells }
    ensures value { result ≡ offset
        + prefix_len T.test (drop offset (characters (content_of (L.lines list.now)).cells)) }
    ensures bound { result ≤ length (content_of (L.lines list.now)).cells }
{
    let (_, column, line) = list.line_at(offset);
    offset - column + line.run_end::<T>(column)
}

/// Where the run of characters before an offset that pass a test begins.
pub fn run_start<L: LineList, T: CharacterTest>(list: &L, offset: usize) -> usize
    requires { offset ≤ length (content_of (L.lines list.now)).cells }
    ensures value { result ≡ offset
        - suffix_len T.test (take offset (characters (content_of (L.lines list.now)).cells)) }
    ensures bound { result ≤ offset }
{
    let (_, column, line) = place_of(list, offset);
    offset - column + line.run_start::<T>(column)
}

/// The least offset at or above this one at which a mark stands.
pub fn next_mark<L: LineList>(list: &L, offset: usize) -> Option<usize>
    ensures value { result ≡ next_mark offset (content_of (L.lines list.now)).marks }
    ensures above { IfSome result (λ next. offset ≤ next) }
    ensures bound { IfSome result (λ next. next ≤ length (content_of (L.lines list.now)).cells) }
{
    let (index, column, here) = place_of(list, offset);
    if let Some(next) = here.next_mark(column) {
        return Some(offset - column + next);
    }
    let later = list.next_marked(index + 1)?;
    let (start, line) = list.placed_line(later);
    let next = line.next_mark(0)?;
    Some(start + next)
}

/// The greatest offset below this one at which a mark stands.
pub fn previous_mark<L: LineList>(list: &L, offset: usize) -> Option<usize>
    ensures value { result ≡ previous_mark offset (content_of (L.lines list.now)).marks }
    ensures below { IfSome result (λ previous. previous < offset) }
    ensures bound { IfSome result (λ previous. previous ≤ length (content_of (L.lines list.now)).cells) }
{
    let (index, column, here) = place_of(list, offset);
    if let Some(previous) = here.previous_mark(column) {
        return Some(offset - column + previous);
    }
    let earlier = list.previous_marked(index)?;
    let (start, line) = list.placed_line(earlier);
    let previous = line.previous_mark(line.len())?;
    Some(start + previous)
}

/// Of the marks that stand at an offset, in the order of their numbers, the one at an index.
pub fn mark_at<L: LineList>(list: &L, offset: usize, index: usize) -> Option<MarkNo>
    ensures { result ≡ slice_get (marks_at offset (content_of (L.lines list.now)).marks) index }
{
    let (_, column, line) = place_of(list, offset);
    line.mark_at(column, index)
}

/// Where the run of characters that are like the one at an offset in a tag ends: the least offset above it at which the
/// tag differs, else the length.
pub fn next_change<L: LineList>(list: &L, offset: usize, slot: TagSlot) -> usize
    requires within { offset < length (content_of (L.lines list.now)).cells }
    requires known { slot.0 < slot_count }
    ensures value { result ≡ next_change (flags slot.0 (content_of (L.lines list.now)).cells) offset }
    ensures above { offset < result }
    ensures bound { result ≤ length (content_of (L.lines list.now)).cells }
{
    let (index, column, here) = list.line_at(offset);
    if let Some(next) = here.next_toggle(column + 1, slot) {
        return offset - column + next;
    }
    match list.next_with(slot, index + 1) {
        None => len(list),
        Some(later) => {
            let (start, line) = list.placed_line(later);
            match line.next_toggle(0, slot) {
                None => len(list),
                Some(next) => start + next,
            }
        }
    }
}

/// Where the run of characters that are like the one before an offset in a tag begins.
pub fn previous_change<L: LineList>(list: &L, offset: usize, slot: TagSlot) -> usize
    requires some { 0 < offset }
    requires within { offset ≤ length (content_of (L.lines list.now)).cells }
    requires known { slot.0 < slot_count }
    ensures value { result ≡ previous_change (flags slot.0 (content_of (L.lines list.now)).cells) offset }
    ensures below { result < offset }
{
    let (index, column, here) = place_of(list, offset);
    if let Some(previous) = here.previous_toggle(column, slot) {
        return offset - column + previous;
    }
    match list.previous_with(slot, index) {
        None => 0,
        Some(earlier) => {
            let (start, line) = list.placed_line(earlier);
            match line.previous_toggle(line.len(), slot) {
                None => 0,
                Some(previous) => start + previous,
            }
        }
    }
}

/// The characters from one offset to another.
pub fn copy_text<L: LineList>(list: &L, start: usize, end: usize) -> Result<String, AllocError>
    requires ordered { start ≤ end }
    requires within { end ≤ length (content_of (L.lines list.now)).cells }
    ensures { IfOk result (λ text.
        chars (string_bytes text) ≡ slice_range (characters (content_of (L.lines list.now)).cells) start end) }
{
    let (first, column, line) = place_of(list, start);
    let len = line.len();
    let to = column + (end - start);
    if to <= len {
        return line.copy_text(column, to);
    }
    let mut text = line.copy_text(column, len)?;
    text.reserve(to - len)?;
    let (last, to, line) = place_of(list, end);
    list.push_lines(first + 1, last, &mut text)?;
    line.push_text(0, to, &mut text)?;
    Ok(text)
}
