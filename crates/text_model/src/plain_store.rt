//! The plainest store, a list of cells and the places of the marks, by which the other stores are judged.

ghost use Rattle.std.specs.Prelude.{◌≡◌, ◌+◌, ◌-◌, ◌++◌, ◌∷◌, [], ◌^◌, ◌<◌, ◌≤◌, ℕ, ⊤, map, vec_len, length, max};
ghost use Rattle.std.specs.Prelude.{get_or, slice_get, OnOk, IfOk, None, Some, chars, string_bytes, option_map};
ghost use Rattle.std.specs.List.{prefix_len, suffix_len};
ghost use Rattle.text_model.specs.Changes.{is_alike};
ghost use Rattle.text_model.specs.Content.{characters, flags, slots_left_of};
ghost use Rattle.text_model.specs.Lines.{lines, line_start};
ghost use Rattle.text_model.specs.MarkOrder.{marks_at, next_mark, previous_mark};
ghost use Rattle.text_model.specs.Plain.{plain_content, plain_marks, stands_at, with_next, with_previous, IsPlain};
ghost use Rattle.text_model.specs.Splices.{inserted, removed, moved, drawn};
ghost use Rattle.text_model.specs.Steps.{cells_of, with_slot, StepFits, after_step};
ghost use Rattle.text_model.specs.TagBits.{slot_count};
ghost use Rattle.std.specs.FinMap as finite;

use crate::cells::Cell;
use crate::character_test::CharacterTest;
use crate::edits::{Edit, Step};
use crate::places::{LineSpan, MarkNo, Place, TagSlot};
use crate::store::TextStore;
use crate::tag_set::TagSet;
use crate::texts::Text;
use std::alloc::{AllocError, Global};

/// The plain form of a text: a list of its cells, and of the places of its marks by their numbers. The other stores
/// are judged by it.
#[derive(Drop)]
pub struct PlainStore {
    alloc: Global,
    cells: Vec<Cell>,
    places: Vec<Option<Place>>,
    ghost plain: { IsPlain cells.items places.items },
}

/// Adds a character to a text.
fn push_char(text: &mut String, character: char) -> Result<(), AllocError>
    ensures { OnOk result (chars (string_bytes text.new) ≡ chars (string_bytes text.old) ++ character ∷ []) }
{
    text.push(character)?;
    Ok(())
}

/// How many of the cells are newlines.
fn count_newlines(cells: &[Cell]) -> usize
    ensures { result ≡ lines (characters cells.now) }
{
    cells.iter().filter(|cell| cell.character == '\n').count()
}

/// Where a line begins among the cells, or their number where there are no more lines.
fn find_line(cells: &[Cell], line: usize) -> usize
    ensures value { result ≡ line_start line (characters cells.now) }
    ensures bound { result ≤ length cells.now }
{
    let mut left = line;
    for (offset, cell) in cells.iter().enumerate() {
        if left == 0 {
            return offset;
        }
        if cell.character == '\n' {
            left -= 1;
        }
    }
    cells.len()
}

/// The tags of the cell before an offset, if there is one.
fn tags_left_of(cells: &[Cell], offset: usize) -> TagSet
    requires { offset ≤ length cells.now }
    ensures { result ≡ slots_left_of offset cells.now }
{
    if offset == 0 {
        return TagSet::empty();
    }
    cells[offset - 1].tags
}

/// How many cells from the first on all have a tag, or all lack it.
fn alike_from_first(cells: &[Cell], slot: TagSlot, is_on: bool) -> usize
    requires { slot.0 < slot_count }
    ensures { result ≡ prefix_len (is_alike is_on) (flags slot.0 cells.now) }
{
    for (count, cell) in cells.iter().enumerate() {
        if cell.tags.has(slot) != is_on {
            return count;
        }
    }
    cells.len()
}

/// How many cells from the last back all have a tag, or all lack it.
fn alike_from_last(cells: &[Cell], slot: TagSlot, is_on: bool) -> usize
    requires { slot.0 < slot_count }
    ensures { result ≡ suffix_len (is_alike is_on) (flags slot.0 cells.now) }
{
    let mut start = cells.len();
    while start > 0 && cells[start - 1].tags.has(slot) == is_on {
        start -= 1;
    }
    cells.len() - start
}

/// How many cells from the first on have characters that pass a test.
fn passing_from_first<T: CharacterTest>(cells: &[Cell]) -> usize
    ensures { result ≡ prefix_len T.test (characters cells.now) }
{
    for (count, cell) in cells.iter().enumerate() {
        if !T::passes(cell.character) {
            return count;
        }
    }
    cells.len()
}

/// How many cells from the last back have characters that pass a test.
fn passing_from_last<T: CharacterTest>(cells: &[Cell]) -> usize
    ensures { result ≡ suffix_len T.test (characters cells.now) }
{
    let mut start = cells.len();
    while start > 0 && T::passes(cells[start - 1].character) {
        start -= 1;
    }
    cells.len() - start
}

/// Adds the characters of a text as cells with these tags.
fn push_cells(cells: &mut Vec<Cell>, text: &str, tags: TagSet) -> Result<(), AllocError>
    ensures { OnOk result (cells.new.items ≡ cells.old.items ++ cells_of (chars text.now) tags) }
{
    for character in text.chars() {
        cells.push(Cell { character, tags })?;
    }
    Ok(())
}

/// Puts a text with these tags in before the cell at an offset.
fn insert_cells(
    cells: &mut Vec<Cell>,
    at: usize,
    text: &Text,
    tags: TagSet,
) -> Result<(), AllocError>
    requires { at ≤ vec_len cells.old }
    ensures { OnOk result (cells.new.items ≡ inserted at (cells_of text.now tags) cells.old.items) }
{
    let end = cells.len();
    push_cells(cells, text.as_str(), tags)?;
    cells[at..].rotate_left(end - at);
    Ok(())
}

/// Takes out the cells from one offset to another.
fn remove_cells(cells: &mut Vec<Cell>, from: usize, to: usize)
    requires ordered { from ≤ to }
    requires within { to ≤ vec_len cells.old }
    ensures { cells.new.items ≡ removed from to cells.old.items }
{
    let end = cells.len();
    cells[from..].rotate_left(to - from);
    cells.truncate(end - (to - from));
}

/// Sets a slot on cells, or takes it off them.
fn set_tag(cells: &mut [Cell], slot: TagSlot, is_on: bool)
    requires { slot.0 < slot_count }
    ensures { cells.new ≡ map (with_slot slot.0 is_on) cells.old }
{
    for cell in cells.iter_mut() {
        cell.tags = if is_on {
            cell.tags.with(slot)
        } else {
            cell.tags.without(slot)
        };
    }
}

/// Moves places as an insertion of so many characters at an offset of a text of `end` characters does.
fn move_places(places: &mut [Option<Place>], at: usize, count: usize, end: usize)
    requires within { (number : ℕ) (place : Place) → get_or places.old number None ≡ Some place → place.offset ≤ end }
    requires fits { end + count < 2 ^ 64 }
    ensures { places.new ≡ map (option_map (moved at count)) places.old }
{
    for place in places.iter_mut() {
        *place = match *place {
            None => None,
            Some(place) => Some(place.moved(at, count)),
        };
    }
}

/// Draws places as the removal of the characters from one offset to another does.
fn draw_places(places: &mut [Option<Place>], from: usize, to: usize)
    requires { from ≤ to }
    ensures { places.new ≡ map (option_map (drawn from to)) places.old }
{
    for place in places.iter_mut() {
        *place = match *place {
            None => None,
            Some(place) => Some(place.drawn(from, to)),
        };
    }
}

/// Puts the mark of a number at a place.
fn put_place(
    places: &mut Vec<Option<Place>>,
    number: MarkNo,
    place: Place,
) -> Result<(), AllocError>
    ensures marks { OnOk result (plain_marks places.new.items
        ≡ finite.insert (plain_marks places.old.items) number.0 place) }
    ensures few { OnOk result (vec_len places.new ≤ max (vec_len places.old) (2 ^ 16)) }
{
    let index = number.0 as usize;
    if places.len() <= index {
        places.resize(index + 1, None)?;
    }
    places[index] = Some(place);
    Ok(())
}

/// Takes the mark of a number away.
fn take_place(places: &mut [Option<Place>], number: MarkNo)
    ensures { plain_marks places.new ≡ finite.remove (plain_marks places.old) number.0 }
{
    let index = number.0 as usize;
    if index < places.len() {
        places[index] = None;
    }
}

/// Makes a step in the cells and the places of a plain store.
fn make_step(
    cells: &mut Vec<Cell>,
    places: &mut Vec<Option<Place>>,
    step: &Step,
) -> Result<(), AllocError>
    requires plain { IsPlain cells.old.items places.old.items }
    requires fits { StepFits step.now (plain_content cells.old.items places.old.items) }
    ensures plain { OnOk result (IsPlain cells.new.items places.new.items) }
    ensures made { OnOk result (plain_content cells.new.items places.new.items
        ≡ after_step step.now (plain_content cells.old.items places.old.items)) }
{
    match step {
        Step::Remove(from, to) => {
            remove_cells(cells, *from, *to);
            draw_places(places, *from, *to);
        }
        Step::Insert(at, text, tags) => {
            let end = cells.len();
            insert_cells(cells, *at, text, *tags)?;
            move_places(places, *at, cells.len() - end, end);
        }
        Step::SetTag(from, to, slot, is_on) => set_tag(&mut cells[*from..*to], *slot, *is_on),
        Step::ClearTags(at) => cells[*at].tags = TagSet::empty(),
        Step::ClearSlot(slot) => set_tag(cells, *slot, false),
        Step::PutMark(number, place) => put_place(places, *number, *place)?,
        Step::TakeMark(number) => take_place(places, *number),
    }
    Ok(())
}

/// How many cells the steps put in, at most: a character takes one byte or more.
fn most_new_cells(steps: &[Step]) -> usize {
    let mut most = 0usize;
    for step in steps {
        if let Step::Insert(_, text, _) = step {
            most = most.saturating_add(text.as_str().len());
        }
    }
    most
}

/// How many places there are after the steps, where there were so many before.
fn places_after(steps: &[Step], before: usize) -> usize {
    let mut count = before;
    for step in steps {
        if let Step::PutMark(number, _) = step {
            count = count.max(number.0 as usize + 1);
        }
    }
    count
}

/// A copy that grows to so many elements without memory.
fn copy_with_room<T: Copy>(
    alloc: Global,
    items: &[T],
    capacity: usize,
) -> Result<Vec<T>, AllocError>
    ensures { IfOk result (λ copy. copy.items ≡ items.now) }
{
    let mut copy = Vec::with_capacity(alloc, capacity)?;
    copy.extend_from_slice(items)?;
    Ok(copy)
}

/// The least of offsets at or above one, with a place more.
fn with_next(next: Option<usize>, offset: usize, place: Option<Place>) -> Option<usize>
    ensures { result ≡ with_next next offset place }
{
    match place {
        Some(place) if offset <= place.offset => Some(match next {
            None => place.offset,
            Some(least) => least.min(place.offset),
        }),
        _ => next,
    }
}

/// The greatest of offsets below one, with a place more.
fn with_previous(previous: Option<usize>, offset: usize, place: Option<Place>) -> Option<usize>
    ensures { result ≡ with_previous previous offset place }
{
    match place {
        Some(place) if place.offset < offset => Some(match previous {
            None => place.offset,
            Some(greatest) => greatest.max(place.offset),
        }),
        _ => previous,
    }
}

/// Whether a mark is there, and stands at an offset.
fn stands_at(place: Option<Place>, offset: usize) -> bool
    ensures { result ≡ stands_at place offset }
{
    match place {
        None => false,
        Some(place) => place.offset == offset,
    }
}

/// The least offset at or above this one among the places.
fn find_next(places: &[Option<Place>], offset: usize) -> Option<usize>
    ensures { result ≡ next_mark offset (plain_marks places.now) }
{
    let mut next = None;
    for place in places {
        next = with_next(next, offset, *place);
    }
    next
}

/// The greatest offset below this one among the places.
fn find_previous(places: &[Option<Place>], offset: usize) -> Option<usize>
    ensures { result ≡ previous_mark offset (plain_marks places.now) }
{
    let mut previous = None;
    for place in places {
        previous = with_previous(previous, offset, *place);
    }
    previous
}

/// Of the numbers of the places at an offset, the one at an index.
fn find_mark(places: &[Option<Place>], offset: usize, index: usize) -> Option<MarkNo>
    requires { length places.now ≤ 2 ^ 16 }
    ensures { result ≡ slice_get (marks_at offset (plain_marks places.now)) index }
{
    let mut left = index;
    for (number, place) in places.iter().enumerate() {
        if !stands_at(*place, offset) {
            continue;
        }
        if left == 0 {
            return Some(MarkNo(number as u16));
        }
        left -= 1;
    }
    None
}

impl TextStore for PlainStore {
    type Prepared = PlainStore;

    ghost content = { λ store. plain_content store.cells.items store.places.items };

    ghost ready = { λ store prepared. ⊤ };

    ghost outcome = { λ store prepared. plain_content prepared.cells.items prepared.places.items };

    fn new(alloc: Global) -> Result<PlainStore, AllocError> {
        let mut cells = Vec::with_capacity(alloc, 1)?;
        cells.push(Cell {
            character: '\n',
            tags: TagSet::empty(),
        })?;
        Ok(PlainStore {
            alloc,
            cells,
            places: Vec::new(alloc),
        })
    }

    fn len(&self) -> usize {
        self.cells.len()
    }

    fn lines(&self) -> usize {
        count_newlines(&self.cells)
    }

    fn line_start(&self, line: usize) -> usize {
        find_line(&self.cells, line)
    }

    fn line_of(&self, offset: usize) -> usize {
        count_newlines(&self.cells[..offset])
    }

    fn line_at(&self, offset: usize) -> LineSpan {
        let number = count_newlines(&self.cells[..offset]);
        LineSpan {
            number,
            start: find_line(&self.cells, number),
            end: find_line(&self.cells, number + 1),
        }
    }

    fn line_bounds(&self, line: usize) -> (usize, usize) {
        (
            find_line(&self.cells, line),
            find_line(&self.cells, line + 1),
        )
    }

    fn char_at(&self, offset: usize) -> char {
        self.cells[offset].character
    }

    fn run_end<T: CharacterTest>(&self, offset: usize) -> usize {
        offset + passing_from_first::<T>(&self.cells[offset..])
    }

    fn run_start<T: CharacterTest>(&self, offset: usize) -> usize {
        offset - passing_from_last::<T>(&self.cells[..offset])
    }

    fn has_tag(&self, offset: usize, slot: TagSlot) -> bool {
        self.cells[offset].tags.has(slot)
    }

    fn tags_at(&self, offset: usize) -> TagSet {
        self.cells[offset].tags
    }

    fn tags_around(&self, offset: usize) -> (TagSet, TagSet) {
        (tags_left_of(&self.cells, offset), self.cells[offset].tags)
    }

    fn next_change(&self, offset: usize, slot: TagSlot) -> usize {
        let is_on = self.cells[offset].tags.has(slot);
        offset + alike_from_first(&self.cells[offset..], slot, is_on)
    }

    fn previous_change(&self, offset: usize, slot: TagSlot) -> usize {
        let is_on = self.cells[offset - 1].tags.has(slot);
        offset - alike_from_last(&self.cells[..offset], slot, is_on)
    }

    fn mark_place(&self, number: MarkNo) -> Option<Place> {
        match self.places.get(number.0 as usize) {
            Some(place) => *place,
            None => None,
        }
    }

    fn next_mark(&self, offset: usize) -> Option<usize> {
        find_next(&self.places, offset)
    }

    fn previous_mark(&self, offset: usize) -> Option<usize> {
        find_previous(&self.places, offset)
    }

    fn mark_at(&self, offset: usize, index: usize) -> Option<MarkNo> {
        find_mark(&self.places, offset, index)
    }

    fn copy_text(&self, start: usize, end: usize) -> Result<String, AllocError> {
        let mut text = String::with_capacity(self.alloc, end - start)?;
        for cell in &self.cells[start..end] {
            push_char(&mut text, cell.character)?;
        }
        Ok(text)
    }

    fn prepare(&mut self, edit: &Edit) -> Result<PlainStore, AllocError> {
        let steps = edit.steps.as_slice();
        let most_cells = self.cells.len().saturating_add(most_new_cells(steps));
        let mut cells = copy_with_room(self.alloc, &self.cells, most_cells)?;
        let most_places = places_after(steps, self.places.len());
        let mut places = copy_with_room(self.alloc, &self.places, most_places)?;
        for step in steps {
            make_step(&mut cells, &mut places, step)?;
        }
        Ok(PlainStore {
            alloc: self.alloc,
            cells,
            places,
        })
    }

    fn commit(&mut self, prepared: PlainStore) {
        *self = prepared;
    }
}
