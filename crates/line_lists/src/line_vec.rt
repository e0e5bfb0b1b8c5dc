//! A list of lines in a plain `Vec`, which computes its sums at each query: the reference for other lists.

ghost use Rattle.std.specs.Prelude.{◌≡◌, ◌+◌, ◌-◌, ◌<◌, ◌≤◌, ◌^◌, length, map, not, vec_len, vec_capacity};
ghost use Rattle.std.specs.List.{position, suffix_len};
ghost use Rattle.text_model.specs.Splices.{inserted, removed};
ghost use Rattle.text_model.specs.TagBits.{slot_count};
ghost use Rattle.segments.specs.Columns.{LineContent};
ghost use Rattle.line_lists.specs.Edits.{without_mark};
ghost use Rattle.line_lists.specs.Lists.{AreLines, Holds, IsCounted, count_of, has_mark, has_marks, has_toggle};
ghost use Rattle.line_lists.specs.RowLaws.{AreLines-prop};
ghost use Rattle.line_lists.specs.Texts.{whole};

use crate::lists::LineList;
use segments::{Line, LineEdit};
use std::alloc::{AllocError, Global};
use text_model::{MarkNo, Place, TagSet, TagSlot, WORDS};
use toggle_sums::{Summary, Sums};

/// The lines of a text in a plain `Vec`, whose sums are added up as they are asked for. Other lists are judged by it.
#[derive(Drop)]
pub struct LineVec {
    lines: Vec<Line>,
    ghost are_lines: { AreLines lines.items } by { AreLines-prop lines.items },
}

/// The line that holds an offset of some lines in a row, and the column there.
fn find_column(lines: &[Line], offset: usize) -> (usize, usize)
    requires { offset < length (whole lines.now).columns }
    ensures { Holds lines.now offset result.0 result.1 }
{
    let mut column = offset;
    for (index, line) in lines.iter().enumerate() {
        let len = line.len();
        if column < len {
            return (index, column);
        }
        column -= len;
    }
    unreachable!()
}

/// The sum of lines.
fn sum_of(lines: &[Line]) -> Sums<WORDS>
    requires { IsCounted (count_of lines.now) }
    ensures { result ≡ count_of lines.now }
{
    let mut sums = Sums::zero();
    for line in lines {
        sums = sums.plus(&line.sum());
    }
    sums
}

/// The first of the lines in which a slot is toggled.
fn first_with(lines: &[Line], slot: TagSlot) -> Option<usize>
    requires { slot.0 < slot_count }
    ensures { result ≡ position (has_toggle slot.0) lines.now }
{
    for (index, line) in lines.iter().enumerate() {
        if line.sum().has(slot) {
            return Some(index);
        }
    }
    None
}

/// How many lines from the last back have no toggle of a slot.
fn free_of_slot(lines: &[Line], slot: TagSlot) -> usize
    requires { slot.0 < slot_count }
    ensures { result ≡ suffix_len (λ (line : LineContent). not (has_toggle slot.0 line)) lines.now }
{
    let mut start = lines.len();
    while start > 0 && !lines[start - 1].sum().has(slot) {
        start -= 1;
    }
    lines.len() - start
}

/// The first of the lines in which a mark stands.
fn first_marked(lines: &[Line]) -> Option<usize>
    ensures { result ≡ position has_marks lines.now }
{
    for (index, line) in lines.iter().enumerate() {
        if line.sum().marks() > 0 {
            return Some(index);
        }
    }
    None
}

/// How many lines from the last back have no mark.
fn free_of_marks(lines: &[Line]) -> usize
    ensures { result ≡ suffix_len (λ (line : LineContent). not (has_marks line)) lines.now }
{
    let mut start = lines.len();
    while start > 0 && lines[start - 1].sum().marks() == 0 {
        start -= 1;
    }
    lines.len() - start
}

/// The first of the lines in which the mark of a number stands.
fn first_with_mark(lines: &[Line], number: MarkNo) -> Option<usize>
    ensures { result ≡ position (has_mark number.0) lines.now }
{
    for (index, line) in lines.iter().enumerate() {
        if line.mark_place(number).is_some() {
            return Some(index);
        }
    }
    None
}

/// Takes the mark of a number off lines.
fn take_marks(lines: &mut [Line], number: MarkNo)
    ensures { lines.new ≡ map (without_mark number.0) lines.old }
{
    for line in lines.iter_mut() {
        line.take_mark(number);
    }
}

/// Puts lines in before the one at an index, where there is room for them.
fn put_lines(lines: &mut Vec<Line>, at: usize, new: Vec<Line>)
    requires within { at ≤ vec_len lines.old }
    requires room { vec_len lines.old + vec_len new ≤ vec_capacity lines.old }
    ensures items { lines.new.items ≡ inserted at new.items lines.old.items }
    ensures capacity { vec_capacity lines.old ≤ vec_capacity lines.new }
{
    let mut new = new;
    let end = lines.len();
    lines.append(&mut new).unwrap();
    lines[at..].rotate_left(end - at);
}

/// Takes out the lines from one index to another.
fn drop_lines(lines: &mut Vec<Line>, from: usize, to: usize)
    requires ordered { from ≤ to }
    requires within { to ≤ vec_len lines.old }
    ensures items { lines.new.items ≡ removed from to lines.old.items }
    ensures capacity { vec_capacity lines.new ≡ vec_capacity lines.old }
{
    let end = lines.len();
    lines[from..].rotate_left(to - from);
    lines.truncate(end - (to - from));
}

/// Gives back room that isn't needed, where memory allows it: more than for twice as many lines, and a few.
fn trim_lines(lines: &mut Vec<Line>)
    ensures { lines.new.items ≡ lines.old.items }
{
    if lines.capacity() > lines.len().saturating_mul(2).saturating_add(8) {
        lines.shrink_to(lines.len());
    }
}

impl LineList for LineVec {
    ghost lines = { λ list. list.lines.items };

    ghost has_room = { λ list count rows. vec_len list.lines + count ≤ vec_capacity list.lines };

    ghost mark_room = { λ list. 2 ^ 64 };

    ghost are_lines = { λ list. list.are_lines };

    fn new(alloc: Global) -> Result<LineVec, AllocError> {
        let mut lines = Vec::with_capacity(alloc, 1)?;
        lines.push(Line::new(alloc, "\n")?)?;
        Ok(LineVec { lines })
    }

    fn len(&self) -> usize {
        self.lines.len()
    }

    fn line(&self, index: usize) -> &Line {
        &self.lines[index]
    }

    fn locate(&self, offset: usize) -> (usize, usize) {
        find_column(&self.lines, offset)
    }

    fn seek(&mut self, offset: usize) -> (usize, usize) {
        find_column(&self.lines, offset)
    }

    fn line_at(&self, offset: usize) -> (usize, usize, &Line) {
        let (index, column) = find_column(&self.lines, offset);
        (index, column, &self.lines[index])
    }

    fn start(&self, line: usize) -> usize {
        sum_of(&self.lines[..line]).characters()
    }

    fn odd_slots(&self, line: usize) -> TagSet {
        sum_of(&self.lines[..line]).odd_slots()
    }

    fn prefix(&self, count: usize) -> Sums<WORDS> {
        sum_of(&self.lines[..count])
    }

    fn next_with(&self, slot: TagSlot, from: usize) -> Option<usize> {
        match first_with(&self.lines[from..], slot) {
            Some(index) => Some(from + index),
            None => None,
        }
    }

    fn previous_with(&self, slot: TagSlot, to: usize) -> Option<usize> {
        let free = free_of_slot(&self.lines[..to], slot);
        if free < to { Some(to - free - 1) } else { None }
    }

    fn next_marked(&self, from: usize) -> Option<usize> {
        match first_marked(&self.lines[from..]) {
            Some(index) => Some(from + index),
            None => None,
        }
    }

    fn previous_marked(&self, to: usize) -> Option<usize> {
        let free = free_of_marks(&self.lines[..to]);
        if free < to { Some(to - free - 1) } else { None }
    }

    fn mark_line(&self, number: MarkNo) -> Option<usize> {
        first_with_mark(&self.lines, number)
    }

    fn reserve(&mut self, count: usize, rows: usize, numbers: usize) -> Result<(), AllocError> {
        self.lines.reserve(count)?;
        Ok(())
    }

    fn free_room(&mut self) {
        trim_lines(&mut self.lines);
    }

    fn take_mark(&mut self, number: MarkNo) {
        take_marks(&mut self.lines, number);
    }

    fn replace(&mut self, index: usize, line: Line) {
        self.lines[index] = line;
    }

    fn edit_line<E: LineEdit>(&mut self, index: usize, edit: &E) -> Result<(), AllocError> {
        let mut line = self.lines[index].try_clone()?;
        edit.make(&mut line)?;
        self.lines[index] = line;
        Ok(())
    }

    fn move_mark(&mut self, number: MarkNo, index: usize, place: Place) -> Result<(), AllocError> {
        let mut line = self.lines[index].try_clone()?;
        line.put_mark(number, place)?;
        take_marks(&mut self.lines, number);
        self.lines[index] = line;
        Ok(())
    }

    fn splice(&mut self, from: usize, count: usize, new: Vec<Line>) {
        // The lines that go leave their room to those that come.
        drop_lines(&mut self.lines, from, from + count);
        put_lines(&mut self.lines, from, new);
    }
}
