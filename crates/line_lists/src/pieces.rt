//! Turns the copies of a draft into pieces to splice into a list, and counts the lines and marks they add.

ghost use Rattle.std.specs.Prelude.{◌≡◌, ℕ, ◌+◌, ◌<◌, ◌≤◌, ◌^◌, ◌++◌, ◌∷◌, [], IfOk, OnOk, length};
ghost use Rattle.std.specs.List.{All};
ghost use Rattle.toggle_sums.specs.Counts.{counting, plus};
ghost use Rattle.segments.specs.Columns.{LineContent, line_count};
ghost use Rattle.line_lists.specs.DraftTexts.{IsDraftIn, lines_in};
ghost use Rattle.line_lists.specs.Drafts.{IsText, copies_of, drafted_at};
ghost use Rattle.line_lists.specs.Lists.{IsCounted, NumbersBelow, SameNumbers, count_of};
ghost use Rattle.line_lists.specs.Pieces.{CanPlace, copied_lines, freed, lines_more, named, numbers_in, numbers_of};
ghost use Rattle.line_lists.specs.Pieces.{piece_lines, placed, rows_more};

use crate::drafts::{Copied, Draft, Stop};
use crate::lists::LineList;
use segments::Line;
use std::alloc::{AllocError, Global};
use text_model::{MarkNo, WORDS};
use toggle_sums::Sums;

/// Lines that come in the place of so many from one on.
#[derive(Drop)]
pub struct Piece {
    pub from: usize,
    pub count: usize,
    pub lines: Vec<Line>,
}

/// How many lines pieces bring beyond those in whose place they come, and in how many rows these stand.
#[derive(Clone, Copy)]
pub struct Growth {
    pub lines: usize,
    pub rows: usize,
}

/// What pieces bring. More than a number can count has no room in memory.
pub fn growth_of(pieces: &[Piece]) -> Result<Growth, AllocError>
    ensures lines { IfOk result (λ growth. growth.lines ≡ lines_more pieces.now) }
    ensures rows { IfOk result (λ growth. growth.rows ≡ rows_more pieces.now) }
{
    let mut growth = Growth { lines: 0, rows: 0 };
    for piece in pieces {
        let more = piece.lines.len().saturating_sub(piece.count);
        growth.lines = growth.lines.checked_add(more).ok_or(AllocError)?;
        // Of rows there are no more than lines.
        growth.rows += more.min(1);
    }
    Ok(growth)
}

/// Adds the numbers of the marks of a line.
fn push_numbers(numbers: &mut Vec<MarkNo>, line: &Line) -> Result<(), AllocError>
    ensures { OnOk result (named numbers.new.items ≡ named numbers.old.items ++ numbers_of line.now) }
{
    let mut index = 0;
    while let Some((number, _)) = line.mark(index) {
        numbers.push(number)?;
        index += 1;
    }
    Ok(())
}

/// Adds the numbers of the marks of lines.
fn push_all_numbers(numbers: &mut Vec<MarkNo>, lines: &[Line]) -> Result<(), AllocError>
    ensures { OnOk result (named numbers.new.items ≡ named numbers.old.items ++ numbers_in lines.now) }
{
    for line in lines {
        push_numbers(numbers, line)?;
    }
    Ok(())
}

/// The numbers of all marks that pieces bring.
pub fn numbers_brought(alloc: Global, pieces: &[Piece]) -> Result<Vec<MarkNo>, AllocError>
    ensures { IfOk result (λ numbers. named numbers.items ≡ numbers_in (piece_lines pieces.now)) }
{
    let mut numbers = Vec::new(alloc);
    for piece in pieces {
        push_all_numbers(&mut numbers, &piece.lines)?;
    }
    Ok(numbers)
}

/// The least bound, from one on, above the numbers of the marks of a line.
pub fn bound_with(bound: usize, line: &Line) -> usize
    ensures more { bound ≤ result }
    ensures above { All (λ number. number < result) (numbers_of line.now) }
{
    let mut bound = bound;
    for index in 0..line.marks() {
        let (number, _) = line.mark(index).unwrap();
        bound = bound.max(number.0 as usize + 1);
    }
    bound
}

/// A number above those of all marks of some copies.
pub fn bound_of(stops: &[Stop]) -> usize
    ensures { All (λ number. number < result) (numbers_in (copied_lines (copies_of stops.now))) }
{
    let mut bound = 0;
    for stop in stops {
        bound = bound_with(bound, &stop.copy.line);
    }
    bound
}

/// Counts a line more, but for its toggles. More than a number can count has no room in memory.
fn add_line(sum: &mut Sums<WORDS>, line: &Line) -> Result<(), AllocError>
    ensures sum { OnOk result (sum.new
        ≡ plus sum.old (counting 1 (length line.now.columns) (line_count line.now).marks)) }
    ensures counted { OnOk result (IsCounted sum.new) }
{
    sum.lines().checked_add(1).ok_or(AllocError)?;
    sum.characters().checked_add(line.len()).ok_or(AllocError)?;
    sum.marks().checked_add(line.marks()).ok_or(AllocError)?;
    sum.add_counts(1, line.len(), line.marks());
    Ok(())
}

/// What is counted of the lines of a list, but for their toggles.
fn counts<L: LineList>(list: &L) -> Sums<WORDS>
    ensures { SameNumbers result (count_of (L.lines list.now)) }
{
    let lines = list.len();
    Sums::counting(lines, list.start(lines), list.marks())
}

/// Makes sure that a list and one more line can be counted together.
pub fn count_line<L: LineList>(list: &L, line: &Line) -> Result<(), AllocError>
    ensures { OnOk result (IsCounted (plus (count_of (L.lines list.now)) (count_of (line.now ∷ [])))) }
{
    let mut sum = counts(list);
    add_line(&mut sum, line)
}

/// Makes sure that a list can be counted together with one of its lines that has n characters more.
pub fn count_longer<L: LineList>(list: &L, line: &Line, more: usize) -> Result<(), AllocError>
    ensures lines { OnOk result ((count_of (L.lines list.now)).lines + 1 < 2 ^ 64) }
    ensures characters { OnOk result
        ((count_of (L.lines list.now)).characters + length line.now.columns + more < 2 ^ 64) }
    ensures marks { OnOk result ((count_of (L.lines list.now)).marks + (line_count line.now).marks < 2 ^ 64) }
{
    let lines = list.len();
    lines.checked_add(1).ok_or(AllocError)?;
    let characters = list.start(lines).checked_add(line.len()).ok_or(AllocError)?;
    characters.checked_add(more).ok_or(AllocError)?;
    list.marks().checked_add(line.marks()).ok_or(AllocError)?;
    Ok(())
}

/// Makes sure that a list can be counted together with one of its lines that has a mark more.
pub fn count_marked<L: LineList>(list: &L, line: &Line) -> Result<(), AllocError>
    ensures lines { OnOk result ((count_of (L.lines list.now)).lines + 1 < 2 ^ 64) }
    ensures characters { OnOk result ((count_of (L.lines list.now)).characters + length line.now.columns < 2 ^ 64) }
    ensures marks { OnOk result ((count_of (L.lines list.now)).marks + (line_count line.now).marks + 1 < 2 ^ 64) }
{
    count_longer(list, line, 0)?;
    let marks = list.marks() + line.marks();
    marks.checked_add(1).ok_or(AllocError)?;
    Ok(())
}

/// Makes sure that a list and copies of its lines can be counted together.
fn count<L: LineList>(list: &L, stops: &[Stop]) -> Result<(), AllocError>
    ensures { OnOk result (IsCounted (plus (count_of (L.lines list.now))
        (count_of (copied_lines (copies_of stops.now))))) }
{
    let mut sum = counts(list);
    for stop in stops {
        add_line(&mut sum, &stop.copy.line)?;
    }
    Ok(())
}

/// How many copies stand in each row of some, with no kept line between two of them.
#[derive(Drop)]
struct Rows {
    /// Those of each row but the last.
    before: Vec<usize>,
    last: usize,
}

impl Rows {
    fn of(alloc: Global, stops: &[Stop]) -> Result<Rows, AllocError> {
        let mut before = Vec::new(alloc);
        let mut last = 0;
        for stop in stops {
            if stop.copy.kept != 0 && last != 0 {
                before.push(last)?;
                last = 0;
            }
            last += 1;
        }
        Ok(Rows { before, last })
    }

    fn length(&self, index: usize) -> usize {
        self.before.get(index).copied().unwrap_or(self.last)
    }
}

impl Piece {
    /// Adds the line of a copy behind the last. It keeps no more room than it needs.
    fn add(&mut self, copy: Copied) -> Result<(), AllocError>
        requires { self.old.count + copy.gone < 2 ^ 64 }
        ensures from { self.new.from ≡ self.old.from }
        ensures count { OnOk result (self.new.count ≡ self.old.count + copy.gone) }
        ensures lines { OnOk result (self.new.lines.items ≡ self.old.lines.items ++ copy.line ∷ []) }
    {
        let mut line = copy.line;
        line.trim();
        self.count += copy.gone;
        self.lines.push(line)?;
        Ok(())
    }
}

/// A copy as a piece from a line on, with room for so many lines.
pub fn piece_of(alloc: Global, from: usize, copy: Copied, room: usize) -> Result<Piece, AllocError>
    ensures from { IfOk result (λ piece. piece.from ≡ from) }
    ensures count { IfOk result (λ piece. piece.count ≡ copy.gone) }
    ensures lines { IfOk result (λ piece. piece.lines.items ≡ copy.line ∷ []) }
{
    let mut piece = Piece {
        from,
        count: 0,
        lines: Vec::with_capacity(alloc, room)?,
    };
    piece.add(copy)?;
    Ok(piece)
}

/// Copies of lines of a list, in order, as pieces of it, to be put in where the marks of the copies are taken off; one
/// piece may be put in without that.
pub fn pieces_of<L: LineList>(
    alloc: Global,
    list: &L,
    front: Vec<Stop>,
) -> Result<Vec<Piece>, AllocError>
    requires { IsText (L.lines list.now) front.items [] }
    ensures can { IfOk result (λ pieces. CanPlace pieces.items
        (freed (numbers_in (copied_lines (copies_of front.items))) (L.lines list.now))) }
    ensures new { IfOk result (λ pieces. placed pieces.items
        (freed (numbers_in (copied_lines (copies_of front.items))) (L.lines list.now))
        ≡ drafted_at (L.lines list.now) front.items []) }
    ensures lines { IfOk result (λ pieces. piece_lines pieces.items ≡ copied_lines (copies_of front.items)) }
    ensures one { IfOk result (λ pieces. length pieces.items ≡ 1 → CanPlace pieces.items (L.lines list.now)
        × (placed pieces.items (L.lines list.now) ≡ drafted_at (L.lines list.now) front.items [])) }
{
    count(list, &front)?;
    let rows = Rows::of(alloc, &front)?;
    let mut pieces: Vec<Piece> = Vec::new(alloc);
    for stop in front {
        let from = stop.reached.used + stop.copy.kept;
        if stop.copy.kept == 0 && !pieces.is_empty() {
            let last = pieces.len() - 1;
            pieces[last].add(stop.copy)?;
        } else {
            let room = rows.length(pieces.len());
            pieces.push(piece_of(alloc, from, stop.copy, room)?)?;
        }
    }
    Ok(pieces)
}

/// Takes the marks of some numbers off the lines of a list.
pub fn take_marks<L: LineList>(list: &mut L, numbers: &[MarkNo])
    ensures lines { L.lines list.new ≡ freed (named numbers.now) (L.lines list.old) }
    ensures room { (count rows : ℕ) → L.has_room list.old count rows → L.has_room list.new count rows }
    ensures numbers { L.mark_room list.old ≤ L.mark_room list.new }
{
    // Of a line's marks the last goes first: so none stands behind it, and none moves.
    for index in (0..numbers.len()).rev() {
        list.take_mark(numbers[index]);
    }
}

/// Puts pieces in their places, from the last to the first.
pub fn place<L: LineList>(list: &mut L, pieces: Vec<Piece>)
    requires can { CanPlace pieces.items (L.lines list.old) }
    requires room { L.has_room list.old (lines_more pieces.items) (rows_more pieces.items) }
    requires numbers { All (λ (line : LineContent). NumbersBelow (L.mark_room list.old) line.marks)
        (piece_lines pieces.items) }
    ensures { L.lines list.new ≡ placed pieces.items (L.lines list.old) }
{
    let mut pieces = pieces;
    while let Some(piece) = pieces.pop() {
        list.splice(piece.from, piece.count, piece.lines);
    }
}

impl<'a, L: LineList> Draft<'a, L> {
    /// Goes on behind the last copy.
    pub fn forth_to_end(&mut self) -> Result<(), AllocError>
        requires { IsDraftIn L.lines self.old }
        ensures list { self.new.list.now ≡ self.old.list.now }
        ensures is { IsDraftIn L.lines self.new }
        ensures same { lines_in L.lines self.new ≡ lines_in L.lines self.old }
        ensures end { OnOk result (self.new.back.items ≡ []) }
    {
        while !self.back.is_empty() {
            let reached = self.reached();
            self.pass(reached)?;
        }
        Ok(())
    }
}
