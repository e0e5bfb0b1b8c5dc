//! A text store over any list of lines: prepares an edit as a change of the list, then commits it.

ghost use Rattle.std.specs.Prelude.{◌≡◌, ◌≢◌, ◌≤◌, List, [], IfOk, IfSome, OnOk, length, map};
ghost use Rattle.text_model.specs.Steps.{Fits, after};
ghost use Rattle.text_model.specs.declared.edits.Step.TheVariants.{TakeMark};
ghost use Rattle.segments.specs.Columns.{LineContent};
ghost use Rattle.line_lists.specs.Drafts.{IsText, text_at};
ghost use Rattle.line_lists.specs.Changes.{CanChange, IsChangeReady, IsLineReady, lines_changed, outcome_of};
ghost use Rattle.line_lists.specs.Pieces.{CanMake, IsReady, content_made, named, numbers_in, piece_lines};
ghost use Rattle.line_lists.specs.Texts.{content_of, text_of};

use crate::drafts::{Draft, Stop};
use crate::line_changes::{LineChange, line_change, put_line};
use crate::lists::LineList;
use crate::pieces::{
    Growth, Piece, bound_of, bound_with, count_line, growth_of, numbers_brought, pieces_of, place,
    take_marks,
};
use crate::{queries, within};
use std::alloc::{AllocError, Global};
use text_model::{CharacterTest, Edit, LineSpan, MarkNo, Place, Step, TagSet, TagSlot, TextStore};

/// A text that is kept as a list of lines.
#[derive(Drop)]
pub struct LineStore<L: LineList> {
    alloc: Global,
    list: L,
}

/// Pieces that come in the places of lines.
#[derive(Drop)]
pub struct PieceChange {
    /// The marks that are taken off the list before the pieces come in.
    pub taken: Vec<MarkNo>,
    pub pieces: Vec<Piece>,
    /// What the pieces bring.
    pub growth: Growth,
    /// A number above those of all marks in these lines.
    pub bound: usize,
}

/// What an edit makes of a list of lines.
#[derive(Drop)]
pub enum Change {
    /// One line comes in the place of another.
    Line(LineChange),
    /// Lines come in the places of others.
    Pieces(PieceChange),
}

/// Of the numbers of all marks that pieces bring, those that are taken off the list before. A mark that goes from one
/// piece to another would stand twice while they come in one by one; one piece brings no such mark.
fn taken_before(alloc: Global, pieces: &[Piece]) -> Result<Vec<MarkNo>, AllocError>
    ensures one { length pieces.now ≡ 1 → IfOk result (λ taken. taken.items ≡ []) }
    ensures other { length pieces.now ≢ 1 →
        IfOk result (λ taken. named taken.items ≡ numbers_in (piece_lines pieces.now)) }
{
    if pieces.len() == 1 {
        Ok(Vec::new(alloc))
    } else {
        numbers_brought(alloc, pieces)
    }
}

/// What copies of lines of a list, in order, make of it.
fn change_of<L: LineList>(
    alloc: Global,
    list: &L,
    front: Vec<Stop>,
) -> Result<PieceChange, AllocError>
    requires { IsText (L.lines list.now) front.items [] }
    ensures can { IfOk result (CanMake (L.lines list.now)) }
    ensures new { IfOk result (λ change. content_made change (L.lines list.now)
        ≡ text_of (text_at (L.lines list.now) front.items [])) }
{
    let bound = bound_of(&front);
    let pieces = pieces_of(alloc, list, front)?;
    Ok(PieceChange {
        taken: taken_before(alloc, &pieces)?,
        growth: growth_of(&pieces)?,
        pieces,
        bound,
    })
}

/// The numbers of the marks that steps take away, if they do nothing else.
pub fn lone_takes(alloc: Global, steps: &[Step]) -> Result<Option<Vec<MarkNo>>, AllocError>
    ensures { IfOk result (λ found.
        IfSome found (λ numbers. steps.now ≡ map (λ number. TakeMark number) numbers.items)) }
{
    let mut numbers = Vec::new(alloc);
    for step in steps {
        let Step::TakeMark(number) = step else {
            return Ok(None);
        };
        numbers.push(*number)?;
    }
    Ok(Some(numbers))
}

/// What it makes of any list of lines that marks are taken away.
fn change_by_taking(alloc: Global, numbers: Vec<MarkNo>) -> PieceChange
    ensures can { (lines : List LineContent) → CanMake lines result }
    ensures new { (lines : List LineContent) → content_made result lines
        ≡ after (map (λ number. TakeMark number) numbers.items) (content_of lines) }
{
    PieceChange {
        taken: numbers,
        pieces: Vec::new(alloc),
        growth: Growth { lines: 0, rows: 0 },
        bound: 0,
    }
}

/// What steps make of one line of a list, which stays as it is, where there is one step, which changes that line alone.
fn lone_change<L: LineList>(list: &mut L, steps: &[Step]) -> Result<Option<LineChange>, AllocError>
    requires { Fits steps.now (content_of (L.lines list.old)) }
    ensures same { L.lines list.new ≡ L.lines list.old }
    ensures can { IfOk result (λ found. IfSome found (CanChange (L.lines list.old))) }
    ensures new { IfOk result (λ found. IfSome found (λ change.
        content_of (lines_changed change (L.lines list.old)) ≡ after steps.now (content_of (L.lines list.old)))) }
{
    let [step] = steps else {
        return Ok(None);
    };
    let Some(change) = line_change(list, step)? else {
        return Ok(None);
    };
    count_line(list, &change.line)?;
    Ok(Some(change))
}

/// What steps make of pieces of a list of lines, which stays as it is.
fn pieces_by<L: LineList>(
    alloc: Global,
    list: &L,
    steps: &[Step],
) -> Result<PieceChange, AllocError>
    requires { Fits steps.now (content_of (L.lines list.now)) }
    ensures can { IfOk result (CanMake (L.lines list.now)) }
    ensures new { IfOk result (λ change. content_made change (L.lines list.now)
        ≡ after steps.now (content_of (L.lines list.now))) }
{
    if let Some(numbers) = lone_takes(alloc, steps)? {
        return Ok(change_by_taking(alloc, numbers));
    }
    let mut draft = Draft::new(alloc, list);
    draft.make_steps(steps, queries::len(list))?;
    draft.forth_to_end()?;
    change_of(alloc, list, draft.front)
}

/// The same of steps that go, with their texts, before the pieces are made.
fn pieces_by_owned<L: LineList>(
    alloc: Global,
    list: &L,
    steps: Vec<Step>,
) -> Result<PieceChange, AllocError>
    requires { Fits steps.items (content_of (L.lines list.now)) }
    ensures can { IfOk result (CanMake (L.lines list.now)) }
    ensures new { IfOk result (λ change. content_made change (L.lines list.now)
        ≡ after steps.items (content_of (L.lines list.now))) }
{
    if let Some(numbers) = lone_takes(alloc, &steps)? {
        return Ok(change_by_taking(alloc, numbers));
    }
    let mut draft = Draft::new(alloc, list);
    draft.make_steps(&steps, queries::len(list))?;
    drop(steps);
    draft.forth_to_end()?;
    change_of(alloc, list, draft.front)
}

impl<L: LineList> LineStore<L> {
    /// The list of the lines, lent.
    pub fn list(&self) -> &L
        ensures lines { content_of (L.lines result.now) ≡ content_of (L.lines self.now.list) }
    {
        &self.list
    }

    /// Reserves what a change takes; where that is refused, all that was reserved goes back.
    fn reserve(&mut self, growth: Growth, bound: usize) -> Result<(), AllocError>
        ensures same { L.lines self.new.list ≡ L.lines self.old.list }
        ensures room { OnOk result (L.has_room self.new.list growth.lines growth.rows) }
        ensures numbers { OnOk result (bound ≤ L.mark_room self.new.list) }
    {
        let reserved = self.list.reserve(growth.lines, growth.rows, bound);
        if reserved.is_err() {
            self.list.free_room();
        }
        reserved
    }

    /// Reserves what one changed line takes.
    fn reserve_line(&mut self, change: &LineChange) -> Result<(), AllocError>
        requires { CanChange (L.lines self.old.list) change.now }
        ensures same { L.lines self.new.list ≡ L.lines self.old.list }
        ensures ready { OnOk result (IsLineReady (L.lines self.new.list) (L.mark_room self.new.list) change.now) }
    {
        let growth = Growth { lines: 0, rows: 0 };
        self.reserve(growth, bound_with(0, &change.line))
    }

    /// Reserves what pieces take.
    fn reserve_pieces(&mut self, change: &PieceChange) -> Result<(), AllocError>
        requires { CanMake (L.lines self.old.list) change.now }
        ensures same { L.lines self.new.list ≡ L.lines self.old.list }
        ensures ready { OnOk result (IsReady (L.lines self.new.list) (L.has_room self.new.list)
            (L.mark_room self.new.list) (named change.now.taken.items) change.now.pieces.items) }
    {
        self.reserve(change.growth, change.bound)
    }
}

impl<L: LineList> TextStore for LineStore<L> {
    type Prepared = Change;

    ghost content = { λ store. content_of (L.lines store.list) };

    ghost ready = { λ store change.
        IsChangeReady (L.lines store.list) (L.has_room store.list) (L.mark_room store.list) change };

    ghost outcome = { λ store change. outcome_of change (L.lines store.list) };

    fn new(alloc: Global) -> Result<LineStore<L>, AllocError> {
        Ok(LineStore {
            alloc,
            list: L::new(alloc)?,
        })
    }

    fn len(&self) -> usize {
        queries::len(&self.list)
    }

    fn lines(&self) -> usize {
        queries::lines(&self.list)
    }

    fn line_start(&self, line: usize) -> usize {
        queries::line_start(&self.list, line)
    }

    fn line_of(&self, offset: usize) -> usize {
        queries::line_of(&self.list, offset)
    }

    fn line_at(&self, offset: usize) -> LineSpan {
        queries::line_at(&self.list, offset)
    }

    fn line_bounds(&self, line: usize) -> (usize, usize) {
        queries::line_bounds(&self.list, line)
    }

    fn char_at(&self, offset: usize) -> char {
        queries::char_at(&self.list, offset)
    }

    fn run_end<T: CharacterTest>(&self, offset: usize) -> usize {
        queries::run_end::<L, T>(&self.list, offset)
    }

    fn run_start<T: CharacterTest>(&self, offset: usize) -> usize {
        queries::run_start::<L, T>(&self.list, offset)
    }

    fn has_tag(&self, offset: usize, slot: TagSlot) -> bool {
        queries::has_tag(&self.list, offset, slot)
    }

    fn tags_at(&self, offset: usize) -> TagSet {
        queries::tags_at(&self.list, offset)
    }

    fn tags_around(&self, offset: usize) -> (TagSet, TagSet) {
        queries::tags_around(&self.list, offset)
    }

    fn next_change(&self, offset: usize, slot: TagSlot) -> usize {
        queries::next_change(&self.list, offset, slot)
    }

    fn previous_change(&self, offset: usize, slot: TagSlot) -> usize {
        queries::previous_change(&self.list, offset, slot)
    }

    fn mark_place(&self, number: MarkNo) -> Option<Place> {
        queries::mark_place(&self.list, number)
    }

    fn next_mark(&self, offset: usize) -> Option<usize> {
        queries::next_mark(&self.list, offset)
    }

    fn previous_mark(&self, offset: usize) -> Option<usize> {
        queries::previous_mark(&self.list, offset)
    }

    fn mark_at(&self, offset: usize, index: usize) -> Option<MarkNo> {
        queries::mark_at(&self.list, offset, index)
    }

    fn copy_text(&self, start: usize, end: usize) -> Result<String, AllocError> {
        queries::copy_text(&self.list, start, end)
    }

    fn seek_line(&mut self, line: usize) {
        self.list.seek_line(line);
    }

    fn put_within(&mut self, at: usize, text: &str) -> Result<bool, AllocError> {
        within::put_within(&mut self.list, at, text)
    }

    fn take_within(&mut self, from: usize, to: usize) -> Result<bool, AllocError> {
        within::take_within(&mut self.list, from, to)
    }

    fn tag_within(
        &mut self,
        from: usize,
        to: usize,
        slot: TagSlot,
        is_on: bool,
    ) -> Result<bool, AllocError> {
        within::tag_within(&mut self.list, from, to, slot, is_on)
    }

    fn move_mark(&mut self, number: MarkNo, place: Place) -> Result<bool, AllocError> {
        within::move_mark(&mut self.list, number, place)
    }

    fn prepare(&mut self, edit: &Edit) -> Result<Change, AllocError> {
        let steps = edit.steps.as_slice();
        if let Some(change) = lone_change(&mut self.list, steps)? {
            self.reserve_line(&change)?;
            return Ok(Change::Line(change));
        }
        let change = pieces_by(self.alloc, &self.list, steps)?;
        self.reserve_pieces(&change)?;
        Ok(Change::Pieces(change))
    }

    fn prepare_owned(&mut self, edit: Edit) -> Result<Change, AllocError> {
        let steps = edit.steps.into_vec();
        if let Some(change) = lone_change(&mut self.list, &steps)? {
            self.reserve_line(&change)?;
            return Ok(Change::Line(change));
        }
        let change = pieces_by_owned(self.alloc, &self.list, steps)?;
        self.reserve_pieces(&change)?;
        Ok(Change::Pieces(change))
    }

    fn commit(&mut self, change: Change) {
        match change {
            Change::Line(change) => put_line(&mut self.list, change),
            Change::Pieces(change) => {
                take_marks(&mut self.list, &change.taken);
                place(&mut self.list, change.pieces);
            }
        }
        // What these lines didn't need of the room that was reserved for them, and what is left of lines that went.
        self.list.free_room();
    }
}
