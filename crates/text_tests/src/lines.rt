//! Lines by their calls: rows of steps, and what a line and a copy of it answer then.

ghost use Rattle.std.specs.Prelude.{◌<◌, ◌≤◌, length};

use crate::edits::{SLOTS, tags_of};
use crate::queries::{NONE, bits_of, number_of};
use segments::{InsertText, Line, LineEdit, RemoveRange, ResetToggles};
use std::alloc::{AllocError, Global};
use std::process::Abort;
use std::test::Fail;
use text_model::{Gravity, MarkNo, Place, TagSet, TagSlot, WORDS};
use toggle_sums::Sums;

// What is done to a line. A slot is one of `SLOTS`, by its index.
enum Step {
    Insert(usize, &'static str),
    Remove(usize, usize),
    // At a column, of a slot.
    SetToggle(usize, usize, bool),
    // At a column, of slots.
    Toggle(usize, &'static [u16]),
    // Of a slot, from one column to another.
    Clear(usize, usize, usize),
    PutMark(u16, usize, Gravity),
    TakeMark(u16),
    // The line is cut, and joined again.
    Part(usize),
    // The line is cut, and its head is kept.
    Head(usize),
    // The line is cut, and its tail is kept.
    Tail(usize),
}

// What is asked of a line at a column, of a mark, or of a slot by its index: two numbers.
#[derive(Clone, Copy)]
enum Query {
    // The bits of `SLOTS` that are toggled an odd number of times up to a column, and the same by a turn of no slots.
    Tags,
    // The last toggle of a slot before a column, and the next from it on.
    Toggles(usize),
    // Whether a slot is toggled an odd number of times, and whether it is toggled.
    Slot,
    // The last mark before a column, and the next from it on.
    MarksNear,
    // The first mark at a column, and the third; and the second and the fourth.
    First,
    Second,
    // Of the marks in order one by its index: the number and the column.
    Nth,
    // Where a mark is, and 1 if its gravity is right.
    Mark,
    // The characters and the marks, where there is one line.
    Sum,
    // The same of the sum of this line and itself, where no slot is odd in it.
    Twice,
}

type Answer = (usize, usize);

// A query, what it is asked at, and what is answered.
type Row = (Query, usize, Answer);

// Steps of a line, and what it is then.
struct Case {
    text: &'static str,
    steps: &'static [Step],
    wanted: &'static str,
    rows: &'static [Row],
}

// More than a few blocks of bytes, with characters of one to four of them across their ends.
const LONG: &str = "Zwölf Boxkämpfer jagen Viktor über den großen Deich 𐍈𐍈 και η αλεπού πηδά \
    素早い茶色の狐が犬を飛び越える and go on in ASCII alone";

static CASES: [Case; 15] = [
    Case {
        text: "",
        steps: &[Step::Part(0)],
        wanted: "",
        rows: &[
            (Query::Tags, 0, (0, 0)),
            (Query::Toggles(0), 0, (NONE, NONE)),
            (Query::MarksNear, 0, (NONE, NONE)),
            (Query::Sum, 0, (0, 0)),
            (Query::Slot, 3, (0, 0)),
        ],
    },
    Case {
        text: "abc",
        steps: &[Step::Insert(1, "X")],
        wanted: "aXbc",
        rows: &[(Query::Sum, 0, (4, 0))],
    },
    Case {
        text: "abc",
        steps: &[Step::Insert(1, "X"), Step::Remove(0, 1), Step::Part(2)],
        wanted: "Xbc",
        rows: &[(Query::Sum, 0, (3, 0))],
    },
    Case {
        text: "abc",
        steps: &[
            Step::Insert(3, "€𐍈"),
            Step::Insert(0, "é"),
            Step::Insert(2, ""),
            Step::Remove(1, 1),
            Step::Remove(5, 6),
        ],
        wanted: "éabc€",
        rows: &[(Query::Sum, 0, (5, 0))],
    },
    Case {
        text: LONG,
        steps: &[Step::Part(80)],
        wanted: LONG,
        rows: &[],
    },
    // A slot is toggled before the `é`, and two marks are after it.
    Case {
        text: "aé",
        steps: &[
            Step::SetToggle(1, 2, true),
            Step::PutMark(9, 2, Gravity::Left),
            Step::PutMark(3, 2, Gravity::Right),
        ],
        wanted: "aé",
        rows: &[
            (Query::Toggles(2), 0, (NONE, 1)),
            (Query::Toggles(2), 1, (NONE, 1)),
            (Query::Toggles(2), 2, (1, NONE)),
            (Query::Tags, 0, (0, 0)),
            (Query::Tags, 1, (4, 4)),
            (Query::Tags, 2, (4, 4)),
            (Query::First, 2, (3, NONE)),
            (Query::Second, 2, (9, NONE)),
            (Query::First, 0, (NONE, NONE)),
            (Query::Nth, 1, (9, 2)),
            (Query::Nth, 2, (NONE, NONE)),
            (Query::Mark, 3, (2, 1)),
            (Query::Mark, 9, (2, 0)),
            (Query::MarksNear, 0, (NONE, 2)),
            (Query::MarksNear, 2, (NONE, 2)),
            (Query::MarksNear, 3, (2, NONE)),
            (Query::Sum, 0, (2, 2)),
            (Query::Twice, 0, (4, 4)),
            (Query::Slot, 2, (1, 1)),
            (Query::Slot, 0, (0, 0)),
        ],
    },
    Case {
        text: "aé",
        steps: &[
            Step::SetToggle(1, 2, true),
            Step::PutMark(9, 2, Gravity::Left),
            Step::PutMark(3, 2, Gravity::Right),
            Step::Toggle(1, &[64]),
            Step::TakeMark(3),
        ],
        wanted: "aé",
        rows: &[
            (Query::Toggles(2), 0, (NONE, NONE)),
            (Query::First, 2, (9, NONE)),
            (Query::Mark, 3, (NONE, 0)),
            (Query::Sum, 0, (2, 1)),
        ],
    },
    // Marks of both gravities at an insertion, and in a range that is removed.
    Case {
        text: "abcd",
        steps: &[
            Step::PutMark(0, 2, Gravity::Left),
            Step::PutMark(1, 2, Gravity::Right),
            Step::PutMark(2, 4, Gravity::Left),
            Step::Insert(2, "é€"),
        ],
        wanted: "abé€cd",
        rows: &[
            (Query::Mark, 0, (2, 0)),
            (Query::Mark, 1, (4, 1)),
            (Query::Mark, 2, (6, 0)),
            (Query::MarksNear, 4, (2, 4)),
            (Query::MarksNear, 5, (4, 6)),
        ],
    },
    Case {
        text: "abcdef",
        steps: &[
            Step::PutMark(0, 2, Gravity::Left),
            Step::PutMark(1, 3, Gravity::Right),
            Step::PutMark(2, 6, Gravity::Left),
            Step::Remove(1, 4),
        ],
        wanted: "aef",
        rows: &[
            (Query::First, 1, (0, NONE)),
            (Query::Second, 1, (1, NONE)),
            (Query::Mark, 2, (3, 0)),
        ],
    },
    // Slots of two words are toggled before the `c`, and one of them before the `e`.
    Case {
        text: "abcde",
        steps: &[Step::Toggle(2, &[0, 1023]), Step::SetToggle(4, 0, true)],
        wanted: "abcde",
        rows: &[
            (Query::Tags, 1, (0, 0)),
            (Query::Tags, 2, (9, 9)),
            (Query::Tags, 4, (8, 8)),
            (Query::Slot, 0, (0, 1)),
            (Query::Slot, 3, (1, 1)),
            (Query::Toggles(0), 4, (2, 4)),
            (Query::Toggles(0), 5, (4, NONE)),
        ],
    },
    Case {
        text: "abcde",
        steps: &[
            Step::Toggle(2, &[0, 1023]),
            Step::SetToggle(4, 0, true),
            Step::Clear(0, 1, 3),
        ],
        wanted: "abcde",
        rows: &[(Query::Tags, 2, (8, 8)), (Query::Tags, 4, (9, 9))],
    },
    // The toggles of what is removed meet after it.
    Case {
        text: "abcde",
        steps: &[
            Step::Toggle(2, &[0, 1023]),
            Step::SetToggle(4, 0, true),
            Step::Remove(1, 4),
        ],
        wanted: "ae",
        rows: &[
            (Query::Toggles(0), 0, (NONE, NONE)),
            (Query::Toggles(3), 0, (NONE, 1)),
        ],
    },
    Case {
        text: "abcde",
        steps: &[
            Step::Toggle(2, &[0, 1023]),
            Step::SetToggle(4, 0, true),
            Step::Part(2),
        ],
        wanted: "abcde",
        rows: &[(Query::Tags, 2, (9, 9)), (Query::Tags, 4, (8, 8))],
    },
    Case {
        text: "abcde",
        steps: &[
            Step::Toggle(2, &[0, 1023]),
            Step::SetToggle(4, 0, true),
            Step::Head(2),
        ],
        wanted: "ab",
        rows: &[(Query::Tags, 2, (0, 0)), (Query::Slot, 0, (0, 0))],
    },
    Case {
        text: "abcde",
        steps: &[
            Step::Toggle(2, &[0, 1023]),
            Step::SetToggle(4, 0, true),
            Step::SetToggle(2, 3, true),
            Step::Tail(2),
            Step::SetToggle(1, 0, false),
        ],
        wanted: "cde",
        rows: &[(Query::Tags, 0, (9, 9)), (Query::Tags, 3, (8, 8))],
    },
];

// Cuts a line: the head stays in it.
fn part(line: &mut Line, step: &Step) -> Result<bool, AllocError> {
    match step {
        Step::Part(column) if *column <= line.len() => {
            let tail = line.cut(*column)?;
            Ok(line.join(tail).is_ok())
        }
        Step::Head(column) if *column <= line.len() => {
            line.cut(*column)?;
            Ok(true)
        }
        Step::Tail(column) if *column <= line.len() => {
            *line = line.cut(*column)?;
            Ok(true)
        }
        _ => Ok(false),
    }
}

fn mark(line: &mut Line, number: u16, offset: usize, gravity: Gravity) -> Result<bool, AllocError> {
    if line.len() < offset {
        return Ok(false);
    }
    line.put_mark(MarkNo(number), Place { offset, gravity })?;
    Ok(true)
}

// Changes the toggles at a column.
fn toggle(line: &mut Line, step: &Step) -> Result<bool, AllocError> {
    match step {
        Step::SetToggle(column, index, is_on) if *column < line.len() && *index < 4 => {
            line.set_toggle(*column, SLOTS[*index], *is_on)?;
        }
        Step::Toggle(column, [slot]) if *column < line.len() && *slot < TagSet::SLOTS => {
            line.toggle_slot(*column, TagSlot(*slot))?;
        }
        Step::Toggle(column, slots) if *column < line.len() => {
            line.toggle(*column, &tags_of(slots))?;
        }
        Step::Clear(index, from, to) if from <= to && *to <= line.len() && *index < 4 => {
            line.clear(SLOTS[*index], *from, *to);
        }
        _ => return Ok(false),
    }
    Ok(true)
}

// Carries out a step, if it fits the line.
fn carry_out(line: &mut Line, step: &Step) -> Result<bool, AllocError> {
    match step {
        Step::Insert(column, text) if *column <= line.len() => line.insert_text(*column, text)?,
        Step::Remove(from, to) if from <= to && *to <= line.len() => {
            line.remove_range(*from, *to)?;
        }
        Step::PutMark(number, offset, gravity) => return mark(line, *number, *offset, *gravity),
        Step::TakeMark(number) => line.take_mark(MarkNo(*number)),
        Step::SetToggle(_, _, _) | Step::Toggle(_, _) | Step::Clear(_, _, _) => {
            return toggle(line, step);
        }
        _ => return part(line, step),
    }
    Ok(true)
}

fn tags(line: &Line, column: usize) -> Answer
    requires { column ≤ length line.now.columns }
{
    let mut turned = TagSet::empty();
    line.turn_tags_before(column, &mut turned);
    (bits_of(&line.tags_before(column)), bits_of(&turned))
}

fn slot(line: &Line, index: usize) -> Answer
    requires { index < 4 }
{
    let mut turned = TagSet::empty();
    line.turn_odd_slots(&mut turned);
    let sum = line.sum();
    let slot = SLOTS[index];
    if sum.parity(slot) != turned.has(slot) || sum.has(slot) != line.has_toggle(slot) {
        return (NONE, NONE);
    }
    if line.is_odd(slot) != turned.has(slot) || line.is_odd_left_of(0, slot) {
        return (NONE, NONE);
    }
    (sum.parity(slot) as usize, sum.has(slot) as usize)
}

// The last of some before a column, and the next from it on.
fn near(previous: Option<usize>, next: Option<usize>) -> Answer {
    (previous.unwrap_or(NONE), next.unwrap_or(NONE))
}

fn toggles(line: &Line, index: usize, column: usize) -> Answer
    requires slot { index < 4 }
    requires within { column ≤ length line.now.columns }
{
    let slot = SLOTS[index];
    near(
        line.previous_toggle(column, slot),
        line.next_toggle(column, slot),
    )
}

fn marks_at(line: &Line, column: usize, index: usize) -> Answer {
    (
        number_of(line.mark_at(column, index)),
        number_of(line.mark_at(column, index.saturating_add(2))),
    )
}

// A mark by its number.
fn place(line: &Line, number: usize) -> Answer {
    match line.mark_place(MarkNo(number.min(100) as u16)) {
        Some(place) => (place.offset, (place.gravity == Gravity::Right) as usize),
        None => (NONE, 0),
    }
}

fn nth(line: &Line, index: usize) -> Answer {
    match line.mark(index) {
        Some((number, place)) => (number.0 as usize, place.offset),
        None => (NONE, NONE),
    }
}

fn counts(sum: &Sums<WORDS>, lines: usize) -> Option<Answer> {
    if sum.lines() != lines {
        return None;
    }
    Some((sum.characters(), sum.marks()))
}

// What is counted of the line twice.
fn twice(line: &Line) -> Option<Answer> {
    let mut sum = line.sum();
    if 1 < sum.lines() || 1_000 < sum.characters() || 1_000 < sum.marks() {
        return None;
    }
    line.add_to(&mut sum);
    let found = counts(&sum, 2);
    let is_even = sum.odd_slots().is_empty();
    sum = Sums::counting(0, 0, 0);
    line.sum_to(&mut sum);
    if !is_even || counts(&sum, 1) != counts(&line.sum(), 1) || sum.marks() != line.marks() {
        return None;
    }
    found
}

// What a line answers, where there is such a column.
fn ask(line: &Line, query: Query, at: usize) -> Option<Answer> {
    match query {
        Query::Tags if at <= line.len() => Some(tags(line, at)),
        Query::Toggles(index) if at <= line.len() && index < 4 => Some(toggles(line, index, at)),
        Query::Slot if at < 4 => Some(slot(line, at)),
        Query::MarksNear => Some(near(line.previous_mark(at), line.next_mark(at))),
        Query::First => Some(marks_at(line, at, 0)),
        Query::Second => Some(marks_at(line, at, 1)),
        Query::Nth => Some(nth(line, at)),
        Query::Mark => Some(place(line, at)),
        Query::Sum => counts(&line.sum(), 1),
        Query::Twice => twice(line),
        _ => None,
    }
}

fn check_rows(rt: &impl Abort, line: &Line, rows: &[Row]) {
    for (index, row) in rows.iter().enumerate() {
        assert!(rt; ask(line, row.0, row.1) == Some(row.2), "row {index}");
    }
}

fn check_characters(rt: &impl Abort, line: &Line, wanted: &str) {
    for (column, character) in wanted.chars().enumerate() {
        assert!(rt;
            column < line.len() && line.char_at(column) == character,
            "{column}"
        );
    }
}

// Whether a line has a text, of which one half is copied, and the other appended.
fn has_text(line: &Line, wanted: &str) -> Result<bool, AllocError> {
    let half = line.len() / 2;
    let mut text = line.copy_text(0, half)?;
    line.push_text(half, line.len(), &mut text)?;
    Ok(text.as_str() == wanted)
}

fn check_line(rt: &impl Abort, line: &Line, case: &Case) -> Result<(), AllocError> {
    check_rows(rt, line, case.rows);
    check_characters(rt, line, case.wanted);
    let has_text = has_text(line, case.wanted)?;
    assert!(rt; has_text, "{}", case.wanted);
    Ok(())
}

fn carry_out_all(rt: &impl Abort, line: &mut Line, steps: &[Step]) -> Result<(), AllocError> {
    for (index, step) in steps.iter().enumerate() {
        let is_done = carry_out(line, step)?;
        assert!(rt; is_done, "step {index}");
    }
    Ok(())
}

fn check_case(rt: &impl Abort, alloc: Global, case: &Case) -> Result<(), AllocError> {
    let mut line = Line::new(alloc, case.text)?;
    carry_out_all(rt, &mut line, case.steps)?;
    check_line(rt, &line, case)?;
    check_line(rt, &line.try_clone()?, case)
}

fn check_cases(rt: &impl Abort, alloc: Global, cases: &[Case]) -> Result<(), AllocError> {
    for case in cases {
        check_case(rt, alloc, case)?;
    }
    Ok(())
}

#[test]
fn lines_answer(rt: HostRuntime) -> Result<(), Fail> {
    check_cases(&rt, rt.alloc(), &CASES)?;
    Ok(())
}

// Makes each kind of edit of a line where it lies, and returns where a slot is toggled then.
fn edit_line(line: &mut Line) -> Result<Option<[bool; 3]>, AllocError> {
    if line.len() < 2 {
        return Ok(None);
    }
    InsertText {
        column: 2,
        text: "xy",
    }
    .make(line)?;
    if line.len() < 6 {
        return Ok(None);
    }
    RemoveRange { from: 0, to: 1 }.make(line)?;
    if line.len() < 4 {
        return Ok(None);
    }
    let edit = ResetToggles {
        slot: SLOTS[1],
        from: 1,
        to: 3,
        first: true,
        last: true,
    };
    edit.make(line)?;
    if line.len() < 4 {
        return Ok(None);
    }
    line.reset_toggles(SLOTS[2], 1, 3, false, false)?;
    if line.len() < 4 {
        return Ok(None);
    }
    Ok(Some([line.is_toggled(1), line.is_toggled(2), line.is_toggled(3)]))
}

#[test]
fn a_line_is_edited_where_it_lies(rt: HostRuntime) -> Result<(), Fail> {
    let mut line = Line::new(rt.alloc(), "abcd\n")?;
    let toggled = edit_line(&mut line)?;
    assert!(&rt; toggled == Some([true, false, true]));
    let has_text = has_text(&line, "bxycd\n")?;
    assert!(&rt; has_text);
    Ok(())
}

// Besides its text.
#[test]
fn a_plain_line_is_small(rt: HostRuntime) {
    assert!(&rt; std::mem::size_of::<Line>() <= 96);
}
