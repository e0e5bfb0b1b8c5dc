//! The numbers of marks over many commands.

use mark_table::MarkTable;
use std::alloc::Global;
use std::process::Abort;
use std::test::Fail;
use text_model::{Gravity, Limits, MarkNo};

// What is done to a table of marks, and what holds then.
enum MarkStep {
    Create(&'static str),
    Unset(&'static str),
    // the mark that stands last has this number
    HasNumber(&'static str, u16),
    IsNoNumber(u16),
}

// Whether a name is new, and is found once it is created.
fn creates(alloc: Global, marks: &mut MarkTable, name: &str) -> Result<bool, Fail> {
    if marks.find(name).is_some() {
        return Ok(false);
    }
    let created = marks.create(String::from_str(alloc, name)?)?;
    Ok(created.is_some() && created == marks.find(name))
}

fn is_last(marks: &MarkTable, name: &str, number: MarkNo) -> bool {
    let len = marks.len();
    len > 0
        && marks.name(len - 1) == name
        && marks.number(len - 1) == number
        && marks.find(name) == Some(number)
        && marks.place(number) == Some(len - 1)
        && marks.gravity(name) == Ok(Gravity::Right)
}

// Carries out a step. Returns whether what the step says holds.
fn carry_out(alloc: Global, marks: &mut MarkTable, step: &MarkStep) -> Result<bool, Fail> {
    match step {
        MarkStep::Create(name) => creates(alloc, marks, name),
        MarkStep::Unset(name) => {
            marks.unset(name);
            Ok(true)
        }
        MarkStep::HasNumber(name, number) => Ok(is_last(marks, name, MarkNo(*number))),
        MarkStep::IsNoNumber(number) => Ok(marks.place(MarkNo(*number)).is_none()),
    }
}

static STEPS: [MarkStep; 13] = [
    MarkStep::Create("a"),
    MarkStep::HasNumber("a", 128),
    MarkStep::Create(""),
    MarkStep::HasNumber("", 129),
    MarkStep::Create("c d"),
    MarkStep::HasNumber("c d", 130),
    MarkStep::Unset("e"),
    MarkStep::Unset("a"),
    MarkStep::IsNoNumber(128),
    MarkStep::IsNoNumber(1),
    MarkStep::IsNoNumber(u16::MAX),
    MarkStep::Create("e"),
    MarkStep::HasNumber("e", 128),
];

fn carry_out_all(
    rt: &impl Abort,
    alloc: Global,
    marks: &mut MarkTable,
    steps: &[MarkStep],
) -> Result<(), Fail> {
    for (index, step) in steps.iter().enumerate() {
        let holds = carry_out(alloc, marks, step)?;
        assert!(rt; holds, "step {index}");
    }
    Ok(())
}

// A table of at most `marks` marks.
fn table_of(alloc: Global, marks: u16) -> Result<MarkTable, Fail> {
    let limits = Limits::new(10, 10, marks, 10, 10).ok_or("numbers in their bounds")?;
    Ok(MarkTable::new(alloc, &limits)?)
}

#[test]
fn numbers_are_taken_again(rt: HostRuntime) -> Result<(), Fail> {
    let mut marks = table_of(rt.alloc(), 10)?;
    carry_out_all(&rt, rt.alloc(), &mut marks, &STEPS)
}

fn name_of(alloc: Global, number: u16) -> Result<String, Fail> {
    Ok(format!(in alloc; "mark {number}")?)
}

fn create_many(rt: &impl Abort, alloc: Global, marks: &mut MarkTable) -> Result<(), Fail> {
    for number in 0..MANY {
        let is_created = creates(alloc, marks, name_of(alloc, number)?.as_str())?;
        assert!(rt; is_created, "{number}");
    }
    Ok(())
}

fn unset_many(alloc: Global, marks: &mut MarkTable) -> Result<(), Fail> {
    for number in 0..MANY {
        marks.unset(name_of(alloc, number)?.as_str());
    }
    Ok(())
}

const MANY: u16 = 1_000;

static AFTER_MANY: [MarkStep; 5] = [
    MarkStep::Create("a"),
    MarkStep::HasNumber("a", 128),
    MarkStep::Create("b"),
    MarkStep::HasNumber("b", 129),
    MarkStep::IsNoNumber(130),
];

fn check_many(rt: &impl Abort, alloc: Global, marks: &mut MarkTable) -> Result<(), Fail> {
    create_many(rt, alloc, marks)?;
    unset_many(alloc, marks)?;
    carry_out_all(rt, alloc, marks, &AFTER_MANY)
}

#[test]
fn many_marks_come_and_go(rt: HostRuntime) -> Result<(), Fail> {
    let mut marks = table_of(rt.alloc(), MANY)?;
    check_many(&rt, rt.alloc(), &mut marks)
}
