//! Histories of edits by their calls: groups, the limit, what counts as modified.

use std::alloc::Global;
use std::process::Abort;
use std::test::Fail;
use text_model::Text;
use undo_stack::{Action, EditKind, Group, UndoStack};

// What is done to a history, or what it has then.
enum HistoryStep {
    // an insertion is noted, which begins a group if the last one takes no more
    Note(&'static str),
    Separate,
    Undo,
    Redo,
    Reset,
    // so many groups are kept at most
    Limit(i32),
    // the text counts as unmodified from here on
    Save,
    // the texts of the groups that undo and redo would move, and whether the text is modified
    Has(&'static str, &'static str, bool),
}

static STEPS: [HistoryStep; 23] = [
    HistoryStep::Has("", "", false),
    HistoryStep::Note("a"),
    HistoryStep::Note("b"),
    HistoryStep::Separate,
    HistoryStep::Note("c"),
    HistoryStep::Has("c", "", true),
    HistoryStep::Undo,
    HistoryStep::Has("ab", "c", true),
    HistoryStep::Save,
    HistoryStep::Has("ab", "c", false),
    HistoryStep::Undo,
    HistoryStep::Has("", "ab", true),
    HistoryStep::Redo,
    HistoryStep::Has("ab", "c", false),
    HistoryStep::Redo,
    HistoryStep::Has("c", "", true),
    HistoryStep::Limit(1),
    HistoryStep::Undo,
    HistoryStep::Has("", "c", false),
    HistoryStep::Note("d"),
    HistoryStep::Has("d", "", true),
    HistoryStep::Reset,
    HistoryStep::Has("", "", true),
];

fn note(alloc: Global, history: &mut UndoStack, text: &str) -> Result<(), Fail> {
    history.reserve(1)?;
    let action = Action {
        inserts: true,
        at: 0,
        text: Text::new(String::from_str(alloc, text)?),
    };
    history.note(EditKind::Insert, action, true, false);
    Ok(())
}

// The texts of a group in a row; none of no group.
fn texts_of(alloc: Global, group: Option<Group<'_>>) -> Result<String, Fail> {
    let mut texts = String::new(alloc);
    if let Some(group) = group {
        for index in 0..group.len() {
            texts.push_str(group.action(index).text.as_str())?;
        }
    }
    Ok(texts)
}

// Whether these are the texts of the groups that undo and redo would move.
fn has(alloc: Global, history: &UndoStack, undo: &str, redo: &str) -> Result<bool, Fail> {
    let undone = texts_of(alloc, history.last_undo())?;
    let redone = texts_of(alloc, history.last_redo())?;
    Ok(undone.as_str() == undo && redone.as_str() == redo)
}

// Carries out a step. Returns whether what the step says holds.
fn carry_out(alloc: Global, history: &mut UndoStack, step: &HistoryStep) -> Result<bool, Fail> {
    match step {
        HistoryStep::Note(text) => note(alloc, history, text)?,
        HistoryStep::Separate => history.separator(),
        HistoryStep::Undo => history.take_undo()?,
        HistoryStep::Redo => history.take_redo()?,
        HistoryStep::Reset => history.reset(),
        HistoryStep::Limit(most) => history.set_limit(*most),
        HistoryStep::Save => history.set_modified(false),
        HistoryStep::Has(undo, redo, modified) => {
            return Ok(has(alloc, history, undo, redo)? && history.modified() == *modified);
        }
    }
    Ok(true)
}

fn carry_out_all(
    rt: &impl Abort,
    alloc: Global,
    history: &mut UndoStack,
    steps: &[HistoryStep],
) -> Result<(), Fail> {
    for (index, step) in steps.iter().enumerate() {
        let holds = carry_out(alloc, history, step)?;
        assert!(rt; holds, "step {index}");
    }
    Ok(())
}

#[test]
fn groups_are_undone_and_redone(rt: HostRuntime) -> Result<(), Fail> {
    let mut history = UndoStack::new(rt.alloc());
    carry_out_all(&rt, rt.alloc(), &mut history, &STEPS)
}

// Room is given back, and an action is noted all the same.
fn check_room(rt: &impl Abort, alloc: Global, history: &mut UndoStack) -> Result<(), Fail> {
    history.reserve(1_000)?;
    history.give_back_room();
    note(alloc, history, "a")?;
    history.give_back_room();
    assert!(rt; history.last_undo().is_some());
    Ok(())
}

#[test]
fn room_that_is_given_back_is_found_again(rt: HostRuntime) -> Result<(), Fail> {
    let mut history = UndoStack::new(rt.alloc());
    check_room(&rt, rt.alloc(), &mut history)
}
