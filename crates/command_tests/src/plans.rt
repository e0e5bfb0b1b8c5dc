//! Plans of edits by their calls, and the delta of an undo.

ghost use Rattle.std.specs.Prelude.{◌≡◌, ◌<◌, ◌≤◌, length, IfOk, OnOk};
ghost use Rattle.edit_ops.specs.Keeping.{IsKept};
ghost use Rattle.edit_ops.specs.States.{state_in};
ghost use Rattle.undo_stack.specs.History.{no_history};
ghost use Rattle.command_tests.specs.declared.plans.TheConstants.{RECORDING};

use crate::scenes::{limits, store_with};
use crate::told::are;
use edit_ops::{
    Delta, EditFault, EditRules, EditedText, Recording, SlotRun, SlottedText, Span, Target,
    anchors_stand, commit, delete_within, insert_within, plan_clear, plan_delete, plan_insert,
    plan_redo, plan_replace, plan_tag, plan_undo,
};
use std::alloc::{AllocError, Global};
use std::process::Abort;
use std::test::Fail;
use text_model::{Limits, MarkNo, PlainStore, TagSet, TagSlot, Text, TextStore};
use undo_stack::UndoStack;

const RECORDING: Recording = Recording {
    undo: true,
    separators: true,
};

// The slot that is set.
const SLOT: TagSlot = TagSlot(70);

// `one two`, without a history, which no widget shows a part of.
fn edited<S: TextStore>(alloc: Global) -> Result<EditedText<S>, AllocError>
    ensures { IfOk result (λ text. text.history.history ≡ no_history) }
{
    edited_with(alloc, TagSet::empty())
}

// The same, where each character of the two words has some slots.
fn edited_with<S: TextStore>(alloc: Global, slots: TagSet) -> Result<EditedText<S>, AllocError>
    ensures { IfOk result (λ text. text.history.history ≡ no_history) }
{
    Ok(EditedText {
        store: store_with(alloc, "one two", slots)?,
        history: UndoStack::new(alloc),
        anchors: Vec::new(alloc),
    })
}

// A text that gets the slots of those on both sides.
fn piece(alloc: Global, text: &str) -> Result<Vec<SlottedText>, AllocError> {
    let mut pieces = Vec::new(alloc);
    pieces.push(SlottedText {
        text: Text::new(String::from_str(alloc, text)?),
        slots: None,
    })?;
    Ok(pieces)
}

fn holds<S: TextStore>(rt: &impl Abort, text: &EditedText<S>, wanted: &str) -> Result<(), Fail> {
    let found = text.store.copy_text(0, text.store.len())?;
    assert!(rt; found.as_str() == wanted, "{found}");
    Ok(())
}

// Inserts a text before `two`.
fn insert<S: TextStore>(
    rt: &impl Abort,
    alloc: Global,
    limits: &Limits,
    text: &mut EditedText<S>,
) -> Result<(), Fail>
    requires { 4 < length (S.content text.old.store).cells }
    ensures { OnOk result (IsKept limits.now.chars RECORDING (state_in S.content text.old) →
        IsKept limits.now.chars RECORDING (state_in S.content text.new)) }
{
    assert!(rt; anchors_stand(&text.anchors, text.store.len()));
    let rules = EditRules {
        alloc,
        limits,
        recording: RECORDING,
        follows: false,
    };
    let plan = plan_insert(&rules, text, 4, piece(alloc, "x ")?)?;
    commit(plan, text);
    Ok(())
}

// Whether a plan knows its delta, which has these hunks.
fn knows(delta: &Option<Box<Delta>>, hunks: &[(usize, usize, &str)]) -> bool {
    match delta {
        None => false,
        Some(delta) => are(&delta.hunks, hunks),
    }
}

// Two spans are removed.
fn check_delete<S: TextStore>(
    rt: &impl Abort,
    alloc: Global,
    limits: &Limits,
    text: &mut EditedText<S>,
) -> Result<(), Fail> {
    let end = text.store.len();
    assert!(rt; 8 <= end);
    let spans = [Span { from: 4, to: 8 }, Span { from: 0, to: 1 }];
    let rules = EditRules {
        alloc,
        limits,
        recording: RECORDING,
        follows: true,
    };
    let plan = plan_delete(&rules, text, 0, end, &spans)?;
    assert!(rt; knows(&plan.delta, &[(0, 1, ""), (4, 7, "")]));
    commit(plan, text);
    holds(rt, text, "ne \n")
}

#[test]
fn spans_are_removed(rt: HostRuntime) -> Result<(), Fail> {
    let limits = limits()?;
    let mut text = edited::<PlainStore>(rt.alloc())?;
    check_delete(&rt, rt.alloc(), &limits, &mut text)
}

// A text is inserted before `two` and deleted again, if the store makes such an edit at once; otherwise the text stays.
fn check_within<S: TextStore>(
    rt: &impl Abort,
    alloc: Global,
    limits: &Limits,
    text: &mut EditedText<S>,
    made: bool,
) -> Result<(), Fail> {
    let end = text.store.len();
    assert!(rt; 4 < end && anchors_stand(&text.anchors, end));
    let rules = EditRules {
        alloc,
        limits,
        recording: RECORDING,
        follows: false,
    };
    assert!(rt; insert_within(&rules, text, 4, "x ")? == made);
    holds(rt, text, if made { "one x two\n" } else { "one two\n" })?;
    let end = text.store.len();
    assert!(rt; delete_within(&rules, text, end, Span { from: 4, to: 6 })? == made);
    holds(rt, text, "one two\n")
}

#[test]
fn a_plain_store_makes_no_edit_at_once(rt: HostRuntime) -> Result<(), Fail> {
    let limits = limits()?;
    let mut text = edited::<PlainStore>(rt.alloc())?;
    check_within(&rt, rt.alloc(), &limits, &mut text, false)
}

// A text comes in the place of `one`.
fn check_replace<S: TextStore>(
    rt: &impl Abort,
    alloc: Global,
    limits: &Limits,
    text: &mut EditedText<S>,
) -> Result<(), Fail> {
    assert!(rt; 7 < text.store.len() && anchors_stand(&text.anchors, text.store.len()));
    let rules = EditRules {
        alloc,
        limits,
        recording: RECORDING,
        follows: true,
    };
    let target = Target {
        last: 7,
        from: 0,
        to: 3,
        mark: MarkNo(0),
    };
    let plan = plan_replace(&rules, text, target, piece(alloc, "1")?)?;
    assert!(rt; knows(&plan.delta, &[(0, 3, "1")]));
    commit(plan, text);
    holds(rt, text, "1 two\n")
}

#[test]
fn a_text_is_replaced(rt: HostRuntime) -> Result<(), Fail> {
    let limits = limits()?;
    let mut text = edited::<PlainStore>(rt.alloc())?;
    check_replace(&rt, rt.alloc(), &limits, &mut text)
}

// Whether the first character has the tag, and the last one.
fn tagged<S: TextStore>(rt: &impl Abort, text: &EditedText<S>) -> (bool, bool) {
    assert!(rt; 8 <= text.store.len());
    (text.store.has_tag(0, SLOT), text.store.has_tag(7, SLOT))
}

fn check_tag<S: TextStore>(
    rt: &impl Abort,
    alloc: Global,
    text: &mut EditedText<S>,
) -> Result<(), Fail> {
    assert!(rt; 8 <= text.store.len());
    let plan = plan_tag(alloc, text, &[Span { from: 5, to: 8 }], SLOT, true)?;
    commit(plan, text);
    assert!(rt; tagged(rt, text) == (false, true));
    Ok(())
}

fn check_clear<S: TextStore>(
    rt: &impl Abort,
    alloc: Global,
    text: &mut EditedText<S>,
) -> Result<(), Fail> {
    let plan = plan_clear(alloc, text, &[SLOT])?;
    commit(plan, text);
    assert!(rt; tagged(rt, text) == (false, false));
    Ok(())
}

#[test]
fn a_tag_is_added_and_cleared(rt: HostRuntime) -> Result<(), Fail> {
    let mut text = edited::<PlainStore>(rt.alloc())?;
    check_tag(&rt, rt.alloc(), &mut text)?;
    check_clear(&rt, rt.alloc(), &mut text)
}

// Reverts the last group; a mark that isn't there stays away.
fn undo<S: TextStore>(
    rt: &impl Abort,
    alloc: Global,
    limits: &Limits,
    text: &mut EditedText<S>,
) -> Result<(), Fail>
    requires { IsKept limits.now.chars RECORDING (state_in S.content text.old) }
    ensures { OnOk result (IsKept limits.now.chars RECORDING (state_in S.content text.new)) }
{
    assert!(rt; anchors_stand(&text.anchors, text.store.len()));
    let rules = EditRules {
        alloc,
        limits,
        recording: RECORDING,
        follows: false,
    };
    let plan = plan_undo(&rules, text, MarkNo(0))?.expect(rt, "a group to undo");
    commit(plan, text);
    Ok(())
}

// Makes the group that was undone last once more.
fn redo<S: TextStore>(
    rt: &impl Abort,
    alloc: Global,
    limits: &Limits,
    text: &mut EditedText<S>,
) -> Result<(), Fail>
    requires { IsKept limits.now.chars RECORDING (state_in S.content text.old) }
    ensures { OnOk result (IsKept limits.now.chars RECORDING (state_in S.content text.new)) }
{
    assert!(rt; anchors_stand(&text.anchors, text.store.len()));
    let rules = EditRules {
        alloc,
        limits,
        recording: RECORDING,
        follows: false,
    };
    let plan = plan_redo(&rules, text, MarkNo(0))?.expect(rt, "a group to redo");
    commit(plan, text);
    Ok(())
}

// An insertion is made, reverted, and made again.
fn check_undo<S: TextStore>(
    rt: &impl Abort,
    alloc: Global,
    limits: &Limits,
    text: &mut EditedText<S>,
) -> Result<(), Fail>
    requires { text.old.history.history ≡ no_history }
{
    assert!(rt; 4 < text.store.len() && text.store.len() <= limits.chars());
    insert(rt, alloc, limits, text)?;
    holds(rt, text, "one x two\n")?;
    undo(rt, alloc, limits, text)?;
    holds(rt, text, "one two\n")?;
    redo(rt, alloc, limits, text)?;
    holds(rt, text, "one x two\n")
}

#[test]
fn an_edit_is_undone_and_redone(rt: HostRuntime) -> Result<(), Fail> {
    let limits = limits()?;
    let mut text = edited::<PlainStore>(rt.alloc())?;
    check_undo(&rt, rt.alloc(), &limits, &mut text)
}

// What the plan that reverts the last group knows of the text, where its caller follows.
fn undo_delta<S: TextStore>(
    rt: &impl Abort,
    alloc: Global,
    limits: &Limits,
    text: &mut EditedText<S>,
) -> Result<Option<Box<Delta>>, Fail>
    requires { IsKept limits.now.chars RECORDING (state_in S.content text.old) }
{
    assert!(rt; anchors_stand(&text.anchors, text.store.len()));
    let rules = EditRules {
        alloc,
        limits,
        recording: RECORDING,
        follows: true,
    };
    let mut plan = plan_undo(&rules, text, MarkNo(0))?.expect(rt, "a group to undo");
    Ok(plan.delta.take())
}

// Whether the characters from 4 to 6 alone get slots, and the one that is set among these.
fn gets_slot(runs: &[SlotRun]) -> bool {
    runs.len() == 1 && runs[0].from == 4 && runs[0].to == 6 && runs[0].slots.has(SLOT)
}

// Whether a delta has one hunk, and what that inserts gets slots where some are wanted.
fn is_one(delta: Option<Box<Delta>>, hunk: (usize, usize, &str), slotted: bool) -> bool {
    let Some(delta) = delta else {
        return false;
    };
    if gets_slot(&delta.gained) != slotted || delta.gained.is_empty() == slotted {
        return false;
    }
    are(&delta.hunks, &[hunk]) && delta.lost.is_none()
}

// What was inserted would go.
fn check_reversal<S: TextStore>(
    rt: &impl Abort,
    alloc: Global,
    limits: &Limits,
    text: &mut EditedText<S>,
) -> Result<(), Fail>
    requires { text.old.history.history ≡ no_history }
{
    assert!(rt; 4 < text.store.len() && text.store.len() <= limits.chars());
    insert(rt, alloc, limits, text)?;
    let delta = undo_delta(rt, alloc, limits, text)?;
    assert!(rt; is_one(delta, (4, 6, ""), false));
    Ok(())
}

#[test]
fn an_undo_removes_what_was_inserted(rt: HostRuntime) -> Result<(), Fail> {
    let limits = limits()?;
    let mut text = edited::<PlainStore>(rt.alloc())?;
    check_reversal(&rt, rt.alloc(), &limits, &mut text)
}

// Removes `tw`.
fn delete<S: TextStore>(
    alloc: Global,
    limits: &Limits,
    text: &mut EditedText<S>,
) -> Result<(), EditFault>
    requires { 6 ≤ length (S.content text.old.store).cells }
    ensures { OnOk result (IsKept limits.now.chars RECORDING (state_in S.content text.old) →
        IsKept limits.now.chars RECORDING (state_in S.content text.new)) }
{
    let end = text.store.len();
    let rules = EditRules {
        alloc,
        limits,
        recording: RECORDING,
        follows: false,
    };
    let plan = plan_delete(&rules, text, 0, end, &[Span { from: 4, to: 6 }])?;
    commit(plan, text);
    Ok(())
}

// The text that was removed would come back with the slot of both neighbours.
fn check_return<S: TextStore>(
    rt: &impl Abort,
    alloc: Global,
    limits: &Limits,
    text: &mut EditedText<S>,
) -> Result<(), Fail>
    requires { text.old.history.history ≡ no_history }
{
    assert!(rt; 6 <= text.store.len() && text.store.len() <= limits.chars());
    delete(alloc, limits, text)?;
    let delta = undo_delta(rt, alloc, limits, text)?;
    assert!(rt; is_one(delta, (4, 4, "tw"), true));
    Ok(())
}

#[test]
fn a_text_comes_back_with_the_slots_of_both_neighbours(rt: HostRuntime) -> Result<(), Fail> {
    let limits = limits()?;
    let mut text = edited_with::<PlainStore>(rt.alloc(), TagSet::empty().with(SLOT))?;
    check_return(&rt, rt.alloc(), &limits, &mut text)
}
