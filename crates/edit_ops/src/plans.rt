//! Plans of commands: prepares an edit with all its memory, and commits it to a text and its history without failure.

ghost use Rattle.std.specs.Prelude.{◌≡◌, ◌≤◌, true, length, IfOk};
ghost use Rattle.text_model.specs.Steps.{Fits, after};
ghost use Rattle.edit_ops.specs.Plans.{anchors_left, log_after, planned, HasRoom, HasRoomFor};
ghost use Rattle.edit_ops.specs.States.{log_of, state_in, all_noted, outlineed, IsUnchanged};

use crate::anchors::Anchors;
use crate::deltas::Delta;
use crate::outlines::Outline;
use crate::texts::EditedText;
use std::alloc::AllocError;
use std::collections::VecDeque;
use text_model::{Edit, StepList, TextStore};
use undo_stack::{Action, EditKind, UndoStack};

/// Whether actions are kept to be undone, and whether an edit of another kind than the one before begins a group of its
/// own (text(n), "-undo" and "-autoseparators").
#[derive(Clone, Copy, Debug, PartialEq, Eq)]
pub struct Recording {
    pub undo: bool,
    pub separators: bool,
}

/// What a plan does to the history.
#[derive(Drop)]
pub enum Notes {
    /// Actions of an edit of a kind are noted.
    Made(EditKind, VecDeque<Action>, Recording),
    /// The last group is undone.
    Undone,
    /// The group that was undone last is redone.
    Redone,
}

/// What a plan changes besides the store: where the anchors of each widget then stand, and what is noted.
#[derive(Drop)]
pub struct Effects {
    pub anchors: Vec<Anchors>,
    pub notes: Notes,
}

/// The whole effect of a command, for which all memory is there.
#[derive(Drop)]
pub struct Plan<S: TextStore> {
    prepared: S::Prepared,
    // none where no character comes or goes, as where spans are tagged
    effects: Option<Effects>,
    /// What the plan does to the text and its tags, if the caller follows these.
    pub delta: Option<Box<Delta>>,
}

/// Notes actions of an edit of a kind, for which there is room.
fn note_all(
    history: &mut UndoStack,
    kind: EditKind,
    actions: VecDeque<Action>,
    recording: Recording,
)
    requires { recording.undo ≡ true → length actions.items ≤ history.old.room }
    ensures { log_of history.new ≡ all_noted recording kind actions.items (log_of history.old) }
{
    let mut actions = actions;
    for _ in 0..actions.len() {
        if let Some(action) = actions.pop_front() {
            history.note(kind, action, recording.undo, recording.separators);
        }
    }
}

/// Does to the history what a plan says.
fn note(history: &mut UndoStack, notes: Notes)
    requires { HasRoom notes history.old }
    ensures { log_of history.new ≡ log_after notes (log_of history.old) }
{
    match notes {
        Notes::Made(kind, actions, recording) => note_all(history, kind, actions, recording),
        Notes::Undone => {
            let _ = history.take_undo();
        }
        Notes::Redone => {
            let _ = history.take_redo();
        }
    }
}

/// Makes a plan of steps and effects, with all memory that the steps take. Nothing that can be seen changes.
pub fn prepare_steps<S: TextStore>(
    text: &mut EditedText<S>,
    steps: StepList,
    effects: Option<Effects>,
    delta: Option<Box<Delta>>,
) -> Result<Plan<S>, AllocError>
    requires { Fits steps (S.content text.old.store) }
    ensures same { IsUnchanged S.content text.old text.new }
    ensures history { text.new.history ≡ text.old.history }
    ensures ready { IfOk result (λ plan. S.ready text.new.store plan.prepared) }
    ensures outcome { IfOk result (λ plan.
        S.outcome text.new.store plan.prepared ≡ after steps (S.content text.old.store)) }
    ensures effects { IfOk result (λ plan. plan.effects ≡ effects) }
    ensures delta { IfOk result (λ plan. plan.delta ≡ delta) }
{
    let prepared = text.store.prepare_owned(Edit { steps })?;
    Ok(Plan {
        prepared,
        effects,
        delta,
    })
}

/// Makes a plan of an outline, with all memory that it takes. Nothing that can be seen changes.
pub fn prepare<S: TextStore>(
    text: &mut EditedText<S>,
    outline: Outline,
    kind: EditKind,
    recording: Recording,
    delta: Option<Box<Delta>>,
) -> Result<Plan<S>, AllocError>
    requires { Fits outline.steps (S.content text.old.store) }
    ensures same { IsUnchanged S.content text.old text.new }
    ensures ready { IfOk result (λ plan. S.ready text.new.store plan.prepared) }
    ensures room { IfOk result (λ plan. HasRoomFor plan.effects text.new.history) }
    ensures outcome { IfOk result (λ plan.
        planned plan.effects (S.outcome text.new.store plan.prepared) text.old.anchors.items (log_of text.old.history)
        ≡ outlineed recording kind outline (state_in S.content text.old)) }
    ensures widgets { IfOk result (λ plan. anchors_left plan.effects text.old.anchors.items ≡ outline.anchors) }
    ensures delta { IfOk result (λ plan. plan.delta ≡ delta) }
    ensures content { IfOk result (λ plan.
        S.outcome text.new.store plan.prepared ≡ after outline.steps (S.content text.old.store)) }
{
    if recording.undo {
        text.history.reserve(outline.actions.len())?;
    }
    let Outline {
        steps,
        anchors,
        actions,
        ..
    } = outline;
    let notes = Notes::Made(kind, actions, recording);
    prepare_steps(text, steps, Some(Effects { anchors, notes }), delta)
}

/// Carries out a plan, which can't fail. The text has to be as the call that made the plan left it.
pub fn commit<S: TextStore>(plan: Plan<S>, text: &mut EditedText<S>)
    requires ready { S.ready text.old.store plan.prepared }
    requires room { HasRoomFor plan.effects text.old.history }
    ensures { state_in S.content text.new ≡ planned plan.effects (S.outcome text.old.store plan.prepared)
        text.old.anchors.items (log_of text.old.history) }
{
    let Plan {
        prepared,
        effects,
        ..
    } = plan;
    text.store.commit(prepared);
    let Some(effects) = effects else {
        return;
    };
    text.anchors = effects.anchors;
    note(&mut text.history, effects.notes);
    // Where noting made groups go, what they held goes too.
    text.history.give_back_room();
}
