//! The modified flag of a document, and its undo, redo, separators and reset.

ghost use Rattle.std.specs.Prelude.{◌≡◌, ◌<◌, ◌&&◌, ◌||◌, not, length, is_some, IfSome, IsSome, IfOk, OnOk, Ok, None};
ghost use Rattle.std.specs.Prelude.{◌↔◌, if◌then◌else◌};
ghost use Rattle.std.specs.List.{All};
ghost use Rattle.text_model.specs.Content.{characters};
ghost use Rattle.text_model.specs.LimitTable.{LimitTable, AreLimits};
ghost use Rattle.undo_stack.specs.Fits.{FitsText};
ghost use Rattle.undo_stack.specs.Modified.{is_modified};
ghost use Rattle.edit_ops.specs.Anchors.{AnchorsStand};
ghost use Rattle.edit_ops.specs.Deltas.{KnowsDelta};
ghost use Rattle.edit_ops.specs.Plans.{planned, HasRoomFor};
ghost use Rattle.edit_ops.specs.Replays.{AreScalars, replays};
ghost use Rattle.edit_ops.specs.Reversals.{undone, redone};
ghost use Rattle.edit_ops.specs.States.{log_of, state_in, IsUnchanged};
ghost use Rattle.documents.specs.Documents.{widget_at};
ghost use Rattle.documents.specs.History.{can_redo, can_undo, next_group, no_group, edit_group};
ghost use Rattle.documents.specs.History.{edit_redo, edit_reset, edit_separator, edit_undo, modified_set};
ghost use Rattle.documents.specs.Promise.{Does};
ghost use Rattle.documents.specs.Told.{reply_of, IsTold};
ghost use Rattle.documents.specs.Views.{is_idle};
ghost use Rattle.documents.specs.WellFormed.{IsWellFormedDocument};

use crate::callers::Caller;
use crate::documents::Document;
use command_effects::{Answer, Fault};
use edit_ops::{EditRules, EditedText, Plan, plan_redo, plan_undo};
use reports::{EditTold, carry_out};
use std::alloc::AllocError;
use text_model::{MarkNo, TextStore};

impl<S: TextStore> Document<S> {
    /// Whether the text is modified.
    pub fn is_modified(&self) -> bool
        ensures { result ≡ is_modified self.now.modified }
    {
        self.text.history.modified()
    }

    /// Says whether the text is modified.
    pub fn set_modified(&mut self, modified: bool) -> Answer
        ensures { (limits : LimitTable) → Does limits self.old self.new (Ok result) (modified_set self.old modified) }
    {
        self.text.history.set_modified(modified);
        Answer::Empty
    }

    /// Whether actions are kept, and `edit undo` has one to undo (text(n), "edit canundo").
    pub fn can_undo(&self) -> bool
        ensures { result ≡ can_undo self.now }
    {
        self.settings.undo && self.has_group(true)
    }

    /// Whether actions are kept, and `edit redo` has one to make once more (text(n), "edit canredo").
    pub fn can_redo(&self) -> bool
        ensures { result ≡ can_redo self.now }
    {
        self.settings.undo && self.has_group(false)
    }

    /// `W edit separator` (text(n), "edit separator").
    pub fn edit_separator(&mut self) -> Answer
        ensures { (limits : LimitTable) → Does limits self.old self.new (Ok result) (edit_separator self.old) }
    {
        if !self.settings.undo {
            return Answer::Empty;
        }
        self.text.history.separator();
        Answer::Empty
    }

    /// `W edit reset` (text(n), "edit reset").
    pub fn edit_reset(&mut self) -> Answer
        ensures { (limits : LimitTable) → Does limits self.old self.new (Ok result) (edit_reset self.old) }
    {
        self.text.history.reset();
        self.text.history.give_back_room();
        Answer::Empty
    }
}

/// Returns a plan that undoes the last group where `back`, or redoes the one that was undone last, or `None` where
/// there is no such group. The mark of a number, if there is one, then is where the group ends.
fn plan_group<S: TextStore>(
    rules: &EditRules<'_>,
    text: &mut EditedText<S>,
    mark: MarkNo,
    back: bool,
) -> Result<Option<Plan<S>>, AllocError>
    requires stand { All (AnchorsStand (length (S.content text.old.store).cells)) text.old.anchors.items }
    requires fits { FitsText rules.now.limits.now.chars (characters (S.content text.old.store).cells)
        text.old.history.history }
    ensures same { IsUnchanged S.content text.old text.new }
    ensures none { result ≡ Ok None ↔ next_group back text.old.history.history ≡ None }
    ensures bounds { OnOk result (IsSome (next_group back text.old.history.history) → AreLimits rules.now.limits.now) }
    ensures scalars { OnOk result
        (IfSome (next_group back text.old.history.history) (λ group. AreScalars (replays back group))) }
    ensures ready { IfOk result (λ found. IfSome found (λ plan. S.ready text.new.store plan.prepared)) }
    ensures room { IfOk result (λ found. IfSome found (λ plan. HasRoomFor plan.effects text.new.history)) }
    ensures outcome { IfOk result (λ found. IfSome found (λ plan.
        planned plan.effects (S.outcome text.new.store plan.prepared) text.old.anchors.items (log_of text.old.history)
        ≡ (if back then undone mark.0 (state_in S.content text.old)
        else redone mark.0 (state_in S.content text.old)))) }
    ensures delta { IfSome (next_group back text.old.history.history) (λ group. IfOk result (λ found. IfSome found
        (λ plan. KnowsDelta rules.now.follows (replays back group) (S.content text.old.store).cells
        (S.outcome text.new.store plan.prepared).cells plan.delta))) }
{
    if back {
        plan_undo(rules, text, mark)
    } else {
        plan_redo(rules, text, mark)
    }
}

/// The fault of `edit undo` where `back`, or of `edit redo`, where there is no group.
fn no_group(back: bool) -> Fault
    ensures { result ≡ no_group back }
{
    if back {
        Fault::NothingToUndo
    } else {
        Fault::NothingToRedo
    }
}

impl<S: TextStore> Document<S> {
    /// Whether there is a group to undo where `back`, or to redo.
    fn has_group(&self, back: bool) -> bool
        ensures { result ≡ is_some (next_group back self.now.history) }
    {
        if back {
            self.text.history.last_undo().is_some()
        } else {
            self.text.history.last_redo().is_some()
        }
    }

    /// Whether `edit undo` where `back`, or `edit redo`, leaves the text as it is, though there may be a group: no
    /// actions are kept, or the widget is idle.
    fn reverts_nothing(&self, seat: usize, back: bool) -> bool
        requires { seat < length self.now.widgets }
        ensures { result ≡ (not self.now.undo || (is_some (next_group back self.now.history)
            && is_idle self.now (widget_at self.now seat))) }
    {
        !self.settings.undo || self.has_group(back) && self.is_idle(seat)
    }

    /// `W edit undo` where `back`, or `W edit redo`. Returns what that changes.
    fn edit_group(&mut self, caller: &Caller<'_>, back: bool) -> Result<EditTold, Fault>
        requires shown { caller.now.seat < length self.old.widgets }
        requires formed { IsWellFormedDocument caller.now.limits.now self.old }
        ensures does { Does caller.now.limits.now self.old self.new (reply_of result)
            (edit_group back self.old (widget_at self.old caller.now.seat)) }
        ensures told { IsTold caller.now.follows (edit_group back self.old (widget_at self.old caller.now.seat))
            self.old self.new result }
    {
        if self.reverts_nothing(caller.seat, back) {
            return Ok(EditTold::nothing(self.alloc));
        }
        let rules = caller.rules(self.alloc, self.settings);
        let insert = MarkNo(2 * self.seats.number(caller.seat));
        let Some(plan) = plan_group(&rules, &mut self.text, insert, back)? else {
            return Err(no_group(back));
        };
        Ok(carry_out(self.alloc, &self.seats, &self.tags, &mut self.text, plan)?)
    }

    /// `W edit undo` (text(n), "edit undo"). Returns what that changes.
    pub fn edit_undo(&mut self, caller: &Caller<'_>) -> Result<EditTold, Fault>
        requires shown { caller.now.seat < length self.old.widgets }
        requires formed { IsWellFormedDocument caller.now.limits.now self.old }
        ensures does { Does caller.now.limits.now self.old self.new (reply_of result)
            (edit_undo self.old (widget_at self.old caller.now.seat)) }
        ensures told { IsTold caller.now.follows (edit_undo self.old (widget_at self.old caller.now.seat))
            self.old self.new result }
    {
        self.edit_group(caller, true)
    }

    /// `W edit redo` (text(n), "edit redo"). Returns what that changes.
    pub fn edit_redo(&mut self, caller: &Caller<'_>) -> Result<EditTold, Fault>
        requires shown { caller.now.seat < length self.old.widgets }
        requires formed { IsWellFormedDocument caller.now.limits.now self.old }
        ensures does { Does caller.now.limits.now self.old self.new (reply_of result)
            (edit_redo self.old (widget_at self.old caller.now.seat)) }
        ensures told { IsTold caller.now.follows (edit_redo self.old (widget_at self.old caller.now.seat))
            self.old self.new result }
    {
        self.edit_group(caller, false)
    }
}
