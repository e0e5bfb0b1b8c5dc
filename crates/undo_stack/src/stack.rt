//! The history of a text: groups of actions to be undone and redone, with a limit on their number.

ghost use Rattle.std.specs.Prelude.{◌≡◌, ◌≤◌, ◌<◌, ◌+◌, [], true, false, drop, OnOk, IsOk, IsSome, IfSome};
ghost use Rattle.std.specs.Prelude.{IfErr, ◌↔◌, length};
ghost use Rattle.undo_stack.specs.History.{no_history, changes_kind, joined, limit_of, newest, noted, separated};
ghost use Rattle.undo_stack.specs.History.{limited, next_undo, next_redo, after_undo, after_redo};
ghost use Rattle.undo_stack.specs.Modified.{unmodified, is_modified, counted_up, counted_down, counted_new, times};
ghost use Rattle.undo_stack.specs.Modified.{set_to};

use crate::actions::{Action, EditKind};
use crate::counts::ModifiedCount;
use crate::faults::HistoryFault;
use crate::groups::Group;
use crate::rings::{drop_front, give_back_room};
use std::alloc::{AllocError, Global};
use std::collections::VecDeque;
use std::marker::Model;

/// The history of a text: groups of actions to be undone and redone, and whether the text is modified (text(n), "THE
/// UNDO MECHANISM").
///
/// All actions stand in one row, and the groups that are undone behind those that aren't, so to undo or redo a group
/// moves the border between them and takes no memory. The oldest groups go where there are more than a limit.
#[derive(Drop)]
pub struct UndoStack {
    // of each group, from the oldest
    lengths: VecDeque<usize>,
    actions: VecDeque<Action>,
    // so many groups aren't undone, of so many actions
    groups: usize,
    done: usize,
    // whether the last of them takes more actions
    takes_more: bool,
    last: Option<EditKind>,
    modified: ModifiedCount,
    // the greatest number of groups, or 0 where there is none
    most: usize,
}

impl Model for UndoStack {
    ghost use Rattle.std.specs.Prelude.{min, ◌-◌};
    ghost use Rattle.std.specs.VecDeque.{deque_len, deque_capacity};
    ghost use Rattle.undo_stack.specs.Rings.{Kept, history_of, AreGroups};

    ghost Value = { Kept };

    ghost view = { λ s. record {
      history = history_of s.lengths.items s.actions.items s.groups s.done s.takes_more s.last;
      modified = s.modified;
      most = s.most;
      room = min (deque_capacity s.lengths - deque_len s.lengths) (deque_capacity s.actions - deque_len s.actions);
    } };

    ghost invariant = { λ s. AreGroups s.lengths.items (deque_len s.actions) s.groups s.done s.takes_more };
}

impl UndoStack {
    /// No history, of an unmodified text, and no limit. It takes no memory.
    pub fn new(alloc: Global) -> Self
        ensures history { result.history ≡ no_history }
        ensures modified { result.modified ≡ unmodified }
        ensures most { result.most ≡ 0 }
    {
        UndoStack {
            lengths: VecDeque::new(alloc),
            actions: VecDeque::new(alloc),
            groups: 0,
            done: 0,
            takes_more: false,
            last: None,
            modified: ModifiedCount::new(),
            most: 0,
        }
    }

    /// Makes room for so many notes.
    pub fn reserve(&mut self, notes: usize) -> Result<(), AllocError>
        ensures history { self.new.history ≡ self.old.history }
        ensures modified { self.new.modified ≡ self.old.modified }
        ensures most { self.new.most ≡ self.old.most }
        ensures room { OnOk result (notes ≤ self.new.room) }
        ensures kept { self.old.room ≤ self.new.room }
    {
        self.lengths.reserve(notes)?;
        self.actions.reserve(notes)?;
        Ok(())
    }

    /// Gives back room that the history no longer needs, so that what it holds follows what is noted.
    pub fn give_back_room(&mut self)
        ensures history { self.new.history ≡ self.old.history }
        ensures modified { self.new.modified ≡ self.old.modified }
        ensures most { self.new.most ≡ self.old.most }
    {
        give_back_room(&mut self.lengths);
        give_back_room(&mut self.actions);
    }

    /// Whether the text is modified.
    pub fn modified(&self) -> bool
        ensures { result ≡ is_modified self.now.modified }
    {
        self.modified.is_modified()
    }

    /// Says that the text is modified, until it is said that it isn't; or that it isn't, from where on it is counted.
    pub fn set_modified(&mut self, modified: bool)
        ensures { self.new ≡ record self.old { modified = set_to modified self.old.modified } }
    {
        self.modified.set(modified);
    }

    /// Closes the last group, and forgets the kind of the last edit.
    pub fn separator(&mut self)
        ensures { self.new ≡ record self.old { history = separated self.old.history } }
    {
        self.takes_more = false;
        self.last = None;
    }

    /// Forgets all groups, closes the last one and forgets the kind of the last edit.
    pub fn reset(&mut self)
        ensures history { self.new.history ≡ no_history }
        ensures modified { self.new.modified ≡ self.old.modified }
        ensures most { self.new.most ≡ self.old.most }
        ensures room { self.old.room ≤ self.new.room }
    {
        self.lengths.clear();
        self.actions.clear();
        self.groups = 0;
        self.done = 0;
        self.takes_more = false;
        self.last = None;
    }

    /// The group that undo would move, if there is one.
    pub fn last_undo(&self) -> Option<Group<'_>>
        ensures { result ≡ next_undo self.now.history }
    {
        if self.groups == 0 {
            return None;
        }
        let len = self.lengths[self.groups - 1];
        Some(Group::new(&self.actions, self.done - len, len))
    }

    /// The group that redo would move, if there is one.
    pub fn last_redo(&self) -> Option<Group<'_>>
        ensures { result ≡ next_redo self.now.history }
    {
        if self.groups == self.lengths.len() {
            return None;
        }
        Some(Group::new(&self.actions, self.done, self.lengths[self.groups]))
    }

    /// Moves the last group to those that are undone, and counts its actions as reverted.
    pub fn take_undo(&mut self) -> Result<(), HistoryFault>
        ensures some { IsOk result ↔ IsSome (next_undo self.old.history) }
        ensures history { IfSome (next_undo self.old.history) (λ group. self.new.history
            ≡ after_undo group self.old.history) }
        ensures modified { IfSome (next_undo self.old.history) (λ group.
            self.new.modified ≡ times (length group) counted_down self.old.modified) }
        ensures most { self.new.most ≡ self.old.most }
        ensures room { self.new.room ≡ self.old.room }
        ensures none { IfErr result (λ fault. (fault ≡ HistoryFault.NothingToUndo) × (self.new ≡ self.old)) }
    {
        if self.groups == 0 {
            return Err(HistoryFault::NothingToUndo);
        }
        let len = self.lengths[self.groups - 1];
        self.groups -= 1;
        self.done -= len;
        self.takes_more = false;
        self.last = None;
        self.modified.revert(len);
        Ok(())
    }

    /// Moves the group that was undone last back to the others, and counts its actions as made again.
    pub fn take_redo(&mut self) -> Result<(), HistoryFault>
        ensures some { IsOk result ↔ IsSome (next_redo self.old.history) }
        ensures history { IfSome (next_redo self.old.history) (λ group. self.new.history
            ≡ after_redo group self.old.most self.old.history) }
        ensures modified { IfSome (next_redo self.old.history) (λ group.
            self.new.modified ≡ times (length group) counted_up self.old.modified) }
        ensures most { self.new.most ≡ self.old.most }
        ensures room { self.old.room ≤ self.new.room }
        ensures none { IfErr result (λ fault. (fault ≡ HistoryFault.NothingToRedo) × (self.new ≡ self.old)) }
    {
        if self.groups == self.lengths.len() {
            return Err(HistoryFault::NothingToRedo);
        }
        let len = self.lengths[self.groups];
        self.groups += 1;
        self.done += len;
        self.takes_more = false;
        self.last = None;
        self.modified.repeat(len);
        self.cut();
        Ok(())
    }

    /// Forgets the groups that are undone.
    fn drop_undone(&mut self)
        ensures history { self.new.history ≡ record self.old.history { undone = [] } }
        ensures modified { self.new.modified ≡ self.old.modified }
        ensures most { self.new.most ≡ self.old.most }
        ensures room { self.old.room ≤ self.new.room }
    {
        self.lengths.truncate(self.groups);
        self.actions.truncate(self.done);
    }

    /// Puts an action into a group of its own, behind the others. None is undone.
    fn begin_group(&mut self, action: Action)
        requires room { 0 < self.old.room }
        requires last { self.old.history.undone ≡ [] }
        ensures history { self.new.history
            ≡ record self.old.history { groups = joined false action self.old.history.groups } }
        ensures modified { self.new.modified ≡ self.old.modified }
        ensures most { self.new.most ≡ self.old.most }
        ensures room { self.old.room ≤ self.new.room + 1 }
    {
        self.lengths.push_back_reserved(1);
        self.actions.push_back_reserved(action);
        self.groups += 1;
        self.done += 1;
    }

    /// Puts an action into the last group. None is undone.
    fn join_group(&mut self, action: Action)
        requires room { 0 < self.old.room }
        requires last { self.old.history.undone ≡ [] }
        requires takes { self.old.history.takes_more ≡ true }
        ensures history { self.new.history
            ≡ record self.old.history { groups = joined true action self.old.history.groups } }
        ensures modified { self.new.modified ≡ self.old.modified }
        ensures most { self.new.most ≡ self.old.most }
        ensures room { self.old.room ≤ self.new.room + 1 }
    {
        let length = self.lengths.pop_back().unwrap_or(0);
        self.lengths.push_back_reserved(length + 1);
        self.actions.push_back_reserved(action);
        self.done += 1;
    }

    /// Drops the oldest group of several.
    fn drop_oldest(&mut self)
        requires { 1 < length self.old.history.groups }
        ensures history { self.new.history ≡ record self.old.history { groups = drop 1 self.old.history.groups } }
        ensures modified { self.new.modified ≡ self.old.modified }
        ensures most { self.new.most ≡ self.old.most }
        ensures room { self.old.room ≤ self.new.room }
    {
        let length = self.lengths.pop_front().unwrap_or(0);
        drop_front(&mut self.actions, length);
        self.groups -= 1;
        self.done -= length;
    }

    /// Drops so many of the oldest groups, but not all.
    fn drop_groups(&mut self, count: usize)
        requires { 0 < count → count < length self.old.history.groups }
        ensures history { self.new.history ≡ record self.old.history { groups = drop count self.old.history.groups } }
        ensures modified { self.new.modified ≡ self.old.modified }
        ensures most { self.new.most ≡ self.old.most }
        ensures room { self.old.room ≤ self.new.room }
    {
        for _ in 0..count {
            self.drop_oldest();
        }
    }

    /// How many groups there are past the limit.
    fn extra_groups(&self) -> usize
        ensures drops { drop result self.now.history.groups ≡ newest self.now.most self.now.history.groups }
        ensures some { 0 < result → result < length self.now.history.groups }
    {
        if self.most > 0 {
            self.groups.saturating_sub(self.most)
        } else {
            0
        }
    }

    /// Drops the oldest groups, where there are more than the limit.
    fn cut(&mut self)
        ensures history { self.new.history ≡ limited self.old.most self.old.history }
        ensures modified { self.new.modified ≡ self.old.modified }
        ensures most { self.new.most ≡ self.old.most }
        ensures room { self.old.room ≤ self.new.room }
    {
        let extra = self.extra_groups();
        self.drop_groups(extra);
    }

    /// Bounds the number of groups, where the limit is above 0; the oldest past it go at once.
    pub fn set_limit(&mut self, most: i32)
        ensures history { self.new.history ≡ limited (limit_of most) self.old.history }
        ensures modified { self.new.modified ≡ self.old.modified }
        ensures most { self.new.most ≡ limit_of most }
        ensures room { self.old.room ≤ self.new.room }
    {
        self.most = if most > 0 {
            most.unsigned_abs() as usize
        } else {
            0
        };
        self.cut();
    }

    /// Notes an action that was made, of an edit of a kind. It counts in any case; with `undo` it is kept, and there
    /// has to be room for it: the undone groups go, and it joins the last group, unless that is closed, or `separators`
    /// is set and the edit before was of another kind.
    pub fn note(&mut self, kind: EditKind, action: Action, undo: bool, separators: bool)
        requires { undo ≡ true → 0 < self.old.room }
        ensures kept { undo ≡ true → self.new.history ≡ noted kind action separators self.old.most self.old.history }
        ensures forgotten { undo ≡ false → self.new.history ≡ self.old.history }
        ensures modified { self.new.modified ≡ counted_new self.old.modified }
        ensures most { self.new.most ≡ self.old.most }
        ensures room { self.old.room ≤ self.new.room + 1 }
    {
        self.modified.make();
        if !undo {
            return;
        }
        let joins = self.takes_more && !(separators && changes_kind(kind, self.last));
        self.drop_undone();
        if joins {
            self.join_group(action);
        } else {
            self.begin_group(action);
        }
        self.takes_more = true;
        self.last = Some(kind);
        self.cut();
    }
}

/// Whether the last edit was of another kind.
fn changes_kind(kind: EditKind, last: Option<EditKind>) -> bool
    ensures { result ≡ changes_kind kind last }
{
    match last {
        None => false,
        Some(last) => kind != last,
    }
}
