//! A group of actions as a range of the history's list, in the order in which they were made.

ghost use Rattle.std.specs.Prelude.{◌≡◌, ◌<◌, ◌≤◌, ◌+◌, Some, length, take, drop, slice_get};
ghost use Rattle.std.specs.VecDeque.{deque_len};

use crate::actions::Action;
use std::collections::VecDeque;
use std::marker::Model;

/// The actions of a group, in the order in which they were made.
#[derive(Drop)]
pub struct Group<'a> {
    actions: &'a VecDeque<Action>,
    from: usize,
    len: usize,
}

impl<'a> Model for Group<'a> {
    ghost use Rattle.std.specs.Prelude.{List, take, drop, ◌+◌, ◌≤◌};
    ghost use Rattle.std.specs.VecDeque.{deque_len};
    ghost use Rattle.undo_stack.specs.declared.actions.Action.{Action};

    ghost Value = { List Action };

    ghost view = { λ g. take g.len (drop g.from g.actions.now.items) };

    ghost invariant = { λ g. g.from + g.len ≤ deque_len g.actions.now };
}

impl<'a> Group<'a> {
    /// So many actions of a row, from one on.
    pub fn new(actions: &'a VecDeque<Action>, from: usize, len: usize) -> Self
        requires { from + len ≤ deque_len actions.now }
        ensures { result ≡ take len (drop from actions.now.items) }
    {
        Group { actions, from, len }
    }

    /// How many actions it has.
    pub fn len(&self) -> usize
        ensures { result ≡ length self.now }
    {
        self.len
    }

    /// One of its actions, counted from the first.
    pub fn action(&self, index: usize) -> &'a Action
        requires { index < length self.now }
        ensures { slice_get self.now index ≡ Some result.now }
    {
        &self.actions[self.from + index]
    }
}
