//! Drops actions from the start of a ring buffer, and releases capacity that a buffer no longer needs.

ghost use Rattle.std.specs.Prelude.{◌≡◌, ◌≤◌, ◌+◌, drop};
ghost use Rattle.std.specs.VecDeque.{deque_len, deque_capacity};

use crate::actions::Action;
use std::collections::VecDeque;

/// Drops the first so many actions.
pub fn drop_front(actions: &mut VecDeque<Action>, count: usize)
    requires { count ≤ deque_len actions.old }
    ensures items { actions.new.items ≡ drop count actions.old.items }
    ensures capacity { deque_capacity actions.new ≡ deque_capacity actions.old }
    ensures len { deque_len actions.new + count ≡ deque_len actions.old }
{
    for _ in 0..count {
        let _ = actions.pop_front();
    }
}

/// Gives back room that a row no longer needs: where more than four times its elements and 16 more would fit, it
/// becomes that of twice its elements. So it takes as long as a few of the calls by which they went.
pub fn give_back_room<T>(row: &mut VecDeque<T>)
    ensures items { row.new.items ≡ row.old.items }
    ensures len { deque_len row.new ≡ deque_len row.old }
{
    let len = row.len();
    if len < row.capacity().saturating_sub(16) / 4 {
        row.shrink_to(2 * len);
    }
}
