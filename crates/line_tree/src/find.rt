//! Finds the child of a node that contains the line with a given number.

ghost use Rattle.std.specs.Prelude.{◌≡◌, ◌+◌, ◌<◌, ◌≤◌};
ghost use Rattle.raw_nodes.specs.Names.{records};
ghost use Rattle.line_tree.specs.Shape.{lines_at};
ghost use Rattle.line_tree.specs.Finds.{Finds, HasRow, lines_below};

use crate::aims::NothingBefore;
use crate::search::{search, search_back};
use raw_nodes::{NodePtr, NodeStore, Ticks};

/// A child, its slot, how many lines it has, and how many of the lines asked for are left in it.
#[derive(Clone, Copy)]
pub struct Found {
    pub child: NodePtr,
    pub slot: usize,
    pub lines: usize,
    pub rest: usize,
}

/// The child that has line `k` of those below a node, which are so many, looked for from the end that is nearer.
pub fn find_among<C: Ticks>(
    store: &NodeStore<C>,
    node: NodePtr,
    lines: usize,
    k: usize,
    ticks: &mut C,
) -> Found
    requires row { HasRow (records store.now) node }
    requires within { k < lines_below (records store.now) node }
    requires lines { lines ≡ lines_below (records store.now) node }
    ensures found { Finds (records store.now) node k result }
    ensures ticks { C.count ticks.new ≤ C.count ticks.old + 24 }
{
    let reached = if k < lines / 2 {
        search(store, node, k, &mut NothingBefore, ticks)
    } else {
        search_back(store, node, lines - k, &mut NothingBefore, ticks)
    };
    Found {
        child: reached.child,
        slot: reached.slot,
        lines: reached.size,
        rest: reached.rest,
    }
}

/// The same where it isn't known how many there are.
pub fn find_near<C: Ticks>(store: &NodeStore<C>, node: NodePtr, k: usize, ticks: &mut C) -> Found
    requires row { HasRow (records store.now) node }
    requires within { k < lines_below (records store.now) node }
    requires whole { lines_at (records store.now) node ≡ lines_below (records store.now) node }
    ensures found { Finds (records store.now) node k result }
{
    let lines = store.lines(node, ticks);
    find_among(store, node, lines, k, ticks)
}
