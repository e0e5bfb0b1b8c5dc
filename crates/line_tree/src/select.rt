//! Finds the name of a line by its number.

ghost use Rattle.std.specs.Prelude.{◌≡◌, suc, ◌+◌, ◌*◌, ◌≤◌, ◌<◌, length, slice_get, option_map};
ghost use Rattle.raw_nodes.specs.Names.{records};
ghost use Rattle.line_tree.specs.Shape.{IsTree, lines_in};
ghost use Rattle.line_tree.specs.Finds.{Finds, lines_below};

use crate::find::{Found, find_among};
use raw_nodes::{NodePtr, NodeStore, Ticks};

/// The child that has line `k` of those below a node, which are so many, where the children stand at this level. Those
/// at level 0 are lines, which aren't looked at: line `k` is the child in slot `k`.
pub fn find_at<C: Ticks>(
    store: &NodeStore<C>,
    node: NodePtr,
    level: usize,
    lines: usize,
    k: usize,
    ticks: &mut C,
) -> Found
    requires tree { IsTree (records store.now) (suc level) node }
    requires within { k < lines_below (records store.now) node }
    requires lines { lines ≡ lines_below (records store.now) node }
    ensures found { Finds (records store.now) node k result }
    ensures ticks { C.count ticks.new ≤ C.count ticks.old + 24 }
{
    if level > 0 {
        return find_among(store, node, lines, k, ticks);
    }
    let child = store.child(node, k, ticks).unwrap();
    Found {
        child,
        slot: k,
        lines: 1,
        rest: 0,
    }
}

/// The name of line `k` of so many.
pub fn select<C: Ticks>(
    store: &NodeStore<C>,
    root: NodePtr,
    height: usize,
    count: usize,
    k: usize,
    ticks: &mut C,
) -> NodePtr
    requires tree { IsTree (records store.now) height root }
    requires within { k < length (lines_in (records store.now) height root) }
    requires count { count ≡ length (lines_in (records store.now) height root) }
    ensures name { option_map (λ l. l.0) (slice_get (lines_in (records store.now) height root) k) ≡ Some result }
    ensures ticks { C.count ticks.new ≤ C.count ticks.old + 24 * height }
{
    let mut at = root;
    let mut lines = count;
    let mut rest = k;
    let mut level = height;
    while level > 0 {
        let found = find_at(store, at, level - 1, lines, rest, ticks);
        at = found.child;
        lines = found.lines;
        rest = found.rest;
        level -= 1;
    }
    at
}
