//! Inserts a row of lines at once below a node, and adds levels until the row has one root.

ghost use Rattle.std.specs.Prelude.{◌≡◌, ◌+◌, ◌-◌, ◌*◌, ◌≤◌, ◌<◌, [], length, max, drop, take, vec_capacity};
ghost use Rattle.raw_nodes.specs.Names.{nodes, records, rooms, spares};
ghost use Rattle.line_tree.specs.Growth.{lines_of};
ghost use Rattle.line_tree.specs.Raising.{Becomes, CanLift, CanTakeRow, Lifts, TakesRow, trees_at};
ghost use Rattle.line_tree.specs.Room.{levels_at_most};
ghost use Rattle.line_tree.specs.Trees.{contents};

use crate::insert::{lead, new_line};
use crate::raise::{Gap, push_all, raise, remake};
use crate::walk::Subtree;
use raw_nodes::{NodePtr, NodeStore, Ticks};
use segments::Line;

/// Lines in no tree yet, of those from number `rest` on of a list, which go out of it. Their names are the row.
pub fn make_row<C: Ticks>(
    store: &mut NodeStore<C>,
    lines: &mut Vec<Line>,
    rest: usize,
    row: &mut Vec<NodePtr>,
)
    requires rest { rest ≤ length lines.old.items }
    requires spares { length lines.old.items ≤ rest + spares store.old }
    requires names { length lines.old.items ≤ rest + vec_capacity row.old }
    ensures left { lines.new.items ≡ take rest lines.old.items }
    ensures row { Becomes (records store.old) (records store.new) [] 0 (trees_at (records store.new) 0 row.new.items) }
    ensures lines { contents (lines_of 0 (trees_at (records store.new) 0 row.new.items)) ≡ drop rest lines.old.items }
    ensures count { rest + length row.new.items ≡ length lines.old.items }
    ensures spares { spares store.new + length row.new.items ≡ spares store.old }
    ensures rooms { rooms store.new ≡ rooms store.old }
    ensures nodes { nodes store.new ≡ nodes store.old }
    ensures names { vec_capacity row.new ≡ vec_capacity row.old }
{
    row.clear();
    while lines.len() > rest {
        if let Some(line) = lines.pop() {
            row.push_reserved(new_line(store, line));
        }
    }
    row.reverse();
}

/// Puts a row of lines in from line `k` on below a node. In its place there are the nodes of its level that the row
/// names then.
pub fn put_row<C: Ticks>(
    store: &mut NodeStore<C>,
    branch: Subtree,
    k: usize,
    row: &mut Vec<NodePtr>,
    below: &mut Vec<NodePtr>,
    ticks: &mut C,
)
    requires node { 0 < branch.height }
    requires take { CanTakeRow (records store.old) branch.height branch.node k row.old.items }
    requires spares { length row.old.items + 23 * branch.height ≤ 11 * spares store.old }
    requires rooms { length row.old.items + 23 * branch.height ≤ 11 * rooms store.old }
    requires slots { 2 ≤ vec_capacity row.old }
    requires names { length row.old.items + 24 ≤ vec_capacity below.old }
    requires two { 26 ≤ vec_capacity below.old }
    ensures takes { TakesRow (records store.old) (records store.new) branch.height branch.node k
        row.old.items row.new.items }
    ensures used { 11 * rooms store.old + length row.new.items
        ≤ 11 * rooms store.new + length row.old.items + 23 * branch.height }
    ensures short { length row.new.items ≤ max 2 (length row.old.items) }
    ensures spares { spares store.new + rooms store.old ≡ spares store.old + rooms store.new }
    ensures nodes { nodes store.new ≡ nodes store.old }
    ensures names { vec_capacity row.new ≡ vec_capacity row.old }
    ensures more { vec_capacity below.new ≡ vec_capacity below.old }
{
    let node = branch.node;
    if branch.height == 1 {
        let gap = Gap {
            node,
            front: k,
            back: k,
        };
        remake(store, gap, row, below, ticks);
        return;
    }
    let found = lead(store, node, k, ticks);
    let child = Subtree {
        node: found.child,
        height: branch.height - 1,
    };
    put_row(store, child, found.rest, row, below, ticks);
    let gap = Gap {
        node,
        front: found.slot,
        back: found.slot + 1,
    };
    remake(store, gap, row, below, ticks);
}

/// Makes levels above a row of nodes of a height until it has one node, and gives the height of that.
pub fn lift<C: Ticks>(
    store: &mut NodeStore<C>,
    height: usize,
    row: &mut Vec<NodePtr>,
    below: &mut Vec<NodePtr>,
    ticks: &mut C,
) -> usize
    requires lift { CanLift (records store.old) height row.old.items }
    requires spares { length row.old.items + 11 * (levels_at_most (nodes store.old) - height) ≤ 11 * spares store.old }
    requires rooms { length row.old.items + 11 * (levels_at_most (nodes store.old) - height) ≤ 11 * rooms store.old }
    requires names { length row.old.items ≤ vec_capacity below.old }
    ensures lifts { Lifts (records store.old) (records store.new) height row.old.items result row.new.items }
    ensures used { 11 * rooms store.old
        ≤ 11 * rooms store.new + length row.old.items + 11 * (levels_at_most (nodes store.old) - height) }
    ensures spares { spares store.new + rooms store.old ≡ spares store.old + rooms store.new }
    ensures nodes { nodes store.new ≡ nodes store.old }
    ensures names { vec_capacity row.new ≡ vec_capacity row.old }
    ensures more { vec_capacity below.new ≡ vec_capacity below.old }
{
    let mut top = height;
    while row.len() > 1 {
        below.clear();
        push_all(below, row);
        raise(store, below, row, ticks);
        top += 1;
    }
    top
}
