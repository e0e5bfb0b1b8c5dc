//! Inserts a single line by its number, from the root down, and splits full nodes.

ghost use Rattle.std.specs.Prelude.{◌≡◌, ◌+◌, ◌-◌, ◌≤◌, ◌<◌, length, Some};
ghost use Rattle.std.specs.FinMap as finite;
ghost use Rattle.raw_nodes.specs.Names.{records, rooms, spares};
ghost use Rattle.raw_nodes.specs.Rows.{kids};
ghost use Rattle.line_tree.specs.Finds.{HasRow, Leads, lines_below};
ghost use Rattle.line_tree.specs.Places.{IsLineAt};
ghost use Rattle.line_tree.specs.Shape.{lines_at, lines_in, sum_at};
ghost use Rattle.line_tree.specs.Growth.{CanInsert, Inserts, NewLine};
ghost use Rattle.line_tree.specs.Spreading.{Respreads};

use crate::behind::{Added, insert_behind};
use crate::fill::{Extra, add, put};
use crate::find::{Found, find_near};
use crate::spread::spread;
use raw_nodes::{NodePtr, NodeStore, Ticks};
use segments::Line;

/// The child below which line `k` is put in.
pub fn lead<C: Ticks>(store: &NodeStore<C>, node: NodePtr, k: usize, ticks: &mut C) -> Found
    requires row { HasRow (records store.now) node }
    requires some { 0 < length (kids (records store.now) node) }
    requires within { k ≤ lines_below (records store.now) node }
    requires whole { lines_at (records store.now) node ≡ lines_below (records store.now) node }
    ensures { Leads (records store.now) node k result }
{
    if k == 0 {
        let child = store.child(node, 0, ticks).unwrap();
        return Found {
            child,
            slot: 0,
            lines: store.lines(child, ticks),
            rest: 0,
        };
    }
    let found = find_near(store, node, k - 1, ticks);
    Found {
        child: found.child,
        slot: found.slot,
        lines: found.lines,
        rest: found.rest + 1,
    }
}

/// The same, once a full child has shared with a neighbour that has room, if there is one.
fn lead_to_room<C: Ticks>(
    store: &mut NodeStore<C>,
    node: NodePtr,
    height: usize,
    k: usize,
    added: &Added,
    ticks: &mut C,
) -> Found
    requires high { 1 < height }
    requires insert { CanInsert (records store.old) height node k added.now.line }
    ensures keeps { Respreads (records store.old) (records store.new) height node }
    ensures insert { CanInsert (records store.new) height node k added.now.line }
    ensures leads { Leads (records store.new) node k result }
    ensures spares { spares store.new ≡ spares store.old }
    ensures rooms { rooms store.new ≡ rooms store.old }
    ensures len { finite.len (records store.new) ≡ finite.len (records store.old) }
{
    let found = lead(store, node, k, ticks);
    if spread(store, node, &found, added.behind.is_some(), ticks) {
        return lead(store, node, k, ticks);
    }
    found
}

/// A new line, in no tree yet.
pub fn new_line<C: Ticks>(store: &mut NodeStore<C>, line: Line) -> NodePtr
    requires { 0 < spares store.old }
    ensures line { NewLine (records store.old) (records store.new) result line }
    ensures spares { spares store.new + 1 ≡ spares store.old }
    ensures rooms { rooms store.new ≡ rooms store.old }
{
    store.make(Some(line))
}

/// Puts in a line below a node of this height. A node with 13 children gives the last ones to a new one.
pub fn insert_in<C: Ticks>(
    store: &mut NodeStore<C>,
    node: NodePtr,
    height: usize,
    k: usize,
    added: &Added,
    ticks: &mut C,
) -> Option<NodePtr>
    requires node { 0 < height }
    requires insert { CanInsert (records store.old) height node k added.now.line }
    requires more { added.now.more ≡ sum_at (records store.old) added.now.line }
    requires spares { height ≤ spares store.old }
    requires rooms { height ≤ rooms store.old }
    ensures inserts { Inserts (records store.old) (records store.new) height node k added.now.line result }
    ensures spares { spares store.old ≤ spares store.new + height }
    ensures rooms { rooms store.new + spares store.old ≡ rooms store.old + spares store.new }
    ensures count { spares store.new + finite.len (records store.new)
        ≡ spares store.old + finite.len (records store.old) }
{
    if height == 1 {
        let extra = Extra {
            node,
            at: k,
            child: added.line,
        };
        return put(store, extra, &added.more, ticks);
    }
    let found = lead_to_room(store, node, height, k, added, ticks);
    match insert_in(store, found.child, height - 1, found.rest, added, ticks) {
        Some(sibling) => {
            let extra = Extra {
                node,
                at: found.slot + 1,
                child: sibling,
            };
            put(store, extra, &added.more, ticks)
        }
        None => {
            add(store, node, &added.more);
            None
        }
    }
}

/// Puts in a line as number `k`.
pub fn insert_next<C: Ticks>(
    store: &mut NodeStore<C>,
    root: NodePtr,
    height: usize,
    k: usize,
    added: &Added,
    ticks: &mut C,
) -> Option<NodePtr>
    requires node { 0 < height }
    requires insert { CanInsert (records store.old) height root k added.now.line }
    requires more { added.now.more ≡ sum_at (records store.old) added.now.line }
    requires behind { (p : _) → added.now.behind ≡ Some p
        → (0 < k) × IsLineAt (lines_in (records store.old) height root) (k - 1) p }
    requires spares { height ≤ spares store.old }
    requires rooms { height ≤ rooms store.old }
    ensures inserts { Inserts (records store.old) (records store.new) height root k added.now.line result }
    ensures spares { spares store.old ≤ spares store.new + height }
    ensures rooms { rooms store.new + spares store.old ≡ rooms store.old + spares store.new }
    ensures count { spares store.new + finite.len (records store.new)
        ≡ spares store.old + finite.len (records store.old) }
{
    if insert_behind(store, root, height, k, added, ticks) {
        return None;
    }
    insert_in(store, root, height, k, added, ticks)
}
