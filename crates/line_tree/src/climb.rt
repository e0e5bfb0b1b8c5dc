//! Computes a line's number and the characters before it from its name, from the line up to the root.

ghost use Rattle.std.specs.Prelude.{◌≡◌, ℕ, suc, ◌+◌, ◌*◌, ◌^◌, ◌≤◌, ◌<◌, length, take};
ghost use Rattle.raw_nodes.specs.Names.{records};
ghost use Rattle.line_tree.specs.Shape.{IsTree, lines_in};
ghost use Rattle.raw_nodes.specs.Rows.{kids};
ghost use Rattle.line_tree.specs.Finds.{HasRow};
ghost use Rattle.line_tree.specs.Changes.{FitsSum};
ghost use Rattle.line_tree.specs.Locating.{characters_at, characters_below};
ghost use Rattle.line_tree.specs.Places.{IsLineAt, characters_before, lines_before};
ghost use Rattle.line_tree.specs.Trees.{total};

use raw_nodes::{NodePtr, NodeStore, Ticks};

/// How many lines the first `slot` children have.
pub fn before<C: Ticks>(store: &NodeStore<C>, node: NodePtr, slot: usize, ticks: &mut C) -> usize
    requires row { HasRow (records store.now) node }
    requires within { slot ≤ length (kids (records store.now) node) }
    requires fits { lines_before (records store.now) node slot < 2 ^ 64 }
    ensures value { result ≡ lines_before (records store.now) node slot }
    ensures ticks { C.count ticks.new ≤ C.count ticks.old + 2 * slot }
{
    let mut lines = 0;
    for i in 0..slot {
        if let Some(child) = store.child(node, i, ticks) {
            lines += store.lines(child, ticks);
        }
    }
    lines
}

/// How many lines the first `slot` children of a node have, where the children stand at this level. Those at level 0
/// are lines, and aren't looked at.
fn ahead<C: Ticks>(
    store: &NodeStore<C>,
    node: NodePtr,
    level: usize,
    slot: usize,
    ticks: &mut C,
) -> usize
    requires tree { IsTree (records store.now) (suc level) node }
    requires within { slot ≤ length (kids (records store.now) node) }
    requires fits { lines_before (records store.now) node slot < 2 ^ 64 }
    ensures value { result ≡ lines_before (records store.now) node slot }
    ensures ticks { C.count ticks.new ≤ C.count ticks.old + 2 * slot }
{
    if level == 0 {
        slot
    } else {
        before(store, node, slot, ticks)
    }
}

/// The number of the line with a name.
pub fn rank<C: Ticks>(
    store: &NodeStore<C>,
    root: NodePtr,
    height: usize,
    name: NodePtr,
    ticks: &mut C,
) -> usize
    requires tree { IsTree (records store.now) height root }
    requires fits { length (lines_in (records store.now) height root) < 2 ^ 64 }
    requires named { (k : ℕ) × IsLineAt (lines_in (records store.now) height root) k name }
    ensures value { (k : ℕ) → IsLineAt (lines_in (records store.now) height root) k name → result ≡ k }
    ensures ticks { C.count ticks.new ≤ C.count ticks.old + 23 * height }
{
    let mut at = name;
    let mut rank = 0;
    for level in 0..height {
        let Some(up) = store.parent(at, ticks) else {
            return rank;
        };
        let slot = store.slot(at);
        rank += ahead(store, up, level, slot, ticks);
        at = up;
    }
    rank
}

/// How many characters the children from one slot to another have.
fn characters_between<C: Ticks>(
    store: &NodeStore<C>,
    node: NodePtr,
    from: usize,
    to: usize,
    ticks: &mut C,
) -> usize
    requires row { HasRow (records store.now) node }
    requires ordered { from ≤ to }
    requires within { to ≤ 12 }
    requires fits { characters_before (records store.now) node to < 2 ^ 64 }
    ensures { characters_before (records store.now) node from + result ≡ characters_before (records store.now) node to }
{
    let mut characters = 0;
    for i in from..to {
        if let Some(child) = store.child(node, i, ticks) {
            let (_, more) = store.size(child, ticks);
            characters += more;
        }
    }
    characters
}

/// How many characters the first `slot` children have, from the end of the node that is nearer: they are added up, or
/// the others are taken off all that the node has.
fn characters_ahead<C: Ticks>(
    store: &NodeStore<C>,
    node: NodePtr,
    slot: usize,
    ticks: &mut C,
) -> usize
    requires row { HasRow (records store.now) node }
    requires whole { characters_at (records store.now) node ≡ characters_below (records store.now) node }
    requires within { slot ≤ length (kids (records store.now) node) }
    requires fits { characters_before (records store.now) node slot < 2 ^ 64 }
    ensures { result ≡ characters_before (records store.now) node slot }
{
    if slot < 6 {
        return characters_between(store, node, 0, slot, ticks);
    }
    let (_, all) = store.size(node, ticks);
    all - characters_between(store, node, slot, 12, ticks)
}

/// How many characters stand before the line with a name.
pub fn start_of<C: Ticks>(
    store: &NodeStore<C>,
    root: NodePtr,
    height: usize,
    name: NodePtr,
    ticks: &mut C,
) -> usize
    requires tree { IsTree (records store.now) height root }
    requires fits { FitsSum (total (lines_in (records store.now) height root)) }
    requires named { (k : ℕ) × IsLineAt (lines_in (records store.now) height root) k name }
    ensures { (k : ℕ) → IsLineAt (lines_in (records store.now) height root) k name
        → result ≡ (total (take k (lines_in (records store.now) height root))).characters }
{
    let mut at = name;
    let mut start = 0;
    for level in 0..height {
        let Some(up) = store.parent(at, ticks) else {
            return start;
        };
        let slot = store.slot(at);
        start += characters_ahead(store, up, slot, ticks);
        at = up;
    }
    start
}
