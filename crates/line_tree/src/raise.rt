//! Builds parent nodes, up to 12 children each, for a row of nodes or for a node's children and a row.

ghost use Rattle.std.specs.Prelude.{◌≡◌, ℕ, ◌+◌, ◌-◌, ◌*◌, ◌≤◌, ◌<◌, ◌++◌, length, slice_get, take, drop, vec_capacity};
ghost use Rattle.std.specs.FinMap as finite;
ghost use Rattle.raw_nodes.specs.Names.{IsName, nodes, records, rooms, spares};
ghost use Rattle.raw_nodes.specs.Rows.{kids, row};
ghost use Rattle.line_tree.specs.Changes.{Among, FitsSum, sum_all};
ghost use Rattle.line_tree.specs.Growth.{NewRoot};
ghost use Rattle.line_tree.specs.Raising.{CanRaise, HasSlots, Raises};

use crate::fill::{refill, sum_of};
use raw_nodes::{NodePtr, NodeStore, Ticks};

/// How many of so many nodes get the next node above them: 12, or half of them where else less than six are left over.
fn next_part(rest: usize) -> usize
    requires { 0 < rest }
    ensures some { 0 < result }
    ensures few { result ≤ 12 }
    ensures within { result ≤ rest }
    ensures all { rest ≤ 12 → result ≡ rest }
    ensures low { 6 ≤ rest → 6 ≤ result }
    ensures left { result < rest → result + 6 ≤ rest }
    ensures full { 18 ≤ rest → result ≡ 12 }
    ensures halves { rest ≤ 17 → rest ≤ result + 12 }
{
    if rest <= 12 {
        rest
    } else if rest < 18 {
        rest / 2
    } else {
        12
    }
}

/// The slots of a node with so many of these as its children, from one on.
fn slots_of(list: &[NodePtr], from: usize, count: usize) -> [Option<NodePtr>; 12]
    requires few { count ≤ 12 }
    requires within { from + count ≤ length list.now }
    ensures { result ≡ row (take count (drop from list.now)) }
{
    let mut slots = [None; 12];
    for i in 0..12 {
        slots[i] = if i < count {
            Some(list[from + i])
        } else {
            None
        };
    }
    slots
}

/// A new node above so many of these, from one on.
fn above<C: Ticks>(
    store: &mut NodeStore<C>,
    list: &[NodePtr],
    from: usize,
    count: usize,
    ticks: &mut C,
) -> NodePtr
    requires few { count ≤ 12 }
    requires within { from + count ≤ length list.now }
    requires named { (c : NodePtr) → Among c (take count (drop from list.now)) → IsName store.old c }
    requires fits { FitsSum (sum_all (records store.old) (take count (drop from list.now))) }
    requires spare { 0 < spares store.old }
    requires room { 0 < rooms store.old }
    ensures root { NewRoot (records store.old) (records store.new) result (take count (drop from list.now)) }
    ensures spares { spares store.new + 1 ≡ spares store.old }
    ensures rooms { rooms store.new + 1 ≡ rooms store.old }
    ensures nodes { nodes store.new ≡ nodes store.old }
{
    let root = store.make(None);
    let children = slots_of(list, from, count);
    let sum = sum_of(store, &children, ticks);
    refill(store, root, 0, &children, &sum);
    root
}

/// Makes nodes above these, 12 to a node, and lists them.
pub fn raise<C: Ticks>(
    store: &mut NodeStore<C>,
    below: &[NodePtr],
    row: &mut Vec<NodePtr>,
    ticks: &mut C,
)
    requires raise { (h : ℕ) × CanRaise (records store.old) h below.now }
    requires spares { length below.now ≤ 12 * spares store.old }
    requires rooms { length below.now ≤ 12 * rooms store.old }
    requires names { length below.now ≤ 12 * vec_capacity row.old }
    ensures raises { (h : ℕ) → CanRaise (records store.old) h below.now
        → Raises (records store.old) (records store.new) h below.now (length below.now) row.new.items }
    ensures few { 12 * length row.new.items ≤ length below.now + 11 }
    ensures spares { spares store.new + length row.new.items ≡ spares store.old }
    ensures rooms { rooms store.new + length row.new.items ≡ rooms store.old }
    ensures nodes { nodes store.new ≡ nodes store.old }
    ensures names { vec_capacity row.new ≡ vec_capacity row.old }
{
    row.clear();
    let mut from = 0;
    while from < below.len() {
        let count = next_part(below.len() - from);
        let node = above(store, below, from, count, ticks);
        row.push_reserved(node);
        from += count;
    }
}

/// The children of a node but those from slot `front` up to slot `back`.
#[derive(Clone, Copy)]
pub struct Gap {
    pub node: NodePtr,
    pub front: usize,
    pub back: usize,
}

/// Number `i` of a node's children, which may be gone.
fn listed<C: Ticks>(store: &NodeStore<C>, node: NodePtr, i: usize, ticks: &mut C) -> Option<NodePtr>
    requires slots { HasSlots (records store.now) node }
    requires index { i < 12 }
    ensures { result ≡ slice_get (kids (records store.now) node) i }
{
    store.child(node, i, ticks)
}

/// Puts the children in the slots from one up to another behind those of a list.
fn push_children<C: Ticks>(
    store: &NodeStore<C>,
    node: NodePtr,
    from: usize,
    to: usize,
    list: &mut Vec<NodePtr>,
    ticks: &mut C,
)
    requires row { HasSlots (records store.now) node }
    requires slots { to ≤ 12 }
    requires within { from ≤ to }
    requires names { length list.old.items + 12 ≤ vec_capacity list.old }
    ensures list { list.new.items ≡ list.old.items ++ take (to - from) (drop from (kids (records store.now) node)) }
    ensures names { vec_capacity list.new ≡ vec_capacity list.old }
{
    for slot in from..to {
        if let Some(child) = listed(store, node, slot, ticks) {
            list.push_reserved(child);
        }
    }
}

/// Puts names behind those of a list.
pub fn push_all(list: &mut Vec<NodePtr>, names: &[NodePtr])
    requires { length list.old.items + length names.now ≤ vec_capacity list.old }
    ensures list { list.new.items ≡ list.old.items ++ names.now }
    ensures names { vec_capacity list.new ≡ vec_capacity list.old }
{
    for i in 0..names.len() {
        list.push_reserved(names[i]);
    }
}

/// Lists the children of a node with these in its gap.
fn list_with<C: Ticks>(
    store: &NodeStore<C>,
    gap: Gap,
    row: &[NodePtr],
    list: &mut Vec<NodePtr>,
    ticks: &mut C,
)
    requires row { HasSlots (records store.now) gap.node }
    requires gap { (gap.front ≤ gap.back) × (gap.back ≤ 12) }
    requires names { length row.now + 24 ≤ vec_capacity list.old }
    ensures list { list.new.items ≡ take gap.front (kids (records store.now) gap.node)
        ++ (row.now ++ drop gap.back (kids (records store.now) gap.node)) }
    ensures names { vec_capacity list.new ≡ vec_capacity list.old }
{
    list.clear();
    push_children(store, gap.node, 0, gap.front, list, ticks);
    push_all(list, row);
    push_children(store, gap.node, gap.back, 12, list, ticks);
}

/// Takes a node apart, and makes nodes above its children with those of a row in its gap. These are the new row.
pub fn remake<C: Ticks>(
    store: &mut NodeStore<C>,
    gap: Gap,
    row: &mut Vec<NodePtr>,
    below: &mut Vec<NodePtr>,
    ticks: &mut C,
)
    requires row { HasSlots (records store.old) gap.node }
    requires gap { (gap.front ≤ gap.back) × (gap.back ≤ 12) }
    requires raise { (h : ℕ) × CanRaise (finite.remove (records store.old) gap.node) h
        (take gap.front (kids (records store.old) gap.node)
        ++ (row.old.items ++ drop gap.back (kids (records store.old) gap.node))) }
    requires spares { length row.old.items + 12 ≤ 12 * spares store.old }
    requires rooms { length row.old.items + 12 ≤ 12 * rooms store.old }
    requires names { length row.old.items + 24 ≤ vec_capacity below.old }
    requires slots { 2 ≤ vec_capacity row.old }
    ensures raises { (h : ℕ) (all : _) → all ≡ take gap.front (kids (records store.old) gap.node)
        ++ (row.old.items ++ drop gap.back (kids (records store.old) gap.node))
        → CanRaise (finite.remove (records store.old) gap.node) h all
        → Raises (finite.remove (records store.old) gap.node) (records store.new) h all (length all) row.new.items }
    ensures few { 12 * length row.new.items ≤ length row.old.items + 23 }
    ensures ends { (all : _) → all ≡ take gap.front (kids (records store.old) gap.node)
        ++ (row.old.items ++ drop gap.back (kids (records store.old) gap.node))
        → 12 * length row.new.items ≤ length all + 11 }
    ensures spares { spares store.new + length row.new.items ≡ spares store.old + 1 }
    ensures rooms { rooms store.new + length row.new.items ≡ rooms store.old + 1 }
    ensures nodes { nodes store.new ≡ nodes store.old }
    ensures names { vec_capacity row.new ≡ vec_capacity row.old }
    ensures more { vec_capacity below.new ≡ vec_capacity below.old }
{
    list_with(store, gap, row, below, ticks);
    let _ = store.give_back(gap.node);
    raise(store, below, row, ticks);
}
