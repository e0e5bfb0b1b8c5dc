//! Removes a child of a node, and merges or evens out neighbours with too few children.

ghost use Rattle.std.specs.Prelude.{◌≡◌, ◌+◌, ◌≤◌, ◌<◌, ◌++◌, length, slice_get, slice_index_or, take, drop};
ghost use Rattle.std.specs.Prelude.{IfSome, None, Some};
ghost use Rattle.std.specs.List.{remove};
ghost use Rattle.raw_nodes.specs.Names.{IsName, entry, records, rooms, spares};
ghost use Rattle.raw_nodes.specs.Rows.{kids, row};
ghost use Rattle.line_tree.specs.Finds.{HasRow};
ghost use Rattle.toggle_sums.specs.Counts.{plus};
ghost use Rattle.line_tree.specs.Shape.{Links, sum_at};
ghost use Rattle.line_tree.specs.Changes.{CanEven, CanFill, Evens, Halves, Mends, refilled, relinked, shared, sum_all};
ghost use Rattle.line_tree.specs.Shrinking.{CanMend};

use crate::fill::{lessen, lessen_sum, link, refill, sum_of};
use raw_nodes::{NodePtr, NodeStore, Ticks};
use text_model::WORDS;
use toggle_sums::Sums;

/// Number `i` of a node's children.
pub fn kid<C: Ticks>(
    store: &NodeStore<C>,
    node: NodePtr,
    i: usize,
    ticks: &mut C,
) -> Option<NodePtr>
    requires row { HasRow (records store.now) node }
    requires index { i < 12 }
    ensures { result ≡ slice_get (kids (records store.now) node) i }
{
    store.child(node, i, ticks)
}

/// Number `i` of the children of two nodes, of which the left one has so many.
fn pick_pair<C: Ticks>(
    store: &NodeStore<C>,
    left: NodePtr,
    right: NodePtr,
    count: usize,
    i: usize,
    ticks: &mut C,
) -> Option<NodePtr>
    requires left { HasRow (records store.now) left }
    requires right { HasRow (records store.now) right }
    requires count { count ≡ length (kids (records store.now) left) }
    ensures { result ≡ slice_get (kids (records store.now) left ++ kids (records store.now) right) i }
{
    if i < count {
        store.child(left, i, ticks)
    } else if i - count < 12 {
        store.child(right, i - count, ticks)
    } else {
        None
    }
}

/// Of the children of two nodes `count` from `from` on.
fn part_pair<C: Ticks>(
    store: &NodeStore<C>,
    left: NodePtr,
    right: NodePtr,
    from: usize,
    count: usize,
    ticks: &mut C,
) -> [Option<NodePtr>; 12]
    requires left { HasRow (records store.now) left }
    requires right { HasRow (records store.now) right }
    requires count { count ≤ 12 }
    requires from { from ≤ 24 }
    ensures { result ≡ row (take count (drop from (kids (records store.now) left ++ kids (records store.now) right))) }
{
    let first = store.children(left);
    let mut part = [None; 12];
    for i in 0..12 {
        part[i] = if i < count {
            pick_pair(store, left, right, first, from + i, ticks)
        } else {
            None
        };
    }
    part
}

/// What is counted of the first `half` children of two nodes, and of the others. Of those only the ones that change
/// sides are looked at; which slots are toggled is asked of those that stay where some went, if some are in what went.
fn sum_halves<C: Ticks>(
    store: &NodeStore<C>,
    left: NodePtr,
    right: NodePtr,
    half: usize,
    stay: &[Option<NodePtr>; 12],
    ticks: &mut C,
) -> (Sums<WORDS>, Sums<WORDS>)
    requires even { CanEven (records store.now) left right }
    requires half { half ≤ 12 }
    requires back { length (kids (records store.now) left) < half
        → stay.now ≡ row (drop half (kids (records store.now) left ++ kids (records store.now) right)) }
    requires front { half ≤ length (kids (records store.now) left)
        → stay.now ≡ row (take half (kids (records store.now) left ++ kids (records store.now) right)) }
    ensures first { result.0 ≡ sum_all (records store.now)
        (take half (kids (records store.now) left ++ kids (records store.now) right)) }
    ensures last { result.1 ≡ sum_all (records store.now)
        (drop half (kids (records store.now) left ++ kids (records store.now) right)) }
{
    let first = store.children(left);
    let mut sum_left = store.sum(left, ticks);
    let mut sum_right = store.sum(right, ticks);
    if first < half {
        let moved = part_pair(store, left, right, first, half - first, ticks);
        let sum = sum_of(store, &moved, ticks);
        sum_left.add(&sum);
        lessen_sum(store, stay, &mut sum_right, &sum, ticks);
        (sum_left, sum_right)
    } else {
        let moved = part_pair(store, left, right, half, first - half, ticks);
        let sum = sum_of(store, &moved, ticks);
        lessen_sum(store, stay, &mut sum_left, &sum, ticks);
        sum_right.add(&sum);
        (sum_left, sum_right)
    }
}

/// Gives the first `half` children of two nodes to the left one, and the others to the right one.
pub fn share<C: Ticks>(
    store: &mut NodeStore<C>,
    left: NodePtr,
    right: NodePtr,
    half: usize,
    ticks: &mut C,
)
    requires even { CanEven (records store.old) left right }
    requires half { Halves (length (kids (records store.old) left ++ kids (records store.old) right)) half }
    ensures records { records store.new ≡ shared (records store.old) left right half }
    ensures spares { spares store.new ≡ spares store.old }
    ensures rooms { rooms store.new ≡ rooms store.old }
{
    let first = store.children(left);
    let front = part_pair(store, left, right, 0, half, ticks);
    let back = part_pair(store, left, right, half, 12, ticks);
    let stay = if first < half { &back } else { &front };
    let (sum_front, sum_back) = sum_halves(store, left, right, half, stay, ticks);
    refill(store, left, first.min(half), &front, &sum_front);
    refill(store, right, 0, &back, &sum_back);
}

/// Gives all children of two nodes to the left one, where it can have them and one more, and else half to each: a node
/// that one line goes out of and another comes into doesn't merge and split by turns.
fn even<C: Ticks>(store: &mut NodeStore<C>, left: NodePtr, right: NodePtr, ticks: &mut C) -> bool
    requires { CanEven (records store.old) left right }
    ensures evens { Evens (records store.old) (records store.new) left right result }
    ensures spares { spares store.new ≡ spares store.old }
    ensures rooms { rooms store.new ≡ rooms store.old }
{
    let first = store.children(left);
    let count = first + store.children(right);
    if count < 12 {
        let all = part_pair(store, left, right, 0, 12, ticks);
        let mut sum = store.sum(left, ticks);
        store.add_sum_to(right, &mut sum, ticks);
        refill(store, left, first, &all, &sum);
        true
    } else {
        share(store, left, right, count / 2, ticks);
        false
    }
}

/// Shares out the children of the node in a slot and of a neighbour. Where one has them all, it is the left one, and
/// the slot of the other is given.
pub fn mend<C: Ticks>(
    store: &mut NodeStore<C>,
    node: NodePtr,
    slot: usize,
    ticks: &mut C,
) -> Option<usize>
    requires row { HasRow (records store.old) node }
    requires two { 2 ≤ length (kids (records store.old) node) }
    requires slot { slot < length (kids (records store.old) node) }
    requires pairs { CanMend (records store.old) node }
    ensures mends { Mends (records store.old) (records store.new) node slot result }
    ensures spares { spares store.new ≡ spares store.old }
    ensures rooms { rooms store.new ≡ rooms store.old }
{
    let at = slot.saturating_sub(1);
    let left = kid(store, node, at, ticks).unwrap();
    let right = kid(store, node, at + 1, ticks).unwrap();
    let merged = even(store, left, right, ticks);
    if merged { Some(at + 1) } else { None }
}

/// The child in the slot behind one, if there is one.
fn kid_behind<C: Ticks>(
    store: &NodeStore<C>,
    node: NodePtr,
    slot: usize,
    ticks: &mut C,
) -> Option<NodePtr>
    requires name { IsName store.now node }
    requires long { IfSome (entry store.now node) (λ r. length r.children ≡ 12) }
    requires slot { slot < 12 }
    ensures { IfSome (entry store.now node) (λ r. result ≡ slice_index_or r.children (slot + 1) None) }
{
    if slot < 11 {
        store.child(node, slot + 1, ticks)
    } else {
        None
    }
}

/// Puts each child behind a slot of a node one slot back, so that the one in the slot stands there no more.
fn close<C: Ticks>(store: &mut NodeStore<C>, node: NodePtr, slot: usize, ticks: &mut C)
    requires row { HasRow (records store.old) node }
    requires links { Links (records store.old) node 0 (kids (records store.old) node) }
    requires slot { slot < length (kids (records store.old) node) }
    requires fill { CanFill (records store.old) node (remove (kids (records store.old) node) slot) }
    ensures records { records store.new
        ≡ relinked (records store.old) node 0 (row (remove (kids (records store.old) node) slot)) }
    ensures spares { spares store.new ≡ spares store.old }
    ensures rooms { rooms store.new ≡ rooms store.old }
{
    let mut at = slot;
    let mut next = kid_behind(store, node, at, ticks);
    while let Some(child) = next {
        link(store, node, at, Some(child));
        at += 1;
        next = kid_behind(store, node, at, ticks);
    }
    link(store, node, at, None);
}

/// Takes a child out of a node, below which stands so much less then. Those before it stay where they are.
pub fn drop_child<C: Ticks>(
    store: &mut NodeStore<C>,
    node: NodePtr,
    slot: usize,
    less: &Sums<WORDS>,
    ticks: &mut C,
) -> NodePtr
    requires row { HasRow (records store.old) node }
    requires links { Links (records store.old) node 0 (kids (records store.old) node) }
    requires slot { slot < length (kids (records store.old) node) }
    requires fill { CanFill (records store.old) node (remove (kids (records store.old) node) slot) }
    requires sum { plus (sum_all (records store.old) (remove (kids (records store.old) node) slot)) less.now
        ≡ sum_at (records store.old) node }
    ensures child { slice_get (kids (records store.old) node) slot ≡ Some result }
    ensures records { records store.new
        ≡ refilled (records store.old) node (row (remove (kids (records store.old) node) slot)) }
    ensures spares { spares store.new ≡ spares store.old }
    ensures rooms { rooms store.new ≡ rooms store.old }
{
    let gone = kid(store, node, slot, ticks).unwrap();
    close(store, node, slot, ticks);
    lessen(store, node, less, ticks);
    gone
}
