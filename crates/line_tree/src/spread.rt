//! Moves children of a full node to a neighbour that has space, so that no split is needed.

ghost use Rattle.std.specs.Prelude.{◌≡◌, ◌+◌, ◌<◌, ◌≤◌, IfSome, length, slice_get, true, false, Some, None};
ghost use Rattle.raw_nodes.specs.Names.{records, rooms, spares};
ghost use Rattle.raw_nodes.specs.Rows.{kids};
ghost use Rattle.line_tree.specs.Finds.{HasRow};
ghost use Rattle.line_tree.specs.Spreading.{CanSpread, IsHemmed, IsPair, IsRoomy, Spreads, first_part, is_filled};

use crate::find::Found;
use crate::shrink::{kid, share};
use raw_nodes::{NodePtr, NodeStore, Ticks};

/// How much room a neighbour has at least that shares: so that both have some then, and each share moves a few at once.
const ROOM: usize = 4;

/// Whether a node has room for so many more children.
fn has_room<C: Ticks>(store: &NodeStore<C>, node: NodePtr, room: usize, ticks: &mut C) -> bool
    requires row { HasRow (records store.now) node }
    requires some { 0 < room }
    requires few { room ≤ 12 }
    ensures yes { result ≡ true → length (kids (records store.now) node) + room ≤ 12 }
    ensures no { result ≡ false → 12 < length (kids (records store.now) node) + room }
{
    kid(store, node, 12 - room, ticks).is_none()
}

/// Whether a child stands in a slot, and has room for four more.
fn is_roomy<C: Ticks>(store: &NodeStore<C>, node: NodePtr, slot: usize, ticks: &mut C) -> bool
    requires spread { CanSpread (records store.now) node }
    requires slot { slot < 12 }
    ensures yes { result ≡ true → IsRoomy (records store.now) node slot }
    ensures no { result ≡ false → IsRoomy (records store.now) node slot → ⊥ }
{
    match kid(store, node, slot, ticks) {
        Some(child) => has_room(store, child, ROOM, ticks),
        None => false,
    }
}

/// The slot of the left one of two neighbours, of which one stands in a slot and the other has room: the one on its
/// left, if there is one and it has, else the one on its right.
fn neighbours<C: Ticks>(
    store: &NodeStore<C>,
    node: NodePtr,
    slot: usize,
    ticks: &mut C,
) -> Option<usize>
    requires spread { CanSpread (records store.now) node }
    requires slot { slot < length (kids (records store.now) node) }
    ensures some { IfSome result (IsPair (records store.now) node slot) }
    ensures none { result ≡ None → IsHemmed (records store.now) node slot }
{
    if slot > 0 {
        if is_roomy(store, node, slot - 1, ticks) {
            return Some(slot - 1);
        }
    }
    if slot >= 11 {
        return None;
    }
    if is_roomy(store, node, slot + 1, ticks) {
        Some(slot)
    } else {
        None
    }
}

/// Whether the left one of two neighbours gets all that it can have: where lines come in order, and the next one goes
/// into the later half of the right one.
fn fills(found: &Found, at: usize, in_order: bool) -> bool
    ensures { result ≡ is_filled found.now at in_order }
{
    in_order && at < found.slot && found.lines / 2 < found.rest
}

/// How many of the children of two neighbours the left one gets.
fn left_part(count: usize, fills: bool) -> usize
    ensures { result ≡ first_part count fills }
{
    if fills { 12 } else { count / 2 }
}

/// Where the found child of a node is full and one beside it has room, the two share their children. Where lines come
/// in order, and the next one goes into the later half of that child, the one on its left is filled: so they leave full
/// nodes behind.
pub fn spread<C: Ticks>(
    store: &mut NodeStore<C>,
    node: NodePtr,
    found: &Found,
    in_order: bool,
    ticks: &mut C,
) -> bool
    requires spread { CanSpread (records store.old) node }
    requires child { slice_get (kids (records store.old) node) found.now.slot ≡ Some found.now.child }
    ensures spreads { Spreads (records store.old) (records store.new) node found.now in_order result }
    ensures spares { spares store.new ≡ spares store.old }
    ensures rooms { rooms store.new ≡ rooms store.old }
{
    if has_room(store, found.child, 1, ticks) {
        return false;
    }
    let Some(at) = neighbours(store, node, found.slot, ticks) else {
        return false;
    };
    let left = kid(store, node, at, ticks).unwrap();
    let right = kid(store, node, at + 1, ticks).unwrap();
    let count = store.children(left) + store.children(right);
    let half = left_part(count, fills(found, at, in_order));
    share(store, left, right, half, ticks);
    true
}
