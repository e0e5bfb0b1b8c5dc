//! Removes a line or a whole node of lines, rebalances on the way up, and lowers a root with one child.

ghost use Rattle.std.specs.Prelude.{◌≡◌, ◌+◌, ◌≤◌, ◌<◌, IfSome, None, length, slice_get, Some};
ghost use Rattle.std.specs.FinMap as finite;
ghost use Rattle.raw_nodes.specs.Names.{records, rooms, spares};
ghost use Rattle.raw_nodes.specs.Rows.{kids};
ghost use Rattle.line_tree.specs.Finds.{HasRow};
ghost use Rattle.line_tree.specs.Shape.{lines_in, sum_at};
ghost use Rattle.line_tree.specs.Shrinking.{CanLower, CanMend, CanRemove, Cleans, Lowers, Removes, Settles};

use crate::fill::lessen;
use crate::select::find_at;
use crate::shrink::{drop_child, kid, mend};
use raw_nodes::{NodePtr, NodeStore, Ticks};
use text_model::WORDS;
use toggle_sums::Sums;

/// Where the child in a slot has less than six children, it shares with a neighbour.
fn settle<C: Ticks>(
    store: &mut NodeStore<C>,
    node: NodePtr,
    slot: usize,
    child: NodePtr,
    ticks: &mut C,
) -> Option<usize>
    requires row { HasRow (records store.old) node }
    requires two { 2 ≤ length (kids (records store.old) node) }
    requires child { slice_get (kids (records store.old) node) slot ≡ Some child }
    requires below { HasRow (records store.old) child }
    requires pairs { CanMend (records store.old) node }
    ensures settles { Settles (records store.old) (records store.new) node slot child result }
    ensures spares { spares store.new ≡ spares store.old }
    ensures rooms { rooms store.new ≡ rooms store.old }
{
    if kid(store, child, 5, ticks).is_some() {
        return None;
    }
    mend(store, node, slot, ticks)
}

/// The lines below a node of a level, of which line `first` is to be the first: at most so many.
#[derive(Clone, Copy)]
pub struct Branch {
    pub level: usize,
    pub first: usize,
    pub most: usize,
}

/// Takes a branch out below a node of this height, and says what is counted of it. `None` where its line isn't the
/// first one of a node of its level, or that has more lines; a line is one of itself.
// By reference, since what is counted takes much room, and is the same at each level.
pub fn remove_in<C: Ticks>(
    store: &mut NodeStore<C>,
    node: NodePtr,
    height: usize,
    branch: Branch,
    less: &mut Sums<WORDS>,
    ticks: &mut C,
) -> Option<NodePtr>
    requires node { branch.level < height }
    requires some { 0 < branch.most }
    requires remove { CanRemove (records store.old) height node branch.first }
    ensures removes { IfSome result (λ x.
        Removes (records store.old) (records store.new) height node branch.first branch.level x) }
    ensures less { IfSome result (λ x. less.new ≡ sum_at (records store.old) x) }
    ensures most { IfSome result (λ x. length (lines_in (records store.old) branch.level x) ≤ branch.most) }
    ensures clean { IfSome result (λ x. Cleans (records store.old) (records store.new) height node branch.level x) }
    ensures none { result ≡ None → (0 < branch.level) × (records store.new ≡ records store.old) }
    ensures spares { spares store.old ≤ spares store.new }
    ensures rooms { rooms store.new + spares store.old ≡ rooms store.old + spares store.new }
    ensures count { spares store.new + finite.len (records store.new)
        ≡ spares store.old + finite.len (records store.old) }
{
    let lines = store.lines(node, ticks);
    let found = find_at(store, node, height - 1, lines, branch.first, ticks);
    if height == branch.level + 1 {
        if found.rest > 0 || found.lines > branch.most {
            return None;
        }
        *less = store.sum(found.child, ticks);
        return Some(drop_child(store, node, found.slot, less, ticks));
    }
    let below = Branch {
        level: branch.level,
        first: found.rest,
        most: branch.most,
    };
    let gone = remove_in(store, found.child, height - 1, below, less, ticks)?;
    match settle(store, node, found.slot, found.child, ticks) {
        Some(slot) => {
            let merged = drop_child(store, node, slot, less, ticks);
            let _ = store.give_back(merged);
        }
        None => lessen(store, node, less, ticks),
    }
    Some(gone)
}

/// A root and its height.
#[derive(Clone, Copy)]
pub struct Top {
    pub root: NodePtr,
    pub height: usize,
}

/// Gives up a root that has one node below it.
pub fn lower<C: Ticks>(store: &mut NodeStore<C>, root: NodePtr, height: usize, ticks: &mut C) -> Top
    requires positive { 0 < height }
    requires lower { CanLower (records store.old) height root }
    ensures lowers { Lowers (records store.old) (records store.new) height root result.height result.root }
    ensures spares { spares store.old ≤ spares store.new }
    ensures rooms { rooms store.new + spares store.old ≡ rooms store.old + spares store.new }
    ensures count { spares store.new + finite.len (records store.new)
        ≡ spares store.old + finite.len (records store.old) }
{
    if height == 1 {
        return Top { root, height };
    }
    if store.children(root) > 1 {
        return Top { root, height };
    }
    let child = kid(store, root, 0, ticks).unwrap();
    store.set_parent(child, None, 0);
    let _ = store.give_back(root);
    Top {
        root: child,
        height: height - 1,
    }
}
