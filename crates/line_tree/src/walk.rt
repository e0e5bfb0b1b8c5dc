//! Finds the line after a given one: up to their common node, then down to the first line.

ghost use Rattle.std.specs.Prelude.{◌≡◌, ℕ, ◌+◌, ◌*◌, ◌≤◌, slice_get, option_map};
ghost use Rattle.raw_nodes.specs.Names.{records};
ghost use Rattle.line_tree.specs.Shape.{IsTree, lines_in, tree_at};
ghost use Rattle.line_tree.specs.Growth.{Stands};
ghost use Rattle.line_tree.specs.Places.{IsLineAt};
ghost use Rattle.line_tree.specs.Trees.{IsBalanced, Named};
ghost use Rattle.line_tree.specs.Walks.{Follows};

use raw_nodes::{NodePtr, NodeStore, Ticks};

/// A node, and how many levels there are below it.
#[derive(Clone, Copy)]
pub struct Subtree {
    pub node: NodePtr,
    pub height: usize,
}

/// The node whose first line is the one behind a line; none behind the last line.
pub fn climb<C: Ticks>(
    store: &NodeStore<C>,
    root: NodePtr,
    height: usize,
    name: NodePtr,
    ticks: &mut C,
) -> Option<Subtree>
    requires stands { Stands (records store.now) height root }
    requires named { (k : ℕ) × IsLineAt (lines_in (records store.now) height root) k name }
    ensures branch { (k : ℕ) → IsLineAt (lines_in (records store.now) height root) k name
        → Follows (records store.now) height root k result }
    ensures ticks { C.count ticks.new ≤ C.count ticks.old + height + 1 }
{
    let mut at = name;
    for level in 0..height {
        let up = store.parent(at, ticks)?;
        let slot = store.slot(at) + 1;
        if slot < store.children(up) {
            let node = store.child(up, slot, ticks)?;
            return Some(Subtree {
                node,
                height: level,
            });
        }
        at = up;
    }
    None
}

/// The name of the first line below a node.
pub fn first<C: Ticks>(store: &NodeStore<C>, branch: Subtree, ticks: &mut C) -> NodePtr
    requires tree { IsTree (records store.now) branch.height branch.node }
    requires balanced { IsBalanced branch.height (tree_at (records store.now) branch.height branch.node) }
    ensures name { IsLineAt (lines_in (records store.now) branch.height branch.node) 0 result }
    ensures ticks { C.count ticks.new ≤ C.count ticks.old + branch.height }
{
    let mut at = branch.node;
    let mut level = branch.height;
    while level > 0 {
        let Some(child) = store.child(at, 0, ticks) else {
            return at;
        };
        at = child;
        level -= 1;
    }
    at
}

/// The name of the line behind one, if there is one.
pub fn behind<C: Ticks>(
    store: &NodeStore<C>,
    root: NodePtr,
    height: usize,
    name: NodePtr,
    ticks: &mut C,
) -> Option<NodePtr>
    requires stands { Stands (records store.now) height root }
    requires named { (k : ℕ) × IsLineAt (lines_in (records store.now) height root) k name }
    ensures value { (k : ℕ) → IsLineAt (lines_in (records store.now) height root) k name
        → result ≡ option_map (λ (l : Named). l.0) (slice_get (lines_in (records store.now) height root) (k + 1)) }
    ensures ticks { C.count ticks.new ≤ C.count ticks.old + 3 * height }
{
    let branch = climb(store, root, height, name, ticks)?;
    Some(first(store, branch, ticks))
}
