//! Releases a lowest node with its lines, and counts the lines from a given line to the end of its node.

ghost use Rattle.std.specs.Prelude.{◌≡◌, ◌+◌, IfSome, length};
ghost use Rattle.std.specs.FinMap as finite;
ghost use Rattle.raw_nodes.specs.Chain.{rooms_for};
ghost use Rattle.raw_nodes.specs.Names.{IsName, entry, nodes, records, rooms, spares};
ghost use Rattle.raw_nodes.specs.Rows.{kids};
ghost use Rattle.line_tree.specs.Giving.{Without};
ghost use Rattle.line_tree.specs.Shape.{IsTree, lines_in, tree_at};
ghost use Rattle.line_tree.specs.Trees.{names};

use raw_nodes::{NodePtr, NodeStore, Ticks};

/// How many lines stand from a line on below its lowest node; none where it is the first there. More is not promised:
/// what takes a node out looks itself which line is its first.
pub fn lines_from<C: Ticks>(store: &NodeStore<C>, line: NodePtr, ticks: &mut C) -> usize
    requires line { IsName store.now line }
    requires above { IfSome (entry store.now line) (λ r. IfSome r.parent (IsName store.now)) }
    ensures first { IfSome (entry store.now line) (λ r. r.slot ≡ 0 → result ≡ 0) }
{
    let slot = store.slot(line);
    if slot == 0 {
        return 0;
    }
    let Some(node) = store.parent(line, ticks) else {
        return 0;
    };
    store.lines(node, ticks).saturating_sub(slot)
}

/// Gives back a node, and its line, if it is one.
fn let_go<C: Ticks>(store: &mut NodeStore<C>, node: NodePtr)
    requires { IsName store.old node }
    ensures records { records store.new ≡ finite.remove (records store.old) node }
    ensures spares { spares store.new ≡ spares store.old + 1 }
    ensures rooms { IfSome (entry store.old node) (λ r. rooms store.new ≡ rooms store.old + rooms_for r.line) }
    ensures nodes { nodes store.new ≡ nodes store.old }
{
    let _ = store.give_back(node);
}

/// Gives back the lines of a lowest node, which are so many.
fn give_back_lines<C: Ticks>(store: &mut NodeStore<C>, node: NodePtr, count: usize, ticks: &mut C)
    requires tree { IsTree (records store.old) 1 node }
    requires all { count ≡ length (kids (records store.old) node) }
    ensures without { Without (records store.old) (records store.new) (kids (records store.old) node) }
    ensures spares { spares store.new ≡ spares store.old + count }
    ensures rooms { rooms store.new ≡ rooms store.old }
    ensures nodes { nodes store.new ≡ nodes store.old }
{
    for slot in 0..count {
        if let Some(line) = store.child(node, slot, ticks) {
            let_go(store, line);
        }
    }
}

/// Gives back a lowest node that stands in no tree any more, and its lines. Gives how many these are.
pub fn give_back_all<C: Ticks>(store: &mut NodeStore<C>, node: NodePtr, ticks: &mut C) -> usize
    requires tree { IsTree (records store.old) 1 node }
    ensures lines { result ≡ length (lines_in (records store.old) 1 node) }
    ensures without { Without (records store.old) (records store.new) (names 1 (tree_at (records store.old) 1 node)) }
    ensures spares { spares store.new ≡ spares store.old + result + 1 }
    ensures rooms { rooms store.new ≡ rooms store.old + 1 }
    ensures nodes { nodes store.new ≡ nodes store.old }
{
    let lines = store.lines(node, ticks);
    give_back_lines(store, node, lines, ticks);
    let_go(store, node);
    lines
}
