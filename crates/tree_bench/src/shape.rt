//! Walks all nodes of a tree, and counts wrong links, sizes and numbers of children.

ghost use Rattle.std.specs.Prelude.{◌≡◌, ◌-◌, ◌<◌, Some};
ghost use Rattle.raw_nodes.specs.Names.{IsName, records};
ghost use Rattle.raw_nodes.specs.declared.names.NodePtr.{NodePtr};
ghost use Rattle.line_tree.specs.Places.{IsChild};
ghost use Rattle.line_tree.specs.Shape.{IsLinked, IsTree};

use crate::counter::Counter;
use line_tree::LineTree;
use raw_nodes::{NodePtr, NodeStore};
use text_model::WORDS;
use toggle_sums::Sums;

/// What is counted of some text.
#[derive(Clone, Copy)]
struct Size {
    lines: usize,
    characters: usize,
    marks: usize,
    is_bare: bool,
}

impl Size {
    fn zero() -> Size {
        Size {
            lines: 0,
            characters: 0,
            marks: 0,
            is_bare: true,
        }
    }

    fn of(sum: &Sums<WORDS>) -> Size {
        Size {
            lines: sum.lines(),
            characters: sum.characters(),
            marks: sum.marks(),
            is_bare: sum.is_bare(),
        }
    }

    fn plus(&self, other: &Size) -> Size {
        Size {
            lines: self.lines.wrapping_add(other.lines),
            characters: self.characters.wrapping_add(other.characters),
            marks: self.marks.wrapping_add(other.marks),
            is_bare: self.is_bare && other.is_bare,
        }
    }

    fn is(&self, other: &Size) -> bool {
        self.lines == other.lines
            && self.characters == other.characters
            && self.marks == other.marks
            && self.is_bare == other.is_bare
    }
}

/// A walk over all nodes, from left to right, beside a plain list of how long each line is to be.
#[derive(Clone, Copy)]
struct Walk<'a> {
    plain: &'a [usize],
    /// How many lines it came by.
    lines: usize,
    /// How much wasn't as it is to be.
    faults: usize,
}

impl Walk<'_> {
    fn expect(&mut self, is_right: bool) {
        self.faults = self.faults.wrapping_add(!is_right as usize);
    }
}

/// Whether a child knows its parent, and the slot where it stands.
fn is_linked(
    store: &NodeStore<Counter>,
    node: NodePtr,
    slot: usize,
    child: NodePtr,
    ticks: &mut Counter,
) -> bool
    requires node { IsName store.now node }
    requires link { IsLinked (records store.now) node slot child }
{
    match store.parent(child, ticks) {
        Some(parent) => store.same(parent, node) && store.slot(child) == slot,
        None => false,
    }
}

/// The child in a slot.
fn child_in(
    store: &NodeStore<Counter>,
    node: NodePtr,
    height: usize,
    slot: usize,
    ticks: &mut Counter,
) -> Option<NodePtr>
    requires node { 0 < height }
    requires tree { IsTree (records store.now) height node }
    requires slot { slot < 12 }
    ensures { (c : NodePtr) → result ≡ Some c → IsChild (records store.now) (height - 1) node slot c }
{
    store.child(node, slot, ticks)
}

/// A line, which is to be the next one of the list.
fn walk_line(store: &NodeStore<Counter>, name: NodePtr, walk: &mut Walk<'_>) -> Size
    requires { IsName store.now name }
{
    let plain = walk.plain;
    let next = walk.lines;
    walk.lines = next.wrapping_add(1);
    match store.line(name) {
        Some(line) => {
            walk.expect(next < plain.len() && plain[next] == line.len());
            Size::of(&line.sum())
        }
        None => {
            walk.expect(false);
            Size::zero()
        }
    }
}

/// A node with so many children at least, and all that is below it.
fn walk_below(
    store: &NodeStore<Counter>,
    node: NodePtr,
    height: usize,
    least: usize,
    walk: &mut Walk<'_>,
    ticks: &mut Counter,
) -> Size
    requires { IsTree (records store.now) height node }
{
    if height == 0 {
        return walk_line(store, node, walk);
    }
    let count = store.children(node);
    walk.expect(store.line(node).is_none() && least <= count && count <= 12);
    let mut size = Size::zero();
    for slot in 0..12 {
        if let Some(child) = child_in(store, node, height, slot, ticks) {
            let below = walk_below(store, child, height - 1, 6, walk, ticks);
            walk.expect(slot < count && is_linked(store, node, slot, child, ticks));
            size = size.plus(&below);
        } else {
            walk.expect(count <= slot);
        }
    }
    walk.expect(size.is(&Size::of(&store.sum(node, ticks))));
    size
}

/// How much of the nodes of a tree isn't as it is to be, of which the lines' lengths are given.
pub fn count_faults(tree: &LineTree<Counter>, plain: &[usize], ticks: &mut Counter) -> usize {
    let (root, store) = tree.nodes();
    let height = tree.height();
    let least = if height == 1 { 1 } else { 2 };
    let mut walk = Walk {
        plain,
        lines: 0,
        faults: 0,
    };
    walk.expect(store.parent(root, ticks).is_none());
    walk_below(store, root, height, least, &mut walk, ticks);
    let is_whole = walk.lines == plain.len() && tree.len() == plain.len();
    walk.expect(is_whole);
    walk.faults
}
