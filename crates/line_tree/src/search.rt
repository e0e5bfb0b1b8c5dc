//! Searches for a place among a node's children from either end, and descends from a root to a line.

ghost use Rattle.std.specs.Prelude.{◌≡◌, ◌+◌, ◌-◌, ◌*◌, ◌<◌, ◌≤◌, IfSome};
ghost use Rattle.raw_nodes.specs.Names.{records};
ghost use Rattle.line_tree.specs.Finds.{HasRow};
ghost use Rattle.line_tree.specs.Searches.{Arrives, Reaches, sum_before, sum_below};
ghost use Rattle.line_tree.specs.Shape.{IsTree, lines_in, sum_at};
ghost use Rattle.line_tree.specs.Trees.{total};

use crate::aims::{Aim, AimBack};
use raw_nodes::{NodePtr, NodeStore, Ticks};

/// A child, its slot, what was read of it, and how far in it the place is that is looked for.
#[derive(Clone, Copy)]
pub struct Reached<S> {
    pub child: NodePtr,
    pub slot: usize,
    pub size: S,
    pub rest: usize,
}

/// A place that is looked for: place `k` below a node, whose size may be known.
#[derive(Clone, Copy)]
pub struct Sought<S> {
    pub node: NodePtr,
    pub size: Option<S>,
    pub k: usize,
}

/// The child in which place `k` of a node is, from the first child on.
#[inline(always)]
pub fn search<C: Ticks, A: Aim>(
    store: &NodeStore<C>,
    node: NodePtr,
    k: usize,
    aim: &mut A,
    ticks: &mut C,
) -> Reached<A::Size>
    requires row { HasRow (records store.now) node }
    requires within { k < A.wide (sum_below (records store.now) node) }
    requires fits { A.fits aim.old (sum_below (records store.now) node) }
    ensures reaches { Reaches A.sized A.wide (records store.now) node k result }
    ensures aim { aim.new ≡ A.behind aim.old (sum_before (records store.now) node result.slot) }
    ensures ticks { C.count ticks.new ≤ C.count ticks.old + 12 * (A.steps + 2) }
{
    let mut rest = k;
    for slot in 0..12 {
        if let Some(child) = store.child(node, slot, ticks) {
            let size = A::read(store, child, ticks);
            let width = A::width(&size);
            if rest < width {
                return Reached {
                    child,
                    slot,
                    size,
                    rest,
                };
            }
            rest -= width;
            aim.pass(store, child, &size, ticks);
        }
    }
    unreachable!()
}

/// The same by how many stand behind the place, from the last child back. At first the aim says what stands before the
/// node's end.
#[inline(always)]
pub fn search_back<C: Ticks, A: AimBack>(
    store: &NodeStore<C>,
    node: NodePtr,
    behind: usize,
    aim: &mut A,
    ticks: &mut C,
) -> Reached<A::Size>
    requires row { HasRow (records store.now) node }
    requires some { 0 < behind }
    requires within { behind ≤ A.wide (sum_below (records store.now) node) }
    requires before { (a : A) × (aim.old ≡ A.behind a (sum_below (records store.now) node)) }
    ensures reaches { Reaches A.sized A.wide (records store.now) node
        (A.wide (sum_below (records store.now) node) - behind) result }
    ensures aim { (a : A) → aim.old ≡ A.behind a (sum_below (records store.now) node)
        → aim.new ≡ A.behind a (sum_before (records store.now) node result.slot) }
    ensures ticks { C.count ticks.new ≤ C.count ticks.old + 12 * (A.steps + 2) }
{
    let mut rest = behind;
    for back in 0..12 {
        let slot = 11 - back;
        if let Some(child) = store.child(node, slot, ticks) {
            let size = A::read(store, child, ticks);
            let width = A::width(&size);
            aim.go_back(store, child, &size, ticks);
            if rest <= width {
                return Reached {
                    child,
                    slot,
                    size,
                    rest: width - rest,
                };
            }
            rest -= width;
        }
    }
    unreachable!()
}

/// The same from the end of the node that is nearer to the place, where the node's size is known.
#[inline(always)]
fn search_near<C: Ticks, A: AimBack>(
    store: &NodeStore<C>,
    sought: Sought<A::Size>,
    aim: &mut A,
    ticks: &mut C,
) -> Reached<A::Size>
    requires row { HasRow (records store.now) sought.node }
    requires within { sought.k < A.wide (sum_below (records store.now) sought.node) }
    requires fits { A.fits aim.old (sum_below (records store.now) sought.node) }
    requires whole { sum_at (records store.now) sought.node ≡ sum_below (records store.now) sought.node }
    requires size { IfSome sought.size (λ s. s ≡ A.sized (sum_at (records store.now) sought.node)) }
    ensures reaches { Reaches A.sized A.wide (records store.now) sought.node sought.k result }
    ensures aim { aim.new ≡ A.behind aim.old (sum_before (records store.now) sought.node result.slot) }
    ensures ticks { C.count ticks.new ≤ C.count ticks.old + (A.steps + 12 * (A.steps + 2)) }
{
    let Sought { node, size, k } = sought;
    if let Some(size) = size {
        let width = A::width(&size);
        if k >= width / 2 {
            aim.pass(store, node, &size, ticks);
            return search_back(store, node, width - k, aim, ticks);
        }
    }
    search(store, node, k, aim, ticks)
}

/// A line, by its name, and how far in it a place is.
#[derive(Clone, Copy)]
pub struct Arrived {
    pub name: NodePtr,
    pub rest: usize,
}

/// The line in which the place that is looked for is, below a root of this height.
#[inline(always)]
pub fn descend<C: Ticks, A: AimBack>(
    store: &NodeStore<C>,
    height: usize,
    sought: Sought<A::Size>,
    aim: &mut A,
    ticks: &mut C,
) -> Arrived
    requires tree { IsTree (records store.now) height sought.node }
    requires size { IfSome sought.size (λ s. s ≡ A.sized (sum_at (records store.now) sought.node)) }
    requires within { sought.k < A.wide (total (lines_in (records store.now) height sought.node)) }
    requires fits { A.fits aim.old (total (lines_in (records store.now) height sought.node)) }
    ensures arrives { Arrives A.wide A.behind (lines_in (records store.now) height sought.node) sought.k aim.old
        aim.new result }
    ensures ticks { C.count ticks.new ≤ C.count ticks.old + (A.steps + 12 * (A.steps + 2)) * height }
{
    let mut here = sought;
    let mut level = height;
    while level > 0 {
        let reached = search_near(store, here, aim, ticks);
        here = Sought {
            node: reached.child,
            size: Some(reached.size),
            k: reached.rest,
        };
        level -= 1;
    }
    Arrived {
        name: here.node,
        rest: here.k,
    }
}
