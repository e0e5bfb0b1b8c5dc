//! The sum of a prefix of the lines.

ghost use Rattle.std.specs.Prelude.{◌≡◌, ◌≤◌, length, take};
ghost use Rattle.raw_nodes.specs.Names.{records};
ghost use Rattle.line_tree.specs.Changes.{FitsSum};
ghost use Rattle.line_tree.specs.Shape.{IsTree, lines_in};
ghost use Rattle.line_tree.specs.Trees.{total};

use crate::aims::SumBefore;
use crate::search::search;
use raw_nodes::{NodePtr, NodeStore, Ticks};
use text_model::WORDS;
use toggle_sums::{Summary, Sums};

/// The sum of the first `k` lines.
pub fn prefix<C: Ticks>(
    store: &NodeStore<C>,
    root: NodePtr,
    height: usize,
    k: usize,
    ticks: &mut C,
) -> Sums<WORDS>
    requires tree { IsTree (records store.now) height root }
    requires within { k ≤ length (lines_in (records store.now) height root) }
    requires fits { FitsSum (total (lines_in (records store.now) height root)) }
    ensures { result ≡ total (take k (lines_in (records store.now) height root)) }
{
    let all = store.sum(root, ticks);
    let lines = all.lines();
    if k == lines {
        return all;
    }
    let mut before = SumBefore { sum: Sums::zero() };
    let mut at = root;
    let mut rest = k;
    let mut level = height;
    while level > 0 {
        let reached = search(store, at, rest, &mut before, ticks);
        at = reached.child;
        rest = reached.rest;
        level -= 1;
    }
    before.sum
}
