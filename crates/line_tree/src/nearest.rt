//! Finds the next or previous line that has a toggle of a slot or a mark, by the sums of the nodes.

ghost use Rattle.std.specs.Prelude.{◌≡◌, ◌^◌, ◌<◌, ◌≤◌, IfSome, length};
ghost use Rattle.raw_nodes.specs.Names.{IsName, entry, records};
ghost use Rattle.line_lists.specs.Lists.{next_line, previous_line};
ghost use Rattle.line_tree.specs.Nearest.{IsKnown, passes, shows};
ghost use Rattle.line_tree.specs.Shape.{IsTree, lines_in};
ghost use Rattle.line_tree.specs.Trees.{contents};

use raw_nodes::{NodePtr, NodeStore, Ticks};
use text_model::TagSlot;

/// What a line is looked for by.
#[derive(Clone, Copy)]
pub enum Wanted {
    /// A toggle of a slot.
    Toggle(TagSlot),
    /// Any mark.
    Mark,
}

impl Wanted {
    /// Whether one of the lines below a node has it, by their sum.
    #[inline(always)]
    fn is_in<C: Ticks>(self, store: &NodeStore<C>, node: NodePtr, ticks: &mut C) -> bool
        requires known { IsKnown self }
        requires named { IsName store.now node }
        ensures { IfSome (entry store.now node) (λ r. result ≡ shows self r.sum) }
    {
        match self {
            Wanted::Toggle(slot) => store.has_toggle(node, slot, ticks),
            Wanted::Mark => store.marks(node, ticks) > 0,
        }
    }
}

/// The first line below a node, from one on, that has what is wanted. A node whose sum doesn't show it isn't entered.
pub fn next<C: Ticks>(
    store: &NodeStore<C>,
    node: NodePtr,
    height: usize,
    wanted: Wanted,
    from: usize,
    ticks: &mut C,
) -> Option<usize>
    requires tree { IsTree (records store.now) height node }
    requires fits { length (lines_in (records store.now) height node) < 2 ^ 64 }
    requires known { IsKnown wanted }
    ensures { result ≡ next_line (passes wanted) from (contents (lines_in (records store.now) height node)) }
{
    if from >= store.lines(node, ticks) || !wanted.is_in(store, node, ticks) {
        return None;
    }
    if height == 0 {
        return Some(0);
    }
    let mut before = 0;
    for slot in 0..12 {
        if let Some(child) = store.child(node, slot, ticks) {
            let lines = store.lines(child, ticks);
            let rest = from.saturating_sub(before);
            if rest < lines && wanted.is_in(store, child, ticks) {
                if height == 1 {
                    return Some(before);
                }
                if let Some(found) = next(store, child, height - 1, wanted, rest, ticks) {
                    return Some(before + found);
                }
            }
            before += lines;
        }
    }
    None
}

/// The last line below a node, below one, that has what is wanted. A node whose sum doesn't show it isn't entered.
pub fn previous<C: Ticks>(
    store: &NodeStore<C>,
    node: NodePtr,
    height: usize,
    wanted: Wanted,
    to: usize,
    ticks: &mut C,
) -> Option<usize>
    requires tree { IsTree (records store.now) height node }
    requires within { to ≤ length (lines_in (records store.now) height node) }
    requires known { IsKnown wanted }
    ensures { result ≡ previous_line (passes wanted) to (contents (lines_in (records store.now) height node)) }
{
    if to == 0 || !wanted.is_in(store, node, ticks) {
        return None;
    }
    if height == 0 {
        return Some(0);
    }
    let mut before = store.lines(node, ticks);
    let mut slot = 12;
    while slot > 0 {
        slot -= 1;
        if let Some(child) = store.child(node, slot, ticks) {
            let lines = store.lines(child, ticks);
            before -= lines;
            let rest = to.saturating_sub(before).min(lines);
            if rest > 0 && wanted.is_in(store, child, ticks) {
                if height == 1 {
                    return Some(before);
                }
                if let Some(found) = previous(store, child, height - 1, wanted, rest, ticks) {
                    return Some(before + found);
                }
            }
        }
    }
    None
}
