//! Links children to a node, updates its sum, and adds a child, with a split if the node is full.

ghost use Rattle.std.specs.Prelude.{◌≡◌, ℕ, ◌+◌, ◌*◌, ◌≤◌, ◌<◌, length, slice_get, take, drop, option_to_list, []};
ghost use Rattle.std.specs.Prelude.{◌∷◌, false, true};
ghost use Rattle.std.specs.List.{insert};
ghost use Rattle.raw_nodes.specs.Names.{IsInner, IsName, records, rooms, spares};
ghost use Rattle.raw_nodes.specs.Rows.{kids, row};
ghost use Rattle.toggle_sums.specs.Counts.{IsWithin, no_text, plus};
ghost use Rattle.line_tree.specs.Finds.{HasRow};
ghost use Rattle.line_tree.specs.Shape.{sum_at};
ghost use Rattle.line_tree.specs.Growth.{NewRoot};
ghost use Rattle.line_tree.specs.Changes.{CanFill, CanPut, FitsSum, Puts, Stay, link_one, refilled, relinked, resummed};
ghost use Rattle.line_tree.specs.Changes.{sum_all, sums};

use raw_nodes::{NodePtr, NodeStore, Ticks};
use text_model::WORDS;
use toggle_sums::{Exchange, Summary, Sums};

/// Puts a child into a slot, or takes out the one that is there.
pub fn link<C: Ticks>(store: &mut NodeStore<C>, node: NodePtr, slot: usize, child: Option<NodePtr>)
    requires node { IsInner store.old node }
    requires slot { slot < 12 }
    requires child { (c : _) → child ≡ Some c → IsName store.old c }
    ensures records { records store.new ≡ link_one (records store.old) node slot child }
    ensures spares { spares store.new ≡ spares store.old }
    ensures rooms { rooms store.new ≡ rooms store.old }
{
    store.set_child(node, slot, child);
    if let Some(child) = child {
        store.set_parent(child, Some(node), slot as u32);
    }
}

/// Gives a node these children, of which the first stay where they are.
pub fn relink<C: Ticks>(
    store: &mut NodeStore<C>,
    node: NodePtr,
    from: usize,
    children: &[Option<NodePtr>; 12],
)
    requires node { IsInner store.old node }
    requires from { from ≤ 12 }
    requires children { (i : ℕ) (c : _) → slice_get children.now i ≡ Some (Some c) → IsName store.old c }
    ensures records { records store.new ≡ relinked (records store.old) node from (drop from children.now) }
    ensures spares { spares store.new ≡ spares store.old }
    ensures rooms { rooms store.new ≡ rooms store.old }
{
    for slot in from..12 {
        link(store, node, slot, children[slot]);
    }
}

/// Adds the sums of a node's children to an empty sum, in their order, until all slots that are toggled in `gone` are
/// toggled in it. Returns whether they are; if not, the sum is that of all children.
fn add_until_within<C: Ticks>(
    store: &NodeStore<C>,
    node: NodePtr,
    gone: &Sums<WORDS>,
    sum: &mut Sums<WORDS>,
    ticks: &mut C,
) -> bool
    requires row { HasRow (records store.now) node }
    requires fits { FitsSum (sums (records store.now) (row (kids (records store.now) node))) }
    requires empty { sum.old ≡ no_text }
    ensures found { result ≡ true → IsWithin gone.now (sums (records store.now) (row (kids (records store.now) node))) }
    ensures whole { result ≡ false → sum.new ≡ sums (records store.now) (row (kids (records store.now) node)) }
{
    for slot in 0..12 {
        if let Some(child) = store.child(node, slot, ticks) {
            store.add_sum_to(child, sum, ticks);
            if gone.is_within(sum) {
                return true;
            }
        }
    }
    false
}

/// Makes a node's sum that of its children, in which one line's counts came for another's. Where some slots are in what
/// went and not in what came, the children are asked for these, as far as they have to be.
pub fn exchange_sum<C: Ticks>(
    store: &mut NodeStore<C>,
    node: NodePtr,
    exchange: &Exchange<'_>,
    ticks: &mut C,
)
    requires row { HasRow (records store.old) node }
    requires sum { plus (sums (records store.old) (row (kids (records store.old) node))) exchange.now.gone.now
        ≡ plus (sum_at (records store.old) node) exchange.now.more.now }
    requires came { IsWithin exchange.now.more.now (sums (records store.old) (row (kids (records store.old) node))) }
    requires went { IsWithin exchange.now.gone.now (sum_at (records store.old) node) }
    requires fits { FitsSum (plus (sum_at (records store.old) node) exchange.now.more.now) }
    ensures records { records store.new ≡ resummed (records store.old) node (row (kids (records store.old) node)) }
    ensures spares { spares store.new ≡ spares store.old }
    ensures rooms { rooms store.new ≡ rooms store.old }
{
    if !exchange.is_within {
        let mut sum = Sums::zero();
        if !add_until_within(store, node, exchange.gone, &mut sum, ticks) {
            store.set_sum(node, &sum);
            return;
        }
    }
    store.exchange(node, exchange);
}

/// Makes a node's sum that of its children, below which stands so much more than before.
pub fn add<C: Ticks>(store: &mut NodeStore<C>, node: NodePtr, more: &Sums<WORDS>)
    requires row { HasRow (records store.old) node }
    requires sum { plus (sum_at (records store.old) node) more.now
        ≡ sums (records store.old) (row (kids (records store.old) node)) }
    requires fits { FitsSum (sums (records store.old) (row (kids (records store.old) node))) }
    ensures records { records store.new ≡ resummed (records store.old) node (row (kids (records store.old) node)) }
    ensures spares { spares store.new ≡ spares store.old }
    ensures rooms { rooms store.new ≡ rooms store.old }
{
    store.add_sum(node, more);
}

/// Makes a node's sum that of its children, below which stands so much less than before. Where slots are toggled in
/// what went, the children are asked for these, as far as they have to be.
pub fn lessen<C: Ticks>(store: &mut NodeStore<C>, node: NodePtr, gone: &Sums<WORDS>, ticks: &mut C)
    requires row { HasRow (records store.old) node }
    requires sum { plus (sums (records store.old) (row (kids (records store.old) node))) gone.now
        ≡ sum_at (records store.old) node }
    requires fits { FitsSum (sums (records store.old) (row (kids (records store.old) node))) }
    ensures records { records store.new ≡ resummed (records store.old) node (row (kids (records store.old) node)) }
    ensures spares { spares store.new ≡ spares store.old }
    ensures rooms { rooms store.new ≡ rooms store.old }
{
    if gone.is_bare() {
        store.lose_counts(node, gone.lines(), gone.characters(), gone.marks());
        return;
    }
    let mut sum = Sums::zero();
    if add_until_within(store, node, gone, &mut sum, ticks) {
        sum = store.sum(node, ticks);
        sum.lose(gone);
    }
    store.set_sum(node, &sum);
}

/// What is counted of the text below these nodes.
pub fn sum_of<C: Ticks>(
    store: &NodeStore<C>,
    nodes: &[Option<NodePtr>; 12],
    ticks: &mut C,
) -> Sums<WORDS>
    requires nodes { (i : ℕ) (c : _) → slice_get nodes.now i ≡ Some (Some c) → IsName store.now c }
    requires fits { FitsSum (sums (records store.now) nodes.now) }
    ensures { result ≡ sums (records store.now) nodes.now }
{
    let mut sum = Sums::zero();
    for slot in 0..12 {
        if let Some(node) = nodes[slot] {
            store.add_sum_to(node, &mut sum, ticks);
        }
    }
    sum
}

/// Makes a sum that of these nodes, which is that much less. Which slots are toggled is asked of them, where some are
/// in what went.
pub fn lessen_sum<C: Ticks>(
    store: &NodeStore<C>,
    nodes: &[Option<NodePtr>; 12],
    sum: &mut Sums<WORDS>,
    gone: &Sums<WORDS>,
    ticks: &mut C,
)
    requires nodes { (i : ℕ) (c : _) → slice_get nodes.now i ≡ Some (Some c) → IsName store.now c }
    requires sum { plus (sums (records store.now) nodes.now) gone.now ≡ sum.old }
    requires fits { FitsSum (sums (records store.now) nodes.now) }
    ensures { sum.new ≡ sums (records store.now) nodes.now }
{
    if gone.is_bare() {
        sum.lose_counts(gone.lines(), gone.characters(), gone.marks());
    } else {
        *sum = sum_of(store, nodes, ticks);
    }
}

/// Makes these the children of a node, and its sum theirs, which is given. The first stay where they are.
pub fn refill<C: Ticks>(
    store: &mut NodeStore<C>,
    node: NodePtr,
    from: usize,
    children: &[Option<NodePtr>; 12],
    sum: &Sums<WORDS>,
)
    requires fill { (cs : _) × (children.now ≡ row cs) × CanFill (records store.old) node cs }
    requires from { from ≤ 12 }
    requires kept { Stay (records store.old) node from children.now }
    requires sum { sum.now ≡ sums (records store.old) children.now }
    ensures records { records store.new ≡ refilled (records store.old) node children.now }
    ensures spares { spares store.new ≡ spares store.old }
    ensures rooms { rooms store.new ≡ rooms store.old }
{
    relink(store, node, from, children);
    store.set_sum(node, sum);
}

/// A new node above two.
pub fn join<C: Ticks>(
    store: &mut NodeStore<C>,
    left: NodePtr,
    right: NodePtr,
    ticks: &mut C,
) -> NodePtr
    requires left { IsName store.old left }
    requires right { IsName store.old right }
    requires fits { FitsSum (sum_all (records store.old) (left ∷ right ∷ [])) }
    requires spare { 0 < spares store.old }
    requires room { 0 < rooms store.old }
    ensures root { NewRoot (records store.old) (records store.new) result (left ∷ right ∷ []) }
    ensures spares { spares store.new + 1 ≡ spares store.old }
    ensures rooms { rooms store.new + 1 ≡ rooms store.old }
{
    let root = store.make(None);
    let mut children = [None; 12];
    children[0] = Some(left);
    children[1] = Some(right);
    let sum = sum_of(store, &children, ticks);
    refill(store, root, 0, &children, &sum);
    root
}

/// A new node above one, whose sum is given.
pub fn top<C: Ticks>(store: &mut NodeStore<C>, child: NodePtr, sum: Sums<WORDS>) -> NodePtr
    requires child { IsName store.old child }
    requires sum { sum ≡ sum_at (records store.old) child }
    requires spare { 0 < spares store.old }
    requires room { 0 < rooms store.old }
    ensures root { NewRoot (records store.old) (records store.new) result (child ∷ []) }
    ensures spares { spares store.new + 1 ≡ spares store.old }
    ensures rooms { rooms store.new + 1 ≡ rooms store.old }
{
    let root = store.make(None);
    let mut children = [None; 12];
    children[0] = Some(child);
    relink(store, root, 0, &children);
    store.set_sum(root, &sum);
    root
}

/// One more child for a node, which becomes its child number `at`.
#[derive(Clone, Copy)]
pub struct Extra {
    pub node: NodePtr,
    pub at: usize,
    pub child: NodePtr,
}

/// Number `i` of a node's children with one more among them.
fn pick<C: Ticks>(store: &NodeStore<C>, extra: Extra, i: usize, ticks: &mut C) -> Option<NodePtr>
    requires row { HasRow (records store.now) extra.node }
    requires place { extra.at ≤ length (kids (records store.now) extra.node) }
    requires index { i ≤ 12 }
    ensures { result ≡ slice_get (insert (kids (records store.now) extra.node) extra.at extra.child) i }
{
    let Extra { node, at, child } = extra;
    if i < at {
        store.child(node, i, ticks)
    } else if i == at {
        Some(child)
    } else {
        store.child(node, i - 1, ticks)
    }
}

/// Of a node's children with one more among them, `count` from `from` on.
fn part<C: Ticks>(
    store: &NodeStore<C>,
    extra: Extra,
    from: usize,
    count: usize,
    ticks: &mut C,
) -> [Option<NodePtr>; 12]
    requires row { HasRow (records store.now) extra.node }
    requires place { extra.at ≤ length (kids (records store.now) extra.node) }
    requires count { count ≤ 12 }
    requires end { from + count ≤ 13 }
    ensures { result
        ≡ row (take count (drop from (insert (kids (records store.now) extra.node) extra.at extra.child))) }
{
    let mut part = [None; 12];
    for i in 0..12 {
        part[i] = if i < count {
            pick(store, extra, from + i, ticks)
        } else {
            None
        };
    }
    part
}

/// Puts one more child among those of a node that has room for it: each from there on goes one slot on.
pub fn shift<C: Ticks>(store: &mut NodeStore<C>, extra: Extra, ticks: &mut C)
    requires put { CanPut (records store.old) extra.node extra.at extra.child }
    requires few { length (kids (records store.old) extra.node) < 12 }
    ensures records { records store.new ≡ relinked (records store.old) extra.node 0
        (row (insert (kids (records store.old) extra.node) extra.at extra.child)) }
    ensures spares { spares store.new ≡ spares store.old }
    ensures rooms { rooms store.new ≡ rooms store.old }
{
    let node = extra.node;
    let mut next = Some(extra.child);
    let mut slot = extra.at;
    while let Some(child) = next {
        next = store.child(node, slot, ticks);
        link(store, node, slot, Some(child));
        slot += 1;
    }
}

/// How many of 13 children stay where they split: six where the new one is put, so that a node which lines are put into
/// one behind the other leaves seven behind.
fn first_half(at: usize) -> usize
    ensures low { 6 ≤ result }
    ensures high { result ≤ 7 }
{
    if at > 6 { 7 } else { 6 }
}

/// Puts one more child among those of a node, below which stands so much more then. Where there are 13, the last six or
/// seven get a node of their own.
pub fn put<C: Ticks>(
    store: &mut NodeStore<C>,
    extra: Extra,
    more: &Sums<WORDS>,
    ticks: &mut C,
) -> Option<NodePtr>
    requires put { CanPut (records store.old) extra.node extra.at extra.child }
    requires sum { plus (sum_at (records store.old) extra.node) more.now
        ≡ sum_all (records store.old) (insert (kids (records store.old) extra.node) extra.at extra.child) }
    requires spare { 0 < spares store.old }
    requires room { 0 < rooms store.old }
    ensures puts { Puts (records store.old) (records store.new) extra.node
        (insert (kids (records store.old) extra.node) extra.at extra.child) result }
    ensures spares { spares store.new + length (option_to_list result) ≡ spares store.old }
    ensures rooms { rooms store.new + length (option_to_list result) ≡ rooms store.old }
{
    let node = extra.node;
    if store.child(node, 11, ticks).is_none() {
        shift(store, extra, ticks);
        add(store, node, more);
        None
    } else {
        let mut sum = store.sum(node, ticks);
        sum.add(more);
        let half = first_half(extra.at);
        let left = part(store, extra, 0, half, ticks);
        let right = part(store, extra, half, 13 - half, ticks);
        let last = sum_of(store, &right, ticks);
        lessen_sum(store, &left, &mut sum, &last, ticks);
        let sibling = store.make(None);
        refill(store, node, extra.at.min(half), &left, &sum);
        refill(store, sibling, 0, &right, &last);
        Some(sibling)
    }
}
