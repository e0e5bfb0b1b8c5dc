//! Nodes by their calls: names, links, lines and sums.

ghost use Rattle.raw_nodes.specs.Names.{rooms, spares};
ghost use Rattle.std.specs.Prelude.{◌≤◌};

use raw_nodes::{NodeStore, Steps};
use segments::Line;
use std::alloc::{AllocError, Global};
use std::process::Abort;
use std::test::Fail;
use text_model::{TagSet, TagSlot};
use toggle_sums::{Exchange, Sums};

/// Two nodes are made and given back, the first one first: the next two come in the other order.
fn turn(store: &mut NodeStore<Steps>)
    requires spares { 2 ≤ spares store.old }
    requires rooms { 2 ≤ rooms store.old }
{
    let first = store.make(None);
    let second = store.make(None);
    store.give_back(first);
    store.give_back(second);
}

fn two_names(rt: &impl Abort, store: &mut NodeStore<Steps>)
    requires spares { 2 ≤ spares store.old }
    requires rooms { 2 ≤ rooms store.old }
{
    let first = store.make(None);
    let second = store.make(None);
    assert!(rt; !store.same(first, second));
    assert!(rt; store.same(second, second));
}

#[test]
fn after_a_refusal(rt: HostRuntime) -> Result<(), Fail> {
    let mut store: NodeStore<Steps> = NodeStore::new(rt.alloc());
    if store.reserve(2).is_err() {
        store.reserve(2)?;
    }
    let name = store.make(None);
    store.make(None);
    assert!(rt; store.same(name, name));
    Ok(())
}

fn links(rt: &impl Abort, store: &mut NodeStore<Steps>)
    requires spares { 2 ≤ spares store.old }
    requires rooms { 2 ≤ rooms store.old }
{
    let mut steps = Steps::new();
    let below = store.make(None);
    let top = store.make(None);
    assert!(rt; store.parent(below, &mut steps).is_none());
    store.set_child(top, 3, Some(below));
    store.set_parent(below, Some(top), 3);
    assert!(rt; store.slot(below) == 3);
    assert!(rt; store.parent(below, &mut steps).is_some());
    assert!(rt; store.children(top) == 1);
    assert!(rt; store.child(top, 3, &mut steps).is_some());
    assert!(rt; store.child(top, 2, &mut steps).is_none());
}

fn lines(rt: &impl Abort, store: &mut NodeStore<Steps>, line: Line)
    requires { 1 ≤ spares store.old }
{
    let name = store.make(Some(line));
    assert!(rt; store.line(name).is_some());
    let mut steps = Steps::new();
    assert!(rt; store.lines(name, &mut steps) == 1 && store.size(name, &mut steps) == (1, 7));
    let given = store.give_back(name);
    assert!(rt; given.is_some_and(|line| line.len() == 7));
}

fn marks_and_toggles(rt: &impl Abort, store: &mut NodeStore<Steps>, line: Line)
    requires { 1 ≤ spares store.old }
{
    let name = store.make(Some(line));
    let mut steps = Steps::new();
    assert!(rt; store.marks(name, &mut steps) == 0);
    assert!(rt; !store.has_toggle(name, TagSlot(3), &mut steps));
    assert!(rt; !store.is_odd(name, TagSlot(3), &mut steps));
    let mut slots = TagSet::empty().with(TagSlot(3));
    store.turn_odd_slots(name, &mut slots, &mut steps);
    assert!(rt; slots.has(TagSlot(3)) && store.is_bare(name, &mut steps));
}

fn counts_below(rt: &impl Abort, store: &mut NodeStore<Steps>)
    requires spares { 1 ≤ spares store.old }
    requires rooms { 1 ≤ rooms store.old }
{
    let top = store.make(None);
    store.set_sum(top, &Sums::counting(2, 9, 1));
    store.add_sum(top, &Sums::counting(1, 4, 0));
    store.lose_counts(top, 2, 9, 1);
    assert!(rt; store.size(top, &mut Steps::new()) == (1, 4));
}

fn sums_exchanged(rt: &impl Abort, store: &mut NodeStore<Steps>)
    requires spares { 1 ≤ spares store.old }
    requires rooms { 1 ≤ rooms store.old }
{
    let top = store.make(None);
    store.set_sum(top, &Sums::counting(2, 9, 1));
    let gone = Sums::counting(1, 4, 0);
    let more = Sums::counting(2, 6, 0);
    store.exchange(top, &Exchange::between(&gone, &more));
    assert!(rt; store.size(top, &mut Steps::new()) == (3, 11));
}

fn sums_added(rt: &impl Abort, store: &mut NodeStore<Steps>)
    requires spares { 1 ≤ spares store.old }
    requires rooms { 1 ≤ rooms store.old }
{
    let top = store.make(None);
    store.set_sum(top, &Sums::counting(2, 9, 1));
    let mut sum = Sums::counting(1, 1, 1);
    store.add_sum_to(top, &mut sum, &mut Steps::new());
    assert!(rt; sum.lines() == 3 && sum.characters() == 10 && sum.marks() == 2);
}

fn a_line_to_change(rt: &impl Abort, store: &mut NodeStore<Steps>, line: Line)
    requires { 1 ≤ spares store.old }
{
    let name = store.make(Some(line));
    assert!(rt; store.line_mut(name).is_some_and(|line| line.len() == 7));
}

fn a_line(alloc: Global) -> Result<Line, AllocError> {
    Line::new(alloc, "a line\n")
}

fn check_lines(
    rt: &impl Abort,
    alloc: Global,
    store: &mut NodeStore<Steps>,
) -> Result<(), AllocError> {
    store.reserve_lines(1)?;
    lines(rt, store, a_line(alloc)?);
    store.reserve_lines(1)?;
    marks_and_toggles(rt, store, a_line(alloc)?);
    store.reserve_lines(1)?;
    a_line_to_change(rt, store, a_line(alloc)?);
    Ok(())
}

fn check_sums(rt: &impl Abort, store: &mut NodeStore<Steps>) -> Result<(), AllocError> {
    store.reserve(1)?;
    counts_below(rt, store);
    store.reserve(1)?;
    sums_exchanged(rt, store);
    store.reserve(1)?;
    sums_added(rt, store);
    Ok(())
}

fn check_names(rt: &impl Abort, store: &mut NodeStore<Steps>) -> Result<(), AllocError> {
    store.reserve(2)?;
    two_names(rt, store);
    store.reserve(2)?;
    links(rt, store);
    Ok(())
}

#[test]
fn nodes_are_used(rt: HostRuntime) -> Result<(), Fail> {
    let mut store: NodeStore<Steps> = NodeStore::new(rt.alloc());
    check_names(&rt, &mut store)?;
    check_lines(&rt, rt.alloc(), &mut store)?;
    check_sums(&rt, &mut store)?;
    Ok(())
}

#[test]
fn a_thousand(rt: HostRuntime) -> Result<(), Fail> {
    let mut store: NodeStore<Steps> = NodeStore::new(rt.alloc());
    for _ in 0..1000 {
        store.reserve(2)?;
        turn(&mut store);
    }
    let mut left: usize = 1000;
    store.reserve(left)?;
    while left > 0 {
        store.make(None);
        left -= 1;
    }
    Ok(())
}

/// Nodes are made and given back in another order, and spares from all over the row are freed.
fn turn_and_free(store: &mut NodeStore<Steps>)
    requires spares { 3 ≤ spares store.old }
    requires rooms { 3 ≤ rooms store.old }
{
    let first = store.make(None);
    let second = store.make(None);
    let third = store.make(None);
    store.give_back(second);
    store.free_spares(1, 1);
    store.give_back(third);
    store.give_back(first);
    store.free_spares(2, 2);
}

#[test]
fn spares_freed(rt: HostRuntime) -> Result<(), Fail> {
    let mut store: NodeStore<Steps> = NodeStore::new(rt.alloc());
    for _ in 0..100 {
        store.reserve(3)?;
        turn_and_free(&mut store);
        assert!(rt; store.spares() == 2);
    }
    store.reserve(20)?;
    store.free_spares(0, 0);
    assert!(rt; store.spares() == 0);
    store.reserve(2)?;
    let first = store.make(None);
    let second = store.make(None);
    assert!(rt; !store.same(first, second));
    Ok(())
}
