//! Repeats creation and reservation after a failed allocation, and checks that the tree is unchanged.

use crate::counted::{Counted, new_tree, reserve};
use crate::counter::Counter;
use crate::mixed::{Mixed, mix, mixed_of, put_in, walk_faults};
use std::alloc::{AllocError, Global};

/// How often a tree and room for lines were refused, and how much of the tree wasn't as it is to be.
#[derive(Clone, Copy)]
pub struct Refusals {
    pub trees: usize,
    pub rooms: usize,
    pub differences: usize,
}

/// A tree of the lone newline, asked for again where it is refused.
fn new_again(alloc: Global, refusals: &mut Refusals) -> Result<Counted, AllocError> {
    if let Ok(counted) = new_tree(alloc) {
        return Ok(counted);
    }
    refusals.trees = refusals.trees.wrapping_add(1);
    new_tree(alloc)
}

/// Room for so many lines, asked for again where it is refused: the tree is to be as it was.
fn reserve_again(
    mixed: &mut Mixed,
    count: usize,
    refusals: &mut Refusals,
    ticks: &mut Counter,
) -> Result<(), AllocError> {
    let height = mixed.counted.tree.height();
    if reserve(&mut mixed.counted, count).is_ok() {
        return Ok(());
    }
    refusals.rooms = refusals.rooms.wrapping_add(1);
    let is_changed = mixed.counted.tree.height() != height;
    let wrong = walk_faults(mixed, ticks).wrapping_add(is_changed as usize);
    refusals.differences = refusals.differences.wrapping_add(wrong);
    reserve(&mut mixed.counted, count)
}

/// A tree, so many random splices, room for a hundred lines, and these lines, where one growth may be refused.
pub fn ask_twice(
    alloc: Global,
    count: usize,
    length: usize,
    ticks: &mut Counter,
) -> Result<Refusals, AllocError> {
    let mut refusals = Refusals {
        trees: 0,
        rooms: 0,
        differences: 0,
    };
    let counted = new_again(alloc, &mut refusals)?;
    let mut mixed = mixed_of(alloc, counted)?;
    mix(alloc, &mut mixed, count, length, ticks)?;
    reserve_again(&mut mixed, 100, &mut refusals, ticks)?;
    let is_made = put_in(alloc, &mut mixed, 100, length, ticks)?;
    let wrong = walk_faults(&mixed, ticks).wrapping_add(!is_made as usize);
    refusals.differences = refusals
        .differences
        .wrapping_add(mixed.differences)
        .wrapping_add(wrong);
    Ok(refusals)
}
