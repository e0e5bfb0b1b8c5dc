//! The workloads of the benchmark: inserts, removes and visits many lines of a tree.

use crate::counted::{Counted, insert, remove, splice};
use crate::counter::Counter;
use crate::lines::{Numbers, make_lines};
use segments::Line;
use std::alloc::{AllocError, Global};

/// Puts so many lines of a text in, in one call.
pub fn fill(
    alloc: Global,
    counted: &mut Counted,
    count: usize,
    text: &str,
    ticks: &mut Counter,
) -> Result<(), AllocError> {
    splice(counted, 0, 0, make_lines(alloc, count, text)?, ticks)?;
    Ok(())
}

/// Puts so many lines of a text in at the end, a thousand in a call.
pub fn load(
    alloc: Global,
    counted: &mut Counted,
    count: usize,
    text: &str,
    ticks: &mut Counter,
) -> Result<(), AllocError> {
    for _ in 0..count / 1000 {
        let end = counted.count;
        splice(counted, end, 0, make_lines(alloc, 1000, text)?, ticks)?;
    }
    Ok(())
}

/// Puts so many lines of a text in, each at a random place.
pub fn insert_each(
    alloc: Global,
    counted: &mut Counted,
    count: usize,
    text: &str,
    ticks: &mut Counter,
) -> Result<(), AllocError> {
    let mut numbers = Numbers::new();
    for _ in 0..count {
        let k = numbers.below(counted.count.saturating_add(1));
        insert(counted, k, Line::new(alloc, text)?, ticks)?;
    }
    Ok(())
}

/// Takes all lines but one out, each at a random place.
pub fn remove_each(counted: &mut Counted, ticks: &mut Counter) {
    let mut numbers = Numbers::new();
    for _ in 1..counted.count {
        let k = numbers.below(counted.count);
        remove(counted, k, ticks);
    }
}

/// Finds each line by its number, one after the other. A way to go from a line to the next will stand beside this one.
fn walk_once(counted: &Counted, ticks: &mut Counter) {
    for k in 0..counted.count {
        counted.tree.select(k, ticks);
    }
}

/// The same ten times, since it is soon done.
pub fn walk(counted: &Counted, ticks: &mut Counter) {
    for _ in 0..10 {
        walk_once(counted, ticks);
    }
}
