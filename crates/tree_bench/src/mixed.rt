//! Compares the tree with a plain list of line lengths during random splices, insertions and removals.

ghost use Rattle.std.specs.Prelude.{◌+◌, ◌≤◌, length};

use crate::counted::{Counted, insert, remove, splice, whole};
use crate::counter::Counter;
use crate::lines::{Numbers, text_of};
use crate::shape::count_faults;
use segments::Line;
use std::alloc::{AllocError, Global};

/// A tree, how long each of its lines is to be, and how often it wasn't as it was to be.
#[derive(Drop)]
pub struct Mixed {
    pub counted: Counted,
    plain: Vec<usize>,
    numbers: Numbers,
    pub differences: usize,
}

/// Some numbers in the place of others.
fn replace(
    plain: &mut Vec<usize>,
    k: usize,
    gone: usize,
    lengths: &mut Vec<usize>,
) -> Result<(), AllocError>
    requires { k + gone ≤ length plain.old.items }
{
    let end = plain.len();
    let behind = k + lengths.len();
    plain.append(lengths)?;
    plain[k..].rotate_left(end - k);
    plain[behind..].rotate_left(gone);
    plain.truncate(plain.len() - gone);
    Ok(())
}

/// How long each of some lines is.
fn lengths_of(alloc: Global, lines: &[Line]) -> Result<Vec<usize>, AllocError> {
    let mut lengths = Vec::new(alloc);
    for line in lines {
        lengths.push(line.len())?;
    }
    Ok(lengths)
}

fn sum_of(lengths: &[usize]) -> usize {
    let mut sum: usize = 0;
    for length in lengths {
        sum = sum.wrapping_add(*length);
    }
    sum
}

/// Lines of one character to so many.
fn random_lines(
    alloc: Global,
    numbers: &mut Numbers,
    count: usize,
    length: usize,
) -> Result<Vec<Line>, AllocError> {
    let mut lines = Vec::with_capacity(alloc, count)?;
    for _ in 0..count {
        let text = text_of(alloc, numbers.below(length).saturating_add(1))?;
        lines.push(Line::new(alloc, &text)?)?;
    }
    Ok(lines)
}

/// How many lines a splice puts in and takes out, below these.
#[derive(Clone, Copy)]
struct Reach {
    in_below: usize,
    out_below: usize,
}

/// Two hundred steps let the text grow, and as many let it shrink.
fn reach_of(step: usize) -> Reach {
    if step % 400 < 200 {
        Reach {
            in_below: 41,
            out_below: 11,
        }
    } else {
        Reach {
            in_below: 11,
            out_below: 41,
        }
    }
}

/// Lines in the place of others, in both. Says whether that was done.
fn splice_lines(
    alloc: Global,
    mixed: &mut Mixed,
    k: usize,
    gone: usize,
    lines: Vec<Line>,
    ticks: &mut Counter,
) -> Result<bool, AllocError>
    requires { k + gone ≤ length mixed.old.plain.items }
{
    let mut lengths = lengths_of(alloc, &lines)?;
    replace(&mut mixed.plain, k, gone, &mut lengths)?;
    splice(&mut mixed.counted, k, gone, lines, ticks)
}

/// A splice in both at a random place. Says whether it was made.
fn splice_both(
    alloc: Global,
    mixed: &mut Mixed,
    reach: Reach,
    length: usize,
    ticks: &mut Counter,
) -> Result<bool, AllocError> {
    let len = mixed.plain.len();
    let k = mixed.numbers.below(len.saturating_add(1)).min(len);
    let gone = mixed.numbers.below(reach.out_below).min(len - k);
    let count = mixed.numbers.below(reach.in_below).max(1);
    let lines = random_lines(alloc, &mut mixed.numbers, count, length)?;
    splice_lines(alloc, mixed, k, gone, lines, ticks)
}

/// A line comes and goes again, alone. Says whether that was done.
fn insert_and_remove(
    alloc: Global,
    counted: &mut Counted,
    k: usize,
    ticks: &mut Counter,
) -> Result<bool, AllocError> {
    let is_in = insert(counted, k, Line::new(alloc, "ab\n")?, ticks)?;
    Ok(is_in && remove(counted, k, ticks) == Some(3))
}

/// Two hundred lines come and go again, each alone at a random place, with a look at that line after each.
pub fn come_and_go(
    alloc: Global,
    mixed: &mut Mixed,
    ticks: &mut Counter,
) -> Result<(), AllocError> {
    for _ in 0..200 {
        let k = mixed.numbers.below(mixed.plain.len());
        let is_done = insert_and_remove(alloc, &mut mixed.counted, k, ticks)?;
        let wrong = count_differences(mixed, k, ticks).wrapping_add(!is_done as usize);
        mixed.differences = mixed.differences.wrapping_add(wrong);
    }
    mixed.differences = mixed.differences.wrapping_add(walk_faults(mixed, ticks));
    Ok(())
}

/// Whether all lines together are what they are to be.
fn has_all(mixed: &Mixed, ticks: &mut Counter) -> bool {
    let Mixed { counted, plain, .. } = mixed;
    let sums = whole(counted, ticks);
    sums.lines() == plain.len()
        && counted.count == plain.len()
        && counted.tree.len() == plain.len()
        && sums.characters() == sum_of(plain)
}

/// Whether a line is found by its number, and the number by the line, in as few steps as is promised.
fn has_line(mixed: &Mixed, k: usize, ticks: &mut Counter) -> bool {
    let counted = &mixed.counted;
    if counted.count <= k {
        return false;
    }
    let height = counted.tree.height();
    ticks.seen = 0;
    let name = counted.tree.select(k, ticks);
    let down = ticks.seen;
    ticks.seen = 0;
    let is_found = counted.tree.rank(name, ticks) == k;
    let is_short = down <= 24 * height && ticks.seen <= 23 * height;
    let is_counted = 0 < down && 0 < ticks.seen;
    is_found && is_short && is_counted
}

/// Whether a line is found by its first character, in as few steps as is promised.
fn has_start(mixed: &Mixed, k: usize, ticks: &mut Counter) -> bool {
    let Mixed { counted, plain, .. } = mixed;
    let offset = sum_of(&plain[..k.min(plain.len())]);
    if whole(counted, ticks).characters() <= offset {
        return false;
    }
    ticks.seen = 0;
    let is_found = counted.tree.locate(offset, ticks) == (k, 0);
    is_found && 0 < ticks.seen && ticks.seen <= 24 * counted.tree.height()
}

/// How much of the tree isn't as it is to be.
fn count_differences(mixed: &Mixed, k: usize, ticks: &mut Counter) -> usize {
    !has_all(mixed, ticks) as usize
        + !has_line(mixed, k, ticks) as usize
        + !has_start(mixed, k, ticks) as usize
}

/// How much of the nodes isn't as it is to be, by a walk over all of them.
pub fn walk_faults(mixed: &Mixed, ticks: &mut Counter) -> usize {
    count_faults(&mixed.counted.tree, &mixed.plain, ticks)
}

/// What begins with a tree of the lone newline.
pub fn mixed_of(alloc: Global, counted: Counted) -> Result<Mixed, AllocError> {
    let mut plain = Vec::new(alloc);
    plain.push(1)?;
    Ok(Mixed {
        counted,
        plain,
        numbers: Numbers::new(),
        differences: 0,
    })
}

/// So many random splices of lines of at most so many characters, with a look at a line after each, and at all nodes
/// after every thousand and after the last.
pub fn mix(
    alloc: Global,
    mixed: &mut Mixed,
    count: usize,
    length: usize,
    ticks: &mut Counter,
) -> Result<(), AllocError> {
    for step in 1..=count {
        let is_made = splice_both(alloc, mixed, reach_of(step), length, ticks)?;
        let k = mixed.numbers.below(mixed.plain.len());
        let wrong = count_differences(mixed, k, ticks).wrapping_add(!is_made as usize);
        mixed.differences = mixed.differences.wrapping_add(wrong);
        if step % 1000 == 0 || step == count {
            mixed.differences = mixed.differences.wrapping_add(walk_faults(mixed, ticks));
        }
    }
    Ok(())
}

/// Puts so many lines in in the midst, in one call, and says whether that was done.
pub fn put_in(
    alloc: Global,
    mixed: &mut Mixed,
    count: usize,
    length: usize,
    ticks: &mut Counter,
) -> Result<bool, AllocError> {
    let k = mixed.plain.len() / 2;
    let lines = random_lines(alloc, &mut mixed.numbers, count, length)?;
    splice_lines(alloc, mixed, k, 0, lines, ticks)
}
