//! A tree with its number of lines, which checks at run time what its calls require.

ghost use Rattle.std.specs.Prelude.{◌≡◌, ◌+◌, ◌<◌, ◌≤◌, length, true};
ghost use Rattle.toggle_sums.specs.Counts.{plus};
ghost use Rattle.line_lists.specs.Lists.{count_of};
ghost use Rattle.line_tree.specs.Changes.{FitsSum};
ghost use Rattle.line_tree.specs.Trees.{total};

use crate::counter::Counter;
use crate::lines::{fit, sum_of};
use line_tree::LineTree;
use segments::Line;
use std::alloc::{AllocError, Global};
use text_model::WORDS;
use toggle_sums::Sums;

/// A tree that knows how many lines it has, so that what its calls require is asked as they run.
#[derive(Drop)]
pub struct Counted {
    pub tree: LineTree<Counter>,
    pub count: usize,
    ghost same: { length tree.lines ≡ count },
}

/// The lone newline.
pub fn new_tree(alloc: Global) -> Result<Counted, AllocError> {
    Ok(Counted {
        tree: LineTree::new(alloc)?,
        count: 1,
    })
}

/// What is counted of all lines.
pub fn whole(counted: &Counted, ticks: &mut Counter) -> Sums<WORDS>
    ensures { result ≡ total counted.now.tree.lines }
{
    counted.tree.prefix(counted.count, ticks)
}

fn can_splice(counted: &Counted, k: usize, gone: usize, lines: &[Line], ticks: &mut Counter) -> bool
    ensures within { result ≡ true → k + gone ≤ counted.now.count }
    ensures some { result ≡ true → gone < counted.now.count + length lines.now }
    ensures fits { result ≡ true → FitsSum (plus (total counted.now.tree.lines) (count_of lines.now)) }
{
    let Some(sum) = sum_of(lines) else {
        return false;
    };
    k <= counted.count
        && gone <= counted.count - k
        && (gone < counted.count || !lines.is_empty())
        && fit(&whole(counted, ticks), &sum)
}

/// Puts lines in the place of others from line `k` on, in one call, and says whether that was done.
pub fn splice(
    counted: &mut Counted,
    k: usize,
    gone: usize,
    lines: Vec<Line>,
    ticks: &mut Counter,
) -> Result<bool, AllocError> {
    if !can_splice(counted, k, gone, &lines, ticks) {
        return Ok(false);
    }
    let more = lines.len().saturating_sub(gone);
    counted.tree.reserve_for_rows(more, more.min(1))?;
    counted.count = counted.count - gone + lines.len();
    counted.tree.splice(k, gone, lines, ticks);
    Ok(true)
}

/// Reserves for so many lines to be put in.
pub fn reserve(counted: &mut Counted, count: usize) -> Result<(), AllocError> {
    counted.tree.reserve_for_rows(count, 1)
}

/// Puts in one line as number `k`, and says whether that was done.
pub fn insert(
    counted: &mut Counted,
    k: usize,
    line: Line,
    ticks: &mut Counter,
) -> Result<bool, AllocError> {
    if counted.count < k || !fit(&whole(counted, ticks), &line.sum()) {
        return Ok(false);
    }
    counted.tree.reserve(counted.tree.height() + 2)?;
    counted.tree.insert(k, line, ticks);
    counted.count += 1;
    Ok(true)
}

/// Removes line `k`, and returns its length if that was done.
pub fn remove(counted: &mut Counted, k: usize, ticks: &mut Counter) -> Option<usize> {
    if counted.count < 2 || counted.count <= k {
        return None;
    }
    let line = counted.tree.remove(k, ticks);
    counted.count -= 1;
    Some(line.len())
}
