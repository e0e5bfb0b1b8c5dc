//! A table from mark numbers to the names of their lines, and its updates when lines come and go.

ghost use Rattle.std.specs.Prelude.{◌≡◌, ℕ, ◌<◌, ◌≤◌, MatchOption, OnOk, if◌then◌else◌, length, slice_range};
ghost use Rattle.std.specs.Prelude.{vec_len};
ghost use Rattle.std.specs.List.{All};
ghost use Rattle.segments.specs.Columns.{LineContent};
ghost use Rattle.line_lists.specs.Lists.{AreLines, NumbersBelow, has_mark};
ghost use Rattle.line_tree.specs.MarkTable.{AreBare, IsMarkedBelow, IsTable, lines_without, noted};
ghost use Rattle.line_tree.specs.Trees.{contents};

use crate::tree::LineTree;
use raw_nodes::{NodePtr, Steps};
use segments::Line;
use std::alloc::AllocError;
use text_model::MarkNo;

/// What a table says of a number.
pub fn name_of(names: &[Option<NodePtr>], number: MarkNo) -> Option<NodePtr>
    ensures { result ≡ noted number.0 names.now }
{
    let index = number.0 as usize;
    if index < names.len() {
        names[index]
    } else {
        None
    }
}

/// Grows a table to so many numbers at least.
pub fn grow(names: &mut Vec<Option<NodePtr>>, numbers: usize) -> Result<(), AllocError>
    ensures same { (number : ℕ) → noted number names.new.items ≡ noted number names.old.items }
    ensures numbers { OnOk result (numbers ≤ length names.new.items) }
    ensures more { length names.old.items ≤ length names.new.items }
{
    if names.len() < numbers {
        names.resize(numbers, None)?;
    }
    Ok(())
}

/// Writes what a table says of each mark of a line.
pub fn write(names: &mut Vec<Option<NodePtr>>, line: &Line, name: Option<NodePtr>)
    requires { NumbersBelow (vec_len names.old) line.now.marks }
    ensures table { (number : ℕ) → noted number names.new.items
        ≡ (if has_mark number line.now then name else noted number names.old.items) }
    ensures len { vec_len names.new ≡ vec_len names.old }
{
    let mut index = 0;
    while let Some((number, _)) = line.mark(index) {
        names[number.0 as usize] = name;
        index += 1;
    }
}

/// So few lines are looked at one after the other.
const FEW_LINES: usize = 4;

/// A line from one on, below another, and its name, where no mark stands in those before it; `None` where none stands
/// in any of them.
fn marked_below(tree: &LineTree<Steps>, from: usize, to: usize) -> Option<(usize, NodePtr)>
    requires ordered { from ≤ to }
    requires within { to ≤ length tree.now.lines }
    ensures { MatchOption result (AreBare from to tree.now.lines) (IsMarkedBelow from to tree.now.lines) }
{
    if from == to {
        return None;
    }
    if to - from <= FEW_LINES {
        return Some((from, tree.select(from, &mut Steps::new())));
    }
    let index = tree.next_marked(from, &mut Steps::new())?;
    if index < to {
        Some((index, tree.select(index, &mut Steps::new())))
    } else {
        None
    }
}

/// Forgets where the marks of the lines from one to another stand.
pub fn forget(tree: &LineTree<Steps>, names: &mut Vec<Option<NodePtr>>, from: usize, to: usize)
    requires ordered { from ≤ to }
    requires within { to ≤ length tree.now.lines }
    requires lines { AreLines (contents tree.now.lines) }
    requires table { IsTable names.old.items tree.now.lines }
    ensures table { IsTable names.new.items (lines_without from to tree.now.lines) }
    ensures len { vec_len names.new ≡ vec_len names.old }
{
    let mut at = from;
    while let Some((index, name)) = marked_below(tree, at, to) {
        write(names, tree.line(name), None);
        at = index + 1;
    }
}

/// Notes where the marks of the lines from one to another stand.
pub fn note(tree: &LineTree<Steps>, names: &mut Vec<Option<NodePtr>>, from: usize, to: usize)
    requires ordered { from ≤ to }
    requires within { to ≤ length tree.now.lines }
    requires lines { AreLines (contents tree.now.lines) }
    requires below { All (λ (line : LineContent). NumbersBelow (vec_len names.old) line.marks)
        (slice_range (contents tree.now.lines) from to) }
    requires table { IsTable names.old.items (lines_without from to tree.now.lines) }
    ensures table { IsTable names.new.items tree.now.lines }
    ensures len { vec_len names.new ≡ vec_len names.old }
{
    let mut at = from;
    while let Some((index, name)) = marked_below(tree, at, to) {
        write(names, tree.line(name), Some(name));
        at = index + 1;
    }
}
