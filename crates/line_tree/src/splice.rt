//! Replaces some lines by others: reuses their names first, then inserts or removes the rest.

use crate::room::ROW;
use crate::tree::LineTree;
use raw_nodes::{NodePtr, Ticks};
use segments::Line;

impl<C: Ticks> LineTree<C> {
    ghost use Rattle.std.specs.Prelude.{◌≡◌, ℕ, ◌+◌, ◌-◌, ◌≤◌, ◌<◌, ◌++◌, List, Some, length, take, drop, min};
    ghost use Rattle.std.specs.Prelude.{true, false};
    ghost use Rattle.std.specs.List.{insert};
    ghost use Rattle.toggle_sums.specs.Counts.{plus};
    ghost use Rattle.segments.specs.Columns.{line_count};
    ghost use Rattle.raw_nodes.specs.declared.names.NodePtr.{NodePtr};
    ghost use Rattle.line_lists.specs.Lists.{count_of, more_lines, row_of};
    ghost use Rattle.line_tree.specs.Changes.{FitsSum};
    ghost use Rattle.line_tree.specs.Leaving.{Leaves};
    ghost use Rattle.line_tree.specs.Places.{IsLineAt};
    ghost use Rattle.line_tree.specs.Room.{HasRoom, KeepsRoom, PutsRoom, SpendsRoom, line_room};
    ghost use Rattle.line_tree.specs.Taking.{changed};
    ghost use Rattle.line_tree.specs.Trees.{Named, contents, total};

    /// Puts lines in from line `k` on and takes out the `gone` lines that stood there; the others keep their names. As
    /// far as it goes a new line has the place of an old one, under its name, so that no node gets or loses a child.
    pub fn splice(&mut self, k: usize, gone: usize, lines: Vec<Line>, ticks: &mut C)
        requires within { k + gone ≤ length self.old.lines }
        requires some { gone < length self.old.lines + length lines.items }
        requires fits { FitsSum (plus (total self.old.lines) (count_of lines.items)) }
        requires room { (more rows : ℕ) × HasRoom self.old (more_lines gone lines.items + more)
            (row_of gone lines.items + rows) }
        ensures lines { (added : List Named) × (contents added ≡ lines.items)
            × (self.new.lines ≡ take k self.old.lines ++ added ++ drop (k + gone) self.old.lines) }
        ensures room { SpendsRoom self.old self.new (more_lines gone lines.items) (row_of gone lines.items) }
    {
        let behind = k + lines.len();
        let rest = gone.saturating_sub(lines.len());
        self.put_all(k, gone, lines, ticks);
        self.take_out(behind, rest, ticks);
    }

    /// Puts lines in from line `k` on, the first of them in the places of the `gone` lines that stand there; if many
    /// more come, these at once.
    fn put_all(&mut self, k: usize, gone: usize, mut lines: Vec<Line>, ticks: &mut C)
        requires within { k + gone ≤ length self.old.lines }
        requires fits { FitsSum (plus (total self.old.lines) (count_of lines.items)) }
        requires room { (more rows : ℕ) × HasRoom self.old (more_lines gone lines.items + more)
            (row_of gone lines.items + rows) }
        ensures lines { (added : List Named) × (contents added ≡ lines.items)
            × (self.new.lines ≡ take k self.old.lines ++ added
            ++ drop (k + min gone (length lines.items)) self.old.lines) }
        ensures room { SpendsRoom self.old self.new (more_lines gone lines.items) (row_of gone lines.items) }
    {
        if !self.is_row(lines.len().saturating_sub(gone)) {
            self.put_in(k, gone, lines, ticks);
            return;
        }
        self.put_rows(k + gone, &mut lines, gone, ticks);
        self.put_in(k, gone, lines, ticks);
    }

    /// Whether so many lines are put in at once: where they are many, and there is room for their names.
    fn is_row(&self, count: usize) -> bool
        ensures yes { result ≡ true → (16 ≤ count) × (0 < self.now.row_room) }
        ensures no { result ≡ false → 16 ≤ count → self.now.row_room ≡ 0 }
    {
        count >= ROW && self.row.capacity() > 0 && self.below.capacity() > 24
    }

    /// Puts lines in from line `k` on one by one, the first of them in the places of the `gone` lines that stand there.
    fn put_in(&mut self, k: usize, gone: usize, lines: Vec<Line>, ticks: &mut C)
        requires within { k + gone ≤ length self.old.lines }
        requires fits { FitsSum (plus (total self.old.lines) (count_of lines.items)) }
        requires room { length lines.items - gone ≤ line_room self.old }
        ensures lines { (added : List Named) × (contents added ≡ lines.items)
            × (self.new.lines ≡ take k self.old.lines ++ added
            ++ drop (k + min gone (length lines.items)) self.old.lines) }
        ensures room { PutsRoom self.old self.new (length lines.items - gone) }
    {
        let end = k + gone;
        let mut at = k;
        let mut behind = None;
        for line in lines {
            behind = self.put_line(at, end, behind, line, ticks);
            at += 1;
        }
    }

    /// Puts a line in as number `k`, where that is below `end` in the place of the one that stands there. Gives its
    /// name; that of the line before it may be known.
    fn put_line(
        &mut self,
        k: usize,
        end: usize,
        behind: Option<NodePtr>,
        line: Line,
        ticks: &mut C,
    ) -> Option<NodePtr>
        requires within { k ≤ length self.old.lines }
        requires behind { (p : NodePtr) → behind ≡ Some p → (0 < k) × IsLineAt self.old.lines (k - 1) p }
        requires end { end ≤ length self.old.lines }
        requires fits { FitsSum (plus (total self.old.lines) (line_count line)) }
        requires room { end ≤ k → 1 ≤ line_room self.old }
        ensures over { k < end → self.new.lines ≡ changed k (λ _. line) self.old.lines }
        ensures more { end ≤ k → (p : NodePtr) × (self.new.lines ≡ insert self.old.lines k (p, line)) }
        ensures named { (p : NodePtr) → result ≡ Some p → IsLineAt self.new.lines k p }
        ensures room { PutsRoom self.old self.new (min 1 (k + 1 - end)) }
    {
        if k < end {
            let name = self.select(k, ticks);
            self.replace_named(name, line, ticks);
            Some(name)
        } else {
            prove!(self.height() <= 25);
            Some(self.put_behind(behind, k, line, ticks))
        }
    }

    /// Takes out the `gone` lines from line `k` on: whole nodes of them, and then the others.
    fn take_out(&mut self, k: usize, gone: usize, ticks: &mut C)
        requires within { k + gone ≤ length self.old.lines }
        requires some { gone < length self.old.lines }
        ensures lines { self.new.lines ≡ take k self.old.lines ++ drop (k + gone) self.old.lines }
        ensures room { KeepsRoom self.old self.new }
    {
        let left = self.take_branches(k, gone, ticks);
        self.take_lines(k, left, ticks);
    }

    /// Takes out whole lowest nodes, which have 6 lines at least, among the `gone` lines from line `k` on: a walk and
    /// new sums for each node, and not for each line. Gives how many of these lines are left.
    fn take_branches(&mut self, k: usize, gone: usize, ticks: &mut C) -> usize
        requires within { k + gone ≤ length self.old.lines }
        requires some { gone < length self.old.lines }
        ensures { Leaves self.old k gone result self.new }
    {
        if gone < 6 {
            return gone;
        }
        prove!(gone < self.len());
        let mut end = k + gone;
        let start = self.branch_near(k, end, ticks);
        while start < end {
            let taken = self.remove_branch(start, end - start, ticks);
            if taken == 0 {
                return end - k;
            }
            end -= taken;
        }
        end - k
    }

    /// Takes out the `gone` lines from line `k` on, one after the other.
    fn take_lines(&mut self, k: usize, gone: usize, ticks: &mut C)
        requires within { k + gone ≤ length self.old.lines }
        requires some { gone < length self.old.lines }
        ensures lines { self.new.lines ≡ take k self.old.lines ++ drop (k + gone) self.old.lines }
        ensures room { KeepsRoom self.old self.new }
    {
        for _ in 0..gone {
            self.remove(k, ticks);
        }
    }
}
