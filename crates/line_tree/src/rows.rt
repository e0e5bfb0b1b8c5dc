//! Inserts many lines at once as rows of at most 32,768 lines, and reserves space for their names.

use crate::put_row::{lift, make_row, put_row};
use crate::room::MOST_IN_ROW;
use crate::tree::LineTree;
use crate::walk::Subtree;
use raw_nodes::{NodePtr, Ticks};
use segments::Line;
use std::alloc::AllocError;

impl<C: Ticks> LineTree<C> {
    ghost use Rattle.std.specs.Prelude.{◌≡◌, ◌+◌, ◌*◌, ◌<◌, ◌≤◌, ◌++◌, ◌-◌, List, OnOk, length, min, take, drop};
    ghost use Rattle.toggle_sums.specs.Counts.{plus};
    ghost use Rattle.line_lists.specs.Lists.{count_of};
    ghost use Rattle.line_tree.specs.Changes.{FitsSum};
    ghost use Rattle.line_tree.specs.Room.{CanPutRow, levels_at_most, most_in_row, nodes_above};
    ghost use Rattle.line_tree.specs.Trees.{Named, contents, total};

    /// Reserves for the names of a row of so many lines. Fails for want of memory.
    pub(crate) fn reserve_row(&mut self, count: usize) -> Result<(), AllocError>
        ensures lines { self.new.lines ≡ self.old.lines }
        ensures height { self.new.height ≡ self.old.height }
        ensures spares { self.new.spares ≡ self.old.spares }
        ensures rooms { self.new.rooms ≡ self.old.rooms }
        ensures nodes { self.new.nodes ≡ self.old.nodes }
        ensures names { OnOk result (min count most_in_row ≤ self.new.row_room) }
    {
        let most = count.min(MOST_IN_ROW);
        self.row.clear();
        self.below.clear();
        self.row.reserve(most)?;
        self.below.reserve(most + 24)?;
        Ok(())
    }

    /// Puts the lines of a list from number `rest` on in from line `k` on, and leaves the others in the list. The nodes
    /// on the way to line `k` are taken apart, and each level is made anew from what stood there and the new nodes of
    /// the level below, 12 to a node.
    pub(crate) fn put_rows(&mut self, k: usize, lines: &mut Vec<Line>, rest: usize, ticks: &mut C)
        requires rest { rest ≤ length lines.old.items }
        requires place { k ≤ length self.old.lines }
        requires fits { FitsSum (plus (total self.old.lines) (count_of (drop rest lines.old.items))) }
        requires room { CanPutRow self.old (length lines.old.items - rest) }
        ensures left { lines.new.items ≡ take rest lines.old.items }
        ensures lines { (added : List Named) × (contents added ≡ drop rest lines.old.items)
            × (self.new.lines ≡ take k self.old.lines ++ added ++ drop k self.old.lines) }
        ensures nodes { self.new.nodes ≡ self.old.nodes }
        ensures used { self.old.rooms ≤ self.new.rooms + nodes_above self.old (length lines.old.items - rest) }
        ensures rooms { self.new.rooms + self.old.spares
            ≡ self.old.rooms + self.new.spares + (length lines.old.items - rest) }
        ensures names { self.new.row_room ≡ self.old.row_room }
    {
        while lines.len() > rest {
            let part = rest.max(lines.len().saturating_sub(MOST_IN_ROW));
            self.put_part(k, lines, part, ticks);
        }
    }

    /// The same of few lines, some at least. One alone goes in without a row, since two nodes may come of it where the
    /// lists have room for one name.
    fn put_part(&mut self, k: usize, lines: &mut Vec<Line>, rest: usize, ticks: &mut C)
        requires some { rest < length lines.old.items }
        requires few { length lines.old.items ≤ rest + most_in_row }
        requires place { k ≤ length self.old.lines }
        requires fits { FitsSum (plus (total self.old.lines) (count_of (drop rest lines.old.items))) }
        requires rooms { length lines.old.items + 23 * levels_at_most self.old.nodes ≤ rest + 11 * self.old.rooms }
        requires spares { 12 * length lines.old.items + 23 * levels_at_most self.old.nodes
            ≤ 12 * rest + 11 * self.old.spares }
        requires names { length lines.old.items ≤ rest + self.old.row_room }
        ensures left { lines.new.items ≡ take rest lines.old.items }
        ensures lines { (added : List Named) × (contents added ≡ drop rest lines.old.items)
            × (self.new.lines ≡ take k self.old.lines ++ added ++ drop k self.old.lines) }
        ensures nodes { self.new.nodes ≡ self.old.nodes }
        ensures used { 11 * self.old.rooms + rest
            ≤ 11 * self.new.rooms + length lines.old.items + 23 * levels_at_most self.old.nodes }
        ensures rooms { self.new.rooms + self.old.spares + rest
            ≡ self.old.rooms + self.new.spares + length lines.old.items }
        ensures names { self.new.row_room ≡ self.old.row_room }
    {
        let _ = &self.store;
        let count = lines.len() - rest;
        if count == 1 {
            if let Some(line) = lines.pop() {
                self.insert(k, line, ticks);
            }
            return;
        }
        self.count += count;
        make_row(&mut self.store, lines, rest, &mut self.row);
        let branch = Subtree {
            node: self.root,
            height: self.height,
        };
        put_row(
            &mut self.store,
            branch,
            k,
            &mut self.row,
            &mut self.below,
            ticks,
        );
        self.height = lift(
            &mut self.store,
            self.height,
            &mut self.row,
            &mut self.below,
            ticks,
        );
        self.root = self.row[0];
    }
}
