//! The balanced tree of named lines: its queries, insertion and removal of lines, and reserved nodes.

use crate::behind::Added;
use crate::branches::{give_back_all, lines_from};
use crate::climb::{rank, start_of};
use crate::fill::{join, top};
use crate::insert::{insert_next, new_line};
use crate::levels::levels;
use crate::locate::{Located, locate};
use crate::nearest::{Wanted, next, previous};
use crate::prefix::prefix;
use crate::remove::{Branch, lower, remove_in};
use crate::replacing::{edit_up, replace_up};
use crate::room::{nodes_above, row_ends};
use crate::select::select;
use crate::starts::{Placed, is_odd, odd_slots, place, start};
use crate::taking::take_up;
use crate::walk::behind;
use raw_nodes::{NodePtr, NodeStore, Ticks};
use segments::{Line, LineEdit};
use std::alloc::{AllocError, Global};
use std::marker::Model;
use text_model::{MarkNo, TagSet, TagSlot, WORDS};
use toggle_sums::Sums;

/// A list of lines with names, as a balanced tree.
#[derive(Drop)]
pub struct LineTree<C: Ticks> {
    pub(crate) store: NodeStore<C>,
    pub(crate) root: NodePtr,
    pub(crate) height: usize,
    pub(crate) count: usize,
    /// The names of nodes while a row of lines is put in: those of one level, and those that go below the next.
    pub(crate) row: Vec<NodePtr>,
    pub(crate) below: Vec<NodePtr>,
}

impl<C: Ticks> Model for LineTree<C> {
    ghost use Rattle.std.specs.Prelude.{◌≡◌, ◌+◌, ◌-◌, length, min, vec_capacity};
    ghost use Rattle.std.specs.FinMap as finite;
    ghost use Rattle.raw_nodes.specs.Names.{records, rooms, spares};
    ghost use Rattle.line_tree.specs.Shape.{lines_in};
    ghost use Rattle.line_tree.specs.Growth.{StandsAlone};
    ghost use Rattle.line_tree.specs.TreeState.{TreeState, state_code};

    ghost Value = { TreeState };

    ghost coded = { state_code };

    ghost view = { λ t. record {
      lines = lines_in (records t.store) t.height t.root;
      height = t.height;
      spares = spares t.store;
      rooms = rooms t.store;
      nodes = spares t.store + finite.len (records t.store);
      row_room = min (vec_capacity t.row) (vec_capacity t.below - 24);
    } };

    ghost invariant = { λ t. StandsAlone (records t.store) t.height t.root
        × (t.count ≡ length (lines_in (records t.store) t.height t.root)) };
}

impl<C: Ticks> LineTree<C> {
    ghost use Rattle.std.specs.Prelude.{◌≡◌, ℕ, ◌+◌, ◌-◌, ◌*◌, ◌/◌, ◌^◌, ◌≤◌, ◌<◌, OnErr, OnOk, IfOk, IfSome};
    ghost use Rattle.std.specs.Prelude.{[], ◌∷◌, Some, length, min, option_map, slice_get, take, true};
    ghost use Rattle.std.specs.FinSet as set;
    ghost use Rattle.std.specs.List.{insert, remove};
    ghost use Rattle.toggle_sums.specs.Counts.{IsBare, plus};
    ghost use Rattle.text_model.specs.Splices.{removed};
    ghost use Rattle.text_model.specs.TagBits.{slot_count};
    ghost use Rattle.raw_nodes.specs.Names.{records};
    ghost use Rattle.raw_nodes.specs.declared.names.NodePtr.{NodePtr};
    ghost use Rattle.line_lists.specs.Edits.{without_mark};
    ghost use Rattle.line_lists.specs.Lists.{count_of, has_marks, has_toggle, next_line, previous_line};
    ghost use Rattle.line_tree.specs.Growth.{StandsAlone};
    ghost use Rattle.line_tree.specs.Shape.{lines_in};
    ghost use Rattle.line_lists.specs.Texts.{whole};
    ghost use Rattle.line_tree.specs.Trees.{Named, contents, total};
    ghost use Rattle.segments.specs.Columns.{LineContent, line_count, plain_line};
    ghost use Rattle.line_tree.specs.Changes.{Distinct, FitsSum};
    ghost use Rattle.line_tree.specs.Places.{IsLineAt, line_names};
    ghost use Rattle.line_tree.specs.Locating.{IsPlaceAt};
    ghost use Rattle.line_tree.specs.Room.{HasRoom, KeepsRoom, levels_at_most, line_room, most_in_row};
    ghost use Rattle.line_tree.specs.Replacing.{CanEditNamed};
    ghost use Rattle.line_tree.specs.Taking.{changed};

    /// A tree of one line, the lone newline. Fails for want of memory.
    pub fn new(alloc: Global) -> Result<LineTree<C>, AllocError>
        ensures { IfOk result (λ t. (p : _) × (t.lines ≡ (p, plain_line (10 ∷ [])) ∷ [])) }
    {
        let line = Line::new(alloc, "\n")?;
        let sum = line.sum();
        let mut store = NodeStore::new(alloc);
        store.reserve(1)?;
        store.reserve_lines(2)?;
        let name = new_line(&mut store, line);
        let root = top(&mut store, name, sum);
        Ok(LineTree {
            store,
            root,
            height: 1,
            count: 1,
            row: Vec::new(alloc),
            below: Vec::new(alloc),
        })
    }

    /// Brings the spares, and the rooms beside them, to `count` at least. Fails for want of memory.
    pub fn reserve(&mut self, count: usize) -> Result<(), AllocError>
        ensures spares { OnOk result (count ≤ self.new.spares) }
        ensures rooms { OnOk result (count ≤ self.new.rooms) }
        ensures lines { self.new.lines ≡ self.old.lines }
        ensures height { self.new.height ≡ self.old.height }
        ensures more { (self.old.spares ≤ self.new.spares) × (self.old.rooms ≤ self.new.rooms) }
        ensures nodes { self.new.nodes + self.old.spares ≡ self.old.nodes + self.new.spares }
    {
        self.store.reserve(count)
    }

    /// Reserves for the insertion of `count` lines, by as many splices as the caller likes. Fails where an allocation
    /// fails.
    pub fn reserve_for(&mut self, count: usize) -> Result<(), AllocError>
        ensures lines { self.new.lines ≡ self.old.lines }
        ensures height { self.new.height ≡ self.old.height }
        ensures room { OnOk result (HasRoom self.new count count) }
    {
        self.reserve_for_rows(count, count)
    }

    /// Reserves for the insertion of `count` lines that come in at most `rows` splices, which may need less memory than
    /// `reserve_for` allocates. Fails where an allocation fails.
    pub fn reserve_for_rows(&mut self, count: usize, rows: usize) -> Result<(), AllocError>
        ensures lines { self.new.lines ≡ self.old.lines }
        ensures height { self.new.height ≡ self.old.height }
        ensures room { OnOk result (HasRoom self.new count rows) }
    {
        if count == 0 {
            self.free_names();
            return Ok(());
        }
        let most = count.checked_mul(27).ok_or(AllocError)?;
        let nodes = self.nodes_with(most).ok_or(AllocError)?;
        let levels = levels(nodes);
        let ends = rows.checked_mul(row_ends(levels)).ok_or(AllocError)?;
        let steep = count * (levels + 2);
        let wide = self.count / 5 + count / 5 + 27;
        let flat = ends.saturating_add(nodes_above(count, levels));
        if flat < wide.min(steep - count) {
            return self.reserve_rows(count, flat);
        }
        self.free_names();
        self.reserve_alone(count, levels)
    }

    /// Reserves for `count` lines to be put in one by one, whatever nodes split, in a tree of so many levels at most
    /// then. Fails for want of memory.
    fn reserve_alone(&mut self, count: usize, levels: usize) -> Result<(), AllocError>
        requires few { count * 27 < 2 ^ 64 }
        requires low { levels ≤ 25 }
        requires levels { levels_at_most (self.old.nodes + count * 27) ≤ levels }
        ensures lines { self.new.lines ≡ self.old.lines }
        ensures height { self.new.height ≡ self.old.height }
        ensures names { self.new.row_room ≡ self.old.row_room }
        ensures room { OnOk result (count ≤ line_room self.new) }
    {
        let steep = count * (levels + 2);
        let rooms = self.count / 5 + count / 5 + 27;
        if steep <= rooms + count {
            return self.store.reserve(steep);
        }
        self.store.reserve(rooms)?;
        self.store.reserve_lines(rooms + count)
    }

    /// Reserves for `count` lines and so many nodes above them, and for the names of lines in a row.
    fn reserve_rows(&mut self, count: usize, rooms: usize) -> Result<(), AllocError>
        requires { rooms + count < 2 ^ 64 }
        ensures lines { self.new.lines ≡ self.old.lines }
        ensures height { self.new.height ≡ self.old.height }
        ensures nodes { self.new.nodes ≤ self.old.nodes + rooms + count }
        ensures rooms { OnOk result (rooms ≤ self.new.rooms) }
        ensures spares { OnOk result (count + rooms ≤ self.new.spares) }
        ensures names { OnOk result (min count most_in_row ≤ self.new.row_room) }
    {
        self.reserve_row(count)?;
        self.store.reserve(rooms)?;
        self.store.reserve_lines(rooms + count)
    }

    /// Gives back spares and rooms that aren't needed: at most a quarter of the lines and 64 spares stay, and a fifth
    /// and 32 rooms. The lists of names for rows go.
    pub fn free_spares(&mut self)
        ensures lines { self.new.lines ≡ self.old.lines }
        ensures height { self.new.height ≡ self.old.height }
        ensures spares { self.new.spares ≤ length self.new.lines / 4 + 64 }
        ensures rooms { self.new.rooms ≤ length self.new.lines / 5 + 32 }
    {
        self.give_back_spares();
        self.give_back_rooms();
        self.free_names();
    }

    /// Gives back the memory for the names of lines in a row.
    fn free_names(&mut self)
        ensures lines { self.new.lines ≡ self.old.lines }
        ensures height { self.new.height ≡ self.old.height }
        ensures spares { self.new.spares ≡ self.old.spares }
        ensures rooms { self.new.rooms ≡ self.old.rooms }
        ensures nodes { self.new.nodes ≡ self.old.nodes }
        ensures names { self.new.row_room ≡ 0 }
    {
        self.row.clear();
        self.row.shrink_to(0);
        self.below.clear();
        self.below.shrink_to(0);
    }

    /// Gives back spares where there are more than a quarter of the lines and 64, as after many lines left. Far fewer
    /// stay then, so that edits by which lines come and go don't give back and reserve by turns.
    fn give_back_spares(&mut self)
        ensures lines { self.new.lines ≡ self.old.lines }
        ensures height { self.new.height ≡ self.old.height }
        ensures spares { self.new.spares ≤ length self.new.lines / 4 + 64 }
    {
        if self.store.spares() <= self.count / 4 + 64 {
            return;
        }
        let spares = self.count / 64 + 16;
        let rooms = self.count / 256 + 8;
        self.store.free_spares(spares, rooms);
    }

    /// Gives back rooms where there are more than a fifth of the lines and 32. So many stay, the most that an insertion
    /// asks for: whoever puts in many lines piece by piece reserves for each piece far more than it takes.
    fn give_back_rooms(&mut self)
        ensures lines { self.new.lines ≡ self.old.lines }
        ensures height { self.new.height ≡ self.old.height }
        ensures spares { self.new.spares ≡ self.old.spares }
        ensures rooms { self.new.rooms ≤ length self.new.lines / 5 + 32 }
    {
        let rooms = self.count / 5 + 32;
        if self.store.rooms() <= rooms {
            return;
        }
        let spares = self.store.spares();
        self.store.free_spares(spares, rooms);
    }

    /// How many nodes and spares there are at most, once so many more are reserved, if that can be counted.
    fn nodes_with(&self, more: usize) -> Option<usize>
        ensures { IfSome result (λ most. self.now.nodes + more ≤ most) }
    {
        let used = self.count.checked_add(self.count / 5 + 1)?;
        let all = used.checked_add(self.store.spares())?;
        let most = all.checked_add(more)?;
        Some(most)
    }

    /// How many lines there are.
    pub fn len(&self) -> usize
        ensures { result ≡ length self.now.lines }
    {
        self.count
    }

    /// The root, and the nodes: those of a balanced tree with these lines, and no others.
    pub fn nodes(&self) -> (NodePtr, &NodeStore<C>)
        ensures tree { StandsAlone (records result.1.now) self.now.height result.0 }
        ensures lines { lines_in (records result.1.now) self.now.height result.0 ≡ self.now.lines }
    {
        (self.root, &self.store)
    }

    /// How many levels of nodes there are.
    pub fn height(&self) -> usize
        ensures value { result ≡ self.now.height }
        ensures lines { 2 ≤ result → 2 * 6 ^ (result - 1) ≤ length self.now.lines }
        ensures low { result ≤ 25 }
        ensures levels { result ≤ levels_at_most self.now.nodes }
        ensures names { Distinct (line_names self.now.lines) }
        ensures many { length self.now.lines + self.now.spares + 1 ≤ self.now.nodes }
        ensures few { 5 * self.now.nodes ≤ 6 * length self.now.lines + 5 * self.now.spares + 4 }
        ensures room { 1 ≤ line_room self.now
            → (self.now.height + 2 ≤ self.now.spares) × (self.now.height + 1 ≤ self.now.rooms) }
    {
        self.height
    }

    /// The name of line `k`.
    pub fn select(&self, k: usize, ticks: &mut C) -> NodePtr
        requires { k < length self.now.lines }
        ensures name { IsLineAt self.now.lines k result }
        ensures ticks { C.count ticks.new ≤ C.count ticks.old + 24 * self.now.height }
    {
        select(&self.store, self.root, self.height, self.count, k, ticks)
    }

    /// The line and the column of a character.
    pub fn locate(&self, offset: usize, ticks: &mut C) -> (usize, usize)
        requires { offset < (total self.now.lines).characters }
        ensures place { IsPlaceAt self.now.lines offset result.0 result.1 }
        ensures ticks { C.count ticks.new ≤ C.count ticks.old + 24 * self.now.height }
    {
        let found = self.locate_line(offset, ticks);
        (found.line, found.column)
    }

    /// The line of a character, by its name too, and its column there.
    pub fn locate_line(&self, offset: usize, ticks: &mut C) -> Located
        requires { offset < (total self.now.lines).characters }
        ensures place { IsPlaceAt self.now.lines offset result.line result.column }
        ensures name { IsLineAt self.now.lines result.line result.name }
        ensures ticks { C.count ticks.new ≤ C.count ticks.old + 24 * self.now.height }
    {
        locate(&self.store, self.root, self.height, offset, ticks)
    }

    /// The number of the line with a name.
    pub fn rank(&self, name: NodePtr, ticks: &mut C) -> usize
        requires { (k : ℕ) × IsLineAt self.now.lines k name }
        ensures value { (k : ℕ) → IsLineAt self.now.lines k name → result ≡ k }
        ensures ticks { C.count ticks.new ≤ C.count ticks.old + 23 * self.now.height }
    {
        rank(&self.store, self.root, self.height, name, ticks)
    }

    /// How many characters stand before the line with a name.
    pub(crate) fn start_of(&self, name: NodePtr, ticks: &mut C) -> usize
        requires { (k : ℕ) × IsLineAt self.now.lines k name }
        ensures { (k : ℕ) → IsLineAt self.now.lines k name
            → result ≡ length (whole (take k (contents self.now.lines))).columns }
    {
        start_of(&self.store, self.root, self.height, name, ticks)
    }

    /// The name of the line behind one, if there is one. From line to line to the last it takes a few steps on average.
    pub fn next_name(&self, name: NodePtr, ticks: &mut C) -> Option<NodePtr>
        requires { (k : ℕ) × IsLineAt self.now.lines k name }
        ensures value { (k : ℕ) → IsLineAt self.now.lines k name
            → result ≡ option_map (λ (l : Named). l.0) (slice_get self.now.lines (k + 1)) }
        ensures ticks { C.count ticks.new ≤ C.count ticks.old + 3 * self.now.height }
    {
        behind(&self.store, self.root, self.height, name, ticks)
    }

    /// How many characters the first `k` lines have.
    pub fn start(&self, k: usize, ticks: &mut C) -> usize
        requires { k ≤ length self.now.lines }
        ensures { result ≡ length (whole (take k (contents self.now.lines))).columns }
    {
        start(&self.store, self.root, self.height, k, ticks)
    }

    /// The name of line `k`, and how many characters the first `k` lines have.
    pub fn place(&self, k: usize, ticks: &mut C) -> Placed
        requires { k < length self.now.lines }
        ensures name { IsLineAt self.now.lines k result.name }
        ensures start { result.start ≡ length (whole (take k (contents self.now.lines))).columns }
    {
        let size = self.store.size(self.root, ticks);
        place(&self.store, self.root, self.height, size, k, ticks)
    }

    /// The slots that are toggled an odd number of times in the first `k` lines.
    pub fn odd_slots(&self, k: usize, ticks: &mut C) -> TagSet
        requires { k ≤ length self.now.lines }
        ensures { result ≡ (count_of (take k (contents self.now.lines))).parity }
    {
        odd_slots(&self.store, self.root, self.height, k, ticks)
    }

    /// Returns whether a slot is toggled an odd number of times in the first `k` lines.
    pub fn is_odd(&self, slot: TagSlot, k: usize, ticks: &mut C) -> bool
        requires slot { slot.0 < slot_count }
        requires within { k ≤ length self.now.lines }
        ensures { result ≡ set.contains (count_of (take k (contents self.now.lines))).parity slot.0 }
    {
        is_odd(&self.store, self.root, self.height, slot, k, ticks)
    }

    /// The sum of the first `k` lines.
    pub fn prefix(&self, k: usize, ticks: &mut C) -> Sums<WORDS>
        requires { k ≤ length self.now.lines }
        ensures { result ≡ count_of (take k (contents self.now.lines)) }
    {
        prefix(&self.store, self.root, self.height, k, ticks)
    }

    /// How many marks stand in the lines.
    pub fn marks(&self, ticks: &mut C) -> usize
        ensures { result ≡ (count_of (contents self.now.lines)).marks }
    {
        self.store.marks(self.root, ticks)
    }

    /// Whether no slot is toggled in any line.
    pub(crate) fn is_bare(&self, ticks: &mut C) -> bool
        ensures yes { result ≡ true → IsBare (count_of (contents self.now.lines)) }
        ensures no { IsBare (count_of (contents self.now.lines)) → result ≡ true }
    {
        self.store.is_bare(self.root, ticks)
    }

    /// The first line from one on in which a slot is toggled.
    pub fn next_with(&self, slot: TagSlot, from: usize, ticks: &mut C) -> Option<usize>
        requires slot { slot.0 < slot_count }
        requires within { from ≤ length self.now.lines }
        ensures { result ≡ next_line (has_toggle slot.0) from (contents self.now.lines) }
    {
        let wanted = Wanted::Toggle(slot);
        next(&self.store, self.root, self.height, wanted, from, ticks)
    }

    /// The first line from one on in which a mark stands.
    pub fn next_marked(&self, from: usize, ticks: &mut C) -> Option<usize>
        requires { from ≤ length self.now.lines }
        ensures { result ≡ next_line has_marks from (contents self.now.lines) }
    {
        let wanted = Wanted::Mark;
        next(&self.store, self.root, self.height, wanted, from, ticks)
    }

    /// The last line below one in which a slot is toggled.
    pub fn previous_with(&self, slot: TagSlot, to: usize, ticks: &mut C) -> Option<usize>
        requires slot { slot.0 < slot_count }
        requires within { to ≤ length self.now.lines }
        ensures { result ≡ previous_line (has_toggle slot.0) to (contents self.now.lines) }
    {
        let wanted = Wanted::Toggle(slot);
        previous(&self.store, self.root, self.height, wanted, to, ticks)
    }

    /// The last line below one in which a mark stands.
    pub fn previous_marked(&self, to: usize, ticks: &mut C) -> Option<usize>
        requires { to ≤ length self.now.lines }
        ensures { result ≡ previous_line has_marks to (contents self.now.lines) }
    {
        let wanted = Wanted::Mark;
        previous(&self.store, self.root, self.height, wanted, to, ticks)
    }

    /// Puts in a line as number `k`, and gives its name.
    pub fn insert(&mut self, k: usize, line: Line, ticks: &mut C) -> NodePtr
        requires place { k ≤ length self.old.lines }
        requires fits { FitsSum (plus (total self.old.lines) (line_count line)) }
        requires spares { self.old.height + 2 ≤ self.old.spares }
        requires rooms { self.old.height + 1 ≤ self.old.rooms }
        ensures lines { self.new.lines ≡ insert self.old.lines k (result, line) }
        ensures spares { self.old.spares ≤ self.new.spares + self.old.height + 2 }
        ensures rooms { self.new.rooms + self.old.spares ≡ self.old.rooms + self.new.spares + 1 }
        ensures nodes { self.new.nodes ≡ self.old.nodes }
        ensures names { self.new.row_room ≡ self.old.row_room }
        ensures room { line_room self.old ≤ line_room self.new + 1 }
    {
        self.put_behind(None, k, line, ticks)
    }

    /// The same where the name of the line before it may be known.
    pub(crate) fn put_behind(
        &mut self,
        behind: Option<NodePtr>,
        k: usize,
        line: Line,
        ticks: &mut C,
    ) -> NodePtr
        requires place { k ≤ length self.old.lines }
        requires behind { (p : NodePtr) → behind ≡ Some p → (0 < k) × IsLineAt self.old.lines (k - 1) p }
        requires fits { FitsSum (plus (total self.old.lines) (line_count line)) }
        requires spares { self.old.height + 2 ≤ self.old.spares }
        requires rooms { self.old.height + 1 ≤ self.old.rooms }
        ensures lines { self.new.lines ≡ insert self.old.lines k (result, line) }
        ensures spares { self.old.spares ≤ self.new.spares + self.old.height + 2 }
        ensures rooms { self.new.rooms + self.old.spares ≡ self.old.rooms + self.new.spares + 1 }
        ensures nodes { self.new.nodes ≡ self.old.nodes }
        ensures names { self.new.row_room ≡ self.old.row_room }
        ensures room { line_room self.old ≤ line_room self.new + 1 }
    {
        self.count += 1;
        let more = line.sum();
        let name = new_line(&mut self.store, line);
        let added = Added {
            line: name,
            more,
            behind,
        };
        let split = insert_next(&mut self.store, self.root, self.height, k, &added, ticks);
        if let Some(sibling) = split {
            self.root = join(&mut self.store, self.root, sibling, ticks);
            self.height += 1;
        }
        name
    }

    /// Takes out line `k`.
    pub fn remove(&mut self, k: usize, ticks: &mut C) -> Line
        requires place { k < length self.old.lines }
        requires two { 2 ≤ length self.old.lines }
        ensures lines { self.new.lines ≡ remove self.old.lines k }
        ensures line { (p : _) × (slice_get self.old.lines k ≡ Some (p, result)) }
        ensures spares { self.old.spares + 1 ≤ self.new.spares }
        ensures rooms { self.new.rooms + self.old.spares + 1 ≡ self.old.rooms + self.new.spares }
        ensures nodes { self.new.nodes ≡ self.old.nodes }
        ensures names { self.new.row_room ≡ self.old.row_room }
        ensures room { line_room self.old ≤ line_room self.new }
    {
        self.count -= 1;
        let line = Branch {
            level: 0,
            first: k,
            most: 1,
        };
        let mut less = Sums::counting(0, 0, 0);
        let name = remove_in(
            &mut self.store,
            self.root,
            self.height,
            line,
            &mut less,
            ticks,
        )
        .unwrap();
        let top = lower(&mut self.store, self.root, self.height, ticks);
        self.root = top.root;
        self.height = top.height;
        self.store.give_back(name).unwrap()
    }

    /// About where the first lowest node of the lines from line `k` on begins, but no later than line `end`.
    pub(crate) fn branch_near(&self, k: usize, end: usize, ticks: &mut C) -> usize
        requires within { k < length self.now.lines }
        requires end { k ≤ end }
        ensures { (k ≤ result) × (result ≤ end) }
    {
        let line = self.select(k, ticks);
        let rest = lines_from(&self.store, line, ticks);
        if rest < end - k { k + rest } else { end }
    }

    /// Takes out the lines of a lowest node, if line `k` is its first and it has at most so many. Gives how many.
    pub(crate) fn remove_branch(&mut self, k: usize, most: usize, ticks: &mut C) -> usize
        requires some { 0 < most }
        requires within { k + most ≤ length self.old.lines }
        requires left { most < length self.old.lines }
        ensures lines { self.new.lines ≡ removed k (k + result) self.old.lines }
        ensures most { result ≤ most }
        ensures room { KeepsRoom self.old self.new }
    {
        if self.height < 2 {
            return 0;
        }
        let branch = Branch {
            level: 1,
            first: k,
            most,
        };
        let mut less = Sums::counting(0, 0, 0);
        let Some(name) = remove_in(
            &mut self.store,
            self.root,
            self.height,
            branch,
            &mut less,
            ticks,
        ) else {
            return 0;
        };
        let left = lower(&mut self.store, self.root, self.height, ticks);
        self.root = left.root;
        self.height = left.height;
        let lines = give_back_all(&mut self.store, name, ticks);
        self.count -= lines;
        lines
    }

    /// Takes the mark of a number off line `k`.
    pub fn take_mark(&mut self, k: usize, number: MarkNo, ticks: &mut C)
        requires { k < length self.old.lines }
        ensures lines { self.new.lines ≡ changed k (without_mark number.0) self.old.lines }
        ensures room { line_room self.new ≡ line_room self.old }
        ensures keeps { KeepsRoom self.old self.new }
    {
        let name = self.select(k, ticks);
        self.take_mark_named(name, number, ticks);
    }

    /// The same where the line is known by its name.
    pub(crate) fn take_mark_named(&mut self, name: NodePtr, number: MarkNo, ticks: &mut C)
        requires { (k : ℕ) × IsLineAt self.old.lines k name }
        ensures lines { (k : ℕ) → IsLineAt self.old.lines k name
            → self.new.lines ≡ changed k (without_mark number.0) self.old.lines }
        ensures room { line_room self.new ≡ line_room self.old }
        ensures keeps { KeepsRoom self.old self.new }
    {
        take_up(&mut self.store, self.root, self.height, name, number, ticks);
    }

    /// Puts a line in the place of line `k`, under its name.
    pub fn replace(&mut self, k: usize, line: Line, ticks: &mut C)
        requires place { k < length self.old.lines }
        requires fits { FitsSum (plus (total self.old.lines) (line_count line)) }
        ensures lines { self.new.lines ≡ changed k (λ _. line) self.old.lines }
        ensures room { line_room self.new ≡ line_room self.old }
        ensures keeps { KeepsRoom self.old self.new }
    {
        let name = self.select(k, ticks);
        self.replace_named(name, line, ticks);
    }

    /// Makes an edit of the line with a name where it lies. If memory is refused, all is as it was.
    pub(crate) fn edit_named<E: LineEdit>(
        &mut self,
        name: NodePtr,
        edit: &E,
        ticks: &mut C,
    ) -> Result<(), AllocError>
        requires { (k : ℕ) × (line : LineContent) × (slice_get self.old.lines k ≡ Some (name, line))
            × CanEditNamed (E.fits edit.now) (E.edited edit.now) (total self.old.lines) line }
        ensures made { OnOk result ((k : ℕ) (line : LineContent) → slice_get self.old.lines k ≡ Some (name, line) →
            self.new.lines ≡ changed k (λ _. E.edited edit.now line) self.old.lines) }
        ensures refused { OnErr result (self.new.lines ≡ self.old.lines) }
    {
        edit_up(&mut self.store, self.root, self.height, name, edit, ticks)?;
        Ok(())
    }

    /// The same where the old line is known by its name.
    pub(crate) fn replace_named(&mut self, name: NodePtr, line: Line, ticks: &mut C)
        requires named { (k : ℕ) × IsLineAt self.old.lines k name }
        requires fits { FitsSum (plus (total self.old.lines) (line_count line)) }
        ensures lines { (k : ℕ) → IsLineAt self.old.lines k name
            → self.new.lines ≡ changed k (λ _. line) self.old.lines }
        ensures room { line_room self.new ≡ line_room self.old }
        ensures keeps { KeepsRoom self.old self.new }
    {
        replace_up(&mut self.store, self.root, self.height, name, line, ticks);
    }
}
