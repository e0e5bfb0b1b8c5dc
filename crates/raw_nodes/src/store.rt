//! The store of nodes: a map from names to lines and inner nodes, with spares that are reserved beforehand.

ghost use Rattle.raw_nodes.specs.Cells.{AreApart, IsPlace, ats, number_in};
ghost use Rattle.raw_nodes.specs.Chain as chain;
ghost use Rattle.raw_nodes.specs.Chain.{IsChain, afters_of, befores_of, behind, flag_of, marks_of, nexts_of, room_of};
ghost use Rattle.raw_nodes.specs.Chain.{rooms_for};
ghost use Rattle.std.specs.FinMap as finite;
ghost use Rattle.std.specs.FinSet as set;
ghost use Rattle.std.specs.Prelude.{◌≡◌, ◌≢◌, ◌+◌, ◌^◌, ◌<◌, ◌≤◌, [], ◌∷◌, ◌++◌, IfSome, None, Some, OnErr, OnOk};
ghost use Rattle.std.specs.Prelude.{count_by, false, is_some, length, map, max, min, option_map, slice_index_or};
ghost use Rattle.std.specs.Prelude.{sum_by, true, vec_capacity};

use crate::heap::Heap;
use crate::names::{Link, NodePtr};
use crate::nodes::{Held, Node, Room, hold, put_back, trim_rooms};
use crate::parts::Parts;
use crate::ticks::Ticks;
use segments::Line;
use std::alloc::{AllocError, Global};
use std::marker::PhantomData;
use text_model::{TagSet, TagSlot, WORDS};
use toggle_sums::{Exchange, Sums};

/// Nodes in memory of their own: a finite map from names to records, and a number of spares. A node is a line, or it is
/// an inner node, which has a sum and up to 12 children. Both become of spares, and an inner node takes a room for its
/// children besides. Links count no steps but by `child`, `parent` and `sum`.
pub struct NodeStore<C: Ticks> {
    alloc: Global,
    heap: Heap,
    last: Option<NodePtr>,
    count: u32,
    first_spare: Option<NodePtr>,
    spares: u32,
    rooms: Vec<Box<Room>>,
    room_count: usize,
    counter: PhantomData<C>,
    ghost listed: { befores_of heap.values ++ last ∷ [] ≡ None ∷ map Some heap.places },
    ghost whole: { count ≡ length heap.values },
    ghost small: { count < 2 ^ 32 },
    ghost chained: { ∥ IsChain heap.places (marks_of heap.values) (nexts_of heap.values) spares first_spare ∥₁ },
    ghost counted: { spares ≡ sum_by flag_of heap.values },
    ghost followed: { afters_of heap.values ≡ behind heap.places },
    ghost apart: { ∥ AreApart (ats heap.places) ∥₁ },
    ghost roomed: { length rooms.items + sum_by room_of heap.values ≡ room_count },
    ghost fitting: { room_count ≤ vec_capacity rooms },
}

impl<C: Ticks> NodeStore<C> {
    ghost use Rattle.raw_nodes.specs.LineLending.{LendsLine};
    ghost use Rattle.raw_nodes.specs.Names.{IsInner, IsName, entry, nodes, records, rooms, spares};
    ghost use Rattle.raw_nodes.specs.Records.{blank, update, with_child, with_parent, with_sum};
    ghost use Rattle.std.specs.Borrow.{sem};
    ghost use Rattle.text_model.specs.TagBits.{slot_count};
    ghost use Rattle.text_model.specs.SlotSets.{differing};
    ghost use Rattle.toggle_sums.specs.Counts.{CanExchange, CountsFit, HasCounts, IsBare, counting, exchanged, less};
    ghost use Rattle.toggle_sums.specs.Counts.{plus};

    /// A store without nodes. It takes no memory.
    pub fn new(alloc: Global) -> NodeStore<C>
        ensures records { records result ≡ finite.empty }
        ensures spares { spares result ≡ 0 }
        ensures rooms { rooms result ≡ 0 }
    {
        NodeStore {
            alloc,
            heap: Heap::new(),
            last: None,
            count: 0,
            first_spare: None,
            spares: 0,
            rooms: Vec::new(alloc),
            room_count: 0,
            counter: PhantomData,
        }
    }

    /// A node's own slot number in its parent.
    pub fn slot(&self, name: NodePtr) -> usize
        requires { IsName self.now name }
        ensures { IfSome (entry self.now name) (λ r. result ≡ r.slot) }
    {
        self.heap.node(name).held.slot() as usize
    }

    /// A node's parent.
    pub fn parent(&self, name: NodePtr, ticks: &mut C) -> Option<NodePtr>
        requires { IsName self.now name }
        ensures value { IfSome (entry self.now name) (λ r. result ≡ r.parent) }
        ensures tick { C.count ticks.new ≡ C.count ticks.old + 1 }
    {
        ticks.tick();
        self.heap.node(name).parent.name()
    }

    /// The child in a slot.
    pub fn child(&self, name: NodePtr, i: usize, ticks: &mut C) -> Option<NodePtr>
        requires name { IsName self.now name }
        requires index { i < 12 }
        ensures value { IfSome (entry self.now name) (λ r. result ≡ slice_index_or r.children i None) }
        ensures tick { C.count ticks.new ≡ C.count ticks.old + 1 }
    {
        ticks.tick();
        match &self.heap.node(name).held {
            Held::Inner(_, branch) => branch.room.child(i),
            _ => None,
        }
    }

    /// What is counted of the text below a node.
    pub fn sum(&self, name: NodePtr, ticks: &mut C) -> Sums<WORDS>
        requires { IsName self.now name }
        ensures value { IfSome (entry self.now name) (λ r. result ≡ r.sum) }
        ensures tick { C.count ticks.new ≡ C.count ticks.old + 1 }
    {
        ticks.tick();
        match &self.heap.node(name).held {
            Held::Line(_, line) => line.sum(),
            Held::Inner(_, branch) => branch.sum(),
            Held::Spare(_) => Sums::counting(0, 0, 0),
        }
    }

    /// How many lines stand below a node; a line is one.
    pub fn lines(&self, name: NodePtr, ticks: &mut C) -> usize
        requires { IsName self.now name }
        ensures value { IfSome (entry self.now name) (λ r. result ≡ r.sum.lines) }
        ensures tick { C.count ticks.new ≡ C.count ticks.old + 1 }
    {
        ticks.tick();
        match &self.heap.node(name).held {
            Held::Line(..) => 1,
            Held::Inner(_, branch) => branch.lines,
            Held::Spare(_) => 0,
        }
    }

    /// How many lines and how many characters stand below a node.
    pub fn size(&self, name: NodePtr, ticks: &mut C) -> (usize, usize)
        requires { IsName self.now name }
        ensures value { IfSome (entry self.now name) (λ r. result ≡ (r.sum.lines, r.sum.characters)) }
        ensures tick { C.count ticks.new ≡ C.count ticks.old + 1 }
    {
        ticks.tick();
        match &self.heap.node(name).held {
            Held::Line(_, line) => (1, line.len()),
            Held::Inner(_, branch) => (branch.lines, branch.characters),
            Held::Spare(_) => (0, 0),
        }
    }

    /// Whether a slot is toggled in the text below a node.
    pub fn has_toggle(&self, name: NodePtr, slot: TagSlot, ticks: &mut C) -> bool
        requires name { IsName self.now name }
        requires slot { slot.0 < slot_count }
        ensures value { IfSome (entry self.now name) (λ r. result ≡ set.contains r.sum.presence slot.0) }
        ensures tick { C.count ticks.new ≡ C.count ticks.old + 1 }
    {
        ticks.tick();
        match &self.heap.node(name).held {
            Held::Line(_, line) => line.has_toggle(slot),
            Held::Inner(_, branch) => branch.room.toggles.has(slot),
            Held::Spare(_) => false,
        }
    }

    /// Turns in a set the slots that are toggled an odd number of times in the text below a node.
    pub fn turn_odd_slots(&self, name: NodePtr, slots: &mut TagSet, ticks: &mut C)
        requires { IsName self.now name }
        ensures value { IfSome (entry self.now name) (λ r. slots.new ≡ differing slots.old r.sum.parity) }
        ensures tick { C.count ticks.new ≡ C.count ticks.old + 1 }
    {
        ticks.tick();
        match &self.heap.node(name).held {
            Held::Line(_, line) => line.turn_odd_slots(slots),
            Held::Inner(_, branch) => branch.room.toggles.turn_odd_slots(slots),
            Held::Spare(_) => {}
        }
    }

    /// Returns whether a slot is toggled an odd number of times in the text below a node.
    pub fn is_odd(&self, name: NodePtr, slot: TagSlot, ticks: &mut C) -> bool
        requires name { IsName self.now name }
        requires slot { slot.0 < slot_count }
        ensures value { IfSome (entry self.now name) (λ r. result ≡ set.contains r.sum.parity slot.0) }
        ensures tick { C.count ticks.new ≡ C.count ticks.old + 1 }
    {
        ticks.tick();
        match &self.heap.node(name).held {
            Held::Line(_, line) => line.is_odd(slot),
            Held::Inner(_, branch) => branch.room.toggles.parity(slot),
            Held::Spare(_) => false,
        }
    }

    /// Adds what is counted of the text below a node to a sum.
    pub fn add_sum_to(&self, name: NodePtr, sum: &mut Sums<WORDS>, ticks: &mut C)
        requires name { IsName self.now name }
        requires fits { IfSome (entry self.now name) (λ r. CountsFit sum.old r.sum) }
        ensures value { IfSome (entry self.now name) (λ r. sum.new ≡ plus sum.old r.sum) }
        ensures tick { C.count ticks.new ≡ C.count ticks.old + 1 }
    {
        ticks.tick();
        match &self.heap.node(name).held {
            Held::Line(_, line) => line.add_to(sum),
            Held::Inner(_, branch) => branch.add_to(sum),
            Held::Spare(_) => {}
        }
    }

    /// Whether no slot is toggled in the text below a node.
    pub fn is_bare(&self, name: NodePtr, ticks: &mut C) -> bool
        requires { IsName self.now name }
        ensures yes { IfSome (entry self.now name) (λ r. result ≡ true → IsBare r.sum) }
        ensures no { IfSome (entry self.now name) (λ r. IsBare r.sum → result ≡ true) }
        ensures tick { C.count ticks.new ≡ C.count ticks.old + 1 }
    {
        ticks.tick();
        match &self.heap.node(name).held {
            Held::Line(_, line) => line.sum().is_bare(),
            Held::Inner(_, branch) => branch.room.toggles.is_bare(),
            Held::Spare(_) => false,
        }
    }

    /// How many marks stand in the text below a node.
    pub fn marks(&self, name: NodePtr, ticks: &mut C) -> usize
        requires { IsName self.now name }
        ensures value { IfSome (entry self.now name) (λ r. result ≡ r.sum.marks) }
        ensures tick { C.count ticks.new ≡ C.count ticks.old + 1 }
    {
        ticks.tick();
        match &self.heap.node(name).held {
            Held::Line(_, line) => line.marks(),
            Held::Inner(_, branch) => branch.marks,
            Held::Spare(_) => 0,
        }
    }

    /// How many children there are.
    pub fn children(&self, name: NodePtr) -> usize
        requires { IsName self.now name }
        ensures { IfSome (entry self.now name) (λ r. result ≡ count_by is_some r.children) }
    {
        match &self.heap.node(name).held {
            Held::Inner(_, branch) => branch.room.count(),
            _ => 0,
        }
    }

    /// Whether two names are one. Links can't be compared, so this takes a step for each node made before these.
    pub fn same(&self, a: NodePtr, b: NodePtr) -> bool
        requires names { IsName self.now a × IsName self.now b }
        ensures yes { result ≡ true → a ≡ b }
        ensures no { result ≡ false → a ≢ b }
    {
        self.place(a) == self.place(b)
    }

    /// How many nodes stand before one in the row.
    fn place(&self, name: NodePtr) -> usize
        requires { IsPlace self.now.heap.places name }
        ensures { result ≡ number_in self.now.heap.places name }
    {
        let mut at = name;
        let mut steps = 0;
        while let Some(before) = self.heap.node(at).before.name() {
            at = before;
            steps += 1;
        }
        steps
    }

    /// A node's line, if it is one.
    pub fn line(&self, name: NodePtr) -> Option<&Line>
        requires { IsName self.now name }
        ensures { IfSome (entry self.now name) (λ r. option_map (λ x. x.now) result ≡ r.line) }
    {
        match &self.heap.node(name).held {
            Held::Line(_, line) => Some(line),
            _ => None,
        }
    }

    /// A node's line, if it is one, to be changed. What is counted of it follows.
    pub fn line_mut(&mut self, name: NodePtr) -> Option<&mut Line>
        requires { IsName self.old name }
        ensures* writes_back { sem 𝓛 (LendsLine C.row C.Ticks self.entry name result) }
        ensures value { IfSome (entry self.old name) (λ r. option_map (λ x. x.now) result ≡ r.line) }
    {
        if !self.heap.node(name).held.is_line() {
            return None;
        }
        Some(self.heap.node_mut(name).held.line_mut())
    }

    /// Says what is counted of the text below an inner node.
    pub fn set_sum(&mut self, name: NodePtr, sum: &Sums<WORDS>)
        requires { IsInner self.old name }
        ensures records { records self.new ≡ update (records self.old) name (λ r. with_sum r sum.now) }
        ensures spares { spares self.new ≡ spares self.old }
        ensures rooms { rooms self.new ≡ rooms self.old }
    {
        self.heap.node_mut(name).held.branch_mut().set_sum(sum);
    }

    /// Counts so much more of the text below an inner node.
    pub fn add_sum(&mut self, name: NodePtr, more: &Sums<WORDS>)
        requires name { IsInner self.old name }
        requires fits { IfSome (entry self.old name) (λ r. CountsFit r.sum more.now) }
        ensures records { records self.new ≡ update (records self.old) name (λ r. with_sum r (plus r.sum more.now)) }
        ensures spares { spares self.new ≡ spares self.old }
        ensures rooms { rooms self.new ≡ rooms self.old }
    {
        let branch = self.heap.node_mut(name).held.branch_mut();
        branch.add_sum(more);
    }

    /// Counts so many lines, characters and marks less of the text below an inner node.
    pub fn lose_counts(&mut self, name: NodePtr, lines: usize, characters: usize, marks: usize)
        requires name { IsInner self.old name }
        requires counts { IfSome (entry self.old name) (λ r. HasCounts (counting lines characters marks) r.sum) }
        ensures records { records self.new ≡ update (records self.old) name
            (λ r. with_sum r (less lines characters marks r.sum)) }
        ensures spares { spares self.new ≡ spares self.old }
        ensures rooms { rooms self.new ≡ rooms self.old }
    {
        let branch = self.heap.node_mut(name).held.branch_mut();
        branch.lose_counts(lines, characters, marks);
    }

    /// Counts what comes more, and what goes less, of the text below an inner node.
    pub fn exchange(&mut self, name: NodePtr, exchange: &Exchange<'_>)
        requires name { IsInner self.old name }
        requires sum { IfSome (entry self.old name) (λ r.
            CanExchange exchange.now.gone.now exchange.now.more.now exchange.now.is_level r.sum) }
        ensures records { records self.new ≡ update (records self.old) name
            (λ r. with_sum r (exchanged exchange.now.gone.now exchange.now.more.now r.sum)) }
        ensures spares { spares self.new ≡ spares self.old }
        ensures rooms { rooms self.new ≡ rooms self.old }
    {
        let branch = self.heap.node_mut(name).held.branch_mut();
        branch.exchange(exchange);
    }

    /// Links a node to its parent, where it has a slot number, or to none.
    pub fn set_parent(&mut self, name: NodePtr, parent: Option<NodePtr>, slot: u32)
        requires { IsName self.old name }
        ensures records { records self.new ≡ update (records self.old) name (λ r. with_parent r parent slot) }
        ensures spares { spares self.new ≡ spares self.old }
        ensures rooms { rooms self.new ≡ rooms self.old }
    {
        let node = self.heap.node_mut(name);
        node.parent = Link::of(parent);
        node.held.set_slot(slot);
    }

    /// Puts a child, or none, into a slot of an inner node.
    pub fn set_child(&mut self, name: NodePtr, i: usize, child: Option<NodePtr>)
        requires name { IsInner self.old name }
        requires index { i < 12 }
        ensures records { records self.new ≡ update (records self.old) name (λ r. with_child r i child) }
        ensures spares { spares self.new ≡ spares self.old }
        ensures rooms { rooms self.new ≡ rooms self.old }
    {
        let branch = self.heap.node_mut(name).held.branch_mut();
        branch.set_child(i, Link::of(child));
    }

    /// Brings the spares, and the rooms beside them, to `count` at least. Fails for want of memory.
    pub fn reserve(&mut self, count: usize) -> Result<(), AllocError>
        ensures spares { OnOk result (count ≤ spares self.new) }
        ensures rooms { OnOk result (count ≤ rooms self.new) }
        ensures records { records self.new ≡ records self.old }
        ensures more { (spares self.old ≤ spares self.new) × (rooms self.old ≤ rooms self.new) }
        ensures most { spares self.new ≤ max (spares self.old) count }
    {
        self.reserve_lines(count)?;
        let missing = count.saturating_sub(self.rooms.len());
        self.reserve_list(missing)?;
        while self.rooms.len() < count {
            self.grow_rooms()?;
        }
        Ok(())
    }

    /// Brings the spares to `count` at least, for nodes that are lines. Fails for want of memory.
    pub fn reserve_lines(&mut self, count: usize) -> Result<(), AllocError>
        ensures spares { OnOk result (count ≤ spares self.new) }
        ensures records { records self.new ≡ records self.old }
        ensures more { spares self.old ≤ spares self.new }
        ensures most { spares self.new ≤ max (spares self.old) count }
        ensures rooms { rooms self.new ≡ rooms self.old }
    {
        while self.spares() < count {
            self.grow()?;
        }
        Ok(())
    }

    /// Frees spares, and rooms beside them, until there are at most so many of each. It can't fail.
    pub fn free_spares(&mut self, most_spares: usize, most_rooms: usize)
        ensures records { records self.new ≡ records self.old }
        ensures spares { spares self.new ≡ min (spares self.old) most_spares }
        ensures rooms { rooms self.new ≡ min (rooms self.old) most_rooms }
    {
        self.free_rooms(most_rooms);
        while self.spares() > most_spares {
            self.free_spare();
        }
    }

    /// Frees the first spare. Its neighbours in the row are linked to each other.
    fn free_spare(&mut self)
        requires { 0 < spares self.old }
        ensures spares { spares self.new + 1 ≡ spares self.old }
        ensures records { records self.new ≡ records self.old }
        ensures rooms { rooms self.new ≡ rooms self.old }
    {
        let name = self.first_spare.unwrap();
        let spare = self.heap.node(name);
        let before = spare.before;
        let after = spare.after;
        let previous = before.name();
        let next = after.name();
        self.heap.link_after(previous, after);
        self.heap.link_before(next, before);
        self.last = last_left(self.last, previous, next);
        let spare = self.heap.release(name, self.alloc).into_box();
        self.first_spare = spare.parent.name();
        self.count -= 1;
        self.spares -= 1;
    }

    /// Frees free rooms until there are at most so many, and room in their list.
    fn free_rooms(&mut self, most: usize)
        ensures records { records self.new ≡ records self.old }
        ensures spares { spares self.new ≡ spares self.old }
        ensures rooms { rooms self.new ≡ min (rooms self.old) most }
    {
        let count = self.rooms.len();
        if count <= most {
            return;
        }
        self.rooms.truncate(most);
        self.room_count -= count - most;
        trim_rooms(&mut self.rooms, self.room_count);
    }

    /// How many spares there are.
    pub fn spares(&self) -> usize
        ensures { result ≡ spares self.now }
    {
        self.spares as usize
    }

    /// How many rooms there are beside them.
    pub fn rooms(&self) -> usize
        ensures { result ≡ rooms self.now }
    {
        self.rooms.len()
    }

    /// One more spare.
    fn grow(&mut self) -> Result<(), AllocError>
        ensures ok { OnOk result (spares self.new ≡ spares self.old + 1) }
        ensures err { OnErr result (spares self.new ≡ spares self.old) }
        ensures records { records self.new ≡ records self.old }
        ensures rooms { rooms self.new ≡ rooms self.old }
    {
        if self.count == u32::MAX {
            return Err(AllocError);
        }
        let node = Node {
            parent: Link::of(self.first_spare),
            before: Link::of(self.last),
            after: Link::none(),
            held: Held::Spare(self.spares),
        };
        let place = Box::new(self.alloc, node)?;
        let name = self.heap.adopt(Parts::of(place));
        self.heap.link_after(self.last, Link::of(Some(name)));
        self.last = Some(name);
        self.count += 1;
        self.first_spare = Some(name);
        self.spares += 1;
        Ok(())
    }

    /// Brings the list of free rooms to hold so many more besides all that there are. Many are reserved exactly; of few
    /// an eighth is added, so that what comes one by one doesn't move the list each time.
    fn reserve_list(&mut self, count: usize) -> Result<(), AllocError>
        ensures records { records self.new ≡ records self.old }
        ensures spares { spares self.new ≡ spares self.old }
        ensures rooms { rooms self.new ≡ rooms self.old }
    {
        if self.rooms.capacity() >= self.room_count.saturating_add(count) {
            return Ok(());
        }
        let used = self.room_count - self.rooms.len();
        self.rooms
            .reserve_exact(used.saturating_add(count.max(self.room_count / 8)))?;
        Ok(())
    }

    /// One more room.
    fn grow_rooms(&mut self) -> Result<(), AllocError>
        ensures ok { OnOk result (rooms self.new ≡ rooms self.old + 1) }
        ensures err { OnErr result (rooms self.new ≡ rooms self.old) }
        ensures records { records self.new ≡ records self.old }
        ensures spares { spares self.new ≡ spares self.old }
    {
        self.rooms.reserve(self.room_count - self.rooms.len() + 1)?;
        let room = Box::new(self.alloc, Room::empty())?;
        self.rooms.push_reserved(room);
        self.room_count += 1;
        Ok(())
    }

    /// A spare becomes a node: this line, or an inner node with no children, which takes a room.
    pub fn make(&mut self, line: Option<Line>) -> NodePtr
        requires spare { 0 < spares self.old }
        requires room { rooms_for line ≤ rooms self.old }
        ensures fresh { entry self.old result ≡ None }
        ensures records { records self.new ≡ finite.insert (records self.old) result (blank line) }
        ensures spares { spares self.new + 1 ≡ spares self.old }
        ensures rooms { rooms self.new + rooms_for line ≡ rooms self.old }
        ensures total { nodes self.new ≡ nodes self.old }
    {
        let name = self.first_spare.unwrap();
        let held = hold(&mut self.rooms, line);
        let node = self.heap.node_mut(name);
        self.first_spare = node.parent.name();
        self.spares -= 1;
        node.parent = Link::none();
        node.held = held;
        name
    }

    /// A node becomes a spare, and its line is handed out, if it is one. An inner node gives its room back.
    pub fn give_back(&mut self, name: NodePtr) -> Option<Line>
        requires { IsName self.old name }
        ensures line { IfSome (entry self.old name) (λ r. result ≡ r.line) }
        ensures records { records self.new ≡ finite.remove (records self.old) name }
        ensures spares { spares self.new ≡ spares self.old + 1 }
        ensures rooms { rooms self.new ≡ rooms self.old + rooms_for result }
        ensures total { nodes self.new ≡ nodes self.old }
    {
        let node = self.heap.node_mut(name);
        let held = std::mem::replace(&mut node.held, Held::Spare(self.spares));
        node.parent = Link::of(self.first_spare);
        self.first_spare = Some(name);
        self.spares += 1;
        put_back(&mut self.rooms, held)
    }
}

/// The last node once one has left that stands between these two.
fn last_left(
    last: Option<NodePtr>,
    before: Option<NodePtr>,
    after: Option<NodePtr>,
) -> Option<NodePtr>
    ensures { result ≡ chain.last_left last before after }
{
    match after {
        Some(_) => last,
        None => before,
    }
}

/// Frees the rooms of all nodes, from the last on, before any line is: as large a block as a room makes the C library
/// put together all smaller ones that were freed before.
fn drop_rooms(heap: &mut Heap, last: Option<NodePtr>)
    requires listed { befores_of heap.old.values ++ last ∷ [] ≡ None ∷ map Some heap.old.places }
    requires apart { ∥ AreApart (ats heap.old.places) ∥₁ }
    ensures places { heap.new.places ≡ heap.old.places }
    ensures befores { befores_of heap.new.values ≡ befores_of heap.old.values }
{
    let mut next = last;
    while let Some(name) = next {
        next = heap.node(name).before.name();
        heap.drop_room(name);
    }
}

impl<C: Ticks> Drop for NodeStore<C> {
    fn drop(self) {
        let NodeStore {
            alloc,
            mut heap,
            mut last,
            count: _,
            first_spare: _,
            spares: _,
            rooms,
            room_count: _,
            counter: _,
        } = self;
        drop(rooms);
        drop_rooms(&mut heap, last);
        while let Some(name) = last {
            let node = heap.release(name, alloc).into_box();
            last = node.before.name();
            drop(node);
        }
        heap.finish();
    }
}
