//! A node in memory, which is a line, an inner node or a spare, and the free rooms for children.

ghost use Rattle.raw_nodes.specs.Chain.{room_in, rooms_for};
ghost use Rattle.raw_nodes.specs.Links.{link_name};
ghost use Rattle.raw_nodes.specs.Records.{blank, is_used, line_in, nones, record_in, slot_in, with_slot};
ghost use Rattle.std.specs.Prelude.{◌≡◌, ◌+◌, ◌<◌, ◌≤◌, None, count_by, is_some, length, map, slice_index_or, true};
ghost use Rattle.std.specs.Prelude.{vec_capacity};
ghost use Rattle.toggle_sums.specs.ToggleSets.{no_toggles};

use crate::branch::Branch;
use crate::names::{Link, NodePtr};
use segments::Line;
use text_model::WORDS;
use toggle_sums::ToggleWords;

/// The children of an inner node, and which slots are toggled in the text below it.
#[derive(Drop)]
pub struct Room {
    pub children: [Link; 12],
    pub toggles: ToggleWords<WORDS>,
}

/// What a node is, with its slot number in its parent; of a spare that is the number of spares behind it. The number
/// stands in each variant, since there it lies beside the enum's tag and takes no bytes of its own.
#[derive(Drop)]
pub enum Held {
    Spare(u32),
    Line(u32, Line),
    Inner(u32, Branch),
}

/// A node, as it lies in memory, with links to the ones before and after it in the row of all nodes. A spare's parent
/// is the next spare.
#[derive(Drop)]
pub struct Node {
    pub parent: Link,
    pub before: Link,
    pub after: Link,
    pub held: Held,
}

impl Room {
    pub fn empty() -> Room
        ensures children { map link_name result.children ≡ nones }
        ensures toggles { result.toggles ≡ no_toggles }
    {
        Room {
            children: [Link::none(); 12],
            toggles: ToggleWords::none(),
        }
    }

    /// The child in a slot.
    pub fn child(&self, i: usize) -> Option<NodePtr>
        requires { i < 12 }
        ensures { result ≡ slice_index_or (map link_name self.now.children) i None }
    {
        self.children[i].name()
    }

    /// How many children there are.
    pub fn count(&self) -> usize
        ensures { result ≡ count_by is_some (map link_name self.now.children) }
    {
        self.children.iter().filter(|link| link.is_name()).count()
    }
}

impl Held {
    ghost use Rattle.raw_nodes.specs.HeldLending.{IsLine, IsRoom, LendsBranch, LendsText};
    ghost use Rattle.std.specs.Borrow.{sem};
    ghost use Rattle.raw_nodes.specs.declared.nodes.Held.TheVariants as held;

    pub fn is_line(&self) -> bool
        ensures { result ≡ is_some (line_in self.now) }
    {
        matches!(self, Held::Line(..))
    }

    pub fn slot(&self) -> u32
        ensures { result ≡ slot_in self.now }
    {
        match self {
            Held::Spare(slot) | Held::Line(slot, _) | Held::Inner(slot, _) => *slot,
        }
    }

    pub fn set_slot(&mut self, slot: u32)
        ensures { self.new ≡ with_slot self.old slot }
    {
        match self {
            Held::Spare(old) => *old = slot,
            Held::Line(old, _) => *old = slot,
            Held::Inner(old, _) => *old = slot,
        }
    }

    /// The line that a node is.
    pub fn line_mut(&mut self) -> &mut Line
        requires { IsLine self.old }
        ensures* writes_back { sem 𝓛 (LendsText self.entry result) }
        ensures value { self.old ≡ held.Line (slot_in self.old) result.now }
    {
        match self {
            Held::Line(_, line) => line,
            _ => unreachable!(),
        }
    }

    /// The inner node that a node is.
    pub fn branch_mut(&mut self) -> &mut Branch
        requires { IsRoom self.old }
        ensures* writes_back { sem 𝓛 (LendsBranch self.entry result) }
        ensures value { self.old ≡ held.Inner (slot_in self.old) result.now }
    {
        match self {
            Held::Inner(_, branch) => branch,
            _ => unreachable!(),
        }
    }
}

/// A room without children, from the free ones.
fn take_room(rooms: &mut Vec<Box<Room>>) -> Box<Room>
    requires { 1 ≤ length rooms.old.items }
    ensures children { map link_name result.value.children ≡ nones }
    ensures toggles { result.value.toggles ≡ no_toggles }
    ensures rooms { length rooms.new.items + 1 ≡ length rooms.old.items }
    ensures capacity { vec_capacity rooms.new ≡ vec_capacity rooms.old }
{
    let mut room = rooms.pop().unwrap();
    *room = Room::empty();
    room
}

/// What a new node is: this line, or an inner node in one of the free rooms.
pub fn hold(rooms: &mut Vec<Box<Room>>, line: Option<Line>) -> Held
    requires { rooms_for line ≤ length rooms.old.items }
    ensures says { record_in result None ≡ blank line }
    ensures used { is_used result ≡ true }
    ensures room { room_in result ≡ rooms_for line }
    ensures rooms { length rooms.new.items + rooms_for line ≡ length rooms.old.items }
    ensures capacity { vec_capacity rooms.new ≡ vec_capacity rooms.old }
{
    match line {
        Some(line) => Held::Line(0, line),
        None => Held::Inner(0, Branch::of(take_room(rooms))),
    }
}

/// Hands out the line of what was a node, or puts its room to the free ones.
pub fn put_back(rooms: &mut Vec<Box<Room>>, held: Held) -> Option<Line>
    requires { length rooms.old.items + room_in held ≤ vec_capacity rooms.old }
    ensures line { result ≡ line_in held }
    ensures rooms { length rooms.new.items ≡ length rooms.old.items + room_in held }
    ensures capacity { vec_capacity rooms.new ≡ vec_capacity rooms.old }
{
    match held {
        Held::Line(_, line) => Some(line),
        Held::Inner(_, branch) => {
            rooms.push_reserved(branch.into_room());
            None
        }
        Held::Spare(_) => None,
    }
}

/// Gives back room of the list of free rooms, where it has more than for twice so many and a little: for so many it
/// stays.
pub fn trim_rooms(rooms: &mut Vec<Box<Room>>, count: usize)
    requires { count ≤ vec_capacity rooms.old }
    ensures rooms { length rooms.new.items ≡ length rooms.old.items }
    ensures capacity { count ≤ vec_capacity rooms.new }
{
    if rooms.capacity() > count.saturating_mul(2).saturating_add(8) {
        rooms.shrink_to(count);
    }
}
