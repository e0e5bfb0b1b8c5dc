//! An inner node: its children, with the sum of lines, characters, marks and toggles below it.

ghost use Rattle.std.specs.Prelude.{◌≡◌};

use crate::names::Link;
use crate::nodes::Room;
use text_model::WORDS;
use toggle_sums::{Exchange, Sums};

/// An inner node: its room, and beside that how many lines, characters and marks stand below, so that who looks for one
/// among a node's children reads no room of theirs.
#[derive(Drop)]
pub struct Branch {
    pub room: Box<Room>,
    pub lines: usize,
    pub characters: usize,
    pub marks: usize,
}

impl Branch {
    ghost use Rattle.raw_nodes.specs.Rooms.{branch_sum};
    ghost use Rattle.std.specs.Prelude.{◌<◌, slice_set};
    ghost use Rattle.toggle_sums.specs.Counts.{CanExchange, CountsFit, HasCounts, counting, exchanged, less, no_text};
    ghost use Rattle.toggle_sums.specs.Counts.{plus};
    ghost use Rattle.toggle_sums.specs.ToggleSets.{no_toggles};

    /// Of a room without toggles, with no text below.
    pub fn of(room: Box<Room>) -> Branch
        requires { room.value.toggles ≡ no_toggles }
        ensures room { result.room ≡ room }
        ensures sum { branch_sum result ≡ no_text }
    {
        Branch {
            room,
            lines: 0,
            characters: 0,
            marks: 0,
        }
    }

    /// The room alone, with what stands in it.
    pub fn into_room(self) -> Box<Room>
        ensures { result ≡ self.room }
    {
        let Branch { room, .. } = self;
        room
    }

    /// What is counted of the text below.
    pub fn sum(&self) -> Sums<WORDS>
        ensures { result ≡ branch_sum self.now }
    {
        Sums::of(self.lines, self.characters, self.marks, &self.room.toggles)
    }

    /// Adds what is counted of the text below to a sum.
    pub fn add_to(&self, sum: &mut Sums<WORDS>)
        requires { CountsFit sum.old (branch_sum self.now) }
        ensures { sum.new ≡ plus sum.old (branch_sum self.now) }
    {
        sum.add_parts(self.lines, self.characters, self.marks, &self.room.toggles);
    }

    /// Says what is counted of the text below.
    pub fn set_sum(&mut self, sum: &Sums<WORDS>)
        ensures children { self.new.room.value.children ≡ self.old.room.value.children }
        ensures sum { branch_sum self.new ≡ sum.now }
    {
        self.lines = sum.lines();
        self.characters = sum.characters();
        self.marks = sum.marks();
        self.room.toggles = *sum.toggles();
    }

    /// Counts so much more.
    pub fn add_sum(&mut self, more: &Sums<WORDS>)
        requires { CountsFit (branch_sum self.old) more.now }
        ensures children { self.new.room.value.children ≡ self.old.room.value.children }
        ensures sum { branch_sum self.new ≡ plus (branch_sum self.old) more.now }
    {
        self.add_counts(more.lines(), more.characters(), more.marks());
        self.room.toggles.add(more.toggles());
    }

    /// Counts so many lines, characters and marks more. The room isn't touched.
    fn add_counts(&mut self, lines: usize, characters: usize, marks: usize)
        requires { CountsFit (branch_sum self.old) (counting lines characters marks) }
        ensures room { self.new.room.value ≡ self.old.room.value }
        ensures sum { branch_sum self.new ≡ plus (branch_sum self.old) (counting lines characters marks) }
    {
        self.lines += lines;
        self.characters += characters;
        self.marks += marks;
    }

    /// Counts so many lines, characters and marks less. The room isn't touched.
    pub fn lose_counts(&mut self, lines: usize, characters: usize, marks: usize)
        requires { HasCounts (counting lines characters marks) (branch_sum self.old) }
        ensures room { self.new.room.value ≡ self.old.room.value }
        ensures sum { branch_sum self.new ≡ less lines characters marks (branch_sum self.old) }
    {
        self.lines -= lines;
        self.characters -= characters;
        self.marks -= marks;
    }

    /// Counts what comes more, and what goes less.
    pub fn exchange(&mut self, exchange: &Exchange<'_>)
        requires { CanExchange exchange.now.gone.now exchange.now.more.now exchange.now.is_level
            (branch_sum self.old) }
        ensures children { self.new.room.value.children ≡ self.old.room.value.children }
        ensures sum { branch_sum self.new
            ≡ exchanged exchange.now.gone.now exchange.now.more.now (branch_sum self.old) }
    {
        let Exchange { gone, more, .. } = exchange;
        self.add_counts(more.lines(), more.characters(), more.marks());
        self.lose_counts(gone.lines(), gone.characters(), gone.marks());
        if !exchange.is_level {
            self.room.toggles.add(more.toggles());
            self.room.toggles.lose(gone.toggles());
        }
    }

    pub fn set_child(&mut self, i: usize, child: Link)
        requires { i < 12 }
        ensures children { self.new.room.value.children ≡ slice_set self.old.room.value.children i child }
        ensures sum { branch_sum self.new ≡ branch_sum self.old }
    {
        self.room.children[i] = child;
    }
}
