//! The sum of some lines: the numbers of lines, characters and marks, and which tag slots are toggled in them.

ghost use Rattle.std.specs.Prelude.{◌≡◌, ◌*◌, ◌<◌, ◌≤◌, true};
ghost use Rattle.std.specs.FinSet as set;
ghost use Rattle.text_model.specs.SlotSets.{differing};
ghost use Rattle.toggle_sums.specs.Counts.{CountsFit, HasCounts, HaveSameToggles, IsBare, IsWithin, count_of, counting};
ghost use Rattle.toggle_sums.specs.Counts.{less, plus, toggled, toggles_of, with_toggles, without};

use crate::summary::Summary;
use crate::toggle_words::ToggleWords;
use std::marker::Model;
use text_model::{SlotWord, TagSet, TagSlot, WORDS};

/// What is counted of some lines of text: the lines, their characters and marks, and for each of 64·K slots whether it
/// is toggled in them an odd number of times, and whether it is toggled at all. It takes no memory of its own.
#[derive(Clone, Copy)]
pub struct Sums<const K: usize> {
    lines: usize,
    characters: usize,
    marks: usize,
    toggles: ToggleWords<K>,
}

impl<const K: usize> Model for Sums<K> {
    ghost use Rattle.toggle_sums.specs.Counts.{Count, count_code, count_of, toggles_of};

    ghost Value = { Count };

    ghost coded = { count_code };

    ghost view = { λ a. count_of a.lines a.characters a.marks a.toggles };

    ghost inverse = { λ s. record {
      lines = s.lines;
      characters = s.characters;
      marks = s.marks;
      toggles = toggles_of s;
    } };
}

impl<const K: usize> Sums<K> {
    /// The sum of so many lines, characters and marks without toggles.
    pub fn counting(lines: usize, characters: usize, marks: usize) -> Sums<K>
        ensures { result ≡ counting lines characters marks }
    {
        Sums {
            lines,
            characters,
            marks,
            toggles: ToggleWords::none(),
        }
    }

    /// The sum of so many lines, characters and marks with these toggles.
    pub fn of(lines: usize, characters: usize, marks: usize, toggles: &ToggleWords<K>) -> Sums<K>
        ensures { result ≡ count_of lines characters marks toggles.now }
    {
        Sums {
            lines,
            characters,
            marks,
            toggles: *toggles,
        }
    }

    /// Which slots are toggled.
    pub fn toggles(&self) -> &ToggleWords<K>
        ensures { result.now ≡ toggles_of self.now }
    {
        &self.toggles
    }

    /// How many lines there are.
    pub fn lines(&self) -> usize
        ensures { result ≡ self.now.lines }
    {
        self.lines
    }

    /// How many characters the lines have.
    pub fn characters(&self) -> usize
        ensures { result ≡ self.now.characters }
    {
        self.characters
    }

    /// How many marks stand in the lines.
    pub fn marks(&self) -> usize
        ensures { result ≡ self.now.marks }
    {
        self.marks
    }

    /// Whether a slot is toggled an odd number of times.
    pub fn parity(&self, slot: TagSlot) -> bool
        requires { slot.0 < 64 * K }
        ensures { result ≡ set.contains self.now.parity slot.0 }
    {
        self.toggles.parity(slot)
    }

    /// Whether a slot is toggled at all.
    pub fn has(&self, slot: TagSlot) -> bool
        requires { slot.0 < 64 * K }
        ensures { result ≡ set.contains self.now.presence slot.0 }
    {
        self.toggles.has(slot)
    }

    /// Whether no slot is toggled.
    pub fn is_bare(&self) -> bool
        ensures yes { result ≡ true → IsBare self.now }
        ensures no { IsBare self.now → result ≡ true }
    {
        self.toggles.is_bare()
    }

    /// Whether each slot that is toggled here is toggled in the other sum too.
    pub fn is_within(&self, other: &Sums<K>) -> bool
        ensures yes { result ≡ true → IsWithin self.now other.now }
        ensures no { IsWithin self.now other.now → result ≡ true }
    {
        self.toggles.is_within(&other.toggles)
    }

    /// Whether the slots that are toggled an odd number of times, and those that are toggled at all, are the same.
    pub fn has_toggles_of(&self, other: &Sums<K>) -> bool
        ensures yes { result ≡ true → HaveSameToggles self.now other.now }
        ensures no { HaveSameToggles self.now other.now → result ≡ true }
    {
        self.toggles.is_level(&other.toggles)
    }

    /// Counts so many lines, characters and marks more. The toggles aren't touched.
    pub fn add_counts(&mut self, lines: usize, characters: usize, marks: usize)
        requires { CountsFit self.old (counting lines characters marks) }
        ensures { self.new ≡ plus self.old (counting lines characters marks) }
    {
        self.lines += lines;
        self.characters += characters;
        self.marks += marks;
    }

    /// Counts so many lines, characters and marks less. The toggles aren't touched.
    pub fn lose_counts(&mut self, lines: usize, characters: usize, marks: usize)
        requires { HasCounts (counting lines characters marks) self.old }
        ensures { self.new ≡ less lines characters marks self.old }
    {
        self.lines -= lines;
        self.characters -= characters;
        self.marks -= marks;
    }

    /// Counts so much more.
    pub fn add(&mut self, more: &Sums<K>)
        requires { CountsFit self.old more.now }
        ensures { self.new ≡ plus self.old more.now }
    {
        self.add_parts(more.lines, more.characters, more.marks, &more.toggles);
    }

    /// Counts so many lines, characters and marks more, and these toggles.
    pub fn add_parts(
        &mut self,
        lines: usize,
        characters: usize,
        marks: usize,
        toggles: &ToggleWords<K>,
    )
        requires { CountsFit self.old (count_of lines characters marks toggles.now) }
        ensures { self.new ≡ plus self.old (count_of lines characters marks toggles.now) }
    {
        self.lines += lines;
        self.characters += characters;
        self.marks += marks;
        self.toggles.add(toggles);
    }

    /// Counts so much less, where each slot that is toggled in what goes is toggled in what stays too.
    pub fn lose(&mut self, gone: &Sums<K>)
        requires lines { gone.now.lines ≤ self.old.lines }
        requires characters { gone.now.characters ≤ self.old.characters }
        requires marks { gone.now.marks ≤ self.old.marks }
        ensures { self.new ≡ without gone.now self.old }
    {
        self.lines -= gone.lines;
        self.characters -= gone.characters;
        self.marks -= gone.marks;
        self.toggles.lose(&gone.toggles);
    }

    /// The sum with one toggle of a slot more.
    pub fn toggled(&self, slot: TagSlot) -> Sums<K>
        requires { slot.0 < 64 * K }
        ensures { result ≡ toggled slot.0 self.now }
    {
        let mut sums = *self;
        sums.toggles.toggle(slot);
        sums
    }
}

impl Sums<WORDS> {
    /// The slots that are toggled an odd number of times.
    pub fn odd_slots(&self) -> TagSet
        ensures { result ≡ self.now.parity }
    {
        self.toggles.odd_slots()
    }

    /// Turns in a set the slots that are toggled an odd number of times.
    pub fn turn_odd_slots(&self, slots: &mut TagSet)
        ensures { slots.new ≡ differing slots.old self.now.parity }
    {
        self.toggles.turn_odd_slots(slots);
    }

    /// Counts one toggle more of each slot of a word.
    pub fn add_word(&mut self, slots: &SlotWord)
        ensures { self.new ≡ with_toggles slots.now self.old }
    {
        self.toggles.add_word(slots);
    }
}

impl<const K: usize> Summary for Sums<K> {
    ghost use Rattle.toggle_sums.specs.Counts.{CountsFit, plus, no_text};
    ghost use Rattle.toggle_sums.specs.CountLaws.{plus-associative, plus-no_text, no_text-plus, plus-commutative};

    ghost nothing = { no_text };

    ghost joined = { plus };

    ghost fits = { CountsFit };

    ghost associative = { plus-associative };

    ghost zero_first = { no_text-plus };

    ghost zero_last = { plus-no_text };

    ghost commutative = { plus-commutative };

    fn zero() -> Sums<K> {
        Sums::counting(0, 0, 0)
    }

    fn plus(&self, other: &Sums<K>) -> Sums<K> {
        let mut sums = *self;
        sums.add(other);
        sums
    }
}
