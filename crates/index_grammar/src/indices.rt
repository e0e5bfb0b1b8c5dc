//! Indices as data: a base, and the modifiers that lead from there to another place.

ghost use Rattle.std.specs.Prelude.{◌≡◌};

use std::marker::Model;
use text_model::{MarkNo, TagSlot};

/// Where an index begins. Lines count from 1 and characters from 0.
#[derive(Clone, Copy, Debug, PartialEq, Eq)]
pub enum Base {
    /// A character of a line.
    At(usize, usize),
    /// The newline of a line.
    LineEnd(usize),
    /// The end of the view.
    End,
    /// A mark, by its number.
    Mark(MarkNo),
    /// The first character that has the tag of a slot; and how many bytes the tag's name has.
    First(TagSlot, usize),
    /// The place after the last character that has the tag of a slot; and how many bytes the tag's name has.
    Last(TagSlot, usize),
}

/// What a count counts.
#[derive(Clone, Copy, Debug, PartialEq, Eq)]
pub enum Unit {
    Characters,
    Lines,
}

/// Which way a count goes.
#[derive(Clone, Copy, Debug, PartialEq, Eq)]
pub enum Direction {
    Forward,
    Back,
}

/// A step from one place to another.
#[derive(Clone, Copy, Debug, PartialEq, Eq)]
pub enum Modifier {
    Forward(Unit, usize),
    Back(Unit, usize),
    LineStart,
    LineEnd,
    WordStart,
    WordEnd,
}

/// The modifiers of an index, from the first on, which contracts see as a list.
#[derive(Drop)]
pub struct Modifiers {
    modifiers: Vec<Modifier>,
}

impl Model for Modifiers {
    ghost use Rattle.std.specs.Prelude.{List};
    ghost use Rattle.index_grammar.specs.declared.indices.Modifier.{Modifier};

    ghost Value = { List Modifier };

    ghost view = { λ a. a.modifiers.items };
}

impl Modifiers {
    pub fn new(modifiers: Vec<Modifier>) -> Modifiers
        ensures { result ≡ modifiers.items }
    {
        Modifiers { modifiers }
    }

    pub fn as_slice(&self) -> &[Modifier]
        ensures { result.now ≡ self.now }
    {
        self.modifiers.as_slice()
    }
}

/// An index: where it begins, and the steps from there.
#[derive(Drop)]
pub struct Index {
    pub base: Base,
    pub modifiers: Modifiers,
}
