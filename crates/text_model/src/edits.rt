//! Edits of a text as lists of steps, which are made in order, all or none.

ghost use Rattle.std.specs.Prelude.{◌≡◌, ◌∷◌, [], ◌++◌, OnOk, OnErr};

use crate::places::{MarkNo, Place, TagSlot};
use crate::tag_set::TagSet;
use crate::texts::Text;
use std::alloc::{AllocError, Global};
use std::marker::Model;

/// A step of an edit.
#[derive(Drop)]
pub enum Step {
    /// Takes out the characters from one offset to another. A mark goes behind the kept characters before it.
    Remove(usize, usize),
    /// Puts a text, with these slots on each of its characters, before the character at an offset.
    Insert(usize, Text, TagSet),
    /// Sets a slot on the characters from one offset to another, or takes it off them.
    SetTag(usize, usize, TagSlot, bool),
    /// Takes all slots off the character at an offset.
    ClearTags(usize),
    /// Takes a slot off all characters.
    ClearSlot(TagSlot),
    /// Puts the mark of a number at a place, wherever it stood, if it did.
    PutMark(MarkNo, Place),
    /// Takes the mark of a number away, if there is one.
    TakeMark(MarkNo),
}

/// The steps of an edit, which contracts see as a list.
#[derive(Drop)]
pub struct StepList {
    steps: Vec<Step>,
}

impl Model for StepList {
    ghost use Rattle.std.specs.Prelude.{List};
    ghost use Rattle.text_model.specs.declared.edits.Step.{Step};
    ghost use Rattle.text_model.specs.contracts.tag_set.TagSet as tag_set;
    ghost use Rattle.std.specs.Coded.{codes};

    ghost Value = { List Step };

    ghost coded = { Prim.hlevel (codes, tag_set.the_row.coded) };

    ghost view = { λ a. a.steps.items };
}

impl StepList {
    /// No steps.
    pub fn new(alloc: Global) -> StepList
        ensures { result ≡ [] }
    {
        StepList {
            steps: Vec::new(alloc),
        }
    }

    /// The steps of a list, which takes no memory.
    pub fn from_vec(steps: Vec<Step>) -> StepList
        ensures { result ≡ steps.items }
    {
        StepList { steps }
    }

    /// Gives the steps back, which takes no memory.
    pub fn into_vec(self) -> Vec<Step>
        ensures { result.items ≡ self }
    {
        self.steps
    }

    /// Makes room for so many steps more.
    pub fn reserve(&mut self, steps: usize) -> Result<(), AllocError>
        ensures { self.new ≡ self.old }
    {
        self.steps.reserve(steps)?;
        Ok(())
    }

    /// Adds a step behind the others.
    pub fn push(&mut self, step: Step) -> Result<(), AllocError>
        ensures ok { OnOk result (self.new ≡ self.old ++ step ∷ []) }
        ensures err { OnErr result (self.new ≡ self.old) }
    {
        self.steps.push(step)?;
        Ok(())
    }

    pub fn as_slice(&self) -> &[Step]
        ensures { result.now ≡ self.now }
    {
        self.steps.as_slice()
    }
}

/// An edit of a text: steps that are made in order, all or none.
#[derive(Drop)]
pub struct Edit {
    pub steps: StepList,
}
