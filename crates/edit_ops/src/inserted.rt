//! The delta of an edit that inserts texts in place of some characters, as the steps of its outline know it.

ghost use Rattle.std.specs.Prelude.{◌≡◌, ◌++◌, IfOk, OnOk, chars, string_bytes};
ghost use Rattle.std.specs.List.{All};
ghost use Rattle.edit_ops.specs.Inserted.{runs_in, runs_of, text_in, text_of, IsShort, KnowsInserted};

use crate::deltas::Delta;
use crate::hunks::push_replacement;
use crate::insertions::count_of;
use crate::outlines::Outline;
use crate::slot_runs::SlotRun;
use std::alloc::{AllocError, Global};
use text_model::{Step, Text};

/// The texts that steps insert, one after the other, and the runs of their characters.
#[derive(Drop)]
struct Inserted {
    text: String,
    runs: Vec<SlotRun>,
}

impl Inserted {
    /// Adds what a step inserts, if it inserts a text.
    fn push(&mut self, step: &Step) -> Result<(), AllocError>
        requires { IsShort step.now }
        ensures text { OnOk result
            (chars (string_bytes self.new.text) ≡ chars (string_bytes self.old.text) ++ text_of step.now) }
        ensures runs { OnOk result (self.new.runs.items ≡ self.old.runs.items ++ runs_of step.now) }
    {
        if let Step::Insert(at, text, slots) = step {
            self.text.push_str(text.as_str())?;
            self.runs.push(SlotRun {
                from: *at,
                to: *at + count_of(text),
                slots: *slots,
            })?;
        }
        Ok(())
    }
}

/// Returns what steps insert.
fn inserted_by(alloc: Global, steps: &[Step]) -> Result<Inserted, AllocError>
    requires { All IsShort steps.now }
    ensures text { IfOk result (λ inserted. chars (string_bytes inserted.text) ≡ text_in steps.now) }
    ensures runs { IfOk result (λ inserted. inserted.runs.items ≡ runs_in steps.now) }
{
    let mut inserted = Inserted {
        text: String::new(alloc),
        runs: Vec::new(alloc),
    };
    for step in steps {
        inserted.push(step)?;
    }
    Ok(inserted)
}

impl Outline {
    /// Returns the delta of an edit that inserts the texts of its steps in place of the characters from one offset to
    /// another, if its caller follows the text.
    pub fn delta_of_texts(
        &self,
        follows: bool,
        from: usize,
        to: usize,
    ) -> Result<Option<Box<Delta>>, AllocError>
        requires { All IsShort self.now.steps }
        ensures { IfOk result (KnowsInserted follows from to self.now.steps) }
    {
        if !follows {
            return Ok(None);
        }
        let Inserted { text, runs } = inserted_by(self.alloc, self.steps.as_slice())?;
        let mut hunks = Vec::with_capacity(self.alloc, 1)?;
        push_replacement(&mut hunks, from, to, Text::new(text))?;
        let delta = Delta {
            hunks,
            lost: None,
            gained: runs,
        };
        Ok(Some(Box::new(self.alloc, delta)?))
    }
}
