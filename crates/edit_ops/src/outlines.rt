//! Builds up an edit: its steps, the anchors of each widget after them, and the actions to be noted for undo.

ghost use Rattle.std.specs.Prelude.{◌≡◌, ◌+◌, ◌<◌, ◌≤◌, ◌^◌, ◌++◌, ◌∷◌, [], true, false, length, map, OnOk, IfOk};
ghost use Rattle.std.specs.Prelude.{slice_range};
ghost use Rattle.std.specs.List.{All};
ghost use Rattle.edit_ops.specs.Anchors.{AnchorsStand, anchors_moved, anchors_drawn};
ghost use Rattle.text_model.specs.Content.{characters};

use crate::anchors::{Anchors, draw_anchors, move_anchors};
use crate::spans::Span;
use crate::texts::EditedText;
use std::alloc::{AllocError, Global};
use std::collections::VecDeque;
use std::marker::Model;
use text_model::{MarkNo, Place, Step, StepList, TagSet, Text, TextStore};
use undo_stack::Action;

/// What an edit does, as it is put together: steps, where the anchors of each widget stand after them, and the actions
/// to be noted.
#[derive(Drop)]
pub struct Outline {
    pub alloc: Global,
    pub steps: StepList,
    pub anchors: Vec<Anchors>,
    pub actions: VecDeque<Action>,
}

impl Model for Outline {
    ghost use Rattle.edit_ops.specs.States.{Outline as OutlineState};
    ghost use Rattle.text_model.specs.contracts.tag_set.TagSet as tag_set;
    ghost use Rattle.std.specs.Coded.{codes};

    ghost Value = { OutlineState };

    ghost coded = { Prim.hlevel (codes, tag_set.the_row.coded) };

    ghost view = { λ d. record { steps = d.steps; anchors = d.anchors.items; actions = d.actions.items } };
}

/// An insertion of a text of `count` characters before the character at `at`, into a text of `len` characters: each
/// inserted character gets these slots.
#[derive(Clone, Copy)]
pub struct Insertion {
    pub at: usize,
    pub count: usize,
    pub len: usize,
    pub slots: TagSet,
}

/// The same text once more.
pub fn copy_of(alloc: Global, text: &Text) -> Result<Text, AllocError>
    ensures { IfOk result (λ copy. copy ≡ text.now) }
{
    Ok(Text::new(String::from_str(alloc, text.as_str())?))
}

/// The characters from one offset to another, where they are to be kept, and else no text.
pub fn kept_text<S: TextStore>(
    alloc: Global,
    store: &S,
    span: Span,
    keeps: bool,
) -> Result<Text, AllocError>
    requires ordered { span.from ≤ span.to }
    requires within { span.to ≤ length (S.content store.now).cells }
    ensures { IfOk result (λ text. keeps ≡ true → text
        ≡ slice_range (characters (S.content store.now).cells) span.from span.to) }
{
    if !keeps {
        return Ok(Text::new(String::new(alloc)));
    }
    Ok(Text::new(store.copy_text(span.from, span.to)?))
}

impl Outline {
    /// An edit of a text that does nothing yet, with room for so many steps that are noted.
    pub fn new<S: TextStore>(
        alloc: Global,
        text: &EditedText<S>,
        room: usize,
    ) -> Result<Outline, AllocError>
        ensures { IfOk result (λ outline. outline ≡ record {
          steps = [];
          anchors = text.now.anchors.items;
          actions = [];
        }) }
    {
        Outline::of_steps(alloc, text, StepList::new(alloc), room)
    }

    /// An edit of a text that makes steps, of which nothing is noted, with room for so many more that are.
    pub fn of_steps<S: TextStore>(
        alloc: Global,
        text: &EditedText<S>,
        steps: StepList,
        room: usize,
    ) -> Result<Outline, AllocError>
        ensures { IfOk result (λ outline. outline ≡ record {
          steps = steps;
          anchors = text.now.anchors.items;
          actions = [];
        }) }
    {
        let mut steps = steps;
        steps.reserve(room)?;
        let mut actions = VecDeque::new(alloc);
        actions.reserve(room)?;
        Ok(Outline {
            alloc,
            steps,
            anchors: Vec::from_slice(alloc, &text.anchors)?,
            actions,
        })
    }

    /// A text once more, where it is to be kept, and else no text.
    pub fn kept_copy(&self, text: &Text, keeps: bool) -> Result<Text, AllocError>
        ensures { IfOk result (λ copy. keeps ≡ true → copy ≡ text.now) }
    {
        if !keeps {
            return Ok(Text::new(String::new(self.alloc)));
        }
        Ok(copy_of(self.alloc, text)?)
    }

    /// Inserts a text; that isn't noted.
    pub fn put_in(&mut self, text: Text, insertion: Insertion) -> Result<(), AllocError>
        requires stand { All (AnchorsStand insertion.len) self.old.anchors }
        requires fits { insertion.len + insertion.count < 2 ^ 64 }
        ensures { OnOk result (self.new ≡ record self.old {
          steps = self.old.steps ++ Step.Insert insertion.at text insertion.slots ∷ [];
          anchors = map (anchors_moved insertion.at insertion.count) self.old.anchors;
        }) }
    {
        let Insertion {
            at,
            count,
            len,
            slots,
        } = insertion;
        self.steps.push(Step::Insert(at, text, slots))?;
        move_anchors(&mut self.anchors, at, count, len);
        Ok(())
    }

    /// Inserts a copy of a text as `put_in` does.
    pub fn put_copy(&mut self, text: &Text, insertion: Insertion) -> Result<(), AllocError>
        requires stand { All (AnchorsStand insertion.len) self.old.anchors }
        requires fits { insertion.len + insertion.count < 2 ^ 64 }
        ensures { OnOk result (self.new ≡ record self.old {
          steps = self.old.steps ++ Step.Insert insertion.at text.now insertion.slots ∷ [];
          anchors = map (anchors_moved insertion.at insertion.count) self.old.anchors;
        }) }
    {
        let copy = copy_of(self.alloc, text)?;
        self.put_in(copy, insertion)?;
        Ok(())
    }

    /// Inserts a text as `put_in` does, which is an action, of which the other text is kept.
    pub fn insert(&mut self, text: Text, kept: Text, insertion: Insertion) -> Result<(), AllocError>
        requires count { insertion.count ≡ length text }
        requires stand { All (AnchorsStand insertion.len) self.old.anchors }
        requires fits { insertion.len + insertion.count < 2 ^ 64 }
        ensures { OnOk result (self.new ≡ record {
          steps = self.old.steps ++ Step.Insert insertion.at text insertion.slots ∷ [];
          anchors = map (anchors_moved insertion.at insertion.count) self.old.anchors;
          actions = self.old.actions ++ record { inserts = true; at = insertion.at; text = kept } ∷ [];
        }) }
    {
        self.actions.push_back(Action {
            inserts: true,
            at: insertion.at,
            text: kept,
        })?;
        self.put_in(text, insertion)?;
        Ok(())
    }

    /// Takes out the characters from one offset to another, of a line that begins at `line`; the line after it then
    /// begins at
    /// `next`. It isn't noted.
    pub fn take_out(
        &mut self,
        from: usize,
        to: usize,
        line: usize,
        next: usize,
    ) -> Result<(), AllocError>
        requires { from ≤ to }
        ensures { OnOk result (self.new ≡ record self.old {
          steps = self.old.steps ++ Step.Remove from to ∷ [];
          anchors = map (anchors_drawn line next from to) self.old.anchors;
        }) }
    {
        self.steps.push(Step::Remove(from, to))?;
        draw_anchors(&mut self.anchors, line, next, from, to);
        Ok(())
    }

    /// Takes a text out as `take_out` does, which is an action.
    pub fn remove(
        &mut self,
        from: usize,
        to: usize,
        text: Text,
        line: usize,
        next: usize,
    ) -> Result<(), AllocError>
        requires { from ≤ to }
        ensures { OnOk result (self.new ≡ record {
          steps = self.old.steps ++ Step.Remove from to ∷ [];
          anchors = map (anchors_drawn line next from to) self.old.anchors;
          actions = self.old.actions ++ record { inserts = false; at = from; text = text } ∷ [];
        }) }
    {
        self.actions.push_back(Action {
            inserts: false,
            at: from,
            text,
        })?;
        self.take_out(from, to, line, next)?;
        Ok(())
    }

    /// Puts the mark of a number at a place.
    pub fn put_mark(&mut self, number: MarkNo, place: Place) -> Result<(), AllocError>
        ensures { OnOk result (self.new ≡ record self.old {
          steps = self.old.steps ++ Step.PutMark number place
              ∷ [];
        }) }
    {
        self.steps.push(Step::PutMark(number, place))?;
        Ok(())
    }
}
