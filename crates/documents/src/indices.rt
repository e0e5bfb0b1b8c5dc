//! Converts between indices and places in a widget's view.

ghost use Rattle.std.specs.Prelude.{◌≡◌, ℕ, ◌<◌, ◌≤◌, length, chars, Ok, Err};
ghost use Rattle.std.specs.Prelude.{IfOk};
ghost use Rattle.text_index.specs.Positions.{position_text};
ghost use Rattle.documents.specs.Documents.{widget_at};
ghost use Rattle.documents.specs.Views.{shown};
ghost use Rattle.command_effects.specs.Faults.{at_position};
ghost use Rattle.documents.specs.Promise.{Gives};
ghost use Rattle.documents.specs.Indices.{place_at};

use crate::documents::Document;
use crate::views::{end_of, start_of, view_of};
use command_effects::Fault;
use std::alloc::AllocError;
use text_index::{IndexFault, Names, locate, push_index, seek};
use text_model::{TagSlot, Text, TextStore};

/// A place, or the fault of the index at a position of a command.
pub fn at_position(position: usize, found: Result<usize, IndexFault>) -> Result<usize, Fault>
    ensures value { result ≡ at_position position found }
    ensures within { (end : ℕ) → IfOk found (λ place. place ≤ end) → IfOk result (λ place. place ≤ end) }
{
    match found {
        Ok(place) => Ok(place),
        Err(fault) => Err(Fault::of_index(position, fault)),
    }
}

impl<S: TextStore> Document<S> {
    /// The place of the index at a position of a command, counted from the start of the view.
    pub fn place_at(&self, seat: usize, position: usize, word: &str) -> Result<usize, Fault>
        requires shown { seat < length self.now.widgets }
        ensures value { Gives result (place_at self.now (widget_at self.now seat) position (chars word.now)) }
        ensures within { IfOk result (λ place. place ≤ length (shown self.now (widget_at self.now seat))) }
    {
        let slot = self.seats.number(seat);
        let names = Names {
            tags: &self.tags,
            marks: &self.marks,
            widget: TagSlot(slot),
        };
        let view = view_of(&self.text.store, &self.text.anchors, slot);
        at_position(position, locate(word, &names, &view))
    }

    /// Returns what `place_at` does, and has the store look up the line of the index, so that the calls after this one
    /// find it without a search.
    pub fn seek(&mut self, seat: usize, position: usize, word: &str) -> Result<usize, Fault>
        requires shown { seat < length self.old.widgets }
        ensures same { self.new ≡ self.old }
        ensures value { Gives result (place_at self.old (widget_at self.old seat) position (chars word.now)) }
        ensures within { IfOk result (λ place. place ≤ length (shown self.old (widget_at self.old seat))) }
    {
        let slot = self.seats.number(seat);
        let names = Names {
            tags: &self.tags,
            marks: &self.marks,
            widget: TagSlot(slot),
        };
        let start = start_of(&self.text.anchors, slot);
        let end = end_of(&self.text.anchors, slot, self.text.store.len());
        let found = seek(word, &names, &mut self.text.store, start, end);
        at_position(position, found)
    }

    /// How many characters the view has.
    pub fn shown_len(&self, seat: usize) -> usize
        requires shown { seat < length self.now.widgets }
        ensures { result ≡ length (shown self.now (widget_at self.now seat)) }
    {
        let view = self.view_at(seat);
        view.end - view.start
    }

    /// A place as `line.char`.
    #[inline(always)]
    pub fn position_of(&self, seat: usize, place: usize) -> Result<Text, AllocError>
        requires shown { seat < length self.now.widgets }
        requires within { place ≤ length (shown self.now (widget_at self.now seat)) }
        ensures { IfOk result (λ text. text ≡ position_text (shown self.now (widget_at self.now seat)) place) }
    {
        let view = self.view_at(seat);
        let mut text = String::new(self.alloc);
        push_index(&mut text, &view, place)?;
        Ok(Text::new(text))
    }
}
