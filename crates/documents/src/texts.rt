//! Reads the text of a widget's view, and inserts texts with tag lists.

ghost use Rattle.std.specs.Prelude.{◌≡◌, ◌∷◌, ◌<◌, ◌≤◌, [], None, Ok, true, false, suc, length, chars, slice_range};
ghost use Rattle.std.specs.Prelude.{IfOk, IfSome, OnErr};
ghost use Rattle.command_effects.specs.declared.answers.Answer.TheVariants.{Empty};
ghost use Rattle.documents.specs.Documents.{widget_at};
ghost use Rattle.documents.specs.Promise.{Does, Gives};
ghost use Rattle.documents.specs.Texts.{insert_at, insertion_at};
ghost use Rattle.documents.specs.Told.{reply_of, IsTold};
ghost use Rattle.documents.specs.Views.{shown};

use crate::callers::Caller;
use crate::documents::Document;
use crate::views::view_of;
use command_effects::{Fault, Pair, plan_pairs};
use edit_ops::insert_within;
use reports::{EditTold, carry_out_tagged};
use std::alloc::AllocError;
use text_model::{TagSlot, Text, TextStore};

impl<S: TextStore> Document<S> {
    /// The characters from one place to another; none where the second isn't after the first.
    pub fn text_between(&self, seat: usize, from: usize, to: usize) -> Result<Text, AllocError>
        requires shown { seat < length self.now.widgets }
        requires from { from ≤ length (shown self.now (widget_at self.now seat)) }
        requires to { to ≤ length (shown self.now (widget_at self.now seat)) }
        ensures { IfOk result (λ text. text ≡ slice_range (shown self.now (widget_at self.now seat)) from to) }
    {
        let view = self.view_at(seat);
        Ok(Text::new(view.copy_text(from, to.max(from))?))
    }

    /// The character at a place, or nothing at the end.
    pub fn character_at(&self, seat: usize, place: usize) -> Result<Text, AllocError>
        requires shown { seat < length self.now.widgets }
        requires within { place ≤ length (shown self.now (widget_at self.now seat)) }
        ensures { IfOk result (λ text. text
            ≡ slice_range (shown self.now (widget_at self.now seat)) place (suc place)) }
    {
        let view = self.view_at(seat);
        Ok(Text::new(view.copy_text(place, (place + 1).min(view.len()))?))
    }

    /// Returns the offset at which a text is inserted for the index at a position of a command: before the last newline
    /// where the index is the end of the view. Returns `None` where the widget leaves the text as it is. The store
    /// looks up the line of the index, as for `seek`.
    pub fn insertion_at(
        &mut self,
        seat: usize,
        position: usize,
        word: &str,
    ) -> Result<Option<usize>, Fault>
        requires shown { seat < length self.old.widgets }
        ensures same { self.new ≡ self.old }
        ensures value { Gives result
            (insertion_at self.old (widget_at self.old seat) position (chars word.now)) }
        ensures within { IfOk result (λ found. IfSome found (λ at. at < length self.old.cells)) }
    {
        let place = self.seek(seat, position, word)?;
        let slot = self.seats.number(seat);
        let view = view_of(&self.text.store, &self.text.anchors, slot);
        if self.disabled[slot as usize] || view.start == view.end {
            return Ok(None);
        }
        Ok(Some((view.start + place).min(view.end - 1)))
    }

    /// Inserts texts at an offset, each after the one before it, and makes the tags of their lists. Returns what that
    /// changes.
    pub fn insert_at(
        &mut self,
        caller: &Caller<'_>,
        at: usize,
        pairs: Vec<Pair>,
    ) -> Result<EditTold, Fault>
        requires shown { caller.now.seat < length self.old.widgets }
        requires within { at < length self.old.cells }
        ensures does { Does caller.now.limits.now self.old self.new (reply_of result)
            (insert_at caller.now.limits.now self.old (widget_at self.old caller.now.seat) at pairs.items) }
        ensures told { IsTold caller.now.follows
            (insert_at caller.now.limits.now self.old (widget_at self.old caller.now.seat) at pairs.items)
            self.old self.new result }
    {
        let slot = TagSlot(self.seats.number(caller.seat));
        let front = self.tags.len();
        let rules = caller.rules(self.alloc, self.settings);
        let planned = plan_pairs(&rules, &mut self.tags, slot, &mut self.text, at, pairs);
        carry_out_tagged(
            self.alloc,
            &self.seats,
            &mut self.tags,
            front,
            &mut self.text,
            planned,
        )
    }

    /// Inserts a text at an offset where the store can make that in one line. Returns whether it was made; otherwise,
    /// and where an allocation fails, the document is as it was.
    fn insert_piece(
        &mut self,
        caller: &Caller<'_>,
        at: usize,
        text: &str,
    ) -> Result<bool, AllocError>
        requires shown { caller.now.seat < length self.old.widgets }
        requires within { at < length self.old.cells }
        ensures made { IfOk result (λ is_made. is_made ≡ true →
            Does caller.now.limits.now self.old self.new (Ok Empty)
            (insert_at caller.now.limits.now self.old (widget_at self.old caller.now.seat) at
            (record { text = chars text.now; names = None } ∷ []))) }
        ensures quiet { IfOk result (λ is_made. is_made ≡ true → caller.now.follows ≡ false) }
        ensures other { IfOk result (λ is_made. is_made ≡ false → self.new ≡ self.old) }
        ensures refused { OnErr result (self.new ≡ self.old) }
    {
        if self.tags.len() > caller.limits.tags() as usize + 1 {
            return Ok(false);
        }
        let rules = caller.rules(self.alloc, self.settings);
        if !insert_within(&rules, &mut self.text, at, text)? {
            return Ok(false);
        }
        Ok(true)
    }

    /// Inserts a text at an offset, in characters, as `insert_at` does for a text without a tag list. Returns what that
    /// changes.
    pub fn insert_text(
        &mut self,
        caller: &Caller<'_>,
        at: usize,
        text: &str,
    ) -> Result<EditTold, Fault>
        requires shown { caller.now.seat < length self.old.widgets }
        requires within { at < length self.old.cells }
        ensures does { Does caller.now.limits.now self.old self.new (reply_of result)
            (insert_at caller.now.limits.now self.old (widget_at self.old caller.now.seat) at
            (record { text = chars text.now; names = None } ∷ [])) }
        ensures told { IsTold caller.now.follows
            (insert_at caller.now.limits.now self.old (widget_at self.old caller.now.seat) at
            (record { text = chars text.now; names = None } ∷ [])) self.old self.new result }
    {
        if self.insert_piece(caller, at, text)? {
            return Ok(EditTold::nothing(self.alloc));
        }
        let pair = Pair {
            text: Text::new(String::from_str(self.alloc, text)?),
            names: None,
        };
        let pairs = vec![in self.alloc; pair]?;
        self.insert_at(caller, at, pairs)
    }
}
