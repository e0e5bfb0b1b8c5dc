//! Deletes ranges of a document, and replaces a range by texts with tag lists.

ghost use Rattle.std.specs.Prelude.{◌≡◌, ◌<◌, ◌≤◌, Ok, true, false, length, IfOk, OnErr};
ghost use Rattle.std.specs.List.{All};
ghost use Rattle.text_model.specs.LimitTable.{LimitTable};
ghost use Rattle.command_effects.specs.declared.answers.Answer.TheVariants.{Empty};
ghost use Rattle.documents.specs.Deletions.{delete_places, replace_span};
ghost use Rattle.documents.specs.Documents.{widget_at};
ghost use Rattle.documents.specs.Promise.{Does};
ghost use Rattle.documents.specs.Texts.{insertion_offset};
ghost use Rattle.documents.specs.Told.{reply_of, IsTold};
ghost use Rattle.documents.specs.Views.{is_idle, shown};

use crate::callers::Caller;
use crate::documents::Document;
use crate::views::{end_of, start_of};
use command_effects::{Fault, Pair, plan_replacement, span_between, spans_of};
use edit_ops::{Target, delete_within, plan_delete};
use reports::{EditTold, carry_out, carry_out_tagged};
use std::alloc::AllocError;
use text_model::{MarkNo, TagSlot, TextStore};

impl<S: TextStore> Document<S> {
    /// Deletes the range between a single pair of places where the store can make that in one line. Returns whether it
    /// was made; otherwise, and where an allocation fails, the document is as it was.
    fn delete_range(&mut self, caller: &Caller<'_>, places: &[usize]) -> Result<bool, AllocError>
        requires shown { caller.now.seat < length self.old.widgets }
        requires active { is_idle self.old (widget_at self.old caller.now.seat) ≡ false }
        requires within { let widget = widget_at self.old caller.now.seat in
            All (λ place. place ≤ length (shown self.old widget)) places.now }
        ensures made { IfOk result (λ is_made. is_made ≡ true → (limits : LimitTable) →
            Does limits self.old self.new (Ok Empty)
            (delete_places self.old (widget_at self.old caller.now.seat) places.now)) }
        ensures quiet { IfOk result (λ is_made. is_made ≡ true → caller.now.follows ≡ false) }
        ensures other { IfOk result (λ is_made. is_made ≡ false → self.new ≡ self.old) }
        ensures refused { OnErr result (self.new ≡ self.old) }
    {
        let [from, to] = places else {
            return Ok(false);
        };
        let slot = self.seats.number(caller.seat);
        let start = start_of(&self.text.anchors, slot);
        let end = end_of(&self.text.anchors, slot, self.text.store.len());
        let span = span_between(start, *from, *to);
        let rules = caller.rules(self.alloc, self.settings);
        if !delete_within(&rules, &mut self.text, end, span)? {
            return Ok(false);
        }
        Ok(true)
    }

    /// Deletes the ranges between pairs of places by a plan. Returns what that changes.
    fn delete_planned(&mut self, caller: &Caller<'_>, places: &[usize]) -> Result<EditTold, Fault>
        requires shown { caller.now.seat < length self.old.widgets }
        requires active { is_idle self.old (widget_at self.old caller.now.seat) ≡ false }
        requires within { let widget = widget_at self.old caller.now.seat in
            All (λ place. place ≤ length (shown self.old widget)) places.now }
        ensures does { (limits : LimitTable) → Does limits self.old self.new (reply_of result)
            (delete_places self.old (widget_at self.old caller.now.seat) places.now) }
        ensures told { IsTold caller.now.follows
            (delete_places self.old (widget_at self.old caller.now.seat) places.now) self.old self.new result }
    {
        let slot = self.seats.number(caller.seat);
        let start = start_of(&self.text.anchors, slot);
        let end = end_of(&self.text.anchors, slot, self.text.store.len());
        let spans = spans_of(self.alloc, start, end - start, places)?;
        let rules = caller.rules(self.alloc, self.settings);
        let plan = plan_delete(&rules, &mut self.text, start, end, &spans)?;
        Ok(carry_out(self.alloc, &self.seats, &self.tags, &mut self.text, plan)?)
    }

    /// Deletes the ranges between pairs of places. Returns what that changes.
    pub fn delete_places(
        &mut self,
        caller: &Caller<'_>,
        places: &[usize],
    ) -> Result<EditTold, Fault>
        requires shown { caller.now.seat < length self.old.widgets }
        requires active { is_idle self.old (widget_at self.old caller.now.seat) ≡ false }
        requires within { let widget = widget_at self.old caller.now.seat in
            All (λ place. place ≤ length (shown self.old widget)) places.now }
        ensures does { (limits : LimitTable) → Does limits self.old self.new (reply_of result)
            (delete_places self.old (widget_at self.old caller.now.seat) places.now) }
        ensures told { IsTold caller.now.follows
            (delete_places self.old (widget_at self.old caller.now.seat) places.now) self.old self.new result }
    {
        if self.delete_range(caller, places)? {
            return Ok(EditTold::nothing(self.alloc));
        }
        self.delete_planned(caller, places)
    }

    /// Replaces the characters between two places by texts, and makes the tags of their lists. The end of the
    /// view counts as the place of its last character. Returns what that changes.
    pub fn replace_between(
        &mut self,
        caller: &Caller<'_>,
        from: usize,
        to: usize,
        pairs: Vec<Pair>,
    ) -> Result<EditTold, Fault>
        requires shown { caller.now.seat < length self.old.widgets }
        requires active { is_idle self.old (widget_at self.old caller.now.seat) ≡ false }
        requires ordered { from ≤ to }
        requires within { to ≤ length (shown self.old (widget_at self.old caller.now.seat)) }
        ensures does { let widget = widget_at self.old caller.now.seat in
            Does caller.now.limits.now self.old self.new (reply_of result)
            (replace_span caller.now.limits.now self.old widget (insertion_offset self.old widget from)
            (insertion_offset self.old widget to) pairs.items) }
        ensures told { let widget = widget_at self.old caller.now.seat in IsTold caller.now.follows
            (replace_span caller.now.limits.now self.old widget (insertion_offset self.old widget from)
            (insertion_offset self.old widget to) pairs.items) self.old self.new result }
    {
        let slot = self.seats.number(caller.seat);
        let start = start_of(&self.text.anchors, slot);
        let last = end_of(&self.text.anchors, slot, self.text.store.len()) - 1;
        let front = self.tags.len();
        let rules = caller.rules(self.alloc, self.settings);
        let target = Target {
            last,
            from: start + from,
            to: start + to,
            mark: MarkNo(2 * slot),
        };
        let planned = plan_replacement(
            &rules,
            &mut self.tags,
            TagSlot(slot),
            &mut self.text,
            target,
            pairs,
        );
        carry_out_tagged(
            self.alloc,
            &self.seats,
            &mut self.tags,
            front,
            &mut self.text,
            planned,
        )
    }
}
