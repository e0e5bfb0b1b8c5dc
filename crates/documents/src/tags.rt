//! The tags of a document: listed, added to ranges, removed from them, deleted, raised and lowered.

ghost use Rattle.std.specs.Prelude.{◌≡◌, Some, ◌+◌, ◌-◌, ◌<◌, ◌≤◌, length, chars, option_map, nat_lt, nat_le, Ok, Err};
ghost use Rattle.std.specs.Prelude.{IfOk, IfSome, None, []};
ghost use Rattle.std.specs.List.{All};
ghost use Rattle.text_model.specs.LimitTable.{LimitTable};
ghost use Rattle.documents.specs.Documents.{widget_at};
ghost use Rattle.documents.specs.Views.{shown};
ghost use Rattle.documents.specs.Promise.{Does};
ghost use Rattle.documents.specs.Told.{reply_of, IsTold};
ghost use Rattle.tcl_words.specs.ListText.{list_text};
ghost use Rattle.tcl_words.specs.Unread.{texts_of};
ghost use Rattle.text_index.specs.Parts.{part_of};
ghost use Rattle.text_index.specs.Ranges.{tag_ranges, next_range, previous_range};
ghost use Rattle.text_index.specs.Views.{shown as shown_in, shown_flags};
ghost use Rattle.text_model.specs.TagBits.{slot_count};
ghost use Rattle.tag_table.specs.Priority.{lowered, raised};
ghost use Rattle.documents.specs.Tags.{flags_of, tags_on, add_spans, remove_spans, tag_delete, reordered, moved_answer};
ghost use Rattle.documents.specs.Listing.{range_words, begun};
ghost use Rattle.command_effects.specs.declared.answers.Answer.TheVariants.{Empty};

use crate::callers::Caller;
use crate::documents::Document;
use crate::listing::{push_names, push_names_in, push_next, push_previous, push_ranges};
use crate::views::view_of;
use command_effects::{
    Answer, Fault, clear_slots, delete_names, deleted_slots, find_tag, set_slot, tag_spans,
};
use reports::EditTold;
use std::alloc::AllocError;
use tag_table::NoSuchTag;
use text_index::View;
use text_model::{TagSlot, Text, TextStore};

/// The answer once a tag is moved next to another one, or one of them isn't known: the tag is the word at a position,
/// and the other one that after it.
fn moved_answer(moved: Result<(), NoSuchTag>, position: usize) -> Result<Answer, Fault>
    requires { position + 1 ≤ usize.MAX }
    ensures { result ≡ moved_answer position moved }
{
    match moved {
        Ok(()) => Ok(Answer::Empty),
        Err(NoSuchTag::Moved) => Err(Fault::NoSuchTag(position)),
        Err(NoSuchTag::Neighbour) => Err(Fault::NoSuchTag(position + 1)),
    }
}

impl<S: TextStore> Document<S> {
    /// The names of all tags as a list, from the lowest.
    pub fn all_tags(&self) -> Result<Text, AllocError>
        ensures { IfOk result (λ list. list ≡ list_text self.now.tags) }
    {
        let mut list = String::new(self.alloc);
        push_names(&mut list, &self.tags)?;
        Ok(Text::new(list))
    }

    /// The names of the tags of the character at a place as a list, from the lowest; none at the end.
    pub fn tags_on(&self, seat: usize, place: usize) -> Result<Text, AllocError>
        requires shown { seat < length self.now.widgets }
        requires within { place ≤ length (shown self.now (widget_at self.now seat)) }
        ensures { IfOk result (λ list. list ≡ list_text (tags_on self.now (widget_at self.now seat) place)) }
    {
        let mut list = String::new(self.alloc);
        let number = self.seats.number(seat);
        let view = view_of(&self.text.store, &self.text.anchors, number);
        let offset = view.start + place;
        if offset == view.end {
            return Ok(Text::new(list));
        }
        push_names_in(
            &mut list,
            &self.tags,
            TagSlot(number),
            view.store.tags_at(offset),
        )?;
        Ok(Text::new(list))
    }

    /// The view of a widget, with the slot of a tag in it, if there is one of that name.
    fn tag_view(&self, seat: usize, name: &str) -> Option<(View<'_, S>, TagSlot)>
        requires { seat < length self.now.widgets }
        ensures none { result ≡ None → flags_of self.now (widget_at self.now seat) (chars name.now) ≡ [] }
        ensures text { IfSome result (λ found. shown_in (part_of found.0) ≡ shown self.now (widget_at self.now seat)) }
        ensures flags { IfSome result (λ found.
            shown_flags found.1.0 (part_of found.0) ≡ flags_of self.now (widget_at self.now seat) (chars name.now)) }
        ensures slot { IfSome result (λ found. found.1.0 < slot_count) }
        ensures end { IfSome result (λ found.
            found.0.start + length (shown self.now (widget_at self.now seat)) ≡ found.0.end) }
    {
        let number = self.seats.number(seat);
        let slot = find_tag(&self.tags, TagSlot(number), name)?;
        Some((view_of(&self.text.store, &self.text.anchors, number), slot))
    }

    /// Where the ranges of a tag begin and end, as a list; none of an unknown tag.
    pub fn ranges_of(&self, seat: usize, name: &str) -> Result<Text, AllocError>
        requires shown { seat < length self.now.widgets }
        ensures { IfOk result (λ list. list ≡ list_text (range_words (shown self.now (widget_at self.now seat))
            (tag_ranges (flags_of self.now (widget_at self.now seat) (chars name.now))))) }
    {
        let mut list = String::new(self.alloc);
        let Some((view, slot)) = self.tag_view(seat, name) else {
            return Ok(Text::new(list));
        };
        push_ranges(&mut list, &view, slot)?;
        Ok(Text::new(list))
    }

    /// Where the first range of a tag begins and ends that begins at a place or after it, as a list, if it begins
    /// before another.
    pub fn next_listed(
        &self,
        seat: usize,
        name: &str,
        from: usize,
        to: usize,
    ) -> Result<Text, AllocError>
        requires shown { seat < length self.now.widgets }
        requires within { from ≤ length (shown self.now (widget_at self.now seat)) }
        ensures { IfOk result (λ list. list ≡ list_text (range_words (shown self.now (widget_at self.now seat))
            (begun (λ start. nat_lt start to)
            (next_range (flags_of self.now (widget_at self.now seat) (chars name.now)) from)))) }
    {
        let mut list = String::new(self.alloc);
        let Some((view, slot)) = self.tag_view(seat, name) else {
            return Ok(Text::new(list));
        };
        push_next(&mut list, &view, slot, from, to)?;
        Ok(Text::new(list))
    }

    /// Where the last range of a tag begins and ends that begins before a place, as a list, if it doesn't begin before
    /// another.
    pub fn previous_listed(
        &self,
        seat: usize,
        name: &str,
        from: usize,
        to: usize,
    ) -> Result<Text, AllocError>
        requires shown { seat < length self.now.widgets }
        requires within { from ≤ length (shown self.now (widget_at self.now seat)) }
        ensures { IfOk result (λ list. list ≡ list_text (range_words (shown self.now (widget_at self.now seat))
            (begun (λ start. nat_le to start)
            (previous_range (flags_of self.now (widget_at self.now seat) (chars name.now)) from)))) }
    {
        let mut list = String::new(self.alloc);
        let Some((view, slot)) = self.tag_view(seat, name) else {
            return Ok(Text::new(list));
        };
        push_previous(&mut list, &view, slot, from, to)?;
        Ok(Text::new(list))
    }
}

impl<S: TextStore> Document<S> {
    /// Adds a tag to the ranges between pairs of places, and makes it if it is new. Returns what that changes.
    pub fn add_spans(
        &mut self,
        caller: &Caller<'_>,
        name: &str,
        places: &[usize],
    ) -> Result<EditTold, Fault>
        requires shown { caller.now.seat < length self.old.widgets }
        requires within { let widget = widget_at self.old caller.now.seat in
            All (λ place. place ≤ length (shown self.old widget)) places.now }
        ensures does { Does caller.now.limits.now self.old self.new (reply_of result)
            (add_spans caller.now.limits.now self.old (widget_at self.old caller.now.seat) (chars name.now)
            places.now) }
        ensures told { IsTold caller.now.follows
            (add_spans caller.now.limits.now self.old (widget_at self.old caller.now.seat) (chars name.now)
            places.now) self.old self.new result }
    {
        let own = TagSlot(self.seats.number(caller.seat));
        let ranges = self.spans_at(caller.seat, places)?;
        let spans = ranges.as_slice();
        let told = self.span_tags(caller, name, spans, true)?;
        let front = self.tags.len();
        let rules = caller.rules(self.alloc, self.settings);
        match tag_spans(&rules, &mut self.tags, own, &mut self.text, name, spans) {
            Ok(()) => Ok(told),
            Err(fault) => {
                self.tags.truncate(front);
                Err(fault)
            }
        }
    }

    /// Removes a tag from the ranges between pairs of places, if there is one of that name. Returns what that changes.
    pub fn remove_spans(
        &mut self,
        caller: &Caller<'_>,
        name: &str,
        places: &[usize],
    ) -> Result<EditTold, Fault>
        requires shown { caller.now.seat < length self.old.widgets }
        requires within { let widget = widget_at self.old caller.now.seat in
            All (λ place. place ≤ length (shown self.old widget)) places.now }
        ensures does { (limits : LimitTable) → Does limits self.old self.new (reply_of result)
            (remove_spans self.old (widget_at self.old caller.now.seat) (chars name.now) places.now) }
        ensures told { IsTold caller.now.follows
            (remove_spans self.old (widget_at self.old caller.now.seat) (chars name.now) places.now)
            self.old self.new result }
    {
        let own = TagSlot(self.seats.number(caller.seat));
        let Some(slot) = find_tag(&self.tags, own, name) else {
            return Ok(EditTold::nothing(self.alloc));
        };
        let ranges = self.spans_at(caller.seat, places)?;
        let spans = ranges.as_slice();
        let told = self.span_tags(caller, name, spans, false)?;
        set_slot(self.alloc, &mut self.text, spans, slot, false)?;
        Ok(told)
    }

    /// Deletes tags, and removes them from all characters. `sel` and unknown names are skipped. Returns what that
    /// changes.
    pub fn delete_tags(&mut self, caller: &Caller<'_>, names: &[String]) -> Result<EditTold, Fault>
        ensures does { (limits : LimitTable) → Does limits self.old self.new (reply_of result)
            (tag_delete self.old (texts_of names.now)) }
        ensures told { IsTold caller.now.follows (tag_delete self.old (texts_of names.now)) self.old self.new result }
    {
        let told = self.told_tag_delete(caller, names)?;
        let slots = deleted_slots(self.alloc, &self.tags, names)?;
        clear_slots(self.alloc, &mut self.text, &slots)?;
        delete_names(&mut self.tags, names);
        Ok(told)
    }

    /// Puts a tag highest, or just above another one. The tag is the word at a position, the other one that after it.
    pub fn raise(
        &mut self,
        position: usize,
        name: &str,
        above: Option<&str>,
    ) -> Result<Answer, Fault>
        requires { position + 1 ≤ usize.MAX }
        ensures { (limits : LimitTable) → Does limits self.old self.new result
            (reordered self.old position raised (chars name.now, option_map (λ word. chars word.now) above.entry)) }
    {
        moved_answer(self.tags.raise(name, above), position)
    }

    /// Puts a tag lowest, or just below another one. The tag is the word at a position, the other one that after it.
    pub fn lower(
        &mut self,
        position: usize,
        name: &str,
        below: Option<&str>,
    ) -> Result<Answer, Fault>
        requires { position + 1 ≤ usize.MAX }
        ensures { (limits : LimitTable) → Does limits self.old self.new result
            (reordered self.old position lowered (chars name.now, option_map (λ word. chars word.now) below.entry)) }
    {
        moved_answer(self.tags.lower(name, below), position)
    }
}
