//! The tags at a place of a view, those left of it, and where each changes next, for a dump.
ghost use Rattle.std.specs.Prelude.{◌≡◌, ◌≢◌, ℕ, ◌≤◌, ◌<◌, ◌+◌, length, replicate, slice_index_or, IfOk};
ghost use Rattle.std.specs.FinSet as set;
ghost use Rattle.text_model.specs.Changes.{flag_at};
ghost use Rattle.tag_table.specs.Tags.{slots_of};
ghost use Rattle.text_index.specs.Views.{shown_flags};
ghost use Rattle.text_model.specs.Steps.{set_slot};
ghost use Rattle.text_model.specs.TagBits.{slot_count};
ghost use Rattle.text_model.specs.declared.limits.TheConstants.Limits.{MOST_WIDGETS};
ghost use Rattle.search_dump.specs.Ahead.{slot_of_row, AreAhead, AreKept, IsKnown, AreTurned, IsNearest, IsTurned};
ghost use Rattle.search_dump.specs.Dump.{flag_before, own_slot};
ghost use Rattle.search_dump.specs.Sights.{outlook};
ghost use Rattle.text_index.specs.Parts.{part_of};
ghost use Rattle.search_dump.specs.Turns.{AreBehind};

use crate::sights::Sight;
use crate::turns::{Rows, Turn};
use std::alloc::{AllocError, Global};
use text_index::{Names, View, change_after};
use text_model::{TagSet, TagSlot, TextStore};

/// The slot in which the store knows the tag at a place of the table: for `sel`, that of the widget's own.
pub fn own_slot(names: &Names<'_>, at: usize) -> TagSlot
    requires within { at < length names.now.tags.now.tags }
    requires widget { names.now.widget.0 < MOST_WIDGETS }
    ensures value { result.0 ≡ own_slot names.now.widget.0 (slice_index_or (slots_of names.now.tags.now.tags) at 0) }
    ensures bound { result.0 < slot_count }
{
    match names.tags.slot(at) {
        TagSlot(0) => names.widget,
        slot => slot,
    }
}

/// The tags of the character before a place of the view; none before the first.
pub fn tags_left_of<S: TextStore>(view: &View<'_, S>, place: usize) -> TagSet
    requires within { view.now.start + place ≤ view.now.end }
    ensures { (slot : ℕ) →
        set.contains result slot ≡ flag_before (shown_flags slot
        (part_of view.now)) place }
{
    if place == 0 {
        return TagSet::empty();
    }
    view.store.tags_at(view.start + (place - 1))
}

/// The tags of the character at a place of the view; none at the end.
pub fn tags_at<S: TextStore>(view: &View<'_, S>, place: usize) -> TagSet
    requires within { view.now.start + place ≤ view.now.end }
    ensures { (slot : ℕ) →
        set.contains result slot ≡ flag_at (shown_flags slot
        (part_of view.now)) place }
{
    if place == view.len() {
        return TagSet::empty();
    }
    view.store.tags_at(view.start + place)
}

/// Puts a slot into a set, or takes it out.
fn set_slot(slots: &mut TagSet, slot: TagSlot, is_on: bool)
    requires { slot.0 < slot_count }
    ensures { slots.new ≡ set_slot slot.0 is_on slots.old }
{
    *slots = if is_on {
        slots.with(slot)
    } else {
        slots.without(slot)
    };
}

/// For each tag, by its place in the table, the next place of a view at which it begins or ends, so that the store is
/// asked for it once.
#[derive(Drop)]
pub struct TagChanges {
    next: Vec<usize>,
}

impl TagChanges {
    /// Of so many tags, of which nothing is known yet behind a place.
    pub fn new(alloc: Global, tags: usize, place: usize) -> Result<TagChanges, AllocError>
        ensures { IfOk result (λ changes. changes.next.items ≡ replicate tags place) }
    {
        Ok(TagChanges {
            next: vec![in alloc; place; tags]?,
        })
    }

    /// Knows where the tag at a place of the table changes next behind a place of the view, before its end.
    fn look<S: TextStore>(&mut self, sight: &Sight<'_, S>, at: usize, place: usize)
        requires widget { sight.now.names.now.widget.0 < MOST_WIDGETS }
        requires row { at < length sight.now.names.now.tags.now.tags }
        requires within { sight.now.view.now.start + place < sight.now.view.now.end }
        requires ahead { AreAhead (outlook sight.now) place self.old.next.items }
        ensures known { IsKnown (outlook sight.now) place self.new.next.items at }
        ensures keeps { (other : ℕ) → IsKnown (outlook sight.now) place self.old.next.items other
            → IsKnown (outlook sight.now) place self.new.next.items other }
        ensures ahead { AreAhead (outlook sight.now) place self.new.next.items }
    {
        if place < self.next[at] {
            return;
        }
        self.next[at] = change_after(sight.view, own_slot(sight.names, at), place);
    }

    /// Knows where each tag changes next behind a place of the view, before its end, where that is known already of all
    /// rows of the table but some.
    pub fn pass<S: TextStore>(&mut self, sight: &Sight<'_, S>, rows: Rows, place: usize)
        requires widget { sight.now.names.now.widget.0 < MOST_WIDGETS }
        requires within { sight.now.view.now.start + place < sight.now.view.now.end }
        requires rows { rows.end ≤ length sight.now.names.now.tags.now.tags }
        requires ahead { AreAhead (outlook sight.now) place self.old.next.items }
        requires apart { AreBehind rows self.old.next.items (length sight.now.names.now.tags.now.tags) place }
        ensures known { (at : ℕ) → at < length sight.now.names.now.tags.now.tags →
            IsKnown (outlook sight.now) place self.new.next.items at }
        ensures ahead { AreAhead (outlook sight.now) place self.new.next.items }
    {
        for at in rows.first..rows.end {
            self.look(sight, at, place);
        }
    }

    /// The first of the next places with the rows among which all that stand there are, or another place, if that is
    /// before all of them.
    pub fn nearest(&self, place: usize) -> Turn
        ensures nearest { IsNearest self.now.next.items (length self.now.next.items) place result.place }
        ensures apart { AreBehind result.rows self.now.next.items (length self.now.next.items) result.place }
        ensures rows { result.rows.end ≤ length self.now.next.items }
    {
        let mut turn = Turn::bare(place);
        for at in 0..self.next.len() {
            turn = turn.with_row(at, self.next[at]);
        }
        turn
    }

    /// Turns the slot of the tag at a place of the table in a set, if the tag changes at a place of the view, by how it
    /// is in another set.
    fn turn(&self, names: &Names<'_>, at: usize, place: usize, tags: &TagSet, turned: &mut TagSet)
        requires widget { names.now.widget.0 < MOST_WIDGETS }
        requires row { at < length names.now.tags.now.tags }
        requires kept { at < length self.now.next.items }
        ensures turned { slice_index_or self.now.next.items at 0 ≡ place →
            IsTurned (slot_of_row names.now.widget.0 (slots_of names.now.tags.now.tags) at) tags.now
            turned.old turned.new }
        ensures same { slice_index_or self.now.next.items at 0 ≢ place → turned.new ≡ turned.old }
    {
        if self.next[at] == place {
            let slot = own_slot(names, at);
            set_slot(turned, slot, !tags.has(slot));
        }
    }

    /// The tags of a set, those turned that change at a place, which all stand among some rows.
    pub fn turned(&self, names: &Names<'_>, rows: Rows, place: usize, tags: &TagSet) -> TagSet
        requires widget { names.now.widget.0 < MOST_WIDGETS }
        requires kept { length self.now.next.items ≡ length names.now.tags.now.tags }
        requires rows { rows.end ≤ length names.now.tags.now.tags }
        requires apart { AreBehind rows self.now.next.items (length names.now.tags.now.tags) place }
        ensures { (change : ℕ → ℕ) → AreKept change names.now.widget.0 (slots_of names.now.tags.now.tags)
            (length names.now.tags.now.tags) self.now.next.items
            → AreTurned change names.now.widget.0 (slots_of names.now.tags.now.tags)
            (length names.now.tags.now.tags) place tags.now result }
    {
        let mut turned = *tags;
        for at in rows.first..rows.end {
            self.turn(names, at, place, tags, &mut turned);
        }
        turned
    }
}
