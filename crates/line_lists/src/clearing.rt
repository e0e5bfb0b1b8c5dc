//! Clears a slot's toggles in a draft, and finds the slots that are on before an offset.

ghost use Rattle.std.specs.Prelude.{◌≡◌, ◌+◌, ◌-◌, ◌<◌, ◌≤◌, ◌^◌, List, [], ◌∷◌, ◌++◌, None, IfOk, IfSome, OnOk, drop};
ghost use Rattle.std.specs.Prelude.{length, min, slice_get, take, true, vec_len};
ghost use Rattle.segments.specs.Columns.{LineContent};
ghost use Rattle.text_model.specs.TagBits.{slot_count};
ghost use Rattle.line_lists.specs.Clearing.{AreFree, free_end};
ghost use Rattle.line_lists.specs.DraftTexts.{IsAhead, IsBegun, IsDraftIn, IsTextIn, lines_in, place_in, text_in};
ghost use Rattle.line_lists.specs.Drafts.{IsReached, copies_of, line_start};
ghost use Rattle.line_lists.specs.Edits.{with_cleared};
ghost use Rattle.line_lists.specs.Lists.{has_toggle};
ghost use Rattle.line_lists.specs.Texts.{whole};
ghost use Rattle.line_lists.specs.Toggling.{tags_left_of};

use crate::drafts::{Copied, Draft, Found, Reached, Stop, span};
use crate::lists::LineList;
use std::alloc::AllocError;
use text_model::{TagSet, TagSlot};

/// The first line from one on in which a slot is toggled, or `end`, which is further on, if there is none before it.
fn next_below<L: LineList>(list: &L, slot: TagSlot, from: usize, end: usize) -> usize
    requires slot { slot.0 < slot_count }
    requires ordered { from ≤ end }
    requires within { end ≤ length (L.lines list.now) }
    ensures above { from ≤ result }
    ensures bound { result ≤ end }
    ensures free { AreFree slot.0 (take (result - from) (drop from (L.lines list.now))) }
    ensures stops { result < end →
        IfSome (slice_get (L.lines list.now) result) (λ (line : LineContent). has_toggle slot.0 line ≡ true) }
{
    list.next_with(slot, from).unwrap_or(end).min(end)
}

impl Reached {
    /// How many characters stand before the end of so many kept lines that follow.
    fn characters_behind<L: LineList>(&self, list: &L, count: usize) -> usize
        requires there { self.now.used + count ≤ length (L.lines list.now) }
        requires counted { self.now.characters
            + length (whole (take count (drop self.now.used (L.lines list.now)))).columns < 2 ^ 64 }
        ensures { result ≡ self.now.characters
            + length (whole (take count (drop self.now.used (L.lines list.now)))).columns }
    {
        self.characters + span(list, self.used, count)
    }
}

impl<'a, L: LineList> Draft<'a, L> {
    /// The slots that are on behind so many characters, of which the next is one of the last copy's before the place,
    /// where the copies end at another offset.
    fn copied_tags(&mut self, offset: usize, end: usize) -> TagSet
        requires is { IsDraftIn L.lines self.old }
        requires begun { IsBegun L.lines self.old offset }
        requires end { end ≡ place_in L.lines self.old }
        requires within { offset < end }
        ensures list { self.new.list.now ≡ self.old.list.now }
        ensures front { self.new.front ≡ self.old.front }
        ensures back { self.new.back ≡ self.old.back }
        ensures value { result ≡ tags_left_of (take offset (text_in L.lines self.old).columns) }
    {
        let mut slots = self.known.but_last(self.list, &self.front);
        let stop = self.front.last().unwrap();
        let start = end - stop.copy.line.len();
        stop.reached.turn_kept(
            self.list,
            &mut self.known.before,
            stop.copy.kept,
            &mut slots,
        );
        slots.flip(&stop.copy.line.tags_left_of(offset - start));
        slots
    }

    /// The slots that are on behind so many characters, of which the next is one of a kept line's behind the place.
    fn kept_tags(&mut self, reached: &Reached, offset: usize) -> TagSet
        requires is { IsDraftIn L.lines self.old }
        requires reached { IsReached reached.now (copies_of self.old.front.items) (L.lines self.old.list.now) }
        requires behind { reached.now.characters ≤ offset }
        requires ahead { IsAhead L.lines self.old offset }
        requires within { offset < length (text_in L.lines self.old).columns }
        ensures list { self.new.list.now ≡ self.old.list.now }
        ensures front { self.new.front ≡ self.old.front }
        ensures back { self.new.back ≡ self.old.back }
        ensures value { result ≡ tags_left_of (take offset (text_in L.lines self.old).columns) }
    {
        let mut slots = self.known.all(self.list, &self.front);
        let (index, column, line) = self.find_line(reached, offset);
        reached.turn_kept(
            self.list,
            &mut self.known.before,
            index - reached.used,
            &mut slots,
        );
        slots.flip(&line.tags_left_of(column));
        slots
    }

    /// The slots that are on behind so many characters of the text, which are those of the character before the offset.
    pub fn tags_left_of(&mut self, offset: usize) -> Result<TagSet, AllocError>
        requires is { IsTextIn L.lines self.old }
        requires within { offset < length (text_in L.lines self.old).columns }
        ensures list { self.new.list.now ≡ self.old.list.now }
        ensures is { IsTextIn L.lines self.new }
        ensures same { lines_in L.lines self.new ≡ lines_in L.lines self.old }
        ensures value { IfOk result (λ slots. slots ≡ tags_left_of (take offset (text_in L.lines self.old).columns)) }
    {
        self.back_to(offset)?;
        self.forth_to(offset)?;
        let covered = self.covered();
        if offset < covered {
            return Ok(self.copied_tags(offset, covered));
        }
        let reached = self.reached();
        Ok(self.kept_tags(&reached, offset))
    }

    /// Where the first line begins in which a slot is toggled, among those behind the place up to the next copy's, or
    /// where the text ends if there is neither; `None` if there is none, but a next copy.
    fn free_up_to(&self, slot: TagSlot, reached: &Reached) -> Option<usize>
        requires slot { slot.0 < slot_count }
        requires is { IsDraftIn L.lines self.now }
        requires reached { IsReached reached.now (copies_of self.now.front.items) (L.lines self.now.list.now) }
        ensures some { IfSome result (λ next. next
            ≡ free_end slot.0 (L.lines self.now.list.now) self.now.front.items self.now.back.items) }
        ensures none { result ≡ None → (behind : List Copied) (stop : Stop) →
            self.now.back.items ≡ behind ++ stop.copy ∷ [] →
            free_end slot.0 (L.lines self.now.list.now) self.now.front.items self.now.back.items
            ≡ free_end slot.0 (L.lines self.now.list.now) (self.now.front.items ++ stop ∷ []) behind }
        ensures next { result ≡ None → 0 < vec_len self.now.back }
    {
        match self.back.last() {
            None => {
                let index = next_below(self.list, slot, reached.used, self.list.len());
                Some(reached.characters_behind(self.list, index - reached.used))
            }
            Some(copy) => {
                let end = reached.used + copy.kept;
                let index = next_below(self.list, slot, reached.used, end);
                if index < end || copy.line.has_toggle(slot) {
                    return Some(reached.characters_behind(self.list, index - reached.used));
                }
                None
            }
        }
    }

    /// Goes on by one copy, where what the copies before the place cover is known.
    pub fn pass(&mut self, reached: Reached) -> Result<(), AllocError>
        requires is { IsDraftIn L.lines self.old }
        requires reached { IsReached reached (copies_of self.old.front.items) (L.lines self.old.list.now) }
        ensures list { self.new.list.now ≡ self.old.list.now }
        ensures is { IsDraftIn L.lines self.new }
        ensures same { lines_in L.lines self.new ≡ lines_in L.lines self.old }
        ensures moved { OnOk result ((behind : List Copied) (copy : Copied) →
            self.old.back.items ≡ behind ++ copy ∷ [] → (self.new.back.items ≡ behind)
            × (self.new.front.items ≡ self.old.front.items ++ record {
              reached = reached;
              start = line_start reached copy (L.lines self.old.list.now);
              copy = copy;
            } ∷ [])) }
        ensures fewer { OnOk result (vec_len self.new.back ≡ vec_len self.old.back - 1) }
    {
        self.front.reserve(1)?;
        if let Some(copy) = self.back.pop() {
            let stop = self.stop(reached, copy);
            self.front.push_reserved(stop);
        }
        Ok(())
    }

    /// Where the first line behind the place begins in which a slot is toggled, or `end` if that isn't before it.
    fn next_toggled(&mut self, slot: TagSlot, end: usize) -> Result<usize, AllocError>
        requires slot { slot.0 < slot_count }
        requires is { IsDraftIn L.lines self.old }
        ensures list { self.new.list.now ≡ self.old.list.now }
        ensures is { IsDraftIn L.lines self.new }
        ensures same { lines_in L.lines self.new ≡ lines_in L.lines self.old }
        ensures value { IfOk result (λ next. next
            ≡ min end (free_end slot.0 (L.lines self.old.list.now) self.old.front.items self.old.back.items)) }
    {
        let mut reached = self.reached();
        while reached.characters < end {
            if let Some(next) = self.free_up_to(slot, &reached) {
                return Ok(next.min(end));
            }
            self.pass(reached)?;
            reached = self.reached();
        }
        Ok(end)
    }

    /// Takes the toggles of a slot before the characters from one offset on away, up to another offset or the end of
    /// their line, and goes behind that line.
    fn clear_line(&mut self, slot: TagSlot, from: usize, to: usize) -> Result<(), AllocError>
        requires is { IsTextIn L.lines self.old }
        requires slot { slot.0 < slot_count }
        requires ordered { from < to }
        requires within { to ≤ length (text_in L.lines self.old).columns }
        ensures list { self.new.list.now ≡ self.old.list.now }
        ensures is { OnOk result (IsTextIn L.lines self.new) }
        ensures above { OnOk result (from < place_in L.lines self.new) }
        ensures new { OnOk result (text_in L.lines self.new
            ≡ with_cleared slot.0 from (min to (place_in L.lines self.new)) (text_in L.lines self.old)) }
    {
        let Found { mut stop, column } = self.take(from)?;
        let end = stop.copy.line.len().min(column + (to - from));
        stop.copy.line.clear(slot, column, end);
        self.front.push_reserved(stop);
        Ok(())
    }

    /// Where to begin to take the toggles of a slot away, from one offset on up to another: behind the characters of
    /// the list's lines in which there are none, so that none of these is copied. A first line with spare room isn't
    /// passed over.
    fn first_toggled(&mut self, slot: TagSlot, from: usize, to: usize) -> usize
        requires is { IsTextIn L.lines self.old }
        requires slot { slot.0 < slot_count }
        requires ordered { from ≤ to }
        requires within { to ≤ length (text_in L.lines self.old).columns }
        ensures list { self.new.list.now ≡ self.old.list.now }
        ensures front { self.new.front ≡ self.old.front }
        ensures back { self.new.back ≡ self.old.back }
        ensures above { from ≤ result }
        ensures bound { result ≤ to }
        ensures free { text_in L.lines self.old ≡ with_cleared slot.0 from result (text_in L.lines self.old) }
    {
        if from == to || !self.back.is_empty() {
            return from;
        }
        let reached = self.reached();
        if from < reached.characters {
            return from;
        }
        let list = self.list;
        let (index, column, line) = self.find_line(&reached, from);
        if line.has_toggle(slot) {
            return from;
        }
        // A copy gives back the room that edits left in the line.
        if line.has_spare_room() {
            return from;
        }
        // Where the line goes on up to the end, no walk of the list is needed.
        if to - from <= line.len() - column {
            return to;
        }
        let next = next_below(list, slot, index + 1, list.len());
        reached.characters_behind(list, next - reached.used).min(to)
    }

    /// Takes the toggles of a slot before the characters from one offset to another away.
    pub fn clear(&mut self, slot: TagSlot, from: usize, to: usize) -> Result<(), AllocError>
        requires is { IsTextIn L.lines self.old }
        requires slot { slot.0 < slot_count }
        requires ordered { from ≤ to }
        requires within { to ≤ length (text_in L.lines self.old).columns }
        ensures list { self.new.list.now ≡ self.old.list.now }
        ensures is { OnOk result (IsTextIn L.lines self.new) }
        ensures new { OnOk result (text_in L.lines self.new ≡ with_cleared slot.0 from to (text_in L.lines self.old)) }
    {
        let mut at = self.first_toggled(slot, from, to);
        while at < to {
            self.clear_line(slot, at, to)?;
            at = self.next_toggled(slot, to)?;
        }
        Ok(())
    }

    /// Goes back before the first copy.
    fn back_to_start(&mut self) -> Result<(), AllocError>
        requires { IsDraftIn L.lines self.old }
        ensures list { self.new.list.now ≡ self.old.list.now }
        ensures is { IsDraftIn L.lines self.new }
        ensures same { lines_in L.lines self.new ≡ lines_in L.lines self.old }
        ensures start { OnOk result (self.new.front.items ≡ []) }
    {
        while !self.front.is_empty() {
            self.step_back()?;
        }
        Ok(())
    }

    /// Takes all toggles of a slot away in a text of so many characters.
    pub fn clear_slot(&mut self, slot: TagSlot, len: usize) -> Result<(), AllocError>
        requires is { IsTextIn L.lines self.old }
        requires slot { slot.0 < slot_count }
        requires len { len ≡ length (text_in L.lines self.old).columns }
        ensures list { self.new.list.now ≡ self.old.list.now }
        ensures is { OnOk result (IsTextIn L.lines self.new) }
        ensures new { OnOk result (text_in L.lines self.new ≡ with_cleared slot.0 0 len (text_in L.lines self.old)) }
    {
        self.back_to_start()?;
        let first = self.next_toggled(slot, len)?;
        self.clear(slot, first, len)
    }
}
