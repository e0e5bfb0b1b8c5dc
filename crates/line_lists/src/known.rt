//! A cache of the slots that are on after some copies of a draft, updated copy by copy in both directions.

ghost use Rattle.std.specs.Prelude.{◌≡◌, ◌+◌, ◌-◌, ◌≤◌, List, [], drop, length, max, min, take};
ghost use Rattle.text_model.specs.SlotSets.{differing};
ghost use Rattle.segments.specs.Columns.{LineContent};
ghost use Rattle.line_lists.specs.Drafts.{AreStops, IsBefore, IsKnown, copies_of, copy_tags, covered, tags_after, used};
ghost use Rattle.line_lists.specs.Lists.{count_of};
ghost use Rattle.line_lists.specs.Texts.{whole};
ghost use Rattle.line_lists.specs.Toggling.{tags_left_of};

use crate::drafts::{Before, Known, Reached, Stop};
use crate::lists::LineList;
use text_model::TagSet;

impl Before {
    /// Before the first line, where none is on.
    fn first() -> Before
        ensures { (lines : List LineContent) → IsBefore lines result }
    {
        Before {
            line: 0,
            tags: TagSet::empty(),
        }
    }

    /// Goes to a line. The list stays as it is while it has a draft, so of the same line it isn't asked again.
    fn go_to<L: LineList>(&mut self, list: &L, line: usize)
        requires within { line ≤ length (L.lines list.now) }
        requires before { IsBefore (L.lines list.now) self.old }
        ensures before { IsBefore (L.lines list.now) self.new }
        ensures line { self.new.line ≡ line }
    {
        if line != self.line {
            self.tags = list.odd_slots(line);
            self.line = line;
        }
    }

    /// Turns in a set the slots that are on before a line: none before the first, for which the last answer stays.
    fn turn<L: LineList>(&mut self, list: &L, line: usize, slots: &mut TagSet)
        requires within { line ≤ length (L.lines list.now) }
        requires before { IsBefore (L.lines list.now) self.old }
        ensures before { IsBefore (L.lines list.now) self.new }
        ensures turned { slots.new ≡ differing slots.old (count_of (take line (L.lines list.now))).parity }
    {
        if line == 0 {
            return;
        }
        self.go_to(list, line);
        slots.flip(&self.tags);
    }
}

impl Reached {
    /// Turns in a set the slots that are toggled an odd number of times in so many kept lines that follow.
    pub fn turn_kept<L: LineList>(
        &self,
        list: &L,
        before: &mut Before,
        count: usize,
        slots: &mut TagSet,
    )
        requires there { self.now.used + count ≤ length (L.lines list.now) }
        requires before { IsBefore (L.lines list.now) before.old }
        ensures before { IsBefore (L.lines list.now) before.new }
        ensures turned { slots.new ≡ differing slots.old
            (tags_left_of (whole (take count (drop self.now.used (L.lines list.now)))).columns) }
    {
        if count == 0 {
            return;
        }
        before.turn(list, self.used, slots);
        before.turn(list, self.used + count, slots);
    }
}

impl Stop {
    /// Turns in a set the slots that are toggled an odd number of times in the copy's line and in those kept before it.
    fn turn_slots<L: LineList>(&self, list: &L, before: &mut Before, slots: &mut TagSet)
        requires there { self.now.reached.used + covered self.now.copy ≤ length (L.lines list.now) }
        requires before { IsBefore (L.lines list.now) before.old }
        ensures before { IsBefore (L.lines list.now) before.new }
        ensures turned { slots.new ≡ differing slots.old (copy_tags (L.lines list.now) self.now) }
    {
        self.reached.turn_kept(list, before, self.copy.kept, slots);
        self.copy.line.turn_odd_slots(slots);
    }
}

impl Known {
    /// Of no copy.
    pub fn nothing() -> Known
        ensures { (lines : List LineContent) (stops : List Stop) → IsKnown lines stops result }
    {
        Known {
            count: 0,
            tags: TagSet::empty(),
            before: Before::first(),
        }
    }

    /// Goes on by one copy after the other, to so many.
    fn forth_to<L: LineList>(&mut self, list: &L, stops: &[Stop], count: usize)
        requires known { IsKnown (L.lines list.now) stops.now self.old }
        requires stops { AreStops (L.lines list.now) [] stops.now }
        requires there { used (copies_of stops.now) ≤ length (L.lines list.now) }
        requires within { count ≤ length stops.now }
        ensures known { IsKnown (L.lines list.now) stops.now self.new }
        ensures count { self.new.count ≡ max self.old.count count }
    {
        while self.count < count {
            stops[self.count].turn_slots(list, &mut self.before, &mut self.tags);
            self.count += 1;
        }
    }

    /// Goes back by one copy after the other, to so many: to turn slots twice is to leave them.
    fn back_to<L: LineList>(&mut self, list: &L, stops: &[Stop], count: usize)
        requires known { IsKnown (L.lines list.now) stops.now self.old }
        requires stops { AreStops (L.lines list.now) [] stops.now }
        requires there { used (copies_of stops.now) ≤ length (L.lines list.now) }
        ensures known { IsKnown (L.lines list.now) stops.now self.new }
        ensures count { self.new.count ≡ min self.old.count count }
    {
        while count < self.count {
            self.count -= 1;
            stops[self.count].turn_slots(list, &mut self.before, &mut self.tags);
        }
    }

    /// Goes back before the last of some copies, if it's beyond it.
    pub fn leave_last<L: LineList>(&mut self, list: &L, stops: &[Stop])
        requires known { IsKnown (L.lines list.now) stops.now self.old }
        requires stops { AreStops (L.lines list.now) [] stops.now }
        requires there { used (copies_of stops.now) ≤ length (L.lines list.now) }
        ensures known { IsKnown (L.lines list.now) stops.now self.new }
        ensures left { self.new.count ≤ length stops.now - 1 }
    {
        self.back_to(list, stops, stops.len().saturating_sub(1));
    }

    /// The slots that are on behind all of some copies but the last.
    pub fn but_last<L: LineList>(&mut self, list: &L, stops: &[Stop]) -> TagSet
        requires known { IsKnown (L.lines list.now) stops.now self.old }
        requires stops { AreStops (L.lines list.now) [] stops.now }
        requires there { used (copies_of stops.now) ≤ length (L.lines list.now) }
        ensures known { IsKnown (L.lines list.now) stops.now self.new }
        ensures value { result ≡ tags_after (L.lines list.now) (take (length stops.now - 1) stops.now) }
    {
        let count = stops.len().saturating_sub(1);
        self.back_to(list, stops, count);
        self.forth_to(list, stops, count);
        self.tags
    }

    /// The slots that are on behind some copies.
    pub fn all<L: LineList>(&mut self, list: &L, stops: &[Stop]) -> TagSet
        requires known { IsKnown (L.lines list.now) stops.now self.old }
        requires stops { AreStops (L.lines list.now) [] stops.now }
        requires there { used (copies_of stops.now) ≤ length (L.lines list.now) }
        ensures known { IsKnown (L.lines list.now) stops.now self.new }
        ensures value { result ≡ tags_after (L.lines list.now) stops.now }
    {
        self.forth_to(list, stops, stops.len());
        self.tags
    }
}
