//! Searches, counts and dumps of a widget's view, as lists.

ghost use Rattle.std.specs.Prelude.{◌≡◌, ◌-◌, ◌<◌, ◌≤◌, length, chars, Ok, IfOk, IfSome};
ghost use Rattle.documents.specs.Documents.{widget_at};
ghost use Rattle.documents.specs.Views.{shown};
ghost use Rattle.search_dump.specs.Counts.{counted};
ghost use Rattle.search_dump.specs.Dump.{dump_elements};
ghost use Rattle.search_dump.specs.Matches.{search_result};
ghost use Rattle.documents.specs.Queries.{seen};
ghost use Rattle.tcl_words.specs.ListText.{list_text};

use crate::documents::Document;
use crate::views::view_of;
use search_dump::{Counted, Listed, SearchSwitches, Sight, count, dump, search};
use std::alloc::AllocError;
use text_index::Names;
use text_model::{TagSlot, Text, TextStore};

impl<S: TextStore> Document<S> {
    /// Where a pattern stands, from a place on and up to a stop, as a list of places.
    pub fn matches_of(
        &self,
        seat: usize,
        switches: SearchSwitches,
        pattern: &str,
        from: usize,
        stop: Option<usize>,
    ) -> Result<Text, AllocError>
        requires shown { seat < length self.now.widgets }
        requires from { from ≤ length (shown self.now (widget_at self.now seat)) }
        requires stop { IfSome stop (λ place. place ≤ length (shown self.now (widget_at self.now seat))) }
        ensures { IfOk result (λ list. list
            ≡ list_text (search_result switches (chars pattern.now) (shown self.now (widget_at self.now seat)) from
            stop)) }
    {
        let view = self.view_at(seat);
        Ok(Text::new(search(self.alloc, &view, switches, pattern, from, stop)?))
    }

    /// How much further one place is than another, as a list of numbers.
    #[inline(always)]
    pub fn counts_of(
        &self,
        seat: usize,
        options: &[Counted],
        from: usize,
        to: usize,
    ) -> Result<Text, AllocError>
        requires shown { seat < length self.now.widgets }
        requires from { from ≤ length (shown self.now (widget_at self.now seat)) }
        requires to { to ≤ length (shown self.now (widget_at self.now seat)) }
        ensures { IfOk result (λ list. list
            ≡ list_text (counted options.now (shown self.now (widget_at self.now seat)) from to)) }
    {
        let view = self.view_at(seat);
        Ok(Text::new(count(self.alloc, &view, options, from, to)?))
    }

    /// The tags, marks and texts from one place to another, as a list.
    pub fn elements_of(
        &self,
        seat: usize,
        listed: Listed,
        from: usize,
        to: usize,
    ) -> Result<Text, AllocError>
        requires shown { seat < length self.now.widgets }
        requires from { from ≤ length (shown self.now (widget_at self.now seat)) }
        requires to { to ≤ length (shown self.now (widget_at self.now seat)) }
        ensures { IfOk result (λ list. list
            ≡ list_text (dump_elements listed (seen self.now (widget_at self.now seat)) from to)) }
    {
        let slot = self.seats.number(seat);
        let view = view_of(&self.text.store, &self.text.anchors, slot).lined();
        let names = Names {
            tags: &self.tags,
            marks: &self.marks,
            widget: TagSlot(slot),
        };
        let sight = Sight {
            view: &view,
            names: &names,
        };
        Ok(Text::new(dump(self.alloc, &sight, listed, from, to)?))
    }
}
