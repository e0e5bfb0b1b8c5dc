//! The calls on a report through its handle: each takes the report out, reads it and puts it back.
ghost use Rattle.std.specs.Prelude.{◌≡◌, None, length, min};
ghost use Rattle.handles.specs.Handles.{reported};
ghost use Rattle.handles.specs.Room.{over};
ghost use Rattle.handles.specs.Told.{mark_place_told, mark_told, owner_told, place_told, span_told, spot_told};
ghost use Rattle.handles.specs.Told.{tag_told, text_told, told_of, widget_told, MakesReport, MarkConcerns};

use crate::ends::MakeEnd;
use crate::report::Report;
use crate::report_handle::ReportHandle;
use peers::Spot;
use std::alloc::Global;
use text_model::Place;

impl ReportHandle {
    /// Makes an empty report in an empty handle.
    pub fn make(&mut self, alloc: Global) -> MakeEnd
        ensures { MakesReport (reported self.old) (reported self.new) result }
    {
        if self.full {
            return MakeEnd::WrongHandle;
        }
        match Box::new(alloc, Report::nothing(alloc)) {
            Ok(report) => {
                self.put(report);
                MakeEnd::Made
            }
            Err(_) => MakeEnd::Memory,
        }
    }

    /// Drops the report, if there is one, and leaves the handle empty.
    pub fn clear(&mut self, alloc: Global)
        ensures { reported self.new ≡ None }
    {
        if self.full {
            drop(self.take(alloc));
        }
    }

    /// Returns the number of changes of the text.
    pub fn count_changes(&mut self, alloc: Global) -> usize
        ensures count { result ≡ length (told_of (reported self.old)).changes }
        ensures unchanged { reported self.new ≡ reported self.old }
    {
        if !self.full {
            return 0;
        }
        let report = self.take(alloc);
        let count = report.count_changes();
        self.put(report);
        count
    }

    /// The offset of a change, and how many characters it deleted; 0 if there is no such change.
    pub fn change_place(&mut self, alloc: Global, index: usize) -> (usize, usize)
        ensures place { result ≡ place_told (told_of (reported self.old)).changes index }
        ensures unchanged { reported self.new ≡ reported self.old }
    {
        if !self.full {
            return (0, 0);
        }
        let report = self.take(alloc);
        let place = report.change_place(index);
        self.put(report);
        place
    }

    /// Copies the prefix of a change's inserted text that fits into the buffer, and returns the text's length.
    pub fn copy_inserted(&mut self, alloc: Global, index: usize, room: &mut [u8]) -> usize
        ensures length { result ≡ min (length (text_told (told_of (reported self.old)).changes index)) usize.MAX }
        ensures copied { room.new ≡ over (text_told (told_of (reported self.old)).changes index) room.old }
        ensures unchanged { reported self.new ≡ reported self.old }
    {
        if !self.full {
            return 0;
        }
        let report = self.take(alloc);
        let length = report.copy_inserted(index, room);
        self.put(report);
        length
    }

    /// One of the ends of a change, by its number; zeros if there is no such change.
    pub fn change_spot(&mut self, alloc: Global, index: usize, end: usize) -> Spot
        ensures spot { result ≡ spot_told (told_of (reported self.old)).changes index end }
        ensures unchanged { reported self.new ≡ reported self.old }
    {
        if !self.full {
            return Spot {
                line: 0,
                column: 0,
                bytes: 0,
                units: 0,
            };
        }
        let report = self.take(alloc);
        let spot = report.change_spot(index, end);
        self.put(report);
        spot
    }

    /// Returns the number of changes of tags.
    pub fn count_tags(&mut self, alloc: Global) -> usize
        ensures count { result ≡ length (told_of (reported self.old)).tags }
        ensures unchanged { reported self.new ≡ reported self.old }
    {
        if !self.full {
            return 0;
        }
        let report = self.take(alloc);
        let count = report.count_tags();
        self.put(report);
        count
    }

    /// Copies the prefix of the name of a tag change's tag that fits into the buffer, and returns the name's length.
    pub fn copy_tag(&mut self, alloc: Global, index: usize, room: &mut [u8]) -> usize
        ensures length { result ≡ min (length (tag_told (told_of (reported self.old)).tags index)) usize.MAX }
        ensures copied { room.new ≡ over (tag_told (told_of (reported self.old)).tags index) room.old }
        ensures unchanged { reported self.new ≡ reported self.old }
    {
        if !self.full {
            return 0;
        }
        let report = self.take(alloc);
        let length = report.copy_tag(index, room);
        self.put(report);
        length
    }

    /// Copies the name of the widget whose `sel` the tag is in the same way; nothing for any other tag.
    pub fn copy_tag_widget(&mut self, alloc: Global, index: usize, room: &mut [u8]) -> usize
        ensures length { result ≡ min (length (widget_told (told_of (reported self.old)).tags index)) usize.MAX }
        ensures copied { room.new ≡ over (widget_told (told_of (reported self.old)).tags index) room.old }
        ensures unchanged { reported self.new ≡ reported self.old }
    {
        if !self.full {
            return 0;
        }
        let report = self.take(alloc);
        let length = report.copy_tag_widget(index, room);
        self.put(report);
        length
    }

    /// Where a tag change starts and ends, and whether it adds the tag; zeros if there is no such change.
    pub fn tag_span(&mut self, alloc: Global, index: usize) -> (usize, usize, bool)
        ensures span { result ≡ span_told (told_of (reported self.old)).tags index }
        ensures unchanged { reported self.new ≡ reported self.old }
    {
        if !self.full {
            return (0, 0, false);
        }
        let report = self.take(alloc);
        let span = report.tag_span(index);
        self.put(report);
        span
    }

    /// Returns the number of marks.
    pub fn count_marks(&mut self, alloc: Global) -> usize
        ensures count { result ≡ length (told_of (reported self.old)).marks }
        ensures unchanged { reported self.new ≡ reported self.old }
    {
        if !self.full {
            return 0;
        }
        let report = self.take(alloc);
        let count = report.count_marks();
        self.put(report);
        count
    }

    /// Copies the prefix of a mark's name that fits into the buffer, and returns the name's length.
    pub fn copy_mark(&mut self, alloc: Global, index: usize, room: &mut [u8]) -> usize
        ensures length { result ≡ min (length (mark_told (told_of (reported self.old)).marks index)) usize.MAX }
        ensures copied { room.new ≡ over (mark_told (told_of (reported self.old)).marks index) room.old }
        ensures unchanged { reported self.new ≡ reported self.old }
    {
        if !self.full {
            return 0;
        }
        let report = self.take(alloc);
        let length = report.copy_mark(index, room);
        self.put(report);
        length
    }

    /// Copies the name of the widget whose `insert` or `current` the mark is in the same way; nothing for any other
    /// mark.
    pub fn copy_mark_widget(&mut self, alloc: Global, index: usize, room: &mut [u8]) -> usize
        ensures length { result ≡ min (length (owner_told (told_of (reported self.old)).marks index)) usize.MAX }
        ensures copied { room.new ≡ over (owner_told (told_of (reported self.old)).marks index) room.old }
        ensures unchanged { reported self.new ≡ reported self.old }
    {
        if !self.full {
            return 0;
        }
        let report = self.take(alloc);
        let length = report.copy_mark_widget(index, room);
        self.put(report);
        length
    }

    /// Where a mark is before the command (0), or after it (1 and above); None if it isn't there, or there is no such
    /// mark.
    pub fn mark_place(&mut self, alloc: Global, index: usize, end: usize) -> Option<Place>
        ensures place { result ≡ mark_place_told (told_of (reported self.old)).marks index end }
        ensures unchanged { reported self.new ≡ reported self.old }
    {
        if !self.full {
            return None;
        }
        let report = self.take(alloc);
        let place = report.mark_place(index, end);
        self.put(report);
        place
    }

    /// Whether a mark concerns the widget of a name, which the report concerns.
    pub fn concerns_mark(&mut self, alloc: Global, index: usize, name: &[u8]) -> bool
        ensures told { MarkConcerns (reported self.old) index name.now result }
        ensures unchanged { reported self.new ≡ reported self.old }
    {
        if !self.full {
            return false;
        }
        let report = self.take(alloc);
        let told = report.concerns_mark(index, name);
        self.put(report);
        told
    }
}
