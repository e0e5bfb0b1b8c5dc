//! The calls on a world through its handle: each takes the session out, works on it and puts it back.
ghost use Rattle.std.specs.Prelude.{◌≡◌, None, true, false, length, min, option_map};
ghost use Rattle.handles.specs.Calls.{Makes, Calls, Feeds, Takes, Tells, can_by, finished};
ghost use Rattle.handles.specs.Handles.{reported, said_of, state, status_of};
ghost use Rattle.handles.specs.Room.{over};
ghost use Rattle.handles.specs.Told.{word_given, words_of, CallsTold, Concerns, MovesReport, TakesTold};

use crate::ends::{CallEnd, FeedEnd, MakeEnd, MoveEnd, TurnEnd, Way};
use crate::handle::Handle;
use crate::report_handle::ReportHandle;
use crate::session::Session;
use std::alloc::Global;
use text_model::Limits;

impl Handle {
    /// Makes a world without documents, of these limits, in an empty handle.
    pub fn make(
        &mut self,
        alloc: Global,
        chars: usize,
        tags: u16,
        marks: u16,
        widgets: u16,
    ) -> MakeEnd
        ensures { Makes (state self.old)
            (record { chars = chars; tags = tags; marks = marks; widgets = widgets; reads = 0 })
            (state self.new) result }
    {
        let Some(limits) = Limits::new(chars, tags, marks, widgets, 0) else {
            return MakeEnd::WrongLimits;
        };
        if self.full {
            return MakeEnd::WrongHandle;
        }
        match Box::new(alloc, Session::new(alloc, limits)) {
            Ok(session) => {
                self.put(session);
                MakeEnd::Made
            }
            Err(_) => MakeEnd::Memory,
        }
    }

    /// Carries out a command, and keeps its report where `tells` asks for it, with its marks where `marks` does.
    #[inline(always)]
    pub fn call(
        &mut self,
        alloc: Global,
        tells: bool,
        marks: bool,
        bytes: &[u8],
        lengths: &[usize],
    ) -> CallEnd
        ensures plain { tells ≡ false → Calls (state self.old) lengths.now bytes.now (state self.new) result }
        ensures told { tells ≡ true →
            CallsTold marks (state self.old) lengths.now bytes.now (state self.new) result }
    {
        if !self.full {
            return CallEnd::WrongHandle;
        }
        let mut session = self.take(alloc);
        let ended = session.call_bytes(alloc, tells, marks, bytes, lengths);
        self.put(session);
        ended
    }

    /// Copies the prefix of the last output that fits into the buffer, and returns the length of that output.
    pub fn copy_said(&mut self, alloc: Global, room: &mut [u8]) -> usize
        ensures length { result ≡ min (length (said_of (state self.old))) usize.MAX }
        ensures copied { room.new ≡ over (said_of (state self.old)) room.old }
        ensures unchanged { state self.new ≡ state self.old }
    {
        if !self.full {
            return 0;
        }
        let session = self.take(alloc);
        let length = session.copy_said(room);
        self.put(session);
        length
    }

    /// Copies the prefix of a word of the last command that fits into the buffer, and returns the word's length.
    pub fn copy_word(&mut self, alloc: Global, index: usize, room: &mut [u8]) -> usize
        ensures length { result ≡ min (length (word_given (words_of (state self.old)) index)) usize.MAX }
        ensures copied { room.new ≡ over (word_given (words_of (state self.old)) index) room.old }
        ensures unchanged { state self.new ≡ state self.old }
    {
        if !self.full {
            return 0;
        }
        let session = self.take(alloc);
        let length = session.copy_word(index, room);
        self.put(session);
        length
    }

    /// Moves what a session reports into a report.
    pub fn move_report(&mut self, alloc: Global, into: &mut ReportHandle) -> MoveEnd
        ensures { MovesReport (state self.old) (reported into.old) (state self.new) (reported into.new) result }
    {
        if !self.full || !into.full {
            return MoveEnd::WrongHandle;
        }
        let mut session = self.take(alloc);
        let mut report = into.take(alloc);
        *report = session.take_report(alloc);
        self.put(session);
        into.put(report);
        MoveEnd::Moved
    }

    /// Whether a report, which was just moved out of the session, concerns the widget of a name.
    pub fn concerns(&mut self, alloc: Global, report: &mut ReportHandle, name: &[u8]) -> bool
        ensures told { Concerns (state self.old) (reported report.old) name.now result }
        ensures unchanged { state self.new ≡ state self.old }
        ensures kept { reported report.new ≡ reported report.old }
    {
        if !self.full || !report.full {
            return false;
        }
        let session = self.take(alloc);
        let taken = report.take(alloc);
        let told = session.concerns(&taken, name);
        self.put(session);
        report.put(taken);
        told
    }

    /// Whether `edit undo` or `edit redo` would find a group in the text that the widget of a name shows.
    pub fn can(&mut self, alloc: Global, way: Way, name: &[u8]) -> Option<bool>
        ensures told { Tells (can_by way) (state self.old) name.now result }
        ensures unchanged { state self.new ≡ state self.old }
    {
        if !self.full {
            return None;
        }
        let session = self.take(alloc);
        let told = session.can(way, name);
        self.put(session);
        told
    }

    /// Feeds bytes of a script.
    pub fn feed(&mut self, alloc: Global, bytes: &[u8]) -> FeedEnd
        ensures { Feeds (state self.old) bytes.now (state self.new) result }
    {
        if !self.full {
            return FeedEnd::WrongHandle;
        }
        let mut session = self.take(alloc);
        let ended = session.feed(bytes);
        self.put(session);
        ended
    }

    /// Ends the script, and so its last command.
    pub fn finish(&mut self, alloc: Global)
        ensures { state self.new ≡ option_map finished (state self.old) }
    {
        if self.full {
            let mut session = self.take(alloc);
            session.finish();
            self.put(session);
        }
    }

    /// Takes the next turn of the script, and keeps its report where `tells` asks for it, with its marks where `marks`
    /// does.
    pub fn take_turn(&mut self, alloc: Global, tells: bool, marks: bool) -> TurnEnd
        ensures plain { tells ≡ false → Takes (state self.old) (state self.new) result }
        ensures told { tells ≡ true → TakesTold marks (state self.old) (state self.new) result }
    {
        if !self.full {
            return TurnEnd::WrongHandle;
        }
        let mut session = self.take(alloc);
        let ended = session.take_turn(alloc, tells, marks);
        self.put(session);
        ended
    }

    /// Returns the exit status of the script so far; 255 where the handle is empty.
    pub fn status(&mut self, alloc: Global) -> i32
        ensures status { result ≡ status_of (state self.old) }
        ensures unchanged { state self.new ≡ state self.old }
    {
        if !self.full {
            return 255;
        }
        let session = self.take(alloc);
        let status = session.status();
        self.put(session);
        i32::from(status)
    }

    /// Drops the world, if there is one, and leaves the handle empty.
    pub fn clear(&mut self, alloc: Global)
        ensures { state self.new ≡ None }
    {
        if self.full {
            drop(self.take(alloc));
        }
    }
}
