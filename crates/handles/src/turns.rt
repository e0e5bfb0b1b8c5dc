//! What each call from C makes of a session.
ghost use Rattle.std.specs.Prelude.{◌≡◌, ◌≢◌, ◌<◌, true, false, if◌then◌else◌, [], Some, min, length, vec_len};
ghost use Rattle.std.specs.Prelude.{chars, encode_utf8_all};
ghost use Rattle.tcl_words.specs.Unread.{texts_of};
ghost use Rattle.script_cli.specs.Lines.{piece};
ghost use Rattle.handles.specs.Calls.{Called, Fed, Gives, Tells, Turns, can_by, finished, given_of, status_after};
ghost use Rattle.handles.specs.Told.{CalledTold, Concerns, GivesTold, TurnsTold, concerns, untold};
ghost use Rattle.handles.specs.Told.{word_given, RepliesTold};
ghost use Rattle.handles.specs.Room.{over};
ghost use Rattle.handles.specs.State.{said_text, start, state_of, telling_of};

use crate::ends::{CallEnd, FeedEnd, Given, TurnEnd, Way};
use crate::report::Report;
use crate::room::{copy_line, copy_two, copy_whole};
use crate::session::{Said, Session};
use crate::words::{WordsFault, read_words};
use peers::{Answer, Fault, World};
use script_cli::Line;
use std::alloc::Global;
use std::mem;
use tcl_words::{ScriptFault, Splitter};
use text_model::Limits;

/// The number of words of a command that keep their memory for a later one.
const FEW_WORDS: usize = 16;

/// The capacity, in bytes, up to which a word keeps its memory.
const FEW_BYTES: usize = 256;

impl Session {
    /// A session in a world without documents. It takes no memory.
    pub(crate) fn new(alloc: Global, limits: Limits) -> Session
        ensures { state_of result ≡ start limits }
    {
        Session {
            world: World::new(alloc, limits),
            splitter: Splitter::new(alloc),
            is_finished: false,
            words: Vec::new(alloc),
            spare: Vec::new(alloc),
            said: Said::Nothing,
            report: Report::nothing(alloc),
            status: 0,
        }
    }

    /// Carries out the command of some words, whose bytes follow one another, and keeps its report if that is wanted,
    /// with its marks if these are too.
    pub(crate) fn call_bytes(
        &mut self,
        alloc: Global,
        tells: bool,
        marks: bool,
        bytes: &[u8],
        lengths: &[usize],
    ) -> CallEnd
        ensures plain { tells ≡ false → Called (state_of self.old) lengths.now bytes.now (state_of self.new) result }
        ensures told { tells ≡ true →
            CalledTold marks (state_of self.old) lengths.now bytes.now (state_of self.new) result }
    {
        self.forget_told(alloc, tells);
        let spare = mem::replace(&mut self.spare, Vec::new(alloc));
        match read_words(alloc, spare, bytes, lengths) {
            Ok(words) => CallEnd::Given(self.call(tells, marks, words)),
            Err(WordsFault::Memory) => {
                self.said = Said::Reply(Err(Fault::Memory));
                CallEnd::Given(Given::Memory)
            }
            Err(WordsFault::NotText) => CallEnd::NotText,
            Err(WordsFault::Lengths) => CallEnd::WrongLengths,
        }
    }

    /// Forgets what was told last, where the next command tells.
    #[inline(always)]
    fn forget_told(&mut self, alloc: Global, tells: bool)
        ensures { state_of self.new ≡ (if tells then untold (state_of self.old) else state_of self.old) }
    {
        if tells {
            self.report = Report::nothing(alloc);
        }
    }

    /// Carries out the command of some words, and keeps its report where that is wanted, with its marks where these
    /// are too.
    #[inline(always)]
    fn call(&mut self, tells: bool, marks: bool, words: Vec<String>) -> Given
        requires { 0 < vec_len words }
        ensures plain { tells ≡ false → Gives (state_of self.old) (texts_of words.items) (state_of self.new) result }
        ensures told { tells ≡ true →
            GivesTold marks (state_of self.old) (texts_of words.items) (state_of self.new) result }
    {
        let reply = if tells {
            self.call_told(marks, &words)
        } else {
            self.world.call(&words)
        };
        self.say(words, reply)
    }

    /// Returns the reply to the command of some words, and keeps its report, with its marks where these are wanted.
    fn call_told(&mut self, marks: bool, words: &[String]) -> Result<Answer, Fault>
        requires { 0 < length words.now }
        ensures { RepliesTold marks (state_of self.old) (texts_of words.now) (state_of self.new) result }
    {
        let homes = self.world.homes_before(words, marks)?;
        let told = self.world.call_told(words, marks)?;
        self.report = Report {
            edit: told.edit,
            marks: told.marks,
            text: self.world.home_of_words(words),
            homes,
        };
        Ok(told.answer)
    }

    /// Moves the report out, and leaves none. It allocates nothing.
    pub(crate) fn take_report(&mut self, alloc: Global) -> Report
        ensures report { telling_of result ≡ (state_of self.old).told }
        ensures left { state_of self.new ≡ untold (state_of self.old) }
    {
        mem::replace(&mut self.report, Report::nothing(alloc))
    }

    /// Whether a report of the last command concerns the widget of a name.
    fn concerns_named(&self, report: &Report, name: &str) -> bool
        ensures { result ≡ concerns (state_of self.now).world (telling_of report.now) (chars name.now) }
    {
        match self.world.home(name) {
            None => false,
            Some(place) => report.is_of(place) || report.has_lost(name),
        }
    }

    /// The same of a name in UTF-8; false if it is no such name. It allocates nothing.
    pub(crate) fn concerns(&self, report: &Report, name: &[u8]) -> bool
        ensures { Concerns (Some (state_of self.now)) (Some (telling_of report.now)) name.now result }
    {
        let Ok(name) = str::from_utf8(name) else {
            return false;
        };
        self.concerns_named(report, name)
    }

    /// Says what the command of some words was given.
    fn say(&mut self, words: Vec<String>, reply: Result<Answer, Fault>) -> Given
        ensures state { state_of self.new
            ≡ record (state_of self.old) {
              words = texts_of words.items;
              said = encode_utf8_all (piece (texts_of words.items) reply);
            } }
        ensures given { result ≡ given_of reply }
    {
        let given = given_by(&reply);
        keep_room(&mut self.words, &mut self.spare);
        self.words = words;
        self.said = Said::Reply(reply);
        given
    }

    /// Copies a word of the command that was given last to the front of the room, as far as it goes, and gives the
    /// length of all.
    pub(crate) fn copy_word(&self, index: usize, room: &mut [u8]) -> usize
        ensures length { result ≡ min (length (word_given (state_of self.now).words index)) usize.MAX }
        ensures copied { room.new ≡ over (word_given (state_of self.now).words index) room.old }
    {
        match self.words.as_slice().get(index) {
            None => 0,
            Some(word) => copy_whole(word.as_str(), room),
        }
    }

    /// Whether `edit undo` or `edit redo` would find a group in the text that the widget of a name shows.
    pub(crate) fn can(&self, way: Way, name: &[u8]) -> Option<bool>
        ensures { Tells (can_by way) (Some (state_of self.now)) name.now result }
    {
        let Ok(name) = str::from_utf8(name) else {
            return None;
        };
        match way {
            Way::Undo => self.world.can_undo(name),
            Way::Redo => self.world.can_redo(name),
        }
    }

    /// Takes the next bytes of the script.
    pub(crate) fn feed(&mut self, bytes: &[u8]) -> FeedEnd
        ensures { Fed (state_of self.old) bytes.now (state_of self.new) result }
    {
        if self.is_finished {
            return FeedEnd::Finished;
        }
        match self.splitter.feed(bytes) {
            Ok(()) => FeedEnd::Fed,
            Err(_) => FeedEnd::Memory,
        }
    }

    /// Ends the script.
    pub(crate) fn finish(&mut self)
        ensures { state_of self.new ≡ finished (state_of self.old) }
    {
        self.splitter.finish();
        self.is_finished = true;
    }

    /// Carries out the next command of the script, if all of it was fed, and keeps its report if that is wanted, with
    /// its marks if these are too.
    pub(crate) fn take_turn(&mut self, alloc: Global, tells: bool, marks: bool) -> TurnEnd
        ensures plain { tells ≡ false → Turns (state_of self.old) (state_of self.new) result }
        ensures told { tells ≡ true → TurnsTold marks (state_of self.old) (state_of self.new) result }
    {
        self.forget_told(alloc, tells);
        match self.splitter.next_command() {
            Ok(Some(words)) => {
                let given = self.call(tells, marks, words);
                self.note(given);
                TurnEnd::Command(given)
            }
            Ok(None) => {
                self.said = Said::Nothing;
                TurnEnd::End
            }
            Err(ScriptFault::Memory) => self.skip(),
            Err(fault) => self.stop(fault),
        }
    }

    /// Drops a command whose words found no memory.
    fn skip(&mut self) -> TurnEnd
        ensures turns { Turns (state_of self.old) (state_of self.new) result }
        ensures refused { result ≢ TurnEnd.Command Given.Answer }
    {
        match self.splitter.skip_command() {
            Ok(true) => {
                self.said = Said::Reply(Err(Fault::Memory));
                self.note(Given::Memory);
                TurnEnd::Command(Given::Memory)
            }
            Ok(false) => {
                self.said = Said::Nothing;
                TurnEnd::End
            }
            Err(fault) => self.stop(fault),
        }
    }

    /// Says the fault of the script, which ends it.
    fn stop(&mut self, fault: ScriptFault) -> TurnEnd
        ensures state { state_of self.new
            ≡ record (state_of self.old) { said = said_text [] (Said.Fault fault); status = 2 } }
        ensures turn { result ≡ TurnEnd.Fault }
    {
        self.said = Said::Fault(fault);
        self.status = 2;
        TurnEnd::Fault
    }

    /// Notes in the script's status what a command was given.
    fn note(&mut self, given: Given)
        ensures { state_of self.new ≡ record (state_of self.old) { status = status_after given self.old.status } }
    {
        match given {
            Given::Answer => {}
            _ => self.status = self.status.max(1),
        }
    }

    /// The exit status of the script so far.
    pub(crate) fn status(&self) -> u8
        ensures { result ≡ self.now.status }
    {
        self.status
    }

    /// Copies what was said last to the front of the room, as far as it goes, and gives the length of all.
    pub(crate) fn copy_said(&self, room: &mut [u8]) -> usize
        ensures length { result ≡ min (length (state_of self.now).said) usize.MAX }
        ensures copied { room.new ≡ over (state_of self.now).said room.old }
    {
        match &self.said {
            Said::Nothing => 0,
            // Most replies are a text or none: for these no line is made.
            Said::Reply(Ok(Answer::Empty)) => copy_whole("\n", room),
            Said::Reply(Ok(Answer::Text(text))) => copy_two(text.as_str(), "\n", room),
            Said::Reply(reply) => copy_line(&Line::of_reply(&self.words, reply), room),
            Said::Fault(fault) => copy_line(&Line::of_script_fault(*fault), room),
        }
    }
}

fn given_by(reply: &Result<Answer, Fault>) -> Given
    ensures { result ≡ given_of reply.now }
{
    match reply {
        Ok(_) => Given::Answer,
        Err(Fault::Memory) => Given::Memory,
        Err(_) => Given::Fault,
    }
}

/// Makes the words of an earlier call spare ones, whose list and strings the next call uses again. No world holds more
/// than it needs: words after the first few are dropped, and the memory of long ones is freed. What was spare is to be
/// replaced.
fn keep_room(words: &mut Vec<String>, spare: &mut Vec<String>) {
    words.truncate(FEW_WORDS);
    words.shrink_to(FEW_WORDS);
    for word in words.iter_mut() {
        if word.capacity() > FEW_BYTES {
            word.clear();
            word.shrink_to_fit();
        }
    }
    mem::swap(words, spare);
}
