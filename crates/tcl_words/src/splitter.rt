//! Splits a script, fed in pieces of any length, into commands of words.

ghost use Rattle.std.specs.Prelude.{◌≡◌, ◌≢◌, ◌<◌, ◌≤◌, List, ℕ, length, take, drop, IsUtf8, vec_len, ◌+◌, true, false};
ghost use Rattle.std.specs.Prelude.{IfOk, IfErr, OnOk, OnErr, IsSome, IsOk, IfSome, IfNone};
ghost use Rattle.tcl_words.specs.Progression.{IsCommandOf, IsFound};
ghost use Rattle.tcl_words.specs.Unread.{nothing_fed, fed, TakesCommand, HasNoCommand, HasNoFault, StopsAt, texts_of};

use crate::fault::ScriptFault;
use crate::pieces::words_of;
use crate::plain_words::{leave_long, plain_command};
use crate::progress::Progress;
use std::alloc::{AllocError, Global};
use std::marker::Model;

/// Splits a script, which comes in pieces of any length, into commands of words.
///
/// What contracts see is what is still to be given: the bytes not yet given as commands, whether the script ends
/// with them, and the script fault that was met. The bytes of commands that were given go with a later piece, so that a
/// splitter whose commands are taken as they come needs memory for its longest command alone.
#[derive(Drop)]
pub struct Splitter {
    // what was fed, but for bytes at its front that were given as commands
    script: Vec<u8>,
    // how many bytes at the front of that were given since
    given: usize,
    // how far the bytes after them were read
    progress: Progress,
    finished: bool,
    fault: Option<ScriptFault>,
}

impl Model for Splitter {
    ghost use Rattle.std.specs.Prelude.{◌≡◌, ◌≤◌, ◌≢◌, Some, vec_len, drop};
    ghost use Rattle.tcl_words.specs.Unread.{Unread};
    ghost use Rattle.tcl_words.specs.Progression.{IsProgress};
    ghost use Rattle.tcl_words.specs.declared.fault.ScriptFault.TheVariants.{Memory};

    ghost Value = { Unread };

    ghost view = { λ s. record { rest = drop s.given s.script.items; finished = s.finished; fault = s.fault } };

    ghost invariant = { λ s. (s.given ≤ vec_len s.script) × (s.fault ≢ Some Memory)
        × IsProgress (drop s.given s.script.items) s.progress };
}

impl Splitter {
    // Room for so many bytes isn't given back.
    const ROOM: usize = 16_384;

    // So many bytes don't wait for the next piece.
    const MANY: usize = 65_536;

    /// A splitter of a script of which nothing has come. It takes no memory.
    pub fn new(alloc: Global) -> Self
        ensures { result ≡ nothing_fed }
    {
        Splitter {
            script: Vec::new(alloc),
            given: 0,
            progress: Progress::starting(0),
            finished: false,
            fault: None,
        }
    }

    /// Takes the next piece of the script, of any number of bytes. After a script fault it changes nothing.
    pub fn feed(&mut self, piece: &[u8]) -> Result<(), AllocError>
        requires { self.old.finished ≡ false }
        ensures ok { OnOk result (self.new ≡ fed self.old piece.now) }
        ensures err { OnErr result (self.new ≡ self.old) }
        ensures stopped { IsSome self.old.fault → IsOk result }
    {
        if self.fault.is_none() {
            self.leave_given();
            self.script.extend_from_slice(piece)?;
        }
        Ok(())
    }

    // Drops the bytes that were given, once those that are left are no more, so that a byte is moved only for one that
    // goes. Room of which less than a quarter is needed goes with them.
    fn leave_given(&mut self)
        ensures { self.new ≡ self.old }
    {
        let left = self.script.len() - self.given;
        if self.given < left {
            return;
        }
        remove_front(&mut self.script, self.given);
        self.given = 0;
        let room = left.max(Splitter::ROOM);
        if self.script.capacity() / 4 > room {
            self.script.shrink_to(room);
        }
    }

    /// Ends the script, and so its last command. A second call changes nothing. It takes no memory.
    pub fn finish(&mut self)
        ensures { self.new ≡ record self.old { finished = true } }
    {
        self.finished = true;
    }

    /// Takes the next command: before the end of the script the next whole one, and then also the last. `None` where
    /// none is left and no fault comes next. After want of memory nothing has changed; after a script fault each call
    /// answers that fault.
    pub fn next_command(&mut self) -> Result<Option<Vec<String>>, ScriptFault>
        ensures command { IfOk result (λ found. IfSome found (λ words.
            TakesCommand self.old (texts_of words.items) self.new)) }
        ensures words { IfOk result (λ found. IfSome found (λ words. 0 < vec_len words)) }
        ensures shorter { IfOk result (λ found. IsSome found → length self.new.rest < length self.old.rest) }
        ensures none { IfOk result (λ found. IfNone found
            ((self.new ≡ self.old) × (self.old.fault ≡ None) × HasNoCommand self.old.finished self.old.rest)) }
        ensures no_fault { IfOk result (λ found. IfNone found (HasNoFault self.old.finished self.old.rest)) }
        ensures fault { IfErr result (λ fault. fault ≢ ScriptFault.Memory → StopsAt self.old fault self.new) }
        ensures memory { result ≡ Err ScriptFault.Memory →
            (self.new ≡ self.old) × (self.old.fault ≡ None) × ¬ HasNoCommand self.old.finished self.old.rest }
        ensures again { IfSome self.old.fault (λ fault. result ≡ Err fault) }
    {
        let mut words = Vec::new(*self.script.allocator());
        if !self.read_command(&mut words)? {
            return Ok(None);
        }
        Ok(Some(words))
    }

    /// Takes the next command as `next_command` does, into `words`, and answers whether there was one. Whatever they
    /// were before, they are then its words alone; else nothing is said of them. The memory of those that were there
    /// is used again, but for long ones.
    pub fn read_command(&mut self, words: &mut Vec<String>) -> Result<bool, ScriptFault>
        ensures command { result ≡ Ok true → TakesCommand self.old (texts_of words.new.items) self.new }
        ensures words { result ≡ Ok true → 0 < vec_len words.new }
        ensures shorter { result ≡ Ok true → length self.new.rest < length self.old.rest }
        ensures none { result ≡ Ok false →
            (self.new ≡ self.old) × (self.old.fault ≡ None) × HasNoCommand self.old.finished self.old.rest }
        ensures no_fault { result ≡ Ok false → HasNoFault self.old.finished self.old.rest }
        ensures fault { IfErr result (λ fault. fault ≢ ScriptFault.Memory → StopsAt self.old fault self.new) }
        ensures memory { result ≡ Err ScriptFault.Memory →
            (self.new ≡ self.old) × (self.old.fault ≡ None) × ¬ HasNoCommand self.old.finished self.old.rest }
        ensures again { IfSome self.old.fault (λ fault. result ≡ Err fault) }
    {
        let found = self.find_words(words)?;
        if let Some(len) = found {
            self.pass(len);
        }
        Ok(found.is_some())
    }

    /// Drops the command that `next_command` would take and answers true, or answers false where none is left, or
    /// the script fault. It takes no memory.
    pub fn skip_command(&mut self) -> Result<bool, ScriptFault>
        ensures skipped { result ≡ Ok true → (words : List (List ℕ)) × TakesCommand self.old words self.new }
        ensures shorter { result ≡ Ok true → length self.new.rest < length self.old.rest }
        ensures none { result ≡ Ok false →
            (self.new ≡ self.old) × (self.old.fault ≡ None) × HasNoCommand self.old.finished self.old.rest }
        ensures no_fault { result ≡ Ok false → HasNoFault self.old.finished self.old.rest }
        ensures fault { IfErr result (λ fault. (fault ≢ ScriptFault.Memory) × StopsAt self.old fault self.new) }
        ensures again { IfSome self.old.fault (λ fault. result ≡ Err fault) }
    {
        let Some(len) = self.find_command()? else {
            return Ok(false);
        };
        self.pass(len);
        Ok(true)
    }

    // So many of the bytes that aren't given as commands yet, as text.
    fn front(&self, len: usize) -> &str
        requires within { len ≤ length self.now.rest }
        requires text { IsUtf8 (take len self.now.rest) }
        ensures { result.now ≡ take len self.now.rest }
    {
        let rest = &self.script[self.given..];
        unsafe { str::from_utf8_unchecked(&rest[..len]) }
    }

    // How many bytes the next command has, if there is one, with its words written over those that are there.
    fn find_words(&mut self, words: &mut Vec<String>) -> Result<Option<usize>, ScriptFault>
        ensures found { IfOk result (λ found. IfSome found (λ len.
            IsFound self.old (texts_of words.new.items) len)) }
        ensures none { IfOk result (λ found. IfNone found (HasNoCommand self.old.finished self.old.rest)) }
        ensures no_fault { IfOk result (λ found. IfNone found (HasNoFault self.old.finished self.old.rest)) }
        ensures same { OnOk result ((self.new ≡ self.old) × (self.old.fault ≡ None)) }
        ensures fault { IfErr result (λ fault. fault ≢ ScriptFault.Memory → StopsAt self.old fault self.new) }
        ensures memory { result ≡ Err ScriptFault.Memory →
            (self.new ≡ self.old) × (self.old.fault ≡ None) × ¬ HasNoCommand self.old.finished self.old.rest }
        ensures again { IfSome self.old.fault (λ fault. result ≡ Err fault) }
    {
        let alloc = *self.script.allocator();
        leave_long(alloc, words);
        let is_refused = match self.plain_command(words) {
            Ok(Some(len)) => return Ok(Some(len)),
            Ok(None) => false,
            Err(_) => true,
        };
        let Some(len) = self.find_command()? else {
            return Ok(None);
        };
        if is_refused {
            return Err(ScriptFault::Memory);
        }
        *words = words_of(alloc, self.front(len))?;
        Ok(Some(len))
    }

    // How many bytes the next command has, if nothing of it was read and it is of words that stand in it as they are.
    // They are written over those that are there.
    fn plain_command(&mut self, words: &mut Vec<String>) -> Result<Option<usize>, AllocError>
        ensures same { self.new ≡ self.old }
        ensures found { IfOk result (λ found. IfSome found (λ len.
            IsFound self.old (texts_of words.new.items) len)) }
    {
        let rest = &self.script[self.given..];
        if self.fault.is_some() || self.progress.seen > 0 {
            return Ok(None);
        }
        self.progress.read_text(rest);
        let text = unsafe { str::from_utf8_unchecked(&rest[..self.progress.valid]) };
        plain_command(*self.script.allocator(), text, words)
    }

    // How many bytes the next command has, if there is one. A fault is kept.
    fn find_command(&mut self) -> Result<Option<usize>, ScriptFault>
        ensures found { IfOk result (λ found. IfSome found (λ len. IsCommandOf self.old.finished self.old.rest len)) }
        ensures none { IfOk result (λ found. IfNone found (HasNoCommand self.old.finished self.old.rest)) }
        ensures no_fault { IfOk result (λ found. IfNone found (HasNoFault self.old.finished self.old.rest)) }
        ensures same { OnOk result ((self.new ≡ self.old) × (self.old.fault ≡ None)) }
        ensures fault { IfErr result (λ fault. (fault ≢ ScriptFault.Memory) × StopsAt self.old fault self.new) }
        ensures again { IfSome self.old.fault (λ fault. result ≡ Err fault) }
    {
        if let Some(fault) = self.fault {
            return Err(fault);
        }
        let found = self
            .progress
            .find_command(&self.script[self.given..], self.finished);
        if let Err(fault) = found {
            self.fault = Some(fault);
        }
        found
    }

    // Gives the next so many bytes.
    fn give(&mut self, len: usize)
        requires within { len ≤ length self.old.rest }
        requires text { IsUtf8 (take len self.old.rest) }
        ensures { self.new ≡ record self.old { rest = drop len self.old.rest } }
    {
        self.given += len;
        self.progress = Progress::starting(self.progress.valid.saturating_sub(len));
    }

    // Leaves the next so many bytes behind. Many go at once, so that no long command stands here while it is carried
    // out.
    fn pass(&mut self, len: usize)
        requires within { len ≤ length self.old.rest }
        requires text { IsUtf8 (take len self.old.rest) }
        ensures { self.new ≡ record self.old { rest = drop len self.old.rest } }
    {
        self.give(len);
        if self.given > Splitter::MANY {
            self.leave_given();
        }
    }
}

// Drops so many bytes of the front.
fn remove_front(bytes: &mut Vec<u8>, count: usize)
    requires { count ≤ vec_len bytes.old }
    ensures items { bytes.new.items ≡ drop count bytes.old.items }
    ensures len { vec_len bytes.new + count ≡ vec_len bytes.old }
{
    let len = bytes.len();
    bytes.copy_within(count..len, 0);
    bytes.truncate(len - count);
}
