//! A fixed buffer of output that is written when it is full or flushed.

ghost use Rattle.std.specs.Prelude.{◌≡◌, ◌+◌, ◌≤◌, [], ◌++◌, true, false, not, nat_le, length};
ghost use Rattle.script_cli.specs.Lines.{printed};
ghost use Rattle.script_cli.specs.Sending.{Sends, Gathers};

use crate::devices::ByteSink;
use crate::lines::Line;
use std::marker::Model;

/// Writes all of the bytes, and answers false where the writer fails before their end.
#[tactic(auto, using(crate::proofs::SendingLaws::writing))]
pub fn write_all<W: ByteSink>(sink: &mut W, bytes: &[u8]) -> bool
    requires { W.is_failed sink.old ≡ false }
    ensures bytes { Sends (W.log sink.old) (W.log sink.new) bytes.now result }
    ensures flag { W.is_failed sink.new ≡ not result }
{
    let mut sent = 0;
    while sent < bytes.len() {
        sent += sink.write(&bytes[sent..]);
        if sink.failed() {
            return false;
        }
    }
    true
}

/// The bytes that wait to be written, in room of its own, so that it takes no memory.
#[derive(Drop)]
pub struct Output {
    bytes: [u8; Output::ROOM],
    len: usize,
}

impl Model for Output {
    ghost use Rattle.std.specs.Prelude.{ℕ, ◌≤◌, List, take};

    ghost Value = { List ℕ };

    ghost view = { λ o. take o.len o.bytes };

    ghost invariant = { λ o. o.len ≤ 8192 };
}

impl Output {
    const ROOM: usize = 8192;

    pub fn new() -> Self
        ensures { result ≡ [] }
    {
        Output {
            bytes: [0; Output::ROOM],
            len: 0,
        }
    }

    /// Puts bytes behind those that wait. Without room for them it writes first, and answers false where the writer
    /// fails.
    #[tactic(auto, using(crate::proofs::SendingLaws::gathering))]
    pub fn push<W: ByteSink>(&mut self, sink: &mut W, bytes: &[u8]) -> bool
        requires { W.is_failed sink.old ≡ false }
        ensures bytes { Gathers (W.log sink.old) self.old (W.log sink.new) self.new bytes.now result }
        ensures flag { W.is_failed sink.new ≡ not result }
    {
        if self.has_room(bytes.len()) {
            self.hold(bytes);
            return true;
        }
        if !self.flush(sink) {
            return false;
        }
        if self.has_room(bytes.len()) {
            self.hold(bytes);
            return true;
        }
        write_all(sink, bytes)
    }

    /// Puts a line behind the bytes that wait, as `push` does.
    pub fn push_line<W: ByteSink>(&mut self, sink: &mut W, line: &Line) -> bool
        requires { W.is_failed sink.old ≡ false }
        ensures bytes { Gathers (W.log sink.old) self.old (W.log sink.new) self.new (printed line.now) result }
        ensures flag { W.is_failed sink.new ≡ not result }
    {
        let (before, word, between, other, after) = line.parts();
        if !self.push_both(sink, before, word) {
            return false;
        }
        if !self.push_both(sink, between, other) {
            return false;
        }
        self.push(sink, after.as_bytes())
    }

    /// Puts two texts behind the bytes that wait, as `push` does.
    fn push_both<W: ByteSink>(&mut self, sink: &mut W, first: &str, second: &str) -> bool
        requires { W.is_failed sink.old ≡ false }
        ensures bytes { Gathers (W.log sink.old) self.old (W.log sink.new) self.new (first.now ++ second.now) result }
        ensures flag { W.is_failed sink.new ≡ not result }
    {
        if !self.push(sink, first.as_bytes()) {
            return false;
        }
        self.push(sink, second.as_bytes())
    }

    /// Writes all that waits, and answers false where the writer fails.
    pub fn flush<W: ByteSink>(&mut self, sink: &mut W) -> bool
        requires { W.is_failed sink.old ≡ false }
        ensures bytes { Sends (W.log sink.old) (W.log sink.new) self.old result }
        ensures flag { W.is_failed sink.new ≡ not result }
        ensures empty { self.new ≡ [] }
    {
        let is_sent = write_all(sink, &self.bytes[..self.len]);
        self.len = 0;
        is_sent
    }

    fn has_room(&self, more: usize) -> bool
        ensures { result ≡ nat_le (length self.now + more) 8192 }
    {
        more <= Output::ROOM - self.len
    }

    fn hold(&mut self, bytes: &[u8])
        requires { length self.old + length bytes.now ≤ 8192 }
        ensures { self.new ≡ self.old ++ bytes.now }
    {
        let end = self.len + bytes.len();
        self.bytes[self.len..end].copy_from_slice(bytes);
        self.len = end;
    }
}
