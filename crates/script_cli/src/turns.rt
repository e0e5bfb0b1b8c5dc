//! Takes the next command, carries it out, and prints its answer or its fault.

ghost use Rattle.std.specs.Prelude.{◌≡◌, ◌<◌, false, true, not, None, Some, is_err, length, List, ℕ, encode_utf8_all};
ghost use Rattle.tcl_words.specs.Unread.{texts_of};
ghost use Rattle.peers.specs.World.{World as WorldState};
ghost use Rattle.script_cli.specs.Run.{last_piece};
ghost use Rattle.script_cli.specs.Sending.{Gathers};
ghost use Rattle.script_cli.specs.Turns.{Replies, Meets, goes_on, is_fault, is_refusal};

use crate::devices::ByteSink;
use crate::lines::Line;
use crate::output::Output;
use peers::{Answer, Fault, World};
use tcl_words::{ScriptFault, Splitter};
use text_model::TextStore;

/// What a turn met.
#[derive(Clone, Copy)]
pub enum Met {
    /// A command that was answered.
    Answer,
    /// A command that was refused.
    Refusal,
    /// A script fault.
    Fault,
    /// That no command is at hand: none that is whole before the end of the script, and then none at all.
    End,
}

/// One turn of a run.
#[derive(Clone, Copy)]
pub struct Turn {
    pub met: Met,
    /// False where the writer failed.
    pub is_written: bool,
}

/// Takes the next command that is at hand, and prints its answer or its fault. The words lend it their memory.
pub fn take_turn<S: TextStore, W: ByteSink>(
    world: &mut World<S>,
    splitter: &mut Splitter,
    words: &mut Vec<String>,
    output: &mut Output,
    sink: &mut W,
) -> Turn
    requires no_fault { splitter.old.fault ≡ None }
    requires sink { W.is_failed sink.old ≡ false }
    ensures met { (text : List ℕ)
        × Meets splitter.old.finished world.old splitter.old.rest world.new splitter.new.rest result.met text
        × Gathers (W.log sink.old) output.old (W.log sink.new) output.new (encode_utf8_all text) result.is_written }
    ensures flag { W.is_failed sink.new ≡ not result.is_written }
    ensures same { is_fault result.met ≡ false → splitter.new ≡ record splitter.old { rest = splitter.new.rest } }
{
    match splitter.read_command(words) {
        Ok(true) => answer(world, words, output, sink),
        Ok(false) => Turn {
            met: Met::End,
            is_written: true,
        },
        Err(fault) => match fault {
            ScriptFault::Memory => refuse(splitter, output, sink),
            _ => stop(fault, output, sink),
        },
    }
}

/// Carries out a command and prints its answer or its fault.
fn answer<S: TextStore, W: ByteSink>(
    world: &mut World<S>,
    words: &[String],
    output: &mut Output,
    sink: &mut W,
) -> Turn
    requires some { 0 < length words.now }
    requires sink { W.is_failed sink.old ≡ false }
    ensures met { (text : List ℕ) × Replies world.old world.new (texts_of words.now) (is_refusal result.met) text
        × Gathers (W.log sink.old) output.old (W.log sink.new) output.new (encode_utf8_all text) result.is_written }
    ensures flag { W.is_failed sink.new ≡ not result.is_written }
    ensures going { goes_on result.met ≡ true }
{
    let reply = world.call(words);
    Turn {
        met: met_by(&reply),
        is_written: output.push_line(sink, &Line::of_reply(words, &reply)),
    }
}

fn met_by(reply: &Result<Answer, Fault>) -> Met
    ensures refusal { is_refusal result ≡ is_err reply.now }
    ensures going { goes_on result ≡ true }
{
    match reply {
        Ok(_) => Met::Answer,
        Err(_) => Met::Refusal,
    }
}

/// Drops a command whose words find no memory, and prints that.
fn refuse<W: ByteSink>(splitter: &mut Splitter, output: &mut Output, sink: &mut W) -> Turn
    requires no_fault { splitter.old.fault ≡ None }
    requires sink { W.is_failed sink.old ≡ false }
    ensures met { (world : WorldState) → (text : List ℕ)
        × Meets splitter.old.finished world splitter.old.rest world splitter.new.rest result.met text
        × Gathers (W.log sink.old) output.old (W.log sink.new) output.new (encode_utf8_all text) result.is_written }
    ensures flag { W.is_failed sink.new ≡ not result.is_written }
    ensures same { is_fault result.met ≡ false → splitter.new ≡ record splitter.old { rest = splitter.new.rest } }
{
    match splitter.skip_command() {
        Ok(true) => Turn {
            met: Met::Refusal,
            is_written: output.push_line(sink, &Line::of_reply(&[], &Err(Fault::Memory))),
        },
        Ok(false) => Turn {
            met: Met::End,
            is_written: true,
        },
        Err(fault) => stop(fault, output, sink),
    }
}

/// Prints a script fault.
fn stop<W: ByteSink>(fault: ScriptFault, output: &mut Output, sink: &mut W) -> Turn
    requires sink { W.is_failed sink.old ≡ false }
    ensures met { result.met ≡ Met.Fault }
    ensures text { Gathers (W.log sink.old) output.old (W.log sink.new) output.new
        (encode_utf8_all (last_piece (Some fault))) result.is_written }
    ensures flag { W.is_failed sink.new ≡ not result.is_written }
{
    Turn {
        met: Met::Fault,
        is_written: output.push_line(sink, &Line::of_script_fault(fault)),
    }
}
