//! Runs a script: reads it, carries out its commands, and writes their output.

ghost use Rattle.std.specs.Prelude.{◌≡◌, ◌≢◌, ◌+◌, ◌≤◌, ◌^◌, [], None, true, false, IfOk, IfErr, OnOk, OnErr, IsErrOf};
ghost use Rattle.std.specs.Prelude.{is_ok, is_err, length};
ghost use Rattle.script_cli.specs.Carrying.{Carried, Cuts};
ghost use Rattle.script_cli.specs.Reading.{unread};
ghost use Rattle.script_cli.specs.Run.{no_documents, WritesRun, WritesFront};
ghost use Rattle.script_cli.specs.Sending.{Sends};

use crate::devices::{ByteSink, ByteSource};
use crate::output::Output;
use crate::reading::{Brought, feed_read};
use crate::summary::{RunFault, RunSummary};
use crate::turns::{Met, take_turn};
use peers::World;
use std::alloc::Global;
use tcl_words::Splitter;
use text_model::{Limits, TextStore};

/// What a run has in hand between its reads: the bytes of a command that isn't whole yet, the words of the last one,
/// whose room the next one takes, and what waits to be written.
#[derive(Drop)]
struct Buffers {
    splitter: Splitter,
    words: Vec<String>,
    output: Output,
}

/// Runs a script as it is read: after each read, of up to 4,096 bytes, carries out the commands that are whole, and
/// writes the answer or the fault of each before it reads on. The end of the script ends its last command, and a script
/// fault that the bytes hold however they go on ends the run.
///
/// What the writer takes is the answers and faults that one list of tagged characters per document, with marks as
/// positions, gives to the commands of the bytes that the reader hands out, where any command may be refused for
/// memory, which leaves everything as it was.
pub fn run<S: TextStore, R: ByteSource, W: ByteSink>(
    alloc: Global,
    source: &mut R,
    sink: &mut W,
    limits: Limits,
) -> Result<RunSummary, RunFault>
    requires source { R.is_failed source.old ≡ false }
    requires sink { W.is_failed sink.old ≡ false }
    // The main theorem.
    ensures run { IfOk result (λ summary.
        WritesRun limits (R.log source.old) (R.log source.new) (W.log sink.old) (W.log sink.new) summary) }
    // What was written before a run that ended early.
    ensures front { OnErr result
        (WritesFront limits (R.log source.old) (R.log source.new) (W.log sink.old) (W.log sink.new)) }
    // How the devices are left.
    ensures flags { OnOk result ((R.is_failed source.new ≡ false) × (W.is_failed sink.new ≡ false)) }
    ensures read { IsErrOf result RunFault.Read → R.is_failed source.new ≡ true }
    ensures write { IsErrOf result RunFault.Write → W.is_failed sink.new ≡ true }
    ensures memory { IsErrOf result RunFault.Memory →
        (R.is_failed source.new ≡ false) × (W.is_failed sink.new ≡ false) }
    ensures unfailed { IsErrOf result RunFault.Endless →
        (R.is_failed source.new ≡ false) × (W.is_failed sink.new ≡ false) }
    // How many reads were made, and that none brought the end where the run ended early, but for a failed write.
    ensures reads { (R.log source.new).reads ≤ (R.log source.old).reads + limits.reads }
    ensures endless { IsErrOf result RunFault.Endless → (R.log source.new).reads
        ≡ (R.log source.old).reads + limits.reads }
    ensures no_end { IfErr result (λ fault. fault ≢ RunFault.Write →
        (R.log source.new).ends ≡ (R.log source.old).ends) }
{
    let mut world = World::<S>::new(alloc, limits);
    let mut buffers = Buffers {
        splitter: Splitter::new(alloc),
        words: Vec::new(alloc),
        output: Output::new(),
    };
    let mut summary = RunSummary {
        commands: 0,
        refused: 0,
        script_fault: false,
    };
    run_reads(&mut world, &mut buffers, &mut summary, source, sink, limits)?;
    Ok(summary)
}

/// Reads, and carries out what is read, until the script ends, each command by the same words. It is the run, whose
/// state its caller drops.
fn run_reads<S: TextStore, R: ByteSource, W: ByteSink>(
    world: &mut World<S>,
    buffers: &mut Buffers,
    summary: &mut RunSummary,
    source: &mut R,
    sink: &mut W,
    limits: Limits,
) -> Result<(), RunFault>
    requires source { R.is_failed source.old ≡ false }
    requires sink { W.is_failed sink.old ≡ false }
    requires world { world.old ≡ no_documents limits }
    requires unread { buffers.old.splitter ≡ unread [] false }
    requires empty { buffers.old.output ≡ [] }
    requires unfaulted { summary.old.script_fault ≡ false }
    requires commands { summary.old.commands ≡ 0 }
    requires refused { summary.old.refused ≡ 0 }
    ensures run { OnOk result
        (WritesRun limits (R.log source.old) (R.log source.new) (W.log sink.old) (W.log sink.new) summary.new) }
    ensures front { OnErr result
        (WritesFront limits (R.log source.old) (R.log source.new) (W.log sink.old) (W.log sink.new)) }
    ensures flags { OnOk result ((R.is_failed source.new ≡ false) × (W.is_failed sink.new ≡ false)) }
    ensures read { IsErrOf result RunFault.Read → R.is_failed source.new ≡ true }
    ensures write { IsErrOf result RunFault.Write → W.is_failed sink.new ≡ true }
    ensures memory { IsErrOf result RunFault.Memory →
        (R.is_failed source.new ≡ false) × (W.is_failed sink.new ≡ false) }
    ensures unfailed { IsErrOf result RunFault.Endless →
        (R.is_failed source.new ≡ false) × (W.is_failed sink.new ≡ false) }
    ensures reads { (R.log source.new).reads ≤ (R.log source.old).reads + limits.reads }
    ensures endless { IsErrOf result RunFault.Endless → (R.log source.new).reads
        ≡ (R.log source.old).reads + limits.reads }
    ensures no_end { IfErr result (λ fault. fault ≢ RunFault.Write →
        (R.log source.new).ends ≡ (R.log source.old).ends) }
{
    for _made in 0..limits.reads() {
        let brought = feed_read(source, &mut buffers.splitter)?;
        carry_out(
            world,
            &mut buffers.splitter,
            &mut buffers.words,
            &mut buffers.output,
            sink,
            summary,
        )?;
        if summary.script_fault {
            return Ok(());
        }
        match brought {
            Brought::Bytes => {}
            Brought::End => return Ok(()),
        }
    }
    Err(RunFault::Endless)
}

/// Carries out the commands that are at hand, and writes what they print.
fn carry_out<S: TextStore, W: ByteSink>(
    world: &mut World<S>,
    splitter: &mut Splitter,
    words: &mut Vec<String>,
    output: &mut Output,
    sink: &mut W,
    summary: &mut RunSummary,
) -> Result<(), RunFault>
    requires sink { W.is_failed sink.old ≡ false }
    requires no_fault { splitter.old.fault ≡ None }
    requires empty { output.old ≡ [] }
    requires unfaulted { summary.old.script_fault ≡ false }
    requires most { summary.old.commands + length splitter.old.rest ≤ 2 ^ 44 }
    requires refused { summary.old.refused ≤ summary.old.commands }
    ensures carried { OnOk result
        (Carried world.old splitter.old summary.old world.new splitter.new.rest summary.new (W.log sink.old)
        (W.log sink.new)) }
    ensures cut { OnErr result
        (Cuts world.old splitter.old.finished splitter.old.rest (W.log sink.old) (W.log sink.new)) }
    ensures same { OnOk result (summary.new.script_fault ≡ false →
        splitter.new ≡ record splitter.old { rest = splitter.new.rest }) }
    ensures empty { OnOk result (output.new ≡ []) }
    ensures most { OnOk result (summary.new.script_fault ≡ false →
        summary.new.commands + length splitter.new.rest ≤ summary.old.commands + length splitter.old.rest) }
    ensures refused { OnOk result (summary.new.refused ≤ summary.new.commands) }
    ensures flag { W.is_failed sink.new ≡ is_err result }
    ensures fault { IfErr result (λ fault. fault ≡ RunFault.Write) }
{
    loop {
        let turn = take_turn(world, splitter, words, output, sink);
        if !turn.is_written {
            return Err(RunFault::Write);
        }
        match turn.met {
            Met::Answer => summary.commands += 1,
            Met::Refusal => {
                summary.commands += 1;
                summary.refused += 1;
            }
            Met::Fault => {
                summary.script_fault = true;
                return send(output, sink);
            }
            Met::End => return send(output, sink),
        }
    }
}

/// Writes all that waits.
fn send<W: ByteSink>(output: &mut Output, sink: &mut W) -> Result<(), RunFault>
    requires sink { W.is_failed sink.old ≡ false }
    ensures bytes { Sends (W.log sink.old) (W.log sink.new) output.old (is_ok result) }
    ensures empty { output.new ≡ [] }
    ensures flag { W.is_failed sink.new ≡ is_err result }
    ensures fault { IfErr result (λ fault. fault ≡ RunFault.Write) }
{
    if output.flush(sink) {
        Ok(())
    } else {
        Err(RunFault::Write)
    }
}
