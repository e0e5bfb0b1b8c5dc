//! Laws of whole runs, each the contract of a function that does nothing.

ghost use Rattle.std.specs.Prelude.{◌≡◌, ◌⊎◌, List, [], ℕ, Option, Some, IfSome};
ghost use Rattle.text_model.specs.LimitTable.{LimitTable};
ghost use Rattle.tcl_words.specs.declared.fault.ScriptFault.{ScriptFault};
ghost use Rattle.peers.specs.World.{World};
ghost use Rattle.script_cli.specs.declared.summary.RunSummary.{RunSummary};
ghost use Rattle.script_cli.specs.Devices.{ReadLog, WriteLog};
ghost use Rattle.script_cli.specs.Run.{RunsTo, run_output, refused_count, WritesRun, WritesFront};
ghost use Rattle.script_cli.specs.Told.{WritesRunOf, WritesFrontOf, WritesFrontOfRead, WantsMemory};
ghost use Rattle.script_cli.specs.PlainRun.{IsPlain, IsPlainOutput, IsPlainUpToRefusal};

/// A run prints what the run prints in which no allocation fails, and refuses as many commands; or it prints the same
/// and refuses more; or it prints the same up to a command, and there the line of a failed allocation, which the other
/// run doesn't print for that command.
pub fn plain_run()
    ensures { (world : World) (commands : List (List (List ℕ))) (fault : Option ScriptFault) (out : List ℕ)
        (refused : ℕ) →
        RunsTo world commands fault out refused →
        IsPlain world commands fault out refused
        ⊎ (IsPlainOutput world commands fault out refused ⊎ IsPlainUpToRefusal world commands out) }
{}

/// Any commands have a run in any world: the one without refusals for memory.
pub fn some_run()
    ensures { (world : World) (commands : List (List (List ℕ))) (fault : Option ScriptFault) →
        RunsTo world commands fault (run_output world commands fault) (refused_count world commands) }
{}

/// Where the reader tells the bytes that it has left, what a run wrote is the run of that script, whose bytes may come
/// in any reads, and after a run that ended early a front of it; and where no read brought the end, of the commands
/// that are whole in the bytes read. The bytes of a writer that tells what it holds grew by just that.
pub fn told_bytes()
    ensures run { (limits : LimitTable) (source_old source_new : ReadLog) (sink_old sink_new : WriteLog)
        (summary : RunSummary) →
        WritesRun limits source_old source_new sink_old sink_new summary →
        IfSome source_old.left (λ script. WritesRunOf limits script sink_old.held sink_new.held summary) }
    ensures front { (limits : LimitTable) (source_old source_new : ReadLog) (sink_old sink_new : WriteLog) →
        WritesFront limits source_old source_new sink_old sink_new →
        IfSome source_old.left (λ script. WritesFrontOf limits script sink_old.held sink_new.held) }
    ensures front_of_read { (limits : LimitTable) (source_old source_new : ReadLog) (sink_old sink_new : WriteLog) →
        WritesFront limits source_old source_new sink_old sink_new → source_new.ends ≡ source_old.ends →
        IfSome source_old.left (λ script. WritesFrontOfRead limits script source_new.left sink_old.held sink_new.held) }
{}

/// Two runs of one script with the same limits, each over a store of any kind, write the same bytes, unless a command
/// of one of them is refused because an allocation failed, and prints so what it wouldn't print otherwise: the store
/// over the tree of lines writes what the plain one writes, since the clauses of a run name no store.
pub fn same_bytes()
    ensures { (limits : LimitTable) (script one other : List ℕ) (summary another : RunSummary) →
        WritesRunOf limits script (Some []) (Some one) summary →
        WritesRunOf limits script (Some []) (Some other) another →
        (one ≡ other) ⊎ (WantsMemory limits script one ⊎ WantsMemory limits script other) }
{}
