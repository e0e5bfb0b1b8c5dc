//! Runs the script on standard input on a store given by name.

use crate::row::AMPLE;
use crate::running::limits_of;
use line_lists::{LineStore, LineVec};
use line_tree::TreeStore;
use script_cli::{Watched, outcome, run};
use std::process::ExitCode;
use text_model::{Limits, PlainStore, TextStore};

/// The exit status where a script can't be run: its store has no name that is known.
const NO_STORE: u8 = 3;

/// Runs the script on standard input on the store of a name, as `tktext` does on its own.
pub fn run_script(rt: &HostRuntime, store: &str) -> ExitCode {
    let Some(limits) = limits_of(AMPLE) else {
        return ExitCode::from(NO_STORE);
    };
    match store {
        "PlainStore" => run_on::<PlainStore>(rt, limits),
        "LineVec" => run_on::<LineStore<LineVec>>(rt, limits),
        "TreeStore" => run_on::<TreeStore>(rt, limits),
        _ => ExitCode::from(NO_STORE),
    }
}

fn run_on<S: TextStore>(rt: &HostRuntime, limits: Limits) -> ExitCode {
    let mut source = Watched::new(rt.stdin());
    let mut sink = Watched::new(rt.stdout());
    let ended = run::<S, _, _>(rt.alloc(), &mut source, &mut sink, limits);
    let (status, words) = outcome(&ended);
    if !words.is_empty() {
        let _ = rt.eprintln(words);
    }
    ExitCode::from(status)
}
