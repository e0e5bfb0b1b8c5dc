//! `rows` runs each worked script of a folder's files on every store, and prints those that don't print what they
//! have to. `rows --store NAME` runs the script on standard input on one store, as `tktext` does on its own.
#![tactic(auto)]

mod faults;
mod files;
mod pieces;
mod row;
mod running;
mod scripts;
mod spelling;
mod splitting;

use crate::faults::print_faults;
use crate::files::{Tally, check_folder};
use crate::scripts::run_script;
use std::process::ExitCode;
use std::{env, io};

/// Runs the script on standard input on the store that is named, or the rows of a folder.
fn main(rt: HostRuntime) -> io::Result<ExitCode> {
    let mut words = env::args(&rt)?;
    let first = words.nth(1);
    let first = first.as_ref().map(|word| word.as_str());
    match (first, words.next()) {
        (Some("--store"), Some(store)) => Ok(run_script(&rt, &store)),
        _ => check_rows(&rt, first.unwrap_or(".")),
    }
}

/// Prints the text of each fault, and runs the rows of a folder.
fn check_rows(rt: &HostRuntime, folder: &str) -> io::Result<ExitCode> {
    print_faults(rt)?;
    let mut tally = Tally {
        rows: 0,
        failures: 0,
    };
    check_folder(rt, folder, &mut tally)?;
    let Tally { rows, failures } = tally;
    if failures > 0 || rows == 0 {
        println!(rt; "{rows} rows as wanted, {failures} failures")?;
        return Ok(ExitCode::from(1));
    }
    println!(rt; "all rows as wanted")?;
    Ok(ExitCode::SUCCESS)
}
