//! Runs a row on every store, with reads of several lengths, and compares its output and status.

use crate::pieces::Pieces;
use crate::row::{AMPLE, Numbers, Row};
use line_lists::{LineStore, LineVec};
use line_tree::TreeStore;
use script_cli::{Watched, outcome, run};
use std::io;
use std::io::Write;
use text_model::{Limits, PlainStore, TextStore};

/// A length of reads that hands out each worked script at once.
const WHOLE: usize = 4096;

/// Runs a row on every store, and says whether it went as wanted on each: on the plain store with reads of several
/// lengths, and whole on the others, which see no reads. A further store is a line here.
pub fn check_row<R: Print + AllocGlobal>(rt: &R, row: &Row) -> io::Result<bool> {
    Ok(
        check_on::<R, PlainStore>(rt, row, lengths(row), "PlainStore")?
            && check_on::<R, LineStore<LineVec>>(rt, row, &[WHOLE], "LineStore<LineVec>")?
            && check_on::<R, TreeStore>(rt, row, &[WHOLE], "TreeStore")?,
    )
}

/// Runs a row on one store, with reads of some lengths, and says whether each run went as wanted.
fn check_on<R: Print + AllocGlobal, S: TextStore>(
    rt: &R,
    row: &Row,
    lengths: &[usize],
    store: &str,
) -> io::Result<bool> {
    let Some(limits) = limits_of(row.numbers) else {
        let name = row.name.as_str();
        println!(rt; "{name}: its numbers are no limits")?;
        return Ok(false);
    };
    for most in lengths {
        if !check_run::<R, S>(rt, row, limits, *most)? {
            println!(rt; "on {store}, with reads of {most} bytes")?;
            return Ok(false);
        }
    }
    Ok(true)
}

/// The limits of these numbers, if they are such.
pub fn limits_of(numbers: Numbers) -> Option<Limits> {
    Limits::new(
        numbers.chars,
        numbers.tags,
        numbers.marks,
        numbers.widgets,
        numbers.reads,
    )
}

/// The lengths of reads that a row is run with: one that limits the reads is for a reader that hands out all at once.
fn lengths(row: &Row) -> &'static [usize] {
    if row.numbers.reads == AMPLE.reads {
        &[1, 2, 3, 7, WHOLE]
    } else {
        &[WHOLE]
    }
}

/// Runs a row with a reader that hands out so many bytes at a time, and says whether it went as wanted.
fn check_run<R: Print + AllocGlobal, S: TextStore>(
    rt: &R,
    row: &Row,
    limits: Limits,
    most: usize,
) -> io::Result<bool> {
    let mut source = Watched::new(Pieces {
        left: row.script.as_slice(),
        most,
    });
    let mut sink = Watched::new(Vec::new(rt.alloc()));
    let ended = run::<S, _, _>(rt.alloc(), &mut source, &mut sink, limits);
    let (status, _words) = outcome(&ended);
    compare(rt, row, sink.get_ref().as_slice(), status)
}

/// Whether an output and a status are those of a row; where they aren't, prints what was wanted and what came.
pub fn compare<R: Print>(rt: &R, row: &Row, output: &[u8], status: u8) -> io::Result<bool> {
    if output == row.output.as_slice() && status == row.status {
        return Ok(true);
    }
    let name = row.name.as_str();
    let wanted = row.status;
    println!(rt; "row {name}\nwanted, with status {wanted}:")?;
    io::writer(rt).write_all(row.output.as_slice())?;
    println!(rt; "came, with status {status}:")?;
    io::writer(rt).write_all(output)?;
    Ok(false)
}
