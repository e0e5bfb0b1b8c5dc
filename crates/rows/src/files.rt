//! Runs the rows of each file in a folder, and counts rows and failures.

use crate::row::{Row, Taken};
use crate::running::check_row;
use crate::splitting::{check_list, check_words};
use std::path::Path;
use std::rt::Files;
use std::{fs, io};

/// What a file has rows of, by the end of its name.
#[derive(Clone, Copy)]
enum Kind {
    /// Scripts and what they print (`.rows`).
    Scripts,
    /// Scripts and the words of their commands (`.words`).
    Words,
    /// Lists and their elements (`.lists`).
    Lists,
}

fn kind_of(name: &str) -> Option<Kind> {
    if name.ends_with(".rows") {
        Some(Kind::Scripts)
    } else if name.ends_with(".words") {
        Some(Kind::Words)
    } else if name.ends_with(".lists") {
        Some(Kind::Lists)
    } else {
        None
    }
}

/// How many rows went as wanted, and how many lines of files and rows did not.
#[derive(Clone, Copy)]
pub struct Tally {
    pub rows: u32,
    pub failures: u32,
}

/// Runs the rows of each file of a folder that has rows.
pub fn check_folder<R: Files + Print + AllocGlobal + Clone + Drop>(
    rt: &R,
    folder: &str,
    tally: &mut Tally,
) -> io::Result<()> {
    for entry in fs::read_dir(rt, folder)? {
        let entry = entry?;
        if let Some(kind) = kind_of(entry.file_name()) {
            check_file(rt, kind, entry.path(), tally)?;
        }
    }
    Ok(())
}

/// Runs the rows of a file.
fn check_file<R: Files + Print + AllocGlobal>(
    rt: &R,
    kind: Kind,
    path: Path<'_>,
    tally: &mut Tally,
) -> io::Result<()> {
    let text = fs::read_to_string(rt, path)?;
    let mut row = Row::new(rt.alloc());
    for line in text.lines() {
        check_line(rt, kind, &mut row, line, tally)?;
    }
    if !row.name.is_empty() {
        let name = row.name.as_str();
        tally.failures = tally.failures.saturating_add(1);
        println!(rt; "{name}: no status ends this row")?;
    }
    Ok(())
}

/// Takes a line of a file, and runs the row that it ends.
fn check_line<R: Print + AllocGlobal>(
    rt: &R,
    kind: Kind,
    row: &mut Row,
    line: &str,
    tally: &mut Tally,
) -> io::Result<()> {
    match row.take_line(line)? {
        Taken::Part => {}
        Taken::Whole => {
            count(tally, check(rt, kind, row)?);
            *row = Row::new(rt.alloc());
        }
        Taken::Unknown => {
            count(tally, false);
            println!(rt; "no line of a row: {line}")?;
        }
    }
    Ok(())
}

/// Whether a row goes as wanted.
fn check<R: Print + AllocGlobal>(rt: &R, kind: Kind, row: &Row) -> io::Result<bool> {
    match kind {
        Kind::Scripts => check_row(rt, row),
        Kind::Words => check_words(rt, row),
        Kind::Lists => check_list(rt, row),
    }
}

/// Counts what went as wanted or didn't.
fn count(tally: &mut Tally, is_wanted: bool) {
    if is_wanted {
        tally.rows = tally.rows.saturating_add(1);
    } else {
        tally.failures = tally.failures.saturating_add(1);
    }
}
