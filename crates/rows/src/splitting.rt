//! Splits the scripts and lists of rows, cut at each place, and compares their words with the expected ones.

ghost use Rattle.std.specs.Prelude.{◌≡◌, ◌<◌, false};

use crate::row::Row;
use crate::running::compare;
use std::alloc::{AllocError, Global};
use std::io;
use tcl_words::{Splitter, split_list};

/// Splits a row's script whole, byte by byte, and cut in two at each place, and says whether its commands are those
/// that are wanted each time: a line for each, with a bar before each word, and a line for a fault.
pub fn check_words<R: Print + AllocGlobal>(rt: &R, row: &Row) -> io::Result<bool> {
    let whole = check_split(rt, row, 0, 4096)?;
    let by_bytes = check_split(rt, row, 0, 1)?;
    Ok(whole && by_bytes && check_cuts(rt, row)?)
}

fn check_cuts<R: Print + AllocGlobal>(rt: &R, row: &Row) -> io::Result<bool> {
    for at in 0..row.script.len() {
        if !check_split(rt, row, at, 4096)? {
            println!(rt; "cut at {at}")?;
            return Ok(false);
        }
    }
    Ok(true)
}

/// Splits a script that is cut at a place, and comes in pieces of so many bytes.
fn check_split<R: Print + AllocGlobal>(
    rt: &R,
    row: &Row,
    at: usize,
    size: usize,
) -> io::Result<bool>
    requires { 0 < size }
{
    let (text, status) = split(rt.alloc(), row.script.as_slice(), at, size)?;
    compare(rt, row, text.as_bytes(), status)
}

fn split(alloc: Global, script: &[u8], at: usize, size: usize) -> Result<(String, u8), AllocError>
    requires { 0 < size }
{
    let (front, back) = script.split_at(at.min(script.len()));
    let mut splitter = Splitter::new(alloc);
    let mut text = String::new(alloc);
    feed_pieces(&mut splitter, &mut text, front, size)?;
    feed_pieces(&mut splitter, &mut text, back, size)?;
    splitter.finish();
    write_commands(&mut splitter, &mut text)?;
    let status = write_fault(&mut splitter, &mut text)?;
    Ok((text, status))
}

/// Feeds pieces of so many bytes, and writes the commands that can be given behind each.
fn feed_pieces(
    splitter: &mut Splitter,
    text: &mut String,
    script: &[u8],
    size: usize,
) -> Result<(), AllocError>
    requires some { 0 < size }
    requires open { splitter.old.finished ≡ false }
    ensures { splitter.new.finished ≡ false }
{
    for piece in script.chunks(size) {
        splitter.feed(piece)?;
        write_commands(splitter, text)?;
    }
    Ok(())
}

/// Writes each command that can be given, up to a script fault.
fn write_commands(splitter: &mut Splitter, text: &mut String) -> Result<(), AllocError>
    ensures { splitter.new.finished ≡ splitter.old.finished }
{
    loop {
        let words = match splitter.next_command() {
            Ok(Some(words)) => words,
            _ => return Ok(()),
        };
        write_words(text, &words)?;
    }
}

/// Writes words, with a bar before each, and a newline.
fn write_words(text: &mut String, words: &[String]) -> Result<(), AllocError> {
    for word in words {
        text.push('|')?;
        text.push_str(word.as_str())?;
    }
    text.push('\n')
}

/// Writes the fault that was met, if one was, and gives the status of a program that meets it.
fn write_fault(splitter: &mut Splitter, text: &mut String) -> Result<u8, AllocError> {
    match splitter.next_command() {
        Ok(_) => Ok(0),
        Err(fault) => {
            writeln!(text, "{fault}")?;
            Ok(2)
        }
    }
}

/// Splits the list that a row's script is, and says whether its elements are those that are wanted.
pub fn check_list<R: Print + AllocGlobal>(rt: &R, row: &Row) -> io::Result<bool> {
    let mut text = String::new(rt.alloc());
    let status = write_list(rt.alloc(), row.script.as_slice(), &mut text)?;
    compare(rt, row, text.as_bytes(), status)
}

fn write_list(alloc: Global, list: &[u8], text: &mut String) -> Result<u8, AllocError> {
    match split_list(alloc, str::from_utf8(list).unwrap_or("")) {
        Ok(words) => {
            write_words(text, &words)?;
            Ok(0)
        }
        Err(fault) => {
            writeln!(text, "{fault}")?;
            Ok(2)
        }
    }
}
