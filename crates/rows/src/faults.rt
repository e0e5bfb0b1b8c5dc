//! Prints the message of each fault, one per line.

use peers::Fault;
use std::io;
use tcl_words::{ListFault, ScriptFault};

/// A fault of each kind.
const FAULTS: [Fault; 22] = [
    Fault::BadIndex(2),
    Fault::NoTaggedCharacters(2, 3),
    Fault::NoSuchMark(3),
    Fault::NoSuchTag(3),
    Fault::BadComparison(3),
    Fault::BadGravity(4),
    Fault::BadList(4),
    Fault::BadBoolean(3),
    Fault::BadInteger(3),
    Fault::StartLineAfterEndLine,
    Fault::NothingToUndo,
    Fault::NothingToRedo,
    Fault::BadOption(1),
    Fault::WrongArguments,
    Fault::InvalidCommandName(0),
    Fault::WindowExists(1),
    Fault::IndexOrder(3),
    Fault::TooManyWidgets,
    Fault::TooManyTags,
    Fault::TooManyMarks,
    Fault::TextTooLong,
    Fault::Memory,
];

/// Prints the text of each fault, a line for each; of those of scripts and lists want of memory alone, as rows have
/// the others.
pub fn print_faults<R: Print>(rt: &R) -> io::Result<()> {
    for fault in FAULTS {
        println!(rt; "{fault}")?;
    }
    let (script, list) = (ScriptFault::Memory, ListFault::Memory);
    println!(rt; "{script}\n{list}")
}
