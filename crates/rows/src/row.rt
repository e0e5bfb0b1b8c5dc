//! A row: a script, its limits, and its expected output and exit status; read line by line from a file.

use crate::spelling::push_spelled;
use std::alloc::{AllocError, Global};
use text_model::Limits;

/// The numbers that `Limits` are made of.
#[derive(Clone, Copy)]
pub struct Numbers {
    pub chars: usize,
    pub tags: u16,
    pub marks: u16,
    pub widgets: u16,
    pub reads: u32,
}

/// The limits of the program.
pub const AMPLE: Numbers = Numbers {
    chars: Limits::MOST_CHARS,
    tags: Limits::MOST_TAGS,
    marks: Limits::MOST_MARKS,
    widgets: Limits::MOST_WIDGETS,
    reads: 1_073_741_824,
};

/// A script, the limits that it runs under, what it prints, and the exit status.
#[derive(Drop)]
pub struct Row {
    pub name: String,
    pub script: Vec<u8>,
    pub numbers: Numbers,
    pub output: Vec<u8>,
    pub status: u8,
}

/// What a line of a file does to the row that is being read.
#[derive(Clone, Copy)]
pub enum Taken {
    /// The row goes on.
    Part,
    /// The line gave the status, with which a row ends.
    Whole,
    /// The line has none of the forms.
    Unknown,
}

impl Row {
    /// A row that says nothing yet.
    pub fn new(alloc: Global) -> Row {
        Row {
            name: String::new(alloc),
            script: Vec::new(alloc),
            numbers: AMPLE,
            output: Vec::new(alloc),
            status: 0,
        }
    }

    /// Takes one more line, of a form that data/README.md describes.
    pub fn take_line(&mut self, line: &str) -> Result<Taken, AllocError> {
        let (word, rest) = line.split_once(' ').unwrap_or((line, ""));
        match word {
            "" | "#" => Ok(Taken::Part),
            "row" => self.take_name(rest),
            "<" => add_line(&mut self.script, rest),
            ">" => add_line(&mut self.output, rest),
            "<%" => add_spelled_line(&mut self.script, rest),
            ">%" => add_spelled_line(&mut self.output, rest),
            _ => Ok(self.take_number(word, rest).unwrap_or(Taken::Unknown)),
        }
    }

    /// Takes the name, with which a row begins.
    fn take_name(&mut self, name: &str) -> Result<Taken, AllocError> {
        if !self.name.is_empty() {
            return Ok(Taken::Unknown);
        }
        self.name.push_str(name)?;
        Ok(Taken::Part)
    }

    /// Takes a limit or the status; `None` where the word is neither, or no such number follows it.
    fn take_number(&mut self, word: &str, digits: &str) -> Option<Taken> {
        match word {
            "chars" => self.numbers.chars = digits.parse().ok()?,
            "tags" => self.numbers.tags = digits.parse().ok()?,
            "marks" => self.numbers.marks = digits.parse().ok()?,
            "widgets" => self.numbers.widgets = digits.parse().ok()?,
            "reads" => self.numbers.reads = digits.parse().ok()?,
            "status" => return self.take_status(digits),
            _ => return None,
        }
        Some(Taken::Part)
    }

    /// Takes the status. The last line of a script has no newline.
    fn take_status(&mut self, digits: &str) -> Option<Taken> {
        self.status = digits.parse().ok()?;
        self.script.pop();
        Some(Taken::Whole)
    }
}

/// Adds a line with its newline.
fn add_line(bytes: &mut Vec<u8>, line: &str) -> Result<Taken, AllocError> {
    bytes.extend_from_slice(line.as_bytes())?;
    bytes.push(b'\n')?;
    Ok(Taken::Part)
}

/// Adds a line that is spelled, with its newline.
fn add_spelled_line(bytes: &mut Vec<u8>, line: &str) -> Result<Taken, AllocError> {
    if !push_spelled(bytes, line)? {
        return Ok(Taken::Unknown);
    }
    bytes.push(b'\n')?;
    Ok(Taken::Part)
}
