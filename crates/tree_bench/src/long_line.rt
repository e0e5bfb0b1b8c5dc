//! Works on one long line, without a tree: what `tools/bench_lines.py` times.

use segments::Line;
use std::alloc::{AllocError, Global};

/// What is done to the line, again and again.
#[derive(Clone, Copy)]
pub enum LineWork {
    /// The whole text is copied: what the others are measured by.
    Copy,
    /// The line is cut at a column, and joined again.
    Cut,
    /// A character is inserted at a column, and removed again.
    Insert,
    /// The character at a column is read.
    Look,
}

/// Does it once. A column after the line's last character is left out.
fn work_once(line: &mut Line, work: LineWork, column: usize) -> Result<usize, AllocError> {
    let len = line.len();
    if column >= len {
        return Ok(0);
    }
    match work {
        LineWork::Copy => Ok(line.copy_text(0, len)?.len()),
        LineWork::Cut => {
            let tail = line.cut(column)?;
            line.join(tail).map_err(|_| AllocError)?;
            Ok(1)
        }
        LineWork::Insert => {
            line.insert_text(column, "x")?;
            if line.len() > column {
                line.remove_range(column, column + 1)?;
            }
            Ok(1)
        }
        LineWork::Look => Ok(line.char_at(column) as usize),
    }
}

/// Does it `count` times, and returns the sum of the results.
pub fn work_on_line(
    line: &mut Line,
    work: LineWork,
    column: usize,
    count: usize,
) -> Result<usize, AllocError> {
    let mut done: usize = 0;
    for _ in 0..count {
        done = done.wrapping_add(work_once(line, work, column)?);
    }
    Ok(done)
}
