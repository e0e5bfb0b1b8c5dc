//! A mark that is put into a line, as an edit of that line.

use segments::{Line, LineEdit};
use std::alloc::AllocError;
use text_model::{MarkNo, Place};

/// Puts the mark of a number at a place of a line.
#[derive(Clone, Copy)]
pub struct MarkEdit {
    pub number: MarkNo,
    pub place: Place,
}

impl LineEdit for MarkEdit {
    ghost use Rattle.std.specs.Prelude.{◌≤◌, length};
    ghost use Rattle.line_lists.specs.Edits.{with_mark};

    ghost fits = { λ edit line. edit.place.offset ≤ length line.columns };

    ghost edited = { λ edit line. with_mark edit.number.0 edit.place line };

    fn make(&self, line: &mut Line) -> Result<(), AllocError> {
        line.put_mark(self.number, self.place)
    }
}
