//! Edits that are made in a line where it lies: all of an edit, or none of it if memory is refused.

ghost use Rattle.std.specs.Prelude.{◌≡◌, OnErr, OnOk};
ghost use Rattle.segments.specs.Columns.{LineContent};

use crate::line::Line;
use std::alloc::AllocError;
use text_model::TagSlot;

/// An edit of one line.
pub trait LineEdit {
    /// The lines that it can be made in.
    ghost fits: { Self → LineContent → Type 0 };

    /// A line after it.
    ghost edited: { Self → LineContent → LineContent };

    /// Makes the edit. If memory is refused, the line is as it was.
    fn make(&self, line: &mut Line) -> Result<(), AllocError>
        requires { fits self.now line.old }
        ensures made { OnOk result (line.new ≡ edited self.now line.old) }
        ensures refused { OnErr result (line.new ≡ line.old) };
}

/// Inserts a text before the character at a column.
#[derive(Clone, Copy)]
pub struct InsertText<'a> {
    pub column: usize,
    pub text: &'a str,
}

impl<'a> LineEdit for InsertText<'a> {
    ghost use Rattle.std.specs.Prelude.{◌≤◌, chars, length};
    ghost use Rattle.segments.specs.Columns.{after_text};

    ghost fits = { λ edit line. edit.column ≤ length line.columns };

    ghost edited = { λ edit line. after_text edit.column (chars edit.text.now) line };

    fn make(&self, line: &mut Line) -> Result<(), AllocError> {
        line.insert_text(self.column, self.text)
    }
}

/// Removes the characters from one column to another.
#[derive(Clone, Copy)]
pub struct RemoveRange {
    pub from: usize,
    pub to: usize,
}

impl LineEdit for RemoveRange {
    ghost use Rattle.std.specs.Prelude.{◌≤◌, length};
    ghost use Rattle.segments.specs.Columns.{after_removal};

    ghost fits = { λ edit line. (edit.from ≤ edit.to) × (edit.to ≤ length line.columns) };

    ghost edited = { λ edit line. after_removal edit.from edit.to line };

    fn make(&self, line: &mut Line) -> Result<(), AllocError> {
        line.remove_range(self.from, self.to)
    }
}

/// Removes the toggles of a slot before the characters from one column to another, and toggles it before each of the
/// characters at these two columns if that is asked for.
#[derive(Clone, Copy)]
pub struct ResetToggles {
    pub slot: TagSlot,
    pub from: usize,
    pub to: usize,
    pub first: bool,
    pub last: bool,
}

impl LineEdit for ResetToggles {
    ghost use Rattle.std.specs.Prelude.{◌<◌, ◌≤◌, length};
    ghost use Rattle.segments.specs.Columns.{reset};
    ghost use Rattle.text_model.specs.TagBits.{slot_count};

    ghost fits = { λ edit line. (edit.slot.0 < slot_count) × (edit.from ≤ edit.to) × (edit.to < length line.columns) };

    ghost edited = { λ edit line. record line {
      columns = reset edit.slot.0 edit.from edit.to edit.first edit.last line.columns;
    } };

    fn make(&self, line: &mut Line) -> Result<(), AllocError> {
        line.reset_toggles(self.slot, self.from, self.to, self.first, self.last)
    }
}
