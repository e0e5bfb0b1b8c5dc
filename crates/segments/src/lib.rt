//! One line of text: its characters, the slots that are toggled before each of them, and the marks in it.
#![tactic(auto)]

mod characters;
mod form;
mod line;
mod line_edits;
mod marks;
mod rich;
mod toggles;

pub use line::Line;
pub use line_edits::{InsertText, LineEdit, RemoveRange, ResetToggles};
