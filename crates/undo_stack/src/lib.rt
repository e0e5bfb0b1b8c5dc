//! The history of a text: what was done, to be undone and redone, and whether the text is modified.
#![tactic(auto)]

mod actions;
mod counts;
mod faults;
mod groups;
pub mod laws;
mod rings;
mod stack;

pub use actions::{Action, EditKind};
pub use faults::HistoryFault;
pub use groups::Group;
pub use stack::UndoStack;
