//! One text store over any list of lines.
#![tactic(auto)]

mod clearing;
mod drafts;
mod insertions;
mod known;
pub mod laws;
mod line_changes;
mod line_vec;
mod lists;
mod mark_edit;
mod marks;
mod newlines;
mod pieces;
mod queries;
mod removals;
mod steps;
mod store;
mod within;

pub use line_vec::LineVec;
pub use lists::LineList;
pub use mark_edit::MarkEdit;
pub use store::{Change, LineStore};
