//! The report of an edit: the changes of a text, and those of its tags by their names.
#![tactic(auto)]

mod keys;
mod tag_lists;
mod tag_runs;
mod tags_gone;
mod told;

pub use keys::Key;
pub use tag_lists::{TagChange, TagList};
pub use tags_gone::tell_gone;
pub use told::{EditTold, carry_out, carry_out_tagged};
