//! The tags of a document, in the order of their priority.
#![tactic(auto)]

mod faults;
mod tags;

pub use faults::NoSuchTag;
pub use tags::TagTable;
