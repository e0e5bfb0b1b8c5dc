//! What a view is asked for beyond its places: `count`, `dump` and `search` (text(n)), each answered as the text of a
//! list.
//!
//! A search reads the text in chunks, which grow with the distance, and looks for a match that stands beside another
//! one by the period of the pattern. A dump goes from one stop to the next: where a tag begins or ends, a mark stands
//! or a line begins.
#![tactic(auto)]

mod copied;
mod counting;
mod dumped_marks;
mod dumping;
mod listing;
mod matching;
mod patterns;
mod searching;
mod sights;
mod tag_changes;
mod turns;

pub use counting::{Counted, count};
pub use dumping::{Listed, dump};
pub use searching::{SearchSwitches, Wanted, search};
pub use sights::Sight;
