//! Sums over lines of text: how many lines, characters and marks there are, and which tags are toggled in them.
#![tactic(auto)]

mod exchange;
pub mod laws;
mod summary;
mod sums;
mod toggle_words;

pub use exchange::Exchange;
pub use summary::Summary;
pub use sums::Sums;
pub use toggle_words::ToggleWords;
