//! The nodes of a tree in memory of their own: a finite map from names to records, and spares for it.
#![tactic(auto)]

mod branch;
mod heap;
mod names;
mod nodes;
mod parts;
mod store;
mod ticks;

pub use names::NodePtr;
pub use store::NodeStore;
pub use ticks::{Steps, Ticks};
