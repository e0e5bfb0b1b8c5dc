//! Names in an order of their own, each with a number that no other name has.
#![tactic(auto)]

mod names;
mod places;

pub use names::NameList;
