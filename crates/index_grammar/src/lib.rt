//! Which words are which indices of the text widget, given the names of marks and tags (text(n), "INDICES").
#![tactic(auto)]

mod faults;
mod fronts;
mod indices;
mod names;
mod numbers;
mod parsing;
mod places;
mod steps;
mod tokens;

pub use faults::IndexFault;
pub use indices::{Base, Direction, Index, Modifier, Modifiers, Unit};
pub use names::Names;
pub use parsing::{find_base, parse};
pub use steps::next_modifier;
