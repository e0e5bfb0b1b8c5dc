//! Where the subcommand, the switches, the arguments and the options of a command stand.
#![tactic(auto)]

mod commands;
mod entries;
mod numbers;
mod options;
mod readings;
mod shapes;
mod spellings;
mod switches;
mod words;

pub use commands::Command;
pub use numbers::{ValueFault, boolean, integer};
pub use readings::shape;
pub use shapes::{Shape, ShapeFault};
pub use words::{abbreviates, is_word};
