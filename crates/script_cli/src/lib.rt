//! A whole run: the commands of a script, read from a device, and their answers, written to one.
#![tactic(auto)]

mod devices;
pub mod laws;
mod lines;
mod output;
mod reading;
mod running;
mod summary;
mod turns;

pub use devices::{ByteSink, ByteSource, Watched};
pub use lines::Line;
pub use running::run;
pub use summary::{RunFault, RunSummary, outcome};
