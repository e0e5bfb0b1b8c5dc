//! Commands and their words out of the bytes of a script, as Tcl(n) quotes them, and lists as text.
#![tactic(auto)]

mod encoding;
mod escapes;
mod fault;
pub mod laws;
mod list_steps;
mod list_writing;
mod lists;
mod pieces;
mod plain_words;
mod progress;
mod quoted;
mod runs;
mod scanner;
mod splitter;
mod stage;
mod steps;

pub use fault::ScriptFault;
pub use list_writing::{push_element, push_space};
pub use lists::{ListFault, split_list};
pub use splitter::Splitter;
