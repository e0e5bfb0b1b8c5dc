//! The widgets of a session and the commands that they carry out.
#![tactic(auto)]

mod commands;
mod comparisons;
mod deletions;
mod document_list;
mod history;
mod indices;
pub mod laws;
mod marks;
mod options;
mod queries;
mod ranges;
mod requests;
mod tags;
mod texts;
mod told;
mod widgets;
mod windows;
mod words;
mod world;

pub use command_effects::{Answer, Fault};
pub use documents::{
    ChangeList, EditTold, Key, MarkChange, MarkKey, MarkKind, MarkList, Spot, TagChange, TagList,
    TextChange,
};
pub use told::Told;
pub use windows::Windows;
pub use world::World;
