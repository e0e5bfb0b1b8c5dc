//! A document with the widgets that show it: its text, tags, marks, history and options.
#![tactic(auto)]

mod callers;
mod deletions;
mod documents;
mod history;
mod indices;
mod listing;
mod mark_lists;
mod marks;
mod marks_told;
mod options;
mod queries;
mod ranges;
mod seats;
mod tags;
mod tags_told;
mod texts;
mod views;
mod widgets;

pub use callers::Caller;
pub use documents::Document;
pub use edit_ops::{ChangeList, Spot, TextChange};
pub use listing::push_filled;
pub use mark_lists::{MarkChange, MarkKey, MarkKind, MarkList};
pub use reports::{EditTold, Key, TagChange, TagList};
pub use widgets::drop_widgets;
