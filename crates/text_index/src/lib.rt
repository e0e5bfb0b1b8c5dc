//! Indices of the text widget: the places that they stand for, and their printed form (text(n), "INDICES"). Which words
//! are which indices is `index_grammar`, whose calls are passed on.
#![tactic(auto)]

mod locating;
mod moves;
mod positions;
mod ranges;
mod values;
mod views;
mod words;

pub use index_grammar::{
    Base, Direction, Index, IndexFault, Modifier, Modifiers, Names, Unit, parse,
};
pub use locating::{locate, seek};
pub use moves::{back, forward, lines_by, word_end, word_start};
pub use positions::{push_index, push_index_on};
pub use ranges::{TagRange, change_after, next_range, previous_range, range_behind};
pub use values::resolve;
pub use views::View;
pub use words::is_word;
