//! A list of lines as a balanced tree: lines by number and by offset, their numbers, the sum of the first ones, the
//! nearest with a toggle or a mark, from each line to the next, lines put in, replaced and taken out, a mark taken off
//! a line. Over it a list of lines for a text store, with the line of each mark; and the store.
#![tactic(auto)]

mod aims;
mod behind;
mod branches;
mod climb;
mod fill;
mod find;
mod insert;
mod last_line;
mod levels;
mod line;
mod locate;
mod mark_names;
mod moving;
mod nearest;
mod prefix;
mod put_row;
mod raise;
mod remove;
mod replacing;
mod room;
mod rows;
mod search;
mod select;
mod shrink;
mod slot_before;
mod splice;
mod spread;
mod starts;
mod taking;
mod tree;
mod tree_lines;
mod tree_store;
mod walk;

pub use locate::Located;
pub use starts::Placed;
pub use tree::LineTree;
pub use tree_lines::TreeLines;
pub use tree_store::{LendsTree, TreeStore};
