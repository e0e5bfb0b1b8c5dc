//! The tests of what no script shows, of the crates up to `line_tree`, `text_cursor`, `tag_table`, `mark_table` and
//! `tcl_words`: values, lines, nodes, stores, histories, and scripts in pieces. A crate with tests is proved twice, so
//! they have one of their own.
#![tactic(auto)]

#[cfg(test)]
mod cursors;
#[cfg(test)]
mod edits;
#[cfg(test)]
mod histories;
#[cfg(test)]
mod lines;
#[cfg(test)]
mod lists;
#[cfg(test)]
mod mark_numbers;
#[cfg(test)]
mod nodes;
#[cfg(test)]
mod queries;
#[cfg(test)]
mod script_pieces;
#[cfg(test)]
mod stores;
#[cfg(test)]
mod sums;
#[cfg(test)]
mod tag_slots;
#[cfg(test)]
mod text_values;
#[cfg(test)]
mod trees;
