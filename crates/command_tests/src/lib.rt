//! The tests of what no script shows, above the stores: indices, queries of views, plans of edits and the changes that
//! they report (`index_grammar`, `text_index`, `search_dump`, `edit_ops`), and runs over devices that fail
//! (`script_cli`). A crate with tests is proved twice, so they have one of their own.
#![tactic(auto)]

#[cfg(test)]
mod plans;
#[cfg(test)]
mod runs;
#[cfg(test)]
mod scenes;
#[cfg(test)]
mod told;
#[cfg(test)]
mod views;
