//! A cursor over a text on the way from an old one: parts of the old text and texts that were put in, around a place.
//! Between the steps of an edit it answers which slots both sides of the place share, and where lines begin.
#![tactic(auto)]

mod blocks;
mod cursors;
mod lines;
mod parts;
mod sides;

pub use cursors::Cursor;
pub use lines::{line_at, line_behind};
pub use parts::{Part, TextParts};
