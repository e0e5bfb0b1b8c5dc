//! A character of a text with its tag slots.

use crate::tag_set::TagSet;

/// A character of a text, with the slots of the tags that are on it.
#[derive(Clone, Copy)]
pub struct Cell {
    pub character: char,
    pub tags: TagSet,
}
