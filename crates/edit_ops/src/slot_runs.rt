//! A run of characters of a text with the tag slots that they get.

use text_model::TagSet;

/// The characters of a text from one offset to another, and the slots that they get.
#[derive(Clone, Copy)]
pub struct SlotRun {
    pub from: usize,
    pub to: usize,
    pub slots: TagSet,
}
