//! What an edit does to a text and its tags, as its plan knows it.

use crate::hunks::Hunk;
use crate::slot_runs::SlotRun;

/// What an edit does to a text and its tags: hunks of the text before it, in their order, whose new characters have no
/// tags yet; then, in the text that these leave, one character that loses its slots, and runs that get theirs.
#[derive(Drop)]
pub struct Delta {
    pub hunks: Vec<Hunk>,
    pub lost: Option<Box<SlotRun>>,
    pub gained: Vec<SlotRun>,
}
