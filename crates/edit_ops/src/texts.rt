//! A text with its store, history and anchors, the rules by which it is edited, and the target of a replacement.

use crate::anchors::Anchors;
use crate::plans::Recording;
use std::alloc::Global;
use text_model::{Limits, MarkNo, TextStore};
use undo_stack::UndoStack;

/// A text with all that its edits change: the store, what is kept of the edits, and the anchors of each widget by its
/// slot.
#[derive(Drop)]
pub struct EditedText<S: TextStore> {
    pub store: S,
    pub history: UndoStack,
    pub anchors: Vec<Anchors>,
}

/// By what an edit is made: where its memory comes from, how many characters a text may have, what is kept to be
/// undone, and whether its caller follows the text, so that the plan knows its delta.
#[derive(Clone, Copy)]
pub struct EditRules<'a> {
    pub alloc: Global,
    pub limits: &'a Limits,
    pub recording: Recording,
    pub follows: bool,
}

/// What a replacement takes out: the characters from one offset to another, both cut to `last`, the last character that
/// the acting widget shows. The mark of that number, if it stands before one of these, stays as far behind the place as
/// it was, or goes to the end of the new text.
#[derive(Clone, Copy, Debug, PartialEq, Eq)]
pub struct Target {
    pub last: usize,
    pub from: usize,
    pub to: usize,
    pub mark: MarkNo,
}
