//! Actions of the history, a text inserted or deleted at an offset, and the kinds of edits that they belong to.

use text_model::Text;

/// A text that was put in at an offset, or taken out there. Offsets count characters from the start of the text.
#[derive(Drop)]
pub struct Action {
    /// Whether it was put in.
    pub inserts: bool,
    pub at: usize,
    pub text: Text,
}

/// What kind of edit an action belongs to.
#[derive(Clone, Copy, Debug, PartialEq, Eq)]
pub enum EditKind {
    Insert,
    Delete,
    Replace,
}
