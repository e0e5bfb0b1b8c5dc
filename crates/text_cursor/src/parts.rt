//! A text as parts of an old text and of inserted characters, each part with its tag slots.

use text_model::TagSet;

/// The characters from one offset to another of an old text, or of those that were put in, which have the slots.
#[derive(Clone, Copy)]
pub struct Part {
    pub from: usize,
    pub to: usize,
    pub slots: Option<TagSet>,
}

/// What a text is made of: its parts in order, and the characters that were put in.
#[derive(Drop)]
pub struct TextParts {
    pub parts: Vec<Part>,
    pub fresh: Vec<char>,
}
