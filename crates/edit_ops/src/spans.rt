//! A span of a text, as two offsets in characters.

/// The characters from one offset to another.
#[derive(Clone, Copy, Debug, PartialEq, Eq)]
pub struct Span {
    pub from: usize,
    pub to: usize,
}
