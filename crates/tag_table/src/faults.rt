//! The fault of a call that moves an undefined tag, or moves a tag next to an undefined one.

use thiserror::Error;

/// Which of the tags that a call names isn't defined.
#[derive(Clone, Copy, Debug, PartialEq, Eq, Drop, Error)]
pub enum NoSuchTag {
    /// The tag to be moved.
    #[error("the tag to be moved isn't defined")]
    Moved,
    /// The tag next to which it is to go.
    #[error("the tag next to which it is to go isn't defined")]
    Neighbour,
}
