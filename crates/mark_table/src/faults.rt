//! The fault of a call that names an undefined mark.

use thiserror::Error;

/// The mark that a call names isn't defined.
#[derive(Clone, Copy, Debug, PartialEq, Eq, Drop, Error)]
#[error("the mark isn't defined")]
pub struct NoSuchMark;
