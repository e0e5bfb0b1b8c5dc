//! The reasons for which an edit is refused.

ghost use Rattle.std.specs.Prelude.{◌≡◌};
ghost use Rattle.edit_ops.specs.declared.faults.EditFault.TheVariants.{Memory};

use std::alloc::AllocError;
use thiserror::Error;

/// Why an edit is refused. Nothing has changed.
#[derive(Clone, Copy, Debug, PartialEq, Eq, Drop, Error)]
pub enum EditFault {
    /// The text would have more characters than it may.
    #[error("text is too long")]
    TextTooLong,
    /// The second index stands before the first.
    #[error("index before the other in the text")]
    IndexOrder,
    /// Memory was refused.
    #[error("out of memory")]
    Memory,
}

impl From<AllocError> for EditFault {
    ghost from_gives = { λ _ fault. fault ≡ Memory };

    fn from(_refused: AllocError) -> EditFault {
        EditFault::Memory
    }
}
