//! The reasons for which nothing is undone or redone.

use thiserror::Error;

/// Why nothing is undone or redone.
#[derive(Clone, Copy, Debug, PartialEq, Eq, Drop, Error)]
pub enum HistoryFault {
    /// There is no group to undo.
    #[error("nothing to undo")]
    NothingToUndo,
    /// There is no group to redo.
    #[error("nothing to redo")]
    NothingToRedo,
}
