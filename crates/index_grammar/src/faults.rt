//! The reasons for which a word has no place in a text.

ghost use Rattle.std.specs.Prelude.{◌≡◌};
ghost use Rattle.index_grammar.specs.declared.faults.IndexFault.TheVariants.{Memory};

use std::alloc::AllocError;
use thiserror::Error;

/// Why a word has no place.
#[derive(Clone, Copy, Debug, PartialEq, Eq, Drop, Error)]
pub enum IndexFault {
    /// The word is no index, or the mark that it names can't be used in the view.
    #[error("bad text index")]
    BadIndex,
    /// No character of the view has the tag that the word names. The number is the length of the tag's name in bytes.
    #[error("text doesn't contain any characters tagged with a tag")]
    NoTaggedCharacters(usize),
    /// Memory was refused.
    #[error("out of memory")]
    Memory,
}

impl From<AllocError> for IndexFault {
    ghost from_gives = { λ _ fault. fault ≡ Memory };

    fn from(_refused: AllocError) -> IndexFault {
        IndexFault::Memory
    }
}
