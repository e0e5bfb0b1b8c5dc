//! Why a script can't be split further, or that an allocation fails.

ghost use Rattle.std.specs.Prelude.{◌≡◌};
ghost use Rattle.tcl_words.specs.declared.fault.ScriptFault.{ScriptFault};
ghost use Rattle.tcl_words.specs.declared.fault.ScriptFault.TheVariants.{Memory};

use std::alloc::AllocError;
use thiserror::Error;

/// Why a script can't be read further, or that memory is wanted for the words of a command.
#[derive(Clone, Copy, Debug, PartialEq, Eq, Drop, Error)]
pub enum ScriptFault {
    /// The script ends within braces.
    #[error("missing close-brace")]
    MissingBrace,
    /// The script ends within quotes.
    #[error("missing \"")]
    MissingQuote,
    /// A closing brace isn't the end of its word.
    #[error("extra characters after close-brace")]
    ExtraAfterBrace,
    /// A closing quote isn't the end of its word.
    #[error("extra characters after close-quote")]
    ExtraAfterQuote,
    /// A bracket, a variable, or `{*}` before a word.
    #[error("substitution isn't supported")]
    Substitution,
    /// Bytes that aren't UTF-8.
    #[error("script isn't UTF-8")]
    NotUtf8,
    /// The digits of an escape give a number that is no Unicode scalar value.
    #[error("bad character code")]
    BadCharacterCode,
    /// The words of a command find no memory. The script can be read on.
    #[error("out of memory")]
    Memory,
}

impl From<AllocError> for ScriptFault {
    ghost from_gives = { λ _ fault. fault ≡ Memory };

    fn from(_: AllocError) -> Self {
        ScriptFault::Memory
    }
}
