//! How a run ends, with its exit status and its message for standard error.

ghost use Rattle.std.specs.Prelude.{◌≡◌};
ghost use Rattle.script_cli.specs.Status.{status_of, error_words};

use thiserror::Error;

/// How a run went that met the end of its script, or a script fault.
#[derive(Clone, Copy, Debug, PartialEq, Eq)]
pub struct RunSummary {
    /// How many commands were met; one with a script fault is none.
    pub commands: u64,
    /// How many of them were refused, those for memory among them.
    pub refused: u64,
    /// Whether a script fault ended the run.
    pub script_fault: bool,
}

/// Why a run ended before its script did.
#[derive(Clone, Copy, Debug, PartialEq, Eq, Drop, Error)]
pub enum RunFault {
    /// The reader failed.
    #[error("read failed")]
    Read,
    /// The writer failed.
    #[error("write failed")]
    Write,
    /// A buffer could not grow.
    #[error("out of memory")]
    Memory,
    /// As many reads as the limits allow brought no end.
    #[error("too many reads")]
    Endless,
}

/// The exit status after a run, and the words for standard error, without a newline; the empty text where there are
/// none.
pub fn outcome(ended: &Result<RunSummary, RunFault>) -> (u8, &'static str)
    ensures status { result.0 ≡ status_of ended.now }
    ensures words { result.1.now ≡ error_words ended.now }
{
    match ended {
        Ok(summary) if summary.script_fault => (2, ""),
        Ok(summary) if summary.refused > 0 => (1, ""),
        Ok(_) => (0, ""),
        Err(RunFault::Read) => (2, "read failed"),
        Err(RunFault::Write) => (2, "write failed"),
        Err(RunFault::Memory) => (2, "out of memory"),
        Err(RunFault::Endless) => (2, "too many reads"),
    }
}
