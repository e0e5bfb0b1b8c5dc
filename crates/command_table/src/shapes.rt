//! The positions of the parts of a command, and why words are no command.

use crate::commands::Command;
use thiserror::Error;

/// Where the parts of a command stand: its switches from `switches` to before `arguments`, so many arguments from
/// there, and the options with their values behind these. Positions count the command's words from 0.
#[derive(Clone, Copy, Debug, PartialEq, Eq)]
pub struct Shape {
    pub command: Command,
    pub switches: usize,
    pub arguments: usize,
    pub count: usize,
}

/// Why the words are no command.
#[derive(Clone, Copy, Debug, PartialEq, Eq, Drop, Error)]
pub enum ShapeFault {
    /// The word at this position is no subcommand, switch or option.
    #[error("bad option")]
    BadOption(usize),
    /// Words are missing, or there are too many.
    #[error("wrong # args")]
    WrongArguments,
}
