//! What C's handle stands for: a world, what was said last, and a script that is fed.
ghost use Rattle.std.specs.Prelude.{◌≡◌};

use crate::report::Report;
use line_tree::TreeStore;
use peers::{Answer, Fault, World};
use tcl_words::{ScriptFault, Splitter};

/// What was said last.
#[derive(Drop)]
pub(crate) enum Said {
    /// Nothing.
    Nothing,
    /// The answer or the fault of a command.
    Reply(Result<Answer, Fault>),
    /// The fault of a script.
    Fault(ScriptFault),
}

/// A world, the words of the command that was given last and what was said then, words whose room the next command may
/// use, what the last command that reports changed, and a script that is fed.
#[derive(Drop)]
pub struct Session {
    pub(crate) world: World<TreeStore>,
    pub(crate) splitter: Splitter,
    pub(crate) is_finished: bool,
    pub(crate) words: Vec<String>,
    pub(crate) spare: Vec<String>,
    pub(crate) said: Said,
    pub(crate) report: Report,
    pub(crate) status: u8,
    ghost agrees: { is_finished ≡ splitter.finished },
}
