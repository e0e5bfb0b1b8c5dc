//! How many bytes of the script are checked as UTF-8 and scanned, and where the next command ends.

ghost use Rattle.std.specs.Prelude.{◌≡◌, IfOk, IfNone};
ghost use Rattle.tcl_words.specs.Progression.{IsProgress, IsNext, text_end, last_command, starting_at};
ghost use Rattle.tcl_words.specs.Unread.{HasNoFault};

use crate::encoding::{TextStop, text_front};
use crate::fault::ScriptFault;
use crate::scanner::{Scan, scan_bytes};
use crate::stage::{Next, Stage};
use crate::steps::last_from;

/// How far the bytes not yet given were read, so that none is read twice.
#[derive(Clone, Copy)]
pub struct Progress {
    /// So many are known to be UTF-8.
    pub valid: usize,
    /// So many lead from the begin of a command to the stage.
    pub seen: usize,
    pub stage: Stage,
}

impl Progress {
    /// Nothing of the next command was read.
    pub fn starting(valid: usize) -> Self
        ensures { result ≡ starting_at valid }
    {
        Progress {
            valid,
            seen: 0,
            stage: Stage::BeforeCommand,
        }
    }

    /// Reads on through the text at the front.
    pub fn read_text(&mut self, rest: &[u8])
        requires { IsProgress rest.now self.old }
        ensures progress { IsProgress rest.now self.new }
    {
        if self.valid < rest.len() {
            self.valid += text_front(&rest[self.valid..]).len;
        }
    }

    /// Reads on to the end of the next command, and says how many bytes it has; `None` if there is none.
    pub fn find_command(
        &mut self,
        rest: &[u8],
        finished: bool,
    ) -> Result<Option<usize>, ScriptFault>
        requires { IsProgress rest.now self.old }
        ensures progress { IsProgress rest.now self.new }
        ensures next { IsNext finished rest.now result }
        ensures no_fault { IfOk result (λ found. IfNone found (HasNoFault finished rest.now)) }
    {
        let front = text_front(&rest[self.valid..]);
        self.valid += front.len;
        match scan_bytes(&rest[self.seen..self.valid], self.stage) {
            Scan::EndsAt(len) => Ok(Some(self.seen + len)),
            Scan::Refused(fault) => Err(fault),
            Scan::Reaches(stage) => {
                self.seen = self.valid;
                self.stage = stage;
                at_text_end(front.stop, finished, stage, self.valid)
            }
        }
    }
}

// What is next where the scan has passed the text and met no end.
fn at_text_end(
    stop: TextStop,
    finished: bool,
    stage: Stage,
    len: usize,
) -> Result<Option<usize>, ScriptFault>
    ensures { result ≡ text_end stop finished stage len }
{
    match stop {
        TextStop::AtEnd => if finished {
            last_command(stage, len)
        } else {
            Ok(None)
        },
        TextStop::WithinCharacter => if finished {
            Err(ScriptFault::NotUtf8)
        } else {
            Ok(None)
        },
        TextStop::Broken => Err(ScriptFault::NotUtf8),
    }
}

// The command that the end of the script ends, if one has begun.
fn last_command(stage: Stage, len: usize) -> Result<Option<usize>, ScriptFault>
    ensures { result ≡ last_command stage len }
{
    match last_from(stage).next {
        Next::Go(_) => Ok(None),
        Next::End => Ok(Some(len)),
        Next::Refuse(fault) => Err(fault),
    }
}
