//! Scans bytes for the end of a command or a script fault.

ghost use Rattle.std.specs.Prelude.{◌≡◌, ◌+◌, ◌≤◌, length};
ghost use Rattle.tcl_words.specs.Scanning.{scanned};
ghost use Rattle.tcl_words.specs.Steps.{depth_of};

use crate::fault::ScriptFault;
use crate::plain_words::plain_word;
use crate::quoted::quoted_front;
use crate::runs::plain_run;
use crate::stage::{Next, Stage, TextWord};
use crate::steps::step_from;

/// How far some bytes lead.
pub enum Scan {
    /// A command ends after this many bytes.
    EndsAt(usize),
    /// A script fault is met.
    Refused(ScriptFault),
    /// Neither.
    Reaches(Stage),
}

/// Goes over the bytes once, from a stage.
pub fn scan_bytes(bytes: &[u8], from: Stage) -> Scan
    requires { depth_of from + length bytes.now ≤ usize.MAX }
    ensures { result ≡ scanned bytes.now from }
{
    let mut stage = from;
    let mut index = 0;
    while index < bytes.len() {
        if let Stage::Text(TextWord::Quoted) = stage {
            let front = quoted_front(&bytes[index..]);
            if front > 0 {
                index += front;
                continue;
            }
        }
        let rest = &bytes[index..];
        if let Some(word) = plain_word(stage, rest) {
            if word.is_last {
                return Scan::EndsAt(index + word.len);
            }
            stage = Stage::BeforeWord;
            index += word.len;
            continue;
        }
        let run = plain_run(stage, rest);
        if run > 0 {
            index += run;
            continue;
        }
        match step_from(stage, char::from(bytes[index])).next {
            Next::Go(next) => stage = next,
            Next::End => return Scan::EndsAt(index + 1),
            Next::Refuse(fault) => return Scan::Refused(fault),
        }
        index += 1;
    }
    Scan::Reaches(stage)
}
