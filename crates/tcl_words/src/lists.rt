//! Lists as text.

ghost use Rattle.std.specs.Prelude.{◌≡◌, List, ℕ, IfOk, chars};
ghost use Rattle.tcl_words.specs.ListSteps.{script_stage};
ghost use Rattle.tcl_words.specs.ListText.{ReadsList};
ghost use Rattle.tcl_words.specs.Unread.{texts_of};

use crate::list_steps::{ListNext, ListStage, last_from, step_from};
use crate::pieces::{Writer, first_char};
use crate::runs::plain_run;
use crate::stage::Stage;
use std::alloc::{AllocError, Global};
use thiserror::Error;

/// Why a text gives no list.
#[derive(Clone, Copy, Debug, PartialEq, Eq, Drop, Error)]
pub enum ListFault {
    /// It is the text of no list.
    #[error("bad list")]
    BadList,
    /// Its elements find no memory.
    #[error("out of memory")]
    Memory,
}

impl From<AllocError> for ListFault {
    ghost use Rattle.tcl_words.specs.declared.lists.ListFault.TheVariants.{Memory};

    ghost from_gives = { λ _ fault. fault ≡ Memory };

    fn from(_: AllocError) -> Self {
        ListFault::Memory
    }
}

// The stage of a script in which all that goes onto a word as it is does so here too.
fn script_stage(stage: ListStage) -> Stage
    ensures { result ≡ script_stage stage }
{
    match stage {
        ListStage::Text(word) => Stage::Text(word),
        ListStage::Braced(depth) => Stage::Braced(depth),
        _ => Stage::BeforeCommand,
    }
}

/// The elements of a list.
pub fn split_list(alloc: Global, text: &str) -> Result<Vec<String>, ListFault>
    ensures list { IfOk result (λ words. ReadsList (chars text.now) (texts_of words.items)) }
    ensures bad { result ≡ Err ListFault.BadList → (xs : List (List ℕ)) → ¬ ReadsList (chars text.now) xs }
{
    let mut writer = Writer::new(alloc, text.len());
    let mut stage = ListStage::Between;
    let mut rest = text;
    while !rest.is_empty() {
        let run = plain_run(script_stage(stage), rest.as_bytes());
        if run > 0 {
            writer.keep(&rest[..run])?;
            rest = &rest[run..];
            continue;
        }
        let c = first_char(rest);
        let step = step_from(stage, c);
        writer.write(alloc, step.output, c)?;
        match step.next {
            ListNext::Go(next) => stage = next,
            ListNext::Bad => return Err(ListFault::BadList),
        }
        rest = &rest[c.len_utf8()..];
    }
    let step = last_from(stage);
    writer.write(alloc, step.output, '\0')?;
    match step.next {
        ListNext::Go(_) => Ok(writer.words),
        ListNext::Bad => Err(ListFault::BadList),
    }
}
