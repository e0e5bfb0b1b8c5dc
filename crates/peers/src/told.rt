//! Reports of commands.

ghost use Rattle.std.specs.Prelude.{◌≡◌};
ghost use Rattle.peers.specs.Told.{answered, edited};

use command_effects::{Answer, Fault};
use documents::{EditTold, MarkList};
use std::alloc::Global;

/// What a caller follows, so that commands report what they change of it: the text with its tags, and the marks.
#[derive(Clone, Copy)]
pub struct Follows {
    pub text: bool,
    pub marks: bool,
}

/// What a command answered, what it changed of the text that its widget shows and of the tags there, and which marks
/// these changes alone don't take to where they are.
#[derive(Drop)]
pub struct Told {
    pub answer: Answer,
    pub edit: EditTold,
    pub marks: MarkList,
}

/// The report of a command that changes nothing of the text and of its tags, by its answer.
pub fn answered(alloc: Global, answer: Result<Answer, Fault>) -> Result<Told, Fault>
    ensures { result ≡ answered answer }
{
    Ok(Told {
        answer: answer?,
        edit: EditTold::nothing(alloc),
        marks: MarkList::new(alloc),
    })
}

/// The report of a command that answers nothing, by what it changed of the text and of its tags.
pub fn edited(alloc: Global, edit: Result<EditTold, Fault>) -> Result<Told, Fault>
    ensures { result ≡ edited edit }
{
    Ok(Told {
        answer: Answer::Empty,
        edit: edit?,
        marks: MarkList::new(alloc),
    })
}
