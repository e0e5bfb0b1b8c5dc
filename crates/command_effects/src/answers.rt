//! What a command returns, and the faults with which it is refused.

ghost use Rattle.std.specs.Prelude.{◌≡◌};
ghost use Rattle.command_effects.specs.declared.answers.Fault.TheVariants.{Memory};
ghost use Rattle.command_effects.specs.Faults.{edit_fault, index_fault, shape_fault};

use command_table::ShapeFault;
use edit_ops::EditFault;
use std::alloc::{AllocError, AllocFailed};
use text_index::IndexFault;
use text_model::Text;
use thiserror::Error;

/// What a command answers.
#[derive(Drop)]
pub enum Answer {
    /// Nothing.
    Empty,
    /// The word of the command at this position.
    Word(usize),
    /// 1 for true and 0 for false.
    Flag(bool),
    /// A text.
    Text(Text),
}

/// Why a command is refused. Words are named by their position in the command, from 0, so that a fault takes no
/// memory.
#[derive(Clone, Copy, Debug, PartialEq, Eq, Drop, Error)]
pub enum Fault {
    /// The word is no index.
    #[error("bad text index")]
    BadIndex(usize),
    /// No character that the widget shows has the tag of the index at the first number; the second is the length of the
    /// tag's name in bytes, with which the word begins.
    #[error("text doesn't contain any characters tagged with a tag")]
    NoTaggedCharacters(usize, usize),
    /// The word names no mark.
    #[error("there is no such mark")]
    NoSuchMark(usize),
    /// The word names no tag.
    #[error("tag isn't defined in text widget")]
    NoSuchTag(usize),
    /// The word is no subcommand or option.
    #[error("bad option")]
    BadOption(usize),
    /// Words are missing, or there are too many.
    #[error("wrong # args")]
    WrongArguments,
    /// The word names no command, or can't name a widget.
    #[error("invalid command name")]
    InvalidCommandName(usize),
    /// The word names a widget that exists.
    #[error("window name already exists")]
    WindowExists(usize),
    /// The word is no comparison.
    #[error("bad comparison operator")]
    BadComparison(usize),
    /// The word is no gravity of a mark.
    #[error("bad mark gravity")]
    BadGravity(usize),
    /// The word is the text of no list.
    #[error("bad list")]
    BadList(usize),
    /// The word is an index that stands before that of the word before it.
    #[error("index before another in the text")]
    IndexOrder(usize),
    /// The word is no boolean.
    #[error("expected boolean value")]
    BadBoolean(usize),
    /// The word is no integer.
    #[error("expected integer")]
    BadInteger(usize),
    /// A view would begin behind its end.
    #[error("-startline must be less than or equal to -endline")]
    StartLineAfterEndLine,
    /// No group of edits can be undone.
    #[error("nothing to undo")]
    NothingToUndo,
    /// No group of edits was undone last.
    #[error("nothing to redo")]
    NothingToRedo,
    /// There are as many widgets as there may be.
    #[error("too many widgets")]
    TooManyWidgets,
    /// There would be more tags than there may be.
    #[error("too many tags")]
    TooManyTags,
    /// There would be more shared marks than there may be.
    #[error("too many marks")]
    TooManyMarks,
    /// The text would have more characters than it may.
    #[error("text is too long")]
    TextTooLong,
    /// Memory was refused. Nothing has changed.
    #[error("out of memory")]
    Memory,
}

impl Fault {
    /// The fault of an index, which is the word at a position.
    pub fn of_index(position: usize, fault: IndexFault) -> Fault
        ensures { result ≡ index_fault position fault }
    {
        match fault {
            IndexFault::BadIndex => Fault::BadIndex(position),
            IndexFault::NoTaggedCharacters(len) => Fault::NoTaggedCharacters(position, len),
            IndexFault::Memory => Fault::Memory,
        }
    }

    /// The fault of the words of a command.
    pub fn of_shape(fault: ShapeFault) -> Fault
        ensures { result ≡ shape_fault fault }
    {
        match fault {
            ShapeFault::BadOption(position) => Fault::BadOption(position),
            ShapeFault::WrongArguments => Fault::WrongArguments,
        }
    }
}

impl From<AllocError> for Fault {
    ghost from_gives = { λ _ fault. fault ≡ Memory };

    fn from(_refused: AllocError) -> Fault {
        Fault::Memory
    }
}

impl From<EditFault> for Fault {
    ghost from_gives = { λ refused fault. fault ≡ edit_fault refused };

    /// An edit is refused for the length of the text or for memory: the order of its indices is known before.
    fn from(refused: EditFault) -> Fault {
        match refused {
            EditFault::TextTooLong => Fault::TextTooLong,
            _ => Fault::Memory,
        }
    }
}

impl<T: Drop> From<AllocFailed<T>> for Fault {
    ghost from_gives = { λ _ fault. fault ≡ Memory };

    fn from(_refused: AllocFailed<T>) -> Fault {
        Fault::Memory
    }
}
