//! How the calls from C end, and the codes of that.
ghost use Rattle.std.specs.Prelude.{◌≡◌};
ghost use Rattle.handles.specs.Codes.{flag_code, given_code, make_code, move_code, call_code, feed_code, turn_code};
ghost use Rattle.handles.specs.Codes.{gravity_code, offset_code, side_code, told_code};

use text_model::{Gravity, Place};

/// What a command was given.
#[derive(Clone, Copy)]
pub enum Given {
    /// An answer.
    Answer,
    /// A fault.
    Fault,
    /// Memory was refused, and nothing has changed.
    Memory,
}

impl Given {
    pub fn code(self) -> i32
        ensures { result ≡ given_code self }
    {
        match self {
            Given::Answer => 0,
            Given::Fault => 1,
            Given::Memory => 2,
        }
    }
}

/// How the making of a world ends.
#[derive(Clone, Copy)]
pub enum MakeEnd {
    Made,
    Memory,
    WrongLimits,
    /// The handle is full.
    WrongHandle,
}

impl MakeEnd {
    pub fn code(self) -> i32
        ensures { result ≡ make_code self }
    {
        match self {
            MakeEnd::Made => 0,
            MakeEnd::Memory => 2,
            MakeEnd::WrongLimits => 7,
            MakeEnd::WrongHandle => 8,
        }
    }
}

/// How the moving of a report ends.
#[derive(Clone, Copy)]
pub enum MoveEnd {
    Moved,
    /// There is no world, or no report to move to.
    WrongHandle,
}

impl MoveEnd {
    pub fn code(self) -> i32
        ensures { result ≡ move_code self }
    {
        match self {
            MoveEnd::Moved => 0,
            MoveEnd::WrongHandle => 8,
        }
    }
}

/// How a command ends.
#[derive(Clone, Copy)]
pub enum CallEnd {
    Given(Given),
    /// A word isn't UTF-8.
    NotText,
    /// There is no word, or the lengths don't add up to the bytes.
    WrongLengths,
    /// The handle is empty.
    WrongHandle,
}

impl CallEnd {
    pub fn code(self) -> i32
        ensures { result ≡ call_code self }
    {
        match self {
            CallEnd::Given(given) => given.code(),
            CallEnd::NotText => 5,
            CallEnd::WrongLengths => 6,
            CallEnd::WrongHandle => 8,
        }
    }
}

/// How the feeding of a script ends.
#[derive(Clone, Copy)]
pub enum FeedEnd {
    Fed,
    Memory,
    /// The script has ended.
    Finished,
    /// The handle is empty.
    WrongHandle,
}

impl FeedEnd {
    pub fn code(self) -> i32
        ensures { result ≡ feed_code self }
    {
        match self {
            FeedEnd::Fed => 0,
            FeedEnd::Memory => 2,
            FeedEnd::Finished => 9,
            FeedEnd::WrongHandle => 8,
        }
    }
}

/// What the next turn of a fed script met.
#[derive(Clone, Copy)]
pub enum TurnEnd {
    /// A command.
    Command(Given),
    /// A script fault.
    Fault,
    /// That no command is at hand.
    End,
    /// The handle is empty.
    WrongHandle,
}

impl TurnEnd {
    pub fn code(self) -> i32
        ensures { result ≡ turn_code self }
    {
        match self {
            TurnEnd::Command(given) => given.code(),
            TurnEnd::Fault => 3,
            TurnEnd::End => 4,
            TurnEnd::WrongHandle => 8,
        }
    }
}

/// Which way a group can go.
#[derive(Clone, Copy)]
pub enum Way {
    Undo,
    Redo,
}

/// The code of yes or no.
pub fn code_of_flag(flag: bool) -> i32
    ensures { result ≡ flag_code flag }
{
    match flag {
        true => 1,
        false => 0,
    }
}

/// The code of what is told of a widget's text.
pub fn code_of_told(told: Option<bool>) -> i32
    ensures { result ≡ told_code told }
{
    match told {
        Some(true) => 1,
        Some(false) => 0,
        None => -1,
    }
}

/// The offset of a mark, or `usize::MAX` where it has no place.
pub fn offset_of_place(place: Option<Place>) -> usize
    ensures { result ≡ offset_code place }
{
    match place {
        Some(place) => place.offset,
        None => usize::MAX,
    }
}

/// The code of a mark's gravity.
pub fn code_of_gravity(place: Option<Place>) -> i32
    ensures { result ≡ gravity_code place }
{
    match place {
        Some(place) => code_of_side(place.gravity),
        None => -1,
    }
}

fn code_of_side(gravity: Gravity) -> i32
    ensures { result ≡ side_code gravity }
{
    match gravity {
        Gravity::Right => 0,
        Gravity::Left => 1,
    }
}
