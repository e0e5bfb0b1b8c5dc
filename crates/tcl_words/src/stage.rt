//! How far the characters of a command were read, and what the next one may do.

ghost use Rattle.std.specs.Prelude.{◌≡◌, ◌<◌};
ghost use Rattle.tcl_words.specs.Steps.{passes, keeps, closes, ends_here, refuses, after};

use crate::escapes::EscapeStage;
use crate::fault::ScriptFault;

/// The words in which escapes count.
#[derive(Clone, Copy)]
pub enum TextWord {
    Bare,
    Quoted,
}

/// What closed a word.
#[derive(Clone, Copy)]
pub enum Closing {
    Brace,
    Quote,
    /// The brace of `{*}`.
    Expansion,
}

/// What the characters of a command so far lead to.
#[derive(Clone, Copy)]
pub enum Stage {
    /// No word of the command has begun.
    BeforeCommand,
    /// The same, and the last character is a backslash.
    CommandBackslash,
    /// In a comment.
    Comment,
    /// The same, behind a backslash that takes the next character along.
    CommentBackslash,
    /// A word may begin, and the command has one.
    BeforeWord,
    /// The same, and the last character is a backslash.
    WordBackslash,
    /// In a bare word, and the last character is a backslash.
    BareBackslash,
    /// In a bare or a quoted word.
    Text(TextWord),
    /// The last character of the word is a dollar sign.
    AfterDollar(TextWord),
    /// The last characters of the word are a dollar sign and a colon.
    AfterColon(TextWord),
    /// An escape was begun.
    Escaped(TextWord, EscapeStage),
    /// The last character is the brace that opens a word.
    AfterOpening,
    /// The last characters are the brace that opens a word and a star.
    AfterStar,
    /// In a braced word, with so many open braces in it.
    Braced(usize),
    /// The same, behind a backslash that takes the next character along.
    BracedBackslash(usize),
    /// The same, behind a backslash-newline.
    BracedGap(usize),
    /// A word was closed.
    Behind(Closing),
    /// The same, and the last character is a backslash.
    BehindBackslash(Closing),
}

/// What a character adds to the words: what an escape before it gives, then itself, and then the end of the word.
#[derive(Clone, Copy)]
pub struct Output {
    pub given: Option<char>,
    pub kept: bool,
    pub ended: bool,
}

/// Where a character leads: to a stage, to the end of the command, or to a fault.
#[derive(Clone, Copy)]
pub enum Next {
    Go(Stage),
    End,
    Refuse(ScriptFault),
}

/// What a character does.
#[derive(Clone, Copy)]
pub struct Step {
    pub output: Output,
    pub next: Next,
}

impl Step {
    // Leads to the stage.
    pub fn pass(stage: Stage) -> Self
        ensures { result ≡ passes stage }
    {
        Step {
            output: Output {
                given: None,
                kept: false,
                ended: false,
            },
            next: Next::Go(stage),
        }
    }

    // Goes onto the word.
    pub fn keep(stage: Stage) -> Self
        ensures { result ≡ keeps stage }
    {
        Step {
            output: Output {
                given: None,
                kept: true,
                ended: false,
            },
            next: Next::Go(stage),
        }
    }

    // Ends the word.
    pub fn close(next: Next) -> Self
        ensures { result ≡ closes next }
    {
        Step {
            output: Output {
                given: None,
                kept: false,
                ended: true,
            },
            next,
        }
    }

    // Ends the command, between words.
    pub fn end() -> Self
        ensures { result ≡ ends_here }
    {
        Step {
            output: Output {
                given: None,
                kept: false,
                ended: false,
            },
            next: Next::End,
        }
    }

    pub fn refuse(fault: ScriptFault) -> Self
        ensures { result ≡ refuses fault }
    {
        Step {
            output: Output {
                given: None,
                kept: false,
                ended: false,
            },
            next: Next::Refuse(fault),
        }
    }

    // The same, behind an escape that gives this character.
    pub fn after(self, given: char) -> Self
        ensures { result ≡ after given self }
    {
        Step {
            output: Output {
                given: Some(given),
                kept: self.output.kept,
                ended: self.output.ended,
            },
            next: self.next,
        }
    }
}
