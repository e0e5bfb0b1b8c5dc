//! What each character of a list's text does.

ghost use Rattle.std.specs.Prelude.{◌≡◌, ◌+◌, ◌≤◌};
ghost use Rattle.tcl_words.specs.ListSteps.{list_passes, list_keeps, list_closes, no_list, list_after, text_element};
ghost use Rattle.tcl_words.specs.ListSteps.{step_in_element, step_at_element, step_in_braces, element_by, list_step};
ghost use Rattle.tcl_words.specs.ListSteps.{last_in_element, last_element_by, last_list_step, open_braces};
ghost use Rattle.tcl_words.specs.ListText.{is_white};

use crate::escapes::{EscapeStage, EscapeStep};
use crate::stage::{Output, TextWord};

/// What the characters of a list so far lead to.
#[derive(Clone, Copy)]
pub enum ListStage {
    /// An element may begin.
    Between,
    /// In a bare or a quoted element.
    Text(TextWord),
    /// An escape was begun.
    Escaped(TextWord, EscapeStage),
    /// In a braced element, with so many open braces in it.
    Braced(usize),
    /// The same, behind a backslash that takes the next character along.
    BracedBackslash(usize),
    /// An element was closed.
    Closed,
}

/// Where a character leads, if the text may be a list.
#[derive(Clone, Copy)]
pub enum ListNext {
    Go(ListStage),
    Bad,
}

/// What a character does.
#[derive(Clone, Copy)]
pub struct ListStep {
    pub output: Output,
    pub next: ListNext,
}

impl ListStep {
    fn pass(stage: ListStage) -> Self
        ensures { result ≡ list_passes stage }
    {
        ListStep {
            output: Output {
                given: None,
                kept: false,
                ended: false,
            },
            next: ListNext::Go(stage),
        }
    }

    fn keep(stage: ListStage) -> Self
        ensures { result ≡ list_keeps stage }
    {
        ListStep {
            output: Output {
                given: None,
                kept: true,
                ended: false,
            },
            next: ListNext::Go(stage),
        }
    }

    fn close(stage: ListStage) -> Self
        ensures { result ≡ list_closes stage }
    {
        ListStep {
            output: Output {
                given: None,
                kept: false,
                ended: true,
            },
            next: ListNext::Go(stage),
        }
    }

    fn bad() -> Self
        ensures { result ≡ no_list }
    {
        ListStep {
            output: Output {
                given: None,
                kept: false,
                ended: false,
            },
            next: ListNext::Bad,
        }
    }

    // The same, behind an escape that gives this character.
    fn after(self, given: char) -> Self
        ensures { result ≡ list_after given self }
    {
        ListStep {
            output: Output {
                given: Some(given),
                kept: self.output.kept,
                ended: self.output.ended,
            },
            next: self.next,
        }
    }
}

/// Whether the character separates elements.
pub fn is_white(c: char) -> bool
    ensures { result ≡ is_white c }
{
    c == ' ' || c == '\t' || c == '\n' || c == '\r' || c == '\x0b' || c == '\x0c'
}

fn step_text(word: TextWord, c: char) -> ListStep
    ensures { result ≡ text_element word c }
{
    if c == '\\' {
        ListStep::pass(ListStage::Escaped(word, EscapeStage::Backslash))
    } else {
        ListStep::keep(ListStage::Text(word))
    }
}

fn step_in_element(word: TextWord, c: char) -> ListStep
    ensures { result ≡ step_in_element word c }
{
    match word {
        TextWord::Bare => if is_white(c) {
            ListStep::close(ListStage::Between)
        } else {
            step_text(word, c)
        },
        TextWord::Quoted => if c == '"' {
            ListStep::close(ListStage::Closed)
        } else {
            step_text(word, c)
        },
    }
}

fn step_at_element(c: char) -> ListStep
    ensures { result ≡ step_at_element c }
{
    if is_white(c) {
        ListStep::pass(ListStage::Between)
    } else if c == '{' {
        ListStep::pass(ListStage::Braced(0))
    } else if c == '"' {
        ListStep::pass(ListStage::Text(TextWord::Quoted))
    } else {
        step_text(TextWord::Bare, c)
    }
}

fn step_in_braces(depth: usize, c: char) -> ListStep
    requires { depth + 1 ≤ usize.MAX }
    ensures { result ≡ step_in_braces depth c }
{
    if c == '}' {
        if depth == 0 {
            ListStep::close(ListStage::Closed)
        } else {
            ListStep::keep(ListStage::Braced(depth - 1))
        }
    } else if c == '{' {
        ListStep::keep(ListStage::Braced(depth + 1))
    } else if c == '\\' {
        ListStep::keep(ListStage::BracedBackslash(depth))
    } else {
        ListStep::keep(ListStage::Braced(depth))
    }
}

fn step_by(word: TextWord, c: char, step: EscapeStep) -> ListStep
    ensures { result ≡ element_by word c step }
{
    match step {
        EscapeStep::Goes(stage) => ListStep::pass(ListStage::Escaped(word, stage)),
        EscapeStep::Gives(given) => ListStep::pass(ListStage::Text(word)).after(given),
        EscapeStep::Keeps => ListStep::keep(ListStage::Text(word)),
        EscapeStep::Before(given) => step_in_element(word, c).after(given),
        EscapeStep::NoCharacter => ListStep::bad(),
    }
}

/// What the next character does.
pub fn step_from(stage: ListStage, c: char) -> ListStep
    requires { open_braces stage + 1 ≤ usize.MAX }
    ensures { result ≡ list_step stage c }
{
    match stage {
        ListStage::Between => step_at_element(c),
        ListStage::Text(word) => step_in_element(word, c),
        ListStage::Escaped(word, escape) => step_by(word, c, escape.step(c)),
        ListStage::Braced(depth) => step_in_braces(depth, c),
        ListStage::BracedBackslash(depth) => ListStep::keep(ListStage::Braced(depth)),
        ListStage::Closed => if is_white(c) {
            ListStep::pass(ListStage::Between)
        } else {
            ListStep::bad()
        },
    }
}

fn last_in_element(word: TextWord) -> ListStep
    ensures { result ≡ last_in_element word }
{
    match word {
        TextWord::Bare => ListStep::close(ListStage::Between),
        TextWord::Quoted => ListStep::bad(),
    }
}

fn last_by(word: TextWord, given: Option<char>) -> ListStep
    ensures { result ≡ last_element_by word given }
{
    match given {
        Some(c) => last_in_element(word).after(c),
        None => ListStep::bad(),
    }
}

/// What the end of the text does.
pub fn last_from(stage: ListStage) -> ListStep
    ensures { result ≡ last_list_step stage }
{
    match stage {
        ListStage::Between | ListStage::Closed => ListStep::pass(ListStage::Between),
        ListStage::Text(word) => last_in_element(word),
        ListStage::Escaped(word, escape) => last_by(word, escape.last()),
        ListStage::Braced(_) | ListStage::BracedBackslash(_) => ListStep::bad(),
    }
}
