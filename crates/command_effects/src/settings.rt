//! The options of a document and a widget: their defaults, how their values are read, and how they are shown.

ghost use Rattle.std.specs.Prelude.{◌≡◌, ◌+◌, ◌≤◌, length, chars, ok_or, IfOk};
ghost use Rattle.command_table.specs.Numbers.{boolean_of, integer_of};
ghost use Rattle.tcl_words.specs.Unread.{texts_of};
ghost use Rattle.command_effects.specs.declared.answers.Fault.TheVariants.{BadBoolean, BadInteger, BadOption};
ghost use Rattle.command_effects.specs.Settings.{end_bound, first_document_settings, first_settings, history_under};
ghost use Rattle.command_effects.specs.Settings.{line_answer, line_numbered, line_of_word, recording_of};
ghost use Rattle.command_effects.specs.Settings.{setting_answer, setting_read, settings_checked, settings_read};
ghost use Rattle.command_effects.specs.Settings.{start_bound, state_of, state_word};
ghost use Rattle.undo_stack.specs.History.{limit_of};
ghost use Rattle.std.specs.Fmt.{signed_decimal};

use crate::answers::{Answer, Fault};
use command_table::{boolean, integer, is_word};
use edit_ops::Recording;
use itoa::Buffer;
use std::alloc::{AllocError, Global};
use text_model::Text;
use undo_stack::UndoStack;

/// The options of a document (text(n), "WIDGET-SPECIFIC OPTIONS").
#[derive(Clone, Copy, Debug, PartialEq, Eq)]
pub struct DocumentSettings {
    /// Whether actions are kept to be undone.
    pub undo: bool,
    /// Whether an edit of another kind than the one before begins a group of its own.
    pub separators: bool,
    /// The greatest number of groups, where it is above 0.
    pub most_undo: i32,
}

/// The options of a widget and of the document that it shows (text(n), "WIDGET-SPECIFIC OPTIONS").
#[derive(Clone, Copy, Debug, PartialEq, Eq)]
pub struct Settings {
    pub document: DocumentSettings,
    /// Whether the widget's commands leave the text as it is.
    pub disabled: bool,
    /// The line of the document, from 1, at which the widget's view begins.
    pub start: Option<usize>,
    /// The line of the document, from 1, before which the widget's view ends.
    pub end: Option<usize>,
}

/// The boolean that the word at a position is.
pub fn boolean_at(position: usize, word: &str) -> Result<bool, Fault>
    ensures { result ≡ ok_or (boolean_of (chars word.now)) (BadBoolean position) }
{
    boolean(word).map_err(|_| Fault::BadBoolean(position))
}

/// The integer that the word at a position is.
fn integer_at(position: usize, word: &str) -> Result<i32, Fault>
    ensures { result ≡ ok_or (integer_of (chars word.now)) (BadInteger position) }
{
    integer(word).map_err(|_| Fault::BadInteger(position))
}

/// Whether the word at a position, that of a widget's state, says that it is disabled.
fn state_at(position: usize, word: &str) -> Result<bool, Fault>
    ensures { result ≡ ok_or (state_of (chars word.now)) (BadOption position) }
{
    if is_word(word, "normal") {
        Ok(false)
    } else if is_word(word, "disabled") {
        Ok(true)
    } else {
        Err(Fault::BadOption(position))
    }
}

/// The line of a number, which is above 0.
fn line_numbered(number: i32) -> Option<usize>
    ensures { result ≡ line_numbered number }
{
    (number > 0).then_some(number.unsigned_abs() as usize)
}

/// The line that the word at a position is; none where it is empty.
fn line_at(position: usize, word: &str) -> Result<Option<usize>, Fault>
    ensures { result ≡ ok_or (line_of_word (chars word.now)) (BadInteger position) }
{
    if word.is_empty() {
        return Ok(None);
    }
    let line = line_numbered(integer_at(position, word)?).ok_or(Fault::BadInteger(position))?;
    Ok(Some(line))
}

/// The line at which a view begins, in a document of so many lines.
fn start_bound(lines: usize, asked: Option<usize>) -> Option<usize>
    ensures { result ≡ start_bound lines asked }
{
    Some(asked?.min(lines.saturating_add(1)))
}

/// The line before which a view ends, in a document of so many lines.
fn end_bound(lines: usize, asked: Option<usize>) -> Option<usize>
    ensures { result ≡ end_bound lines asked }
{
    asked.filter(|line| *line <= lines)
}

/// A number as a text.
fn number_text(alloc: Global, number: i32) -> Result<Text, AllocError>
    ensures { IfOk result (λ text. text ≡ signed_decimal number) }
{
    let mut buffer = Buffer::new();
    let digits = buffer.format(number);
    Ok(Text::new(String::from_str(alloc, digits)?))
}

/// A line's number, or nothing where there is none.
fn line_answer(alloc: Global, line: Option<usize>) -> Result<Answer, AllocError>
    ensures { IfOk result (λ answer. answer ≡ line_answer line) }
{
    match line {
        None => Ok(Answer::Empty),
        Some(line) => {
            let mut buffer = Buffer::new();
            let digits = buffer.format(line);
            Ok(Answer::Text(Text::new(String::from_str(alloc, digits)?)))
        }
    }
}

impl DocumentSettings {
    /// The options of a new document.
    pub fn new() -> DocumentSettings
        ensures { result ≡ first_document_settings }
    {
        DocumentSettings {
            undo: false,
            separators: true,
            most_undo: 0,
        }
    }

    /// What of an edit is kept to be undone.
    pub fn recording(self) -> Recording
        ensures { result ≡ recording_of self }
    {
        Recording {
            undo: self.undo,
            separators: self.separators,
        }
    }

    /// Makes a history what these settings say: no more groups than the limit, and none where no action is kept.
    pub fn bound(self, history: &mut UndoStack)
        ensures history { history.new.history ≡ history_under self history.old.history }
        ensures modified { history.new.modified ≡ history.old.modified }
        ensures most { history.new.most ≡ limit_of self.most_undo }
    {
        if !self.undo {
            history.reset();
        }
        history.set_limit(self.most_undo);
        history.give_back_room();
    }
}

impl Settings {
    /// The options of a new document and its widget.
    pub fn new() -> Settings
        ensures { result ≡ first_settings }
    {
        Settings {
            document: DocumentSettings::new(),
            disabled: false,
            start: None,
            end: None,
        }
    }

    /// The settings with the value of an option, which stands at a position, for a document of so many lines. The name
    /// is one of the options.
    fn read_one(
        self,
        position: usize,
        option: &str,
        value: &str,
        lines: usize,
    ) -> Result<Settings, Fault>
        ensures { result ≡ setting_read lines position (chars option.now) (chars value.now) self }
    {
        let mut settings = self;
        if is_word(option, "-undo") {
            settings.document.undo = boolean_at(position, value)?;
        } else if is_word(option, "-maxundo") {
            settings.document.most_undo = integer_at(position, value)?;
        } else if is_word(option, "-autoseparators") {
            settings.document.separators = boolean_at(position, value)?;
        } else if is_word(option, "-state") {
            settings.disabled = state_at(position, value)?;
        } else if is_word(option, "-startline") {
            settings.start = start_bound(lines, line_at(position, value)?);
        } else {
            settings.end = end_bound(lines, line_at(position, value)?);
        }
        Ok(settings)
    }

    /// The settings with the values of options, each a name with its value behind it, for a document of so many lines.
    /// The first stands at a position.
    pub fn read(self, position: usize, words: &[String], lines: usize) -> Result<Settings, Fault>
        requires { position + length words.now ≤ usize.MAX }
        ensures { result ≡ settings_read lines position (texts_of words.now) self }
    {
        let mut settings = self;
        let mut here = position;
        let mut rest = words;
        while rest.len() >= 2 {
            settings = settings.read_one(here + 1, rest[0].as_str(), rest[1].as_str(), lines)?;
            rest = &rest[2..];
            here += 2;
        }
        if rest.is_empty() {
            Ok(settings)
        } else {
            Err(Fault::WrongArguments)
        }
    }

    /// These settings, unless the view would begin behind its end.
    pub fn checked(self) -> Result<Settings, Fault>
        ensures { result ≡ settings_checked self }
    {
        match (self.start, self.end) {
            (Some(start), Some(end)) if start > end => Err(Fault::StartLineAfterEndLine),
            _ => Ok(self),
        }
    }

    /// The word of the widget's state.
    fn state_word(self) -> &'static str
        ensures { chars result.now ≡ state_word self.disabled }
    {
        if self.disabled { "disabled" } else { "normal" }
    }

    /// The value of an option. The name is one of the options.
    pub fn answer(self, alloc: Global, option: &str) -> Result<Answer, AllocError>
        ensures { IfOk result (λ answer. answer ≡ setting_answer (chars option.now) self) }
    {
        if is_word(option, "-undo") {
            Ok(Answer::Flag(self.document.undo))
        } else if is_word(option, "-maxundo") {
            Ok(Answer::Text(number_text(alloc, self.document.most_undo)?))
        } else if is_word(option, "-autoseparators") {
            Ok(Answer::Flag(self.document.separators))
        } else if is_word(option, "-state") {
            let word = String::from_str(alloc, self.state_word())?;
            Ok(Answer::Text(Text::new(word)))
        } else if is_word(option, "-startline") {
            line_answer(alloc, self.start)
        } else {
            line_answer(alloc, self.end)
        }
    }
}
