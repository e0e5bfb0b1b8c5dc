//! The output line for the reply to a command or for a script fault, as borrowed parts.

ghost use Rattle.std.specs.Prelude.{◌≡◌, ◌++◌, Ok, Err, chars};
ghost use Rattle.tcl_words.specs.Unread.{texts_of};
ghost use Rattle.command_effects.specs.Words.{literal};
ghost use Rattle.script_cli.specs.Lines.{piece, fault_line, error_line, line_text, printed, script_fault_text};
ghost use Rattle.script_cli.specs.Lines.{answer_text as spec_answer_text, word_at as spec_word_at};
ghost use Rattle.script_cli.specs.Lines.{front_of as spec_front_of};

use command_effects::{Answer, Fault};
use std::marker::Model;
use tcl_words::ScriptFault;

/// A line that is printed: an answer, or one or two words of the command, between texts of the program. It lends all of
/// them, so it takes no memory.
#[derive(Drop)]
pub struct Line<'a> {
    before: &'static str,
    word: &'a str,
    between: &'static str,
    other: &'a str,
    after: &'static str,
}

impl<'a> Model for Line<'a> {
    ghost use Rattle.std.specs.Prelude.{chars, IsUtf8};
    ghost use Rattle.script_cli.specs.Lines.{Line as LineText};

    ghost Value = { LineText };

    ghost view = { λ l. record {
      before = chars l.before.now;
      word = chars l.word.now;
      between = chars l.between.now;
      other = chars l.other.now;
      after = chars l.after.now;
    } };

    ghost invariant = { λ l. IsUtf8 l.before.now × IsUtf8 l.word.now × IsUtf8 l.between.now × IsUtf8 l.other.now
        × IsUtf8 l.after.now };
}

impl<'a> Line<'a> {
    /// The answer of a command of these words, or its fault.
    pub fn of_reply(words: &'a [String], reply: &'a Result<Answer, Fault>) -> Line<'a>
        ensures { line_text result ≡ piece (texts_of words.now) reply.now }
    {
        match reply {
            Ok(answer) => Line::of_answer(words, answer),
            Err(fault) => Line::of_fault(words, *fault),
        }
    }

    /// The fault of a script.
    pub fn of_script_fault(fault: ScriptFault) -> Line<'a>
        ensures { line_text result ≡ error_line (script_fault_text fault) }
    {
        match fault {
            ScriptFault::MissingBrace => Line::alone("error: missing close-brace\n"),
            ScriptFault::MissingQuote => Line::alone("error: missing \"\n"),
            ScriptFault::ExtraAfterBrace => {
                Line::alone("error: extra characters after close-brace\n")
            }
            ScriptFault::ExtraAfterQuote => {
                Line::alone("error: extra characters after close-quote\n")
            }
            ScriptFault::Substitution => Line::alone("error: substitution isn't supported\n"),
            ScriptFault::NotUtf8 => Line::alone("error: script isn't UTF-8\n"),
            ScriptFault::BadCharacterCode => Line::alone("error: bad character code\n"),
            ScriptFault::Memory => Line::alone("error: out of memory\n"),
        }
    }

    /// The texts that it is, one behind the other.
    pub fn parts(&self) -> (&'a str, &'a str, &'a str, &'a str, &'a str)
        ensures { (result.0.now ++ result.1.now) ++ ((result.2.now ++ result.3.now) ++ result.4.now)
            ≡ printed self.now }
    {
        (self.before, self.word, self.between, self.other, self.after)
    }

    fn of_answer(words: &'a [String], answer: &'a Answer) -> Line<'a>
        ensures { line_text result ≡ piece (texts_of words.now) (Ok answer.now) }
    {
        Line::around("", answer_text(words, answer), "\n")
    }

    fn around_two(
        before: &'static str,
        word: &'a str,
        between: &'static str,
        other: &'a str,
        after: &'static str,
    ) -> Line<'a>
        ensures { result ≡ record {
          before = chars before.now;
          word = chars word.now;
          between = chars between.now;
          other = chars other.now;
          after = chars after.now;
        } }
    {
        Line {
            before,
            word,
            between,
            other,
            after,
        }
    }

    fn around(before: &'static str, word: &'a str, after: &'static str) -> Line<'a>
        ensures { result ≡ record {
          before = chars before.now;
          word = chars word.now;
          between = literal "";
          other = literal "";
          after = chars after.now;
        } }
    {
        Line::around_two(before, word, "", "", after)
    }

    fn alone(text: &'static str) -> Line<'a>
        ensures { result ≡ record {
          before = chars text.now;
          word = literal "";
          between = literal "";
          other = literal "";
          after = literal "";
        } }
    {
        Line::around(text, "", "")
    }

    /// The line of a fault.
    fn of_fault(words: &'a [String], fault: Fault) -> Line<'a>
        ensures { result ≡ fault_line (texts_of words.now) fault }
    {
        match fault {
            Fault::BadIndex(position) => {
                Line::around("error: bad text index \"", word_at(words, position), "\"\n")
            }
            Fault::NoTaggedCharacters(position, len) => Line::around(
                "error: text doesn't contain any characters tagged with \"",
                front_of(word_at(words, position), len),
                "\"\n",
            ),
            Fault::NoSuchMark(position) => Line::around(
                "error: there is no mark named \"",
                word_at(words, position),
                "\"\n",
            ),
            Fault::NoSuchTag(position) => Line::around(
                "error: tag \"",
                word_at(words, position),
                "\" isn't defined in text widget\n",
            ),
            Fault::BadOption(position) => {
                Line::around("error: bad option \"", word_at(words, position), "\"\n")
            }
            Fault::WrongArguments => Line::alone("error: wrong # args\n"),
            Fault::InvalidCommandName(position) => Line::around(
                "error: invalid command name \"",
                word_at(words, position),
                "\"\n",
            ),
            Fault::WindowExists(position) => Line::around(
                "error: window name \"",
                word_at(words, position),
                "\" already exists\n",
            ),
            Fault::BadComparison(position) => Line::around(
                "error: bad comparison operator \"",
                word_at(words, position),
                "\"\n",
            ),
            Fault::BadGravity(position) => {
                Line::around(
                    "error: bad mark gravity \"",
                    word_at(words, position),
                    "\"\n",
                )
            }
            Fault::BadList(position) => {
                Line::around("error: bad list \"", word_at(words, position), "\"\n")
            }
            Fault::IndexOrder(position) => Line::around_two(
                "error: index \"",
                word_at(words, position),
                "\" before \"",
                word_at(words, position.saturating_sub(1)),
                "\" in the text\n",
            ),
            Fault::BadBoolean(position) => Line::around(
                "error: expected boolean value but got \"",
                word_at(words, position),
                "\"\n",
            ),
            Fault::BadInteger(position) => Line::around(
                "error: expected integer but got \"",
                word_at(words, position),
                "\"\n",
            ),
            Fault::StartLineAfterEndLine => {
                Line::alone("error: -startline must be less than or equal to -endline\n")
            }
            Fault::NothingToUndo => Line::alone("error: nothing to undo\n"),
            Fault::NothingToRedo => Line::alone("error: nothing to redo\n"),
            Fault::TooManyWidgets => Line::alone("error: too many widgets\n"),
            Fault::TooManyTags => Line::alone("error: too many tags\n"),
            Fault::TooManyMarks => Line::alone("error: too many marks\n"),
            Fault::TextTooLong => Line::alone("error: text is too long\n"),
            Fault::Memory => Line::alone("error: out of memory\n"),
        }
    }
}

fn answer_text<'a>(words: &'a [String], answer: &'a Answer) -> &'a str
    ensures { chars result.now ≡ spec_answer_text (texts_of words.now) answer.now }
{
    match answer {
        Answer::Empty => "",
        Answer::Word(position) => word_at(words, *position),
        Answer::Flag(true) => "1",
        Answer::Flag(false) => "0",
        Answer::Text(text) => text.as_str(),
    }
}

/// The text that so many bytes at the front of a word are; the whole word where these cut a character.
fn front_of(word: &str, len: usize) -> &str
    ensures { chars result.now ≡ spec_front_of len (chars word.now) }
{
    match word.split_at_checked(len) {
        Some((front, _)) => front,
        None => word,
    }
}

/// The word at a position; the empty text where there is none.
fn word_at(words: &[String], position: usize) -> &str
    ensures { chars result.now ≡ spec_word_at (texts_of words.now) position }
{
    match words.get(position) {
        Some(word) => word.as_str(),
        None => "",
    }
}
