//! Commands of words that stand in the script as they are, which are read in one go.

ghost use Rattle.std.specs.Prelude.{◌≡◌, ◌<◌, ◌≤◌, ◌+◌, ◌++◌, ◌∷◌, [], length, slice_index, map, filter, take};
ghost use Rattle.std.specs.Prelude.{nat_lt, vec_len, vec_capacity};
ghost use Rattle.std.specs.Prelude.{string_bytes, string_capacity, IfOk, OnOk, IfSome, None, true, false};
ghost use Rattle.std.specs.List.{All};
ghost use Rattle.tcl_words.specs.PlainWords.{IsPlainWord, IsFoundWord, IsClosed, IsPlainCommand, EndsWord};
ghost use Rattle.tcl_words.specs.PlainWords.{IsWordText, spelled_by};
ghost use Rattle.tcl_words.specs.Characters.{is_blank, is_end};
ghost use Rattle.tcl_words.specs.Runs.{is_bare, begun};
ghost use Rattle.tcl_words.specs.declared.stage.Stage.TheVariants.{BeforeWord, Text};
ghost use Rattle.tcl_words.specs.declared.stage.TextWord.TheVariants.{Bare};

use crate::quoted::{push_quoted, quoted_front};
use crate::runs::{bare_run, braced_run, quoted_run};
use crate::stage::Stage;
use crate::steps::{is_blank, is_end};
use std::alloc::{AllocError, Global};

/// A word at the front of some bytes, which it stands in as it is.
#[derive(Clone, Copy)]
pub struct PlainWord {
    /// Its bytes stand from here to before `to`.
    pub from: usize,
    pub to: usize,
    /// So many bytes it takes, with what ends it.
    pub len: usize,
    /// Whether the command ends with it.
    pub is_last: bool,
    /// Whether it is a quoted one with escapes of two.
    pub has_escapes: bool,
}

// The text of a word, and whether it is that of a quoted one with escapes.
#[derive(Clone, Copy)]
struct WordText<'a> {
    text: &'a str,
    has_escapes: bool,
}

// A command of more words is none of these: so none is made before the end of its command is found.
const MOST: usize = 16;

// Room for so many bytes isn't kept for another word,
const LONG: usize = 4_096;

// nor is room for more words.
const MANY: usize = MOST;

// The words at the front of a command.
#[derive(Clone, Copy)]
struct FoundWords {
    count: usize,
    // How many bytes the command has.
    len: usize,
}

impl<'a> WordText<'a> {
    // Adds what it spells, which has no more bytes than it.
    fn add_to(&self, word: &mut String) -> Result<(), AllocError>
        requires { IsWordText self.now.has_escapes self.now.text.now }
        ensures { OnOk result (string_bytes word.new
            ≡ string_bytes word.old ++ spelled_by self.now.has_escapes self.now.text.now) }
    {
        if self.has_escapes {
            word.reserve(self.text.len())?;
            push_quoted(word, self.text)?;
        } else {
            word.push_str(self.text)?;
        }
        Ok(())
    }

    // What it spells.
    fn spelled(&self, alloc: Global) -> Result<String, AllocError>
        requires { IsWordText self.now.has_escapes self.now.text.now }
        ensures { IfOk result (λ word. string_bytes word ≡ spelled_by self.now.has_escapes self.now.text.now) }
    {
        if !self.has_escapes {
            return String::from_str(alloc, self.text);
        }
        let mut word = String::with_capacity(alloc, self.text.len())?;
        push_quoted(&mut word, self.text)?;
        Ok(word)
    }
}

// Whether the byte begins a bare word if it is an ordinary one of such a word.
fn opens_bare(stage: Stage, byte: u8) -> bool
    ensures { result ≡ true → is_bare byte ≡ true → begun stage byte ≡ Text Bare }
{
    match stage {
        Stage::BeforeCommand => byte != b'{' && byte != b'"' && byte != b'#',
        Stage::BeforeWord => byte != b'{' && byte != b'"',
        _ => false,
    }
}

// Whether a byte that ends a word ends the command too.
fn end_of_word(byte: u8) -> Option<bool>
    ensures ends { IfSome result (λ is_last. EndsWord byte is_last) }
    ensures other { result ≡ None → (is_blank byte ≡ false) × (is_end byte ≡ false) }
{
    let behind = char::from(byte);
    if is_blank(behind) {
        Some(false)
    } else if is_end(behind) {
        Some(true)
    } else {
        None
    }
}

// A bare word without escapes.
fn bare_word(stage: Stage, bytes: &[u8]) -> Option<PlainWord>
    requires { 0 < length bytes.now }
    ensures { IfSome result (λ word. IsPlainWord stage bytes.now word) }
{
    if !opens_bare(stage, bytes[0]) {
        return None;
    }
    let run = bare_run(bytes);
    if run == 0 || run >= bytes.len() {
        return None;
    }
    let is_last = end_of_word(bytes[run])?;
    Some(PlainWord {
        from: 0,
        to: run,
        len: run + 1,
        is_last,
        has_escapes: false,
    })
}

// A word between its first byte and this one, with a run of so many bytes between them.
fn closed_word(bytes: &[u8], run: usize, close: u8) -> Option<PlainWord>
    requires { run + 1 ≤ length bytes.now }
    ensures { IfSome result (λ word. IsClosed bytes.now run close word) }
{
    let left = bytes.len() - run;
    if left < 3 || bytes[run + 1] != close {
        return None;
    }
    let is_last = end_of_word(bytes[run + 2])?;
    Some(PlainWord {
        from: 1,
        to: run + 1,
        len: run + 3,
        is_last,
        has_escapes: false,
    })
}

// A braced word without braces and backslashes in it, behind another word.
fn braced_word(bytes: &[u8]) -> Option<PlainWord>
    requires some { 0 < length bytes.now }
    requires brace { slice_index bytes.now 0 ≡ 123 }
    ensures { IfSome result (λ word. IsPlainWord BeforeWord bytes.now word) }
{
    let rest = &bytes[1..];
    if rest.is_empty() || rest[0] == b'*' {
        return None;
    }
    closed_word(bytes, braced_run(rest), b'}')
}

// A quoted word without escapes, behind another word.
fn quoted_word(bytes: &[u8]) -> Option<PlainWord>
    requires some { 0 < length bytes.now }
    requires quote { slice_index bytes.now 0 ≡ 34 }
    ensures { IfSome result (λ word. IsPlainWord BeforeWord bytes.now word) }
{
    closed_word(bytes, quoted_run(&bytes[1..]), b'"')
}

/// The word at the front of some bytes, if it stands in them as it is.
#[inline(always)]
pub fn plain_word(stage: Stage, bytes: &[u8]) -> Option<PlainWord>
    requires { 0 < length bytes.now }
    ensures { IfSome result (λ word. IsPlainWord stage bytes.now word) }
{
    match (stage, bytes[0]) {
        (Stage::BeforeWord, b'{') => braced_word(bytes),
        (Stage::BeforeWord, b'"') => quoted_word(bytes),
        _ => bare_word(stage, bytes),
    }
}

// A quoted word with escapes of two alone, or with none, behind another word.
fn escaped_word(bytes: &[u8]) -> Option<PlainWord>
    requires some { 0 < length bytes.now }
    requires quote { slice_index bytes.now 0 ≡ 34 }
    ensures { IfSome result (λ word. IsFoundWord BeforeWord bytes.now word word.has_escapes) }
{
    let rest = &bytes[1..];
    let run = quoted_run(rest);
    let more = quoted_front(&rest[run..]);
    let word = closed_word(bytes, run + more, b'"')?;
    Some(PlainWord {
        has_escapes: more > 0,
        ..word
    })
}

// The word at the front of some bytes, if it stands in them as it is but for escapes of two in a quoted one.
#[inline(always)]
fn found_word(stage: Stage, bytes: &[u8]) -> Option<PlainWord>
    requires { 0 < length bytes.now }
    ensures { IfSome result (λ word. IsFoundWord stage bytes.now word word.has_escapes) }
{
    match (stage, bytes[0]) {
        (Stage::BeforeWord, b'{') => braced_word(bytes),
        (Stage::BeforeWord, b'"') => escaped_word(bytes),
        _ => bare_word(stage, bytes),
    }
}

// The words of the command at the front of a text, if they are few and such.
fn found_words<'a>(text: &'a str, words: &mut [WordText<'a>; MOST]) -> Option<FoundWords>
    ensures { IfSome result (λ found. (found.count ≤ length words.new)
        × All (λ word. IsWordText word.has_escapes word.text.now) (take found.count words.new)
        × IsPlainCommand text.now (map (λ word. spelled_by word.has_escapes word.text.now)
        (take found.count words.new)) found.len) }
{
    let bytes = text.as_bytes();
    let mut stage = Stage::BeforeCommand;
    let mut index = 0;
    for count in 0..MOST {
        let rest = &bytes[index..];
        if rest.is_empty() {
            return None;
        }
        let word = found_word(stage, rest)?;
        words[count] = WordText {
            text: unsafe { str::from_utf8_unchecked(&rest[word.from..word.to]) },
            has_escapes: word.has_escapes,
        };
        index += word.len;
        if word.is_last {
            return Some(FoundWords {
                count: count + 1,
                len: index,
            });
        }
        stage = Stage::BeforeWord;
    }
    None
}

// Writes a word over the one that stands at a place, whose memory is used again, or behind them all.
fn write_word(
    alloc: Global,
    words: &mut Vec<String>,
    place: usize,
    text: &WordText,
) -> Result<(), AllocError>
    requires place { place ≤ vec_len words.old }
    requires text { IsWordText text.now.has_escapes text.now.text.now }
    ensures len { OnOk result (place < vec_len words.new) }
    ensures words { OnOk result (take (place + 1) (map (λ word. string_bytes word) words.new.items)
        ≡ take place (map (λ word. string_bytes word) words.old.items)
        ++ spelled_by text.now.has_escapes text.now.text.now ∷ []) }
{
    if place < words.len() {
        let word = &mut words[place];
        word.clear();
        text.add_to(word)?;
    } else {
        words.push(text.spelled(alloc)?)?;
    }
    Ok(())
}

// Writes words over those that stand there, whose memory is used again.
fn write_words(alloc: Global, words: &mut Vec<String>, texts: &[WordText]) -> Result<(), AllocError>
    requires { All (λ text. IsWordText text.has_escapes text.text.now) texts.now }
    ensures { OnOk result (map (λ word. string_bytes word) words.new.items
        ≡ map (λ text. spelled_by text.has_escapes text.text.now) texts.now) }
{
    words.reserve_exact(texts.len().saturating_sub(words.len()))?;
    for (place, text) in texts.iter().enumerate() {
        write_word(alloc, words, place, text)?;
    }
    words.truncate(texts.len());
    Ok(())
}

// Lets go of the words with much memory.
fn keep_short(words: &mut Vec<String>)
    ensures kept { words.new.items ≡ filter (λ word. nat_lt (string_capacity word) 4096) words.old.items }
    ensures capacity { vec_capacity words.new ≡ vec_capacity words.old }
{
    words.retain(|word| word.capacity() < LONG);
}

/// Lets go of memory for long words and for many, so that what is kept for the next command doesn't grow with those
/// before.
pub fn leave_long(alloc: Global, words: &mut Vec<String>)
    ensures few { vec_capacity words.new ≤ 16 }
    ensures short { vec_capacity words.old ≤ 16 →
        words.new.items ≡ filter (λ word. nat_lt (string_capacity word) 4096) words.old.items }
{
    if words.capacity() > MANY {
        *words = Vec::new(alloc);
    }
    keep_short(words);
}

/// How many bytes the command at the front of a text has, if it is of few such words alone. They are written over the
/// words, whose memory is used again.
pub fn plain_command(
    alloc: Global,
    text: &str,
    words: &mut Vec<String>,
) -> Result<Option<usize>, AllocError>
    ensures { IfOk result (λ found. IfSome found (λ len.
        IsPlainCommand text.now (map (λ word. string_bytes word) words.new.items) len)) }
{
    let nothing = WordText {
        text: "",
        has_escapes: false,
    };
    let mut texts = [nothing; MOST];
    let Some(found) = found_words(text, &mut texts) else {
        return Ok(None);
    };
    write_words(alloc, words, &texts[..found.count])?;
    Ok(Some(found.len))
}
