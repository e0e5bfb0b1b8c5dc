//! Writes the words of a command from its text, with backslash escapes replaced.

ghost use Rattle.std.specs.Prelude.{◌≡◌, ◌<◌, [], ◌∷◌, ◌++◌, ℕ, List, IfOk, OnOk, map, chars, length, ◌≤◌, IsUtf8};
ghost use Rattle.std.specs.Prelude.{string_bytes, encode_utf8, encode_utf8_all};
ghost use Rattle.tcl_words.specs.Scanning.{pieces_from, word_with, words_after, word_after, words_on};
ghost use Rattle.tcl_words.specs.declared.stage.Stage.TheVariants.{BeforeCommand, Text};
ghost use Rattle.tcl_words.specs.declared.stage.TextWord.TheVariants.{Quoted};

use crate::plain_words::plain_word;
use crate::quoted::push_quoted;
use crate::runs::plain_run;
use crate::stage::{Next, Output, Stage, TextWord};
use crate::steps::{last_from, step_from};
use std::alloc::{AllocError, Global};

/// Words that were written, and one that is under way.
#[derive(Drop)]
pub struct Writer {
    pub words: Vec<String>,
    pub word: String,
    /// How many bytes the word has room for from its first byte on.
    room: usize,
}

impl Writer {
    /// Nothing written, and no memory taken. A word that isn't added whole has room for so many bytes.
    pub fn new(alloc: Global, room: usize) -> Self
        ensures words { result.words.items ≡ [] }
        ensures word { string_bytes result.word ≡ [] }
    {
        Writer {
            words: Vec::new(alloc),
            word: String::new(alloc),
            room,
        }
    }

    /// Makes room for the word under way, where none was made.
    fn make_room(&mut self) -> Result<(), AllocError>
        ensures words { self.new.words ≡ self.old.words }
        ensures word { string_bytes self.new.word ≡ string_bytes self.old.word }
    {
        if self.word.capacity() == 0 {
            self.word.reserve(self.room)?;
        }
        Ok(())
    }

    /// Adds bytes to the word under way.
    pub fn keep(&mut self, part: &str) -> Result<(), AllocError>
        ensures words { map (λ word. string_bytes word) self.new.words.items
            ≡ map (λ word. string_bytes word) self.old.words.items }
        ensures word { OnOk result (string_bytes self.new.word ≡ string_bytes self.old.word ++ part.now) }
    {
        self.make_room()?;
        self.word.push_str(part)?;
        Ok(())
    }

    /// Adds the front of a text that leaves a quoted word as it is: ordinary characters, and escapes of two. Answers
    /// what follows.
    fn keep_quoted<'a>(&mut self, text: &'a str) -> Result<&'a str, AllocError>
        ensures words { map (λ word. string_bytes word) self.new.words.items
            ≡ map (λ word. string_bytes word) self.old.words.items }
        ensures word { IfOk result (λ rest. words_on (string_bytes self.old.word) text.now (Text Quoted)
            ≡ words_on (string_bytes self.new.word) rest.now (Text Quoted)) }
        ensures shorter { IfOk result (λ rest. length rest.now ≤ length text.now) }
        ensures utf8 { IfOk result (λ rest. IsUtf8 rest.now) }
    {
        self.make_room()?;
        push_quoted(&mut self.word, text)
    }

    /// The same from a stage, where that is within a quoted word.
    fn keep_front<'a>(&mut self, stage: Stage, text: &'a str) -> Result<&'a str, AllocError>
        ensures words { map (λ word. string_bytes word) self.new.words.items
            ≡ map (λ word. string_bytes word) self.old.words.items }
        ensures word { IfOk result (λ rest. words_on (string_bytes self.old.word) text.now stage
            ≡ words_on (string_bytes self.new.word) rest.now stage) }
        ensures shorter { IfOk result (λ rest. length rest.now ≤ length text.now) }
        ensures utf8 { IfOk result (λ rest. IsUtf8 rest.now) }
    {
        match stage {
            Stage::Text(TextWord::Quoted) => self.keep_quoted(text),
            _ => Ok(text),
        }
    }

    /// Adds a word that is whole.
    pub fn add(&mut self, alloc: Global, word: &str) -> Result<(), AllocError>
        ensures words { OnOk result (map (λ word. string_bytes word) self.new.words.items
            ≡ map (λ word. string_bytes word) self.old.words.items ++ word.now ∷ []) }
        ensures word { string_bytes self.new.word ≡ string_bytes self.old.word }
    {
        self.words.push(String::from_str(alloc, word)?)?;
        Ok(())
    }

    /// Writes what a character adds.
    pub fn write(&mut self, alloc: Global, output: Output, c: char) -> Result<(), AllocError>
        ensures word { OnOk result (string_bytes self.new.word
            ≡ word_after output.ended (word_with output c (string_bytes self.old.word))) }
        ensures words { OnOk result (map (λ word. string_bytes word) self.new.words.items
            ≡ words_after output.ended (word_with output c (string_bytes self.old.word))
            (map (λ word. string_bytes word) self.old.words.items)) }
    {
        self.make_room()?;
        if let Some(given) = output.given {
            self.word.push(given)?;
        }
        if output.kept {
            self.word.push(c)?;
        }
        if output.ended {
            self.words
                .push(String::from_str(alloc, self.word.as_str())?)?;
            self.word.clear();
        }
        Ok(())
    }
}

/// The first character of a text.
pub fn first_char(text: &str) -> char
    requires { 0 < length text.now }
    ensures { (rest : List ℕ) × (text.now ≡ encode_utf8 result ++ rest) × (chars text.now ≡ result ∷ chars rest) }
{
    text.chars().next().unwrap()
}

/// The words of a command's text.
pub fn words_of(alloc: Global, text: &str) -> Result<Vec<String>, AllocError>
    ensures { IfOk result (λ words. map (λ word. string_bytes word) words.items
        ≡ map encode_utf8_all (pieces_from (chars text.now) BeforeCommand)) }
{
    let mut writer = Writer::new(alloc, text.len());
    let mut stage = Stage::BeforeCommand;
    let mut rest = text;
    while !rest.is_empty() {
        let bytes = rest.as_bytes();
        if writer.word.as_str().is_empty() {
            if let Some(word) = plain_word(stage, bytes) {
                let text = unsafe { str::from_utf8_unchecked(&bytes[word.from..word.to]) };
                writer.add(alloc, text)?;
                if word.is_last {
                    return Ok(writer.words);
                }
                stage = Stage::BeforeWord;
                rest = unsafe { str::from_utf8_unchecked(&bytes[word.len..]) };
                continue;
            }
        }
        let run = plain_run(stage, bytes);
        if run > 0 {
            writer.keep(&rest[..run])?;
            rest = &rest[run..];
            continue;
        }
        let c = first_char(rest);
        let step = step_from(stage, c);
        writer.write(alloc, step.output, c)?;
        match step.next {
            Next::Go(next) => stage = next,
            Next::End | Next::Refuse(_) => return Ok(writer.words),
        }
        rest = writer.keep_front(stage, &rest[c.len_utf8()..])?;
    }
    writer.write(alloc, last_from(stage).output, '\0')?;
    Ok(writer.words)
}
