//! Ordinary characters of a quoted word, and escapes of two.

ghost use Rattle.std.specs.Prelude.{◌≡◌, ◌≤◌, ◌++◌, length, take, drop, true, IfOk, IsUtf8, string_bytes};
ghost use Rattle.tcl_words.specs.PlainWords.{is_quoted_text, unquoted};
ghost use Rattle.tcl_words.specs.Scanning.{scanned, later, words_on};
ghost use Rattle.tcl_words.specs.declared.stage.Stage.TheVariants.{Text};
ghost use Rattle.tcl_words.specs.declared.stage.TextWord.TheVariants.{Quoted};

use crate::escapes::pair_gives;
use crate::runs::quoted_run;
use std::alloc::AllocError;

/// How many bytes at the front leave a quoted word as it is: ordinary ones, and escapes of two.
pub fn quoted_front(bytes: &[u8]) -> usize
    ensures within { result ≤ length bytes.now }
    ensures scans { scanned bytes.now (Text Quoted) ≡ later result (scanned (drop result bytes.now) (Text Quoted)) }
    ensures front { is_quoted_text (take result bytes.now) ≡ true }
{
    let mut index = 0;
    while index < bytes.len() {
        index += quoted_run(&bytes[index..]);
        if index + 1 >= bytes.len() || bytes[index] != b'\\' {
            return index;
        }
        let Some(_) = pair_gives(char::from(bytes[index + 1])) else {
            return index;
        };
        index += 2;
    }
    index
}

/// Adds to a word what the front of a text spells that leaves a quoted word as it is: ordinary characters, and escapes
/// of two. Answers what follows.
pub fn push_quoted<'a>(word: &mut String, text: &'a str) -> Result<&'a str, AllocError>
    ensures word { IfOk result (λ rest. words_on (string_bytes word.old) text.now (Text Quoted)
        ≡ words_on (string_bytes word.new) rest.now (Text Quoted)) }
    ensures all { IfOk result (λ rest. is_quoted_text text.now ≡ true →
        string_bytes word.new ≡ string_bytes word.old ++ unquoted text.now) }
    ensures shorter { IfOk result (λ rest. length rest.now ≤ length text.now) }
    ensures utf8 { IfOk result (λ rest. IsUtf8 rest.now) }
{
    let mut rest = text;
    while !rest.is_empty() {
        let bytes = rest.as_bytes();
        let run = quoted_run(bytes);
        if run > 0 {
            word.push_str(&rest[..run])?;
            rest = &rest[run..];
            continue;
        }
        if bytes[0] != b'\\' || bytes.len() < 2 {
            return Ok(rest);
        }
        // A character beyond ASCII stands for itself.
        if bytes[1] > 127 {
            rest = &rest[1..];
            continue;
        }
        let Some(given) = pair_gives(char::from(bytes[1])) else {
            return Ok(rest);
        };
        word.push(given)?;
        rest = &rest[2..];
    }
    Ok(rest)
}
