//! The words of a command, as C gives them.
ghost use Rattle.std.specs.Prelude.{◌≡◌, ◌≢◌, ◌<◌, ◌≤◌, ◌+◌, ◌++◌, ◌∷◌, [], IfOk, OnOk, IsErrOf, IsUtf8, chars};
ghost use Rattle.std.specs.Prelude.{length, take, vec_len};
ghost use Rattle.tcl_words.specs.Unread.{texts_of};
ghost use Rattle.handles.specs.declared.words.WordsFault.TheVariants.{Memory};
ghost use Rattle.handles.specs.Words.{cut, words_at, AreLengths, AreTexts};

use std::alloc::{AllocError, Global};

/// Why there are no words.
#[derive(Clone, Copy)]
pub(crate) enum WordsFault {
    /// There is no length, or the lengths don't add up to the bytes.
    Lengths,
    /// A word isn't UTF-8.
    NotText,
    /// Memory was refused.
    Memory,
}

impl From<AllocError> for WordsFault {
    ghost from_gives = { λ _ fault. fault ≡ Memory };

    fn from(_: AllocError) -> Self {
        WordsFault::Memory
    }
}

/// Reads words whose bytes follow one another, one for each length. They replace the words of a list, whose memory is
/// used again.
pub(crate) fn read_words(
    alloc: Global,
    words: Vec<String>,
    bytes: &[u8],
    lengths: &[usize],
) -> Result<Vec<String>, WordsFault>
    ensures words { IfOk result (λ words. texts_of words.items ≡ words_at lengths.now bytes.now) }
    ensures some { IfOk result (λ words. 0 < vec_len words) }
    ensures fits { OnOk result (AreLengths lengths.now bytes.now) }
    ensures texts { OnOk result (AreTexts (cut lengths.now bytes.now)) }
    ensures lengths { IsErrOf result WordsFault.Lengths → ¬ AreLengths lengths.now bytes.now }
    ensures not_text { IsErrOf result WordsFault.NotText → ¬ AreTexts (cut lengths.now bytes.now) }
{
    if lengths.is_empty() {
        return Err(WordsFault::Lengths);
    }
    // Bytes that are text as a whole are checked once for all words.
    match str::from_utf8(bytes) {
        Ok(text) => cut_text(alloc, words, text, lengths),
        Err(_) => Err(fault_of(bytes, lengths)),
    }
}

/// Cuts a text into words, one for each length, which replace the words of a list.
fn cut_text(
    alloc: Global,
    mut words: Vec<String>,
    text: &str,
    lengths: &[usize],
) -> Result<Vec<String>, WordsFault>
    requires { 0 < length lengths.now }
    ensures words { IfOk result (λ words. texts_of words.items ≡ words_at lengths.now text.now) }
    ensures some { IfOk result (λ words. 0 < vec_len words) }
    ensures fits { OnOk result (AreLengths lengths.now text.now) }
    ensures texts { OnOk result (AreTexts (cut lengths.now text.now)) }
    ensures lengths { IsErrOf result WordsFault.Lengths → ¬ AreLengths lengths.now text.now }
    ensures not_text { IsErrOf result WordsFault.NotText → ¬ AreTexts (cut lengths.now text.now) }
{
    words.reserve_exact(lengths.len().saturating_sub(words.len()))?;
    let mut rest = text;
    for (index, length) in lengths.iter().enumerate() {
        let Some((word, others)) = rest.split_at_checked(*length) else {
            return Err(cut_fault(rest, *length));
        };
        write_word(alloc, &mut words, index, word)?;
        rest = others;
    }
    if !rest.is_empty() {
        return Err(WordsFault::Lengths);
    }
    words.truncate(lengths.len());
    Ok(words)
}

/// Writes a word over the one at an index, whose memory is used again, or after the last one.
fn write_word(
    alloc: Global,
    words: &mut Vec<String>,
    index: usize,
    text: &str,
) -> Result<(), AllocError>
    requires index { index ≤ vec_len words.old }
    ensures len { OnOk result (index < vec_len words.new) }
    ensures words { OnOk result (take (index + 1) (texts_of words.new.items)
        ≡ take index (texts_of words.old.items) ++ chars text.now ∷ []) }
{
    if index < words.len() {
        let word = &mut words[index];
        word.clear();
        word.push_str(text)?;
    } else {
        let mut word = String::new(alloc);
        word.push_str(text)?;
        words.push(word)?;
    }
    Ok(())
}

/// Returns why a text can't be cut at a length.
fn cut_fault(text: &str, len: usize) -> WordsFault
    ensures lengths { result ≡ WordsFault.Lengths → length text.now < len }
    ensures not_text { result ≡ WordsFault.NotText → len ≤ length text.now }
    ensures faults { result ≢ WordsFault.Memory }
{
    if len <= text.len() {
        WordsFault::NotText
    } else {
        WordsFault::Lengths
    }
}

/// Returns why bytes that aren't text as a whole can't be words of these lengths.
fn fault_of(bytes: &[u8], lengths: &[usize]) -> WordsFault
    requires { ¬ IsUtf8 bytes.now }
    ensures lengths { result ≡ WordsFault.Lengths → ¬ AreLengths lengths.now bytes.now }
    ensures not_text { result ≡ WordsFault.NotText → ¬ AreTexts (cut lengths.now bytes.now) }
    ensures faults { result ≢ WordsFault.Memory }
{
    let mut rest = bytes;
    for length in lengths {
        let Some((word, others)) = rest.split_at_checked(*length) else {
            return WordsFault::Lengths;
        };
        if str::from_utf8(word).is_err() {
            return WordsFault::NotText;
        }
        rest = others;
    }
    WordsFault::Lengths
}
