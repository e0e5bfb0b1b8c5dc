//! The characters of a line as UTF-8, with their number: access, insertion and removal by column.

ghost use Rattle.std.specs.Prelude.{◌≡◌, ◌+◌, ◌<◌, ◌≤◌, [], ◌∷◌, ◌++◌, ℕ, List, encode_utf8, length, take, drop};
ghost use Rattle.std.specs.Prelude.{chars, string_bytes, slice_range, slice_get, None, Some, IfOk, IfSome, OnOk, OnErr};
ghost use Rattle.std.specs.Prelude.{◌-◌, nat_lt, string_capacity, string_len};
ghost use Rattle.std.specs.List.{prefix_len, suffix_len};
ghost use Rattle.std.specs.Str.{IsCharBoundary};
ghost use Rattle.text_model.specs.Splices.{inserted, removed};

use std::alloc::{AllocError, Global};
use std::marker::Model;
use text_model::{CharacterTest, count_characters, front_bytes};

/// Some characters, with their number beside them: where each takes one byte, a column is found at once.
#[derive(Drop)]
pub struct Characters {
    text: String,
    count: usize,
}

impl Model for Characters {
    ghost use Rattle.std.specs.Prelude.{◌≡◌, List, ℕ, length, chars, string_bytes};

    ghost Value = { List ℕ };

    ghost view = { λ a. chars (string_bytes a.text) };

    ghost invariant = { λ a. a.count ≡ length (chars (string_bytes a.text)) };
}

/// The spare capacity, in bytes, of a copy of a text that has characters: it is made to be changed, mostly by a few
/// characters.
const MORE: usize = 8;

/// Whether a text has room for more bytes than a copy of it.
fn has_more_room(text: &String) -> bool
    ensures { result ≡ nat_lt MORE (string_capacity text.now - string_len text.now) }
{
    text.capacity() - text.len() > MORE
}

/// The capacity, in bytes, beyond twice a text's length that isn't given back.
const SPARE: usize = 64;

/// Reserves capacity in a text for more bytes. If it has to grow, it gets a few more than these, or a sixteenth of its
/// length, so that the next insertions don't allocate, and a long text isn't copied for each of them.
fn make_room(text: &mut String, bytes: usize) -> Result<(), AllocError>
    ensures { string_bytes text.new ≡ string_bytes text.old }
{
    if text.capacity() - text.len() < bytes {
        let more = MORE.max(text.len() / 16);
        text.reserve_exact(bytes.saturating_add(more))?;
    }
    Ok(())
}

/// Takes what stands from a byte on off a text, and hands it out. Of the two parts the shorter one is copied, so that
/// the longer one keeps no more room than it has use for.
fn split_text(text: &mut String, byte: usize) -> Result<String, AllocError>
    requires { IsCharBoundary (string_bytes text.old) byte }
    ensures head { OnOk result (string_bytes text.new ≡ take byte (string_bytes text.old)) }
    ensures tail { IfOk result (λ tail. string_bytes tail ≡ drop byte (string_bytes text.old)) }
    ensures refused { OnErr result (string_bytes text.new ≡ string_bytes text.old) }
{
    if byte >= text.len() / 2 {
        return text.split_off(byte);
    }
    let front = String::from_str(*text.allocator(), &text.as_str()[..byte])?;
    text.replace_range(0..byte, "")?;
    Ok(std::mem::replace(text, front))
}

/// The first character of a text that has one.
fn first_character(text: &str) -> char
    requires { 0 < length (chars text.now) }
    ensures { (rest : List ℕ) × (text.now ≡ encode_utf8 result ++ rest) }
{
    text.chars().next().unwrap()
}

/// The first character of a text, with what stands behind it, if there is one.
fn split_first(text: &str) -> Option<(char, &str)>
    ensures none { result ≡ None → chars text.now ≡ [] }
    ensures some { IfSome result (λ split. chars text.now ≡ split.0 ∷ chars split.1.now) }
{
    let mut characters = text.chars();
    let first = characters.next()?;
    Some((first, characters.as_str()))
}

/// The last character of a text, with what stands before it, if there is one.
fn split_last(text: &str) -> Option<(char, &str)>
    ensures none { result ≡ None → chars text.now ≡ [] }
    ensures some { IfSome result (λ split. chars text.now ≡ chars split.1.now ++ split.0 ∷ []) }
{
    let mut characters = text.chars();
    let last = characters.next_back()?;
    Some((last, characters.as_str()))
}

/// Returns how many characters from the first on pass a test, in a text of `count` characters.
fn passing_from_first<T: CharacterTest>(text: &str, count: usize) -> usize
    requires { count ≡ length (chars text.now) }
    ensures { result ≡ prefix_len T.test (chars text.now) }
{
    let mut rest = text;
    for passed in 0..count {
        match split_first(rest) {
            Some((first, behind)) if T::passes(first) => rest = behind,
            _ => return passed,
        }
    }
    count
}

/// Returns how many characters from the last back pass a test, in a text of `count` characters.
fn passing_from_last<T: CharacterTest>(text: &str, count: usize) -> usize
    requires { count ≡ length (chars text.now) }
    ensures { result ≡ suffix_len T.test (chars text.now) }
{
    let mut rest = text;
    for passed in 0..count {
        match split_last(rest) {
            Some((last, before)) if T::passes(last) => rest = before,
            _ => return passed,
        }
    }
    count
}

/// Returns the byte at which a column begins, in a text of `count` characters.
fn byte_of(text: &str, count: usize, column: usize) -> usize
    requires count { count ≡ length (chars text.now) }
    requires within { column ≤ count }
    ensures boundary { IsCharBoundary text.now result }
    ensures front { chars (take result text.now) ≡ take column (chars text.now) }
    ensures behind { chars (drop result text.now) ≡ drop column (chars text.now) }
{
    if count == text.len() {
        return column;
    }
    if count == column {
        return text.len();
    }
    front_bytes(text, column)
}

impl Characters {
    /// None at all, which takes no memory.
    pub fn none(alloc: Global) -> Characters
        ensures { result ≡ [] }
    {
        Characters {
            text: String::new(alloc),
            count: 0,
        }
    }

    pub fn new(alloc: Global, text: &str) -> Result<Characters, AllocError>
        ensures { IfOk result (λ characters. characters ≡ chars text.now) }
    {
        Ok(Characters {
            text: String::from_str(alloc, text)?,
            count: count_characters(text),
        })
    }

    /// How many characters there are.
    pub fn len(&self) -> usize
        ensures { result ≡ length self.now }
    {
        self.count
    }

    /// The character at a column.
    pub fn at(&self, column: usize) -> char
        requires { column < length self.now }
        ensures { slice_get self.now column ≡ Some result }
    {
        let text = self.text.as_str();
        first_character(&text[byte_of(text, self.count, column)..])
    }

    /// Where the run of characters from a column on that pass a test ends.
    pub fn run_end<T: CharacterTest>(&self, column: usize) -> usize
        requires { column ≤ length self.now }
        ensures value { result ≡ column + prefix_len T.test (drop column self.now) }
        ensures bound { result ≤ length self.now }
    {
        let text = self.text.as_str();
        let rest = &text[byte_of(text, self.count, column)..];
        column + passing_from_first::<T>(rest, self.count - column)
    }

    /// Where the run of characters before a column that pass a test begins.
    pub fn run_start<T: CharacterTest>(&self, column: usize) -> usize
        requires { column ≤ length self.now }
        ensures value { result ≡ column - suffix_len T.test (take column self.now) }
        ensures bound { result ≤ column }
    {
        let text = self.text.as_str();
        let front = &text[..byte_of(text, self.count, column)];
        column - passing_from_last::<T>(front, column)
    }

    /// The characters from one column to another, lent. All of them are no search for columns.
    fn part(&self, from: usize, to: usize) -> &str
        requires ordered { from ≤ to }
        requires within { to ≤ length self.now }
        ensures { chars result.now ≡ slice_range self.now from to }
    {
        let text = self.text.as_str();
        if to - from == self.count {
            return text;
        }
        let rest = &text[byte_of(text, self.count, from)..];
        let taken = byte_of(rest, self.count - from, to - from);
        &rest[..taken]
    }

    /// The characters from one column to another.
    pub fn copy(&self, alloc: Global, from: usize, to: usize) -> Result<String, AllocError>
        requires ordered { from ≤ to }
        requires within { to ≤ length self.now }
        ensures { IfOk result (λ text. chars (string_bytes text) ≡ slice_range self.now from to) }
    {
        String::from_str(alloc, self.part(from, to))
    }

    /// Adds the characters from one column to another to a text.
    pub fn push(&self, from: usize, to: usize, text: &mut String) -> Result<(), AllocError>
        requires ordered { from ≤ to }
        requires within { to ≤ length self.now }
        ensures { OnOk result (chars (string_bytes text.new)
            ≡ chars (string_bytes text.old) ++ slice_range self.now from to) }
    {
        text.push_str(self.part(from, to))?;
        Ok(())
    }

    /// Puts a text in before the character at a column.
    pub fn insert(&mut self, column: usize, text: &str) -> Result<(), AllocError>
        requires { column ≤ length self.old }
        ensures new { OnOk result (self.new ≡ inserted column (chars text.now) self.old) }
        ensures refused { OnErr result (self.new ≡ self.old) }
    {
        let byte = byte_of(self.text.as_str(), self.count, column);
        make_room(&mut self.text, text.len())?;
        self.text.insert_str(byte, text)?;
        self.count += count_characters(text);
        Ok(())
    }

    /// Takes the characters from one column to another out.
    pub fn remove(&mut self, from: usize, to: usize) -> Result<(), AllocError>
        requires ordered { from ≤ to }
        requires within { to ≤ length self.old }
        ensures new { OnOk result (self.new ≡ removed from to self.old) }
        ensures refused { OnErr result (self.new ≡ self.old) }
    {
        let text = self.text.as_str();
        let start = byte_of(text, self.count, from);
        let long = byte_of(&text[start..], self.count - from, to - from);
        self.text.replace_range(start..start + long, "")?;
        self.count -= to - from;
        Ok(())
    }

    /// Takes the characters from a column on off, and hands them out.
    pub fn cut(&mut self, column: usize) -> Result<Characters, AllocError>
        requires { column ≤ length self.old }
        ensures head { OnOk result (self.new ≡ take column self.old) }
        ensures tail { IfOk result (λ tail. tail ≡ drop column self.old) }
        ensures refused { OnErr result (self.new ≡ self.old) }
    {
        let byte = byte_of(self.text.as_str(), self.count, column);
        let text = split_text(&mut self.text, byte)?;
        let count = self.count - column;
        self.count = column;
        Ok(Characters { text, count })
    }

    /// Gives back room that isn't needed, where memory allows it: what is more than twice what the characters take.
    pub fn trim(&mut self)
        ensures { self.new ≡ self.old }
    {
        let len = self.text.len();
        if self.text.capacity() > len.saturating_mul(2).saturating_add(SPARE) {
            self.text.shrink_to(len.saturating_add(MORE));
        }
    }

    /// Adds other characters behind these.
    pub fn join(&mut self, other: &Characters) -> Result<(), AllocError>
        ensures new { OnOk result (self.new ≡ self.old ++ other.now) }
        ensures refused { OnErr result (self.new ≡ self.old) }
    {
        self.text.push_str(other.text.as_str())?;
        self.count += other.count;
        Ok(())
    }

    /// Whether they have more room than a copy of them, which so gives some back. The room is no part of their value.
    pub fn has_spare_room(&self) -> bool {
        has_more_room(&self.text)
    }

    /// A copy of the characters, to which a few can be added without memory. A copy of none takes none.
    pub fn try_clone(&self, alloc: Global) -> Result<Characters, AllocError>
        ensures { IfOk result (λ copy. copy ≡ self.now) }
    {
        let more = if self.text.is_empty() { 0 } else { MORE };
        let mut text = String::with_capacity(alloc, self.text.len().saturating_add(more))?;
        text.push_str(self.text.as_str())?;
        Ok(Characters {
            text,
            count: self.count,
        })
    }
}
