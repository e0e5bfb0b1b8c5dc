//! Elements written into the text of a list.

ghost use Rattle.std.specs.Prelude.{◌≡◌, ◌||◌, ◌++◌, ◌∷◌, [], IfOk, OnOk, OnErr, chars, string_bytes};
ghost use Rattle.std.specs.Prelude.{encode_utf8_all};
ghost use Rattle.tcl_words.specs.Characters.{begins_with};
ghost use Rattle.tcl_words.specs.ListGrowth.{Goes, pushed};
ghost use Rattle.tcl_words.specs.ListText.{is_white, is_special, has_special, needs_quotes, balances, white_letter};
ghost use Rattle.tcl_words.specs.ListText.{with_backslashes, space_behind};

use crate::list_steps::is_white;
use crate::pieces::first_char;
use crate::runs::braced_run;
use std::alloc::{AllocError, Global};

// Whether the character means something in a list, white space aside.
fn is_special(c: char) -> bool
    ensures { result ≡ is_special c }
{
    c == '{' || c == '}' || c == '[' || c == ']' || c == '$' || c == '"' || c == ';' || c == '\\'
}

// Whether the character has a backslash before it where an element is neither bare nor in braces.
fn needs_backslash(c: char) -> bool
    ensures { result ≡ (is_white c || is_special c) }
{
    is_white(c) || is_special(c)
}

fn begins_with_hash(element: &str) -> bool
    ensures { result ≡ begins_with 35 (chars element.now) }
{
    if element.is_empty() {
        false
    } else {
        first_char(element) == '#'
    }
}

fn has_special(element: &str) -> bool
    ensures { result ≡ has_special (chars element.now) }
{
    let bytes = element.as_bytes();
    for &byte in bytes {
        if needs_backslash(char::from(byte)) {
            return true;
        }
    }
    false
}

// Whether the element can't stand as it is.
fn needs_quotes(element: &str) -> bool
    ensures { result ≡ needs_quotes (chars element.now) }
{
    if element.is_empty() {
        true
    } else if begins_with_hash(element) {
        true
    } else {
        has_special(element)
    }
}

// Whether the element can stand in braces. What stands between braces and backslashes is passed over by blocks.
fn balances(element: &str) -> bool
    ensures { result ≡ balances (chars element.now) 0 }
{
    let bytes = element.as_bytes();
    let mut depth = 0usize;
    let mut index = 0;
    while index < bytes.len() {
        index += braced_run(&bytes[index..]);
        if index == bytes.len() {
            return depth == 0;
        }
        let byte = bytes[index];
        index += 1;
        if byte == b'\\' {
            return false;
        } else if byte == b'{' {
            depth += 1;
        } else if depth == 0 {
            return false;
        } else {
            depth -= 1;
        }
    }
    depth == 0
}

// What stands behind the backslash for white space or a special character.
fn white_letter(c: char) -> char
    ensures { result ≡ white_letter c }
{
    match c {
        '\t' => 't',
        '\n' => 'n',
        '\r' => 'r',
        '\x0b' => 'v',
        '\x0c' => 'f',
        _ => c,
    }
}

fn with_backslashes(alloc: Global, element: &str) -> Result<String, AllocError>
    ensures { IfOk result (λ text. string_bytes text ≡ encode_utf8_all (with_backslashes (chars element.now))) }
{
    let mut text = String::with_capacity(alloc, element.len())?;
    if begins_with_hash(element) {
        text.push('\\')?;
    }
    for c in element.chars() {
        if needs_backslash(c) {
            text.push('\\')?;
            text.push(white_letter(c))?;
        } else {
            text.push(c)?;
        }
    }
    Ok(text)
}

// Appends a space, where something stands before it, and the element as it is, or none of it all.
fn push_bare(list: &mut String, element: &str) -> Result<(), AllocError>
    ensures ok { OnOk result (string_bytes list.new
        ≡ (string_bytes list.old ++ space_behind (string_bytes list.old)) ++ element.now) }
    ensures err { OnErr result (string_bytes list.new ≡ string_bytes list.old) }
{
    if list.is_empty() {
        return list.push_str(element);
    }
    list.reserve(element.len().saturating_add(1))?;
    list.push(' ').unwrap();
    list.push_str(element).unwrap();
    Ok(())
}

// Appends a space, where something stands before it, and the element in braces, or none of it all.
fn push_braced(list: &mut String, element: &str) -> Result<(), AllocError>
    ensures ok { OnOk result (string_bytes list.new
        ≡ (((string_bytes list.old ++ space_behind (string_bytes list.old)) ++ 123 ∷ []) ++ element.now)
        ++ 125 ∷ []) }
    ensures err { OnErr result (string_bytes list.new ≡ string_bytes list.old) }
{
    let is_first = list.is_empty();
    let added = if is_first { 2 } else { 3 };
    list.reserve(element.len().saturating_add(added))?;
    if !is_first {
        list.push(' ').unwrap();
    }
    list.push('{').unwrap();
    list.push_str(element).unwrap();
    list.push('}').unwrap();
    Ok(())
}

/// Appends what parts the next element of a list from those before it, which is nothing where there are none: for an
/// element that the caller writes behind it as it stands. After want of memory the text is as before.
pub fn push_space(list: &mut String) -> Result<(), AllocError>
    ensures ok { OnOk result (string_bytes list.new ≡ string_bytes list.old ++ space_behind (string_bytes list.old)) }
    ensures err { OnErr result (string_bytes list.new ≡ string_bytes list.old) }
{
    if !list.is_empty() {
        list.push(' ')?;
    }
    Ok(())
}

/// Appends an element to a text, the text of a list among others, behind a space where something stands there: as it
/// is, in braces, or with backslashes. After want of memory the text is as before.
pub fn push_element(list: &mut String, element: &str) -> Result<(), AllocError>
    ensures text { OnOk result (string_bytes list.new ≡ pushed (string_bytes list.old) (chars element.now)) }
    ensures list { OnOk result (Goes (string_bytes list.old) (string_bytes list.new) (chars element.now ∷ [])) }
    ensures err { OnErr result (string_bytes list.new ≡ string_bytes list.old) }
{
    if !needs_quotes(element) {
        push_bare(list, element)?;
    } else if balances(element) {
        push_braced(list, element)?;
    } else {
        let text = with_backslashes(*list.allocator(), element)?;
        push_bare(list, text.as_str())?;
    }
    Ok(())
}
