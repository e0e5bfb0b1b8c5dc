//! Writes places of a view or of a line as `line.char`.

ghost use Rattle.std.specs.Prelude.{◌≡◌, ℕ, ◌≤◌, ◌+◌, ◌-◌, ◌++◌, ◌∷◌, List, chars, string_bytes, decimal, OnOk, OnErr};
ghost use Rattle.std.specs.Prelude.{IsAscii};
ghost use Rattle.text_model.specs.Lines.{IsLineOf};
ghost use Rattle.text_index.specs.Parts.{part_of};
ghost use Rattle.text_index.specs.Views.{shown};
ghost use Rattle.text_index.specs.Positions.{position_text};

use crate::views::View;
use itoa::Buffer;
use std::alloc::AllocError;
use text_model::{LineSpan, TextStore};

/// Appends two numbers round a dot, or nothing.
fn push_numbers(text: &mut String, line: u128, character: usize) -> Result<(), AllocError>
    ensures ok { OnOk result (string_bytes text.new ≡ string_bytes text.old
        ++ (decimal line ++ 46 ∷ decimal character)) }
    ensures line { IsAscii (decimal line) }
    ensures character { IsAscii (decimal character) }
    ensures err { OnErr result (string_bytes text.new ≡ string_bytes text.old) }
{
    let mut line_digits = Buffer::new();
    let line = line_digits.format(line);
    let mut character_digits = Buffer::new();
    let character = character_digits.format(character);
    text.reserve(line.len() + 1 + character.len())?;
    text.push_str(line).unwrap();
    text.push('.').unwrap();
    text.push_str(character).unwrap();
    Ok(())
}

/// Appends a place of a line as `line.char`: the line from 1, and the character from 0. After want of memory the text
/// is as before.
pub fn push_index_on(text: &mut String, line: LineSpan, place: usize) -> Result<(), AllocError>
    requires { line.start ≤ place }
    ensures ok { OnOk result ((shown : List ℕ) → IsLineOf shown place line →
        chars (string_bytes text.new) ≡ chars (string_bytes text.old) ++ position_text shown place) }
    ensures digits { OnOk result (string_bytes text.new ≡ string_bytes text.old
        ++ (decimal (1 + line.number) ++ 46 ∷ decimal (place - line.start))) }
    ensures err { OnErr result (string_bytes text.new ≡ string_bytes text.old) }
{
    // A text of all the newlines that a machine can count has one line more than that.
    push_numbers(text, 1 + line.number as u128, place - line.start)?;
    Ok(())
}

/// Appends a place of a view as `line.char`: the line from 1, and the character from 0. After want of memory the text
/// is as before.
pub fn push_index<S: TextStore>(
    text: &mut String,
    view: &View<'_, S>,
    place: usize,
) -> Result<(), AllocError>
    requires within { view.now.start + place ≤ view.now.end }
    ensures ok { OnOk result (chars (string_bytes text.new)
        ≡ chars (string_bytes text.old) ++ position_text (shown (part_of view.now))
        place) }
    ensures err { OnErr result (string_bytes text.new ≡ string_bytes text.old) }
{
    push_index_on(text, view.line_at(place), place)?;
    Ok(())
}
