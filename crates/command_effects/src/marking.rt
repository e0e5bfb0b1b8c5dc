//! The words for a gravity, and changes of marks by name: made or unset.

ghost use Rattle.std.specs.Prelude.{◌≡◌, ◌≢◌, ◌≤◌, ◌<◌, None, length, map, chars, IfOk, IfErr, OnOk, OnErr};
ghost use Rattle.mark_table.specs.SharedMarks.{number_of, AreMarks, IsFull};
ghost use Rattle.tcl_words.specs.Unread.{texts_of};
ghost use Rattle.command_effects.specs.declared.answers.Fault.TheVariants.{Memory, TooManyMarks};
ghost use Rattle.command_effects.specs.Marking.{gravity_of, gravity_word, IsMadeMark, marks_left, numbers_named};

use crate::answers::Fault;
use crate::edits::put_mark;
use command_table::is_word;
use mark_table::MarkTable;
use std::alloc::{AllocError, Global};
use text_model::{Gravity, MarkNo, Place, TextStore};

/// The gravity that a word is, if it is one.
pub fn read_gravity(word: &str) -> Option<Gravity>
    ensures { result ≡ gravity_of (chars word.now) }
{
    if is_word(word, "left") {
        Some(Gravity::Left)
    } else if is_word(word, "right") {
        Some(Gravity::Right)
    } else {
        None
    }
}

/// The word for a gravity.
pub fn gravity_word(gravity: Gravity) -> &'static str
    ensures { chars result.now ≡ gravity_word gravity }
{
    match gravity {
        Gravity::Left => "left",
        Gravity::Right => "right",
    }
}

/// Makes a mark of a new name with right gravity, and puts it at an offset. Where that is refused nothing changes.
pub fn make_mark<S: TextStore>(
    alloc: Global,
    marks: &mut MarkTable,
    store: &mut S,
    name: &str,
    offset: usize,
) -> Result<(), Fault>
    requires new { number_of (chars name.now) marks.old.marks ≡ None }
    requires within { offset ≤ length (S.content store.old).cells }
    ensures made { OnOk result (IsMadeMark (chars name.now) offset marks.old marks.new (S.content store.old)
        (S.content store.new)) }
    ensures err { OnErr result ((S.content store.new ≡ S.content store.old) × (marks.new ≡ marks.old)) }
    ensures fault { IfErr result (λ fault. fault ≢ Memory → IsFull marks.old) }
{
    let place = Place {
        offset,
        gravity: Gravity::Right,
    };
    let number = marks
        .create(String::from_str(alloc, name)?)?
        .ok_or(Fault::TooManyMarks)?;
    if put_mark(alloc, store, number, place).is_err() {
        marks.unset(name);
        return Err(Fault::Memory);
    }
    Ok(())
}

/// The numbers of the marks of these names; unknown ones are skipped.
pub fn numbers_named(
    alloc: Global,
    marks: &MarkTable,
    names: &[String],
) -> Result<Vec<MarkNo>, AllocError>
    ensures { IfOk result (λ numbers. map (λ number. number.0) numbers.items
        ≡ numbers_named marks.now.marks (texts_of names.now)) }
{
    let mut numbers = Vec::with_capacity(alloc, names.len())?;
    for name in names {
        if let Some(number) = marks.find(name.as_str()) {
            numbers.push(number)?;
        }
    }
    Ok(numbers)
}

/// Takes the marks of these names out of a table. Unknown ones are skipped.
pub fn unset_names(marks: &mut MarkTable, names: &[String])
    ensures value { marks.new ≡ record marks.old { marks = marks_left (texts_of names.now) marks.old.marks } }
    ensures sound { AreMarks marks.old → AreMarks marks.new }
{
    for name in names {
        marks.unset(name.as_str());
    }
}
