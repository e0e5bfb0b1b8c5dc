//! The two forms of a line, characters alone or with toggles and marks, and the changes between them.

ghost use Rattle.std.specs.Prelude.{◌≡◌, ◌+◌, ◌<◌, ◌≤◌, false, true, chars, length, OnErr, OnOk, IfOk};
ghost use Rattle.std.specs.FinMap as finite;
ghost use Rattle.std.specs.FinSet as set;
ghost use Rattle.text_model.specs.Splices.{changed};
ghost use Rattle.text_model.specs.TagBits.{slot_count};
ghost use Rattle.segments.specs.Columns.{after_removal, after_text, joined, line_before, line_behind, toggled_more};
ghost use Rattle.segments.specs.Columns.{reset, with_toggle};
ghost use Rattle.segments.specs.Forms.{content, is_plain};

use crate::characters::Characters;
use crate::rich::RichLine;
use std::alloc::{AllocError, Global};
use text_model::{MarkNo, TagSet, TagSlot};

/// How a line is kept. Most have no toggles and no marks, and take memory for their characters alone.
#[derive(Drop)]
pub enum Form {
    Plain(Characters),
    Rich(Box<RichLine>),
}

impl Form {
    fn is_plain(&self) -> bool
        ensures { result ≡ is_plain self.now }
    {
        matches!(self, Form::Plain(_))
    }

    /// Whether there is room for toggles and marks, and none of either.
    fn is_idle(&self) -> bool {
        match self {
            Form::Plain(_) => false,
            Form::Rich(line) => line.is_bare(),
        }
    }

    /// Whether there is more room than in a copy that is settled.
    pub fn has_spare_room(&self) -> bool {
        match self {
            Form::Plain(text) => text.has_spare_room(),
            Form::Rich(line) => line.has_spare_room(),
        }
    }

    /// The same with room for toggles and marks.
    fn richer(self, alloc: Global, mut room: Box<RichLine>) -> Form
        ensures rich { is_plain result ≡ false }
        ensures same { content result ≡ content self }
    {
        match self {
            Form::Plain(text) => {
                *room = RichLine::plain(alloc, text);
                Form::Rich(room)
            }
            Form::Rich(line) => Form::Rich(line),
        }
    }

    /// A line in this room, or its characters alone.
    fn of(line: RichLine, mut room: Box<RichLine>) -> Form
        ensures { content result ≡ line }
    {
        if line.is_bare() {
            return Form::Plain(line.into_text());
        }
        *room = line;
        Form::Rich(room)
    }

    /// The same as characters alone, where there are no toggles and no marks.
    fn plainer(self) -> Form
        ensures { content result ≡ content self }
    {
        match self {
            Form::Plain(text) => Form::Plain(text),
            Form::Rich(line) => {
                if line.is_bare() {
                    Form::Plain(Box::into_inner(line).into_text())
                } else {
                    Form::Rich(line)
                }
            }
        }
    }

    /// Makes room for toggles and marks.
    pub fn enrich(&mut self, alloc: Global) -> Result<(), AllocError>
        ensures rich { OnOk result (is_plain self.new ≡ false) }
        ensures same { content self.new ≡ content self.old }
    {
        if self.is_plain() {
            let room = Box::new(alloc, RichLine::plain(alloc, Characters::none(alloc)))?;
            let held = std::mem::replace(self, Form::Plain(Characters::none(alloc)));
            *self = held.richer(alloc, room);
        }
        Ok(())
    }

    /// Gives back the room for toggles and marks where there are none.
    pub fn settle(&mut self, alloc: Global)
        ensures { content self.new ≡ content self.old }
    {
        if self.is_idle() {
            let held = std::mem::replace(self, Form::Plain(Characters::none(alloc)));
            *self = held.plainer();
        }
    }

    /// Gives back room that isn't needed, where memory allows it, and that for toggles and marks where there are none.
    pub fn trim(&mut self, alloc: Global)
        ensures { content self.new ≡ content self.old }
    {
        // Most lines are plain, and have nothing to settle.
        if let Form::Plain(text) = self {
            text.trim();
            return;
        }
        self.settle(alloc);
        match self {
            Form::Plain(text) => text.trim(),
            Form::Rich(line) => line.trim(),
        }
    }

    pub fn try_clone(&self, alloc: Global) -> Result<Form, AllocError>
        ensures { IfOk result (λ copy. content copy ≡ content self.now) }
    {
        Ok(match self {
            Form::Plain(text) => Form::Plain(text.try_clone(alloc)?),
            Form::Rich(line) => Form::Rich(Box::new(alloc, line.try_clone()?)?),
        })
    }

    /// Takes what stands from a column on off, and hands it out.
    pub fn cut(&mut self, column: usize, alloc: Global) -> Result<Form, AllocError>
        requires { column ≤ length (content self.old).columns }
        ensures head { OnOk result (content self.new ≡ line_before column (content self.old)) }
        ensures tail { IfOk result (λ tail. content tail ≡ line_behind column (content self.old)) }
        ensures refused { OnErr result (content self.new ≡ content self.old) }
    {
        match self {
            Form::Plain(text) => Ok(Form::Plain(text.cut(column)?)),
            Form::Rich(line) => {
                let room = Box::new(alloc, RichLine::plain(alloc, Characters::none(alloc)))?;
                Ok(Form::of(line.cut(column)?, room))
            }
        }
    }

    /// Puts a text in before the character at a column.
    pub fn insert_text(&mut self, column: usize, text: &str) -> Result<(), AllocError>
        requires { column ≤ length (content self.old).columns }
        ensures new { OnOk result (content self.new ≡ after_text column (chars text.now) (content self.old)) }
        ensures refused { OnErr result (content self.new ≡ content self.old) }
    {
        match self {
            Form::Plain(characters) => characters.insert(column, text),
            Form::Rich(line) => line.insert_text(column, text),
        }
    }

    /// Takes the characters from one column to another out.
    pub fn remove_range(&mut self, from: usize, to: usize) -> Result<(), AllocError>
        requires ordered { from ≤ to }
        requires within { to ≤ length (content self.old).columns }
        ensures new { OnOk result (content self.new ≡ after_removal from to (content self.old)) }
        ensures refused { OnErr result (content self.new ≡ content self.old) }
    {
        match self {
            Form::Plain(text) => text.remove(from, to),
            Form::Rich(line) => line.remove_range(from, to),
        }
    }

    /// Says whether a slot is toggled before the character at a column. Without room none is.
    pub fn set_toggle(
        &mut self,
        column: usize,
        slot: TagSlot,
        is_toggled: bool,
    ) -> Result<(), AllocError>
        requires slot { slot.0 < slot_count }
        requires within { column < length (content self.old).columns }
        requires room { is_toggled ≡ true → is_plain self.old ≡ false }
        ensures columns { OnOk result ((content self.new).columns
            ≡ changed (with_toggle slot.0 is_toggled) column (column + 1) (content self.old).columns) }
        ensures marks { (content self.new).marks ≡ (content self.old).marks }
        ensures refused { OnErr result (content self.new ≡ content self.old) }
    {
        match self {
            Form::Plain(_) => Ok(()),
            Form::Rich(line) => line.set_toggle(column, slot, is_toggled),
        }
    }

    /// Toggles each slot of a set before the character at a column. Without room there is none.
    pub fn toggle(&mut self, column: usize, slots: &TagSet) -> Result<(), AllocError>
        requires within { column < length (content self.old).columns }
        requires room { is_plain self.old ≡ true → slots.now ≡ set.empty }
        ensures columns { OnOk result ((content self.new).columns
            ≡ changed (toggled_more slots.now) column (column + 1) (content self.old).columns) }
        ensures marks { (content self.new).marks ≡ (content self.old).marks }
        ensures refused { OnErr result (content self.new ≡ content self.old) }
    {
        match self {
            Form::Plain(_) => Ok(()),
            Form::Rich(line) => line.toggle(column, slots),
        }
    }

    /// Removes the toggles of a slot before the characters from one column to another, and toggles it before each of
    /// the characters at these two columns if that is asked for. Without room there is no toggle.
    pub fn reset_toggles(
        &mut self,
        slot: TagSlot,
        from: usize,
        to: usize,
        first: bool,
        last: bool,
    ) -> Result<(), AllocError>
        requires slot { slot.0 < slot_count }
        requires ordered { from ≤ to }
        requires within { to < length (content self.old).columns }
        requires first { is_plain self.old ≡ true → first ≡ false }
        requires last { is_plain self.old ≡ true → last ≡ false }
        ensures columns { OnOk result ((content self.new).columns
            ≡ reset slot.0 from to first last (content self.old).columns) }
        ensures marks { (content self.new).marks ≡ (content self.old).marks }
        ensures refused { OnErr result (content self.new ≡ content self.old) }
    {
        match self {
            Form::Plain(_) => Ok(()),
            Form::Rich(line) => line.reset_toggles(slot, from, to, first, last),
        }
    }

    /// Takes the toggles of a slot before the characters from one column to another away.
    pub fn clear(&mut self, slot: TagSlot, from: usize, to: usize)
        requires slot { slot.0 < slot_count }
        requires ordered { from ≤ to }
        requires within { to ≤ length (content self.old).columns }
        ensures columns { (content self.new).columns
            ≡ changed (with_toggle slot.0 false) from to (content self.old).columns }
        ensures marks { (content self.new).marks ≡ (content self.old).marks }
    {
        match self {
            Form::Plain(_) => {}
            Form::Rich(line) => line.clear(slot, from, to),
        }
    }

    /// Takes the mark of a number away.
    pub fn take_mark(&mut self, number: MarkNo)
        ensures columns { (content self.new).columns ≡ (content self.old).columns }
        ensures marks { (content self.new).marks ≡ finite.remove (content self.old).marks number.0 }
    {
        match self {
            Form::Plain(_) => {}
            Form::Rich(line) => line.take_mark(number),
        }
    }

    /// Adds a copy of another line behind this one, which has room for toggles and marks.
    fn join_rich(&mut self, other: &RichLine) -> Result<(), AllocError>
        requires { is_plain self.old ≡ false }
        ensures new { OnOk result (content self.new ≡ joined (content self.old) other.now) }
        ensures refused { OnErr result (content self.new ≡ content self.old) }
    {
        match self {
            Form::Plain(_) => unreachable!(),
            Form::Rich(line) => line.join_copy(other),
        }
    }

    /// Adds a copy of another line behind this one.
    pub fn join_copy(&mut self, other: &Form, alloc: Global) -> Result<(), AllocError>
        ensures new { OnOk result (content self.new ≡ joined (content self.old) (content other.now)) }
        ensures refused { OnErr result (content self.new ≡ content self.old) }
    {
        match other {
            Form::Plain(text) => match self {
                Form::Plain(front) => front.join(text),
                Form::Rich(line) => line.join_text(text),
            },
            Form::Rich(line) => {
                self.enrich(alloc)?;
                self.join_rich(line)
            }
        }
    }
}
