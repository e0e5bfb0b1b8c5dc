//! A text on the way from an old one to what an edit makes of it, which no store holds yet: parts of the old text and
//! texts that were put in, around a place.

ghost use Rattle.std.specs.Prelude.{◌≡◌, ℕ, ◌+◌, ◌-◌, ◌<◌, ◌≤◌, ◌^◌, ◌++◌, List, length, drop, chars, IfOk, OnOk};
ghost use Rattle.std.specs.Prelude.{reverse, true, false, IfSome, IfNone};
ghost use Rattle.text_model.specs.declared.cells.Cell.{Cell};
ghost use Rattle.std.specs.List.{All};
ghost use Rattle.text_cursor.specs.Parts.{parts_len};
ghost use Rattle.text_cursor.specs.Sides.{block_parts};
ghost use Rattle.text_cursor.specs.Cursors.{cursor_cells, behind_cells, part_cells, source_len, slots_in, last_line};
ghost use Rattle.text_cursor.specs.Cursors.{front_cells, Rise};
ghost use Rattle.text_cursor.specs.Cursors.{front_text, behind_text, IsLastLine, IsSecond, PartFits, IsCursor};
ghost use Rattle.text_cursor.specs.Cursors.{Moves, Takes, Puts};
ghost use Rattle.text_cursor.specs.Around.{shared_slots};
ghost use Rattle.text_model.specs.Content.{characters};
ghost use Rattle.text_model.specs.Lines.{lines, line_of, line_start};

use crate::blocks::count_parts;
use crate::lines::{line_at, line_behind};
use crate::parts::{Part, TextParts};
use crate::sides::{Side, least_in_block};
use std::alloc::{AllocError, Global};
use text_model::{TagSet, Text, TextStore};

/// A place in a text of so many characters, of which the old text had `old_len`: the parts before it and those behind
/// it.
#[derive(Drop)]
pub struct Cursor {
    pub old_len: usize,
    fresh: Vec<char>,
    front: Side,
    behind: Side,
    pub at: usize,
    pub len: usize,
}

/// An old text of so many characters, with room for so many parts.
fn whole(alloc: Global, len: usize, room: usize) -> Result<Vec<Part>, AllocError>
    ensures fit { IfOk result (λ parts. (new : ℕ) → All (PartFits len new) parts.items) }
    ensures len { IfOk result (λ parts. parts_len parts.items ≡ len) }
    ensures rising { IfOk result (λ parts. Rise 0 len (reverse parts.items)) }
    ensures cells { IfOk result (λ parts. (old : List Cell) (new : List ℕ) → length old ≡ len →
        behind_cells old new parts.items ≡ old) }
{
    let mut parts = Vec::with_capacity(alloc, room)?;
    if len == 0 {
        return Ok(parts);
    }
    parts.push(Part {
        from: 0,
        to: len,
        slots: None,
    })?;
    Ok(parts)
}

impl Cursor {
    /// The start of an old text, with room for so many parts.
    pub fn new(alloc: Global, len: usize, room: usize) -> Result<Cursor, AllocError>
        ensures cursor { IfOk result (λ cursor. IsCursor cursor) }
        ensures old { IfOk result (λ cursor. cursor.old_len ≡ len) }
        ensures len { IfOk result (λ cursor. cursor.len ≡ len) }
        ensures cells { IfOk result (λ cursor. (old : List Cell) → length old ≡ len → cursor_cells old cursor ≡ old) }
    {
        let least = least_in_block(room);
        let near = room.min(least);
        let front = Vec::with_capacity(alloc, near)?;
        let behind = whole(alloc, len, near)?;
        Ok(Cursor {
            old_len: len,
            fresh: Vec::new(alloc),
            front: Side::new(alloc, false, least, front),
            behind: Side::new(alloc, true, least, behind),
            at: 0,
            len,
        })
    }

    /// Goes back over the part before the place.
    fn step_back(&mut self) -> Result<(), AllocError>
        requires cursor { IsCursor self.old }
        requires some { 0 < self.old.at }
        ensures moves { OnOk result (Moves self.old self.new) }
        ensures back { OnOk result (self.new.at < self.old.at) }
    {
        self.behind.make_room()?;
        let Some(part) = self.front.pop() else {
            return Ok(());
        };
        let Part { from, to, slots } = part;
        self.behind.push(Part { from, to, slots })?;
        self.at -= to - from;
        Ok(())
    }

    /// Goes on over the part behind the place, or over so many of its characters.
    fn step_on(&mut self, most: usize) -> Result<(), AllocError>
        requires cursor { IsCursor self.old }
        requires some { 0 < most }
        requires within { self.old.at + most ≤ self.old.len }
        ensures moves { OnOk result (Moves self.old self.new) }
        ensures on { OnOk result (self.old.at < self.new.at) }
        ensures bound { OnOk result (self.new.at ≤ self.old.at + most) }
    {
        self.front.make_room()?;
        let Some(part) = self.behind.pop() else {
            return Ok(());
        };
        let count = part.to - part.from;
        if count <= most {
            self.front.push(part)?;
            self.at += count;
            return Ok(());
        }
        let middle = part.from + most;
        self.behind.push(Part {
            from: middle,
            to: part.to,
            slots: part.slots,
        })?;
        self.front.push(Part {
            from: part.from,
            to: middle,
            slots: part.slots,
        })?;
        self.at += most;
        Ok(())
    }

    /// Goes back over the block before the place, if who goes back so far passes it. Whether it was passed.
    fn leap_back(&mut self, most: usize) -> Result<bool, AllocError>
        requires cursor { IsCursor self.old }
        ensures moves { OnOk result (Moves self.old self.new) }
        ensures back { IfOk result (λ leapt. leapt ≡ true → self.new.at < self.old.at) }
        ensures stays { IfOk result (λ leapt. leapt ≡ false → self.new.at ≡ self.old.at) }
    {
        let Some(block) = self.front.pop_block(most, true) else {
            return Ok(false);
        };
        let count = block.count;
        self.behind.push_block(block)?;
        self.at -= count;
        Ok(true)
    }

    /// Goes on over the block behind the place, if who goes on so far passes it. Whether it was passed.
    fn leap_on(&mut self, most: usize, beyond: bool) -> Result<bool, AllocError>
        requires cursor { IsCursor self.old }
        ensures moves { OnOk result (Moves self.old self.new) }
        ensures on { IfOk result (λ leapt. leapt ≡ true → self.old.at < self.new.at) }
        ensures bound { OnOk result (beyond ≡ false → self.new.at ≤ self.old.at + most) }
        ensures stays { IfOk result (λ leapt. leapt ≡ false → self.new.at ≡ self.old.at) }
    {
        let Some(block) = self.behind.pop_block(most, beyond) else {
            return Ok(false);
        };
        let count = block.count;
        self.front.push_block(block)?;
        self.at += count;
        Ok(true)
    }

    /// Goes back to an offset, or beyond it, by less than a part or by a block.
    fn seek_back(&mut self, place: usize) -> Result<(), AllocError>
        requires cursor { IsCursor self.old }
        ensures moves { OnOk result (Moves self.old self.new) }
        ensures before { OnOk result (self.new.at ≤ place) }
    {
        while self.at > place {
            let leapt = self.leap_back(self.at - place)?;
            if !leapt {
                self.step_back()?;
            }
        }
        Ok(())
    }

    /// Goes on to an offset, or beyond it by a block, where that may be.
    fn seek_on(&mut self, place: usize, beyond: bool) -> Result<(), AllocError>
        requires cursor { IsCursor self.old }
        requires within { place ≤ self.old.len }
        ensures moves { OnOk result (Moves self.old self.new) }
        ensures there { OnOk result (beyond ≡ false → self.old.at ≤ place → self.new.at ≡ place) }
    {
        while self.at < place {
            let most = place - self.at;
            let leapt = self.leap_on(most, beyond)?;
            if !leapt {
                self.step_on(most)?;
            }
        }
        Ok(())
    }

    /// Goes to an offset: over whole blocks first, then over parts, from that end of the last block to which there are
    /// fewer of them.
    pub fn seek(&mut self, place: usize) -> Result<(), AllocError>
        requires cursor { IsCursor self.old }
        requires within { place ≤ self.old.len }
        ensures moves { OnOk result (Moves self.old self.new) }
        ensures there { OnOk result (self.new.at ≡ place) }
    {
        self.seek_on(place, true)?;
        self.seek_back(place)?;
        self.seek_on(place, false)?;
        Ok(())
    }

    /// Takes out the part behind the place, or so many of its characters.
    fn drop_part(&mut self, most: usize) -> Result<(), AllocError>
        requires cursor { IsCursor self.old }
        requires some { 0 < most }
        requires within { self.old.at + most ≤ self.old.len }
        ensures takes { OnOk result (Takes self.old self.new) }
        ensures less { OnOk result (self.new.len < self.old.len) }
        ensures bound { OnOk result (self.old.len ≤ self.new.len + most) }
    {
        let Some(part) = self.behind.pop() else {
            return Ok(());
        };
        let count = part.to - part.from;
        if count <= most {
            self.len -= count;
            return Ok(());
        }
        self.behind.push(Part {
            from: part.from + most,
            to: part.to,
            slots: part.slots,
        })?;
        self.len -= most;
        Ok(())
    }

    /// Takes so many characters out behind the place.
    pub fn remove(&mut self, count: usize) -> Result<(), AllocError>
        requires cursor { IsCursor self.old }
        requires within { self.old.at + count ≤ self.old.len }
        ensures takes { OnOk result (Takes self.old self.new) }
        ensures len { OnOk result (self.new.len ≡ self.old.len - count) }
    {
        let end = self.len - count;
        while self.len > end {
            self.drop_part(self.len - end)?;
        }
        Ok(())
    }

    /// Puts a text of so many characters in before the place, with these slots.
    pub fn put(&mut self, text: &Text, count: usize, slots: TagSet) -> Result<(), AllocError>
        requires cursor { IsCursor self.old }
        requires count { count ≡ length text.now }
        requires fits { self.old.len + count < 2 ^ 64 }
        ensures { OnOk result (Puts text.now slots self.old self.new) }
    {
        if count == 0 {
            return Ok(());
        }
        self.front.make_room()?;
        let from = self.fresh.len();
        push_chars(&mut self.fresh, text.as_str())?;
        self.front.push(Part {
            from,
            to: self.fresh.len(),
            slots: Some(slots),
        })?;
        self.at += count;
        self.len += count;
        Ok(())
    }

    /// What the text is made of.
    pub fn into_parts(self, alloc: Global) -> Result<TextParts, AllocError>
        requires cursor { IsCursor self }
        ensures rising { IfOk result (λ it. Rise 0 self.old_len it.parts.items) }
        ensures fit { IfOk result (λ it. All (PartFits self.old_len (length it.fresh.items)) it.parts.items) }
        ensures cells { IfOk result (λ it. (old : List Cell) → length old ≡ self.old_len →
            front_cells old it.fresh.items it.parts.items ≡ cursor_cells old self) }
    {
        let Cursor {
            fresh,
            front,
            behind,
            ..
        } = self;
        let mut parts = Vec::new(alloc);
        front.empty_into(&mut parts)?;
        parts.reverse();
        behind.empty_into(&mut parts)?;
        Ok(TextParts { parts, fresh })
    }
}

/// Adds the characters of a text.
fn push_chars(characters: &mut Vec<char>, text: &str) -> Result<(), AllocError>
    ensures { OnOk result (characters.new.items ≡ characters.old.items ++ chars text.now) }
{
    for character in text.chars() {
        characters.push(character)?;
    }
    Ok(())
}

/// Where the last line of some characters begins, that behind their last newline.
fn last_newline(characters: &[char]) -> usize
    ensures { result ≡ last_line characters.now }
{
    let mut line = 0;
    for (index, character) in characters.iter().enumerate() {
        if *character == '\n' {
            line = index + 1;
        }
    }
    line
}

/// Where the second line of some characters begins; their number where there is none.
fn first_newline(characters: &[char]) -> usize
    ensures { result ≡ line_start 1 characters.now }
{
    for (index, character) in characters.iter().enumerate() {
        if *character == '\n' {
            return index + 1;
        }
    }
    characters.len()
}

/// The slots of the character at an offset of the old text, unless others are given.
fn tags_in<S: TextStore>(store: &S, slots: Option<TagSet>, offset: usize) -> TagSet
    requires { offset < source_len slots (length (S.content store.now).cells) (offset + 1) }
    ensures { result ≡ slots_in slots (S.content store.now).cells offset }
{
    match slots {
        None => store.tags_at(offset),
        Some(slots) => slots,
    }
}

/// Where the last line of a part begins, in characters from its start.
fn last_line_in<S: TextStore>(store: &S, fresh: &[char], part: &Part) -> usize
    requires { PartFits (length (S.content store.now).cells) (length fresh.now) part.now }
    ensures value { result ≡ last_line (characters (part_cells (S.content store.now).cells fresh.now part.now)) }
    ensures bound { result ≤ part.now.to - part.now.from }
{
    match part.slots {
        None => line_at(store, part.to).saturating_sub(part.from),
        Some(_) => last_newline(&fresh[part.from..part.to]),
    }
}

/// Where the second line of a part begins, in characters from its start; the end of the part where there is none.
fn next_line_in<S: TextStore>(store: &S, fresh: &[char], part: &Part) -> usize
    requires { PartFits (length (S.content store.now).cells) (length fresh.now) part.now }
    ensures value { result ≡ line_start 1 (characters (part_cells (S.content store.now).cells fresh.now part.now)) }
    ensures bound { result ≤ part.now.to - part.now.from }
{
    match part.slots {
        None => line_behind(store, part.from).min(part.to) - part.from,
        Some(_) => first_newline(&fresh[part.from..part.to]),
    }
}

/// Where the last line begins of some parts that end at an offset, if they have a newline.
fn last_line_of<S: TextStore>(
    store: &S,
    fresh: &[char],
    parts: &[Part],
    end: usize,
) -> Option<usize>
    requires fit { All (PartFits (length (S.content store.now).cells) (length fresh.now)) parts.now }
    requires below { parts_len parts.now ≤ end }
    ensures some { IfSome result (IsLastLine (front_text (S.content store.now).cells fresh.now parts.now)
        (end - parts_len parts.now)) }
    ensures none { IfNone result (last_line (front_text (S.content store.now).cells fresh.now parts.now) ≡ 0) }
{
    let mut left = parts.len();
    let mut end = end;
    while left > 0 {
        left -= 1;
        let part = &parts[left];
        end -= part.to - part.from;
        let line = last_line_in(store, fresh, part);
        if line > 0 {
            return Some(end + line);
        }
    }
    None
}

/// Where the second line of some parts begins, in characters from their start, if they have one.
fn next_line_of<S: TextStore>(store: &S, fresh: &[char], parts: &[Part]) -> Option<usize>
    requires fit { All (PartFits (length (S.content store.now).cells) (length fresh.now)) parts.now }
    requires small { parts_len parts.now < 2 ^ 64 }
    ensures some { IfSome result (IsSecond (front_text (S.content store.now).cells fresh.now parts.now)) }
    ensures none { IfNone result (lines (front_text (S.content store.now).cells fresh.now parts.now) ≡ 0) }
{
    let mut far = 0;
    for part in parts {
        if last_line_in(store, fresh, part) > 0 {
            return Some(far + next_line_in(store, fresh, part));
        }
        let count = part.to - part.from;
        far += count;
    }
    None
}

/// The same of parts that are turned, the first one last.
fn next_line_back<S: TextStore>(store: &S, fresh: &[char], parts: &[Part]) -> Option<usize>
    requires fit { All (PartFits (length (S.content store.now).cells) (length fresh.now)) parts.now }
    requires small { parts_len parts.now < 2 ^ 64 }
    ensures some { IfSome result (IsSecond (behind_text (S.content store.now).cells fresh.now parts.now)) }
    ensures none { IfNone result (lines (behind_text (S.content store.now).cells fresh.now parts.now) ≡ 0) }
{
    let mut left = parts.len();
    let mut far = 0;
    while left > 0 {
        left -= 1;
        let part = &parts[left];
        if last_line_in(store, fresh, part) > 0 {
            return Some(far + next_line_in(store, fresh, part));
        }
        far += part.to - part.from;
    }
    None
}

impl Cursor {
    /// The slots that the characters on both sides of the place share, in what a store's text became; none at the
    /// start.
    pub fn shared<S: TextStore>(&self, store: &S) -> TagSet
        requires cursor { IsCursor self.now }
        requires old { self.now.old_len ≡ length (S.content store.now).cells }
        requires within { self.now.at < self.now.len }
        ensures { result ≡ shared_slots self.now.at (cursor_cells (S.content store.now).cells self.now) }
    {
        if self.at == 0 {
            return TagSet::empty();
        }
        let before = self.front.last();
        let slots = tags_in(store, before.slots, before.to - 1);
        let behind = self.behind.last();
        slots.common(&tags_in(store, behind.slots, behind.from))
    }

    /// Where the last line of the blocks before the place begins, which have so many characters.
    fn far_line<S: TextStore>(&self, store: &S, count: usize) -> usize
        requires cursor { IsCursor self.now }
        requires old { self.now.old_len ≡ length (S.content store.now).cells }
        requires count { count ≡ parts_len (block_parts false self.now.front.far.items) }
        ensures { result ≡ last_line (front_text (S.content store.now).cells self.now.fresh.items
            (block_parts false self.now.front.far.items)) }
    {
        let mut left = self.front.far.len();
        let mut end = count;
        while left > 0 {
            left -= 1;
            let block = &self.front.far[left];
            match last_line_of(store, &self.fresh, &block.parts, end) {
                Some(line) => return line,
                None => end -= block.count,
            }
        }
        0
    }

    /// Where the line of the place begins.
    pub fn line<S: TextStore>(&self, store: &S) -> usize
        requires cursor { IsCursor self.now }
        requires old { self.now.old_len ≡ length (S.content store.now).cells }
        ensures { let text = characters (cursor_cells (S.content store.now).cells self.now) in
            result ≡ line_start (line_of text self.now.at) text }
    {
        match last_line_of(store, &self.fresh, &self.front.near, self.at) {
            Some(line) => line,
            None => self.far_line(store, self.at - count_parts(&self.front.near)),
        }
    }

    /// Where the second line of the blocks behind the place begins, or they end.
    fn far_next<S: TextStore>(&self, store: &S) -> usize
        requires cursor { IsCursor self.now }
        requires old { self.now.old_len ≡ length (S.content store.now).cells }
        ensures { result ≡ line_start 1 (behind_text (S.content store.now).cells self.now.fresh.items
            (block_parts true self.now.behind.far.items)) }
    {
        let mut left = self.behind.far.len();
        let mut far = 0;
        while left > 0 {
            left -= 1;
            let block = &self.behind.far[left];
            match next_line_of(store, &self.fresh, &block.parts) {
                Some(next) => return far + next,
                None => far += block.count,
            }
        }
        far
    }

    /// How far behind the place the next line begins, or the text ends.
    pub fn next<S: TextStore>(&self, store: &S) -> usize
        requires cursor { IsCursor self.now }
        requires old { self.now.old_len ≡ length (S.content store.now).cells }
        ensures value { result
            ≡ line_start 1 (drop self.now.at (characters (cursor_cells (S.content store.now).cells self.now))) }
        ensures bound { self.now.at + result ≤ self.now.len }
    {
        match next_line_back(store, &self.fresh, &self.behind.near) {
            Some(next) => next,
            None => count_parts(&self.behind.near) + self.far_next(store),
        }
    }
}
