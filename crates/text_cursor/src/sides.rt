//! The parts of a text on one side of a cursor: the near ones one by one, and those far off in blocks.

ghost use Rattle.std.specs.Prelude.{◌≡◌, ◌<◌, ◌≤◌, ◌^◌, ◌++◌, ◌∷◌, [], length, drop, option_to_list, reverse, OnOk};
ghost use Rattle.std.specs.Prelude.{IfSome, IfNone, false};
ghost use Rattle.text_cursor.specs.Parts.{parts_len, turned_if, EndsWith};
ghost use Rattle.text_cursor.specs.Sides.{side_parts, StaysSide};

use crate::blocks::Block;
use crate::parts::Part;
use std::alloc::{AllocError, Global};
use std::mem;

// Where no more parts than these are expected, a block has so few.
const FEW: usize = 16_384;

const LEAST: usize = 32;

/// How many parts go into a block at least, where so many are expected. As it grows with the root of their number, so
/// does the number of the blocks, which who goes from end to end passes.
pub fn least_in_block(room: usize) -> usize {
    if room > FEW { room.isqrt() / 4 } else { LEAST }
}

/// The parts on one side of a place, the nearest last: those far off in blocks, so that one that goes far moves whole
/// blocks, and then the near ones, each by itself. A block has its parts in the order of the text, so behind the place
/// they are turned where it is made and where it is opened. It is made of no fewer than `least` parts, unless all near
/// ones have to go into it.
#[derive(Drop)]
pub struct Side {
    pub turned: bool,
    pub least: usize,
    pub far: Vec<Block>,
    pub near: Vec<Part>,
}

impl Side {
    /// Of near parts alone; turned, where it is the side behind the place.
    pub fn new(alloc: Global, turned: bool, least: usize, near: Vec<Part>) -> Side
        ensures turned { result.turned ≡ turned }
        ensures parts { side_parts result ≡ near.items }
    {
        Side {
            turned,
            least,
            far: Vec::new(alloc),
            near,
        }
    }

    /// Makes a block of so many of the near parts, those farthest off.
    fn shut(&mut self, count: usize) -> Result<(), AllocError>
        requires some { 0 < count }
        requires within { count ≤ length self.old.near.items }
        requires fits { parts_len (side_parts self.old) < 2 ^ 64 }
        ensures stays { OnOk result (StaysSide self.old self.new) }
        ensures near { OnOk result (self.new.near.items ≡ drop count self.old.near.items) }
    {
        let rest = self.near.split_off(count)?;
        let parts = mem::replace(&mut self.near, rest);
        self.far.push(Block::of(parts, self.turned))?;
        Ok(())
    }

    /// Takes the nearest block apart, where no part stands near.
    fn open(&mut self)
        ensures stays { StaysSide self.old self.new }
        ensures near { length self.new.near.items ≡ 0 → side_parts self.new ≡ [] }
    {
        if self.near.len() > 0 {
            return;
        }
        let Some(block) = self.far.pop() else {
            return;
        };
        self.near = block.into_parts(self.turned);
    }

    /// Makes a block of the half of the near parts that is farther off, where that is enough for one.
    pub fn make_room(&mut self) -> Result<(), AllocError>
        requires { parts_len (side_parts self.old) < 2 ^ 64 }
        ensures { OnOk result (StaysSide self.old self.new) }
    {
        let half = self.near.len() / 2;
        if half > self.least {
            self.shut(half)?;
        }
        Ok(())
    }

    /// Adds a part that is the nearest.
    pub fn push(&mut self, part: Part) -> Result<(), AllocError>
        ensures turned { OnOk result (self.new.turned ≡ self.old.turned) }
        ensures items { OnOk result (side_parts self.new ≡ side_parts self.old ++ part ∷ []) }
    {
        let Part { from, to, slots } = part;
        self.near.push(Part { from, to, slots })?;
        Ok(())
    }

    /// Takes the nearest part.
    pub fn pop(&mut self) -> Option<Part>
        ensures turned { self.new.turned ≡ self.old.turned }
        ensures items { side_parts self.old ≡ side_parts self.new ++ option_to_list result }
        ensures none { IfNone result (side_parts self.old ≡ []) }
    {
        self.open();
        self.near.pop()
    }

    /// Makes a block of all the near parts.
    fn shut_all(&mut self) -> Result<(), AllocError>
        requires fits { parts_len (side_parts self.old) < 2 ^ 64 }
        ensures stays { OnOk result (StaysSide self.old self.new) }
        ensures none { OnOk result (length self.new.near.items ≡ 0) }
    {
        let count = self.near.len();
        if count > 0 {
            self.shut(count)?;
        }
        Ok(())
    }

    /// Adds a block that is the nearest.
    pub fn push_block(&mut self, block: Block) -> Result<(), AllocError>
        requires fits { parts_len (side_parts self.old) < 2 ^ 64 }
        ensures turned { OnOk result (self.new.turned ≡ self.old.turned) }
        ensures items { OnOk result (side_parts self.new
            ≡ side_parts self.old ++ turned_if self.old.turned block.parts.items) }
    {
        self.shut_all()?;
        self.far.push(block)?;
        Ok(())
    }

    /// Takes the nearest block, where no part stands nearer, if who goes so far passes it (`Block::is_passed`).
    pub fn pop_block(&mut self, most: usize, beyond: bool) -> Option<Block>
        ensures turned { self.new.turned ≡ self.old.turned }
        ensures items { IfSome result (λ block. side_parts self.old
            ≡ side_parts self.new ++ turned_if self.old.turned block.parts.items) }
        ensures most { IfSome result (λ block. beyond ≡ false → block.count ≤ most) }
        ensures none { IfNone result (self.new ≡ self.old) }
    {
        let blocks = self.far.len();
        if self.near.len() > 0 || blocks == 0 {
            return None;
        }
        if !self.far[blocks - 1].is_passed(most, beyond, self.turned) {
            return None;
        }
        self.far.pop()
    }

    /// Adds all its parts to others, the nearest first.
    pub fn empty_into(self, parts: &mut Vec<Part>) -> Result<(), AllocError>
        ensures { OnOk result (parts.new.items ≡ parts.old.items ++ reverse (side_parts self)) }
    {
        let mut side = self;
        while let Some(part) = side.pop() {
            let Part { from, to, slots } = part;
            parts.push(Part { from, to, slots })?;
        }
        Ok(())
    }

    /// The nearest part.
    pub fn last(&self) -> &Part
        requires { 0 < length (side_parts self.now) }
        ensures { EndsWith (side_parts self.now) result.now }
    {
        let near = self.near.len();
        if near > 0 {
            return &self.near[near - 1];
        }
        self.far[self.far.len() - 1].last(self.turned)
    }
}
