//! Blocks of consecutive parts of a text, with their number of characters, which a cursor passes whole.

ghost use Rattle.std.specs.Prelude.{◌≡◌, ◌<◌, ◌≤◌, ◌^◌, true, false, length};
ghost use Rattle.text_cursor.specs.Parts.{parts_len, turned_if, EndsWith};

use crate::parts::Part;

/// How many characters some parts have.
pub fn count_parts(parts: &[Part]) -> usize
    requires { parts_len parts.now < 2 ^ 64 }
    ensures { result ≡ parts_len parts.now }
{
    let mut count = 0;
    for part in parts {
        // No part ends before it begins, so the difference is never cut.
        count += part.to.saturating_sub(part.from);
    }
    count
}

/// Puts the last part first, and so on, where that is wanted.
fn turn(parts: &mut Vec<Part>, turned: bool)
    ensures { parts.new.items ≡ turned_if turned parts.old.items }
{
    if turned {
        parts.reverse();
    }
}

/// Parts one behind another, in the order of the text, and how many characters they have.
#[derive(Drop)]
pub struct Block {
    pub parts: Vec<Part>,
    pub count: usize,
    ghost some: { 0 < length parts.items },
    ghost counted: { count ≡ parts_len parts.items },
}

impl Block {
    /// Of parts that stand in the order of the text, or turned, the last one first.
    pub fn of(parts: Vec<Part>, turned: bool) -> Block
        requires some { 0 < length parts.items }
        requires fits { parts_len parts.items < 2 ^ 64 }
        ensures { turned_if turned result.parts.items ≡ parts.items }
    {
        let mut parts = parts;
        turn(&mut parts, turned);
        let count = count_parts(&parts);
        Block { parts, count }
    }

    /// Its parts in the order of the text, or turned, the last one first.
    pub fn into_parts(self, turned: bool) -> Vec<Part>
        ensures { result.items ≡ turned_if turned self.parts.items }
    {
        let Block { parts, .. } = self;
        let mut parts = parts;
        turn(&mut parts, turned);
        parts
    }

    /// The last part, or the first one where they are turned.
    pub fn last(&self, turned: bool) -> &Part
        ensures { EndsWith (turned_if turned self.now.parts.items) result.now }
    {
        let index = if turned { 0 } else { self.parts.len() - 1 };
        &self.parts[index]
    }

    /// Whether so many characters are those of more than half of the parts: from the last one back, or from the first
    /// one on, where they are turned.
    fn is_half_passed(&self, most: usize, turned: bool) -> bool {
        let count = self.count;
        let first = count_parts(&self.parts[..self.parts.len() / 2]);
        if turned {
            first < most
        } else {
            count - first < most
        }
    }

    /// Whether who goes so far passes the whole block: if it isn't longer, or, beyond the place, if fewer parts lead
    /// back from its far end than up to the place.
    pub fn is_passed(&self, most: usize, beyond: bool, turned: bool) -> bool
        ensures { result ≡ true → beyond ≡ false → self.now.count ≤ most }
    {
        if self.count <= most {
            return true;
        }
        beyond && self.is_half_passed(most, turned)
    }
}
