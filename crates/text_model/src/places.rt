//! Numbers of tags and marks, the places of marks with their gravity, and the spans of lines.

ghost use Rattle.std.specs.Prelude.{◌≡◌, ◌+◌, ◌^◌, ◌<◌, ◌≤◌};

/// The number by which a store knows a tag, below `TagSet::SLOTS`.
#[derive(Clone, Copy, Debug, PartialEq, Eq)]
pub struct TagSlot(pub u16);

/// The number by which a store knows a mark.
#[derive(Clone, Copy, Debug, PartialEq, Eq)]
pub struct MarkNo(pub u16);

/// To which side of text that is inserted at it a mark goes: a left mark stays before the text, a right mark goes
/// behind it (text(n), "mark gravity").
#[derive(Clone, Copy, Debug, PartialEq, Eq)]
pub enum Gravity {
    Left,
    Right,
}

/// Where a mark stands: before the character at an offset, in characters from the start of the text.
#[derive(Clone, Copy, Debug, PartialEq, Eq)]
pub struct Place {
    pub offset: usize,
    pub gravity: Gravity,
}

impl Place {
    ghost use Rattle.text_model.specs.Splices.{moved, drawn};

    /// Where the mark stands after so many characters are inserted at an offset.
    pub fn moved(self, at: usize, count: usize) -> Place
        requires { self.offset + count < 2 ^ 64 }
        ensures { result ≡ moved at count self }
    {
        let behind = at < self.offset || (self.offset == at && self.gravity == Gravity::Right);
        if !behind {
            return self;
        }
        Place {
            offset: self.offset + count,
            gravity: self.gravity,
        }
    }

    /// Where the mark stands after the characters from one offset to another are taken out: behind the kept
    /// characters before it.
    pub fn drawn(self, from: usize, to: usize) -> Place
        requires { from ≤ to }
        ensures { result ≡ drawn from to self }
    {
        Place {
            offset: self.offset.min(from) + self.offset.saturating_sub(to),
            gravity: self.gravity,
        }
    }
}

/// A line of a text: its number, the offset of its first character, and the offset behind its newline.
#[derive(Clone, Copy)]
pub struct LineSpan {
    pub number: usize,
    pub start: usize,
    pub end: usize,
}
