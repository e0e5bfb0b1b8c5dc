//! Spots of offsets, which are found in the order of the text.

ghost use Rattle.std.specs.Prelude.{◌≡◌, ◌≤◌, ◌^◌, length, IfOk};
ghost use Rattle.text_model.specs.Content.{characters};
ghost use Rattle.edit_ops.specs.Told.{spot_at};

use crate::spots::Spot;
use std::alloc::AllocError;
use text_model::TextStore;

/// Each copy has a maximum of 4,096 characters.
const BLOCK: usize = 4096;

/// A place of a text, as an offset and as its spot, from which the places behind it are found: in one line each
/// character is looked at once.
#[derive(Clone, Copy)]
pub struct SpotWalk {
    pub offset: usize,
    pub spot: Spot,
}

impl SpotWalk {
    /// At the start of a text.
    pub fn new() -> SpotWalk
        ensures { result ≡ record { offset = 0; spot = record { line = 1; column = 0; bytes = 0; units = 0 } } }
    {
        SpotWalk {
            offset: 0,
            spot: Spot::start_of(1),
        }
    }

    /// At an offset from this one on, past each character in between, of which it takes a copy.
    fn past<S: TextStore>(self, store: &S, offset: usize) -> Result<SpotWalk, AllocError>
        requires stands { self.spot ≡ spot_at (characters (S.content store.now).cells) self.offset }
        requires ordered { self.offset ≤ offset }
        requires within { offset ≤ length (S.content store.now).cells }
        requires short { length (S.content store.now).cells ≤ 2 ^ 60 }
        ensures { IfOk result (λ there. there
            ≡ record { offset = offset; spot = spot_at (characters (S.content store.now).cells) offset }) }
    {
        let between = store.copy_text(self.offset, offset)?;
        Ok(SpotWalk {
            offset,
            spot: self.spot.behind(between.as_str()),
        })
    }

    /// At an offset from this one on, past each character in between. It takes copies of a block each.
    fn along<S: TextStore>(self, store: &S, offset: usize) -> Result<SpotWalk, AllocError>
        requires stands { self.spot ≡ spot_at (characters (S.content store.now).cells) self.offset }
        requires ordered { self.offset ≤ offset }
        requires within { offset ≤ length (S.content store.now).cells }
        requires short { length (S.content store.now).cells ≤ 2 ^ 60 }
        ensures { IfOk result (λ there. there
            ≡ record { offset = offset; spot = spot_at (characters (S.content store.now).cells) offset }) }
    {
        let mut walk = self;
        while walk.offset < offset {
            let end = offset.min(walk.offset + BLOCK);
            walk = walk.past(store, end)?;
        }
        Ok(walk)
    }

    /// At an offset from this one on.
    pub fn to<S: TextStore>(self, store: &S, offset: usize) -> Result<SpotWalk, AllocError>
        requires stands { self.spot ≡ spot_at (characters (S.content store.now).cells) self.offset }
        requires ordered { self.offset ≤ offset }
        requires within { offset ≤ length (S.content store.now).cells }
        requires short { length (S.content store.now).cells ≤ 2 ^ 60 }
        ensures { IfOk result (λ there. there
            ≡ record { offset = offset; spot = spot_at (characters (S.content store.now).cells) offset }) }
    {
        if offset == self.offset {
            return Ok(self);
        }
        let line = store.line_at(offset);
        if line.start <= self.offset {
            return self.along(store, offset);
        }
        let first = SpotWalk {
            offset: line.start,
            spot: Spot::start_of(line.number + 1),
        };
        first.along(store, offset)
    }
}
