//! Characters copied out of the store, a line at a time, from which a dump lists text.

ghost use Rattle.std.specs.Prelude.{◌≡◌, ℕ, ◌≤◌, ◌+◌, ◌-◌, List, chars, codes, drop, length};
ghost use Rattle.std.specs.Prelude.{slice_range, string_bytes, IfOk, OnOk};
ghost use Rattle.std.specs.Str.{IsCharBoundary};
ghost use Rattle.tcl_words.specs.ListGrowth.{Goes};
ghost use Rattle.search_dump.specs.Dump.{element};
ghost use Rattle.text_index.specs.Parts.{part_of};
ghost use Rattle.text_index.specs.Views.{shown};
ghost use Rattle.search_dump.specs.Spots.{IsSpot};

use crate::listing::{Listing, Spot};
use std::alloc::{AllocError, Global};
use text_index::View;
use text_model::{TextStore, front_bytes};

/// Characters of a view that are copied out of the store at once and listed piece by piece: those from a place on up to
/// before another one are left. Places count characters.
#[derive(Drop)]
pub struct Copied {
    text: String,
    /// The byte of the text at which what is left begins.
    byte: usize,
    /// The place of the first character that is left.
    place: usize,
    /// The place behind the last.
    end: usize,
    /// Nothing is copied ahead beyond this place.
    limit: usize,
    ghost boundary: { IsCharBoundary (string_bytes text) byte },
    ghost counted: { end ≡ place + length (chars (drop byte (string_bytes text))) },
}

impl Copied {
    ghost use Rattle.search_dump.specs.Copies.{left_of, AreLeft};

    /// None at a place, which takes no memory.
    pub fn new(alloc: Global, place: usize, limit: usize) -> Copied
        ensures left { (text : List ℕ) → place ≤ length text → limit ≤ length text → AreLeft text result }
        ensures place { result.place ≡ place }
        ensures limit { result.limit ≡ limit }
    {
        Copied {
            text: String::new(alloc),
            byte: 0,
            place,
            end: place,
            limit,
        }
    }

    /// Has the characters of a spot up to a place. Where they aren't left from before, the rest of the line is copied
    /// with them, up to the limit.
    pub fn hold<S: TextStore>(
        &mut self,
        view: &View<'_, S>,
        spot: Spot,
        to: usize,
    ) -> Result<(), AllocError>
        requires left { AreLeft (shown (part_of view.now)) self.old }
        requires ordered { spot.place ≤ to }
        requires within { view.now.start + to ≤ view.now.end }
        ensures left { IfOk result (λ _. AreLeft (shown (part_of view.now)) self.new) }
        ensures place { IfOk result (λ _. self.new.place ≡ spot.place) }
        ensures end { IfOk result (λ _. to ≤ self.new.end) }
        ensures limit { self.new.limit ≡ self.old.limit }
    {
        if self.place == spot.place && to <= self.end {
            return Ok(());
        }
        let end = spot.line.end.min(self.limit).max(to);
        let text = view.copy_text(spot.place, end)?;
        *self = Copied {
            text,
            byte: 0,
            place: spot.place,
            end,
            limit: self.limit,
        };
        Ok(())
    }

    /// What is left.
    fn rest(&self) -> &str
        ensures { result.now ≡ drop self.now.byte (string_bytes self.now.text) }
    {
        &self.text.as_str()[self.byte..]
    }

    /// How many bytes the characters up to a place take. Those of all that is left needn't be looked for.
    fn bytes_to(&self, to: usize) -> usize
        requires ordered { self.now.place ≤ to }
        requires within { to ≤ self.now.end }
        ensures boundary { IsCharBoundary (drop self.now.byte (string_bytes self.now.text)) result }
        ensures behind { chars (drop result (drop self.now.byte (string_bytes self.now.text)))
            ≡ drop (to - self.now.place) (left_of self.now) }
    {
        let rest = self.rest();
        if to == self.end {
            return rest.len();
        }
        front_bytes(rest, to - self.place)
    }

    /// Goes on at a place, so many bytes behind.
    fn pass(&mut self, bytes: usize, to: usize)
        requires boundary { IsCharBoundary (drop self.old.byte (string_bytes self.old.text)) bytes }
        requires ordered { self.old.place ≤ to }
        requires within { to ≤ self.old.end }
        requires behind { chars (drop bytes (drop self.old.byte (string_bytes self.old.text)))
            ≡ drop (to - self.old.place) (left_of self.old) }
        ensures left { (text : List ℕ) → AreLeft text self.old → AreLeft text self.new }
        ensures place { self.new.place ≡ to }
    {
        self.byte += bytes;
        self.place = to;
    }

    /// Lists the characters up to a place as the text of a spot, and goes on behind them.
    pub fn list(&mut self, out: &mut Listing, spot: Spot, to: usize) -> Result<(), AllocError>
        requires spot { spot.line.start ≤ spot.place }
        requires place { self.old.place ≡ spot.place }
        requires ordered { spot.place ≤ to }
        requires within { to ≤ self.old.end }
        ensures goes { OnOk result ((text : List ℕ) → IsSpot text spot → AreLeft text self.old →
            Goes (string_bytes out.old.list) (string_bytes out.new.list)
            (element (codes "text") text spot.place (slice_range text spot.place to))) }
        ensures left { OnOk result ((text : List ℕ) → AreLeft text self.old → AreLeft text self.new) }
        ensures place { OnOk result (self.new.place ≡ to) }
    {
        let bytes = self.bytes_to(to);
        out.push("text", &self.rest()[..bytes], spot)?;
        self.pass(bytes, to);
        Ok(())
    }
}
