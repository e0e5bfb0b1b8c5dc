//! Places of a view with their lines, and a list of keys, values and places.

ghost use Rattle.std.specs.Prelude.{◌≡◌, ℕ, ◌≤◌, ◌+◌, ◌∷◌, List, [], chars, false, string_bytes, OnOk};
ghost use Rattle.text_index.specs.Positions.{position_text};
ghost use Rattle.tcl_words.specs.ListGrowth.{Goes};
ghost use Rattle.tcl_words.specs.ListText.{needs_quotes};
ghost use Rattle.search_dump.specs.Dump.{element};
ghost use Rattle.text_index.specs.Parts.{part_of};
ghost use Rattle.text_index.specs.Views.{shown};
ghost use Rattle.search_dump.specs.Spots.{IsSpot};

use std::alloc::{AllocError, Global};
use tcl_words::{push_element, push_space};
use text_index::{View, push_index_on};
use text_model::{LineSpan, TextStore};

/// Appends a word that can stand as it is as an element of a list.
fn push_plain(list: &mut String, word: &str) -> Result<(), AllocError>
    requires { needs_quotes (chars word.now) ≡ false }
    ensures { OnOk result (Goes (string_bytes list.old) (string_bytes list.new) (chars word.now ∷ [])) }
{
    push_space(list)?;
    list.push_str(word)?;
    Ok(())
}

/// A place of a view, with the line that it stands in.
#[derive(Clone, Copy)]
pub struct Spot {
    pub place: usize,
    pub line: LineSpan,
}

impl Spot {
    /// The line of a place that isn't before this one. The store is asked only where that is another line.
    pub fn line_on<S: TextStore>(self, view: &View<'_, S>, place: usize) -> LineSpan
        requires spot { IsSpot (shown (part_of view.now)) self }
        requires behind { self.place ≤ place }
        requires within { view.now.start + place ≤ view.now.end }
        ensures { IsSpot (shown (part_of view.now)) (record { place = place; line = result }) }
    {
        view.line_on(self.place, self.line, place)
    }
}

/// Appends a place as an element of a list. It is two numbers round a dot, which stand as they are.
fn push_spot(list: &mut String, spot: Spot) -> Result<(), AllocError>
    requires { spot.line.start ≤ spot.place }
    ensures { OnOk result ((text : List ℕ) → IsSpot text spot → Goes (string_bytes list.old) (string_bytes list.new)
        (position_text text spot.place ∷ [])) }
{
    push_space(list)?;
    push_index_on(list, spot.line, spot.place)?;
    Ok(())
}

/// Appends a place as an element of a list.
pub fn push_place<S: TextStore>(
    list: &mut String,
    view: &View<'_, S>,
    place: usize,
) -> Result<(), AllocError>
    requires within { view.now.start + place ≤ view.now.end }
    ensures { OnOk result (Goes (string_bytes list.old) (string_bytes list.new)
        (position_text (shown (part_of view.now)) place ∷ [])) }
{
    let line = view.line_at(place);
    push_spot(list, Spot { place, line })
}

/// The text of a list that grows.
#[derive(Drop)]
pub struct Listing {
    pub list: String,
}

impl Listing {
    /// Of an empty list. It takes no memory.
    pub fn new(alloc: Global) -> Listing
        ensures { string_bytes result.list ≡ [] }
    {
        Listing {
            list: String::new(alloc),
        }
    }

    /// Appends what stands at a place, its name or characters, and the place, as three elements.
    pub fn push(&mut self, key: &str, value: &str, spot: Spot) -> Result<(), AllocError>
        requires plain { needs_quotes (chars key.now) ≡ false }
        requires ordered { spot.line.start ≤ spot.place }
        ensures { OnOk result ((text : List ℕ) → IsSpot text spot →
            Goes (string_bytes self.old.list) (string_bytes self.new.list)
            (element (chars key.now) text spot.place (chars value.now))) }
    {
        push_plain(&mut self.list, key)?;
        push_element(&mut self.list, value)?;
        push_spot(&mut self.list, spot)
    }
}
