//! Laws of toggles, each the contract of a function that does nothing.

ghost use Rattle.std.specs.Prelude.{◌≡◌, ℕ, ◌+◌, ◌%◌, ◌<◌, ◌==◌, List, ◌++◌, length, take, slice_get, Some};
ghost use Rattle.std.specs.FinSet as set;
ghost use Rattle.text_model.specs.Content.{Slots};
ghost use Rattle.text_model.specs.SlotSets.{differing};
ghost use Rattle.toggle_sums.specs.Toggles.{parity, presence, tags_from, toggle_count};

/// A slot is on a cell exactly where it is toggled an odd number of times before the cell, given the slots that are on
/// at the start.
pub fn tags_by_parity()
    ensures cell { (toggles : List Slots) (start : Slots) (at : ℕ) → at < length toggles →
        slice_get (tags_from start toggles) at ≡ Some (differing start (parity (take (at + 1) toggles))) }
    ensures odd { (toggles : List Slots) (slot : ℕ) →
        set.contains (parity toggles) slot ≡ (toggle_count slot toggles % 2 == 1) }
{}

/// The parity of joined lists is that of their parities, and what is toggled in one of them is toggled in both
/// together.
pub fn joined_lists()
    ensures parity { (first second : List Slots) → parity (first ++ second) ≡ differing (parity first) (parity second) }
    ensures presence { (first second : List Slots) →
        presence (first ++ second) ≡ set.union (presence first) (presence second) }
{}
