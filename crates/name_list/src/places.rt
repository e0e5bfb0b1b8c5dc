//! For each number the place of the name that has it.
ghost use Rattle.std.specs.Prelude.{◌≡◌, ℕ, ◌<◌, ◌≤◌, ◌^◌, true, false, length, slice_get, OnErr, OnOk, Some};
ghost use Rattle.indexmap.specs.IndexMap.{values, index_map_len};
ghost use Rattle.name_list.specs.Names.{AreApart};
ghost use Rattle.name_list.specs.Places.{is_taken, with_place_for, AreTrimmed, IsIndex, IsIndexTo};

use indexmap::IndexMap;
use std::alloc::AllocError;

/// Makes room for the place of a number, before which each has room.
pub(crate) fn add_place(places: &mut Vec<Option<u16>>, number: usize) -> Result<(), AllocError>
    requires { number ≤ length places.old.items }
    ensures ok { OnOk result (places.new.items ≡ with_place_for number places.old.items) }
    ensures err { OnErr result (places.new.items ≡ places.old.items) }
{
    if number == places.len() {
        places.push(None)?;
    }
    Ok(())
}

/// How many places there are as far as the last that a number has.
fn places_needed(places: &[Option<u16>]) -> usize
    ensures within { result ≤ length places.now }
    ensures free { (number : ℕ) → result ≤ number → is_taken places.now number ≡ false }
{
    let mut needed = places.len();
    while needed > 0 && places[needed - 1].is_none() {
        needed -= 1;
    }
    needed
}

/// Takes off the places behind the last that a number has, and gives back room by the same measure as that for names.
pub(crate) fn give_back_places(places: &mut Vec<Option<u16>>)
    ensures { AreTrimmed places.old.items places.new.items }
{
    let len = places_needed(places);
    places.truncate(len);
    if len < places.capacity().saturating_sub(16) / 4 {
        places.shrink_to(2 * len);
    }
}

/// The least number from `from` on that has no place.
pub(crate) fn next_free(places: &[Option<u16>], from: usize) -> usize
    requires { from ≤ length places.now }
    ensures above { from ≤ result }
    ensures within { result ≤ length places.now }
    ensures taken { (number : ℕ) → from ≤ number → number < result → is_taken places.now number ≡ true }
    ensures free { is_taken places.now result ≡ false }
{
    let mut number = from;
    while number < places.len() && places[number].is_some() {
        number += 1;
    }
    number
}

/// Notes the places from `from` on anew.
pub(crate) fn note_places(numbers: &IndexMap<String, u16>, places: &mut [Option<u16>], from: usize)
    requires apart { AreApart (values numbers.now) }
    requires within { (at number : ℕ) → slice_get (values numbers.now) at ≡ Some number → number < length places.old }
    requires few { index_map_len numbers.now < 2 ^ 16 }
    requires front { IsIndexTo (values numbers.now) from places.old }
    ensures { IsIndex (values numbers.now) places.new }
{
    for place in from..numbers.len() {
        let number = numbers[place];
        places[number as usize] = Some(place as u16);
    }
}
