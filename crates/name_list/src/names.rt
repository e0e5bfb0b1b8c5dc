//! Names in an order, each with a number that it keeps as long as it is in the list.

ghost use Rattle.std.specs.Prelude.{◌≡◌, ℕ, ◌<◌, ◌↔◌, ◌∷◌, [], ◌++◌, length, remove, take, slice_get, chars};
ghost use Rattle.std.specs.Prelude.{string_bytes, None, Some, Contains, IsNone, IfOk, IfSome, OnOk, OnErr, MatchOption};
ghost use Rattle.name_list.specs.Moves.{move_index};
ghost use Rattle.name_list.specs.Names.{Names, place_of, names_of, numbers_of, IsFull, IsLeastFree, AreNames};

use crate::places::{add_place, give_back_places, next_free, note_places};
use indexmap::IndexMap;
use std::alloc::{AllocError, Global};
use std::marker::Model;

/// Among so many names one is looked for without its hash.
const FEW_NAMES: usize = 8;

/// Names in an order, each with a number: the least from 0 on that no other name of the list has. There is a limit on
/// how many names there may be. Places in the order count from 0.
#[derive(Drop)]
pub struct NameList {
    numbers: IndexMap<String, u16>,
    /// By the numbers that names have had so far.
    places: Vec<Option<u16>>,
    free: usize,
    limit: u16,
}

impl Model for NameList {
    ghost use Rattle.indexmap.specs.IndexMap.{values};
    ghost use Rattle.name_list.specs.Names.{Names};
    ghost use Rattle.name_list.specs.Places.{names_kept, AreKept};

    ghost Value = { Names };

    ghost view = { λ a. names_kept a.numbers.entries a.limit };

    ghost invariant = { λ a. AreKept (values a.numbers) a.places.items a.free a.limit };
}

impl NameList {
    /// A list without names, which may hold so many. It takes no memory.
    pub fn new(alloc: Global, limit: u16) -> Result<NameList, AllocError>
        ensures { IfOk result (λ names. names ≡ record { entries = []; limit = limit }) }
    {
        Ok(NameList {
            numbers: IndexMap::new(alloc),
            places: Vec::new(alloc),
            free: 0,
            limit,
        })
    }

    /// How many names there are.
    pub fn len(&self) -> usize
        ensures value { result ≡ length self.now.entries }
        ensures sound { AreNames self.now }
    {
        self.numbers.len()
    }

    /// The place of a name.
    pub fn place(&self, name: &str) -> Option<usize>
        ensures value { result ≡ place_of (chars name.now) self.now.entries }
        ensures within { IfSome result (λ place. place < length self.now.entries) }
        ensures sound { AreNames self.now }
    {
        if self.numbers.len() <= FEW_NAMES {
            return self.place_of_few(name);
        }
        self.numbers.get_index_of(name)
    }

    /// The same, by a look at each name: a few are compared sooner than one is hashed.
    fn place_of_few(&self, name: &str) -> Option<usize>
        ensures { result ≡ place_of (chars name.now) self.now.entries }
    {
        self.numbers.keys().position(|key| name == key.as_str())
    }

    /// A number above all that names have: what is kept by these numbers needs so many places.
    pub fn number_bound(&self) -> usize
        ensures { (place number : ℕ) → slice_get (numbers_of self.now.entries) place ≡ Some number → number < result }
    {
        self.places.len()
    }

    /// The place of the name that has a number.
    pub fn place_with(&self, number: u16) -> Option<usize>
        ensures value { MatchOption result (¬ Contains (numbers_of self.now.entries) number)
            (λ place. slice_get (numbers_of self.now.entries) place ≡ Some number) }
        ensures only { IfSome result (λ place. (other : ℕ) →
            slice_get (numbers_of self.now.entries) other ≡ Some number → other ≡ place) }
    {
        let place = *self.places.get(number as usize)?;
        Some(place? as usize)
    }

    /// The name at a place.
    pub fn name(&self, place: usize) -> &str
        requires { place < length self.now.entries }
        ensures { slice_get (names_of self.now.entries) place ≡ Some (chars result.now) }
    {
        let (name, _) = self.numbers.get_index(place).unwrap();
        name.as_str()
    }

    /// The number of the name at a place.
    pub fn number(&self, place: usize) -> u16
        requires { place < length self.now.entries }
        ensures value { slice_get (numbers_of self.now.entries) place ≡ Some result }
        ensures below { result < self.now.limit }
    {
        self.numbers[place]
    }

    /// Puts a new name last, and gives it the least number that no name has. `None` only where the list is full; the
    /// name is then dropped.
    pub fn create(&mut self, name: String) -> Result<Option<u16>, AllocError>
        requires { place_of (chars (string_bytes name)) self.old.entries ≡ None }
        ensures full { IfOk result (λ made. IsNone made ↔ IsFull self.old) }
        ensures refused { IfOk result (λ made. IsNone made → self.new ≡ self.old) }
        ensures least { IfOk result (λ made. IfSome made (IsLeastFree (numbers_of self.old.entries))) }
        ensures below { IfOk result (λ made. IfSome made (λ number. number < self.old.limit)) }
        ensures last { IfOk result (λ made. IfSome made (λ number. self.new ≡
            record self.old {
              entries = self.old.entries ++ record { name = chars (string_bytes name); number = number }
                  ∷ [];
            })) }
        ensures sound { OnOk result (AreNames self.new) }
        ensures err { OnErr result (self.new ≡ self.old) }
    {
        let place = self.numbers.len();
        if place >= self.limit as usize {
            return Ok(None);
        }
        let number = self.free;
        add_place(&mut self.places, number)?;
        self.numbers.insert(name, number as u16)?;
        self.places[number] = Some(place as u16);
        self.free = next_free(&self.places, number + 1);
        Ok(Some(number as u16))
    }

    /// Takes out the name at a place. Its number is free again.
    pub fn remove(&mut self, place: usize)
        requires { place < length self.old.entries }
        ensures value { self.new ≡ record self.old { entries = remove self.old.entries place } }
        ensures sound { AreNames self.new }
    {
        self.take_out(place);
        self.give_back_room();
    }

    // Takes out the name at a place, and keeps the room that it had.
    fn take_out(&mut self, place: usize)
        requires { place < length self.old.entries }
        ensures { self.new ≡ record self.old { entries = remove self.old.entries place } }
    {
        let (_, number) = self.numbers.shift_remove_index(place).unwrap();
        self.places[number as usize] = None;
        note_places(&self.numbers, &mut self.places, place);
        self.free = self.free.min(number as usize);
    }

    /// Takes out the names behind the first so many. Their numbers are free again.
    pub fn truncate(&mut self, len: usize)
        ensures { self.new ≡ record self.old { entries = take len self.old.entries } }
    {
        while self.len() > len {
            let last = self.len() - 1;
            self.take_out(last);
        }
        self.give_back_room();
    }

    // Gives back room that is no longer needed: where more than four times the names and 16 more would fit, it becomes
    // twice the names. So it takes as long as a few of the removals before it, and a name more finds room again.
    fn give_back_room(&mut self)
        ensures value { self.new ≡ self.old }
        ensures sound { AreNames self.new }
    {
        give_back_places(&mut self.places);
        let len = self.numbers.len();
        if len < self.numbers.capacity().saturating_sub(16) / 4 {
            self.numbers.shrink_to(2 * len);
        }
    }

    /// Moves the name at a place to another place; those in between move by one.
    pub fn move_to(&mut self, from: usize, to: usize)
        requires from { from < length self.old.entries }
        requires to { to < length self.old.entries }
        ensures value { self.new ≡ record self.old { entries = move_index self.old.entries from to } }
        ensures sound { AreNames self.new }
    {
        self.numbers.move_index(from, to);
        note_places(&self.numbers, &mut self.places, 0);
    }
}
