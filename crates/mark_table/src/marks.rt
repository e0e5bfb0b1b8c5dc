//! The marks of a text by their names: the number of each in the text, and its gravity.

ghost use Rattle.std.specs.Prelude.{◌≡◌, ℕ, ◌<◌, ◌≤◌, ◌+◌, ◌↔◌, ◌∷◌, [], ◌++◌, length, slice_get, chars, string_bytes};
ghost use Rattle.std.specs.Prelude.{None, Some, Contains, IsNone, IsSome, IfOk, IfSome, OnOk, OnErr, MatchOption};
ghost use Rattle.std.specs.Prelude.{MatchResult, slice_set, vec_len, vec_capacity};
ghost use Rattle.std.specs.Option.{option_map};
ghost use Rattle.name_list.specs.Moves.{without};
ghost use Rattle.text_model.specs.declared.limits.TheConstants.Limits.{MOST_MARKS};
ghost use Rattle.mark_table.specs.Kept.{with_gravity_for};
ghost use Rattle.mark_table.specs.SharedMarks.{SharedMarks, first_number, is_named, names_of, numbers_of, number_of};
ghost use Rattle.mark_table.specs.SharedMarks.{gravity_of, turned, IsFull, IsLeastFree, AreMarks};

use crate::faults::NoSuchMark;
use name_list::NameList;
use std::alloc::{AllocError, Global};
use std::marker::Model;
use text_model::{Gravity, Limits, MarkNo};

// The number of a shared mark by its number in the list: the numbers before are for the two marks of each widget's own.
fn mark_number(number: u16) -> MarkNo
    requires { number ≤ MOST_MARKS }
    ensures { result.0 ≡ first_number + number }
{
    MarkNo(2 * Limits::MOST_WIDGETS + number)
}

// Gives a number right gravity, where each number before it has one, and there is room for one more.
fn put_right(gravities: &mut Vec<Gravity>, number: usize)
    requires before { number ≤ length gravities.old.items }
    requires room { vec_len gravities.old < vec_capacity gravities.old }
    ensures { gravities.new.items ≡ slice_set (with_gravity_for number gravities.old.items) number Gravity.Right }
{
    if number == gravities.len() {
        gravities.push_reserved(Gravity::Right);
    }
    gravities[number] = Gravity::Right;
}

/// The marks that the widgets of a document share, in the order of their creation, each with its gravity and with the
/// number by which a store knows it. Places in the order count from 0.
///
/// `insert` and `current` are no part of the table: each widget has its own, with the numbers 2w and 2w + 1 if the
/// `sel` of the widget has slot w.
#[derive(Drop)]
pub struct MarkTable {
    names: NameList,
    // by the numbers of the list, as far as some mark had one
    gravities: Vec<Gravity>,
}

impl Model for MarkTable {
    ghost use Rattle.mark_table.specs.SharedMarks.{SharedMarks};
    ghost use Rattle.text_model.specs.contracts.places.Gravity as gravity_type;
    ghost use Rattle.mark_table.specs.Kept.{AreKept, marks_kept};

    ghost Value = { SharedMarks };

    ghost view = { λ a. marks_kept a.names a.gravities.items };

    ghost invariant = { λ a. AreKept a.names a.gravities.items };
}

impl MarkTable {
    /// A table without marks, for as many as the limits allow. It takes no memory.
    pub fn new(alloc: Global, limits: &Limits) -> Result<MarkTable, AllocError>
        ensures { IfOk result (λ marks. marks ≡ record { marks = []; limit = limits.now.marks }) }
    {
        Ok(MarkTable {
            names: NameList::new(alloc, limits.marks())?,
            gravities: Vec::new(alloc),
        })
    }

    /// How many marks there are.
    pub fn len(&self) -> usize
        ensures value { result ≡ length self.now.marks }
        ensures sound { AreMarks self.now }
    {
        self.names.len()
    }

    /// The name of the mark at a place.
    pub fn name(&self, place: usize) -> &str
        requires { place < length self.now.marks }
        ensures { slice_get (names_of self.now.marks) place ≡ Some (chars result.now) }
    {
        self.names.name(place)
    }

    /// The number of the mark at a place.
    pub fn number(&self, place: usize) -> MarkNo
        requires { place < length self.now.marks }
        ensures { slice_get (numbers_of self.now.marks) place ≡ Some result.0 }
    {
        mark_number(self.names.number(place))
    }

    /// The place of the mark that has a number.
    pub fn place(&self, number: MarkNo) -> Option<usize>
        ensures value { MatchOption result (¬ Contains (numbers_of self.now.marks) number.0)
            (λ place. slice_get (numbers_of self.now.marks) place ≡ Some number.0) }
        ensures only { IfSome result (λ place. (other : ℕ) →
            slice_get (numbers_of self.now.marks) other ≡ Some number.0 → other ≡ place) }
    {
        let names = &self.names;
        let number = number.0.checked_sub(2 * Limits::MOST_WIDGETS)?;
        names.place_with(number)
    }

    /// The number of a mark.
    pub fn find(&self, name: &str) -> Option<MarkNo>
        ensures { option_map (λ number. number.0) result ≡ number_of (chars name.now) self.now.marks }
    {
        Some(self.number(self.names.place(name)?))
    }

    /// Makes a mark of a new name, last in the order, with right gravity and the least number that no shared mark has.
    /// `None` only where there are as many as may be; the name is then dropped.
    pub fn create(&mut self, name: String) -> Result<Option<MarkNo>, AllocError>
        requires { number_of (chars (string_bytes name)) self.old.marks ≡ None }
        ensures full { IfOk result (λ made. IsNone made ↔ IsFull self.old) }
        ensures refused { IfOk result (λ made. IsNone made → self.new ≡ self.old) }
        ensures least { IfOk result (λ made. IfSome made (λ number. IsLeastFree (numbers_of self.old.marks) number.0)) }
        ensures last { IfOk result (λ made. IfSome made (λ number. self.new ≡ record self.old {
          marks = self.old.marks ++ record {
            name = chars (string_bytes name);
            number = number.0;
            gravity = Gravity.Right;
          } ∷ [];
        })) }
        // To take it out again gives back the marks before it.
        ensures back { IfOk result (λ made. IfSome made (λ _.
            without (is_named (chars (string_bytes name))) self.new.marks ≡ self.old.marks)) }
        ensures sound { OnOk result (AreMarks self.new) }
        ensures err { OnErr result (self.new ≡ self.old) }
    {
        // Nothing is refused behind the name's own request.
        self.gravities.reserve(1)?;
        let Some(number) = self.names.create(name)? else {
            return Ok(None);
        };
        put_right(&mut self.gravities, number as usize);
        Ok(Some(mark_number(number)))
    }

    /// Takes a mark out. Its number is free again. An unknown name is skipped.
    pub fn unset(&mut self, name: &str)
        ensures value { self.new ≡ record self.old { marks = without (is_named (chars name.now)) self.old.marks } }
        ensures sound { AreMarks self.old × AreMarks self.new }
    {
        if let Some(place) = self.names.place(name) {
            self.names.remove(place);
            self.give_back_room();
        }
    }

    // Takes off the gravities behind the numbers that marks have. Where more than four times as many as are left and 16
    // more would fit, the room becomes that of twice as many, so this takes as long as a few of the calls before it.
    fn give_back_room(&mut self)
        ensures { self.new ≡ self.old }
    {
        self.gravities.truncate(self.names.number_bound());
        let len = self.gravities.len();
        if len < self.gravities.capacity().saturating_sub(16) / 4 {
            self.gravities.shrink_to(2 * len);
        }
    }

    /// The gravity of a mark.
    pub fn gravity(&self, name: &str) -> Result<Gravity, NoSuchMark>
        ensures { MatchResult result
            (λ gravity. gravity_of (chars name.now) self.now.marks ≡ Some gravity)
            (λ _. gravity_of (chars name.now) self.now.marks ≡ None) }
    {
        let Some(place) = self.names.place(name) else {
            return Err(NoSuchMark);
        };
        Ok(self.gravities[self.names.number(place) as usize])
    }

    /// Gives a mark another gravity.
    pub fn set_gravity(&mut self, name: &str, gravity: Gravity) -> Result<(), NoSuchMark>
        ensures known { MatchResult result
            (λ _. IsSome (gravity_of (chars name.now) self.old.marks))
            (λ _. gravity_of (chars name.now) self.old.marks ≡ None) }
        ensures ok { OnOk result (self.new
            ≡ record self.old { marks = turned (chars name.now) gravity self.old.marks }) }
        ensures sound { OnOk result (AreMarks self.new) }
        ensures err { OnErr result (self.new ≡ self.old) }
    {
        let Some(place) = self.names.place(name) else {
            return Err(NoSuchMark);
        };
        let number = self.names.number(place);
        self.gravities[number as usize] = gravity;
        Ok(())
    }
}
