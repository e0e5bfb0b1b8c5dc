//! The tags of a text: their names in order of priority, and the slot of each.

ghost use Rattle.std.specs.Prelude.{◌≡◌, ◌<◌, ◌≤◌, ◌↔◌, ◌∷◌, [], ◌++◌, length, take, slice_get, chars, string_bytes};
ghost use Rattle.std.specs.Prelude.{false, None, Some, IsNone, IfOk, IfErr, IfSome, MatchOption, OnOk, OnErr};
ghost use Rattle.std.specs.Option.{option_map};
ghost use Rattle.tag_table.specs.Kept.{GoesTo, slot_of_number};
ghost use Rattle.tag_table.specs.Priority.{raised, lowered, deleted, is_tag, IsOrdered, IsUnknown};
ghost use Rattle.text_model.specs.declared.limits.TheConstants.Limits.{MOST_TAGS};
ghost use Rattle.text_model.specs.TagBits.{slot_count};
ghost use Rattle.tag_table.specs.Tags.{Tags, sel, names_of, slots_of, slot_of, IsFull, IsLeastFree, AreTags};

use crate::faults::NoSuchTag;
use name_list::NameList;
use std::alloc::{AllocError, Global};
use std::marker::Model;
use text_model::{Limits, TagSlot};

const SEL: &str = "sel";

// The slot of a tag by its number in the list: 0 stands for `sel`, of which each widget has one; the other tags take
// the slots behind those.
fn slot_of_number(number: u16) -> TagSlot
    requires { number ≤ MOST_TAGS }
    ensures value { result.0 ≡ slot_of_number number }
    ensures bound { result.0 < slot_count }
{
    TagSlot(if number == 0 {
        0
    } else {
        Limits::MOST_WIDGETS - 1 + number
    })
}

/// The tags of a document from the lowest priority to the highest (text(n), "tag raise"), each with the slot by which
/// a store knows it. `sel` is always there. Places in the order count from 0.
#[derive(Drop)]
pub struct TagTable {
    names: NameList,
}

impl Model for TagTable {
    ghost use Rattle.text_model.specs.declared.limits.TheConstants.Limits.{MOST_TAGS};
    ghost use Rattle.tag_table.specs.Tags.{Tags};
    ghost use Rattle.tag_table.specs.Kept.{AreKept, tags_kept};

    ghost Value = { Tags };

    ghost view = { λ a. tags_kept a.names };

    ghost invariant = { λ a. AreKept a.names };
}

impl TagTable {
    /// The tags of a new document: `sel` alone.
    pub fn new(alloc: Global, limits: &Limits) -> Result<TagTable, AllocError>
        ensures { IfOk result (λ tags. tags ≡ record {
          tags = record { name = sel; slot = 0 } ∷ [];
          limit = limits.now.tags;
        }) }
    {
        let mut names = NameList::new(alloc, limits.tags() + 1)?;
        names.create(String::from_str(alloc, SEL)?)?;
        Ok(TagTable { names })
    }

    /// How many tags there are, `sel` among them.
    pub fn len(&self) -> usize
        ensures value { result ≡ length self.now.tags }
        ensures sound { AreTags self.now }
    {
        self.names.len()
    }

    /// The name of the tag at a place.
    pub fn name(&self, place: usize) -> &str
        requires { place < length self.now.tags }
        ensures { slice_get (names_of self.now.tags) place ≡ Some (chars result.now) }
    {
        self.names.name(place)
    }

    /// The slot of the tag at a place; 0 for `sel`.
    pub fn slot(&self, place: usize) -> TagSlot
        requires { place < length self.now.tags }
        ensures value { slice_get (slots_of self.now.tags) place ≡ Some result.0 }
        ensures bound { result.0 < slot_count }
    {
        slot_of_number(self.names.number(place))
    }

    /// The slot of a tag; 0 for `sel`.
    pub fn find(&self, name: &str) -> Option<TagSlot>
        ensures value { option_map (λ slot. slot.0) result ≡ slot_of (chars name.now) self.now.tags }
        ensures bound { IfSome result (λ slot. slot.0 < slot_count) }
    {
        Some(self.slot(self.names.place(name)?))
    }

    /// Makes a tag of a new name, with the highest priority and the least slot that no tag has. `None` only where there
    /// are as many tags besides `sel` as may be; the name is then dropped.
    pub fn create(&mut self, name: String) -> Result<Option<TagSlot>, AllocError>
        requires { slot_of (chars (string_bytes name)) self.old.tags ≡ None }
        ensures full { IfOk result (λ made. IsNone made ↔ IsFull self.old) }
        ensures refused { IfOk result (λ made. IsNone made → self.new ≡ self.old) }
        ensures least { IfOk result (λ made. IfSome made (λ slot. IsLeastFree (slots_of self.old.tags) slot.0)) }
        ensures last { IfOk result (λ made. IfSome made (λ slot. self.new ≡
            record self.old {
              tags = self.old.tags ++ record { name = chars (string_bytes name); slot = slot.0 }
                  ∷ [];
            })) }
        ensures bound { IfOk result (λ made. IfSome made (λ slot. slot.0 < slot_count)) }
        // To take it out again gives back the tags before it.
        ensures back { IfOk result (λ made. IfSome made (λ _. deleted (chars (string_bytes name)) self.new.tags
            ≡ self.old.tags)) }
        ensures sound { OnOk result (AreTags self.new) }
        ensures err { OnErr result (self.new ≡ self.old) }
    {
        let Some(number) = self.names.create(name)? else {
            return Ok(None);
        };
        Ok(Some(slot_of_number(number)))
    }

    /// Puts a tag just above another one, or highest. Against itself it stays where it is.
    pub fn raise(&mut self, name: &str, above: Option<&str>) -> Result<(), NoSuchTag>
        ensures ok { OnOk result (IsOrdered raised (chars name.now) (option_map (λ other. chars other.now) above.entry)
            self.old.tags self.new.tags) }
        ensures fault { IfErr result (IsUnknown (chars name.now) (option_map (λ other. chars other.now) above.entry)
            self.old.tags) }
        ensures err { OnErr result (self.new ≡ self.old) }
        ensures limit { self.new.limit ≡ self.old.limit }
        ensures sound { OnOk result (AreTags self.new) }
    {
        let Some(from) = self.names.place(name) else {
            return Err(NoSuchTag::Moved);
        };
        let to = self.place_above(from, above)?;
        self.names.move_to(from, to);
        Ok(())
    }

    /// Puts a tag just below another one, or lowest. Against itself it stays where it is.
    pub fn lower(&mut self, name: &str, below: Option<&str>) -> Result<(), NoSuchTag>
        ensures ok { OnOk result (IsOrdered lowered (chars name.now) (option_map (λ other. chars other.now) below.entry)
            self.old.tags self.new.tags) }
        ensures fault { IfErr result (IsUnknown (chars name.now) (option_map (λ other. chars other.now) below.entry)
            self.old.tags) }
        ensures err { OnErr result (self.new ≡ self.old) }
        ensures limit { self.new.limit ≡ self.old.limit }
        ensures sound { OnOk result (AreTags self.new) }
    {
        let Some(from) = self.names.place(name) else {
            return Err(NoSuchTag::Moved);
        };
        let to = self.place_below(from, below)?;
        self.names.move_to(from, to);
        Ok(())
    }

    /// Takes a tag out. Its slot is free again. `sel` stays, and an unknown name is skipped.
    pub fn delete(&mut self, name: &str)
        ensures value { self.new ≡ record self.old { tags = deleted (chars name.now) self.old.tags } }
        ensures sound { AreTags self.old × AreTags self.new }
    {
        let Some(place) = self.names.place(name) else {
            return;
        };
        if name != SEL {
            self.names.remove(place);
        }
    }

    /// Takes out the tags behind the first so many, among which `sel` is. Their slots are free again.
    pub fn truncate(&mut self, len: usize)
        requires { slot_of sel (take len self.old.tags) ≡ Some 0 }
        ensures { self.new ≡ record self.old { tags = take len self.old.tags } }
    {
        self.names.truncate(len);
    }

    // Where the tag at `from` goes to stand just above another one, or highest.
    fn place_above(&self, from: usize, above: Option<&str>) -> Result<usize, NoSuchTag>
        requires { from < length self.now.tags }
        ensures goes { IfOk result (GoesTo raised from (option_map (λ other. chars other.now) above.entry)
            self.now.tags) }
        ensures fault { IfErr result (λ fault. (fault ≡ NoSuchTag.Neighbour)
            × MatchOption (option_map (λ other. chars other.now) above.entry) ⊥ (λ o. is_tag o self.now.tags ≡ false)) }
    {
        let Some(other) = above else {
            return Ok(self.names.len() - 1);
        };
        let Some(at) = self.names.place(other) else {
            return Err(NoSuchTag::Neighbour);
        };
        Ok(if at < from { at + 1 } else { at })
    }

    // Where the tag at `from` goes to stand just below another one, or lowest.
    fn place_below(&self, from: usize, below: Option<&str>) -> Result<usize, NoSuchTag>
        requires { from < length self.now.tags }
        ensures goes { IfOk result (GoesTo lowered from (option_map (λ other. chars other.now) below.entry)
            self.now.tags) }
        ensures fault { IfErr result (λ fault. (fault ≡ NoSuchTag.Neighbour)
            × MatchOption (option_map (λ other. chars other.now) below.entry) ⊥ (λ o. is_tag o self.now.tags ≡ false)) }
    {
        let Some(other) = below else {
            return Ok(0);
        };
        let Some(at) = self.names.place(other) else {
            return Err(NoSuchTag::Neighbour);
        };
        Ok(if from < at { at - 1 } else { at })
    }
}
