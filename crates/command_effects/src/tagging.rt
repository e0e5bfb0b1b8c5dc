//! The slots of tags by name, where `sel` is the widget's own; creates new tags and deletes old ones.

ghost use Rattle.std.specs.Prelude.{◌≡◌, ◌≢◌, ◌+◌, ◌<◌, length, map, Some, chars, option_map, IfOk, IfErr};
ghost use Rattle.std.specs.Prelude.{OnOk, IfSome};
ghost use Rattle.std.specs.FinSet as set;
ghost use Rattle.std.specs.List.{All};
ghost use Rattle.index_grammar.specs.Names.{known_tags};
ghost use Rattle.tag_table.specs.Tags.{AreTags, Tags, slot_of, names_of};
ghost use Rattle.tcl_words.specs.Unread.{texts_of};
ghost use Rattle.text_model.specs.TagBits.{slot_count};
ghost use Rattle.text_model.specs.declared.limits.TheConstants.Limits.{MOST_WIDGETS};
ghost use Rattle.command_effects.specs.declared.answers.Fault.TheVariants.{Memory, TooManyTags};
ghost use Rattle.command_effects.specs.Lists.{with_name, with_names, listed_names, all_names};
ghost use Rattle.command_effects.specs.Tagging.{IsFront, own_slot, slots_named, piece_of, slot_taken};
ghost use Rattle.command_effects.specs.Tagging.{slots_deleted, tags_left};

use crate::answers::Fault;
use crate::lists::Pair;
use edit_ops::SlottedText;
use std::alloc::{AllocError, Global};
use tag_table::TagTable;
use text_model::{TagSet, TagSlot};

/// The slot of the tag of a name, which is made if it is new.
pub fn make_tag(alloc: Global, tags: &mut TagTable, name: &str) -> Result<TagSlot, Fault>
    ensures front { IsFront tags.old tags.new }
    ensures made { OnOk result (names_of tags.new.tags ≡ with_name (names_of tags.old.tags) (chars name.now)) }
    ensures slot { IfOk result (λ slot. slot_of (chars name.now) tags.new.tags ≡ Some slot.0) }
    ensures bound { IfOk result (λ slot. slot.0 < slot_count) }
    ensures fault { IfErr result (λ fault. fault ≢ Memory →
        (fault ≡ TooManyTags) × (tags.old.limit + 1 < length (with_name (names_of tags.old.tags) (chars name.now)))) }
{
    if let Some(slot) = tags.find(name) {
        return Ok(slot);
    }
    match tags.create(String::from_str(alloc, name)?)? {
        None => Err(Fault::TooManyTags),
        Some(slot) => Ok(slot),
    }
}

/// The slot of a tag of the table, for a widget: that of `sel` is the widget's own.
pub fn own_slot(slot: TagSlot, own: TagSlot) -> TagSlot
    requires { own.0 < MOST_WIDGETS }
    ensures value { result.0 ≡ own_slot own.0 slot.0 }
    ensures bound { slot.0 < slot_count → result.0 < slot_count }
{
    if slot.0 == 0 { own } else { slot }
}

/// The slot of the tag of a name, for a widget that is known by its own slot: `sel` is the widget's own.
pub fn find_tag(tags: &TagTable, own: TagSlot, name: &str) -> Option<TagSlot>
    requires { own.0 < MOST_WIDGETS }
    ensures value { option_map (λ slot. slot.0) result ≡ known_tags tags.now.tags own.0 (chars name.now) }
    ensures bound { IfSome result (λ slot. slot.0 < slot_count) }
{
    Some(own_slot(tags.find(name)?, own))
}

/// The slots of the tags of these names, for a widget; those that are new are made.
fn make_slots(
    alloc: Global,
    tags: &mut TagTable,
    own: TagSlot,
    names: &[String],
) -> Result<TagSet, Fault>
    requires { own.0 < MOST_WIDGETS }
    ensures front { IsFront tags.old tags.new }
    ensures made { OnOk result (names_of tags.new.tags ≡ with_names (names_of tags.old.tags) (texts_of names.now)) }
    // Tags that are made later change none of them.
    ensures slots { IfOk result (λ slots. (later : Tags) → IsFront tags.new later →
        slots ≡ slots_named later.tags own.0 (texts_of names.now)) }
    ensures fault { IfErr result (λ fault. fault ≢ Memory →
        (fault ≡ TooManyTags) × (tags.old.limit + 1
        < length (with_names (names_of tags.old.tags) (texts_of names.now)))) }
{
    let mut slots = TagSet::empty();
    for name in names {
        let slot = make_tag(alloc, tags, name.as_str())?;
        slots = slots.with(own_slot(slot, own));
    }
    Ok(slots)
}

/// A pair with the slots of its list, whose tags are made where they are new.
fn make_piece(
    alloc: Global,
    tags: &mut TagTable,
    own: TagSlot,
    pair: Pair,
) -> Result<SlottedText, Fault>
    requires { own.0 < MOST_WIDGETS }
    ensures front { IsFront tags.old tags.new }
    ensures made { OnOk result (names_of tags.new.tags
        ≡ with_names (names_of tags.old.tags) (listed_names pair.names)) }
    ensures piece { IfOk result (λ piece. (later : Tags) → IsFront tags.new later →
        piece ≡ piece_of later.tags own.0 pair) }
    ensures fault { IfErr result (λ fault. fault ≢ Memory →
        (fault ≡ TooManyTags) × (tags.old.limit + 1
        < length (with_names (names_of tags.old.tags) (listed_names pair.names)))) }
{
    let slots = match &pair.names {
        None => None,
        Some(names) => Some(make_slots(alloc, tags, own, names.as_slice())?),
    };
    Ok(SlottedText {
        text: pair.text,
        slots,
    })
}

/// The texts of pairs with the slots of their lists, whose tags are made where they are new. Where that is refused, new
/// tags may stand behind the others.
pub fn make_listed_pieces(
    alloc: Global,
    tags: &mut TagTable,
    own: TagSlot,
    pairs: Vec<Pair>,
) -> Result<Vec<SlottedText>, Fault>
    requires { own.0 < MOST_WIDGETS }
    ensures front { IsFront tags.old tags.new }
    ensures made { OnOk result (names_of tags.new.tags ≡ with_names (names_of tags.old.tags) (all_names pairs.items)) }
    ensures pieces { IfOk result (λ pieces. pieces.items ≡ map (piece_of tags.new.tags own.0) pairs.items) }
    ensures fault { IfErr result (λ fault. fault ≢ Memory →
        (fault ≡ TooManyTags) × (tags.old.limit + 1
        < length (with_names (names_of tags.old.tags) (all_names pairs.items)))) }
{
    let mut pieces = Vec::with_capacity(alloc, pairs.len())?;
    for pair in pairs {
        pieces.push(make_piece(alloc, tags, own, pair)?)?;
    }
    Ok(pieces)
}

/// The slot of the tag of a name, but not that of `sel`.
fn taken_slot(tags: &TagTable, name: &str) -> Option<TagSlot>
    ensures value { option_map (λ slot. slot.0) result ≡ slot_taken (slot_of (chars name.now) tags.now.tags) }
    ensures bound { IfSome result (λ slot. slot.0 < slot_count) }
{
    tags.find(name).filter(|slot| slot.0 != 0)
}

/// The slots of the tags of these names, but that of `sel`.
pub fn deleted_slots(
    alloc: Global,
    tags: &TagTable,
    names: &[String],
) -> Result<Vec<TagSlot>, AllocError>
    ensures value { IfOk result (λ slots. map (λ slot. slot.0) slots.items
        ≡ slots_deleted tags.now.tags (texts_of names.now)) }
    ensures bound { IfOk result (λ slots. All (λ slot. slot.0 < slot_count) slots.items) }
{
    let mut slots = Vec::with_capacity(alloc, names.len())?;
    for name in names {
        if let Some(slot) = taken_slot(tags, name.as_str()) {
            slots.push(slot)?;
        }
    }
    Ok(slots)
}

/// Takes the tags of these names out of a table, but `sel`.
pub fn delete_names(tags: &mut TagTable, names: &[String])
    ensures value { tags.new ≡ record tags.old { tags = tags_left (texts_of names.now) tags.old.tags } }
    ensures sound { AreTags tags.old → AreTags tags.new }
{
    for name in names {
        tags.delete(name.as_str());
    }
}
