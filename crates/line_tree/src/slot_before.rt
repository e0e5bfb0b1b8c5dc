//! What a search adds up of one slot on its way to a line. A struct with a ghost field has a file of its own.

ghost use Rattle.std.specs.Prelude.{◌<◌};
ghost use Rattle.std.proofs.Props.{props};
ghost use Rattle.text_model.specs.TagBits.{slot_count};

use text_model::TagSlot;

/// A slot, and whether it is toggled an odd number of times before a place.
#[derive(Clone, Copy)]
pub struct SlotBefore {
    pub slot: TagSlot,
    pub is_odd: bool,
    ghost known: { slot.0 < slot_count } by { Prim.hlevel props },
}
