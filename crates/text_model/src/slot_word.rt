//! Some tag slots of one 64-bit word of a set, as bits.

ghost use Rattle.std.specs.Prelude.{◌≡◌, ◌<◌, true};
ghost use Rattle.std.specs.FinSet as set;
ghost use Rattle.text_model.specs.OneWord.{IsOneWord, slots_in, word_index};
ghost use Rattle.text_model.specs.SlotSets.{differing};
ghost use Rattle.text_model.specs.TagBits.{slot_count};

use crate::places::TagSlot;
use crate::tag_set::WORDS;
use std::marker::Model;

/// Some slots of one word of a set: slot k is bit k % 64 of word k / 64. It takes no memory of its own.
#[derive(Clone, Copy)]
pub struct SlotWord {
    index: u16,
    bits: u64,
}

impl Model for SlotWord {
    ghost use Rattle.std.specs.Ordering.{nat_cmp};
    ghost use Rattle.std.specs.FinSet as set;
    ghost use Rattle.std.specs.Coded.{coded_ℕ};
    ghost use Rattle.text_model.specs.OneWord.{AreBits, slots_in, word_bits, word_index};
    ghost use Rattle.text_model.specs.OneWordLaws.{word_bits-slots_in, word_index-slots_in};

    ghost Value = { set.FinSet nat_cmp };

    ghost coded = { set.code coded_ℕ };

    ghost view = { λ a. slots_in a.index a.bits };

    ghost invariant = { λ a. AreBits a.index a.bits };

    ghost inverse = { λ s. record { index = word_index s; bits = word_bits (word_index s) s } };

    ghost inverse_ok = { λ a are i. record {
      index = word_index-slots_in a.index a.bits are i;
      bits = word_bits-slots_in a.index a.bits are i;
    } };
}

impl SlotWord {
    /// The slots of a word whose bits are set.
    pub fn of_bits(index: usize, bits: u64) -> SlotWord
        requires { index < WORDS }
        ensures slots { result ≡ slots_in index bits }
        ensures word { IsOneWord result }
    {
        // Where no bit is set the word is the first one.
        SlotWord {
            index: if bits == 0 { 0 } else { index as u16 },
            bits,
        }
    }

    /// One slot.
    pub fn of(slot: TagSlot) -> SlotWord
        requires { slot.0 < slot_count }
        ensures slots { result ≡ set.insert set.empty slot.0 }
        ensures word { IsOneWord result }
    {
        SlotWord::of_bits(slot.0 as usize / 64, 1 << (slot.0 % 64))
    }

    /// In which word the slots are, the first one if there is none.
    pub fn index(&self) -> usize
        ensures index { result ≡ word_index self.now }
        ensures word { IsOneWord self.now }
    {
        self.index as usize
    }

    /// The bits of the slots in their word.
    pub fn bits(&self) -> u64
        ensures { slots_in (word_index self.now) result ≡ self.now }
    {
        self.bits
    }

    /// Whether the slot is one of these.
    pub fn has(&self, slot: TagSlot) -> bool
        ensures { result ≡ set.contains self.now slot.0 }
    {
        slot.0 / 64 == self.index && self.bits >> (slot.0 % 64) & 1 == 1
    }

    /// Whether there is no slot.
    pub fn is_empty(&self) -> bool
        ensures none { result ≡ true → self.now ≡ set.empty }
        ensures some { self.now ≡ set.empty → result ≡ true }
    {
        self.bits == 0
    }

    /// These slots without one.
    pub fn without(self, slot: TagSlot) -> SlotWord
        ensures slots { result ≡ set.remove self slot.0 }
        ensures word { IsOneWord result }
    {
        if slot.0 / 64 != self.index {
            return self;
        }
        SlotWord::of_bits(self.index as usize, self.bits & !(1 << (slot.0 % 64)))
    }

    /// The slots that stand in one of two sets of the same word and not in the other.
    pub fn differing(&self, other: &SlotWord) -> SlotWord
        requires { word_index self.now ≡ word_index other.now }
        ensures slots { result ≡ differing self.now other.now }
        ensures word { IsOneWord result }
    {
        SlotWord::of_bits(self.index as usize, self.bits ^ other.bits)
    }
}
