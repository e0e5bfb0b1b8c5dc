//! Sets of tag slots, as bits in a fixed number of 64-bit words.

ghost use Rattle.std.specs.Prelude.{◌≡◌, ◌<◌, ◌≤◌, bit_xor, slice_index, true};
ghost use Rattle.std.specs.FinSet as set;
ghost use Rattle.text_model.specs.OneWord.{AreSlots, IsOneWord, in_word, word_count};
ghost use Rattle.text_model.specs.SlotSets.{differing};
ghost use Rattle.text_model.specs.TagBits.{EndBy, slot_count, slots_of};

use crate::places::TagSlot;
use crate::slot_word::SlotWord;
use std::marker::Model;

/// How many words of 64 slots a set has.
pub const WORDS: usize = 16;

/// A set of tag slots. It takes no memory of its own.
#[derive(Clone, Copy)]
pub struct TagSet {
    words: [u64; WORDS],
}

impl Model for TagSet {
    ghost use Rattle.std.specs.Ordering.{nat_cmp};
    ghost use Rattle.std.specs.FinSet as set;
    ghost use Rattle.std.specs.Coded.{coded_ℕ};
    ghost use Rattle.text_model.specs.TagBits.{AreWords, slots_of, words_of};
    ghost use Rattle.text_model.specs.TagBitLaws.{words_of-slots_of};
    ghost use Rattle.std.proofs.Common.{ap};

    ghost Value = { set.FinSet nat_cmp };

    ghost coded = { set.code coded_ℕ };

    ghost view = { λ a. slots_of a.words };

    ghost invariant = { λ a. AreWords a.words };

    ghost inverse = { λ s. record { words = words_of s } };

    ghost inverse_ok = { λ a are. ap (λ words. record { words = words }) (words_of-slots_of a.words are) };
}

/// Turns the bits that are set in other words, where none is set from word `used` on.
fn turn(words: &mut [u64; WORDS], others: &[u64; WORDS], used: usize)
    requires used { used ≤ WORDS }
    requires rest { EndBy used others.now }
    ensures { (k : _) → k < WORDS → slice_index words.new k
        ≡ bit_xor (slice_index words.old k) (slice_index others.now k) }
{
    for index in 0..used {
        words[index] ^= others[index];
    }
}

impl TagSet {
    /// How many slots there are: those below this number.
    pub const SLOTS: u16 = 64 * WORDS as u16;

    /// The set without slots.
    pub fn empty() -> TagSet
        ensures { result ≡ set.empty }
    {
        TagSet { words: [0; WORDS] }
    }

    /// The set of the slots whose bits are set: slot k is bit k % 64 of word k / 64.
    pub fn of_words(words: [u64; WORDS]) -> TagSet
        ensures { result ≡ slots_of words }
    {
        TagSet { words }
    }

    /// The words whose bits are the slots of the set.
    pub fn words(&self) -> [u64; WORDS]
        ensures { slots_of result ≡ self.now }
    {
        self.words
    }

    /// This set with one slot more.
    pub fn with(self, slot: TagSlot) -> TagSet
        requires { slot.0 < slot_count }
        ensures { result ≡ set.insert self slot.0 }
    {
        let mut words = self.words;
        words[slot.0 as usize / 64] |= 1 << (slot.0 % 64);
        TagSet { words }
    }

    /// This set without a slot.
    pub fn without(self, slot: TagSlot) -> TagSet
        requires { slot.0 < slot_count }
        ensures { result ≡ set.remove self slot.0 }
    {
        let mut words = self.words;
        words[slot.0 as usize / 64] &= !(1 << (slot.0 % 64));
        TagSet { words }
    }

    /// Whether the slot is in the set.
    pub fn has(&self, slot: TagSlot) -> bool
        requires { slot.0 < slot_count }
        ensures { result ≡ set.contains self.now slot.0 }
    {
        self.words[slot.0 as usize / 64] >> (slot.0 % 64) & 1 == 1
    }

    /// The slots that stand in both sets.
    pub fn common(&self, other: &TagSet) -> TagSet
        ensures { result ≡ set.intersection self.now other.now }
    {
        let mut words = self.words;
        let others = other.words;
        for index in 0..WORDS {
            words[index] &= others[index];
        }
        TagSet { words }
    }

    /// The slots that stand in one of the two sets and not in the other.
    pub fn differing(&self, other: &TagSet) -> TagSet
        ensures { result ≡ differing self.now other.now }
    {
        let mut words = self.words;
        turn(&mut words, &other.words, WORDS);
        TagSet { words }
    }

    /// Turns each slot of another set: one that was in this set goes out, one that wasn't comes in.
    pub fn flip(&mut self, other: &TagSet)
        ensures { self.new ≡ differing self.old other.now }
    {
        turn(&mut self.words, &other.words, WORDS);
    }

    /// The same by words whose bits are the slots, where none is set from word `used` on.
    pub fn flip_words(&mut self, words: &[u64; WORDS], used: usize)
        requires used { used ≤ WORDS }
        requires rest { EndBy used words.now }
        ensures { self.new ≡ differing self.old (slots_of words.now) }
    {
        turn(&mut self.words, words, used);
    }

    /// The slots of the set that are in one word.
    pub fn word(&self, index: usize) -> SlotWord
        requires { index < WORDS }
        ensures slots { result ≡ in_word index self.now }
        ensures word { IsOneWord result }
    {
        SlotWord::of_bits(index, self.words[index])
    }

    /// In how many words the set has slots.
    pub fn word_count(&self) -> usize
        ensures count { result ≡ word_count self.now }
        ensures slots { AreSlots self.now }
    {
        let mut count = 0;
        for index in 0..WORDS {
            if self.words[index] != 0 {
                count += 1;
            }
        }
        count
    }

    /// Turns slots of one word.
    pub fn flip_word(&mut self, word: &SlotWord)
        ensures { self.new ≡ differing self.old word.now }
    {
        self.words[word.index()] ^= word.bits();
    }

    /// Whether no slot is in the set.
    pub fn is_empty(&self) -> bool
        ensures none { result ≡ true → self.now ≡ set.empty }
        ensures some { self.now ≡ set.empty → result ≡ true }
    {
        self.words == [0; WORDS]
    }
}
