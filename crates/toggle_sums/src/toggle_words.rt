//! The parity and presence of toggles in some lines, as bits by slot, of which only the words in use are visited.

ghost use Rattle.std.specs.Prelude.{◌≡◌, ◌+◌, ◌*◌, ◌^◌, ◌<◌, ◌≤◌, slice_index, bit_or, bit_xor, length};
ghost use Rattle.std.specs.Prelude.{true};
ghost use Rattle.std.specs.FinSet as set;
ghost use Rattle.text_model.specs.SlotSets.{differing};
ghost use Rattle.text_model.specs.TagBits.{EndBy};
ghost use Rattle.toggle_sums.specs.SlotWords.{last_used};
ghost use Rattle.toggle_sums.specs.ToggleSets.{AreBare, joined, no_toggles, turned, with_slot, with_slots};

use std::marker::Model;
use text_model::{SlotWord, TagSet, TagSlot, WORDS};

/// Which of 64·K slots are toggled an odd number of times in some lines of text, and which are toggled at all. It takes
/// no memory of its own.
#[derive(Clone, Copy)]
pub struct ToggleWords<const K: usize> {
    /// How many words there are up to the last one in which a bit is set.
    used: usize,
    parity: [u64; K],
    presence: [u64; K],
}

impl<const K: usize> Model for ToggleWords<K> {
    ghost use Rattle.toggle_sums.specs.ToggleSets.{ToggleSets, sets_code};
    ghost use Rattle.toggle_sums.specs.SlotWords.{AreUsed, last_used, slots_of, words_of};
    ghost use Rattle.toggle_sums.specs.SlotWordLaws.{used_of-slots_of, words_of-slots_of};

    ghost Value = { ToggleSets };

    ghost coded = { sets_code };

    ghost view = { λ a. record { parity = slots_of K a.parity; presence = slots_of K a.presence } };

    ghost invariant = { λ a. AreUsed K a.used a.parity a.presence };

    ghost inverse = { λ s. record {
      used = last_used K (words_of K s.parity) (words_of K s.presence);
      parity = words_of K s.parity;
      presence = words_of K s.presence;
    } };

    ghost inverse_ok = { λ a are i. record {
      used = used_of-slots_of K a.used a.parity a.presence are i;
      parity = words_of-slots_of K a.parity are.parity i;
      presence = words_of-slots_of K a.presence are.presence i;
    } };
}

/// How many words there are up to the last one in which a bit of either list is set, where none is from `most` on.
fn used_words<const K: usize>(parity: &[u64; K], presence: &[u64; K], most: usize) -> usize
    requires most { most ≤ K }
    requires parity { EndBy most parity.now }
    requires presence { EndBy most presence.now }
    ensures { result ≡ last_used K parity.now presence.now }
{
    let mut used = most;
    while used > 0 && parity[used - 1] == 0 && presence[used - 1] == 0 {
        used -= 1;
    }
    used
}

/// Turns the bits that are set in other words, where none is set from word `used` on.
fn turn_words<const K: usize>(words: &mut [u64; K], others: &[u64; K], used: usize)
    requires used { used ≤ K }
    requires rest { EndBy used others.now }
    ensures long { length words.new ≡ K }
    ensures words { (k : _) → k < K → slice_index words.new k
        ≡ bit_xor (slice_index words.old k) (slice_index others.now k) }
{
    for index in 0..used {
        words[index] ^= others[index];
    }
}

/// Sets the bits that are set in other words, where none is set from word `used` on.
fn join_words<const K: usize>(words: &mut [u64; K], others: &[u64; K], used: usize)
    requires used { used ≤ K }
    requires rest { EndBy used others.now }
    ensures long { length words.new ≡ K }
    ensures words { (k : _) → k < K → slice_index words.new k
        ≡ bit_or (slice_index words.old k) (slice_index others.now k) }
{
    for index in 0..used {
        words[index] |= others[index];
    }
}

impl<const K: usize> ToggleWords<K> {
    /// No slot is toggled.
    pub fn none() -> ToggleWords<K>
        ensures { result ≡ no_toggles }
    {
        ToggleWords {
            used: 0,
            parity: [0; K],
            presence: [0; K],
        }
    }

    /// Whether a slot is toggled an odd number of times.
    pub fn parity(&self, slot: TagSlot) -> bool
        requires { slot.0 < 64 * K }
        ensures { result ≡ set.contains self.now.parity slot.0 }
    {
        self.parity[slot.0 as usize / 64] >> (slot.0 % 64) & 1 == 1
    }

    /// Whether a slot is toggled at all.
    pub fn has(&self, slot: TagSlot) -> bool
        requires { slot.0 < 64 * K }
        ensures { result ≡ set.contains self.now.presence slot.0 }
    {
        self.presence[slot.0 as usize / 64] >> (slot.0 % 64) & 1 == 1
    }

    /// Whether no slot is toggled.
    pub fn is_bare(&self) -> bool
        ensures yes { result ≡ true → AreBare self.now }
        ensures no { AreBare self.now → result ≡ true }
    {
        self.used == 0
    }

    /// Whether each slot that is toggled here is toggled in the others too.
    pub fn is_within(&self, others: &ToggleWords<K>) -> bool
        ensures yes { result ≡ true → set.union others.now.presence self.now.presence ≡ others.now.presence }
        ensures no { set.union others.now.presence self.now.presence ≡ others.now.presence → result ≡ true }
    {
        let mut both = others.presence;
        join_words(&mut both, &self.presence, self.used);
        both == others.presence
    }

    /// Whether the slots that are toggled an odd number of times, and those that are toggled at all, are the same.
    pub fn is_level(&self, others: &ToggleWords<K>) -> bool
        ensures yes { result ≡ true → self.now ≡ others.now }
        ensures no { self.now ≡ others.now → result ≡ true }
    {
        let used = self.used;
        if used != others.used {
            return false;
        }
        self.parity[..used] == others.parity[..used]
            && self.presence[..used] == others.presence[..used]
    }

    /// Counts the toggles of others too.
    pub fn add(&mut self, more: &ToggleWords<K>)
        ensures { self.new ≡ joined self.old more.now }
    {
        if more.used == 0 {
            return;
        }
        turn_words(&mut self.parity, &more.parity, more.used);
        join_words(&mut self.presence, &more.presence, more.used);
        self.used = used_words(&self.parity, &self.presence, self.used.max(more.used));
    }

    /// Counts the toggles of others less, where each slot that is toggled in them is toggled in what stays too.
    pub fn lose(&mut self, gone: &ToggleWords<K>)
        ensures { self.new ≡ turned self.old gone.now }
    {
        if gone.used == 0 {
            return;
        }
        turn_words(&mut self.parity, &gone.parity, gone.used);
        self.used = used_words(&self.parity, &self.presence, self.used.max(gone.used));
    }

    /// Counts one toggle of a slot more.
    pub fn toggle(&mut self, slot: TagSlot)
        requires { slot.0 < 64 * K }
        ensures { self.new ≡ with_slot self.old slot.0 }
    {
        let word = slot.0 as usize / 64;
        let bit = 1 << (slot.0 % 64);
        self.parity[word] ^= bit;
        self.presence[word] |= bit;
        self.used = used_words(&self.parity, &self.presence, self.used.max(word + 1));
    }
}

impl ToggleWords<WORDS> {
    /// The slots that are toggled an odd number of times.
    pub fn odd_slots(&self) -> TagSet
        ensures { result ≡ self.now.parity }
    {
        TagSet::of_words(self.parity)
    }

    /// Turns in a set the slots that are toggled an odd number of times.
    pub fn turn_odd_slots(&self, slots: &mut TagSet)
        ensures { slots.new ≡ differing slots.old self.now.parity }
    {
        slots.flip_words(&self.parity, self.used);
    }

    /// Counts one toggle more of each slot of a word.
    pub fn add_word(&mut self, slots: &SlotWord)
        ensures { self.new ≡ with_slots self.old slots.now }
    {
        let index = slots.index();
        let bits = slots.bits();
        if bits == 0 {
            return;
        }
        self.parity[index] ^= bits;
        self.presence[index] |= bits;
        // A word with a bit is used, and no bit goes out where slots are present: nothing is looked for.
        self.used = self.used.max(index + 1);
    }
}
