//! The toggles of a line as a list sorted by column and by word of slots, and how edits change them.

ghost use Rattle.std.specs.Prelude.{◌≡◌, ℕ, ◌+◌, ◌<◌, ◌≤◌, ◌==◌, true, false, length, map, take, drop, vec_len};
ghost use Rattle.std.specs.Prelude.{Option, Some, None, OnOk, OnErr, ◌-◌, ◌*◌, ◌++◌};
ghost use Rattle.std.specs.Prelude.{slice_range, vec_capacity};
ghost use Rattle.std.specs.List.{All, insert};
ghost use Rattle.std.specs.FinSet as set;
ghost use Rattle.text_model.specs.OneWord.{AreSlots, IsOneWord, word_count};
ghost use Rattle.text_model.specs.SlotSets.{differing};
ghost use Rattle.text_model.specs.Splices.{removed};
ghost use Rattle.text_model.specs.TagBits.{slot_count};
ghost use Rattle.segments.specs.Entries.{CanMoveBack, CanMoveOn, HasOneWord, LieIn, RiseIn, flipped, moved_back};
ghost use Rattle.segments.specs.Entries.{moved_on, next_entry, odd_of, place_of, previous_entry, slots_cleared};
ghost use Rattle.segments.specs.Entries.{flipped_if, toggled_at, without_span};

use std::alloc::AllocError;
use text_model::{SlotWord, TagSet, TagSlot, WORDS};

/// Slots of one word that are toggled at a column. Mostly one slot is, so an entry has room for one word, however many
/// a set has.
#[derive(Clone, Copy)]
pub struct Toggled {
    pub column: usize,
    pub slots: SlotWord,
}

/// How many of the toggles stand before a column.
pub fn count_before(toggles: &[Toggled], column: usize) -> usize
    ensures bound { result ≤ length toggles.now }
    ensures before { (from to : ℕ) → LieIn from to toggles.now → LieIn from column (take result toggles.now) }
    ensures behind { (from to : ℕ) → LieIn from to toggles.now → from ≤ column →
        LieIn column to (drop result toggles.now) }
{
    count_before_word(toggles, column, 0)
}

/// Returns whether a slot is toggled at a column from one to another.
fn is_toggled(toggles: &[Toggled], from: usize, to: usize) -> bool
    ensures { result ≡ false → (low high at : ℕ) → LieIn low high toggles.now → from ≤ at → at < to →
        toggled_at toggles.now at ≡ set.empty }
{
    count_before(toggles, from) < count_before(toggles, to)
}

/// Turns in a set the slots that are toggled an odd number of times.
pub fn turn_odd(toggles: &[Toggled], slots: &mut TagSet)
    ensures { slots.new ≡ differing slots.old (odd_of toggles.now) }
{
    for entry in toggles {
        slots.flip_word(&entry.slots);
    }
}

/// The slots that are toggled an odd number of times.
pub fn odd_slots(toggles: &[Toggled]) -> TagSet
    ensures { result ≡ odd_of toggles.now }
{
    let mut slots = TagSet::empty();
    turn_odd(toggles, &mut slots);
    slots
}

/// Returns whether a slot is toggled an odd number of times.
pub fn is_odd(toggles: &[Toggled], slot: TagSlot) -> bool
    ensures { result ≡ set.contains (odd_of toggles.now) slot.0 }
{
    let mut is_odd = false;
    for entry in toggles {
        is_odd = is_odd != entry.slots.has(slot);
    }
    is_odd
}

/// Moves toggles on by a number of columns.
pub fn move_on(toggles: &mut [Toggled], count: usize)
    requires { All (CanMoveOn count) toggles.old }
    ensures { toggles.new ≡ map (moved_on count) toggles.old }
{
    for entry in toggles.iter_mut() {
        entry.column += count;
    }
}

/// Moves toggles back by a number of columns.
pub fn move_back(toggles: &mut [Toggled], count: usize)
    requires { All (CanMoveBack count) toggles.old }
    ensures { toggles.new ≡ map (moved_back count) toggles.old }
{
    for entry in toggles.iter_mut() {
        entry.column -= count;
    }
}

/// Moves the toggles from an index on by a number of columns.
pub fn move_rest_on(toggles: &mut Vec<Toggled>, start: usize, count: usize)
    requires within { start ≤ vec_len toggles.old }
    requires room { All (CanMoveOn count) (drop start toggles.old.items) }
    ensures { toggles.new.items ≡
        take start toggles.old.items ++ map (moved_on count) (drop start toggles.old.items) }
{
    move_on(&mut toggles[start..], count);
}

/// Moves the toggles from an index on back by a number of columns.
pub fn move_rest_back(toggles: &mut Vec<Toggled>, start: usize, count: usize)
    requires within { start ≤ vec_len toggles.old }
    requires room { All (CanMoveBack count) (drop start toggles.old.items) }
    ensures items { toggles.new.items ≡
        take start toggles.old.items ++ map (moved_back count) (drop start toggles.old.items) }
    ensures len { vec_len toggles.new ≡ vec_len toggles.old }
    ensures capacity { vec_capacity toggles.new ≡ vec_capacity toggles.old }
{
    move_back(&mut toggles[start..], count);
}

/// Takes the toggles from one index to another out.
fn drop_range(toggles: &mut Vec<Toggled>, from: usize, to: usize)
    requires ordered { from ≤ to }
    requires within { to ≤ vec_len toggles.old }
    ensures items { toggles.new.items ≡ removed from to toggles.old.items }
    ensures room { vec_len toggles.new + (to - from) ≤ vec_capacity toggles.new }
{
    if from == to {
        return;
    }
    let end = toggles.len();
    toggles.copy_within(to.., from);
    toggles.truncate(end - (to - from));
}

/// Whether an entry stands before one of a word of slots at a column.
fn is_before(entry: &Toggled, column: usize, word: usize) -> bool
    requires { word < WORDS }
    ensures yes { result ≡ true → place_of entry.now < WORDS * column + word }
    ensures no { result ≡ false → WORDS * column + word ≤ place_of entry.now }
{
    let index = entry.slots.index();
    if entry.column == column {
        return index < word;
    }
    entry.column < column
}

/// How many of the toggles stand before those of a word of slots at a column.
fn count_before_word(toggles: &[Toggled], column: usize, word: usize) -> usize
    requires { word < WORDS }
    ensures bound { result ≤ length toggles.now }
    ensures before { (from to : ℕ) → RiseIn from to toggles.now →
        RiseIn from (WORDS * column + word) (take result toggles.now) }
    ensures behind { (from to : ℕ) → RiseIn from to toggles.now → from ≤ WORDS * column + word →
        RiseIn (WORDS * column + word) to (drop result toggles.now) }
{
    toggles.partition_point(|entry| is_before(entry, column, word))
}

/// Puts an entry in at an index, where there is room for one.
fn put_entry(toggles: &mut Vec<Toggled>, index: usize, entry: Toggled)
    requires within { index ≤ vec_len toggles.old }
    requires room { vec_len toggles.old < vec_capacity toggles.old }
    ensures items { toggles.new.items ≡ insert toggles.old.items index entry }
    ensures len { vec_len toggles.new ≡ vec_len toggles.old + 1 }
    ensures capacity { vec_capacity toggles.new ≡ vec_capacity toggles.old }
{
    let _ = toggles.insert(index, entry);
}

/// Toggles slots of one word at a column, where there is room for one entry more.
#[inline]
fn flip_word(toggles: &mut Vec<Toggled>, column: usize, slots: &SlotWord)
    requires room { vec_len toggles.old < vec_capacity toggles.old }
    ensures lie { (from to : ℕ) → LieIn from to toggles.old.items → from ≤ column → column < to →
        LieIn from to toggles.new.items }
    ensures slots { (at : ℕ) →
        toggled_at toggles.new.items at ≡ flipped column slots.now at (toggled_at toggles.old.items at) }
    ensures len { vec_len toggles.new ≤ vec_len toggles.old + 1 }
    ensures capacity { vec_capacity toggles.new ≡ vec_capacity toggles.old }
{
    let word = slots.index();
    let index = count_before_word(toggles, column, word);
    if index < toggles.len()
        && toggles[index].column == column
        && toggles[index].slots.index() == word
    {
        let left = toggles[index].slots.differing(slots);
        if left.is_empty() {
            toggles.remove(index);
        } else {
            toggles[index].slots = left;
        }
        return;
    }
    put_entry(
        toggles,
        index,
        Toggled {
            column,
            slots: *slots,
        },
    );
}

/// Reserves room for an entry at each end of a range, if it is needed.
pub fn reserve_ends(toggles: &mut Vec<Toggled>, is_needed: bool) -> Result<(), AllocError>
    ensures same { toggles.new.items ≡ toggles.old.items }
    ensures room { OnOk result (is_needed ≡ true → vec_len toggles.new + 2 ≤ vec_capacity toggles.new) }
{
    if is_needed {
        toggles.reserve(2)?;
    }
    Ok(())
}

/// Toggles a slot at a column, if it is to be, where there is room for one entry more.
pub fn flip_if(toggles: &mut Vec<Toggled>, column: usize, slot: TagSlot, is_flipped: bool)
    requires slot { slot.0 < slot_count }
    requires room { is_flipped ≡ true → vec_len toggles.old < vec_capacity toggles.old }
    ensures lie { (from to : ℕ) → LieIn from to toggles.old.items → from ≤ column → column < to →
        LieIn from to toggles.new.items }
    ensures slots { (at : ℕ) → toggled_at toggles.new.items at
        ≡ flipped_if is_flipped column (set.insert set.empty slot.0) at (toggled_at toggles.old.items at) }
    ensures len { vec_len toggles.new ≤ vec_len toggles.old + 1 }
    ensures capacity { vec_capacity toggles.new ≡ vec_capacity toggles.old }
{
    if is_flipped {
        flip_word(toggles, column, &SlotWord::of(slot));
    }
}

/// Toggles each slot of a set at a column, where there is room for an entry for each of its words.
fn flip_words(toggles: &mut Vec<Toggled>, column: usize, slots: &TagSet)
    requires slots { AreSlots slots.now }
    requires room { vec_len toggles.old + word_count slots.now ≤ vec_capacity toggles.old }
    ensures lie { (from to : ℕ) → LieIn from to toggles.old.items → from ≤ column → column < to →
        LieIn from to toggles.new.items }
    ensures slots { (at : ℕ) →
        toggled_at toggles.new.items at ≡ flipped column slots.now at (toggled_at toggles.old.items at) }
{
    for index in 0..WORDS {
        let word = slots.word(index);
        if !word.is_empty() {
            flip_word(toggles, column, &word);
        }
    }
}

/// Toggles a set of slots at a column.
pub fn flip(toggles: &mut Vec<Toggled>, column: usize, slots: &TagSet) -> Result<(), AllocError>
    ensures lie { (from to : ℕ) → LieIn from to toggles.old.items → from ≤ column → column < to →
        LieIn from to toggles.new.items }
    ensures slots { OnOk result ((at : ℕ) →
        toggled_at toggles.new.items at ≡ flipped column slots.now at (toggled_at toggles.old.items at)) }
    ensures refused { OnErr result (toggles.new.items ≡ toggles.old.items) }
{
    toggles.reserve(slots.word_count())?;
    flip_words(toggles, column, slots);
    Ok(())
}

/// Toggles a slot at a column.
pub fn flip_slot(toggles: &mut Vec<Toggled>, column: usize, slot: TagSlot) -> Result<(), AllocError>
    requires { slot.0 < slot_count }
    ensures lie { (from to : ℕ) → LieIn from to toggles.old.items → from ≤ column → column < to →
        LieIn from to toggles.new.items }
    ensures slots { OnOk result ((at : ℕ) → toggled_at toggles.new.items at
        ≡ flipped column (set.insert set.empty slot.0) at (toggled_at toggles.old.items at)) }
    ensures refused { OnErr result (toggles.new.items ≡ toggles.old.items) }
{
    toggles.reserve(1)?;
    flip_word(toggles, column, &SlotWord::of(slot));
    Ok(())
}

/// Takes the toggles from one index to another out, and says which slots are toggled an odd number of times in these.
/// Then there is room for an entry for each of their words.
fn take_range(toggles: &mut Vec<Toggled>, from: usize, to: usize) -> TagSet
    requires ordered { from ≤ to }
    requires within { to ≤ vec_len toggles.old }
    requires words { All HasOneWord toggles.old.items }
    ensures items { toggles.new.items ≡ removed from to toggles.old.items }
    ensures odd { result ≡ odd_of (slice_range toggles.old.items from to) }
    ensures slots { AreSlots result }
    ensures room { vec_len toggles.new + word_count result ≤ vec_capacity toggles.new }
{
    let slots = odd_slots(&toggles[from..to]);
    drop_range(toggles, from, to);
    slots
}

/// Takes out the toggles of the columns from one to another, of a line with so many columns, and draws the others to
/// the first. What was toggled an odd number of times in these is toggled at the first column then, if there is one.
pub fn remove_columns(toggles: &mut Vec<Toggled>, from: usize, to: usize, len: usize)
    requires lie { LieIn 0 len toggles.old.items }
    requires ordered { from ≤ to }
    requires within { to ≤ len }
    ensures lie { LieIn 0 (from + (len - to)) toggles.new.items }
    ensures front { (at : ℕ) → at < from → toggled_at toggles.new.items at ≡ toggled_at toggles.old.items at }
    ensures behind { (at : ℕ) → from ≤ at → at < from + (len - to) →
        toggled_at toggles.new.items at ≡ without_span from to (at + (to - from)) toggles.old.items }
{
    let start = count_before(toggles, from);
    if to == len {
        toggles.truncate(start);
        return;
    }
    let end = count_before(toggles, to + 1);
    let slots = take_range(toggles, start, end);
    move_rest_back(toggles, start, to - from);
    flip_words(toggles, from, &slots);
}

/// Takes a slot from the toggles of a column, if that lies from one to another. Says whether a slot is left.
fn clear_entry(entry: &mut Toggled, slot: TagSlot, from: usize, to: usize) -> bool
    requires { slot.0 < slot_count }
    ensures column { entry.new.column ≡ entry.old.column }
    ensures slots { entry.new.slots ≡ slots_cleared slot.0 from to entry.old.column entry.old.slots }
    ensures word { IsOneWord entry.old.slots → IsOneWord entry.new.slots }
    ensures some { result ≡ false → entry.new.slots ≡ set.empty }
    ensures none { entry.new.slots ≡ set.empty → result ≡ false }
{
    if from <= entry.column && entry.column < to {
        entry.slots = entry.slots.without(slot);
    }
    !entry.slots.is_empty()
}

/// Takes the toggles of a slot at the columns from one to another away.
pub fn clear(toggles: &mut Vec<Toggled>, slot: TagSlot, from: usize, to: usize)
    requires { slot.0 < slot_count }
    ensures lie { (low high : ℕ) → LieIn low high toggles.old.items → LieIn low high toggles.new.items }
    ensures slots { (low high at : ℕ) → LieIn low high toggles.old.items →
        toggled_at toggles.new.items at ≡ slots_cleared slot.0 from to at (toggled_at toggles.old.items at) }
    ensures len { vec_len toggles.new ≤ vec_len toggles.old }
    ensures capacity { vec_capacity toggles.new ≡ vec_capacity toggles.old }
{
    if is_toggled(toggles, from, to) {
        toggles.retain_mut(|entry| clear_entry(entry, slot, from, to));
    }
}

/// Whether a slot is toggled at a column.
pub fn has_toggle(toggles: &[Toggled], column: usize, slot: TagSlot) -> bool
    requires { slot.0 < slot_count }
    ensures { (from to : ℕ) → LieIn from to toggles.now →
        result ≡ set.contains (toggled_at toggles.now column) slot.0 }
{
    let index = count_before_word(toggles, column, slot.0 as usize / 64);
    if index < toggles.len() && toggles[index].column == column {
        return toggles[index].slots.has(slot);
    }
    false
}

/// The first column from one on before which a slot is toggled.
pub fn next_toggle(toggles: &[Toggled], column: usize, slot: TagSlot) -> Option<usize>
    requires { slot.0 < slot_count }
    ensures { result ≡ next_entry slot.0 column toggles.now }
{
    for entry in toggles {
        if column <= entry.column && entry.slots.has(slot) {
            return Some(entry.column);
        }
    }
    None
}

/// The last column below one before which a slot is toggled.
pub fn previous_toggle(toggles: &[Toggled], column: usize, slot: TagSlot) -> Option<usize>
    requires { slot.0 < slot_count }
    ensures { (from to : ℕ) → LieIn from to toggles.now → result ≡ previous_entry slot.0 column toggles.now }
{
    let mut index = count_before(toggles, column);
    while index > 0 {
        index -= 1;
        if toggles[index].slots.has(slot) {
            return Some(toggles[index].column);
        }
    }
    None
}
