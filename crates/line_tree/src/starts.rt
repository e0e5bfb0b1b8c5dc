//! Finds a line by its number, the characters before it, and the slots toggled an odd number of times there.

ghost use Rattle.std.specs.Prelude.{◌≡◌, ◌<◌, ◌≤◌, length, take};
ghost use Rattle.std.specs.FinSet as set;
ghost use Rattle.raw_nodes.specs.Names.{records};
ghost use Rattle.line_tree.specs.Changes.{FitsSum};
ghost use Rattle.line_tree.specs.Locating.{characters_at};
ghost use Rattle.line_tree.specs.Places.{IsLineAt};
ghost use Rattle.line_tree.specs.Shape.{IsTree, lines_at, lines_in};
ghost use Rattle.line_tree.specs.Trees.{total};
ghost use Rattle.text_model.specs.TagBits.{slot_count};

use crate::aims::{CharactersBefore, SlotsBefore};
use crate::search::{Sought, descend};
use crate::slot_before::SlotBefore;
use raw_nodes::{NodePtr, NodeStore, Ticks};
use text_model::{TagSet, TagSlot};

/// A line, and how many characters the lines before it have.
#[derive(Clone, Copy)]
pub struct Placed {
    pub name: NodePtr,
    pub start: usize,
}

/// Line `k`, where the root has so many lines and characters.
pub fn place<C: Ticks>(
    store: &NodeStore<C>,
    root: NodePtr,
    height: usize,
    size: (usize, usize),
    k: usize,
    ticks: &mut C,
) -> Placed
    requires tree { IsTree (records store.now) height root }
    requires size { size ≡ (lines_at (records store.now) root, characters_at (records store.now) root) }
    requires within { k < length (lines_in (records store.now) height root) }
    requires fits { FitsSum (total (lines_in (records store.now) height root)) }
    ensures name { IsLineAt (lines_in (records store.now) height root) k result.name }
    ensures start { result.start ≡ (total (take k (lines_in (records store.now) height root))).characters }
{
    let mut before = CharactersBefore { characters: 0 };
    let sought = Sought {
        node: root,
        size: Some(size),
        k,
    };
    let arrived = descend(store, height, sought, &mut before, ticks);
    Placed {
        name: arrived.name,
        start: before.characters,
    }
}

/// How many characters the first `k` lines have.
pub fn start<C: Ticks>(
    store: &NodeStore<C>,
    root: NodePtr,
    height: usize,
    k: usize,
    ticks: &mut C,
) -> usize
    requires tree { IsTree (records store.now) height root }
    requires within { k ≤ length (lines_in (records store.now) height root) }
    requires fits { FitsSum (total (lines_in (records store.now) height root)) }
    ensures { result ≡ (total (take k (lines_in (records store.now) height root))).characters }
{
    if k == 0 {
        return 0;
    }
    let (lines, all) = store.size(root, ticks);
    if k == lines {
        return all;
    }
    place(store, root, height, (lines, all), k, ticks).start
}

/// The slots that are toggled an odd number of times in the first `k` lines.
pub fn odd_slots<C: Ticks>(
    store: &NodeStore<C>,
    root: NodePtr,
    height: usize,
    k: usize,
    ticks: &mut C,
) -> TagSet
    requires tree { IsTree (records store.now) height root }
    requires within { k ≤ length (lines_in (records store.now) height root) }
    ensures { result ≡ (total (take k (lines_in (records store.now) height root))).parity }
{
    let mut before = SlotsBefore {
        slots: TagSet::empty(),
    };
    if k == 0 {
        return before.slots;
    }
    if store.is_bare(root, ticks) {
        return before.slots;
    }
    let lines = store.lines(root, ticks);
    if k == lines {
        store.turn_odd_slots(root, &mut before.slots, ticks);
        return before.slots;
    }
    let sought = Sought {
        node: root,
        size: Some(lines),
        k,
    };
    descend(store, height, sought, &mut before, ticks);
    before.slots
}

/// Returns whether a slot is toggled an odd number of times in the first `k` lines.
pub fn is_odd<C: Ticks>(
    store: &NodeStore<C>,
    root: NodePtr,
    height: usize,
    slot: TagSlot,
    k: usize,
    ticks: &mut C,
) -> bool
    requires tree { IsTree (records store.now) height root }
    requires slot { slot.0 < slot_count }
    requires within { k ≤ length (lines_in (records store.now) height root) }
    ensures { result ≡ set.contains (total (take k (lines_in (records store.now) height root))).parity slot.0 }
{
    if k == 0 {
        return false;
    }
    if store.is_bare(root, ticks) {
        return false;
    }
    let lines = store.lines(root, ticks);
    if k == lines {
        return store.is_odd(root, slot, ticks);
    }
    let sought = Sought {
        node: root,
        size: Some(lines),
        k,
    };
    let mut before = SlotBefore {
        slot,
        is_odd: false,
    };
    descend(store, height, sought, &mut before, ticks);
    before.is_odd
}
