//! The changes of tags where runs of characters get slots, or lose them.

ghost use Rattle.std.specs.Prelude.{◌≡◌, ◌<◌, true, false, filter, map, OnOk};
ghost use Rattle.std.specs.FinSet as set;
ghost use Rattle.text_model.specs.declared.limits.TheConstants.Limits.{MOST_WIDGETS};
ghost use Rattle.reports.specs.Keys.{is_shared, key_pairs, seat_pair, tag_pair};
ghost use Rattle.reports.specs.TagsTold.{AreRising, HoldsSlots, TellsRuns};

use crate::keys::Key;
use crate::tag_lists::TagList;
use command_table::is_word;
use edit_ops::SlotRun;
use name_list::NameList;
use std::alloc::{AllocError, Global};
use tag_table::TagTable;
use text_model::{TagSet, TagSlot};

/// Returns a set that holds the slots of each run.
fn slots_in(runs: &[SlotRun]) -> TagSet
    ensures { HoldsSlots runs.now result }
{
    let mut slots = TagSet::empty();
    for run in runs {
        if !run.slots.is_empty() {
            let more = run.slots.differing(&run.slots.common(&slots));
            slots = slots.differing(&more);
        }
    }
    slots
}

/// Adds the changes of the widgets' `sel`, of those whose slots are in a set.
fn push_selections(
    told: &mut TagList,
    alloc: Global,
    seats: &NameList,
    slots: &TagSet,
    runs: &[SlotRun],
    on: bool,
) -> Result<(), AllocError>
    requires limit { seats.now.limit ≡ MOST_WIDGETS }
    requires held { HoldsSlots runs.now slots.now }
    ensures { OnOk result (AreRising 0 runs.now →
        TellsRuns (map seat_pair seats.now.entries) on runs.now told.old told.new) }
{
    for place in 0..seats.len() {
        let slot = TagSlot(seats.number(place));
        if slots.has(slot) {
            let key = Key::new(alloc, true, seats.name(place))?;
            told.push_joined(&key, slot, runs, on)?;
        }
    }
    Ok(())
}

/// Adds the changes of the tags whose slots are in a set; `sel` is the widgets' alone.
fn push_tags(
    told: &mut TagList,
    alloc: Global,
    tags: &TagTable,
    slots: &TagSet,
    runs: &[SlotRun],
    on: bool,
) -> Result<(), AllocError>
    requires { HoldsSlots runs.now slots.now }
    ensures { OnOk result (AreRising 0 runs.now →
        TellsRuns (map tag_pair (filter is_shared tags.now.tags)) on runs.now told.old told.new) }
{
    for place in 0..tags.len() {
        let slot = tags.slot(place);
        let name = tags.name(place);
        if slots.has(slot) && !is_word(name, "sel") {
            let key = Key::new(alloc, false, name)?;
            told.push_joined(&key, slot, runs, on)?;
        }
    }
    Ok(())
}

/// Adds the changes of tags where runs of characters get slots, or lose them, key by key.
pub fn push_runs(
    told: &mut TagList,
    alloc: Global,
    seats: &NameList,
    tags: &TagTable,
    runs: &[SlotRun],
    on: bool,
) -> Result<(), AllocError>
    requires { seats.now.limit ≡ MOST_WIDGETS }
    ensures { OnOk result (AreRising 0 runs.now →
        TellsRuns (key_pairs seats.now.entries tags.now.tags) on runs.now told.old told.new) }
{
    let slots = slots_in(runs);
    if slots.is_empty() {
        return Ok(());
    }
    push_selections(told, alloc, seats, &slots, runs, on)?;
    push_tags(told, alloc, tags, &slots, runs, on)?;
    Ok(())
}
