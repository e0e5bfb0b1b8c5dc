//! Appends ranges of tags, names of tags and marks, and texts to a list.

ghost use Rattle.std.specs.Prelude.{ℕ, List, ◌+◌, ◌<◌, ◌≤◌, ◌∷◌, [], chars, filter, nat_lt, nat_le, string_bytes, OnOk};
ghost use Rattle.std.specs.Prelude.{if◌then◌else◌};
ghost use Rattle.std.specs.FinSet as set;
ghost use Rattle.tag_table.specs.Tags.{names_of};
ghost use Rattle.mark_table.specs.SharedMarks.{names_of as mark_names_of};
ghost use Rattle.command_effects.specs.Words.{literal};
ghost use Rattle.text_model.specs.Lines.{IsLineOf};
ghost use Rattle.text_model.specs.TagBits.{slot_count};
ghost use Rattle.text_index.specs.Positions.{position_text};
ghost use Rattle.text_index.specs.Ranges.{tag_ranges, next_range, previous_range};
ghost use Rattle.text_index.specs.Parts.{part_of};
ghost use Rattle.text_index.specs.Views.{shown, shown_flags};
ghost use Rattle.text_model.specs.declared.limits.TheConstants.Limits.{MOST_WIDGETS};
ghost use Rattle.command_effects.specs.Tagging.{own_slot};
ghost use Rattle.documents.specs.Listing.{range_words, begun, is_filled};
ghost use Rattle.tcl_words.specs.ListGrowth.{Goes};

use command_effects::own_slot;
use mark_table::MarkTable;
use std::alloc::AllocError;
use tag_table::TagTable;
use tcl_words::{push_element, push_space};
use text_index::{TagRange, View, next_range, previous_range, push_index_on, range_behind};
use text_model::{LineSpan, TagSet, TagSlot, Text, TextStore};

/// Appends a place as an element of a list, with its line. It is two numbers round a dot, which stand as they are.
fn push_place(list: &mut String, line: LineSpan, place: usize) -> Result<(), AllocError>
    requires { line.start ≤ place }
    ensures { OnOk result ((text : List ℕ) → IsLineOf text place line →
        Goes (string_bytes list.old) (string_bytes list.new) (position_text text place ∷ [])) }
{
    push_space(list)?;
    push_index_on(list, line, place)?;
    Ok(())
}

/// Appends where a range begins and where it ends.
pub fn push_range<S: TextStore>(
    list: &mut String,
    view: &View<'_, S>,
    range: TagRange,
) -> Result<(), AllocError>
    requires start { view.now.start + range.start ≤ view.now.end }
    requires end { view.now.start + range.end ≤ view.now.end }
    ensures { OnOk result (Goes (string_bytes list.old) (string_bytes list.new)
        (range_words (shown (part_of view.now)) (range ∷ []))) }
{
    let first = view.line_at(range.start);
    push_place(list, first, range.start)?;
    let last = view.line_on(range.start, first, range.end);
    push_place(list, last, range.end)
}

/// Appends all ranges of a tag, by its slot.
pub fn push_ranges<S: TextStore>(
    list: &mut String,
    view: &View<'_, S>,
    slot: TagSlot,
) -> Result<(), AllocError>
    requires slot { slot.0 < slot_count }
    ensures { OnOk result (Goes (string_bytes list.old) (string_bytes list.new)
        (range_words (shown (part_of view.now))
        (tag_ranges (shown_flags slot.0 (part_of view.now))))) }
{
    let mut next = next_range(view, slot, 0);
    while let Some(range) = next {
        push_range(list, view, range)?;
        next = range_behind(view, slot, range.end);
    }
    Ok(())
}

/// Appends where a range begins and ends, if there is one and it is wanted.
fn push_wanted_range<S: TextStore>(
    list: &mut String,
    view: &View<'_, S>,
    range: TagRange,
    is_wanted: bool,
) -> Result<(), AllocError>
    requires start { view.now.start + range.start ≤ view.now.end }
    requires end { view.now.start + range.end ≤ view.now.end }
    ensures { OnOk result (Goes (string_bytes list.old) (string_bytes list.new)
        (range_words (shown (part_of view.now)) (if is_wanted then range ∷ []
        else []))) }
{
    if !is_wanted {
        return Ok(());
    }
    push_range(list, view, range)
}

/// Appends where the first range of a tag begins and ends that begins at a place or behind it, if it begins before
/// another.
pub fn push_next<S: TextStore>(
    list: &mut String,
    view: &View<'_, S>,
    slot: TagSlot,
    from: usize,
    to: usize,
) -> Result<(), AllocError>
    requires slot { slot.0 < slot_count }
    requires within { view.now.start + from ≤ view.now.end }
    ensures { OnOk result (Goes (string_bytes list.old) (string_bytes list.new)
        (range_words (shown (part_of view.now))
        (begun (λ start. nat_lt start to)
        (next_range (shown_flags slot.0 (part_of view.now)) from)))) }
{
    match next_range(view, slot, from) {
        None => Ok(()),
        Some(range) => push_wanted_range(list, view, range, range.start < to),
    }
}

/// Appends where the last range of a tag begins and ends that begins before a place, if it doesn't begin before
/// another.
pub fn push_previous<S: TextStore>(
    list: &mut String,
    view: &View<'_, S>,
    slot: TagSlot,
    from: usize,
    to: usize,
) -> Result<(), AllocError>
    requires slot { slot.0 < slot_count }
    requires within { view.now.start + from ≤ view.now.end }
    ensures { OnOk result (Goes (string_bytes list.old) (string_bytes list.new)
        (range_words (shown (part_of view.now))
        (begun (λ start. nat_le to start)
        (previous_range (shown_flags slot.0 (part_of view.now)) from)))) }
{
    match previous_range(view, slot, from) {
        None => Ok(()),
        Some(range) => push_wanted_range(list, view, range, to <= range.start),
    }
}

/// Appends the names of all tags, from the lowest.
pub fn push_names(list: &mut String, tags: &TagTable) -> Result<(), AllocError>
    ensures { OnOk result (Goes (string_bytes list.old) (string_bytes list.new) (names_of tags.now.tags)) }
{
    for place in 0..tags.len() {
        push_element(list, tags.name(place))?;
    }
    Ok(())
}

/// Appends the names of shared marks by their creation.
fn push_shared_names(list: &mut String, marks: &MarkTable) -> Result<(), AllocError>
    ensures { OnOk result (Goes (string_bytes list.old) (string_bytes list.new) (mark_names_of marks.now.marks)) }
{
    for place in 0..marks.len() {
        push_element(list, marks.name(place))?;
    }
    Ok(())
}

/// Appends the names of all marks: of a widget's own two, and of the shared ones by their creation.
pub fn push_mark_names(list: &mut String, marks: &MarkTable) -> Result<(), AllocError>
    ensures { OnOk result (Goes (string_bytes list.old) (string_bytes list.new)
        (literal "insert" ∷ literal "current" ∷ mark_names_of marks.now.marks)) }
{
    push_element(list, "insert")?;
    push_element(list, "current")?;
    push_shared_names(list, marks)?;
    Ok(())
}

/// Appends a name, if it is wanted.
fn push_wanted(list: &mut String, name: &str, is_wanted: bool) -> Result<(), AllocError>
    ensures { OnOk result (Goes (string_bytes list.old) (string_bytes list.new) (if is_wanted then chars name.now ∷ []
        else [])) }
{
    if !is_wanted {
        return Ok(());
    }
    push_element(list, name)
}

/// Appends the names of the tags whose slots for a widget are in a set, from the lowest: for `sel` it is the widget's
/// own.
pub fn push_names_in(
    list: &mut String,
    tags: &TagTable,
    own: TagSlot,
    slots: TagSet,
) -> Result<(), AllocError>
    requires { own.0 < MOST_WIDGETS }
    ensures { OnOk result (Goes (string_bytes list.old) (string_bytes list.new)
        (names_of (filter (λ tag. set.contains slots (own_slot own.0 tag.slot)) tags.now.tags))) }
{
    for place in 0..tags.len() {
        push_wanted(
            list,
            tags.name(place),
            slots.has(own_slot(tags.slot(place), own)),
        )?;
    }
    Ok(())
}

/// Appends a text as an element, if it isn't empty.
pub fn push_filled(list: &mut String, text: Text) -> Result<(), AllocError>
    ensures { OnOk result (Goes (string_bytes list.old) (string_bytes list.new) (if is_filled text then text ∷ []
        else [])) }
{
    if text.as_str().is_empty() {
        return Ok(());
    }
    push_element(list, text.as_str())
}
