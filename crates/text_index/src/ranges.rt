//! The ranges of a tag in a view (text(n), "tag ranges", "tag nextrange"), by the next change of its slot.
ghost use Rattle.std.specs.Prelude.{◌≡◌, ◌<◌, ◌≤◌, ◌+◌, ◌-◌, ℕ, true, false, IfSome};
ghost use Rattle.text_model.specs.Changes.{flag_at, next_change, previous_change};
ghost use Rattle.text_model.specs.TagBits.{slot_count};
ghost use Rattle.text_index.specs.Ranges.{begins, next_range, previous_range, ranges_from, and_later};
ghost use Rattle.text_index.specs.Parts.{part_of};
ghost use Rattle.text_index.specs.Views.{shown_flags};
ghost use Rattle.text_index.specs.Values.{first_tagged, last_tagged};

use crate::views::View;
use text_model::{TagSlot, TextStore};

/// A range of a tag in a view (text(n), "tag ranges"): the place of its first character, and the place behind its last
/// one. Places count from the start of the view; a range that begins before the view begins at its start.
#[derive(Clone, Copy, Debug, PartialEq, Eq)]
pub struct TagRange {
    pub start: usize,
    pub end: usize,
}

/// Whether the character at a place has the tag of a slot.
fn is_tagged<S: TextStore>(view: &View<'_, S>, slot: TagSlot, place: usize) -> bool
    requires slot { slot.0 < slot_count }
    requires within { view.now.start + place < view.now.end }
    ensures { result ≡ flag_at (shown_flags slot.0 (part_of view.now)) place }
{
    view.store.has_tag(view.start + place, slot)
}

/// Returns the next place after one at which the tag of a slot begins or ends, or the end of the view.
pub fn change_after<S: TextStore>(view: &View<'_, S>, slot: TagSlot, place: usize) -> usize
    requires slot { slot.0 < slot_count }
    requires within { view.now.start + place < view.now.end }
    ensures value { result ≡ next_change (shown_flags slot.0 (part_of view.now))
        place }
    ensures above { place < result }
    ensures bound { view.now.start + result ≤ view.now.end }
{
    let change = view.store.next_change(view.start + place, slot);
    change.min(view.end) - view.start
}

/// Where the run of characters begins that are like the one before a place in a tag.
fn change_before<S: TextStore>(view: &View<'_, S>, slot: TagSlot, place: usize) -> usize
    requires slot { slot.0 < slot_count }
    requires some { 0 < place }
    requires within { view.now.start + place ≤ view.now.end }
    ensures value { result ≡ previous_change (shown_flags slot.0 (part_of view.now))
        place }
    ensures below { result < place }
{
    let change = view.store.previous_change(view.start + place, slot);
    change.max(view.start) - view.start
}

/// The end of the range that begins before a place and goes to it at least; the place itself where there is none.
fn behind_range<S: TextStore>(view: &View<'_, S>, slot: TagSlot, place: usize) -> usize
    requires slot { slot.0 < slot_count }
    requires within { view.now.start + place ≤ view.now.end }
    ensures passed { (k : ℕ) → place ≤ k → k < result →
        begins (shown_flags slot.0 (part_of view.now)) k ≡ false }
    ensures here { flag_at (shown_flags slot.0 (part_of view.now)) result ≡ true
        → begins (shown_flags slot.0 (part_of view.now)) result ≡ true }
    ensures past { place < result →
        flag_at (shown_flags slot.0 (part_of view.now)) result ≡ false }
    ensures above { place ≤ result }
    ensures bound { view.now.start + result ≤ view.now.end }
{
    if place == 0 || !is_tagged(view, slot, place - 1) {
        return place;
    }
    change_after(view, slot, place - 1)
}

/// The first place from a place on at which a range begins, where the character at the place hasn't the tag or the view
/// ends; the end of the view where there is none.
fn start_behind<S: TextStore>(view: &View<'_, S>, slot: TagSlot, place: usize) -> usize
    requires slot { slot.0 < slot_count }
    requires within { view.now.start + place ≤ view.now.end }
    requires unset { flag_at (shown_flags slot.0 (part_of view.now)) place ≡ false }
    ensures passed { (k : ℕ) → place ≤ k → k < result →
        begins (shown_flags slot.0 (part_of view.now)) k ≡ false }
    ensures here { view.now.start + result < view.now.end →
        begins (shown_flags slot.0 (part_of view.now)) result ≡ true }
    ensures above { place ≤ result }
    ensures bound { view.now.start + result ≤ view.now.end }
{
    if place == view.len() {
        return place;
    }
    change_after(view, slot, place)
}

/// The first place from a place on at which a range begins; the end of the view where there is none.
fn next_start<S: TextStore>(view: &View<'_, S>, slot: TagSlot, place: usize) -> usize
    requires slot { slot.0 < slot_count }
    requires within { view.now.start + place ≤ view.now.end }
    ensures passed { (k : ℕ) → place ≤ k → k < result →
        begins (shown_flags slot.0 (part_of view.now)) k ≡ false }
    ensures here { view.now.start + result < view.now.end →
        begins (shown_flags slot.0 (part_of view.now)) result ≡ true }
    ensures above { place ≤ result }
    ensures bound { view.now.start + result ≤ view.now.end }
{
    if place == view.len() {
        return place;
    }
    if !is_tagged(view, slot, place) {
        return start_behind(view, slot, place);
    }
    let from = behind_range(view, slot, place);
    if from == place {
        return from;
    }
    start_behind(view, slot, from)
}

/// The place behind the last character before a place that has the tag of a slot; 0 where there is none.
fn behind_tagged<S: TextStore>(view: &View<'_, S>, slot: TagSlot, place: usize) -> usize
    requires slot { slot.0 < slot_count }
    requires within { view.now.start + place ≤ view.now.end }
    ensures passed { (k : ℕ) → result ≤ k → k < place →
        flag_at (shown_flags slot.0 (part_of view.now)) k ≡ false }
    ensures here { 0 < result → flag_at (shown_flags slot.0 (part_of view.now))
        (result - 1) ≡ true }
    ensures below { result ≤ place }
{
    if place == 0 || is_tagged(view, slot, place - 1) {
        return place;
    }
    change_before(view, slot, place)
}

/// The range of a tag that begins at a place; none where the place is the end of the view.
fn range_at<S: TextStore>(view: &View<'_, S>, slot: TagSlot, start: usize) -> Option<TagRange>
    requires slot { slot.0 < slot_count }
    requires within { view.now.start + start ≤ view.now.end }
    requires here { view.now.start + start < view.now.end →
        begins (shown_flags slot.0 (part_of view.now)) start ≡ true }
    ensures value { (place : ℕ) → place ≤ start → ((k : ℕ) → place ≤ k → k < start →
        begins (shown_flags slot.0 (part_of view.now)) k ≡ false) →
        result ≡ next_range (shown_flags slot.0 (part_of view.now)) place }
    ensures there { IfSome result (λ range. range.start ≡ start) }
    ensures some { IfSome result (λ range. range.start < range.end) }
    ensures bound { IfSome result (λ range. view.now.start + range.end ≤ view.now.end) }
{
    if start == view.len() {
        return None;
    }
    let end = change_after(view, slot, start);
    Some(TagRange { start, end })
}

/// The first range of a tag that begins at a place or behind it (text(n), "tag nextrange"). It takes no memory.
///
/// Who walks over all ranges begins at 0, and goes on at the end of each.
pub fn next_range<S: TextStore>(view: &View<'_, S>, slot: TagSlot, place: usize) -> Option<TagRange>
    requires slot { slot.0 < slot_count }
    requires within { view.now.start + place ≤ view.now.end }
    ensures value { result ≡ next_range (shown_flags slot.0 (part_of view.now))
        place }
    ensures later { ranges_from (shown_flags slot.0 (part_of view.now)) place
        ≡ and_later (shown_flags slot.0 (part_of view.now)) result }
    ensures behind { IfSome result (λ range. place ≤ range.start) }
    ensures some { IfSome result (λ range. range.start < range.end) }
    ensures bound { IfSome result (λ range. view.now.start + range.end ≤ view.now.end) }
{
    let start = next_start(view, slot, place);
    range_at(view, slot, start)
}

/// The first range of a tag that begins at a place or behind it, where the character at the place hasn't the tag, or
/// the view ends. It takes no memory.
///
/// That is so at the end of each range. It is `next_range`, but needn't ask whether the place has the tag, which
/// costs by how often tags begin and end before it on its line.
pub fn range_behind<S: TextStore>(
    view: &View<'_, S>,
    slot: TagSlot,
    place: usize,
) -> Option<TagRange>
    requires slot { slot.0 < slot_count }
    requires within { view.now.start + place ≤ view.now.end }
    requires unset { flag_at (shown_flags slot.0 (part_of view.now)) place ≡ false }
    ensures value { result ≡ next_range (shown_flags slot.0 (part_of view.now))
        place }
    ensures later { ranges_from (shown_flags slot.0 (part_of view.now)) place
        ≡ and_later (shown_flags slot.0 (part_of view.now)) result }
    ensures behind { IfSome result (λ range. place ≤ range.start) }
    ensures some { IfSome result (λ range. range.start < range.end) }
    ensures bound { IfSome result (λ range. view.now.start + range.end ≤ view.now.end) }
{
    let start = start_behind(view, slot, place);
    range_at(view, slot, start)
}

/// The last range of a tag that begins before a place (text(n), "tag prevrange"); it may end behind it. It takes no
/// memory.
pub fn previous_range<S: TextStore>(
    view: &View<'_, S>,
    slot: TagSlot,
    place: usize,
) -> Option<TagRange>
    requires slot { slot.0 < slot_count }
    requires within { view.now.start + place ≤ view.now.end }
    ensures value { result ≡ previous_range (shown_flags slot.0 (part_of view.now))
        place }
    ensures before { IfSome result (λ range. range.start < place) }
    ensures some { IfSome result (λ range. range.start < range.end) }
    ensures bound { IfSome result (λ range. view.now.start + range.end ≤ view.now.end) }
{
    let behind = behind_tagged(view, slot, place);
    if behind == 0 {
        return None;
    }
    let start = change_before(view, slot, behind);
    if behind < place {
        return Some(TagRange { start, end: behind });
    }
    let end = change_after(view, slot, start);
    Some(TagRange { start, end })
}

/// The first place of the view whose character has the tag of a slot.
pub fn first_tagged<S: TextStore>(view: &View<'_, S>, slot: TagSlot) -> Option<usize>
    requires slot { slot.0 < slot_count }
    ensures value { result ≡ first_tagged (shown_flags slot.0 (part_of view.now)) }
    ensures within { IfSome result (λ place. view.now.start + place ≤ view.now.end) }
{
    let range = next_range(view, slot, 0)?;
    Some(range.start)
}

/// The place behind the last character of the view that has the tag of a slot.
pub fn last_tagged<S: TextStore>(view: &View<'_, S>, slot: TagSlot) -> Option<usize>
    requires slot { slot.0 < slot_count }
    ensures value { result ≡ last_tagged (shown_flags slot.0 (part_of view.now)) }
    ensures within { IfSome result (λ place. view.now.start + place ≤ view.now.end) }
{
    let range = previous_range(view, slot, view.len())?;
    Some(range.end)
}
