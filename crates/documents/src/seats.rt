//! The names of widgets with their slots, and what is kept by slot.

ghost use Rattle.std.specs.Prelude.{◌≡◌, false, ◌<◌, ◌≤◌, length, take, map, filter, not, nat_lt, chars};
ghost use Rattle.std.specs.Prelude.{string_bytes, IfOk, OnOk, OnErr};
ghost use Rattle.std.specs.List.{All};
ghost use Rattle.text_model.specs.declared.limits.TheConstants.Limits.{MOST_WIDGETS};
ghost use Rattle.name_list.specs.Names.{AreNames, names_of, place_of};
ghost use Rattle.tcl_words.specs.Unread.{texts_of};
ghost use Rattle.command_effects.specs.Words.{is_same};
ghost use Rattle.tcl_words.specs.ListGrowth.{Goes};
ghost use Rattle.documents.specs.Documents.{whole};
ghost use Rattle.reports.specs.Keys.{numbers_gone, seats_left};
ghost use Rattle.documents.specs.Seats.{IsLonger, IsSeatPut};

use command_effects::{is_among, is_word, put_widget_marks};
use edit_ops::{Anchors, EditedText};
use name_list::NameList;
use std::alloc::{AllocError, Global};
use tcl_words::push_element;
use text_model::{TagSlot, TextStore};

/// A widget without anchors.
const WHOLE: Anchors = Anchors {
    start: None,
    end: None,
};

/// Makes a list long enough for a slot, by adding a value again and again.
fn make_room<T: Copy>(list: &mut Vec<T>, value: T, slot: u16) -> Result<(), AllocError>
    ensures long { OnOk result (slot < length list.new.items) }
    ensures longer { IsLonger value list.old.items list.new.items }
{
    for _ in list.len()..slot as usize + 1 {
        list.push(value)?;
    }
    Ok(())
}

/// Puts the name of a new widget last and gives it the least free slot, for which what is kept by slot gets long
/// enough, with its own two marks at an offset. Where memory is refused, the name may be left after the others.
pub fn make_seat<S: TextStore>(
    alloc: Global,
    seats: &mut NameList,
    disabled: &mut Vec<bool>,
    text: &mut EditedText<S>,
    name: &str,
    offset: usize,
) -> Result<usize, AllocError>
    requires new { place_of (chars name.now) seats.old.entries ≡ None }
    requires few { length seats.old.entries < seats.old.limit }
    requires slots { seats.old.limit ≡ MOST_WIDGETS }
    requires within { offset ≤ length (S.content text.old.store).cells }
    ensures seat { IfOk result (IsSeatPut (chars name.now) offset seats.old seats.new (S.content text.old.store)
        (S.content text.new.store)) }
    ensures room { IfOk result (λ slot. (slot < length disabled.new.items) × (slot < length text.new.anchors.items)) }
    ensures disabled { IsLonger false disabled.old.items disabled.new.items }
    ensures anchors { IsLonger whole text.old.anchors.items text.new.anchors.items }
    ensures history { text.new.history ≡ text.old.history }
    ensures front { record seats.new { entries = take (length seats.old.entries) seats.new.entries } ≡ seats.old }
    ensures err { OnErr result (S.content text.new.store ≡ S.content text.old.store) }
{
    let Some(slot) = seats.create(String::from_str(alloc, name)?)? else {
        unreachable!()
    };
    make_room(disabled, false, slot)?;
    make_room(&mut text.anchors, WHOLE, slot)?;
    put_widget_marks(alloc, &mut text.store, TagSlot(slot), offset)?;
    Ok(slot as usize)
}

/// The slots of the widgets of these names.
pub fn slots_named(
    alloc: Global,
    seats: &NameList,
    names: &[String],
) -> Result<Vec<TagSlot>, AllocError>
    requires { seats.now.limit ≡ MOST_WIDGETS }
    ensures value { IfOk result (λ slots. map (λ slot. slot.0) slots.items
        ≡ numbers_gone (texts_of names.now) seats.now.entries) }
    ensures bound { IfOk result (λ slots. All (λ slot. slot.0 < MOST_WIDGETS) slots.items) }
{
    let mut slots = Vec::with_capacity(alloc, seats.len())?;
    for place in 0..seats.len() {
        if is_among(seats.name(place), names) {
            slots.push(TagSlot(seats.number(place)))?;
        }
    }
    Ok(slots)
}

/// Takes the widgets of these names out.
pub fn remove_seats(seats: &mut NameList, names: &[String])
    ensures value { seats.new ≡ record seats.old { entries = seats_left (texts_of names.now) seats.old.entries } }
    ensures sound { AreNames seats.new }
{
    let mut place = 0;
    while place < seats.len() {
        if is_among(seats.name(place), names) {
            seats.remove(place);
        } else {
            place += 1;
        }
    }
}

/// Whether some widget isn't of these names.
pub fn some_left(seats: &NameList, names: &[String]) -> bool
    ensures { result ≡ nat_lt 0 (length (seats_left (texts_of names.now) seats.now.entries)) }
{
    for place in 0..seats.len() {
        if !is_among(seats.name(place), names) {
            return true;
        }
    }
    false
}

/// Appends the names of all widgets but one.
pub fn push_other_seats(list: &mut String, seats: &NameList, name: &str) -> Result<(), AllocError>
    ensures { OnOk result (Goes (string_bytes list.old) (string_bytes list.new)
        (filter (λ other. not (is_same other (chars name.now))) (names_of seats.now.entries))) }
{
    for place in 0..seats.len() {
        if !is_word(seats.name(place), name) {
            push_element(list, seats.name(place))?;
        }
    }
    Ok(())
}
