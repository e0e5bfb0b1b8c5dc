//! What a command that reports changed, as a value of its own, and what C reads of it.
ghost use Rattle.std.specs.Prelude.{◌≡◌, Some, chars, length, min};
ghost use Rattle.peers.specs.Concerned.{is_at, is_one};
ghost use Rattle.peers.specs.Windows.{home_in};
ghost use Rattle.handles.specs.Room.{over};
ghost use Rattle.handles.specs.State.{nothing_told, telling_of};
ghost use Rattle.handles.specs.Told.{mark_name, mark_place_told, mark_told, mark_widget, owner_told, place_by};
ghost use Rattle.handles.specs.Told.{place_told, span_told, spot_of, spot_told, tag_name, tag_told, tag_widget};
ghost use Rattle.handles.specs.Told.{has_lost, mark_concerned, mark_concerns, text_told, were_one, widget_told};
ghost use Rattle.handles.specs.Told.{MarkConcerns};

use crate::room::copy_whole;
use peers::{EditTold, MarkChange, MarkKind, MarkList, Spot, TagChange, TextChange, Windows};
use std::alloc::Global;
use text_model::Place;

/// The changes of a text and of its tags, and the marks that these alone don't take to where they are; the place of the
/// document whose text it is; and where each widget was before `destroy` dropped some.
#[derive(Drop)]
pub struct Report {
    pub(crate) edit: EditTold,
    pub(crate) marks: MarkList,
    pub(crate) text: Option<usize>,
    pub(crate) homes: Windows,
}

impl Report {
    /// A report of no change. It allocates nothing.
    pub(crate) fn nothing(alloc: Global) -> Report
        ensures { telling_of result ≡ nothing_told }
    {
        Report {
            edit: EditTold::nothing(alloc),
            marks: MarkList::new(alloc),
            text: None,
            homes: Windows::new(alloc),
        }
    }

    /// How many changes of the text there are.
    pub(crate) fn count_changes(&self) -> usize
        ensures { result ≡ length (telling_of self.now).changes }
    {
        self.edit.changes.as_slice().len()
    }

    /// The offset of a change, and how many characters it deleted; 0 if there is no such change.
    pub(crate) fn change_place(&self, index: usize) -> (usize, usize)
        ensures { result ≡ place_told (telling_of self.now).changes index }
    {
        match self.edit.changes.as_slice().get(index) {
            None => (0, 0),
            Some(change) => (change.at, change.removed),
        }
    }

    /// Copies the prefix of a change's inserted text that fits into the buffer, and returns the text's length.
    pub(crate) fn copy_inserted(&self, index: usize, room: &mut [u8]) -> usize
        ensures length { result ≡ min (length (text_told (telling_of self.now).changes index)) usize.MAX }
        ensures copied { room.new ≡ over (text_told (telling_of self.now).changes index) room.old }
    {
        match self.edit.changes.as_slice().get(index) {
            None => 0,
            Some(change) => copy_whole(change.inserted.as_str(), room),
        }
    }

    /// One of the ends of a change: its start (0), the end of what it deleted in the text before it (1), or the end of
    /// what it inserted in the text after it (2 and above); zeros if there is no such change.
    pub(crate) fn change_spot(&self, index: usize, end: usize) -> Spot
        ensures { result ≡ spot_told (telling_of self.now).changes index end }
    {
        match self.edit.changes.as_slice().get(index) {
            None => Spot {
                line: 0,
                column: 0,
                bytes: 0,
                units: 0,
            },
            Some(change) => spot_of(change, end),
        }
    }

    /// How many changes of tags there are.
    pub(crate) fn count_tags(&self) -> usize
        ensures { result ≡ length (telling_of self.now).tags }
    {
        self.edit.tags.as_slice().len()
    }

    /// Copies the prefix of the name of a tag change's tag that fits into the buffer, and returns the name's length.
    pub(crate) fn copy_tag(&self, index: usize, room: &mut [u8]) -> usize
        ensures length { result ≡ min (length (tag_told (telling_of self.now).tags index)) usize.MAX }
        ensures copied { room.new ≡ over (tag_told (telling_of self.now).tags index) room.old }
    {
        match self.edit.tags.as_slice().get(index) {
            None => 0,
            Some(change) => copy_whole(tag_name(change), room),
        }
    }

    /// Copies the name of the widget whose `sel` the tag is in the same way; nothing for any other tag.
    pub(crate) fn copy_tag_widget(&self, index: usize, room: &mut [u8]) -> usize
        ensures length { result ≡ min (length (widget_told (telling_of self.now).tags index)) usize.MAX }
        ensures copied { room.new ≡ over (widget_told (telling_of self.now).tags index) room.old }
    {
        match self.edit.tags.as_slice().get(index) {
            None => 0,
            Some(change) => copy_whole(tag_widget(change), room),
        }
    }

    /// Where a tag change starts and ends, and whether it adds the tag; zeros if there is no such change.
    pub(crate) fn tag_span(&self, index: usize) -> (usize, usize, bool)
        ensures { result ≡ span_told (telling_of self.now).tags index }
    {
        match self.edit.tags.as_slice().get(index) {
            None => (0, 0, false),
            Some(change) => (change.from, change.to, change.on),
        }
    }

    /// How many marks there are.
    pub(crate) fn count_marks(&self) -> usize
        ensures { result ≡ length (telling_of self.now).marks }
    {
        self.marks.as_slice().len()
    }

    /// Copies the prefix of a mark's name that fits into the buffer, and returns the name's length.
    pub(crate) fn copy_mark(&self, index: usize, room: &mut [u8]) -> usize
        ensures length { result ≡ min (length (mark_told (telling_of self.now).marks index)) usize.MAX }
        ensures copied { room.new ≡ over (mark_told (telling_of self.now).marks index) room.old }
    {
        match self.marks.as_slice().get(index) {
            None => 0,
            Some(mark) => copy_whole(mark_name(mark), room),
        }
    }

    /// Copies the name of the widget whose `insert` or `current` the mark is in the same way; nothing for any other
    /// mark.
    pub(crate) fn copy_mark_widget(&self, index: usize, room: &mut [u8]) -> usize
        ensures length { result ≡ min (length (owner_told (telling_of self.now).marks index)) usize.MAX }
        ensures copied { room.new ≡ over (owner_told (telling_of self.now).marks index) room.old }
    {
        match self.marks.as_slice().get(index) {
            None => 0,
            Some(mark) => copy_whole(mark_widget(mark), room),
        }
    }

    /// Where a mark is before the command (0), or after it (1 and above); None if it isn't there, or there is no such
    /// mark.
    pub(crate) fn mark_place(&self, index: usize, end: usize) -> Option<Place>
        ensures { result ≡ mark_place_told (telling_of self.now).marks index end }
    {
        match self.marks.as_slice().get(index) {
            None => None,
            Some(mark) => place_by(mark, end),
        }
    }

    /// Whether two widgets showed one text before `destroy` dropped some.
    fn were_one(&self, one: &str, other: &str) -> bool
        ensures { result ≡ were_one (telling_of self.now).homes (chars one.now) (chars other.now) }
    {
        is_one(self.homes.home(one), self.homes.home(other))
    }

    /// Whether the report is of the text of the document at a place.
    pub(crate) fn is_of(&self, place: usize) -> bool
        ensures { result ≡ is_at (telling_of self.now).text place }
    {
        is_at(self.text, place)
    }

    /// Whether one of the marks is of a widget that showed one text with the widget of a name, before `destroy` dropped
    /// it. Each mark costs a look-up of a name.
    pub(crate) fn has_lost(&self, name: &str) -> bool
        ensures { let told = telling_of self.now in
            result ≡ has_lost told.homes (home_in (chars name.now) told.homes) told.marks }
    {
        let home = self.homes.home(name);
        for mark in self.marks.as_slice() {
            if is_one(self.homes.home(mark.key.name.as_str()), home) {
                return true;
            }
        }
        false
    }

    /// Whether a mark concerns the widget of a name, which the report concerns: of `destroy` a mark of its text, and
    /// else any.
    fn mark_concerns(&self, mark: &MarkChange, name: &str) -> bool
        ensures { result ≡ mark_concerns (telling_of self.now).homes (chars name.now) (Some mark.now) }
    {
        self.homes.len() == 0 || self.were_one(mark.key.name.as_str(), name)
    }

    /// The same of the mark at an index; false if there is no such mark.
    fn concerns_mark_at(&self, index: usize, name: &str) -> bool
        ensures { result ≡ mark_concerned (telling_of self.now) index (chars name.now) }
    {
        match self.marks.as_slice().get(index) {
            None => false,
            Some(mark) => self.mark_concerns(mark, name),
        }
    }

    /// The same of a name in UTF-8; false if it is no such name.
    pub(crate) fn concerns_mark(&self, index: usize, name: &[u8]) -> bool
        ensures { MarkConcerns (Some (telling_of self.now)) index name.now result }
    {
        let Ok(name) = str::from_utf8(name) else {
            return false;
        };
        self.concerns_mark_at(index, name)
    }
}

/// Whether a document is the one at a place.
fn is_at(document: Option<usize>, place: usize) -> bool
    ensures { result ≡ is_at document place }
{
    match document {
        None => false,
        Some(other) => other == place,
    }
}

/// Whether two widgets show one document, by the places of the documents that they show.
fn is_one(other: Option<usize>, home: Option<usize>) -> bool
    ensures { result ≡ is_one other home }
{
    match home {
        None => false,
        Some(place) => is_at(other, place),
    }
}

/// One of the ends of a change, by its number.
fn spot_of(change: &TextChange, end: usize) -> Spot
    ensures { result ≡ spot_of change.now end }
{
    match end {
        0 => change.start,
        1 => change.old_end,
        _ => change.new_end,
    }
}

/// The name of the tag of a change.
fn tag_name(change: &TagChange) -> &str
    ensures { chars result.now ≡ tag_name change.now }
{
    if change.key.selects {
        "sel"
    } else {
        change.key.name.as_str()
    }
}

/// The name of the widget whose `sel` the tag of a change is; empty for any other tag.
fn tag_widget(change: &TagChange) -> &str
    ensures { chars result.now ≡ tag_widget change.now }
{
    if change.key.selects {
        change.key.name.as_str()
    } else {
        ""
    }
}

/// The name of a mark, as its widget knows it.
fn mark_name(mark: &MarkChange) -> &str
    ensures { chars result.now ≡ mark_name mark.now }
{
    match mark.key.kind {
        MarkKind::Insert => "insert",
        MarkKind::Current => "current",
        MarkKind::Shared => mark.key.name.as_str(),
    }
}

/// The name of the widget whose `insert` or `current` a mark is; empty for any other mark.
fn mark_widget(mark: &MarkChange) -> &str
    ensures { chars result.now ≡ mark_widget mark.now }
{
    match mark.key.kind {
        MarkKind::Shared => "",
        _ => mark.key.name.as_str(),
    }
}

/// One of the places of a mark, by its number.
fn place_by(mark: &MarkChange, end: usize) -> Option<Place>
    ensures { result ≡ place_by mark.now end }
{
    match end {
        0 => mark.old,
        _ => mark.new,
    }
}
