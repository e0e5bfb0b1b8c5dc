//! The marks of a document: found, listed, set, moved, given a gravity and unset.

ghost use Rattle.std.specs.Prelude.{◌≡◌, true, None, Some, is_some, ◌+◌, ◌-◌, ◌<◌, ◌≤◌, min, length, chars, option_map};
ghost use Rattle.std.specs.Prelude.{Ok, Err, IfOk, [], IfSome, slice_index_or};
ghost use Rattle.text_model.specs.LimitTable.{LimitTable};
ghost use Rattle.documents.specs.Documents.{widget_at};
ghost use Rattle.documents.specs.Views.{shown};
ghost use Rattle.documents.specs.Promise.{Does, answered};
ghost use Rattle.tcl_words.specs.ListText.{list_text};
ghost use Rattle.tcl_words.specs.Unread.{texts_of};
ghost use Rattle.mark_table.specs.Order.{next_mark, previous_mark, rank_of};
ghost use Rattle.command_effects.specs.declared.answers.Answer.TheVariants.{Empty};
ghost use Rattle.documents.specs.Names.{mark_number, mark_place};
ghost use Rattle.mark_table.specs.Order.{origin_in};
ghost use Rattle.command_effects.specs.Marking.{gravity_word as spec_gravity_word};
ghost use Rattle.documents.specs.Marks.{mark_names, mark_offset, mark_unset, place_named, set_found, usable_marks};
ghost use Rattle.documents.specs.Marks.{with_mark};

use crate::documents::Document;
use crate::listing::push_mark_names;
use crate::views::mark_view_of;
use command_effects::{
    Answer, Fault, gravity_word, is_word, make_mark, numbers_named, put_mark, take_marks,
    unset_names,
};
use mark_table::{Origin, WidgetMark};
use std::alloc::AllocError;
use text_index::Names;
use text_model::{Gravity, Limits, Place, TagSlot, Text, TextStore};

/// From where a mark is asked for, counted from the start of the text: a place of a view moves by the view's start.
fn origin_in(start: usize, origin: Origin) -> Origin
    ensures { result ≡ origin_in usize.MAX start origin }
{
    match origin {
        Origin::Mark(mark) => Origin::Mark(mark),
        Origin::Place(place) => Origin::Place(place.saturating_add(start)),
    }
}

impl<S: TextStore> Document<S> {
    /// The mark of a name: a widget's own, or a shared one.
    pub fn find_mark(&self, name: &str) -> Option<WidgetMark>
        ensures { option_map rank_of result ≡ mark_number self.now (chars name.now) }
    {
        if is_word(name, "insert") {
            return Some(WidgetMark::Insert);
        }
        if is_word(name, "current") {
            return Some(WidgetMark::Current);
        }
        let number = self.marks.find(name)?;
        Some(WidgetMark::Shared(self.marks.place(number)?))
    }

    /// Whether a widget can use a mark: its own, and a shared one that stands in its view or at the end of that.
    pub fn shows_mark(&self, seat: usize, mark: WidgetMark) -> bool
        requires { seat < length self.now.widgets }
        ensures { result ≡ is_some (mark_place self.now (widget_at self.now seat) (rank_of mark)) }
    {
        let WidgetMark::Shared(place) = mark else {
            return true;
        };
        if place >= self.marks.len() {
            return false;
        }
        let view = self.view_at(seat);
        match self.text.store.mark_place(self.marks.number(place)) {
            None => false,
            Some(found) => view.start <= found.offset && found.offset <= view.end,
        }
    }

    /// Where the mark of a name stands in the document, if there is one.
    pub fn place_named(&self, seat: usize, name: &str) -> Option<Place>
        requires shown { seat < length self.now.widgets }
        ensures value { result ≡ place_named self.now (widget_at self.now seat) (chars name.now) }
        ensures within { IfSome result (λ place. place.offset ≤ length self.now.cells) }
    {
        let names = Names {
            tags: &self.tags,
            marks: &self.marks,
            widget: TagSlot(self.seats.number(seat)),
        };
        self.text.store.mark_place(names.mark(name)?)
    }

    /// The offset for a mark of a name at a place: of the widget's own, the end is the last character.
    pub fn mark_offset(&self, seat: usize, name: &str, place: usize) -> usize
        requires shown { seat < length self.now.widgets }
        requires within { place ≤ length (shown self.now (widget_at self.now seat)) }
        ensures value { result ≡ mark_offset self.now (widget_at self.now seat) (chars name.now) place }
        ensures within { result ≤ length self.now.cells }
    {
        let view = self.view_at(seat);
        if is_word(name, "insert") || is_word(name, "current") {
            view.start + place.min((view.end - view.start).saturating_sub(1))
        } else {
            view.start + place
        }
    }

    /// The word for a gravity.
    pub fn gravity_text(&self, gravity: Gravity) -> Result<Text, AllocError>
        ensures { IfOk result (λ text. text ≡ spec_gravity_word gravity) }
    {
        Ok(Text::new(String::from_str(self.alloc, gravity_word(gravity))?))
    }

    /// The names of all marks as a list: the widget's own two, and the shared ones by their creation.
    pub fn all_marks(&self) -> Result<Text, AllocError>
        ensures { IfOk result (λ list. list ≡ list_text (mark_names self.now)) }
    {
        let mut list = String::new(self.alloc);
        push_mark_names(&mut list, &self.marks)?;
        Ok(Text::new(list))
    }

    /// The name of a mark.
    pub fn mark_name(&self, mark: WidgetMark) -> Result<Text, AllocError>
        ensures { IfOk result (λ text. text ≡ slice_index_or (mark_names self.now) (rank_of mark) []) }
    {
        let name = match mark {
            WidgetMark::Insert => "insert",
            WidgetMark::Current => "current",
            WidgetMark::Shared(place) if place < self.marks.len() => self.marks.name(place),
            WidgetMark::Shared(_) => "",
        };
        Ok(Text::new(String::from_str(self.alloc, name)?))
    }

    /// The mark behind another one in the order of marks, or the first at or after a place of the view.
    pub fn next_mark(&self, seat: usize, origin: Origin) -> Option<WidgetMark>
        requires shown { seat < length self.now.widgets }
        ensures { result ≡ next_mark origin (usable_marks self.now (widget_at self.now seat)) }
    {
        let view = mark_view_of(
            &self.text.anchors,
            self.seats.number(seat),
            self.text.store.len(),
        );
        self.marks
            .next(&self.text.store, view, origin_in(view.start, origin))
    }

    /// The mark before another one in the order of marks, or the last before a place of the view.
    pub fn previous_mark(&self, seat: usize, origin: Origin) -> Option<WidgetMark>
        requires shown { seat < length self.now.widgets }
        ensures { result ≡ previous_mark origin (usable_marks self.now (widget_at self.now seat)) }
    {
        let view = mark_view_of(
            &self.text.anchors,
            self.seats.number(seat),
            self.text.store.len(),
        );
        self.marks
            .previous(&self.text.store, view, origin_in(view.start, origin))
    }
}

impl<S: TextStore> Document<S> {
    /// Moves the mark of a name to a place, if there is one.
    pub fn put_mark(&mut self, seat: usize, name: &str, place: Place) -> Result<Answer, Fault>
        requires shown { seat < length self.old.widgets }
        requires stands { place.offset ≤ length self.old.cells }
        ensures { (limits : LimitTable) → Does limits self.old self.new result
            (answered (with_mark self.old (widget_at self.old seat) (chars name.now) place) Empty) }
    {
        let names = Names {
            tags: &self.tags,
            marks: &self.marks,
            widget: TagSlot(self.seats.number(seat)),
        };
        let Some(number) = names.mark(name) else {
            return Ok(Answer::Empty);
        };
        put_mark(self.alloc, &mut self.text.store, number, place)?;
        // The widget's own marks aren't in the table.
        let _ = self.marks.set_gravity(name, place.gravity);
        Ok(Answer::Empty)
    }

    /// Makes a shared mark at an offset, with right gravity, unless there are too many.
    fn make_mark(
        &mut self,
        limits: &Limits,
        seat: usize,
        name: &str,
        offset: usize,
    ) -> Result<Answer, Fault>
        requires shown { seat < length self.old.widgets }
        requires within { offset ≤ length self.old.cells }
        requires new { place_named self.old (widget_at self.old seat) (chars name.now) ≡ None }
        ensures { Does limits.now self.old self.new result
            (set_found limits.now self.old (widget_at self.old seat) (chars name.now) offset None) }
    {
        if self.marks.len() >= limits.marks() as usize {
            return Err(Fault::TooManyMarks);
        }
        make_mark(
            self.alloc,
            &mut self.marks,
            &mut self.text.store,
            name,
            offset,
        )?;
        Ok(Answer::Empty)
    }

    /// Moves the mark of a name to an offset, where it keeps its gravity. If there is none, makes a shared mark with
    /// right gravity, unless there are too many. The name is looked up once.
    pub fn set_mark(
        &mut self,
        limits: &Limits,
        seat: usize,
        name: &str,
        offset: usize,
    ) -> Result<Answer, Fault>
        requires shown { seat < length self.old.widgets }
        requires within { offset ≤ length self.old.cells }
        ensures { Does limits.now self.old self.new result
            (set_found limits.now self.old (widget_at self.old seat) (chars name.now) offset
            (place_named self.old (widget_at self.old seat) (chars name.now))) }
    {
        let names = Names {
            tags: &self.tags,
            marks: &self.marks,
            widget: TagSlot(self.seats.number(seat)),
        };
        let Some(number) = names.mark(name) else {
            return self.make_mark(limits, seat, name, offset);
        };
        let Some(old) = self.text.store.mark_place(number) else {
            unreachable!()
        };
        let place = Place { offset, ..old };
        put_mark(self.alloc, &mut self.text.store, number, place)?;
        Ok(Answer::Empty)
    }

    /// Takes the shared marks of these names out. The widget's own and unknown names are skipped.
    pub fn unset_marks(&mut self, names: &[String]) -> Result<Answer, Fault>
        ensures { (limits : LimitTable) → Does limits self.old self.new result
            (mark_unset self.old (texts_of names.now)) }
    {
        let numbers = numbers_named(self.alloc, &self.marks, names)?;
        take_marks(self.alloc, &mut self.text.store, &numbers)?;
        unset_names(&mut self.marks, names);
        Ok(Answer::Empty)
    }
}
