//! Reports of marks: which marks a command may displace, and which of them it did.

ghost use Rattle.std.specs.Prelude.{◌≡◌, ◌<◌, ◌++◌, ◌∷◌, [], ℕ, List, chars, length, map, IfOk, OnOk};
ghost use Rattle.std.specs.BTreeSet.{contains};
ghost use Rattle.std.specs.Ordering.{nat_cmp};
ghost use Rattle.tcl_words.specs.Unread.{texts_of};
ghost use Rattle.documents.specs.Documents.{Document as DocumentState, widget_at};
ghost use Rattle.documents.specs.Marks.{mark_unset};
ghost use Rattle.documents.specs.MarksListed.{AreListed, IsSettled};
ghost use Rattle.documents.specs.MarksTold.{AreCarried, AreOthers, AreWatched, HasMarksBut, TellsMarks};
ghost use Rattle.documents.specs.MarksTold.{gone, mark_at, mark_carried, mark_key, mark_keys, marks_dropped};
ghost use Rattle.documents.specs.MarksTold.{own_keys, watched};
ghost use Rattle.documents.specs.declared.mark_lists.MarkKey.{MarkKey as Key};

use crate::documents::Document;
use crate::mark_lists::{MarkChange, MarkKey, MarkKind, MarkList};
use command_effects::{is_among, is_word};
use edit_ops::ChangeList;
use mark_table::WidgetMark;
use std::alloc::AllocError;
use std::collections::BTreeSet;
use text_model::{MarkNo, Place, TextStore};

impl<S: TextStore> Document<S> {
    /// Where the mark of a key is, if there is one.
    pub fn mark_at(&self, key: &MarkKey) -> Option<Place>
        ensures { result ≡ mark_at self.now key.now }
    {
        let name = key.name.as_str();
        match key.kind {
            MarkKind::Insert => {
                let seat = self.find_widget(name)?;
                self.text
                    .store
                    .mark_place(MarkNo(2 * self.seats.number(seat)))
            }
            MarkKind::Current => {
                let seat = self.find_widget(name)?;
                self.text
                    .store
                    .mark_place(MarkNo(2 * self.seats.number(seat) + 1))
            }
            MarkKind::Shared => self.text.store.mark_place(self.marks.find(name)?),
        }
    }

    /// Adds the mark of a key, as it is.
    fn push_mark(&self, marks: &mut MarkList, kind: MarkKind, name: &str) -> Result<(), AllocError>
        ensures { OnOk result
            (marks.new ≡ marks.old ++ watched self.now (record { kind = kind; name = chars name.now }) ∷ []) }
    {
        let key = MarkKey::new(self.alloc, kind, name)?;
        let place = self.mark_at(&key);
        marks.push(key, place)
    }

    /// Adds the two marks of a widget of a name, whether there is one or not.
    fn push_own_marks(&self, marks: &mut MarkList, name: &str) -> Result<(), AllocError>
        ensures { OnOk result (marks.new ≡ marks.old ++ map (watched self.now) (own_keys (chars name.now))) }
    {
        self.push_mark(marks, MarkKind::Insert, name)?;
        self.push_mark(marks, MarkKind::Current, name)
    }

    /// Returns all marks of the document: two of each widget, and the shared ones.
    pub fn list_marks(&self) -> Result<MarkList, AllocError>
        ensures { IfOk result (λ marks. marks ≡ map (watched self.now) (mark_keys self.now)) }
    {
        let mut marks = MarkList::new(self.alloc);
        for seat in 0..self.seats.len() {
            self.push_own_marks(&mut marks, self.seats.name(seat))?;
        }
        for mark in 0..self.marks.len() {
            self.push_mark(&mut marks, MarkKind::Shared, self.marks.name(mark))?;
        }
        Ok(marks)
    }

    /// Returns the mark that a widget knows by a name, whether there is one or not.
    pub fn list_mark(&self, seat: usize, name: &str) -> Result<MarkList, AllocError>
        requires { seat < length self.now.widgets }
        ensures { IfOk result (λ marks.
            marks ≡ watched self.now (mark_key (widget_at self.now seat) (chars name.now)) ∷ []) }
    {
        let mut marks = MarkList::new(self.alloc);
        if is_word(name, "insert") {
            self.push_mark(&mut marks, MarkKind::Insert, self.seats.name(seat))?;
        } else if is_word(name, "current") {
            self.push_mark(&mut marks, MarkKind::Current, self.seats.name(seat))?;
        } else {
            self.push_mark(&mut marks, MarkKind::Shared, name)?;
        }
        Ok(marks)
    }

    /// Returns the two marks of a widget of a name, whether there is one or not.
    pub fn list_own_marks(&self, name: &str) -> Result<MarkList, AllocError>
        ensures { IfOk result (λ marks. marks ≡ map (watched self.now) (own_keys (chars name.now))) }
    {
        let mut marks = MarkList::new(self.alloc);
        self.push_own_marks(&mut marks, name)?;
        Ok(marks)
    }

    /// Adds the shared mark of a name, if there is one and it isn't listed yet.
    fn push_shared(
        &self,
        marks: &mut MarkList,
        seen: &mut BTreeSet<usize>,
        name: &str,
    ) -> Result<(), AllocError>
        ensures { OnOk result ((words : List (List ℕ)) →
            AreListed self.now words (contains nat_cmp seen.old) marks.old
            → AreListed self.now (words ++ chars name.now ∷ []) (contains nat_cmp seen.new) marks.new) }
    {
        let Some(mark) = self.find_mark(name) else {
            return Ok(());
        };
        let WidgetMark::Shared(place) = mark else {
            return Ok(());
        };
        if seen.insert(place)? {
            self.push_mark(marks, MarkKind::Shared, name)?;
        }
        Ok(())
    }

    /// Returns the shared marks among some names.
    pub fn list_shared_marks(&self, names: &[String]) -> Result<MarkList, AllocError>
        ensures watched { IfOk result (λ marks. AreWatched self.now marks) }
        ensures all { IfOk result (λ marks. HasMarksBut marks self.now
            (mark_unset self.now (texts_of names.now)).document) }
    {
        let mut marks = MarkList::new(self.alloc);
        let mut seen = BTreeSet::new(self.alloc);
        for name in names {
            self.push_shared(&mut marks, &mut seen, name.as_str())?;
        }
        Ok(marks)
    }

    /// Adds the mark of a key as one that is gone.
    fn push_gone_mark(
        &self,
        marks: &mut MarkList,
        kind: MarkKind,
        name: &str,
    ) -> Result<(), AllocError>
        ensures { OnOk result
            (marks.new ≡ marks.old ++ gone self.now (record { kind = kind; name = chars name.now }) ∷ []) }
    {
        let key = MarkKey::new(self.alloc, kind, name)?;
        let place = self.mark_at(&key);
        marks.push_gone(key, place)
    }

    /// Adds the two marks of a widget of a name as marks that are gone.
    fn push_gone_marks(&self, marks: &mut MarkList, name: &str) -> Result<(), AllocError>
        ensures { OnOk result (marks.new ≡ marks.old ++ map (gone self.now) (own_keys (chars name.now))) }
    {
        self.push_gone_mark(marks, MarkKind::Insert, name)?;
        self.push_gone_mark(marks, MarkKind::Current, name)
    }

    /// Adds the marks of the widgets of some names, which go with these widgets (`drop_widgets`). Unknown names are
    /// skipped.
    pub fn list_dropped(&self, marks: &mut MarkList, names: &[String]) -> Result<(), AllocError>
        ensures { OnOk result (marks.new ≡ marks.old ++ marks_dropped (texts_of names.now) self.now) }
    {
        for seat in 0..self.seats.len() {
            let name = self.seats.name(seat);
            if is_among(name, names) {
                self.push_gone_marks(marks, name)?;
            }
        }
        Ok(())
    }

    /// Sets where a mark is now, and returns whether it was expected somewhere else.
    fn settle_mark(&self, mark: &mut MarkChange) -> bool
        ensures { IsSettled self.now mark.entry.now result mark.exit.now }
    {
        let place = self.mark_at(&mark.key);
        let is_elsewhere = place != mark.new;
        mark.new = place;
        is_elsewhere
    }

    /// Keeps of marks, which were listed before changes of the text, those that the changes alone don't take to where
    /// they are now, and says where that is. It allocates nothing.
    pub fn settle_marks(&self, marks: &mut MarkList, changes: &ChangeList)
        ensures told { (old : DocumentState) → AreWatched old marks.old → AreCarried changes.now old self.now →
            ((key : Key) → AreOthers key marks.old → mark_at self.now key ≡ mark_carried changes.now old key) →
            TellsMarks changes.now old self.now marks.new }
        ensures none { marks.old ≡ [] → marks.new ≡ [] }
    {
        marks.carry_all(changes.as_slice());
        marks.marks.retain_mut(|mark| self.settle_mark(mark));
    }
}
