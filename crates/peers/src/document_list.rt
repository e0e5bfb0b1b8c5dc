//! The documents of a world, in the order of their creation.

ghost use Rattle.std.specs.Prelude.{◌≡◌, ◌<◌, ◌≤◌, true, false, [], ◌∷◌, ◌++◌, None, chars, filter, length, map};
ghost use Rattle.std.specs.Prelude.{flat_map, slice_set, IfOk, IfSome, OnOk, OnErr};
ghost use Rattle.std.specs.List.{AllByRecursion};
ghost use Rattle.text_model.specs.LimitTable.{LimitTable, AreLimits};
ghost use Rattle.text_model.specs.Lines.{lines};
ghost use Rattle.text_model.specs.declared.limits.TheConstants.Limits.{MOST_WIDGETS};
ghost use Rattle.tcl_words.specs.Unread.{texts_of};
ghost use Rattle.command_effects.specs.Settings.{is_behind};
ghost use Rattle.command_effects.specs.Words.{is_among};
ghost use Rattle.reports.specs.Cells.{characters};
ghost use Rattle.documents.specs.Kept.{is_window_name};
ghost use Rattle.documents.specs.MarksTold.{marks_dropped};
ghost use Rattle.documents.specs.Options.{AreLines};
ghost use Rattle.documents.specs.WellFormed.{IsWellFormedDocument};
ghost use Rattle.documents.specs.Widgets.{keeps_some, new_document, with_peer, without_widgets};
ghost use Rattle.peers.specs.Step.{has_widgets};
ghost use Rattle.peers.specs.Windows.{homes_of};
ghost use Rattle.peers.specs.World.{IsAt, document_at, home, windows_of};

use crate::windows::Windows;
use command_effects::Settings;
use documents::{Document, MarkList, drop_widgets};
use std::alloc::{AllocError, Global};
use text_model::TextStore;

/// The documents, and where they take their memory from.
#[derive(Drop)]
pub struct Documents<S: TextStore> {
    pub alloc: Global,
    pub list: Vec<Document<S>>,
}

/// Takes out the documents that keep no widget but of these names.
fn drop_empty<S: TextStore>(documents: &mut Vec<Document<S>>, names: &[String])
    ensures { documents.new.items ≡ filter (keeps_some (texts_of names.now)) documents.old.items }
{
    let mut place = 0;
    while place < documents.len() {
        if documents[place].keeps_some(names) {
            place += 1;
        } else {
            documents.remove(place);
        }
    }
}

impl<S: TextStore> Documents<S> {
    /// No documents. It takes no memory.
    pub fn new(alloc: Global) -> Self
        ensures { result.list.items ≡ [] }
    {
        Documents {
            alloc,
            list: Vec::new(alloc),
        }
    }

    /// Finds the widget of a name. Returns the position of its document and its seat there.
    pub fn find(&self, name: &str) -> Option<(usize, usize)>
        ensures none { result ≡ None → home (chars name.now) self.now.list.items ≡ None }
        ensures some { IfSome result (λ found. IsAt (chars name.now) self.now.list.items found.0 found.1) }
    {
        for place in 0..self.list.len() {
            if let Some(seat) = self.list[place].find_widget(name) {
                return Some((place, seat));
            }
        }
        None
    }

    /// Returns the number of widgets of all documents.
    pub fn widget_count(&self) -> usize
        requires { length (windows_of self.now.list.items) ≤ MOST_WIDGETS }
        ensures { result ≡ length (windows_of self.now.list.items) }
    {
        let mut count = 0;
        for place in 0..self.list.len() {
            count += self.list[place].widget_count();
        }
        count
    }

    /// Returns where each widget is.
    pub fn homes(&self) -> Result<Windows, AllocError>
        ensures { IfOk result (λ homes. homes ≡ homes_of self.now.list.items) }
    {
        let mut homes = Windows::new(self.alloc);
        for place in 0..self.list.len() {
            homes.push_widgets(self.alloc, &self.list[place], place)?;
        }
        Ok(homes)
    }

    /// Makes a document, with a widget of a name that no widget has, and options.
    pub fn add(&mut self, name: &str, settings: Settings) -> Result<(), AllocError>
        requires named { is_window_name (chars name.now) ≡ true }
        requires lines { AreLines 1 settings }
        requires ordered { is_behind settings.start settings.end ≡ false }
        ensures ok { OnOk result (self.new.list.items ≡ self.old.list.items ++ new_document (chars name.now) settings
            ∷ []) }
        ensures err { OnErr result (self.new.list.items ≡ self.old.list.items) }
        ensures well_formed { (limits : LimitTable) → AreLimits limits
            → AllByRecursion (IsWellFormedDocument limits) self.old.list.items
            → AllByRecursion (IsWellFormedDocument limits) self.new.list.items }
    {
        self.list.push(Document::new(self.alloc, name, settings)?)?;
        Ok(())
    }

    /// Makes a further widget of the document at a place, of a name that no widget has, and gives it and the document
    /// options.
    pub fn add_peer(
        &mut self,
        place: usize,
        name: &str,
        settings: Settings,
    ) -> Result<(), AllocError>
        requires place { place < length self.old.list.items }
        requires named { is_window_name (chars name.now) ≡ true }
        requires new { is_among (chars name.now) (windows_of self.old.list.items) ≡ false }
        requires few { length (windows_of self.old.list.items) < MOST_WIDGETS }
        requires lines { AreLines (lines (characters (document_at self.old.list.items place).cells)) settings }
        requires ordered { is_behind settings.start settings.end ≡ false }
        ensures ok { OnOk result (self.new.list.items ≡ slice_set self.old.list.items place
            (with_peer (chars name.now) settings (document_at self.old.list.items place))) }
        ensures err { OnErr result (self.new.list.items ≡ self.old.list.items) }
        ensures well_formed { (limits : LimitTable)
            → AllByRecursion (IsWellFormedDocument limits) self.old.list.items
            → AllByRecursion (IsWellFormedDocument limits) self.new.list.items }
    {
        self.list[place].add_widget(name, settings)
    }

    /// Returns the marks of the widgets of these names, document by document, as they go with `drop_widgets`.
    pub fn list_dropped(&self, names: &[String]) -> Result<MarkList, AllocError>
        ensures { IfOk result (λ marks.
            marks ≡ flat_map (marks_dropped (texts_of names.now)) self.now.list.items) }
    {
        let mut marks = MarkList::new(self.alloc);
        for place in 0..self.list.len() {
            self.list[place].list_dropped(&mut marks, names)?;
        }
        Ok(marks)
    }

    /// Takes the widgets of these names out, and with its last widget each document. Unknown names are skipped. Where
    /// memory is refused, all stay.
    pub fn drop_widgets(&mut self, names: &[String]) -> Result<(), AllocError>
        ensures ok { OnOk result (self.new.list.items
            ≡ filter has_widgets (map (without_widgets (texts_of names.now)) self.old.list.items)) }
        ensures err { OnErr result (self.new.list.items ≡ self.old.list.items) }
        ensures well_formed { (limits : LimitTable)
            → AllByRecursion (IsWellFormedDocument limits) self.old.list.items
            → AllByRecursion (IsWellFormedDocument limits) self.new.list.items }
    {
        drop_widgets(&mut self.list, names)?;
        drop_empty(&mut self.list, names);
        Ok(())
    }
}
