//! Adds widgets to a document, lists them, and removes them with their marks and selections.

ghost use Rattle.std.specs.Prelude.{◌≡◌, true, Some, ◌-◌, ◌<◌, length, chars, map, Ok, Err, IfOk};
ghost use Rattle.std.specs.Prelude.{OnOk, OnErr};
ghost use Rattle.std.specs.List.{AllByRecursion};
ghost use Rattle.text_model.specs.LimitTable.{LimitTable};
ghost use Rattle.documents.specs.Documents.{widget_at};
ghost use Rattle.documents.specs.Widgets.{keeps_some, thinned, with_peer};
ghost use Rattle.documents.specs.Kept.{is_window_name};
ghost use Rattle.documents.specs.WellFormed.{IsWellFormedDocument, window_names};
ghost use Rattle.tcl_words.specs.ListText.{list_text};
ghost use Rattle.tcl_words.specs.Unread.{texts_of};
ghost use Rattle.command_effects.specs.Words.{is_among};
ghost use Rattle.documents.specs.Options.{AreLines};
ghost use Rattle.command_effects.specs.Settings.{is_behind};
ghost use Rattle.text_model.specs.Lines.{lines};
ghost use Rattle.text_model.specs.Content as model;
ghost use Rattle.text_model.specs.declared.limits.TheConstants.Limits.{MOST_WIDGETS};
ghost use Rattle.reports.specs.Cells.{characters};
ghost use Rattle.command_effects.specs.Words.{is_same};
ghost use Rattle.std.specs.Prelude.{false, filter, not};

use crate::documents::Document;
use crate::options::anchor_at;
use crate::seats::{make_seat, push_other_seats, remove_seats, slots_named, some_left};
use command_effects::{Settings, prepare_drop};
use edit_ops::Anchors;
use std::alloc::AllocError;
use text_model::{Limits, Text, TextStore};

impl<S: TextStore> Document<S> {
    /// How many lines the document has.
    pub fn lines(&self) -> usize
        ensures { result ≡ lines (characters self.now.cells) }
    {
        self.text.store.lines()
    }

    /// Makes a further widget of a name that no widget has, and gives it and the document options.
    pub fn add_widget(&mut self, name: &str, settings: Settings) -> Result<(), AllocError>
        requires named { is_window_name (chars name.now) ≡ true }
        requires new { is_among (chars name.now) (window_names self.old) ≡ false }
        requires few { length self.old.widgets < MOST_WIDGETS }
        requires lines { AreLines (lines (characters self.old.cells)) settings }
        requires ordered { is_behind settings.start settings.end ≡ false }
        ensures ok { OnOk result (self.new ≡ with_peer (chars name.now) settings self.old) }
        ensures err { OnErr result (self.new ≡ self.old) }
        ensures well_formed { (limits : LimitTable) → IsWellFormedDocument limits self.old →
            IsWellFormedDocument limits self.new }
    {
        let start = anchor_at(&self.text.store, settings.start);
        let end = anchor_at(&self.text.store, settings.end);
        let front = self.seats.len();
        let made = make_seat(
            self.alloc,
            &mut self.seats,
            &mut self.disabled,
            &mut self.text,
            name,
            start.unwrap_or(0),
        );
        match made {
            Err(error) => {
                self.seats.truncate(front);
                Err(error)
            }
            Ok(slot) => {
                self.text.anchors[slot] = Anchors { start, end };
                self.disabled[slot] = settings.disabled;
                settings.document.bound(&mut self.text.history);
                self.settings = settings.document;
                Ok(())
            }
        }
    }

    /// The names of the other widgets as a list, by their creation.
    pub fn other_widgets(&self, seat: usize) -> Result<Text, AllocError>
        requires { seat < length self.now.widgets }
        ensures { IfOk result (λ list. list
            ≡ list_text (filter (λ name. not (is_same name (widget_at self.now seat).name))
            (window_names self.now))) }
    {
        let mut list = String::new(self.alloc);
        push_other_seats(&mut list, &self.seats, self.seats.name(seat))?;
        Ok(Text::new(list))
    }

    /// Whether some widget isn't of these names.
    pub fn keeps_some(&self, names: &[String]) -> bool
        ensures { result ≡ keeps_some (texts_of names.now) self.now }
    {
        some_left(&self.seats, names)
    }

    /// Takes the widgets of these names out of the document and of others, as `drop_widgets` does.
    #[cycle(drop)]
    fn drop_with(&mut self, others: &mut [Document<S>], names: &[String]) -> Result<(), AllocError>
        ensures ok { OnOk result (self.new ≡ thinned (texts_of names.now) self.old) }
        ensures others { OnOk result (others.new ≡ map (thinned (texts_of names.now)) others.old) }
        ensures err { OnErr result ((self.new ≡ self.old) × (others.new ≡ others.old)) }
        ensures well_formed { (limits : LimitTable) → IsWellFormedDocument limits self.old →
            IsWellFormedDocument limits self.new }
        ensures all { (limits : LimitTable) → AllByRecursion (IsWellFormedDocument limits) others.old
            → AllByRecursion (IsWellFormedDocument limits) others.new }
    {
        if !self.keeps_some(names) {
            return drop_widgets(others, names);
        }
        let slots = slots_named(self.alloc, &self.seats, names)?;
        let change = prepare_drop(self.alloc, &mut self.text.store, &slots)?;
        drop_widgets(others, names)?;
        self.text.store.commit(change);
        remove_seats(&mut self.seats, names);
        Ok(())
    }
}

/// Takes the widgets of these names out of each document that has others too, with their own marks and their
/// selections. Unknown names are skipped. What this changes in all documents is prepared before any of them changes.
#[cycle(drop)]
pub fn drop_widgets<S: TextStore>(
    documents: &mut [Document<S>],
    names: &[String],
) -> Result<(), AllocError>
    ensures ok { OnOk result (documents.new ≡ map (thinned (texts_of names.now)) documents.old) }
    ensures err { OnErr result (documents.new ≡ documents.old) }
    ensures well_formed { (limits : LimitTable) → AllByRecursion (IsWellFormedDocument limits) documents.old
        → AllByRecursion (IsWellFormedDocument limits) documents.new }
{
    match documents.split_first_mut() {
        None => Ok(()),
        Some((first, others)) => first.drop_with(others, names),
    }
}
