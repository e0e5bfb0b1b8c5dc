//! The fields of a document, how it is created, and its widgets by name and seat.

ghost use Rattle.std.specs.Prelude.{◌≡◌, true, None, Some, is_some, ◌-◌, ◌<◌, length, chars, Ok, IfOk, IfSome};
ghost use Rattle.text_model.specs.LimitTable.{LimitTable, AreLimits};
ghost use Rattle.documents.specs.Documents.{widget_at};
ghost use Rattle.documents.specs.Views.{is_idle};
ghost use Rattle.documents.specs.Widgets.{bare_document, new_document, widget_named};
ghost use Rattle.documents.specs.Kept.{is_window_name};
ghost use Rattle.documents.specs.WellFormed.{IsWellFormedDocument, window_names};
ghost use Rattle.text_model.specs.declared.limits.TheConstants.Limits.{MOST_TAGS};
ghost use Rattle.command_effects.specs.Words.{is_among};
ghost use Rattle.documents.specs.Options.{AreLines};
ghost use Rattle.command_effects.specs.Settings.{is_behind};
ghost use Rattle.text_model.specs.Lines.{lines};
ghost use Rattle.text_model.specs.declared.limits.TheConstants.Limits.{MOST_WIDGETS};
ghost use Rattle.std.specs.Prelude.{false};

use crate::views::{end_of, start_of};
use command_effects::{DocumentSettings, Settings};
use edit_ops::EditedText;
use mark_table::MarkTable;
use name_list::NameList;
use std::alloc::{AllocError, Global};
use std::marker::Model;
use tag_table::TagTable;
use text_model::{Limits, TextStore};
use undo_stack::UndoStack;

/// A document: the text with its history and the anchors of its widgets, its tags and its shared marks, its options,
/// and its widgets in the order of their creation. A call knows a widget by its seat, which is its place in that order.
/// Each widget has a slot, by which its `sel`, its anchors and its own two marks are found.
#[derive(Drop)]
pub struct Document<S: TextStore> {
    pub(crate) alloc: Global,
    pub(crate) seats: NameList,
    pub(crate) disabled: Vec<bool>,
    pub(crate) text: EditedText<S>,
    pub(crate) tags: TagTable,
    pub(crate) marks: MarkTable,
    pub(crate) settings: DocumentSettings,
}

impl<S: TextStore> Model for Document<S> {
    ghost use Rattle.std.specs.Coded.{codes};
    ghost use Rattle.std.specs.FinSet as set;
    ghost use Rattle.text_model.specs.contracts.places.Place as place;
    ghost use Rattle.reports.specs.Keys.{key_cmp, key_code};
    ghost use Rattle.documents.specs.Documents.{Document as DocumentState, document_of};
    ghost use Rattle.documents.specs.Kept.{IsSound};

    ghost Value = { DocumentState };

    ghost coded = { Prim.hlevel (codes, place.the_row.coded, set.code {R = key_cmp} key_code) };

    ghost use Rattle.documents.specs.Inside.{parts_of};

    ghost view = { λ d. document_of (parts_of S.content d) };

    ghost invariant = { λ d. IsSound (parts_of S.content d) };
}

/// The greatest limits that there are. A table of names is made for these, and a command counts by its own.
fn greatest_limits() -> Limits
    ensures tags { result.tags ≡ Limits.MOST_TAGS }
    ensures marks { result.marks ≡ Limits.MOST_MARKS }
{
    match Limits::new(
        Limits::MOST_CHARS,
        Limits::MOST_TAGS,
        Limits::MOST_MARKS,
        Limits::MOST_WIDGETS,
        u32::MAX,
    ) {
        Some(limits) => limits,
        None => unreachable!(),
    }
}

impl<S: TextStore> Document<S> {
    /// A document of one newline, that no widget shows yet.
    fn bare(alloc: Global) -> Result<Document<S>, AllocError>
        ensures value { IfOk result (λ document. document ≡ bare_document) }
        ensures well_formed { IfOk result (λ document.
            (limits : LimitTable) → AreLimits limits → IsWellFormedDocument limits document) }
    {
        let limits = greatest_limits();
        Ok(Document {
            alloc,
            seats: NameList::new(alloc, Limits::MOST_WIDGETS)?,
            disabled: Vec::new(alloc),
            text: EditedText {
                store: S::new(alloc)?,
                history: UndoStack::new(alloc),
                anchors: Vec::new(alloc),
            },
            tags: TagTable::new(alloc, &limits)?,
            marks: MarkTable::new(alloc, &limits)?,
            settings: DocumentSettings::new(),
        })
    }

    /// A document of one newline, which a widget of a name shows, with these options.
    pub fn new(alloc: Global, name: &str, settings: Settings) -> Result<Document<S>, AllocError>
        requires named { is_window_name (chars name.now) ≡ true }
        requires lines { AreLines 1 settings }
        requires ordered { is_behind settings.start settings.end ≡ false }
        ensures value { IfOk result (λ document. document ≡ new_document (chars name.now) settings) }
        ensures well_formed { IfOk result (λ document.
            (limits : LimitTable) → AreLimits limits → IsWellFormedDocument limits document) }
    {
        let mut document = Document::bare(alloc)?;
        document.add_widget(name, settings)?;
        Ok(document)
    }

    /// Where the document takes its memory from, for what a command makes before it calls the document. There is one
    /// `Global` alone, so its type says which.
    pub fn allocator(&self) -> Global {
        self.alloc
    }

    /// How many widgets there are.
    pub fn widget_count(&self) -> usize
        ensures { result ≡ length self.now.widgets }
    {
        self.seats.len()
    }

    /// Returns the name of the widget at a seat.
    pub fn widget_name(&self, seat: usize) -> &str
        requires { seat < length self.now.widgets }
        ensures { chars result.now ≡ (widget_at self.now seat).name }
    {
        self.seats.name(seat)
    }

    /// The seat of the widget of a name: its place in the order of their creation.
    pub fn find_widget(&self, name: &str) -> Option<usize>
        ensures none { result ≡ None → widget_named (chars name.now) self.now ≡ None }
        ensures some { IfSome result (λ seat. widget_named (chars name.now) self.now
            ≡ Some (widget_at self.now seat)) }
        ensures within { IfSome result (λ seat. seat < length self.now.widgets) }
        ensures named { is_some result ≡ is_among (chars name.now) (window_names self.now) }
    {
        self.seats.place(name)
    }

    /// Whether a widget leaves the text as it is: it is disabled, or its view is empty.
    pub fn is_idle(&self, seat: usize) -> bool
        requires { seat < length self.now.widgets }
        ensures { result ≡ is_idle self.now (widget_at self.now seat) }
    {
        let slot = self.seats.number(seat);
        if self.disabled[slot as usize] {
            return true;
        }
        start_of(&self.text.anchors, slot)
            == end_of(&self.text.anchors, slot, self.text.store.len())
    }
}
