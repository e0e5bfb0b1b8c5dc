//! Marks, as they are reported: those that the reported changes of the text alone don't take to where they are.

ghost use Rattle.std.specs.Prelude.{◌≡◌, ◌++◌, ◌∷◌, [], None, chars, length, map, option_map, IfOk, OnOk};
ghost use Rattle.documents.specs.MarksListed.{all_carried_within, carried_within, mark_taken};

use edit_ops::TextChange;
use std::alloc::{AllocError, Global};
use std::marker::Model;
use text_model::{Place, Text};

/// A widget's own `insert` or `current`, or a mark that all widgets of a document share.
#[derive(Clone, Copy)]
pub enum MarkKind {
    Insert,
    Current,
    Shared,
}

/// The key of a mark: of a widget's own mark by the widget's name, of a shared one by the mark's name.
#[derive(Drop)]
pub struct MarkKey {
    pub kind: MarkKind,
    pub name: Text,
}

/// Where a mark was before a command, and where it is after it, with its gravity; None of a mark that is new, or gone.
#[derive(Drop)]
pub struct MarkChange {
    pub key: MarkKey,
    pub old: Option<Place>,
    pub new: Option<Place>,
}

/// Marks, each once. Contracts see a list.
#[derive(Drop)]
pub struct MarkList {
    alloc: Global,
    pub(crate) marks: Vec<MarkChange>,
}

impl Model for MarkList {
    ghost use Rattle.std.specs.Prelude.{List};
    ghost use Rattle.std.specs.Coded.{codes};
    ghost use Rattle.documents.specs.declared.mark_lists.MarkChange.{MarkChange};
    ghost use Rattle.text_model.specs.contracts.places.Place as place;

    ghost Value = { List MarkChange };

    ghost coded = { Prim.hlevel codes };

    ghost view = { λ l. l.marks.items };
}

/// Returns the number of characters of a text.
fn count(text: &str) -> usize
    ensures { result ≡ length (chars text.now) }
{
    text.chars().count()
}

/// Returns where a change of the text, which inserts `count` characters, takes a mark. An offset past `usize::MAX` is
/// `usize::MAX`.
fn carried(place: Place, change: &TextChange, count: usize) -> Place
    requires { count ≡ length change.now.inserted }
    ensures { result ≡ carried_within usize.MAX change.now place }
{
    let end = change.at.saturating_add(change.removed);
    let drawn = place.drawn(change.at, end);
    if drawn.offset > usize::MAX - count {
        return Place {
            offset: usize::MAX,
            gravity: drawn.gravity,
        };
    }
    drawn.moved(change.at, count)
}

/// Returns the same for a mark that may not be there.
fn carried_if(place: Option<Place>, change: &TextChange, count: usize) -> Option<Place>
    requires { count ≡ length change.now.inserted }
    ensures { result ≡ option_map (carried_within usize.MAX change.now) place }
{
    Some(carried(place?, change, count))
}

impl MarkKey {
    pub fn new(alloc: Global, kind: MarkKind, name: &str) -> Result<MarkKey, AllocError>
        ensures { IfOk result (λ key. key ≡ record { kind = kind; name = chars name.now }) }
    {
        let name = Text::new(String::from_str(alloc, name)?);
        Ok(MarkKey { kind, name })
    }
}

impl MarkList {
    /// No marks. It allocates nothing.
    pub fn new(alloc: Global) -> MarkList
        ensures { result ≡ [] }
    {
        MarkList {
            alloc,
            marks: Vec::new(alloc),
        }
    }

    pub fn as_slice(&self) -> &[MarkChange]
        ensures { result.now ≡ self.now }
    {
        self.marks.as_slice()
    }

    /// Adds a mark that is at a place, or isn't there.
    pub(crate) fn push(&mut self, key: MarkKey, place: Option<Place>) -> Result<(), AllocError>
        ensures { OnOk result (self.new ≡ self.old ++ record { key = key; old = place; new = place } ∷ []) }
    {
        self.marks.push(MarkChange {
            key,
            old: place,
            new: place,
        })?;
        Ok(())
    }

    /// Adds a mark that was at a place, or wasn't there, and is gone.
    pub(crate) fn push_gone(&mut self, key: MarkKey, place: Option<Place>) -> Result<(), AllocError>
        ensures { OnOk result (self.new ≡ self.old ++ record { key = key; old = place; new = None } ∷ []) }
    {
        self.marks.push(MarkChange {
            key,
            old: place,
            new: None,
        })?;
        Ok(())
    }

    /// Takes each mark to where a change of the text alone takes it.
    fn carry(&mut self, change: &TextChange)
        ensures { self.new ≡ map (mark_taken (carried_within usize.MAX change.now)) self.old }
    {
        let count = count(change.inserted.as_str());
        for mark in self.marks.iter_mut() {
            mark.new = carried_if(mark.new, change, count);
        }
    }

    /// Takes each mark to where changes of the text alone take it.
    pub(crate) fn carry_all(&mut self, changes: &[TextChange])
        ensures { self.new ≡ map (mark_taken (all_carried_within usize.MAX changes.now)) self.old }
    {
        if self.marks.is_empty() {
            return;
        }
        for change in changes {
            self.carry(change);
        }
    }
}
