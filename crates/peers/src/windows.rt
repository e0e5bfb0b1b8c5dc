//! Where the widgets were at one time, for a report that is read after they are gone. The world itself keeps no such
//! list: it asks its documents.

ghost use Rattle.std.specs.Prelude.{◌≡◌, ◌++◌, [], length, chars, OnOk};
ghost use Rattle.documents.specs.WellFormed.{window_names};
ghost use Rattle.peers.specs.Windows.{home_in, homes_at};

use command_effects::is_word;
use documents::Document;
use std::alloc::{AllocError, Global};
use std::marker::Model;
use text_model::TextStore;

/// The names of widgets, each with the position of its document, in the order of the documents.
#[derive(Drop)]
pub struct Windows {
    homes: Vec<(String, usize)>,
}

impl Model for Windows {
    ghost use Rattle.std.specs.Prelude.{map};
    ghost use Rattle.peers.specs.Windows.{Homes, home_kept};

    ghost Value = { Homes };

    ghost view = { λ w. map home_kept w.homes.items };
}

impl Windows {
    /// Returns an empty list, without allocating.
    pub fn new(alloc: Global) -> Windows
        ensures { result ≡ [] }
    {
        Windows {
            homes: Vec::new(alloc),
        }
    }

    /// Returns the number of widgets.
    pub fn len(&self) -> usize
        ensures { result ≡ length self.now }
    {
        self.homes.len()
    }

    /// Returns the position of the document that the widget of a name showed.
    pub fn home(&self, name: &str) -> Option<usize>
        ensures { result ≡ home_in (chars name.now) self.now }
    {
        for index in 0..self.homes.len() {
            let (other, place) = &self.homes[index];
            if is_word(name, other.as_str()) {
                return Some(*place);
            }
        }
        None
    }

    /// Appends the widgets of a document at a position.
    pub(crate) fn push_widgets<S: TextStore>(
        &mut self,
        alloc: Global,
        document: &Document<S>,
        place: usize,
    ) -> Result<(), AllocError>
        ensures { OnOk result (self.new ≡ self.old ++ homes_at place (window_names document.now)) }
    {
        for seat in 0..document.widget_count() {
            let name = String::from_str(alloc, document.widget_name(seat))?;
            self.homes.push((name, place))?;
        }
        Ok(())
    }
}
