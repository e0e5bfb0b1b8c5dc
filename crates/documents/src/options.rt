//! Reads and sets the options of a document and a widget; the view's bounds are given as lines.

ghost use Rattle.std.specs.Prelude.{◌≡◌, ◌+◌, ◌-◌, ◌<◌, ◌≤◌, false, length, option_map, Ok, IfSome};
ghost use Rattle.command_effects.specs.declared.answers.Answer.TheVariants.{Empty};
ghost use Rattle.command_effects.specs.Settings.{is_behind};
ghost use Rattle.reports.specs.Cells.{characters};
ghost use Rattle.documents.specs.Documents.{widget_at};
ghost use Rattle.documents.specs.Options.{AreLines, IsLine, settings_of, with_settings};
ghost use Rattle.documents.specs.Promise.{Does, answered};
ghost use Rattle.text_model.specs.Content as model;
ghost use Rattle.text_model.specs.LimitTable.{LimitTable};
ghost use Rattle.text_model.specs.Lines.{line_of, line_start, lines};

use crate::documents::Document;
use command_effects::{Answer, Settings};
use edit_ops::Anchors;
use text_model::TextStore;

/// Where a line begins, by its number counted from 1.
pub fn anchor_at<S: TextStore>(store: &S, line: Option<usize>) -> Option<usize>
    requires { IfSome line (IsLine (lines (model.characters (S.content store.now).cells))) }
    ensures { result ≡ option_map (λ line. line_start (line - 1) (model.characters (S.content store.now).cells)) line }
{
    let line = line?;
    Some(store.line_start(line - 1))
}

/// The number of the line that begins at an anchor, counted from 1.
fn line_at<S: TextStore>(store: &S, anchor: Option<usize>) -> Option<usize>
    requires within { IfSome anchor (λ anchor. anchor ≤ length (S.content store.now).cells) }
    requires short { length (S.content store.now).cells < usize.MAX }
    ensures { result ≡ option_map (λ anchor. line_of (model.characters (S.content store.now).cells) anchor + 1) anchor }
{
    let anchor = anchor?;
    Some(store.line_of(anchor) + 1)
}

impl<S: TextStore> Document<S> {
    /// The options of the document and a widget.
    pub fn settings(&self, seat: usize) -> Settings
        requires { seat < length self.now.widgets }
        ensures value { result ≡ settings_of self.now (widget_at self.now seat) }
        ensures lines { AreLines (lines (characters self.now.cells)) result }
    {
        let slot = self.seats.number(seat) as usize;
        let anchors = self.text.anchors[slot];
        Settings {
            document: self.settings,
            disabled: self.disabled[slot],
            start: line_at(&self.text.store, anchors.start),
            end: line_at(&self.text.store, anchors.end),
        }
    }

    /// Gives the document and a widget options.
    pub fn put_settings(&mut self, seat: usize, settings: Settings) -> Answer
        requires shown { seat < length self.old.widgets }
        requires lines { AreLines (lines (characters self.old.cells)) settings }
        requires ordered { is_behind settings.start settings.end ≡ false }
        ensures { (limits : LimitTable) → Does limits self.old self.new (Ok result)
            (answered (with_settings (widget_at self.old seat) settings self.old) Empty) }
    {
        let slot = self.seats.number(seat) as usize;
        let start = anchor_at(&self.text.store, settings.start);
        let end = anchor_at(&self.text.store, settings.end);
        self.text.anchors[slot] = Anchors { start, end };
        self.disabled[slot] = settings.disabled;
        settings.document.bound(&mut self.text.history);
        self.settings = settings.document;
        Answer::Empty
    }
}
