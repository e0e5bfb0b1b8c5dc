//! Reports of commands that change tags.

ghost use Rattle.std.specs.Prelude.{◌≡◌, ◌<◌, [], Some, true, chars, length, IfOk};
ghost use Rattle.std.specs.List.{All};
ghost use Rattle.tcl_words.specs.Unread.{texts_of};
ghost use Rattle.edit_ops.specs.Tagging.{SpanFits};
ghost use Rattle.documents.specs.Documents.{widget_at};
ghost use Rattle.reports.specs.Cells.{with_tag};
ghost use Rattle.documents.specs.Names.{key_of};
ghost use Rattle.documents.specs.Tags.{tag_delete};
ghost use Rattle.reports.specs.Told.{TellsCells};
ghost use Rattle.documents.specs.Told.{Foretells};

use crate::callers::Caller;
use crate::documents::Document;
use command_effects::find_tag;
use edit_ops::{Span, union};
use reports::{EditTold, Key, TagList, tell_gone};
use std::alloc::AllocError;
use text_model::{TagSlot, TextStore};

impl<S: TextStore> Document<S> {
    /// Returns what it changes to add the tag of a name, as a widget knows it, to spans, or to remove it from them.
    pub(crate) fn span_tags(
        &self,
        caller: &Caller<'_>,
        name: &str,
        spans: &[Span],
        on: bool,
    ) -> Result<EditTold, AllocError>
        requires shown { caller.now.seat < length self.now.widgets }
        requires fit { All (SpanFits (length self.now.cells)) spans.now }
        ensures { let key = key_of (widget_at self.now caller.now.seat) (chars name.now) in
            caller.now.follows ≡ true → IfOk result
            (TellsCells [] self.now.cells (with_tag key on spans.now self.now.cells)) }
    {
        if !caller.follows {
            return Ok(EditTold::nothing(self.alloc));
        }
        let mut tags = TagList::new(self.alloc);
        let key = Key::named(self.alloc, self.widget_name(caller.seat), name)?;
        let runs = union(self.alloc, spans)?;
        match find_tag(&self.tags, TagSlot(self.seats.number(caller.seat)), name) {
            Some(slot) => tags.push_spans(&self.text.store, slot, &key, &runs, on)?,
            None => tags.push_whole(&key, &runs, on)?,
        }
        Ok(EditTold::of_tags(self.alloc, tags))
    }

    /// What `delete_tags` changes.
    pub(crate) fn told_tag_delete(
        &self,
        caller: &Caller<'_>,
        names: &[String],
    ) -> Result<EditTold, AllocError>
        ensures { caller.now.follows ≡ true → IfOk result (λ told.
            Foretells self.now (tag_delete self.now (texts_of names.now)) told) }
    {
        if !caller.follows {
            return Ok(EditTold::nothing(self.alloc));
        }
        let tags = tell_gone(self.alloc, &self.text.store, &self.tags, names)?;
        Ok(EditTold::of_tags(self.alloc, tags))
    }
}
