//! Looks up the marks and tags that an index can name, with the widget's own `insert`, `current` and `sel`.

ghost use Rattle.std.specs.Prelude.{◌≡◌, ◌<◌, option_map, chars, IfSome};
ghost use Rattle.text_model.specs.declared.limits.TheConstants.Limits.{MOST_WIDGETS};
ghost use Rattle.text_model.specs.TagBits.{slot_count};
ghost use Rattle.index_grammar.specs.Names.{known_marks, known_tags};

use mark_table::MarkTable;
use tag_table::TagTable;
use text_model::{MarkNo, TagSlot};

/// The names that an index can have in it: the tags and the shared marks of a document, and the widget's own two marks
/// and its own `sel`, by the slot of that `sel`.
#[derive(Drop)]
pub struct Names<'a> {
    pub tags: &'a TagTable,
    pub marks: &'a MarkTable,
    pub widget: TagSlot,
}

impl<'a> Names<'a> {
    /// The mark that a name means: `insert` and `current` are the widget's own.
    pub fn mark(&self, name: &str) -> Option<MarkNo>
        requires { self.now.widget.0 < MOST_WIDGETS }
        ensures { option_map (λ number. number.0) result
            ≡ known_marks self.now.marks.now.marks self.now.widget.0 (chars name.now) }
    {
        if name == "insert" {
            return Some(MarkNo(2 * self.widget.0));
        }
        if name == "current" {
            return Some(MarkNo(2 * self.widget.0 + 1));
        }
        self.marks.find(name)
    }

    /// The tag that a name means: `sel` is the widget's own.
    pub fn tag(&self, name: &str) -> Option<TagSlot>
        ensures value { option_map (λ slot. slot.0) result
            ≡ known_tags self.now.tags.now.tags self.now.widget.0 (chars name.now) }
        ensures bound { self.now.widget.0 < slot_count → IfSome result (λ slot. slot.0 < slot_count) }
    {
        match self.tags.find(name) {
            Some(TagSlot(0)) => Some(self.widget),
            found => found,
        }
    }
}
