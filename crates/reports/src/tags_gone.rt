//! The changes of tags where tags are deleted, by their names.

ghost use Rattle.std.specs.Prelude.{◌≡◌, ℕ, ◌+◌, ◌<◌, ◌++◌, ◌∷◌, [], Some, false, IfOk, List, OnOk};
ghost use Rattle.name_list.specs.Names.{Named};
ghost use Rattle.tcl_words.specs.Unread.{texts_of};
ghost use Rattle.tag_table.specs.Tags.{AreTags};
ghost use Rattle.reports.specs.Slots.{AreSeats};
ghost use Rattle.reports.specs.TagsGone.{AreGone, TellsGone};
ghost use Rattle.reports.specs.TagsTold.{AreGapped};

use crate::keys::Key;
use crate::tag_lists::TagList;
use edit_ops::Span;
use std::alloc::{AllocError, Global};
use tag_table::TagTable;
use text_model::{TagSet, TextStore};

/// Tells that the tag of a name goes, unless it is `sel`, unknown, or has gone already.
fn push_gone<S: TextStore>(
    told: &mut TagList,
    seen: &mut TagSet,
    store: &S,
    tags: &TagTable,
    key: &Key,
) -> Result<(), AllocError>
    requires sound { AreTags tags.now }
    requires shared { key.now.selects ≡ false }
    ensures { OnOk result ((seats : List Named) (names : List (List ℕ)) → AreSeats seats →
        AreGone seats tags.now (S.content store.now).cells names seen.old told.old →
        AreGone seats tags.now (S.content store.now).cells (names ++ key.now.name ∷ []) seen.new told.new) }
{
    let Some(slot) = tags.find(key.name.as_str()) else {
        return Ok(());
    };
    if slot.0 == 0 || seen.has(slot) {
        return Ok(());
    }
    *seen = seen.with(slot);
    let to = store.len();
    told.push_unlike(store, slot, key, Span { from: 0, to }, false)?;
    Ok(())
}

/// Returns the changes where the tags of some names are deleted.
pub fn tell_gone<S: TextStore>(
    alloc: Global,
    store: &S,
    tags: &TagTable,
    names: &[String],
) -> Result<TagList, AllocError>
    requires { AreTags tags.now }
    ensures { IfOk result (λ told. (seats : List Named) → AreSeats seats →
        TellsGone seats tags.now (S.content store.now).cells (texts_of names.now) told × AreGapped told) }
{
    let mut seen = TagSet::empty();
    let mut told = TagList::new(alloc);
    for name in names {
        let key = Key::new(alloc, false, name.as_str())?;
        push_gone(&mut told, &mut seen, store, tags, &key)?;
    }
    Ok(told)
}
