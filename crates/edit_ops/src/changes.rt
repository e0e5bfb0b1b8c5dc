//! The changes of a text that the hunks of an edit make, with offsets and spots, the last change first.

ghost use Rattle.std.specs.Prelude.{◌≡◌, ◌+◌, ◌-◌, ◌≤◌, ◌^◌, ◌++◌, ℕ, List, [], length, IfOk};
ghost use Rattle.edit_ops.specs.Told.{end_of, hunk_changes, patched, AreHunks, HasRoom, Tells};
ghost use Rattle.text_model.specs.Content.{characters};

use crate::hunks::Hunk;
use crate::spot_walks::SpotWalk;
use crate::spots::Spot;
use std::alloc::{AllocError, Global};
use std::marker::Model;
use text_model::{Text, TextStore};

/// A change of a text: at an offset, in characters, `removed` characters were deleted, and `inserted` was put in their
/// place.
#[derive(Drop)]
pub struct TextChange {
    pub at: usize,
    pub removed: usize,
    pub inserted: Text,
    /// Where the change begins.
    pub start: Spot,
    /// Where what was deleted ends, in the text before the change.
    pub old_end: Spot,
    /// Where what was inserted ends, in the text after the change.
    pub new_end: Spot,
}

/// Changes of a text in order, each of the text that those before it leave. None is a no-op.
/// Contracts see a list.
#[derive(Drop)]
pub struct ChangeList {
    alloc: Global,
    changes: Vec<TextChange>,
}

impl Model for ChangeList {
    ghost use Rattle.std.specs.Prelude.{List};
    ghost use Rattle.std.specs.Coded.{codes};
    ghost use Rattle.edit_ops.specs.declared.changes.TextChange.{TextChange};

    ghost Value = { List TextChange };

    ghost coded = { Prim.hlevel codes };

    ghost view = { λ l. l.changes.items };
}

impl ChangeList {
    /// No changes. It takes no memory.
    pub fn new(alloc: Global) -> ChangeList
        ensures { result ≡ [] }
    {
        ChangeList {
            alloc,
            changes: Vec::new(alloc),
        }
    }

    pub fn as_slice(&self) -> &[TextChange]
        ensures { result.now ≡ self.now }
    {
        self.changes.as_slice()
    }
}

/// The change that a hunk makes of a text as long as nothing before its end is changed: it begins at one spot, and what
/// it takes out ends at another one.
fn change_of(hunk: Hunk, start: Spot, old_end: Spot) -> TextChange
    requires ordered { hunk.from ≤ hunk.to }
    requires room { HasRoom start (2 ^ 63) }
    ensures { (before : List ℕ) → start ≡ end_of before → result ≡ record {
      at = hunk.from;
      removed = hunk.to - hunk.from;
      inserted = hunk.text;
      start = start;
      old_end = old_end;
      new_end = end_of (before ++ hunk.text);
    } }
{
    let new_end = start.behind(hunk.text.as_str());
    TextChange {
        at: hunk.from,
        removed: hunk.to - hunk.from,
        inserted: hunk.text,
        start,
        old_end,
        new_end,
    }
}

/// Returns the changes that hunks of a text make, the last hunk's first, so that each is at its offset in the text as
/// it is now.
pub fn tell<S: TextStore>(
    alloc: Global,
    store: &S,
    hunks: Vec<Hunk>,
) -> Result<ChangeList, AllocError>
    requires stand { AreHunks 0 (length (S.content store.now).cells) hunks.items }
    requires short { length (S.content store.now).cells ≤ 2 ^ 60 }
    ensures changes { IfOk result (λ told. told ≡ hunk_changes (characters (S.content store.now).cells) hunks.items) }
    ensures tells { IfOk result (λ told. Tells told (characters (S.content store.now).cells)
        (patched 0 hunks.items (characters (S.content store.now).cells))) }
{
    let mut changes = Vec::with_capacity(alloc, hunks.len())?;
    let mut walk = SpotWalk::new();
    for hunk in hunks {
        let start = walk.to(store, hunk.from)?;
        walk = start.to(store, hunk.to)?;
        changes.push(change_of(hunk, start.spot, walk.spot))?;
    }
    changes.reverse();
    Ok(ChangeList { alloc, changes })
}
