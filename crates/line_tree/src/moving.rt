//! Moves a mark from one line of a tree to another.

ghost use Rattle.std.specs.Prelude.{◌≡◌, ℕ, MatchOption, OnErr, OnOk, Some, slice_get};
ghost use Rattle.segments.specs.Columns.{LineContent};
ghost use Rattle.line_lists.specs.Lists.{AreLines};
ghost use Rattle.line_tree.specs.MarkTable.{IsTable};
ghost use Rattle.line_tree.specs.Moving.{CanMove, IsAloneAt, IsElsewhere, moved_to};
ghost use Rattle.line_tree.specs.Places.{IsLineAt};
ghost use Rattle.line_tree.specs.Trees.{contents};

use crate::mark_names::name_of;
use crate::tree::LineTree;
use line_lists::MarkEdit;
use raw_nodes::{NodePtr, Steps};
use std::alloc::AllocError;
use text_model::{MarkNo, Place};

/// The name of the line in which the mark of a number is, unless that is the line with this name.
fn other_line(
    tree: &LineTree<Steps>,
    names: &[Option<NodePtr>],
    number: MarkNo,
    name: NodePtr,
) -> Option<NodePtr>
    requires named { (k : ℕ) × IsLineAt tree.now.lines k name }
    requires lines { AreLines (contents tree.now.lines) }
    requires table { IsTable names.now tree.now.lines }
    ensures { (k : ℕ) → IsLineAt tree.now.lines k name →
        MatchOption result (IsAloneAt number.0 k tree.now.lines) (IsElsewhere number.0 k tree.now.lines) }
{
    if tree.line(name).mark_place(number).is_some() {
        return None;
    }
    name_of(names, number)
}

/// Puts the mark of a number at a place of the line with a name, and then takes it off the line where it was. If memory
/// is refused, all is as it was.
pub fn move_mark(
    tree: &mut LineTree<Steps>,
    names: &[Option<NodePtr>],
    number: MarkNo,
    name: NodePtr,
    place: Place,
) -> Result<(), AllocError>
    requires can { CanMove tree.old.lines number.0 name place }
    requires lines { AreLines (contents tree.old.lines) }
    requires table { IsTable names.now tree.old.lines }
    ensures made { OnOk result ((k : ℕ) (line : LineContent) → slice_get tree.old.lines k ≡ Some (name, line) →
        tree.new.lines ≡ moved_to number.0 k place line tree.old.lines) }
    ensures refused { OnErr result (tree.new.lines ≡ tree.old.lines) }
{
    let old = other_line(tree, names, number, name);
    tree.edit_named(name, &MarkEdit { number, place }, &mut Steps::new())?;
    if let Some(old) = old {
        tree.take_mark_named(old, number, &mut Steps::new());
    }
    Ok(())
}
