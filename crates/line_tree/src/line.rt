//! Returns a line of the tree by its name.

use crate::tree::LineTree;
use raw_nodes::{NodePtr, Ticks};
use segments::Line;

impl<C: Ticks> LineTree<C> {
    ghost use Rattle.std.specs.Prelude.{◌≡◌, ℕ, Some, slice_get};
    ghost use Rattle.line_tree.specs.Places.{IsLineAt};

    /// A line, lent.
    pub fn line(&self, name: NodePtr) -> &Line
        requires { (k : ℕ) × IsLineAt self.now.lines k name }
        ensures { (k : ℕ) → IsLineAt self.now.lines k name → slice_get self.now.lines k ≡ Some (name, result.now) }
    {
        self.store.line(name).unwrap()
    }
}
