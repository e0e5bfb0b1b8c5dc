//! Removes a mark from a line by its name, and updates the mark counts from that line up to the root.

ghost use Rattle.std.specs.Prelude.{◌≡◌, ℕ};
ghost use Rattle.toggle_sums.specs.Counts.{counting, no_text};
ghost use Rattle.line_lists.specs.Edits.{without_mark};
ghost use Rattle.raw_nodes.specs.Names.{records, rooms, spares};
ghost use Rattle.line_tree.specs.Changes.{Distinct};
ghost use Rattle.line_tree.specs.Places.{IsLineAt};
ghost use Rattle.line_tree.specs.Shape.{IsTree, lines_in, tree_at};
ghost use Rattle.line_tree.specs.Taking.{ChangesNamed, TakesOff};
ghost use Rattle.line_tree.specs.Trees.{names};

use raw_nodes::{NodePtr, NodeStore, Ticks};
use text_model::MarkNo;

/// Takes the mark of a number off a line, and gives how many went, none or one.
fn take_off<C: Ticks>(store: &mut NodeStore<C>, name: NodePtr, number: MarkNo) -> usize
    requires line { IsTree (records store.old) 0 name }
    ensures takes { TakesOff (records store.old) (records store.new) name number.0 result }
    ensures spares { spares store.new ≡ spares store.old }
    ensures rooms { rooms store.new ≡ rooms store.old }
{
    let line = store.line_mut(name).unwrap();
    let gone = usize::from(line.mark_place(number).is_some());
    line.take_mark(number);
    gone
}

/// Takes the mark of a number off the line with a name. It goes from the line up, so that nothing is looked for.
pub fn take_up<C: Ticks>(
    store: &mut NodeStore<C>,
    root: NodePtr,
    height: usize,
    name: NodePtr,
    number: MarkNo,
    ticks: &mut C,
)
    requires tree { IsTree (records store.old) height root }
    requires distinct { Distinct (names height (tree_at (records store.old) height root)) }
    requires named { (k : ℕ) × IsLineAt (lines_in (records store.old) height root) k name }
    ensures takes { (gone : ℕ) × ChangesNamed (records store.old) (records store.new) height root name
        (without_mark number.0) (counting 0 0 gone) no_text }
    ensures spares { spares store.new ≡ spares store.old }
    ensures rooms { rooms store.new ≡ rooms store.old }
{
    let gone = take_off(store, name, number);
    let mut at = name;
    for level in 0..height {
        at = store.parent(at, ticks).unwrap();
        store.lose_counts(at, 0, 0, gone);
    }
}
