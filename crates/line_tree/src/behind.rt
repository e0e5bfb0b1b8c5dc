//! Inserts a line after one whose name is known, from that line up, if the node above has space.

ghost use Rattle.std.specs.Prelude.{◌≡◌, ◌-◌, ◌<◌, true, false};
ghost use Rattle.std.specs.FinMap as finite;
ghost use Rattle.raw_nodes.specs.Names.{records, rooms, spares};
ghost use Rattle.line_tree.specs.Growth.{CanInsert, Inserts};
ghost use Rattle.line_tree.specs.Places.{IsLineAt};
ghost use Rattle.line_tree.specs.Shape.{lines_in, sum_at};
ghost use Rattle.std.specs.declared.option.Option.TheVariants.{None, Some};

use crate::fill::{Extra, add, shift};
use raw_nodes::{NodePtr, NodeStore, Ticks};
use text_model::WORDS;
use toggle_sums::Sums;

/// A line that is put in: its name, what is counted of it, and the name of the line before it, where that is known.
#[derive(Clone, Copy)]
pub struct Added {
    pub line: NodePtr,
    pub more: Sums<WORDS>,
    pub behind: Option<NodePtr>,
}

/// Puts in line `k` behind one whose name may be known, where the node above that has room, and says whether it did. It
/// goes from there up, so that nothing is looked for.
pub fn insert_behind<C: Ticks>(
    store: &mut NodeStore<C>,
    root: NodePtr,
    height: usize,
    k: usize,
    added: &Added,
    ticks: &mut C,
) -> bool
    requires node { 0 < height }
    requires insert { CanInsert (records store.old) height root k added.now.line }
    requires more { added.now.more ≡ sum_at (records store.old) added.now.line }
    requires behind { (p : _) → added.now.behind ≡ Some p
        → (0 < k) × IsLineAt (lines_in (records store.old) height root) (k - 1) p }
    ensures yes { result ≡ true → Inserts (records store.old) (records store.new) height root k added.now.line None }
    ensures no { result ≡ false → records store.new ≡ records store.old }
    ensures len { finite.len (records store.new) ≡ finite.len (records store.old) }
    ensures spares { spares store.new ≡ spares store.old }
    ensures rooms { rooms store.new ≡ rooms store.old }
{
    let Some(name) = added.behind else {
        return false;
    };
    let node = store.parent(name, ticks).unwrap();
    let slot = store.slot(name) + 1;
    if store.child(node, 11, ticks).is_some() {
        return false;
    }
    let extra = Extra {
        node,
        at: slot,
        child: added.line,
    };
    shift(store, extra, ticks);
    add(store, node, &added.more);
    let mut at = node;
    for level in 1..height {
        at = store.parent(at, ticks).unwrap();
        add(store, at, &added.more);
    }
    true
}
