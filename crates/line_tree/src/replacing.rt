//! Replaces a line under its name, or edits it where it lies, and updates the sums from that line up to the root.

ghost use Rattle.std.specs.Prelude.{◌≡◌, ℕ, IfSome, OnErr, OnOk};
ghost use Rattle.std.specs.FinMap as finite;
ghost use Rattle.raw_nodes.specs.Names.{records, rooms, spares};
ghost use Rattle.raw_nodes.specs.Records.{Records};
ghost use Rattle.segments.specs.Columns.{LineContent, line_count};
ghost use Rattle.toggle_sums.specs.Counts.{Count, no_text, plus};
ghost use Rattle.line_tree.specs.Changes.{Distinct, FitsSum};
ghost use Rattle.line_tree.specs.Places.{IsLineAt};
ghost use Rattle.line_tree.specs.Shape.{IsTree, line_of, lines_in, tree_at};
ghost use Rattle.line_tree.specs.Taking.{ChangesNamed};
ghost use Rattle.line_tree.specs.Replacing.{CanEditNamed, EditsNamed, EditsOver, IsStale, PutsOver};
ghost use Rattle.line_tree.specs.Trees.{names, total};

use crate::fill::exchange_sum;
use raw_nodes::{NodePtr, NodeStore, Ticks};
use segments::{Line, LineEdit};
use std::alloc::AllocError;
use text_model::WORDS;
use toggle_sums::{Exchange, Summary, Sums};

/// Puts a line in the place of another, under its name, and says what went and what came.
fn put_over<C: Ticks>(
    store: &mut NodeStore<C>,
    name: NodePtr,
    line: Line,
    gone: &mut Sums<WORDS>,
    more: &mut Sums<WORDS>,
)
    requires line { IsTree (records store.old) 0 name }
    requires empty { (gone.old ≡ no_text) × (more.old ≡ no_text) }
    ensures puts { PutsOver (records store.old) (records store.new) name line gone.new more.new }
    ensures spares { spares store.new ≡ spares store.old }
    ensures rooms { rooms store.new ≡ rooms store.old }
{
    line.sum_to(more);
    let place = store.line_mut(name).unwrap();
    place.sum_to(gone);
    *place = line;
}

/// Makes an edit of a line where it lies, and says what went and what came.
fn edit_over<C: Ticks, E: LineEdit>(
    store: &mut NodeStore<C>,
    name: NodePtr,
    edit: &E,
    gone: &mut Sums<WORDS>,
    more: &mut Sums<WORDS>,
) -> Result<(), AllocError>
    requires line { IsTree (records store.old) 0 name }
    requires fits { IfSome (line_of (finite.get (records store.old) name)) (E.fits edit.now) }
    requires empty { (gone.old ≡ no_text) × (more.old ≡ no_text) }
    ensures edits { OnOk result (EditsOver (records store.old) (records store.new) name (E.edited edit.now)
        gone.new more.new) }
    ensures refused { OnErr result (records store.new ≡ records store.old) }
    ensures spares { spares store.new ≡ spares store.old }
    ensures rooms { rooms store.new ≡ rooms store.old }
{
    let line = store.line_mut(name).unwrap();
    line.sum_to(gone);
    edit.make(line)?;
    line.trim();
    line.sum_to(more);
    Ok(())
}

/// Exchanges what went with a line for what came with it in the sums from that line up, so that nothing is looked for.
fn exchange_up<C: Ticks>(
    store: &mut NodeStore<C>,
    root: NodePtr,
    height: usize,
    name: NodePtr,
    exchange: &Exchange<'_>,
    ticks: &mut C,
)
    requires stale { (m : Records) × (new : LineContent)
        × IsStale m new (records store.old) height root name exchange.now.gone.now exchange.now.more.now }
    ensures changes { (m : Records) (new : LineContent) →
        IsStale m new (records store.old) height root name exchange.now.gone.now exchange.now.more.now →
        ChangesNamed m (records store.new) height root name (λ _. new) exchange.now.gone.now (line_count new) }
    ensures spares { spares store.new ≡ spares store.old }
    ensures rooms { rooms store.new ≡ rooms store.old }
{
    let mut at = name;
    for level in 0..height {
        at = store.parent(at, ticks).unwrap();
        exchange_sum(store, at, exchange, ticks);
    }
}

/// Puts a line in the place of the one with a name, under that name. It goes from the line up, so that nothing is
/// looked for.
pub fn replace_up<C: Ticks>(
    store: &mut NodeStore<C>,
    root: NodePtr,
    height: usize,
    name: NodePtr,
    line: Line,
    ticks: &mut C,
)
    requires tree { IsTree (records store.old) height root }
    requires distinct { Distinct (names height (tree_at (records store.old) height root)) }
    requires named { (k : ℕ) × IsLineAt (lines_in (records store.old) height root) k name }
    requires fits { FitsSum (plus (total (lines_in (records store.old) height root)) (line_count line)) }
    ensures changes { (gone : Count) × ChangesNamed (records store.old) (records store.new) height root name (λ _. line)
        gone (line_count line) }
    ensures spares { spares store.new ≡ spares store.old }
    ensures rooms { rooms store.new ≡ rooms store.old }
{
    let mut gone = Sums::zero();
    let mut more = Sums::zero();
    put_over(store, name, line, &mut gone, &mut more);
    let exchange = Exchange::between(&gone, &more);
    exchange_up(store, root, height, name, &exchange, ticks);
}

/// Makes an edit of the line with a name where it lies. If memory is refused, all is as it was.
pub fn edit_up<C: Ticks, E: LineEdit>(
    store: &mut NodeStore<C>,
    root: NodePtr,
    height: usize,
    name: NodePtr,
    edit: &E,
    ticks: &mut C,
) -> Result<(), AllocError>
    requires tree { IsTree (records store.old) height root }
    requires distinct { Distinct (names height (tree_at (records store.old) height root)) }
    requires named { (k : ℕ) × IsLineAt (lines_in (records store.old) height root) k name }
    requires can { IfSome (line_of (finite.get (records store.old) name))
        (CanEditNamed (E.fits edit.now) (E.edited edit.now) (total (lines_in (records store.old) height root))) }
    ensures edits { OnOk result
        (EditsNamed (records store.old) (records store.new) height root name (E.edited edit.now)) }
    ensures refused { OnErr result (records store.new ≡ records store.old) }
    ensures spares { spares store.new ≡ spares store.old }
    ensures rooms { rooms store.new ≡ rooms store.old }
{
    let mut gone = Sums::zero();
    let mut more = Sums::zero();
    edit_over(store, name, edit, &mut gone, &mut more)?;
    let exchange = Exchange::between(&gone, &more);
    exchange_up(store, root, height, name, &exchange, ticks);
    Ok(())
}
