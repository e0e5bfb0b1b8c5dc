//! Finds the line of a character by its offset: the line's name, its number and the column.

ghost use Rattle.std.specs.Prelude.{◌+◌, ◌*◌, ◌^◌, ◌≤◌, ◌<◌, length};
ghost use Rattle.raw_nodes.specs.Names.{records};
ghost use Rattle.line_tree.specs.Trees.{total};
ghost use Rattle.line_tree.specs.Shape.{IsTree, lines_in};
ghost use Rattle.line_tree.specs.Locating.{IsPlaceAt};
ghost use Rattle.line_tree.specs.Places.{IsLineAt};

use crate::aims::LinesBefore;
use crate::search::{Sought, descend};
use raw_nodes::{NodePtr, NodeStore, Ticks};

/// A line, by its name and its number, and a column of it.
#[derive(Clone, Copy)]
pub struct Located {
    pub name: NodePtr,
    pub line: usize,
    pub column: usize,
}

/// The line of a character, and its column there.
pub fn locate<C: Ticks>(
    store: &NodeStore<C>,
    root: NodePtr,
    height: usize,
    offset: usize,
    ticks: &mut C,
) -> Located
    requires tree { IsTree (records store.now) height root }
    requires within { offset < (total (lines_in (records store.now) height root)).characters }
    requires fits { length (lines_in (records store.now) height root) < 2 ^ 64 }
    ensures place { IsPlaceAt (lines_in (records store.now) height root) offset result.line result.column }
    ensures name { IsLineAt (lines_in (records store.now) height root) result.line result.name }
    ensures ticks { C.count ticks.new ≤ C.count ticks.old + 24 * height }
{
    let mut before = LinesBefore { lines: 0 };
    let sought = Sought {
        node: root,
        size: None,
        k: offset,
    };
    let arrived = descend(store, height, sought, &mut before, ticks);
    Located {
        name: arrived.name,
        line: before.lines,
        column: arrived.rest,
    }
}
