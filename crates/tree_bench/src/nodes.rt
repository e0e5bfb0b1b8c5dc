//! Lines in a store of nodes, without a tree: what `tools/memory.py` weighs, and looks for leaks in.

use raw_nodes::{NodeStore, Steps};
use segments::Line;
use std::alloc::{AllocError, Global};

/// Inserts lines of a text into a store, one spare at a time, and drops it with all of them in use.
pub fn fill_nodes(alloc: Global, count: usize, text: &str) -> Result<(), AllocError> {
    let mut store: NodeStore<Steps> = NodeStore::new(alloc);
    for _ in 0..count {
        store.reserve_lines(1)?;
        store.make(Some(Line::new(alloc, text)?));
    }
    Ok(())
}
