//! Texts with the names of their tags and marks.

use mark_table::MarkTable;
use std::alloc::{AllocError, Global};
use std::test::Fail;
use tag_table::TagTable;
use text_model::{Edit, Limits, PlainStore, Step, StepList, TagSet, TagSlot, Text, TextStore};

/// A text with the names of its tags and marks, of which there are none but those that each document has.
#[derive(Drop)]
pub struct Scene {
    pub store: PlainStore,
    pub tags: TagTable,
    pub marks: MarkTable,
}

/// A store of a text, with the newline after it.
pub fn store_of<S: TextStore>(alloc: Global, text: &str) -> Result<S, AllocError> {
    store_with(alloc, text, TagSet::empty())
}

/// A store of a text whose characters have these slots, with the newline after it.
pub fn store_with<S: TextStore>(alloc: Global, text: &str, slots: TagSet) -> Result<S, AllocError> {
    let mut store = S::new(alloc)?;
    let mut steps = StepList::new(alloc);
    let text = Text::new(String::from_str(alloc, text)?);
    steps.push(Step::Insert(0, text, slots))?;
    let prepared = store.prepare(&Edit { steps })?;
    store.commit(prepared);
    Ok(store)
}

/// Small limits: 100 characters, and ten of all else.
pub fn limits() -> Result<Limits, Fail> {
    Limits::new(100, 10, 10, 10, 10).ok_or_else(|| Fail::new("small numbers"))
}

/// The text `one two`, `three`.
pub fn two_lines(alloc: Global) -> Result<Scene, Fail> {
    let limits = limits()?;
    Ok(Scene {
        store: store_of(alloc, "one two\nthree")?,
        tags: TagTable::new(alloc, &limits)?,
        marks: MarkTable::new(alloc, &limits)?,
    })
}
