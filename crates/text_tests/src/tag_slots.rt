//! The slots of tags.

use std::alloc::Global;
use std::process::Abort;
use std::test::Fail;
use tag_table::TagTable;
use text_model::{Limits, TagSlot};

// Whether a name is new, gets a slot, and is found with it.
fn creates(alloc: Global, tags: &mut TagTable, name: &str, slot: TagSlot) -> Result<bool, Fail> {
    if tags.find(name).is_some() {
        return Ok(false);
    }
    let created = tags.create(String::from_str(alloc, name)?)?;
    Ok(created == Some(slot) && tags.find(name) == created)
}

fn check(rt: &impl Abort, alloc: Global, tags: &mut TagTable) -> Result<(), Fail> {
    let first = creates(alloc, tags, "x", TagSlot(64))?;
    let second = creates(alloc, tags, "y", TagSlot(65))?;
    assert!(rt; first && second);
    Ok(())
}

fn table(alloc: Global) -> Result<TagTable, Fail> {
    let limits = Limits::new(10, 2, 10, 10, 10).ok_or("small numbers")?;
    Ok(TagTable::new(alloc, &limits)?)
}

#[test]
fn a_tag_is_found_again(rt: HostRuntime) -> Result<(), Fail> {
    let mut tags = table(rt.alloc())?;
    check(&rt, rt.alloc(), &mut tags)
}
