//! Hunks, and the changes that they are reported as.

ghost use Rattle.std.specs.Prelude.{◌≤◌, ℕ, IfOk};
ghost use Rattle.edit_ops.specs.Told.{AreHunks};

use crate::scenes::store_of;
use edit_ops::{Hunk, Spot, TextChange, push_replacement, tell};
use std::alloc::{AllocError, Global};
use std::process::Abort;
use std::test::Fail;
use text_model::{PlainStore, Text, TextStore};

// A line, from 1, and the column in it, in characters, bytes and UTF-16 units.
type Place = (usize, usize, usize, usize);

// A reported change: its offset, the number of deleted characters, the inserted text, and the places where it begins,
// where the deleted text ends and where the inserted text ends.
type Change = (usize, usize, &'static str, Place, Place, Place);

// The characters of `aé€😀`, `b` from one offset to another, the text that replaces them, and the reported changes.
struct Replaced {
    from: usize,
    to: usize,
    text: &'static str,
    told: &'static [Change],
}

static REPLACED: [Replaced; 4] = [
    Replaced {
        from: 4,
        to: 4,
        text: "x\n€😀",
        told: &[(4, 0, "x\n€😀", (1, 4, 10, 5), (1, 4, 10, 5), (2, 2, 7, 3))],
    },
    Replaced {
        from: 3,
        to: 6,
        text: "",
        told: &[(3, 3, "", (1, 3, 6, 3), (2, 1, 1, 1), (1, 3, 6, 3))],
    },
    Replaced {
        from: 1,
        to: 2,
        text: "😀é",
        told: &[(1, 1, "😀é", (1, 1, 1, 1), (1, 2, 3, 2), (1, 3, 7, 4))],
    },
    Replaced {
        from: 2,
        to: 2,
        text: "",
        told: &[],
    },
];

fn place_of(spot: Spot) -> Place {
    (spot.line, spot.column, spot.bytes, spot.units)
}

fn is_told(change: &TextChange, wanted: &Change) -> bool {
    change.at == wanted.0
        && change.removed == wanted.1
        && change.inserted.as_str() == wanted.2
        && place_of(change.start) == wanted.3
        && place_of(change.old_end) == wanted.4
        && place_of(change.new_end) == wanted.5
}

// The hunk that replaces the characters from one offset to another by a text, unless it does nothing.
fn replacing(alloc: Global, from: usize, to: usize, text: &str) -> Result<Vec<Hunk>, AllocError>
    requires { from ≤ to }
    ensures { IfOk result (λ hunks. (len : ℕ) → to ≤ len → AreHunks 0 len hunks.items) }
{
    let mut hunks = Vec::new(alloc);
    let text = Text::new(String::from_str(alloc, text)?);
    push_replacement(&mut hunks, from, to, text)?;
    Ok(hunks)
}

fn check_replaced(
    rt: &impl Abort,
    alloc: Global,
    store: &PlainStore,
    row: &Replaced,
) -> Result<(), Fail> {
    let from = row.from;
    assert!(rt; from <= row.to && row.to <= store.len() && store.len() <= 100);
    let hunks = replacing(alloc, from, row.to, row.text)?;
    let told = tell(alloc, store, hunks)?;
    let found = told.as_slice();
    assert!(rt; found.len() == row.told.len(), "{from}");
    for index in 0..found.len() {
        assert!(rt; is_told(&found[index], &row.told[index]), "{from} {index}");
    }
    Ok(())
}

fn check_all(rt: &impl Abort, alloc: Global, rows: &[Replaced]) -> Result<(), Fail> {
    let store = store_of(alloc, "aé€😀\nb")?;
    for row in rows {
        check_replaced(rt, alloc, &store, row)?;
    }
    Ok(())
}

#[test]
fn changes_are_told(rt: HostRuntime) -> Result<(), Fail> {
    check_all(&rt, rt.alloc(), &REPLACED)
}

/// Whether hunks are these: each from one offset to another, and the text that it puts in.
pub fn are(hunks: &[Hunk], wanted: &[(usize, usize, &str)]) -> bool {
    if hunks.len() != wanted.len() {
        return false;
    }
    for index in 0..hunks.len() {
        let hunk = &hunks[index];
        let (from, to, text) = wanted[index];
        if hunk.from != from || hunk.to != to || hunk.text.as_str() != text {
            return false;
        }
    }
    true
}
