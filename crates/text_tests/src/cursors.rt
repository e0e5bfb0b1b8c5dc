//! Cursors over a text that is edited, and where the lines of a place begin.

ghost use Rattle.std.specs.Prelude.{◌≡◌, OnOk};
ghost use Rattle.text_cursor.specs.Cursors.{IsCursor};

use crate::edits::{PlainStep, count, store_of};
use line_lists::{LineStore, LineVec};
use line_tree::TreeStore;
use std::alloc::{AllocError, Global};
use std::process::Abort;
use std::test::Fail;
use text_cursor::{Cursor, line_at, line_behind};
use text_model::{PlainStore, TagSet, TagSlot, Text, TextStore};

// The slot that is set.
const SLOT: TagSlot = TagSlot(7);

// What a cursor does; a text that it puts in has the tag.
enum Move {
    Seek(usize),
    Remove(usize),
    Put(&'static str),
}

// What a cursor does from the start of `ab`, `cd`, where `b` and the newline after it have the tag; and then whether
// both sides of its place share the tag, where the line of the place begins, and how far after the place the next one
// begins.
struct Looked {
    moves: &'static [Move],
    shared: bool,
    line: usize,
    next: usize,
}

static LOOKED: [Looked; 6] = [
    Looked {
        moves: &[],
        shared: false,
        line: 0,
        next: 3,
    },
    Looked {
        moves: &[Move::Seek(2)],
        shared: true,
        line: 0,
        next: 1,
    },
    Looked {
        moves: &[Move::Seek(2), Move::Seek(5), Move::Seek(4)],
        shared: false,
        line: 3,
        next: 2,
    },
    Looked {
        moves: &[Move::Seek(1), Move::Put("x\ny")],
        shared: true,
        line: 3,
        next: 2,
    },
    Looked {
        moves: &[Move::Seek(1), Move::Remove(3)],
        shared: false,
        line: 0,
        next: 2,
    },
    Looked {
        moves: &[
            Move::Seek(1),
            Move::Put("x"),
            Move::Seek(4),
            Move::Remove(1),
            Move::Seek(2),
        ],
        shared: true,
        line: 0,
        next: 2,
    },
];

fn make(rt: &impl Abort, alloc: Global, cursor: &mut Cursor, step: &Move) -> Result<(), AllocError>
    requires { IsCursor cursor.old }
    ensures is { OnOk result (IsCursor cursor.new) }
    ensures old { OnOk result (cursor.new.old_len ≡ cursor.old.old_len) }
{
    match step {
        Move::Seek(place) => {
            assert!(rt; *place <= cursor.len);
            cursor.seek(*place)
        }
        Move::Remove(count) => {
            assert!(rt; cursor.at <= cursor.len && *count <= cursor.len - cursor.at);
            cursor.remove(*count)
        }
        Move::Put(text) => {
            let text = Text::new(String::from_str(alloc, text)?);
            let length = count(&text);
            assert!(rt; length <= usize::MAX - cursor.len);
            cursor.put(&text, length, TagSet::empty().with(SLOT))
        }
    }
}

fn make_all(
    rt: &impl Abort,
    alloc: Global,
    cursor: &mut Cursor,
    steps: &[Move],
) -> Result<(), AllocError>
    requires { IsCursor cursor.old }
    ensures is { OnOk result (IsCursor cursor.new) }
    ensures old { OnOk result (cursor.new.old_len ≡ cursor.old.old_len) }
{
    for step in steps {
        make(rt, alloc, cursor, step)?;
    }
    Ok(())
}

fn check_looked<S: TextStore>(
    rt: &impl Abort,
    alloc: Global,
    store: &S,
    row: &Looked,
) -> Result<(), Fail> {
    let mut cursor = Cursor::new(alloc, store.len(), 4)?;
    make_all(rt, alloc, &mut cursor, row.moves)?;
    assert!(rt; cursor.at < cursor.len);
    let shared = cursor.shared(store).has(SLOT);
    let line = cursor.line(store);
    let next = cursor.next(store);
    assert!(rt;
        shared == row.shared && line == row.line && next == row.next,
        "{line} {next}"
    );
    Ok(())
}

// `ab` and `cd`, where `b` and the newline after it have the tag.
static LINES: [PlainStep; 2] = [
    PlainStep::Insert(0, "ab\ncd", &[]),
    PlainStep::SetTag(1, 3, SLOT, true),
];

fn check_rows<S: TextStore>(
    rt: &impl Abort,
    alloc: Global,
    store: &S,
    rows: &[Looked],
) -> Result<(), Fail> {
    for row in rows {
        check_looked(rt, alloc, store, row)?;
    }
    Ok(())
}

// Where lines begin.
fn check_lines<S: TextStore>(rt: &impl Abort, store: &S) {
    assert!(rt; 6 <= store.len());
    assert!(rt; line_at(store, 4) == 3 && line_behind(store, 2) == 3 && line_behind(store, 6) == 6);
}

fn check_looks<S: TextStore>(rt: &impl Abort, alloc: Global) -> Result<(), Fail> {
    let store: S = store_of(rt, alloc, &LINES)?;
    check_rows(rt, alloc, &store, &LOOKED)?;
    check_lines(rt, &store);
    Ok(())
}

#[test]
fn a_cursor_looks_around(rt: HostRuntime) -> Result<(), Fail> {
    check_looks::<PlainStore>(&rt, rt.alloc())?;
    check_looks::<LineStore<LineVec>>(&rt, rt.alloc())?;
    check_looks::<TreeStore>(&rt, rt.alloc())
}

#[test]
fn a_cursor_gives_its_parts(rt: HostRuntime) -> Result<(), Fail> {
    let mut cursor = Cursor::new(rt.alloc(), 6, 4)?;
    make_all(
        &rt,
        rt.alloc(),
        &mut cursor,
        &[Move::Seek(1), Move::Put("xy"), Move::Remove(3)],
    )?;
    let it = cursor.into_parts(rt.alloc())?;
    assert!(rt; it.parts.len() == 3 && it.fresh.len() == 2);
    let (old, new) = (&it.parts[2], &it.parts[1]);
    assert!(rt; old.from == 4 && old.to == 6 && old.slots.is_none());
    assert!(rt; new.from == 0 && new.to == 2 && new.slots.is_some());
    Ok(())
}
