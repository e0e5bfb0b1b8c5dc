//! What a store answers after an edit, on each store: rows of steps and of queries at both ends of a text.

use crate::edits::{PlainStep, SLOTS, edit_of, make, store_of};
use crate::queries::{NONE, Query, ask};
use line_lists::{LineStore, LineVec};
use line_tree::TreeStore;
use std::alloc::{AllocError, Global};
use std::process::Abort;
use std::test::Fail;
use text_model::{Gravity, MarkNo, Place, PlainStore, TagSlot, TextStore};

// A query, the offset or the number that it is asked at, and what is answered.
type Row = (Query, usize, (usize, usize));

// Steps of one edit of a new store, and what it contains then.
struct Case {
    steps: &'static [PlainStep],
    text: &'static str,
    rows: &'static [Row],
}

static CASES: [Case; 6] = [
    // A store begins with a newline.
    Case {
        steps: &[],
        text: "\n",
        rows: &[
            (Query::Size, 0, (1, 1)),
            (Query::Character, 0, (10, 0)),
            (Query::Line, 0, (0, 0)),
            (Query::Line, 1, (1, 0)),
            (Query::Bounds, 0, (0, 1)),
            (Query::LineAt, 0, (0, 0)),
            (Query::LineAt, 1, (1, 1)),
            (Query::LineEnd, 0, (1, 0)),
            (Query::LineEnd, 1, (1, 0)),
            (Query::Run, 0, (1, 0)),
            (Query::Tags, 0, (0, 0)),
            (Query::HasTag(0), 0, (0, 0)),
            (Query::Change(3), 0, (0, 1)),
            (Query::Mark, 0, (NONE, 0)),
            (Query::Mark, 4, (NONE, 0)),
            (Query::MarksNear, 0, (NONE, NONE)),
            (Query::MarksNear, 1, (NONE, NONE)),
            (Query::MarksNear, 2, (NONE, NONE)),
            (Query::MarksAt(0), 0, (NONE, NONE)),
            (Query::MarksAt(0), 2, (NONE, NONE)),
        ],
    },
    // Steps at both ends of a text, with no slot and with all, and marks of both gravities.
    Case {
        steps: &[
            PlainStep::PutMark(0, 0, Gravity::Right),
            PlainStep::PutMark(1, 0, Gravity::Left),
            PlainStep::PutMark(4, 1, Gravity::Right),
            PlainStep::Insert(0, "añ\nc", &[]),
            PlainStep::Insert(4, "de", &[0, 63, 64, 1023]),
            PlainStep::Insert(2, "", &[63]),
            PlainStep::PutMark(2, 7, Gravity::Left),
            PlainStep::SetTag(0, 7, TagSlot(64), true),
            PlainStep::SetTag(6, 7, TagSlot(1023), true),
            PlainStep::SetTag(0, 1, TagSlot(1023), true),
            PlainStep::SetTag(3, 3, TagSlot(0), true),
            PlainStep::SetTag(1, 5, TagSlot(64), false),
        ],
        text: "añ\ncde\n",
        rows: &[
            (Query::Size, 0, (7, 2)),
            (Query::Character, 1, (241, 0)),
            (Query::Character, 2, (10, 0)),
            (Query::Character, 3, (99, 1)),
            (Query::Character, 6, (10, 1)),
            (Query::Line, 0, (0, 0)),
            (Query::Line, 1, (3, 0)),
            (Query::Line, 2, (7, 0)),
            (Query::Bounds, 0, (0, 3)),
            (Query::Bounds, 1, (3, 7)),
            (Query::LineAt, 2, (0, 0)),
            (Query::LineAt, 3, (1, 3)),
            (Query::LineAt, 6, (1, 3)),
            (Query::LineAt, 7, (2, 7)),
            (Query::LineEnd, 2, (3, 0)),
            (Query::LineEnd, 3, (7, 0)),
            (Query::LineEnd, 7, (7, 0)),
            (Query::Run, 0, (0, 2)),
            (Query::Run, 1, (0, 2)),
            (Query::Run, 2, (3, 2)),
            (Query::Run, 3, (3, 6)),
            (Query::Run, 5, (3, 6)),
            (Query::Tags, 0, (0, 12)),
            (Query::Tags, 1, (12, 0)),
            (Query::Tags, 3, (0, 0)),
            (Query::Tags, 4, (0, 11)),
            (Query::Tags, 5, (11, 15)),
            (Query::Tags, 6, (15, 12)),
            (Query::HasTag(3), 0, (1, 1)),
            (Query::HasTag(3), 1, (0, 0)),
            (Query::HasTag(3), 6, (1, 1)),
            (Query::HasTag(0), 3, (0, 0)),
            (Query::HasTag(0), 4, (1, 1)),
            (Query::HasTag(0), 6, (0, 0)),
            (Query::Change(0), 3, (0, 4)),
            (Query::Change(0), 4, (4, 6)),
            (Query::Change(0), 6, (6, 7)),
            (Query::Change(2), 0, (0, 1)),
            (Query::Change(2), 1, (1, 5)),
            (Query::Change(2), 4, (1, 5)),
            (Query::Change(2), 5, (5, 7)),
            (Query::Change(2), 6, (5, 7)),
            (Query::Change(3), 0, (0, 1)),
            (Query::Change(3), 1, (1, 4)),
            (Query::Change(3), 4, (4, 7)),
            (Query::Change(3), 6, (4, 7)),
            (Query::Mark, 0, (6, 1)),
            (Query::Mark, 1, (0, 0)),
            (Query::Mark, 2, (7, 0)),
            (Query::Mark, 3, (NONE, 0)),
            (Query::Mark, 4, (7, 1)),
            (Query::Mark, 5, (NONE, 0)),
            (Query::MarksNear, 0, (NONE, 0)),
            (Query::MarksNear, 1, (0, 6)),
            (Query::MarksNear, 6, (0, 6)),
            (Query::MarksNear, 7, (6, 7)),
            (Query::MarksNear, 8, (7, NONE)),
            (Query::MarksNear, 9, (7, NONE)),
            (Query::MarksAt(0), 0, (1, NONE)),
            (Query::MarksAt(0), 6, (0, NONE)),
            (Query::MarksAt(0), 7, (2, 4)),
            (Query::MarksAt(1), 7, (4, NONE)),
        ],
    },
    // Tags are cleared at both ends and everywhere, and a mark is removed twice.
    Case {
        steps: &[
            PlainStep::PutMark(0, 0, Gravity::Right),
            PlainStep::PutMark(1, 0, Gravity::Left),
            PlainStep::PutMark(4, 1, Gravity::Right),
            PlainStep::Insert(0, "añ\nc", &[]),
            PlainStep::Insert(4, "de", &[0, 63, 64, 1023]),
            PlainStep::Insert(2, "", &[63]),
            PlainStep::PutMark(2, 7, Gravity::Left),
            PlainStep::SetTag(0, 7, TagSlot(64), true),
            PlainStep::SetTag(6, 7, TagSlot(1023), true),
            PlainStep::SetTag(0, 1, TagSlot(1023), true),
            PlainStep::SetTag(3, 3, TagSlot(0), true),
            PlainStep::SetTag(1, 5, TagSlot(64), false),
            PlainStep::ClearTags(0),
            PlainStep::ClearTags(6),
            PlainStep::ClearSlot(TagSlot(64)),
            PlainStep::SetTag(6, 7, TagSlot(0), true),
            PlainStep::ClearSlot(TagSlot(0)),
            PlainStep::PutMark(3, 6, Gravity::Left),
            PlainStep::TakeMark(1),
            PlainStep::TakeMark(1),
        ],
        text: "añ\ncde\n",
        rows: &[
            (Query::Tags, 0, (0, 0)),
            (Query::Tags, 1, (0, 0)),
            (Query::Tags, 4, (0, 10)),
            (Query::Tags, 5, (10, 10)),
            (Query::Tags, 6, (10, 0)),
            (Query::Change(0), 0, (0, 7)),
            (Query::Change(0), 3, (0, 7)),
            (Query::Change(0), 5, (0, 7)),
            (Query::Change(0), 6, (0, 7)),
            (Query::Change(1), 3, (0, 4)),
            (Query::Change(1), 4, (4, 6)),
            (Query::Change(1), 6, (6, 7)),
            (Query::Change(2), 0, (0, 7)),
            (Query::Mark, 1, (NONE, 0)),
            (Query::Mark, 3, (6, 0)),
            (Query::MarksNear, 0, (NONE, 6)),
            (Query::MarksNear, 5, (NONE, 6)),
            (Query::MarksNear, 7, (6, 7)),
            (Query::MarksAt(0), 0, (NONE, NONE)),
            (Query::MarksAt(0), 6, (0, 3)),
        ],
    },
    // An empty range, the middle and the beginning are removed, up to the last newline.
    Case {
        steps: &[
            PlainStep::PutMark(0, 0, Gravity::Right),
            PlainStep::PutMark(1, 0, Gravity::Left),
            PlainStep::PutMark(4, 1, Gravity::Right),
            PlainStep::Insert(0, "añ\nc", &[]),
            PlainStep::Insert(4, "de", &[0, 63, 64, 1023]),
            PlainStep::Insert(2, "", &[63]),
            PlainStep::PutMark(2, 7, Gravity::Left),
            PlainStep::SetTag(0, 7, TagSlot(64), true),
            PlainStep::SetTag(6, 7, TagSlot(1023), true),
            PlainStep::SetTag(0, 1, TagSlot(1023), true),
            PlainStep::SetTag(3, 3, TagSlot(0), true),
            PlainStep::SetTag(1, 5, TagSlot(64), false),
            PlainStep::ClearTags(0),
            PlainStep::ClearTags(6),
            PlainStep::ClearSlot(TagSlot(64)),
            PlainStep::SetTag(6, 7, TagSlot(0), true),
            PlainStep::ClearSlot(TagSlot(0)),
            PlainStep::PutMark(3, 6, Gravity::Left),
            PlainStep::TakeMark(1),
            PlainStep::TakeMark(1),
            PlainStep::Remove(2, 2),
            PlainStep::Remove(1, 4),
            PlainStep::Remove(0, 1),
            PlainStep::Remove(0, 2),
        ],
        text: "\n",
        rows: &[
            (Query::Size, 0, (1, 1)),
            (Query::Character, 0, (10, 0)),
            (Query::Bounds, 0, (0, 1)),
            (Query::Tags, 0, (0, 0)),
            (Query::Mark, 0, (0, 1)),
            (Query::Mark, 1, (NONE, 0)),
            (Query::Mark, 2, (1, 0)),
            (Query::Mark, 3, (0, 0)),
            (Query::Mark, 4, (1, 1)),
            (Query::MarksNear, 0, (NONE, 0)),
            (Query::MarksNear, 1, (0, 1)),
            (Query::MarksNear, 2, (1, NONE)),
            (Query::MarksAt(0), 0, (0, 3)),
            (Query::MarksAt(0), 1, (2, 4)),
            (Query::MarksAt(2), 1, (NONE, NONE)),
        ],
    },
    // An edit of all kinds of steps.
    Case {
        steps: &[
            PlainStep::Insert(0, "ab\ncd", &[0, 1023]),
            PlainStep::PutMark(3, 4, Gravity::Right),
            PlainStep::SetTag(1, 6, TagSlot(63), true),
            PlainStep::Remove(2, 4),
            PlainStep::ClearTags(1),
            PlainStep::ClearSlot(TagSlot(1023)),
            PlainStep::PutMark(1, 0, Gravity::Left),
            PlainStep::TakeMark(3),
        ],
        text: "abd\n",
        rows: &[
            (Query::Size, 0, (4, 1)),
            (Query::Tags, 0, (0, 1)),
            (Query::Tags, 1, (1, 0)),
            (Query::Tags, 2, (0, 3)),
            (Query::Tags, 3, (3, 2)),
            (Query::Change(1), 0, (0, 2)),
            (Query::Change(1), 2, (2, 4)),
            (Query::Change(1), 3, (2, 4)),
            (Query::Change(0), 0, (0, 1)),
            (Query::Change(0), 1, (1, 2)),
            (Query::Change(3), 0, (0, 4)),
            (Query::Mark, 1, (0, 0)),
            (Query::Mark, 3, (NONE, 0)),
            (Query::MarksAt(0), 0, (1, NONE)),
        ],
    },
    // More lines than a node has.
    Case {
        steps: &[PlainStep::Insert(0, "a\nbé\n\nd\ne\nf\ng\nh\ni\nj\nk\nl\nm\nn\no\np", &[])],
        text: "a\nbé\n\nd\ne\nf\ng\nh\ni\nj\nk\nl\nm\nn\no\np\n",
        rows: &[
            (Query::Size, 0, (32, 16)),
            (Query::Line, 0, (0, 0)),
            (Query::Line, 2, (5, 0)),
            (Query::Line, 15, (30, 0)),
            (Query::Line, 16, (32, 0)),
            (Query::Bounds, 1, (2, 5)),
            (Query::Bounds, 2, (5, 6)),
            (Query::Bounds, 15, (30, 32)),
            (Query::LineAt, 0, (0, 0)),
            (Query::LineAt, 5, (2, 5)),
            (Query::LineAt, 6, (3, 6)),
            (Query::LineAt, 31, (15, 30)),
            (Query::LineAt, 32, (16, 32)),
            (Query::LineEnd, 0, (2, 0)),
            (Query::LineEnd, 5, (6, 0)),
            (Query::LineEnd, 6, (8, 0)),
            (Query::LineEnd, 31, (32, 0)),
            (Query::LineEnd, 32, (32, 0)),
            (Query::Character, 3, (233, 1)),
            (Query::Character, 30, (112, 15)),
            (Query::Run, 2, (2, 4)),
            (Query::Run, 3, (2, 4)),
            (Query::Run, 5, (6, 5)),
            (Query::Run, 29, (30, 29)),
        ],
    },
];

fn check_text<S: TextStore>(rt: &impl Abort, store: &S, text: &str) -> Result<(), AllocError> {
    let copied = store.copy_text(0, store.len())?;
    assert!(rt; copied.as_str() == text);
    Ok(())
}

fn check_rows<S: TextStore>(rt: &impl Abort, store: &S, rows: &[Row]) {
    let len = rows.len();
    for (index, row) in rows.iter().enumerate() {
        assert!(rt;
            ask(store, row.0, row.1) == Some(row.2),
            "row {index} of {len}"
        );
    }
}

fn check_case<S: TextStore>(rt: &impl Abort, alloc: Global, case: &Case) -> Result<(), AllocError> {
    let mut store: S = store_of(rt, alloc, case.steps)?;
    store.seek_line(1);
    check_rows(rt, &store, case.rows);
    check_text(rt, &store, case.text)
}

// All cases on one kind of store.
fn check<S: TextStore>(rt: &impl Abort, alloc: Global, cases: &[Case]) -> Result<(), AllocError> {
    for case in cases {
        check_case::<S>(rt, alloc, case)?;
    }
    Ok(())
}

#[test]
fn edits_are_made(rt: HostRuntime) -> Result<(), Fail> {
    check::<PlainStore>(&rt, rt.alloc(), &CASES)?;
    check::<LineStore<LineVec>>(&rt, rt.alloc(), &CASES)?;
    check::<TreeStore>(&rt, rt.alloc(), &CASES)?;
    Ok(())
}

// Whether a store makes each kind of edit of one line at once, in a text that becomes `bcd` and a newline.
fn makes_at_once<S: TextStore>(alloc: Global) -> Result<bool, AllocError> {
    let mut store = S::new(alloc)?;
    if store.len() != 1 || !store.put_within(0, "abcd")? {
        return Ok(false);
    }
    let start = Place {
        offset: 0,
        gravity: Gravity::Left,
    };
    let edit = edit_of(alloc, &[PlainStep::PutMark(7, 3, Gravity::Right)])?;
    if !make(&mut store, &edit)? || !store.move_mark(MarkNo(7), start)? || store.len() != 5 {
        return Ok(false);
    }
    if !store.tag_within(1, 3, SLOTS[2], true)? || store.len() != 5 || !store.take_within(0, 1)? {
        return Ok(false);
    }
    if store.len() != 4 || store.mark_place(MarkNo(7)) != Some(start) {
        return Ok(false);
    }
    let is_tagged = store.has_tag(1, SLOTS[2]) && !store.has_tag(2, SLOTS[2]);
    Ok(is_tagged && store.copy_text(0, 4)?.as_str() == "bcd\n")
}

// A mark that is put at an offset: its number, and whether a store over lines puts it there at once.
struct MarkRow {
    number: u16,
    offset: usize,
    gravity: Gravity,
    is_put: bool,
}

// In a text of the lines `ab` and `cd`.
static MARK_ROWS: [MarkRow; 7] = [
    // A new mark, within its line, in another line, and back before a newline.
    MarkRow {
        number: 7,
        offset: 1,
        gravity: Gravity::Right,
        is_put: true,
    },
    MarkRow {
        number: 7,
        offset: 0,
        gravity: Gravity::Left,
        is_put: true,
    },
    MarkRow {
        number: 7,
        offset: 4,
        gravity: Gravity::Left,
        is_put: true,
    },
    MarkRow {
        number: 7,
        offset: 2,
        gravity: Gravity::Right,
        is_put: true,
    },
    // Another one, where that was and where it is.
    MarkRow {
        number: 900,
        offset: 4,
        gravity: Gravity::Left,
        is_put: true,
    },
    MarkRow {
        number: 900,
        offset: 2,
        gravity: Gravity::Left,
        is_put: true,
    },
    // The end of the text.
    MarkRow {
        number: 900,
        offset: 6,
        gravity: Gravity::Right,
        is_put: false,
    },
];

static MARKS_PUT: [Row; 7] = [
    (Query::Size, 0, (6, 2)),
    (Query::Mark, 7, (2, 1)),
    (Query::Mark, 900, (2, 0)),
    (Query::Mark, 901, (NONE, 0)),
    (Query::MarksNear, 2, (NONE, 2)),
    (Query::MarksNear, 3, (2, NONE)),
    (Query::MarksAt(0), 2, (7, 900)),
];

fn put_marks<S: TextStore>(
    rt: &impl Abort,
    store: &mut S,
    rows: &[MarkRow],
) -> Result<(), AllocError> {
    for row in rows {
        let (offset, gravity) = (row.offset, row.gravity);
        assert!(rt; offset <= store.len());
        let is_put = store.move_mark(MarkNo(row.number), Place { offset, gravity })?;
        assert!(rt; is_put == row.is_put);
    }
    Ok(())
}

// The marks of all rows, put one after the other.
fn check_marks<S: TextStore>(rt: &impl Abort, alloc: Global) -> Result<(), AllocError> {
    let mut store: S = store_of(rt, alloc, &[PlainStep::Insert(0, "ab\ncd", &[])])?;
    put_marks(rt, &mut store, &MARK_ROWS)?;
    check_rows(rt, &store, &MARKS_PUT);
    Ok(())
}

#[test]
fn marks_are_put_at_once(rt: HostRuntime) -> Result<(), Fail> {
    check_marks::<LineStore<LineVec>>(&rt, rt.alloc())?;
    check_marks::<TreeStore>(&rt, rt.alloc())?;
    Ok(())
}

#[test]
fn edits_of_one_line_are_made_at_once(rt: HostRuntime) -> Result<(), Fail> {
    let is_made = makes_at_once::<LineStore<LineVec>>(rt.alloc())?;
    assert!(&rt; is_made);
    let is_made = makes_at_once::<TreeStore>(rt.alloc())?;
    assert!(&rt; is_made);
    Ok(())
}
