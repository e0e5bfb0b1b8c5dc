//! The tree of lines that a store keeps: rows of edits, how high it is then, and what it answers.

ghost use Rattle.std.specs.Prelude.{◌≡◌, ◌<◌, ◌≤◌, length};
ghost use Rattle.line_tree.specs.Trees.{total};

use crate::edits::{PlainStep, edit_of, make, store_of};
use crate::queries::NONE;
use line_tree::{LendsTree, LineTree, TreeStore};
use raw_nodes::Steps;
use std::alloc::{AllocError, Global};
use std::process::Abort;
use std::test::Fail;
use text_model::{Edit, Gravity, Step, StepList, TagSet, TagSlot, Text, TextStore, WORDS};
use toggle_sums::Sums;

const SLOT: TagSlot = TagSlot(64);

// What is asked of a tree at a line, or at a character: two numbers.
#[derive(Clone, Copy)]
enum Query {
    // The number of the line that is found by its name, and how many lines there are.
    Rank,
    // The number of the line after it, which is found by its name, and how many lines there are.
    Next,
    // The line of a character, and the column.
    Locate,
    // The characters of the lines before it, and the marks.
    Count,
    // The lines before it, and 1 where the toggles in them are odd.
    Parity,
    // The next line with a toggle, and the previous one.
    Toggles,
    // The next line with a mark, and the previous one.
    Marks,
}

type Answer = (usize, usize);

// A query, the line or the character that it is asked at, and what is answered.
type Row = (Query, usize, Answer);

// Edits of a new store, how high its tree is then, and what that answers.
struct Case {
    edits: &'static [&'static [PlainStep]],
    height: usize,
    rows: &'static [Row],
}

const ONE_LINE: &[PlainStep] = &[PlainStep::Insert(0, "ab\n", &[])];

// Lines of one character to four.
const TWELVE: &str = "\né\nab\n€x𐍈\n\né\nab\n€x𐍈\n\
    \né\nab\n€x𐍈\n";

// The same, more of them.
const FORTY: &str = "\né\nab\n€x𐍈\n\né\nab\n€x𐍈\n\
    \né\nab\n€x𐍈\n\né\nab\n€x𐍈\n\
    \né\nab\n€x𐍈\n\né\nab\n€x𐍈\n\
    \né\nab\n€x𐍈\n\né\nab\n€x𐍈\n\
    \né\nab\n€x𐍈\n\né\nab\n€x𐍈\n";

static CASES: [Case; 4] = [
    // A line with a toggle, the lone newline, and a line with a mark.
    Case {
        edits: &[
            &[PlainStep::Insert(0, "€x𐍈\n\nab", &[])],
            &[PlainStep::SetTag(0, 8, SLOT, true)],
            &[PlainStep::PutMark(3, 5, Gravity::Left)],
        ],
        height: 1,
        rows: &[
            (Query::Rank, 1, (1, 3)),
            (Query::Next, 1, (2, 3)),
            (Query::Next, 2, (NONE, 3)),
            (Query::Locate, 3, (0, 3)),
            (Query::Locate, 4, (1, 0)),
            (Query::Locate, 5, (2, 0)),
            (Query::Locate, 7, (2, 2)),
            (Query::Count, 2, (5, 0)),
            (Query::Count, 3, (8, 1)),
            (Query::Parity, 0, (0, 0)),
            (Query::Parity, 2, (2, 1)),
            (Query::Toggles, 0, (0, NONE)),
            (Query::Toggles, 1, (NONE, 0)),
            (Query::Marks, 0, (2, NONE)),
            (Query::Marks, 3, (NONE, 2)),
        ],
    },
    // Twelve lines of three characters come before the one line, each by an edit.
    Case {
        edits: &[ONE_LINE; 12],
        height: 2,
        rows: &[
            (Query::Rank, 12, (12, 13)),
            (Query::Next, 6, (7, 13)),
            (Query::Rank, 0, (0, 13)),
            (Query::Locate, 35, (11, 2)),
            (Query::Locate, 36, (12, 0)),
            (Query::Count, 13, (37, 0)),
        ],
    },
    // Of twelve lines more all but the last go, which has a toggle.
    Case {
        edits: &[
            &[PlainStep::Insert(0, TWELVE, &[])],
            &[PlainStep::SetTag(26, 30, SLOT, true)],
            &[PlainStep::Remove(29, 30)],
            &[PlainStep::Remove(1, 26)],
            &[PlainStep::Remove(0, 1)],
        ],
        height: 1,
        rows: &[
            (Query::Count, 1, (4, 0)),
            (Query::Toggles, 0, (0, NONE)),
            (Query::Rank, 0, (0, 1)),
        ],
    },
    // Forty lines before the one line, and then forty in the place of twelve in their middle.
    Case {
        edits: &[
            &[PlainStep::Insert(0, FORTY, &[])],
            &[PlainStep::Remove(50, 80), PlainStep::Insert(50, FORTY, &[])],
            &[
                PlainStep::SetTag(6, 26, SLOT, true),
                PlainStep::SetTag(46, 56, SLOT, true),
                PlainStep::SetTag(76, 96, SLOT, true),
                PlainStep::SetTag(116, 136, SLOT, true),
                PlainStep::SetTag(156, 171, SLOT, true),
            ],
            &[
                PlainStep::PutMark(0, 13, Gravity::Left),
                PlainStep::PutMark(1, 33, Gravity::Left),
                PlainStep::PutMark(2, 63, Gravity::Left),
                PlainStep::PutMark(3, 83, Gravity::Left),
                PlainStep::PutMark(4, 103, Gravity::Left),
                PlainStep::PutMark(5, 123, Gravity::Left),
                PlainStep::PutMark(6, 143, Gravity::Left),
                PlainStep::PutMark(7, 163, Gravity::Left),
            ],
        ],
        height: 2,
        rows: &[
            (Query::Rank, 60, (60, 69)),
            (Query::Locate, 170, (68, 0)),
            (Query::Count, 69, (171, 8)),
            (Query::Parity, 69, (69, 1)),
            (Query::Toggles, 20, (23, 19)),
            (Query::Toggles, 69, (NONE, 63)),
            (Query::Marks, 20, (26, 14)),
            (Query::Marks, 69, (NONE, 66)),
        ],
    },
];

// What is counted of all lines.
fn whole(tree: &LineTree<Steps>, ticks: &mut Steps) -> Sums<WORDS>
    ensures { result ≡ total tree.now.lines }
{
    tree.prefix(tree.len(), ticks)
}

fn rank(tree: &LineTree<Steps>, k: usize, ticks: &mut Steps) -> Answer
    requires { k < length tree.now.lines }
{
    let name = tree.select(k, ticks);
    (tree.rank(name, ticks), tree.len())
}

fn next(tree: &LineTree<Steps>, k: usize, ticks: &mut Steps) -> Answer
    requires { k < length tree.now.lines }
{
    let name = tree.select(k, ticks);
    match tree.next_name(name, ticks) {
        Some(next) => (tree.rank(next, ticks), tree.len()),
        None => (NONE, tree.len()),
    }
}

fn locate(tree: &LineTree<Steps>, offset: usize, ticks: &mut Steps) -> Option<Answer> {
    if whole(tree, ticks).characters() <= offset {
        return None;
    }
    Some(tree.locate(offset, ticks))
}

// What is found by the lines before one.
fn ask_before(tree: &LineTree<Steps>, query: Query, k: usize, ticks: &mut Steps) -> Answer
    requires { k ≤ length tree.now.lines }
{
    let sums = tree.prefix(k, ticks);
    match query {
        Query::Count => (tree.start(k, ticks), sums.marks()),
        _ if tree.is_odd(SLOT, k, ticks) != tree.odd_slots(k, ticks).has(SLOT) => (NONE, NONE),
        _ => (sums.lines(), tree.is_odd(SLOT, k, ticks) as usize),
    }
}

fn toggles(tree: &LineTree<Steps>, k: usize, ticks: &mut Steps) -> Answer
    requires { k ≤ length tree.now.lines }
{
    let next = tree.next_with(SLOT, k, ticks);
    let previous = tree.previous_with(SLOT, k, ticks);
    (next.unwrap_or(NONE), previous.unwrap_or(NONE))
}

fn marks(tree: &LineTree<Steps>, k: usize, ticks: &mut Steps) -> Answer
    requires { k ≤ length tree.now.lines }
{
    let next = tree.next_marked(k, ticks);
    let previous = tree.previous_marked(k, ticks);
    (next.unwrap_or(NONE), previous.unwrap_or(NONE))
}

// What a tree answers, where there is such a line or character.
fn ask(tree: &LineTree<Steps>, query: Query, at: usize) -> Option<Answer> {
    let ticks = &mut Steps::new();
    let len = tree.len();
    match query {
        Query::Rank if at < len => Some(rank(tree, at, ticks)),
        Query::Next if at < len => Some(next(tree, at, ticks)),
        Query::Locate => locate(tree, at, ticks),
        Query::Count | Query::Parity if at <= len => Some(ask_before(tree, query, at, ticks)),
        Query::Toggles if at <= len => Some(toggles(tree, at, ticks)),
        Query::Marks if at <= len => Some(marks(tree, at, ticks)),
        _ => None,
    }
}

fn make_all(
    rt: &impl Abort,
    alloc: Global,
    store: &mut TreeStore,
    edits: &[&[PlainStep]],
) -> Result<(), AllocError> {
    for steps in edits {
        let is_made = make(store, &edit_of(alloc, steps)?)?;
        assert!(rt; is_made);
    }
    Ok(())
}

fn check_rows(rt: &impl Abort, tree: &LineTree<Steps>, rows: &[Row]) {
    for (index, row) in rows.iter().enumerate() {
        assert!(rt; ask(tree, row.0, row.1) == Some(row.2), "row {index}");
    }
}

fn check_case(rt: &impl Abort, alloc: Global, case: &Case) -> Result<(), AllocError> {
    let mut store: TreeStore = store_of(rt, alloc, &[])?;
    make_all(rt, alloc, &mut store, case.edits)?;
    assert!(rt; store.tree().height() == case.height);
    check_rows(rt, store.tree(), case.rows);
    Ok(())
}

fn check_cases(rt: &impl Abort, alloc: Global, cases: &[Case]) -> Result<(), AllocError> {
    for case in cases {
        check_case(rt, alloc, case)?;
    }
    Ok(())
}

#[test]
fn a_tree_answers(rt: HostRuntime) -> Result<(), Fail> {
    check_cases(&rt, rt.alloc(), &CASES)?;
    Ok(())
}

#[test]
fn a_tree_reserves_for_lines(rt: HostRuntime) -> Result<(), Fail> {
    let mut tree: LineTree<Steps> = LineTree::new(rt.alloc())?;
    tree.reserve_for(12)?;
    assert!(rt; tree.height() == 1);
    Ok(())
}

// Lines of one character.
fn many_lines(alloc: Global, count: usize) -> Result<Edit, AllocError> {
    let mut text = String::new(alloc);
    for _ in 0..count {
        text.push('\n')?;
    }
    let mut steps = StepList::new(alloc);
    steps.push(Step::Insert(0, Text::new(text), TagSet::empty()))?;
    Ok(Edit { steps })
}

// With less than 11 children for a node, on average at one of the levels, a tree of three levels has fewer lines.
#[test]
fn a_long_row_of_lines_fills_nodes(rt: HostRuntime) -> Result<(), Fail> {
    let mut store: TreeStore = store_of(&rt, rt.alloc(), &[])?;
    let is_made = make(&mut store, &many_lines(rt.alloc(), 1700)?)?;
    assert!(rt; is_made && store.lines() == 1701 && store.tree().height() == 3);
    assert!(rt; ask(store.tree(), Query::Next, 850) == Some((851, 1701)));
    Ok(())
}
