//! Lists of lines by their calls.

ghost use Rattle.std.specs.Prelude.{◌≡◌, IfOk};
ghost use Rattle.text_tests.specs.Worked.{marked_line, worked_lines};

use line_lists::{LineList, LineVec};
use segments::Line;
use std::alloc::{AllocError, Global};
use std::process::Abort;
use std::test::Fail;
use text_model::{Gravity, MarkNo, Place, TagSlot};

const SLOT: TagSlot = TagSlot(70);

const MARK: MarkNo = MarkNo(3);

// The line `b`, with a toggle and a mark before its newline.
fn marked_line(alloc: Global) -> Result<Line, AllocError>
    ensures { IfOk result (λ line. line ≡ marked_line) }
{
    let mut line = Line::new(alloc, "b\n")?;
    line.set_toggle(1, SLOT, true)?;
    line.put_mark(
        MARK,
        Place {
            offset: 1,
            gravity: Gravity::Left,
        },
    )?;
    Ok(line)
}

// The line `a`, and that one.
fn two_lines(alloc: Global) -> Result<Vec<Line>, AllocError>
    ensures { IfOk result (λ lines. lines.items ≡ worked_lines) }
{
    let mut lines = Vec::with_capacity(alloc, 2)?;
    lines.push(Line::new(alloc, "a\n")?)?;
    lines.push(marked_line(alloc)?)?;
    Ok(lines)
}

// A list of these, in the place of the line of a new one.
fn worked_list<L: LineList>(alloc: Global) -> Result<L, AllocError>
    ensures { IfOk result (λ list. L.lines list ≡ worked_lines) }
{
    let lines = two_lines(alloc)?;
    let mut list = L::new(alloc)?;
    list.reserve(1, 1, 4)?;
    list.splice(0, 1, lines);
    Ok(list)
}

fn check_places<L: LineList>(rt: &impl Abort, list: &L)
    requires { L.lines list.now ≡ worked_lines }
{
    assert!(rt; list.len() == 2);
    assert!(rt; list.locate(1) == (0, 1) && list.locate(2) == (1, 0));
    let line = list.line(1);
    assert!(rt; line.len() == 2 && line.char_at(0) == 'b');
    let (index, column, line) = list.line_at(3);
    assert!(rt; index == 1 && column == 1 && line.len() == 2);
    assert!(rt; list.start(2) == 4 && list.odd_slots(2).has(SLOT) && list.is_odd(SLOT, 2));
    let sums = list.prefix(1);
    assert!(rt; sums.lines() == 1 && sums.characters() == 2 && sums.marks() == 0);
    assert!(rt; list.marks() == 1);
}

fn check_found<L: LineList>(rt: &impl Abort, list: &L)
    requires { L.lines list.now ≡ worked_lines }
{
    assert!(rt; list.next_with(SLOT, 0) == Some(1) && list.next_with(SLOT, 2) == None);
    assert!(rt; list.previous_with(SLOT, 2) == Some(1) && list.previous_with(SLOT, 1) == None);
    assert!(rt; list.next_marked(0) == Some(1) && list.next_marked(2) == None);
    assert!(rt; list.previous_marked(2) == Some(1) && list.previous_marked(1) == None);
    assert!(rt; list.mark_line(MARK) == Some(1) && list.mark_line(MarkNo(2)) == None);
    let marked = list
        .marked_line(MARK)
        .map(|(start, line)| (start, line.len()));
    assert!(rt; marked == Some((2, 2)) && list.marked_line(MarkNo(2)).is_none());
}

// The text of the last line, and then that of both.
fn check_text<L: LineList>(rt: &impl Abort, alloc: Global, list: &L) -> Result<(), AllocError>
    requires { L.lines list.now ≡ worked_lines }
{
    let mut text = String::new(alloc);
    list.push_lines(1, 2, &mut text)?;
    list.push_lines(0, 2, &mut text)?;
    assert!(rt; text.as_str() == "b\na\nb\n");
    Ok(())
}

fn check<L: LineList>(rt: &impl Abort, alloc: Global) -> Result<(), AllocError> {
    let mut list: L = worked_list(alloc)?;
    list.seek_line(1);
    check_places(rt, &list);
    check_text(rt, alloc, &list)?;
    check_found(rt, &list);
    list.take_mark(MARK);
    assert!(rt; list.len() == 2 && list.mark_line(MARK) == None);
    Ok(())
}

#[test]
fn lists_over_vecs(rt: HostRuntime) -> Result<(), Fail> {
    check::<LineVec>(&rt, rt.alloc())?;
    Ok(())
}
