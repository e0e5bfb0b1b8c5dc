//! The list of lines over the balanced tree, with the name of each mark's line.

ghost use Rattle.std.specs.Prelude.{◌≡◌, ◌<◌, IfSome, length, take};
ghost use Rattle.line_lists.specs.Lists.{AreLines};
ghost use Rattle.line_lists.specs.RowLaws.{AreLines-prop};
ghost use Rattle.line_lists.specs.Texts.{whole};
ghost use Rattle.line_tree.specs.LastLines.{IsThere, IsThere-prop};
ghost use Rattle.line_tree.specs.MarkTable.{IsTable, IsTable-prop};
ghost use Rattle.line_tree.specs.Places.{IsLineAt};
ghost use Rattle.line_tree.specs.Room.{HasRoom};
ghost use Rattle.line_tree.specs.Trees.{contents};

use crate::last_line::LastLine;
use crate::mark_names::{forget, grow, name_of, note, write};
use crate::moving::move_mark;
use crate::starts::Placed;
use crate::tree::LineTree;
use line_lists::LineList;
use raw_nodes::{NodePtr, Steps};
use segments::{Line, LineEdit};
use std::alloc::{AllocError, Global};
use text_model::{MarkNo, Place, TagSet, TagSlot, WORDS};
use toggle_sums::Sums;

/// The lines of a text as a balanced tree, and for each mark the name of its line.
#[derive(Drop)]
pub struct TreeLines {
    tree: LineTree<Steps>,
    /// By the number of a mark.
    names: Vec<Option<NodePtr>>,
    /// The line that was sought or replaced last, unless a line came or went since.
    last: Option<LastLine>,
    ghost are_lines: { AreLines (contents tree.lines) } by { AreLines-prop (contents tree.lines) },
    ghost table: { IsTable names.items tree.lines } by { IsTable-prop names.items tree.lines },
    ghost remembered: { IfSome last (IsThere tree.lines) } by { IsThere-prop tree.lines last },
}

impl TreeLines {
    /// The tree, lent.
    pub fn tree(&self) -> &LineTree<Steps>
        ensures lines { contents result.now.lines ≡ contents self.now.tree.lines }
        ensures are { AreLines (contents result.now.lines) }
    {
        &self.tree
    }

    /// The name of a line by its index, which is looked for where it isn't the one that is remembered.
    fn name(&self, index: usize) -> NodePtr
        requires { index < length self.now.tree.lines }
        ensures { IsLineAt self.now.tree.lines index result }
    {
        match self.last {
            Some(last) if last.index == index => last.name,
            _ => self.tree.select(index, &mut Steps::new()),
        }
    }

    /// The same with where the line begins.
    fn place(&self, index: usize) -> Placed
        requires { index < length self.now.tree.lines }
        ensures name { IsLineAt self.now.tree.lines index result.name }
        ensures start { result.start ≡ length (whole (take index (contents self.now.tree.lines))).columns }
    {
        match self.last {
            Some(last) if last.index == index => Placed {
                name: last.name,
                start: last.start,
            },
            _ => self.tree.place(index, &mut Steps::new()),
        }
    }
}

/// The name of line `k`: what a walk found where it came to the line, else it is looked for.
fn name_at(tree: &LineTree<Steps>, k: usize, found: Option<NodePtr>) -> NodePtr
    requires within { k < length tree.now.lines }
    requires found { IfSome found (IsLineAt tree.now.lines k) }
    ensures { IsLineAt tree.now.lines k result }
{
    match found {
        Some(name) => name,
        None => tree.select(k, &mut Steps::new()),
    }
}

impl LineList for TreeLines {
    ghost lines = { λ list. contents list.tree.lines };

    ghost has_room = { λ list. HasRoom list.tree };

    ghost mark_room = { λ list. length list.names.items };

    ghost are_lines = { λ list. list.are_lines };

    fn new(alloc: Global) -> Result<TreeLines, AllocError> {
        Ok(TreeLines {
            tree: LineTree::new(alloc)?,
            names: Vec::new(alloc),
            last: None,
        })
    }

    fn len(&self) -> usize {
        self.tree.len()
    }

    fn line(&self, index: usize) -> &Line {
        self.tree.line(self.name(index))
    }

    fn placed_line(&self, index: usize) -> (usize, &Line) {
        let placed = self.place(index);
        (placed.start, self.tree.line(placed.name))
    }

    fn locate(&self, offset: usize) -> (usize, usize) {
        self.tree.locate(offset, &mut Steps::new())
    }

    fn seek(&mut self, offset: usize) -> (usize, usize) {
        if let Some(last) = self.last {
            if last.start <= offset && offset < last.end {
                return (last.index, offset - last.start);
            }
        }
        let found = self.tree.locate_line(offset, &mut Steps::new());
        let start = offset - found.column;
        self.last = Some(LastLine {
            index: found.line,
            name: found.name,
            start,
            end: start + self.tree.line(found.name).len(),
        });
        (found.line, found.column)
    }

    fn seek_line(&mut self, index: usize) {
        if let Some(last) = self.last {
            if last.index == index {
                return;
            }
        }
        if index < self.tree.len() {
            let Placed { name, start } = self.tree.place(index, &mut Steps::new());
            self.last = Some(LastLine {
                index,
                name,
                start,
                end: start + self.tree.line(name).len(),
            });
        }
    }

    fn line_at(&self, offset: usize) -> (usize, usize, &Line) {
        if let Some(last) = self.last {
            if last.start <= offset && offset < last.end {
                return (last.index, offset - last.start, self.tree.line(last.name));
            }
        }
        let found = self.tree.locate_line(offset, &mut Steps::new());
        (found.line, found.column, self.tree.line(found.name))
    }

    fn start(&self, line: usize) -> usize {
        match self.last {
            Some(last) if last.index + 1 == line => last.end,
            _ => self.tree.start(line, &mut Steps::new()),
        }
    }

    fn odd_slots(&self, line: usize) -> TagSet {
        self.tree.odd_slots(line, &mut Steps::new())
    }

    fn is_odd(&self, slot: TagSlot, line: usize) -> bool {
        self.tree.is_odd(slot, line, &mut Steps::new())
    }

    fn prefix(&self, count: usize) -> Sums<WORDS> {
        self.tree.prefix(count, &mut Steps::new())
    }

    fn marks(&self) -> usize {
        self.tree.marks(&mut Steps::new())
    }

    fn is_bare(&self) -> bool {
        self.tree.is_bare(&mut Steps::new())
    }

    fn next_with(&self, slot: TagSlot, from: usize) -> Option<usize> {
        self.tree.next_with(slot, from, &mut Steps::new())
    }

    fn previous_with(&self, slot: TagSlot, to: usize) -> Option<usize> {
        self.tree.previous_with(slot, to, &mut Steps::new())
    }

    fn next_marked(&self, from: usize) -> Option<usize> {
        self.tree.next_marked(from, &mut Steps::new())
    }

    fn previous_marked(&self, to: usize) -> Option<usize> {
        self.tree.previous_marked(to, &mut Steps::new())
    }

    fn mark_line(&self, number: MarkNo) -> Option<usize> {
        let name = name_of(&self.names, number)?;
        Some(self.tree.rank(name, &mut Steps::new()))
    }

    fn marked_line(&self, number: MarkNo) -> Option<(usize, &Line)> {
        if let Some(last) = self.last {
            let line = self.tree.line(last.name);
            if line.mark_place(number).is_some() {
                return Some((last.start, line));
            }
        }
        let name = name_of(&self.names, number)?;
        let start = self.tree.start_of(name, &mut Steps::new());
        Some((start, self.tree.line(name)))
    }

    fn push_lines(&self, from: usize, to: usize, text: &mut String) -> Result<(), AllocError> {
        let mut next = None;
        for index in from..to {
            // The first line alone is found from the root.
            let name = name_at(&self.tree, index, next);
            let line = self.tree.line(name);
            line.push_text(0, line.len(), text)?;
            next = self.tree.next_name(name, &mut Steps::new());
        }
        Ok(())
    }

    fn reserve(&mut self, count: usize, rows: usize, numbers: usize) -> Result<(), AllocError> {
        self.tree.reserve_for_rows(count, rows)?;
        grow(&mut self.names, numbers)
    }

    fn free_room(&mut self) {
        self.tree.free_spares();
    }

    fn take_mark(&mut self, number: MarkNo) {
        if let Some(name) = name_of(&self.names, number) {
            self.tree.take_mark_named(name, number, &mut Steps::new());
            self.names[number.0 as usize] = None;
        }
    }

    // The line is looked for once. A splice looks for it to forget what marks it had, to put the new one in, and to
    // note what marks that has.
    fn replace(&mut self, index: usize, line: Line) {
        let Placed { name, start } = self.place(index);
        let end = start + line.len();
        write(&mut self.names, self.tree.line(name), None);
        write(&mut self.names, &line, Some(name));
        self.tree.replace_named(name, line, &mut Steps::new());
        self.last = Some(LastLine {
            index,
            name,
            start,
            end,
        });
    }

    fn edit_line<E: LineEdit>(&mut self, index: usize, edit: &E) -> Result<(), AllocError> {
        let Placed { name, start } = self.place(index);
        self.tree.edit_named(name, edit, &mut Steps::new())?;
        let end = start + self.tree.line(name).len();
        self.last = Some(LastLine {
            index,
            name,
            start,
            end,
        });
        Ok(())
    }

    fn move_mark(&mut self, number: MarkNo, index: usize, place: Place) -> Result<(), AllocError> {
        let Placed { name, start } = self.place(index);
        grow(&mut self.names, number.0 as usize + 1)?;
        move_mark(&mut self.tree, &self.names, number, name, place)?;
        self.names[number.0 as usize] = Some(name);
        let end = start + self.tree.line(name).len();
        self.last = Some(LastLine {
            index,
            name,
            start,
            end,
        });
        Ok(())
    }

    fn splice(&mut self, from: usize, count: usize, mut new: Vec<Line>) {
        if count == 1 && new.len() == 1 {
            let line = new.pop().unwrap();
            self.replace(from, line);
            return;
        }
        self.last = None;
        let end = from + new.len();
        forget(&self.tree, &mut self.names, from, from + count);
        self.tree.splice(from, count, new, &mut Steps::new());
        note(&self.tree, &mut self.names, from, end);
    }
}
