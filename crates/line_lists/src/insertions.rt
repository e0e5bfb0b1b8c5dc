//! Inserts text into a draft, and splits it into lines at its newlines.

ghost use Rattle.std.specs.Prelude.{◌≡◌, ◌+◌, ◌<◌, ◌≤◌, ◌^◌, ◌++◌, IfNone, IfSome, IfOk, OnOk, chars, length};
ghost use Rattle.text_model.specs.Lines.{lines};
ghost use Rattle.segments.specs.Columns.{after_text, line_before, line_behind, plain_line};
ghost use Rattle.line_lists.specs.DraftTexts.{IsTextIn, place_in, text_in};
ghost use Rattle.line_lists.specs.Insertions.{IsOpen, IsPartly, Opens};
ghost use Rattle.line_lists.specs.Lists.{IsLine};

use crate::drafts::{Copied, Draft, Found, Stop};
use crate::lists::LineList;
use crate::newlines::find_newline;
use segments::Line;
use std::alloc::AllocError;

/// The number of lines of a long text from which the number of all its lines is estimated.
const SAMPLE: usize = 512;

/// The minimum length of a line, in bytes, in an estimate: a text whose first lines are empty otherwise reserves many
/// times what it needs.
const SHORT: usize = 8;

/// Estimates the number of lines in `ahead` bytes that follow the first `SAMPLE` lines, `passed` bytes, and adds some.
fn lines_ahead(passed: usize, ahead: usize) -> usize {
    let count = ahead / (passed / SAMPLE).max(SHORT);
    count.saturating_add(count / 16)
}

/// The first line of a text with its newline, and the text behind it; nothing where there is no newline.
pub fn cut_line(text: &str) -> Option<(&str, &str)>
    ensures line { IfSome result (λ parts. IsLine (plain_line (chars parts.0.now))) }
    ensures parts { IfSome result (λ parts. chars text.now ≡ chars parts.0.now ++ chars parts.1.now) }
    ensures less { IfSome result (λ parts. length parts.1.now < length text.now) }
    ensures none { IfNone result (lines (chars text.now) ≡ 0) }
{
    let newline = find_newline(text.as_bytes());
    if newline == text.len() {
        return None;
    }
    Some(text.split_at(newline + 1))
}

/// Puts a text in before the character at a column of a line, takes what is behind the text off, and hands it out.
fn insert_and_cut(line: &mut Line, column: usize, text: &str) -> Result<Line, AllocError>
    requires { column ≤ length line.old.columns }
    ensures head { OnOk result (line.new
        ≡ line_before (column + length (chars text.now)) (after_text column (chars text.now) line.old)) }
    ensures tail { IfOk result (λ tail. tail
        ≡ line_behind (column + length (chars text.now)) (after_text column (chars text.now) line.old)) }
{
    let behind = line.len() - column;
    line.insert_text(column, text)?;
    let end = line.len() - behind;
    line.cut(end)
}

impl<'a, L: LineList> Draft<'a, L> {
    /// Puts a line with its newline in before the character at an offset, and cuts the text's line behind it: the place
    /// stands there then.
    fn split(&mut self, offset: usize, text: &str) -> Result<(), AllocError>
        requires is { IsTextIn L.lines self.old }
        requires within { offset < length (text_in L.lines self.old).columns }
        requires line { IsLine (plain_line (chars text.now)) }
        requires counted { length (text_in L.lines self.old).columns + length (chars text.now) < 2 ^ 64 }
        ensures list { self.new.list.now ≡ self.old.list.now }
        ensures opens { OnOk result
            (Opens (L.lines self.new.list.now) self.new.front.items self.new.back.items offset (chars text.now)
            (text_in L.lines self.old)) }
    {
        let Found { mut stop, column } = self.take(offset)?;
        self.back.reserve(1)?;
        let line = insert_and_cut(&mut stop.copy.line, column, text)?;
        self.front.push_reserved(stop);
        self.back.push_reserved(Copied {
            kept: 0,
            gone: 0,
            line,
        });
        Ok(())
    }

    /// Puts a line with its newline in at the place, which stands behind it then.
    fn put_line(&mut self, text: &str) -> Result<(), AllocError>
        requires is { IsOpen (L.lines self.old.list.now) self.old.front.items self.old.back.items }
        requires line { IsLine (plain_line (chars text.now)) }
        requires counted { length (text_in L.lines self.old).columns + length (chars text.now) < 2 ^ 64 }
        ensures list { self.new.list.now ≡ self.old.list.now }
        ensures opens { OnOk result
            (Opens (L.lines self.new.list.now) self.new.front.items self.new.back.items (place_in L.lines self.old)
            (chars text.now) (text_in L.lines self.old)) }
    {
        self.front.reserve(1)?;
        let reached = self.reached();
        let copy = Copied {
            kept: 0,
            gone: 0,
            line: Line::new(self.alloc, text)?,
        };
        self.front.push_reserved(Stop {
            reached,
            start: reached.characters,
            copy,
        });
        Ok(())
    }

    /// Makes room for the lines of a long text behind the first of them, once these are there.
    fn reserve_ahead(&mut self, count: usize, passed: usize, ahead: usize) -> Result<(), AllocError>
        ensures list { self.new.list.now ≡ self.old.list.now }
        ensures front { self.new.front.items ≡ self.old.front.items }
        ensures back { self.new.back.items ≡ self.old.back.items }
    {
        if count == SAMPLE {
            self.front.reserve_exact(lines_ahead(passed, ahead))?;
        }
        Ok(())
    }

    /// Puts the lines of a text that end in a newline in at the place, and gives what is behind them.
    fn put_lines<'t>(&mut self, text: &'t str) -> Result<&'t str, AllocError>
        requires is { IsOpen (L.lines self.old.list.now) self.old.front.items self.old.back.items }
        requires counted { length (text_in L.lines self.old).columns + length (chars text.now) < 2 ^ 64 }
        ensures list { self.new.list.now ≡ self.old.list.now }
        ensures partly { IfOk result
            (λ rest. IsPartly (L.lines self.new.list.now) self.new.front.items self.new.back.items
            (place_in L.lines self.old) (chars text.now) (chars rest.now) (text_in L.lines self.old)) }
        ensures free { IfOk result (λ rest. lines (chars rest.now) ≡ 0) }
    {
        let mut rest = text;
        let mut count = 0;
        while let Some((line, behind)) = cut_line(rest) {
            self.reserve_ahead(count, text.len() - rest.len(), rest.len())?;
            self.put_line(line)?;
            rest = behind;
            count += 1;
        }
        Ok(rest)
    }

    /// Puts a text in at the place.
    fn put_text(&mut self, text: &str) -> Result<(), AllocError>
        requires is { IsOpen (L.lines self.old.list.now) self.old.front.items self.old.back.items }
        requires counted { length (text_in L.lines self.old).columns + length (chars text.now) < 2 ^ 64 }
        ensures list { self.new.list.now ≡ self.old.list.now }
        ensures is { OnOk result (IsTextIn L.lines self.new) }
        ensures new { OnOk result (text_in L.lines self.new
            ≡ after_text (place_in L.lines self.old) (chars text.now) (text_in L.lines self.old)) }
    {
        let last = self.put_lines(text)?;
        if last.is_empty() {
            return Ok(());
        }
        let offset = self.reached().characters;
        self.insert_within(offset, last)
    }

    /// Puts a text in before the character at an offset.
    pub fn insert(&mut self, offset: usize, text: &str) -> Result<(), AllocError>
        requires is { IsTextIn L.lines self.old }
        requires within { offset < length (text_in L.lines self.old).columns }
        requires counted { length (text_in L.lines self.old).columns + length (chars text.now) < 2 ^ 64 }
        ensures list { self.new.list.now ≡ self.old.list.now }
        ensures is { OnOk result (IsTextIn L.lines self.new) }
        ensures new { OnOk result (text_in L.lines self.new
            ≡ after_text offset (chars text.now) (text_in L.lines self.old)) }
    {
        match cut_line(text) {
            None => self.insert_within(offset, text),
            Some((line, rest)) => {
                self.split(offset, line)?;
                self.put_text(rest)
            }
        }
    }
}
