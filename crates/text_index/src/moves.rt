//! Moves from a place of a view by characters or lines, and to the starts and ends of words and lines.

ghost use Rattle.std.specs.Prelude.{◌≡◌, ◌≤◌, ◌<◌, ◌+◌, ◌-◌, min, length, take, drop};
ghost use Rattle.std.specs.List.{prefix_len, suffix_len};
ghost use Rattle.text_model.specs.Lines.{lines, line_of};
ghost use Rattle.text_index.specs.Parts.{part_of};
ghost use Rattle.text_index.specs.Views.{shown};
ghost use Rattle.text_index.specs.Values.{in_line, column_of, lines_on, lines_back, lines_by, modified};
ghost use Rattle.text_index.specs.Words.{is_word};
ghost use Rattle.index_grammar.specs.declared.indices.Modifier.TheVariants as modifier;

use crate::views::View;
use crate::words::WordTest;
use index_grammar::Direction;
use text_model::TextStore;

/// The place so many characters on, or the end.
pub fn forward<S: TextStore>(view: &View<'_, S>, place: usize, count: usize) -> usize
    ensures value { result ≡ min (place + count) (length (shown (part_of view.now))) }
    ensures bound { view.now.start + result ≤ view.now.end }
{
    place.saturating_add(count).min(view.len())
}

/// The place so many characters back, or the first.
pub fn back(place: usize, count: usize) -> usize
    ensures { result ≡ place - count }
{
    place.saturating_sub(count)
}

/// A character of a line, or its newline where the line is shorter.
fn in_line<S: TextStore>(view: &View<'_, S>, line: usize, character: usize) -> usize
    requires known { line < lines (shown (part_of view.now)) }
    ensures value { result ≡ in_line line character (shown (part_of view.now)) }
    ensures bound { view.now.start + result ≤ view.now.end }
{
    let (start, behind) = view.line_bounds(line).unwrap();
    start.saturating_add(character).min(behind - 1)
}

/// The line of a place, and how many characters stand before it there.
pub fn line_and_column<S: TextStore>(view: &View<'_, S>, place: usize) -> (usize, usize)
    requires within { view.now.start + place ≤ view.now.end }
    ensures line { result.0 ≡ line_of (shown (part_of view.now)) place }
    ensures column { result.1 ≡ column_of (shown (part_of view.now)) place }
{
    let line = view.line_at(place);
    (line.number, place - line.start)
}

/// The same character so many lines on, or on the last line; its newline where that line is shorter. The end stays.
fn lines_on<S: TextStore>(view: &View<'_, S>, place: usize, count: usize) -> usize
    requires within { view.now.start + place ≤ view.now.end }
    ensures value { result ≡ lines_on count (shown (part_of view.now)) place }
    ensures bound { view.now.start + result ≤ view.now.end }
{
    if place == view.len() {
        return place;
    }
    let (line, column) = line_and_column(view, place);
    in_line(
        view,
        line.saturating_add(count).min(view.lines() - 1),
        column,
    )
}

/// The same character so many lines back, or on the first line; its newline where that line is shorter. The end counts
/// as the first character of a line behind the last.
fn lines_back<S: TextStore>(view: &View<'_, S>, place: usize, count: usize) -> usize
    requires within { view.now.start + place ≤ view.now.end }
    ensures value { result ≡ lines_back count (shown (part_of view.now)) place }
    ensures bound { view.now.start + result ≤ view.now.end }
{
    let (line, column) = line_and_column(view, place);
    let back = line.saturating_sub(count);
    if back == view.lines() {
        return view.len();
    }
    in_line(view, back, column)
}

/// The same character so many lines forward or back, or on the last or the first line; its newline where that line is
/// shorter. Forward the end stays; back it counts as the first character of a line behind the last.
pub fn lines_by<S: TextStore>(
    view: &View<'_, S>,
    place: usize,
    direction: Direction,
    count: usize,
) -> usize
    requires within { view.now.start + place ≤ view.now.end }
    ensures value { result ≡ lines_by direction count (shown (part_of view.now))
        place }
    ensures bound { view.now.start + result ≤ view.now.end }
{
    let view = &view.lined();
    match direction {
        Direction::Forward => lines_on(view, place, count),
        Direction::Back => lines_back(view, place, count),
    }
}

/// The begin of the word of a place. The end stays.
pub fn word_start<S: TextStore>(view: &View<'_, S>, place: usize) -> usize
    requires within { view.now.start + place ≤ view.now.end }
    ensures value { result ≡ modified is_word (shown (part_of view.now)) place
        modifier.WordStart }
    ensures bound { view.now.start + result ≤ view.now.end }
{
    if place == view.len() {
        return place;
    }
    // Of a character that makes no words the run begins behind it.
    run_begin(view, place + 1).min(place)
}

/// The place behind the word of a place; but the last place stays, and so does the end.
pub fn word_end<S: TextStore>(view: &View<'_, S>, place: usize) -> usize
    requires within { view.now.start + place ≤ view.now.end }
    ensures value { result ≡ modified is_word (shown (part_of view.now)) place
        modifier.WordEnd }
    ensures bound { view.now.start + result ≤ view.now.end }
{
    let left = view.len() - place;
    if left <= 1 {
        return place;
    }
    run_end(view, place).max(place + 1)
}

/// Where the run of word characters before a place begins.
fn run_begin<S: TextStore>(view: &View<'_, S>, place: usize) -> usize
    requires within { view.now.start + place ≤ view.now.end }
    ensures value { result ≡ place - suffix_len is_word
        (take place (shown (part_of view.now))) }
    ensures bound { view.now.start + result ≤ view.now.end }
{
    let start = view.store.run_start::<WordTest>(view.start + place);
    start.saturating_sub(view.start)
}

/// Where the run of word characters from a place on ends.
fn run_end<S: TextStore>(view: &View<'_, S>, place: usize) -> usize
    requires within { view.now.start + place ≤ view.now.end }
    ensures value { result ≡ place + prefix_len is_word
        (drop place (shown (part_of view.now))) }
    ensures bound { view.now.start + result ≤ view.now.end }
{
    if place == view.len() {
        return place;
    }
    let end = view.store.run_end::<WordTest>(view.start + place);
    end.min(view.end) - view.start
}

/// The first place of a place's line. The end stays.
pub fn line_start<S: TextStore>(view: &View<'_, S>, place: usize) -> usize
    requires within { view.now.start + place ≤ view.now.end }
    ensures value { result ≡ modified is_word (shown (part_of view.now)) place
        modifier.LineStart }
    ensures bound { view.now.start + result ≤ view.now.end }
{
    if place == view.len() {
        return place;
    }
    view.start_at(place)
}

/// The newline of a place's line. The end stays.
pub fn line_end<S: TextStore>(view: &View<'_, S>, place: usize) -> usize
    requires within { view.now.start + place ≤ view.now.end }
    ensures value { result ≡ modified is_word (shown (part_of view.now)) place
        modifier.LineEnd }
    ensures bound { view.now.start + result ≤ view.now.end }
{
    if place == view.len() {
        return place;
    }
    view.behind_at(place) - 1
}
