//! The place of a view that an index stands for: the place of its base, moved by each modifier in turn.

ghost use Rattle.std.specs.Prelude.{◌≡◌, suc, ◌≤◌, ◌<◌, ◌+◌, [], ◌∷◌, None, Some, IfOk, IfSome};
ghost use Rattle.text_index.specs.Parts.{part_of};
ghost use Rattle.text_index.specs.Views.{shown, shown_flags, shown_mark};
ghost use Rattle.text_index.specs.Values.{line_value, base_value, modified, modified_by, index_value};
ghost use Rattle.text_index.specs.Values.{read_modified, then_modified};
ghost use Rattle.index_grammar.specs.Grammar.{modifiers_of, tokens_of};
ghost use Rattle.index_grammar.specs.Reading.{HasSlot};
ghost use Rattle.index_grammar.specs.Steps.{saturated};
ghost use Rattle.text_index.specs.Words.{is_word};

use crate::moves::{back, forward, line_end, line_start, lines_by, word_end, word_start};
use crate::ranges::{first_tagged, last_tagged};
use crate::views::View;
use index_grammar::{Base, Direction, Index, IndexFault, Modifier, Unit, next_modifier};
use text_model::{Limits, MarkNo, TextStore};

/// Where the view shows a mark: the widgets' own within its characters, and the shared ones only where they stand in
/// it.
fn shown_mark<S: TextStore>(view: &View<'_, S>, number: MarkNo) -> Option<usize>
    ensures value { result ≡ shown_mark (part_of view.now) number.0 }
    ensures within { IfSome result (λ place. view.now.start + place ≤ view.now.end) }
{
    let place = view.store.mark_place(number)?;
    if number.0 < 2 * Limits::MOST_WIDGETS {
        return Some(
            place
                .offset
                .saturating_sub(view.start)
                .min(view.len().saturating_sub(1)),
        );
    }
    if view.start <= place.offset && place.offset <= view.end {
        Some(place.offset - view.start)
    } else {
        None
    }
}

/// A character of a line, or its newline where the line is shorter; the end for a line behind the last.
#[inline(always)]
fn character_on<S: TextStore>(view: &View<'_, S>, line: usize, character: usize) -> usize
    ensures value { result
        ≡ line_value (suc line) (Some character) (shown (part_of view.now)) }
    ensures bound { view.now.start + result ≤ view.now.end }
{
    match view.line_bounds(line) {
        None => view.len(),
        Some((start, behind)) => start.saturating_add(character).min(behind - 1),
    }
}

/// The newline of a line; the end for a line behind the last.
fn newline_on<S: TextStore>(view: &View<'_, S>, line: usize) -> usize
    ensures value { result ≡ line_value (suc line) None (shown (part_of view.now)) }
    ensures bound { view.now.start + result ≤ view.now.end }
{
    match view.behind_line(line) {
        None => view.len(),
        Some(behind) => behind - 1,
    }
}

/// The place of a line that counts from 1: the first place for line 0, and the end for a line behind the last. The
/// newline of the line, where no character is named or the line is shorter.
#[inline(always)]
fn on_line<S: TextStore>(view: &View<'_, S>, line: usize, character: Option<usize>) -> usize
    ensures value { result ≡ line_value line character (shown (part_of view.now)) }
    ensures bound { view.now.start + result ≤ view.now.end }
{
    if line == 0 {
        return 0;
    }
    match character {
        None => newline_on(view, line - 1),
        // The first place of a view is known without its line.
        Some(0) if line == 1 => 0,
        Some(character) => character_on(view, line - 1, character),
    }
}

/// Where an index begins.
#[inline(always)]
fn base_value<S: TextStore>(view: &View<'_, S>, base: Base) -> Result<usize, IndexFault>
    requires slot { HasSlot base }
    ensures value { result ≡ base_value (shown_mark (part_of view.now))
        (λ slot. shown_flags slot (part_of view.now))
        (shown (part_of view.now)) base }
    ensures within { IfOk result (λ place. view.now.start + place ≤ view.now.end) }
{
    match base {
        Base::At(line, character) => Ok(on_line(view, line, Some(character))),
        Base::LineEnd(line) => Ok(on_line(view, line, None)),
        Base::End => Ok(view.len()),
        Base::Mark(number) => shown_mark(view, number).ok_or(IndexFault::BadIndex),
        Base::First(slot, len) => {
            first_tagged(view, slot).ok_or(IndexFault::NoTaggedCharacters(len))
        }
        Base::Last(slot, len) => {
            last_tagged(view, slot).ok_or(IndexFault::NoTaggedCharacters(len))
        }
    }
}

/// Where a modifier leads from a place.
fn modified<S: TextStore>(view: &View<'_, S>, place: usize, modifier: Modifier) -> usize
    requires within { view.now.start + place ≤ view.now.end }
    ensures value { result ≡ modified is_word (shown (part_of view.now)) place
        modifier }
    ensures within { view.now.start + result ≤ view.now.end }
{
    match modifier {
        Modifier::Forward(Unit::Characters, count) => forward(view, place, count),
        Modifier::Back(Unit::Characters, count) => back(place, count),
        Modifier::Forward(Unit::Lines, count) => lines_by(view, place, Direction::Forward, count),
        Modifier::Back(Unit::Lines, count) => lines_by(view, place, Direction::Back, count),
        Modifier::LineStart => line_start(view, place),
        Modifier::LineEnd => line_end(view, place),
        Modifier::WordStart => word_start(view, place),
        Modifier::WordEnd => word_end(view, place),
    }
}

/// Where a modifier leads from the place that was found, if one was.
fn moved<S: TextStore>(
    view: &View<'_, S>,
    from: Result<usize, IndexFault>,
    modifier: Modifier,
) -> Result<usize, IndexFault>
    requires within { IfOk from (λ place. view.now.start + place ≤ view.now.end) }
    ensures value { result ≡ then_modified is_word (shown (part_of view.now)) (modifier ∷ []) from }
    ensures within { IfOk result (λ place. view.now.start + place ≤ view.now.end) }
{
    match from {
        Ok(place) => Ok(modified(view, place, modifier)),
        Err(fault) => Err(fault),
    }
}

/// Where the modifiers that a text is made of lead from the place that was found, the first first. "bad text index"
/// where the text is made of anything else.
fn read_modified<S: TextStore>(
    view: &View<'_, S>,
    from: Result<usize, IndexFault>,
    text: &[u8],
) -> Result<usize, IndexFault>
    requires within { IfOk from (λ place. view.now.start + place ≤ view.now.end) }
    ensures value { result ≡ read_modified is_word (shown (part_of view.now))
        (saturated (modifiers_of (tokens_of text.now))) from }
    ensures within { IfOk result (λ place. view.now.start + place ≤ view.now.end) }
{
    let mut found = from;
    let mut rest = text;
    while let Some((modifier, behind)) = next_modifier(rest)? {
        found = moved(view, found, modifier);
        rest = behind;
    }
    found
}

/// Returns the place of an index, counted from the start of the view, by its base and the text of its modifiers.
///
/// "bad text index" where a modifier is none, or the index names a mark that the view can't use, and "no tagged
/// characters" where no character of the view has the tag that it names. It allocates nothing.
#[inline(always)]
pub(crate) fn place_of<S: TextStore>(
    view: &View<'_, S>,
    base: Base,
    rest: &[u8],
) -> Result<usize, IndexFault>
    requires slot { HasSlot base }
    ensures value { result ≡ read_modified is_word (shown (part_of view.now))
        (saturated (modifiers_of (tokens_of rest.now)))
        (base_value (shown_mark (part_of view.now)) (λ slot. shown_flags slot (part_of view.now))
        (shown (part_of view.now)) base) }
    ensures within { IfOk result (λ place. view.now.start + place ≤ view.now.end) }
{
    let place = base_value(view, base);
    if rest.is_empty() {
        return place;
    }
    read_modified(view, place, rest)
}

/// The place that an index stands for, counted from the start of the view.
///
/// "bad text index" where it names a mark that the view can't use, and "no tagged characters" where no character of the
/// view has the tag that it names. It takes no memory.
pub fn resolve<S: TextStore>(index: &Index, view: &View<'_, S>) -> Result<usize, IndexFault>
    requires slot { HasSlot index.now.base }
    ensures value { result ≡ index_value is_word (shown_mark (part_of view.now))
        (λ slot. shown_flags slot (part_of view.now))
        (shown (part_of view.now)) index.now.base index.now.modifiers }
    ensures within { IfOk result (λ place. view.now.start + place ≤ view.now.end) }
{
    let place = base_value(view, index.base)?;
    Ok(modified_by(view, place, index.modifiers.as_slice()))
}

/// Where modifiers lead from a place, the first first.
fn modified_by<S: TextStore>(view: &View<'_, S>, from: usize, modifiers: &[Modifier]) -> usize
    requires within { view.now.start + from ≤ view.now.end }
    ensures value { result ≡ modified_by is_word (shown (part_of view.now))
        modifiers.now from }
    ensures within { view.now.start + result ≤ view.now.end }
{
    let mut place = from;
    for modifier in modifiers {
        place = modified(view, place, *modifier);
    }
    place
}
