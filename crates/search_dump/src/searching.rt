//! The query `search`: its switches, and the places at which a pattern matches, as a list.

ghost use Rattle.std.specs.Prelude.{◌≡◌, ◌≤◌, ◌<◌, ◌+◌, ◌^◌, chars, length, max, string_bytes, encode_utf8_all, None};
ghost use Rattle.std.specs.Prelude.{IfOk, IfSome, OnOk};
ghost use Rattle.tcl_words.specs.ListGrowth.{Goes};
ghost use Rattle.tcl_words.specs.ListText.{list_text};
ghost use Rattle.text_index.specs.Views.{shown};
ghost use Rattle.search_dump.specs.Matches.{compared, search_result};
ghost use Rattle.search_dump.specs.Stretches.{first_stretch, left_behind, left_round, left_to_list, next_of};
ghost use Rattle.search_dump.specs.Stretches.{second_stretch, IsBehind};
ghost use Rattle.search_dump.specs.Searched.{nearest_in, listed_in, listed_behind, listed_whole, HasMatchIn};
ghost use Rattle.text_index.specs.Parts.{part_of};

use crate::listing::push_place;
use crate::matching::{Stretch, match_beside, nearest_match};
use crate::patterns::{Pattern, compared};
use std::alloc::{AllocError, Global};
use text_index::{Direction, View};
use text_model::TextStore;

/// Which matches a search answers.
#[derive(Clone, Copy, Debug, PartialEq, Eq)]
pub enum Wanted {
    /// The first in the order of the search.
    First,
    /// All that share no character with one listed before.
    Apart,
    /// All.
    All,
}

/// How a text is searched.
#[derive(Clone, Copy, Debug, PartialEq, Eq)]
pub struct SearchSwitches {
    pub direction: Direction,
    pub wanted: Wanted,
    /// Whether characters are compared by their simple folds.
    pub ignores_case: bool,
    /// Whether the whole match lies between the index and the stop, where a stop is given.
    pub is_strict: bool,
}

impl SearchSwitches {
    /// What is searched first, in a text of so many characters: from the index on, or backwards before it.
    fn first_stretch(self, len: usize, from: usize, stop: Option<usize>) -> Stretch
        ensures { result ≡ first_stretch self len from stop }
    {
        let (low, high) = match self.direction {
            Direction::Forward => (from, stop.unwrap_or(len)),
            Direction::Back => (stop.unwrap_or(0), from),
        };
        let end = if self.is_strict && stop.is_some() {
            high
        } else {
            len
        };
        Stretch { low, high, end }
    }

    /// What is searched then, round the end of the text.
    fn second_stretch(self, len: usize, from: usize) -> Stretch
        ensures { result ≡ second_stretch self.direction len from }
    {
        let (low, high) = match self.direction {
            Direction::Forward => (0, from),
            Direction::Back => (from, len),
        };
        let end = len;
        Stretch { low, high, end }
    }

    /// What is left to list of the stretch round the end, where matches that are listed share no character and the
    /// first one is one of so many characters at a place.
    fn left_round(self, stretch: Stretch, place: usize, len: usize) -> Stretch
        requires { place + len < 2 ^ 64 }
        ensures { result ≡ left_round Wanted.Apart self.direction stretch place len }
    {
        match self.direction {
            Direction::Forward => stretch.up_to(place),
            Direction::Back => stretch.from(place + len),
        }
    }

    /// What is left to list of the stretch round the end, if anything is, where the first match listed before may be
    /// one of so many characters at a place.
    fn left_to_list(self, whole: Stretch, listed: Option<usize>, len: usize) -> Option<Stretch>
        requires { IfSome listed (λ place. place + len < 2 ^ 64) }
        ensures { result ≡ left_to_list self.wanted self.direction whole listed len }
    {
        let Some(place) = listed else {
            return Some(whole);
        };
        match self.wanted {
            Wanted::First => None,
            Wanted::Apart => Some(self.left_round(whole, place, len)),
            Wanted::All => Some(whole),
        }
    }

    /// What is left to list of a stretch behind a match of so many characters at a place.
    fn left_behind(self, stretch: Stretch, place: usize, len: usize) -> Stretch
        requires { place + max len 1 < 2 ^ 64 }
        ensures { result ≡ left_behind self.wanted self.direction stretch place len }
    {
        match (self.wanted, self.direction) {
            (Wanted::Apart, Direction::Forward) => stretch.from(place + len.max(1)),
            (Wanted::Apart, Direction::Back) => stretch.before(place).up_to(place),
            (_, Direction::Forward) => stretch.from(place + 1),
            (_, Direction::Back) => stretch.before(place),
        }
    }
}

/// The next match to list of a stretch, behind the one at a place.
fn next_match<S: TextStore>(
    view: &View<'_, S>,
    pattern: &Pattern<'_>,
    search: SearchSwitches,
    stretch: Stretch,
    place: usize,
) -> Result<Option<usize>, AllocError>
    requires within { stretch.end ≤ length (shown (part_of view.now)) }
    requires matches { HasMatchIn (part_of view.now) pattern.now place }
    requires behind { IsBehind search.direction stretch place }
    ensures { IfOk result (λ next. next ≡ next_of search.wanted
        (nearest_in (part_of view.now) pattern.now search.direction stretch)) }
{
    match search.wanted {
        Wanted::First => Ok(None),
        Wanted::Apart => nearest_match(view, pattern, search.direction, stretch),
        Wanted::All => match_beside(view, pattern, search.direction, stretch, place),
    }
}

/// Lists matches of a stretch from one on.
fn list_from<S: TextStore>(
    list: &mut String,
    view: &View<'_, S>,
    pattern: &Pattern<'_>,
    search: SearchSwitches,
    stretch: Stretch,
    first: Option<usize>,
) -> Result<(), AllocError>
    requires high { stretch.high ≤ length (shown (part_of view.now)) }
    requires within { stretch.end ≤ length (shown (part_of view.now)) }
    requires first { first ≡ nearest_in (part_of view.now) pattern.now search.direction stretch }
    ensures { OnOk result (Goes (string_bytes list.old) (string_bytes list.new)
        (listed_in (part_of view.now) pattern.now search stretch)) }
{
    let mut rest = stretch;
    let mut next = first;
    while let Some(place) = next {
        push_place(list, view, place)?;
        rest = search.left_behind(rest, place, pattern.len);
        next = next_match(view, pattern, search, rest, place)?;
    }
    Ok(())
}

/// Lists matches of a stretch.
fn list_stretch<S: TextStore>(
    list: &mut String,
    view: &View<'_, S>,
    pattern: &Pattern<'_>,
    search: SearchSwitches,
    stretch: Stretch,
) -> Result<(), AllocError>
    requires high { stretch.high ≤ length (shown (part_of view.now)) }
    requires within { stretch.end ≤ length (shown (part_of view.now)) }
    ensures { OnOk result (Goes (string_bytes list.old) (string_bytes list.new)
        (listed_in (part_of view.now) pattern.now search stretch)) }
{
    let first = nearest_match(view, pattern, search.direction, stretch)?;
    list_from(list, view, pattern, search, stretch, first)
}

/// Lists matches of the stretch round the end, where the first match listed before may stand at a place.
fn list_round<S: TextStore>(
    list: &mut String,
    view: &View<'_, S>,
    pattern: &Pattern<'_>,
    search: SearchSwitches,
    from: usize,
    listed: Option<usize>,
) -> Result<(), AllocError>
    requires from { view.now.start + from ≤ view.now.end }
    requires listed { IfSome listed (λ place. place + pattern.now.len ≤ length (shown (part_of view.now))) }
    ensures { OnOk result (Goes (string_bytes list.old) (string_bytes list.new)
        (listed_behind (part_of view.now) pattern.now search from listed)) }
{
    let whole = search.second_stretch(view.len(), from);
    match search.left_to_list(whole, listed, pattern.len) {
        Some(rest) => list_stretch(list, view, pattern, search, rest),
        None => Ok(()),
    }
}

/// Lists matches in the whole text, from a place on and round the end.
fn list_round_whole<S: TextStore>(
    list: &mut String,
    view: &View<'_, S>,
    pattern: &Pattern<'_>,
    search: SearchSwitches,
    from: usize,
) -> Result<(), AllocError>
    requires from { view.now.start + from ≤ view.now.end }
    ensures { OnOk result (Goes (string_bytes list.old) (string_bytes list.new)
        (listed_whole (part_of view.now) pattern.now search from None)) }
{
    let stretch = search.first_stretch(view.len(), from, None);
    let first = nearest_match(view, pattern, search.direction, stretch)?;
    list_from(list, view, pattern, search, stretch, first)?;
    list_round(list, view, pattern, search, from, first)
}

/// Lists the matches of a pattern that is folded where case is ignored.
fn list_matches<S: TextStore>(
    list: &mut String,
    view: &View<'_, S>,
    pattern: &Pattern<'_>,
    search: SearchSwitches,
    from: usize,
    stop: Option<usize>,
) -> Result<(), AllocError>
    requires from { view.now.start + from ≤ view.now.end }
    requires stop { IfSome stop (λ place. view.now.start + place ≤ view.now.end) }
    ensures { OnOk result (Goes (string_bytes list.old) (string_bytes list.new)
        (listed_whole (part_of view.now) pattern.now search from stop)) }
{
    match stop {
        None => list_round_whole(list, view, pattern, search, from),
        Some(place) => {
            let stretch = search.first_stretch(view.len(), from, Some(place));
            list_stretch(list, view, pattern, search, stretch)
        }
    }
}

/// Where a pattern stands in the view (text(n), "search"), as the text of a list of places: from a place on and round
/// the end of the text, or up to a stop if one is given; backwards before the place. A match may begin before the stop
/// and end behind it, if the search isn't strict. An empty pattern stands at each place before the end. No match gives
/// an empty text.
pub fn search<S: TextStore>(
    alloc: Global,
    view: &View<'_, S>,
    search: SearchSwitches,
    pattern: &str,
    from: usize,
    stop: Option<usize>,
) -> Result<String, AllocError>
    requires from { view.now.start + from ≤ view.now.end }
    requires stop { IfSome stop (λ place. view.now.start + place ≤ view.now.end) }
    ensures { IfOk result (λ answer. string_bytes answer ≡ encode_utf8_all (list_text
        (search_result search (chars pattern.now) (shown
        (part_of view.now)) from stop))) }
{
    let pattern = compared(String::from_str(alloc, pattern)?, search.ignores_case)?;
    let pattern = Pattern::new(pattern.as_str(), search.ignores_case);
    let mut list = String::new(alloc);
    list_matches(&mut list, view, &pattern, search, from, stop)?;
    Ok(list)
}
