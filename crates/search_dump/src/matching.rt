//! Finds the nearest match of a pattern in a stretch of the view, forwards or backwards.

ghost use Rattle.std.specs.Prelude.{◌≡◌, ◌≤◌, ◌<◌, ◌+◌, ◌-◌, ◌&&◌, chars, length, max, min, nat_le, nat_lt};
ghost use Rattle.std.specs.Prelude.{string_bytes, slice_range, IfOk, IsTrue};
ghost use Rattle.search_dump.specs.Matches.{compared};
ghost use Rattle.search_dump.specs.Stretches.{behind_front, beside, front, HasRoom, IsBehind, IsPeriod};
ghost use Rattle.search_dump.specs.Searched.{nearest_in, HasMatchIn};
ghost use Rattle.text_index.specs.Parts.{part_of};
ghost use Rattle.text_index.specs.Views.{shown};

use crate::patterns::{Pattern, Period, compared, nearest_place};
use std::alloc::AllocError;
use text_index::{Direction, View};
use text_model::TextStore;

/// At how many places a match may begin in the text that is read at first, and in the longest that is read at once,
/// where the pattern isn't longer.
const FIRST_READ: usize = 64;

const LONGEST_READ: usize = 8192;

/// Places at which a match may begin, from one to before another, and the place up to which it may go.
#[derive(Clone, Copy)]
pub struct Stretch {
    pub low: usize,
    pub high: usize,
    pub end: usize,
}

impl Stretch {
    /// Those at a place or behind it.
    pub fn from(self, place: usize) -> Stretch
        ensures { result ≡ record self { low = max self.low place } }
    {
        Stretch {
            low: self.low.max(place),
            ..self
        }
    }

    /// Those before a place.
    pub fn before(self, place: usize) -> Stretch
        ensures { result ≡ record self { high = min self.high place } }
    {
        Stretch {
            high: self.high.min(place),
            ..self
        }
    }

    /// Those whose matches go up to a place at most.
    pub fn up_to(self, place: usize) -> Stretch
        ensures { result ≡ record self { end = min self.end place } }
    {
        Stretch {
            end: self.end.min(place),
            ..self
        }
    }

    /// The first so many of them in a direction.
    fn front(self, direction: Direction, count: usize) -> Stretch
        requires { self.low + count ≤ self.high }
        ensures { result ≡ front direction count self }
    {
        match direction {
            Direction::Forward => Stretch {
                high: self.low + count,
                ..self
            },
            Direction::Back => Stretch {
                low: self.high - count,
                ..self
            },
        }
    }

    /// Those behind the first so many in a direction.
    fn behind_front(self, direction: Direction, count: usize) -> Stretch
        requires { self.low + count ≤ self.high }
        ensures { result ≡ behind_front direction count self }
    {
        match direction {
            Direction::Forward => Stretch {
                low: self.low + count,
                ..self
            },
            Direction::Back => Stretch {
                high: self.high - count,
                ..self
            },
        }
    }

    /// The place behind the last at which a match of so many characters may begin.
    fn behind_last(self, len: usize) -> usize
        ensures { result ≡ min self.high (self.end + 1 - len) }
    {
        if self.end < len {
            return 0;
        }
        let last = self.end - len;
        if last < self.high {
            last + 1
        } else {
            self.high
        }
    }

    /// Whether a match of so many characters may begin at a place.
    fn has(self, place: usize, len: usize) -> bool
        ensures { result ≡ (nat_le self.low place && nat_lt place (min self.high (self.end + 1 - len))) }
    {
        self.low <= place && place < self.behind_last(len)
    }
}

/// The characters of the view from one place to another, as they are compared.
fn read<S: TextStore>(
    view: &View<'_, S>,
    from: usize,
    to: usize,
    ignores_case: bool,
) -> Result<String, AllocError>
    requires ordered { from ≤ to }
    requires within { view.now.start + to ≤ view.now.end }
    ensures { IfOk result (λ text. chars (string_bytes text)
        ≡ compared ignores_case (slice_range (shown (part_of view.now)) from to)) }
{
    compared(view.copy_text(from, to)?, ignores_case)
}

/// The match that comes first in a direction, of a stretch that is read at once.
fn nearest_read<S: TextStore>(
    view: &View<'_, S>,
    pattern: &Pattern<'_>,
    direction: Direction,
    stretch: Stretch,
) -> Result<Option<usize>, AllocError>
    requires some { stretch.low < stretch.high }
    requires fits { stretch.high - 1 + pattern.now.len ≤ stretch.end }
    requires within { stretch.end ≤ length (shown (part_of view.now)) }
    ensures { IfOk result (λ found. found ≡ nearest_in (part_of view.now) pattern.now direction stretch) }
{
    let text = read(
        view,
        stretch.low,
        stretch.high - 1 + pattern.len,
        pattern.ignores_case,
    )?;
    match nearest_place(direction, text.as_str(), pattern.text) {
        Some(at) => Ok(Some(stretch.low + at)),
        None => Ok(None),
    }
}

/// The match of a stretch that comes first in a direction. What is read at once grows with the distance.
pub fn nearest_match<S: TextStore>(
    view: &View<'_, S>,
    pattern: &Pattern<'_>,
    direction: Direction,
    stretch: Stretch,
) -> Result<Option<usize>, AllocError>
    requires within { stretch.end ≤ length (shown (part_of view.now)) }
    ensures { IfOk result (λ found. found ≡ nearest_in (part_of view.now) pattern.now direction stretch) }
{
    let mut rest = stretch.before(stretch.behind_last(pattern.len));
    let mut most = FIRST_READ.max(pattern.len);
    while rest.low < rest.high {
        let count = (rest.high - rest.low).min(most);
        let found = nearest_read(view, pattern, direction, rest.front(direction, count))?;
        if found.is_some() {
            return Ok(found);
        }
        rest = rest.behind_front(direction, count);
        most = most.saturating_mul(2).min(LONGEST_READ.max(pattern.len));
    }
    Ok(None)
}

/// Whether a text stands from one place of the view to another.
fn stands<S: TextStore>(
    view: &View<'_, S>,
    text: &str,
    from: usize,
    to: usize,
    ignores_case: bool,
) -> Result<bool, AllocError>
    requires ordered { from ≤ to }
    requires within { view.now.start + to ≤ view.now.end }
    ensures { IfOk result (λ stands. IsTrue stands
        → slice_range (compared ignores_case (shown (part_of view.now))) from to ≡ chars text.now) }
{
    let found = read(view, from, to, ignores_case)?;
    Ok(found.as_str() == text)
}

/// Whether a match goes on in a direction by a period of its pattern, so that another one stands there.
fn goes_on<S: TextStore>(
    view: &View<'_, S>,
    pattern: &Pattern<'_>,
    period: Period<'_>,
    direction: Direction,
    place: usize,
) -> Result<bool, AllocError>
    requires period { IsPeriod (chars pattern.now.text.now) period.len (chars period.front.now)
        (chars period.tail.now) }
    requires matches { HasMatchIn (part_of view.now) pattern.now place }
    requires room { HasRoom direction (shown (part_of view.now)) place pattern.now.len period.len }
    ensures { IfOk result (λ goes_on. IsTrue goes_on →
        HasMatchIn (part_of view.now) pattern.now (beside direction place period.entry.len)) }
{
    match direction {
        Direction::Forward => {
            let from = place + pattern.len;
            stands(
                view,
                period.tail,
                from,
                from + period.len,
                pattern.ignores_case,
            )
        }
        Direction::Back => stands(
            view,
            period.front,
            place - period.len,
            place,
            pattern.ignores_case,
        ),
    }
}

/// The match of a stretch that comes first in a direction, where one stands at the place that the stretch begins
/// behind. It is looked for at the pattern's period first, so that a pattern that repeats itself isn't compared anew at
/// each place.
pub fn match_beside<S: TextStore>(
    view: &View<'_, S>,
    pattern: &Pattern<'_>,
    direction: Direction,
    stretch: Stretch,
    place: usize,
) -> Result<Option<usize>, AllocError>
    requires within { stretch.end ≤ length (shown (part_of view.now)) }
    requires matches { HasMatchIn (part_of view.now) pattern.now place }
    requires behind { IsBehind direction stretch place }
    ensures { IfOk result (λ found. found ≡ nearest_in (part_of view.now) pattern.now direction stretch) }
{
    let Some(period) = pattern.period else {
        return nearest_match(view, pattern, direction, stretch);
    };
    let beside = match direction {
        Direction::Forward => place.checked_add(period.len),
        Direction::Back => place.checked_sub(period.len),
    };
    match beside {
        Some(beside)
            if stretch.has(beside, pattern.len)
                && goes_on(view, pattern, period, direction, place)? => { Ok(Some(beside)) }
        _ => nearest_match(view, pattern, direction, stretch),
    }
}
