//! The anchors of a widget, the start and the end of the part of a text that it shows, and how edits move them.

ghost use Rattle.std.specs.Prelude.{◌≡◌, ◌+◌, ◌<◌, ◌≤◌, ◌^◌, IfSome, true, map, option_map};
ghost use Rattle.std.specs.List.{All};
ghost use Rattle.edit_ops.specs.Anchors.{AnchorsStand, anchor_moved, anchors_moved, start_drawn, end_drawn};
ghost use Rattle.edit_ops.specs.Anchors.{anchors_drawn};

/// Where the part of a text that a widget shows begins and ends, in characters from the start of the text, each if it
/// is set (text(n), "-startline" and "-endline"). Anchors stand at starts of lines, or at the length of the text.
#[derive(Clone, Copy, Debug, PartialEq, Eq)]
pub struct Anchors {
    pub start: Option<usize>,
    pub end: Option<usize>,
}

/// Where an anchor stands after so many characters are put in at an offset.
fn anchor_moved(anchor: Option<usize>, at: usize, count: usize, len: usize) -> Option<usize>
    requires stands { IfSome anchor (λ place. place ≤ len) }
    requires fits { len + count < 2 ^ 64 }
    ensures { result ≡ option_map (anchor_moved at count) anchor }
{
    match anchor {
        None => None,
        Some(place) => if at < place {
            Some(place + count)
        } else {
            Some(place)
        },
    }
}

/// Where a start stands after the characters from one offset to another are taken out of a line that begins at `line`.
fn start_drawn(anchor: Option<usize>, line: usize, from: usize, to: usize) -> Option<usize>
    requires { from ≤ to }
    ensures { result ≡ option_map (start_drawn line from to) anchor }
{
    match anchor {
        None => None,
        Some(place) => if place <= from {
            Some(place)
        } else if place <= to {
            Some(line)
        } else {
            Some(place - (to - from))
        },
    }
}

/// Where an end stands after the same, of a widget that begins at `start`; the line after it then begins at `next`.
fn end_drawn(
    anchor: Option<usize>,
    start: usize,
    line: usize,
    next: usize,
    from: usize,
    to: usize,
) -> Option<usize>
    requires { from ≤ to }
    ensures { result ≡ option_map (end_drawn line next start from to) anchor }
{
    match anchor {
        None => None,
        Some(place) => if place <= from {
            Some(place)
        } else if place <= to {
            if start <= from && from != line {
                Some(next)
            } else {
                Some(line)
            }
        } else {
            Some(place - (to - from))
        },
    }
}

impl Anchors {
    /// Where the anchors stand after so many characters are put in at an offset of a text of so many: those
    /// above it move along.
    fn moved(self, at: usize, count: usize, len: usize) -> Anchors
        requires stand { AnchorsStand len self }
        requires fits { len + count < 2 ^ 64 }
        ensures { result ≡ anchors_moved at count self }
    {
        Anchors {
            start: anchor_moved(self.start, at, count, len),
            end: anchor_moved(self.end, at, count, len),
        }
    }

    /// Where the anchors stand after the characters from one offset to another are taken out of a line that begins at
    /// `line`, where the line after it then begins at `next`.
    fn drawn(self, line: usize, next: usize, from: usize, to: usize) -> Anchors
        requires { from ≤ to }
        ensures { result ≡ anchors_drawn line next from to self }
    {
        Anchors {
            start: start_drawn(self.start, line, from, to),
            end: end_drawn(self.end, self.start.unwrap_or(0), line, next, from, to),
        }
    }
}

/// Moves the anchors of all widgets for so many characters that are put in at an offset of a text of so many.
pub fn move_anchors(all: &mut [Anchors], at: usize, count: usize, len: usize)
    requires stand { All (AnchorsStand len) all.old }
    requires fits { len + count < 2 ^ 64 }
    ensures { all.new ≡ map (anchors_moved at count) all.old }
{
    for anchors in all.iter_mut() {
        *anchors = anchors.moved(at, count, len);
    }
}

/// Draws the anchors of all widgets for the characters from one offset to another, which are taken out.
pub fn draw_anchors(all: &mut [Anchors], line: usize, next: usize, from: usize, to: usize)
    requires { from ≤ to }
    ensures { all.new ≡ map (anchors_drawn line next from to) all.old }
{
    for anchors in all.iter_mut() {
        *anchors = anchors.drawn(line, next, from, to);
    }
}

fn stands(anchor: Option<usize>, len: usize) -> bool
    ensures yes { result ≡ true → IfSome anchor (λ place. place ≤ len) }
    ensures no { IfSome anchor (λ place. place ≤ len) → result ≡ true }
{
    match anchor {
        None => true,
        Some(place) => place <= len,
    }
}

impl Anchors {
    fn stand_in(self, len: usize) -> bool
        ensures yes { result ≡ true → AnchorsStand len self }
        ensures no { AnchorsStand len self → result ≡ true }
    {
        stands(self.start, len) && stands(self.end, len)
    }
}

/// Whether no anchor stands behind the end of a text of so many characters.
pub fn anchors_stand(all: &[Anchors], len: usize) -> bool
    ensures yes { result ≡ true → All (AnchorsStand len) all.now }
    ensures no { All (AnchorsStand len) all.now → result ≡ true }
{
    for anchors in all {
        if !anchors.stand_in(len) {
            return false;
        }
    }
    true
}
