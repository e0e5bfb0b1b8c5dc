//! Limits of a row of lines that is inserted at once, and the number of nodes it needs.

ghost use Rattle.std.specs.Prelude.{◌≡◌, ◌+◌, ◌*◌, ◌/◌, ◌≤◌};
ghost use Rattle.line_tree.specs.Room.{most_in_row};

/// So many lines at most are put in at once: the lists of their names have that much room.
pub const MOST_IN_ROW: usize = 32_768;

/// Fewer lines than so many are put in one by one, since nodes on their way are not taken apart then.
pub const ROW: usize = 16;

/// How many nodes above so many lines that are put in in a row are made at most, in a tree of so many levels then.
pub fn nodes_above(lines: usize, levels: usize) -> usize
    requires { levels ≤ 25 }
    ensures { result ≡ lines / 11 + (2 * levels + 6) * (lines / most_in_row + 1) }
{
    lines / 11 + (2 * levels + 6) * (lines / MOST_IN_ROW + 1)
}

/// What a row takes besides: as much as the lines of a short one that are put in one by one.
pub fn row_ends(levels: usize) -> usize
    requires { levels ≤ 25 }
    ensures { result ≡ 16 * (levels + 2) }
{
    ROW * (levels + 2)
}
