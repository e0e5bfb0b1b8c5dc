//! The maximum number of levels of a tree with a given number of lines.

ghost use Rattle.std.specs.Prelude.{◌≡◌, ◌≤◌};
ghost use Rattle.line_tree.specs.Room.{levels_at_most};

/// How many levels a tree of so many lines has at most: 25, however many they are.
pub fn levels(lines: usize) -> usize
    ensures value { result ≡ levels_at_most lines }
    ensures low { result ≤ 25 }
{
    (lines / 2).max(1).ilog(6) as usize + 1
}
