//! The line that was sought or replaced last, which is found at once as long as no line comes or goes.

use raw_nodes::NodePtr;

/// A line of a tree: its index, its name, and the offsets at which it begins and ends.
#[derive(Clone, Copy)]
pub struct LastLine {
    pub index: usize,
    pub name: NodePtr,
    pub start: usize,
    pub end: usize,
}
