//! Names of nodes, which are pointers to their blocks, and links, which are names or null.

ghost use Rattle.std.specs.Prelude.{◌≡◌, None, is_some};
ghost use denote.RawPtr.{block_of, block_ptr, count_of};

use crate::nodes::Node;
use std::ptr::{NonNull, null_mut};

/// A name of a node: where its block begins. It takes 8 bytes.
#[derive(Clone, Copy)]
pub struct NodePtr {
    pub(crate) at: *mut Node,
    ghost start: { at ≡ block_ptr (block_of at) 0 },
}

/// A name, or none, in 8 bytes.
#[derive(Clone, Copy)]
pub struct Link {
    at: *mut Node,
    ghost start: { count_of at ≡ 0 },
}

impl Link {
    ghost use Rattle.raw_nodes.specs.Links.{link_name};

    // By `start`: null is 0 bytes into no block.
    pub fn none() -> Link
        ensures { link_name result ≡ None }
    {
        Link { at: null_mut() }
    }

    // By `start` of the name: a block's beginning.
    pub fn of(name: Option<NodePtr>) -> Link
        ensures { link_name result ≡ name }
    {
        let Some(name) = name else {
            return Link::none();
        };
        Link { at: name.at }
    }

    pub fn is_name(&self) -> bool
        ensures { result ≡ is_some (link_name self.now) }
    {
        self.name().is_some()
    }

    // By `start`: a pointer to a block's beginning, or to none, may be compared with null.
    pub fn name(self) -> Option<NodePtr>
        ensures { result ≡ link_name self }
    {
        match NonNull::new(self.at) {
            Some(found) => Some(NodePtr { at: found.as_ptr() }),
            None => None,
        }
    }
}
