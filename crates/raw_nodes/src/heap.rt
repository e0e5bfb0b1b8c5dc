//! The nodes in blocks of their own, reached by name: it adopts, lends, links and releases them.

ghost use Rattle.raw_nodes.specs.Cells.{IsPlace, NotIn, ats, node_at, nodes_lent, nodes_own, number_in, put_at};
ghost use Rattle.raw_nodes.specs.Cells.{without};
ghost use Rattle.raw_nodes.specs.Chain.{afters_of, befores_of, contents_of};
ghost use Rattle.raw_nodes.specs.Links.{link_name};
ghost use Rattle.raw_nodes.specs.declared.names.NodePtr.{NodePtr};
ghost use Rattle.raw_nodes.specs.contracts.nodes.Node as node;
ghost use Rattle.raw_nodes.specs.declared.nodes.Node.{Node};
ghost use Rattle.std.specs.Coded.{coded_list};
ghost use Rattle.std.specs.Prelude.{◌≡◌, [], ◌∷◌, ◌++◌, IfSome, List, length};

use crate::names::{Link, NodePtr};
use crate::nodes::{Held, Node};
use crate::parts::Parts;
use std::alloc::Global;
use std::marker::Model;

/// Nodes in blocks of their own. It takes no bytes: it says which nodes are owned.
pub struct Heap {
    ghost places: { List NodePtr },
    ghost values: { List Node } by { coded_list node.the_row.coded },
    ghost paired: { length places ≡ length values },
}

impl Model for Heap {
    ghost also_owns = { λ h. nodes_own (ats h.places) h.values };

    ghost also_shares = { λ h _ κ. nodes_lent (ats h.places) h.values κ };
}

impl Heap {
    ghost use Rattle.raw_nodes.specs.Lending.{LendsNode};
    ghost use Rattle.std.specs.Borrow.{sem};

    pub fn new() -> Heap
        ensures { (result.places ≡ []) × (result.values ≡ []) }
    {
        Heap {}
    }

    /// The node of a name.
    // By `requires` and `also_shares`: the heap lends the node at each of its places.
    pub fn node(&self, name: NodePtr) -> &Node
        requires { IsPlace self.now.places name }
        ensures { result.now ≡ node_at self.now.places self.now.values name result.now }
    {
        let at = name.at;
        unsafe { &*at }
    }

    /// The node of a name, to be changed.
    // By `requires` and `also_owns`: the heap owns the node at each of its places, and lends no other meanwhile.
    pub fn node_mut(&mut self, name: NodePtr) -> &mut Node
        requires { IsPlace self.old.places name }
        ensures* writes_back { sem 𝓛 (LendsNode self.entry name result) }
        ensures value { result.now ≡ node_at self.old.places self.old.values name result.now }
    {
        let at = name.at;
        unsafe { &mut *at }
    }

    /// Takes over a node, as the last.
    // By the parts' `also_owns`: the node and the right to free it go from them to the heap.
    pub fn adopt(&mut self, parts: Parts<Node, Global>) -> NodePtr
        ensures places { self.new.places ≡ self.old.places ++ result ∷ [] }
        ensures values { self.new.values ≡ self.old.values ++ parts.value ∷ [] }
        ensures fresh { NotIn (ats self.old.places) result.at }
    {
        let Parts { ptr, alloc: _ } = parts;
        NodePtr { at: ptr }
    }

    /// Gives up a node.
    // By `requires` and `also_owns`: the node and the right to free it go from the heap to the parts.
    pub fn release(&mut self, name: NodePtr, alloc: Global) -> Parts<Node, Global>
        requires { IsPlace self.old.places name }
        ensures places { self.new.places ≡ without self.old.places (number_in self.old.places name) }
        ensures values { self.new.values ≡ without self.old.values (number_in self.old.places name) }
        ensures value { result.value ≡ node_at self.old.places self.old.values name result.value }
    {
        let ptr = name.at;
        Parts { ptr, alloc }
    }

    /// Frees the room of a node, if it is an inner one; what is left of it is a spare.
    pub fn drop_room(&mut self, name: NodePtr)
        requires { IsPlace self.old.places name }
        ensures places { self.new.places ≡ self.old.places }
        ensures befores { befores_of self.new.values ≡ befores_of self.old.values }
    {
        let node = self.node_mut(name);
        if let Held::Inner(..) = node.held {
            node.held = Held::Spare(0);
        }
    }

    /// Links a node, if there is one, to the one after it.
    pub fn link_after(&mut self, name: Option<NodePtr>, after: Link)
        requires { IfSome name (IsPlace self.old.places) }
        ensures places { self.new.places ≡ self.old.places }
        ensures contents { contents_of self.new.values ≡ contents_of self.old.values }
        ensures befores { befores_of self.new.values ≡ befores_of self.old.values }
        ensures afters { afters_of self.new.values
            ≡ put_at self.old.places (afters_of self.old.values) name (link_name after) }
    {
        let Some(name) = name else {
            return;
        };
        self.node_mut(name).after = after;
    }

    /// Links a node, if there is one, to the one before it.
    pub fn link_before(&mut self, name: Option<NodePtr>, before: Link)
        requires { IfSome name (IsPlace self.old.places) }
        ensures places { self.new.places ≡ self.old.places }
        ensures contents { contents_of self.new.values ≡ contents_of self.old.values }
        ensures befores { befores_of self.new.values
            ≡ put_at self.old.places (befores_of self.old.values) name (link_name before) }
        ensures afters { afters_of self.new.values ≡ afters_of self.old.values }
    {
        let Some(name) = name else {
            return;
        };
        self.node_mut(name).before = before;
    }

    /// Ends a heap in which no node is left, which is all that there is to promise: so nothing is lost.
    pub fn finish(self)
        requires { self.places ≡ [] }
    {
        let Heap {} = self;
    }
}
