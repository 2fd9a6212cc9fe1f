//! Indices in four bytes, one of which means none.

ghost use Rattle.std.specs.Prelude.{◌≡◌, ◌<◌, ℕ, None, Some};
ghost use Rattle.std.specs.Option.{IfSome};
ghost use Rattle.prefix_table.specs.declared.node.NodeId.{NodeId};

use crate::node::NodeId;
use std::marker::Model;

/// The number that means none. The indices are those below it, so a trie has at most as many nodes, and values.
pub(crate) const NONE: u32 = u32::MAX;

/// The index of a node, or none.
#[derive(Drop)]
pub(crate) struct Link(u32);

impl Model for Link {
    ghost use Rattle.std.specs.Prelude.{Option};
    ghost use Rattle.prefix_table.specs.declared.node.NodeId.{NodeId};
    ghost use Rattle.prefix_table.specs.Numbers.{node_of_number};

    ghost Value = { Option NodeId };

    ghost view = { λ l. node_of_number l.0 };
}

impl Link {
    /// Leads to this node, if there is one.
    pub(crate) fn new(node: Option<NodeId>) -> Self
        requires { IfSome node (λ at. at.0 < NONE) }
        ensures { result ≡ node }
    {
        match node {
            Some(at) => Link(at.0 as u32),
            None => Link(NONE),
        }
    }

    /// The node that it leads to.
    pub(crate) fn node(&self) -> Option<NodeId>
        ensures { result ≡ self.now }
    {
        if self.0 == NONE {
            None
        } else {
            Some(NodeId(self.0 as usize))
        }
    }

    /// The same once more.
    pub(crate) fn again(&self) -> Self
        ensures { result ≡ self.now }
    {
        Link(self.0)
    }
}

/// The index of a value, or none.
#[derive(Drop)]
pub(crate) struct Place(u32);

impl Model for Place {
    ghost use Rattle.std.specs.Prelude.{Option, ℕ};
    ghost use Rattle.prefix_table.specs.Numbers.{index_of_number};

    ghost Value = { Option ℕ };

    ghost view = { λ p. index_of_number p.0 };
}

impl Place {
    /// Holds this index, if there is one.
    pub(crate) fn new(index: Option<usize>) -> Self
        requires { IfSome index (λ i. i < NONE) }
        ensures { result ≡ index }
    {
        match index {
            Some(i) => Place(i as u32),
            None => Place(NONE),
        }
    }

    /// The index that it holds.
    pub(crate) fn index(&self) -> Option<usize>
        ensures { result ≡ self.now }
    {
        if self.0 == NONE {
            None
        } else {
            Some(self.0 as usize)
        }
    }

    /// The same once more.
    pub(crate) fn again(&self) -> Self
        ensures { result ≡ self.now }
    {
        Place(self.0)
    }
}
