//! One node of the trie.

ghost use Rattle.std.specs.Prelude.{◌≡◌, ◌<◌, None, length, is_some};
ghost use Rattle.std.specs.Option.{IfSome};
ghost use Rattle.net_prefix.specs.declared.prefix.TheConstants.{MAX_LEN};
ghost use Rattle.prefix_table.specs.declared.link.TheConstants.{NONE};
ghost use Rattle.prefix_table.specs.Trie.{bit_at, child_of, prefix_at, place_at, child_at};

use crate::link::{Link, Place};
use net_prefix::{Addr, Prefix};
use seq::Copied;
use std::alloc::{AllocError, Global};

/// A node's index in the arena.
#[derive(Clone, Copy, Debug, PartialEq, Eq)]
pub(crate) struct NodeId(pub(crate) usize);

/// A prefix, the nodes below its halves, and the place of its value, if it has one. It takes 20 bytes.
#[derive(Drop)]
pub(crate) struct Node {
    pub(crate) prefix: Prefix,
    pub(crate) low: Link,
    pub(crate) high: Link,
    pub(crate) place: Place,
}

impl Node {
    /// A node with no value.
    pub(crate) fn new(prefix: Prefix, low: Option<NodeId>, high: Option<NodeId>) -> Self
        requires low { IfSome low (λ at. at.0 < NONE) }
        requires high { IfSome high (λ at. at.0 < NONE) }
        ensures { result ≡ record { prefix = prefix; low = low; high = high; place = None } }
    {
        Node {
            prefix,
            low: Link::new(low),
            high: Link::new(high),
            place: Place::new(None),
        }
    }

    /// The node below the lower half, or below the upper one.
    pub(crate) fn child(&self, upper: bool) -> Option<NodeId>
        ensures { result ≡ child_of upper self.now }
    {
        if upper {
            self.high.node()
        } else {
            self.low.node()
        }
    }
}

impl Copied for Node {
    fn copy(&self, _alloc: Global) -> Result<Self, AllocError> {
        Ok(Node {
            prefix: self.prefix,
            low: self.low.again(),
            high: self.high.again(),
            place: self.place.again(),
        })
    }
}

/// The prefix of a node.
pub(crate) fn prefix_of(nodes: &[Node], at: NodeId) -> Prefix
    requires { at.0 < length nodes.now }
    ensures { result ≡ prefix_at nodes.now at.0 }
{
    let node = &nodes[at.0];
    node.prefix
}

/// The place of a node's value, if it has one.
pub(crate) fn place_of(nodes: &[Node], at: NodeId) -> Option<usize>
    requires { at.0 < length nodes.now }
    ensures { result ≡ place_at nodes.now at.0 }
{
    let node = &nodes[at.0];
    node.place.index()
}

/// Whether a node has a value.
pub(crate) fn has_value(nodes: &[Node], at: NodeId) -> bool
    requires { at.0 < length nodes.now }
    ensures { result ≡ is_some (place_at nodes.now at.0) }
{
    place_of(nodes, at).is_some()
}

/// The node below a half of a node.
pub(crate) fn child_below(nodes: &[Node], at: NodeId, upper: bool) -> Option<NodeId>
    requires { at.0 < length nodes.now }
    ensures { result ≡ child_at nodes.now upper at.0 }
{
    nodes[at.0].child(upper)
}

/// Whether this bit of the address is set, from 0 for the highest.
pub(crate) fn bit(addr: Addr, index: u8) -> bool
    requires { index < MAX_LEN }
    ensures { result ≡ bit_at addr index }
{
    (addr.0 >> (31 - index)) % 2 == 1
}
