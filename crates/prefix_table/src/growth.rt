//! New nodes of the trie. They take no memory: the room for them is made before.

ghost use Rattle.std.specs.Prelude.{◌≡◌, ◌+◌, ◌<◌, ◌≤◌, ◌≢◌, ◌++◌, ◌∷◌, [], length, Some, OnOk, OnErr, vec_len, vec_capacity};
ghost use Rattle.std.specs.Option.{IfSome, IfNone};
ghost use Rattle.std.specs.FinMap as map;
ghost use Rattle.net_prefix.specs.Prefix.{Covers};
ghost use Rattle.net_prefix.specs.declared.prefix.TheConstants.{MAX_LEN};
ghost use Rattle.prefix_table.specs.declared.link.TheConstants.{NONE};
ghost use Rattle.prefix_table.specs.declared.node.NodeId.{NodeId};
ghost use Rattle.prefix_table.specs.Numbers.{HasRoom};
ghost use Rattle.prefix_table.specs.Places.{prefix_around};
ghost use Rattle.prefix_table.specs.Trie.{bit_at, IsTrie, IsClosest, IsGap, IsLeafOf, HasPrefix, prefix_at, prefixes, node_places, places_in, linked, placed};

use crate::cut::cut;
use crate::gather::make_room;
use crate::link::{Link, Place};
use crate::node::{Node, NodeId, bit, child_below, prefix_of};
use net_prefix::{Addr, Prefix};
use std::alloc::AllocError;

/// How many nodes an insert makes at most, but for the first of all.
pub(crate) const NEW_NODES: u32 = 2;

/// How many first bits two prefixes share, when they share this many.
fn shared(first: Prefix, second: Prefix, from: u8) -> u8
    requires covers { Covers (prefix_around first.addr from) second }
    requires short { from ≤ first.len }
    ensures short { result ≤ first.len }
    ensures both { Covers (prefix_around first.addr result) second }
    ensures long { from ≤ result }
    ensures differ { result < first.len → result < second.len → bit_at first.addr result ≢ bit_at second.addr result }
{
    let mut len = from;
    while len < first.len()
        && len < second.len()
        && bit(first.addr(), len) == bit(second.addr(), len)
    {
        len += 1;
    }
    len
}

/// The child, if it lies in this half of a prefix of this length.
fn on_side(nodes: &[Node], child: Option<NodeId>, len: u8, upper: bool) -> Option<NodeId>
    requires { IfSome child (λ k. (k.0 < length nodes.now) × (len < MAX_LEN)) }
    ensures some { IfSome result (λ k. (child ≡ Some k) × (bit_at (prefix_at nodes.now k.0).addr len ≡ upper)) }
    ensures none { IfNone result ((k : NodeId) → child ≡ Some k → bit_at (prefix_at nodes.now k.0).addr len ≡ upper →
        ⊥) }
{
    match child {
        None => None,
        Some(below) => {
            if bit(prefix_of(nodes, below).addr(), len) == upper {
                Some(below)
            } else {
                None
            }
        }
    }
}

/// Sets the child below a half of a node.
fn link(nodes: &mut Vec<Node>, at: NodeId, upper: bool, child: NodeId)
    requires here { at.0 < length nodes.old.items }
    requires number { child.0 < NONE }
    ensures linked { nodes.new.items ≡ linked nodes.old.items at.0 upper child }
    ensures len { vec_len nodes.new ≡ vec_len nodes.old }
    ensures capacity { vec_capacity nodes.new ≡ vec_capacity nodes.old }
{
    let node = &mut nodes[at.0];
    if upper {
        node.high = Link::new(Some(child));
    } else {
        node.low = Link::new(Some(child));
    }
}

/// Puts a node with no value between a node and those in one of its halves.
fn splice(nodes: &mut Vec<Node>, parent: NodeId, upper: bool, prefix: Prefix) -> NodeId
    requires trie { IsTrie nodes.old.items }
    requires here { parent.0 < length nodes.old.items }
    requires gap { IsGap nodes.old.items (prefix_at nodes.old.items parent.0) upper prefix }
    requires room { HasRoom nodes.old 1 }
    ensures trie { IsTrie nodes.new.items }
    ensures places { node_places nodes.new.items ≡ node_places nodes.old.items }
    ensures prefixes { prefixes nodes.new.items ≡ prefixes nodes.old.items ++ prefix ∷ [] }
    ensures last { result.0 ≡ length nodes.old.items }
    ensures found { HasPrefix nodes.new.items result.0 prefix }
    ensures len { vec_len nodes.new ≡ vec_len nodes.old + 1 }
    ensures capacity { vec_capacity nodes.new ≡ vec_capacity nodes.old }
{
    let id = NodeId(nodes.len());
    let below = child_below(nodes, parent, upper);
    let low = on_side(nodes, below, prefix.len(), false);
    let high = on_side(nodes, below, prefix.len(), true);
    nodes.push_reserved(Node::new(prefix, low, high));
    link(nodes, parent, upper, id);
    id
}

/// Puts a branch between a node and those in one of its halves, and a leaf into the branch's empty half.
fn fork(nodes: &mut Vec<Node>, parent: NodeId, upper: bool, branch: Prefix, leaf: Prefix) -> NodeId
    requires trie { IsTrie nodes.old.items }
    requires here { parent.0 < length nodes.old.items }
    requires gap { IsGap nodes.old.items (prefix_at nodes.old.items parent.0) upper branch }
    requires leaf { IsLeafOf nodes.old.items branch leaf }
    requires room { HasRoom nodes.old NEW_NODES }
    ensures trie { IsTrie nodes.new.items }
    ensures places { node_places nodes.new.items ≡ node_places nodes.old.items }
    ensures found { HasPrefix nodes.new.items result.0 leaf }
{
    let middle = splice(nodes, parent, upper, branch);
    splice(nodes, middle, bit(leaf.addr(), branch.len()), leaf)
}

/// The node of the prefix, made where it is missing. The node that comes closest is known.
fn grow(nodes: &mut Vec<Node>, near: NodeId, prefix: Prefix) -> NodeId
    requires trie { IsTrie nodes.old.items }
    requires near { IsClosest nodes.old.items prefix near.0 }
    requires room { HasRoom nodes.old NEW_NODES }
    ensures trie { IsTrie nodes.new.items }
    ensures places { node_places nodes.new.items ≡ node_places nodes.old.items }
    ensures found { HasPrefix nodes.new.items result.0 prefix }
{
    let from = prefix_of(nodes, near);
    if from.len() >= prefix.len() {
        return near;
    }
    let upper = bit(prefix.addr(), from.len());
    match child_below(nodes, near, upper) {
        None => splice(nodes, near, upper, prefix),
        Some(below) => {
            let len = shared(prefix, prefix_of(nodes, below), from.len());
            if len == prefix.len() {
                splice(nodes, near, upper, prefix)
            } else {
                fork(nodes, near, upper, cut(prefix.addr(), len), prefix)
            }
        }
    }
}

/// Puts the node that covers all into an empty trie. Only there it can want memory.
pub(crate) fn plant(nodes: &mut Vec<Node>) -> Result<(), AllocError>
    requires { IsTrie nodes.old.items }
    ensures trie { IsTrie nodes.new.items }
    ensures places { places_in nodes.new.items ≡ places_in nodes.old.items }
    ensures some { OnOk result (0 < length nodes.new.items) }
    ensures empty { OnErr result (nodes.old.items ≡ []) }
{
    if nodes.is_empty() {
        make_room(nodes, 1)?;
        nodes.push_reserved(Node::new(cut(Addr(0), 0), None, None));
    }
    Ok(())
}

/// Gives a node this place.
fn set_place(nodes: &mut Vec<Node>, at: NodeId, place: usize)
    requires here { at.0 < length nodes.old.items }
    requires number { place < NONE }
    ensures { nodes.new.items ≡ placed nodes.old.items at.0 place }
{
    let node = &mut nodes[at.0];
    node.place = Place::new(Some(place));
}

/// Gives the prefix this place. The node that comes closest to it is known.
pub(crate) fn put_place(nodes: &mut Vec<Node>, near: NodeId, prefix: Prefix, place: usize)
    requires trie { IsTrie nodes.old.items }
    requires near { IsClosest nodes.old.items prefix near.0 }
    requires room { HasRoom nodes.old NEW_NODES }
    requires number { place < NONE }
    ensures trie { IsTrie nodes.new.items }
    ensures put { places_in nodes.new.items ≡ map.insert (places_in nodes.old.items) prefix place }
{
    let at = grow(nodes, near, prefix);
    set_place(nodes, at, place);
}
