//! What the trie is read as: a table of places.

ghost use Rattle.std.specs.Prelude.{◌≡◌, ◌<◌, length, Some};
ghost use Rattle.std.specs.Option.{IfSome, IfNone, option_map};
ghost use Rattle.std.specs.FinMap as map;
ghost use Rattle.prefix_table.specs.Tables.{IsLongestMatch, HasNoMatch, first_after};
ghost use Rattle.prefix_table.specs.Trie.{IsTrie, IsClosest, prefix_at, place_at, places_in};

use crate::cut::cut;
use crate::descent::{deepest, first_later};
use crate::node::{Node, NodeId, place_of, prefix_of};
use net_prefix::{Addr, MAX_LEN, Prefix};

/// The prefix and the place of a node, if it has one.
pub(crate) fn entry_at(nodes: &[Node], at: NodeId) -> Option<(Prefix, usize)>
    requires { at.0 < length nodes.now }
    ensures { result ≡ option_map (λ place. (prefix_at nodes.now at.0, place)) (place_at nodes.now at.0) }
{
    match place_of(nodes, at) {
        Some(place) => Some((prefix_of(nodes, at), place)),
        None => None,
    }
}

/// The prefix's place, if it has one. The node that comes closest to it is known.
pub(crate) fn place_near(nodes: &[Node], near: NodeId, prefix: Prefix) -> Option<usize>
    requires trie { IsTrie nodes.now }
    requires near { IsClosest nodes.now prefix near.0 }
    ensures { result ≡ map.get (places_in nodes.now) prefix }
{
    if prefix_of(nodes, near).len() == prefix.len() {
        place_of(nodes, near)
    } else {
        None
    }
}

/// The longest key of at most this length that contains the address, and its place.
pub(crate) fn longest_place(nodes: &[Node], addr: Addr, most: u8) -> Option<(Prefix, usize)>
    requires { IsTrie nodes.now }
    ensures found { IfSome result (λ e. IsLongestMatch (places_in nodes.now) addr most e.0 e.1) }
    ensures none { IfNone result (HasNoMatch (places_in nodes.now) addr most) }
{
    if nodes.is_empty() {
        return None;
    }
    match deepest(nodes, NodeId(0), cut(addr, most.min(MAX_LEN))) {
        Some(at) => entry_at(nodes, at),
        None => None,
    }
}

/// The first key after this prefix, or the first of all, and its place.
pub(crate) fn next_place(nodes: &[Node], after: Option<Prefix>) -> Option<(Prefix, usize)>
    requires { IsTrie nodes.now }
    ensures first { result ≡ first_after (places_in nodes.now) after }
    ensures key { IfSome result (λ e. map.get (places_in nodes.now) e.0 ≡ Some e.1) }
{
    if nodes.is_empty() {
        return None;
    }
    match first_later(nodes, NodeId(0), after) {
        Some(at) => entry_at(nodes, at),
        None => None,
    }
}
