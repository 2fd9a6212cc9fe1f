//! A prefix that was looked for, and where: who looks for it again begins there.

ghost use Rattle.std.specs.Prelude.{◌≡◌, ◌+◌, ◌<◌, length};
ghost use Rattle.std.specs.Bool.{OnTrue};
ghost use Rattle.std.specs.FinMap as map;
ghost use Rattle.net_prefix.specs.Prefix.{Covers};
ghost use Rattle.prefix_table.specs.Trie.{IsTrie, places_in, prefix_at};
ghost use Rattle.prefix_table.specs.Ways.{IsNear, IsOnWay};

use crate::descent::closest;
use crate::index::place_near;
use crate::node::{Node, NodeId, prefix_of};
use net_prefix::Prefix;

/// A prefix, and a node on the way to it.
#[derive(Clone, Copy, Debug, PartialEq, Eq)]
pub(crate) struct Way {
    pub(crate) to: Prefix,
    pub(crate) at: NodeId,
}

/// Whether the node made after this one is on the way to the prefix. So it is where prefixes are looked for in the
/// order in which they came.
fn is_next_on_way(nodes: &[Node], at: NodeId, prefix: Prefix) -> bool
    requires { at.0 < length nodes.now }
    ensures here { OnTrue result (at.0 + 1 < length nodes.now) }
    ensures covers { OnTrue result (Covers (prefix_at nodes.now (at.0 + 1)) prefix) }
{
    let next = at.0 + 1;
    next < nodes.len() && prefix_of(nodes, NodeId(next)).covers(&prefix)
}

/// The node to begin at on the way to the prefix: the one that is known, the one made after it, or the root.
fn begin(nodes: &[Node], known: &Option<Way>, prefix: Prefix) -> NodeId
    requires trie { IsTrie nodes.now }
    requires some { 0 < length nodes.now }
    requires known { IsOnWay nodes.now known.now }
    ensures here { result.0 < length nodes.now }
    ensures covers { Covers (prefix_at nodes.now result.0) prefix }
{
    match *known {
        Some(way) if way.to == prefix => way.at,
        Some(way) if is_next_on_way(nodes, way.at, prefix) => NodeId(way.at.0 + 1),
        _ => NodeId(0),
    }
}

/// The prefix and the node that comes closest to it, if there is a node.
pub(crate) fn way_to(nodes: &[Node], known: &Option<Way>, prefix: Prefix) -> Option<Way>
    requires trie { IsTrie nodes.now }
    requires known { IsOnWay nodes.now known.now }
    ensures near { IsNear nodes.now prefix result }
    ensures way { IsOnWay nodes.now result }
{
    if nodes.is_empty() {
        return None;
    }
    let at = closest(nodes, begin(nodes, known, prefix), prefix);
    Some(Way { to: prefix, at })
}

/// The prefix's place, if it has one. The node that comes closest to it is known, if there is a node.
pub(crate) fn place_by(nodes: &[Node], near: &Option<Way>, prefix: Prefix) -> Option<usize>
    requires trie { IsTrie nodes.now }
    requires near { IsNear nodes.now prefix near.now }
    ensures { result ≡ map.get (places_in nodes.now) prefix }
{
    match *near {
        Some(way) => place_near(nodes, way.at, prefix),
        None => None,
    }
}
