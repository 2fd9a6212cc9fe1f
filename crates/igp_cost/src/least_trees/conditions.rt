//! The tests of a graph's conditions, and where nodes stand.

ghost use Rattle.std.specs.Prelude.{◌≡◌, ◌↔◌, IsTrue, MatchOption, All, None, is_some};
ghost use Rattle.std.specs.List.Sorted.{IsStrictlySortedBy};
ghost use Rattle.std.specs.Map.{keys_of};
ghost use Rattle.net_prefix.specs.Address.{addr_cmp};
ghost use Rattle.igp_cost.specs.Walks.{asn_of};
ghost use Rattle.igp_cost.specs.Topology.{is_node, IsTopology};
ghost use Rattle.igp_cost.specs.Wired.{IsRising, IsFound};

use crate::limits::MAX_NODES;
use crate::metric::Metric;
use net_prefix::{Addr, Asn};

/// Whether these are the nodes and edges of a graph. It takes one look at each node and two searches for each edge.
pub fn is_topology(nodes: &[(Addr, Asn)], edges: &[(Addr, Addr, Metric)]) -> bool
    ensures { IsTrue result ↔ IsTopology nodes.now edges.now }
{
    if nodes.len() > MAX_NODES {
        return false;
    }
    if !are_ascending(nodes) {
        return false;
    }
    have_nodes(nodes, edges)
}

// Whether the nodes are in ascending order of their addresses.
fn are_ascending(nodes: &[(Addr, Asn)]) -> bool
    ensures { IsTrue result ↔ IsStrictlySortedBy addr_cmp (keys_of nodes.now) }
{
    for at in 1..nodes.len() {
        if nodes[at - 1].0.0 >= nodes[at].0.0 {
            return false;
        }
    }
    true
}

// Whether edges have nodes at both ends.
fn have_nodes(nodes: &[(Addr, Asn)], edges: &[(Addr, Addr, Metric)]) -> bool
    requires { IsStrictlySortedBy addr_cmp (keys_of nodes.now) }
    ensures { IsTrue result ↔ All (λ e. IsTrue (is_node nodes.now e.0) × IsTrue (is_node nodes.now e.1)) edges.now }
{
    for (one, other, _) in edges {
        if !are_nodes(nodes, *one, *other) {
            return false;
        }
    }
    true
}

// Whether both addresses are nodes.
fn are_nodes(nodes: &[(Addr, Asn)], one: Addr, other: Addr) -> bool
    requires { IsRising nodes.now }
    ensures { IsTrue result ↔ IsTrue (is_node nodes.now one) × IsTrue (is_node nodes.now other) }
{
    has_node(nodes, one) && has_node(nodes, other)
}

/// Whether there is a node of this address.
pub fn has_node(nodes: &[(Addr, Asn)], addr: Addr) -> bool
    requires { IsRising nodes.now }
    ensures { result ≡ is_node nodes.now addr }
{
    place_of(nodes, addr).is_some()
}

/// The place of the node of an address.
pub fn place_of(nodes: &[(Addr, Asn)], addr: Addr) -> Option<usize>
    requires { IsRising nodes.now }
    ensures place { MatchOption result (asn_of nodes.now addr ≡ None) (λ i. IsFound nodes.now addr i) }
    ensures node { is_node nodes.now addr ≡ is_some result }
{
    match nodes.binary_search_by_key(&addr.0, |node| node.0.0) {
        Ok(at) => Some(at),
        Err(_) => None,
    }
}
