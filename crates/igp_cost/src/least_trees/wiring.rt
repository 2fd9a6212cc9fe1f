//! Links between the places of nodes, from edges between their addresses.

ghost use Rattle.std.specs.Prelude.{◌≡◌, ◌≤◌, [], ◌∷◌, ◌++◌, true, false, ltb, length, IsTrue, IfOk, OnOk};
ghost use Rattle.std.specs.Bool.{OnTrue};
ghost use Rattle.std.specs.List.{AllWithin};
ghost use Rattle.std.specs.List.Sorted.{IsNonDecreasingBy, IsPartitionPoint};
ghost use Rattle.igp_cost.specs.declared.least_trees.link.Link.{Link};
ghost use Rattle.igp_cost.specs.Labels.{IsIndexed};
ghost use Rattle.igp_cost.specs.Limits.{most_nodes};
ghost use Rattle.igp_cost.specs.Topology.{is_node, IsTopology};
ghost use Rattle.igp_cost.specs.Wired.{IsRising, IsFound, IsWired};

use crate::least_trees::conditions::place_of;
use crate::least_trees::link::Link;
use crate::metric::Metric;
use net_prefix::{Addr, Asn};
use std::alloc::{AllocError, Global};

// The links of edges, both ways, in the order of the nodes that they leave.
pub fn links_of(
    alloc: Global,
    nodes: &[(Addr, Asn)],
    edges: &[(Addr, Addr, Metric)],
) -> Result<Vec<Link>, AllocError>
    requires { IsTopology nodes.now edges.now }
    ensures wired { IfOk result (λ v. IsWired nodes.now edges.now v.items) }
    ensures sorted { IfOk result (λ v. IsNonDecreasingBy (λ l. l.from) v.items) }
{
    let mut links = both_ways(alloc, nodes, edges)?;
    links.sort_by_key(|link| link.from)?;
    Ok(links)
}

// The links of edges, both ways.
fn both_ways(
    alloc: Global,
    nodes: &[(Addr, Asn)],
    edges: &[(Addr, Addr, Metric)],
) -> Result<Vec<Link>, AllocError>
    requires { IsTopology nodes.now edges.now }
    ensures { IfOk result (λ v. IsWired nodes.now edges.now v.items) }
{
    let mut links = Vec::new(alloc);
    // Edges mostly come in the order of their first ends.
    let mut near = 0;
    for (one, other, metric) in edges {
        let from = place(nodes, *one, near);
        let to = place(nodes, *other, from);
        near = from;
        let metric = metric.cost();
        add_both(&mut links, from as u16, to as u16, metric as u16)?;
    }
    Ok(links)
}

// Adds the two links of an edge.
fn add_both(links: &mut Vec<Link>, from: u16, to: u16, metric: u16) -> Result<(), AllocError>
    ensures { OnOk result
        (links.new.items ≡ (links.old.items ++ record { from = from; to = to; metric = metric } ∷ [])
        ++ record { from = to; to = from; metric = metric } ∷ []) }
{
    links.push(Link { from, to, metric })?;
    links.push(Link {
        from: to,
        to: from,
        metric,
    })?;
    Ok(())
}

// Whether the node of an address stands at a place.
fn stands_at(nodes: &[(Addr, Asn)], at: usize, addr: Addr) -> bool
    ensures { OnTrue result (IsFound nodes.now addr at) }
{
    at < nodes.len() && nodes[at].0 == addr
}

// The place of a node, with a guess: it may stand there, or at the next place.
fn place(nodes: &[(Addr, Asn)], addr: Addr, guess: usize) -> usize
    requires rising { IsRising nodes.now }
    requires there { IsTrue (is_node nodes.now addr) }
    ensures { IsFound nodes.now addr result }
{
    if stands_at(nodes, guess, addr) {
        return guess;
    }
    let next = guess.wrapping_add(1);
    if stands_at(nodes, next, addr) {
        return next;
    }
    match place_of(nodes, addr) {
        Some(at) => at,
        None => unreachable!(),
    }
}

// The first link, from one on, of those that leave no node before a place.
fn next_start(links: &[Link], start: usize, at: usize) -> usize
    requires start { start ≤ length links.now }
    requires sorted { IsNonDecreasingBy (λ l. l.from) links.now }
    requires before { AllWithin (λ (l : Link). ltb l.from at ≡ true) links.now 0 start }
    ensures within { result ≤ length links.now }
    ensures point { IsPartitionPoint (λ (l : Link). ltb l.from at ≡ true) (λ (l : Link).
        ltb l.from at ≡ false) links.now result }
{
    let mut next = start;
    while next < links.len() && (links[next].from as usize) < at {
        next += 1;
    }
    next
}

// Where the links of each node start, and where they all end.
pub fn starts_of(
    alloc: Global,
    nodes: &[(Addr, Asn)],
    links: &[Link],
) -> Result<Vec<usize>, AllocError>
    requires size { length nodes.now ≤ most_nodes }
    requires sorted { IsNonDecreasingBy (λ l. l.from) links.now }
    ensures { IfOk result (λ v. IsIndexed nodes.now links.now v.items) }
{
    let mut starts = Vec::with_capacity(alloc, nodes.len() + 1)?;
    let mut start = 0;
    for at in 0..nodes.len() + 1 {
        start = next_start(links, start, at);
        starts.push(start)?;
    }
    Ok(starts)
}
