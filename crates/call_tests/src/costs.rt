//! Worked graphs.

use crate::common::{asn, equal};
use igp_cost::{Change, Graph, Metric, Tree, is_topology};
use net_prefix::Addr;
use path_attr::Asn;
use std::alloc::Global;
use std::process::Abort;

const FIRST: Addr = Addr(0x0100_0001);

const SECOND: Addr = Addr(0x0100_0002);

const THIRD: Addr = Addr(0x0100_0003);

const OUTSIDE: Addr = Addr(0x0200_0001);

const NOWHERE: Addr = Addr(0x0300_0001);

fn nodes(rt: &impl Abort) -> [(Addr, Asn); 4] {
    let inside = asn(rt, 1);
    [
        (FIRST, inside),
        (SECOND, inside),
        (THIRD, inside),
        (OUTSIDE, asn(rt, 2)),
    ]
}

fn metric(rt: &impl Abort, cost: u32) -> Metric {
    Metric::new(cost).expect(rt, "an edge has a metric")
}

fn edges(rt: &impl Abort) -> [(Addr, Addr, Metric); 4] {
    [
        (SECOND, THIRD, metric(rt, 1)),
        (FIRST, THIRD, metric(rt, 2)),
        (THIRD, OUTSIDE, metric(rt, 5)),
        (FIRST, SECOND, metric(rt, 1)),
    ]
}

/// The graph of all four edges.
fn whole(rt: &impl Abort, alloc: Global) -> Graph {
    graph(rt, alloc, &nodes(rt), &edges(rt))
}

/// The graph without the edge from the first node to the second.
fn fewer(rt: &impl Abort, alloc: Global) -> Graph {
    graph(rt, alloc, &nodes(rt), &edges(rt)[..3])
}

fn graph(
    rt: &impl Abort,
    alloc: Global,
    nodes: &[(Addr, Asn)],
    edges: &[(Addr, Addr, Metric)],
) -> Graph {
    assert!(rt; is_topology(nodes, edges));
    Graph::build(alloc, nodes, edges).expect(rt, "memory")
}

fn tree(rt: &impl Abort, alloc: Global, graph: &Graph, source: Addr) -> Tree {
    assert!(rt; graph.has_node(source));
    graph.tree(alloc, source).expect(rt, "memory")
}

/// The tree of the graph, from an old one and a change.
fn retouched(rt: &impl Abort, alloc: Global, graph: &Graph, old: &Tree, change: Change) -> Tree {
    assert!(rt; graph.has_node(old.source()));
    graph.retouch(alloc, old, change).expect(rt, "memory")
}

/// Fails where the tree says another cost or first hop.
fn says(rt: &impl Abort, tree: &Tree, to: Addr, cost: Option<u32>, hop: Option<Addr>) {
    equal(rt, tree.cost(to), cost);
    equal(rt, tree.first_hop(to), hop);
}

#[test]
fn least_walks(rt: HostRuntime) {
    let alloc = rt.alloc();
    let whole = whole(&rt, alloc);
    assert!(rt; !whole.has_node(NOWHERE));
    let from_first = tree(&rt, alloc, &whole, FIRST);
    says(&rt, &from_first, FIRST, Some(0), Some(FIRST));
    says(&rt, &from_first, THIRD, Some(2), Some(SECOND));
    says(&rt, &from_first, OUTSIDE, Some(7), Some(SECOND));
    says(&rt, &from_first, NOWHERE, None, None);
    let from_outside = tree(&rt, alloc, &whole, OUTSIDE);
    says(&rt, &from_outside, THIRD, Some(5), Some(THIRD));
    says(&rt, &from_outside, FIRST, None, None);
    drop((whole, from_first, from_outside));
}

#[test]
fn first_edge_removed(rt: HostRuntime) {
    let alloc = rt.alloc();
    let fewer = fewer(&rt, alloc);
    let made = tree(&rt, alloc, &fewer, FIRST);
    says(&rt, &made, SECOND, Some(3), Some(THIRD));
    let whole = whole(&rt, alloc);
    let old = tree(&rt, alloc, &whole, FIRST);
    let removed = Change::Removed(FIRST, SECOND);
    let repaired = retouched(&rt, alloc, &fewer, &old, removed);
    says(&rt, &repaired, SECOND, Some(3), Some(THIRD));
    drop((whole, fewer, made, old, repaired));
}

/// An old tree that is wrong where the change does not lead.
#[test]
fn old_tree_of_another_graph(rt: HostRuntime) {
    let alloc = rt.alloc();
    let fewer = fewer(&rt, alloc);
    let whole = whole(&rt, alloc);
    let old = tree(&rt, alloc, &fewer, FIRST);
    let elsewhere = Change::Removed(OUTSIDE, OUTSIDE);
    let made = retouched(&rt, alloc, &whole, &old, elsewhere);
    says(&rt, &made, SECOND, Some(1), Some(SECOND));
    says(&rt, &made, THIRD, Some(2), Some(SECOND));
    drop((whole, fewer, old, made));
}
