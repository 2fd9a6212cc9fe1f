//! A graph of routers and edges, and the trees of least costs in it.

ghost use Rattle.std.specs.Prelude.{◌≡◌, IsTrue, IfOk, IfSome, is_some};
ghost use Rattle.std.specs.Bool.{OnTrue};
ghost use Rattle.net_prefix.specs.declared.addr.Addr.{Addr};
ghost use Rattle.igp_cost.specs.Costs.{cost, first_hop};
ghost use Rattle.igp_cost.specs.Stays.{Stays, Follows};
ghost use Rattle.igp_cost.specs.Topology.{is_node, IsTopology};
ghost use Rattle.igp_cost.specs.Trees.{source_of, cost_in, first_hop_in, IsTreeOf, tree_of};
ghost use Rattle.igp_cost.specs.Wired.{IsFound, IsWired};

use crate::change::Change;
use crate::least_trees::{Link, RootedGraph, Tree, has_node, links_of, place_of, starts_of};
use crate::metric::Metric;
use net_prefix::{Addr, Asn};
use seq::Seq;
use std::alloc::{AllocError, Global};
use std::marker::Model;

/// Routers, each in an AS, and edges between them, each with a metric. An edge leads both ways.
#[derive(Drop)]
pub struct Graph {
    nodes: Seq<(Addr, Asn)>,
    edges: Seq<(Addr, Addr, Metric)>,
    links: Vec<Link>,
    starts: Vec<usize>,
}

impl Model for Graph {
    ghost use Rattle.igp_cost.specs.Topology.{Topology};
    ghost use Rattle.igp_cost.specs.Labels.{IsIndexed};
    ghost use Rattle.igp_cost.specs.Wired.{IsWired};

    ghost Value = { Topology };

    ghost view = { λ g. record { nodes = g.nodes; edges = g.edges } };

    ghost invariant = { λ g. IsWired g.nodes g.edges g.links.items × IsIndexed g.nodes g.links.items g.starts.items };
}

impl Graph {
    /// The graph of these nodes and edges. `is_topology` tests its condition.
    pub fn build(
        alloc: Global,
        nodes: &[(Addr, Asn)],
        edges: &[(Addr, Addr, Metric)],
    ) -> Result<Self, AllocError>
        requires { IsTopology nodes.now edges.now }
        ensures { IfOk result (λ g. g ≡ record { nodes = nodes.now; edges = edges.now }) }
    {
        let links = links_of(alloc, nodes, edges)?;
        let starts = starts_of(alloc, nodes, &links)?;
        Ok(Graph {
            nodes: Seq::copy_of(alloc, nodes)?,
            edges: Seq::copy_of(alloc, edges)?,
            links,
            starts,
        })
    }

    /// Whether there is a node of this address.
    pub fn has_node(&self, addr: Addr) -> bool
        ensures { result ≡ is_node self.now.nodes addr }
    {
        has_node(self.nodes.as_slice(), addr)
    }

    // The graph by the places of its nodes, from a source on. None where there is no such node.
    fn rooted(&self, source: Addr) -> Option<RootedGraph<'_>>
        ensures node { is_node self.now.nodes source ≡ is_some result }
        ensures nodes { IfSome result (λ g. g.nodes.now ≡ self.now.nodes) }
        ensures wired { IfSome result (λ g. IsWired g.nodes.now self.now.edges g.links.now) }
        ensures found { IfSome result (λ g. IsFound g.nodes.now source g.source) }
    {
        let nodes = self.nodes.as_slice();
        let source = place_of(nodes, source)?;
        Some(RootedGraph {
            nodes,
            links: &self.links,
            starts: &self.starts,
            source,
        })
    }

    /// The least costs and first hops from a node.
    pub fn tree(&self, alloc: Global, source: Addr) -> Result<Tree, AllocError>
        requires { IsTrue (is_node self.now.nodes source) }
        ensures least { IfOk result (λ t. IsTreeOf self.now.nodes self.now.edges source t) }
        ensures costs { IfOk result (λ t. (x : Addr) → cost_in t x ≡ cost self.now.nodes self.now.edges source x) }
        ensures first_hops { IfOk result (λ t. (x : Addr) →
            first_hop_in t x ≡ first_hop self.now.nodes self.now.edges source x) }
        ensures whole { IfOk result (λ t. t ≡ tree_of self.now.nodes self.now.edges source) }
    {
        let Some(graph) = self.rooted(source) else {
            unreachable!();
        };
        let labels = graph.labels(alloc)?;
        Tree::from_labels(alloc, source, graph.nodes, &labels)
    }

    /// The least costs and first hops from the source of an old tree, the same as `tree` gives, made from what the old
    /// tree says. It is faster than `tree` where the old tree was made before one change, this one, and where that
    /// moved little: it mends the labels near the change and looks once at each edge. Where that does not do, it makes
    /// the tree afresh.
    pub fn retouch(&self, alloc: Global, old: &Tree, change: Change) -> Result<Tree, AllocError>
        requires { IsTrue (is_node self.now.nodes (source_of old.now)) }
        ensures least { IfOk result (λ t. IsTreeOf self.now.nodes self.now.edges (source_of old.now) t) }
        ensures costs { IfOk result (λ t. (x : Addr) →
            cost_in t x ≡ cost self.now.nodes self.now.edges (source_of old.now) x) }
        ensures first_hops { IfOk result (λ t. (x : Addr) →
            first_hop_in t x ≡ first_hop self.now.nodes self.now.edges (source_of old.now) x) }
        ensures whole { IfOk result (λ t. t ≡ tree_of self.now.nodes self.now.edges (source_of old.now)) }
    {
        let source = old.source();
        let Some(graph) = self.rooted(source) else {
            unreachable!();
        };
        let rows = old.all_rows(alloc)?;
        let mended = graph.mended_labels(alloc, &rows, change)?;
        match mended {
            Some(labels) => Tree::from_labels(alloc, source, graph.nodes, &labels),
            None => self.tree(alloc, source),
        }
    }

    /// Whether a tree that was made before one change, this one, is seen to be the tree after it. It looks at the
    /// labels of the edge's ends, and where an edge is gone at the links of its ends, and at no other edge. It takes no
    /// memory.
    pub fn keeps(&self, tree: &Tree, change: &Change) -> bool
        ensures { OnTrue result (Stays change.now self.now.nodes self.now.edges tree.now) }
    {
        match self.rooted(tree.source()) {
            Some(graph) => graph.is_unmoved(tree, change),
            None => false,
        }
    }

    // The tree after a new edge, where that leads to one node more and moves nothing else. None elsewhere.
    fn grown(&self, alloc: Global, old: &Tree, change: &Change) -> Result<Option<Tree>, AllocError>
        ensures source { IfOk result (λ o. IfSome o (λ t. source_of t ≡ source_of old.now)) }
        ensures follows { IfOk result (λ o.
            IfSome o (λ t. Follows change.now self.now.nodes self.now.edges old.now t)) }
    {
        if change.loses() {
            return Ok(None);
        }
        match self.rooted(old.source()) {
            Some(graph) => graph.grown_tree(alloc, old, change),
            None => Ok(None),
        }
    }

    // The tree after a change, mended around the labels that differ. None where mending it did not do.
    fn repaired(
        &self,
        alloc: Global,
        old: &Tree,
        change: &Change,
    ) -> Result<Option<Tree>, AllocError>
        ensures source { IfOk result (λ o. IfSome o (λ t. source_of t ≡ source_of old.now)) }
        ensures follows { IfOk result (λ o.
            IfSome o (λ t. Follows change.now self.now.nodes self.now.edges old.now t)) }
    {
        match self.rooted(old.source()) {
            Some(graph) => graph.mended_tree(alloc, old, change),
            None => Ok(None),
        }
    }

    /// The tree after one change, this one, where it is mended from the tree before it and seen to be right. None where
    /// mending it did not do. Where a new edge leads to a node that no walk reached, and to no other from there, it
    /// copies the rows and adds one. Else it looks once at each node's label, and at the links around the nodes whose
    /// labels differ and at the ends of the edge.
    pub fn mended(
        &self,
        alloc: Global,
        old: &Tree,
        change: &Change,
    ) -> Result<Option<Tree>, AllocError>
        ensures source { IfOk result (λ o. IfSome o (λ t. source_of t ≡ source_of old.now)) }
        ensures follows { IfOk result (λ o.
            IfSome o (λ t. Follows change.now self.now.nodes self.now.edges old.now t)) }
    {
        match self.grown(alloc, old, change)? {
            Some(made) => Ok(Some(made)),
            None => self.repaired(alloc, old, change),
        }
    }
}
