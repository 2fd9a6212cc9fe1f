//! Interior costs of a configuration.

ghost use Rattle.std.specs.Prelude.{◌≡◌, true, IfOk, IsTrue, Some};
ghost use Rattle.std.specs.List.{filter_map};
ghost use Rattle.std.specs.List.Sorted.{IsStrictlySortedBy};
ghost use Rattle.std.specs.Map.{keys_of};
ghost use Rattle.net_prefix.specs.Address.{addr_cmp};
ghost use Rattle.net_conf.specs.Configuration.{ends_of, has_node};
ghost use Rattle.net_conf.specs.Costs.{nodes_of, edge_of, edges_of, costs_of};
ghost use Rattle.igp_cost.specs.Topology.{is_node};
ghost use Rattle.igp_cost.specs.Trees.{tree_of};
ghost use Rattle.igp_cost.specs.Walks.{is_one_number};
ghost use Rattle.net_conf.specs.Concerned.{is_among};
ghost use Rattle.net_conf.specs.Kept.{IsSound, metric_up, edge_change};
ghost use Rattle.net_conf.specs.Members.{members_of, edge_near, edges_to, near, with_as, nodes_at, AreNear};

use crate::tables::conf_tables::ConfTables;
use crate::tables::{Ends, Link};
use igp_cost::{
    Change, Graph, Metric, Tree, own_edges_make_a_tree, own_nodes_make_a_tree, tree_of_is_a_tree,
    trees_are_one,
};
use net_prefix::Addr;
use path_attr::Asn;
use std::alloc::{AllocError, Global};

/// The most routers and peers in the ASes of two whose trees are looked for one by one, and their links among all.
const FEW: usize = 16;

impl ConfTables {
    /// The routers and peers, each with its AS, in order of address.
    pub fn node_list(&self, alloc: Global) -> Result<Vec<(Addr, Asn)>, AllocError>
        ensures list { IfOk result (λ v. v.items ≡ nodes_of self.now) }
        ensures ascending { IsStrictlySortedBy addr_cmp (keys_of self.now.nodes) }
    {
        self.nodes
            .as_slice()
            .iter()
            .map(|(addr, node)| (*addr, node.asn))
            .collect(alloc)
    }

    /// The links that are up, each with its metric.
    fn edge_list(&self, alloc: Global) -> Result<Vec<(Addr, Addr, Metric)>, AllocError>
        ensures { IfOk result (λ v. v.items ≡ edges_of self.now) }
    {
        self.links
            .as_slice()
            .iter()
            .filter_map(|(ends, link)| edge_of(*ends, *link))
            .collect(alloc)
    }

    /// The graph of the links that are up.
    pub(crate) fn graph(&self, alloc: Global) -> Result<Graph, AllocError>
        requires { IsSound self.now }
        ensures { IfOk result (λ g. g ≡ record { nodes = nodes_of self.now; edges = edges_of self.now }) }
    {
        let nodes = self.node_list(alloc)?;
        let edges = self.edge_list(alloc)?;
        Graph::build(alloc, &nodes, &edges)
    }

    /// The routers and peers in the AS of one of the two, in order of address.
    pub(crate) fn members(
        &self,
        alloc: Global,
        one: Addr,
        other: Addr,
    ) -> Result<Vec<Addr>, AllocError>
        ensures list { IfOk result (λ v. v.items ≡ members_of self.now one other) }
        ensures ascending { IsStrictlySortedBy addr_cmp (keys_of self.now.nodes) }
    {
        let first = self.as_of(one);
        let second = self.as_of(other);
        self.nodes
            .as_slice()
            .iter()
            .filter(|(_, node)| is_in(first, node.asn) || is_in(second, node.asn))
            .map(|(addr, _)| *addr)
            .collect(alloc)
    }

    /// The links that are up and lead to one of these, each with its metric.
    fn edge_list_to(
        &self,
        alloc: Global,
        members: &[Addr],
    ) -> Result<Vec<(Addr, Addr, Metric)>, AllocError>
        ensures { IfOk result (λ v. v.items ≡ filter_map (edge_near members.now) self.now.links) }
    {
        self.links
            .as_slice()
            .iter()
            .filter_map(|(ends, link)| edge_near(members, *ends, *link))
            .collect(alloc)
    }

    /// The address with its AS, if it is a node.
    fn with_as(&self, addr: Addr) -> Option<(Addr, Asn)>
        ensures { result ≡ with_as self.now addr }
    {
        let asn = self.as_of(addr)?;
        Some((addr, asn))
    }

    /// The nodes of these addresses, each with its AS.
    fn nodes_at(&self, alloc: Global, addrs: &[Addr]) -> Result<Vec<(Addr, Asn)>, AllocError>
        ensures { IfOk result (λ v. v.items ≡ nodes_at self.now addrs.now) }
    {
        addrs
            .iter()
            .filter_map(|addr| self.with_as(*addr))
            .collect(alloc)
    }

    /// The nodes of these addresses and those at the ends of the edges, in order of address. Where as many are named as
    /// there are nodes, it is all nodes.
    fn near_nodes(
        &self,
        alloc: Global,
        members: &[Addr],
        edges: &[(Addr, Addr, Metric)],
    ) -> Result<Vec<(Addr, Asn)>, AllocError>
        ensures { IfOk result (λ v. AreNear self.now (near members.now edges.now) v.items) }
    {
        let mut addrs = near_addrs(alloc, members, edges)?;
        if addrs.len() < self.node_count() {
            addrs.sort_unstable();
            addrs.dedup();
            self.nodes_at(alloc, &addrs)
        } else {
            self.node_list(alloc)
        }
    }

    /// The graph of the links that are up and lead to one of these. Its nodes are these and those at the ends of its
    /// edges, or all.
    pub(crate) fn graph_to(&self, alloc: Global, members: &[Addr]) -> Result<Graph, AllocError>
        requires { IsSound self.now }
        ensures nodes { IfOk result (λ g. AreNear self.now (near members.now g.edges) g.nodes) }
        ensures edges { IfOk result (λ g. g.edges ≡ edges_to members.now (edges_of self.now)) }
    {
        let edges = self.edge_list_to(alloc, members)?;
        let nodes = self.near_nodes(alloc, members, &edges)?;
        Graph::build(alloc, &nodes, &edges)
    }

    /// A graph in which the two have their trees: where few are in their ASes, it has the edges that lead to these
    /// alone.
    pub(crate) fn graph_for(
        &self,
        alloc: Global,
        one: Addr,
        other: Addr,
    ) -> Result<Graph, AllocError>
        requires sound { IsSound self.now }
        requires first { has_node self.now one ≡ true }
        requires second { has_node self.now other ≡ true }
        ensures first { IfOk result (λ g. is_node g.nodes one ≡ true) }
        ensures second { IfOk result (λ g. is_node g.nodes other ≡ true) }
        ensures one { IfOk result (λ g. tree_of g.nodes g.edges one ≡ costs_of self.now one) }
        ensures other { IfOk result (λ g. tree_of g.nodes g.edges other ≡ costs_of self.now other) }
    {
        tree_of_is_a_tree();
        trees_are_one();
        own_edges_make_a_tree();
        own_nodes_make_a_tree();
        let members = self.members(alloc, one, other)?;
        if are_few(&members) {
            let graph = self.graph_to(alloc, &members)?;
            Ok(graph)
        } else {
            self.graph(alloc)
        }
    }

    /// The costs and first hops of a router or peer.
    pub fn costs(&self, alloc: Global, router: Addr) -> Result<Tree, AllocError>
        requires sound { IsSound self.now }
        requires node { IsTrue (has_node self.now router) }
        ensures { IfOk result (λ tree. tree ≡ costs_of self.now router) }
    {
        self.graph(alloc)?.tree(alloc, router)
    }

    /// What makes the edges of the other tables of those of these, where they differ in the link of the two at most.
    pub(crate) fn change_to(&self, after: &ConfTables, one: Addr, other: Addr) -> Option<Change>
        ensures { result ≡ edge_change (ends_of one other) (metric_up self.now one other)
            (metric_up after.now one other) }
    {
        let old = self.metric_up(one, other);
        let new = after.metric_up(one, other);
        edge_change(Ends::of(one, other), old, new)
    }

    /// The metric of the link of the two, if it is up.
    fn metric_up(&self, one: Addr, other: Addr) -> Option<Metric>
        ensures { result ≡ metric_up self.now one other }
    {
        let link = self.link(one, other)?;
        if link.up { Some(link.metric) } else { None }
    }
}

/// What the metrics of a link before and after, if it is up, change of the edges.
fn edge_change(ends: Ends, before: Option<Metric>, after: Option<Metric>) -> Option<Change>
    ensures { result ≡ edge_change ends before after }
{
    let Some(old) = before else {
        return Some(Change::Added(ends.low, ends.high, after?));
    };
    match after {
        None => Some(Change::Removed(ends.low, ends.high)),
        Some(metric) => {
            if old == metric {
                None
            } else {
                Some(Change::Changed(ends.low, ends.high, metric))
            }
        }
    }
}

/// Whether the AS is this one.
fn is_in(asn: Option<Asn>, this: Asn) -> bool
    ensures { result ≡ is_one_number asn (Some this) }
{
    match asn {
        Some(asn) => asn == this,
        None => false,
    }
}

/// Whether so few are in the ASes of two that their trees are looked for one by one.
pub(crate) fn are_few(members: &[Addr]) -> bool {
    members.len() <= FEW
}

/// Whether the address is among these.
fn is_among(members: &[Addr], addr: Addr) -> bool
    ensures { result ≡ is_among addr members.now }
{
    match members {
        // Two routers, each alone in its AS.
        [one, other] => addr.cmp(one).is_eq() || addr.cmp(other).is_eq(),
        _ => members.iter().any(|member| addr.cmp(member).is_eq()),
    }
}

/// The link, if it is up and leads to one of these, with its metric.
fn edge_near(members: &[Addr], ends: Ends, link: Link) -> Option<(Addr, Addr, Metric)>
    ensures { result ≡ edge_near members.now (ends, link) }
{
    if is_among(members, ends.low) || is_among(members, ends.high) {
        edge_of(ends, link)
    } else {
        None
    }
}

/// These and the ends of the edges, each as often as it is named.
fn near_addrs(
    alloc: Global,
    members: &[Addr],
    edges: &[(Addr, Addr, Metric)],
) -> Result<Vec<Addr>, AllocError>
    ensures { IfOk result (λ v. v.items ≡ near members.now edges.now) }
{
    members
        .iter()
        .map(|member| *member)
        .chain(edges.iter().map(|edge| edge.0))
        .chain(edges.iter().map(|edge| edge.1))
        .collect(alloc)
}

fn edge_of(ends: Ends, link: Link) -> Option<(Addr, Addr, Metric)>
    ensures { result ≡ edge_of (ends, link) }
{
    if link.up {
        Some((ends.low, ends.high, link.metric))
    } else {
        None
    }
}
