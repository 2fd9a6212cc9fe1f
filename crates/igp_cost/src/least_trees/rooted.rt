//! A graph by the places of its nodes, and the source of a tree.

ghost use Rattle.std.specs.Prelude.{◌≡◌, ◌<◌, ◌≤◌, ◌+◌, All, length};
ghost use Rattle.igp_cost.specs.Labels.{IsWithin, StandsByStart, addr_at, IsPlace};
ghost use Rattle.igp_cost.specs.Limits.{most_nodes};
ghost use Rattle.igp_cost.specs.Walks.{share_as};
ghost use Rattle.igp_cost.specs.Wired.{IsRising};

use crate::least_trees::link::Link;
use net_prefix::{Addr, Asn};

/// A graph in which a tree starts: the nodes, the links between their places in the order of the nodes that they leave,
/// where the links of each node start and where they all end, and the place of the tree's source.
#[derive(Clone, Copy)]
pub struct RootedGraph<'a> {
    pub nodes: &'a [(Addr, Asn)],
    pub links: &'a [Link],
    pub starts: &'a [usize],
    pub source: usize,
    ghost size: { length nodes.now ≤ most_nodes },
    ghost rising: { IsRising nodes.now },
    ghost within: { IsWithin nodes.now links.now },
    ghost count: { length starts.now ≡ length nodes.now + 1 },
    ghost bounds: { All (λ s. s ≤ length links.now) starts.now },
    ghost each: { StandsByStart nodes.now links.now starts.now },
    ghost inside: { source < length nodes.now },
}

impl<'a> RootedGraph<'a> {
    // The address at a place.
    pub fn addr(&self, at: usize) -> Addr
        requires { IsPlace self.now.nodes.now at }
        ensures { result ≡ addr_at self.now.nodes.now at }
    {
        self.nodes[at].0
    }

    // Whether the node at a place is in the AS of the source.
    pub fn is_inside(&self, at: usize) -> bool
        requires { IsPlace self.now.nodes.now at }
        ensures { result ≡ share_as self.now.nodes.now (addr_at self.now.nodes.now self.now.source)
            (addr_at self.now.nodes.now at) }
    {
        self.nodes[self.source].1 == self.nodes[at].1
    }
}
