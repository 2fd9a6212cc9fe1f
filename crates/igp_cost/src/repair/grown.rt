//! A tree that grows by one node: a new edge leads to a node that no walk reached before.

ghost use Rattle.std.specs.Prelude.{◌≡◌, IfOk, IfSome};
ghost use Rattle.std.specs.Bool.{OnTrue};
ghost use Rattle.igp_cost.specs.Labels.{addr_at, IsPlace, JoinsPlaces};
ghost use Rattle.igp_cost.specs.Trees.{source_of, label_in};
ghost use Rattle.igp_cost.specs.Offers.{IsGrownOver, IsGrownTo, IsQuietOver, IsSettledAlone};
ghost use Rattle.igp_cost.specs.Wired.{IsFound};

use crate::change::Change;
use crate::label::Label;
use crate::least_trees::{Link, RootedGraph, Tree, place_of};
use net_prefix::Addr;
use std::alloc::{AllocError, Global};

impl<'a> RootedGraph<'a> {
    // Whether a link from a place offers neither end anything better.
    fn is_quiet_over(&self, tree: &Tree, at: usize, link: Link) -> bool
        requires source { IsFound self.now.nodes.now (source_of tree.now) self.now.source }
        requires edge { JoinsPlaces self.now.nodes.now at link.to link.metric }
        ensures { OnTrue result (IsQuietOver self.now.nodes.now tree.now (addr_at self.now.nodes.now at) link) }
    {
        let other = link.to as usize;
        let metric = link.metric as u32;
        self.offers_no_better(tree, at, other, metric)
            && self.offers_no_better(tree, other, at, metric)
    }

    // Whether the links of the node at a place offer neither end anything better, and it is held.
    fn is_settled_alone(&self, tree: &Tree, at: usize) -> bool
        requires source { IsFound self.now.nodes.now (source_of tree.now) self.now.source }
        requires at { IsPlace self.now.nodes.now at }
        ensures { OnTrue result (IsSettledAlone self.now.nodes.now self.now.links.now tree.now at) }
    {
        if !self.is_held(tree, at) {
            return false;
        }
        for i in self.starts[at]..self.starts[at + 1] {
            if !self.is_quiet_over(tree, at, self.links[i]) {
                return false;
            }
        }
        true
    }

    // The label of an address. In a tree that reaches every node its row is the node's place.
    fn label_of(&self, tree: &Tree, addr: Addr) -> Option<Label>
        ensures { result ≡ label_in tree.now addr }
    {
        match place_of(self.nodes, addr) {
            Some(at) => tree.label_near(at, addr),
            None => tree.label(addr),
        }
    }

    // The tree with a label of one node more. None where that is no node, has a label, or is not the only one that the
    // edge moves.
    fn grown_to(
        &self,
        alloc: Global,
        old: &Tree,
        leaf: Addr,
        label: Label,
    ) -> Result<Option<Tree>, AllocError>
        requires { IsFound self.now.nodes.now (source_of old.now) self.now.source }
        ensures { IfOk result (λ o. IfSome o (IsGrownTo self.now.nodes.now self.now.links.now old.now leaf)) }
    {
        let Some(at) = place_of(self.nodes, leaf) else {
            return Ok(None);
        };
        // From a node of the source's AS with more links others may be reached as well, and nothing is copied in vain.
        if self.is_inside(at) && self.starts[at + 1].wrapping_sub(self.starts[at]) > 1 {
            return Ok(None);
        }
        match old.with_label(alloc, leaf, label)? {
            Some(made) if self.is_settled_alone(&made, at) => Ok(Some(made)),
            _ => Ok(None),
        }
    }

    // The tree after a new edge, where one of its ends had a label, the other had none, and that end alone is moved.
    // None elsewhere.
    pub fn grown_tree(
        &self,
        alloc: Global,
        old: &Tree,
        change: &Change,
    ) -> Result<Option<Tree>, AllocError>
        requires { IsFound self.now.nodes.now (source_of old.now) self.now.source }
        ensures { IfOk result (λ o. IfSome o (IsGrownOver self.now.nodes.now self.now.links.now change.now old.now)) }
    {
        let Change::Added(one, other, metric) = change else {
            return Ok(None);
        };
        match (self.label_of(old, *one), self.label_of(old, *other)) {
            (Some(start), None) => {
                let label = label_over(old.source(), *one, *other, metric.cost(), start);
                self.grown_to(alloc, old, *other, label)
            }
            (None, Some(start)) => {
                let label = label_over(old.source(), *other, *one, metric.cost(), start);
                self.grown_to(alloc, old, *one, label)
            }
            _ => Ok(None),
        }
    }
}

// What an edge offers its end, from the label at its start.
fn label_over(source: Addr, from: Addr, to: Addr, metric: u32, start: Label) -> Label {
    Label {
        cost: start.cost.wrapping_add(metric),
        hop: if from.0 == source.0 { to } else { start.hop },
    }
}
