//! Whether a tree stays as it was over a change: a look at the two ends of the edge, and at their links where an edge
//! is gone.

ghost use Rattle.std.specs.Prelude.{◌≡◌};
ghost use Rattle.std.specs.Bool.{OnTrue};
ghost use Rattle.igp_cost.specs.Metric.{IsMetric};
ghost use Rattle.igp_cost.specs.Labels.{IsNotAfter, addr_at, IsPlace, JoinsPlaces};
ghost use Rattle.igp_cost.specs.Trees.{source_of, label_in};
ghost use Rattle.igp_cost.specs.Changes.{ends_of};
ghost use Rattle.igp_cost.specs.Offers.{via, Offers, OffersNoBetter, IsHeld, LosesNothing, GainsNothing};
ghost use Rattle.igp_cost.specs.Wired.{IsFound};

use crate::change::Change;
use crate::label::Label;
use crate::least_trees::{RootedGraph, Tree, place_of};
use net_prefix::Addr;

impl<'a> RootedGraph<'a> {
    // The label of the node at a place. In a tree that reaches every node it stands in the row of that place.
    fn label_at(&self, tree: &Tree, at: usize) -> Option<Label>
        requires { IsPlace self.now.nodes.now at }
        ensures { result ≡ label_in tree.now (addr_at self.now.nodes.now at) }
    {
        tree.label_near(at, self.nodes[at].0)
    }

    // Whether an edge with this metric offers its end nothing better than what is there.
    pub fn offers_no_better(&self, tree: &Tree, from: usize, to: usize, metric: u32) -> bool
        requires source { IsFound self.now.nodes.now (source_of tree.now) self.now.source }
        requires edge { JoinsPlaces self.now.nodes.now from to metric }
        ensures { OnTrue result
            (OffersNoBetter self.now.nodes.now tree.now (addr_at self.now.nodes.now from)
            (addr_at self.now.nodes.now to) metric) }
    {
        let Some(start) = self.label_at(tree, from) else {
            return true;
        };
        if !self.is_inside(from) {
            return true;
        }
        let (first, second) = (self.nodes[from].0, self.nodes[to].0);
        match self.label_at(tree, to) {
            Some(label) => {
                is_not_after_offer(tree.source(), first, second, metric, start, label)
            }
            None => false,
        }
    }

    // Whether an edge with this metric offers its end a label or better.
    fn offers_as_good(&self, tree: &Tree, from: usize, to: usize, metric: u32, label: Label) -> bool
        requires source { IsFound self.now.nodes.now (source_of tree.now) self.now.source }
        requires edge { JoinsPlaces self.now.nodes.now from to metric }
        ensures { OnTrue result
            (Offers self.now.nodes.now tree.now (addr_at self.now.nodes.now from)
            (addr_at self.now.nodes.now to) metric label) }
    {
        let Some(start) = self.label_at(tree, from) else {
            return false;
        };
        let (first, second) = (self.nodes[from].0, self.nodes[to].0);
        is_offer_not_after(tree.source(), first, second, metric, start, label)
            && self.is_inside(from)
    }

    // Whether the node at a place has no label, is the source, or is offered its label over one of its links.
    pub fn is_held(&self, tree: &Tree, at: usize) -> bool
        requires source { IsFound self.now.nodes.now (source_of tree.now) self.now.source }
        requires at { IsPlace self.now.nodes.now at }
        ensures { OnTrue result
            (IsHeld self.now.nodes.now self.now.links.now tree.now (addr_at self.now.nodes.now at)) }
    {
        let Some(label) = self.label_at(tree, at) else {
            return true;
        };
        if at == self.source {
            return true;
        }
        for i in self.starts[at]..self.starts[at + 1] {
            let link = self.links[i];
            if link.from as usize == at
                && self.offers_as_good(tree, link.to as usize, at, link.metric as u32, label)
            {
                return true;
            }
        }
        false
    }

    // Whether the ends of the edge, at these places, keep their labels without it.
    fn loses_nothing(&self, tree: &Tree, change: &Change, one: usize, other: usize) -> bool
        requires source { IsFound self.now.nodes.now (source_of tree.now) self.now.source }
        requires one { IsFound self.now.nodes.now (ends_of change.now).0 one }
        requires other { IsFound self.now.nodes.now (ends_of change.now).1 other }
        ensures { OnTrue result (LosesNothing change.now self.now.nodes.now self.now.links.now tree.now) }
    {
        !change.loses() || (self.is_held(tree, one) && self.is_held(tree, other))
    }

    // Whether the edge offers neither end, at these places, anything better.
    fn gains_nothing(&self, tree: &Tree, change: &Change, one: usize, other: usize) -> bool
        requires source { IsFound self.now.nodes.now (source_of tree.now) self.now.source }
        requires one { IsFound self.now.nodes.now (ends_of change.now).0 one }
        requires other { IsFound self.now.nodes.now (ends_of change.now).1 other }
        ensures { OnTrue result (GainsNothing change.now self.now.nodes.now tree.now) }
    {
        match change.metric() {
            Some(metric) => {
                let metric = metric.cost();
                self.offers_no_better(tree, one, other, metric)
                    && self.offers_no_better(tree, other, one, metric)
            }
            None => true,
        }
    }

    // Whether a tree from before a change is seen to stay: each end of the edge is looked for once.
    pub fn is_unmoved(&self, tree: &Tree, change: &Change) -> bool
        requires source { IsFound self.now.nodes.now (source_of tree.now) self.now.source }
        ensures loses { OnTrue result (LosesNothing change.now self.now.nodes.now self.now.links.now tree.now) }
        ensures gains { OnTrue result (GainsNothing change.now self.now.nodes.now tree.now) }
    {
        let (one, other) = change.ends();
        match (place_of(self.nodes, one), place_of(self.nodes, other)) {
            (Some(one), Some(other)) => {
                self.gains_nothing(tree, change, one, other)
                    && self.loses_nothing(tree, change, one, other)
            }
            _ => false,
        }
    }
}

// Whether a label is at least as good as what an edge offers, from the label at its start.
pub fn is_not_after_offer(
    source: Addr,
    from: Addr,
    to: Addr,
    metric: u32,
    start: Label,
    label: Label,
) -> bool
    requires { IsMetric metric }
    ensures { OnTrue result (IsNotAfter label (via source from to metric start)) }
{
    let cost = start.cost as u64 + metric as u64;
    let hop = if from.0 == source.0 { to } else { start.hop };
    (label.cost as u64) < cost || (label.cost as u64 == cost && label.hop.0 <= hop.0)
}

// Whether what an edge offers, from the label at its start, is at least as good as a label.
pub fn is_offer_not_after(
    source: Addr,
    from: Addr,
    to: Addr,
    metric: u32,
    start: Label,
    label: Label,
) -> bool
    requires { IsMetric metric }
    ensures { OnTrue result (IsNotAfter (via source from to metric start) label) }
{
    let cost = start.cost as u64 + metric as u64;
    let hop = if from.0 == source.0 { to } else { start.hop };
    cost < label.cost as u64 || (label.cost as u64 == cost && hop.0 <= label.hop.0)
}
