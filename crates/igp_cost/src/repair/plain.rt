//! The certificate of a plain node: one in the AS of the source, other than the source, with a label within the limit.
//! What its links offer is compared by single numbers.

ghost use Rattle.std.specs.Prelude.{◌≢◌, ◌<◌, ◌≤◌, ◌+◌, Contains, IsTrue};
ghost use Rattle.std.specs.Bool.{OnTrue};
ghost use Rattle.igp_cost.specs.Metric.{IsMetric};
ghost use Rattle.igp_cost.specs.Labels.{IsNotAfter, addr_at, IsPlace, JoinsPlaces, HasOneEach};
ghost use Rattle.igp_cost.specs.Walks.{share_as};
ghost use Rattle.igp_cost.specs.Placed.{tree_in, AreCompared, HasLabel, IsPlain, IsHeldAt};
ghost use Rattle.igp_cost.specs.Offers.{Offers, OffersNoBetter, IsSettledAround, IsSettledOver};

use crate::label::{Label, number_of};
use crate::least_trees::{Link, RootedGraph};
use net_prefix::Addr;

impl<'a> RootedGraph<'a> {
    // Whether the node at a place is in the AS of the source, and not the source.
    pub fn passes_on(&self, at: usize) -> bool
        requires { IsPlace self.now.nodes.now at }
        ensures inside { OnTrue result
            (IsTrue (share_as self.now.nodes.now (addr_at self.now.nodes.now self.now.source)
            (addr_at self.now.nodes.now at))) }
        ensures elsewhere { OnTrue result
            ((addr_at self.now.nodes.now at).0 ≢ (addr_at self.now.nodes.now self.now.source).0) }
    {
        self.is_inside(at) && self.addr(at).0 != self.addr(self.source).0
    }

    // Whether a link from a node other than the source, whose label is this, offers its other end nothing better.
    #[inline(always)]
    fn is_no_plain_gain(
        &self,
        rows: &[(Addr, Label)],
        at: usize,
        label: Label,
        to: usize,
        metric: u32,
    ) -> bool
        requires to { IsPlace self.now.nodes.now to }
        requires metric { IsMetric metric }
        requires same_length { HasOneEach self.now.nodes.now rows.now }
        requires plain { IsPlain self.now.nodes.now self.now.source rows.now at label }
        ensures { OnTrue result
            (OffersNoBetter self.now.nodes.now (tree_in self.now.nodes.now self.now.source rows.now)
            (addr_at self.now.nodes.now at) (addr_at self.now.nodes.now to) metric) }
    {
        is_no_worse_than_extended(rows[to].1, label, metric)
    }

    // Whether a link offers the node at a place, whose label is this, that label or better, from a node that passes on
    // its own.
    #[inline(always)]
    fn is_plain_source(
        &self,
        rows: &[(Addr, Label)],
        from: usize,
        at: usize,
        metric: u32,
        label: Label,
    ) -> bool
        requires from { IsPlace self.now.nodes.now from }
        requires metric { IsMetric metric }
        requires same_length { HasOneEach self.now.nodes.now rows.now }
        ensures { OnTrue result
            (Offers self.now.nodes.now (tree_in self.now.nodes.now self.now.source rows.now)
            (addr_at self.now.nodes.now from) (addr_at self.now.nodes.now at) metric label) }
    {
        extended_is_no_worse(rows[from].1, metric, label) && self.passes_on(from)
    }

    // Whether the node at a place, whose label is this, is seen to be held over a link that leaves it.
    #[inline(always)]
    fn is_plainly_held_over(
        &self,
        rows: &[(Addr, Label)],
        at: usize,
        label: Label,
        link: Link,
    ) -> bool
        requires edge { JoinsPlaces self.now.nodes.now at link.to link.metric }
        requires among { Contains self.now.links.now link }
        requires same_length { HasOneEach self.now.nodes.now rows.now }
        requires label { HasLabel self.now.nodes.now self.now.source rows.now at label }
        ensures { OnTrue result (IsHeldAt self.now.nodes.now self.now.links.now self.now.source rows.now at) }
    {
        self.is_plain_source(rows, link.to as usize, at, link.metric as u32, label)
            && link.from as usize == at
    }

    // Whether a link from a plain node, whose label is this, is settled.
    #[inline(always)]
    fn is_plainly_settled_over(
        &self,
        before: &[(Addr, Label)],
        rows: &[(Addr, Label)],
        at: usize,
        label: Label,
        link: Link,
    ) -> bool
        requires edge { JoinsPlaces self.now.nodes.now at link.to link.metric }
        requires compared { AreCompared self.now.nodes.now before.now rows.now }
        requires plain { IsPlain self.now.nodes.now self.now.source rows.now at label }
        ensures { OnTrue result
            (IsSettledOver self.now.nodes.now self.now.links.now (tree_in self.now.nodes.now self.now.source before.now)
            (tree_in self.now.nodes.now self.now.source rows.now) (addr_at self.now.nodes.now at) link) }
    {
        let to = link.to as usize;
        if !self.is_no_plain_gain(rows, at, label, to, link.metric as u32) {
            return false;
        }
        if !self.is_unmoved_at(before, rows, to) {
            return true;
        }
        self.is_settled_back(rows, at, to, link.metric as u32)
    }

    // Whether the node at a place, a plain one whose label is this, is held, and all its links are settled.
    #[inline(always)]
    pub fn is_plainly_settled(
        &self,
        before: &[(Addr, Label)],
        rows: &[(Addr, Label)],
        at: usize,
        label: Label,
    ) -> bool
        requires at { IsPlace self.now.nodes.now at }
        requires compared { AreCompared self.now.nodes.now before.now rows.now }
        requires plain { IsPlain self.now.nodes.now self.now.source rows.now at label }
        ensures { OnTrue result
            (IsSettledAround self.now.nodes.now self.now.links.now
            (tree_in self.now.nodes.now self.now.source before.now)
            (tree_in self.now.nodes.now self.now.source rows.now) at) }
    {
        let mut held = false;
        for i in self.starts[at]..self.starts[at + 1] {
            let link = self.links[i];
            if !self.is_plainly_settled_over(before, rows, at, label, link) {
                return false;
            }
            held = held || self.is_plainly_held_over(rows, at, label, link);
        }
        held || self.is_backed_by(rows, at)
    }
}

// Whether a label is at least as good as another one, further on by a metric.
#[inline(always)]
fn is_no_worse_than_extended(label: Label, start: Label, metric: u32) -> bool
    requires metric { IsMetric metric }
    requires limited { start.cost ≤ 268435456 }
    ensures after { OnTrue result (IsNotAfter label (record { cost = start.cost + metric; hop = start.hop })) }
    ensures limited { OnTrue result (label.cost ≤ 268500991) }
{
    number_of(label) <= number_of(start) + metric as u64 * 4_294_967_296
}

// Whether a label, further on by a metric, is at least as good as another one.
#[inline(always)]
fn extended_is_no_worse(start: Label, metric: u32, label: Label) -> bool
    requires { IsMetric metric }
    ensures after { OnTrue result (IsNotAfter (record { cost = start.cost + metric; hop = start.hop }) label) }
    ensures known { OnTrue result (start.cost < 4294967295) }
{
    start.cost <= 268_500_991
        && number_of(start) + metric as u64 * 4_294_967_296 <= number_of(label)
}
