//! A certificate of the rows of a tree after a change, by the labels that differ from those of the rows before it: a
//! look at the links around these. Of most nodes `plain` tells sooner.

ghost use Rattle.std.specs.Prelude.{◌≡◌, ◌↔◌, ◌<◌, ℕ, length, Contains, IsTrue};
ghost use Rattle.std.specs.Bool.{OnTrue};
ghost use Rattle.igp_cost.specs.Labels.{IsPlace, JoinsPlaces, HasOneEach, addr_at};
ghost use Rattle.igp_cost.specs.Trees.{label_in};
ghost use Rattle.igp_cost.specs.Placed.{known, tree_in, AreCompared, HasEnds, IsHeldAt};
ghost use Rattle.igp_cost.specs.Offers.{Offers, OffersNoBetter, SaySameOf, IsSameOrSettled, HasStart, IsLocal, IsSettledAround, IsSettledOver};

use crate::label::{Label, NO_WALK, known, number_of};
use crate::least_trees::{Link, RootedGraph};
use crate::repair::ends::Ends;
use crate::repair::stays::{is_not_after_offer, is_offer_not_after};
use net_prefix::Addr;

impl<'a> RootedGraph<'a> {
    // The label at a place.
    fn label_by(&self, rows: &[(Addr, Label)], at: usize) -> Option<Label>
        requires at { IsPlace self.now.nodes.now at }
        requires same_length { HasOneEach self.now.nodes.now rows.now }
        ensures { result ≡ label_in (tree_in self.now.nodes.now self.now.source rows.now)
            (addr_at self.now.nodes.now at) }
    {
        known(rows[at].1)
    }

    // Whether an edge with this metric offers its end nothing better than what is there.
    fn is_no_gain(&self, rows: &[(Addr, Label)], from: usize, to: usize, metric: u32) -> bool
        requires edge { JoinsPlaces self.now.nodes.now from to metric }
        requires same_length { HasOneEach self.now.nodes.now rows.now }
        ensures { OnTrue result
            (OffersNoBetter self.now.nodes.now (tree_in self.now.nodes.now self.now.source rows.now)
            (addr_at self.now.nodes.now from) (addr_at self.now.nodes.now to) metric) }
    {
        let Some(start) = self.label_by(rows, from) else {
            return true;
        };
        match self.label_by(rows, to) {
            Some(label)
                if is_not_after_offer(
                    self.addr(self.source),
                    self.addr(from),
                    self.addr(to),
                    metric,
                    start,
                    label,
                ) => { true }
            _ => !self.is_inside(from),
        }
    }

    // Whether an edge with this metric offers its end a label or better.
    fn is_source(
        &self,
        rows: &[(Addr, Label)],
        from: usize,
        to: usize,
        metric: u32,
        label: Label,
    ) -> bool
        requires edge { JoinsPlaces self.now.nodes.now from to metric }
        requires same_length { HasOneEach self.now.nodes.now rows.now }
        ensures { OnTrue result
            (Offers self.now.nodes.now (tree_in self.now.nodes.now self.now.source rows.now)
            (addr_at self.now.nodes.now from) (addr_at self.now.nodes.now to) metric label) }
    {
        let Some(start) = self.label_by(rows, from) else {
            return false;
        };
        let source = self.addr(self.source);
        is_offer_not_after(source, self.addr(from), self.addr(to), metric, start, label)
            && self.is_inside(from)
    }

    // Whether the node at a place has no label, is the source, or is offered its label over one of its links.
    pub fn is_backed_by(&self, rows: &[(Addr, Label)], at: usize) -> bool
        requires at { IsPlace self.now.nodes.now at }
        requires same_length { HasOneEach self.now.nodes.now rows.now }
        ensures { OnTrue result (IsHeldAt self.now.nodes.now self.now.links.now self.now.source rows.now at) }
    {
        let Some(label) = self.label_by(rows, at) else {
            return true;
        };
        if at == self.source {
            return true;
        }
        for i in self.starts[at]..self.starts[at + 1] {
            let link = self.links[i];
            if link.from as usize == at
                && self.is_source(rows, link.to as usize, at, link.metric as u32, label)
            {
                return true;
            }
        }
        false
    }

    // Whether the node at a place has no label or is the source.
    fn needs_no_link(&self, rows: &[(Addr, Label)], at: usize) -> bool
        requires at { IsPlace self.now.nodes.now at }
        requires same_length { HasOneEach self.now.nodes.now rows.now }
        ensures { OnTrue result (IsHeldAt self.now.nodes.now self.now.links.now self.now.source rows.now at) }
    {
        self.label_by(rows, at).is_none() || at == self.source
    }

    // Whether the node at a place has no label, or is offered its label over a link that leaves it.
    fn is_held_over(&self, rows: &[(Addr, Label)], at: usize, link: Link) -> bool
        requires edge { JoinsPlaces self.now.nodes.now at link.to link.metric }
        requires among { Contains self.now.links.now link }
        requires same_length { HasOneEach self.now.nodes.now rows.now }
        ensures { OnTrue result (IsHeldAt self.now.nodes.now self.now.links.now self.now.source rows.now at) }
    {
        let Some(label) = self.label_by(rows, at) else {
            return true;
        };
        link.from as usize == at
            && self.is_source(rows, link.to as usize, at, link.metric as u32, label)
    }

    // Whether the label at a place is that of before.
    pub fn is_unmoved_at(&self, before: &[(Addr, Label)], rows: &[(Addr, Label)], at: usize) -> bool
        requires at { IsPlace self.now.nodes.now at }
        requires compared { AreCompared self.now.nodes.now before.now rows.now }
        ensures { IsTrue result ↔
            SaySameOf (tree_in self.now.nodes.now self.now.source before.now)
            (tree_in self.now.nodes.now self.now.source rows.now) (addr_at self.now.nodes.now at) }
    {
        is_same(rows[at].1, before[at].1)
    }

    // Whether a link from a place offers its other end nothing better; and if that has its label of before, the other
    // way neither, and it is held. Of an end that has not the link is asked from there.
    fn is_settled_over(
        &self,
        before: &[(Addr, Label)],
        rows: &[(Addr, Label)],
        at: usize,
        link: Link,
    ) -> bool
        requires edge { JoinsPlaces self.now.nodes.now at link.to link.metric }
        requires compared { AreCompared self.now.nodes.now before.now rows.now }
        ensures { OnTrue result
            (IsSettledOver self.now.nodes.now self.now.links.now (tree_in self.now.nodes.now self.now.source before.now)
            (tree_in self.now.nodes.now self.now.source rows.now) (addr_at self.now.nodes.now at) link) }
    {
        let to = link.to as usize;
        let metric = link.metric as u32;
        if !self.is_no_gain(rows, at, to, metric) {
            return false;
        }
        if !self.is_unmoved_at(before, rows, to) {
            return true;
        }
        self.is_settled_back(rows, at, to, metric)
    }

    // Whether an edge with this metric offers a place nothing better from its other end, and that is held. Few are
    // asked this.
    #[inline(never)]
    pub fn is_settled_back(&self, rows: &[(Addr, Label)], at: usize, to: usize, metric: u32) -> bool
        requires edge { JoinsPlaces self.now.nodes.now at to metric }
        requires same_length { HasOneEach self.now.nodes.now rows.now }
        ensures back { OnTrue result
            (OffersNoBetter self.now.nodes.now (tree_in self.now.nodes.now self.now.source rows.now)
            (addr_at self.now.nodes.now to) (addr_at self.now.nodes.now at) metric) }
        ensures near { OnTrue result (IsHeldAt self.now.nodes.now self.now.links.now self.now.source rows.now to) }
    {
        self.is_no_gain(rows, to, at, metric) && self.is_backed_by(rows, to)
    }

    // Whether the node at a place is held, and all its links are settled.
    #[inline(never)]
    fn is_settled_around(&self, before: &[(Addr, Label)], rows: &[(Addr, Label)], at: usize) -> bool
        requires at { IsPlace self.now.nodes.now at }
        requires compared { AreCompared self.now.nodes.now before.now rows.now }
        ensures { OnTrue result
            (IsSettledAround self.now.nodes.now self.now.links.now
            (tree_in self.now.nodes.now self.now.source before.now)
            (tree_in self.now.nodes.now self.now.source rows.now) at) }
    {
        let mut held = self.needs_no_link(rows, at);
        for i in self.starts[at]..self.starts[at + 1] {
            let link = self.links[i];
            if !self.is_settled_over(before, rows, at, link) {
                return false;
            }
            held = held || self.is_held_over(rows, at, link);
        }
        held
    }

    // Whether the node at a place has its label of before, or is settled.
    #[inline(always)]
    fn is_same_or_settled(
        &self,
        before: &[(Addr, Label)],
        rows: &[(Addr, Label)],
        at: usize,
    ) -> bool
        requires at { IsPlace self.now.nodes.now at }
        requires compared { AreCompared self.now.nodes.now before.now rows.now }
        ensures { OnTrue result
            (IsSameOrSettled self.now.nodes.now self.now.links.now
            (tree_in self.now.nodes.now self.now.source before.now)
            (tree_in self.now.nodes.now self.now.source rows.now) at) }
    {
        if self.is_unmoved_at(before, rows, at) {
            return true;
        }
        match self.label_by(rows, at) {
            Some(label) if label.cost <= 268_435_456 && self.passes_on(at) => {
                self.is_plainly_settled(before, rows, at, label)
            }
            _ => self.is_settled_around(before, rows, at),
        }
    }

    // Whether each node is.
    #[inline(never)]
    fn are_same_or_settled(&self, before: &[(Addr, Label)], rows: &[(Addr, Label)]) -> bool
        requires compared { AreCompared self.now.nodes.now before.now rows.now }
        ensures { OnTrue result ((v : ℕ) → v < length self.now.nodes.now →
            IsSameOrSettled self.now.nodes.now self.now.links.now
            (tree_in self.now.nodes.now self.now.source before.now)
            (tree_in self.now.nodes.now self.now.source rows.now) v) }
    {
        for at in 0..self.nodes.len() {
            if !self.is_same_or_settled(before, rows, at) {
                return false;
            }
        }
        true
    }

    // Whether labels are settled where they are not those of before, and at the ends of the edge.
    pub fn is_local(&self, before: &[(Addr, Label)], rows: &[(Addr, Label)], ends: Ends) -> bool
        requires ends { HasEnds self.now.nodes.now ends }
        requires compared { AreCompared self.now.nodes.now before.now rows.now }
        ensures { OnTrue result
            (IsLocal self.now.nodes.now self.now.links.now (tree_in self.now.nodes.now self.now.source before.now)
            (tree_in self.now.nodes.now self.now.source rows.now) ends.one ends.other) }
    {
        if !self.has_start(rows) {
            return false;
        }
        if !self.is_settled_around(before, rows, ends.one) {
            return false;
        }
        if !self.is_settled_around(before, rows, ends.other) {
            return false;
        }
        self.are_same_or_settled(before, rows)
    }

    // Whether the source is at no cost.
    fn has_start(&self, rows: &[(Addr, Label)]) -> bool
        requires { HasOneEach self.now.nodes.now rows.now }
        ensures { OnTrue result (HasStart (tree_in self.now.nodes.now self.now.source rows.now)) }
    {
        match self.label_by(rows, self.source) {
            Some(label) => label.cost == 0 && label.hop == self.addr(self.source),
            None => false,
        }
    }
}

// Whether two rows say the same of their node.
#[inline(always)]
fn is_same(one: Label, other: Label) -> bool
    ensures { IsTrue result ↔ (known one ≡ known other) }
{
    number_of(one) == number_of(other) || (one.cost == NO_WALK && other.cost == NO_WALK)
}
