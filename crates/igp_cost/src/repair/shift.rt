//! The mending of old rows by a shift: an edge with another metric moves all labels that lead over it by the same
//! difference.

ghost use Rattle.std.specs.Prelude.{◌≡◌, IfSome, IfOk};
ghost use Rattle.std.specs.BinaryHeap.{heap_items};
ghost use Rattle.igp_cost.specs.Placed.{ArePlaced, HasEnds};
ghost use Rattle.igp_cost.specs.Labels.{IsPlace, ArePlaces, IsLinkPlace, AreLinkPlaces, AreQueued, JoinsPlaces, HasOneEach};

use crate::label::{Label, known, number_of};
use crate::least_trees::{Link, Queue, RootedGraph, improves};
use crate::repair::ends::Ends;
use net_prefix::Addr;
use std::alloc::{AllocError, Global};
use std::cmp::Reverse;
use std::collections::BinaryHeap;

impl<'a> RootedGraph<'a> {
    // The label that a link offers its end.
    fn offer_in(&self, rows: &[(Addr, Label)], link: Link) -> Option<Label>
        requires ends { JoinsPlaces self.now.nodes.now link.from link.to link.metric }
        requires rows { HasOneEach self.now.nodes.now rows.now }
    {
        let start = known(rows[link.from as usize].1)?;
        if !self.is_inside(link.from as usize) {
            return None;
        }
        let hop = if link.from as usize == self.source {
            self.nodes[link.to as usize].0
        } else {
            start.hop
        };
        Some(Label {
            cost: start.cost.wrapping_add(link.metric as u32),
            hop,
        })
    }

    // What a link offers its end, if that is better than what is there.
    fn gain(&self, rows: &[(Addr, Label)], link: Link) -> Option<Label>
        requires ends { JoinsPlaces self.now.nodes.now link.from link.to link.metric }
        requires rows { HasOneEach self.now.nodes.now rows.now }
    {
        let new = self.offer_in(rows, link)?;
        if improves(new, known(rows[link.to as usize].1)) {
            Some(new)
        } else {
            None
        }
    }

    // Goes on over a link of a moved node, whose label was this: moves the other end too, if its label came over the
    // link; else adds the link to the border.
    #[inline(always)]
    fn shift_over(
        &self,
        before: &[(Addr, Label)],
        rows: &mut [(Addr, Label)],
        i: usize,
        moved: &mut Vec<usize>,
        border: &mut Vec<usize>,
    ) -> Result<(), AllocError>
        requires i { IsLinkPlace self.now.links.now i }
        requires before { HasOneEach self.now.nodes.now before.now }
        requires placed { ArePlaced self.now.nodes.now rows.old }
        requires moved { ArePlaces self.now.nodes.now moved.old.items }
        requires border { AreLinkPlaces self.now.links.now border.old.items }
        ensures placed { ArePlaced self.now.nodes.now rows.new }
        ensures moved { ArePlaces self.now.nodes.now moved.new.items }
        ensures border { AreLinkPlaces self.now.links.now border.new.items }
    {
        let link = self.links[i];
        let at = link.from as usize;
        let to = link.to as usize;
        let there = number_of(before[to].1);
        if number_of(rows[to].1) != there {
            return Ok(());
        }
        let came = shifted(before[at].1, link.metric as u32);
        if number_of(came) == there && self.is_inside(at) {
            let new = shifted(rows[at].1, link.metric as u32);
            self.put(rows, to, new);
            moved.push(to)?;
        } else {
            border.push(i)?;
        }
        Ok(())
    }

    // Goes on over the links of a moved node.
    #[inline(always)]
    fn shift_from(
        &self,
        before: &[(Addr, Label)],
        rows: &mut [(Addr, Label)],
        at: usize,
        moved: &mut Vec<usize>,
        border: &mut Vec<usize>,
    ) -> Result<(), AllocError>
        requires at { IsPlace self.now.nodes.now at }
        requires before { HasOneEach self.now.nodes.now before.now }
        requires placed { ArePlaced self.now.nodes.now rows.old }
        requires moved { ArePlaces self.now.nodes.now moved.old.items }
        requires border { AreLinkPlaces self.now.links.now border.old.items }
        ensures placed { ArePlaced self.now.nodes.now rows.new }
        ensures moved { ArePlaces self.now.nodes.now moved.new.items }
        ensures border { AreLinkPlaces self.now.links.now border.new.items }
    {
        for i in self.starts[at]..self.starts[at + 1] {
            self.shift_over(before, rows, i, moved, border)?;
        }
        Ok(())
    }

    // Goes on from the moved nodes, as long as there are more. The links to the others.
    #[inline(never)]
    fn shift_on(
        &self,
        alloc: Global,
        before: &[(Addr, Label)],
        rows: &mut [(Addr, Label)],
        mut moved: Vec<usize>,
    ) -> Result<Vec<usize>, AllocError>
        requires before { HasOneEach self.now.nodes.now before.now }
        requires placed { ArePlaced self.now.nodes.now rows.old }
        requires moved { ArePlaces self.now.nodes.now moved.items }
        ensures placed { ArePlaced self.now.nodes.now rows.new }
        ensures border { IfOk result (λ v. AreLinkPlaces self.now.links.now v.items) }
    {
        let mut border = Vec::with_capacity(alloc, 8)?;
        // A node is moved once: the bound shows that the loop ends.
        for next in 0..self.nodes.len() {
            if next >= moved.len() {
                break;
            }
            let at = moved[next];
            self.shift_from(before, rows, at, &mut moved, &mut border)?;
        }
        Ok(border)
    }

    // Gives the ends of a link what it offers them, where that is better, and queues them.
    fn gain_over(
        &self,
        rows: &mut [(Addr, Label)],
        link: Link,
        queue: &mut Queue,
    ) -> Result<(), AllocError>
        requires ends { JoinsPlaces self.now.nodes.now link.from link.to link.metric }
        requires placed { ArePlaced self.now.nodes.now rows.old }
        requires queued { AreQueued self.now.nodes.now (heap_items queue.old) }
        ensures placed { ArePlaced self.now.nodes.now rows.new }
        ensures queued { AreQueued self.now.nodes.now (heap_items queue.new) }
    {
        let Some(new) = self.gain(rows, link) else {
            return Ok(());
        };
        let to = link.to as usize;
        self.put(rows, to, new);
        queue.push(Reverse((new.cost, new.hop, to)))?;
        Ok(())
    }

    // Does so over each link of the border, both ways.
    fn gain_over_border(
        &self,
        alloc: Global,
        rows: &mut [(Addr, Label)],
        border: &[usize],
    ) -> Result<Queue, AllocError>
        requires placed { ArePlaced self.now.nodes.now rows.old }
        requires border { AreLinkPlaces self.now.links.now border.now }
        ensures placed { ArePlaced self.now.nodes.now rows.new }
        ensures queued { IfOk result (λ q. AreQueued self.now.nodes.now (heap_items q)) }
    {
        let mut queue: Queue = BinaryHeap::new(alloc);
        for i in border {
            let link = self.links[*i];
            self.gain_over(rows, link, &mut queue)?;
            self.gain_over(rows, turned(link), &mut queue)?;
        }
        Ok(queue)
    }

    // Does so over each link of a node.
    fn gain_from(
        &self,
        rows: &mut [(Addr, Label)],
        at: usize,
        queue: &mut Queue,
    ) -> Result<(), AllocError>
        requires at { IsPlace self.now.nodes.now at }
        requires placed { ArePlaced self.now.nodes.now rows.old }
        requires queued { AreQueued self.now.nodes.now (heap_items queue.old) }
        ensures placed { ArePlaced self.now.nodes.now rows.new }
        ensures queued { AreQueued self.now.nodes.now (heap_items queue.new) }
    {
        for i in self.starts[at]..self.starts[at + 1] {
            self.gain_over(rows, self.links[i], queue)?;
        }
        Ok(())
    }

    // Goes on from the nodes that are queued, the nearest first. An entry whose label got better since is passed over.
    #[inline(never)]
    fn gain_on(&self, rows: &mut [(Addr, Label)], mut queue: Queue) -> Result<(), AllocError>
        requires placed { ArePlaced self.now.nodes.now rows.old }
        requires queued { AreQueued self.now.nodes.now (heap_items queue) }
        ensures { ArePlaced self.now.nodes.now rows.new }
    {
        // Mostly a node is queued once; where there are more, the certificate tells. The bound shows that the loop
        // ends.
        for _ in 0..self.links.len() {
            let Some(Reverse((cost, hop, at))) = queue.pop() else {
                break;
            };
            if rows[at].1 == (Label { cost, hop }) {
                self.gain_from(rows, at, &mut queue)?;
            }
        }
        Ok(())
    }

    // A link from one place to another.
    fn link_between(&self, from: usize, to: usize) -> Option<usize>
        requires { IsPlace self.now.nodes.now from }
        ensures { IfSome result (IsLinkPlace self.now.links.now) }
    {
        for i in self.starts[from]..self.starts[from + 1] {
            if self.links[i].to as usize == to {
                return Some(i);
            }
        }
        None
    }

    // The link of an edge that may lead to a label: to the end that is further from the source.
    fn link_outward(&self, rows: &[(Addr, Label)], ends: Ends) -> Option<usize>
        requires rows { HasOneEach self.now.nodes.now rows.now }
        requires ends { HasEnds self.now.nodes.now ends }
        ensures { IfSome result (IsLinkPlace self.now.links.now) }
    {
        if known(rows[ends.one].1)?.cost < known(rows[ends.other].1)?.cost {
            self.link_between(ends.one, ends.other)
        } else {
            self.link_between(ends.other, ends.one)
        }
    }

    // Mends the rows before, given the ends of an edge that has another metric: moves the label at the end that is
    // further from the source, and those that came over it, to what they are offered now, and improves the labels from
    // the border of these on. Whether there is such an end. Nothing is promised of what they say: a certificate tells.
    pub fn shift(
        &self,
        alloc: Global,
        before: &[(Addr, Label)],
        rows: &mut [(Addr, Label)],
        ends: Ends,
    ) -> Result<bool, AllocError>
        requires before { HasOneEach self.now.nodes.now before.now }
        requires placed { ArePlaced self.now.nodes.now rows.old }
        requires ends { HasEnds self.now.nodes.now ends }
        ensures { ArePlaced self.now.nodes.now rows.new }
    {
        let Some(i) = self.link_outward(before, ends) else {
            return Ok(false);
        };
        let link = self.links[i];
        let Some(new) = self.offer_in(rows, link) else {
            return Ok(false);
        };
        self.put(rows, link.to as usize, new);
        let mut moved = Vec::with_capacity(alloc, 64)?;
        moved.push(link.to as usize)?;
        let border = self.shift_on(alloc, before, rows, moved)?;
        let queue = self.gain_over_border(alloc, rows, &border)?;
        self.gain_on(rows, queue)?;
        Ok(true)
    }
}

// A label, further on by a metric.
#[inline(always)]
fn shifted(label: Label, metric: u32) -> Label {
    Label {
        cost: label.cost.wrapping_add(metric),
        hop: label.hop,
    }
}

// A link, the other way round.
fn turned(link: Link) -> Link
    ensures { result ≡ record { from = link.to; to = link.from; metric = link.metric } }
{
    Link {
        from: link.to,
        to: link.from,
        metric: link.metric,
    }
}
