//! The mending of old labels near a change: forgets those that nothing backs, and then improves what is left.

ghost use Rattle.std.specs.Prelude.{◌≢◌, ◌<◌, length, IfSome, IfOk, All};
ghost use Rattle.std.specs.BinaryHeap.{heap_items};
ghost use Rattle.std.specs.Bool.{OnTrue};
ghost use Rattle.igp_cost.specs.Labels.{IsBounded, IsPlace, JoinsPlaces, AreLimited, ArePlaces, AreQueued, AreUsable, Backs, HasOneEach, TakesMetric};
ghost use Rattle.igp_cost.specs.Placed.{HasEnds};

use crate::label::Label;
use crate::least_trees::{Link, Queue, RootedGraph, improves};
use crate::repair::ends::Ends;
use std::alloc::{AllocError, Global};
use std::cmp::Reverse;
use std::collections::BinaryHeap;

impl<'a> RootedGraph<'a> {
    // Whether a link offers its end a label at least as good as the one there.
    fn backs(&self, link: Link, labels: &[Option<Label>]) -> bool
        requires ends { JoinsPlaces self.now.nodes.now link.from link.to link.metric }
        requires usable { AreUsable self.now.nodes.now labels.now }
        ensures { OnTrue result (Backs self.now.nodes.now self.now.source labels.now link) }
    {
        match (
            self.offer(link, labels[link.from as usize]),
            labels[link.to as usize],
        ) {
            (Some(new), Some(old)) => !improves(old, Some(new)),
            _ => false,
        }
    }

    // Whether some neighbour backs the label of a node: the links that leave it lead back as well.
    fn is_backed(&self, labels: &[Option<Label>], at: usize) -> bool
        requires at { IsPlace self.now.nodes.now at }
        requires usable { AreUsable self.now.nodes.now labels.now }
    {
        for i in self.starts[at]..self.starts[at + 1] {
            let link = self.links[i];
            let back = Link {
                from: link.to,
                to: link.from,
                metric: link.metric,
            };
            if self.backs(back, labels) {
                return true;
            }
        }
        false
    }

    // Adds the neighbours that a node with this cost may have backed.
    fn suspect(
        &self,
        labels: &[Option<Label>],
        at: usize,
        cost: u32,
        suspects: &mut Vec<usize>,
    ) -> Result<(), AllocError>
        requires at { IsPlace self.now.nodes.now at }
        requires labels { HasOneEach self.now.nodes.now labels.now }
        requires bounded { TakesMetric cost }
        requires suspects { ArePlaces self.now.nodes.now suspects.old.items }
        ensures suspects { ArePlaces self.now.nodes.now suspects.new.items }
    {
        for i in self.starts[at]..self.starts[at + 1] {
            let link = self.links[i];
            if let Some(label) = labels[link.to as usize] {
                if label.cost == cost + link.metric as u32 {
                    suspects.push(link.to as usize)?;
                }
            }
        }
        Ok(())
    }

    // The cost of a node that has a label, other than the source's, with nothing to back it.
    fn cut_off(&self, labels: &[Option<Label>], at: usize) -> Option<u32>
        requires at { IsPlace self.now.nodes.now at }
        requires usable { AreUsable self.now.nodes.now labels.now }
        ensures bounded { IfSome result TakesMetric }
        ensures elsewhere { IfSome result (λ _. at ≢ self.now.source) }
    {
        if at == self.source {
            return None;
        }
        let label = labels[at]?;
        if self.is_backed(labels, at) {
            None
        } else {
            Some(label.cost)
        }
    }

    // Forgets the label of a node with this cost, and suspects the neighbours that it may have backed.
    fn forget(
        &self,
        labels: &mut [Option<Label>],
        at: usize,
        cost: u32,
        suspects: &mut Vec<usize>,
    ) -> Result<(), AllocError>
        requires at { IsPlace self.now.nodes.now at }
        requires usable { AreUsable self.now.nodes.now labels.old }
        requires bounded { TakesMetric cost }
        requires suspects { ArePlaces self.now.nodes.now suspects.old.items }
        ensures limited { AreLimited labels.new }
        ensures suspects { ArePlaces self.now.nodes.now suspects.new.items }
    {
        labels[at] = None;
        self.suspect(labels, at, cost, suspects)
    }

    // Takes the last of the suspects, and forgets its label where nothing backs it. Whether there was a suspect.
    fn forget_next(
        &self,
        labels: &mut [Option<Label>],
        suspects: &mut Vec<usize>,
        forgotten: &mut Vec<usize>,
    ) -> Result<bool, AllocError>
        requires usable { AreUsable self.now.nodes.now labels.old }
        requires suspects { ArePlaces self.now.nodes.now suspects.old.items }
        requires forgotten { ArePlaces self.now.nodes.now forgotten.old.items }
        ensures limited { AreLimited labels.new }
        ensures suspects { ArePlaces self.now.nodes.now suspects.new.items }
        ensures forgotten { ArePlaces self.now.nodes.now forgotten.new.items }
    {
        let Some(at) = suspects.pop() else {
            return Ok(false);
        };
        if let Some(cost) = self.cut_off(labels, at) {
            forgotten.push(at)?;
            self.forget(labels, at, cost, suspects)?;
        }
        Ok(true)
    }

    // Forgets labels from the suspects on, as long as nothing backs them. The places of what was forgotten.
    fn forget_cut_off(
        &self,
        alloc: Global,
        labels: &mut [Option<Label>],
        mut suspects: Vec<usize>,
    ) -> Result<Vec<usize>, AllocError>
        requires usable { AreUsable self.now.nodes.now labels.old }
        requires suspects { ArePlaces self.now.nodes.now suspects.items }
        ensures limited { AreLimited labels.new }
        ensures within { IfOk result (λ v. ArePlaces self.now.nodes.now v.items) }
    {
        let mut forgotten = Vec::with_capacity(alloc, 64)?;
        // A label is forgotten once, so suspects are at most two more than links: the bound shows that the loop ends.
        for _ in 0..self.links.len() {
            if !self.forget_next(labels, &mut suspects, &mut forgotten)? {
                break;
            }
        }
        Ok(forgotten)
    }

    // Queues the neighbours of a node, those that have a label.
    fn enqueue_around(
        &self,
        labels: &[Option<Label>],
        at: usize,
        queue: &mut Queue,
    ) -> Result<(), AllocError>
        requires at { IsPlace self.now.nodes.now at }
        requires labels { HasOneEach self.now.nodes.now labels.now }
        requires queued { AreQueued self.now.nodes.now (heap_items queue.old) }
        ensures queued { AreQueued self.now.nodes.now (heap_items queue.new) }
    {
        for i in self.starts[at]..self.starts[at + 1] {
            enqueue(labels, self.links[i].to as usize, queue)?;
        }
        Ok(())
    }

    // The neighbours of the nodes at these places, those that have a label.
    fn border(
        &self,
        alloc: Global,
        labels: &[Option<Label>],
        places: &[usize],
    ) -> Result<Queue, AllocError>
        requires labels { HasOneEach self.now.nodes.now labels.now }
        requires places { ArePlaces self.now.nodes.now places.now }
        ensures { IfOk result (λ q. AreQueued self.now.nodes.now (heap_items q)) }
    {
        let mut queue: Queue = BinaryHeap::new(alloc);
        for at in places {
            self.enqueue_around(labels, *at, &mut queue)?;
        }
        Ok(queue)
    }

    // Mends old labels, given the ends of the edge that has changed: from these, and from around what is forgotten,
    // labels are improved, nearest first. Nothing is promised of what they say: a certificate tells.
    pub fn mend(
        &self,
        alloc: Global,
        labels: &mut [Option<Label>],
        ends: Ends,
    ) -> Result<(), AllocError>
        requires usable { AreUsable self.now.nodes.now labels.old }
        requires ends { HasEnds self.now.nodes.now ends }
        ensures { IsBounded self.now.nodes.now labels.new }
    {
        let suspects = Vec::from_slice(alloc, &[ends.one, ends.other])?;
        let forgotten = self.forget_cut_off(alloc, labels, suspects)?;
        let mut queue = self.border(alloc, labels, &forgotten)?;
        enqueue(labels, ends.one, &mut queue)?;
        enqueue(labels, ends.other, &mut queue)?;
        self.explore(labels, &mut queue)
    }
}

// Queues a node, if it has a label.
pub fn enqueue(labels: &[Option<Label>], at: usize, queue: &mut Queue) -> Result<(), AllocError>
    requires at { at < length labels.now }
    requires queued { All (λ e. e.0.2 < length labels.now) (heap_items queue.old) }
    ensures queued { All (λ e. e.0.2 < length labels.now) (heap_items queue.new) }
{
    if let Some(label) = labels[at] {
        queue.push(Reverse((label.cost, label.hop, at)))?;
    }
    Ok(())
}
