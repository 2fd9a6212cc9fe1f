//! The search of least labels: nearest first, then passes over all links until none makes a label better. The first
//! keeps each label backed by a link, and is not proved to find the least ones; after the passes there is none better.
//! Mostly one pass is made, which finds nothing.

ghost use Rattle.std.specs.Prelude.{◌≡◌, ◌≢◌, ◌↔◌, ◌≤◌, ◌<◌, ◌+◌, ℕ, IsTrue, IfSome, IfOk, None};
ghost use Rattle.std.specs.BinaryHeap.{heap_items, heap_len};
ghost use Rattle.std.specs.Bool.{OnTrue, OnFalse};
ghost use Rattle.igp_cost.specs.Labels.{extended, IsBefore, IsBounded, AreBackedLabels, IsClosed, weight_of, ClosesAt, Starts, label_at, IsPlace, IsLinkPlace, AreQueued, JoinsPlaces, HasOneEach, TakesMetric};

use crate::label::Label;
use crate::least_trees::link::Link;
use crate::least_trees::rooted::RootedGraph;
use net_prefix::Addr;
use std::alloc::{AllocError, Global};
use std::cmp::Reverse;
use std::collections::BinaryHeap;

// The nodes to look at, the nearest first: a label's cost and hop, and the node's index.
pub type Queue = BinaryHeap<Reverse<(u32, Addr, usize)>>;

impl<'a> RootedGraph<'a> {
    // The label that a link offers its end, from the label at its start.
    pub fn offer(&self, link: Link, from: Option<Label>) -> Option<Label>
        requires ends { JoinsPlaces self.now.nodes.now link.from link.to link.metric }
        requires bounded { IfSome from (λ l. TakesMetric l.cost) }
        ensures { result ≡ extended self.now.nodes.now self.now.source link from }
    {
        let from = from?;
        if self.nodes[link.from as usize].1 != self.nodes[self.source].1 {
            return None;
        }
        let cost = from.cost + link.metric as u32;
        let hop = if link.from as usize == self.source {
            self.nodes[link.to as usize].0
        } else {
            from.hop
        };
        Some(Label { cost, hop })
    }

    // Gives the end of a link what the link offers, if that is better; says whether it was.
    fn relax(&self, labels: &mut [Option<Label>], at: usize) -> bool
        requires at { IsLinkPlace self.now.links.now at }
        requires bounded { IsBounded self.now.nodes.now labels.old }
        ensures bounded { IsBounded self.now.nodes.now labels.new }
        ensures backed { AreBackedLabels self.now.nodes.now self.now.source self.now.links.now labels.old →
            AreBackedLabels self.now.nodes.now self.now.source self.now.links.now labels.new }
        ensures falls { OnTrue result (weight_of labels.new < weight_of labels.old) }
        ensures same { OnFalse result (labels.new ≡ labels.old) }
        ensures closed { OnFalse result (ClosesAt self.now.nodes.now self.now.source self.now.links.now labels.new at) }
    {
        let link = self.links[at];
        let Some(new) = self.offer(link, labels[link.from as usize]) else {
            return false;
        };
        if improves(new, labels[link.to as usize]) {
            labels[link.to as usize] = Some(new);
            true
        } else {
            false
        }
    }

    // Relaxes each link once; says whether a label got better.
    fn pass(&self, labels: &mut [Option<Label>]) -> bool
        requires { AreBackedLabels self.now.nodes.now self.now.source self.now.links.now labels.old }
        ensures backed { AreBackedLabels self.now.nodes.now self.now.source self.now.links.now labels.new }
        ensures falls { OnTrue result (weight_of labels.new < weight_of labels.old) }
        ensures closed { OnFalse result (IsClosed self.now.nodes.now self.now.source self.now.links.now labels.new) }
    {
        let mut changed = false;
        for at in 0..self.links.len() {
            if self.relax(labels, at) {
                changed = true;
            }
        }
        changed
    }

    // Relaxes the links until no label gets better.
    fn settle(&self, labels: &mut [Option<Label>])
        requires { AreBackedLabels self.now.nodes.now self.now.source self.now.links.now labels.old }
        ensures backed { AreBackedLabels self.now.nodes.now self.now.source self.now.links.now labels.new }
        ensures closed { IsClosed self.now.nodes.now self.now.source self.now.links.now labels.new }
    {
        while self.pass(labels) {}
    }

    // Relaxes the links that leave a node, and queues each node whose label got better.
    fn spread(
        &self,
        from: usize,
        labels: &mut [Option<Label>],
        queue: &mut Queue,
    ) -> Result<(), AllocError>
        requires from { IsPlace self.now.nodes.now from }
        requires bounded { IsBounded self.now.nodes.now labels.old }
        requires queued { AreQueued self.now.nodes.now (heap_items queue.old) }
        ensures bounded { IsBounded self.now.nodes.now labels.new }
        ensures backed { AreBackedLabels self.now.nodes.now self.now.source self.now.links.now labels.old →
            AreBackedLabels self.now.nodes.now self.now.source self.now.links.now labels.new }
        ensures queued { AreQueued self.now.nodes.now (heap_items queue.new) }
        ensures falls { weight_of labels.new + heap_len queue.new ≤ weight_of labels.old + heap_len queue.old }
    {
        for at in self.starts[from]..self.starts[from + 1] {
            if self.relax(labels, at) {
                let to = self.links[at].to as usize;
                if let Some(label) = labels[to] {
                    queue.push(Reverse((label.cost, label.hop, to)))?;
                }
            }
        }
        Ok(())
    }

    // Improves the labels, nearest first, from the nodes that are queued. An entry whose label got better since is
    // passed over.
    pub fn explore(&self, labels: &mut [Option<Label>], queue: &mut Queue) -> Result<(), AllocError>
        requires bounded { IsBounded self.now.nodes.now labels.old }
        requires queued { AreQueued self.now.nodes.now (heap_items queue.old) }
        ensures bounded { IsBounded self.now.nodes.now labels.new }
        ensures backed { AreBackedLabels self.now.nodes.now self.now.source self.now.links.now labels.old →
            AreBackedLabels self.now.nodes.now self.now.source self.now.links.now labels.new }
    {
        while let Some(Reverse((cost, hop, at))) = queue.pop() {
            if labels[at] == Some(Label { cost, hop }) {
                self.spread(at, labels, queue)?;
            }
        }
        Ok(())
    }

    // The labels before any link is looked at: the source's alone.
    fn first_labels(&self, alloc: Global) -> Result<Vec<Option<Label>>, AllocError>
        ensures same_length { IfOk result (λ v. HasOneEach self.now.nodes.now v.items) }
        ensures start { IfOk result (λ v. Starts self.now.nodes.now self.now.source v.items) }
        ensures alone { IfOk result (λ v. (at : ℕ) → at ≢ self.now.source → label_at v.items at ≡ None) }
    {
        let mut labels = vec![in alloc; None; self.nodes.len()]?;
        labels[self.source] = Some(Label {
            cost: 0,
            hop: self.nodes[self.source].0,
        });
        Ok(labels)
    }

    // The least labels from the source.
    pub fn labels(&self, alloc: Global) -> Result<Vec<Option<Label>>, AllocError>
        ensures backed { IfOk result (λ v.
            AreBackedLabels self.now.nodes.now self.now.source self.now.links.now v.items) }
        ensures closed { IfOk result (λ v. IsClosed self.now.nodes.now self.now.source self.now.links.now v.items) }
    {
        let mut labels = self.first_labels(alloc)?;
        let mut queue: Queue = BinaryHeap::new(alloc);
        queue.push(Reverse((0, self.nodes[self.source].0, self.source)))?;
        self.explore(&mut labels, &mut queue)?;
        self.settle(&mut labels);
        Ok(labels)
    }
}

// Whether a label is better than what is there.
pub fn improves(new: Label, old: Option<Label>) -> bool
    ensures { IsTrue result ↔ IsBefore new old }
{
    match old {
        None => true,
        Some(old) => new.cost < old.cost || (new.cost == old.cost && new.hop.0 < old.hop.0),
    }
}
