//! The certificate: one look at each link tells whether labels are the least ones.

ghost use Rattle.std.specs.Prelude.{◌≡◌, ◌<◌, ℕ, length, IfSome, IfOk};
ghost use Rattle.std.specs.Bool.{OnTrue};
ghost use Rattle.igp_cost.specs.Labels.{AreBackedLabels, IsClosed, IsBounded, Starts, addr_at, IsPlace, IsLinkPlace, JoinsPlaces, HasOneEach};
ghost use Rattle.igp_cost.specs.Codes.{IsCode, AreCodes, passed_on, ArePassed, offer_code, IsShutAt, AreMet, IsSettledAt, IsStill, AreNodeCodes};

use crate::label::{Label, number_of};
use crate::least_trees::{Link, RootedGraph};
use std::alloc::{AllocError, Global};

// What stands for no label: it is more than what stands for any.
const NO_LABEL: u64 = 9_223_372_036_854_775_808;

// A label as one number, by its cost and then by its hop.
fn code_of(label: Option<Label>) -> u64
    requires { IfSome label (λ l. l.cost < 1073741824) }
    ensures { IsCode label result }
{
    match label {
        Some(label) => number_of(label),
        None => NO_LABEL,
    }
}

impl<'a> RootedGraph<'a> {
    // Whether the source has its own label.
    fn starts_in(&self, labels: &[Option<Label>]) -> bool
        requires { HasOneEach self.now.nodes.now labels.now }
        ensures { OnTrue result (Starts self.now.nodes.now self.now.source labels.now) }
    {
        match labels[self.source] {
            Some(label) => label.cost == 0 && label.hop == self.nodes[self.source].0,
            None => false,
        }
    }

    // The label that a node passes on: none outside the source's AS.
    fn passed_by(&self, at: usize, label: Option<Label>) -> Option<Label>
        requires { IsPlace self.now.nodes.now at }
        ensures { result ≡ passed_on self.now.nodes.now self.now.source at label }
    {
        if self.nodes[at].1 == self.nodes[self.source].1 {
            label
        } else {
            None
        }
    }

    // What stands for each label.
    fn codes_of(&self, alloc: Global, labels: &[Option<Label>]) -> Result<Vec<u64>, AllocError>
        requires { IsBounded self.now.nodes.now labels.now }
        ensures { IfOk result (λ v. AreCodes labels.now v.items) }
    {
        let mut codes = Vec::with_capacity(alloc, labels.len())?;
        for at in 0..labels.len() {
            codes.push(code_of(labels[at]))?;
        }
        Ok(codes)
    }

    // What stands for the label that each node passes on.
    fn passed_of(&self, alloc: Global, labels: &[Option<Label>]) -> Result<Vec<u64>, AllocError>
        requires { IsBounded self.now.nodes.now labels.now }
        ensures { IfOk result (λ v. ArePassed self.now.nodes.now self.now.source labels.now v.items) }
    {
        let mut passed = Vec::with_capacity(alloc, labels.len())?;
        for at in 0..labels.len() {
            passed.push(code_of(self.passed_by(at, labels[at])))?;
        }
        Ok(passed)
    }

    // What stands for a link's offer to its end.
    fn offered(&self, passed: &[u64], link: Link) -> u64
        requires ends { JoinsPlaces self.now.nodes.now link.from link.to link.metric }
        requires passed { AreNodeCodes self.now.nodes.now passed.now }
        ensures code { result ≡ offer_code self.now.nodes.now self.now.source passed.now link }
        ensures address { link.from ≡ self.now.source → (addr_at self.now.nodes.now link.to).0 < 4294967296 }
    {
        let metric = link.metric as u64 * 4_294_967_296;
        if link.from as usize == self.source {
            let hop = self.nodes[link.to as usize].0;
            return hop.0 as u64 + metric;
        }
        passed[link.from as usize] + metric
    }

    // Looks at one link: marks its end where its offer is what stands there. Says whether it offers nothing better.
    fn look(&self, codes: &[u64], passed: &[u64], at: usize, marks: &mut [bool]) -> bool
        requires at { IsLinkPlace self.now.links.now at }
        requires codes { HasOneEach self.now.nodes.now codes.now }
        requires passed { AreNodeCodes self.now.nodes.now passed.now }
        requires marks { HasOneEach self.now.nodes.now marks.old }
        requires met { AreMet self.now.nodes.now self.now.source self.now.links.now codes.now passed.now marks.old }
        ensures met { AreMet self.now.nodes.now self.now.source self.now.links.now codes.now passed.now marks.new }
        ensures shut { OnTrue result
            (IsShutAt self.now.nodes.now self.now.source self.now.links.now codes.now passed.now at) }
    {
        let link = self.links[at];
        let to = link.to as usize;
        let offer = self.offered(passed, link);
        let code = codes[to];
        // There is no branch on what is read, which would be foretold badly: this is what a repair spends most of its
        // time on.
        marks[to] = marks[to] | (offer == code);
        code <= offer
    }

    // Looks at each link. Says whether none offers its end anything better.
    fn look_at_all(&self, codes: &[u64], passed: &[u64], marks: &mut [bool]) -> bool
        requires codes { HasOneEach self.now.nodes.now codes.now }
        requires passed { AreNodeCodes self.now.nodes.now passed.now }
        requires marks { HasOneEach self.now.nodes.now marks.old }
        requires met { AreMet self.now.nodes.now self.now.source self.now.links.now codes.now passed.now marks.old }
        ensures met { AreMet self.now.nodes.now self.now.source self.now.links.now codes.now passed.now marks.new }
        ensures shut { OnTrue result ((k : ℕ) → k < length self.now.links.now →
            IsShutAt self.now.nodes.now self.now.source self.now.links.now codes.now passed.now k) }
    {
        let mut shut = true;
        for at in 0..self.links.len() {
            if !self.look(codes, passed, at, marks) {
                shut = false;
            }
        }
        shut
    }

    // Whether a label that a link offers stands at each node but the source, and no link offers a better one.
    fn is_met_and_shut(
        &self,
        alloc: Global,
        codes: &[u64],
        passed: &[u64],
    ) -> Result<bool, AllocError>
        requires codes { HasOneEach self.now.nodes.now codes.now }
        requires passed { AreNodeCodes self.now.nodes.now passed.now }
        ensures { IfOk result (λ b.
            OnTrue b (IsStill self.now.nodes.now self.now.source self.now.links.now codes.now passed.now)) }
    {
        let mut marks = vec![in alloc; false; self.nodes.len()]?;
        let shut = self.look_at_all(codes, passed, &mut marks);
        Ok(shut && are_settled(self.source, codes, &marks))
    }

    // Whether labels are seen to be the least ones. Where it says no, they may still be.
    pub fn are_least(&self, alloc: Global, labels: &[Option<Label>]) -> Result<bool, AllocError>
        requires { IsBounded self.now.nodes.now labels.now }
        ensures backed { IfOk result (λ b.
            OnTrue b (AreBackedLabels self.now.nodes.now self.now.source self.now.links.now labels.now)) }
        ensures closed { IfOk result (λ b.
            OnTrue b (IsClosed self.now.nodes.now self.now.source self.now.links.now labels.now)) }
    {
        if !self.starts_in(labels) {
            return Ok(false);
        }
        let codes = self.codes_of(alloc, labels)?;
        let passed = self.passed_of(alloc, labels)?;
        self.is_met_and_shut(alloc, &codes, &passed)
    }
}

// Whether each node is the source, is marked, or has no label.
fn are_settled(source: usize, codes: &[u64], marks: &[bool]) -> bool
    requires { length marks.now ≡ length codes.now }
    ensures { OnTrue result ((v : ℕ) → v < length codes.now → IsSettledAt source codes.now marks.now v) }
{
    for at in 0..codes.len() {
        if at != source && !marks[at] && codes[at] != NO_LABEL {
            return false;
        }
    }
    true
}
