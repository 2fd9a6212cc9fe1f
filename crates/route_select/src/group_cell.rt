//! The selector in groups: the order in which the standings are kept decides, so that the best is looked up and not
//! searched for.

ghost use Rattle.std.specs.Prelude.{◌≡◌, ◌<◌, ◌≤◌, List, length, false, None, is_some, IfOk, OnOk, OnErr, vec_len, vec_capacity};
ghost use Rattle.std.specs.FinMap.{find};
ghost use Rattle.route_select.specs.declared.candidate.Candidate.{Candidate};
ghost use Rattle.route_select.specs.Selection.{considered_in, reason_for, source_cmp};
ghost use Rattle.route_select.specs.Entries.{candidate_at, standing_at};
ghost use Rattle.route_select.specs.Groups.{AreRanked, AreDistinct, IsBest, IsBestBeside, SameMembers, most_entries, without};

use crate::candidate::{Candidate, Reason, Source, Standing};
use crate::chosen::{Chosen, Selector};
use crate::entries::{copy_entries, set_lone_cost, standing_at};
use crate::filter::FILTERS;
use crate::groups::{best_position, candidate_at, keeps_best, leader, moved, position_of, slot};
use std::alloc::{AllocError, Global};
use std::marker::Model;

/// The most entries of a cell, so that 32 bits hold the position of the best.
const MOST_ENTRIES: usize = 4_294_967_295;

/// Up to so many entries a cell has just the room that they take: most cells have one to four.
const FEW: usize = 16;

/// Standings in groups of one neighbouring AS, or in one group, and the position of the best one.
///
/// One vector holds all: the groups one behind the other, each in the order of all filters, and behind them what is
/// excluded. So taking out or putting in is one search and one shift, memory is asked for in one place, before anything
/// is changed, and there are no groups to begin, to remove when they are empty, or to number anew.
///
/// It holds 4,294,967,295 sources at most: one more is an `AllocError`.
#[derive(Drop)]
pub struct GroupCell {
    entries: Vec<(Source, Standing)>,
    best: u32,
    med_always: bool,
}

impl Model for GroupCell {
    ghost use Rattle.route_select.specs.Selection.{Standings};
    ghost use Rattle.route_select.specs.Groups.{AreGrouped, known_of};
    ghost use Rattle.route_select.specs.Coding.{coded_standings};

    ghost Value = { Standings };

    ghost coded = { coded_standings };

    ghost view = { λ a. record { known = known_of a.entries.items; med_always = a.med_always } };

    ghost invariant = { λ a. AreGrouped a.med_always a.entries.items a.best };
}

/// Why the route at a position is not the best, or that it is. Three routes tell: it, the best, and the leader of its
/// group.
fn reason_at(med_always: bool, entries: &[(Source, Standing)], best: usize, at: usize) -> Reason
    requires in_range { at < length entries.now }
    requires ranked { AreRanked med_always entries.now }
    requires best { IsBest med_always (considered_in entries.now) (candidate_at entries.now best) }
    ensures { (set : List Candidate) → SameMembers set (considered_in entries.now) →
        result ≡ reason_for med_always set (standing_at entries.now at) }
{
    match &entries[at].1 {
        Standing::Excluded(reason) => *reason,
        Standing::Considered(c) => match candidate_at(entries, best) {
            Some(b) => c.first_worse(med_always, &FILTERS, b, leader(med_always, entries, c)),
            None => unreachable!(),
        },
    }
}

/// The position of the best, in 32 bits.
fn best_place(med_always: bool, entries: &[(Source, Standing)]) -> u32
    requires ranked { AreRanked med_always entries.now }
    requires few { length entries.now ≤ most_entries }
    ensures { IsBest med_always (considered_in entries.now) (candidate_at entries.now result) }
{
    best_position(med_always, entries) as u32
}

/// The position of the best once an entry was put in at a position, where the best of the others stood at the other
/// one.
fn best_beside(med_always: bool, entries: &[(Source, Standing)], at: usize, best: u32) -> u32
    requires ranked { AreRanked med_always entries.now }
    requires few { length entries.now ≤ most_entries }
    requires beside { IsBestBeside med_always entries.now at best }
    ensures { IsBest med_always (considered_in entries.now) (candidate_at entries.now result) }
{
    let place = moved(best as usize, at);
    if keeps_best(
        med_always,
        candidate_at(entries, at),
        candidate_at(entries, place),
    ) {
        place as u32
    } else {
        best_place(med_always, entries)
    }
}

/// The position of the best once an entry was put in at a position: of a source that had one, or beside the others.
fn best_then(
    med_always: bool,
    entries: &[(Source, Standing)],
    known: bool,
    at: usize,
    best: u32,
) -> u32
    requires ranked { AreRanked med_always entries.now }
    requires few { length entries.now ≤ most_entries }
    requires beside { known ≡ false → IsBestBeside med_always entries.now at best }
    ensures { IsBest med_always (considered_in entries.now) (candidate_at entries.now result) }
{
    if known {
        best_place(med_always, entries)
    } else {
        best_beside(med_always, entries, at, best)
    }
}

/// Takes the source's entry out, or where it has none makes room for it, and says whether it had one. An error comes
/// only where it has none, and changes nothing.
fn make_way(entries: &mut Vec<(Source, Standing)>, source: Source) -> Result<bool, AllocError>
    requires distinct { AreDistinct entries.old.items }
    requires few { length entries.old.items ≤ most_entries }
    ensures ok { OnOk result (entries.new.items ≡ without source entries.old.items) }
    ensures room { OnOk result (vec_len entries.new < vec_capacity entries.new) }
    ensures few { OnOk result (length entries.new.items < most_entries) }
    ensures had { IfOk result (λ had. had ≡ is_some (find source_cmp source entries.old.items)) }
    ensures err { OnErr result (entries.new.items ≡ entries.old.items) }
    ensures absent { OnErr result (find source_cmp source entries.old.items ≡ None) }
{
    match position_of(entries, source) {
        Some(at) => {
            entries.remove(at);
            Ok(true)
        }
        None => {
            make_room(entries)?;
            Ok(false)
        }
    }
}

/// Makes room for an entry more. An error changes nothing.
fn make_room(entries: &mut Vec<(Source, Standing)>) -> Result<(), AllocError>
    requires few { length entries.old.items ≤ most_entries }
    ensures same { entries.new.items ≡ entries.old.items }
    ensures room { OnOk result (vec_len entries.new < vec_capacity entries.new) }
    ensures few { OnOk result (length entries.new.items < most_entries) }
{
    if entries.len() >= MOST_ENTRIES {
        Err(AllocError)
    } else if entries.len() < FEW {
        entries.reserve_exact(1)
    } else {
        entries.reserve(1)
    }
}

impl Chosen for GroupCell {
    ghost standings = { λ a. a };

    fn med_always(&self) -> bool {
        self.med_always
    }

    fn best(&self) -> Option<&Candidate> {
        candidate_at(&self.entries, self.best as usize)
    }

    fn standing(&self, source: Source) -> Option<&Standing> {
        let at = position_of(&self.entries, source)?;
        Some(standing_at(&self.entries, at))
    }

    fn reason(&self, source: Source) -> Option<Reason> {
        match position_of(&self.entries, source) {
            Some(at) => Some(reason_at(self.med_always, &self.entries, self.best as usize, at)),
            None => None,
        }
    }
}

impl Selector for GroupCell {
    fn new(alloc: Global, med_always: bool) -> Self {
        GroupCell {
            entries: Vec::new(alloc),
            best: 0,
            med_always,
        }
    }

    fn put(&mut self, source: Source, standing: Standing) -> Result<(), AllocError> {
        let known = make_way(&mut self.entries, source)?;
        let at = slot(self.med_always, &self.entries, source, &standing);
        match self.entries.insert(at, (source, standing)) {
            Ok(()) => {
                self.best = best_then(self.med_always, &self.entries, known, at, self.best);
                Ok(())
            }
            Err(_) => unreachable!(),
        }
    }

    fn drop_source(&mut self, source: Source) {
        if let Some(at) = position_of(&self.entries, source) {
            self.entries.remove(at);
            self.best = best_place(self.med_always, &self.entries);
        }
    }

    fn set_cost(&mut self, cost: u32) {
        set_lone_cost(&mut self.entries, cost);
    }

    fn copy(&self, alloc: Global) -> Result<Self, AllocError> {
        Ok(GroupCell {
            entries: copy_entries(alloc, &self.entries)?,
            best: self.best,
            med_always: self.med_always,
        })
    }
}
