//! What one router has received for one prefix, and its choice.

ghost use Rattle.std.specs.Prelude.{◌≡◌, false, IfOk};
ghost use Rattle.std.specs.Option.{option_copied};
ghost use Rattle.route_select.specs.Selection.{best_of, no_standings, reason_in};
ghost use Rattle.cell_engine.specs.Cells.{effective, new_cell, route_of};
ghost use Rattle.cell_engine.specs.Recosting.{recosted};
ghost use Rattle.cell_engine.specs.Senders.{AreInOrder, first_past, seen};

use crate::route_cell::received_routes::ReceivedRoutes;
use net_prefix::Addr;
use path_attr::SharedAttr;
use route_select::{Candidate, Chosen, Reason, Selector, Source};
use seq::Copied;
use std::alloc::{AllocError, Global};
use std::marker::Model;

/// The routes to one prefix that one router has received, by sender, and the choice among them and its own. The choice
/// compares as the router does, where a route stands: an empty one may compare otherwise, and nothing sees that.
#[derive(Drop)]
pub struct Cell<S: Chosen> {
    pub(crate) received: ReceivedRoutes,
    pub(crate) chosen: S,
}

impl<S: Chosen> Model for Cell<S> {
    ghost use Rattle.cell_engine.specs.Cells.{Cell, effective};
    ghost use Rattle.cell_engine.specs.CellCoding.{coded_cell};

    ghost Value = { Cell };

    ghost coded = { coded_cell };

    ghost view = { λ c. record { received = c.received; standings = effective (S.standings c.chosen) } };
}

impl<S: Selector> Cell<S> {
    /// Nothing was received. The choice among what comes compares MULTI_EXIT_DISC as it is told. It takes no memory.
    pub fn new(alloc: Global, med_always: bool) -> Self
        ensures { result ≡ new_cell }
    {
        Cell::undecided(alloc, ReceivedRoutes::new(alloc), med_always)
    }

    /// These routes, of which nothing is decided. It takes no memory.
    #[tactic(auto, using(crate::proofs::Effective::effective_none))]
    pub(crate) fn undecided(alloc: Global, received: ReceivedRoutes, med_always: bool) -> Self
        ensures { result ≡ record { received = received; standings = no_standings false } }
    {
        Cell {
            received,
            chosen: S::new(alloc, med_always),
        }
    }

    /// Gives the cell's route this cost, where it is the only one. Nothing else changes. It takes no memory.
    #[tactic(auto, using(crate::proofs::Effective::effective_at_cost))]
    pub fn set_cost(&mut self, cost: u32)
        ensures { self.new ≡ recosted cost self.old }
    {
        self.chosen.set_cost(cost);
    }
}

impl<S: Chosen> Cell<S> {
    /// The choice, with the reason of each route. Where no route stands, it may compare otherwise than the router does.
    pub fn chosen(&self) -> &S
        ensures { effective (S.standings result.now) ≡ self.now.standings }
    {
        &self.chosen
    }

    /// Why the source's route is not the best, or that it is. None where the source is not known.
    #[tactic(auto, using(crate::proofs::Effective::effective_reason))]
    pub fn reason(&self, source: Source) -> Option<Reason>
        ensures { result ≡ reason_in self.now.standings source }
    {
        self.chosen.reason(source)
    }

    /// The best of the routes that are considered. None where none is.
    #[tactic(auto, using(crate::proofs::Effective::effective_best))]
    pub fn best(&self) -> Option<&Candidate>
        ensures { option_copied result ≡ best_of self.now.standings }
    {
        self.chosen.best()
    }

    /// The route that was received from the peer, as it was received.
    pub fn received_from(&self, peer: Addr) -> Option<&SharedAttr>
        ensures { option_copied result ≡ route_of self.now.received peer }
    {
        self.received.route_of(peer)
    }

    /// The routes that were received, as they were, each with its sender, by address.
    pub fn received(&self) -> &[(Addr, SharedAttr)]
        ensures routes { result.now ≡ self.now.received }
        ensures order { AreInOrder self.now.received }
    {
        self.received.routes()
    }

    /// The first sender past this one, or with none the first of all, and its route. The senders come in order of
    /// address.
    pub fn next_received(&self, past: Option<Addr>) -> Option<(Addr, &SharedAttr)>
        ensures next { seen result ≡ first_past self.now.received past }
        ensures order { AreInOrder self.now.received }
    {
        self.received.next(past)
    }
}

impl<S: Selector + Drop> Copied for Cell<S> {
    fn copy(&self, alloc: Global) -> Result<Self, AllocError> {
        Ok(Cell {
            received: self.received.copy(alloc)?,
            chosen: self.chosen.copy(alloc)?,
        })
    }
}
