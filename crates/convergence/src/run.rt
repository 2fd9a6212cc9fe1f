//! Deliveries one after another, until no message waits.

ghost use Rattle.std.specs.Prelude.{◌≡◌, ◌+◌, ◌≤◌};
ghost use Rattle.convergence.specs.Deliveries.{no_delivery, IsAdvance, IsConvergence};

use crate::delivery::Tally;
use crate::ending::{Advance, Convergence, Ending};
use crate::order::{Order, Turns};
use crate::reached::Reached;
use crate::waiting::Waiting;
use std::alloc::Global;
use std::thread::Threads;

/// Deliveries one after another, so many at most.
#[derive(Drop)]
pub struct Run {
    turns: Turns,
    most: u64,
    tally: Tally,
    ghost sound: { tally.updates + tally.withdrawals ≡ tally.made },
    ghost few: { tally.made ≤ most },
}

impl Run {
    /// Nothing is delivered yet.
    pub fn new(alloc: Global, order: Order, most: u64) -> Self
        ensures most { result.most ≡ most }
        ensures tally { result.tally ≡ no_delivery }
    {
        Run {
            turns: Turns::new(alloc, order),
            most,
            tally: Tally::EMPTY,
        }
    }

    /// How many were delivered.
    pub fn tally(&self) -> Tally
        ensures { result ≡ self.now.tally }
    {
        self.tally
    }

    /// Delivers one message more, where one waits and the limit allows it.
    pub fn advance<M: Waiting>(
        &mut self,
        rt: &(impl Threads + Sync),
        machine: &mut Reached<M>,
    ) -> Advance
        ensures most { self.new.most ≡ self.old.most }
        ensures advance { IsAdvance machine.old self.old.most self.old.tally result self.new.tally machine.new }
    {
        let Ok(next) = self.turns.next(machine) else {
            return Advance::Ended(Ending::OutOfMemory);
        };
        let Some((from, to)) = next else {
            return Advance::Ended(Ending::Converged);
        };
        if self.tally.made >= self.most {
            return Advance::Ended(Ending::Limit);
        }
        match machine.deliver(rt, from, to) {
            Ok(delivery) => {
                self.tally.count(delivery.kind);
                Advance::Took(delivery)
            }
            Err(_) => Advance::Ended(Ending::OutOfMemory),
        }
    }
}

/// Delivers messages that wait, one by one, until none waits or so many were delivered.
pub fn converge<M: Waiting>(
    rt: &(impl Threads + Sync),
    alloc: Global,
    machine: &mut Reached<M>,
    order: Order,
    most: u64,
) -> Convergence
    ensures { IsConvergence machine.old most result.tally result.ending machine.new }
{
    let mut run = Run::new(alloc, order, most);
    'deliveries: loop {
        match run.advance(rt, machine) {
            Advance::Took(_) => {}
            Advance::Ended(ending) => {
                return Convergence {
                    tally: run.tally(),
                    ending,
                };
            }
        }
    }
}
