//! The random order.

ghost use Rattle.std.specs.Prelude.{◌≡◌, true, false, IfOk, IfSome, IfNone, OnErr};
ghost use Rattle.reference_machine.specs.Reports.{is_quiet};
ghost use Rattle.convergence.specs.Waiting.{waits};

use crate::reached::Reached;
use crate::waiting::Waiting;
use indexmap::IndexSet;
use net_prefix::Addr;
use rand::RngExt;
use rand_pcg::Pcg32;
use std::alloc::{AllocError, Global};

/// The stream of the generator: that of the example program of PCG.
const STREAM: u64 = 54;

/// Each direction in which a message waits is as likely as any other.
#[derive(Drop)]
pub(crate) struct Random {
    generator: Pcg32,
    /// Sender and receiver of each direction in which a message waits, but of those from the last receiver; and of some
    /// in which none waits any more.
    directions: IndexSet<(u32, u32)>,
    /// The direction that gave the last message.
    last: Option<(Addr, Addr)>,
}

impl Random {
    /// No message was delivered.
    pub(crate) fn new(alloc: Global, seed: u32) -> Self {
        Random {
            generator: Pcg32::new(u64::from(seed), STREAM),
            directions: IndexSet::new(alloc),
            last: None,
        }
    }

    /// The direction that gives a message next. The error is that there is no memory to note a direction in which one
    /// waits.
    pub(crate) fn next<M: Waiting>(
        &mut self,
        machine: &Reached<M>,
    ) -> Result<Option<(Addr, Addr)>, AllocError>
        ensures waits { IfOk result (λ next. IfSome next (λ found. waits machine.now found.0 found.1 ≡ true)) }
        ensures quiet { IfOk result (λ next. IfNone next (is_quiet machine.now ≡ true)) }
        ensures memory { OnErr result (is_quiet machine.now ≡ false) }
    {
        match self.last {
            None => self.note_all(machine)?,
            Some((_, receiver)) => self.note_from(machine, receiver)?,
        }
        self.last = self.drawn(machine);
        Ok(self.last)
    }

    /// Notes all directions in which a message waits, by sender, then by receiver.
    #[tactic(auto, using(crate::proofs::Quiet::not_quiet))]
    fn note_all<M: Waiting>(&mut self, machine: &Reached<M>) -> Result<(), AllocError>
        ensures { OnErr result (is_quiet machine.now ≡ false) }
    {
        let mut past = None;
        'directions: while let Some((from, to)) = machine.next_waiting(past) {
            self.directions.insert((from.0, to.0))?;
            past = Some((from, to));
        }
        Ok(())
    }

    /// Notes the directions from a router in which a message waits, by receiver.
    fn note_from<M: Waiting>(
        &mut self,
        machine: &Reached<M>,
        router: Addr,
    ) -> Result<(), AllocError>
        ensures { OnErr result (is_quiet machine.now ≡ false) }
    {
        for session in machine.sessions(router) {
            self.note(machine, router, session.peer)?;
        }
        Ok(())
    }

    /// Notes a direction, if a message waits in it.
    #[tactic(auto, using(crate::proofs::Quiet::not_quiet))]
    fn note<M: Waiting>(
        &mut self,
        machine: &Reached<M>,
        from: Addr,
        to: Addr,
    ) -> Result<(), AllocError>
        ensures { OnErr result (is_quiet machine.now ≡ false) }
    {
        if machine.queued(from, to).is_some() {
            self.directions.insert((from.0, to.0))?;
        }
        Ok(())
    }

    /// A direction in which a message waits, if one does.
    fn drawn<M: Waiting>(&mut self, machine: &Reached<M>) -> Option<(Addr, Addr)>
        ensures waits { IfSome result (λ found. waits machine.now found.0 found.1 ≡ true) }
        ensures quiet { IfNone result (is_quiet machine.now ≡ true) }
    {
        match self.draw(machine) {
            Some(found) => Some(found),
            None => machine.next_waiting(None),
        }
    }

    /// A noted direction in which a message waits. Those that are drawn before it are removed.
    fn draw<M: Waiting>(&mut self, machine: &Reached<M>) -> Option<(Addr, Addr)>
        ensures { IfSome result (λ found. waits machine.now found.0 found.1 ≡ true) }
    {
        while !self.directions.is_empty() {
            let place = self.generator.random_range(0..self.directions.len());
            let (from, to) = self.directions.as_slice()[place];
            let (from, to) = (Addr(from), Addr(to));
            if machine.queued(from, to).is_some() {
                return Some((from, to));
            }
            self.directions.swap_remove_index(place);
        }
        None
    }
}
