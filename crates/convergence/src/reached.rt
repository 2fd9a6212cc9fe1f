//! A machine that began with nothing.

ghost use Rattle.std.specs.Prelude.{◌≡◌, ◌∷◌, [], true, IfOk, OnErr};
ghost use Rattle.reference_machine.specs.Machine.{nothing, IsStep};
ghost use Rattle.convergence.specs.Waiting.{on_way, queued_of, waits, IsNextWaiting, IsReached};
ghost use Rattle.convergence.specs.Deliveries.{AreTaken};

use crate::copying::Copying;
use crate::delivery::Delivery;
use crate::waiting::{Queued, Waiting};
use net_conf::SiteSession;
use net_prefix::Addr;
use reference_machine::Machine;
use sim_event::{Event, Reply};
use std::alloc::AllocError;
use std::marker::Model;
use std::thread::Threads;

/// A machine that began with nothing: its network is one that a run leads to.
#[derive(Drop)]
pub struct Reached<M: Machine> {
    machine: M,
}

impl<M: Machine> Model for Reached<M> {
    ghost use Rattle.reference_machine.specs.Network.{Network};
    ghost use Rattle.convergence.specs.Waiting.{IsReached};

    ghost Value = { Network };

    ghost view = { λ r. M.network r.machine };

    ghost invariant = { λ r. IsReached (M.network r.machine) };
}

impl<M: Machine> Reached<M> {
    /// The machine, which has nothing yet.
    pub fn new(machine: M) -> Self
        requires { M.network machine ≡ nothing }
        ensures { result ≡ nothing }
    {
        Reached { machine }
    }

    /// A call gives the caller's proof what holds of every such machine.
    pub fn facts(&self)
        ensures { IsReached self.now }
    {
        let _ = &self.machine;
    }

    /// Takes an event, as the machine does.
    fn take<R: Threads + Sync>(&mut self, rt: &R, event: &Event) -> Reply
        ensures { IsStep self.old event.now result self.new }
    {
        self.machine.step(rt, event)
    }
}

impl<M: Machine> Machine for Reached<M> {
    ghost network = { λ r. r };

    fn step<R: Threads + Sync>(&mut self, rt: &R, event: &Event) -> Reply {
        self.take(rt, event)
    }
}

impl<M: Copying> Reached<M> {
    /// The same network once more. The error is that there is no memory.
    pub(crate) fn copy(&self) -> Result<Self, AllocError>
        ensures { IfOk result (λ copy. copy ≡ self.now) }
    {
        let machine = self.machine.copy()?;
        Ok(Reached { machine })
    }
}

impl<M: Waiting> Reached<M> {
    /// The next direction in which a message waits, by sender, then by receiver: the first of all, or the first past
    /// the one that is given.
    pub fn next_waiting(&self, past: Option<(Addr, Addr)>) -> Option<(Addr, Addr)>
        ensures { IsNextWaiting self.now past result }
    {
        self.machine.next_waiting(past)
    }

    /// What waits in the direction.
    pub fn queued(&self, from: Addr, to: Addr) -> Option<Queued>
        ensures { result ≡ queued_of (on_way self.now from to) }
    {
        self.machine.queued(from, to)
    }

    /// The sessions of a router, by peer.
    pub(crate) fn sessions(&self, router: Addr) -> &[SiteSession] {
        self.machine.sessions(router)
    }

    /// Delivers the message that waits first in the direction, by a step of its own. The error is that there is no
    /// memory, and then nothing has changed.
    pub fn deliver<R: Threads + Sync>(
        &mut self,
        rt: &R,
        from: Addr,
        to: Addr,
    ) -> Result<Delivery, AllocError>
        requires { waits self.old from to ≡ true }
        ensures taken { IfOk result (λ delivery. AreTaken self.old (delivery ∷ []) self.new) }
        ensures from { IfOk result (λ delivery. delivery.from ≡ from) }
        ensures to { IfOk result (λ delivery. delivery.to ≡ to) }
        ensures same { OnErr result (self.new ≡ self.old) }
    {
        self.facts();
        match self.take(rt, &Event::Deliver(from, to)) {
            Reply::Took(prefix, kind) => Ok(Delivery {
                from,
                to,
                prefix,
                kind,
            }),
            Reply::Refused(_) => Err(AllocError),
            Reply::Done | Reply::Report(_) => unreachable!(),
        }
    }
}
