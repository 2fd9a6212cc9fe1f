//! The plain simulator: it keeps plain lists, and decides everything afresh at every step.

ghost use Rattle.std.specs.Prelude.{◌≡◌, MatchResult};
ghost use Rattle.net_conf.specs.declared.refusal.Refusal.TheVariants.{Memory};
ghost use Rattle.reference_machine.specs.Machine.{nothing, IsStep, IsRun};

use crate::state::State;
use net_conf::Refusal;
use reference_machine::Machine;
use route_select::{FilterCell, GroupCell, Selector};
use sim_event::{Event, Reply};
use std::alloc::Global;
use std::marker::{Model, PhantomData};
use std::thread::Threads;

/// The plain simulator, which decides by a selector.
#[derive(Drop)]
pub struct Simulator<S> {
    alloc: Global,
    state: State,
    selector: PhantomData<S>,
}

impl<S> Model for Simulator<S> {
    ghost use Rattle.reference_machine.specs.Network.{Network};

    ghost Value = { Network };

    ghost view = { λ s. s.state };
}

impl<S: Selector + Drop> Simulator<S> {
    /// Nothing is configured, received or on its way. It takes no memory.
    pub fn new(alloc: Global) -> Self
        ensures { result ≡ nothing }
    {
        Simulator {
            alloc,
            state: State::new(alloc),
            selector: PhantomData,
        }
    }

    /// Takes the event, which is the machine's own step, or is refused for want of memory and does nothing. Its
    /// configuration alone may start threads.
    pub fn step<R: Threads + Sync>(&mut self, rt: &R, event: &Event) -> Reply
        ensures { IsStep self.old event.now result self.new }
    {
        match self.state.try_step::<S, R>(rt, self.alloc, event) {
            Ok(reply) => reply,
            Err(_) => Reply::Refused(Refusal::Memory),
        }
    }

    /// Takes the events in order, one reply an event. Where there is no memory for the replies, nothing has changed and
    /// the refusal is `Memory`; a step's own want of memory is its reply.
    pub fn run<R: Threads + Sync>(
        &mut self,
        rt: &R,
        events: &[Event],
    ) -> Result<Vec<Reply>, Refusal>
        ensures { MatchResult result
            (λ replies. IsRun self.old events.now replies.items self.new)
            (λ refusal. (refusal ≡ Memory) × (self.new ≡ self.old)) }
    {
        let Ok(mut replies) = Vec::with_capacity(self.alloc, events.len()) else {
            return Err(Refusal::Memory);
        };
        for event in events {
            let reply = self.step(rt, event);
            replies.push(reply).unwrap();
        }
        Ok(replies)
    }
}

// For each selector: what a method of a trait sends to threads may not rest on a bound of its impl.
impl Machine for Simulator<FilterCell> {
    ghost network = { λ s. s };

    fn step<R: Threads + Sync>(&mut self, rt: &R, event: &Event) -> Reply {
        Simulator::step(self, rt, event)
    }
}

impl Machine for Simulator<GroupCell> {
    ghost network = { λ s. s };

    fn step<R: Threads + Sync>(&mut self, rt: &R, event: &Event) -> Reply {
        Simulator::step(self, rt, event)
    }
}
