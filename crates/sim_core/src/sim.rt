//! The simulator: a machine that takes events, and counts what it decides.

ghost use Rattle.std.specs.Prelude.{◌≡◌, length, IfOk, IfErr, OnErr};
ghost use Rattle.net_conf.specs.declared.refusal.Refusal.TheVariants.{Memory};
ghost use Rattle.reference_machine.specs.Machine.{nothing, step, IsStep, IsRun};
ghost use Rattle.cell_engine.specs.State.{network};
ghost use Rattle.sim_core.specs.Counting.{raised, Counts, IsCountedRun};
ghost use Rattle.sim_core.specs.Plans.{IsPrepared, IsOfEvent, Prepares};

use crate::counting::raised;
use crate::deliveries::{prepare_delivery, take};
use crate::edits::prepare_edit;
use crate::feeds::prepare_feed;
use crate::plan::Plan;
use crate::questions::prepare_answer;
use cell_engine::{Cell, State};
use net_conf::Refusal;
use prefix_table::{PrefixTable, SortedTable, TrieTable};
use reference_machine::Machine;
use route_select::{Chosen, FilterCell, GroupCell, Selector};
use seq::Copied;
use session_queue::Direction;
use sim_event::{Event, Reply};
use std::alloc::{AllocError, Global};
use std::hash::RandomState;
use std::marker::Model;
use std::thread::Threads;

/// A network that takes events, by cells: it decides by the selector S, and keeps each router's cells in a table T. It
/// counts how many routes it decided anew.
#[derive(Drop)]
pub struct Sim<S: Chosen, T: PrefixTable<Cell<S>>> {
    pub(crate) alloc: Global,
    pub(crate) state: State<S, T>,
    pub(crate) decided: u64,
}

impl<S: Chosen, T: PrefixTable<Cell<S>>> Model for Sim<S, T> {
    ghost use Rattle.std.specs.Coded.{codes};
    ghost use Rattle.cell_engine.specs.Coding.{coded_table};
    ghost use Rattle.sim_core.specs.Counting.{Counted};

    ghost Value = { Counted };

    ghost coded = { Prim.hlevel (codes, coded_table) };

    ghost view = { λ s. record { engine = s.state; decided = s.decided } };
}

impl<S: Chosen, T: PrefixTable<Cell<S>>> Sim<S, T> {
    /// Nothing is configured, received or on its way, and nothing was decided. It takes no memory. Nobody who does not
    /// know the keys can make it slow by a choice of attributes; with none, whoever knows the program can.
    pub fn new(alloc: Global, keys: Option<RandomState>) -> Self
        ensures network { network result.engine ≡ nothing }
        ensures decided { result.decided ≡ 0 }
    {
        Sim {
            alloc,
            state: State::new(alloc, keys),
            decided: 0,
        }
    }

    /// The state, for questions of one's own.
    pub fn state(&self) -> &State<S, T>
        ensures { result.now ≡ self.now.engine }
    {
        &self.state
    }

    /// How many routes were decided anew: one for each message that a router took, and for each edit those that it
    /// refreshed. It stops at the greatest number.
    pub fn decided(&self) -> u64
        ensures { result ≡ self.now.decided }
    {
        self.decided
    }
}

impl<S: Chosen + Drop, T: PrefixTable<Cell<S>> + Copied> Sim<S, T> {
    /// The same network and count once more, to go on with later: neither sees what becomes of the other. The faults
    /// are want of memory, and 2^63 owners of what both share.
    pub fn copy(&self) -> Result<Self, AllocError>
        ensures { IfOk result (λ copy. copy ≡ self.now) }
    {
        Ok(Sim {
            alloc: self.alloc,
            state: self.state.copy(self.alloc)?,
            decided: self.decided,
        })
    }
}

impl<S: Selector + Send + Sync + Drop, T: PrefixTable<Cell<S>> + Drop> Sim<S, T> {
    /// Makes ready what the event will do, with all the memory that this takes. The network stays as it is. The refusal
    /// is the machine's own, or want of memory where the machine refuses nothing; the tests come before the first
    /// growth.
    pub fn prepare<R: Threads + Sync>(&mut self, rt: &R, event: &Event) -> Result<Plan<S>, Refusal>
        ensures network { network self.new.engine ≡ network self.old.engine }
        ensures decided { self.new.decided ≡ self.old.decided }
        ensures prepares { Prepares self.new.engine event.now result }
    {
        match event {
            Event::Edit(edit) => prepare_edit(rt, self.alloc, &mut self.state, edit),
            Event::Feed(feed) => prepare_feed(self.alloc, &mut self.state, feed),
            Event::Deliver(from, to) => prepare_delivery(
                self.alloc,
                &mut self.state,
                Direction {
                    from: *from,
                    to: *to,
                },
            ),
            Event::Ask(question) => prepare_answer(self.alloc, &self.state, question),
        }
    }

    /// Takes the event, which is the machine's own step, or is refused for want of memory and does nothing.
    pub fn step<R: Threads + Sync>(&mut self, rt: &R, event: &Event) -> Reply
        ensures step { IsStep (network self.old.engine) event.now result (network self.new.engine) }
        ensures decided { Counts (network self.old.engine) event.now result self.old.decided self.new.decided }
    {
        match event {
            Event::Edit(_) => self.step_by_plan(rt, event),
            Event::Feed(feed) => self.take_feed(feed),
            Event::Deliver(from, to) => self.deliver_head(Direction {
                from: *from,
                to: *to,
            }),
            Event::Ask(question) => self.answer(question),
        }
    }

    /// Takes the event by a plan.
    #[inline(never)]
    fn step_by_plan<R: Threads + Sync>(&mut self, rt: &R, event: &Event) -> Reply
        ensures step { IsStep (network self.old.engine) event.now result (network self.new.engine) }
        ensures decided { Counts (network self.old.engine) event.now result self.old.decided self.new.decided }
    {
        match self.prepare(rt, event) {
            Ok(plan) => self.apply(plan),
            Err(refusal) => Reply::Refused(refusal),
        }
    }

    /// Takes the events in order, one reply an event; each counts as it does in a step. Where there is no memory for
    /// the replies, nothing has changed and the refusal is `Memory`; a step's own want of memory is its reply.
    pub fn run<R: Threads + Sync>(
        &mut self,
        rt: &R,
        events: &[Event],
    ) -> Result<Vec<Reply>, Refusal>
        ensures run { IfOk result (λ replies.
            IsRun (network self.old.engine) events.now replies.items (network self.new.engine)) }
        ensures counted { IfOk result (λ replies.
            IsCountedRun (network self.old.engine) self.old.decided events.now replies.items
            (network self.new.engine) self.new.decided) }
        ensures memory { IfErr result (λ refusal. refusal ≡ Memory) }
        ensures same { OnErr result (network self.new.engine ≡ network self.old.engine) }
        ensures uncounted { OnErr result (self.new.decided ≡ self.old.decided) }
    {
        let Ok(mut replies) = Vec::with_capacity(self.alloc, events.len()) else {
            return Err(Refusal::Memory);
        };
        for event in events {
            let reply = self.step(rt, event);
            replies.push(reply).unwrap();
        }
        Ok(replies)
    }
}

impl<S: Selector + Drop, T: PrefixTable<Cell<S>> + Drop> Sim<S, T> {
    /// Carries out a plan that was prepared from this state: this is the machine's own step. It takes no memory.
    pub fn apply(&mut self, plan: Plan<S>) -> Reply
        requires { IsOfEvent self.old.engine plan }
        ensures reply { result ≡ plan.reply }
        ensures next { (event : Event) → IsPrepared self.old.engine event plan →
            network self.new.engine ≡ (step (network self.old.engine) event).next }
        ensures decided { self.new.decided ≡ raised self.old.decided (length plan.refreshed) }
    {
        self.decided = raised(self.decided, plan.refreshed().len());
        let Plan {
            reply,
            refreshed,
            pushed,
            taken,
            edited,
        } = plan;
        drop(refreshed);
        if let Some(edited) = edited {
            self.state.reconfigure(edited);
            return reply;
        }
        if let Some(taken) = taken {
            drop(pushed);
            take(&mut self.state, taken);
            return reply;
        }
        if let Some((direction, message)) = pushed {
            self.state.push(direction, message);
        }
        reply
    }
}

// At each pair of types: what a method of a trait sends to threads may not rest on a bound of its impl.
impl Machine for Sim<GroupCell, TrieTable<Cell<GroupCell>>> {
    ghost use Rattle.cell_engine.specs.State as engine;

    ghost network = { λ s. engine.network s.engine };

    fn step<R: Threads + Sync>(&mut self, rt: &R, event: &Event) -> Reply {
        Sim::step(self, rt, event)
    }
}

impl Machine for Sim<FilterCell, SortedTable<Cell<FilterCell>>> {
    ghost use Rattle.cell_engine.specs.State as engine;

    ghost network = { λ s. engine.network s.engine };

    fn step<R: Threads + Sync>(&mut self, rt: &R, event: &Event) -> Reply {
        Sim::step(self, rt, event)
    }
}
