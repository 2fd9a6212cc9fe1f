//! The room: the machine with the history of all calls. Only this module sees its fields, those of seats and those of
//! jobs.

ghost use Rattle.std.specs.Prelude.{◌≡◌, ◌≤◌, ◌↔◌, ◌∷◌, ◌++◌, false, [], cond, length, IsTrue, IfOk, IfErr, OnOk, OnErr};
ghost use Rattle.reference_machine.specs.Machine.{nothing, step, refused};
ghost use Rattle.reference_machine.specs.Histories.{IsLegal, state_after, calls_of};
ghost use Rattle.net_conf.specs.Configured.{IsConfigured};
ghost use Rattle.session_queue.specs.Waiting.{IsQuiet};
ghost use Rattle.cell_engine.specs.State.{network, IsConsistent};
ghost use Rattle.sim_core.specs.Counting.{Counts};
ghost use Rattle.sim_core.specs.Plans.{IsPrepared};
ghost use Rattle.room.specs.Books.{IsKept, blank_seats, is_memory, stepped, recorded, noted, with_call, is_edit, version_of};
ghost use Rattle.room.specs.Closing.{IsEachOnce, AllAgree, IsFault, counted};

mod commit;
mod committing;
mod job;
mod progress;
mod received;
mod record;
mod seat;
mod taking;
mod together;

use crate::room::record::{all_agree, is_each_once};
use call_history::{Draft, History};
use cell_engine::Cell;
pub use commit::{CommitFault, Committed, Newer};
pub use job::{Done, Job};
use net_conf::Refusal;
use prefix_table::PrefixTable;
pub use progress::Progress;
pub use record::{CloseFault, Fault, Record};
use route_select::{Chosen, Selector};
pub use seat::Seat;
use sim_core::{Plan, Sim};
use sim_event::{Event, Reply};
use std::alloc::{AllocError, Global};
use std::hash::RandomState;
use std::marker::Model;
use std::sync::ledger::{Blank, Book, Ledger, Share};
use std::thread::Threads;
pub use together::{Jobs, Outcomes};

/// The machine, with the history of all calls that were made of it, which is legal, and the account of how many each
/// seat made. L names the room and its seats.
#[derive(Drop)]
pub struct Room<S: Chosen, T: PrefixTable<Cell<S>>, L: Ledger> {
    alloc: Global,
    sim: Sim<S, T>,
    history: History,
    /// How many edits were accepted.
    version: u64,
    book: Book<L>,
    /// The parts that no seat has.
    rest: Share<L>,
    seats: u16,
}

impl<S: Chosen, T: PrefixTable<Cell<S>>, L: Ledger> Model for Room<S, T, L> {
    ghost use Rattle.std.specs.Prelude.{◌≡◌, ◌+◌, length};
    ghost use Rattle.std.specs.Coded.{codes};
    ghost use Rattle.cell_engine.specs.Coding.{coded_table};
    ghost use Rattle.room.specs.Books.{RoomBook, IsKept, version_of};

    ghost Value = { RoomBook };

    ghost coded = { Prim.hlevel (codes, coded_table) };

    ghost view = { λ r. record {
      history = r.history.entries;
      engine = r.sim.engine;
      decided = r.sim.decided;
      seats = r.seats;
    } };

    ghost invariant = { λ r.
        IsKept (record {
          history = r.history.entries;
          engine = r.sim.engine;
          decided = r.sim.decided;
          seats = r.seats;
        })
        × (r.version ≡ version_of r.history.entries) × (r.book.total ≡ length r.history.entries)
        × (r.rest.parts + r.seats ≡ 256) × (r.rest.amount ≡ 0) × (L.parts ≡ 256) };
}

/// Whether a seat's notes are its calls in the history.
#[derive(Clone, Copy, Debug, PartialEq, Eq)]
pub enum Audit {
    Agrees,
    Differs,
}

impl<S: Chosen, T: PrefixTable<Cell<S>>, L: Ledger> Room<S, T, L> {
    /// A machine of which nothing is configured, under these keys, with no call in its history, and its seats, by
    /// number. The only fault is want of memory.
    pub fn new(
        alloc: Global,
        keys: Option<RandomState>,
        seats: u16,
        blank: Blank,
    ) -> Result<(Self, Vec<Seat<L>>), AllocError>
        requires some { 1 ≤ seats }
        requires most { seats ≤ 256 }
        requires name { blank.name ≡ L.name }
        requires ledger { blank.parts ≡ L.parts }
        requires parts { blank.parts ≡ 256 }
        ensures history { IfOk result (λ made. made.0.history ≡ []) }
        ensures network { IfOk result (λ made. network made.0.engine ≡ nothing) }
        ensures decided { IfOk result (λ made. made.0.decided ≡ 0) }
        ensures count { IfOk result (λ made. made.0.seats ≡ seats) }
        ensures seats { IfOk result (λ made. made.1.items ≡ blank_seats seats) }
    {
        let (book, mut rest) = blank.open::<L>();
        let all = seat::all_of(alloc, seats, &mut rest)?;
        let room = Room {
            alloc,
            sim: Sim::new(alloc, keys),
            history: History::new(alloc),
            version: 0,
            book,
            rest,
            seats,
        };
        Ok((room, all))
    }

    /// A call gives the caller's proof what holds of every room.
    pub fn facts(&self)
        ensures kept { IsKept self.now }
    {
        let _ = &self.history;
    }

    /// A call gives the caller's proof what holds of every machine.
    fn engine_facts(&self)
        ensures sound { IsConsistent self.now.engine }
        ensures configured { IsConfigured self.now.engine.conf }
    {
        self.sim.state().facts();
    }

    /// Whether no message waits.
    pub fn is_quiet(&self) -> bool
        ensures { IsTrue result ↔ IsQuiet self.now.engine.queues }
    {
        self.sim.state().queues().all_empty()
    }

    /// How many edits were accepted.
    pub fn version(&self) -> u64
        ensures { result ≡ version_of self.now.history }
    {
        self.version
    }

    /// How many routes were decided anew.
    pub fn decided(&self) -> u64
        ensures { result ≡ self.now.decided }
    {
        self.sim.decided()
    }

    /// Whether the seat's notes are its calls in the history.
    pub fn audit(&self, seat: &Seat<L>) -> Audit
        ensures { (result ≡ Audit.Agrees) ↔ (calls_of seat.now.number self.now.history ≡ seat.now.notes) }
    {
        if self.history.agrees(seat.number(), seat.notes()) {
            Audit::Agrees
        } else {
            Audit::Differs
        }
    }
}

impl<S: Chosen + Drop, T: PrefixTable<Cell<S>> + Drop, L: Ledger> Room<S, T, L> {
    /// Ends the room. The history is complete where all its seats come back, each once, and their notes are their calls
    /// in it; else room and seats are handed back. The machine is let go.
    pub fn close(self, seats: Vec<Seat<L>>) -> Result<Record, CloseFault<S, T, L>>
        ensures each_once { OnOk result (IsEachOnce self.seats seats.items) }
        ensures agree { OnOk result (AllAgree self.history seats.items) }
        ensures entries { IfOk result (λ kept. kept ≡ self.history) }
        ensures counted { OnOk result (length self.history ≡ counted seats.items) }
        ensures fault { IfErr result (λ e. IsFault self.seats self.history seats.items e.fault) }
        ensures room { IfErr result (λ e. e.room ≡ self) }
        ensures seats { IfErr result (λ e. e.seats.items ≡ seats.items) }
    {
        match self.close_with_machine(seats) {
            Ok((record, machine)) => {
                drop(machine);
                Ok(record)
            }
            Err(fault) => Err(fault),
        }
    }

    /// Ends the room as `close` does, and gives the machine too, as the history leaves it, with its count.
    pub fn close_with_machine(
        self,
        seats: Vec<Seat<L>>,
    ) -> Result<(Record, Sim<S, T>), CloseFault<S, T, L>>
        ensures each_once { OnOk result (IsEachOnce self.seats seats.items) }
        ensures agree { OnOk result (AllAgree self.history seats.items) }
        ensures entries { IfOk result (λ made. made.0 ≡ self.history) }
        ensures machine { IfOk result (λ made. network made.1.engine ≡ state_after self.history) }
        ensures decided { IfOk result (λ made. made.1.decided ≡ self.decided) }
        ensures counted { OnOk result (length self.history ≡ counted seats.items) }
        ensures fault { IfErr result (λ e. IsFault self.seats self.history seats.items e.fault) }
        ensures room { IfErr result (λ e. e.room ≡ self) }
        ensures seats { IfErr result (λ e. e.seats.items ≡ seats.items) }
    {
        if !is_each_once(seats.as_slice(), self.seats) {
            return Err(CloseFault {
                fault: Fault::MissingSeat,
                room: self,
                seats,
            });
        }
        if !all_agree(&self.history, seats.as_slice()) {
            return Err(CloseFault {
                fault: Fault::BookDiffers,
                room: self,
                seats,
            });
        }
        let Room {
            alloc: _,
            sim,
            history,
            version: _,
            mut book,
            rest,
            seats: _,
        } = self;
        let mut all = seat::together(rest, seats);
        book.audit(&mut all);
        Ok((Record::of(history.into_entries()), sim))
    }
}

impl<S: Selector + Send + Sync + Drop, T: PrefixTable<Cell<S>> + Drop, L: Ledger> Room<S, T, L> {
    /// Makes a call from the seat. The reply is the machine's own; it is the last of the history, and of the seat's
    /// notes. The routes that the event decides anew are counted. For want of memory the reply is the refusal `Memory`,
    /// and the network, the count, the history and the seat stay as they are.
    pub fn step<R: Threads + Sync>(&mut self, rt: &R, seat: &mut Seat<L>, event: Event) -> Reply
        ensures reply { is_memory result ≡ false → result ≡ (step (network self.old.engine) event).reply }
        ensures state { network self.new.engine ≡ stepped (network self.old.engine) event result }
        ensures counted { Counts (network self.old.engine) event result self.old.decided self.new.decided }
        ensures history { self.new.history ≡ recorded self.old.history seat.old.number event result }
        ensures seat { seat.new ≡ noted seat.old event result }
        ensures seats { self.new.seats ≡ self.old.seats }
    {
        let made = match self.sim.prepare(rt, &event) {
            Ok(plan) => self.accept(seat, event, plan),
            Err(Refusal::Memory) => Err(AllocError),
            Err(refusal) => self.refuse(seat, event, refusal),
        };
        match made {
            Ok(reply) => reply,
            Err(_) => Reply::Refused(Refusal::Memory),
        }
    }
}

impl<S: Selector + Drop, T: PrefixTable<Cell<S>> + Drop, L: Ledger> Room<S, T, L> {
    /// Makes a call that is prepared.
    fn accept(
        &mut self,
        seat: &mut Seat<L>,
        event: Event,
        plan: Plan<S>,
    ) -> Result<Reply, AllocError>
        requires { IsPrepared self.old.engine event plan }
        ensures reply { IfOk result (λ reply. reply ≡ plan.reply) }
        ensures state { OnOk result (network self.new.engine ≡ (step (network self.old.engine) event).next) }
        ensures counted { OnOk result (Counts (network self.old.engine)
            event plan.reply self.old.decided self.new.decided) }
        ensures history { OnOk result (self.new.history ≡ self.old.history ++ record {
          seat = seat.old.number;
          event = event;
          reply = plan.reply;
        } ∷ []) }
        ensures seat { OnOk result (seat.new ≡ with_call seat.old event plan.reply) }
        ensures seats { self.new.seats ≡ self.old.seats }
        ensures same { OnErr result (self.new ≡ self.old) }
        ensures left { OnErr result (seat.new ≡ seat.old) }
    {
        if self.history.make_space(&mut seat.notes).is_err() {
            drop((event, plan));
            return Err(AllocError);
        }
        let edits = edits_in(&event);
        let Ok(draft) = Draft::of(self.alloc, seat.number, event, plan.reply()) else {
            drop(plan);
            return Err(AllocError);
        };
        let reply = self.sim.apply(plan);
        self.version += edits;
        self.history.write(&mut seat.notes, draft);
        self.book.add(&mut seat.share, 1);
        seat.count += 1;
        Ok(reply)
    }

    /// Makes a call that the machine refuses.
    fn refuse(
        &mut self,
        seat: &mut Seat<L>,
        event: Event,
        refusal: Refusal,
    ) -> Result<Reply, AllocError>
        requires { step (network self.old.engine) event ≡ refused refusal (network self.old.engine) }
        ensures reply { IfOk result (λ reply. reply ≡ Reply.Refused refusal) }
        ensures engine { self.new.engine ≡ self.old.engine }
        ensures decided { self.new.decided ≡ self.old.decided }
        ensures history { OnOk result (self.new.history ≡ self.old.history ++ record {
          seat = seat.old.number;
          event = event;
          reply = Reply.Refused refusal;
        } ∷ []) }
        ensures seat { OnOk result (seat.new ≡ with_call seat.old event (Reply.Refused refusal)) }
        ensures seats { self.new.seats ≡ self.old.seats }
        ensures same { OnErr result (self.new ≡ self.old) }
        ensures left { OnErr result (seat.new ≡ seat.old) }
    {
        if self.history.make_space(&mut seat.notes).is_err() {
            drop(event);
            return Err(AllocError);
        }
        let reply = Reply::Refused(refusal);
        let Ok(draft) = Draft::of(self.alloc, seat.number, event, &reply) else {
            drop(reply);
            return Err(AllocError);
        };
        self.history.write(&mut seat.notes, draft);
        self.book.add(&mut seat.share, 1);
        seat.count += 1;
        Ok(reply)
    }
}

/// How many edits the event is: one, or none.
fn edits_in(event: &Event) -> u64
    ensures { result ≡ cond (is_edit event.now) 1 0 }
{
    match event {
        Event::Edit(_) => 1,
        _ => 0,
    }
}
