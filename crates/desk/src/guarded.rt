//! What lies under the desk's lock: the room, and who works at it. What the desk does to its room under the lock is a
//! method here, whose contract sees the room and says exactly what comes of it. Only this module sees the room.

ghost use Rattle.std.specs.Prelude.{◌≡◌, ◌<◌, ◌≤◌, ◌↔◌, false, [], None, All, length, max, IsTrue, IfOk, IfErr, IfSome, OnOk, OnErr};
ghost use Rattle.reference_machine.specs.Machine.{nothing, step};
ghost use Rattle.reference_machine.specs.Histories.{calls_of};
ghost use Rattle.session_queue.specs.Waiting.{IsQuiet, IsPast, SkipsNone, queue_at};
ghost use Rattle.cell_engine.specs.State.{network};
ghost use Rattle.room.specs.Books.{IsKept, blank_seats, is_memory, noted, recorded, stepped, version_of};
ghost use Rattle.room.specs.Jobs.{AreApart, IsOfShard, IsSeenIn, NoneWaits};
ghost use Rattle.room.specs.Commits.{AreCommitted, IsBrokenOff, IsCommitted, IsUnchanged};
ghost use Rattle.scheduler.specs.Waiting.{no_workers};
ghost use Rattle.desk.specs.Desks.{AreSeats, IsDeskLedger};

use cell_engine::Cell;
use net_prefix::Addr;
use prefix_table::PrefixTable;
use room::{Audit, CommitFault, Committed, Done, Job, Jobs, Outcomes, Progress, Room, Seat};
use route_select::{Chosen, Selector};
use scheduler::Workers;
use sim_event::{Event, Reply};
use std::alloc::{AllocError, Global};
use std::hash::RandomState;
use std::sync::ledger::{Blank, Ledger};
use std::thread::Threads;

/// What lies under the lock.
#[derive(Drop)]
pub(crate) struct Guarded<S: Chosen, T: PrefixTable<Cell<S>>, L: Ledger> {
    room: Room<S, T, L>,
    pub(crate) workers: Workers,
}

impl<S: Chosen, T: PrefixTable<Cell<S>>, L: Ledger> Guarded<S, T, L> {
    /// An empty room of just so many seats, 1 to 256, its machine under these keys, with its seats, by number; and
    /// nobody who works for one of so many shards.
    pub(crate) fn new(
        alloc: Global,
        keys: Option<RandomState>,
        seats: u16,
        shards: u64,
        blank: Blank,
    ) -> Result<(Self, Vec<Seat<L>>), AllocError>
        requires seats { AreSeats seats }
        requires ledger { IsDeskLedger blank.name blank.parts L.name L.parts }
        ensures history { IfOk result (λ made. made.0.room.history ≡ []) }
        ensures network { IfOk result (λ made. network made.0.room.engine ≡ nothing) }
        ensures count { IfOk result (λ made. made.0.room.seats ≡ seats) }
        ensures workers { IfOk result (λ made. made.0.workers ≡ no_workers shards) }
        ensures seats { IfOk result (λ made. made.1.items ≡ blank_seats seats) }
    {
        let workers = Workers::new(alloc, shards)?;
        let (room, all) = Room::new(alloc, keys, seats, blank)?;
        Ok((Guarded { room, workers }, all))
    }

    /// The room, once nobody is at the desk.
    pub(crate) fn into_room(self) -> Room<S, T, L>
        ensures { result ≡ self.room }
    {
        self.room
    }

    /// How many edits were accepted.
    pub(crate) fn version(&self) -> u64
        ensures { result ≡ version_of self.now.room.history }
    {
        self.room.version()
    }

    /// How far the room is.
    pub(crate) fn progress(&self) -> Progress
        ensures { result.calls ≡ length self.now.room.history }
    {
        self.room.progress()
    }

    /// Whether no message waits.
    pub(crate) fn is_quiet(&self) -> bool
        ensures { IsTrue result ↔ IsQuiet self.now.room.engine.queues }
    {
        self.room.is_quiet()
    }

    /// Whether a message waits for a receiver of the shard.
    pub(crate) fn has_message(&self, shard: u64, shards: u64) -> bool
        requires { shard < shards }
        ensures { (result ≡ false) ↔ NoneWaits self.now.room shard shards }
    {
        self.room.has_message(shard, shards)
    }

    /// The next direction with a message, as `Room::next_full` gives it.
    pub(crate) fn next_full(&self, past: Option<(Addr, Addr)>) -> Option<(Addr, Addr)>
        ensures full { IfSome result (λ found. 0 < length (queue_at self.now.room.engine.queues found.0 found.1)) }
        ensures past { IfSome result (IsPast past) }
        ensures none_between { SkipsNone self.now.room.engine.queues past result }
    {
        self.room.next_full(past)
    }

    /// Whether the seat's notes are its calls in the history.
    pub(crate) fn audit(&self, seat: &Seat<L>) -> Audit
        ensures kept { IsKept self.now.room }
        ensures agrees { (result ≡ Audit.Agrees) ↔ (calls_of seat.now.number self.now.room.history ≡ seat.now.notes) }
    {
        self.room.facts();
        self.room.audit(seat)
    }
}

impl<S: Selector + Send + Sync + Drop, T: PrefixTable<Cell<S>> + Drop, L: Ledger> Guarded<S, T, L> {
    /// A call from the seat, as `Room::step` makes it.
    pub(crate) fn call<R: Threads + Sync>(
        &mut self,
        rt: &R,
        seat: &mut Seat<L>,
        event: Event,
    ) -> Reply
        ensures kept { IsKept self.old.room }
        ensures reply { is_memory result ≡ false → result ≡ (step (network self.old.room.engine) event).reply }
        ensures state { network self.new.room.engine ≡ stepped (network self.old.room.engine) event result }
        ensures history { self.new.room.history ≡ recorded self.old.room.history seat.old.number event result }
        ensures seat { seat.new ≡ noted seat.old event result }
        ensures seats { self.new.room.seats ≡ self.old.room.seats }
    {
        self.room.facts();
        self.room.step(rt, seat, event)
    }
}

impl<S: Chosen + Drop, T: PrefixTable<Cell<S>> + Drop, L: Ledger> Guarded<S, T, L> {
    /// Puts in an outcome, or tells what has moved, as `Room::commit` does.
    pub(crate) fn commit(
        &mut self,
        seat: &mut Seat<L>,
        done: Done<S>,
    ) -> Result<Committed, CommitFault<S>>
        ensures kept { IsKept self.old.room }
        ensures committed { IfOk result (λ committed.
            IsCommitted self.old.room seat.old done committed self.new.room seat.new) }
        ensures back { IfErr result (λ fault. fault.done ≡ done) }
        ensures left { OnErr result (IsUnchanged self.old.room seat.old self.new.room seat.new) }
    {
        self.room.facts();
        self.room.commit(seat, done)
    }

    /// Puts in each outcome in turn, as `commit` does, till there is no memory, as `Room::commit_all` does.
    pub(crate) fn commit_all(
        &mut self,
        seat: &mut Seat<L>,
        outcomes: Outcomes<S>,
    ) -> Result<(), AllocError>
        ensures kept { IsKept self.old.room }
        ensures committed { OnOk result (AreCommitted self.old.room seat.old outcomes self.new.room seat.new) }
        ensures broken_off { OnErr result (IsBrokenOff self.old.room seat.old outcomes self.new.room seat.new) }
    {
        self.room.facts();
        self.room.commit_all(seat, outcomes)
    }
}

impl<S: Selector + Drop, T: PrefixTable<Cell<S>> + Drop, L: Ledger> Guarded<S, T, L> {
    /// A job of the shard, as `Room::job` gives it. None where no message waits for a receiver of the shard.
    pub(crate) fn take(&self, shard: u64, shards: u64) -> Result<Option<Job<S>>, AllocError>
        requires { shard < shards }
        ensures kept { IsKept self.now.room }
        ensures seen { IfOk result (λ found. IfSome found (IsSeenIn self.now.room)) }
        ensures shard { IfOk result (λ found. IfSome found (IsOfShard shard shards)) }
        ensures none { IfOk result (λ found. found ≡ None → NoneWaits self.now.room shard shards) }
    {
        self.room.facts();
        self.room.job(shard, shards)
    }

    /// Jobs of the shard for one turn, no more than so many, as `Room::jobs` gives them. None where no message waits
    /// for a receiver of the shard.
    pub(crate) fn jobs(&self, shard: u64, shards: u64, most: usize) -> Result<Jobs<S>, AllocError>
        requires { shard < shards }
        ensures seen { IfOk result (All (IsSeenIn self.now.room)) }
        ensures shard { IfOk result (All (IsOfShard shard shards)) }
        ensures apart { IfOk result AreApart }
        ensures most { IfOk result (λ jobs. length jobs ≤ max most 1) }
        ensures none { IfOk result (λ jobs. jobs ≡ [] → NoneWaits self.now.room shard shards) }
    {
        self.room.jobs(shard, shards, most)
    }
}
