//! The workers' threads. All are started from one frame, so that this thread's stack does not grow with their number.

ghost use Rattle.std.specs.Prelude.{◌≡◌, ◌≤◌, ◌%◌, ℕ, List, [], vec_len, vec_capacity};
ghost use Rattle.room.specs.Books.{SeatBook};
ghost use Rattle.desk.specs.Desks.{AllWorked, IsWorkedAt};
ghost use Rattle.desk.specs.WorkerThreads.{AllToWork, IsToWork};

use crate::desk::Desk;
use crate::workers::{Crew, Gate};
use cell_engine::Cell;
use prefix_table::PrefixTable;
use room::Seat;
use route_select::Selector;
use std::snapshot::Snapshot;
use std::sync::Wait;
use std::sync::atomic::{AtomicU64, Ordering};
use std::sync::ledger::Ledger;
use std::thread;
use std::thread::{Promise, PromisedHandle, Scope, Threads};

/// What a thread hands back is the seat that it was given, after so many turns for the shard.
#[derive(Drop)]
pub(crate) struct SeatIsWorked<L: Ledger> {
    shard: u64,
    shards: u64,
    turns: u64,
    given: Snapshot<Seat<L>>,
}

impl<L: Ledger> Promise<Seat<L>> for SeatIsWorked<L> {
    ghost use Rattle.desk.specs.Desks.{IsWorked};

    ghost kept_by = { λ promise seat. IsWorked promise.shard promise.shards promise.turns promise.given.value seat };
}

/// A worker: its thread, or the seat of one who is left out.
#[derive(Drop)]
pub(crate) enum Worker<L: Ledger> {
    Started(PromisedHandle<Seat<L>, SeatIsWorked<L>>),
    LeftOut(Seat<L>),
}

impl<L: Ledger> Worker<L> {
    /// Its seat, once it has ended.
    fn join<R: Threads>(self, rt: &R) -> Seat<L>
        ensures { (place shards turns : ℕ) (seat : SeatBook) → IsToWork place shards turns seat self →
            IsWorkedAt place shards turns seat result }
    {
        match self {
            Worker::Started(thread) => thread.join(rt),
            Worker::LeftOut(seat) => seat,
        }
    }
}

/// The seats of workers, once all have ended, behind others.
fn join_all<L: Ledger, R: Threads>(
    rt: &R,
    workers: Vec<Worker<L>>,
    mut back: Vec<Seat<L>>,
) -> Vec<Seat<L>>
    requires none { back.items ≡ [] }
    requires room { vec_len workers ≤ vec_capacity back }
    ensures { (shards turns : ℕ) (seats : List SeatBook) → AllToWork 0 shards turns seats workers.items →
        AllWorked shards turns seats result.items }
{
    for worker in workers {
        back.push_reserved(worker.join(rt));
    }
    back
}

/// No worker has this number.
const NOBODY: u64 = u64::MAX;

impl<
    'a,
    S: Selector + Drop + Send,
    T: PrefixTable<Cell<S>> + Drop + Send,
    L: Ledger + Send + Sync,
    G: Gate + Sync,
    R: Threads + Wait + Sync,
> Crew<'a, S, T, L, G, R> {
    /// Starts a thread for each seat, and waits for all.
    pub(crate) fn run(&self, seats: Vec<Seat<L>>) -> Vec<Seat<L>>
        ensures { AllWorked self.now.desk.now.shards self.now.turns seats.items result.items }
    {
        let left_out = AtomicU64::new(NOBODY);
        let left_out = &left_out;
        thread::scope(
            thread::scope_env(),
            self.rt,
            |scope| -> Vec<Seat<L>>
                ensures { let crew = self.entry.now in
                    AllWorked crew.desk.now.shards crew.turns seats.items result.items }
            { self.run_within(scope, left_out, seats) },
        )
    }

    /// Starts a thread of the scope for each seat, and waits for all. Where there is no memory for their list, all are
    /// left out.
    #[tactic(auto, using(crate::proofs::WorkerThreads::rows))]
    fn run_within<'s, E>(
        &'s self,
        scope: &'s Scope<'s, E>,
        left_out: &'s AtomicU64,
        seats: Vec<Seat<L>>,
    ) -> Vec<Seat<L>>
        ensures { AllWorked self.now.desk.now.shards self.now.turns seats.items result.items }
    {
        let Ok(workers) = Vec::with_capacity(self.desk.alloc(), seats.len()) else {
            return seats;
        };
        let Ok(back) = Vec::with_capacity(self.desk.alloc(), seats.len()) else {
            return seats;
        };
        self.desk.enter(self.rt, seats.len(), self.gate.may_hold());
        let workers = self.start_all(scope, left_out, seats, workers);
        join_all(self.rt, workers, back)
    }

    /// A worker for each seat.
    fn start_all<'s, E>(
        &'s self,
        scope: &'s Scope<'s, E>,
        left_out: &'s AtomicU64,
        seats: Vec<Seat<L>>,
        mut workers: Vec<Worker<L>>,
    ) -> Vec<Worker<L>>
        requires none { workers.items ≡ [] }
        requires room { vec_len seats ≤ vec_capacity workers }
        ensures each { AllToWork 0 self.now.desk.now.shards self.now.turns seats.items result.items }
        ensures len { vec_len result ≡ vec_len seats }
    {
        for seat in seats {
            let worker = self.start(scope, left_out, workers.len(), seat);
            workers.push_reserved(worker);
        }
        workers
    }

    /// Starts the thread of the worker of this number. Where that cannot be done it is left out.
    fn start<'s, E>(
        &'s self,
        scope: &'s Scope<'s, E>,
        left_out: &'s AtomicU64,
        number: usize,
        seat: Seat<L>,
    ) -> Worker<L>
        ensures { IsToWork number self.now.desk.now.shards self.now.turns seat result }
    {
        let promise = self.promise(number, &seat);
        let job = move || -> Seat<L>
            ensures { let crew = self.entry.now in
                IsWorkedAt number crew.desk.now.shards crew.turns seat result }
        { self.work(left_out, number, seat) };
        match scope.spawn_with(promise, job) {
            Ok(thread) => Worker::Started(thread),
            Err(refused) => {
                left_out.store(number as u64, Ordering::SeqCst);
                Worker::LeftOut((refused.value)())
            }
        }
    }
}

impl<'a, S: Selector + Drop, T: PrefixTable<Cell<S>> + Drop, L: Ledger, G: Gate, R: Wait> Crew<
    'a,
    S,
    T,
    L,
    G,
    R,
> {
    /// What is promised of the seat of the worker of this number.
    fn promise(&self, number: usize, seat: &Seat<L>) -> SeatIsWorked<L>
        ensures shard { result.shard ≡ number % self.now.desk.now.shards }
        ensures shards { result.shards ≡ self.now.desk.now.shards }
        ensures turns { result.turns ≡ self.now.turns }
        ensures given { result.given.value ≡ seat.now }
    {
        SeatIsWorked {
            shard: self.shard_of(number),
            shards: self.desk.shards(),
            turns: self.turns,
            given: Snapshot::of(seat),
        }
    }

    /// The worker of this number makes its turns, unless it is left out, and leaves.
    fn work(&self, left_out: &AtomicU64, number: usize, mut seat: Seat<L>) -> Seat<L>
        ensures { IsWorkedAt number self.now.desk.now.shards self.now.turns seat result }
    {
        if left_out.load(Ordering::SeqCst) != number as u64 {
            self.make_turns(number, &mut seat);
        }
        self.desk.leave(self.rt);
        seat
    }
}
