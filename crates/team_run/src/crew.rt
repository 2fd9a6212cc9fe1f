//! The threads of a team: one for each engineer, and those of the workers.

ghost use Rattle.std.specs.Prelude.{◌≡◌, ◌≤◌, ℕ, List, [], vec_len, vec_capacity, IfOk};
ghost use Rattle.room.specs.Books.{SeatBook};
ghost use Rattle.desk.specs.Desks.{AllWorked};
ghost use Rattle.team_run.specs.EngineerThreads.{AreToPlay, IsToPlay};
ghost use Rattle.team_run.specs.Playing.{AreBack, Engineering, HasPlayed};

use crate::engineer::{Engineer, Played, play};
use crate::screen::Screen;
use crate::told::{Told, ToldLine};
use cell_engine::Cell;
use desk::{Desk, Gate, Seat, run_workers};
use prefix_table::PrefixTable;
use route_select::Selector;
use std::alloc::{AllocError, Global};
use std::snapshot::Snapshot;
use std::sync::Wait;
use std::sync::atomic::{AtomicU64, Ordering};
use std::sync::ledger::Ledger;
use std::thread;
use std::thread::{Promise, PromisedHandle, Scope, Threads};
use watched::Sink;

/// After how many jobs a worker tells anew how far the team is.
const JOBS_BETWEEN: u64 = 1_000;

/// Lets all workers pass, and at a terminal tells how far the team is.
#[derive(Drop)]
struct Teller<'a, 'e, S: Selector, T: PrefixTable<Cell<S>>, L: Ledger, E: Sink, R: Wait> {
    rt: &'a R,
    desk: &'a Desk<S, T, L>,
    screen: Option<&'a Screen<'e, E>>,
}

impl<'a, 'e, S: Selector, T: PrefixTable<Cell<S>>, L: Ledger, E: Sink, R: Wait> Gate
    for Teller<'a, 'e, S, T, L, E, R> {
    fn taken(&self, _worker: usize, _n: u64) {}

    fn worked(&self, _worker: usize, n: u64) {
        if let Some(screen) = self.screen {
            if n % JOBS_BETWEEN == 1 {
                screen.show(self.rt, self.desk.progress(self.rt));
            }
        }
    }

    fn may_hold(&self) -> bool {
        false
    }
}

/// From the seat that an engineer's thread hands back its script was called, but for the lines that it tells.
#[derive(Drop)]
struct HasCalledScript<L: Ledger>(Snapshot<Engineer<L>>);

impl<'t, L: Ledger> Promise<Result<Played<'t, L>, AllocError>> for HasCalledScript<L> {
    ghost use Rattle.std.specs.Prelude.{IfOk};
    ghost use Rattle.team_run.specs.Playing.{HasPlayed};

    ghost kept_by = { λ promise result. IfOk result (HasPlayed promise.0.value) };
}

/// The thread of an engineer.
type EngineerThread<'t, L> = PromisedHandle<Result<Played<'t, L>, AllocError>, HasCalledScript<L>>;

/// What comes back once all threads have ended: the seats of the workers and then of the engineers, and what each of the
/// engineers tells.
#[derive(Drop)]
pub(crate) struct Back<'t, L: Ledger> {
    pub(crate) seats: Vec<Seat<L>>,
    pub(crate) told: Vec<Told<'t>>,
}

/// What engineers hand back, once all have ended, behind the seats of the workers.
fn join_all<'t, L: Ledger, R: Threads>(
    rt: &R,
    alloc: Global,
    threads: Vec<EngineerThread<'t, L>>,
    mut seats: Vec<Seat<L>>,
) -> Result<Back<'t, L>, AllocError>
    ensures { IfOk result (λ back. (shards turns : ℕ) (workers : List SeatBook) (engineers : List Engineering) →
        AllWorked shards turns workers seats.items → AreToPlay engineers threads.entry.items →
        AreBack shards turns engineers workers back.seats.items back.told.items) }
{
    let mut all = Vec::new(alloc);
    for thread in threads {
        let Played { seat, told } = thread.join(rt)?;
        seats.push(seat)?;
        all.push(told)?;
    }
    Ok(Back { seats, told: all })
}

/// What the threads of a team have in common.
#[derive(Clone, Copy)]
pub(crate) struct Crew<
    'a,
    't,
    'e,
    S: Selector,
    T: PrefixTable<Cell<S>>,
    L: Ledger,
    E: Sink,
    R: Threads + Wait,
> {
    pub(crate) rt: &'a R,
    pub(crate) alloc: Global,
    pub(crate) desk: &'a Desk<S, T, L>,
    /// The lines that made no call, of all engineers.
    pub(crate) all: &'t boxcar::Vec<ToldLine>,
    /// Where it is told how far they are, if anywhere.
    pub(crate) screen: Option<&'a Screen<'e, E>>,
    /// How many engineers have not ended.
    pub(crate) at_work: &'a AtomicU64,
    /// How many turns each worker has.
    pub(crate) turns: u64,
}

impl<
    'a,
    't,
    'e,
    S: Selector + Send + Sync + Drop,
    T: PrefixTable<Cell<S>> + Drop + Send,
    L: Ledger + Send + Sync,
    E: Sink + Send,
    R: Threads + Wait + Sync,
> Crew<'a, 't, 'e, S, T, L, E, R> {
    /// Starts a thread for each engineer, and those of the workers, and waits for all. The seats of all come back, of
    /// the workers first. An engineer whose thread cannot be started has ended; this is want of memory, as is none
    /// for the threads, the seats or what is told. All threads are started from one frame, so that this thread's stack does not grow
    /// with their number.
    pub(crate) fn run(
        &self,
        engineers: Vec<Engineer<L>>,
        workers: Vec<Seat<L>>,
    ) -> Result<Back<'t, L>, AllocError>
        ensures { IfOk result (λ back. AreBack self.now.desk.now.shards self.now.turns engineers.items workers.items
            back.seats.items back.told.items) }
    {
        thread::scope(
            thread::scope_env(),
            self.rt,
            |scope| -> Result<Back<'_, L>, AllocError>
                ensures { IfOk result (λ back. AreBack self.entry.now.desk.now.shards self.entry.now.turns
                    engineers.items workers.items back.seats.items back.told.items) }
            { self.run_within(scope, engineers, workers) },
        )
    }

    /// Starts the threads, those of the engineers in the scope, and waits for all.
    fn run_within<'s, Q>(
        &'s self,
        scope: &'s Scope<'s, Q>,
        engineers: Vec<Engineer<L>>,
        workers: Vec<Seat<L>>,
    ) -> Result<Back<'t, L>, AllocError>
        ensures { IfOk result (λ back. AreBack self.now.desk.now.shards self.now.turns engineers.items workers.items
            back.seats.items back.told.items) }
    {
        let threads = Vec::with_capacity(self.alloc, engineers.len())?;
        let started = self.start_all(scope, engineers, threads);
        let seats = self.work_all(workers);
        match started {
            Ok(threads) => join_all(self.rt, self.alloc, threads, seats),
            Err(error) => Err(error),
        }
    }

    /// A thread for each engineer. Where one cannot be started the others are, and none is joined.
    fn start_all<'s, Q>(
        &'s self,
        scope: &'s Scope<'s, Q>,
        engineers: Vec<Engineer<L>>,
        mut threads: Vec<EngineerThread<'t, L>>,
    ) -> Result<Vec<EngineerThread<'t, L>>, AllocError>
        requires none { threads.items ≡ [] }
        requires room { vec_len engineers ≤ vec_capacity threads }
        ensures { IfOk result (λ threads. AreToPlay engineers.items threads.items) }
    {
        let mut outcome = Ok(());
        for engineer in engineers {
            match self.start(scope, engineer) {
                Ok(thread) => threads.push_reserved(thread),
                Err(error) => {
                    self.end_one();
                    outcome = Err(error);
                }
            }
        }
        outcome?;
        Ok(threads)
    }

    /// Starts the thread of an engineer.
    fn start<'s, Q>(
        &'s self,
        scope: &'s Scope<'s, Q>,
        engineer: Engineer<L>,
    ) -> Result<EngineerThread<'t, L>, AllocError>
        ensures { IfOk result (λ thread. IsToPlay engineer thread) }
    {
        let promise = HasCalledScript(Snapshot::of(&engineer));
        let job = move || -> Result<Played<'_, L>, AllocError>
            ensures { IfOk result (HasPlayed engineer) }
        { self.work(engineer) };
        Ok(scope.spawn_with(promise, job)?)
    }

    /// The workers' threads.
    fn work_all(&self, workers: Vec<Seat<L>>) -> Vec<Seat<L>>
        ensures { AllWorked self.now.desk.now.shards self.now.turns workers.items result.items }
    {
        let teller = Teller {
            rt: self.rt,
            desk: self.desk,
            screen: self.screen,
        };
        run_workers(self.rt, self.desk, workers, &teller, self.turns)
    }

    /// An engineer's thread: all lines are called.
    fn work(&self, engineer: Engineer<L>) -> Result<Played<'t, L>, AllocError>
        ensures { IfOk result (HasPlayed engineer) }
    {
        let played = play(self.rt, self.alloc, self.desk, self.all, engineer);
        self.end_one();
        played
    }

    /// An engineer has ended. No calls come after the last one.
    fn end_one(&self) {
        if self.at_work.fetch_sub(1, Ordering::SeqCst) == 1 {
            self.desk.finish_calls(self.rt);
        }
    }
}
