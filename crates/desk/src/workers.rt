//! Worker threads at a desk.

ghost use Rattle.std.specs.Prelude.{◌≡◌, ◌<◌, ◌≤◌, ◌+◌, ◌-◌, ◌^◌, ◌%◌, ◌++◌, true, ℕ, List, All, length};
ghost use Rattle.room.specs.Jobs as taken;
ghost use Rattle.room.specs.Jobs.{IsOfShard};
ghost use Rattle.desk.specs.Desks.{AllWorked, IsWorked, IsWorkedAt};
ghost use Rattle.desk.specs.WorkerThreads.{IsTold};

use crate::desk::{Desk, NoJobs};
use cell_engine::Cell;
use prefix_table::PrefixTable;
use room::{Done, Job, Jobs, Outcomes, Seat};
use route_select::Selector;
use scheduler::{Backoff, Between};
use std::sync::Wait;
use std::sync::ledger::Ledger;
use std::thread::Threads;

/// How many turns a worker makes at once at most.
const TURNS_AT_ONCE: u64 = 16;

/// What is told of the workers' jobs. The n-th of a worker has the number n, from 1 on. Of each job in turn it is told
/// that the worker took it and, where there was memory to work it, that the worker has its outcome: so the order of the
/// calls is what they require.
pub trait Gate {
    /// It was told that the worker took its n-th job. Whoever knows only that this is a gate has it from the call alone.
    ghost was_taken: { Self → ℕ → ℕ → Type 0 } = { λ gate worker n. Unit {0} };

    /// It was told that the worker has the outcome of its n-th job.
    ghost was_worked: { Self → ℕ → ℕ → Type 0 } = { λ gate worker n. Unit {0} };

    /// A worker took a job. Of the one before it was told.
    fn taken(&self, worker: usize, n: u64)
        requires first { 1 ≤ n }
        requires before { 1 < n → was_taken self.now worker (n - 1) }
        ensures { was_taken self.now worker n };

    /// A worker has the outcome of its job. It was told that the worker took that.
    fn worked(&self, worker: usize, n: u64)
        requires first { 1 ≤ n }
        requires taken { was_taken self.now worker n }
        ensures { was_worked self.now worker n };

    /// Whether it may hold one worker until another has gone on. Where it may, turns are made one by one. Where it does
    /// not, a worker who finds the lock taken may back off, and leave it to others for a while.
    fn may_hold(&self) -> bool {
        true
    }
}

/// A thread for each seat: the worker of the i-th, from 0 on, serves the shard i modulo the shards. A turn takes a job,
/// works it without the lock, and commits the outcome; want of memory ends the turn, and so does an outcome that came
/// too late. Where the gate holds nobody, up to sixteen turns are made at once, where as many deliveries wait of which
/// none changes what another depends on: their jobs are taken together, worked one after another, and committed
/// together. A worker begins with one turn at once, may make twice as many after turns whose outcomes were all put in,
/// and one after others. Where there is no job the worker waits. Where the gate holds nobody, a worker who often finds
/// the lock taken after deliveries that are little work backs off while another is at work: so of such deliveries one
/// worker makes as many as it can, and then another. It ends after so many turns, or once `finish_calls` was called and
/// no message waits, or none that a worker who is left could bring. A thread that cannot be started is left out, with
/// its seat as it was.
pub fn run_workers<
    S: Selector + Drop + Send,
    T: PrefixTable<Cell<S>> + Drop + Send,
    L: Ledger + Send + Sync,
    G: Gate + Sync,
    R: Threads + Wait + Sync,
>(rt: &R, desk: &Desk<S, T, L>, seats: Vec<Seat<L>>, gate: &G, turns: u64) -> Vec<Seat<L>>
    ensures { AllWorked desk.now.shards turns seats.items result.items }
{
    let crew = Crew {
        rt,
        desk,
        gate,
        turns,
    };
    crew.run(seats)
}

/// What the workers of one call have in common.
#[derive(Clone, Copy)]
pub(crate) struct Crew<'a, S: Selector, T: PrefixTable<Cell<S>>, L: Ledger, G: Gate, R: Wait> {
    pub(crate) rt: &'a R,
    pub(crate) desk: &'a Desk<S, T, L>,
    pub(crate) gate: &'a G,
    pub(crate) turns: u64,
}

impl<'a, S: Selector + Drop, T: PrefixTable<Cell<S>> + Drop, L: Ledger, G: Gate, R: Wait> Crew<
    'a,
    S,
    T,
    L,
    G,
    R,
> {
    /// The shard that the worker serves.
    pub(crate) fn shard_of(&self, worker: usize) -> u64
        ensures shard { result ≡ worker % self.now.desk.now.shards }
        ensures allowed { result < self.now.desk.now.shards }
    {
        worker as u64 % self.desk.shards()
    }

    /// All turns of a worker: one at first, then as many at once as `most_after` tells.
    pub(crate) fn make_turns(&self, worker: usize, seat: &mut Seat<L>)
        ensures { IsWorkedAt worker self.now.desk.now.shards self.now.turns seat.old seat.new }
    {
        let shard = self.shard_of(worker);
        let mut turns = 0;
        let mut jobs_before = 0;
        let mut most = 1;
        let mut backoff = Backoff::new();
        for _ in 0..self.turns {
            if turns >= self.turns {
                return;
            }
            let at_once = turns_at_once(self.gate.may_hold(), most, self.turns - turns);
            match self.desk.next_turn(self.rt, shard, at_once, &mut backoff) {
                Ok(jobs) => {
                    let count = jobs.len() as u64;
                    let put_in = self.do_jobs(worker, jobs_before, jobs, seat, &mut backoff);
                    most = most_after(most, count, put_in);
                    jobs_before += count;
                    turns += count;
                    self.back_off_or_wake(&mut backoff);
                }
                Err(NoJobs::ThisTurn) => turns += 1,
                Err(NoJobs::AnyMore) => return,
            }
        }
    }

    /// Backs off, or wakes one who has, where the gate holds nobody.
    fn back_off_or_wake(&self, backoff: &mut Backoff) {
        if self.gate.may_hold() {
            return;
        }
        match backoff.after_turns() {
            Between::GoOn => {}
            Between::BackOff => self.desk.back_off(self.rt),
            Between::WakeOne => self.desk.wake_one(self.rt),
        }
    }

    /// Works jobs one after another, of which the first is one more than so many, and commits their outcomes. The gate
    /// is told of each. How many were put in. Outcomes for which there is no memory are let go: their messages still
    /// wait.
    fn do_jobs(
        &self,
        worker: usize,
        jobs_before: u64,
        jobs: Jobs<S>,
        seat: &mut Seat<L>,
        backoff: &mut Backoff,
    ) -> u64
        requires few { jobs_before + length jobs < 2 ^ 64 }
        requires before { IsTold (G.was_taken self.now.gate.now worker) jobs_before }
        ensures worked { (shard shards : ℕ) → All (IsOfShard shard shards) jobs →
            IsWorked shard shards (length jobs) seat.old seat.new }
        ensures told { IsTold (G.was_taken self.now.gate.now worker) (jobs_before + length jobs) }
    {
        let outcomes = self.outcomes_of(worker, jobs_before, jobs);
        let calls_before = seat.count();
        drop(self.desk.commit_all(self.rt, seat, outcomes, backoff));
        seat.count().saturating_sub(calls_before)
    }

    /// The outcomes of jobs, but of those for which there is no memory.
    fn outcomes_of(&self, worker: usize, jobs_before: u64, jobs: Jobs<S>) -> Outcomes<S>
        requires few { jobs_before + length jobs < 2 ^ 64 }
        requires before { IsTold (G.was_taken self.now.gate.now worker) jobs_before }
        ensures told { IsTold (G.was_taken self.now.gate.now worker) (jobs_before + length jobs) }
        ensures of_shard { (shard shards : ℕ) → All (IsOfShard shard shards) jobs →
            All (IsOfShard shard shards) result }
        ensures most { length result ≤ length jobs }
    {
        let mut outcomes = Vec::new(self.desk.alloc());
        let mut n = jobs_before;
        for job in jobs.into_vec() {
            n += 1;
            self.do_job(worker, n, job, &mut outcomes);
        }
        Outcomes::of(outcomes)
    }

    /// Works a job, and keeps its outcome where there is memory. The gate is told that it was taken and, before its
    /// outcome is kept, that it was worked.
    fn do_job(&self, worker: usize, n: u64, job: Job<S>, outcomes: &mut Vec<Done<S>>)
        requires first { 1 ≤ n }
        requires before { 1 < n → G.was_taken self.now.gate.now worker (n - 1) }
        ensures taken { G.was_taken self.now.gate.now worker n }
        ensures worked { length outcomes.old.items < length outcomes.new.items →
            G.was_worked self.now.gate.now worker n }
        ensures kept { (more : List taken.Job) × (outcomes.new.items ≡ outcomes.old.items ++ more) × (length more ≤ 1) ×
            All (λ done. done ≡ job) more }
    {
        self.gate.taken(worker, n);
        let Ok(done) = job.work() else {
            return;
        };
        self.gate.worked(worker, n);
        drop(outcomes.push(done));
    }
}

/// How many turns are made at once where so many are left: one where the gate may hold the worker.
fn turns_at_once(may_hold: bool, most: u64, left: u64) -> usize
    ensures left { result ≤ left }
    ensures one { may_hold ≡ true → result ≤ 1 }
{
    let most = if may_hold { 1 } else { most };
    most.min(left) as usize
}

/// How many turns a worker makes at once at most, after turns of so many jobs, of which so many outcomes were put in.
fn most_after(most: u64, jobs: u64, put_in: u64) -> u64 {
    if put_in < jobs {
        1
    } else {
        most.saturating_mul(2).min(TURNS_AT_ONCE)
    }
}
