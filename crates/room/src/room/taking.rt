//! Jobs are taken.

ghost use Rattle.std.specs.Prelude.{◌≡◌, ◌≢◌, ◌<◌, ◌≤◌, ◌+◌, ◌↔◌, ◌++◌, false, [], None, List, length, max, All, IfOk, IfSome};
ghost use Rattle.std.specs.Bool.{OnFalse};
ghost use Rattle.session_queue.specs.Shards.{shard_of};
ghost use Rattle.session_queue.specs.Waiting.{queue_at};
ghost use Rattle.cell_engine.specs.State.{cell_at};
ghost use Rattle.room.specs.Jobs as taken;
ghost use Rattle.room.specs.Jobs.{NoneWaits, IsOfShard, IsSeenIn, AreApart, cell_of};

use crate::room::Room;
use crate::room::job::Job;
use crate::room::together::Jobs;
use cell_engine::Cell;
use net_prefix::{Addr, Prefix};
use prefix_table::PrefixTable;
use route_select::{Chosen, Selector};
use seq::Copied;
use session_queue::Direction;
use std::alloc::AllocError;
use std::sync::ledger::Ledger;

impl<S: Chosen, T: PrefixTable<Cell<S>>, L: Ledger> Room<S, T, L> {
    /// Whether a message waits for a receiver of the shard.
    pub fn has_message(&self, shard: u64, shards: u64) -> bool
        requires { shard < shards }
        ensures { (result ≡ false) ↔ NoneWaits self.now shard shards }
    {
        self.sim.state().queues().next_in(shard, shards).is_some()
    }
}

impl<S: Selector + Drop, T: PrefixTable<Cell<S>>, L: Ledger> Room<S, T, L> {
    /// A job of the shard: what the delivery of a message that waits depends on, as it is now. None where no message
    /// waits for a receiver of the shard. Want of memory is the only error.
    pub fn job(&self, shard: u64, shards: u64) -> Result<Option<Job<S>>, AllocError>
        requires { shard < shards }
        ensures seen { IfOk result (λ found. IfSome found (IsSeenIn self.now)) }
        ensures shard { IfOk result (λ found. IfSome found (IsOfShard shard shards)) }
        ensures none { IfOk result (λ found. found ≡ None → NoneWaits self.now shard shards) }
    {
        if self.is_quiet() {
            return Ok(None);
        }
        match self.sim.state().queues().next_in(shard, shards) {
            None => Ok(None),
            Some(direction) => {
                let job = self.job_of(direction)?;
                Ok(Some(job))
            }
        }
    }

    /// Jobs of the shard, no more than so many, and no two of one receiver and prefix, of which the first would make
    /// the second come too late. One at least where a message waits for a receiver of the shard. Want of memory for the
    /// first is the only error.
    pub fn jobs(&self, shard: u64, shards: u64, most: usize) -> Result<Jobs<S>, AllocError>
        requires { shard < shards }
        ensures seen { IfOk result (All (IsSeenIn self.now)) }
        ensures shard { IfOk result (All (IsOfShard shard shards)) }
        ensures apart { IfOk result AreApart }
        ensures most { IfOk result (λ jobs. length jobs ≤ max most 1) }
        ensures none { IfOk result (λ jobs. jobs ≡ [] → NoneWaits self.now shard shards) }
    {
        let jobs = self.job_list(shard, shards, most)?;
        Ok(Jobs::of(jobs))
    }

    /// The same, as a list.
    fn job_list(&self, shard: u64, shards: u64, most: usize) -> Result<Vec<Job<S>>, AllocError>
        requires { shard < shards }
        ensures seen { IfOk result (λ jobs. All (IsSeenIn self.now) jobs.items) }
        ensures shard { IfOk result (λ jobs. All (IsOfShard shard shards) jobs.items) }
        ensures apart { IfOk result (λ jobs. AreApart jobs.items) }
        ensures most { IfOk result (λ jobs. length jobs.items ≤ max most 1) }
        ensures none { IfOk result (λ jobs. jobs.items ≡ [] → NoneWaits self.now shard shards) }
    {
        let Some(first) = self.job(shard, shards)? else {
            return Ok(Vec::new(self.alloc));
        };
        let Ok(mut jobs) = Vec::with_capacity(self.alloc, most) else {
            drop(first);
            return Err(AllocError);
        };
        let past = first.direction();
        if jobs.push(first).is_err() {
            return Err(AllocError);
        }
        self.add_jobs(&mut jobs, shard, shards, most, past);
        Ok(jobs)
    }

    /// Adds jobs of the shard, of directions past that one, till there are so many, or there is no memory.
    fn add_jobs(
        &self,
        jobs: &mut Vec<Job<S>>,
        shard: u64,
        shards: u64,
        most: usize,
        mut past: Direction,
    )
        requires shard { shard < shards }
        requires seen { All (IsSeenIn self.now) jobs.old.items }
        requires of_shard { All (IsOfShard shard shards) jobs.old.items }
        requires apart { AreApart jobs.old.items }
        ensures seen { All (IsSeenIn self.now) jobs.new.items }
        ensures shard { All (IsOfShard shard shards) jobs.new.items }
        ensures apart { AreApart jobs.new.items }
        ensures most { length jobs.new.items + 1 ≤ length jobs.old.items + max most 1 }
        ensures more { length jobs.old.items ≤ length jobs.new.items }
    {
        for _ in 1..most {
            let Some(direction) = self.next_past(shard, shards, past) else {
                return;
            };
            past = direction;
            if !self.is_added(jobs, direction) {
                return;
            }
        }
    }

    /// Adds the job of the direction, unless there is one of its receiver and prefix: what the receiver has of the
    /// prefix would be another then. False where there is no memory.
    fn is_added(&self, jobs: &mut Vec<Job<S>>, direction: Direction) -> bool
        requires message { 0 < length (queue_at self.now.engine.queues direction.from direction.to) }
        requires seen { All (IsSeenIn self.now) jobs.old.items }
        requires apart { AreApart jobs.old.items }
        ensures seen { All (IsSeenIn self.now) jobs.new.items }
        ensures added { (more : List taken.Job) × (jobs.new.items ≡ jobs.old.items ++ more) × (length more ≤ 1) ×
            All (λ job. job.direction ≡ direction) more }
        ensures apart { AreApart jobs.new.items }
    {
        let queues = self.sim.state().queues();
        let Some(view) = queues.head(direction.from, direction.to) else {
            return true;
        };
        if has_cell(jobs, direction.to, view.prefix()) {
            return true;
        }
        match self.job_of(direction) {
            Ok(job) => jobs.push(job).is_ok(),
            Err(_) => false,
        }
    }

    /// The next direction with a message to a receiver of the shard, by sender, then by receiver.
    fn next_past(&self, shard: u64, shards: u64, past: Direction) -> Option<Direction>
        requires { shard < shards }
        ensures message { IfSome result (λ next. 0 < length (queue_at self.now.engine.queues next.from next.to)) }
        ensures shard { IfSome result (λ next. shard_of next.to shards ≡ shard) }
    {
        let queues = self.sim.state().queues();
        let mut past = (past.from, last_before(past.to, shard, shards));
        for _ in 0..u64::MAX {
            let (from, to) = queues.next_full(Some(past))?;
            if u64::from(to.0) % shards == shard {
                return Some(Direction { from, to });
            }
            past = (from, last_before(to, shard, shards));
        }
        None
    }

    /// The job of a direction with a message.
    fn job_of(&self, direction: Direction) -> Result<Job<S>, AllocError>
        requires { 0 < length (queue_at self.now.engine.queues direction.from direction.to) }
        ensures seen { IfOk result (IsSeenIn self.now) }
        ensures direction { IfOk result (λ job. job.direction ≡ direction) }
    {
        self.engine_facts();
        let state = self.sim.state();
        let Some(view) = state.queues().head(direction.from, direction.to) else {
            unreachable!()
        };
        let cell = self.cell_of(direction.to, view.prefix())?;
        let Ok(conf) = state.share() else {
            drop(cell);
            return Err(AllocError);
        };
        let Ok(head) = view.to_message() else {
            drop((cell, conf));
            return Err(AllocError);
        };
        Ok(Job {
            alloc: self.alloc,
            direction,
            version: self.version,
            head,
            conf,
            cell,
        })
    }

    /// A copy of the cell, an empty one where there is none.
    fn cell_of(&self, router: Addr, prefix: Prefix) -> Result<Cell<S>, AllocError>
        ensures { IfOk result (λ cell. cell ≡ cell_at router prefix self.now.engine.tables) }
    {
        match self.sim.state().cell(router, prefix) {
            Some(cell) => cell.copy(self.alloc),
            None => Ok(Cell::new(self.alloc, false)),
        }
    }
}

/// The last address before the next one of the shard: from this address on to there none is of the shard, but this may
/// be.
fn last_before(address: Addr, shard: u64, shards: u64) -> Addr
    requires { shard < shards }
{
    let own = u64::from(address.0) % shards;
    let steps = if own < shard {
        shard - own
    } else {
        (shards - own).saturating_add(shard)
    };
    let last = u64::from(address.0).saturating_add(steps).saturating_sub(1);
    Addr(last.min(u64::from(u32::MAX)) as u32)
}

/// Whether one of the jobs is of the receiver and prefix.
fn has_cell<S: Chosen>(jobs: &[Job<S>], router: Addr, prefix: Prefix) -> bool
    ensures { OnFalse result (All (λ job. cell_of job ≢ (router, prefix)) jobs.now) }
{
    jobs.iter().any(|job| job.direction().to == router && job.head().prefix() == prefix)
}
