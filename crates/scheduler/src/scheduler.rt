//! What wakes those who wait at a desk.

ghost use Rattle.std.specs.Prelude.{◌≡◌, ◌<◌, ◌%◌, true, IfOk};
ghost use Rattle.session_queue.specs.Shards.{shard_of};
ghost use Rattle.scheduler.specs.Receiving.{is_edit};
ghost use Rattle.scheduler.specs.Shards.{AreShards};
ghost use Rattle.scheduler.specs.Waiting.{with_waits, made_ready, becomes_idle, wakes_one, wakes_all, wakes_everybody, leaves};

use crate::conditions::{ShardCondition, ShardConditions};
use crate::waits::Woken;
use crate::workers::Workers;
use net_prefix::Addr;
use sim_event::Event;
use std::alloc::{AllocError, Global};
use std::marker::Model;
use std::sync::Condvar;
use std::sync::atomic::{AtomicU64, Ordering};
use std::thread;

/// How often a worker looks after an edit whether the next one is asked for, before it takes a job.
const LOOKS_AFTER_EDITS: u64 = 64;

/// What wakes those who wait at the desk. It lies beside the lock. Contracts see how many shards there are.
#[derive(Drop)]
pub struct Scheduler {
    /// Wake the workers who are idle, where a message may wait for them, or where they may end.
    conditions: ShardConditions,
    /// Wakes a worker who has backed off.
    backoff_ends: Condvar,
    /// How many edits are asked for, and not yet made.
    edits: AtomicU64,
    /// Wakes the workers who wait until no edit is asked for.
    edits_end: Condvar,
    shards: u64,
}

impl Model for Scheduler {
    ghost use Rattle.std.specs.Prelude.{ℕ, ◌≡◌};
    ghost use Rattle.scheduler.specs.Shards.{AreShards};

    ghost Value = { ℕ };

    ghost view = { λ s. s.shards };

    ghost invariant = { λ s. AreShards s.shards × (s.conditions ≡ s.shards) };
}

impl Scheduler {
    /// For so many shards, 1 to 64.
    pub fn new(alloc: Global, shards: u64) -> Result<Self, AllocError>
        requires { AreShards shards }
        ensures { IfOk result (λ made. made ≡ shards) }
    {
        let conditions = ShardConditions::new(alloc, shards)?;
        Ok(Scheduler {
            conditions,
            backoff_ends: Condvar::new(),
            edits: AtomicU64::new(0),
            edits_end: Condvar::new(),
            shards,
        })
    }

    /// How many shards there are.
    pub fn shards(&self) -> u64
        ensures shards { result ≡ self.now }
        ensures allowed { AreShards result }
    {
        self.shards
    }

    /// What wakes the workers of the shard.
    pub fn condition(&self, shard: u64) -> &ShardCondition
        requires { shard < self.now }
        ensures { result.now ≡ shard }
    {
        self.conditions.of(shard)
    }

    /// What wakes a worker who has backed off.
    pub fn backoff_ends(&self) -> &Condvar {
        &self.backoff_ends
    }

    /// What wakes the workers who wait until no edit is asked for.
    pub fn edits_end(&self) -> &Condvar {
        &self.edits_end
    }

    /// Wakes who was woken under the lock.
    fn notify(&self, woken: Woken) {
        match woken {
            Woken::Nobody => {}
            Woken::OfShard(shard) => self.conditions.notify(shard),
            Woken::BackedOff => self.backoff_ends.notify_one(),
        }
    }

    /// The engineers make no more calls: the workers end once no message waits, or none that one of them could bring.
    pub fn finish(&self, workers: &mut Workers)
        ensures { workers.new ≡ record (with_waits wakes_all workers.old) { is_finished = true } }
    {
        workers.finish();
        self.conditions.notify_all();
    }

    /// A worker leaves.
    pub fn leave(&self, workers: &mut Workers)
        ensures { workers.new ≡ with_waits leaves workers.old }
    {
        let woken = workers.leave();
        self.conditions.notify_all();
        self.notify(woken);
    }

    /// A worker of the shard has found no job. It wakes the workers of one shard who are ready, or else a worker who
    /// has backed off, if there are any.
    pub fn add_idle(&self, workers: &mut Workers, shard: u64)
        ensures { workers.new ≡ with_waits (λ w. wakes_one (becomes_idle shard w)) workers.old }
    {
        let woken = workers.add_idle(shard);
        self.notify(woken);
    }

    /// Wakes the workers of one shard who are ready, or else a worker who has backed off, if there are any.
    pub fn wake_one(&self, workers: &mut Workers)
        ensures { workers.new ≡ with_waits wakes_one workers.old }
    {
        let woken = workers.wake_one();
        self.notify(woken);
    }

    /// A message may wait for the receiver: the workers of its shard who are idle are ready, and woken at once or
    /// later.
    pub fn make_ready(&self, workers: &mut Workers, receiver: Addr)
        ensures { workers.new ≡ made_ready (shard_of receiver self.now) workers.old }
    {
        self.make_shard_ready(workers, u64::from(receiver.0) % self.shards);
    }

    /// The same of a shard.
    pub fn make_shard_ready(&self, workers: &mut Workers, shard: u64)
        ensures { workers.new ≡ made_ready shard workers.old }
    {
        if workers.make_ready(shard) {
            self.conditions.notify(shard);
        }
    }

    /// No calls come and no message waits: all are woken, and end.
    pub fn wake_all(&self, workers: &mut Workers)
        ensures { workers.new ≡ with_waits wakes_everybody workers.old }
    {
        workers.wake_everybody();
        self.conditions.notify_all();
        self.backoff_ends.notify_all();
    }

    /// Somebody asks for the event. Whether it is an edit: from now on no worker begins a job, which the edit would
    /// make come too late.
    pub fn begin_call(&self, event: &Event) -> bool
        ensures { result ≡ is_edit event.now }
    {
        let is_edit = matches!(event, Event::Edit(_));
        if is_edit {
            self.edits.fetch_add(1, Ordering::SeqCst);
        }
        is_edit
    }

    /// The call was made. After the last edit that was asked for the workers go on.
    pub fn end_call(&self, workers: &Workers, is_edit: bool) {
        if is_edit
            && self.edits.fetch_sub(1, Ordering::SeqCst) == 1
            && workers.is_somebody_waiting_for_edits()
        {
            self.edits_end.notify_all();
        }
    }

    /// Whether an edit is asked for, and not yet made.
    pub fn is_edit_asked_for(&self) -> bool {
        self.edits.load(Ordering::SeqCst) > 0
    }

    /// A little while, in which whoever has edited may ask for the next edit.
    pub fn yield_after_edits(&self) {
        for _ in 0..LOOKS_AFTER_EDITS {
            if self.is_edit_asked_for() {
                return;
            }
            thread::yield_now();
        }
    }
}
