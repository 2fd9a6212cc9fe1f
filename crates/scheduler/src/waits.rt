//! How many workers are at work, and how the others wait.

ghost use Rattle.std.specs.Prelude.{◌≡◌, ◌==◌, if◌then◌else◌, IfOk};
ghost use Rattle.scheduler.specs.Waiting.{nobody_there, come, becomes_idle, goes_on, becomes_ready, is_in_vain, wakes, wakes_backed_off, wakes_one, woken_by, wakes_first, wakes_all, wakes_everybody, backs_off, leaves, runs, resumes};

use crate::backoff::BackedOff;
use crate::shard_waits::ShardWaits;
use std::alloc::{AllocError, Global};

/// Who was woken under the lock, and is to be notified.
#[derive(Clone, Copy)]
pub(crate) enum Woken {
    Nobody,
    /// The workers of this shard.
    OfShard(u64),
    /// One who had backed off.
    BackedOff,
}

/// How many workers are at work, and how the others wait.
#[derive(Drop)]
pub(crate) struct Waits {
    /// How many workers have a job, look for one, or were woken.
    at_work: u64,
    shards: ShardWaits,
    backed_off: BackedOff,
}

impl Waits {
    /// Nobody is there, of any of so many shards.
    pub(crate) fn new(alloc: Global, shards: u64) -> Result<Self, AllocError>
        ensures { IfOk result (λ made. made ≡ nobody_there shards) }
    {
        Ok(Waits {
            at_work: 0,
            shards: ShardWaits::new(alloc, shards)?,
            backed_off: BackedOff::new(),
        })
    }

    /// How many workers have a job, look for one, or were woken.
    pub(crate) fn at_work(&self) -> u64
        ensures { result ≡ self.now.at_work }
    {
        self.at_work
    }

    pub(crate) fn shards(&self) -> &ShardWaits
        ensures { result.now ≡ self.now.shards }
    {
        &self.shards
    }

    pub(crate) fn backed_off(&self) -> &BackedOff
        ensures { result.now ≡ self.now.backed_off }
    {
        &self.backed_off
    }

    /// So many workers come.
    pub(crate) fn add(&mut self, workers: u64)
        ensures { self.new ≡ come workers self.old }
    {
        self.at_work = self.at_work.saturating_add(workers);
    }

    /// A worker of the shard has found no job.
    pub(crate) fn add_idle(&mut self, shard: u64)
        ensures { self.new ≡ becomes_idle shard self.old }
    {
        self.at_work = self.at_work.saturating_sub(1);
        self.shards.add_idle(shard);
    }

    /// A worker of the shard who had found no job goes on.
    pub(crate) fn remove_idle(&mut self, shard: u64)
        ensures { self.new ≡ goes_on shard self.old }
    {
        self.at_work = self.at_work.saturating_add(1);
        self.shards.remove_idle(shard);
    }

    /// A message may wait for the shard.
    pub(crate) fn make_ready(&mut self, shard: u64)
        ensures { self.new ≡ becomes_ready shard self.old }
    {
        self.shards.make_ready(shard);
    }

    /// No message waits for the shard.
    pub(crate) fn make_idle(&mut self, shard: u64)
        ensures { self.new ≡ is_in_vain shard self.old }
    {
        self.shards.make_idle(shard);
    }

    /// Wakes the workers of the shard who are ready.
    pub(crate) fn wake(&mut self, shard: u64)
        ensures { self.new ≡ wakes shard self.old }
    {
        let ready = self.shards.wake(shard);
        self.at_work = self.at_work.saturating_add(ready);
    }

    /// Wakes the workers of the first shard that is ready, else one who has backed off, if there is any.
    pub(crate) fn wake_one(&mut self) -> Woken
        ensures woken { self.new ≡ wakes_one self.old }
        ensures who { result ≡ woken_by self.old }
    {
        match self.shards.first_ready() {
            Some(shard) => {
                let shard = shard as u64;
                self.wake(shard);
                Woken::OfShard(shard)
            }
            None => self.wake_backed_off(),
        }
    }

    /// Wakes one who has backed off, if there is any.
    fn wake_backed_off(&mut self) -> Woken
        ensures woken { self.new ≡ wakes_backed_off self.old }
        ensures who { result ≡ (if self.old.backed_off.asleep == 0 then Woken.Nobody else Woken.BackedOff) }
    {
        if self.backed_off.asleep() == 0 {
            return Woken::Nobody;
        }
        self.at_work = self.at_work.saturating_add(1);
        self.backed_off.wake_one();
        Woken::BackedOff
    }

    /// Wakes all workers who are idle or ready.
    pub(crate) fn wake_all(&mut self)
        ensures { self.new ≡ wakes_all self.old }
    {
        for shard in 0..self.shards.len() {
            self.make_ready(shard);
            self.wake(shard);
        }
    }

    /// And all who have backed off.
    pub(crate) fn wake_everybody(&mut self)
        ensures { self.new ≡ wakes_everybody self.old }
    {
        self.wake_all();
        self.at_work = self.at_work.saturating_add(self.backed_off.asleep());
        self.backed_off.wake_all();
    }

    /// A worker backs off.
    pub(crate) fn back_off(&mut self)
        ensures { self.new ≡ backs_off self.old }
    {
        self.at_work = self.at_work.saturating_sub(1);
        self.backed_off.add();
    }

    /// A worker leaves. All who are idle or ready are woken, and one who has backed off.
    pub(crate) fn leave(&mut self) -> Woken
        ensures { self.new ≡ leaves self.old }
    {
        self.at_work = self.at_work.saturating_sub(1);
        self.wake_all();
        self.wake_one()
    }

    /// One of the shard who was woken runs.
    pub(crate) fn resume_of_shard(&mut self, shard: u64)
        ensures { self.new ≡ runs shard self.old }
    {
        self.shards.resume(shard);
    }

    /// One who had backed off, and was woken, runs.
    pub(crate) fn resume(&mut self)
        ensures { self.new ≡ resumes self.old }
    {
        self.backed_off.resume();
    }
}
