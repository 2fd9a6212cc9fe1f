//! How the workers of each shard wait for a message.

ghost use Rattle.std.specs.Prelude.{◌≡◌, ◌<◌, ◌==◌, length, slice_index_or, IfOk};
ghost use Rattle.std.specs.List.{list_any, position};
ghost use Rattle.std.proofs.Math.ListN.{replicate};
ghost use Rattle.scheduler.specs.Counts.{nobody_waits, one_idle, one_goes_on, idle_are_ready, ready_are_idle, ready_are_woken, one_runs, wait_of, at_shard, is_idle, is_ready};

use std::alloc::{AllocError, Global};
use std::marker::Model;

/// How the workers of one shard wait: idle at first, ready once a message may wait for them, and woken then.
#[derive(Clone, Copy)]
pub(crate) struct ShardWait {
    /// How many of them have looked for a job since the shard was last made ready, and found none.
    idle: u64,
    /// How many of them were made ready since, and are not woken yet.
    ready: u64,
    /// How many of them were woken, and do not run yet.
    woken: u64,
}

/// How the workers of each shard wait. It lies under the lock.
#[derive(Drop)]
pub(crate) struct ShardWaits {
    shards: Vec<ShardWait>,
}

impl Model for ShardWaits {
    ghost use Rattle.std.specs.Prelude.{List};
    ghost use Rattle.scheduler.specs.declared.shard_waits.ShardWait.{ShardWait};

    ghost Value = { List ShardWait };

    ghost view = { λ w. w.shards.items };
}

impl ShardWaits {
    /// No worker of so many shards waits.
    pub(crate) fn new(alloc: Global, count: u64) -> Result<Self, AllocError>
        ensures { IfOk result (λ made. made ≡ replicate count nobody_waits) }
    {
        let nobody = ShardWait {
            idle: 0,
            ready: 0,
            woken: 0,
        };
        let mut shards = Vec::new(alloc);
        for _ in 0..count {
            shards.push(nobody)?;
        }
        Ok(ShardWaits { shards })
    }

    /// Whether some workers have found no job since their shard was last made ready.
    pub(crate) fn is_somebody_idle(&self) -> bool
        ensures { result ≡ list_any is_idle self.now }
    {
        self.shards.iter().any(|wait| wait.idle > 0)
    }

    /// Whether some workers are ready, and not woken yet.
    pub(crate) fn is_somebody_ready(&self) -> bool
        ensures { result ≡ list_any is_ready self.now }
    {
        self.shards.iter().any(|wait| wait.ready > 0)
    }

    /// A worker of the shard has found no job.
    pub(crate) fn add_idle(&mut self, shard: u64)
        ensures { self.new ≡ at_shard shard one_idle self.old }
    {
        if let Some(wait) = self.shards.get_mut(shard as usize) {
            wait.idle = wait.idle.saturating_add(1);
        }
    }

    /// A worker of the shard who has found no job does not wait for one.
    pub(crate) fn remove_idle(&mut self, shard: u64)
        ensures { self.new ≡ at_shard shard one_goes_on self.old }
    {
        if let Some(wait) = self.shards.get_mut(shard as usize) {
            wait.idle = wait.idle.saturating_sub(1);
        }
    }

    /// Whether no worker of the shard is woken who does not run yet.
    pub(crate) fn is_none_woken(&self, shard: u64) -> bool
        ensures { result ≡ ((wait_of shard self.now).woken == 0) }
    {
        match self.shards.get(shard as usize) {
            Some(wait) => wait.woken == 0,
            None => true,
        }
    }

    /// A worker of the shard who was woken runs.
    pub(crate) fn resume(&mut self, shard: u64)
        ensures { self.new ≡ at_shard shard one_runs self.old }
    {
        if let Some(wait) = self.shards.get_mut(shard as usize) {
            wait.woken = wait.woken.saturating_sub(1);
        }
    }

    /// A message may wait for the shard: its workers who are idle are ready.
    pub(crate) fn make_ready(&mut self, shard: u64)
        ensures { self.new ≡ at_shard shard idle_are_ready self.old }
    {
        if let Some(wait) = self.shards.get_mut(shard as usize) {
            wait.ready = wait.ready.saturating_add(wait.idle);
            wait.idle = 0;
        }
    }

    /// Whether workers of the shard are idle.
    pub(crate) fn is_idle(&self, shard: u64) -> bool
        ensures { result ≡ is_idle (wait_of shard self.now) }
    {
        match self.shards.get(shard as usize) {
            Some(wait) => wait.idle > 0,
            None => false,
        }
    }

    /// Whether workers of the shard are ready, and not woken yet.
    pub(crate) fn is_ready(&self, shard: u64) -> bool
        ensures { result ≡ is_ready (wait_of shard self.now) }
    {
        match self.shards.get(shard as usize) {
            Some(wait) => wait.ready > 0,
            None => false,
        }
    }

    /// The shard was made ready in vain: its workers who are ready are idle again.
    pub(crate) fn make_idle(&mut self, shard: u64)
        ensures { self.new ≡ at_shard shard ready_are_idle self.old }
    {
        if let Some(wait) = self.shards.get_mut(shard as usize) {
            wait.idle = wait.idle.saturating_add(wait.ready);
            wait.ready = 0;
        }
    }

    /// Wakes the workers of the shard who are ready. How many there are.
    pub(crate) fn wake(&mut self, shard: u64) -> u64
        ensures woken { self.new ≡ at_shard shard ready_are_woken self.old }
        ensures count { result ≡ (wait_of shard self.old).ready }
    {
        let Some(wait) = self.shards.get_mut(shard as usize) else {
            return 0;
        };
        let ready = wait.ready;
        wait.ready = 0;
        wait.woken = wait.woken.saturating_add(ready);
        ready
    }

    /// The first shard whose workers are ready, and not woken yet.
    pub(crate) fn first_ready(&self) -> Option<usize>
        ensures { result ≡ position is_ready self.now }
    {
        self.shards.iter().position(|wait| wait.ready > 0)
    }

    /// How many shards there are.
    pub(crate) fn len(&self) -> u64
        ensures { result ≡ length self.now }
    {
        self.shards.len() as u64
    }
}
