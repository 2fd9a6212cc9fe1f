//! The condition variables that the workers of each shard wait by.

ghost use Rattle.std.specs.Prelude.{◌≡◌, ◌<◌, IfOk};

use std::alloc::{AllocError, Global};
use std::marker::Model;
use std::sync::Condvar;

/// What wakes the workers of a shard. Contracts see which shard.
#[derive(Drop)]
pub struct ShardCondition {
    shard: u64,
    condition: Condvar,
}

impl Model for ShardCondition {
    ghost use Rattle.std.specs.Prelude.{ℕ};

    ghost Value = { ℕ };

    ghost view = { λ c. c.shard };
}

impl ShardCondition {
    /// What the workers of the shard wait by.
    pub fn get(&self) -> &Condvar {
        &self.condition
    }
}

/// A condition variable for the workers of each shard, from shard 0 on. Contracts see how many shards there are.
#[derive(Drop)]
pub(crate) struct ShardConditions {
    conditions: Vec<ShardCondition>,
}

impl Model for ShardConditions {
    ghost use Rattle.std.specs.Prelude.{◌≡◌, ◌<◌, ℕ, length, slice_index_or};

    ghost Value = { ℕ };

    ghost view = { λ s. length s.conditions.items };

    ghost invariant = { λ s. (k d : ℕ) → k < length s.conditions.items → slice_index_or s.conditions.items k d ≡ k };
}

impl ShardConditions {
    /// For so many shards.
    pub(crate) fn new(alloc: Global, shards: u64) -> Result<Self, AllocError>
        ensures { IfOk result (λ made. made ≡ shards) }
    {
        let mut conditions = Vec::new(alloc);
        for shard in 0..shards {
            conditions.push(ShardCondition {
                shard,
                condition: Condvar::new(),
            })?;
        }
        Ok(ShardConditions { conditions })
    }

    /// That of the shard.
    pub(crate) fn of(&self, shard: u64) -> &ShardCondition
        requires { shard < self.now }
        ensures { result.now ≡ shard }
    {
        &self.conditions[shard as usize]
    }

    /// Wakes the workers of the shard, if there is such a shard.
    pub(crate) fn notify(&self, shard: u64) {
        if let Some(condition) = self.conditions.get(shard as usize) {
            condition.get().notify_all();
        }
    }

    /// Wakes the workers of all shards.
    pub(crate) fn notify_all(&self) {
        for condition in self.conditions.as_slice() {
            condition.get().notify_all();
        }
    }
}
