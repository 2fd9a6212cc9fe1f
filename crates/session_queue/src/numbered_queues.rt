//! The queues of all directions, with attributes by number.

ghost use Rattle.std.specs.Prelude.{◌≡◌, ◌⊎◌, ℕ, ◌+◌, ◌<◌, ◌≤◌, ◌↔◌, [], ◌∷◌, ◌++◌, length, max, drop, slice_get, option_map, option_copied, find, filter, Some, IsTrue, IfSome, IfNone, OnOk, OnErr};
ghost use Rattle.std.specs.List.Sorted.{IsStrictlySortedBy};
ghost use Rattle.std.specs.Map.{keys_of};
ghost use Rattle.session_queue.specs.Lines.{direction_cmp};
ghost use Rattle.session_queue.specs.Tidy.{LosesBlank};

use crate::direction::Direction;
use crate::numbered::Numbered;
use crate::queue::Queue;
use net_prefix::Addr;
use seq::Copied;
use std::alloc::{AllocError, Global};
use std::collections::BTreeMap;
use std::marker::Model;
use std::ops::Bound;

/// In each direction of a session the messages on their way, the head first, and how many more it can take without
/// memory.
#[derive(Debug, Drop)]
pub(crate) struct NumberedQueues {
    alloc: Global,
    /// The directions with a message or spare memory, and the resting one.
    queues: BTreeMap<Direction, Queue>,
    /// How many directions have a message.
    full: usize,
    /// The direction whose small queue ran empty last: it stays, since a direction is often served again soon.
    resting: Option<Direction>,
}

impl Model for NumberedQueues {
    ghost use Rattle.session_queue.specs.declared.numbered.Numbered.{Numbered};
    ghost use Rattle.session_queue.specs.Lines.{Lines};
    ghost use Rattle.session_queue.specs.Tidy.{IsTidy};

    ghost Value = { Lines Numbered };

    ghost view = { λ q. q.queues.entries };

    ghost invariant = { λ q. IsTidy q.queues.entries q.full q.resting };
}

impl NumberedQueues {
    ghost use Rattle.std.specs.BTreeMap.Range.{entries_between};
    ghost use Rattle.session_queue.specs.Tidy.{has_message, start_past};
    ghost use Rattle.session_queue.specs.Shards.{shard_of, is_in_shard};
    ghost use Rattle.session_queue.specs.Lines.{messages_at, spare_in, waiting_at, KeepsOtherLines, AreEmpty, IsPast, PassNone};

    /// No message, and no spare memory, in any direction. It takes no memory.
    #[tactic(auto, unfolding(crate::specs::Lines::messages_at, crate::specs::Lines::spare_in))]
    pub(crate) fn new(alloc: Global) -> Self
        ensures messages { AreEmpty result }
        ensures spare { (from to : Addr) → spare_in result from to ≡ 0 }
    {
        NumberedQueues {
            alloc,
            queues: BTreeMap::new(alloc),
            full: 0,
            resting: None,
        }
    }

    /// Sees to it that the direction can take n more messages. It takes memory only where fewer are spare: where n
    /// are, it changes nothing and cannot fail. An error changes nothing.
    pub(crate) fn reserve(&mut self, from: Addr, to: Addr, n: usize) -> Result<(), AllocError>
        ensures spare { OnOk result (spare_in self.new from to ≡ max n (spare_in self.old from to)) }
        ensures queue { messages_at self.new from to ≡ messages_at self.old from to }
        ensures others { KeepsOtherLines from to self.old self.new }
        ensures enough { n ≤ spare_in self.old from to → self.new ≡ self.old }
        ensures short { OnErr result (spare_in self.old from to < n) }
        ensures err { OnErr result (self.new ≡ self.old) }
    {
        if n == 0 {
            return Ok(());
        }
        let direction = Direction { from, to };
        if let Some(queue) = self.queues.get_mut(&direction) {
            return queue.reserve(n);
        }
        let queue = Queue::with_spare(self.alloc, n)?;
        self.queues.insert(direction, queue)?;
        Ok(())
    }

    /// Adds a message at the end of the direction's queue. It takes no memory: one fewer is spare then.
    pub(crate) fn push(&mut self, from: Addr, to: Addr, message: Numbered)
        requires { 0 < spare_in self.old from to }
        ensures queue { messages_at self.new from to ≡ messages_at self.old from to ++ message ∷ [] }
        ensures spare { spare_in self.new from to + 1 ≡ spare_in self.old from to }
        ensures others { KeepsOtherLines from to self.old self.new }
    {
        // No more directions have a message than there are, so one more can be counted.
        prove!(self.full <= self.queues.len());
        let Some(queue) = self.queues.get_mut(&Direction { from, to }) else {
            unreachable!()
        };
        self.full += usize::from(queue.is_empty());
        queue.push(message);
    }

    /// Adds a message at the end of the direction's queue, with the memory that this takes: it gets a place, a spare
    /// one where there is one. An error changes nothing.
    pub(crate) fn put(&mut self, from: Addr, to: Addr, message: Numbered) -> Result<(), AllocError>
        ensures queue { OnOk result (messages_at self.new from to ≡ messages_at self.old from to ++ message ∷ []) }
        ensures spare { OnOk result (spare_in self.new from to + 1 ≡ max 1 (spare_in self.old from to)) }
        ensures others { KeepsOtherLines from to self.old self.new }
        ensures err { OnErr result (self.new ≡ self.old) }
    {
        // No more directions have a message than there are, so one more can be counted.
        prove!(self.full <= self.queues.len());
        let direction = Direction { from, to };
        if let Some(queue) = self.queues.get_mut(&direction) {
            let was_empty = queue.is_empty();
            queue.put(message)?;
            self.full += usize::from(was_empty);
            return Ok(());
        }
        let mut queue = Queue::with_spare(self.alloc, 1)?;
        queue.push(message);
        self.queues.insert(direction, queue)?;
        self.full += 1;
        Ok(())
    }

    /// How many messages are on their way in the direction.
    #[tactic(auto, unfolding(crate::specs::Lines::messages_at))]
    pub(crate) fn len(&self, from: Addr, to: Addr) -> usize
        ensures { result ≡ length (messages_at self.now from to) }
    {
        self.queue(from, to).map_or(0, |queue| queue.len())
    }

    /// The message at the position of the direction's queue, the head's being 0.
    #[tactic(auto, unfolding(crate::specs::Lines::messages_at))]
    pub(crate) fn at(&self, from: Addr, to: Addr, n: usize) -> Option<Numbered>
        ensures { result ≡ slice_get (messages_at self.now from to) n }
    {
        self.queue(from, to)?.at(n)
    }

    /// Removes the head of the direction's queue, if there is one, and says whether there was.
    pub(crate) fn pop(&mut self, from: Addr, to: Addr) -> bool
        ensures had { IsTrue result ↔ (0 < length (messages_at self.old from to)) }
        ensures queue { messages_at self.new from to ≡ drop 1 (messages_at self.old from to) }
        ensures spare { spare_in self.new from to ≡ spare_in self.old from to }
        ensures others { KeepsOtherLines from to self.old self.new }
    {
        let served = Direction { from, to };
        let Some(queue) = self.queues.get_mut(&served) else {
            return false;
        };
        self.full -= usize::from(queue.len() == 1);
        let popped = queue.pop();
        if queue.is_blank() {
            let is_small = queue.is_small();
            let leaving = rest(&mut self.resting, served, is_small);
            remove_blank(&mut self.queues, leaving);
        }
        popped
    }

    /// Removes all messages of the direction.
    pub(crate) fn clear(&mut self, from: Addr, to: Addr)
        ensures queue { messages_at self.new from to ≡ [] }
        ensures spare { spare_in self.new from to ≡ spare_in self.old from to }
        ensures others { KeepsOtherLines from to self.old self.new }
    {
        let silenced = Direction { from, to };
        let Some(queue) = self.queues.get_mut(&silenced) else {
            return;
        };
        self.full -= usize::from(!queue.is_empty());
        queue.clear();
        if queue.is_blank() {
            drop(self.queues.remove(&silenced));
        }
    }

    /// Whether no message is on its way in any direction.
    pub(crate) fn all_empty(&self) -> bool
        ensures { IsTrue result ↔ AreEmpty self.now }
    {
        self.full == 0
    }

    /// The next direction with a message, by sender, then by receiver: the first of all, or the first past the one
    /// that is given.
    pub(crate) fn next_full(&self, past: Option<(Addr, Addr)>) -> Option<(Addr, Addr)>
        ensures full { IfSome result (λ found. 0 < length (messages_at self.now found.0 found.1)) }
        ensures past { IfSome result (IsPast past) }
        ensures none_between { PassNone self.now past result }
    {
        self.first_full(Self::start_past(past))
            .map(|direction| (direction.from, direction.to))
    }

    /// The first direction with a message to a receiver of the shard, by sender, then by receiver. The shard of an
    /// address is its number modulo the shards.
    pub(crate) fn next_in(&self, shard: u64, shards: u64) -> Option<Direction>
        requires { shard < shards }
        ensures full { IfSome result (λ found. 0 < length (messages_at self.now found.from found.to)) }
        ensures shard { IfSome result (λ found. shard_of found.to shards ≡ shard) }
        ensures none { IfNone result ((from to : Addr) → shard_of to shards ≡ shard →
            messages_at self.now from to ≡ []) }
    {
        self.first_in(shard, shards)
    }

    /// The first direction with a message of those of the shard. The order is said for `next_in`, which reads no field
    /// itself.
    fn first_in(&self, shard: u64, shards: u64) -> Option<Direction>
        requires { shard < shards }
        ensures ordered { IsStrictlySortedBy direction_cmp (keys_of self.now) }
        ensures first { result ≡ option_map (λ e.
            e.0) (find (λ e. has_message e.1) (filter (λ e. is_in_shard shard shards e.0) self.now)) }
    {
        for (direction, queue) in self.queues.iter() {
            if u64::from(direction.to.0) % shards == shard && !queue.is_empty() {
                return Some(*direction);
            }
        }
        None
    }

    /// Where the directions past this one begin.
    fn start_past(past: Option<(Addr, Addr)>) -> Bound<Direction>
        ensures { result ≡ start_past past }
    {
        match past {
            Some((from, to)) => Bound::Excluded(Direction { from, to }),
            None => Bound::Unbounded,
        }
    }

    /// The first direction with a message, from the start on. The order is said for `next_full`, which reads no field
    /// itself.
    fn first_full(&self, start: Bound<Direction>) -> Option<Direction>
        ensures ordered { IsStrictlySortedBy direction_cmp (keys_of self.now) }
        ensures first { result ≡ option_map (λ e.
            e.0) (find (λ e. has_message e.1) (entries_between direction_cmp start Bound.Unbounded self.now)) }
    {
        for (direction, queue) in self.queues.range((start, Bound::Unbounded)) {
            if !queue.is_empty() {
                return Some(*direction);
            }
        }
        None
    }

    /// The queue of the direction, where one is kept.
    fn queue(&self, from: Addr, to: Addr) -> Option<&Queue>
        ensures { option_copied result ≡ waiting_at self.now from to }
    {
        self.queues.get(&Direction { from, to })
    }
}

impl Copied for NumberedQueues {
    fn copy(&self, alloc: Global) -> Result<Self, AllocError> {
        Ok(NumberedQueues {
            alloc,
            queues: self.queues.clone()?,
            full: self.full,
            resting: self.resting,
        })
    }
}

/// The direction has run empty: where its queue is small it rests from now on, in place of the one that rested before.
/// It answers which one is to leave.
fn rest(resting: &mut Option<Direction>, served: Direction, is_small: bool) -> Option<Direction>
    ensures served { (resting.new ≡ Some served) ⊎ (result ≡ Some served) }
    ensures before { IfSome resting.old (λ before. (resting.new ≡ Some before) ⊎ (result ≡ Some before)) }
{
    if !is_small {
        return Some(served);
    }
    match resting.replace(served) {
        Some(before) if before == served => None,
        before => before,
    }
}

/// Removes the queue of the direction, if one is given and its queue is blank.
fn remove_blank(queues: &mut BTreeMap<Direction, Queue>, leaving: Option<Direction>)
    requires { IsStrictlySortedBy direction_cmp (keys_of queues.old.entries) }
    ensures ordered { IsStrictlySortedBy direction_cmp (keys_of queues.new.entries) }
    ensures blank { LosesBlank leaving queues.old.entries queues.new.entries }
{
    let Some(direction) = leaving else {
        return;
    };
    let Some(queue) = queues.get(&direction) else {
        return;
    };
    if queue.is_blank() {
        drop(queues.remove(&direction));
    }
}
