//! The queues of all directions.

ghost use Rattle.std.specs.Prelude.{◌≡◌, ◌⊎◌, ◌+◌, ◌<◌, ◌≤◌, ◌↔◌, [], ◌∷◌, ◌++◌, true, false, length, max, drop, slice_get, Some, option_map, IsTrue, IfOk, IfSome, IfNone, OnOk, OnErr};
ghost use Rattle.attr_pool.specs.Pooled.{has_attr, with_attr};

use crate::direction::Direction;
use crate::message::Message;
use crate::numbered::{Numbered, numbered_in};
use crate::numbered_queues::NumberedQueues;
use crate::view::View;
use attr_pool::{AttrId, Pool};
use net_prefix::Addr;
use path_attr::SharedAttr;
use seq::Copied;
use std::alloc::{AllocError, Global};
use std::hash::RandomState;
use std::marker::Model;

/// In each direction of a session the messages on their way, the head first, and how many more it can take without
/// memory; and the attributes that updates may have. These are kept once each, and for good; a message takes 16 bytes
/// beside them.
#[derive(Debug, Drop)]
pub struct Queues {
    queues: NumberedQueues,
    /// What the numbers in the queues mean.
    pool: Pool,
}

impl Model for Queues {
    ghost use Rattle.session_queue.specs.Waiting.{Queues};
    ghost use Rattle.session_queue.specs.Numbers.{shown, AreGiven};

    ghost Value = { Queues };

    ghost view = { λ q. shown q.pool q.queues };

    ghost invariant = { λ q. AreGiven q.pool q.queues };
}

impl Queues {
    ghost use Rattle.session_queue.specs.Numbers.{message_by, IsGiven};
    ghost use Rattle.session_queue.specs.Shards.{shard_of};
    ghost use Rattle.session_queue.specs.Telling.{message_of};
    ghost use Rattle.session_queue.specs.Waiting.{queue_at, spare_at, admitted_with, IsAdmitted, KeepsAdmitted, KeepsOthers, IsQuiet, IsPast, SkipsNone};

    /// No message and no spare memory in any direction, and no attributes. It takes no memory. Nobody who does not know
    /// the keys can make `admit` and `push` slow by a choice of attributes; with none, whoever knows the program can.
    pub fn new(alloc: Global, keys: Option<RandomState>) -> Self
        ensures messages { IsQuiet result }
        ensures spare { (from to : Addr) → spare_at result from to ≡ 0 }
        ensures admitted { result.admitted ≡ [] }
    {
        Queues {
            queues: NumberedQueues::new(alloc),
            pool: Pool::new(alloc, keys),
        }
    }

    /// Sees to it that the direction can take n more messages. It takes memory only where fewer
    /// are spare: where n are, it changes nothing and cannot fail. An error changes nothing.
    pub fn reserve(&mut self, from: Addr, to: Addr, n: usize) -> Result<(), AllocError>
        ensures spare { OnOk result (spare_at self.new from to ≡ max n (spare_at self.old from to)) }
        ensures queue { queue_at self.new from to ≡ queue_at self.old from to }
        ensures others { KeepsOthers from to self.old self.new }
        ensures admitted { self.new.admitted ≡ self.old.admitted }
        ensures enough { n ≤ spare_at self.old from to → self.new ≡ self.old }
        ensures short { OnErr result (spare_at self.old from to < n) }
        ensures err { OnErr result (self.new ≡ self.old) }
    {
        self.queues.reserve(from, to, n)
    }

    /// Sees to it that an update may have these attributes: a copy of new ones is kept. The error is want of memory,
    /// for new ones alone, and changes nothing.
    pub fn admit(&mut self, attr: &SharedAttr) -> Result<(), AllocError>
        ensures admitted { OnOk result (self.new.admitted ≡ with_attr self.old.admitted attr.now) }
        ensures ok { OnOk result (has_attr self.new.admitted attr.now ≡ true) }
        ensures keeps { KeepsAdmitted self.old self.new }
        ensures queue { (from to : Addr) → queue_at self.new from to ≡ queue_at self.old from to }
        ensures spare { (from to : Addr) → spare_at self.new from to ≡ spare_at self.old from to }
        ensures absent { OnErr result (has_attr self.old.admitted attr.now ≡ false) }
        ensures err { OnErr result (self.new ≡ self.old) }
    {
        if self.pool.is_last(attr.attr()) {
            return Ok(());
        }
        match attr.share() {
            Ok(copy) => self.admit_own(copy),
            // 2^63 owners share them: what is there wants no copy.
            Err(_) if self.pool.has(attr.attr()) => Ok(()),
            Err(fault) => Err(fault),
        }
    }

    /// The same, of attributes that are handed over.
    fn admit_own(&mut self, attr: SharedAttr) -> Result<(), AllocError>
        ensures admitted { OnOk result (self.new.admitted ≡ with_attr self.old.admitted attr) }
        ensures ok { OnOk result (has_attr self.new.admitted attr ≡ true) }
        ensures keeps { KeepsAdmitted self.old self.new }
        ensures queue { (from to : Addr) → queue_at self.new from to ≡ queue_at self.old from to }
        ensures spare { (from to : Addr) → spare_at self.new from to ≡ spare_at self.old from to }
        ensures absent { OnErr result (has_attr self.old.admitted attr ≡ false) }
        ensures err { OnErr result (self.new ≡ self.old) }
    {
        match self.number_of(attr) {
            Ok(_id) => Ok(()),
            Err(fault) => Err(fault),
        }
    }

    /// The number of these attributes, which come to be admitted.
    fn number_of(&mut self, attr: SharedAttr) -> Result<AttrId, AllocError>
        ensures number { IfOk result (λ id. slice_get self.new.admitted id ≡ Some attr) }
        ensures admitted { OnOk result (self.new.admitted ≡ with_attr self.old.admitted attr) }
        ensures ok { OnOk result (has_attr self.new.admitted attr ≡ true) }
        ensures keeps { KeepsAdmitted self.old self.new }
        ensures queue { (from to : Addr) → queue_at self.new from to ≡ queue_at self.old from to }
        ensures spare { (from to : Addr) → spare_at self.new from to ≡ spare_at self.old from to }
        ensures absent { OnErr result (has_attr self.old.admitted attr ≡ false) }
        ensures err { OnErr result (self.new ≡ self.old) }
    {
        match self.pool.intern(attr) {
            Ok(id) => return Ok(id),
            Err(refused) => {
                drop(refused);
                return Err(AllocError);
            }
        }
    }

    /// Adds a message at the end of the direction's queue. It takes no memory: one fewer is spare then.
    pub fn push(&mut self, from: Addr, to: Addr, message: Message)
        requires room { 0 < spare_at self.old from to }
        requires admitted { IsAdmitted self.old message }
        ensures queue { queue_at self.new from to ≡ queue_at self.old from to ++ message ∷ [] }
        ensures spare { spare_at self.new from to + 1 ≡ spare_at self.old from to }
        ensures others { KeepsOthers from to self.old self.new }
        ensures admitted { self.new.admitted ≡ self.old.admitted }
    {
        let numbered = numbered_in(&mut self.pool, message);
        self.queues.push(from, to, numbered);
    }

    /// Adds a message at the end of the direction's queue, with the memory that this takes: its attributes come to be
    /// admitted, and it gets a place, a spare one where there is one. An error, which is want of memory, changes no
    /// queue and no spare memory; the attributes may have come to be admitted.
    pub fn put(&mut self, from: Addr, to: Addr, message: Message) -> Result<(), AllocError>
        ensures queue { OnOk result (queue_at self.new from to ≡ queue_at self.old from to ++ message ∷ []) }
        ensures spare { OnOk result (spare_at self.new from to + 1 ≡ max 1 (spare_at self.old from to)) }
        ensures admitted { OnOk result (self.new.admitted ≡ admitted_with self.old message) }
        ensures same { OnErr result (queue_at self.new from to ≡ queue_at self.old from to) }
        ensures same_spare { OnErr result (spare_at self.new from to ≡ spare_at self.old from to) }
        ensures at_most { OnErr result ((self.new.admitted ≡ self.old.admitted)
            ⊎ (self.new.admitted ≡ admitted_with self.old message)) }
        ensures others { KeepsOthers from to self.old self.new }
        ensures keeps { KeepsAdmitted self.old self.new }
    {
        let numbered = self.number(message)?;
        self.put_numbered(from, to, numbered)?;
        Ok(())
    }

    /// The message by its number: its attributes come to be admitted. The error is want of memory, and changes nothing.
    fn number(&mut self, message: Message) -> Result<Numbered, AllocError>
        ensures message { IfOk result (λ n. message_by self.new.admitted n ≡ message) }
        ensures given { IfOk result (IsGiven self.new.admitted) }
        ensures admitted { OnOk result (self.new.admitted ≡ admitted_with self.old message) }
        ensures err { OnErr result (self.new.admitted ≡ self.old.admitted) }
        ensures keeps { KeepsAdmitted self.old self.new }
        ensures queue { (from to : Addr) → queue_at self.new from to ≡ queue_at self.old from to }
        ensures spare { (from to : Addr) → spare_at self.new from to ≡ spare_at self.old from to }
    {
        match message {
            Message::Update(prefix, attr) => Ok(Numbered::Update(prefix, self.number_of(attr)?)),
            Message::Withdraw(prefix) => Ok(Numbered::Withdraw(prefix)),
        }
    }

    /// Adds a numbered message at the end of the direction's queue, with the memory that this takes. An error changes
    /// nothing.
    fn put_numbered(&mut self, from: Addr, to: Addr, numbered: Numbered) -> Result<(), AllocError>
        requires { IsGiven self.old.admitted numbered }
        ensures queue { OnOk result (queue_at self.new from to ≡
            queue_at self.old from to ++ message_by self.old.admitted numbered ∷ []) }
        ensures spare { OnOk result (spare_at self.new from to + 1 ≡ max 1 (spare_at self.old from to)) }
        ensures others { KeepsOthers from to self.old self.new }
        ensures admitted { self.new.admitted ≡ self.old.admitted }
        ensures err { OnErr result (self.new ≡ self.old) }
    {
        self.queues.put(from, to, numbered)
    }

    /// How many messages are on their way in the direction.
    pub fn len(&self, from: Addr, to: Addr) -> usize
        ensures { result ≡ length (queue_at self.now from to) }
    {
        self.queues.len(from, to)
    }

    /// The message at the position of the direction's queue, the head's being 0. Each is found at once, however far
    /// behind.
    pub fn at(&self, from: Addr, to: Addr, n: usize) -> Option<View<'_>>
        ensures { option_map message_of result ≡ slice_get (queue_at self.now from to) n }
    {
        let message = self.queues.at(from, to, n)?;
        Some(View::by(&self.pool, message))
    }

    /// The head of the direction's queue.
    pub fn head(&self, from: Addr, to: Addr) -> Option<View<'_>>
        ensures { option_map message_of result ≡ slice_get (queue_at self.now from to) 0 }
    {
        self.at(from, to, 0)
    }

    /// Removes the head of the direction's queue, if there is one, and says whether there was.
    pub fn pop(&mut self, from: Addr, to: Addr) -> bool
        ensures had { IsTrue result ↔ (0 < length (queue_at self.old from to)) }
        ensures queue { queue_at self.new from to ≡ drop 1 (queue_at self.old from to) }
        ensures spare { spare_at self.new from to ≡ spare_at self.old from to }
        ensures others { KeepsOthers from to self.old self.new }
        ensures admitted { self.new.admitted ≡ self.old.admitted }
    {
        self.queues.pop(from, to)
    }

    /// Removes all messages of the direction.
    pub fn clear(&mut self, from: Addr, to: Addr)
        ensures queue { queue_at self.new from to ≡ [] }
        ensures spare { spare_at self.new from to ≡ spare_at self.old from to }
        ensures others { KeepsOthers from to self.old self.new }
        ensures admitted { self.new.admitted ≡ self.old.admitted }
    {
        self.queues.clear(from, to);
    }

    /// Whether no message is on its way in any direction.
    pub fn all_empty(&self) -> bool
        ensures { IsTrue result ↔ IsQuiet self.now }
    {
        self.queues.all_empty()
    }

    /// The next direction with a message, by sender, then by receiver: the first of all, or the first past the one
    /// that is given.
    pub fn next_full(&self, past: Option<(Addr, Addr)>) -> Option<(Addr, Addr)>
        ensures full { IfSome result (λ found. 0 < length (queue_at self.now found.0 found.1)) }
        ensures past { IfSome result (IsPast past) }
        ensures none_between { SkipsNone self.now past result }
    {
        self.queues.next_full(past)
    }

    /// The first direction with a message to a receiver of the shard, by sender, then by receiver. The shard of an
    /// address is its number modulo the shards.
    pub fn next_in(&self, shard: u64, shards: u64) -> Option<Direction>
        requires { shard < shards }
        ensures full { IfSome result (λ found. 0 < length (queue_at self.now found.from found.to)) }
        ensures shard { IfSome result (λ found. shard_of found.to shards ≡ shard) }
        ensures none { IfNone result ((from to : Addr) → shard_of to shards ≡ shard → queue_at self.now from to ≡ []) }
    {
        self.queues.next_in(shard, shards)
    }
}

impl Copied for Queues {
    fn copy(&self, alloc: Global) -> Result<Self, AllocError> {
        Ok(Queues {
            queues: self.queues.copy(alloc)?,
            pool: self.pool.copy(alloc)?,
        })
    }
}
