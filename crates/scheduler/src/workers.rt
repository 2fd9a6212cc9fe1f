//! The workers at a desk, and who of them waits. They lie under the lock.

ghost use Rattle.std.specs.Prelude.{◌≡◌, ◌<◌, ◌||◌, ◌&&◌, ◌==◌, true, false, nat_lt, IsTrue, IsFalse, IfOk};
ghost use Rattle.std.specs.List.{list_any};
ghost use Rattle.scheduler.specs.Counts.{is_idle, is_ready};
ghost use Rattle.scheduler.specs.Waiting.{no_workers, with_waits, wakes_at_once, made_ready, is_over, wait_at, come, becomes_idle, goes_on, is_in_vain, wakes_one, wakes_all, wakes_everybody, woken_by, backs_off, leaves, runs, resumes, IsWatched};

use crate::waits::{Waits, Woken};
use std::alloc::{AllocError, Global};
use std::marker::Model;

/// The workers at the desk, and who of them waits. It lies under the lock. Contracts see counts. Nobody sleeps
/// unwatched.
#[derive(Drop)]
pub struct Workers {
    /// Whether the engineers make no more calls.
    is_finished: bool,
    waits: Waits,
    /// How many workers wait until no edit is asked for.
    waiting_for_edits: u64,
    /// Whether a gate may hold one worker until another has gone on.
    may_be_held: bool,
    /// Whether the last outcomes were much work.
    is_much_work: bool,
}

impl Model for Workers {
    ghost use Rattle.scheduler.specs.Waiting.{WorkersBook, IsWatched};

    ghost Value = { WorkersBook };

    ghost view = { λ w. record {
      is_finished = w.is_finished;
      waits = w.waits;
      may_be_held = w.may_be_held;
      is_much_work = w.is_much_work;
    } };

    ghost invariant = { λ w. IsWatched w.waits };
}

impl Workers {
    /// Nobody is there, of any of so many shards.
    pub fn new(alloc: Global, shards: u64) -> Result<Self, AllocError>
        ensures { IfOk result (λ made. made ≡ no_workers shards) }
    {
        Ok(Workers {
            is_finished: false,
            waits: Waits::new(alloc, shards)?,
            waiting_for_edits: 0,
            may_be_held: false,
            is_much_work: false,
        })
    }

    /// So many workers come. Each leaves once. Whether their gate may hold one of them until another has gone on.
    pub fn enter(&mut self, workers: usize, may_hold: bool)
        ensures { self.new ≡ record (with_waits (come workers) self.old) {
          may_be_held = self.old.may_be_held || may_hold;
        } }
    {
        self.waits.add(workers as u64);
        self.may_be_held = self.may_be_held || may_hold;
    }

    /// Whether the engineers make no more calls.
    pub fn is_finished(&self) -> bool
        ensures { result ≡ self.now.is_finished }
    {
        self.is_finished
    }

    /// Whether the engineers have finished, and no message waits, or all workers are idle.
    pub fn is_over(&self, is_quiet: bool) -> bool
        ensures { result ≡ is_over is_quiet self.now }
    {
        self.is_finished && (is_quiet || self.waits.at_work() == 0)
    }

    /// Whether some workers are idle.
    pub fn is_somebody_idle(&self) -> bool
        ensures { result ≡ list_any is_idle self.now.waits.shards }
    {
        self.waits.shards().is_somebody_idle()
    }

    /// Whether workers of the shard are idle.
    pub fn is_idle(&self, shard: u64) -> bool
        ensures { result ≡ is_idle (wait_at shard self.now) }
    {
        self.waits.shards().is_idle(shard)
    }

    /// Whether it changes anything to make a shard ready: somebody is idle, or has been ready before and is to be woken
    /// at once.
    pub fn can_be_made_ready(&self) -> bool
        ensures { result ≡ (list_any is_idle self.now.waits.shards ||
            (list_any is_ready self.now.waits.shards && wakes_at_once self.now)) }
    {
        let shards = self.waits.shards();
        shards.is_somebody_idle() || (shards.is_somebody_ready() && self.wakes_at_once())
    }

    /// A worker of the shard who has found no job ends.
    pub fn remove_idle(&mut self, shard: u64)
        ensures { self.new ≡ with_waits (goes_on shard) self.old }
    {
        self.waits.remove_idle(shard);
    }

    /// Whether workers of the shard are ready, and not woken yet.
    pub fn is_ready(&self, shard: u64) -> bool
        ensures { result ≡ is_ready (wait_at shard self.now) }
    {
        self.waits.shards().is_ready(shard)
    }

    /// No message waits for the shard: its workers who are ready are idle again.
    pub fn make_idle(&mut self, shard: u64)
        ensures { self.new ≡ with_waits (is_in_vain shard) self.old }
    {
        self.waits.make_idle(shard);
    }

    /// Whether no worker of the shard who waits for a message is woken.
    pub fn is_none_of_shard_woken(&self, shard: u64) -> bool
        ensures { result ≡ ((wait_at shard self.now).woken == 0) }
    {
        self.waits.shards().is_none_woken(shard)
    }

    /// A worker of the shard who waited for a message, and was woken, runs.
    pub fn resume_of_shard(&mut self, shard: u64)
        ensures { self.new ≡ with_waits (runs shard) self.old }
    {
        self.waits.resume_of_shard(shard);
    }

    /// Whether no worker is at work: each is idle.
    pub fn is_nobody_at_work(&self) -> bool
        ensures { result ≡ (self.now.waits.at_work == 0) }
    {
        self.waits.at_work() == 0
    }

    /// Whether a worker for whom a message may wait is woken at once, and not when another finds no job, or after many
    /// turns of another.
    fn wakes_at_once(&self) -> bool
        ensures { result ≡ wakes_at_once self.now }
    {
        self.may_be_held || self.is_much_work || self.waits.at_work() == 0
    }

    /// The last outcomes were much work, or little.
    pub fn note_work(&mut self, is_much_work: bool)
        ensures { self.new ≡ record self.old { is_much_work = is_much_work } }
    {
        self.is_much_work = is_much_work;
    }

    /// After how many turns at once of little work a worker wakes another.
    pub fn turns_to_a_wakeup(&self) -> u64
        ensures { result ≡ self.now.waits.backed_off.turns_to_a_wakeup }
    {
        self.waits.backed_off().turns_to_a_wakeup()
    }

    /// One more worker backs off, unless no other is at work. Whether it does.
    pub fn back_off(&mut self) -> bool
        ensures others { result ≡ nat_lt 1 self.old.waits.at_work }
        ensures off { IsTrue result → self.new ≡ with_waits backs_off self.old }
        ensures same { IsFalse result → self.new ≡ self.old }
    {
        if self.waits.at_work() <= 1 {
            return false;
        }
        self.waits.back_off();
        true
    }

    /// Whether no worker who has backed off is woken.
    pub fn is_none_woken(&self) -> bool
        ensures { result ≡ (self.now.waits.backed_off.woken == 0) }
    {
        self.waits.backed_off().is_none_woken()
    }

    /// A worker who had backed off, and was woken, runs.
    pub fn resume(&mut self)
        ensures { self.new ≡ with_waits resumes self.old }
    {
        self.waits.resume();
    }

    /// One more worker waits until no edit is asked for.
    pub fn begin_to_wait_for_edits(&mut self)
        ensures { self.new ≡ self.old }
    {
        self.waiting_for_edits = self.waiting_for_edits.saturating_add(1);
    }

    /// It goes on.
    pub fn end_to_wait_for_edits(&mut self)
        ensures { self.new ≡ self.old }
    {
        self.waiting_for_edits = self.waiting_for_edits.saturating_sub(1);
    }

    /// Whether workers wait until no edit is asked for.
    pub(crate) fn is_somebody_waiting_for_edits(&self) -> bool {
        self.waiting_for_edits > 0
    }

    /// The engineers make no more calls: all who are idle or ready are woken.
    pub(crate) fn finish(&mut self)
        ensures { self.new ≡ record (with_waits wakes_all self.old) { is_finished = true } }
    {
        self.is_finished = true;
        self.waits.wake_all();
    }

    /// A worker leaves: all who are idle or ready are woken, and one who has backed off.
    pub(crate) fn leave(&mut self) -> Woken
        ensures { self.new ≡ with_waits leaves self.old }
    {
        self.waits.leave()
    }

    /// A worker of the shard has found no job, and wakes another who is ready, or else one who has backed off.
    pub(crate) fn add_idle(&mut self, shard: u64) -> Woken
        ensures idle { self.new ≡ with_waits (λ w. wakes_one (becomes_idle shard w)) self.old }
        ensures who { result ≡ woken_by (becomes_idle shard self.old.waits) }
    {
        self.waits.add_idle(shard);
        self.waits.wake_one()
    }

    /// Wakes the workers of one shard who are ready, or else a worker who has backed off, if there are any.
    pub(crate) fn wake_one(&mut self) -> Woken
        ensures woken { self.new ≡ with_waits wakes_one self.old }
        ensures who { result ≡ woken_by self.old.waits }
    {
        self.waits.wake_one()
    }

    /// All are woken, those too who have backed off.
    pub(crate) fn wake_everybody(&mut self)
        ensures { self.new ≡ with_waits wakes_everybody self.old }
    {
        self.waits.wake_everybody();
    }

    /// A message may wait for the shard: its workers who are idle are ready. Whether they are woken at once.
    pub(crate) fn make_ready(&mut self, shard: u64) -> bool
        ensures ready { self.new ≡ made_ready shard self.old }
        ensures woken { result ≡ wakes_at_once self.old }
    {
        let at_once = self.wakes_at_once();
        self.waits.make_ready(shard);
        if at_once {
            self.waits.wake(shard);
        }
        at_once
    }
}
