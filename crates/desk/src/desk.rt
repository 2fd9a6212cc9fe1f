//! The desk: a room under one lock.

ghost use Rattle.std.specs.Prelude.{◌≡◌, ◌<◌, ◌≤◌, false, None, All, length, max, IfOk, IfErr, IfSome, OnOk, OnErr};
ghost use Rattle.room.specs.Books.{blank_seats, is_memory, noted};
ghost use Rattle.room.specs.Jobs.{IsOfShard};
ghost use Rattle.scheduler.specs.Shards.{AreShards};
ghost use Rattle.desk.specs.Desks.{AreSeats, IsDeskLedger, IsOpenFault, IsReplied, IsTaken, IsWithout, IsNoted, IsUnlike, IsSeatAfter, IsSeatAfterAll, IsSeatAfterFirst};

use crate::effort::are_much_work;
use crate::guarded::Guarded;
use cell_engine::Cell;
use net_prefix::Addr;
use prefix_table::PrefixTable;
use room::{Audit, CommitFault, Committed, Done, Job, Jobs, Outcomes, Progress, Room, Seat};
use route_select::{Chosen, Selector};
use scheduler::{Backoff, Receivers, Scheduler, Workers};
use sim_event::{Event, Reply};
use std::alloc::{AllocError, Global};
use std::hash::RandomState;
use std::marker::Model;
use std::sync::ledger::{Blank, Ledger};
use std::sync::{Mutex, MutexGuard, Wait};
use std::thread::Threads;
use thiserror::Error;

/// The most seats of a desk.
pub const MAX_SEATS: u16 = 256;

/// The most shards of a desk.
pub const MAX_SHARDS: u64 = 64;

/// Why a desk is not opened. No contract says what `Display` writes.
#[derive(Clone, Copy, Debug, PartialEq, Eq, Error)]
pub enum OpenFault {
    /// There are to be no seats, or more than 256.
    #[error("a desk has 1 to {most} seats", most = MAX_SEATS)]
    Seats,
    /// There are to be no shards, or more than 64.
    #[error("a desk has 1 to {most} shards", most = MAX_SHARDS)]
    Shards,
    /// There is no memory.
    #[error("out of memory")]
    Memory,
}

/// A room under one lock, at which several work: engineers make calls, and workers take jobs, each of the receivers of
/// one shard. Contracts see how many shards there are. What is under the lock is known by what holds of every room: its
/// history is legal.
#[derive(Drop)]
pub struct Desk<S: Chosen, T: PrefixTable<Cell<S>>, L: Ledger> {
    alloc: Global,
    guarded: Mutex<Guarded<S, T, L>>,
    scheduler: Scheduler,
}

impl<S: Chosen, T: PrefixTable<Cell<S>>, L: Ledger> Model for Desk<S, T, L> {
    ghost use Rattle.desk.specs.Desks.{DeskBook};

    ghost Value = { DeskBook };

    ghost view = { λ d. record { shards = d.scheduler } };
}

/// Why a worker gets no jobs.
#[derive(Clone, Copy)]
pub(crate) enum NoJobs {
    /// In this turn: there was no memory for one, or none waited though the engineers have finished.
    ThisTurn,
    /// Any more: the engineers have finished, and no message waits, or nobody is left who could bring one.
    AnyMore,
}

impl<S: Chosen, T: PrefixTable<Cell<S>>, L: Ledger> Desk<S, T, L> {
    /// A desk of an empty room, its machine under these keys, with its seats, by number, and so many shards: 1 to 256
    /// seats, and 1 to 64 shards.
    pub fn open(
        alloc: Global,
        keys: Option<RandomState>,
        seats: u16,
        shards: u64,
        blank: Blank,
    ) -> Result<(Self, Vec<Seat<L>>), OpenFault>
        requires ledger { IsDeskLedger blank.name blank.parts L.name L.parts }
        ensures seats { IfOk result (λ made. made.1.items ≡ blank_seats seats) }
        ensures shards { IfOk result (λ made. made.0.shards ≡ shards) }
        ensures allowed { OnOk result (AreSeats seats × AreShards shards) }
        ensures fault { IfErr result (IsOpenFault seats shards) }
    {
        if seats < 1 || seats > MAX_SEATS {
            return Err(OpenFault::Seats);
        }
        if shards < 1 || shards > MAX_SHARDS {
            return Err(OpenFault::Shards);
        }
        let Ok(scheduler) = Scheduler::new(alloc, shards) else {
            return Err(OpenFault::Memory);
        };
        match Guarded::new(alloc, keys, seats, shards, blank) {
            Ok((guarded, all)) => {
                let desk = Desk {
                    alloc,
                    guarded: Mutex::new(guarded),
                    scheduler,
                };
                Ok((desk, all))
            }
            Err(_) => Err(OpenFault::Memory),
        }
    }

    /// How many shards there are: 1 to 64.
    pub fn shards(&self) -> u64
        ensures shards { result ≡ self.now.shards }
        ensures allowed { AreShards result }
    {
        self.scheduler.shards()
    }

    /// Where memory comes from.
    pub(crate) fn alloc(&self) -> Global {
        self.alloc
    }

    /// Whether the seat's notes are its calls in the history, which is legal.
    pub fn audit<R: Wait>(&self, rt: &R, seat: &Seat<L>) -> Audit
        ensures agrees { result ≡ Audit.Agrees → IsNoted seat.now }
        ensures differs { result ≡ Audit.Differs → IsUnlike seat.now }
    {
        self.guarded.lock(rt).audit(seat)
    }

    /// How far the room is, for people to read.
    pub fn progress<R: Wait>(&self, rt: &R) -> Progress {
        self.guarded.lock(rt).progress()
    }

    /// Tells the workers that no more calls come: they end once no message waits.
    pub fn finish_calls<R: Wait>(&self, rt: &R) {
        let mut guarded = self.guarded.lock(rt);
        self.scheduler.finish(&mut guarded.workers);
        self.wake_at_end(&mut guarded);
    }

    /// The room, once nobody is at the desk.
    pub fn end(self) -> Room<S, T, L> {
        self.guarded.into_inner().into_room()
    }

    /// So many workers come. Each leaves once. Whether their gate may hold one of them until another has gone on.
    pub(crate) fn enter<R: Wait>(&self, rt: &R, workers: usize, may_hold: bool) {
        let mut guarded = self.guarded.lock(rt);
        guarded.workers.enter(workers, may_hold);
    }

    /// A worker leaves.
    pub(crate) fn leave<R: Wait>(&self, rt: &R) {
        let mut guarded = self.guarded.lock(rt);
        self.scheduler.leave(&mut guarded.workers);
    }

    /// Takes the lock. The worker's backoff notes whether somebody else held it.
    fn lock_noted<R: Wait>(
        &self,
        rt: &R,
        backoff: &mut Backoff,
    ) -> MutexGuard<'_, Guarded<S, T, L>> {
        if let Some(guarded) = self.guarded.try_lock() {
            backoff.note_lock(false);
            return guarded;
        }
        backoff.note_lock(true);
        self.guarded.lock(rt)
    }

    /// A worker makes way for the others till it is woken, unless no other is at work.
    pub(crate) fn back_off<R: Wait>(&self, rt: &R) {
        let mut guarded = self.guarded.lock(rt);
        if !guarded.workers.back_off() {
            return;
        }
        let mut guarded = self
            .scheduler
            .backoff_ends()
            .wait_while(rt, guarded, |now| now.workers.is_none_woken());
        guarded.workers.resume();
    }

    /// Wakes the workers of one shard for whom a message may wait, or else a worker who has backed off, if there are
    /// any.
    pub(crate) fn wake_one<R: Wait>(&self, rt: &R) {
        let mut guarded = self.guarded.lock(rt);
        self.wake_next(&mut guarded);
    }

    /// Waits until no edit is asked for, and none has been for a little while.
    fn when_no_edits_follow<'a, R: Wait>(
        &'a self,
        rt: &R,
        guarded: MutexGuard<'a, Guarded<S, T, L>>,
        backoff: &mut Backoff,
    ) -> MutexGuard<'a, Guarded<S, T, L>> {
        let mut guarded = self.when_no_edit_is_asked_for(rt, guarded);
        for _ in rt.forever() {
            if !backoff.sees_edits(guarded.version()) {
                return guarded;
            }
            drop(guarded);
            self.scheduler.yield_after_edits();
            guarded = self.when_no_edit_is_asked_for(rt, self.guarded.lock(rt));
        }
        unreachable!()
    }

    /// Waits until no edit is asked for.
    fn when_no_edit_is_asked_for<'a, R: Wait>(
        &'a self,
        rt: &R,
        guarded: MutexGuard<'a, Guarded<S, T, L>>,
    ) -> MutexGuard<'a, Guarded<S, T, L>> {
        if !self.scheduler.is_edit_asked_for() {
            return guarded;
        }
        let mut guarded = guarded;
        guarded.workers.begin_to_wait_for_edits();
        let mut guarded = self
            .scheduler
            .edits_end()
            .wait_while(rt, guarded, |_| self.scheduler.is_edit_asked_for());
        guarded.workers.end_to_wait_for_edits();
        guarded
    }

    /// Waits until workers of the shard are woken.
    fn when_woken<'a, R: Wait>(
        &'a self,
        rt: &R,
        guarded: MutexGuard<'a, Guarded<S, T, L>>,
        shard: u64,
    ) -> MutexGuard<'a, Guarded<S, T, L>>
        requires { shard < self.now.shards }
    {
        let condition = self.scheduler.condition(shard);
        let mut guarded = condition.get().wait_while(
            rt,
            guarded,
            |now| now.workers.is_none_of_shard_woken(shard),
        );
        guarded.workers.resume_of_shard(shard);
        guarded
    }

    /// Makes the workers of these receivers ready: of none, while no message waits.
    fn make_ready(&self, guarded: &mut Guarded<S, T, L>, receivers: Receivers) {
        if !guarded.workers.is_somebody_idle() || guarded.is_quiet() {
            return;
        }
        match receivers {
            Receivers::Nobody => {}
            Receivers::One(receiver) => self.scheduler.make_ready(&mut guarded.workers, receiver),
            Receivers::OfSender(sender) => self.make_ready_by_sender(guarded, sender),
            Receivers::Everybody => self.make_all_ready(guarded),
        }
    }

    /// Makes all ready. Where nobody is at work, the workers of the first shard for which a message waits are woken.
    fn make_all_ready(&self, guarded: &mut Guarded<S, T, L>) {
        let shards = self.scheduler.shards();
        for shard in 0..shards {
            if !guarded.workers.is_idle(shard) {
                continue;
            }
            if guarded.workers.is_nobody_at_work() && !guarded.has_message(shard, shards) {
                continue;
            }
            self.scheduler.make_shard_ready(&mut guarded.workers, shard);
        }
    }

    /// Wakes the workers of one shard who are ready, and for whom a message waits, or else a worker who has backed off,
    /// if there are any.
    fn wake_next(&self, guarded: &mut Guarded<S, T, L>) {
        self.make_idle(guarded);
        self.scheduler.wake_one(&mut guarded.workers);
    }

    /// Up to the first shard that is ready and for which a message waits, those who are ready are idle again.
    fn make_idle(&self, guarded: &mut Guarded<S, T, L>) {
        let shards = self.scheduler.shards();
        for shard in 0..shards {
            if !guarded.workers.is_ready(shard) {
                continue;
            }
            if guarded.has_message(shard, shards) {
                return;
            }
            guarded.workers.make_idle(shard);
        }
    }

    /// Makes the workers ready for whose receivers a message waits from the sender.
    fn make_ready_by_sender(&self, guarded: &mut Guarded<S, T, L>, sender: Addr) {
        let mut past = last_before(sender);
        for _ in 0..u64::MAX {
            match guarded.next_full(past) {
                Some((from, to)) if from == sender => {
                    self.scheduler.make_ready(&mut guarded.workers, to);
                    past = Some((from, to));
                }
                _ => return,
            }
        }
    }

    /// Makes the workers ready for whose receivers a message is sent where the outcome is put in.
    fn make_ready_by_outcome(&self, workers: &mut Workers, done: &Done<S>) {
        for (receiver, _) in &done.outcome().sends {
            self.scheduler.make_ready(workers, *receiver);
        }
    }

    /// The same of several outcomes.
    fn make_ready_by_outcomes(&self, workers: &mut Workers, outcomes: &Outcomes<S>) {
        if !workers.can_be_made_ready() {
            return;
        }
        for done in outcomes.as_slice() {
            self.make_ready_by_outcome(workers, done);
        }
    }

    /// Wakes all once they may end: no calls come, and no message waits.
    fn wake_at_end(&self, guarded: &mut Guarded<S, T, L>) {
        if guarded.workers.is_finished() && guarded.is_quiet() {
            self.scheduler.wake_all(&mut guarded.workers);
        }
    }
}

impl<S: Selector + Send + Sync + Drop, T: PrefixTable<Cell<S>> + Drop, L: Ledger> Desk<S, T, L> {
    /// Makes a call from the seat: the reply is the machine's own, in a state that a legal history leaves, and it is
    /// the last of the seat's notes. For want of memory the reply is the refusal `Memory`, and the seat stays as it is.
    pub fn call<R: Threads + Wait + Sync>(&self, rt: &R, seat: &mut Seat<L>, event: Event) -> Reply
        ensures seat { seat.new ≡ noted seat.old event result }
        ensures reply { is_memory result ≡ false → IsReplied event result }
    {
        let receivers = Receivers::by(&event);
        let is_edit = self.scheduler.begin_call(&event);
        let mut guarded = self.guarded.lock(rt);
        let reply = guarded.call(rt, seat, event);
        self.scheduler.end_call(&guarded.workers, is_edit);
        self.make_ready(&mut guarded, receivers);
        reply
    }
}

impl<S: Chosen + Drop, T: PrefixTable<Cell<S>> + Drop, L: Ledger> Desk<S, T, L> {
    /// Puts in an outcome where all that its job held is still as it was: this is the machine's own step of the
    /// delivery, in a state that a legal history leaves, and the last of the seat's notes. Else it is told what has
    /// moved, and the seat stays as it is. For want of memory the outcome is handed back. Nothing is decided here.
    pub fn commit<R: Wait>(
        &self,
        rt: &R,
        seat: &mut Seat<L>,
        done: Done<S>,
    ) -> Result<Committed, CommitFault<S>>
        ensures committed { IfOk result (λ committed. IsSeatAfter seat.old done committed seat.new) }
        ensures back { IfErr result (λ fault. fault.done ≡ done) }
        ensures seat { OnErr result (seat.new ≡ seat.old) }
    {
        let mut guarded = self.guarded.lock(rt);
        self.make_ready_by_outcome(&mut guarded.workers, &done);
        let committed = guarded.commit(seat, done);
        self.wake_at_end(&mut guarded);
        committed
    }

    /// Puts in each outcome in turn, as `commit` does: one that came too late is let go. For want of memory it stops,
    /// and those that are left are let go.
    pub(crate) fn commit_all<R: Wait>(
        &self,
        rt: &R,
        seat: &mut Seat<L>,
        outcomes: Outcomes<S>,
        backoff: &mut Backoff,
    ) -> Result<(), AllocError>
        ensures committed { OnOk result (IsSeatAfterAll seat.old outcomes seat.new) }
        ensures broken_off { OnErr result (IsSeatAfterFirst seat.old outcomes seat.new) }
    {
        let is_much_work = are_much_work(&outcomes);
        let mut guarded = self.lock_noted(rt, backoff);
        backoff.note_work(is_much_work, guarded.workers.turns_to_a_wakeup());
        guarded.workers.note_work(is_much_work);
        self.make_ready_by_outcomes(&mut guarded.workers, &outcomes);
        let committed = guarded.commit_all(seat, outcomes);
        self.wake_at_end(&mut guarded);
        committed
    }
}

impl<S: Selector + Drop, T: PrefixTable<Cell<S>> + Drop, L: Ledger> Desk<S, T, L> {
    /// A job of the shard, as `Room::job` gives it. It does not wait for one. Want of memory is the only error.
    pub fn take<R: Wait>(&self, rt: &R, shard: u64) -> Result<Option<Job<S>>, AllocError>
        requires { shard < self.now.shards }
        ensures taken { IfOk result (λ found. IfSome found IsTaken) }
        ensures shard { IfOk result (λ found. IfSome found (IsOfShard shard self.now.shards)) }
        ensures none { IfOk result (λ found. found ≡ None → IsWithout shard self.now.shards) }
    {
        self.guarded.lock(rt).take(shard, self.scheduler.shards())
    }

    /// The next jobs of a worker of the shard: one at least, and so many at most, or one. It waits, without looking
    /// again and again, until there is something. Where it finds no job it wakes another. No job is taken while an edit
    /// is asked for, nor till a little while after.
    pub(crate) fn next_turn<R: Wait>(
        &self,
        rt: &R,
        shard: u64,
        most: usize,
        backoff: &mut Backoff,
    ) -> Result<Jobs<S>, NoJobs>
        requires { shard < self.now.shards }
        ensures shard { IfOk result (All (IsOfShard shard self.now.shards)) }
        ensures some { IfOk result (λ jobs. 0 < length jobs) }
        ensures most { IfOk result (λ jobs. length jobs ≤ max most 1) }
    {
        let mut guarded = self.lock_noted(rt, backoff);
        for _ in rt.forever() {
            guarded = self.when_no_edits_follow(rt, guarded, backoff);
            if let Some(jobs) = self.jobs_now(&mut guarded, shard, most)? {
                return Ok(jobs);
            }
            let is_finished = guarded.workers.is_finished();
            backoff.reset();
            guarded = self.when_woken(rt, guarded, shard);
            if is_finished {
                return Err(NoJobs::ThisTurn);
            }
        }
        unreachable!()
    }

    /// The jobs of the shard that there are now, so many at most, or one. Where there is none, its worker is idle from
    /// now on, and another is woken; or there will be no more.
    fn jobs_now(
        &self,
        guarded: &mut Guarded<S, T, L>,
        shard: u64,
        most: usize,
    ) -> Result<Option<Jobs<S>>, NoJobs>
        requires { shard < self.now.shards }
        ensures shard { IfOk result (λ found. IfSome found (All (IsOfShard shard self.now.shards))) }
        ensures some { IfOk result (λ found. IfSome found (λ jobs. 0 < length jobs)) }
        ensures most { IfOk result (λ found. IfSome found (λ jobs. length jobs ≤ max most 1)) }
    {
        let Ok(jobs) = guarded.jobs(shard, self.scheduler.shards(), most) else {
            return Err(NoJobs::ThisTurn);
        };
        if !jobs.is_empty() {
            return Ok(Some(jobs));
        }
        drop(jobs);
        self.make_idle(guarded);
        self.scheduler.add_idle(&mut guarded.workers, shard);
        if guarded.workers.is_over(guarded.is_quiet()) {
            guarded.workers.remove_idle(shard);
            return Err(NoJobs::AnyMore);
        }
        Ok(None)
    }
}

/// The last direction before those of the sender. None before the first.
fn last_before(sender: Addr) -> Option<(Addr, Addr)> {
    match sender.0.checked_sub(1) {
        Some(before) => Some((Addr(before), Addr(u32::MAX))),
        None => None,
    }
}
