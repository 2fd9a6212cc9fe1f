//! Outcomes are committed.

ghost use Rattle.std.specs.Prelude.{◌≡◌, ◌↔◌, true, Some, None, IsTrue, IfOk, IfErr, IfSome, OnOk, OnErr};
ghost use Rattle.cell_engine.specs.Cells.{route_of};
ghost use Rattle.cell_engine.specs.State.{cell_at};
ghost use Rattle.room.specs.Jobs.{HasSite, HasVersion, IsSeenIn, head_in, outcome_of};
ghost use Rattle.room.specs.Commits.{HasHead, IsNewer, IsCommitted, AreCommitted, IsBrokenOff, IsDelivered, IsUnchanged, is_delivered, delivery_of};
ghost use Rattle.room.specs.Books.{GoesOn};

use crate::room::Room;
use crate::room::commit::{CommitFault, Committed, Newer};
use crate::room::job::{Done, Job};
use crate::room::received::first_difference;
use crate::room::seat::Seat;
use crate::room::together::Outcomes;
use call_history::Draft;
use cell_engine::{Cell, Outcome};
use net_conf::SharedSite;
use net_prefix::{Addr, Prefix};
use path_attr::{Attr, SharedAttr};
use prefix_table::PrefixTable;
use route_select::Chosen;
use seq::Copied;
use session_queue::Message;
use sim_event::Reply;
use std::alloc::{AllocError, Global};
use std::sync::ledger::Ledger;

impl<S: Chosen + Drop, T: PrefixTable<Cell<S>> + Drop, L: Ledger> Room<S, T, L> {
    /// Puts in the outcome where all that the job held is still as it was: this is the machine's own step of the
    /// delivery, the last of the history, and of the seat's notes. Else it is told what has moved, the first of
    /// version, site, head and received routes, and nothing changes. For want of memory nothing changes either, and the
    /// outcome is handed back; another version is told without memory. Nothing is decided here.
    pub fn commit(&mut self, seat: &mut Seat<L>, done: Done<S>) -> Result<Committed, CommitFault<S>>
        ensures committed { IfOk result (λ committed. IsCommitted self.old seat.old done committed self.new seat.new) }
        ensures back { IfErr result (λ fault. fault.done ≡ done) }
        ensures version { OnErr result (HasVersion self.old done) }
        ensures left { OnErr result (IsUnchanged self.old seat.old self.new seat.new) }
    {
        self.commit_one(seat, done, false)
    }

    /// The same. The receiver's site is not compared where it is known to be as the job had it; where the outcome is
    /// put in, it is, and stays so.
    fn commit_one(
        &mut self,
        seat: &mut Seat<L>,
        done: Done<S>,
        is_site_known: bool,
    ) -> Result<Committed, CommitFault<S>>
        requires { is_site_known ≡ true → HasSite self.old done }
        ensures committed { IfOk result (λ committed. IsCommitted self.old seat.old done committed self.new seat.new) }
        ensures site { IfOk result (λ committed. is_delivered committed ≡ true → HasSite self.new done) }
        ensures back { IfErr result (λ fault. fault.done ≡ done) }
        ensures version { OnErr result (HasVersion self.old done) }
        ensures left { OnErr result (IsUnchanged self.old seat.old self.new seat.new) }
    {
        match self.newer(&done, is_site_known) {
            Ok(Some(newer)) => {
                drop(done);
                Ok(Committed::Stale(newer))
            }
            Ok(None) => self.put_in(seat, done),
            Err(_) => Err(CommitFault { done }),
        }
    }

    /// Puts in the outcome, all that its job held being as it was.
    fn put_in(&mut self, seat: &mut Seat<L>, done: Done<S>) -> Result<Committed, CommitFault<S>>
        requires { IsSeenIn self.old done }
        ensures committed { IfOk result (λ committed. IsCommitted self.old seat.old done committed self.new seat.new) }
        ensures conf { self.new.engine.conf ≡ self.old.engine.conf }
        ensures back { IfErr result (λ fault. fault.done ≡ done) }
        ensures left { OnErr result (IsUnchanged self.old seat.old self.new seat.new) }
    {
        let Done { job, site, outcome } = done;
        match self.install_outcome(seat, &job, outcome) {
            Ok(reply) => {
                drop((job, site));
                Ok(Committed::Delivered(reply))
            }
            Err(outcome) => Err(CommitFault {
                done: Done { job, site, outcome },
            }),
        }
    }

    /// Puts in each outcome in turn, as `commit` does: one that came too late is let go. At the first for which there
    /// is no memory it stops, and the outcomes that are left are let go. The site of a receiver is compared once for
    /// all that come one after another.
    pub fn commit_all(
        &mut self,
        seat: &mut Seat<L>,
        outcomes: Outcomes<S>,
    ) -> Result<(), AllocError>
        ensures committed { OnOk result (AreCommitted self.old seat.old outcomes self.new seat.new) }
        ensures broken_off { OnErr result (IsBrokenOff self.old seat.old outcomes self.new seat.new) }
        ensures seat { GoesOn seat.old seat.new }
    {
        let mut known = None;
        for done in outcomes.into_vec() {
            let receiver = done.ends().1;
            let is_known = is_receiver(known, receiver);
            let committed = match self.commit_one(seat, done, is_known) {
                Ok(committed) => committed,
                Err(fault) => {
                    drop(fault);
                    return Err(AllocError);
                }
            };
            let is_same = is_delivered(&committed);
            drop(committed);
            known = if is_same { Some(receiver) } else { None };
        }
        Ok(())
    }

    /// What has moved since the job was taken. The site is not compared where it is known to be the same.
    fn newer(&self, done: &Done<S>, is_site_known: bool) -> Result<Option<Newer>, AllocError>
        requires { is_site_known ≡ true → HasSite self.now done.now }
        ensures newer { IfOk result (λ found. IfSome found (IsNewer self.now done.now)) }
        ensures none { IfOk result (λ found. found ≡ None → IsSeenIn self.now done.now) }
        ensures version { OnErr result (HasVersion self.now done.now) }
    {
        let job = &done.job;
        if job.version != self.version {
            return Ok(Some(Newer::ConfMoved {
                had: job.version,
                now: self.version,
            }));
        }
        if is_site_known {
            return self.newer_delivery(job);
        }
        if let Some(newer) = self.newer_site(done)? {
            return Ok(Some(newer));
        }
        self.newer_delivery(job)
    }

    /// Whether the message or what the receiver has received is another, where version and site are as the job had
    /// them.
    fn newer_delivery(&self, job: &Job<S>) -> Result<Option<Newer>, AllocError>
        requires version { HasVersion self.now job.now }
        requires site { HasSite self.now job.now }
        ensures newer { IfOk result (λ found. IfSome found (IsNewer self.now job.now)) }
        ensures none { IfOk result (λ found. found ≡ None → IsSeenIn self.now job.now) }
    {
        if let Some(newer) = self.newer_head(job)? {
            return Ok(Some(newer));
        }
        self.newer_route(job)
    }

    /// Whether the receiver's site is another, where the version is as the job had it.
    fn newer_site(&self, done: &Done<S>) -> Result<Option<Newer>, AllocError>
        requires version { HasVersion self.now done.now }
        ensures newer { IfOk result (λ found. IfSome found (IsNewer self.now done.now)) }
        ensures none { IfOk result (λ found. found ≡ None → HasSite self.now done.now) }
    {
        let conf = self.sim.state().conf();
        let now = conf.shared_site(self.alloc, done.ends().1)?;
        if is_same_site(&done.site, &now) {
            drop(now);
            return Ok(None);
        }
        let Ok(had) = share_site(self.alloc, &done.site) else {
            drop(now);
            return Err(AllocError);
        };
        Ok(Some(Newer::SiteMoved { had, now }))
    }

    /// Whether another message is at the head of the queue, or none, where version and site are as the job had them.
    fn newer_head(&self, job: &Job<S>) -> Result<Option<Newer>, AllocError>
        requires version { HasVersion self.now job.now }
        requires site { HasSite self.now job.now }
        ensures newer { IfOk result (λ found. IfSome found (IsNewer self.now job.now)) }
        ensures none { IfOk result (λ found. found ≡ None → HasHead self.now job.now) }
    {
        let now = self.head_of(job)?;
        if is_same_head(&job.head, &now) {
            drop(now);
            return Ok(None);
        }
        let Ok(had) = job.head.copy(self.alloc) else {
            drop(now);
            return Err(AllocError);
        };
        Ok(Some(Newer::HeadMoved {
            had: Some(had),
            now,
        }))
    }

    /// Whether the receiver has received another route from a peer, where all else is as the job had it.
    fn newer_route(&self, job: &Job<S>) -> Result<Option<Newer>, AllocError>
        requires version { HasVersion self.now job.now }
        requires site { HasSite self.now job.now }
        requires head { HasHead self.now job.now }
        ensures newer { IfOk result (λ found. IfSome found (IsNewer self.now job.now)) }
        ensures none { IfOk result (λ found. found ≡ None → IsSeenIn self.now job.now) }
    {
        self.engine_facts();
        let had = job.received();
        let now = self.received_at(job.direction.to, job.head.prefix());
        let Some(peer) = first_difference(had, now) else {
            return Ok(None);
        };
        Ok(Some(Newer::CellMoved {
            peer,
            had: route_of(had, peer)?,
            now: route_of(now, peer)?,
        }))
    }

    /// What the router has received of the prefix.
    fn received_at(&self, router: Addr, prefix: Prefix) -> &[(Addr, SharedAttr)]
        ensures { result.now ≡ (cell_at router prefix self.now.engine.tables).received }
    {
        match self.sim.state().cell(router, prefix) {
            Some(cell) => cell.received(),
            None => &[],
        }
    }

    /// The message at the head of the job's queue.
    fn head_of(&self, job: &Job<S>) -> Result<Option<Message>, AllocError>
        ensures { IfOk result (λ head. head ≡ head_in self.now job.now.direction) }
    {
        let queues = self.sim.state().queues();
        match queues.head(job.direction.from, job.direction.to) {
            Some(head) => Ok(Some(head.to_message()?)),
            None => Ok(None),
        }
    }

    /// Puts in an outcome that was made from what is in the room.
    fn install_outcome(
        &mut self,
        seat: &mut Seat<L>,
        job: &Job<S>,
        outcome: Outcome<S>,
    ) -> Result<Reply, Outcome<S>>
        requires seen { IsSeenIn self.old job.now }
        requires outcome { outcome ≡ outcome_of job.now }
        ensures delivered { IfOk result (λ reply.
            IsDelivered self.old seat.old (delivery_of job.now) reply self.new seat.new) }
        ensures conf { self.new.engine.conf ≡ self.old.engine.conf }
        ensures back { IfErr result (λ back. back ≡ outcome) }
        ensures left { OnErr result (IsUnchanged self.old seat.old self.new seat.new) }
    {
        self.engine_facts();
        if self.history.make_space(&mut seat.notes).is_err() {
            return Err(outcome);
        }
        let direction = job.direction();
        let draft = Draft::of_delivery(seat.number, direction, job.head());
        let reply = match self.sim.install(direction, outcome) {
            Ok(reply) => reply,
            Err(outcome) => {
                drop(draft);
                return Err(outcome);
            }
        };
        self.history.write(&mut seat.notes, draft);
        self.book.add(&mut seat.share, 1);
        seat.count += 1;
        Ok(reply)
    }
}

/// Whether it is that receiver.
fn is_receiver(known: Option<Addr>, receiver: Addr) -> bool
    ensures { result ≡ true → known ≡ Some receiver }
{
    known == Some(receiver)
}

/// Whether the outcome was put in.
fn is_delivered(committed: &Committed) -> bool
    ensures { result ≡ is_delivered committed.now }
{
    matches!(committed, Committed::Delivered(_))
}

/// Whether both sites are the same.
fn is_same_site(had: &Option<SharedSite>, now: &Option<SharedSite>) -> bool
    ensures { IsTrue result ↔ (had.now ≡ now.now) }
{
    match (had, now) {
        (None, None) => true,
        (Some(had), Some(now)) => had.get().is_same(now.get()),
        _ => false,
    }
}

/// One owner more of the site.
fn share_site(alloc: Global, site: &Option<SharedSite>) -> Result<Option<SharedSite>, AllocError>
    ensures { IfOk result (λ shared. shared ≡ site.now) }
{
    match site {
        Some(site) => Ok(Some(site.copy(alloc)?)),
        None => Ok(None),
    }
}

/// Whether the message is at the head.
fn is_same_head(had: &Message, now: &Option<Message>) -> bool
    ensures { IsTrue result ↔ (now.now ≡ Some had.now) }
{
    match now {
        Some(now) => had.is_same(now),
        None => false,
    }
}

/// The route from the peer.
fn route_of(routes: &[(Addr, SharedAttr)], peer: Addr) -> Result<Option<Attr>, AllocError>
    ensures { IfOk result (λ route. route ≡ route_of routes.now peer) }
{
    for route in routes {
        if peer.cmp(&route.0).is_eq() {
            return Ok(Some(route.1.attr().share()?));
        }
    }
    Ok(None)
}
