//! A job: a delivery that is decided apart from the room.

ghost use Rattle.std.specs.Prelude.{◌≡◌, IfOk, IfErr};
ghost use Rattle.std.specs.Option.{option_copied};
ghost use Rattle.cell_engine.specs.Senders.{AreInOrder};
ghost use Rattle.room.specs.Jobs.{CanDecide, outcome_of};

use cell_engine::{Cell, Outcome, deliver, store};
use net_conf::{Conf, SharedSite, SiteConf};
use net_prefix::Addr;
use path_attr::SharedAttr;
use route_select::{Chosen, Selector};
use session_queue::{Direction, Message};
use std::alloc::{AllocError, Global};
use std::marker::Model;
use std::sync::Arc;

/// What a delivery depends on, taken away from the room: the version, the message at the head of the queue, a share of
/// the configuration, and a copy of the receiver's cell of the message's prefix. Contracts see the receiver's site in
/// that configuration.
#[derive(Drop)]
pub struct Job<S: Chosen> {
    pub(super) alloc: Global,
    pub(super) direction: Direction,
    pub(super) version: u64,
    pub(super) head: Message,
    /// None where nothing was configured.
    pub(super) conf: Option<Arc<Conf>>,
    pub(super) cell: Cell<S>,
}

impl<S: Chosen> Model for Job<S> {
    ghost use Rattle.std.specs.Coded.{codes};
    ghost use Rattle.net_conf.specs.RouterSites.{router_site};
    ghost use Rattle.cell_engine.specs.CellCoding.{coded_cell};
    ghost use Rattle.cell_engine.specs.Sharing.{conf_shown};
    ghost use Rattle.room.specs.Jobs.{Job, CanDecide};

    ghost Value = { Job };

    ghost coded = { Prim.hlevel (codes, coded_cell) };

    ghost view = { λ j. record {
      direction = j.direction;
      version = j.version;
      head = j.head;
      site = router_site (conf_shown j.conf) j.direction.to;
      cell = j.cell;
    } };

    ghost invariant = { λ j.
        CanDecide (record {
          direction = j.direction;
          version = j.version;
          head = j.head;
          site = router_site (conf_shown j.conf) j.direction.to;
          cell = j.cell;
        }) };
}

/// A job that is done: what it was made from, the receiver's site, and the outcome.
#[derive(Drop)]
pub struct Done<S: Chosen> {
    pub(super) job: Job<S>,
    pub(super) site: Option<SharedSite>,
    pub(super) outcome: Outcome<S>,
}

impl<S: Chosen> Model for Done<S> {
    ghost use Rattle.std.specs.Prelude.{◌≡◌};
    ghost use Rattle.std.specs.Coded.{codes};
    ghost use Rattle.cell_engine.specs.CellCoding.{coded_cell};
    ghost use Rattle.room.specs.Jobs.{Job, outcome_of};

    ghost Value = { Job };

    ghost coded = { Prim.hlevel (codes, coded_cell) };

    ghost view = { λ d. d.job };

    ghost invariant = { λ d. (d.site ≡ d.job.site) × (d.outcome ≡ outcome_of d.job) };
}

impl<S: Chosen> Job<S> {
    /// The sender and the receiver.
    pub fn ends(&self) -> (Addr, Addr)
        ensures { result ≡ (self.now.direction.from, self.now.direction.to) }
    {
        (self.direction.from, self.direction.to)
    }
}

impl<S: Chosen> Job<S> {
    pub(super) fn direction(&self) -> Direction
        ensures { result ≡ self.now.direction }
    {
        self.direction
    }

    /// What the receiver had received of the prefix.
    pub(super) fn received(&self) -> &[(Addr, SharedAttr)]
        ensures received { result.now ≡ self.now.cell.received }
        ensures order { AreInOrder self.now.cell.received }
        ensures decided { CanDecide self.now }
    {
        self.cell.received()
    }

    pub(super) fn head(&self) -> &Message
        ensures { result.now ≡ self.now.head }
    {
        &self.head
    }
}

impl<S: Selector + Drop> Job<S> {
    /// Decides what the receiver makes of the message. It needs neither the room nor its lock. For want of memory the
    /// job is handed back.
    pub fn work(self) -> Result<Done<S>, Job<S>>
        ensures done { IfOk result (λ done. done ≡ self) }
        ensures back { IfErr result (λ job. job ≡ self) }
    {
        let Ok(site) = self.site() else {
            return Err(self);
        };
        match self.decide(&site) {
            Ok(outcome) => Ok(Done {
                job: self,
                site,
                outcome,
            }),
            Err(_) => {
                drop(site);
                Err(self)
            }
        }
    }

    /// The receiver's site. None where a virtual peer stands.
    fn site(&self) -> Result<Option<SharedSite>, AllocError>
        ensures { IfOk result (λ site. site ≡ self.now.site) }
    {
        match &self.conf {
            Some(conf) => conf.shared_site(self.alloc, self.direction.to),
            None => Ok(None),
        }
    }

    /// What the receiver makes of the message (RFC 4271, 9): a router decides by its site, a virtual peer keeps what it
    /// receives.
    fn decide(&self, site: &Option<SharedSite>) -> Result<Outcome<S>, AllocError>
        requires { site.now ≡ self.now.site }
        ensures { IfOk result (λ outcome. outcome ≡ outcome_of self.now) }
    {
        match site {
            Some(site) => deliver(
                self.alloc,
                site.get(),
                &self.cell,
                self.direction.from,
                &self.head,
            ),
            None => store(self.alloc, &self.cell, self.direction.from, &self.head),
        }
    }
}

impl<S: Chosen> Done<S> {
    /// What the receiver makes of the message.
    pub fn outcome(&self) -> &Outcome<S>
        ensures { result.now ≡ outcome_of self.now }
    {
        &self.outcome
    }

    /// The sender and the receiver.
    pub fn ends(&self) -> (Addr, Addr)
        ensures { result ≡ (self.now.direction.from, self.now.direction.to) }
    {
        self.job.ends()
    }

    /// The receiver's site. None where a virtual peer stands.
    pub fn site(&self) -> Option<&SiteConf>
        ensures { option_copied result ≡ self.now.site }
    {
        match &self.site {
            Some(site) => Some(site.get()),
            None => None,
        }
    }
}
