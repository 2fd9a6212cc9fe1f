//! What is configured, with the interior costs of those who have a session, and the sessions that are down.

ghost use Rattle.std.specs.Prelude.{◌≡◌, true, IfOk};
ghost use Rattle.net_conf.specs.Configuration.{unconfigured, has_node, ends_session};
ghost use Rattle.net_conf.specs.Configured.{IsConfigured};
ghost use Rattle.net_conf.specs.Costs.{costs_of, session_up, is_up, down_sessions};
ghost use Rattle.shared_map.specs.Chunks.{keys_in};

use crate::kept::conf_trees::ConfTrees;
use crate::tables::{ConfTables, Ends};
use igp_cost::Tree;
use net_prefix::Addr;
use seq::{Copied, SharedSeq};
use shared_map::ChunkedSet;
use std::alloc::{AllocError, Global};
use std::marker::Model;

/// The tables and the trees, with the sessions that are down, mostly none: so whether one is up is a look-up.
#[derive(Drop)]
pub(crate) struct ConfSessions {
    pub(crate) trees: ConfTrees,
    pub(crate) down: ChunkedSet<Ends>,
}

impl Model for ConfSessions {
    ghost use Rattle.net_conf.specs.Configuration.{Configuration};
    ghost use Rattle.net_conf.specs.Kept.{AreDown};

    ghost Value = { Configuration };

    ghost view = { λ c. c.trees };

    ghost invariant = { λ c. AreDown c.trees c.down };
}

impl ConfSessions {
    /// Nothing configured. It takes no memory.
    pub(crate) fn new() -> Self
        ensures { result ≡ unconfigured }
    {
        ConfSessions {
            trees: ConfTrees::new(),
            down: ChunkedSet::new(),
        }
    }

    /// A call gives the caller's proof what holds of every configuration.
    pub(crate) fn facts(&self)
        ensures configured { IsConfigured self.now }
    {
        self.trees.facts();
    }

    /// The tables.
    pub(crate) fn tables(&self) -> &ConfTables
        ensures { result.now ≡ self.now }
    {
        self.trees.tables()
    }

    /// Whether the address is an end of a session.
    pub(crate) fn ends_session(&self, addr: Addr) -> bool
        ensures { result ≡ ends_session self.now addr }
    {
        self.trees.ends_session(addr)
    }

    /// The sessions that are down, in order, in lists one after another.
    pub(crate) fn down_sessions(&self) -> &[SharedSeq<Ends>]
        ensures { keys_in result.now ≡ down_sessions self.now }
    {
        self.down.chunks()
    }

    /// Whether the session of the two is up (RFC 4271, 8), where they have one.
    pub(crate) fn session_up(&self, one: Addr, other: Addr) -> Option<bool>
        ensures { result ≡ session_up self.now one other }
    {
        if self.trees.tables().has_session(one, other) {
            Some(!self.down.contains(&Ends::of(one, other)))
        } else {
            None
        }
    }

    /// Whether the two have a session, and it is up.
    pub(crate) fn is_up(&self, one: Addr, other: Addr) -> bool
        ensures { result ≡ is_up self.now one other }
    {
        self.session_up(one, other).unwrap_or(false)
    }

    /// All costs and first hops of a router or peer.
    pub(crate) fn costs(&self, alloc: Global, router: Addr) -> Result<Tree, AllocError>
        requires { has_node self.now router ≡ true }
        ensures { IfOk result (λ tree. tree ≡ costs_of self.now router) }
    {
        self.trees.costs(alloc, router)
    }
}

impl Copied for ConfSessions {
    fn copy(&self, alloc: Global) -> Result<ConfSessions, AllocError> {
        let down = self.down.share()?;
        Ok(ConfSessions {
            trees: self.trees.copy(alloc)?,
            down,
        })
    }
}
