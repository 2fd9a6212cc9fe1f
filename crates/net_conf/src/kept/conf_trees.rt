//! What is configured, with the interior costs of those who have a session.

ghost use Rattle.std.specs.Prelude.{◌≡◌, true, IfOk, is_some};
ghost use Rattle.net_conf.specs.Configuration.{unconfigured, has_node, has_session, ends_session};
ghost use Rattle.net_conf.specs.Configured.{IsConfigured};
ghost use Rattle.net_conf.specs.Costs.{cost, costs_of, is_connected, session_up, is_up};

use crate::tables::ConfTables;
use igp_cost::Tree;
use net_prefix::Addr;
use seq::Copied;
use shared_map::ChunkedMap;
use std::alloc::{AllocError, Global};
use std::marker::Model;

/// The tables, with the tree of each end of a session.
#[derive(Drop)]
pub(crate) struct ConfTrees {
    pub(crate) tables: ConfTables,
    pub(crate) trees: ChunkedMap<Addr, Tree>,
}

impl Model for ConfTrees {
    ghost use Rattle.net_conf.specs.Configuration.{Configuration};
    ghost use Rattle.net_conf.specs.Kept.{IsSound, AreKept};

    ghost Value = { Configuration };

    ghost view = { λ c. c.tables };

    ghost invariant = { λ c. IsSound c.tables × AreKept c.tables c.trees };
}

impl ConfTrees {
    /// Nothing configured. It takes no memory.
    pub(crate) fn new() -> Self
        ensures { result ≡ unconfigured }
    {
        ConfTrees {
            tables: ConfTables::new(),
            trees: ChunkedMap::new(),
        }
    }

    /// A call gives the caller's proof what holds of every configuration.
    pub(crate) fn facts(&self)
        ensures configured { IsConfigured self.now }
    {
        self.tables.orders();
    }

    /// The tables.
    pub(crate) fn tables(&self) -> &ConfTables
        ensures { result.now ≡ self.now }
    {
        &self.tables
    }

    /// Whether the address is an end of a session: its tree is kept.
    pub(crate) fn ends_session(&self, addr: Addr) -> bool
        ensures { result ≡ ends_session self.now addr }
    {
        self.trees.contains_key(&addr)
    }

    /// Whether the session of the two is up (RFC 4271, 8), where they have one: asked of its link, or of the trees of
    /// both.
    #[tactic(auto, unfolding(crate::specs::Costs::session_up))]
    fn session_up(&self, one: Addr, other: Addr) -> Option<bool>
        ensures { result ≡ session_up self.now one other }
    {
        match self.tables.session(one, other) {
            None => None,
            Some(enabled) => Some(enabled && self.is_connected(one, other)),
        }
    }

    /// Whether the two have a session, and it is up: asked anew.
    pub(crate) fn is_up(&self, one: Addr, other: Addr) -> bool
        ensures { result ≡ is_up self.now one other }
    {
        self.session_up(one, other).unwrap_or(false)
    }

    /// Whether the session of the two may be up: its link is, or each has a cost to the other.
    #[tactic(auto, using(crate::proofs::KeptTrees::session_turned))]
    fn is_connected(&self, one: Addr, other: Addr) -> bool
        requires { has_session self.now one other ≡ true }
        ensures { result ≡ is_connected self.now one other }
    {
        if self.tables.is_external(one, other) {
            self.tables.has_link_up(one, other)
        } else {
            self.has_cost(one, other) && self.has_cost(other, one)
        }
    }

    /// Whether the first has a cost to the second.
    fn has_cost(&self, one: Addr, other: Addr) -> bool
        requires { has_session self.now one other ≡ true }
        ensures { result ≡ is_some (cost self.now one other) }
    {
        match self.trees.get(&one) {
            None => false,
            Some(tree) => tree.cost(other).is_some(),
        }
    }

    /// All costs and first hops of a router or peer.
    pub(crate) fn costs(&self, alloc: Global, router: Addr) -> Result<Tree, AllocError>
        requires { has_node self.now router ≡ true }
        ensures { IfOk result (λ tree. tree ≡ costs_of self.now router) }
    {
        match self.trees.get(&router) {
            Some(tree) => tree.copy(alloc),
            None => self.tables.costs(alloc, router),
        }
    }
}

impl Copied for ConfTrees {
    fn copy(&self, alloc: Global) -> Result<ConfTrees, AllocError> {
        let trees = self.trees.share()?;
        Ok(ConfTrees {
            tables: self.tables.copy(alloc)?,
            trees,
        })
    }
}
