//! What is configured, what follows from it, and how an edit changes it.

ghost use Rattle.std.specs.Prelude.{◌≡◌, nat_le, true, None, Some, Ok, Err, IfOk, MatchResult, option_map};
ghost use Rattle.net_conf.specs.Configuration.{unconfigured, node_at, has_node, is_virtual, as_of, has_session, session_count, ends_session, origins_of};
ghost use Rattle.net_conf.specs.Concerned.{ConcernsAlone};
ghost use Rattle.net_conf.specs.Costs.{costs_of, session_up, is_up, down_sessions};
ghost use Rattle.net_conf.specs.Configured.{IsConfigured};
ghost use Rattle.net_conf.specs.Limits.{most_sessions};
ghost use Rattle.shared_map.specs.Chunks.{keys_in};
ghost use Rattle.net_conf.specs.Edits.{is_past_limit, refusal_of, edited, IsEdit, IsEdited};

use crate::edit::Edit;
use crate::kept::{ConfSessions, MadeSessions, SharedSite};
use crate::limits::{MAX_LINKS, MAX_SESSIONS};
use crate::refusal::Refusal;
use crate::tables::{Ends, Kind};
use igp_cost::{MAX_NODES, Tree};
use net_prefix::{Addr, Prefix};
use path_attr::Asn;
use route_policy::MAX_RULES;
use seq::{Copied, SharedSeq};
use shared_map::ChunkedMap;
use std::alloc::{AllocError, Global};
use std::collections::BTreeSet;
use std::marker::Model;
use std::mem::replace;
use std::thread::Threads;

/// What is configured, with the interior costs and the sites of those who have a session, and the sessions that are
/// down.
#[derive(Drop)]
pub struct Conf {
    pub(crate) sessions: ConfSessions,
    pub(crate) sites: ChunkedMap<Addr, SharedSite>,
}

/// What an edit makes.
#[derive(Drop)]
pub struct EditedConf {
    /// The configuration after the edit.
    pub conf: Conf,
    /// Whom the edit concerns.
    pub concerned: BTreeSet<Addr>,
}

impl Model for Conf {
    ghost use Rattle.net_conf.specs.Configuration.{Configuration};
    ghost use Rattle.net_conf.specs.Kept.{AreSitesKept};

    ghost Value = { Configuration };

    ghost view = { λ c. c.sessions };

    ghost invariant = { λ c. AreSitesKept c.sessions c.sites };
}

impl Conf {
    /// Nothing configured. It takes no memory.
    pub fn new(_alloc: Global) -> Self
        ensures { result ≡ unconfigured }
    {
        Conf {
            sessions: ConfSessions::new(),
            sites: ChunkedMap::new(),
        }
    }

    /// A call gives the caller's proof what holds of every configuration.
    pub fn facts(&self)
        ensures configured { IsConfigured self.now }
    {
        self.sessions.facts();
    }

    /// Whether the edit may be made: the first test that holds refuses it. It takes no memory.
    pub fn check(&self, edit: &Edit) -> Result<(), Refusal>
        ensures { MatchResult result (λ _. refusal_of self.now edit.now ≡ None) (λ r.
            refusal_of self.now edit.now ≡ Some r) }
    {
        self.sessions.tables().check(edit, self.is_past_limit(edit))
    }

    /// 19: there are as many routers and peers, links, sessions at an end, or rules as there may be.
    fn is_past_limit(&self, edit: &Edit) -> bool
        ensures { result ≡ is_past_limit self.now edit.now }
    {
        let tables = self.sessions.tables();
        match *edit {
            Edit::Router(_, _) | Edit::Virtual(_, _) => tables.node_count() >= MAX_NODES,
            Edit::Link(_, _, _) => tables.link_count() >= MAX_LINKS,
            Edit::Join(one, other) => {
                self.has_most_sessions(one) || self.has_most_sessions(other)
            }
            Edit::Rule(router, peer, side, _) => tables.rule_count(router, peer, side) >= MAX_RULES,
            _ => false,
        }
    }

    /// Whether the address has as many sessions as it may: those of a router stand in its site.
    #[tactic(auto, using(crate::proofs::SessionCounts::count_of_site, crate::proofs::SessionCounts::count_of_none))]
    fn has_most_sessions(&self, addr: Addr) -> bool
        ensures { result ≡ nat_le most_sessions (session_count self.now addr) }
    {
        if !self.ends_session(addr) {
            return false;
        }
        match self.kept_site(addr) {
            Some(site) => site.sessions.len() >= MAX_SESSIONS,
            None => self.sessions.tables().has_many_sessions(addr, MAX_SESSIONS),
        }
    }

    /// Makes the edit, unless it is refused. A refusal, or want of memory, changes nothing.
    pub fn edit<R: Threads + Sync>(
        &mut self,
        rt: &R,
        alloc: Global,
        edit: &Edit,
    ) -> Result<(), Refusal>
        ensures { IsEdit self.old edit.now result self.new }
    {
        let made = self.edited(rt, alloc, edit)?;
        drop(replace(self, made.conf));
        Ok(())
    }

    /// The AS and the kind of the router or virtual peer at the address.
    pub fn router(&self, addr: Addr) -> Option<(Asn, Kind)>
        ensures { result ≡ option_map (λ n. (n.asn, n.kind)) (node_at self.now addr) }
    {
        self.sessions
            .tables()
            .node(addr)
            .map(|node| (node.asn, node.kind))
    }

    /// Whether a router or virtual peer stands at the address.
    pub fn has_node(&self, addr: Addr) -> bool
        ensures { result ≡ has_node self.now addr }
    {
        self.sessions.tables().has_node(addr)
    }

    /// Whether a virtual peer stands at the address.
    pub fn is_virtual(&self, addr: Addr) -> bool
        ensures { result ≡ is_virtual self.now addr }
    {
        self.sessions.tables().is_virtual(addr)
    }

    /// The AS of the router or peer, where there is one.
    pub fn as_of(&self, addr: Addr) -> Option<Asn>
        ensures { result ≡ as_of self.now addr }
    {
        self.sessions.tables().as_of(addr)
    }

    /// Whether the two have a session, up or down.
    pub fn has_session(&self, one: Addr, other: Addr) -> bool
        ensures { result ≡ has_session self.now one other }
    {
        self.sessions.tables().has_session(one, other)
    }

    /// The prefixes that the router originates, in order.
    pub fn origins_of(&self, alloc: Global, router: Addr) -> Result<Vec<Prefix>, AllocError>
        ensures { IfOk result (λ v. v.items ≡ origins_of self.now router) }
    {
        self.sessions.tables().origins_of(alloc, router)
    }

    /// Whether the address is an end of a session, up or down.
    pub fn ends_session(&self, addr: Addr) -> bool
        ensures { result ≡ ends_session self.now addr }
    {
        self.sessions.ends_session(addr)
    }

    /// Whether the session of the two is up (RFC 4271, 8), where they have one. It takes no memory.
    pub fn session_up(&self, one: Addr, other: Addr) -> Option<bool>
        ensures { result ≡ session_up self.now one other }
    {
        self.sessions.session_up(one, other)
    }

    /// Whether the two have a session, and it is up.
    pub fn is_up(&self, one: Addr, other: Addr) -> bool
        ensures { result ≡ is_up self.now one other }
    {
        self.sessions.is_up(one, other)
    }

    /// The sessions that are down, in order, in lists one after another. It takes no memory.
    pub fn down_sessions(&self) -> &[SharedSeq<Ends>]
        ensures { keys_in result.now ≡ down_sessions self.now }
    {
        self.sessions.down_sessions()
    }

    /// All costs and first hops of a router or peer.
    pub fn costs(&self, alloc: Global, router: Addr) -> Result<Tree, AllocError>
        requires { has_node self.now router ≡ true }
        ensures { IfOk result (λ tree. tree ≡ costs_of self.now router) }
    {
        self.sessions.costs(alloc, router)
    }

    /// The configuration after the edit, made beside this one, and whom the edit concerns: of all others nothing is
    /// changed. It is refused as the edit is, and for want of memory.
    pub fn edited<R: Threads + Sync>(
        &self,
        rt: &R,
        alloc: Global,
        edit: &Edit,
    ) -> Result<EditedConf, Refusal>
        ensures edited { MatchResult result (λ made. IsEdited self.now edit.now (Ok made.conf)) (λ refusal.
            IsEdited self.now edit.now (Err refusal)) }
        ensures concerned { IfOk result (λ made. ConcernsAlone self.now made.conf made.concerned.keys) }
    {
        self.check(edit)?;
        self.made(rt, alloc, edit).map_err(|_| Refusal::Memory)
    }

    /// The same, of an edit that is not refused: it is not checked again. Where it asks for what is so already, a state
    /// of a link or a session or a setting of a router, it takes no memory.
    pub fn made<R: Threads + Sync>(
        &self,
        rt: &R,
        alloc: Global,
        edit: &Edit,
    ) -> Result<EditedConf, AllocError>
        requires { refusal_of self.now edit.now ≡ None }
        ensures conf { IfOk result (λ made. made.conf ≡ edited self.now edit.now) }
        ensures concerned { IfOk result (λ made. ConcernsAlone self.now made.conf made.concerned.keys) }
    {
        if self.sessions.tables().has_setting(edit) {
            self.unchanged(alloc, edit)
        } else {
            self.changed(rt, alloc, edit)
        }
    }

    /// The same, of an edit that changes nothing: it concerns nobody.
    fn unchanged(&self, alloc: Global, edit: &Edit) -> Result<EditedConf, AllocError>
        requires { edited self.now edit.now ≡ self.now }
        ensures conf { IfOk result (λ made. made.conf ≡ edited self.now edit.now) }
        ensures concerned { IfOk result (λ made. ConcernsAlone self.now made.conf made.concerned.keys) }
    {
        let conf = self.copy(alloc)?;
        let concerned = BTreeSet::new(alloc);
        Ok(EditedConf { conf, concerned })
    }

    /// The same, of any edit.
    fn changed<R: Threads + Sync>(
        &self,
        rt: &R,
        alloc: Global,
        edit: &Edit,
    ) -> Result<EditedConf, AllocError>
        requires { refusal_of self.now edit.now ≡ None }
        ensures conf { IfOk result (λ made. made.conf ≡ edited self.now edit.now) }
        ensures concerned { IfOk result (λ made. ConcernsAlone self.now made.conf made.concerned.keys) }
    {
        let MadeSessions {
            conf: sessions,
            concerned,
            turned,
        } = self.sessions.made(rt, alloc, edit)?;
        // (an implicit drop of a whole configuration is written out at each early end: minutes of the prover)
        let Ok(sites) = self.sites_after(alloc, edit, &sessions, &concerned, &turned) else {
            drop((sessions, concerned, turned));
            return Err(AllocError);
        };
        let conf = Conf { sessions, sites };
        Ok(EditedConf { conf, concerned })
    }
}

impl Copied for Conf {
    fn copy(&self, alloc: Global) -> Result<Conf, AllocError> {
        let sites = self.sites.share()?;
        Ok(Conf {
            sessions: self.sessions.copy(alloc)?,
            sites,
        })
    }
}
