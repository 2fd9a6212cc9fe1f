//! What one router sees of the configuration.

use crate::conf::Conf;
use crate::kept::ConfSessions;
use crate::refusal::Refusal;
use crate::tables::{ConfTables, Node};
use igp_cost::Tree;
use net_prefix::{Addr, Prefix};
use path_attr::Asn;
use route_policy::Policy;
use seq::{Copied, SharedSeq};
use shared_map::ChunkedSet;
use std::alloc::{AllocError, Global};
use std::collections::BTreeMap;

/// One router's part of the configuration: all that what it decides and advertises depends on. Its lists are shared.
#[derive(Drop)]
pub struct SiteConf {
    /// Its address, which is its BGP Identifier too.
    pub me: Addr,
    /// Its AS.
    pub asn: Asn,
    /// Its CLUSTER_ID (RFC 4456, 7).
    pub cluster: Addr,
    /// Whether it has a client (RFC 4456, 6).
    pub reflector: bool,
    /// Whether it compares MULTI_EXIT_DISC whatever the neighbouring AS (RFC 4271, 9.1.2.2).
    pub med_always: bool,
    /// The prefixes that it originates, in order.
    pub origins: ChunkedSet<Prefix>,
    /// Its sessions, up or down, by the address of the peer.
    pub sessions: SharedSeq<SiteSession>,
    /// Its costs and first hops.
    pub costs: Tree,
}

/// A router's session with a peer.
#[derive(Drop, PartialEq)]
pub struct SiteSession {
    pub peer: Addr,
    /// The AS of the peer.
    pub peer_asn: Option<Asn>,
    pub up: bool,
    /// Whether the peer is in another AS.
    pub external: bool,
    /// Whether the peer is the router's client (RFC 4456, 6).
    pub client: bool,
    /// Whether the router puts itself as NEXT_HOP towards the peer.
    pub own_next: bool,
    /// What is done with routes that come in from the peer.
    pub policy_in: Policy,
    /// What is done with routes that go out to the peer.
    pub policy_out: Policy,
}

impl SiteConf {
    ghost use Rattle.std.specs.Prelude.{◌≡◌, IfOk, option_copied};
    ghost use Rattle.net_conf.specs.Sites.{session_with};

    /// The router's session with the peer, where it has one.
    pub fn session(&self, peer: Addr) -> Option<&SiteSession>
        ensures { option_copied result ≡ session_with self.now peer }
    {
        self.sessions
            .as_slice()
            .iter()
            .find(|session| session.peer == peer)
    }

    /// The site, with these originated prefixes, sessions and costs.
    pub(crate) fn with_parts(
        &self,
        origins: ChunkedSet<Prefix>,
        sessions: SharedSeq<SiteSession>,
        costs: Tree,
    ) -> SiteConf
        ensures { result ≡ record self.now { origins = origins; sessions = sessions; costs = costs } }
    {
        SiteConf {
            me: self.me,
            asn: self.asn,
            cluster: self.cluster,
            reflector: self.reflector,
            med_always: self.med_always,
            origins,
            sessions,
            costs,
        }
    }

    /// The site, with these sessions.
    pub(crate) fn with_sessions(
        &self,
        alloc: Global,
        sessions: SharedSeq<SiteSession>,
    ) -> Result<SiteConf, AllocError>
        ensures { IfOk result (λ site. site ≡ record self.now { sessions = sessions }) }
    {
        let origins = self.origins.share()?;
        let costs = self.costs.copy(alloc)?;
        Ok(self.with_parts(origins, sessions, costs))
    }
}

impl Copied for SiteConf {
    fn copy(&self, alloc: Global) -> Result<SiteConf, AllocError> {
        let sessions = self.sessions.share()?;
        self.with_sessions(alloc, sessions)
    }
}

impl Copied for SiteSession {
    fn copy(&self, alloc: Global) -> Result<SiteSession, AllocError> {
        Ok(SiteSession {
            peer: self.peer,
            peer_asn: self.peer_asn,
            up: self.up,
            external: self.external,
            client: self.client,
            own_next: self.own_next,
            policy_in: self.policy_in.copy(alloc)?,
            policy_out: self.policy_out.copy(alloc)?,
        })
    }
}

impl Conf {
    ghost use Rattle.std.specs.Prelude.{◌≡◌, IfOk, OnOk};
    ghost use Rattle.std.specs.List.{filter_map};
    ghost use Rattle.std.specs.List.Sorted.{IsStrictlySortedBy};
    ghost use Rattle.std.specs.Map.{keys_of};
    ghost use Rattle.net_prefix.specs.Address.{addr_cmp};
    ghost use Rattle.net_conf.specs.Sites.{site_of, IsSite};
    ghost use Rattle.net_conf.specs.RouterSites.{router_site};

    /// The router's own part of the configuration. It is refused where there is no router, where a virtual peer stands,
    /// and for want of memory.
    #[tactic(auto, unfolding(crate::specs::Sites::site_of))]
    pub fn site(&self, alloc: Global, router: Addr) -> Result<SiteConf, Refusal>
        ensures { IsSite self.now router result }
    {
        let Some(node) = self.sessions.tables().node(router) else {
            return Err(Refusal::NoRouter);
        };
        if self.is_virtual(router) {
            return Err(Refusal::BadEnd);
        }
        self.sessions
            .site_of_node(alloc, router, node)
            .map_err(|_| Refusal::Memory)
    }

    /// What the router or peer at the address sees of the configuration, where there is one.
    pub fn site_at(&self, alloc: Global, router: Addr) -> Result<Option<SiteConf>, AllocError>
        ensures { IfOk result (λ site. site ≡ site_of self.now router) }
    {
        self.sessions.site_at(alloc, router)
    }

    /// The router's own part of the configuration, where there is a router: none where a virtual peer stands.
    pub fn router_site(&self, alloc: Global, router: Addr) -> Result<Option<SiteConf>, AllocError>
        ensures { IfOk result (λ site. site ≡ router_site self.now router) }
    {
        self.sessions.router_site(alloc, router)
    }
}

impl ConfSessions {
    ghost use Rattle.std.specs.Prelude.{◌≡◌, Some, map, IfOk};
    ghost use Rattle.net_conf.specs.Configuration.{node_at};
    ghost use Rattle.net_conf.specs.Sites.{session_of, sessions_of, site_at, site_of};
    ghost use Rattle.net_conf.specs.RouterSites.{router_site};

    /// What the router or peer at the address sees of the configuration, where there is one.
    #[tactic(auto, unfolding(crate::specs::Sites::site_of))]
    pub(crate) fn site_at(
        &self,
        alloc: Global,
        router: Addr,
    ) -> Result<Option<SiteConf>, AllocError>
        ensures { IfOk result (λ site. site ≡ site_of self.now router) }
    {
        match self.tables().node(router) {
            Some(node) => Ok(Some(self.site_of_node(alloc, router, node)?)),
            None => Ok(None),
        }
    }

    /// What the router or peer sees of the configuration, whose node is this one.
    fn site_of_node(&self, alloc: Global, router: Addr, node: Node) -> Result<SiteConf, AllocError>
        requires { node_at self.now router ≡ Some node }
        ensures { IfOk result (λ site. site ≡ site_at self.now router node) }
    {
        Ok(SiteConf {
            me: router,
            asn: node.asn,
            cluster: self.tables().cluster_id(router),
            reflector: self.tables().is_reflector(router),
            med_always: self.tables().compares_all_meds(router),
            origins: self.tables().shared_origins(router)?,
            sessions: SharedSeq::of(alloc, self.sessions_of(alloc, router)?)?,
            costs: self.costs(alloc, router)?,
        })
    }

    /// The router's own part of the configuration, where there is a router: none where a virtual peer stands.
    pub(crate) fn router_site(
        &self,
        alloc: Global,
        router: Addr,
    ) -> Result<Option<SiteConf>, AllocError>
        ensures { IfOk result (λ site. site ≡ router_site self.now router) }
    {
        if self.tables().is_virtual(router) {
            Ok(None)
        } else {
            self.site_at(alloc, router)
        }
    }

    /// The router's session with the peer.
    pub(crate) fn session_of(
        &self,
        alloc: Global,
        router: Addr,
        peer: Addr,
    ) -> Result<SiteSession, AllocError>
        ensures { IfOk result (λ session. session ≡ session_of self.now router peer) }
    {
        Ok(SiteSession {
            peer,
            peer_asn: self.tables().as_of(peer),
            up: self.is_up(router, peer),
            external: self.tables().is_external(router, peer),
            client: self.tables().is_client(router, peer),
            own_next: self.tables().puts_itself(router, peer),
            policy_in: self.tables().import_policy(alloc, router, peer)?,
            policy_out: self.tables().export_policy(alloc, router, peer)?,
        })
    }

    /// The router's sessions, up or down, by the address of the peer.
    fn sessions_of(&self, alloc: Global, router: Addr) -> Result<Vec<SiteSession>, AllocError>
        ensures { IfOk result (λ sessions. sessions.items ≡ sessions_of self.now router) }
    {
        let peers = self.tables().peers_of(alloc, router)?;
        self.sessions_with(alloc, router, &peers)
    }

    fn sessions_with(
        &self,
        alloc: Global,
        router: Addr,
        peers: &[Addr],
    ) -> Result<Vec<SiteSession>, AllocError>
        ensures { IfOk result (λ sessions. sessions.items ≡ map (session_of self.now router) peers.now) }
    {
        let mut sessions = Vec::new(alloc);
        for peer in peers {
            sessions.push(self.session_of(alloc, router, *peer)?)?;
        }
        Ok(sessions)
    }
}

impl ConfTables {
    ghost use Rattle.std.specs.Prelude.{◌≡◌, IfOk};
    ghost use Rattle.net_conf.specs.Sites.{peers_of};

    /// The peers with which the router has a session, in order of address.
    fn peers_of(&self, alloc: Global, router: Addr) -> Result<Vec<Addr>, AllocError>
        ensures { IfOk result (λ peers. peers.items ≡ peers_of self.now router) }
    {
        self.sessions.peers_of(alloc, router)
    }
}
