//! What is configured, as plain tables.

ghost use Rattle.std.specs.Prelude.{◌≡◌, ◌==◌, nat_le, IfOk, OnOk, OnErr, length};
ghost use Rattle.std.specs.List.{list_any};
ghost use Rattle.std.specs.Map.{remove_entry};
ghost use Rattle.std.specs.BTreeMap.{insert_entry, is_at};
ghost use Rattle.net_prefix.specs.Address.{addr_cmp};
ghost use Rattle.net_conf.specs.Configuration.{unconfigured, node_at, has_node, is_virtual, as_of, is_external, link_between, has_link, has_link_up, session_between, has_session, session_count, is_client, is_reflector, cluster_id, compares_all_meds, puts_itself, rules_at, import_rules, export_rules, originates, origins_of, end_of};
ghost use Rattle.shared_map.specs.Chunks.{keys_in};
ghost use Rattle.net_conf.specs.Configured.{IsInOrder};

use crate::tables::originations::Originations;
use crate::tables::session_table::SessionTable;
use crate::tables::{End, Ends, Kind, Link, Node, Origination};
use net_prefix::{Addr, Prefix};
use path_attr::Asn;
use route_policy::{Policy, Rule};
use seq::{Copied, SharedSeq};
use shared_map::{ChunkedMap, ChunkedSet, SharedMap};
use std::alloc::{AllocError, Global};
use std::marker::Model;

/// Routers and virtual peers, links, sessions with the settings of their ends, CLUSTER_IDs, the routers that compare
/// MULTI_EXIT_DISC whatever the neighbouring AS, and who originates what. A copy shares each table, and an edit copies
/// the one that it changes, or a chunk of it.
#[derive(Drop)]
pub struct ConfTables {
    pub(crate) nodes: SharedMap<Addr, Node>,
    pub(crate) links: SharedMap<Ends, Link>,
    pub(crate) sessions: SessionTable,
    pub(crate) clients: ChunkedSet<End>,
    pub(crate) own_next: ChunkedSet<End>,
    pub(crate) imports: ChunkedMap<End, Policy>,
    pub(crate) exports: ChunkedMap<End, Policy>,
    pub(crate) clusters: SharedMap<Addr, Addr>,
    pub(crate) med_always: ChunkedSet<Addr>,
    pub(crate) origins: Originations,
}

impl Model for ConfTables {
    ghost use Rattle.net_conf.specs.Configuration.{Configuration};

    ghost Value = { Configuration };

    ghost view = { λ c. record {
      nodes = c.nodes;
      links = c.links;
      sessions = c.sessions;
      clients = c.clients;
      own_next = c.own_next;
      imports = c.imports;
      exports = c.exports;
      clusters = c.clusters;
      med_always = c.med_always;
      origins = c.origins;
    } };
}

impl ConfTables {
    /// Nothing. It takes no memory.
    pub fn new() -> Self
        ensures { result ≡ unconfigured }
    {
        ConfTables {
            nodes: SharedMap::new(),
            links: SharedMap::new(),
            sessions: SessionTable::new(),
            clients: ChunkedSet::new(),
            own_next: ChunkedSet::new(),
            imports: ChunkedMap::new(),
            exports: ChunkedMap::new(),
            clusters: SharedMap::new(),
            med_always: ChunkedSet::new(),
            origins: Originations::new(),
        }
    }

    /// A call gives the caller's proof that each table is in order: reading a map or a set tells that.
    pub fn orders(&self)
        ensures { IsInOrder self.now }
    {
        let _ = self.nodes.as_slice();
        let _ = self.links.as_slice();
        self.sessions.order();
        self.clients.order();
        self.own_next.order();
        self.imports.order();
        self.exports.order();
        let _ = self.clusters.as_slice();
        self.med_always.order();
        self.origins.order();
    }

    /// The router or virtual peer at the address.
    pub fn node(&self, addr: Addr) -> Option<Node>
        ensures { result ≡ node_at self.now addr }
    {
        self.nodes.get(&addr).copied()
    }

    /// How many routers and virtual peers there are.
    pub fn node_count(&self) -> usize
        ensures { result ≡ length self.now.nodes }
    {
        self.nodes.len()
    }

    /// How many links there are.
    pub fn link_count(&self) -> usize
        ensures { result ≡ length self.now.links }
    {
        self.links.len()
    }

    /// Whether a router or virtual peer stands at the address.
    pub fn has_node(&self, addr: Addr) -> bool
        ensures { result ≡ has_node self.now addr }
    {
        self.nodes.contains_key(&addr)
    }

    /// Whether a virtual peer stands at the address.
    pub fn is_virtual(&self, addr: Addr) -> bool
        ensures { result ≡ is_virtual self.now addr }
    {
        self.node(addr)
            .is_some_and(|node| node.kind == Kind::Virtual)
    }

    /// The AS of the router or peer, where there is one.
    pub fn as_of(&self, addr: Addr) -> Option<Asn>
        ensures { result ≡ as_of self.now addr }
    {
        self.node(addr).map(|node| node.asn)
    }

    /// Whether the two are in different ASes.
    pub fn is_external(&self, one: Addr, other: Addr) -> bool
        ensures { result ≡ is_external self.now one other }
    {
        self.as_of(one) != self.as_of(other)
    }

    /// The link of the two, where they have one.
    pub fn link(&self, one: Addr, other: Addr) -> Option<Link>
        ensures { result ≡ link_between self.now one other }
    {
        self.links.get(&Ends::of(one, other)).copied()
    }

    /// Whether the two have a link.
    pub fn has_link(&self, one: Addr, other: Addr) -> bool
        ensures { result ≡ has_link self.now one other }
    {
        self.links.contains_key(&Ends::of(one, other))
    }

    /// Whether the two have a link, and it is up.
    pub fn has_link_up(&self, one: Addr, other: Addr) -> bool
        ensures { result ≡ has_link_up self.now one other }
    {
        self.link(one, other).is_some_and(|link| link.up)
    }

    /// Whether the session of the two is enabled, where they have one.
    pub fn session(&self, one: Addr, other: Addr) -> Option<bool>
        ensures { result ≡ session_between self.now one other }
    {
        self.sessions.get(Ends::of(one, other))
    }

    /// Whether the two have a session.
    pub fn has_session(&self, one: Addr, other: Addr) -> bool
        ensures { result ≡ has_session self.now one other }
    {
        self.sessions.contains(Ends::of(one, other))
    }

    /// Whether the address has so many sessions, or more.
    pub fn has_many_sessions(&self, addr: Addr, many: usize) -> bool
        ensures { result ≡ nat_le many (session_count self.now addr) }
    {
        self.sessions.has_many(addr, many)
    }

    /// Whether the router takes the peer for its client.
    pub fn is_client(&self, router: Addr, peer: Addr) -> bool
        ensures { result ≡ is_client self.now router peer }
    {
        self.clients.contains(&End { router, peer })
    }

    /// Whether the router takes a peer for its client.
    pub fn is_reflector(&self, router: Addr) -> bool
        ensures { result ≡ is_reflector self.now router }
    {
        is_end_in(self.clients.chunks(), router)
    }

    /// The router's CLUSTER_ID.
    pub fn cluster_id(&self, router: Addr) -> Addr
        ensures { result ≡ cluster_id self.now router }
    {
        self.clusters.get(&router).copied().unwrap_or(router)
    }

    /// Whether the router compares MULTI_EXIT_DISC whatever the neighbouring AS.
    pub fn compares_all_meds(&self, router: Addr) -> bool
        ensures { result ≡ compares_all_meds self.now router }
    {
        self.med_always.contains(&router)
    }

    /// Whether the router puts itself as NEXT_HOP towards the peer.
    pub fn puts_itself(&self, router: Addr, peer: Addr) -> bool
        ensures { result ≡ puts_itself self.now router peer }
    {
        self.own_next.contains(&End { router, peer })
    }

    /// Whether the router originates the prefix.
    pub fn originates(&self, router: Addr, prefix: Prefix) -> bool
        ensures { result ≡ originates self.now router prefix }
    {
        self.origins.contains(Origination { router, prefix })
    }

    /// The prefixes that the router originates, in order.
    pub fn origins_of(&self, alloc: Global, router: Addr) -> Result<Vec<Prefix>, AllocError>
        ensures { IfOk result (λ v. v.items ≡ origins_of self.now router) }
    {
        self.origins.of(router)?.keys(alloc)
    }

    /// The same, as one owner more of the set of them.
    pub(crate) fn shared_origins(&self, router: Addr) -> Result<ChunkedSet<Prefix>, AllocError>
        ensures { IfOk result (λ set. set ≡ origins_of self.now router) }
    {
        self.origins.of(router)
    }

    /// The router's policy for what comes in from the peer.
    pub fn import_policy(
        &self,
        alloc: Global,
        router: Addr,
        peer: Addr,
    ) -> Result<Policy, AllocError>
        ensures { IfOk result (λ policy. policy ≡ import_rules self.now router peer) }
    {
        policy_at(alloc, &self.imports, End { router, peer })
    }

    /// The router's policy for what goes out to the peer.
    pub fn export_policy(
        &self,
        alloc: Global,
        router: Addr,
        peer: Addr,
    ) -> Result<Policy, AllocError>
        ensures { IfOk result (λ policy. policy ≡ export_rules self.now router peer) }
    {
        policy_at(alloc, &self.exports, End { router, peer })
    }
}

/// The policy of the end; the one without rules where there is none.
pub(crate) fn policy_at(
    alloc: Global,
    policies: &ChunkedMap<End, Policy>,
    end: End,
) -> Result<Policy, AllocError>
    ensures { IfOk result (λ p. p ≡ rules_at policies.now end) }
{
    match policies.get(&end) {
        None => Ok(Policy::new(alloc)),
        Some(policy) => policy.copy(alloc),
    }
}

/// Whether an end of this router is in the chunks.
fn is_end_in(chunks: &[SharedSeq<End>], router: Addr) -> bool
    ensures { result ≡ list_any (λ e. e.router.0 == router.0) (keys_in chunks.now) }
{
    let mut is_found = false;
    for chunk in chunks {
        is_found = is_found || has_end_of(chunk.as_slice(), router);
    }
    is_found
}

/// Whether one of the ends is of this router.
fn has_end_of(ends: &[End], router: Addr) -> bool
    ensures { result ≡ list_any (λ e. e.router.0 == router.0) ends.now }
{
    ends.iter().any(|end| end.router == router)
}

/// Routers and virtual peers, and links.
type Interior = (SharedMap<Addr, Node>, SharedMap<Ends, Link>);

/// The settings of routers: CLUSTER_IDs, and who compares MULTI_EXIT_DISC whatever the neighbouring AS.
type RouterSettings = (SharedMap<Addr, Addr>, ChunkedSet<Addr>);

/// Sessions, and the settings of their ends but for the policies.
type Sessions = (SessionTable, ChunkedSet<End>, ChunkedSet<End>);

/// The policies for what comes in and for what goes out, and who originates what.
type Policies = (
    ChunkedMap<End, Policy>,
    ChunkedMap<End, Policy>,
    Originations,
);

impl ConfTables {
    fn share_interior(&self) -> Result<Interior, AllocError>
        ensures nodes { IfOk result (λ t. t.0 ≡ self.now.nodes) }
        ensures links { IfOk result (λ t. t.1 ≡ self.now.links) }
    {
        let nodes = self.nodes.share()?;
        Ok((nodes, self.links.share()?))
    }

    fn share_router_settings(&self) -> Result<RouterSettings, AllocError>
        ensures clusters { IfOk result (λ t. t.0 ≡ self.now.clusters) }
        ensures med_always { IfOk result (λ t. t.1 ≡ self.now.med_always) }
    {
        let clusters = self.clusters.share()?;
        Ok((clusters, self.med_always.share()?))
    }

    fn share_sessions(&self) -> Result<Sessions, AllocError>
        ensures sessions { IfOk result (λ t. t.0 ≡ self.now.sessions) }
        ensures clients { IfOk result (λ t. t.1 ≡ self.now.clients) }
        ensures own_next { IfOk result (λ t. t.2 ≡ self.now.own_next) }
    {
        let sessions = self.sessions.share()?;
        let Ok(clients) = self.clients.share() else {
            drop(sessions);
            return Err(AllocError);
        };
        let Ok(own_next) = self.own_next.share() else {
            drop((sessions, clients));
            return Err(AllocError);
        };
        Ok((sessions, clients, own_next))
    }

    fn share_policies(&self) -> Result<Policies, AllocError>
        ensures imports { IfOk result (λ t. t.0 ≡ self.now.imports) }
        ensures exports { IfOk result (λ t. t.1 ≡ self.now.exports) }
        ensures origins { IfOk result (λ t. t.2 ≡ self.now.origins) }
    {
        let imports = self.imports.share()?;
        let Ok(exports) = self.exports.share() else {
            drop(imports);
            return Err(AllocError);
        };
        let Ok(origins) = self.origins.share() else {
            drop((imports, exports));
            return Err(AllocError);
        };
        Ok((imports, exports, origins))
    }
}

impl Copied for ConfTables {
    // The parts one after another, each dropped whole: the prover's work grows steeply with the values that one
    // function may have to drop.
    fn copy(&self, _alloc: Global) -> Result<ConfTables, AllocError> {
        let interior = self.share_interior()?;
        let Ok(settings) = self.share_router_settings() else {
            drop(interior);
            return Err(AllocError);
        };
        let Ok(sessions) = self.share_sessions() else {
            drop((interior, settings));
            return Err(AllocError);
        };
        let Ok(policies) = self.share_policies() else {
            drop((interior, settings, sessions));
            return Err(AllocError);
        };
        Ok(of_parts(interior, settings, sessions, policies))
    }
}

/// The tables of these parts.
fn of_parts(
    interior: Interior,
    settings: RouterSettings,
    sessions: Sessions,
    policies: Policies,
) -> ConfTables
    ensures nodes { result.nodes ≡ interior.0 }
    ensures links { result.links ≡ interior.1 }
    ensures clusters { result.clusters ≡ settings.0 }
    ensures med_always { result.med_always ≡ settings.1 }
    ensures sessions { result.sessions ≡ sessions.0 }
    ensures clients { result.clients ≡ sessions.1 }
    ensures own_next { result.own_next ≡ sessions.2 }
    ensures imports { result.imports ≡ policies.0 }
    ensures exports { result.exports ≡ policies.1 }
    ensures origins { result.origins ≡ policies.2 }
{
    let (nodes, links) = interior;
    let (clusters, med_always) = settings;
    let (sessions, clients, own_next) = sessions;
    let (imports, exports, origins) = policies;
    ConfTables {
        nodes,
        links,
        sessions,
        clients,
        own_next,
        imports,
        exports,
        clusters,
        med_always,
        origins,
    }
}
