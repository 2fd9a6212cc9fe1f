//! Changes of a configuration.

ghost use Rattle.std.specs.Prelude.{◌≡◌};
ghost use Rattle.net_conf.specs.Scopes.{scope, router_in};
ghost use Rattle.net_conf.specs.Kept.{HasMetric, node_in, link_in, session_in, sets_client, effect_at, effect_on};

use crate::tables::PolicySide;
use igp_cost::Metric;
use net_prefix::{Addr, Prefix};
use path_attr::Asn;
use route_policy::Rule;

/// A change of the configuration, one variant a kind of command.
#[derive(Clone, Copy, Debug, PartialEq, Eq)]
pub enum Edit {
    /// A new router in an AS.
    Router(Addr, Asn),
    /// A new virtual peer in an AS.
    Virtual(Addr, Asn),
    /// A new link of this cost, up.
    Link(Addr, Addr, Metric),
    /// Another cost of a link.
    Metric(Addr, Addr, Metric),
    /// A link goes down.
    Fail(Addr, Addr),
    /// A link comes up.
    Mend(Addr, Addr),
    /// A new session, enabled.
    Join(Addr, Addr),
    /// A session is disabled.
    Stop(Addr, Addr),
    /// A session is enabled.
    Start(Addr, Addr),
    /// Whether the second is a client of the first (RFC 4456, 6).
    Client(Addr, Addr, bool),
    /// Whether the first puts itself as NEXT_HOP towards the second.
    OwnNext(Addr, Addr, bool),
    /// The CLUSTER_ID of the router (RFC 4456, 7).
    Cluster(Addr, Addr),
    /// Whether the router compares MULTI_EXIT_DISC whatever the neighbouring AS (RFC 4271, 9.1.2.2).
    MedAlways(Addr, bool),
    /// A rule at the end of the policy of the first for what comes from the second, or goes to it.
    Rule(Addr, Addr, PolicySide, Rule),
    /// That policy is emptied.
    Clear(Addr, Addr, PolicySide),
    /// The router originates the prefix.
    Origin(Addr, Prefix),
    /// The router originates the prefix no more.
    NoOrigin(Addr, Prefix),
}

/// How much of what routers decide an edit can change.
#[derive(Clone, Copy, Debug, PartialEq, Eq)]
pub enum Scope {
    /// Any route of any router.
    Network,
    /// The routes of this router, and what it sends.
    Site(Addr),
    /// This router's route to the prefix, and what it sends of that.
    Route(Addr, Prefix),
}

/// What of a router's site an edit changes.
#[derive(Clone, Copy)]
pub(crate) enum SiteEffect {
    /// Its costs, and which of its sessions are up.
    Costs,
    /// The prefixes that it originates.
    Origins,
    /// Its session with this peer: a setting of it, or whether it is enabled.
    Session(Addr),
    /// It has a session with this peer more.
    NewSession(Addr),
    /// Its CLUSTER_ID (RFC 4456, 7).
    ClusterId,
    /// Whether it compares MULTI_EXIT_DISC whatever the neighbouring AS (RFC 4271, 9.1.2.2).
    MedComparison,
    /// None of these alone.
    Other,
}

impl Scope {
    /// The one router whose part of the configuration changes. None where it may be more than one.
    pub fn router(&self) -> Option<Addr>
        ensures { result ≡ router_in self.now }
    {
        match self {
            Scope::Network => None,
            Scope::Site(router) | Scope::Route(router, _) => Some(*router),
        }
    }
}

impl Edit {
    /// How much of what routers decide the edit can change.
    pub fn scope(&self) -> Scope
        ensures { result ≡ scope self.now }
    {
        match self {
            Edit::Client(router, _, _) | Edit::OwnNext(router, _, _) => Scope::Site(*router),
            Edit::Cluster(router, _) => Scope::Site(*router),
            Edit::MedAlways(router, _) => Scope::Site(*router),
            Edit::Rule(router, _, _, _) | Edit::Clear(router, _, _) => Scope::Site(*router),
            Edit::Origin(router, prefix) => Scope::Route(*router, *prefix),
            Edit::NoOrigin(router, prefix) => Scope::Route(*router, *prefix),
            _ => Scope::Network,
        }
    }

    /// The address that it adds.
    pub(crate) fn node(&self) -> Option<Addr>
        ensures { result ≡ node_in self.now }
    {
        match self {
            Edit::Router(addr, _) | Edit::Virtual(addr, _) => Some(*addr),
            _ => None,
        }
    }

    /// The ends of the link that it makes or changes.
    pub(crate) fn link(&self) -> Option<(Addr, Addr)>
        ensures { result ≡ link_in self.now }
    {
        match self {
            Edit::Link(one, other, _) | Edit::Metric(one, other, _) => Some((*one, *other)),
            Edit::Fail(one, other) | Edit::Mend(one, other) => Some((*one, *other)),
            _ => None,
        }
    }

    /// The ends of the session that it makes or changes.
    pub(crate) fn session(&self) -> Option<(Addr, Addr)>
        ensures { result ≡ session_in self.now }
    {
        match self {
            Edit::Join(one, other) | Edit::Stop(one, other) => Some((*one, *other)),
            Edit::Start(one, other) => Some((*one, *other)),
            _ => None,
        }
    }

    /// Whether it makes a client of a peer, or takes it for one no more.
    pub(crate) fn sets_client(&self) -> bool
        ensures { result ≡ sets_client self.now }
    {
        matches!(self, Edit::Client(_, _, _))
    }

    /// What of the router's site it changes.
    pub(crate) fn effect_on(&self, router: Addr) -> SiteEffect
        ensures { result ≡ effect_on self.now router }
    {
        match self {
            Edit::Router(_, _) | Edit::Virtual(_, _) => SiteEffect::Other,
            Edit::Link(_, _, _) | Edit::Metric(_, _, _) => SiteEffect::Costs,
            Edit::Fail(_, _) | Edit::Mend(_, _) => SiteEffect::Costs,
            Edit::Join(one, other) => {
                if router == *one {
                    SiteEffect::NewSession(*other)
                } else {
                    effect_at(router, *other, SiteEffect::NewSession(*one))
                }
            }
            Edit::Stop(one, other) | Edit::Start(one, other) => {
                if router == *one {
                    SiteEffect::Session(*other)
                } else {
                    effect_at(router, *other, SiteEffect::Session(*one))
                }
            }
            Edit::Client(one, peer, _) | Edit::OwnNext(one, peer, _) => {
                effect_at(router, *one, SiteEffect::Session(*peer))
            }
            Edit::Rule(one, peer, _, _) => effect_at(router, *one, SiteEffect::Session(*peer)),
            Edit::Clear(one, peer, _) => effect_at(router, *one, SiteEffect::Session(*peer)),
            Edit::Cluster(one, _) => effect_at(router, *one, SiteEffect::ClusterId),
            Edit::MedAlways(one, _) => effect_at(router, *one, SiteEffect::MedComparison),
            Edit::Origin(one, _) | Edit::NoOrigin(one, _) => {
                effect_at(router, *one, SiteEffect::Origins)
            }
        }
    }

    /// A call gives the caller's proof that the metric which the edit names is one.
    pub(crate) fn knows_metric(&self)
        ensures { HasMetric self.now }
    {
        match self {
            Edit::Link(_, _, metric) | Edit::Metric(_, _, metric) => {
                let _ = metric.cost();
            }
            _ => {}
        }
    }
}

/// The effect, where the router is the one at the address.
fn effect_at(router: Addr, addr: Addr, effect: SiteEffect) -> SiteEffect
    ensures { result ≡ effect_at router addr effect }
{
    if router == addr {
        effect
    } else {
        SiteEffect::Other
    }
}
