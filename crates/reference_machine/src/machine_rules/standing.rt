//! How routes to a prefix stand at a router, over its site.

ghost use Rattle.std.specs.Prelude.{◌≡◌, Some, IsTrue, OnOk, OnErr, IfOk};
ghost use Rattle.std.specs.List.{list_any};
ghost use Rattle.std.specs.Option.{option_to_list};
ghost use Rattle.net_prefix.specs.Address.{same_addr};
ghost use Rattle.igp_cost.specs.Trees.{cost_in};
ghost use Rattle.route_select.specs.declared.candidate.Source.TheVariants.{Peer as FromPeer};
ghost use Rattle.reference_machine.specs.Decision.{own_attr, own_candidate, is_originated, own_standings, has_cluster_loop, is_denial, exclusion, set_preference, set_med, set_communities, preference, imported, peer_candidate, judged_standing, peer_standing, standing_over, added};

use net_conf::{SiteConf, SiteSession};
use net_prefix::{Addr, Prefix};
use path_attr::{Attr, Communities, ImportedAttr, SharedAttr};
use route_policy::{Action, judge};
use route_select::{Candidate, Reason, Selector, Source, Standing};
use std::alloc::{AllocError, Global};

/// The preference of a route that nothing sets.
const DEFAULT_PREFERENCE: u32 = 100;

/// The attributes of the router's own route.
fn own_attr(alloc: Global, router: Addr) -> Result<ImportedAttr, AllocError>
    ensures { IfOk result (λ attr. attr ≡ own_attr router) }
{
    let plain = SharedAttr::new(alloc, Attr::plain(router))?;
    Ok(ImportedAttr::new(plain, Some(DEFAULT_PREFERENCE)))
}

/// The route that the router originates, as a candidate.
pub fn own_candidate(alloc: Global, router: Addr) -> Result<Candidate, AllocError>
    ensures { IfOk result (λ own. own ≡ own_candidate router) }
{
    Ok(Candidate {
        source: Source::Own,
        attr: own_attr(alloc, router)?,
        pref: DEFAULT_PREFERENCE,
        external: true,
        cost: 0,
        ident: router,
    })
}

/// Whether the router originates the prefix.
pub fn is_originated(site: &SiteConf, prefix: Prefix) -> bool
    ensures { result ≡ is_originated site.now prefix }
{
    site.origins.contains(&prefix)
}

/// Whether the router is a reflector, and the route has been in its cluster (RFC 4456, 8).
fn has_cluster_loop(site: &SiteConf, attr: &Attr) -> bool
    ensures { result ≡ has_cluster_loop site.now attr.now }
{
    site.reflector && is_among(site.cluster, attr.clusters.as_slice())
}

fn is_among(id: Addr, ids: &[Addr]) -> bool
    ensures { result ≡ list_any (same_addr id) ids.now }
{
    ids.iter().any(|other| id == *other)
}

fn is_denial(action: &Action) -> bool
    ensures { result ≡ is_denial action.now }
{
    match action {
        Action::Deny => true,
        Action::Permit(_) => false,
    }
}

/// Why the router may not choose a peer's route, where the cost to its NEXT_HOP was looked up: the first test that
/// holds.
pub fn exclusion_at(
    site: &SiteConf,
    action: &Action,
    attr: &Attr,
    cost: Option<u32>,
) -> Option<Reason>
    requires { cost ≡ cost_in site.now.costs attr.now.next }
    ensures { result ≡ exclusion site.now action.now attr.now }
{
    if attr.path.holds(site.asn) {
        // The router's AS in its AS_PATH (RFC 4271, 9.1.2).
        Some(Reason::Loop)
    } else if attr.oid == Some(site.me) {
        // The router's address as its ORIGINATOR_ID (RFC 4456, 8).
        Some(Reason::Originator)
    } else if has_cluster_loop(site, attr) {
        // The router's CLUSTER_ID in its CLUSTER_LIST (RFC 4456, 8).
        Some(Reason::Cluster)
    } else if is_denial(action) {
        // The import policy denies it (RFC 4271, 9.1.1).
        Some(Reason::Denied)
    } else if cost.is_none() {
        // No interior walk to its NEXT_HOP (RFC 4271, 9.1.2).
        Some(Reason::Unresolved)
    } else {
        None
    }
}

fn set_preference(action: &Action) -> Option<u32>
    ensures { result ≡ set_preference action.now }
{
    match action {
        Action::Deny => None,
        Action::Permit(settings) => settings.pref,
    }
}

fn set_med(action: &Action, med: Option<u32>) -> Option<u32>
    ensures { result ≡ set_med action.now med }
{
    match action {
        Action::Deny => med,
        Action::Permit(settings) => settings.med.or(med),
    }
}

/// The communities, with the one that the policy adds.
fn set_communities(
    alloc: Global,
    action: &Action,
    communities: &Communities,
) -> Result<Communities, AllocError>
    ensures { IfOk result (λ more. more ≡ set_communities action.now communities.now) }
{
    match action {
        Action::Deny => communities.share(),
        Action::Permit(settings) => communities.with_given(alloc, settings.add),
    }
}

/// The degree of preference (RFC 4271, 9.1.1).
fn preference(external: bool, action: &Action, attr: &Attr) -> u32
    ensures { result ≡ preference external action.now attr.now }
{
    if external {
        set_preference(action).unwrap_or(DEFAULT_PREFERENCE)
    } else {
        attr.pref.unwrap_or(DEFAULT_PREFERENCE)
    }
}

/// Whether the policy leaves MULTI_EXIT_DISC and the communities as they are.
fn leaves_as_received(action: &Action, attr: &Attr) -> bool
    ensures med { IsTrue result → set_med action.now attr.now.med ≡ attr.now.med }
    ensures comms { IsTrue result → set_communities action.now attr.now.comms ≡ attr.now.comms }
{
    let _ = attr;
    match action {
        Action::Deny => true,
        Action::Permit(settings) => settings.med.is_none() && settings.add.is_none(),
    }
}

/// The attributes with the MULTI_EXIT_DISC and the community that the policy gives them.
fn set_by(alloc: Global, action: &Action, attr: &Attr) -> Result<Attr, AllocError>
    ensures { IfOk result (λ a. a ≡ record attr.now {
      med = set_med action.now attr.now.med;
      comms = set_communities action.now attr.now.comms;
    }) }
{
    let comms = set_communities(alloc, action, &attr.comms)?;
    let mut taken = attr.share()?;
    taken.med = set_med(action, attr.med);
    taken.comms = comms;
    Ok(taken)
}

/// The attributes after import: those that were received, shared, where the policy leaves all but LOCAL_PREF as it is.
fn imported(
    alloc: Global,
    external: bool,
    action: &Action,
    attr: &SharedAttr,
) -> Result<ImportedAttr, AllocError>
    ensures { IfOk result (λ a. a ≡ imported external action.now attr.now) }
{
    let pref = Some(preference(external, action, attr.attr()));
    let taken = if leaves_as_received(action, attr.attr()) {
        attr.share()?
    } else {
        SharedAttr::new(alloc, set_by(alloc, action, attr.attr())?)?
    };
    Ok(ImportedAttr::new(taken, pref))
}

/// A peer's route as a candidate; its identifier is the peer's address. It shares the attributes that were received,
/// where the policy leaves all but LOCAL_PREF as it is.
pub fn peer_candidate(
    alloc: Global,
    site: &SiteConf,
    from: &SiteSession,
    action: &Action,
    attr: &SharedAttr,
) -> Result<Candidate, AllocError>
    ensures { IfOk result (λ c. c ≡ peer_candidate site.now from.now action.now attr.now) }
{
    let cost = site.costs.cost(attr.attr().next);
    candidate_at(alloc, from, action, attr, cost.unwrap_or(0))
}

/// The same, at this cost to its NEXT_HOP.
fn candidate_at(
    alloc: Global,
    from: &SiteSession,
    action: &Action,
    attr: &SharedAttr,
    cost: u32,
) -> Result<Candidate, AllocError>
    ensures { IfOk result (λ c. c ≡ record {
      source = FromPeer from.now.peer;
      attr = imported from.now.external action.now attr.now;
      pref = preference from.now.external action.now attr.now;
      external = from.now.external;
      cost = cost;
      ident = from.now.peer;
    }) }
{
    Ok(Candidate {
        source: Source::Peer(from.peer),
        attr: imported(alloc, from.external, action, attr)?,
        pref: preference(from.external, action, attr.attr()),
        external: from.external,
        cost,
        ident: from.peer,
    })
}

/// How a route that the import policy judged stands at the router.
fn judged_standing(
    alloc: Global,
    site: &SiteConf,
    from: &SiteSession,
    action: &Action,
    attr: &SharedAttr,
) -> Result<Standing, AllocError>
    ensures { IfOk result (λ standing. standing ≡ judged_standing site.now from.now action.now attr.now) }
{
    let cost = site.costs.cost(attr.attr().next);
    match exclusion_at(site, action, attr.attr(), cost) {
        Some(reason) => Ok(Standing::Excluded(reason)),
        None => {
            let candidate = candidate_at(alloc, from, action, attr, cost.unwrap_or(0))?;
            Ok(Standing::Considered(candidate))
        }
    }
}

/// How a route from the peer of the session stands at the router. A candidate shares the attributes that were received,
/// where the import policy leaves all but LOCAL_PREF as it is.
pub fn peer_standing(
    alloc: Global,
    site: &SiteConf,
    prefix: Prefix,
    from: &SiteSession,
    attr: &SharedAttr,
) -> Result<Standing, AllocError>
    ensures { IfOk result (λ standing. standing ≡ peer_standing site.now prefix from.now attr.now) }
{
    let action = judge(&from.policy_in, prefix, attr.attr());
    judged_standing(alloc, site, from, &action, attr)
}

/// Puts the router's own route to the prefix among the choice's, if it originates it. An error changes nothing.
pub fn put_own<S: Selector>(
    alloc: Global,
    chosen: &mut S,
    site: &SiteConf,
    prefix: Prefix,
) -> Result<(), AllocError>
    ensures ok { OnOk result (S.standings chosen.new ≡ added (S.standings chosen.old) (own_standings site.now prefix)) }
    ensures err { OnErr result (S.standings chosen.new ≡ S.standings chosen.old) }
{
    if is_originated(site, prefix) {
        let own = own_candidate(alloc, site.me)?;
        chosen.put(Source::Own, Standing::Considered(own))?;
    }
    Ok(())
}

/// Puts a route that was received over the session among the choice's, if the session is up. An error changes nothing.
pub fn put_received<S: Selector>(
    alloc: Global,
    chosen: &mut S,
    site: &SiteConf,
    prefix: Prefix,
    attr: &SharedAttr,
    from: &SiteSession,
) -> Result<(), AllocError>
    ensures ok { OnOk result
        (S.standings chosen.new ≡ added (S.standings chosen.old)
        (option_to_list (standing_over site.now prefix from.now (Some attr.now)))) }
    ensures err { OnErr result (S.standings chosen.new ≡ S.standings chosen.old) }
{
    if from.up {
        let standing = peer_standing(alloc, site, prefix, from, attr)?;
        chosen.put(Source::Peer(from.peer), standing)?;
    }
    Ok(())
}
