//! What a router decides, over its site and what it received.

ghost use Rattle.std.specs.Prelude.{◌≡◌, OnOk, IfOk};
ghost use Rattle.std.specs.List.{filter_map};
ghost use Rattle.reference_machine.specs.Decision.{route_from, standing_from, added, standings};
ghost use Rattle.route_select.specs.Selection.{best_of};
ghost use Rattle.std.specs.Option.{option_to_list, option_copied};

use net_conf::{SiteConf, SiteSession};
use net_prefix::{Addr, Prefix};
use path_attr::SharedAttr;
use reference_machine::{RouteKey, put_own, put_received};
use route_select::{Candidate, Selector};
use seq::Copied;
use std::alloc::{AllocError, Global};
use std::collections::BTreeMap;

/// The route that the router has received from the peer for the prefix.
pub fn route_from(
    received: &BTreeMap<RouteKey, SharedAttr>,
    router: Addr,
    prefix: Prefix,
    peer: Addr,
) -> Option<&SharedAttr>
    ensures { option_copied result ≡ route_from received.now.entries router prefix peer }
{
    received.get(&RouteKey {
        to: router,
        prefix,
        from: peer,
    })
}

/// Adds the route that was received over the session, if there is one and the session is up.
fn add_peer<S: Selector>(
    alloc: Global,
    chosen: &mut S,
    site: &SiteConf,
    prefix: Prefix,
    received: &BTreeMap<RouteKey, SharedAttr>,
    from: &SiteSession,
) -> Result<(), AllocError>
    ensures { OnOk result
        (S.standings chosen.new ≡ added (S.standings chosen.old)
        (option_to_list (standing_from site.now prefix received.now.entries from.now))) }
{
    match route_from(received, site.me, prefix, from.peer) {
        None => Ok(()),
        Some(attr) => put_received(alloc, chosen, site, prefix, attr, from),
    }
}

/// Adds the routes that were received over these sessions of the router.
fn add_peers<S: Selector>(
    alloc: Global,
    chosen: &mut S,
    site: &SiteConf,
    sessions: &[SiteSession],
    prefix: Prefix,
    received: &BTreeMap<RouteKey, SharedAttr>,
) -> Result<(), AllocError>
    ensures { OnOk result
        (S.standings chosen.new ≡ added (S.standings chosen.old)
        (filter_map (standing_from site.now prefix received.now.entries) sessions.now)) }
{
    for from in sessions {
        add_peer(alloc, chosen, site, prefix, received, from)?;
    }
    Ok(())
}

/// How each source's route to the prefix stands at the router.
pub fn standings<S: Selector + Drop>(
    alloc: Global,
    site: &SiteConf,
    prefix: Prefix,
    received: &BTreeMap<RouteKey, SharedAttr>,
) -> Result<S, AllocError>
    ensures { IfOk result (λ chosen. S.standings chosen ≡ standings site.now prefix received.now.entries) }
{
    let mut chosen = S::new(alloc, site.med_always);
    put_own(alloc, &mut chosen, site, prefix)?;
    add_peers(
        alloc,
        &mut chosen,
        site,
        site.sessions.as_slice(),
        prefix,
        received,
    )?;
    Ok(chosen)
}

/// The route that the router chooses.
pub fn best<S: Selector + Drop>(
    alloc: Global,
    site: &SiteConf,
    prefix: Prefix,
    received: &BTreeMap<RouteKey, SharedAttr>,
) -> Result<Option<Candidate>, AllocError>
    ensures { IfOk result (λ route. route ≡ best_of (standings site.now prefix received.now.entries)) }
{
    let chosen: S = standings(alloc, site, prefix, received)?;
    match chosen.best() {
        None => Ok(None),
        Some(candidate) => Ok(Some(candidate.copy(alloc)?)),
    }
}
