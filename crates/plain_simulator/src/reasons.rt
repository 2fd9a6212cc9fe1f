//! Why each route of a router to a prefix was chosen or dropped.

ghost use Rattle.std.specs.Prelude.{◌≡◌, fold, option_map, IfOk, OnOk};
ghost use Rattle.std.specs.List.{filter_map};
ghost use Rattle.std.specs.Option.{option_to_list};
ghost use Rattle.std.specs.BTreeSet.{insert_key};
ghost use Rattle.std.specs.FinMap as finite;
ghost use Rattle.route_select.specs.Selection.{source_cmp, reason_in};
ghost use Rattle.reference_machine.specs.Decision.{own_standings, standing_over, standing_from, routes_at, standings};
ghost use Rattle.reference_machine.specs.Reports.{reasons_of, reasons_at};

use crate::decide::{route_from, standings};
use net_conf::{SiteConf, SiteSession};
use net_prefix::Prefix;
use path_attr::SharedAttr;
use reference_machine::{RouteKey, is_originated};
use route_select::{Chosen, Reason, Selector, Source};
use std::alloc::{AllocError, Global};
use std::collections::{BTreeMap, BTreeSet};

/// Why each route to the prefix was chosen or dropped, at a site that may be there.
pub fn reasons_at<S: Selector + Drop>(
    alloc: Global,
    site: &Option<SiteConf>,
    prefix: Prefix,
    received: &BTreeMap<RouteKey, SharedAttr>,
) -> Result<Vec<(Source, Reason)>, AllocError>
    ensures { IfOk result (λ found. found.items ≡ reasons_at prefix received.now.entries site.now) }
{
    match site {
        None => Ok(Vec::new(alloc)),
        Some(site) => reasons_of::<S>(alloc, site, prefix, received),
    }
}

/// Why each route to the prefix was chosen or dropped.
fn reasons_of<S: Selector + Drop>(
    alloc: Global,
    site: &SiteConf,
    prefix: Prefix,
    received: &BTreeMap<RouteKey, SharedAttr>,
) -> Result<Vec<(Source, Reason)>, AllocError>
    ensures { IfOk result (λ found. found.items ≡ reasons_of (standings site.now prefix received.now.entries)) }
{
    let chosen: S = standings(alloc, site, prefix, received)?;
    let sources = sources_at(alloc, site, prefix, received)?;
    reasons_for(alloc, &chosen, &sources)
}

/// Why the routes of these sources were chosen or dropped.
fn reasons_for<S: Chosen>(
    alloc: Global,
    chosen: &S,
    sources: &BTreeSet<Source>,
) -> Result<Vec<(Source, Reason)>, AllocError>
    ensures { IfOk result (λ reasons.
        reasons.items ≡ filter_map (λ source.
        option_map (λ reason. (source, reason)) (reason_in (S.standings chosen.now) source)) sources.now.keys) }
{
    sources
        .iter()
        .filter_map(|source| why(chosen, *source))
        .collect(alloc)
}

/// The source, and why its route was chosen or dropped, where it is known.
fn why<S: Chosen>(chosen: &S, source: Source) -> Option<(Source, Reason)>
    ensures { result ≡ option_map (λ reason. (source, reason)) (reason_in (S.standings chosen.now) source) }
{
    match chosen.reason(source) {
        None => None,
        Some(reason) => Some((source, reason)),
    }
}

/// The sources of routes to the prefix, each once: the router itself first, then its peers, by address.
fn sources_at(
    alloc: Global,
    site: &SiteConf,
    prefix: Prefix,
    received: &BTreeMap<RouteKey, SharedAttr>,
) -> Result<BTreeSet<Source>, AllocError>
    ensures { IfOk result (λ sources.
        sources.keys ≡ finite.keys (standings site.now prefix received.now.entries).known) }
{
    let mut sources = BTreeSet::new(alloc);
    add_own(&mut sources, site, prefix)?;
    add_peers(
        &mut sources,
        site,
        site.sessions.as_slice(),
        prefix,
        received,
    )?;
    Ok(sources)
}

/// Adds the router itself, if it originates the prefix.
fn add_own(
    sources: &mut BTreeSet<Source>,
    site: &SiteConf,
    prefix: Prefix,
) -> Result<(), AllocError>
    ensures { OnOk result
        (sources.new.keys ≡ fold (λ ks e. insert_key source_cmp ks e.0) sources.old.keys
        (own_standings site.now prefix)) }
{
    if is_originated(site, prefix) {
        sources.insert(Source::Own)?;
    }
    Ok(())
}

/// Adds the peers of these sessions whose routes count.
fn add_peers(
    sources: &mut BTreeSet<Source>,
    site: &SiteConf,
    sessions: &[SiteSession],
    prefix: Prefix,
    received: &BTreeMap<RouteKey, SharedAttr>,
) -> Result<(), AllocError>
    ensures { OnOk result
        (sources.new.keys ≡ fold (λ ks e. insert_key source_cmp ks e.0) sources.old.keys
        (filter_map (standing_from site.now prefix received.now.entries) sessions.now)) }
{
    for from in sessions {
        add_peer(sources, site, prefix, received, from)?;
    }
    Ok(())
}

/// Adds the peer of the session, if its route to the prefix counts.
fn add_peer(
    sources: &mut BTreeSet<Source>,
    site: &SiteConf,
    prefix: Prefix,
    received: &BTreeMap<RouteKey, SharedAttr>,
    from: &SiteSession,
) -> Result<(), AllocError>
    ensures { OnOk result
        (sources.new.keys ≡ fold (λ ks e. insert_key source_cmp ks e.0) sources.old.keys
        (option_to_list (standing_from site.now prefix received.now.entries from.now))) }
{
    if route_from(received, site.me, prefix, from.peer).is_some() && from.up {
        sources.insert(Source::Peer(from.peer))?;
    }
    Ok(())
}
