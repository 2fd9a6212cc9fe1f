//! How the routes stand at a router, decided afresh or after one message.

ghost use Rattle.std.specs.Prelude.{◌≡◌, OnOk, IfOk};
ghost use Rattle.std.specs.List.{filter_map};
ghost use Rattle.std.specs.Option.{option_to_list};
ghost use Rattle.reference_machine.specs.Decision.{added};
ghost use Rattle.cell_engine.specs.Cells.{standing_of, standings_by};
ghost use Rattle.cell_engine.specs.Updates.{standings_after};

use crate::route_cell::received_routes::ReceivedRoutes;
use net_conf::{SiteConf, SiteSession};
use net_prefix::{Addr, Prefix};
use reference_machine::{put_own, put_received};
use route_select::{Selector, Source};
use session_queue::Message;
use std::alloc::{AllocError, Global};

/// Puts the route that was received over the session, if there is one and the session is up.
fn put_peer<S: Selector>(
    alloc: Global,
    chosen: &mut S,
    site: &SiteConf,
    prefix: Prefix,
    received: &ReceivedRoutes,
    from: &SiteSession,
) -> Result<(), AllocError>
    ensures { OnOk result
        (S.standings chosen.new ≡ added (S.standings chosen.old)
        (option_to_list (standing_of site.now prefix received.now from.now))) }
{
    match received.route_of(from.peer) {
        None => Ok(()),
        Some(attr) => put_received(alloc, chosen, site, prefix, attr, from),
    }
}

/// Puts the routes that were received over these sessions of the router.
fn put_peers<S: Selector>(
    alloc: Global,
    chosen: &mut S,
    site: &SiteConf,
    sessions: &[SiteSession],
    prefix: Prefix,
    received: &ReceivedRoutes,
) -> Result<(), AllocError>
    ensures { OnOk result
        (S.standings chosen.new ≡ added (S.standings chosen.old)
        (filter_map (standing_of site.now prefix received.now) sessions.now)) }
{
    for from in sessions {
        put_peer(alloc, chosen, site, prefix, received, from)?;
    }
    Ok(())
}

/// How each source's route to the prefix stands at the router, by what it has received, and how it compares them.
pub(crate) fn decide<S: Selector + Drop>(
    alloc: Global,
    site: &SiteConf,
    prefix: Prefix,
    received: &ReceivedRoutes,
) -> Result<S, AllocError>
    ensures { IfOk result (λ chosen. S.standings chosen ≡ standings_by site.now prefix received.now) }
{
    let mut chosen = S::new(alloc, site.med_always);
    put_own(alloc, &mut chosen, site, prefix)?;
    put_peers(
        alloc,
        &mut chosen,
        site,
        site.sessions.as_slice(),
        prefix,
        received,
    )?;
    Ok(chosen)
}

/// Takes the sender's message into the choice: its route is put, where their session is up, or dropped.
pub(crate) fn take<S: Selector>(
    alloc: Global,
    chosen: &mut S,
    site: &SiteConf,
    sender: Addr,
    message: &Message,
) -> Result<(), AllocError>
    ensures { OnOk result
        (S.standings chosen.new ≡ standings_after site.now sender message.now (S.standings chosen.old)) }
{
    match message {
        Message::Update(prefix, attr) => match site.session(sender) {
            None => Ok(()),
            Some(from) => put_received(alloc, chosen, site, *prefix, attr, from),
        },
        Message::Withdraw(_) => {
            chosen.drop_source(Source::Peer(sender));
            Ok(())
        }
    }
}
