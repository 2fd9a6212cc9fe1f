//! What a router has received from a peer, and what it advertises to one.

ghost use Rattle.std.specs.Prelude.{◌≡◌, false, [], if◌then◌else◌, IfOk};
ghost use Rattle.std.specs.List.{filter_map};
ghost use Rattle.net_conf.specs.Configuration.{is_virtual};
ghost use Rattle.reference_machine.specs.Reports.{adj_rib_in, adj_rib_out};
ghost use Rattle.cell_engine.specs.State.{network};
ghost use Rattle.cell_engine.specs.Reporting.{cells_of, route_in};

use crate::sim_report::cells::{Line, lines};
use cell_engine::{Cell, State};
use net_conf::SiteConf;
use net_prefix::{Addr, Prefix};
use path_attr::SharedAttr;
use prefix_table::PrefixTable;
use reference_machine::advert_of;
use route_select::Selector;
use std::alloc::{AllocError, Global};

/// The route from the peer in a cell, as received.
#[derive(Drop)]
struct RouteFrom {
    peer: Addr,
}

impl<S: Selector> Line<S, (Prefix, SharedAttr)> for RouteFrom {
    ghost use Rattle.cell_engine.specs.Reporting.{route_in};

    ghost said = { λ line. route_in line.peer };

    fn of_cell(
        &self,
        _alloc: Global,
        prefix: Prefix,
        cell: &Cell<S>,
    ) -> Result<Option<(Prefix, SharedAttr)>, AllocError> {
        match cell.received_from(self.peer) {
            None => Ok(None),
            Some(attr) => Ok(Some((prefix, attr.share()?))),
        }
    }
}

/// What the router of the site advertises to the peer of the best route of a cell.
#[derive(Drop)]
struct AdvertTo<'a> {
    up: bool,
    site: Option<&'a SiteConf>,
    peer: Addr,
}

impl<'a, S: Selector> Line<S, (Prefix, SharedAttr)> for AdvertTo<'a> {
    ghost use Rattle.std.specs.Option.{option_map, option_copied};
    ghost use Rattle.route_select.specs.Selection.{best_of};
    ghost use Rattle.reference_machine.specs.Advertising.{advert_of};

    ghost said = { λ line e.
        option_map (λ attr. (e.0, attr))
        (advert_of line.up (option_copied line.site) line.peer e.0 (best_of e.1.standings)) };

    fn of_cell(
        &self,
        alloc: Global,
        prefix: Prefix,
        cell: &Cell<S>,
    ) -> Result<Option<(Prefix, SharedAttr)>, AllocError> {
        match advert_of(alloc, self.up, self.site, self.peer, prefix, cell.best())? {
            None => Ok(None),
            Some(attr) => Ok(Some((prefix, attr))),
        }
    }
}

/// The router's Adj-RIB-In of the peer (RFC 4271, 3.2), in order of prefix; empty while the session is down.
pub(crate) fn adj_rib_in<S: Selector, T: PrefixTable<Cell<S>>>(
    alloc: Global,
    state: &State<S, T>,
    router: Addr,
    peer: Addr,
) -> Result<Vec<(Prefix, SharedAttr)>, AllocError>
    ensures { IfOk result (λ routes. routes.items ≡ adj_rib_in (network state.now) router peer) }
{
    state.facts();
    let up = state.conf().is_up(router, peer);
    received_if_up(alloc, state, router, peer, up)
}

/// The routes from the peer in the router's cells, if their session is up.
fn received_if_up<S: Selector, T: PrefixTable<Cell<S>>>(
    alloc: Global,
    state: &State<S, T>,
    router: Addr,
    peer: Addr,
    up: bool,
) -> Result<Vec<(Prefix, SharedAttr)>, AllocError>
    ensures { IfOk result (λ routes.
        routes.items ≡ (if up then filter_map (route_in peer) (cells_of router state.now.tables) else [])) }
{
    if up {
        lines(alloc, state, router, &RouteFrom { peer })
    } else {
        Ok(Vec::new(alloc))
    }
}

/// The router's Adj-RIB-Out for the peer (RFC 4271, 3.2), in order of prefix.
pub(crate) fn adj_rib_out<S: Selector, T: PrefixTable<Cell<S>>>(
    alloc: Global,
    state: &State<S, T>,
    router: Addr,
    peer: Addr,
) -> Result<Vec<(Prefix, SharedAttr)>, AllocError>
    requires { is_virtual state.now.conf router ≡ false }
    ensures { IfOk result (λ routes. routes.items ≡ adj_rib_out (network state.now) router peer) }
{
    state.facts();
    let up = state.conf().is_up(router, peer);
    let made = state.made_site(router)?;
    let site = state.site(router, &made);
    let routes = lines(alloc, state, router, &AdvertTo { up, site, peer });
    drop(made);
    routes
}
