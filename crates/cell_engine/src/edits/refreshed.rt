//! Which cells are decided anew at an edit.

ghost use Rattle.std.specs.Prelude.{◌≡◌, None, Some, cond, map, filter, is_some, IfSome, IfOk};
ghost use Rattle.net_conf.specs.RouterSites.{router_site};

use crate::edits::cell_edits::CellEdit;
use crate::state::is_router_again;
use net_conf::Conf;
use net_prefix::{Addr, Prefix};
use route_select::Selector;
use seq::push_some;
use std::alloc::{AllocError, Global};

/// The routers and prefixes of the edited cells, but for those of virtual peers.
pub(crate) fn refreshed_cells<S: Selector>(
    alloc: Global,
    conf: &Conf,
    edits: &[CellEdit<S>],
) -> Result<Vec<(Addr, Prefix)>, AllocError>
    ensures { IfOk result (λ cells.
        cells.items ≡ map (λ x.
        (x.router, x.prefix)) (filter (λ x. is_some (router_site conf.now x.router)) edits.now)) }
{
    let cells = places_of(alloc, edits)?;
    routers_alone(alloc, conf, &cells)
}

/// The routers and prefixes of the edited cells.
fn places_of<S: Selector>(
    alloc: Global,
    edits: &[CellEdit<S>],
) -> Result<Vec<(Addr, Prefix)>, AllocError>
    ensures { IfOk result (λ cells. cells.items ≡ map (λ x. (x.router, x.prefix)) edits.now) }
{
    edits
        .iter()
        .map(|edit| (edit.router, edit.prefix))
        .collect(alloc)
}

/// Those of the routers and prefixes that are not of virtual peers.
fn routers_alone(
    alloc: Global,
    conf: &Conf,
    cells: &[(Addr, Prefix)],
) -> Result<Vec<(Addr, Prefix)>, AllocError>
    ensures { IfOk result (λ some. some.items ≡ filter (λ c. is_some (router_site conf.now c.0)) cells.now) }
{
    let mut last = None;
    let mut some = Vec::with_capacity(alloc, cells.len())?;
    for cell in cells {
        push_some(&mut some, of_router(conf, &mut last, *cell))?;
    }
    Ok(some)
}

/// A router and prefix, unless they are of a virtual peer. The last answer is whether a router stands at some address.
fn of_router(
    conf: &Conf,
    last: &mut Option<(Addr, bool)>,
    cell: (Addr, Prefix),
) -> Option<(Addr, Prefix)>
    requires right { IfSome last.old (λ l. l.1 ≡ is_some (router_site conf.now l.0)) }
    ensures cell { result ≡ cond (is_some (router_site conf.now cell.0)) (Some cell) None }
    ensures right { IfSome last.new (λ l. l.1 ≡ is_some (router_site conf.now l.0)) }
{
    if is_router_again(conf, last, cell.0) {
        Some(cell)
    } else {
        None
    }
}
