//! What a router has chosen.

ghost use Rattle.std.specs.Prelude.{◌≡◌, false, IfOk};
ghost use Rattle.net_conf.specs.Configuration.{is_virtual};
ghost use Rattle.route_select.specs.Selection.{best_of};
ghost use Rattle.reference_machine.specs.Reports.{held_of, loc_rib, choice};
ghost use Rattle.cell_engine.specs.State.{network};

use crate::sim_report::cells::{Line, lines};
use cell_engine::{Cell, State};
use net_prefix::{Addr, Prefix};
use prefix_table::PrefixTable;
use reference_machine::held_of;
use route_select::Selector;
use sim_event::Held;
use std::alloc::{AllocError, Global};

/// The route that is chosen in a cell.
struct RouteChosen;

impl<S: Selector> Line<S, Held> for RouteChosen {
    ghost use Rattle.cell_engine.specs.Reporting.{held_in};

    ghost said = { λ _. held_in };

    fn of_cell(
        &self,
        _alloc: Global,
        prefix: Prefix,
        cell: &Cell<S>,
    ) -> Result<Option<Held>, AllocError> {
        held_in(prefix, cell)
    }
}

/// The router's choices, in order of prefix (RFC 4271, 3.2): what is chosen in its cells.
pub(crate) fn loc_rib<S: Selector, T: PrefixTable<Cell<S>>>(
    alloc: Global,
    state: &State<S, T>,
    router: Addr,
) -> Result<Vec<Held>, AllocError>
    requires { is_virtual state.now.conf router ≡ false }
    ensures { IfOk result (λ routes. routes.items ≡ loc_rib (network state.now) router) }
{
    state.facts();
    lines(alloc, state, router, &RouteChosen)
}

/// The router's choice for the prefix: its cell has it.
pub(crate) fn choice<S: Selector, T: PrefixTable<Cell<S>>>(
    state: &State<S, T>,
    router: Addr,
    prefix: Prefix,
) -> Result<Option<Held>, AllocError>
    requires { is_virtual state.now.conf router ≡ false }
    ensures { IfOk result (λ held. held ≡ choice (network state.now) router prefix) }
{
    state.facts();
    match state.cell(router, prefix) {
        None => Ok(None),
        Some(cell) => held_in(prefix, cell),
    }
}

/// The route that is chosen in the cell. It shares the route's lists: the only fault is that 2^63 owners share one.
fn held_in<S: Selector>(prefix: Prefix, cell: &Cell<S>) -> Result<Option<Held>, AllocError>
    ensures { IfOk result (λ held. held ≡ held_of prefix (best_of cell.now.standings)) }
{
    held_of(prefix, cell.best())
}
