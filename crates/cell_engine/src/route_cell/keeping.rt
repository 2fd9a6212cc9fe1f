//! What is left of a virtual peer's cell when the configuration changes.

ghost use Rattle.std.specs.Prelude.{◌≡◌, false, filter, IfOk};
ghost use Rattle.net_conf.specs.Costs.{is_up};
ghost use Rattle.route_select.specs.Selection.{no_standings};

use crate::route_cell::cell::Cell;
use net_conf::Conf;
use net_prefix::Addr;
use route_select::Selector;
use std::alloc::{AllocError, Global};

/// What a virtual peer does when the configuration becomes this one (RFC 4271, 6 and 8): what it received over sessions
/// that are down is removed. It decides nothing and sends nothing. Want of memory is the only error.
pub fn keep<S: Selector + Drop>(
    alloc: Global,
    conf: &Conf,
    peer: Addr,
    cell: &Cell<S>,
) -> Result<Cell<S>, AllocError>
    ensures { IfOk result (λ kept.
        kept ≡ record {
          received = filter (λ e. is_up conf.now e.0 peer) cell.now.received;
          standings = no_standings false;
        }) }
{
    let received = cell.received.kept_by(alloc, conf, peer)?;
    Ok(Cell::undecided(alloc, received, false))
}
