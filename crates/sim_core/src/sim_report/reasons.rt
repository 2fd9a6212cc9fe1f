//! Why routes were chosen or dropped.

ghost use Rattle.std.specs.Prelude.{◌≡◌, false, IfOk};
ghost use Rattle.net_conf.specs.Configuration.{is_virtual};
ghost use Rattle.reference_machine.specs.Reports.{reasons};
ghost use Rattle.cell_engine.specs.State.{network};
ghost use Rattle.cell_engine.specs.Reporting.{reason_at, reasons_in};

use cell_engine::{Cell, State};
use net_prefix::{Addr, Prefix};
use prefix_table::PrefixTable;
use route_select::{Chosen, Reason, Selector, Source};
use seq::push_some;
use std::alloc::{AllocError, Global};

/// Why each route of the router to the prefix was chosen or dropped: its own first, then those of its peers, by
/// address.
pub(crate) fn reasons<S: Selector, T: PrefixTable<Cell<S>>>(
    alloc: Global,
    state: &State<S, T>,
    router: Addr,
    prefix: Prefix,
) -> Result<Vec<(Source, Reason)>, AllocError>
    requires { is_virtual state.now.conf router ≡ false }
    ensures { IfOk result (λ found. found.items ≡ reasons (network state.now) router prefix) }
{
    state.facts();
    match state.cell(router, prefix) {
        None => Ok(Vec::new(alloc)),
        Some(cell) => reasons_in(alloc, cell),
    }
}

/// Why each route of the cell was chosen or dropped: the router's own, then those of the senders.
fn reasons_in<S: Selector>(
    alloc: Global,
    cell: &Cell<S>,
) -> Result<Vec<(Source, Reason)>, AllocError>
    ensures { IfOk result (λ found. found.items ≡ reasons_in cell.now) }
{
    let mut found = Vec::new(alloc);
    push_some(&mut found, reason_at(cell, Source::Own))?;
    let mut past = None;
    'walk: loop {
        match cell.next_received(past) {
            None => return Ok(found),
            Some((sender, _)) => {
                push_some(&mut found, reason_at(cell, Source::Peer(sender)))?;
                past = Some(sender);
            }
        }
    }
}

/// The source, and why its route was chosen or dropped, where it has one.
fn reason_at<S: Selector>(cell: &Cell<S>, source: Source) -> Option<(Source, Reason)>
    ensures { result ≡ reason_at cell.now.standings source }
{
    match cell.reason(source) {
        None => None,
        Some(reason) => Some((source, reason)),
    }
}
