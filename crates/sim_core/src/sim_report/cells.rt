//! A walk over a router's cells, in order of prefix.

ghost use Rattle.std.specs.Prelude.{◌≡◌, IfOk};
ghost use Rattle.std.specs.List.{filter_map};
ghost use Rattle.cell_engine.specs.Reporting.{cells_of};

use cell_engine::{Cell, State};
use net_prefix::{Addr, Prefix};
use prefix_table::PrefixTable;
use route_select::Selector;
use seq::push_some;
use std::alloc::{AllocError, Global};

/// What a report says of each cell.
pub(crate) trait Line<S: Selector, X> {
    ghost use Rattle.std.specs.Prelude.{◌≡◌, Option, IfOk};
    ghost use Rattle.net_prefix.specs.Prefix.{Prefix};
    ghost use Rattle.cell_engine.specs.Cells.{Cell};

    /// What it says of a cell, if anything.
    ghost said: { Self → Prefix × Cell → Option X };

    /// What it says of this cell.
    fn of_cell(
        &self,
        alloc: Global,
        prefix: Prefix,
        cell: &Cell<S>,
    ) -> Result<Option<X>, AllocError>
        ensures { IfOk result (λ item. item ≡ said self.now (prefix, cell.now)) };
}

/// What is said of the router's cells, in order of prefix. Nothing is kept that is not said.
pub(crate) fn lines<S: Selector, T: PrefixTable<Cell<S>>, X: Drop, L: Line<S, X>>(
    alloc: Global,
    state: &State<S, T>,
    router: Addr,
    line: &L,
) -> Result<Vec<X>, AllocError>
    ensures { IfOk result (λ items. items.items ≡ filter_map (L.said line.now) (cells_of router state.now.tables)) }
{
    let mut items = Vec::new(alloc);
    let Some(table) = state.table(router) else {
        return Ok(items);
    };
    let mut after = None;
    'walk: loop {
        match table.next_after(after) {
            None => return Ok(items),
            Some(entry) => {
                push_some(&mut items, line.of_cell(alloc, entry.0, entry.1)?)?;
                after = Some(entry.0);
            }
        }
    }
}
