//! A table around another one, and what is known of all its routes.

ghost use Rattle.std.specs.Prelude.{◌≡◌, Some, List};
ghost use Rattle.std.specs.FinMap as finite;
ghost use Rattle.net_prefix.specs.declared.addr.Addr as addr;
ghost use Rattle.path_attr.specs.declared.attr.Attr as attr;
ghost use Rattle.cell_engine.specs.Cells as route_cells;
ghost use Rattle.cell_engine.specs.Hops.{Have, AreKnown};

mod hops;

use crate::route_cell::Cell;
pub use hops::Hops;
use net_prefix::{Addr, Prefix};
use prefix_table::{Adjust, PrefixTable};
use route_select::Chosen;
use seq::Copied;
use std::alloc::{AllocError, Global};
use std::marker::{Model, PhantomData};

/// A table of cells that knows the NEXT_HOP of their routes, where they all have the same one: one look tells whether a
/// change of the cost to an address can concern any of them. It knows no more than that, and takes no memory for it.
/// What is known is never taken back: the NEXT_HOP of a route that is gone still counts.
#[derive(Drop)]
pub struct HopTable<S: Chosen, T: PrefixTable<Cell<S>>> {
    cells: T,
    hops: Hops,
    choices: PhantomData<S>,
}

impl<S: Chosen, T: PrefixTable<Cell<S>>> Model for HopTable<S, T> {
    ghost use Rattle.std.specs.FinMap as finite;
    ghost use Rattle.prefix_table.specs.Tables.{Table, coded_prefix};
    ghost use Rattle.cell_engine.specs.Cells.{Cell};
    ghost use Rattle.cell_engine.specs.CellCoding.{coded_cell};
    ghost use Rattle.cell_engine.specs.Hops.{AreKnown};

    ghost Value = { Table Cell };

    ghost coded = { finite.code coded_prefix coded_cell };

    ghost view = { λ s. T.table s.cells };

    ghost invariant = { λ s. AreKnown s.hops (T.table s.cells) };
}

/// What is known once there are the routes of the prefix's cell besides.
fn with_cell<S: Chosen, T: PrefixTable<Cell<S>>>(hops: Hops, cells: &T, prefix: Prefix) -> Hops
    ensures covers { (h : route_cells.Cell) → finite.get (T.table cells.now) prefix ≡ Some h → Have result h.received }
    ensures keeps { (known : List (addr.Addr × attr.Attr)) → Have hops known → Have result known }
{
    if let Hops::Several = hops {
        return hops;
    }
    match cells.get(prefix) {
        Some(cell) => hops.with(cell.received()),
        None => hops,
    }
}

impl<S: Chosen, T: PrefixTable<Cell<S>>> HopTable<S, T> {
    /// What is known of the NEXT_HOPs of all routes in the table.
    pub fn hops(&self) -> Hops
        ensures { AreKnown result self.now }
    {
        self.hops
    }

    /// The cells, in their own table.
    pub fn cells(&self) -> &T
        ensures { T.table result.now ≡ self.now }
    {
        &self.cells
    }
}

impl<S: Chosen, T: PrefixTable<Cell<S>>> PrefixTable<Cell<S>> for HopTable<S, T> {
    ghost table = { λ t. t };

    fn new(alloc: Global) -> Self {
        HopTable {
            cells: T::new(alloc),
            hops: Hops::Nothing,
            choices: PhantomData,
        }
    }

    fn get(&self, prefix: Prefix) -> Option<&Cell<S>> {
        self.cells.get(prefix)
    }

    fn insert(&mut self, prefix: Prefix, value: Cell<S>) -> Result<Option<Cell<S>>, Cell<S>> {
        let hops = self.hops.with(value.received());
        let inserted = self.cells.insert(prefix, value);
        if inserted.is_ok() {
            self.hops = hops;
        }
        inserted
    }

    fn replace(&mut self, prefix: Prefix, value: Cell<S>) -> Result<Cell<S>, Cell<S>> {
        let hops = self.hops.with(value.received());
        let replaced = self.cells.replace(prefix, value);
        if replaced.is_ok() {
            self.hops = hops;
        }
        replaced
    }

    fn adjust<A: Adjust<Cell<S>>>(&mut self, prefix: Prefix, change: &A) -> bool {
        if !self.cells.adjust(prefix, change) {
            return false;
        }
        self.hops = with_cell(self.hops, &self.cells, prefix);
        true
    }

    fn longest(&self, addr: Addr, most: u8) -> Option<(Prefix, &Cell<S>)> {
        self.cells.longest(addr, most)
    }

    fn next_after(&self, after: Option<Prefix>) -> Option<(Prefix, &Cell<S>)> {
        self.cells.next_after(after)
    }

    fn entries(&self, alloc: Global) -> Result<Vec<(Prefix, &Cell<S>)>, AllocError> {
        self.cells.entries(alloc)
    }
}

impl<S: Chosen + Drop, T: PrefixTable<Cell<S>> + Copied> Copied for HopTable<S, T> {
    fn copy(&self, alloc: Global) -> Result<Self, AllocError> {
        Ok(HopTable {
            cells: self.cells.copy(alloc)?,
            hops: self.hops,
            choices: PhantomData,
        })
    }
}
