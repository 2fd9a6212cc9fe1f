//! Cells that an edit can change, and what is done to each.

ghost use Rattle.std.specs.Prelude.{◌≡◌, ◌++◌, map, IfOk, OnOk};
ghost use Rattle.std.specs.FinMap as finite;
ghost use Rattle.cell_engine.specs.Becomings.{sites_of, recost_in, moved_cell, moved_cells, edit_by, edit_at};

use crate::edits::becoming::Becoming;
use crate::edits::cell_edits::CellEdit;
use crate::hop_table::HopTable;
use crate::route_cell::{Cell, SiteChange};
use net_prefix::Prefix;
use prefix_table::PrefixTable;
use rayon::prelude::*;
use route_select::Selector;
use seq::Seq;
use std::alloc::{AllocError, Global};
use std::marker::Model;
use std::thread::Threads;

/// From how many cells that are decided anew on threads decide them: fewer are decided sooner than threads start.
const WORTH_THREADS: usize = 2_048;

/// The fewest cells that one thread decides.
const LEAST_CELLS: usize = 512;

/// A cell that can change, and what becomes of who keeps it.
#[derive(Drop)]
pub(crate) struct MovedCell<'a, S: Selector> {
    becoming: &'a Becoming<'a>,
    prefix: Prefix,
    cell: &'a Cell<S>,
    /// The cost of its one route, where that is all that becomes of it.
    recost: Option<u32>,
}

impl<'a, S: Selector> Model for MovedCell<'a, S> {
    ghost use Rattle.std.specs.Prelude.{◌≡◌};
    ghost use Rattle.std.specs.Coded.{codes};
    ghost use Rattle.prefix_table.specs.Tables.{coded_prefix};
    ghost use Rattle.cell_engine.specs.CellCoding.{coded_cell};
    ghost use Rattle.cell_engine.specs.Becomings as changes;

    ghost Value = { changes.MovedCell };

    ghost coded = { Prim.hlevel (codes, coded_prefix, coded_cell) };

    ghost view = { λ x. record { becoming = x.becoming.now; prefix = x.prefix; cell = x.cell.now } };

    ghost invariant = { λ x. x.recost ≡ changes.recost_in (changes.sites_of x.becoming.now) x.prefix x.cell.now };
}

impl<'a, S: Selector> MovedCell<'a, S> {
    /// This cell of the prefix, with the cost which is all that becomes of it, if that is so.
    fn of(
        becoming: &'a Becoming<'a>,
        prefix: Prefix,
        cell: &'a Cell<S>,
        recost: Option<u32>,
    ) -> Self
        requires { recost ≡ recost_in (sites_of becoming.now) prefix cell.now }
        ensures { result ≡ record { becoming = becoming.now; prefix = prefix; cell = cell.now } }
    {
        MovedCell {
            becoming,
            prefix,
            cell,
            recost,
        }
    }

    /// Whether another cell takes its place.
    fn is_remade(&self) -> bool {
        self.recost.is_none()
    }
}

impl<'a, S: Selector + Drop> MovedCell<'a, S> {
    /// What is done to the cell: it is decided anew, unless its one route's cost is all that becomes of it.
    fn edit(&self, alloc: Global) -> Result<CellEdit<S>, AllocError>
        ensures { IfOk result (λ edit. edit ≡ edit_at self.now) }
    {
        match self.recost {
            Some(cost) => Ok(CellEdit {
                router: self.becoming.address(),
                prefix: self.prefix,
                remade: None,
                cost,
            }),
            None => self.becoming.remade(alloc, self.prefix, self.cell),
        }
    }
}

/// The cost which is all that becomes of a router's cell. None elsewhere.
fn recost_in<S: Selector>(
    change: &mut Option<SiteChange<'_>>,
    prefix: Prefix,
    cell: &Cell<S>,
) -> Option<u32>
    ensures cost { result ≡ recost_in change.old prefix cell.now }
    ensures stays { change.new ≡ change.old }
{
    match change {
        Some(change) => cell.recost(change, prefix),
        None => None,
    }
}

/// Adds the cell of the prefix, if it can change, by the change of the router's part of the configuration.
fn add_moved<'a, 'b, S: Selector>(
    moved: &mut Seq<MovedCell<'b, S>>,
    becoming: &'b Becoming<'a>,
    change: &mut Option<SiteChange<'_>>,
    prefix: Prefix,
    cell: &'b Cell<S>,
) -> Result<(), AllocError>
where
    'a: 'b,
    requires { change.old ≡ sites_of becoming.now }
    ensures moved { OnOk result (moved.new ≡ moved.old ++ moved_cell becoming.now prefix cell.now) }
    ensures stays { change.new ≡ change.old }
{
    if !becoming.moves(change, prefix, cell) {
        return Ok(());
    }
    let recost = recost_in(change, prefix, cell);
    moved.push(MovedCell::of(becoming, prefix, cell, recost))
}

/// Adds the cells of the table that can change, by prefix. It is not walked where the NEXT_HOP that all its routes have
/// tells that none can.
pub(crate) fn add_table<'a, 'b, S: Selector, T: PrefixTable<Cell<S>>>(
    alloc: Global,
    moved: &mut Seq<MovedCell<'b, S>>,
    becoming: &'b Becoming<'a>,
    table: &'b HopTable<S, T>,
) -> Result<(), AllocError>
where
    'a: 'b,
    ensures { OnOk result (moved.new ≡ moved.old ++ moved_cells becoming.now (finite.entries table.now)) }
{
    if becoming.leaves(table.hops()) {
        return Ok(());
    }
    add_entries(alloc, moved, becoming, table.cells())
}

/// Adds the cells of the table that can change, by prefix.
fn add_entries<'a, 'b, S: Selector, T: PrefixTable<Cell<S>>>(
    alloc: Global,
    moved: &mut Seq<MovedCell<'b, S>>,
    becoming: &'b Becoming<'a>,
    table: &'b T,
) -> Result<(), AllocError>
where
    'a: 'b,
    ensures { OnOk result (moved.new ≡ moved.old ++ moved_cells becoming.now (finite.entries (T.table table.now))) }
{
    let entries = table.entries(alloc)?;
    let mut change = becoming.site_change();
    for entry in &entries {
        add_moved(moved, becoming, &mut change, entry.0, entry.1)?;
    }
    Ok(())
}

/// The cells with what is done to each, in order. Many that are decided anew are shared among threads, in any number:
/// the list is the same.
pub(crate) fn decide<S: Selector + Send + Sync + Drop, R: Threads + Sync>(
    rt: &R,
    alloc: Global,
    moved: &[MovedCell<'_, S>],
) -> Result<Seq<CellEdit<S>>, AllocError>
    ensures { IfOk result (λ edits. edits ≡ map edit_at moved.now) }
{
    if remade_count(moved) < WORTH_THREADS {
        decide_in_turn(alloc, moved)
    } else {
        Ok(Seq::of(decide_in_threads(rt, alloc, moved)?))
    }
}

/// What is done to one cell, where this cost of its one route is all that becomes of it, or else where it is decided
/// anew.
fn edit_by<S: Selector + Drop>(
    alloc: Global,
    recost: Option<u32>,
    becoming: &Becoming<'_>,
    prefix: Prefix,
    cell: &Cell<S>,
) -> Result<CellEdit<S>, AllocError>
    ensures { IfOk result (λ edit. edit ≡ edit_by recost becoming.now prefix cell.now) }
{
    match recost {
        Some(cost) => Ok(CellEdit {
            router: becoming.address(),
            prefix,
            remade: None,
            cost,
        }),
        None => becoming.remade(alloc, prefix, cell),
    }
}

/// The one cell of the prefix with what is done to it, if it can change.
pub(crate) fn decide_cell<S: Selector + Drop>(
    alloc: Global,
    becoming: &Becoming<'_>,
    prefix: Prefix,
    cell: &Cell<S>,
) -> Result<Seq<CellEdit<S>>, AllocError>
    ensures { IfOk result (λ edits. edits ≡ map edit_at (moved_cell becoming.now prefix cell.now)) }
{
    let mut edits = Seq::new(alloc);
    let mut change = becoming.site_change();
    if becoming.moves(&mut change, prefix, cell) {
        let recost = recost_in(&mut change, prefix, cell);
        edits.push(edit_by(alloc, recost, becoming, prefix, cell)?)?;
    }
    Ok(edits)
}

/// How many of the cells are decided anew.
fn remade_count<S: Selector>(moved: &[MovedCell<'_, S>]) -> usize {
    moved.iter().filter(|cell| cell.is_remade()).count()
}

/// The cells with what is done to each, worked out by this thread, one after another.
fn decide_in_turn<S: Selector + Drop>(
    alloc: Global,
    moved: &[MovedCell<'_, S>],
) -> Result<Seq<CellEdit<S>>, AllocError>
    ensures { IfOk result (λ edits. edits ≡ map edit_at moved.now) }
{
    let mut edits = Vec::with_capacity(alloc, moved.len())?;
    for cell in moved {
        edits.push(cell.edit(alloc)?)?;
    }
    Ok(Seq::of(edits))
}

/// The cells with what is done to each, worked out by as many threads as there are processors. One that finds no memory
/// leaves nothing.
fn decide_in_threads<S: Selector + Send + Sync + Drop, R: Threads + Sync>(
    rt: &R,
    alloc: Global,
    moved: &[MovedCell<'_, S>],
) -> Result<Vec<CellEdit<S>>, AllocError>
    ensures { IfOk result (λ edits. edits.items ≡ map edit_at moved.now) }
{
    let decided: Result<Vec<CellEdit<S>>, AllocError> = moved
        .par_iter()
        .with_min_len(LEAST_CELLS)
        .map(
            |cell: &MovedCell<'_, S>| -> Result<CellEdit<S>, AllocError>
                ensures { IfOk result (λ edit. edit ≡ edit_at cell.now) }
            { cell.edit(alloc) },
        )
        .collect(rt, alloc)?;
    decided
}
