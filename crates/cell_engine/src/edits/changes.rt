//! Whose cells an edit can change, and what is done to them.

ghost use Rattle.std.specs.Prelude.{◌≡◌, ◌++◌, IfOk, OnOk};
ghost use Rattle.std.specs.FinMap as finite;
ghost use Rattle.net_conf.specs.Concerned.{ConcernsAlone};
ghost use Rattle.net_conf.specs.declared.edit.Scope.TheVariants.{Network, Site, Route};
ghost use Rattle.cell_engine.specs.RouterTables.{table_at};
ghost use Rattle.cell_engine.specs.Changes.{router_changes, changes_in};
ghost use Rattle.cell_engine.specs.Moves.{moves};
ghost use Rattle.cell_engine.specs.CellEdits.{whole_changes};
ghost use Rattle.cell_engine.specs.Becomings.{AreOf, moved_cells, all_moved, all_changes};

use crate::edits::becoming::Becoming;
use crate::edits::cell_edits::CellEdit;
use crate::edits::moved_cells::{MovedCell, add_table, decide, decide_cell};
use crate::route_cell::Cell;
use crate::state::State;
use net_conf::Conf;
use net_prefix::{Addr, Prefix};
use prefix_table::PrefixTable;
use route_select::Selector;
use seq::Seq;
use std::alloc::{AllocError, Global};
use std::collections::BTreeSet;
use std::thread::Threads;

impl<S: Selector, T: PrefixTable<Cell<S>>> State<S, T> {
    /// Adds the router, if the edit concerns it: else none of its cells can change.
    fn add_concerned<'a>(
        &'a self,
        becomings: &mut Seq<Becoming<'a>>,
        conf: &'a Conf,
        concerned: &BTreeSet<Addr>,
        router: Addr,
    ) -> Result<(), AllocError>
        requires { ConcernsAlone self.now.conf conf.now concerned.now.keys }
        ensures more { OnOk result
            (all_changes becomings.new self.now.tables ≡ all_changes becomings.old self.now.tables ++ router_changes
            (moves self.now.conf conf.now) self.now.conf conf.now router
            (finite.entries (table_at router self.now.tables))) }
        ensures of { OnOk result (AreOf self.now.conf becomings.old → AreOf self.now.conf becomings.new) }
    {
        self.facts();
        if !concerned.contains(&router) {
            return Ok(());
        }
        becomings.push(Becoming::of(self.alloc, self.conf.get(), conf, router)?)
    }

    /// The routers that the edit concerns, of those that have cells, by address.
    fn concerned_routers<'a>(
        &'a self,
        conf: &'a Conf,
        concerned: &BTreeSet<Addr>,
    ) -> Result<Seq<Becoming<'a>>, AllocError>
        requires { ConcernsAlone self.now.conf conf.now concerned.now.keys }
        ensures all { IfOk result (λ becomings.
            all_changes becomings self.now.tables ≡ changes_in Network self.now.conf conf.now self.now.tables) }
        ensures of { IfOk result (AreOf self.now.conf) }
    {
        self.facts();
        let mut becomings = Seq::new(self.alloc);
        let mut past = None;
        'walk: loop {
            match self.next_table(past) {
                None => return Ok(becomings),
                Some(router) => {
                    self.add_concerned(&mut becomings, conf, concerned, router)?;
                    past = Some(router);
                }
            }
        }
    }

    /// Adds the cells that can change of whom this becomes of, by prefix.
    fn add_moved<'a>(
        &'a self,
        moved: &mut Seq<MovedCell<'a, S>>,
        becoming: &'a Becoming<'a>,
    ) -> Result<(), AllocError>
        ensures { OnOk result
            (moved.new ≡ moved.old ++ moved_cells becoming.now
            (finite.entries (table_at becoming.now.address self.now.tables))) }
    {
        match self.tables.table(becoming.address()) {
            None => Ok(()),
            Some(table) => add_table(self.alloc, moved, becoming, table),
        }
    }

    /// The cells that can change of whom these become of, in their order, then by prefix.
    fn moved_cells<'a>(
        &'a self,
        becomings: &'a [Becoming<'a>],
    ) -> Result<Seq<MovedCell<'a, S>>, AllocError>
        ensures { IfOk result (λ moved. moved ≡ all_moved becomings.now self.now.tables) }
    {
        let mut moved = Seq::new(self.alloc);
        for becoming in becomings {
            self.add_moved(&mut moved, becoming)?;
        }
        Ok(moved)
    }
}

impl<S: Selector + Drop, T: PrefixTable<Cell<S>> + Drop> State<S, T> {
    /// The cell of the router and prefix, where it can change, with what is done to it when the configuration becomes
    /// this one.
    pub(crate) fn route_changes<'a>(
        &'a self,
        conf: &'a Conf,
        router: Addr,
        prefix: Prefix,
    ) -> Result<Seq<CellEdit<S>>, AllocError>
        ensures { IfOk result (λ edits.
            whole_changes self.now.tables edits ≡ changes_in
            (Route router prefix) self.now.conf conf.now self.now.tables) }
    {
        self.facts();
        let Some(cell) = self.cell(router, prefix) else {
            return Ok(Seq::new(self.alloc));
        };
        let becoming = Becoming::of(self.alloc, self.conf.get(), conf, router)?;
        let changes = decide_cell(self.alloc, &becoming, prefix, cell);
        drop(becoming);
        changes
    }
}

impl<S: Selector + Send + Sync + Drop, T: PrefixTable<Cell<S>> + Drop> State<S, T> {
    /// The cells that can change of whom these become of, with what is done to each, in their order, then by prefix.
    fn changes_of<'a, R: Threads + Sync>(
        &'a self,
        rt: &R,
        becomings: &'a [Becoming<'a>],
    ) -> Result<Seq<CellEdit<S>>, AllocError>
        requires { AreOf self.now.conf becomings.now }
        ensures { IfOk result (λ made. whole_changes self.now.tables made ≡ all_changes becomings.now self.now.tables) }
    {
        self.facts();
        let moved = self.moved_cells(becomings)?;
        decide(rt, self.alloc, moved.as_slice())
    }

    /// The cells that can change, with what is done to each when the configuration becomes this one, by router and
    /// prefix. The edit concerns these alone.
    pub(crate) fn network_changes<'a, R: Threads + Sync>(
        &'a self,
        rt: &R,
        conf: &'a Conf,
        concerned: &BTreeSet<Addr>,
    ) -> Result<Seq<CellEdit<S>>, AllocError>
        requires { ConcernsAlone self.now.conf conf.now concerned.now.keys }
        ensures { IfOk result (λ edits.
            whole_changes self.now.tables edits ≡ changes_in Network self.now.conf conf.now self.now.tables) }
    {
        let becomings = self.concerned_routers(conf, concerned)?;
        self.changes_of(rt, becomings.as_slice())
    }

    /// The cells of the router that can change, with what is done to each when the configuration becomes this one.
    pub(crate) fn site_changes<'a, R: Threads + Sync>(
        &'a self,
        rt: &R,
        conf: &'a Conf,
        router: Addr,
    ) -> Result<Seq<CellEdit<S>>, AllocError>
        ensures { IfOk result (λ edits.
            whole_changes self.now.tables edits ≡ changes_in (Site router) self.now.conf conf.now self.now.tables) }
    {
        let Some(_) = self.table(router) else {
            return Ok(Seq::new(self.alloc));
        };
        let mut becomings = Seq::new(self.alloc);
        becomings.push(Becoming::of(self.alloc, self.conf.get(), conf, router)?)?;
        self.changes_of(rt, becomings.as_slice())
    }
}
