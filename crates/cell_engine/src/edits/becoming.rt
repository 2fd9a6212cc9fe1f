//! What becomes of who stands at an address, and of a cell there, at an edit.

ghost use Rattle.std.specs.Prelude.{◌≡◌, None, false, IfOk};
ghost use Rattle.std.specs.Bool.{OnTrue};
ghost use Rattle.net_prefix.specs.Prefix as block;
ghost use Rattle.cell_engine.specs.Cells as cells;
ghost use Rattle.cell_engine.specs.Hops.{Have};
ghost use Rattle.cell_engine.specs.Becomings.{sites_of, can_change, change_of, moves_one_of, edit_by};

use crate::edits::cell_edits::CellEdit;
use crate::hop_table::Hops;
use crate::route_cell::{Cell, Outcome, SiteChange, Stays, keep, refresh, refresh_compared};
use net_conf::{Conf, SharedSite};
use net_prefix::{Addr, Prefix};
use route_select::Selector;
use std::alloc::{AllocError, Global};
use std::marker::Model;

/// Who stands at an address when the configuration becomes another: a router, which decides by its part of the
/// configuration, before and after; else a virtual peer, which keeps what it receives, or nobody. Both parts are looked
/// for, and compared, once for all cells.
#[derive(Drop)]
pub(crate) struct Becoming<'a> {
    before: &'a Conf,
    after: &'a Conf,
    address: Addr,
    old: Option<SharedSite>,
    new: Option<SharedSite>,
    stays: Stays,
}

impl<'a> Model for Becoming<'a> {
    ghost use Rattle.std.specs.Prelude.{◌≡◌};
    ghost use Rattle.net_conf.specs.RouterSites.{router_site};
    ghost use Rattle.cell_engine.specs.MoveTests.{stays_of};
    ghost use Rattle.cell_engine.specs.Becomings as changes;

    ghost Value = { changes.Becoming };

    ghost view = { λ x. record { before = x.before.now; after = x.after.now; address = x.address } };

    ghost invariant = { λ x. (x.old ≡ router_site x.before.now x.address) ×
        (x.new ≡ router_site x.after.now x.address) × (x.stays ≡ stays_of x.old x.new) };
}

/// Whether the cost to one of these NEXT_HOPs can become another, or come, or go.
fn moves_one_of(change: &SiteChange<'_>, hops: Hops) -> bool
    ensures { result ≡ moves_one_of change.now hops }
{
    match hops {
        Hops::Nothing => false,
        Hops::Only(next) => change.moves_cost(next),
        Hops::Several => true,
    }
}

impl<'a> Becoming<'a> {
    /// Who stands at the address when the first configuration becomes the second.
    pub fn of(
        alloc: Global,
        before: &'a Conf,
        after: &'a Conf,
        address: Addr,
    ) -> Result<Self, AllocError>
        ensures { IfOk result (λ becoming.
            becoming ≡ record { before = before.now; after = after.now; address = address }) }
    {
        let old = before.shared_site(alloc, address)?;
        let new = after.shared_site(alloc, address)?;
        let stays = Stays::of(&old, &new);
        Ok(Becoming {
            before,
            after,
            address,
            old,
            new,
            stays,
        })
    }

    /// Whose cells they are.
    pub fn address(&self) -> Addr
        ensures { result ≡ self.now.address }
    {
        self.address
    }

    /// The two parts of the configuration, where a router stands before and after.
    pub fn site_change(&self) -> Option<SiteChange<'_>>
        ensures { result ≡ sites_of self.now }
    {
        match (&self.old, &self.new) {
            (Some(old), Some(new)) => Some(SiteChange::of(old.get(), new.get(), self.stays)),
            _ => None,
        }
    }

    /// Whether the cell of the prefix can change. The change is that of the router's part of the configuration.
    pub fn moves<S: Selector>(
        &self,
        change: &mut Option<SiteChange<'_>>,
        prefix: Prefix,
        cell: &Cell<S>,
    ) -> bool
        requires { change.old ≡ sites_of self.now }
        ensures moves { result ≡ can_change self.now prefix cell.now }
        ensures stays { change.new ≡ change.old }
    {
        match (change, &self.old, &self.new) {
            (Some(change), _, _) => cell.is_moved(change, prefix),
            (None, None, Some(site)) => cell.has_route(site.get(), prefix),
            (None, None, None) => cell.loses_route(self.after, self.address),
            _ => true,
        }
    }

    /// Whether no cell can change whose routes have these NEXT_HOPs.
    pub fn leaves(&self, hops: Hops) -> bool
        ensures { OnTrue result ((p : block.Prefix) (h : cells.Cell) → Have hops h.received →
            can_change self.now p h ≡ false) }
    {
        let change = self.site_change();
        match &change {
            Some(change) => change.moves_costs_alone() && !moves_one_of(change, hops),
            None => false,
        }
    }

    /// The cell decided anew, and what is sent for that. A router decides by its new part of the configuration, and
    /// sends what changed against its old one, or where it is new all that it chose; a virtual peer keeps what came
    /// over sessions that are up.
    fn remade_cell<S: Selector + Drop>(
        &self,
        alloc: Global,
        prefix: Prefix,
        cell: &Cell<S>,
    ) -> Result<Outcome<S>, AllocError>
        ensures { IfOk result (λ made. made ≡ (change_of self.now prefix cell.now).outcome) }
    {
        self.after.facts();
        let change = self.site_change();
        match (&change, &self.new) {
            (Some(change), _) => refresh_compared(alloc, change, prefix, cell),
            (None, Some(site)) => refresh(alloc, site.get(), site.get(), prefix, cell),
            (None, None) => Ok(Outcome {
                cell: keep(alloc, self.after, self.address, cell)?,
                sends: Vec::new(alloc),
            }),
        }
    }

    /// What is done to a cell that is decided anew.
    pub fn remade<S: Selector + Drop>(
        &self,
        alloc: Global,
        prefix: Prefix,
        cell: &Cell<S>,
    ) -> Result<CellEdit<S>, AllocError>
        ensures { IfOk result (λ edit. edit ≡ edit_by None self.now prefix cell.now) }
    {
        let outcome = self.remade_cell(alloc, prefix, cell)?;
        Ok(CellEdit {
            router: self.address,
            prefix,
            remade: Some(outcome),
            cost: 0,
        })
    }
}
