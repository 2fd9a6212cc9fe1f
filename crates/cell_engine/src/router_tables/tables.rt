//! The tables of all routers.

ghost use Rattle.std.specs.Prelude.{◌≡◌, [], None, Some, is_some, IfOk, IfErr, OnOk, OnErr};
ghost use Rattle.std.specs.Option.{option_copied, option_map};
ghost use Rattle.std.specs.FinMap.Entries.{find};
ghost use Rattle.net_prefix.specs.Address.{addr_cmp};
ghost use Rattle.cell_engine.specs.RouterTables.{AreByRouter, value_at, with_value, adjusted_at, next_of};

use crate::router_tables::entries::{adjust_in, copy_tables, insert_in, replace_in};
use crate::router_tables::places::{next_in, table_in};
use net_prefix::{Addr, Prefix};
use prefix_table::{Adjust, PrefixTable};
use seq::Copied;
use std::alloc::{AllocError, Global};
use std::marker::{Model, PhantomData};

/// Tables by the address of their router. Look-ups of a router halve a sorted vector; the table of a new router moves
/// those that come after it.
#[derive(Drop)]
pub struct RouterTables<V, T: PrefixTable<V>> {
    entries: Vec<(Addr, T)>,
    /// Where the table stood that changed last: mostly it changes once more.
    last: usize,
    values: PhantomData<V>,
}

impl<V, T: PrefixTable<V>> Model for RouterTables<V, T> {
    ghost use Rattle.std.specs.Prelude.{List};
    ghost use Rattle.std.specs.Coded.{coded_list, coded×};
    ghost use Rattle.std.specs.FinMap as finite;
    ghost use Rattle.net_prefix.specs.declared.addr.Addr as addr;
    ghost use Rattle.net_prefix.specs.contracts.addr.Addr as address;
    ghost use Rattle.prefix_table.specs.Tables.{Table, coded_prefix};
    ghost use Rattle.cell_engine.specs.RouterTables.{AreByRouter, tables_of};

    ghost Value = { List (addr.Addr × Table V) };

    ghost coded = { coded_list (coded× address.the_row.coded (finite.code coded_prefix V.code)) };

    ghost view = { λ s. tables_of T.table s.entries.items };

    ghost invariant = { λ s. AreByRouter s.entries.items };
}

impl<V, T: PrefixTable<V>> RouterTables<V, T> {
    /// No router has a table. It takes no memory.
    pub fn new(alloc: Global) -> Self
        ensures { result ≡ [] }
    {
        RouterTables {
            entries: Vec::new(alloc),
            last: 0,
            values: PhantomData,
        }
    }

    /// The router's table. None where it has none.
    pub fn table(&self, router: Addr) -> Option<&T>
        ensures { option_map T.table (option_copied result) ≡ find addr_cmp router self.now }
    {
        table_in(&self.entries, router)
    }

    /// The first router past this one, or the first of all, that has a table.
    pub fn next_table(&self, past: Option<Addr>) -> Option<Addr>
        ensures { result ≡ next_of self.now past }
    {
        next_in(&self.entries, past)
    }

    /// The value of the router and prefix. None where there is none. The tables are in the order of their routers.
    pub fn get(&self, router: Addr, prefix: Prefix) -> Option<&V>
        ensures value { option_copied result ≡ value_at router prefix self.now }
        ensures by_address { AreByRouter self.now }
    {
        table_in(&self.entries, router)?.get(prefix)
    }

    /// Gives a router and prefix that have a value this one, and hands back the one that they had. It takes no memory.
    /// Where they have none, the error hands back this value, and nothing changes.
    pub fn replace(&mut self, router: Addr, prefix: Prefix, value: V) -> Result<V, V>
        ensures before { IfOk result (λ before. value_at router prefix self.old ≡ Some before) }
        ensures replaced { OnOk result (self.new ≡ with_value router prefix value self.old) }
        ensures absent { OnErr result (value_at router prefix self.old ≡ None) }
        ensures back { IfErr result (λ back. back ≡ value) }
        ensures same { OnErr result (self.new ≡ self.old) }
        ensures by_address { AreByRouter self.old }
    {
        replace_in(&mut self.entries, &mut self.last, router, prefix, value)
    }

    /// Changes the value of the router and prefix where it stands, and says whether there is one. It takes no memory.
    pub fn adjust<A: Adjust<V>>(&mut self, router: Addr, prefix: Prefix, change: &A) -> bool
        ensures there { result ≡ is_some (value_at router prefix self.old) }
        ensures adjusted { self.new ≡ adjusted_at (A.after change.now) router prefix self.old }
    {
        adjust_in(&mut self.entries, &mut self.last, router, prefix, change)
    }
}

impl<V: Drop, T: PrefixTable<V> + Drop> RouterTables<V, T> {
    /// Gives the router and prefix this value. It takes memory only where they have none. For want of memory the error
    /// hands back this value, and nothing changes.
    pub fn insert(&mut self, alloc: Global, router: Addr, prefix: Prefix, value: V) -> Result<(), V>
        ensures ok { OnOk result (self.new ≡ with_value router prefix value self.old) }
        ensures absent { OnErr result (value_at router prefix self.old ≡ None) }
        ensures back { IfErr result (λ back. back ≡ value) }
        ensures err { OnErr result (self.new ≡ self.old) }
    {
        insert_in(
            alloc,
            &mut self.entries,
            &mut self.last,
            router,
            prefix,
            value,
        )
    }
}

impl<V: Drop, T: PrefixTable<V> + Copied> Copied for RouterTables<V, T> {
    fn copy(&self, alloc: Global) -> Result<Self, AllocError> {
        Ok(RouterTables {
            entries: copy_tables(alloc, &self.entries)?,
            last: self.last,
            values: PhantomData,
        })
    }
}
