//! Writes into a vector of tables in the order of the routers, and copies of it.

ghost use Rattle.std.specs.Prelude.{◌≡◌, None, Some, is_some, IfOk, IfErr, OnOk, OnErr};
ghost use Rattle.cell_engine.specs.RouterTables.{AreByRouter, tables_of, value_at, with_value, adjusted_at};

use crate::router_tables::places::place_from;
use net_prefix::{Addr, Prefix};
use prefix_table::{Adjust, PrefixTable};
use seq::Copied;
use std::alloc::{AllocError, Global};

/// Gives the router and prefix this value. The router's table is looked for first at the place of the last one.
pub(crate) fn insert_in<V: Drop, T: PrefixTable<V> + Drop>(
    alloc: Global,
    entries: &mut Vec<(Addr, T)>,
    last: &mut usize,
    router: Addr,
    prefix: Prefix,
    value: V,
) -> Result<(), V>
    requires { AreByRouter entries.old.items }
    ensures ok { OnOk result
        (tables_of T.table entries.new.items ≡ with_value router prefix value (tables_of T.table entries.old.items)) }
    ensures absent { OnErr result (value_at router prefix (tables_of T.table entries.old.items) ≡ None) }
    ensures back { IfErr result (λ back. back ≡ value) }
    ensures err { OnErr result (tables_of T.table entries.new.items ≡ tables_of T.table entries.old.items) }
{
    match place_from(entries, *last, router) {
        Ok(at) => {
            *last = at;
            match entries[at].1.insert(prefix, value) {
                Ok(_) => Ok(()),
                Err(back) => Err(back),
            }
        }
        Err(at) => {
            if entries.reserve(1).is_err() {
                return Err(value);
            }
            let mut table = T::new(alloc);
            match table.insert(prefix, value) {
                Ok(_) => match entries.insert(at, (router, table)) {
                    Ok(()) => Ok(()),
                    Err(_) => unreachable!(),
                },
                Err(back) => Err(back),
            }
        }
    }
}

/// Gives a router and prefix that have a value this one. The router's table is looked for first at the place of the
/// last one.
pub(crate) fn replace_in<V, T: PrefixTable<V>>(
    entries: &mut Vec<(Addr, T)>,
    last: &mut usize,
    router: Addr,
    prefix: Prefix,
    value: V,
) -> Result<V, V>
    requires { AreByRouter entries.old.items }
    ensures before { IfOk result (λ before.
        value_at router prefix (tables_of T.table entries.old.items) ≡ Some before) }
    ensures replaced { OnOk result
        (tables_of T.table entries.new.items ≡ with_value router prefix value (tables_of T.table entries.old.items)) }
    ensures absent { OnErr result (value_at router prefix (tables_of T.table entries.old.items) ≡ None) }
    ensures back { IfErr result (λ back. back ≡ value) }
    ensures same { OnErr result (tables_of T.table entries.new.items ≡ tables_of T.table entries.old.items) }
{
    match place_from(entries, *last, router) {
        Ok(at) => {
            *last = at;
            entries[at].1.replace(prefix, value)
        }
        Err(_) => Err(value),
    }
}

/// Changes the value of the router and prefix where it stands, and says whether there is one. The router's table is
/// looked for first at the place of the last one.
pub(crate) fn adjust_in<V, T: PrefixTable<V>, A: Adjust<V>>(
    entries: &mut Vec<(Addr, T)>,
    last: &mut usize,
    router: Addr,
    prefix: Prefix,
    change: &A,
) -> bool
    requires { AreByRouter entries.old.items }
    ensures there { result ≡ is_some (value_at router prefix (tables_of T.table entries.old.items)) }
    ensures adjusted { tables_of T.table entries.new.items ≡ adjusted_at (A.after change.now) router prefix
        (tables_of T.table entries.old.items) }
{
    match place_from(entries, *last, router) {
        Ok(at) => {
            *last = at;
            entries[at].1.adjust(prefix, change)
        }
        Err(_) => false,
    }
}

/// Copies of the tables, in order.
pub(crate) fn copy_tables<T: Copied>(
    alloc: Global,
    entries: &[(Addr, T)],
) -> Result<Vec<(Addr, T)>, AllocError>
    ensures { IfOk result (λ copies. copies.items ≡ entries.now) }
{
    let mut copies = Vec::with_capacity(alloc, entries.len())?;
    for entry in entries {
        copies.push((entry.0, entry.1.copy(alloc)?))?;
    }
    Ok(copies)
}
