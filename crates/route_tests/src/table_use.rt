//! Callers of any table: what can be relied on, whatever the table is.

ghost use Rattle.std.specs.Prelude.{◌≡◌, ◌≢◌, Some, None, IfOk, OnOk, OnErr};
ghost use Rattle.std.specs.Option.{IfSome, IfNone};
ghost use Rattle.std.specs.FinMap as map;
ghost use Rattle.prefix_table.specs.Tables.{IsLongestMatch, HasNoMatch};
ghost use Rattle.route_tests.specs.Walks.{keys_of};

use net_prefix::{Addr, Prefix};
use prefix_table::PrefixTable;
use std::alloc::{AllocError, Global};

/// Inserts a value and reads it. It is the value that is read. Where the prefix had a value, memory is never wanted.
pub fn put_and_get<V: Copy, T: PrefixTable<V>>(
    table: &mut T,
    prefix: Prefix,
    value: V,
) -> Result<Option<V>, V>
    ensures value { IfOk result (λ read. read ≡ Some value) }
    ensures table { OnOk result (T.table table.new ≡ map.insert (T.table table.old) prefix value) }
    ensures absent { OnErr result (map.get (T.table table.old) prefix ≡ None) }
    ensures same { OnErr result (T.table table.new ≡ T.table table.old) }
{
    table.insert(prefix, value)?;
    Ok(table.get(prefix).copied())
}

/// Inserts a value and reads that of another prefix. It is what it was.
pub fn put_and_get_other<V: Copy, T: PrefixTable<V>>(
    table: &mut T,
    prefix: Prefix,
    value: V,
    other: Prefix,
) -> Result<Option<V>, V>
    ensures { other ≢ prefix → IfOk result (λ read. read ≡ map.get (T.table table.old) other) }
{
    table.insert(prefix, value)?;
    Ok(table.get(other).copied())
}

/// The longest match, with a copy of its value.
pub fn longest_in<V: Copy, T: PrefixTable<V>>(
    table: &T,
    addr: Addr,
    most: u8,
) -> Option<(Prefix, V)>
    ensures found { IfSome result (λ e. IsLongestMatch (T.table table.now) addr most e.0 e.1) }
    ensures none { IfNone result (HasNoMatch (T.table table.now) addr most) }
{
    match table.longest(addr, most) {
        Some((prefix, value)) => Some((prefix, *value)),
        None => None,
    }
}

/// Inserts a value and asks for the longest match of the prefix's own address, up to its own length. It is that prefix.
pub fn put_and_match<V: Copy, T: PrefixTable<V>>(
    table: &mut T,
    prefix: Prefix,
    value: V,
) -> Result<Option<(Prefix, V)>, V>
    ensures { IfOk result (λ found. found ≡ Some (prefix, value)) }
{
    table.insert(prefix, value)?;
    Ok(longest_in(table, prefix.addr(), prefix.len()))
}

/// The longest matches in two tables that hold the same. They are one.
pub fn longest_of_both<V: Copy, T: PrefixTable<V>, U: PrefixTable<V>>(
    first: &T,
    second: &U,
    addr: Addr,
    most: u8,
) -> (Option<(Prefix, V)>, Option<(Prefix, V)>)
    ensures { T.table first.now ≡ U.table second.now → result.0 ≡ result.1 }
{
    (
        longest_in(first, addr, most),
        longest_in(second, addr, most),
    )
}

/// The keys, in order: a walk from the first, each time to the next.
pub fn keys<V, T: PrefixTable<V>>(alloc: Global, table: &T) -> Result<Vec<Prefix>, AllocError>
    ensures { IfOk result (λ keys. keys.items ≡ keys_of (T.table table.now)) }
{
    let mut keys = Vec::new(alloc);
    let mut after = None;
    'walk: loop {
        match table.next_after(after) {
            None => return Ok(keys),
            Some(entry) => {
                keys.push(entry.0)?;
                after = Some(entry.0);
            }
        }
    }
}

/// The keys, in order: one walk of the whole table.
pub fn keys_at_once<V, T: PrefixTable<V>>(
    alloc: Global,
    table: &T,
) -> Result<Vec<Prefix>, AllocError>
    ensures { IfOk result (λ keys. keys.items ≡ keys_of (T.table table.now)) }
{
    let entries = table.entries(alloc)?;
    let mut keys = Vec::with_capacity(alloc, entries.len())?;
    for entry in &entries {
        keys.push(entry.0)?;
    }
    Ok(keys)
}
