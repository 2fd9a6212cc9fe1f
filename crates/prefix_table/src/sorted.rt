//! The plain table: a vector in the order of the prefixes. Look-ups halve it; an insert moves what comes after.

ghost use Rattle.std.specs.Prelude.{◌≡◌, Some, None, IfOk, IfErr, OnOk, OnErr, slice_get, is_some};
ghost use Rattle.std.specs.Option.{option_copied};
ghost use Rattle.std.specs.FinMap as map;
ghost use Rattle.std.specs.FinMap.Entries.{find, put};
ghost use Rattle.std.specs.List as list;
ghost use Rattle.net_prefix.specs.Prefix.{prefix_cmp};
ghost use Rattle.prefix_table.specs.Tables.{seen, all_seen, is_after};
ghost use Rattle.prefix_table.specs.Places.{AreInOrder, IsAt, IsFor, changed};

use crate::adjust::Adjust;
use crate::cut::{comes_after, cut};
use crate::gather::add;
use crate::table::PrefixTable;
use net_prefix::{Addr, MAX_LEN, Prefix};
use seq::Copied;
use std::alloc::{AllocError, Global};
use std::marker::Model;

/// A table in a sorted vector.
#[derive(Drop)]
pub struct SortedTable<V> {
    entries: Vec<(Prefix, V)>,
}

impl<V> Model for SortedTable<V> {
    ghost use Rattle.std.specs.FinMap as map;
    ghost use Rattle.prefix_table.specs.Places.{AreInOrder};
    ghost use Rattle.prefix_table.specs.Tables.{Table, coded_prefix};

    ghost Value = { Table V };

    ghost coded = { map.code coded_prefix V.code };

    ghost view = { λ s. map.from_sorted s.entries.items };

    ghost invariant = { λ s. AreInOrder s.entries.items };
}

/// The position of the prefix's entry, or as an error the position where it would go.
fn entry_position<V>(entries: &[(Prefix, V)], prefix: Prefix) -> Result<usize, usize>
    requires { AreInOrder entries.now }
    ensures found { IfOk result (IsAt entries.now prefix) }
    ensures absent { IfErr result (IsFor entries.now prefix) }
{
    let at = entries.partition_point(|entry| prefix.cmp(&entry.0).is_gt());
    match entries.get(at) {
        Some(entry) if prefix.cmp(&entry.0).is_eq() => Ok(at),
        _ => Err(at),
    }
}

/// The prefix's value.
fn find_in<V>(entries: &[(Prefix, V)], prefix: Prefix) -> Option<&V>
    requires { AreInOrder entries.now }
    ensures { option_copied result ≡ find prefix_cmp prefix entries.now }
{
    match entry_position(entries, prefix) {
        Ok(at) => Some(&entries[at].1),
        Err(_) => None,
    }
}

/// The first entry after this prefix, or the first of all.
fn next_in<V>(entries: &[(Prefix, V)], after: Option<Prefix>) -> Option<(Prefix, &V)>
    requires { AreInOrder entries.now }
    ensures { seen result ≡ list.find (λ e. is_after after e.0) entries.now }
{
    let at = entries.partition_point(|entry| !comes_after(entry.0, after));
    match entries.get(at) {
        Some(entry) => Some((entry.0, &entry.1)),
        None => None,
    }
}

/// References to all entries.
fn refer_to<V>(alloc: Global, entries: &[(Prefix, V)]) -> Result<Vec<(Prefix, &V)>, AllocError>
    ensures { IfOk result (λ found. all_seen found.items ≡ entries.now) }
{
    let mut found = Vec::with_capacity(alloc, entries.len())?;
    for entry in entries {
        add(&mut found, (entry.0, &entry.1))?;
    }
    Ok(found)
}

/// Copies of the entries, in order.
fn copies<V: Copied>(alloc: Global, entries: &[(Prefix, V)]) -> Result<Vec<(Prefix, V)>, AllocError>
    ensures { IfOk result (λ copies. copies.items ≡ entries.now) }
{
    let mut copies = Vec::with_capacity(alloc, entries.len())?;
    for entry in entries {
        copies.push((entry.0, entry.1.copy(alloc)?))?;
    }
    Ok(copies)
}

/// Gives the prefix this value.
fn put_in<V: Drop>(entries: &mut Vec<(Prefix, V)>, prefix: Prefix, value: V) -> Result<Option<V>, V>
    requires { AreInOrder entries.old.items }
    ensures before { IfOk result (λ before. before ≡ find prefix_cmp prefix entries.old.items) }
    ensures inserted { OnOk result (entries.new.items ≡ put prefix_cmp prefix value entries.old.items) }
    ensures absent { OnErr result (find prefix_cmp prefix entries.old.items ≡ None) }
    ensures back { IfErr result (λ back. back ≡ value) }
    ensures same { OnErr result (entries.new.items ≡ entries.old.items) }
{
    match entry_position(entries, prefix) {
        Ok(at) => {
            let entry = &mut entries[at];
            Ok(Some(std::mem::replace(&mut entry.1, value)))
        }
        Err(at) => match entries.insert(at, (prefix, value)) {
            Ok(()) => Ok(None),
            Err(failed) => Err(failed.value.1),
        },
    }
}

/// Gives a prefix that has a value this one.
fn replace_in<V>(entries: &mut Vec<(Prefix, V)>, prefix: Prefix, value: V) -> Result<V, V>
    requires { AreInOrder entries.old.items }
    ensures before { IfOk result (λ before. find prefix_cmp prefix entries.old.items ≡ Some before) }
    ensures replaced { OnOk result (entries.new.items ≡ put prefix_cmp prefix value entries.old.items) }
    ensures back { IfErr result (λ back. back ≡ value) }
    ensures absent { OnErr result (find prefix_cmp prefix entries.old.items ≡ None) }
    ensures same { OnErr result (entries.new.items ≡ entries.old.items) }
{
    match entry_position(entries, prefix) {
        Ok(at) => {
            let entry = &mut entries[at];
            Ok(std::mem::replace(&mut entry.1, value))
        }
        Err(_) => Err(value),
    }
}

/// Changes the prefix's value where it stands, and says whether it has one.
fn adjust_in<V, A: Adjust<V>>(entries: &mut Vec<(Prefix, V)>, prefix: Prefix, change: &A) -> bool
    requires { AreInOrder entries.old.items }
    ensures there { result ≡ is_some (find prefix_cmp prefix entries.old.items) }
    ensures changed { entries.new.items ≡ changed (A.after change.now) prefix entries.old.items
        (find prefix_cmp prefix entries.old.items) }
{
    match entry_position(entries, prefix) {
        Ok(at) => {
            let entry = &mut entries[at];
            change.adjust(&mut entry.1);
            true
        }
        Err(_) => false,
    }
}

impl<V: Drop> PrefixTable<V> for SortedTable<V> {
    ghost table = { λ s. s };

    fn new(alloc: Global) -> Self {
        SortedTable {
            entries: Vec::new(alloc),
        }
    }

    fn get(&self, prefix: Prefix) -> Option<&V> {
        find_in(&self.entries, prefix)
    }

    fn insert(&mut self, prefix: Prefix, value: V) -> Result<Option<V>, V> {
        put_in(&mut self.entries, prefix, value)
    }

    fn replace(&mut self, prefix: Prefix, value: V) -> Result<V, V> {
        replace_in(&mut self.entries, prefix, value)
    }

    fn adjust<A: Adjust<V>>(&mut self, prefix: Prefix, change: &A) -> bool {
        adjust_in(&mut self.entries, prefix, change)
    }

    fn longest(&self, addr: Addr, most: u8) -> Option<(Prefix, &V)> {
        let mut lengths = most.min(MAX_LEN) + 1;
        while lengths > 0 {
            lengths -= 1;
            let prefix = cut(addr, lengths);
            if let Some(value) = self.get(prefix) {
                return Some((prefix, value));
            }
        }
        None
    }

    fn next_after(&self, after: Option<Prefix>) -> Option<(Prefix, &V)> {
        next_in(&self.entries, after)
    }

    fn entries(&self, alloc: Global) -> Result<Vec<(Prefix, &V)>, AllocError> {
        refer_to(alloc, &self.entries)
    }
}

impl<V: Copied> Copied for SortedTable<V> {
    fn copy(&self, alloc: Global) -> Result<Self, AllocError> {
        Ok(SortedTable {
            entries: copies(alloc, &self.entries)?,
        })
    }
}
