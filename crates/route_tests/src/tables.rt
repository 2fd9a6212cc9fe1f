//! Worked tables of either kind.

use crate::common::equal;
use net_prefix::{Addr, Prefix};
use prefix_table::{PrefixTable, SortedTable, TrieTable};
use std::alloc::Global;
use std::process::Abort;

fn address(first: u8, second: u8, third: u8, fourth: u8) -> Addr {
    Addr(u32::from_be_bytes([first, second, third, fourth]))
}

fn prefix(rt: &impl Abort, addr: Addr, len: u8) -> Prefix {
    Prefix::new(addr, len).expect(rt, "a prefix")
}

fn put<T: PrefixTable<u32>>(rt: &impl Abort, table: &mut T, prefix: Prefix, value: u32) {
    let Ok(before) = table.insert(prefix, value) else {
        panic!(rt; "want of memory");
    };
    equal(rt, before, None);
}

// The key and the value of the longest match.
fn longest<T: PrefixTable<u32>>(table: &T, addr: Addr, most: u8) -> Option<(Prefix, u32)> {
    match table.longest(addr, most) {
        Some((prefix, value)) => Some((prefix, *value)),
        None => None,
    }
}

fn next<T: PrefixTable<u32>>(table: &T, after: Option<Prefix>) -> Option<(Prefix, u32)> {
    match table.next_after(after) {
        Some((prefix, value)) => Some((prefix, *value)),
        None => None,
    }
}

fn nested<T: PrefixTable<u32> + Drop>(rt: &impl Abort, mut table: T) {
    let all = prefix(rt, address(0, 0, 0, 0), 0);
    let ten = prefix(rt, address(10, 0, 0, 0), 8);
    let part = prefix(rt, address(10, 0, 0, 0), 16);
    let eleven = prefix(rt, address(11, 0, 0, 0), 8);
    equal(rt, next(&table, None), None);
    equal(rt, longest(&table, address(10, 0, 5, 1), 32), None);
    put(rt, &mut table, part, 3);
    put(rt, &mut table, all, 1);
    put(rt, &mut table, ten, 2);
    equal(
        rt,
        longest(&table, address(10, 0, 5, 1), 32),
        Some((part, 3)),
    );
    equal(
        rt,
        longest(&table, address(10, 0, 5, 1), 255),
        Some((part, 3)),
    );
    equal(
        rt,
        longest(&table, address(10, 0, 5, 1), 15),
        Some((ten, 2)),
    );
    equal(
        rt,
        longest(&table, address(11, 0, 0, 0), 32),
        Some((all, 1)),
    );
    equal(rt, next(&table, None), Some((all, 1)));
    equal(rt, next(&table, Some(all)), Some((ten, 2)));
    equal(rt, next(&table, Some(ten)), Some((part, 3)));
    equal(rt, next(&table, Some(part)), None);
    equal(rt, next(&table, Some(eleven)), None);
    equal(rt, table.replace(ten, 9), Ok(2));
    equal(rt, table.replace(eleven, 9), Err(9));
    equal(rt, table.get(ten).copied(), Some(9));
    equal(rt, table.get(eleven).copied(), None);
    equal(rt, table.insert(ten, 4), Ok(Some(9)));
}

fn ends<T: PrefixTable<u32> + Drop>(rt: &impl Abort, mut table: T) {
    let all = prefix(rt, address(0, 0, 0, 0), 0);
    let upper = prefix(rt, address(128, 0, 0, 0), 1);
    let last = prefix(rt, address(255, 255, 255, 255), 32);
    put(rt, &mut table, all, 1);
    put(rt, &mut table, upper, 2);
    put(rt, &mut table, last, 3);
    let addr = address(255, 255, 255, 255);
    equal(rt, longest(&table, addr, 32), Some((last, 3)));
    equal(rt, longest(&table, addr, 31), Some((upper, 2)));
    equal(rt, longest(&table, addr, 0), Some((all, 1)));
    equal(rt, next(&table, Some(upper)), Some((last, 3)));
    equal(rt, next(&table, Some(last)), None);
}

fn listed<T: PrefixTable<u32>>(rt: &impl Abort, alloc: Global, table: &T) -> Vec<(Prefix, u32)> {
    let entries = table.entries(alloc).expect(rt, "memory");
    let mut listed = Vec::new(alloc);
    for entry in &entries {
        listed.push((entry.0, *entry.1)).expect(rt, "memory");
    }
    listed
}

// By address, then by length. The last two part below a prefix that has no value.
fn entries_in_order<T: PrefixTable<u32> + Drop>(rt: &impl Abort, alloc: Global, mut table: T) {
    let all = prefix(rt, address(0, 0, 0, 0), 0);
    let ten = prefix(rt, address(10, 0, 0, 0), 8);
    let lower = prefix(rt, address(10, 0, 0, 0), 9);
    let one = prefix(rt, address(10, 0, 0, 0), 32);
    let upper = prefix(rt, address(10, 128, 0, 0), 9);
    let left = prefix(rt, address(192, 0, 2, 0), 25);
    let right = prefix(rt, address(192, 0, 2, 128), 25);
    assert!(rt; listed(rt, alloc, &table).is_empty());
    put(rt, &mut table, right, 7);
    put(rt, &mut table, upper, 5);
    put(rt, &mut table, one, 4);
    put(rt, &mut table, ten, 2);
    put(rt, &mut table, left, 6);
    put(rt, &mut table, lower, 3);
    put(rt, &mut table, all, 1);
    let order = [
        (all, 1),
        (ten, 2),
        (lower, 3),
        (one, 4),
        (upper, 5),
        (left, 6),
        (right, 7),
    ];
    equal(rt, listed(rt, alloc, &table).as_slice(), order.as_slice());
}

#[test]
fn entries_of_a_sorted_table_are_in_order(rt: HostRuntime) {
    entries_in_order(&rt, rt.alloc(), SortedTable::new(rt.alloc()));
}

#[test]
fn entries_of_a_trie_are_in_order(rt: HostRuntime) {
    entries_in_order(&rt, rt.alloc(), TrieTable::new(rt.alloc()));
}

#[test]
fn nested_keys_in_a_sorted_table(rt: HostRuntime) {
    nested(&rt, SortedTable::new(rt.alloc()));
}

#[test]
fn nested_keys_in_a_trie(rt: HostRuntime) {
    nested(&rt, TrieTable::new(rt.alloc()));
}

#[test]
fn keys_at_the_ends_in_a_sorted_table(rt: HostRuntime) {
    ends(&rt, SortedTable::new(rt.alloc()));
}

#[test]
fn keys_at_the_ends_in_a_trie(rt: HostRuntime) {
    ends(&rt, TrieTable::new(rt.alloc()));
}
