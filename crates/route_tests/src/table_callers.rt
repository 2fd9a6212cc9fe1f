//! Each caller at both tables.

use crate::common::equal;
use crate::table_use::{
    keys, keys_at_once, longest_of_both, put_and_get, put_and_get_other, put_and_match,
};
use net_prefix::{Addr, Prefix};
use prefix_table::{PrefixTable, SortedTable, TrieTable};
use std::alloc::Global;
use std::process::Abort;

fn prefix(rt: &impl Abort, addr: u32, len: u8) -> Prefix {
    Prefix::new(Addr(addr), len).expect(rt, "a prefix")
}

// 0.0.0.0/0, 10.0.0.0/8 and 10.0.0.0/16, the last first.
fn filled<T: PrefixTable<u8> + Drop>(rt: &impl Abort, mut table: T) -> T {
    let ten = prefix(rt, 0x0a00_0000, 8);
    let part = prefix(rt, 0x0a00_0000, 16);
    let all = prefix(rt, 0, 0);
    equal(rt, put_and_get(&mut table, part, 3), Ok(Some(3)));
    equal(rt, put_and_get_other(&mut table, ten, 2, part), Ok(Some(3)));
    equal(rt, put_and_match(&mut table, all, 1), Ok(Some((all, 1))));
    table
}

/// The prefixes of a table that `filled` made, walked and listed at once.
fn walks<T: PrefixTable<u8>>(rt: &impl Abort, alloc: Global, table: &T) {
    let ten = prefix(rt, 0x0a00_0000, 8);
    let part = prefix(rt, 0x0a00_0000, 16);
    let walk = [prefix(rt, 0, 0), ten, part];
    let walked = keys(alloc, table).expect(rt, "memory");
    equal(rt, walked.as_slice(), walk.as_slice());
    let listed = keys_at_once(alloc, table).expect(rt, "memory");
    equal(rt, listed.as_slice(), walk.as_slice());
}

#[test]
fn callers_use_either_table(rt: HostRuntime) {
    let plain = filled(&rt, SortedTable::new(rt.alloc()));
    let trie = filled(&rt, TrieTable::new(rt.alloc()));
    walks(&rt, rt.alloc(), &plain);
    walks(&rt, rt.alloc(), &trie);
    let ten = prefix(&rt, 0x0a00_0000, 8);
    let both = longest_of_both(&plain, &trie, Addr(0x0a00_0501), 15);
    equal(&rt, both, (Some((ten, 2)), Some((ten, 2))));
}
