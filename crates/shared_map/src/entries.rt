//! Entries in the order of their keys, in a vector of one owner.

ghost use Rattle.std.specs.Prelude.{◌≡◌, IfOk, OnOk, OnErr};
ghost use Rattle.std.specs.Option.{option_copied};
ghost use Rattle.std.specs.List.Sorted.{IsStrictlySortedBy};
ghost use Rattle.std.specs.Map.{keys_of, lookup, remove_entry};
ghost use Rattle.std.specs.BTreeMap.{insert_entry, is_at};

use crate::position::entry_position;
use seq::Copied;
use std::alloc::{AllocError, Global};

/// The value of the key.
pub(crate) fn value_of<'a, K: Ord, V>(entries: &'a [(K, V)], key: &K) -> Option<&'a V>
    requires { IsStrictlySortedBy K.cmp (keys_of entries.now) }
    ensures { option_copied result ≡ lookup (is_at (K.cmp key.now)) entries.now }
{
    match entry_position(entries, key) {
        Ok(at) => Some(&entries[at].1),
        Err(_) => None,
    }
}

/// Gives the key this value. An error changes nothing.
pub(crate) fn put<K: Ord + Drop, V: Drop>(
    entries: &mut Vec<(K, V)>,
    key: K,
    value: V,
) -> Result<(), AllocError>
    requires { IsStrictlySortedBy K.cmp (keys_of entries.old.items) }
    ensures ok { OnOk result (entries.new.items ≡ insert_entry K.cmp entries.old.items key value) }
    ensures err { OnErr result (entries.new.items ≡ entries.old.items) }
    ensures ordered { IsStrictlySortedBy K.cmp (keys_of entries.new.items) }
{
    match entry_position(entries, &key) {
        Ok(at) => {
            let entry = &mut entries[at];
            entry.1 = value;
            Ok(())
        }
        Err(at) => {
            entries.insert(at, (key, value))?;
            Ok(())
        }
    }
}

/// Takes out the key's entry, if there is one.
pub(crate) fn take_out<K: Ord + Drop, V: Drop>(entries: &mut Vec<(K, V)>, key: &K)
    requires { IsStrictlySortedBy K.cmp (keys_of entries.old.items) }
    ensures entries { entries.new.items ≡ remove_entry (is_at (K.cmp key.now)) entries.old.items }
    ensures ordered { IsStrictlySortedBy K.cmp (keys_of entries.new.items) }
{
    if let Ok(at) = entry_position(entries, key) {
        entries.remove(at);
    }
}

/// The same plain entries in a vector of one owner, with room for one more.
pub(crate) fn owned<K: Copy, V: Copy>(
    alloc: Global,
    entries: &[(K, V)],
) -> Result<Vec<(K, V)>, AllocError>
    ensures { IfOk result (λ owned. owned.items ≡ entries.now) }
{
    let mut owned = Vec::with_capacity(alloc, entries.len().saturating_add(1))?;
    owned.extend_from_slice(entries)?;
    Ok(owned)
}

/// Copies of the entries in a vector of one owner, with room for one more.
pub(crate) fn owned_copies<K: Copy, V: Copied>(
    alloc: Global,
    entries: &[(K, V)],
) -> Result<Vec<(K, V)>, AllocError>
    ensures { IfOk result (λ owned. owned.items ≡ entries.now) }
{
    let mut owned = Vec::with_capacity(alloc, entries.len().saturating_add(1))?;
    for entry in entries {
        owned.push((entry.0, entry.1.copy(alloc)?))?;
    }
    Ok(owned)
}
