//! Keys in order, in a vector of one owner.

ghost use Rattle.std.specs.Prelude.{◌≡◌, IfOk, OnOk, OnErr};
ghost use Rattle.std.specs.List.Sorted.{IsStrictlySortedBy};
ghost use Rattle.std.specs.Set.{remove_key};
ghost use Rattle.std.specs.BTreeMap.{is_at};
ghost use Rattle.std.specs.BTreeSet.{insert_key};

use crate::position::key_position;
use std::alloc::{AllocError, Global};

/// Puts the key in, unless it is there. An error changes nothing.
pub(crate) fn put_key<K: Ord + Drop>(keys: &mut Vec<K>, key: K) -> Result<(), AllocError>
    requires { IsStrictlySortedBy K.cmp keys.old.items }
    ensures ok { OnOk result (keys.new.items ≡ insert_key K.cmp keys.old.items key) }
    ensures err { OnErr result (keys.new.items ≡ keys.old.items) }
    ensures ordered { IsStrictlySortedBy K.cmp keys.new.items }
{
    if let Err(at) = key_position(keys, &key) {
        keys.insert(at, key)?;
    }
    Ok(())
}

/// Takes the key out, if it is there.
pub(crate) fn take_key<K: Ord + Drop>(keys: &mut Vec<K>, key: &K)
    requires { IsStrictlySortedBy K.cmp keys.old.items }
    ensures keys { keys.new.items ≡ remove_key (is_at (K.cmp key.now)) keys.old.items }
    ensures ordered { IsStrictlySortedBy K.cmp keys.new.items }
{
    if let Ok(at) = key_position(keys, key) {
        keys.remove(at);
    }
}

/// The same keys in a vector of one owner, with room for one more.
pub(crate) fn owned_keys<K: Copy>(alloc: Global, keys: &[K]) -> Result<Vec<K>, AllocError>
    ensures { IfOk result (λ owned. owned.items ≡ keys.now) }
{
    let mut owned = Vec::with_capacity(alloc, keys.len().saturating_add(1))?;
    owned.extend_from_slice(keys)?;
    Ok(owned)
}
