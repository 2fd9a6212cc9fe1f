//! Where a key stands in a list in order.

ghost use Rattle.std.specs.Prelude.{◌≡◌, IfOk, IfErr};
ghost use Rattle.std.specs.List.Sorted.{IsStrictlySortedBy};
ghost use Rattle.std.specs.Map.{keys_of};
ghost use Rattle.shared_map.specs.Positions.{IsAt, IsFor, IsKeyAt, IsKeyFor};

/// The position of the key's entry, or as an error the position where it would go.
pub(crate) fn entry_position<K: Ord, V>(entries: &[(K, V)], key: &K) -> Result<usize, usize>
    requires { IsStrictlySortedBy K.cmp (keys_of entries.now) }
    ensures found { IfOk result (IsAt K.cmp entries.now key.now) }
    ensures absent { IfErr result (IsFor K.cmp entries.now key.now) }
{
    let at = entries.partition_point(|entry| key.cmp(&entry.0).is_gt());
    match entries.get(at) {
        Some(entry) if key.cmp(&entry.0).is_eq() => Ok(at),
        _ => Err(at),
    }
}

/// The position of the key, or as an error the position where it would go.
pub(crate) fn key_position<K: Ord>(keys: &[K], key: &K) -> Result<usize, usize>
    requires { IsStrictlySortedBy K.cmp keys.now }
    ensures found { IfOk result (IsKeyAt K.cmp keys.now key.now) }
    ensures absent { IfErr result (IsKeyFor K.cmp keys.now key.now) }
{
    let at = keys.partition_point(|other| key.cmp(other).is_gt());
    match keys.get(at) {
        Some(other) if key.cmp(other).is_eq() => Ok(at),
        _ => Err(at),
    }
}
