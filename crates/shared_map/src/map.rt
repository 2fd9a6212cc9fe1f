//! A map that its owners share.

ghost use Rattle.std.specs.Prelude.{◌≡◌, ◌<◌, ◌↔◌, [], length, true, is_some, IsTrue, IfOk, OnOk, OnErr};
ghost use Rattle.std.specs.Option.{option_copied};
ghost use Rattle.std.specs.List.Sorted.{IsStrictlySortedBy};
ghost use Rattle.std.specs.Map.{keys_of, lookup, remove_entry};
ghost use Rattle.std.specs.BTreeMap.{insert_entry, is_at};

use crate::entries::{owned, owned_copies, put, take_out, value_of};
use seq::Copied;
use std::alloc::{AllocError, Global};
use std::marker::Model;
use std::sync::Arc;

/// A map in the order of its keys, which any number of owners share: contracts see its entries alone. A copy takes no
/// memory. A change of one owner's map is made in a copy, and no other owner's map changes.
#[derive(Drop)]
pub struct SharedMap<K: Ord, V> {
    // None: the map is empty, and no memory was taken for it.
    entries: Option<Arc<Vec<(K, V)>>>,
}

impl<K: Ord, V> Model for SharedMap<K, V> {
    ghost use Rattle.std.specs.Prelude.{List};
    ghost use Rattle.std.specs.List.Sorted.{IsStrictlySortedBy};
    ghost use Rattle.std.specs.Map.{keys_of};
    ghost use Rattle.seq.specs.Shown.{items_shown};

    ghost Value = { List (K × V) };

    ghost view = { λ s. items_shown s.entries };

    ghost invariant = { λ s. IsStrictlySortedBy K.cmp (keys_of (items_shown s.entries)) };
}

impl<K: Ord, V> SharedMap<K, V> {
    /// The empty map. It takes no memory.
    pub fn new() -> Self
        ensures { result ≡ [] }
    {
        SharedMap { entries: None }
    }

    /// The entries in the order of their keys, borrowed.
    pub fn as_slice(&self) -> &[(K, V)]
        ensures value { result.now ≡ self.now }
        ensures ordered { IsStrictlySortedBy K.cmp (keys_of self.now) }
    {
        match &self.entries {
            Some(entries) => entries.as_slice(),
            None => &[],
        }
    }

    /// How many entries there are.
    pub fn len(&self) -> usize
        ensures { result ≡ length self.now }
    {
        self.as_slice().len()
    }

    /// Whether there is no entry.
    pub fn is_empty(&self) -> bool
        ensures { IsTrue result ↔ (self.now ≡ []) }
    {
        self.as_slice().is_empty()
    }

    /// The value of the key. It is found by halves.
    pub fn get(&self, key: &K) -> Option<&V>
        ensures { option_copied result ≡ lookup (is_at (K.cmp key.now)) self.now }
    {
        value_of(self.as_slice(), key)
    }

    /// Whether the key has a value.
    pub fn contains_key(&self, key: &K) -> bool
        ensures { result ≡ is_some (lookup (is_at (K.cmp key.now)) self.now) }
    {
        self.get(key).is_some()
    }

    /// One owner more of the same map. It takes no memory; the only fault is that 2^63 owners share a map with entries.
    pub fn share(&self) -> Result<Self, AllocError>
        ensures ok { IfOk result (λ other. other ≡ self.now) }
        ensures some { OnErr result (0 < length self.now) }
    {
        match &self.entries {
            Some(entries) if !entries.is_empty() => Ok(SharedMap {
                entries: Some(Arc::try_clone(entries)?),
            }),
            _ => Ok(SharedMap { entries: None }),
        }
    }
}

impl<K: Ord + Drop, V: Drop> SharedMap<K, V> {
    /// The map of these entries, from now on shared. No entries take no memory.
    pub(crate) fn of(alloc: Global, entries: Vec<(K, V)>) -> Result<Self, AllocError>
        requires { IsStrictlySortedBy K.cmp (keys_of entries.items) }
        ensures ok { IfOk result (λ map. map ≡ entries.items) }
        ensures some { OnErr result (0 < length entries.items) }
    {
        if entries.is_empty() {
            return Ok(SharedMap { entries: None });
        }
        Ok(SharedMap {
            entries: Some(Arc::new(alloc, entries)?),
        })
    }
}

impl<K: Copy + Ord, V: Copy> SharedMap<K, V> {
    /// Gives the key this value, in a copy of plain memory. An error changes nothing.
    pub fn insert(&mut self, alloc: Global, key: K, value: V) -> Result<(), AllocError>
        ensures ok { OnOk result (self.new ≡ insert_entry K.cmp self.old key value) }
        ensures err { OnErr result (self.new ≡ self.old) }
    {
        let mut entries = owned(alloc, self.as_slice())?;
        put(&mut entries, key, value)?;
        *self = SharedMap::of(alloc, entries)?;
        Ok(())
    }
}

impl<K: Copy + Ord, V: Copied> SharedMap<K, V> {
    /// Gives the key this value: where the map has no other owner in its place, else in a map of copies. An error
    /// changes nothing.
    pub fn put(&mut self, alloc: Global, key: K, value: V) -> Result<(), AllocError>
        ensures ok { OnOk result (self.new ≡ insert_entry K.cmp self.old key value) }
        ensures err { OnErr result (self.new ≡ self.old) }
    {
        if let Some(entries) = &mut self.entries {
            if let Some(own) = Arc::get_mut(entries) {
                return put(own, key, value);
            }
        }
        let mut entries = owned_copies(alloc, self.as_slice())?;
        put(&mut entries, key, value)?;
        *self = SharedMap::of(alloc, entries)?;
        Ok(())
    }

    /// Takes out the key's entry, if there is one: in its place where the map has no other owner, else in a map of
    /// copies. Where there is none, it takes no memory. An error changes nothing.
    #[tactic(auto, using(crate::proofs::InOrder::entries_absent))]
    pub fn take_out(&mut self, alloc: Global, key: &K) -> Result<(), AllocError>
        ensures ok { OnOk result (self.new ≡ remove_entry (is_at (K.cmp key.now)) self.old) }
        ensures present { OnErr result (is_some (lookup (is_at (K.cmp key.now)) self.old) ≡ true) }
        ensures err { OnErr result (self.new ≡ self.old) }
    {
        if !self.contains_key(key) {
            return Ok(());
        }
        if let Some(entries) = &mut self.entries {
            if let Some(own) = Arc::get_mut(entries) {
                take_out(own, key);
                return Ok(());
            }
        }
        let mut entries = owned_copies(alloc, self.as_slice())?;
        take_out(&mut entries, key);
        *self = SharedMap::of(alloc, entries)?;
        Ok(())
    }
}

impl<K: Ord + Drop, V: Drop> Copied for SharedMap<K, V> {
    fn copy(&self, _alloc: Global) -> Result<Self, AllocError> {
        self.share()
    }
}
