//! A map in chunks that its owners share.

ghost use Rattle.std.specs.Prelude.{◌≡◌, ◌<◌, ◌↔◌, [], length, true, is_some, IsTrue, IfOk, OnOk, OnErr};
ghost use Rattle.std.specs.Option.{option_copied};
ghost use Rattle.std.specs.List.Sorted.{IsStrictlySortedBy};
ghost use Rattle.std.specs.Map.{keys_of, lookup, remove_entry};
ghost use Rattle.std.specs.BTreeMap.{insert_entry, is_at};
ghost use Rattle.seq.specs.Shown.{items_shown};
ghost use Rattle.shared_map.specs.EntryChunks.{entries_in};

use crate::entry_chunks::{put_in, take_from, value_in};
use crate::map::SharedMap;
use seq::{Copied, copy_all};
use std::alloc::{AllocError, Global};
use std::marker::Model;
use std::sync::Arc;

/// A map in the order of its keys, which any number of owners share: contracts see its entries alone. A copy takes no
/// memory. A change of one owner's map copies some hundred entries, and a share of each other hundred; no other owner's
/// map changes.
#[derive(Drop)]
pub struct ChunkedMap<K: Ord, V> {
    // None: the map is empty, and no memory was taken for it.
    chunks: Option<Arc<Vec<SharedMap<K, V>>>>,
}

impl<K: Ord, V> Model for ChunkedMap<K, V> {
    ghost use Rattle.std.specs.Prelude.{List};
    ghost use Rattle.seq.specs.Shown.{items_shown};
    ghost use Rattle.shared_map.specs.EntryChunks.{entries_in, AreEntryChunks};

    ghost Value = { List (K × V) };

    ghost view = { λ s. entries_in (items_shown s.chunks) };

    ghost invariant = { λ s. AreEntryChunks K.cmp (items_shown s.chunks) };
}

/// The chunks, none where no memory was taken.
fn shown<K: Ord, V>(chunks: &Option<Arc<Vec<SharedMap<K, V>>>>) -> &[SharedMap<K, V>]
    ensures { result.now ≡ items_shown chunks.now }
{
    match chunks {
        Some(chunks) => chunks.as_slice(),
        None => &[],
    }
}

impl<K: Ord, V> ChunkedMap<K, V> {
    /// The empty map. It takes no memory.
    pub fn new() -> Self
        ensures { result ≡ [] }
    {
        ChunkedMap { chunks: None }
    }

    /// The entries in the order of their keys, in maps one after another, borrowed.
    pub fn chunks(&self) -> &[SharedMap<K, V>]
        ensures { entries_in result.now ≡ self.now }
    {
        shown(&self.chunks)
    }

    /// A call gives the caller's proof that the keys are in order.
    pub fn order(&self)
        ensures { IsStrictlySortedBy K.cmp (keys_of self.now) }
    {
        let _ = &self.chunks;
    }

    /// Whether there is no entry.
    pub fn is_empty(&self) -> bool
        ensures { IsTrue result ↔ (self.now ≡ []) }
    {
        shown(&self.chunks).is_empty()
    }

    /// The value of the key. Its chunk is looked for by halves, and the key in that.
    pub fn get(&self, key: &K) -> Option<&V>
        ensures { option_copied result ≡ lookup (is_at (K.cmp key.now)) self.now }
    {
        value_in(shown(&self.chunks), key)
    }

    /// Whether the key has a value.
    pub fn contains_key(&self, key: &K) -> bool
        ensures { result ≡ is_some (lookup (is_at (K.cmp key.now)) self.now) }
    {
        self.get(key).is_some()
    }

    /// One owner more of the same map. It takes no memory; the only fault is that 2^63 owners share a map with entries.
    pub fn share(&self) -> Result<Self, AllocError>
        ensures ok { IfOk result (λ other. other ≡ self.now) }
        ensures some { OnErr result (0 < length self.now) }
    {
        match &self.chunks {
            Some(chunks) if !chunks.is_empty() => Ok(ChunkedMap {
                chunks: Some(Arc::try_clone(chunks)?),
            }),
            _ => Ok(ChunkedMap { chunks: None }),
        }
    }
}

impl<K: Copy + Ord, V: Copied> ChunkedMap<K, V> {
    /// Gives the key this value: in its place what has no other owner, else in copies. An error changes nothing.
    pub fn put(&mut self, alloc: Global, key: K, value: V) -> Result<(), AllocError>
        ensures ok { OnOk result (self.new ≡ insert_entry K.cmp self.old key value) }
        ensures err { OnErr result (self.new ≡ self.old) }
    {
        if let Some(chunks) = &mut self.chunks {
            if let Some(own) = Arc::get_mut(chunks) {
                return put_in(alloc, own, key, value);
            }
        }
        let mut own = copy_all(alloc, shown(&self.chunks))?;
        put_in(alloc, &mut own, key, value)?;
        *self = ChunkedMap {
            chunks: Some(Arc::new(alloc, own)?),
        };
        Ok(())
    }

    /// Takes out the key's entry, if there is one: in its place what has no other owner, else in copies. Where there is
    /// none, it takes no memory. An error changes nothing.
    #[tactic(auto, using(crate::proofs::InOrder::entries_absent))]
    pub fn take_out(&mut self, alloc: Global, key: &K) -> Result<(), AllocError>
        ensures ok { OnOk result (self.new ≡ remove_entry (is_at (K.cmp key.now)) self.old) }
        ensures present { OnErr result (is_some (lookup (is_at (K.cmp key.now)) self.old) ≡ true) }
        ensures err { OnErr result (self.new ≡ self.old) }
    {
        if !self.contains_key(key) {
            return Ok(());
        }
        if let Some(chunks) = &mut self.chunks {
            if let Some(own) = Arc::get_mut(chunks) {
                return take_from(alloc, own, key);
            }
        }
        let mut own = copy_all(alloc, shown(&self.chunks))?;
        take_from(alloc, &mut own, key)?;
        *self = ChunkedMap {
            chunks: Some(Arc::new(alloc, own)?),
        };
        Ok(())
    }
}

impl<K: Ord + Drop, V: Drop> Copied for ChunkedMap<K, V> {
    fn copy(&self, _alloc: Global) -> Result<Self, AllocError> {
        self.share()
    }
}
