//! A set in chunks that its owners share.

ghost use Rattle.std.specs.Prelude.{◌≡◌, ◌↔◌, ◌+◌, ◌-◌, ◌<◌, ◌≤◌, ◌++◌, [], length, IsTrue, IfOk, OnOk, OnErr, true, false};
ghost use Rattle.std.specs.List.{list_any, list_all};
ghost use Rattle.std.specs.List.Sorted.{IsStrictlySortedBy};
ghost use Rattle.std.specs.Set.{remove_key};
ghost use Rattle.std.specs.BTreeMap.{is_at};
ghost use Rattle.std.specs.BTreeSet.{insert_key};
ghost use Rattle.shared_map.specs.Chunks.{keys_in, has_key};

use crate::chunks::{chunks_of, holds, joined, keys_of, split};
use crate::keys::{owned_keys, put_key, take_key};
use crate::same_keys::same_keys;
use seq::{Copied, SharedSeq};
use std::alloc::{AllocError, Global};
use std::marker::Model;

/// A set in the order of its keys, which any number of owners share: contracts see its keys alone. A copy takes no
/// memory. A change of one owner's set copies some hundred keys, and a share of each other hundred; no other owner's
/// set changes.
#[derive(Drop)]
pub struct ChunkedSet<K: Ord> {
    len: usize,
    chunks: SharedSeq<SharedSeq<K>>,
}

impl<K: Ord> Model for ChunkedSet<K> {
    ghost use Rattle.std.specs.Prelude.{◌≡◌, List, length};
    ghost use Rattle.shared_map.specs.Chunks.{keys_in, AreChunks};

    ghost Value = { List K };

    ghost view = { λ s. keys_in s.chunks };

    ghost invariant = { λ s. (s.len ≡ length (keys_in s.chunks)) × AreChunks K.cmp s.chunks };
}

impl<K: Ord> ChunkedSet<K> {
    /// The empty set. It takes no memory.
    pub fn new() -> Self
        ensures { result ≡ [] }
    {
        ChunkedSet {
            len: 0,
            chunks: SharedSeq::empty(),
        }
    }

    /// A call gives the caller's proof that the keys are in order.
    pub fn order(&self)
        ensures { IsStrictlySortedBy K.cmp self.now }
    {
        let _ = &self.chunks;
    }

    /// The keys in order, in lists one after another, borrowed.
    pub fn chunks(&self) -> &[SharedSeq<K>]
        ensures { keys_in result.now ≡ self.now }
    {
        self.chunks.as_slice()
    }

    /// How many keys there are.
    pub fn len(&self) -> usize
        ensures { result ≡ length self.now }
    {
        self.len
    }

    /// Whether there is no key.
    pub fn is_empty(&self) -> bool
        ensures { IsTrue result ↔ (self.now ≡ []) }
    {
        self.len == 0
    }

    /// Whether the key is there. Its chunk is looked for by halves, and the key in that.
    pub fn contains(&self, key: &K) -> bool
        ensures { result ≡ list_any (is_at (K.cmp key.now)) self.now }
    {
        holds(self.chunks.as_slice(), key)
    }

    /// One owner more of the same set. It takes no memory; the only fault is that 2^63 owners share a set with keys.
    pub fn share(&self) -> Result<Self, AllocError>
        ensures ok { IfOk result (λ other. other ≡ self.now) }
        ensures some { OnErr result (0 < length self.now) }
    {
        if self.is_empty() {
            return Ok(ChunkedSet::new());
        }
        Ok(ChunkedSet {
            len: self.len,
            chunks: self.chunks.share()?,
        })
    }
}

impl<K: Copy + Ord> ChunkedSet<K> {
    /// The set of these keys, from now on shared. No keys take no memory.
    pub fn of(alloc: Global, keys: Vec<K>) -> Result<Self, AllocError>
        requires { IsStrictlySortedBy K.cmp keys.items }
        ensures ok { IfOk result (λ set. set ≡ keys.items) }
        ensures some { OnErr result (0 < length keys.items) }
    {
        if keys.is_empty() {
            return Ok(ChunkedSet::new());
        }
        let chunks = chunks_of(alloc, &keys)?;
        Ok(ChunkedSet {
            len: keys.len(),
            chunks: SharedSeq::of(alloc, chunks)?,
        })
    }

    /// The keys in order, in a vector.
    pub fn keys(&self, alloc: Global) -> Result<Vec<K>, AllocError>
        ensures { IfOk result (λ keys. keys.items ≡ self.now) }
    {
        keys_of(alloc, self.chunks.as_slice())
    }

    /// Puts the key in, unless it is there: then it takes no memory. An error changes nothing.
    pub fn insert(&mut self, alloc: Global, key: K) -> Result<(), AllocError>
        ensures ok { OnOk result (self.new ≡ insert_key K.cmp self.old key) }
        ensures absent { OnErr result (list_any (is_at (K.cmp key)) self.old ≡ false) }
        ensures err { OnErr result (self.new ≡ self.old) }
    {
        if self.contains(&key) {
            return Ok(());
        }
        let parts = split(self.chunks.as_slice(), &key);
        let mut keys = owned_keys(alloc, parts.chunk)?;
        put_key(&mut keys, key)?;
        let len = len_with(self.len, parts.chunk.len(), keys.len())?;
        let chunks = joined(alloc, parts.before, &keys, parts.after)?;
        *self = ChunkedSet {
            len,
            chunks: SharedSeq::of(alloc, chunks)?,
        };
        Ok(())
    }

    /// Takes the key out, if it is there: else it takes no memory. An error changes nothing.
    #[tactic(auto, using(crate::proofs::InOrder::keys_absent))]
    pub fn remove(&mut self, alloc: Global, key: &K) -> Result<(), AllocError>
        ensures ok { OnOk result (self.new ≡ remove_key (is_at (K.cmp key.now)) self.old) }
        ensures present { OnErr result (list_any (is_at (K.cmp key.now)) self.old ≡ true) }
        ensures err { OnErr result (self.new ≡ self.old) }
    {
        if !self.contains(key) {
            return Ok(());
        }
        let parts = split(self.chunks.as_slice(), key);
        let mut keys = owned_keys(alloc, parts.chunk)?;
        take_key(&mut keys, key);
        let len = len_with(self.len, parts.chunk.len(), keys.len())?;
        let chunks = joined(alloc, parts.before, &keys, parts.after)?;
        *self = ChunkedSet {
            len,
            chunks: SharedSeq::of(alloc, chunks)?,
        };
        Ok(())
    }
}

/// The length with a part of one length in place of one of another.
fn len_with(len: usize, old: usize, new: usize) -> Result<usize, AllocError>
    requires { old ≤ len }
    ensures { IfOk result (λ l. l + old ≡ len + new) }
{
    (len - old).checked_add(new).ok_or(AllocError)
}

impl<K: Ord + Drop> Copied for ChunkedSet<K> {
    fn copy(&self, _alloc: Global) -> Result<Self, AllocError> {
        self.share()
    }
}

impl<K: Ord> PartialEq for ChunkedSet<K> {
    ghost use Rattle.std.specs.Cmp.Lexicographic.{pointwise, lists_per};

    ghost eq = { pointwise K.eq };

    ghost laws = { lists_per K.PartialEq.laws };

    fn eq(&self, other: &Self) -> bool {
        self.len == other.len && same_keys(self.chunks.as_slice(), other.chunks.as_slice())
    }
}
