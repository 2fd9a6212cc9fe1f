//! Keys in order, in chunks that are shared.

ghost use Rattle.std.specs.Prelude.{◌≡◌, ◌++◌, ◌≤◌, true, [], length, IfOk, OnOk};
ghost use Rattle.std.specs.List.{list_any, list_all};
ghost use Rattle.std.specs.Set.{remove_key};
ghost use Rattle.std.specs.BTreeMap.{is_at};
ghost use Rattle.shared_map.specs.Chunks.{keys_in, has_key, AreChunks, starts_by, IsSplit};

use crate::position::key_position;
use seq::SharedSeq;
use std::alloc::{AllocError, Global};

/// The most entries of a chunk of a map.
pub(crate) const CHUNK: usize = 256;

/// The most keys of a chunk of a set: they are plain memory, of which this many are copied as soon as some hundred
/// chunks are shared.
const KEYS: usize = 1_024;

/// The chunk in which a key can stand alone, with those before it and those after it.
#[derive(Drop)]
pub(crate) struct Parts<'a, K> {
    pub(crate) before: &'a [SharedSeq<K>],
    pub(crate) chunk: &'a [K],
    pub(crate) after: &'a [SharedSeq<K>],
}

/// Whether the chunk begins with the key, or with one below it.
fn starts_by<K: Ord>(chunk: &[K], key: &K) -> bool
    ensures { result ≡ starts_by K.cmp key.now chunk.now }
{
    match chunk.first() {
        Some(first) => key.cmp(first).is_ge(),
        None => true,
    }
}

/// The chunk in which the key can stand, which is looked for by halves; no keys where there is no chunk.
pub(crate) fn split<'a, K: Ord>(chunks: &'a [SharedSeq<K>], key: &K) -> Parts<'a, K>
    requires { AreChunks K.cmp chunks.now }
    ensures { IsSplit K.cmp chunks.now key.now result.before.now result.chunk.now result.after.now }
{
    let past = chunks.partition_point(|chunk| starts_by(chunk.as_slice(), key));
    let (before, rest) = chunks.split_at(past.saturating_sub(1));
    match rest.split_first() {
        Some((chunk, after)) => Parts {
            before,
            chunk: chunk.as_slice(),
            after,
        },
        None => Parts {
            before,
            chunk: &[],
            after: rest,
        },
    }
}

/// Whether the key is there.
pub(crate) fn holds<K: Ord>(chunks: &[SharedSeq<K>], key: &K) -> bool
    requires { AreChunks K.cmp chunks.now }
    ensures { result ≡ list_any (is_at (K.cmp key.now)) (keys_in chunks.now) }
{
    let parts = split(chunks, key);
    match key_position(parts.chunk, key) {
        Ok(_) => true,
        Err(_) => false,
    }
}

/// Adds a chunk at the end, unless it has no keys.
fn add_chunk<K: Drop>(
    alloc: Global,
    chunks: &mut Vec<SharedSeq<K>>,
    keys: Vec<K>,
) -> Result<(), AllocError>
    requires { list_all has_key chunks.old.items ≡ true }
    ensures full { OnOk result (list_all has_key chunks.new.items ≡ true) }
    ensures keys { OnOk result (keys_in chunks.new.items ≡ keys_in chunks.old.items ++ keys.items) }
{
    if keys.is_empty() {
        return Ok(());
    }
    let chunk = SharedSeq::of(alloc, keys)?;
    chunks.push(chunk)?;
    Ok(())
}

/// Adds the keys at the end, as two chunks where they are too many for one.
pub(crate) fn add_keys<K: Copy>(
    alloc: Global,
    chunks: &mut Vec<SharedSeq<K>>,
    keys: &[K],
) -> Result<(), AllocError>
    requires { list_all has_key chunks.old.items ≡ true }
    ensures full { OnOk result (list_all has_key chunks.new.items ≡ true) }
    ensures keys { OnOk result (keys_in chunks.new.items ≡ keys_in chunks.old.items ++ keys.now) }
{
    let first = if keys.len() > KEYS {
        keys.len() / 2
    } else {
        keys.len()
    };
    let (front, back) = keys.split_at(first);
    add_chunk(alloc, chunks, Vec::from_slice(alloc, front)?)?;
    add_chunk(alloc, chunks, Vec::from_slice(alloc, back)?)
}

/// Adds the chunks at the end, each as one owner more of it.
fn add_shared<K: Drop>(
    chunks: &mut Vec<SharedSeq<K>>,
    others: &[SharedSeq<K>],
) -> Result<(), AllocError>
    ensures { OnOk result (chunks.new.items ≡ chunks.old.items ++ others.now) }
{
    for other in others {
        chunks.push(other.share()?)?;
    }
    Ok(())
}

/// The chunks before and after, and between them chunks of these keys.
pub(crate) fn joined<K: Copy>(
    alloc: Global,
    before: &[SharedSeq<K>],
    keys: &[K],
    after: &[SharedSeq<K>],
) -> Result<Vec<SharedSeq<K>>, AllocError>
    requires before { list_all has_key before.now ≡ true }
    requires after { list_all has_key after.now ≡ true }
    ensures full { IfOk result (λ chunks. list_all has_key chunks.items ≡ true) }
    ensures keys { IfOk result (λ chunks. keys_in chunks.items ≡ keys_in before.now ++ keys.now ++ keys_in after.now) }
{
    let mut chunks = Vec::with_capacity(
        alloc,
        before.len().saturating_add(after.len()).saturating_add(2),
    )?;
    add_shared(&mut chunks, before)?;
    add_keys(alloc, &mut chunks, keys)?;
    add_shared(&mut chunks, after)?;
    Ok(chunks)
}

/// Chunks of these keys.
pub(crate) fn chunks_of<K: Copy>(alloc: Global, keys: &[K]) -> Result<Vec<SharedSeq<K>>, AllocError>
    ensures full { IfOk result (λ chunks. list_all has_key chunks.items ≡ true) }
    ensures keys { IfOk result (λ chunks. keys_in chunks.items ≡ keys.now) }
{
    let mut chunks = Vec::new(alloc);
    let mut rest = keys;
    while !rest.is_empty() {
        let (front, back) = rest.split_at(rest.len().min(KEYS));
        add_chunk(alloc, &mut chunks, Vec::from_slice(alloc, front)?)?;
        rest = back;
    }
    Ok(chunks)
}

/// The keys of the chunks, in a vector of one owner.
pub(crate) fn keys_of<K: Copy>(alloc: Global, chunks: &[SharedSeq<K>]) -> Result<Vec<K>, AllocError>
    ensures { IfOk result (λ keys. keys.items ≡ keys_in chunks.now) }
{
    let mut keys = Vec::new(alloc);
    for chunk in chunks {
        keys.extend_from_slice(chunk.as_slice())?;
    }
    Ok(keys)
}
