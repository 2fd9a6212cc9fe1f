//! Entries in the order of their keys, in chunks that are maps.

ghost use Rattle.std.specs.Prelude.{◌≡◌, ◌<◌, ◌≤◌, ◌++◌, [], length, IfOk, OnOk, OnErr};
ghost use Rattle.std.specs.Option.{option_copied};
ghost use Rattle.std.specs.List.Sorted.{IsStrictlySortedBy};
ghost use Rattle.std.specs.Map.{keys_of, lookup, remove_entry};
ghost use Rattle.std.specs.BTreeMap.{insert_entry, is_at};
ghost use Rattle.shared_map.specs.Chunks.{starts_by};
ghost use Rattle.shared_map.specs.EntryChunks.{entries_in, AreEntryChunks, IsPlace};

use crate::chunks::CHUNK;
use crate::entries::owned_copies;
use crate::map::SharedMap;
use seq::Copied;
use std::alloc::{AllocError, Global};

/// Whether the chunk begins with the key, or with one below it.
fn starts_by<K: Ord, V>(chunk: &[(K, V)], key: &K) -> bool
    ensures { result ≡ starts_by K.cmp key.now (keys_of chunk.now) }
{
    match chunk.first() {
        Some(first) => key.cmp(&first.0).is_ge(),
        None => true,
    }
}

/// The position of the chunk in which the key can stand, which is looked for by halves.
fn place_of<K: Ord, V>(chunks: &[SharedMap<K, V>], key: &K) -> usize
    requires some { 0 < length chunks.now }
    requires chunks { AreEntryChunks K.cmp chunks.now }
    ensures { IsPlace K.cmp chunks.now key.now result }
{
    let past = chunks.partition_point(|chunk| starts_by(chunk.as_slice(), key));
    past.saturating_sub(1)
}

/// The value of the key.
pub(crate) fn value_in<'a, K: Ord, V>(chunks: &'a [SharedMap<K, V>], key: &K) -> Option<&'a V>
    requires { AreEntryChunks K.cmp chunks.now }
    ensures { option_copied result ≡ lookup (is_at (K.cmp key.now)) (entries_in chunks.now) }
{
    if chunks.is_empty() {
        return None;
    }
    let at = place_of(chunks, key);
    chunks[at].get(key)
}

/// Copies of these entries, from now on shared.
fn copied<K: Copy + Ord, V: Copied>(
    alloc: Global,
    entries: &[(K, V)],
) -> Result<SharedMap<K, V>, AllocError>
    requires { IsStrictlySortedBy K.cmp (keys_of entries.now) }
    ensures { IfOk result (λ map. map ≡ entries.now) }
{
    let entries = owned_copies(alloc, entries)?;
    SharedMap::of(alloc, entries)
}

/// The first half of a chunk, and the second.
#[derive(Drop)]
struct Halves<K: Ord, V> {
    front: SharedMap<K, V>,
    back: SharedMap<K, V>,
}

/// The chunk in two.
fn cut_in_two<K: Copy + Ord, V: Copied>(
    alloc: Global,
    chunk: &SharedMap<K, V>,
) -> Result<Halves<K, V>, AllocError>
    requires { CHUNK ≤ length chunk.now }
    ensures whole { IfOk result (λ halves. halves.front ++ halves.back ≡ chunk.now) }
    ensures front { IfOk result (λ halves. 0 < length halves.front) }
    ensures back { IfOk result (λ halves. 0 < length halves.back) }
{
    let entries = chunk.as_slice();
    let (front, back) = entries.split_at(entries.len() / 2);
    let front = copied(alloc, front)?;
    let back = copied(alloc, back)?;
    Ok(Halves { front, back })
}

/// Cuts the chunk of the key in two, where it is full. No entry changes.
fn make_room<K: Copy + Ord, V: Copied>(
    alloc: Global,
    chunks: &mut Vec<SharedMap<K, V>>,
    key: &K,
) -> Result<(), AllocError>
    requires some { 0 < length chunks.old.items }
    requires chunks { AreEntryChunks K.cmp chunks.old.items }
    ensures some { 0 < length chunks.new.items }
    ensures entries { entries_in chunks.new.items ≡ entries_in chunks.old.items }
    ensures chunks { AreEntryChunks K.cmp chunks.new.items }
{
    let at = place_of(chunks, key);
    let chunk = &chunks[at];
    if chunk.len() < CHUNK {
        return Ok(());
    }
    let Halves { front, back } = cut_in_two(alloc, chunk)?;
    chunks.insert(at + 1, back)?;
    chunks[at] = front;
    Ok(())
}

/// Gives the key this value. An error changes no entry.
pub(crate) fn put_in<K: Copy + Ord, V: Copied>(
    alloc: Global,
    chunks: &mut Vec<SharedMap<K, V>>,
    key: K,
    value: V,
) -> Result<(), AllocError>
    requires { AreEntryChunks K.cmp chunks.old.items }
    ensures ok { OnOk result
        (entries_in chunks.new.items ≡ insert_entry K.cmp (entries_in chunks.old.items) key value) }
    ensures err { OnErr result (entries_in chunks.new.items ≡ entries_in chunks.old.items) }
    ensures chunks { AreEntryChunks K.cmp chunks.new.items }
{
    if chunks.is_empty() {
        let mut first = SharedMap::new();
        first.put(alloc, key, value)?;
        chunks.push(first)?;
        return Ok(());
    }
    make_room(alloc, chunks, &key)?;
    let at = place_of(chunks, &key);
    let chunk = &mut chunks[at];
    chunk.put(alloc, key, value)?;
    Ok(())
}

/// Takes out the key's entry, if there is one. An error changes no entry.
pub(crate) fn take_from<K: Copy + Ord, V: Copied>(
    alloc: Global,
    chunks: &mut Vec<SharedMap<K, V>>,
    key: &K,
) -> Result<(), AllocError>
    requires { AreEntryChunks K.cmp chunks.old.items }
    ensures ok { OnOk result
        (entries_in chunks.new.items ≡ remove_entry (is_at (K.cmp key.now)) (entries_in chunks.old.items)) }
    ensures err { OnErr result (entries_in chunks.new.items ≡ entries_in chunks.old.items) }
    ensures chunks { AreEntryChunks K.cmp chunks.new.items }
{
    if chunks.is_empty() {
        return Ok(());
    }
    let at = place_of(chunks, key);
    if chunks[at].len() > 1 {
        let chunk = &mut chunks[at];
        chunk.take_out(alloc, key)?;
        return Ok(());
    }
    if chunks[at].contains_key(key) {
        chunks.remove(at);
    }
    Ok(())
}
