//! Maps and sets that their owners share, in sorted vectors, whole or in chunks: contracts see the entries, or the
//! keys, in order. A copy is one owner more; a change is made in a copy, of the whole or of a chunk, and no other owner
//! sees it.
#![tactic(auto)]

mod chunked;
mod chunked_map;
mod chunks;
mod entries;
mod entry_chunks;
mod keys;
mod map;
mod position;
mod same_keys;

pub use chunked::ChunkedSet;
pub use chunked_map::ChunkedMap;
pub use map::SharedMap;
