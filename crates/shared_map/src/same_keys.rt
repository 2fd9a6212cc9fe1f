//! Whether chunks hold the same keys, however they are cut.

ghost use Rattle.std.specs.Prelude.{◌≡◌, ◌++◌, []};
ghost use Rattle.std.specs.Cmp.Lexicographic.{pointwise};
ghost use Rattle.shared_map.specs.Chunks.{keys_in};

use seq::SharedSeq;

/// The keys that are left to read: those of a chunk, and then those of the chunks after it.
#[derive(Drop)]
struct Unread<'a, K> {
    part: &'a [K],
    rest: &'a [SharedSeq<K>],
}

/// The same keys, with some in the part where there are any.
fn refilled<'a, K>(part: &'a [K], rest: &'a [SharedSeq<K>]) -> Unread<'a, K>
    ensures same { result.part.now ++ keys_in result.rest.now ≡ part.now ++ keys_in rest.now }
    ensures filled { result.part.now ≡ [] → keys_in result.rest.now ≡ [] }
{
    let mut part = part;
    let mut rest = rest;
    while part.is_empty() {
        let Some((first, others)) = rest.split_first() else {
            break;
        };
        part = first.as_slice();
        rest = others;
    }
    Unread { part, rest }
}

/// Whether both hold the same keys.
pub(crate) fn same_keys<K: PartialEq>(one: &[SharedSeq<K>], other: &[SharedSeq<K>]) -> bool
    ensures { result ≡ pointwise K.eq (keys_in one.now) (keys_in other.now) }
{
    let mut ours = refilled(&[], one);
    let mut theirs = refilled(&[], other);
    while let Some((our, more)) = ours.part.split_first() {
        match theirs.part.split_first() {
            Some((their, others)) if our == their => {
                ours = refilled(more, ours.rest);
                theirs = refilled(others, theirs.rest);
            }
            _ => return false,
        }
    }
    theirs.part.is_empty()
}
