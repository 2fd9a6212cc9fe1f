//! What a hash reads of attributes, in words of eight bytes: a hasher takes these whole, and shorter pieces byte by
//! byte. So two numbers of four bytes go into one.

ghost use Rattle.std.specs.Prelude.{◌≡◌, ◌<◌, ◌^◌, ◌++◌, fold};
ghost use Rattle.std.specs.List.{flat_map};
ghost use Rattle.path_attr.specs.Attribute.{origin_rank};
ghost use Rattle.attr_pool.specs.Hashing.{pair, paired, counted, marks, list_mark, list_input, segment_input, local_input, attr_input};

use net_prefix::Addr;
use path_attr::{Asn, Attr, Segment};
use std::hash::Hasher;

/// A list of so many numbers takes 8 GB, and a longer one is counted as so long.
const MOST_COUNTED: usize = 0x7FFF_FFFF;

/// Feeds all eight attributes: first what there is of them, then that.
pub(crate) fn feed_attr<H: Hasher>(attr: &Attr, state: &mut H)
    ensures { state.new ≡ fold H.write state.old (attr_input attr.now) }
{
    let segments = attr.path.segments();
    feed_pair(counted(segments.len()), marks(attr), state);
    feed_pair(attr.next.0, attr.med.unwrap_or(0), state);
    feed_local(attr, state);
    feed_segments(segments, state);
    feed_list(0, attr.clusters.as_slice(), state);
    feed_list(0, attr.comms.numbers(), state);
}

/// ORIGIN, and a bit for each of the others that may be missing or empty: whether it is there.
fn marks(attr: &Attr) -> u32
    ensures { result ≡ marks attr.now }
{
    u32::from(attr.med.is_some())
        + u32::from(attr.pref.is_some()) * 2
        + u32::from(attr.oid.is_some()) * 4
        + u32::from(list_mark(attr.clusters.as_slice())) * 8
        + u32::from(list_mark(attr.comms.numbers())) * 16
        + u32::from(attr.origin.rank()) * 32
}

/// 0 for the empty list, 1 for another.
fn list_mark<T>(items: &[T]) -> u8
    ensures { result ≡ list_mark items.now }
{
    match items {
        [] => 0,
        _ => 1,
    }
}

/// A list's length as a hash reads it.
fn counted(length: usize) -> u32
    ensures value { result ≡ counted length }
    ensures small { result < 2 ^ 31 }
{
    length.min(MOST_COUNTED) as u32
}

/// Feeds a word of two numbers.
fn feed_pair<H: Hasher>(low: u32, high: u32, state: &mut H)
    ensures { state.new ≡ fold H.write state.old (pair low high) }
{
    state.write_u64(u64::from(low) + u64::from(high) * 0x1_0000_0000);
}

/// Feeds LOCAL_PREF and ORIGINATOR_ID, which only routes from within the AS have.
fn feed_local<H: Hasher>(attr: &Attr, state: &mut H)
    ensures { state.new ≡ fold H.write state.old (local_input attr.now.pref attr.now.oid) }
{
    match (attr.pref, attr.oid) {
        (None, None) => {}
        (Some(pref), None) => feed_pair(pref, 0, state),
        (None, Some(oid)) => feed_pair(0, oid.0, state),
        (Some(pref), Some(oid)) => feed_pair(pref, oid.0, state),
    }
}

/// Feeds each segment.
fn feed_segments<H: Hasher>(segments: &[Segment], state: &mut H)
    ensures { state.new ≡ fold H.write state.old (flat_map segment_input segments.now) }
{
    for segment in segments {
        feed_segment(segment, state);
    }
}

/// Feeds the numbers, marked as those of a sequence or of a set.
fn feed_segment<H: Hasher>(segment: &Segment, state: &mut H)
    ensures { state.new ≡ fold H.write state.old (segment_input segment.now) }
{
    match segment {
        Segment::Seq(numbers) => feed_list(0, numbers.as_slice(), state),
        Segment::Set(numbers) => feed_list(1, numbers.as_slice(), state),
    }
}

/// Feeds how many items there are, marked so, and their numbers. Nothing of the empty list.
fn feed_list<T: Numbered, H: Hasher>(mark: u8, items: &[T], state: &mut H)
    requires { mark < 2 }
    ensures { state.new ≡ fold H.write state.old (list_input mark T.number items.now) }
{
    if let [first, rest @ ..] = items {
        let count = counted(items.len()) * 2 + u32::from(mark);
        feed_pair(count, first.number(), state);
        feed_numbers(rest, state);
    }
}

/// Feeds the numbers of the items, two a word. The last of an odd number has one alone.
fn feed_numbers<T: Numbered, H: Hasher>(items: &[T], state: &mut H)
    ensures { state.new ≡ fold H.write state.old (paired T.number items.now) }
{
    let mut rest = items;
    while let [first, second, after @ ..] = rest {
        feed_pair(first.number(), second.number(), state);
        rest = after;
    }
    if let [last] = rest {
        feed_pair(last.number(), 0, state);
    }
}

/// What is a number of four bytes.
trait Numbered {
    ghost use Rattle.std.specs.Prelude.{ℕ};

    ghost number: { Self → ℕ };

    fn number(&self) -> u32
        ensures { result ≡ number self.now };
}

impl Numbered for Asn {
    ghost number = { λ asn. asn };

    fn number(&self) -> u32 {
        Asn::number(*self)
    }
}

impl Numbered for Addr {
    ghost number = { λ addr. addr.0 };

    fn number(&self) -> u32 {
        self.0
    }
}

impl Numbered for u32 {
    ghost number = { λ number. number };

    fn number(&self) -> u32 {
        *self
    }
}
