//! What several modules use.

use net_prefix::{Prefix, read_prefix};
use path_attr::{AsPath, Asn, Segment};
use seq::{Seq, SharedSeq};
use std::alloc::Global;
use std::fmt::Debug;
use std::process::Abort;

/// The prefix that the text spells.
pub fn prefix(rt: &impl Abort, text: &str) -> Prefix {
    read_prefix(text.as_bytes()).expect(rt, "the text spells a prefix")
}

pub fn asn(rt: &impl Abort, number: u32) -> Asn {
    Asn::new(number).expect(rt, "an AS has a number")
}

fn list(rt: &impl Abort, alloc: Global, numbers: &[u32]) -> Seq<Asn> {
    let mut list = Vec::new(alloc);
    for number in numbers {
        list.push(asn(rt, *number)).expect(rt, "memory");
    }
    Seq::of(list)
}

/// A path: a sequence and a set, either of which may be left out.
pub fn path(rt: &impl Abort, alloc: Global, sequence: &[u32], set: &[u32]) -> AsPath {
    let mut segments = Vec::new(alloc);
    if !sequence.is_empty() {
        let first = Segment::Seq(list(rt, alloc, sequence));
        segments.push(first).expect(rt, "memory");
    }
    if !set.is_empty() {
        let next = Segment::Set(list(rt, alloc, set));
        segments.push(next).expect(rt, "memory");
    }
    let segments = SharedSeq::of(alloc, segments).expect(rt, "memory");
    AsPath::new(segments).expect(rt, "the path is well formed")
}

/// Fails, and shows both, unless they are equal. A call is much less to prove than `assert_eq!` in its place.
pub fn equal<T: PartialEq + Debug + Drop>(rt: &impl Abort, found: T, wanted: T) {
    assert_eq!(rt; found, wanted);
}
