//! Worked paths.

use crate::common::{asn, equal, path};
use path_attr::AsPath;
use std::process::Abort;

#[test]
fn begins_with_a_sequence(rt: HostRuntime) {
    let alloc = rt.alloc();
    let mut worked = path(&rt, alloc, &[7], &[1, 2, 3]);
    equal(&rt, worked.length(), 2);
    equal(&rt, worked.neighbour(), Some(asn(&rt, 7)));
    assert!(rt; worked.holds(asn(&rt, 2)));
    worked.prepend(alloc, asn(&rt, 9)).expect(&rt, "memory");
    equal(&rt, worked, path(&rt, alloc, &[9, 7], &[1, 2, 3]));
}

#[test]
fn begins_with_a_set(rt: HostRuntime) {
    let alloc = rt.alloc();
    let mut worked = path(&rt, alloc, &[], &[1, 2]);
    equal(&rt, worked.length(), 1);
    equal(&rt, worked.neighbour(), None);
    worked.prepend(alloc, asn(&rt, 9)).expect(&rt, "memory");
    equal(&rt, worked, path(&rt, alloc, &[9], &[1, 2]));
}

#[test]
fn prepends_to_nothing(rt: HostRuntime) {
    let alloc = rt.alloc();
    let mut worked = AsPath::empty();
    worked.prepend(alloc, asn(&rt, 9)).expect(&rt, "memory");
    equal(&rt, worked, path(&rt, alloc, &[9], &[]));
}
