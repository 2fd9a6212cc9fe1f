//! Worked prefixes and addresses.

use crate::common::equal;
use net_prefix::{Addr, Prefix, read_addr};
use std::process::Abort;

#[test]
fn a_prefix_has_no_host_bits(rt: HostRuntime) {
    let ten = Addr(0x0a00_0000);
    assert!(rt; Prefix::new(ten, 8).is_some());
    assert!(rt; Prefix::new(Addr(0), 0).is_some());
    assert!(rt; Prefix::new(Addr(0x0a00_0001), 8).is_none());
    assert!(rt; Prefix::new(Addr(0), 33).is_none());
    equal(&rt, read_addr(b"10.0.0.0"), Some(ten));
    equal(&rt, read_addr(b"01.2.3.4"), None);
}
