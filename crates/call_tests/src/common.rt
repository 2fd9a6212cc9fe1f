//! What several modules use. Where a value cannot be made, the test ends there.

use net_prefix::{Addr, Prefix};
use path_attr::Asn;
use std::fmt::Debug;
use std::process::Abort;

pub fn asn(rt: &impl Abort, number: u32) -> Asn {
    Asn::new(number).expect(rt, "an AS has a number")
}

/// 10.0.0.0/8.
pub fn ten(rt: &impl Abort) -> Prefix {
    Prefix::new(Addr(0x0a00_0000), 8).expect(rt, "no host bit is set")
}

/// Fails, and shows both, unless they are equal. A call is much less to prove than `assert_eq!` in its place.
pub fn equal<T: PartialEq + Debug + Drop>(rt: &impl Abort, found: T, wanted: T) {
    assert_eq!(rt; found, wanted);
}
