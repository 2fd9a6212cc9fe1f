//! Attributes by number.

use crate::common::equal;
use attr_pool::Pool;
use net_prefix::Addr;
use path_attr::{Attr, SharedAttr};
use std::alloc::Global;
use std::process::Abort;

/// How many different attributes are kept at once.
const MANY: u32 = 100_000;

/// Attributes that have this MULTI_EXIT_DISC.
pub fn attr(rt: &impl Abort, alloc: Global, med: u32) -> SharedAttr {
    let mut attr = Attr::plain(Addr(0x0700_0001));
    attr.med = Some(med);
    SharedAttr::new(alloc, attr).expect(rt, "memory")
}

/// The nth of numbers that are all different and in no order: the factor is odd.
fn drawn(n: u32) -> u32 {
    n.wrapping_mul(0x9E37_79B1)
}

#[test]
fn equal_attributes_have_one_number(rt: HostRuntime) {
    let mut pool = Pool::new(rt.alloc(), None);
    let five = pool.intern(attr(&rt, rt.alloc(), 5)).expect(&rt, "memory");
    let six = pool.intern(attr(&rt, rt.alloc(), 6)).expect(&rt, "memory");
    assert_ne!(rt; five, six);
    equal(
        &rt,
        pool.intern(attr(&rt, rt.alloc(), 5)).expect(&rt, "memory"),
        five,
    );
    let wanted = attr(&rt, rt.alloc(), 6);
    equal(&rt, pool.attr(six), Some(&wanted));
    drop((pool, wanted));
}

#[test]
fn many_attributes_keep_their_numbers(rt: HostRuntime) {
    let mut pool = Pool::new(rt.alloc(), None);
    let mut numbers = Vec::new(rt.alloc());
    for n in 0..MANY {
        let number = pool
            .intern(attr(&rt, rt.alloc(), drawn(n)))
            .expect(&rt, "memory");
        numbers.push(number).expect(&rt, "memory");
    }
    for n in 0..MANY {
        let again = pool
            .intern(attr(&rt, rt.alloc(), drawn(n)))
            .expect(&rt, "memory");
        equal(&rt, numbers.get(n as usize), Some(&again));
    }
    drop((pool, numbers));
}
