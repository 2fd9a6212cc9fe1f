//! Numbers as text, and text that is cut.

use crate::common::equal;
use decimal::{cut_at, read_decimal};

#[test]
fn numbers_are_read(rt: HostRuntime) {
    equal(&rt, read_decimal(b"0"), Some(0));
    equal(&rt, read_decimal(b"7"), Some(7));
    equal(&rt, read_decimal(b"65535"), Some(65_535));
    equal(&rt, read_decimal(b"4294967295"), Some(4_294_967_295));
}

#[test]
fn other_texts_are_not(rt: HostRuntime) {
    equal(&rt, read_decimal(b""), None);
    equal(&rt, read_decimal(b"00"), None);
    equal(&rt, read_decimal(b"010"), None);
    equal(&rt, read_decimal(b"+1"), None);
    equal(&rt, read_decimal(b"-1"), None);
    equal(&rt, read_decimal(b" 1"), None);
    equal(&rt, read_decimal(b"1a"), None);
    equal(&rt, read_decimal(b"\xff"), None);
    equal(&rt, read_decimal(b"4294967296"), None);
}

#[test]
fn text_is_cut_at_the_first_separator(rt: HostRuntime) {
    let (before, after) = cut_at(b"10.20.30", b'.').expect(&rt, "there is a dot");
    equal(&rt, before, b"10".as_slice());
    equal(&rt, after, b"20.30".as_slice());
    assert!(rt; cut_at(b"10", b'.').is_none());
}
