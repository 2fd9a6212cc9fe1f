//! A walk over the directions with a message.

use crate::common::equal;
use crate::pool::attr;
use net_prefix::{Addr, Prefix};
use session_queue::{Message, Queues, View};
use std::process::Abort;

const A: Addr = Addr(0x0100_0001);

const B: Addr = Addr(0x0200_0001);

/// Puts a message into a direction.
fn put(rt: &impl Abort, queues: &mut Queues, from: Addr, to: Addr) {
    let all = Prefix::new(Addr(0), 0).expect(rt, "no host bit is set");
    queues.reserve(from, to, 1).expect(rt, "memory");
    queues.push(from, to, Message::Withdraw(all));
}

#[test]
fn walks_over_full_directions(rt: HostRuntime) {
    let mut queues = Queues::new(rt.alloc(), None);
    equal(&rt, queues.next_full(None), None);
    put(&rt, &mut queues, B, A);
    put(&rt, &mut queues, A, B);
    equal(&rt, queues.next_full(None), Some((A, B)));
    equal(&rt, queues.next_full(Some((A, B))), Some((B, A)));
    equal(&rt, queues.next_full(Some((B, A))), None);
}

#[test]
fn updates_keep_their_attributes_while_others_come(rt: HostRuntime) {
    let mut queues = Queues::new(rt.alloc(), None);
    let all = Prefix::new(Addr(0), 0).expect(&rt, "no host bit is set");
    for med in 0..100 {
        let sent = attr(&rt, rt.alloc(), med);
        queues.reserve(A, B, 1).expect(&rt, "memory");
        queues.admit(&sent).expect(&rt, "memory");
        queues.push(A, B, Message::Update(all, sent));
    }
    let first = attr(&rt, rt.alloc(), 0);
    let last = attr(&rt, rt.alloc(), 99);
    assert!(rt; queues.head(A, B) == Some(View::Update(all, &first)));
    assert!(rt; queues.at(A, B, 99) == Some(View::Update(all, &last)));
    assert!(rt; queues.at(A, B, 100).is_none());
    drop((queues, first, last));
}
