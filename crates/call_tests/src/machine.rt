//! A run of the plain simulator, with the replies that the worked example gives.

use crate::common::{asn, ten};
use net_conf::{Edit, Metric};
use net_prefix::Addr;
use plain_simulator::Simulator;
use reference_machine::{Ask, Event, Reply, Report};
use route_select::{FilterCell, Source};
use session_queue::MessageKind;
use std::alloc::Global;
use std::process::Abort;
use std::thread::Threads;

const ONE: Addr = Addr(0x0100_0001);

const TWO: Addr = Addr(0x0200_0001);

/// Two routers in two autonomous systems, a link, a session, a prefix, and its delivery.
fn first_path(rt: &impl Abort) -> [Event; 7] {
    let cost = Metric::new(10).expect(rt, "a metric");
    [
        Event::Edit(Edit::Router(ONE, asn(rt, 1))),
        Event::Edit(Edit::Router(TWO, asn(rt, 2))),
        Event::Edit(Edit::Link(ONE, TWO, cost)),
        Event::Edit(Edit::Join(ONE, TWO)),
        Event::Edit(Edit::Origin(ONE, ten(rt))),
        Event::Deliver(ONE, TWO),
        Event::Ask(Ask::Routes(TWO)),
    ]
}

/// What the machine answers to the events, from the empty network on.
fn replies_to(rt: &(impl Abort + Threads + Sync), alloc: Global, events: &[Event]) -> Vec<Reply> {
    let mut machine: Simulator<FilterCell> = Simulator::new(alloc);
    let replies = machine.run(rt, events);
    drop(machine);
    replies.expect(rt, "memory for the replies")
}

/// Whether this is the one route of the second router's table.
fn is_first_path(rt: &impl Abort, reply: &Reply) -> bool {
    let Reply::Report(Report::Routes(routes)) = reply else {
        return false;
    };
    let [held] = routes.as_slice() else {
        return false;
    };
    held.prefix == ten(rt)
        && held.source == Source::Peer(ONE)
        && held.attr.path().length() == 1
        && held.attr.path().neighbour() == Some(asn(rt, 1))
        && held.attr.next() == ONE
        && held.attr.med().is_none()
        && held.attr.pref() == Some(100)
}

#[test]
fn a_run_gives_one_reply_an_event(rt: HostRuntime) {
    let replies = replies_to(&rt, rt.alloc(), &first_path(&rt));
    assert!(rt; replies.len() == 7);
    assert!(rt; matches!(&replies[4], Reply::Done));
    assert!(rt; matches!(&replies[5], Reply::Took(_, MessageKind::Update)));
    assert!(rt; is_first_path(&rt, &replies[6]));
}
