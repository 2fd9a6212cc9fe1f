//! Lists of events that the engine is given at once.

use crate::common::{SortedMachine, TrieMachine};
use cell_engine::Cell;
use net_conf::{Edit, Refusal};
use net_prefix::Addr;
use path_attr::Asn;
use prefix_table::PrefixTable;
use route_select::Selector;
use sim_core::Sim;
use sim_event::{Ask, Event, Reply, Report};
use std::process::Abort;
use std::thread::Threads;

const ONE: Addr = Addr(0x0100_0001);

/// A router, the same one again, and whether anything is on its way.
fn events(number: Asn) -> [Event; 3] {
    [
        Event::Edit(Edit::Router(ONE, number)),
        Event::Edit(Edit::Router(ONE, number)),
        Event::Ask(Ask::Quiet),
    ]
}

/// Fails where these are not the replies to the events, but for want of memory.
fn are_replies(rt: &impl Abort, replies: &[Reply]) {
    assert!(rt; replies.len() == 3);
    if matches!(&replies[0], Reply::Refused(Refusal::Memory)) {
        return;
    }
    assert!(rt; matches!(&replies[0], Reply::Done));
    assert!(rt; matches!(&replies[1], Reply::Refused(Refusal::RouterExists)));
    assert!(rt; matches!(&replies[2], Reply::Report(Report::Quiet(true))));
}

/// Fails where the machine answers the list otherwise. It is asked again where there was no memory for the replies.
fn runs<S: Selector + Send + Sync + Drop, T: PrefixTable<Cell<S>> + Drop>(
    rt: &(impl Abort + Threads + Sync),
    machine: &mut Sim<S, T>,
) {
    let events = events(Asn::new(1).expect(rt, "an AS has a number"));
    let replies = match machine.run(rt, &events) {
        Ok(replies) => replies,
        Err(_) => machine.run(rt, &events).expect(rt, "memory"),
    };
    are_replies(rt, &replies);
    drop((events, replies));
}

#[test]
fn tries_run_a_list(rt: HostRuntime) {
    let mut machine = TrieMachine::new(rt.alloc(), None);
    runs(&rt, &mut machine);
    drop(machine);
}

#[test]
fn sorted_tables_run_a_list(rt: HostRuntime) {
    let mut machine = SortedMachine::new(rt.alloc(), None);
    runs(&rt, &mut machine);
    drop(machine);
}
