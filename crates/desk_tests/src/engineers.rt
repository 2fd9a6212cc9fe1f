//! Engineers at one desk at once, with workers and without.

ghost use Rattle.desk.specs.Desks.{IsDeskLedger};

use crate::common::{Asked, GroupDesk, GroupRoom, Open, are_answered, equal, opened, replayed};
use desk::{Audit, CloseFault, Fault, Seat, run_workers};
use log_replay::Replayed;
use std::alloc::Global;
use std::marker::Brand;
use std::process::Abort;
use std::sync::Wait;
use std::sync::ledger::{Blank, Ledger};
use std::thread::{Threads, join};

/// Two routers, of which the first has a message for the second.
const PATH: [Asked<'static>; 6] = [
    ("router 1.0.0.1 1", "ok\n"),
    ("router 2.0.0.1 2", "ok\n"),
    ("link 1.0.0.1 2.0.0.1 10", "ok\n"),
    ("join 1.0.0.1 2.0.0.1", "ok\n"),
    ("origin 1.0.0.1 10.0.0.0/8", "ok\n"),
    (
        "best 1.0.0.1 10.0.0.0/8",
        "10.0.0.0/8 from self path=- origin=igp next=1.0.0.1 med=- pref=100 oid=- clusters=-\n",
    ),
];

/// A router by itself.
const ALONE: [Asked<'static>; 3] = [
    ("router 3.0.0.1 3", "ok\n"),
    ("origin 3.0.0.1 11.0.0.0/8", "ok\n"),
    (
        "routes 3.0.0.1",
        "11.0.0.0/8 from self path=- origin=igp next=3.0.0.1 med=- pref=100 oid=- clusters=-\nend 1\n",
    ),
];

#[test]
fn calls_of_two_threads_are_one_history(rt: HostRuntime) {
    two_engineers::<Brand, _>(&rt, rt.alloc(), Blank::new(256));
}

fn two_engineers<L: Ledger + Send + Sync, R: Threads + Wait + Abort + Sync>(
    rt: &R,
    alloc: Global,
    blank: Blank,
)
    requires ledger { IsDeskLedger blank.name blank.parts L.name L.parts }
{
    let (desk, mut seats) = opened::<L, R>(rt, alloc, 2, 1, blank);
    assert!(rt; make_calls(rt, alloc, &desk, &mut seats));
    closes_with_all_seats(rt, alloc, desk.end(), seats, 9);
}

/// The room is not closed while its last seat is missing, which hands back room and seats; with all of them it is.
fn closes_with_all_seats<L: Ledger, R: Threads + Abort + Sync>(
    rt: &R,
    alloc: Global,
    room: GroupRoom<L>,
    mut seats: Vec<Seat<L>>,
    entries: u64,
) {
    let last = seats.pop().expect(rt, "a last seat");
    equal(rt, usize::from(last.number()), seats.len());
    let left = room.close(seats).err().expect(rt, "a seat is missing");
    let CloseFault {
        fault,
        room,
        mut seats,
    } = left;
    equal(rt, fault, Fault::MissingSeat);
    seats.push(last).expect(rt, "memory");
    is_record_of(rt, alloc, room, seats, entries);
}

/// The room is closed with a record of so many calls, whose log agrees.
fn is_record_of<L: Ledger, R: Threads + Abort + Sync>(
    rt: &R,
    alloc: Global,
    room: GroupRoom<L>,
    seats: Vec<Seat<L>>,
    entries: u64,
) {
    let record = room.close(seats).ok().expect(rt, "all seats are there");
    equal(rt, record.entries().len() as u64, entries);
    equal(
        rt,
        replayed(rt, alloc, &record),
        Some(Replayed::Agrees { entries }),
    );
}

/// The first two seats make their calls at once. Whether each call gets its reply, and the seats' notes agree with the
/// history.
fn make_calls<L: Ledger + Send + Sync, R: Threads + Wait + Sync>(
    rt: &R,
    alloc: Global,
    desk: &GroupDesk<L>,
    seats: &mut [Seat<L>],
) -> bool {
    let [first, second, ..] = seats else {
        return false;
    };
    let answered = join(
        rt,
        || are_answered(rt, alloc, desk, first, &PATH),
        || are_answered(rt, alloc, desk, second, &ALONE),
    );
    answered == (true, true)
        && desk.audit(rt, first) == Audit::Agrees
        && desk.audit(rt, second) == Audit::Agrees
}

#[test]
fn workers_deliver_while_engineers_call(rt: HostRuntime) {
    with_workers::<Brand, _>(&rt, rt.alloc(), Blank::new(256));
}

fn with_workers<L: Ledger + Send + Sync, R: Threads + Wait + Abort + Sync>(
    rt: &R,
    alloc: Global,
    blank: Blank,
)
    requires ledger { IsDeskLedger blank.name blank.parts L.name L.parts }
{
    let (desk, mut seats) = opened::<L, R>(rt, alloc, 4, 2, blank);
    let last = seats.pop().expect(rt, "a seat");
    let third = seats.pop().expect(rt, "a seat");
    let mut workers = Vec::new(alloc);
    workers.push(third).expect(rt, "memory");
    workers.push(last).expect(rt, "memory");
    let (made, mut workers) = join(
        rt,
        || {
            let made = make_calls(rt, alloc, &desk, &mut seats);
            desk.finish_calls(rt);
            made
        },
        || run_workers(rt, &desk, workers, &Open, 1_000),
    );
    assert!(rt; made);
    equal(rt, delivered(rt, &desk, &workers), 1);
    seats.append(&mut workers).expect(rt, "memory");
    closes_with_all_seats(rt, alloc, desk.end(), seats, 10);
}

/// How many calls the workers made. The notes of each agree.
fn delivered<L: Ledger, R: Wait + Abort>(
    rt: &R,
    desk: &GroupDesk<L>,
    workers: &[Seat<L>],
) -> usize {
    let mut delivered = 0_usize;
    for worker in workers {
        equal(rt, desk.audit(rt, worker), Audit::Agrees);
        delivered = delivered.saturating_add(worker.notes().len());
    }
    delivered
}
