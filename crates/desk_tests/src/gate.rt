//! Two workers have jobs at once, and a configuration that moves meanwhile makes the first one's outcome stale.

ghost use Rattle.desk.specs.Desks.{IsDeskLedger};

use crate::common::{Asked, GroupDesk, STAR, are_answered, equal, is_answered, opened, worked};
use desk::{Committed, Gate, Newer, Seat, run_workers};
use std::alloc::Global;
use std::marker::Brand;
use std::process::Abort;
use std::sync::Wait;
use std::sync::atomic::{AtomicBool, Ordering};
use std::sync::ledger::{Blank, Ledger};
use std::thread;
use std::thread::{Threads, join};

/// How often one looks for the other. Past that the test fails.
const LOOKS: u64 = 10_000_000;

/// What is chosen once both messages were taken.
const TAKEN: [Asked<'static>; 3] = [
    ("quiet", "yes\n"),
    (
        "best 2.0.0.2 10.0.0.0/8",
        "10.0.0.0/8 from 1.0.0.1 path=1 origin=igp next=1.0.0.1 med=- pref=100 oid=- clusters=-\n",
    ),
    (
        "best 3.0.0.1 10.0.0.0/8",
        "10.0.0.0/8 from 1.0.0.1 path=1 origin=igp next=1.0.0.1 med=- pref=100 oid=- clusters=-\n",
    ),
];

/// Holds worker 0's first job until worker 1 has worked one, and the configuration was edited; and worker 1's first
/// until worker 0 has one.
#[derive(Drop)]
struct Meeting {
    has_taken: AtomicBool,
    has_worked: AtomicBool,
    is_edited: AtomicBool,
    takes_again: AtomicBool,
    has_failed: AtomicBool,
}

impl Meeting {
    fn new() -> Meeting {
        Meeting {
            has_taken: AtomicBool::new(false),
            has_worked: AtomicBool::new(false),
            is_edited: AtomicBool::new(false),
            takes_again: AtomicBool::new(false),
            has_failed: AtomicBool::new(false),
        }
    }

    /// Looks until it has happened.
    fn await_that(&self, it: &AtomicBool) {
        for _ in 0..LOOKS {
            if it.load(Ordering::SeqCst) {
                return;
            }
            thread::yield_now();
        }
        self.has_failed.store(true, Ordering::SeqCst);
    }
}

impl Gate for Meeting {
    fn taken(&self, worker: usize, n: u64) {
        if worker == 0 && n == 1 {
            self.has_taken.store(true, Ordering::SeqCst);
            self.await_that(&self.has_worked);
            self.await_that(&self.is_edited);
        } else if worker == 0 {
            self.takes_again.store(true, Ordering::SeqCst);
        } else if n == 1 {
            self.await_that(&self.has_taken);
        }
    }

    fn worked(&self, worker: usize, _n: u64) {
        if worker == 1 {
            self.has_worked.store(true, Ordering::SeqCst);
        }
    }
}

#[test]
fn an_outcome_of_an_older_configuration_is_stale(rt: HostRuntime) {
    meet::<Brand, _>(&rt, rt.alloc(), Blank::new(256));
}

fn meet<L: Ledger + Send + Sync, R: Threads + Wait + Abort + Sync>(
    rt: &R,
    alloc: Global,
    blank: Blank,
)
    requires ledger { IsDeskLedger blank.name blank.parts L.name L.parts }
{
    let (desk, mut workers) = opened::<L, R>(rt, alloc, 3, 2, blank);
    let mut engineer = workers.pop().expect(rt, "three seats");
    assert!(rt; are_answered(rt, alloc, &desk, &mut engineer, &STAR));
    let gate = Meeting::new();
    let (is_edited, workers) = join(
        rt,
        || edit_meanwhile(rt, alloc, &desk, &mut engineer, &gate),
        || run_workers(rt, &desk, workers, &gate, 1_000),
    );
    assert!(rt; is_edited);
    assert!(rt; !gate.has_failed.load(Ordering::SeqCst));
    equal(rt, workers.len(), 2);
    assert!(rt; are_answered(rt, alloc, &desk, &mut engineer, &TAKEN));
    drop((desk, engineer, workers));
}

/// Edits the configuration while worker 0 has its first job, and ends the calls once it has another. Whether an outcome
/// of before is told which versions it and the desk have: eight edits were made, and one since.
fn edit_meanwhile<L: Ledger, R: Threads + Wait + Sync>(
    rt: &R,
    alloc: Global,
    desk: &GroupDesk<L>,
    engineer: &mut Seat<L>,
    gate: &Meeting,
) -> bool {
    gate.await_that(&gate.has_worked);
    let before = if desk.shards() > 0 {
        worked(rt, desk)
    } else {
        None
    };
    let is_edited = is_answered(
        rt,
        alloc,
        desk,
        engineer,
        "metric 1.0.0.1 2.0.0.2 7",
        "ok\n",
    );
    let is_told = match before {
        Some(done) => desk
            .commit(rt, engineer, done)
            .is_ok_and(|committed| is_one_edit_late(&committed)),
        None => false,
    };
    gate.is_edited.store(true, Ordering::SeqCst);
    gate.await_that(&gate.takes_again);
    desk.finish_calls(rt);
    is_edited && is_told
}

/// Whether the outcome is stale, being of version 8 where the desk has 9.
fn is_one_edit_late(committed: &Committed) -> bool {
    matches!(
        committed,
        Committed::Stale(Newer::ConfMoved { had: 8, now: 9 })
    )
}
