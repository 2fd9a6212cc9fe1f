//! When a worker ends.

ghost use Rattle.desk.specs.Desks.{IsDeskLedger};

use crate::common::{Open, STAR, are_answered, equal, opened};
use desk::run_workers;
use std::alloc::Global;
use std::marker::Brand;
use std::process::Abort;
use std::sync::Wait;
use std::sync::ledger::{Blank, Ledger};
use std::thread::Threads;

#[test]
fn a_worker_ends_after_its_turns(rt: HostRuntime) {
    let alloc = rt.alloc();
    let none = delivered::<Brand, _>(&rt, alloc, 1, 0, false, Blank::new(256));
    equal(&rt, none, 0);
    let one = delivered::<Brand, _>(&rt, alloc, 1, 1, false, Blank::new(256));
    equal(&rt, one, 1);
}

#[test]
fn a_worker_ends_once_the_calls_do_and_it_is_left_no_job(rt: HostRuntime) {
    let alloc = rt.alloc();
    let all = delivered::<Brand, _>(&rt, alloc, 1, 1_000, true, Blank::new(256));
    equal(&rt, all, 2);
    // Nobody serves the shard of the other message.
    let one = delivered::<Brand, _>(&rt, alloc, 2, 1_000, true, Blank::new(256));
    equal(&rt, one, 1);
}

/// How many of two messages the one worker of a desk delivers.
fn delivered<L: Ledger + Send + Sync, R: Threads + Wait + Abort + Sync>(
    rt: &R,
    alloc: Global,
    shards: u64,
    turns: u64,
    is_finished: bool,
    blank: Blank,
) -> u64
    requires ledger { IsDeskLedger blank.name blank.parts L.name L.parts }
{
    let (desk, mut workers) = opened::<L, R>(rt, alloc, 2, shards, blank);
    let mut engineer = workers.pop().expect(rt, "two seats");
    assert!(rt; are_answered(rt, alloc, &desk, &mut engineer, &STAR));
    if is_finished {
        desk.finish_calls(rt);
    }
    let workers = run_workers(rt, &desk, workers, &Open, turns);
    assert!(rt; workers.len() == 1);
    let count = workers[0].count();
    drop((desk, engineer, workers));
    count
}
