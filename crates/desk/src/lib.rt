//! One network for several engineers and workers at once: a `Room` under a lock.
//!
//! For: `Desk::call` does an engineer's call. `Desk::take`, `Job::work` and `Desk::commit` are a worker's turn: it
//! computes a delivery outside the lock. `scheduler` says which workers wait, and who is woken.
//! RFCs: none; what a call comes to is said by `room` and `reference_machine`.
//! Differs: contracts speak of some legal history, since what a lock guards is known only while it is held. That
//! workers make progress, or that a waiting one wakes, is not claimed.
//! Called by: `team_run`, one thread for each engineer and worker; `desk_tests`.
//! Definitions: `specs/Desks.antt`; those of `guarded`, the state under the lock, are exact.
#![tactic(auto)]

mod desk;
mod effort;
mod guarded;
mod worker_threads;
mod workers;

pub use desk::{Desk, MAX_SEATS, MAX_SHARDS, OpenFault};
pub use room::{
    Audit, CloseFault, CommitFault, Committed, Done, Fault, Job, Newer, Progress, Record, Room,
    Seat,
};
pub use workers::{Gate, run_workers};
