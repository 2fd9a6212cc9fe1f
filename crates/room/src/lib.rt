//! One machine with a history of the calls of several seats, which is proved legal. It has no lock.
//!
//! For: `Room::step` does a call of a seat, and writes call and reply into the history and the seat's notes.
//! `Room::job` hands out a delivery, `Job::work` computes it anywhere, and `Room::commit` installs the outcome only
//! where it is the machine's own at that moment; else it says what moved. `audit` and `close` compare the notes of
//! seats with the history.
//! RFC 4271, 9.1: the decision process may run at any time, so deliveries may come in any order.
//! Differs: histories, seats and jobs are this project's choice, and no standard has them.
//! Called by: `desk`, which puts a lock around it. An edit takes the right to start threads, to decide many RIB
//! entries, and hands it on.
//! Definitions: `reference_machine/specs/Histories.antt` (legal histories), `specs/Books.antt` (notes and counts).
#![tactic(auto)]

mod room;

pub use room::{
    Audit, CloseFault, CommitFault, Committed, Done, Fault, Job, Jobs, Newer, Outcomes, Progress,
    Record, Room, Seat,
};
