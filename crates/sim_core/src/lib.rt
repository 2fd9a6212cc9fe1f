//! The machine that the program runs: the engine of `cell_engine` behind the steps of `reference_machine`.
//!
//! For: `Sim::prepare` makes a `Plan` of an event, which takes all the memory that it needs, or says the refusal;
//! `Sim::apply` then does it without any. `step` is both, `run` a list of events. `sim_report` answers questions and
//! traces. `installs` takes an outcome that was computed elsewhere, if it is still the machine's own.
//! RFC 4271, 9.1.2.1 and 9.1.4 (forwarding by longest match); all else is that of `cell_engine`.
//! Differs: nothing from the model: each reply and each next state is that of `reference_machine`, or out of memory.
//! Called by: `sim_text` (scripts), `log_replay` (logs), `convergence`, and `room` (several engineers).
//! Definitions: those of `reference_machine`; `specs/` here has what a plan holds.
#![tactic(auto)]

mod counting;
mod deliveries;
mod edits;
mod feeds;
mod installs;
mod plan;
mod questions;
mod sim;
mod sim_report;

pub use plan::Plan;
pub use sim::Sim;
