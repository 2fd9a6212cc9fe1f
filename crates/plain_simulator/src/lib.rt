//! The definitions of `reference_machine` made to run: everything is decided afresh, before and after each step.
#![tactic(auto)]

mod choices;
mod decide;
mod queues;
mod reasons;
mod reports;
mod simulator;
mod state;
mod steps;
mod trace;

pub use simulator::Simulator;
