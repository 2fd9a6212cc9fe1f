//! Scripts with four lines more: `converge`, which delivers the messages that wait; `waiting`, which lists where they
//! wait; `snapshot`, which keeps the network beside; and `restore`, which takes it back. All other lines are commands,
//! answered as in a script.
#![tactic(auto)]

mod answer;
mod converge_run;
mod deliveries;
mod listing;
mod request;
mod snapshots;
mod words;
mod writing;

pub use answer::ConvergeLines;
pub use converge_run::run_converge;
pub use convergence::{Keeping, Reached};
pub use request::{Converge, Request};
