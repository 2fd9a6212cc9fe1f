//! Several engineers and workers at one desk: a thread for each, and the log of what happened.
#![tactic(auto)]

mod crew;
mod engineer;
mod screen;
mod team;
mod told;

pub use team::{Settings, Team, run_team};
