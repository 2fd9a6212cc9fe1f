//! Logs read again: each command is run anew, and each reply compared. And a log that is replayed by a program: how
//! that ends, with its exit status.
#![tactic(auto)]

mod answer;
mod call;
mod checker;
mod limits;
mod place;
mod progress;
mod replay_run;
mod replaying;
mod verdict;

pub use limits::{CAPACITY, MOST_BYTES, MOST_LINES};
pub use replay_run::run_replay;
pub use replaying::replay;
pub use verdict::{ReplayFault, Replayed};
