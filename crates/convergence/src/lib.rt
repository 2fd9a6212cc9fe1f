//! Convergence: messages that wait are delivered one by one, each by a step of its own, until no message waits.
#![tactic(auto)]

mod by_router;
mod copying;
mod delivery;
mod ending;
mod engine;
mod fair;
mod keeping;
mod laws;
mod order;
mod random;
mod reached;
mod run;
mod waiting;

pub use copying::Copying;
pub use delivery::{Delivery, Tally};
pub use ending::{Advance, Convergence, Ending};
pub use keeping::Keeping;
pub use laws::waiting_is_taken;
pub use order::Order;
pub use reached::Reached;
pub use run::{Run, converge};
pub use waiting::{Queued, Waiting};
