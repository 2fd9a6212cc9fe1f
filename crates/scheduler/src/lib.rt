//! The workers at a desk: how many are there, who of them waits and for what, who is woken, and who backs off. Nothing
//! here decides what a call or a delivery comes to. Contracts see counts, and what each call does to them: nobody sleeps
//! for whom a message may wait, but somebody is at work who will wake them (`IsWatched`). That a thread that is woken
//! runs no contract says.
#![tactic(auto)]

mod backoff;
mod conditions;
mod receivers;
mod scheduler;
mod shard_waits;
mod waits;
mod workers;

pub use backoff::{Backoff, Between};
pub use conditions::ShardCondition;
pub use receivers::Receivers;
pub use scheduler::Scheduler;
pub use workers::Workers;
