//! The simulator's language as data: events and replies, and what a call leaves in a history.
#![tactic(auto)]

mod entry;
mod event;
mod reply;

pub use entry::{Call, Entry};
pub use event::{Ask, Event, FedRoute, Feed, News};
pub use reply::{Held, Reply, Report, TraceEnd};
