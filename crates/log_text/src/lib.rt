//! Logs: the text of a history of calls, each with the number of its seat and its reply.
#![tactic(auto)]

mod command;
mod in_threads;
mod log;
mod rule;
mod version;

pub use command::write_command;
pub use in_threads::write_log_in_threads;
pub use log::{write_end, write_entries, write_header, write_log};
pub use version::Version;
