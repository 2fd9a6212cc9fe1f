//! What is written down of calls: the history of all, and the notes of each seat.
#![tactic(auto)]

mod agreement;
mod draft;
mod history;
mod same;
mod same_event;
mod same_reply;

pub use draft::Draft;
pub use history::History;
pub use same::{Same, are_same};
