//! Replies as text: a reply is its lines, each ended by a line feed. And how a run of the program ends, with the line
//! of a fault.
#![tactic(auto)]

mod backward;
mod ending;
mod laws;
mod line;
mod marked;
mod number;
mod part;
mod path;
mod reply;
mod report;
mod text;

pub use ending::{
    DISAGREES, MISTAKEN, NO_MEMORY, READ_FAULT, RunFault, SUCCESS, WRITE_FAULT, end_by,
};
pub use laws::replies_are_lines;
pub use marked::write_marked_reply;
pub use part::Part;
pub use reply::{write_numbered, write_refusal, write_reply};
pub use text::{Text, write_each, write_joined};
