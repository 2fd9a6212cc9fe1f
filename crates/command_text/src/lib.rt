//! The command language: lines that spell events.
#![tactic(auto)]

mod arguments;
mod ascending;
mod command;
mod communities;
mod feed;
mod front;
mod laws;
mod limits;
mod line;
mod path;
mod rule;
mod sequence;
mod values;
mod verb;
mod words;

pub use laws::one_meaning;
pub use limits::MAX_LINE;
pub use line::read_line;
