//! Streams that are read and written, and what they did: which bytes, and whether they failed. And what was read and
//! not yet taken, with the first line in it.
#![tactic(auto)]

mod input;
mod line_buffer;
mod output;
mod sink;
mod source;

pub use input::Input;
pub use line_buffer::LineBuffer;
pub use output::Output;
pub use sink::{Sink, Writer, WriterFailed};
pub use source::{Reader, Source};
