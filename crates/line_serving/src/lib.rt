//! Lines in, answers out, whatever the language of the lines is.
#![tactic(auto)]

mod fault;
mod language;
mod line;
mod script;
mod serving;
mod typist;

pub use fault::ServeFault;
pub use language::Language;
pub use serving::serve_lines;
pub use typist::{CAPACITY, Typist};
