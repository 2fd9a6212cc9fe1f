//! Files of scripts, read whole within the limits of a script, and their lines.
#![tactic(auto)]

mod files;
mod lines;

pub use files::{Script, ScriptFile, read_scripts};
pub use lines::{Line, Lines};
