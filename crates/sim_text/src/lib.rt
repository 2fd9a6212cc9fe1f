//! Scripts: commands in, replies out.
#![tactic(auto)]

mod answer;
mod lines_run;
mod script_run;
mod serving;

pub use answer::{Commands, answer_line};
pub use lines_run::run_lines;
pub use script_run::run_script;
pub use serving::serve;
