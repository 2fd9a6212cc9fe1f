//! Tests of the desk: what no clause says of threads, of waiting and of its limits. Then what only a call can show:
//! lists of events, and a reader's own error. They stand apart from the desk, which would be proved once more with
//! them.
#![tactic(auto)]

#[cfg(test)]
mod common;
#[cfg(test)]
mod endings;
#[cfg(test)]
mod engineers;
#[cfg(test)]
mod gate;
#[cfg(test)]
mod limits;
#[cfg(test)]
mod runs;
#[cfg(test)]
mod streams;
