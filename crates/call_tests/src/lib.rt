//! Tests of public calls that no script shows, a module for each library; those of the lowest libraries stand in
//! `route_tests`. They stand apart from the libraries, which would be proved once more with them. What a script shows
//! is a case, in cases/ at the top of the repository.
#![tactic(auto)]

#[cfg(test)]
mod common;
#[cfg(test)]
mod configuration;
#[cfg(test)]
mod costs;
#[cfg(test)]
mod events;
#[cfg(test)]
mod machine;
#[cfg(test)]
mod pool;
#[cfg(test)]
mod queues;
