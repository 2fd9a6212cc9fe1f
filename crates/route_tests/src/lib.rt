//! Worked examples of prefixes, paths, policies and tables, as public calls; those of the libraries above them stand in
//! `call_tests`. They stand apart from the libraries, which would be proved once more with them. What a script shows is
//! a case, in cases/ at the top of the repository. The module `table_use` has callers of any table.
#![tactic(auto)]

#[cfg(test)]
mod common;
#[cfg(test)]
mod numbers;
#[cfg(test)]
mod paths;
#[cfg(test)]
mod policies;
#[cfg(test)]
mod prefixes;
#[cfg(test)]
mod table_callers;
mod table_use;
#[cfg(test)]
mod tables;

pub use table_use::{
    keys, keys_at_once, longest_in, longest_of_both, put_and_get, put_and_get_other, put_and_match,
};
