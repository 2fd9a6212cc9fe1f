//! Which of the routes to a prefix is best, and why each other one is not.
//!
//! For: a `Selector` keeps the eligible and the excluded routes of one router to one prefix, and answers `best` and
//! `reason`. `FilterCell` applies the filters when it is asked. `GroupCell` keeps the routes in groups of one
//! neighbouring AS, in order, so that a change compares few of them.
//! RFC 4271, 9.1.2 and 9.1.2.2 a to g; RFC 4456, 9: nine filters in turn, each over the routes that the last one left.
//! Differs: MED may be compared whatever the neighbouring AS, where a router is set so; at one peer address the own
//! route wins. There is no age of a route and no multipath.
//! Called by: `cell_engine`, one selector for each RIB entry; `plain_simulator` and `reference_machine` use only the
//! definitions. Definitions: `specs/Selection.antt`, in the order of the standard; laws in `specs/Laws.antt`.
#![tactic(auto)]

mod candidate;
mod chosen;
mod entries;
mod filter;
mod filter_cell;
mod group_cell;
mod groups;
mod laws;

pub use candidate::{Candidate, Reason, Source, Standing};
pub use chosen::{Chosen, Selector};
pub use filter::Filter;
pub use filter_cell::FilterCell;
pub use group_cell::GroupCell;
pub use laws::{each_is_applied, none_is_left, one_is_left};
