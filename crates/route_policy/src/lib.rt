//! Policies: the rules by which a router denies routes, or permits them with settings.
#![tactic(auto)]

mod marked_route;
mod marks;
mod path_split;
mod policy;
mod repeat;
mod rule;

pub use policy::{AddFault, MAX_RULES, Policy, judge, judge_imported};
pub use repeat::Repeat;
pub use rule::{Action, Match, Rule, Settings};
