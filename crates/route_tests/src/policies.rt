//! A worked policy.

use crate::common::{equal, prefix};
use net_prefix::Addr;
use path_attr::Attr;
use route_policy::{Action, Match, Policy, Rule, Settings, judge};
use std::process::Abort;

const PREFER_FIVE: Action = Action::Permit(Settings {
    pref: Some(5),
    med: None,
    prepend: None,
    add: None,
});

fn route() -> Attr {
    Attr::plain(Addr(1))
}

fn add(rt: &impl Abort, policy: &mut Policy, cond: Match, act: Action) {
    let added = policy.add(Rule { cond, act });
    assert!(rt; added.is_ok());
}

/// The policy `under 10.0.0.0/8 deny`, `any permit pref=5`, and then none.
#[test]
fn judges_by_the_first_rule(rt: HostRuntime) {
    let route = route();
    let mut policy = Policy::new(rt.alloc());
    let inside = Match::Under(prefix(&rt, "10.0.0.0/8"));
    add(&rt, &mut policy, inside, Action::Deny);
    add(&rt, &mut policy, Match::Any, PREFER_FIVE);
    let part = prefix(&rt, "10.1.0.0/16");
    equal(&rt, judge(&policy, part, &route), Action::Deny);
    let other = prefix(&rt, "11.0.0.0/8");
    equal(&rt, judge(&policy, other, &route), PREFER_FIVE);
    policy.clear();
    equal(&rt, judge(&policy, part, &route), Action::PLAIN_PERMIT);
}

/// The policy `comm 5 deny`.
#[test]
fn judges_by_communities(rt: HostRuntime) {
    let mut route = route();
    let mut policy = Policy::new(rt.alloc());
    add(&rt, &mut policy, Match::Comm(5), Action::Deny);
    let ten = prefix(&rt, "10.0.0.0/8");
    equal(&rt, judge(&policy, ten, &route), Action::PLAIN_PERMIT);
    route.comms = route.comms.with(rt.alloc(), 5).expect(&rt, "memory");
    equal(&rt, judge(&policy, ten, &route), Action::Deny);
}
