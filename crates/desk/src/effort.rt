//! How much work deliveries are.

use net_conf::SiteConf;
use room::Outcomes;
use route_select::Chosen;

/// So many sessions and rules of a router are many: to look at them all takes longer than all else in a delivery.
const MANY: usize = 1_000;

/// Whether one of the deliveries is much work, as far as one can tell: its receiver is a router that has many sessions
/// and rules.
pub(crate) fn are_much_work<S: Chosen>(outcomes: &Outcomes<S>) -> bool {
    outcomes
        .as_slice()
        .iter()
        .any(|done| is_much_work(done.site()))
}

/// Whether there are many sessions and rules at the site.
fn is_much_work(site: Option<&SiteConf>) -> bool {
    let Some(site) = site else {
        return false;
    };
    let mut count = 0_usize;
    for session in site.sessions.as_slice() {
        count = count
            .saturating_add(1)
            .saturating_add(session.policy_in.len())
            .saturating_add(session.policy_out.len());
        if count >= MANY {
            return true;
        }
    }
    false
}
