//! Parts of the answers to questions.

ghost use Rattle.std.specs.Prelude.{◌≡◌, true, IfOk};
ghost use Rattle.std.specs.Option.{option_copied};
ghost use Rattle.net_conf.specs.Configuration.{has_node};
ghost use Rattle.reference_machine.specs.Reports.{held_of, cost_and_hop};

use net_conf::Conf;
use net_prefix::{Addr, Prefix};
use route_select::Candidate;
use sim_event::Held;
use std::alloc::{AllocError, Global};

/// The route that was chosen for the prefix, if one was, as the Loc-RIB holds it (RFC 4271, 3.2). It shares the
/// route's attributes: the only fault is that 2^63 owners share them.
pub fn held_of(prefix: Prefix, route: Option<&Candidate>) -> Result<Option<Held>, AllocError>
    ensures { IfOk result (λ held. held ≡ held_of prefix (option_copied route.entry)) }
{
    match route {
        None => Ok(None),
        Some(route) => Ok(Some(Held {
            prefix,
            source: route.source,
            attr: route.attr.share()?,
        })),
    }
}

/// The router's cost to the address, and the address to which it forwards what is for it, where there is a way.
#[tactic(auto, unfolding(crate::specs::Reports::cost_and_hop))]
pub fn cost_and_hop(
    alloc: Global,
    conf: &Conf,
    router: Addr,
    target: Addr,
) -> Result<Option<(u32, Addr)>, AllocError>
    requires { has_node conf.now router ≡ true }
    ensures { IfOk result (λ found. found ≡ cost_and_hop conf.now router target) }
{
    let tree = conf.costs(alloc, router)?;
    match (tree.cost(target), tree.first_hop(target)) {
        (Some(cost), Some(hop)) => Ok(Some((cost, hop))),
        _ => Ok(None),
    }
}
