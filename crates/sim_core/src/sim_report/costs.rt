//! What it costs a router to reach an address.

ghost use Rattle.std.specs.Prelude.{◌≡◌, true, false, IfOk};
ghost use Rattle.igp_cost.specs.Trees.{cost_in, first_hop_in};
ghost use Rattle.std.specs.Option.{option_map, option_and_then};
ghost use Rattle.net_conf.specs.Configuration.{has_node, is_virtual};
ghost use Rattle.reference_machine.specs.Reports.{cost_and_hop};
ghost use Rattle.cell_engine.specs.State.{network};

use cell_engine::{Cell, State};
use igp_cost::Tree;
use net_prefix::Addr;
use prefix_table::PrefixTable;
use route_select::Selector;
use std::alloc::AllocError;

/// The router's cost to the address, and the address to which it forwards what is for it, where there is a way. They
/// stand in the tree of the router's site. Want of memory comes only where no site is kept.
pub(crate) fn cost_and_hop<S: Selector, T: PrefixTable<Cell<S>>>(
    state: &State<S, T>,
    router: Addr,
    target: Addr,
) -> Result<Option<(u32, Addr)>, AllocError>
    requires there { has_node state.now.conf router ≡ true }
    requires router { is_virtual state.now.conf router ≡ false }
    ensures { IfOk result (λ way. way ≡ cost_and_hop (network state.now).conf router target) }
{
    let made = state.made_site(router)?;
    match state.site(router, &made) {
        None => unreachable!(),
        Some(site) => {
            let way = cost_and_hop_in(&site.costs, target);
            drop(made);
            Ok(way)
        }
    }
}

/// The cost and the first hop that the tree has.
fn cost_and_hop_in(tree: &Tree, target: Addr) -> Option<(u32, Addr)>
    ensures { result ≡ option_and_then (λ n. option_map (λ hop. (n, hop)) (first_hop_in tree.now target))
        (cost_in tree.now target) }
{
    match (tree.cost(target), tree.first_hop(target)) {
        (Some(cost), Some(hop)) => Some((cost, hop)),
        _ => None,
    }
}
