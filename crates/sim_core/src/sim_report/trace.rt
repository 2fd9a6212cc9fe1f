//! The way of what a router forwards.

ghost use Rattle.std.specs.Prelude.{◌≡◌, false, None, Some, IfOk};
ghost use Rattle.std.specs.Option.{IfSome, IfNone};
ghost use Rattle.net_conf.specs.Configuration.{is_virtual};
ghost use Rattle.reference_machine.specs.Decision.{best};
ghost use Rattle.reference_machine.specs.Tracing.{longest_match, has_passed, onward, by_route, by_prefix, look, trace};
ghost use Rattle.cell_engine.specs.State.{network};

use cell_engine::{Cell, State};
use igp_cost::Tree;
use net_prefix::{Addr, MAX_LEN, Prefix};
use prefix_table::PrefixTable;
use reference_machine::{Look, Traced};
use route_select::{Candidate, Selector, Source};
use seq::Seq;
use sim_event::TraceEnd;
use std::alloc::{AllocError, Global};

/// The way from the router of what is for the address. It ends, since no router forwards twice.
pub(crate) fn trace<S: Selector, T: PrefixTable<Cell<S>>>(
    alloc: Global,
    state: &State<S, T>,
    router: Addr,
    target: Addr,
) -> Result<Traced, AllocError>
    ensures { IfOk result (λ traced. traced ≡ trace (network state.now) router target) }
{
    let mut hops = Seq::new(alloc);
    let mut at = router;
    'hop: loop {
        let seen = look(state, hops.as_slice(), at, target)?;
        match seen {
            Look::Ends(ending) => return Ok(Traced { hops, ending }),
            Look::Forwards(prefix, next) => {
                hops.push((at, prefix))?;
                at = next;
            }
        }
    }
}

/// What becomes of it at the address, where it came over the hops. It takes no memory where the router's site is kept.
#[tactic(auto, unfolding(reference_machine::specs::Tracing::look, cell_engine::specs::State::network))]
fn look<S: Selector, T: PrefixTable<Cell<S>>>(
    state: &State<S, T>,
    hops: &[(Addr, Prefix)],
    at: Addr,
    target: Addr,
) -> Result<Look, AllocError>
    ensures { IfOk result (λ seen. seen ≡ look (network state.now) target hops.now at) }
{
    if has_passed(at, hops) {
        Ok(Look::Ends(TraceEnd::Loop(at)))
    } else if state.conf().is_virtual(at) {
        Ok(Look::Ends(TraceEnd::Reached(at)))
    } else {
        by_prefix(state, at, target)
    }
}

/// What becomes of it at a router: it goes by the route that is chosen for the longest match.
fn by_prefix<S: Selector, T: PrefixTable<Cell<S>>>(
    state: &State<S, T>,
    at: Addr,
    target: Addr,
) -> Result<Look, AllocError>
    requires { is_virtual state.now.conf at ≡ false }
    ensures { IfOk result (λ seen.
        seen ≡ by_prefix (network state.now) at (longest_match (network state.now) at target)) }
{
    let Some(found) = longest_chosen(state, at, target) else {
        return Ok(Look::Ends(TraceEnd::NoRoute(at)));
    };
    let made = state.made_site(at)?;
    match state.site(at, &made) {
        None => {
            drop(made);
            Ok(Look::Ends(TraceEnd::NoRoute(at)))
        }
        Some(site) => {
            let look = by_route(&site.costs, at, found.0, found.1);
            drop(made);
            Ok(look)
        }
    }
}

/// The longest prefix that contains the address and has a chosen route at the router, and that route. The router's
/// table is asked for its longest match, and where nothing is chosen for it for a shorter one.
fn longest_chosen<'a, S: Selector, T: PrefixTable<Cell<S>>>(
    state: &'a State<S, T>,
    router: Addr,
    target: Addr,
) -> Option<(Prefix, &'a Candidate)>
    requires { is_virtual state.now.conf router ≡ false }
    ensures found { IfSome result (λ e. longest_match (network state.now) router target ≡ Some e.0) }
    ensures best { IfSome result (λ e. best (network state.now) router e.0 ≡ Some e.1.now) }
    ensures none { IfNone result (longest_match (network state.now) router target ≡ None) }
{
    state.facts();
    let Some(table) = state.table(router) else {
        return None;
    };
    let mut most = MAX_LEN;
    'shorter: loop {
        let Some(entry) = table.longest(target, most) else {
            return None;
        };
        if let Some(best) = entry.1.best() {
            return Some((entry.0, best));
        }
        let len = entry.0.len();
        if len == 0 {
            return None;
        }
        most = len - 1;
    }
}

/// What becomes of it at the router, by the route that it chose.
fn by_route(costs: &Tree, at: Addr, prefix: Prefix, best: &Candidate) -> Look
    ensures { result ≡ by_route costs.now at prefix (Some best.now) }
{
    match best.source {
        Source::Own => Look::Ends(TraceEnd::Reached(at)),
        Source::Peer(_) => onward(at, prefix, costs.first_hop(best.attr.next())),
    }
}

/// Over the first hop towards the next hop, where there is one.
fn onward(at: Addr, prefix: Prefix, hop: Option<Addr>) -> Look
    ensures { result ≡ onward at prefix hop }
{
    match hop {
        None => Look::Ends(TraceEnd::NoRoute(at)),
        Some(hop) => Look::Forwards(prefix, hop),
    }
}

/// Whether the router has forwarded it.
fn has_passed(router: Addr, hops: &[(Addr, Prefix)]) -> bool
    ensures { result ≡ has_passed router hops.now }
{
    hops.iter().any(|hop| hop.0 == router)
}
