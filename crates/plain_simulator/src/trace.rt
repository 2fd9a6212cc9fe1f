//! The way of what a router forwards.

ghost use Rattle.std.specs.Prelude.{◌≡◌, filter, IfOk, if◌then◌else◌};
ghost use Rattle.net_conf.specs.Costs.{costs_of};
ghost use Rattle.net_conf.specs.Sites.{site_of};
ghost use Rattle.reference_machine.specs.Decision.{best};
ghost use Rattle.net_prefix.specs.Tests.{contains};
ghost use Rattle.reference_machine.specs.Tracing.{forwards_by, longer, longest, longest_match, has_passed, onward, by_route, look, trace};

use crate::decide;
use crate::state::State;
use igp_cost::Tree;
use net_conf::SiteConf;
use net_prefix::{Addr, Prefix};
use reference_machine::{Look, Traced};
use route_select::{Candidate, Selector, Source};
use seq::Seq;
use sim_event::TraceEnd;
use std::alloc::{AllocError, Global};

impl State {
    /// The way from the router of what is for the address. It ends, since no router forwards twice.
    #[tactic(auto, unfolding(reference_machine::specs::Tracing::trace))]
    pub fn trace<S: Selector + Drop>(
        &self,
        alloc: Global,
        router: Addr,
        target: Addr,
    ) -> Result<Traced, AllocError>
        ensures { IfOk result (λ traced. traced ≡ trace self.now router target) }
    {
        let mut hops = Seq::new(alloc);
        let mut at = router;
        'hop: loop {
            match self.look::<S>(alloc, hops.as_slice(), at, target)? {
                Look::Ends(ending) => return Ok(Traced { hops, ending }),
                Look::Forwards(prefix, next) => {
                    hops.push((at, prefix))?;
                    at = next;
                }
            }
        }
    }

    /// What becomes of it at the address, where it came over the hops.
    #[tactic(auto, unfolding(reference_machine::specs::Tracing::look))]
    fn look<S: Selector + Drop>(
        &self,
        alloc: Global,
        hops: &[(Addr, Prefix)],
        at: Addr,
        target: Addr,
    ) -> Result<Look, AllocError>
        ensures { IfOk result (λ found. found ≡ look self.now target hops.now at) }
    {
        if has_passed(at, hops) {
            return Ok(Look::Ends(TraceEnd::Loop(at)));
        }
        if self.conf.is_virtual(at) {
            return Ok(Look::Ends(TraceEnd::Reached(at)));
        }
        let site = self.conf.site_at(alloc, at)?;
        match self.longest_match::<S>(alloc, &site, at, target)? {
            None => Ok(Look::Ends(TraceEnd::NoRoute(at))),
            Some(prefix) => self.by_best::<S>(alloc, &site, at, prefix),
        }
    }

    /// The longest prefix that contains the address and has a chosen route at the router of the site.
    #[tactic(auto, unfolding(reference_machine::specs::Tracing::longest_match))]
    fn longest_match<S: Selector + Drop>(
        &self,
        alloc: Global,
        site: &Option<SiteConf>,
        router: Addr,
        target: Addr,
    ) -> Result<Option<Prefix>, AllocError>
        requires { site.now ≡ site_of self.now.conf router }
        ensures { IfOk result (λ found. found ≡ longest_match self.now router target) }
    {
        let prefixes = self.prefixes(alloc, router)?;
        self.longest_of::<S>(alloc, site, router, target, &prefixes)
    }

    /// The longest of these prefixes that contains the address and has a chosen route.
    fn longest_of<S: Selector + Drop>(
        &self,
        alloc: Global,
        site: &Option<SiteConf>,
        router: Addr,
        target: Addr,
        prefixes: &[Prefix],
    ) -> Result<Option<Prefix>, AllocError>
        requires { site.now ≡ site_of self.now.conf router }
        ensures { IfOk result (λ found. found ≡ longest (filter (forwards_by self.now router target) prefixes.now)) }
    {
        let mut found = None;
        for prefix in prefixes {
            let does = self.forwards_by::<S>(alloc, site, router, target, *prefix)?;
            found = longer_if(does, found, *prefix);
        }
        Ok(found)
    }

    /// Whether the prefix contains the address, and has a chosen route at the router of the site.
    fn forwards_by<S: Selector + Drop>(
        &self,
        alloc: Global,
        site: &Option<SiteConf>,
        router: Addr,
        target: Addr,
        prefix: Prefix,
    ) -> Result<bool, AllocError>
        requires { site.now ≡ site_of self.now.conf router }
        ensures { IfOk result (λ does. does ≡ forwards_by self.now router target prefix) }
    {
        if !contains(prefix, target) {
            return Ok(false);
        }
        Ok(self.best_at::<S>(alloc, site, router, prefix)?.is_some())
    }

    /// What becomes of it at the router of the site, by the chosen route for the prefix.
    fn by_best<S: Selector + Drop>(
        &self,
        alloc: Global,
        site: &Option<SiteConf>,
        at: Addr,
        prefix: Prefix,
    ) -> Result<Look, AllocError>
        requires { site.now ≡ site_of self.now.conf at }
        ensures { IfOk result (λ found.
            found ≡ by_route (costs_of self.now.conf at) at prefix (best self.now at prefix)) }
    {
        match site {
            None => Ok(Look::Ends(TraceEnd::NoRoute(at))),
            Some(here) => {
                let best = decide::best::<S>(alloc, here, prefix, &self.received)?;
                Ok(by_route(&here.costs, at, prefix, &best))
            }
        }
    }
}

/// What becomes of it at the router, by the route that it chose.
fn by_route(costs: &Tree, at: Addr, prefix: Prefix, best: &Option<Candidate>) -> Look
    ensures { result ≡ by_route costs.now at prefix best.now }
{
    let Some(best) = best else {
        return Look::Ends(TraceEnd::NoRoute(at));
    };
    match best.source {
        Source::Own => Look::Ends(TraceEnd::Reached(at)),
        Source::Peer(_) => onward(at, prefix, costs.first_hop(best.attr.next())),
    }
}

/// Over the first hop towards the next hop, where there is one.
fn onward(at: Addr, prefix: Prefix, hop: Option<Addr>) -> Look
    ensures { result ≡ onward at prefix hop }
{
    match hop {
        None => Look::Ends(TraceEnd::NoRoute(at)),
        Some(hop) => Look::Forwards(prefix, hop),
    }
}

/// Whether the prefix contains the address.
fn contains(prefix: Prefix, target: Addr) -> bool
    ensures { result ≡ contains prefix target }
{
    prefix.contains(target)
}

/// Whether the router has forwarded it.
fn has_passed(router: Addr, hops: &[(Addr, Prefix)]) -> bool
    ensures { result ≡ has_passed router hops.now }
{
    hops.iter().any(|hop| hop.0 == router)
}

/// The longer of what was found and the prefix, where it counts.
fn longer_if(counts: bool, found: Option<Prefix>, prefix: Prefix) -> Option<Prefix>
    ensures { result ≡ (if counts then longer found prefix else found) }
{
    if counts { longer(found, prefix) } else { found }
}

/// The longer of a prefix and one that may be missing.
fn longer(found: Option<Prefix>, prefix: Prefix) -> Option<Prefix>
    ensures { result ≡ longer found prefix }
{
    match found {
        None => Some(prefix),
        Some(other) => {
            if other.len() < prefix.len() {
                Some(prefix)
            } else {
                Some(other)
            }
        }
    }
}
