//! Which cells an edit can change.

ghost use Rattle.std.specs.Prelude.{◌≡◌, not};
ghost use Rattle.std.specs.Bool.{OnTrue};
ghost use Rattle.std.specs.List.{list_any};
ghost use Rattle.igp_cost.specs.Trees.{cost_in};
ghost use Rattle.net_conf.specs.Costs.{is_up};
ghost use Rattle.cell_engine.specs.SiteMoves.{is_about_cost, counts_cost, moves_cost_to, is_route_moved, is_own_moved, has_route, is_moved, MovesCostsAlone};
ghost use Rattle.cell_engine.specs.Recosting.{is_own, lone_cost, recost};
ghost use Rattle.cell_engine.specs.MoveTests.{stays_between, stays_of};

use crate::route_cell::cell::Cell;
use net_conf::{Conf, SharedSite, SiteConf, SiteSession};
use net_prefix::{Addr, Prefix};
use path_attr::{Attr, SharedAttr};
use reference_machine::{exclusion_at, is_originated};
use route_policy::judge;
use route_select::{Reason, Selector};
use std::marker::Model;

/// The cost to an address before the edit, and after it. None where no way leads there.
#[derive(Clone, Copy)]
struct Look {
    to: Addr,
    old: Option<u32>,
    new: Option<u32>,
}

/// What stays of a router's part of the configuration at an edit: its settings with which of its sessions are up, and
/// the prefixes that it originates.
#[derive(Clone, Copy)]
pub struct Stays {
    pub(crate) facts: bool,
    pub(crate) origins: bool,
}

impl Stays {
    /// What stays between these two parts.
    fn between(old: &SiteConf, new: &SiteConf) -> Stays
        ensures { result ≡ stays_between old.now new.now }
    {
        Stays {
            facts: old.has_same_facts(new),
            origins: old.origins == new.origins,
        }
    }

    /// What stays where a router stands before and after. Elsewhere nothing does.
    pub fn of(old: &Option<SharedSite>, new: &Option<SharedSite>) -> Stays
        ensures { result ≡ stays_of old.now new.now }
    {
        match (old, new) {
            (Some(old), Some(new)) => Stays::between(old.get(), new.get()),
            _ => Stays {
                facts: false,
                origins: false,
            },
        }
    }
}

/// A router's part of the configuration before an edit and after it, of which it is known what stays. It remembers the
/// NEXT_HOP that was looked up last: most routes of a router have the same one.
#[derive(Drop)]
pub struct SiteChange<'a> {
    pub(crate) old: &'a SiteConf,
    pub(crate) new: &'a SiteConf,
    pub(crate) stays: Stays,
    last: Option<Look>,
}

impl<'a> Model for SiteChange<'a> {
    ghost use Rattle.std.specs.Prelude.{◌≡◌, IfSome};
    ghost use Rattle.igp_cost.specs.Trees.{cost_in};
    ghost use Rattle.net_conf.specs.Facts.{same_facts};
    ghost use Rattle.cell_engine.specs.SiteMoves.{SitePair};
    ghost use Rattle.cell_engine.specs.MoveTests.{same_origins};

    ghost Value = { SitePair };

    ghost view = { λ x. record { old = x.old.now; new = x.new.now } };

    ghost invariant = { λ x. (x.stays.facts ≡ same_facts x.old.now x.new.now) ×
        (x.stays.origins ≡ same_origins x.old.now x.new.now)
        × IfSome x.last (λ look. (look.old ≡ cost_in x.old.now.costs look.to) ×
        (look.new ≡ cost_in x.new.now.costs look.to)) };
}

impl<'a> SiteChange<'a> {
    /// What becomes of the router's part of the configuration, of which this stays.
    pub fn of(old: &'a SiteConf, new: &'a SiteConf, stays: Stays) -> Self
        requires { stays ≡ stays_between old.now new.now }
        ensures { result ≡ record { old = old.now; new = new.now } }
    {
        SiteChange {
            old,
            new,
            stays,
            last: None,
        }
    }

    /// Whether settings, sessions and originated prefixes stay: then a cell can move by a cost alone.
    #[tactic(auto, using(crate::proofs::MoveTests::same_own))]
    pub fn moves_costs_alone(&self) -> bool
        ensures { OnTrue result (MovesCostsAlone self.now) }
    {
        self.stays.facts && self.stays.origins
    }

    /// Whether the cost to the address becomes another, or comes, or goes. It looks anew, and remembers nothing.
    pub fn moves_cost(&self, to: Addr) -> bool
        ensures { result ≡ moves_cost_to self.now to }
    {
        self.old.costs.cost(to) != self.new.costs.cost(to)
    }

    /// Whether the router comes to originate the prefix, or ceases to.
    #[tactic(auto, using(crate::proofs::MoveTests::same_own))]
    fn moves_own(&self, prefix: Prefix) -> bool
        ensures { result ≡ is_own_moved self.now prefix }
    {
        if self.stays.origins {
            return false;
        }
        is_originated(self.old, prefix) != is_originated(self.new, prefix)
    }

    /// Whether the router originates the prefix, before the edit or after it.
    #[tactic(auto, using(crate::proofs::MoveTests::own_before))]
    fn is_own(&self, prefix: Prefix) -> bool
        ensures { result ≡ is_own self.now prefix }
    {
        is_originated(self.old, prefix) || (!self.stays.origins && is_originated(self.new, prefix))
    }

    /// The costs to the address: those of the last look, where it was at this address, else of a new one.
    fn look_at(&mut self, to: Addr) -> Look
        ensures old { result.old ≡ cost_in self.entry.now.old.costs to }
        ensures new { result.new ≡ cost_in self.entry.now.new.costs to }
        ensures stays { self.exit.now ≡ self.entry.now }
    {
        if let Some(look) = self.last {
            if look.to == to {
                return look;
            }
        }
        let look = Look {
            to,
            old: self.old.costs.cost(to),
            new: self.new.costs.cost(to),
        };
        self.last = Some(look);
        look
    }

    /// The cost to the NEXT_HOP of a lone route after the edit. None where there is no cost before, or none after, or
    /// not one route.
    fn lone_cost(&mut self, routes: &[(Addr, SharedAttr)]) -> Option<u32>
        ensures cost { result ≡ lone_cost self.entry.now routes.now }
        ensures stays { self.exit.now ≡ self.entry.now }
    {
        match routes {
            [route] => {
                let look = self.look_at(route.1.attr().next);
                look.old.and(look.new)
            }
            _ => None,
        }
    }

    /// Whether a cost that counts for the peer's route becomes another.
    fn moves_route(&mut self, prefix: Prefix, from: Addr, attr: &Attr) -> bool
        ensures moves { result ≡ is_route_moved self.entry.now prefix (from, attr.now) }
        ensures stays { self.exit.now ≡ self.entry.now }
    {
        let look = self.look_at(attr.next);
        if look.old == look.new {
            return false;
        }
        match self.old.session(from) {
            Some(session) => counts_cost(self.old, prefix, attr, session, look.old),
            None => false,
        }
    }

    /// Whether one of these routes moves.
    fn moves_any(&mut self, prefix: Prefix, routes: &[(Addr, SharedAttr)]) -> bool
        ensures moves { result ≡ list_any (is_route_moved self.entry.now prefix) routes.now }
        ensures stays { self.exit.now ≡ self.entry.now }
    {
        for route in routes {
            if self.moves_route(prefix, route.0, route.1.attr()) {
                return true;
            }
        }
        false
    }
}

/// Whether the exclusion leaves the decision to the cost to the NEXT_HOP.
fn is_about_cost(exclusion: Option<Reason>) -> bool
    ensures { result ≡ is_about_cost exclusion }
{
    matches!(exclusion, None | Some(Reason::Unresolved))
}

/// Whether the cost to its NEXT_HOP, which was looked up, counts for a route that came over the session.
fn counts_cost(
    site: &SiteConf,
    prefix: Prefix,
    attr: &Attr,
    from: &SiteSession,
    cost: Option<u32>,
) -> bool
    requires { cost ≡ cost_in site.now.costs attr.now.next }
    ensures { result ≡ counts_cost site.now prefix attr.now from.now }
{
    let action = judge(&from.policy_in, prefix, attr);
    from.up && is_about_cost(exclusion_at(site, &action, attr, cost))
}

impl<S: Selector> Cell<S> {
    /// Whether the router's cell of the prefix can change. Where it says no, `refresh` gives the cell again, and sends
    /// nothing.
    pub fn is_moved(&self, change: &mut SiteChange<'_>, prefix: Prefix) -> bool
        ensures moved { result ≡ is_moved change.entry.now prefix self.now.received }
        ensures stays { change.exit.now ≡ change.entry.now }
    {
        let routes = self.received.routes();
        if change.stays.facts {
            change.moves_own(prefix) || change.moves_any(prefix, routes)
        } else {
            self.has_route(change.old, prefix) || is_originated(change.new, prefix)
        }
    }

    /// The cost that the cell's one route has after the edit, where the edit changes the cell in that alone. None
    /// elsewhere: such a cell has to be decided anew.
    pub fn recost(&self, change: &mut SiteChange<'_>, prefix: Prefix) -> Option<u32>
        ensures cost { result ≡ recost change.entry.now prefix self.now.received }
        ensures stays { change.exit.now ≡ change.entry.now }
    {
        if change.stays.facts && !change.is_own(prefix) {
            change.lone_cost(self.received.routes())
        } else {
            None
        }
    }

    /// Whether the router has a route to the prefix: one that it received, or its own.
    pub fn has_route(&self, site: &SiteConf, prefix: Prefix) -> bool
        ensures { result ≡ has_route site.now prefix self.now.received }
    {
        !self.received.routes().is_empty() || is_originated(site, prefix)
    }

    /// Whether a route in a virtual peer's cell came over a session that is down.
    pub fn loses_route(&self, conf: &Conf, peer: Addr) -> bool
        ensures { result ≡ list_any (λ e. not (is_up conf.now e.0 peer)) self.now.received }
    {
        self.received
            .routes()
            .iter()
            .any(|route| !conf.is_up(route.0, peer))
    }
}
