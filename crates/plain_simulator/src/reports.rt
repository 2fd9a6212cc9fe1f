//! The answers to questions.

ghost use Rattle.std.specs.Prelude.{◌≡◌, ◌++◌, ◌&&◌, true, false, None, map, filter, option_map, IfOk, OnOk, OnErr};
ghost use Rattle.net_conf.specs.Configuration.{has_node};
ghost use Rattle.net_conf.specs.Sites.{site_of};
ghost use Rattle.reference_machine.specs.Advertising.{advertised};
ghost use Rattle.std.specs.List.{filter_map, list_all};
ghost use Rattle.std.specs.Option.{option_to_list};
ghost use Rattle.net_prefix.specs.Address.{same_addr};
ghost use Rattle.reference_machine.specs.Network.{routes_from};
ghost use Rattle.reference_machine.specs.Decision.{best, standings};
ghost use Rattle.reference_machine.specs.Reports.{held_of, loc_rib, choice, why, reasons_of, reasons_at, reasons, adj_rib_in, advert_at, adj_rib_out, queue, is_quiet};
ghost use Rattle.reference_machine.specs.Machine.{asks_quiet, ask_refusal, report_of};

use crate::queues;
use crate::reasons::reasons_at;
use crate::state::State;
use net_conf::SiteConf;
use net_prefix::{Addr, Prefix};
use path_attr::SharedAttr;
use reference_machine::{RouteKey, advert_of, cost_and_hop, held_of};
use route_select::{Reason, Selector, Source};
use seq::{Copied, Seq, copy_all, push_some};
use session_queue::{Direction, Message};
use sim_event::{Ask, Event, Held, Report};
use std::alloc::{AllocError, Global};

impl State {
    /// The answer to a question that is not refused.
    pub fn report<S: Selector + Drop>(&self, alloc: Global, ask: &Ask) -> Result<Report, AllocError>
        requires { ask_refusal self.now.conf ask.now ≡ None }
        ensures report { IfOk result (λ report. report ≡ report_of self.now ask.now) }
        ensures quiet { OnErr result (asks_quiet (Event.Ask ask.now) ≡ false) }
    {
        match *ask {
            Ask::Routes(router) => Ok(Report::Routes(Seq::of(self.loc_rib::<S>(alloc, router)?))),
            Ask::Best(router, prefix) => Ok(Report::Best(self.choice::<S>(alloc, router, prefix)?)),
            Ask::Why(router, prefix) => {
                Ok(Report::Why(Seq::of(self.reasons::<S>(alloc, router, prefix)?)))
            }
            Ask::In(router, peer) => Ok(Report::Rib(Seq::of(self.adj_rib_in(
                alloc, router, peer,
            )?))),
            Ask::Out(router, peer) => {
                Ok(Report::Rib(Seq::of(self.adj_rib_out::<S>(alloc, router, peer)?)))
            }
            Ask::Queue(from, to) => {
                Ok(Report::Queue(Seq::of(self.queue(alloc, Direction { from, to })?)))
            }
            Ask::Quiet => Ok(Report::Quiet(self.is_quiet())),
            Ask::Cost(router, target) => Ok(Report::Cost(cost_and_hop(
                alloc, &self.conf, router, target,
            )?)),
            Ask::Trace(router, target) => {
                let traced = self.trace::<S>(alloc, router, target)?;
                Ok(Report::Trace(traced.hops, traced.ending))
            }
        }
    }

    /// The router's choices, in order of prefix.
    #[tactic(auto, unfolding(reference_machine::specs::Reports::loc_rib))]
    fn loc_rib<S: Selector + Drop>(
        &self,
        alloc: Global,
        router: Addr,
    ) -> Result<Vec<Held>, AllocError>
        ensures { IfOk result (λ routes. routes.items ≡ loc_rib self.now router) }
    {
        let site = self.conf.site_at(alloc, router)?;
        let prefixes = self.prefixes(alloc, router)?;
        self.held::<S>(alloc, &site, router, &prefixes)
    }

    /// The choices for these prefixes of the router of the site.
    fn held<S: Selector + Drop>(
        &self,
        alloc: Global,
        site: &Option<SiteConf>,
        router: Addr,
        prefixes: &[Prefix],
    ) -> Result<Vec<Held>, AllocError>
        requires { site.now ≡ site_of self.now.conf router }
        ensures { IfOk result (λ routes.
            routes.items ≡ filter_map (λ p. held_of p (best self.now router p)) prefixes.now) }
    {
        let mut routes = Vec::new(alloc);
        for prefix in prefixes {
            let route = self.best_at::<S>(alloc, site, router, *prefix)?;
            let held = held_of(*prefix, route.as_ref())?;
            push_some(&mut routes, held)?;
        }
        Ok(routes)
    }

    /// Why each route of the router to the prefix was chosen or dropped.
    #[tactic(auto, unfolding(reference_machine::specs::Reports::reasons))]
    fn reasons<S: Selector + Drop>(
        &self,
        alloc: Global,
        router: Addr,
        prefix: Prefix,
    ) -> Result<Vec<(Source, Reason)>, AllocError>
        ensures { IfOk result (λ found. found.items ≡ reasons self.now router prefix) }
    {
        let site = self.conf.site_at(alloc, router)?;
        reasons_at::<S>(alloc, &site, prefix, &self.received)
    }

    /// The router's choice for the prefix.
    #[tactic(auto, unfolding(reference_machine::specs::Reports::choice))]
    fn choice<S: Selector + Drop>(
        &self,
        alloc: Global,
        router: Addr,
        prefix: Prefix,
    ) -> Result<Option<Held>, AllocError>
        ensures { IfOk result (λ held. held ≡ choice self.now router prefix) }
    {
        held_of(prefix, self.best::<S>(alloc, router, prefix)?.as_ref())
    }

    /// What the router has received from the peer, in order of prefix; nothing while the session is down.
    #[tactic(auto, unfolding(reference_machine::specs::Reports::adj_rib_in))]
    fn adj_rib_in(
        &self,
        alloc: Global,
        router: Addr,
        peer: Addr,
    ) -> Result<Vec<(Prefix, SharedAttr)>, AllocError>
        ensures { IfOk result (λ routes. routes.items ≡ adj_rib_in self.now router peer) }
    {
        if self.conf.is_up(router, peer) {
            self.received_from(alloc, router, peer)
        } else {
            Ok(Vec::new(alloc))
        }
    }

    /// What the router has received from the peer.
    fn received_from(
        &self,
        alloc: Global,
        router: Addr,
        peer: Addr,
    ) -> Result<Vec<(Prefix, SharedAttr)>, AllocError>
        ensures { IfOk result (λ routes.
            routes.items ≡ map (λ e. (e.0.prefix, e.1)) (routes_from router peer self.now.received)) }
    {
        let mut routes = Vec::new(alloc);
        for (key, attr) in self.received.iter() {
            if is_between(router, peer, *key) {
                routes.push((key.prefix, attr.share()?))?;
            }
        }
        Ok(routes)
    }

    /// What the router advertises to the peer, in order of prefix.
    #[tactic(auto, unfolding(reference_machine::specs::Reports::adj_rib_out))]
    fn adj_rib_out<S: Selector + Drop>(
        &self,
        alloc: Global,
        router: Addr,
        peer: Addr,
    ) -> Result<Vec<(Prefix, SharedAttr)>, AllocError>
        ensures { IfOk result (λ routes. routes.items ≡ adj_rib_out self.now router peer) }
    {
        let site = self.conf.site_at(alloc, router)?;
        let prefixes = self.prefixes(alloc, router)?;
        self.adverts::<S>(alloc, &site, router, peer, &prefixes)
    }

    /// What the router of the site advertises to the peer for these prefixes.
    fn adverts<S: Selector + Drop>(
        &self,
        alloc: Global,
        site: &Option<SiteConf>,
        router: Addr,
        peer: Addr,
        prefixes: &[Prefix],
    ) -> Result<Vec<(Prefix, SharedAttr)>, AllocError>
        requires { site.now ≡ site_of self.now.conf router }
        ensures { IfOk result (λ routes. routes.items ≡ filter_map (advert_at self.now router peer) prefixes.now) }
    {
        let mut routes = Vec::new(alloc);
        for prefix in prefixes {
            let route = self.advert_at::<S>(alloc, site, router, peer, *prefix)?;
            push_some(&mut routes, route)?;
        }
        Ok(routes)
    }

    /// What the router of the site advertises to the peer for the prefix, with the prefix.
    fn advert_at<S: Selector + Drop>(
        &self,
        alloc: Global,
        site: &Option<SiteConf>,
        router: Addr,
        peer: Addr,
        prefix: Prefix,
    ) -> Result<Option<(Prefix, SharedAttr)>, AllocError>
        requires { site.now ≡ site_of self.now.conf router }
        ensures { IfOk result (λ route. route ≡ advert_at self.now router peer prefix) }
    {
        match self.advertised::<S>(alloc, site, router, peer, prefix)? {
            None => Ok(None),
            Some(attr) => Ok(Some((prefix, attr))),
        }
    }

    /// What the router of the site advertises to the peer for the prefix.
    #[tactic(auto, unfolding(reference_machine::specs::Advertising::advertised))]
    fn advertised<S: Selector + Drop>(
        &self,
        alloc: Global,
        site: &Option<SiteConf>,
        router: Addr,
        peer: Addr,
        prefix: Prefix,
    ) -> Result<Option<SharedAttr>, AllocError>
        requires { site.now ≡ site_of self.now.conf router }
        ensures { IfOk result (λ attr. attr ≡ advertised self.now router peer prefix) }
    {
        let is_up = self.conf.is_up(router, peer);
        let chosen = self.best_at::<S>(alloc, site, router, prefix)?;
        advert_of(alloc, is_up, site.as_ref(), peer, prefix, chosen.as_ref())
    }

    /// The messages on their way, the head first; none while the session is down.
    #[tactic(auto, unfolding(reference_machine::specs::Reports::queue))]
    fn queue(&self, alloc: Global, direction: Direction) -> Result<Vec<Message>, AllocError>
        ensures { IfOk result (λ messages. messages.items ≡ queue self.now direction) }
    {
        if !self.conf.is_up(direction.from, direction.to) {
            return Ok(Vec::new(alloc));
        }
        match queues::messages_in(&self.queues, direction) {
            None => Ok(Vec::new(alloc)),
            Some(messages) => copy_all(alloc, messages),
        }
    }

    /// Whether no message is on its way.
    #[tactic(auto, unfolding(reference_machine::specs::Reports::is_quiet))]
    fn is_quiet(&self) -> bool
        ensures { result ≡ is_quiet self.now }
    {
        self.queues.iter().all(|queue| queue.messages.is_empty())
    }
}

/// Whether the route is one that the router has received from the peer.
fn is_between(router: Addr, peer: Addr, key: RouteKey) -> bool
    ensures { result ≡ (same_addr key.to router && same_addr key.from peer) }
{
    key.to == router && key.from == peer
}
