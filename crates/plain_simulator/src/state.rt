//! The state: what is configured, what was received, and what is on its way.

ghost use Rattle.std.specs.Prelude.{◌≡◌, ◌++◌, IfOk, OnOk, map, fold};
ghost use Rattle.std.specs.BTreeSet.{insert_key};
ghost use Rattle.net_prefix.specs.Prefix.{prefix_cmp};
ghost use Rattle.net_conf.specs.Sites.{site_of};
ghost use Rattle.reference_machine.specs.Network.{received_by, with_more};
ghost use Rattle.reference_machine.specs.Decision.{best};
ghost use Rattle.reference_machine.specs.Advertising.{prefixes_at, in_order, sent};
ghost use Rattle.reference_machine.specs.Machine.{nothing, with_sent};
ghost use Rattle.plain_simulator.specs.Choices.{router_choices};

use crate::choices::{RouterChoices, choices_at, messages_of};
use crate::{decide, queues};
use net_conf::{Conf, SiteConf};
use net_prefix::{Addr, Prefix};
use path_attr::SharedAttr;
use reference_machine::{Queue, RouteKey, sends};
use route_select::{Candidate, Selector};
use seq::Copied;
use session_queue::Message;
use std::alloc::{AllocError, Global};
use std::collections::{BTreeMap, BTreeSet};
use std::marker::Model;

/// What is configured, what was received, and what is on its way.
#[derive(Drop)]
pub struct State {
    pub(crate) conf: Conf,
    pub(crate) received: BTreeMap<RouteKey, SharedAttr>,
    pub(crate) queues: Vec<Queue>,
}

impl Model for State {
    ghost use Rattle.reference_machine.specs.Network.{Network};

    ghost Value = { Network };

    ghost view = { λ s. record { conf = s.conf; received = s.received.entries; queues = s.queues.items } };
}

impl State {
    /// Nothing. It takes no memory.
    pub fn new(alloc: Global) -> Self
        ensures { result ≡ nothing }
    {
        State {
            conf: Conf::new(alloc),
            received: BTreeMap::new(alloc),
            queues: Vec::new(alloc),
        }
    }

    /// The route that the router of the site chooses.
    #[tactic(auto, unfolding(reference_machine::specs::Decision::best))]
    pub fn best_at<S: Selector + Drop>(
        &self,
        alloc: Global,
        site: &Option<SiteConf>,
        router: Addr,
        prefix: Prefix,
    ) -> Result<Option<Candidate>, AllocError>
        requires { site.now ≡ site_of self.now.conf router }
        ensures { IfOk result (λ route. route ≡ best self.now router prefix) }
    {
        match site {
            None => Ok(None),
            Some(site) => decide::best::<S>(alloc, site, prefix, &self.received),
        }
    }

    /// The route that the router chooses.
    pub fn best<S: Selector + Drop>(
        &self,
        alloc: Global,
        router: Addr,
        prefix: Prefix,
    ) -> Result<Option<Candidate>, AllocError>
        ensures { IfOk result (λ route. route ≡ best self.now router prefix) }
    {
        let site = self.conf.site_at(alloc, router)?;
        self.best_at::<S>(alloc, &site, router, prefix)
    }

    /// The prefixes that the router has received, as they come.
    fn received_prefixes(&self, alloc: Global, router: Addr) -> Result<Vec<Prefix>, AllocError>
        ensures { IfOk result (λ prefixes.
            prefixes.items ≡ map (λ e. e.0.prefix) (received_by router self.now.received)) }
    {
        self.received
            .iter()
            .filter(|(key, _)| key.to == router)
            .map(|(key, _)| key.prefix)
            .collect(alloc)
    }

    /// Adds the prefixes that the router originates or has received, each in its place.
    fn add_prefixes(
        &self,
        alloc: Global,
        router: Addr,
        found: &mut BTreeSet<Prefix>,
    ) -> Result<(), AllocError>
        ensures { OnOk result
            (found.new.keys ≡ fold (λ qs p. insert_key prefix_cmp qs p) found.old.keys (prefixes_at self.now router)) }
    {
        let originated = self.conf.origins_of(alloc, router)?;
        let received = self.received_prefixes(alloc, router)?;
        insert_all(found, &originated)?;
        insert_all(found, &received)
    }

    /// The prefixes that the router originates or has received, each once, in order.
    pub fn prefixes(&self, alloc: Global, router: Addr) -> Result<Vec<Prefix>, AllocError>
        ensures { IfOk result (λ found. found.items ≡ in_order (prefixes_at self.now router)) }
    {
        let mut found = BTreeSet::new(alloc);
        self.add_prefixes(alloc, router, &mut found)?;
        found.iter().copied().collect(alloc)
    }
}

/// Adds the prefixes, each in its place.
fn insert_all(found: &mut BTreeSet<Prefix>, prefixes: &[Prefix]) -> Result<(), AllocError>
    ensures { OnOk result (found.new.keys ≡ fold (λ qs p. insert_key prefix_cmp qs p) found.old.keys prefixes.now) }
{
    for prefix in prefixes {
        found.insert(*prefix)?;
    }
    Ok(())
}

/// The prefixes of the router in both states, each once, in order.
pub fn prefixes_of(
    alloc: Global,
    earlier: &State,
    later: &State,
    router: Addr,
) -> Result<Vec<Prefix>, AllocError>
    ensures { IfOk result (λ found.
        found.items ≡ in_order (prefixes_at earlier.now router ++ prefixes_at later.now router)) }
{
    let mut found = BTreeSet::new(alloc);
    earlier.add_prefixes(alloc, router, &mut found)?;
    later.add_prefixes(alloc, router, &mut found)?;
    found.iter().copied().collect(alloc)
}

/// What is sent in the direction when the state changes, by the sender's choices.
#[tactic(auto, unfolding(reference_machine::specs::Advertising::sent))]
fn sent(
    alloc: Global,
    earlier: &State,
    later: &State,
    choices: &RouterChoices,
    router: Addr,
    peer: Addr,
) -> Result<Vec<Message>, AllocError>
    requires { choices.now ≡ router_choices earlier.now later.now router }
    ensures { IfOk result (λ messages. messages.items ≡ sent earlier.now later.now router peer) }
{
    if sends(&later.conf, router, peer) {
        let was_up = earlier.conf.is_up(router, peer);
        let is_up = later.conf.is_up(router, peer);
        messages_of(alloc, was_up, is_up, choices, peer)
    } else {
        Ok(Vec::new(alloc))
    }
}

/// Each queue with what its router sends when the state changes.
fn queues_after<S: Selector + Drop>(
    alloc: Global,
    earlier: &State,
    later: &State,
) -> Result<Vec<Queue>, AllocError>
    ensures { IfOk result (λ queues.
        queues.items ≡ map (λ q. with_more q (sent earlier.now later.now q.of.from q.of.to)) later.now.queues) }
{
    let mut queues = Vec::new(alloc);
    let mut kept = None;
    for queue in &later.queues {
        let choices = choices_at::<S>(alloc, earlier, later, kept, queue.of.from)?;
        let messages = sent(alloc, earlier, later, &choices, queue.of.from, queue.of.to)?;
        queues.push(queues::with_more(alloc, queue, messages)?)?;
        kept = Some(choices);
    }
    Ok(queues)
}

/// The state with what each router sends when it comes about.
#[tactic(auto, unfolding(reference_machine::specs::Machine::with_sent))]
pub fn with_sent<S: Selector + Drop>(
    alloc: Global,
    earlier: &State,
    mut later: State,
) -> Result<State, AllocError>
    ensures { IfOk result (λ after. after ≡ with_sent earlier.now later) }
{
    let Ok(queues) = queues_after::<S>(alloc, earlier, &later) else {
        drop(later);
        return Err(AllocError);
    };
    later.queues = queues;
    Ok(later)
}
