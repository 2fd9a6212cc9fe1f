//! What the machine is told to do.

use net_conf::Edit;
use net_prefix::{Addr, Prefix};
use path_attr::{AsPath, Communities, Origin};
use seq::Copied;
use std::alloc::{AllocError, Global};

/// One step of the machine, with the values that its command names and nothing else.
#[derive(Debug, Drop)]
pub enum Event {
    /// The configuration changes.
    Edit(Edit),
    /// A virtual peer tells a router something.
    Feed(Feed),
    /// The head of the queue from the first to the second is taken by the second.
    Deliver(Addr, Addr),
    /// Nothing changes; the reply is a report.
    Ask(Ask),
}

/// What a virtual peer tells a router.
#[derive(Debug, Drop)]
pub struct Feed {
    /// The virtual peer.
    pub from: Addr,
    /// The router.
    pub to: Addr,
    pub news: News,
}

/// News of a prefix that is fed by hand.
#[derive(Debug, Drop)]
pub enum News {
    /// A route.
    Update(FedRoute),
    /// No route any more.
    Withdraw(Prefix),
}

/// A route as it is fed: what its feeder says of it.
#[derive(Debug, Drop)]
pub struct FedRoute {
    pub prefix: Prefix,
    /// AS_PATH.
    pub path: AsPath,
    /// ORIGIN.
    pub origin: Origin,
    /// MULTI_EXIT_DISC.
    pub med: Option<u32>,
    /// COMMUNITIES.
    pub comms: Communities,
}

/// A question, one variant a kind of command.
#[derive(Clone, Copy, Debug, PartialEq, Eq)]
pub enum Ask {
    /// The router's Loc-RIB.
    Routes(Addr),
    /// The route that the router chose for the prefix.
    Best(Addr, Prefix),
    /// All routes of the router to the prefix, and why each was chosen or dropped.
    Why(Addr, Prefix),
    /// What the first has received from the second.
    In(Addr, Addr),
    /// What the first advertises to the second.
    Out(Addr, Addr),
    /// The messages on their way from the first to the second.
    Queue(Addr, Addr),
    /// Whether no message is on its way.
    Quiet,
    /// The cost from the first to the second, and the first hop.
    Cost(Addr, Addr),
    /// The way of what the router forwards to the address.
    Trace(Addr, Addr),
}

impl Copied for FedRoute {
    fn copy(&self, alloc: Global) -> Result<FedRoute, AllocError> {
        Ok(FedRoute {
            prefix: self.prefix,
            path: self.path.copy(alloc)?,
            origin: self.origin,
            med: self.med,
            comms: self.comms.copy(alloc)?,
        })
    }
}

impl Copied for News {
    fn copy(&self, alloc: Global) -> Result<News, AllocError> {
        match self {
            News::Update(route) => Ok(News::Update(route.copy(alloc)?)),
            News::Withdraw(prefix) => Ok(News::Withdraw(*prefix)),
        }
    }
}

impl Copied for Feed {
    fn copy(&self, alloc: Global) -> Result<Feed, AllocError> {
        Ok(Feed {
            from: self.from,
            to: self.to,
            news: self.news.copy(alloc)?,
        })
    }
}

impl Copied for Event {
    fn copy(&self, alloc: Global) -> Result<Event, AllocError> {
        match self {
            Event::Edit(edit) => Ok(Event::Edit(*edit)),
            Event::Feed(feed) => Ok(Event::Feed(feed.copy(alloc)?)),
            Event::Deliver(from, to) => Ok(Event::Deliver(*from, *to)),
            Event::Ask(ask) => Ok(Event::Ask(*ask)),
        }
    }
}
