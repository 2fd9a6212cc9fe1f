//! What the machine answers.

ghost use Rattle.std.specs.Prelude.{◌≡◌, IfOk};

use net_conf::Refusal;
use net_prefix::{Addr, Prefix};
use path_attr::{ImportedAttr, SharedAttr};
use route_select::{Reason, Source};
use seq::{Copied, Seq};
use session_queue::{Message, MessageKind};
use std::alloc::{AllocError, Global};

/// The answer to an event.
#[derive(Debug, Drop)]
pub enum Reply {
    /// An edit or a feed was accepted.
    Done,
    /// A message of this prefix and kind was taken.
    Took(Prefix, MessageKind),
    /// The answer to a question.
    Report(Report),
    /// Nothing was done.
    Refused(Refusal),
}

/// The answer to a question.
#[derive(Debug, Drop)]
pub enum Report {
    /// Loc-RIB: the chosen routes, in order of prefix.
    Routes(Seq<Held>),
    /// The chosen route to one prefix.
    Best(Option<Held>),
    /// The sources of routes to one prefix, the router itself first, then peers by address; and why each route was
    /// chosen or dropped.
    Why(Seq<(Source, Reason)>),
    /// An Adj-RIB-In or Adj-RIB-Out: routes in order of prefix.
    Rib(Seq<(Prefix, SharedAttr)>),
    /// The messages on their way, the head first.
    Queue(Seq<Message>),
    /// Whether no message is on its way.
    Quiet(bool),
    /// The cost and the first hop, where there is a way.
    Cost(Option<(u32, Addr)>),
    /// The routers that forward, each with the prefix by which it does; and how that ends.
    Trace(Seq<(Addr, Prefix)>, TraceEnd),
}

/// How forwarding ends.
#[derive(Clone, Copy, Debug, PartialEq, Eq)]
pub enum TraceEnd {
    /// At the router or virtual peer that is meant.
    Reached(Addr),
    /// At a router with no route to the address.
    NoRoute(Addr),
    /// At a router that has forwarded it before.
    Loop(Addr),
}

/// A chosen route.
#[derive(Debug, Drop)]
pub struct Held {
    pub prefix: Prefix,
    /// Where it comes from.
    pub source: Source,
    /// Its attributes after the import policy; LOCAL_PREF is the degree of preference.
    pub attr: ImportedAttr,
}

impl Copied for Held {
    fn copy(&self, alloc: Global) -> Result<Held, AllocError> {
        Ok(Held {
            prefix: self.prefix,
            source: self.source,
            attr: self.attr.copy(alloc)?,
        })
    }
}

/// Routes in order of prefix, again.
fn copy_rib(
    alloc: Global,
    routes: &[(Prefix, SharedAttr)],
) -> Result<Vec<(Prefix, SharedAttr)>, AllocError>
    ensures { IfOk result (λ copies. copies.items ≡ routes.now) }
{
    let mut copies = Vec::new(alloc);
    for route in routes {
        copies.push(copy_route(route)?)?;
    }
    Ok(copies)
}

fn copy_route(route: &(Prefix, SharedAttr)) -> Result<(Prefix, SharedAttr), AllocError>
    ensures { IfOk result (λ copy. copy ≡ route.now) }
{
    Ok((route.0, route.1.share()?))
}

fn copy_held(alloc: Global, held: &Option<Held>) -> Result<Option<Held>, AllocError>
    ensures { IfOk result (λ copy. copy ≡ held.now) }
{
    match held {
        None => Ok(None),
        Some(held) => Ok(Some(held.copy(alloc)?)),
    }
}

impl Copied for Report {
    fn copy(&self, alloc: Global) -> Result<Report, AllocError> {
        match self {
            Report::Routes(routes) => Ok(Report::Routes(routes.copy(alloc)?)),
            Report::Best(held) => Ok(Report::Best(copy_held(alloc, held)?)),
            Report::Why(reasons) => { Ok(Report::Why(Seq::copy_of(alloc, reasons.as_slice())?)) }
            Report::Rib(routes) => Ok(Report::Rib(Seq::of(copy_rib(alloc, routes.as_slice())?))),
            Report::Queue(messages) => Ok(Report::Queue(messages.copy(alloc)?)),
            Report::Quiet(quiet) => Ok(Report::Quiet(*quiet)),
            Report::Cost(way) => Ok(Report::Cost(*way)),
            Report::Trace(hops, end) => {
                Ok(Report::Trace(Seq::copy_of(alloc, hops.as_slice())?, *end))
            }
        }
    }
}

impl Copied for Reply {
    fn copy(&self, alloc: Global) -> Result<Reply, AllocError> {
        match self {
            Reply::Done => Ok(Reply::Done),
            Reply::Took(prefix, kind) => Ok(Reply::Took(*prefix, *kind)),
            Reply::Report(report) => Ok(Reply::Report(report.copy(alloc)?)),
            Reply::Refused(refusal) => Ok(Reply::Refused(*refusal)),
        }
    }
}
