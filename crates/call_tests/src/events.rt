//! Copies of events and replies can be had, and are the same.

use crate::common::{asn, ten};
use call_history::Same;
use net_conf::{Edit, Refusal};
use net_prefix::Addr;
use path_attr::{AsPath, Attr, Communities, ImportedAttr, Origin, SharedAttr};
use route_select::Source;
use seq::{Copied, Seq};
use session_queue::MessageKind;
use sim_event::{Ask, Event, FedRoute, Feed, Held, News, Reply, Report};
use std::alloc::Global;
use std::process::Abort;

const FIRST: Addr = Addr(0x0100_0001);

const SECOND: Addr = Addr(0x0100_0002);

/// Fails unless the value has a copy, and that is the same.
fn is_copied<T: Copied + Same>(rt: &impl Abort, alloc: Global, value: T) {
    let copy = value.copy(alloc).expect(rt, "memory");
    assert!(rt; copy.is_same(&value));
}

#[test]
fn copies_events(rt: HostRuntime) {
    let alloc = rt.alloc();
    is_copied(&rt, alloc, Event::Edit(Edit::Join(FIRST, SECOND)));
    is_copied(&rt, alloc, Event::Deliver(FIRST, SECOND));
    is_copied(&rt, alloc, Event::Ask(Ask::Routes(FIRST)));
}

/// The path 7.
fn path(rt: &impl Abort, alloc: Global) -> AsPath {
    let mut path = AsPath::empty();
    path.prepend(alloc, asn(rt, 7)).expect(rt, "memory");
    path
}

/// The event that the first feeds the second the news.
fn fed(news: News) -> Event {
    Event::Feed(Feed {
        from: FIRST,
        to: SECOND,
        news,
    })
}

#[test]
fn copies_feeds(rt: HostRuntime) {
    let alloc = rt.alloc();
    let route = FedRoute {
        prefix: ten(&rt),
        path: path(&rt, alloc),
        origin: Origin::Incomplete,
        med: Some(5),
        comms: Communities::none().with(alloc, 7).expect(&rt, "memory"),
    };
    is_copied(&rt, alloc, fed(News::Update(route)));
    is_copied(&rt, alloc, fed(News::Withdraw(ten(&rt))));
}

#[test]
fn copies_replies(rt: HostRuntime) {
    let alloc = rt.alloc();
    is_copied(&rt, alloc, Reply::Done);
    is_copied(&rt, alloc, Reply::Took(ten(&rt), MessageKind::Withdraw));
    is_copied(&rt, alloc, Reply::Refused(Refusal::Limit));
}

/// A route to 10.0.0.0/8 from a peer.
fn held(rt: &impl Abort, alloc: Global) -> Held {
    Held {
        prefix: ten(rt),
        source: Source::Peer(SECOND),
        attr: held_attr(rt, alloc),
    }
}

/// Its attributes.
fn held_attr(rt: &impl Abort, alloc: Global) -> ImportedAttr {
    let mut attr = Attr::plain(FIRST);
    attr.path = path(rt, alloc);
    attr.origin = Origin::Egp;
    attr.comms = attr.comms.with(alloc, 5).expect(rt, "memory");
    let shared = SharedAttr::new(alloc, attr).expect(rt, "memory");
    ImportedAttr::new(shared, Some(100))
}

#[test]
fn copies_reports(rt: HostRuntime) {
    let alloc = rt.alloc();
    let routes = Vec::from_array(alloc, [held(&rt, alloc)]).expect(&rt, "memory");
    is_copied(&rt, alloc, Reply::Report(Report::Routes(Seq::of(routes))));
}
