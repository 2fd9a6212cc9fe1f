//! What a configuration answers of a router, a virtual peer and their session.

use crate::common::{asn, equal};
use net_conf::{Conf, Edit, Kind, Metric, Refusal};
use net_prefix::Addr;
use std::alloc::Global;
use std::process::Abort;
use std::thread::Threads;

const ROUTER: Addr = Addr(0x0100_0001);

const PEER: Addr = Addr(0x0200_0001);

const NOBODY: Addr = Addr(0x0300_0001);

/// A router that has a session with a virtual peer over a link.
fn peered(rt: &(impl Abort + Threads + Sync), alloc: Global) -> Conf {
    let cost = Metric::new(10).expect(rt, "a metric");
    let edits = [
        Edit::Router(ROUTER, asn(rt, 1)),
        Edit::Virtual(PEER, asn(rt, 2)),
        Edit::Link(ROUTER, PEER, cost),
        Edit::Join(ROUTER, PEER),
    ];
    let mut conf = Conf::new(alloc);
    for edit in &edits {
        conf.edit(rt, alloc, edit).expect(rt, "no edit is refused");
    }
    conf
}

#[test]
fn routers_and_sessions(rt: HostRuntime) {
    let conf = peered(&rt, rt.alloc());
    equal(&rt, conf.router(ROUTER), Some((asn(&rt, 1), Kind::Router)));
    equal(&rt, conf.router(PEER), Some((asn(&rt, 2), Kind::Virtual)));
    equal(&rt, conf.router(NOBODY), None);
    equal(&rt, conf.session_up(PEER, ROUTER), Some(true));
    equal(&rt, conf.session_up(ROUTER, NOBODY), None);
    drop(conf);
}

/// Fails where the site of the router is not what the configuration says.
fn has_site(rt: &impl Abort, alloc: Global, conf: &Conf) {
    let site = conf.site(alloc, ROUTER).expect(rt, "a router has a site");
    equal(rt, site.asn, asn(rt, 1));
    let session = site.session(PEER).expect(rt, "they have a session");
    equal(rt, session.peer_asn, Some(asn(rt, 2)));
    assert!(rt; session.up && session.external);
    drop(site);
}

#[test]
fn sites(rt: HostRuntime) {
    let alloc = rt.alloc();
    let conf = peered(&rt, alloc);
    equal(&rt, conf.site(alloc, NOBODY).err(), Some(Refusal::NoRouter));
    equal(&rt, conf.site(alloc, PEER).err(), Some(Refusal::BadEnd));
    has_site(&rt, alloc, &conf);
    drop(conf);
}

/// Whether the router's site says that it compares MULTI_EXIT_DISC over all neighbours.
fn compares_all_meds(rt: &impl Abort, alloc: Global, conf: &Conf) -> bool {
    let site = conf.site(alloc, ROUTER).expect(rt, "a router has a site");
    site.med_always
}

#[test]
fn med_over_all_neighbours(rt: HostRuntime) {
    let alloc = rt.alloc();
    let mut conf = peered(&rt, alloc);
    assert!(rt; !compares_all_meds(&rt, alloc, &conf));
    for always in [true, true, false] {
        let edit = Edit::MedAlways(ROUTER, always);
        conf.edit(&rt, alloc, &edit)
            .expect(&rt, "a setting may repeat");
        equal(&rt, compares_all_meds(&rt, alloc, &conf), always);
    }
    let edit = Edit::MedAlways(PEER, true);
    equal(&rt, conf.check(&edit), Err(Refusal::BadEnd));
    drop(conf);
}
