//! What a router advertises to a peer of the route that it chose.
//!
//! For: `advert` gives the advertisement for one session, or none. `Adverts` gives them for one route session after
//! session, and makes what they share once: the route to another AS, to the own AS, and reflected.
//! RFC 4271, 5.1 (attributes), 9.1.3 and 9.2 (what is advertised); RFC 4456, 6, 8 and 10 (reflection, ORIGINATOR_ID,
//! CLUSTER_LIST); RFC 1997 (NO_EXPORT, NO_ADVERTISE, NO_EXPORT_SUBCONFED).
//! Differs: no route goes back to the peer that it came from; nothing is aggregated or delayed (9.2.1.1 and 9.2.2.2).
//! An export policy judges the route as the router chose it; its settings act towards another AS alone.
//! Called by: `cell_engine` after each decision; `reference_machine` and `plain_simulator` say by it what is sent.
//! Definitions: `specs/Advertising.antt`, case by case; `specs/Telling.antt`, session by session.
#![tactic(auto)]

ghost use Rattle.std.specs.Prelude.{◌≡◌, ℕ, ◌∷◌, Some, IfOk, if◌then◌else◌};
ghost use Rattle.reflect_out.specs.Advertising.{is_from, is_kept_back, to_other_as, to_own_as, reflected, is_client_of, reflected_to, inside, permitted, advertised_over, advert};

mod adverts;

pub use adverts::Adverts;
use net_conf::{SiteConf, SiteSession};
use net_prefix::{Addr, Prefix};
use path_attr::{
    Attr, Communities, ImportedAttr, NO_ADVERTISE, NO_EXPORT, NO_EXPORT_SUBCONFED, SharedAttr,
};
use route_policy::{Action, Settings, judge_imported};
use route_select::{Candidate, Source};
use seq::SharedSeq;
use std::alloc::{AllocError, Global};

/// What the router advertises to the peer of the route that it chose for the prefix: nothing where it learned the route
/// from that peer, where a community keeps it back, where its export policy denies it, or where the route is an
/// internal one that may not be reflected.
#[tactic(auto, unfolding(crate::specs::Advertising::advert))]
pub fn advert(
    alloc: Global,
    site: &SiteConf,
    prefix: Prefix,
    best: &Candidate,
    to: Addr,
) -> Result<Option<SharedAttr>, AllocError>
    ensures { IfOk result (λ attr. attr ≡ advert site.now prefix best.now to) }
{
    if is_from(to, best.source) {
        return Ok(None);
    }
    match site.session(to) {
        None => Ok(None),
        Some(session) => advertised_over(alloc, site, prefix, best, session),
    }
}

/// Whether the route was learned from this peer.
pub(crate) fn is_from(peer: Addr, source: Source) -> bool
    ensures { result ≡ is_from peer source }
{
    match source {
        Source::Own => false,
        Source::Peer(addr) => addr == peer,
    }
}

/// Whether the route's communities keep it at its router, or within its AS.
pub(crate) fn is_kept_back(external: bool, communities: &Communities) -> bool
    ensures { result ≡ is_kept_back external communities.now }
{
    communities.carries(NO_ADVERTISE)
        || (external
            && (communities.carries(NO_EXPORT) || communities.carries(NO_EXPORT_SUBCONFED)))
}

/// What is advertised over the session.
fn advertised_over(
    alloc: Global,
    site: &SiteConf,
    prefix: Prefix,
    best: &Candidate,
    to: &SiteSession,
) -> Result<Option<SharedAttr>, AllocError>
    ensures { IfOk result (λ attr. attr ≡ advertised_over site.now prefix best.now to.now) }
{
    if is_kept_back(to.external, best.attr.comms()) {
        return Ok(None);
    }
    match judge_imported(&to.policy_out, prefix, &best.attr) {
        Action::Deny => Ok(None),
        Action::Permit(settings) => permitted(alloc, site, best, to, settings),
    }
}

/// What is advertised over the session of a route that the export policy permits.
fn permitted(
    alloc: Global,
    site: &SiteConf,
    best: &Candidate,
    to: &SiteSession,
    settings: Settings,
) -> Result<Option<SharedAttr>, AllocError>
    ensures { IfOk result (λ attr.
        attr ≡ (if to.now.external then Some (to_other_as site.now settings best.now.attr) else inside site.now to.now
        best.now)) }
{
    if to.external {
        Ok(Some(to_other_as(alloc, site, settings, &best.attr)?))
    } else {
        inside(alloc, site, to, best)
    }
}

/// The attributes towards another AS.
pub(crate) fn to_other_as(
    alloc: Global,
    site: &SiteConf,
    settings: Settings,
    attr: &ImportedAttr,
) -> Result<SharedAttr, AllocError>
    ensures { IfOk result (λ a. a ≡ to_other_as site.now settings attr.now) }
{
    let times = settings.prepend.map_or(0, |repeat| repeat.count());
    let path = attr
        .path()
        .prepended_times(alloc, site.asn, u16::from(times) + 1)?;
    let comms = attr.comms().with_given(alloc, settings.add)?;
    let mut told = Attr::plain(site.me);
    told.path = path;
    told.origin = attr.origin();
    told.med = settings.med;
    told.comms = comms;
    SharedAttr::new(alloc, told)
}

/// What is advertised inside the AS.
fn inside(
    alloc: Global,
    site: &SiteConf,
    to: &SiteSession,
    best: &Candidate,
) -> Result<Option<SharedAttr>, AllocError>
    ensures { IfOk result (λ attr. attr ≡ inside site.now to.now best.now) }
{
    if best.external {
        Ok(Some(to_own_as(alloc, site, to, best)?))
    } else {
        reflected_to(alloc, site, to, best)
    }
}

/// The attributes inside the AS, of the router's own route or an external one, whose lists they share.
pub(crate) fn to_own_as(
    alloc: Global,
    site: &SiteConf,
    to: &SiteSession,
    best: &Candidate,
) -> Result<SharedAttr, AllocError>
    ensures { IfOk result (λ a. a ≡ to_own_as site.now to.now best.now) }
{
    let mut told = best.attr.to_attr()?;
    if to.own_next {
        told.next = site.me;
    }
    told.pref = Some(best.pref);
    told.oid = None;
    told.clusters = SharedSeq::empty();
    SharedAttr::new(alloc, told)
}

/// An internal peer's route, inside the AS: only from a client, or to one.
fn reflected_to(
    alloc: Global,
    site: &SiteConf,
    to: &SiteSession,
    best: &Candidate,
) -> Result<Option<SharedAttr>, AllocError>
    ensures { IfOk result (λ attr. attr ≡ reflected_to site.now to.now best.now best.now.source) }
{
    let Source::Peer(peer) = best.source else {
        return Ok(None);
    };
    if is_client_of(site, peer) || to.client {
        Ok(Some(reflected(alloc, site, peer, &best.attr)?))
    } else {
        Ok(None)
    }
}

/// Whether the peer is a client of the router.
pub(crate) fn is_client_of(site: &SiteConf, peer: Addr) -> bool
    ensures { result ≡ is_client_of site.now peer }
{
    match site.session(peer) {
        None => false,
        Some(session) => session.client,
    }
}

/// The attributes of a route that is reflected.
pub(crate) fn reflected(
    alloc: Global,
    site: &SiteConf,
    peer: Addr,
    attr: &ImportedAttr,
) -> Result<SharedAttr, AllocError>
    ensures { IfOk result (λ a. a ≡ reflected site.now peer attr.now) }
{
    let mut reflected = attr.to_attr()?;
    reflected.oid = Some(attr.oid().unwrap_or(peer));
    reflected.clusters = with_cluster(alloc, site.cluster, attr.clusters())?;
    SharedAttr::new(alloc, reflected)
}

/// The CLUSTER_LIST with the CLUSTER_ID in front.
fn with_cluster(
    alloc: Global,
    id: Addr,
    clusters: &SharedSeq<Addr>,
) -> Result<SharedSeq<Addr>, AllocError>
    ensures { IfOk result (λ longer. longer ≡ id ∷ clusters.now) }
{
    let mut longer = Vec::new(alloc);
    longer.push(id)?;
    longer.extend_from_slice(clusters.as_slice())?;
    SharedSeq::of(alloc, longer)
}
