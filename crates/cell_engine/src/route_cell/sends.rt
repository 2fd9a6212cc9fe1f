//! What is sent when a choice or a site changes.

ghost use Rattle.std.specs.Prelude.{◌≡◌, ◌↔◌, map, IsTrue, IfOk};
ghost use Rattle.std.specs.Bool.{OnTrue};
ghost use Rattle.std.specs.List.{filter_map};
ghost use Rattle.std.specs.List.Sorted.{IsStrictlySortedBy};
ghost use Rattle.net_prefix.specs.Address.{addr_cmp};
ghost use Rattle.std.specs.Option.{option_copied};
ghost use Rattle.cell_engine.specs.Cells.{is_up_in, send_to, send_over, sends_of};
ghost use Rattle.cell_engine.specs.Updates.{send_if_up, without_cost, costless};
ghost use Rattle.cell_engine.specs.Within.{basis_of, told_by, send_within};

use crate::route_cell::moves::SiteChange;
use net_conf::{SiteConf, SiteSession};
use net_prefix::{Addr, Prefix};
use path_attr::SharedAttr;
use reference_machine::{advert_of, change_of};
use reflect_out::Adverts;
use route_select::Candidate;
use seq::push_some;
use session_queue::Message;
use std::alloc::{AllocError, Global};
use std::marker::Model;

/// Whether the router has a session with the peer, and it is up.
pub(crate) fn is_up_in(site: &SiteConf, peer: Addr) -> bool
    ensures { result ≡ is_up_in site.now peer }
{
    match site.session(peer) {
        None => false,
        Some(session) => session.up,
    }
}

fn send_to(peer: Addr, message: Option<Message>) -> Option<(Addr, Message)>
    ensures { result ≡ send_to peer message }
{
    match message {
        None => None,
        Some(message) => Some((peer, message)),
    }
}

/// What adverts are made of: a router's part of the configuration, and its best route.
#[derive(Drop)]
struct Basis<'a> {
    site: &'a SiteConf,
    best: Option<&'a Candidate>,
}

impl<'a> Model for Basis<'a> {
    ghost use Rattle.std.specs.Option.{option_copied};
    ghost use Rattle.cell_engine.specs.Updates as updates;

    ghost Value = { updates.Basis };

    ghost view = { λ x. record { site = x.site.now; best = option_copied x.best } };
}

/// What is sent over the session, which is up, where another route is advertised to its peer than before. An advert
/// looks the session up again, by the address of its peer.
fn send_over(
    alloc: Global,
    prefix: Prefix,
    before: &Basis<'_>,
    after: &Basis<'_>,
    to: &SiteSession,
) -> Result<Option<(Addr, Message)>, AllocError>
    ensures { IfOk result (λ send.
        send ≡ send_over before.now.site after.now.site prefix before.now.best after.now.best to.now) }
{
    let (old, new, peer) = (before.site, after.site, to.peer);
    let had = advert_of(
        alloc,
        is_up_in(old, peer),
        Some(old),
        peer,
        prefix,
        before.best,
    )?;
    let has = advert_of(alloc, to.up, Some(new), peer, prefix, after.best)?;
    Ok(send_to(peer, change_of(prefix, had, has)))
}

/// What is sent over the session: nothing while it is down.
fn send_if_up(
    alloc: Global,
    prefix: Prefix,
    before: &Basis<'_>,
    after: &Basis<'_>,
    to: &SiteSession,
) -> Result<Option<(Addr, Message)>, AllocError>
    ensures { IfOk result (λ send.
        send ≡ send_if_up before.now.site after.now.site prefix before.now.best after.now.best to.now) }
{
    if to.up {
        send_over(alloc, prefix, before, after, to)
    } else {
        Ok(None)
    }
}

/// What is sent over these sessions.
fn sends_over(
    alloc: Global,
    prefix: Prefix,
    before: &Basis<'_>,
    after: &Basis<'_>,
    sessions: &[SiteSession],
) -> Result<Vec<(Addr, Message)>, AllocError>
    ensures { IfOk result (λ sends.
        sends.items ≡ filter_map (send_if_up before.now.site after.now.site prefix before.now.best after.now.best)
        sessions.now) }
{
    let mut sends = Vec::new(alloc);
    for to in sessions {
        let send = send_if_up(alloc, prefix, before, after, to)?;
        push_some(&mut sends, send)?;
    }
    Ok(sends)
}

/// A message to each peer to which another route is advertised than before, by address of the peer.
pub(crate) fn sends_of(
    alloc: Global,
    old: &SiteConf,
    new: &SiteConf,
    prefix: Prefix,
    had: Option<&Candidate>,
    has: Option<&Candidate>,
) -> Result<Vec<(Addr, Message)>, AllocError>
    ensures { IfOk result (λ sends.
        sends.items ≡ sends_of old.now new.now prefix (option_copied had.entry) (option_copied has.entry)) }
{
    let before = Basis {
        site: old,
        best: had,
    };
    let after = Basis {
        site: new,
        best: has,
    };
    sends_over(alloc, prefix, &before, &after, new.sessions.as_slice())
}

/// What is sent where the site stays: no advert is made where the best route is the same.
pub(crate) fn sends_at(
    alloc: Global,
    site: &SiteConf,
    prefix: Prefix,
    had: Option<&Candidate>,
    has: Option<&Candidate>,
) -> Result<Vec<(Addr, Message)>, AllocError>
    requires { IsStrictlySortedBy addr_cmp (map (λ x. x.peer) site.now.sessions) }
    ensures { IfOk result (λ sends.
        sends.items ≡ sends_of site.now site.now prefix (option_copied had.entry) (option_copied has.entry)) }
{
    if is_same_choice(had, has) {
        return Ok(Vec::new(alloc));
    }
    let mut before = adverts_of(site, prefix, had);
    let mut after = adverts_of(site, prefix, has);
    sends_within(
        alloc,
        prefix,
        &mut before,
        &mut after,
        site.sessions.as_slice(),
    )
}

/// The adverts of the route, where one is chosen.
fn adverts_of<'a>(
    site: &'a SiteConf,
    prefix: Prefix,
    best: Option<&'a Candidate>,
) -> Option<Adverts<'a>>
    ensures { result ≡ basis_of site.now prefix (option_copied best.entry) }
{
    match best {
        None => None,
        Some(best) => Some(Adverts::of(site, prefix, best)),
    }
}

/// What is advertised over the session, if anything is.
fn told_by(
    alloc: Global,
    adverts: &mut Option<Adverts<'_>>,
    to: &SiteSession,
) -> Result<Option<SharedAttr>, AllocError>
    ensures told { IfOk result (λ attr. attr ≡ told_by adverts.old to.now) }
    ensures same { adverts.new ≡ adverts.old }
{
    match adverts {
        None => Ok(None),
        Some(adverts) => adverts.over(alloc, to),
    }
}

/// What is sent over the session, where the site stays: nothing while it is down.
fn send_within(
    alloc: Global,
    prefix: Prefix,
    before: &mut Option<Adverts<'_>>,
    after: &mut Option<Adverts<'_>>,
    to: &SiteSession,
) -> Result<Option<(Addr, Message)>, AllocError>
    ensures send { IfOk result (λ send. send ≡ send_within prefix before.old after.old to.now) }
    ensures before { before.new ≡ before.old }
    ensures after { after.new ≡ after.old }
{
    if !to.up {
        return Ok(None);
    }
    let had = told_by(alloc, before, to)?;
    let has = told_by(alloc, after, to)?;
    Ok(send_to(to.peer, change_of(prefix, had, has)))
}

/// What is sent over these sessions, where the site stays.
fn sends_within(
    alloc: Global,
    prefix: Prefix,
    before: &mut Option<Adverts<'_>>,
    after: &mut Option<Adverts<'_>>,
    sessions: &[SiteSession],
) -> Result<Vec<(Addr, Message)>, AllocError>
    ensures { IfOk result (λ sends.
        sends.items ≡ filter_map (send_within prefix before.old after.old) sessions.now) }
{
    let mut sends = Vec::new(alloc);
    for to in sessions {
        let send = send_within(alloc, prefix, before, after, to)?;
        push_some(&mut sends, send)?;
    }
    Ok(sends)
}

/// What is sent where both sites were compared: no advert is made where settings and sessions stay, and the best routes
/// differ in their costs alone.
pub(crate) fn sends_compared(
    alloc: Global,
    change: &SiteChange<'_>,
    prefix: Prefix,
    had: Option<&Candidate>,
    has: Option<&Candidate>,
) -> Result<Vec<(Addr, Message)>, AllocError>
    requires { IsStrictlySortedBy addr_cmp (map (λ x. x.peer) change.now.new.sessions) }
    ensures { IfOk result (λ sends.
        sends.items ≡ sends_of change.now.old change.now.new prefix (option_copied had.entry)
        (option_copied has.entry)) }
{
    if change.stays.facts && is_same_choice_but_for_cost(had, has) {
        Ok(Vec::new(alloc))
    } else {
        sends_of(alloc, change.old, change.new, prefix, had, has)
    }
}

/// Whether both are the same route but for its cost, or none.
fn is_same_choice_but_for_cost(one: Option<&Candidate>, other: Option<&Candidate>) -> bool
    ensures { OnTrue result (costless (option_copied one.entry) ≡ costless (option_copied other.entry)) }
{
    match (one, other) {
        (None, None) => true,
        (Some(one), Some(other)) => is_same_but_for_cost(one, other),
        _ => false,
    }
}

/// Whether both are the same route, or none.
fn is_same_choice(one: Option<&Candidate>, other: Option<&Candidate>) -> bool
    ensures { IsTrue result ↔ (option_copied one.entry ≡ option_copied other.entry) }
{
    match (one, other) {
        (None, None) => true,
        (Some(one), Some(other)) => is_same(one, other),
        _ => false,
    }
}

/// Whether both are the same route.
fn is_same(one: &Candidate, other: &Candidate) -> bool
    ensures { IsTrue result ↔ (one.now ≡ other.now) }
{
    one.cost == other.cost && is_same_but_for_cost(one, other)
}

/// Whether both are the same route but for its cost.
fn is_same_but_for_cost(one: &Candidate, other: &Candidate) -> bool
    ensures { IsTrue result ↔ (without_cost one.now ≡ without_cost other.now) }
{
    one.source == other.source
        && one.pref == other.pref
        && one.external == other.external
        && one.ident == other.ident
        && one.attr.is_same(&other.attr)
}
