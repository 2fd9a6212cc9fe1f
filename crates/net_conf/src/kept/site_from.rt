//! The site of a router after an edit, made of the one from before it: what the edit does not change is shared.

ghost use Rattle.std.specs.Prelude.{◌≡◌, ◌++◌, true, false, map, filter, IfOk, if◌then◌else◌};
ghost use Rattle.net_conf.specs.Configuration.{ends_session, is_reflector};
ghost use Rattle.net_conf.specs.Concerned.{is_among};
ghost use Rattle.net_conf.specs.Kept.{asked, relinked, origins_after, reoriginated, settled, resettled, sets_client, sessions_with, is_below, is_above, extended, reclustered, recompared, effect_on, site_from};

use crate::edit::{Edit, SiteEffect};
use crate::kept::conf_sessions::ConfSessions;
use crate::site::{SiteConf, SiteSession};
use net_prefix::{Addr, Prefix};
use seq::{Copied, SharedSeq};
use shared_map::ChunkedSet;
use std::alloc::{AllocError, Global};
use std::collections::BTreeSet;

impl ConfSessions {
    /// The router's site by this configuration, to which the edit has led.
    pub(crate) fn site_from(
        &self,
        alloc: Global,
        edit: &Edit,
        router: Addr,
        old: &SiteConf,
        turned: &BTreeSet<Addr>,
    ) -> Result<Option<SiteConf>, AllocError>
        requires ends { ends_session self.now router ≡ true }
        requires stay { is_among router turned.now.keys ≡ false →
            map (asked self.now router) old.now.sessions ≡ old.now.sessions }
        ensures { IfOk result (λ site. site ≡ site_from self.now edit.now router (effect_on edit.now router) old.now) }
    {
        match edit.effect_on(router) {
            SiteEffect::Costs => Ok(Some(self.relinked(alloc, router, old, turned)?)),
            SiteEffect::Origins => Ok(Some(reoriginated(alloc, edit, old)?)),
            SiteEffect::Session(peer) => Ok(Some(self.resettled(alloc, edit, router, peer, old)?)),
            SiteEffect::NewSession(peer) => Ok(Some(self.extended(alloc, router, peer, old)?)),
            SiteEffect::ClusterId => Ok(Some(self.reclustered(alloc, router, old)?)),
            SiteEffect::MedComparison => Ok(Some(self.recompared(alloc, router, old)?)),
            SiteEffect::Other => self.router_site(alloc, router),
        }
    }

    /// The old site, with its costs and the state of its sessions by this configuration.
    fn relinked(
        &self,
        alloc: Global,
        router: Addr,
        old: &SiteConf,
        turned: &BTreeSet<Addr>,
    ) -> Result<SiteConf, AllocError>
        requires ends { ends_session self.now router ≡ true }
        requires stay { is_among router turned.now.keys ≡ false →
            map (asked self.now router) old.now.sessions ≡ old.now.sessions }
        ensures { IfOk result (λ site. site ≡ relinked self.now router old.now) }
    {
        self.facts();
        let origins = old.origins.share()?;
        let sessions = self.sessions_again(alloc, router, &old.sessions, turned)?;
        let costs = self.costs(alloc, router)?;
        Ok(old.with_parts(origins, sessions, costs))
    }

    /// The sessions of the router, each up or down as it is by this configuration: the same list, where none of them
    /// may have turned.
    fn sessions_again(
        &self,
        alloc: Global,
        router: Addr,
        sessions: &SharedSeq<SiteSession>,
        turned: &BTreeSet<Addr>,
    ) -> Result<SharedSeq<SiteSession>, AllocError>
        requires { is_among router turned.now.keys ≡ false → map (asked self.now router) sessions.now ≡ sessions.now }
        ensures { IfOk result (λ again. again ≡ map (asked self.now router) sessions.now) }
    {
        if turned.contains(&router) {
            SharedSeq::of(alloc, self.asked_again(alloc, router, sessions.as_slice())?)
        } else {
            sessions.share()
        }
    }

    /// The sessions of the router, each up or down as it is by this configuration.
    fn asked_again(
        &self,
        alloc: Global,
        router: Addr,
        sessions: &[SiteSession],
    ) -> Result<Vec<SiteSession>, AllocError>
        ensures { IfOk result (λ v. v.items ≡ map (asked self.now router) sessions.now) }
    {
        let mut asked = Vec::new(alloc);
        for session in sessions {
            asked.push(self.asked(alloc, router, session)?)?;
        }
        Ok(asked)
    }

    /// The session of the router, up or down as it is by this configuration.
    fn asked(
        &self,
        alloc: Global,
        router: Addr,
        session: &SiteSession,
    ) -> Result<SiteSession, AllocError>
        ensures { IfOk result (λ new. new ≡ asked self.now router session.now) }
    {
        Ok(SiteSession {
            peer: session.peer,
            peer_asn: session.peer_asn,
            up: self.is_up(router, session.peer),
            external: session.external,
            client: session.client,
            own_next: session.own_next,
            policy_in: session.policy_in.copy(alloc)?,
            policy_out: session.policy_out.copy(alloc)?,
        })
    }

    /// The old site, with the session with the peer by this configuration.
    fn resettled(
        &self,
        alloc: Global,
        edit: &Edit,
        router: Addr,
        peer: Addr,
        old: &SiteConf,
    ) -> Result<SiteConf, AllocError>
        ensures { IfOk result (λ site. site ≡ resettled self.now router peer (sets_client edit.now) old.now) }
    {
        let sessions = self.sessions_settled(alloc, router, peer, old.sessions.as_slice())?;
        let mut site = old.with_sessions(alloc, SharedSeq::of(alloc, sessions)?)?;
        site.reflector = self.reflector_after(edit, router, old);
        Ok(site)
    }

    /// Whether the router is a reflector by this configuration, which the edit has made.
    fn reflector_after(&self, edit: &Edit, router: Addr, old: &SiteConf) -> bool
        ensures { result ≡ (if sets_client edit.now then is_reflector self.now router else old.now.reflector) }
    {
        if edit.sets_client() {
            self.tables().is_reflector(router)
        } else {
            old.reflector
        }
    }

    /// The sessions of the router, the one with the peer by this configuration.
    fn sessions_settled(
        &self,
        alloc: Global,
        router: Addr,
        peer: Addr,
        sessions: &[SiteSession],
    ) -> Result<Vec<SiteSession>, AllocError>
        ensures { IfOk result (λ v. v.items ≡ map (settled self.now router peer) sessions.now) }
    {
        let mut settled = Vec::with_capacity(alloc, sessions.len())?;
        for session in sessions {
            settled.push(self.settled(alloc, router, peer, session)?)?;
        }
        Ok(settled)
    }

    /// The session of the router, by this configuration where it is with the peer.
    fn settled(
        &self,
        alloc: Global,
        router: Addr,
        peer: Addr,
        session: &SiteSession,
    ) -> Result<SiteSession, AllocError>
        ensures { IfOk result (λ new. new ≡ settled self.now router peer session.now) }
    {
        if session.peer == peer {
            self.session_of(alloc, router, peer)
        } else {
            session.copy(alloc)
        }
    }

    /// The old site, with the session with the peer by this configuration in its place.
    fn extended(
        &self,
        alloc: Global,
        router: Addr,
        peer: Addr,
        old: &SiteConf,
    ) -> Result<SiteConf, AllocError>
        ensures { IfOk result (λ site. site ≡ extended self.now router peer old.now) }
    {
        let session = self.session_of(alloc, router, peer)?;
        let sessions = sessions_with(alloc, old.sessions.as_slice(), session)?;
        old.with_sessions(alloc, SharedSeq::of(alloc, sessions)?)
    }

    /// The old site, with the CLUSTER_ID of the router by this configuration.
    fn reclustered(
        &self,
        alloc: Global,
        router: Addr,
        old: &SiteConf,
    ) -> Result<SiteConf, AllocError>
        ensures { IfOk result (λ site. site ≡ reclustered self.now router old.now) }
    {
        let mut site = old.copy(alloc)?;
        site.cluster = self.tables().cluster_id(router);
        Ok(site)
    }

    /// The old site, with how the router compares MULTI_EXIT_DISC by this configuration.
    fn recompared(
        &self,
        alloc: Global,
        router: Addr,
        old: &SiteConf,
    ) -> Result<SiteConf, AllocError>
        ensures { IfOk result (λ site. site ≡ recompared self.now router old.now) }
    {
        let mut site = old.copy(alloc)?;
        site.med_always = self.tables().compares_all_meds(router);
        Ok(site)
    }
}

/// The old site, with what the edit changes of the prefixes that the router originates.
fn reoriginated(alloc: Global, edit: &Edit, old: &SiteConf) -> Result<SiteConf, AllocError>
    ensures { IfOk result (λ site. site ≡ reoriginated edit.now old.now) }
{
    let origins = origins_after(alloc, edit, &old.origins)?;
    let sessions = old.sessions.share()?;
    let costs = old.costs.copy(alloc)?;
    Ok(old.with_parts(origins, sessions, costs))
}

/// The prefixes that a router originates, after an edit of what it does.
fn origins_after(
    alloc: Global,
    edit: &Edit,
    old: &ChunkedSet<Prefix>,
) -> Result<ChunkedSet<Prefix>, AllocError>
    ensures { IfOk result (λ new. new ≡ origins_after edit.now old.now) }
{
    let mut origins = old.share()?;
    match edit {
        Edit::Origin(_, prefix) => origins.insert(alloc, *prefix)?,
        Edit::NoOrigin(_, prefix) => origins.remove(alloc, prefix)?,
        _ => {}
    }
    Ok(origins)
}

/// The sessions, by the address of the peer, with this one in its place.
fn sessions_with(
    alloc: Global,
    sessions: &[SiteSession],
    session: SiteSession,
) -> Result<Vec<SiteSession>, AllocError>
    ensures { IfOk result (λ v. v.items ≡ sessions_with session sessions.now) }
{
    let peer = session.peer;
    let mut all = copies_below(alloc, sessions, peer)?;
    all.push(session)?;
    with_copies_above(alloc, all, sessions, peer)
}

/// Copies of the sessions with peers below this one, with room for all and one more.
fn copies_below(
    alloc: Global,
    sessions: &[SiteSession],
    peer: Addr,
) -> Result<Vec<SiteSession>, AllocError>
    ensures { IfOk result (λ v. v.items ≡ filter (is_below peer) sessions.now) }
{
    let mut below = Vec::with_capacity(alloc, sessions.len().saturating_add(1))?;
    for session in sessions {
        if session.peer.0 < peer.0 {
            below.push(session.copy(alloc)?)?;
        }
    }
    Ok(below)
}

/// The first sessions, and then copies of the others with peers above this one.
fn with_copies_above(
    alloc: Global,
    first: Vec<SiteSession>,
    sessions: &[SiteSession],
    peer: Addr,
) -> Result<Vec<SiteSession>, AllocError>
    ensures { IfOk result (λ v. v.items ≡ first.items ++ filter (is_above peer) sessions.now) }
{
    let mut all = first;
    for session in sessions {
        if peer.0 < session.peer.0 {
            all.push(session.copy(alloc)?)?;
        }
    }
    Ok(all)
}
