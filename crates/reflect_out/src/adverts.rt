//! What a router advertises of one route to its peers, one after another.

ghost use Rattle.std.specs.Prelude.{◌≡◌, Some, IfOk, IfSome};
ghost use Rattle.reflect_out.specs.Advertising.{is_kept_back, to_other_as, to_own_as, reflected_to, permitted, advertised_over};
ghost use Rattle.reflect_out.specs.Telling.{is_from_client, told_over};

use crate::{is_client_of, is_from, is_kept_back, reflected, to_other_as, to_own_as};
use net_conf::{SiteConf, SiteSession};
use net_prefix::Prefix;
use path_attr::SharedAttr;
use route_policy::{Action, Settings, judge_imported};
use route_select::{Candidate, Source};
use std::alloc::{AllocError, Global};
use std::marker::Model;

/// What the router of the site advertises of the route that it chose for the prefix. What takes memory is made once for
/// all peers that are told the same, one after another, and shared by them.
#[derive(Drop)]
pub struct Adverts<'a> {
    site: &'a SiteConf,
    prefix: Prefix,
    best: &'a Candidate,
    from_client: bool,
    /// What went to another AS last, and by which settings.
    outward: Option<(Settings, SharedAttr)>,
    /// What is reflected, once a peer was told.
    inward: Option<SharedAttr>,
    /// What goes inside the AS of its own or an external route, by whether the router is its NEXT_HOP.
    inside: Option<(bool, SharedAttr)>,
}

impl<'a> Model for Adverts<'a> {
    ghost use Rattle.std.specs.Prelude.{◌≡◌};
    ghost use Rattle.reflect_out.specs.Telling.{Basis, is_from_client, IsOutward, IsInward, IsInside};

    ghost Value = { Basis };

    ghost view = { λ x. record { site = x.site.now; prefix = x.prefix; best = x.best.now } };

    ghost invariant = { λ x.
        (x.from_client ≡ is_from_client x.site.now x.best.now.source) ×
        IsOutward x.site.now x.best.now x.outward × IsInward x.site.now x.best.now x.inward ×
        IsInside x.site.now x.best.now x.inside };
}

/// Whether the route was learned from a client of the router.
fn is_from_client(site: &SiteConf, source: Source) -> bool
    ensures { result ≡ is_from_client site.now source }
{
    match source {
        Source::Own => false,
        Source::Peer(peer) => is_client_of(site, peer),
    }
}

impl<'a> Adverts<'a> {
    /// Those of this route. It takes no memory.
    pub fn of(site: &'a SiteConf, prefix: Prefix, best: &'a Candidate) -> Self
        ensures { result ≡ record { site = site.now; prefix = prefix; best = best.now } }
    {
        Adverts {
            site,
            prefix,
            best,
            from_client: is_from_client(site, best.source),
            outward: None,
            inward: None,
            inside: None,
        }
    }

    /// What is advertised over the session, which is one of the site's: nothing where the route was learned from its
    /// peer, where a community keeps it back, where the export policy denies it, or where it is an internal one that
    /// may not be reflected. The session need not be looked up.
    pub fn over(
        &mut self,
        alloc: Global,
        to: &SiteSession,
    ) -> Result<Option<SharedAttr>, AllocError>
        ensures told { IfOk result (λ attr.
            attr ≡ told_over self.old.site self.old.prefix self.old.best to.now) }
        ensures same { self.new ≡ self.old }
    {
        if is_from(to.peer, self.best.source) || is_kept_back(to.external, self.best.attr.comms()) {
            return Ok(None);
        }
        match judge_imported(&to.policy_out, self.prefix, &self.best.attr) {
            Action::Deny => Ok(None),
            Action::Permit(settings) => self.permitted(alloc, to, settings),
        }
    }

    /// The same, of a route that the export policy permits.
    fn permitted(
        &mut self,
        alloc: Global,
        to: &SiteSession,
        settings: Settings,
    ) -> Result<Option<SharedAttr>, AllocError>
        ensures told { IfOk result (λ attr.
            attr ≡ permitted self.old.site to.now self.old.best (Action.Permit settings)) }
        ensures same { self.new ≡ self.old }
    {
        if to.external {
            Ok(Some(self.outward(alloc, settings)?))
        } else if self.best.external {
            Ok(Some(self.inside(alloc, to)?))
        } else {
            self.reflected(alloc, to)
        }
    }

    /// The attributes towards another AS.
    fn outward(&mut self, alloc: Global, settings: Settings) -> Result<SharedAttr, AllocError>
        ensures told { IfOk result (λ attr. attr ≡ to_other_as self.old.site settings self.old.best.attr) }
        ensures same { self.new ≡ self.old }
    {
        if let Some(kept) = self.kept_outward(settings) {
            return kept.share();
        }
        let told = to_other_as(alloc, self.site, settings, &self.best.attr)?;
        self.keep_outward(settings, told.share()?);
        Ok(told)
    }

    /// Those that are kept, where they were made by these settings.
    fn kept_outward(&self, settings: Settings) -> Option<&SharedAttr>
        ensures { IfSome result (λ kept. kept.now ≡ to_other_as self.now.site settings self.now.best.attr) }
    {
        match &self.outward {
            Some((by, kept)) if *by == settings => Some(kept),
            _ => None,
        }
    }

    /// Keeps them for the next peer.
    fn keep_outward(&mut self, settings: Settings, kept: SharedAttr)
        requires { kept ≡ to_other_as self.old.site settings self.old.best.attr }
        ensures { self.new ≡ self.old }
    {
        self.outward = Some((settings, kept));
    }

    /// The attributes inside the AS, of the router's own route or an external one.
    fn inside(&mut self, alloc: Global, to: &SiteSession) -> Result<SharedAttr, AllocError>
        ensures told { IfOk result (λ attr. attr ≡ to_own_as self.old.site to.now self.old.best) }
        ensures same { self.new ≡ self.old }
    {
        if let Some(kept) = self.kept_inside(to) {
            return kept.share();
        }
        let told = to_own_as(alloc, self.site, to, self.best)?;
        self.keep_inside(to, told.share()?);
        Ok(told)
    }

    /// Those that are kept, where they were made for a peer that is told the same.
    fn kept_inside(&self, to: &SiteSession) -> Option<&SharedAttr>
        ensures { IfSome result (λ kept. kept.now ≡ to_own_as self.now.site to.now self.now.best) }
    {
        match &self.inside {
            Some((own_next, kept)) if *own_next == to.own_next => Some(kept),
            _ => None,
        }
    }

    /// Keeps them for the next peer.
    fn keep_inside(&mut self, to: &SiteSession, kept: SharedAttr)
        requires { kept ≡ to_own_as self.old.site to.now self.old.best }
        ensures { self.new ≡ self.old }
    {
        self.inside = Some((to.own_next, kept));
    }

    /// An internal peer's route, inside the AS: only from a client, or to one.
    fn reflected(
        &mut self,
        alloc: Global,
        to: &SiteSession,
    ) -> Result<Option<SharedAttr>, AllocError>
        ensures told { IfOk result (λ attr.
            attr ≡ reflected_to self.old.site to.now self.old.best self.old.best.source) }
        ensures same { self.new ≡ self.old }
    {
        let Source::Peer(peer) = self.best.source else {
            return Ok(None);
        };
        if !(self.from_client || to.client) {
            return Ok(None);
        }
        if let Some(told) = &self.inward {
            return Ok(Some(told.share()?));
        }
        let told = reflected(alloc, self.site, peer, &self.best.attr)?;
        let kept = told.share()?;
        self.inward = Some(kept);
        Ok(Some(told))
    }
}
