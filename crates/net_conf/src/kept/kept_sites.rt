//! The sites of the routers that have a session, kept beside the configuration and shared by those that edits make of
//! it.

ghost use Rattle.std.specs.Prelude.{◌≡◌, cond, IfOk, OnOk, option_copied};
ghost use Rattle.std.specs.Map.{lookup};
ghost use Rattle.std.specs.BTreeMap.{is_at};
ghost use Rattle.net_prefix.specs.declared.addr.Addr.{Addr};
ghost use Rattle.net_prefix.specs.Address.{addr_cmp};
ghost use Rattle.net_conf.specs.Concerned.{is_among, ConcernsAlone};
ghost use Rattle.net_conf.specs.Kept.{AreSitesKept, EndsStayBut, IsMadeBy};
ghost use Rattle.net_conf.specs.RouterSites.{router_site, site_kept, site_made};

use crate::conf::Conf;
use crate::edit::Edit;
use crate::kept::concerned::listed;
use crate::kept::conf_sessions::ConfSessions;
use crate::kept::shared_site::SharedSite;
use crate::site::SiteConf;
use net_prefix::Addr;
use seq::Copied;
use shared_map::ChunkedMap;
use std::alloc::{AllocError, Global};
use std::collections::BTreeSet;

impl Conf {
    /// The site of a router that has a session; it is kept. None where there is no session, or no router.
    pub fn kept_site(&self, router: Addr) -> Option<&SiteConf>
        ensures { option_copied result ≡ site_kept self.now router }
    {
        match self.sites.get(&router) {
            Some(site) => Some(site.get()),
            None => None,
        }
    }

    /// The router's site, where none is kept.
    pub fn made_site(&self, alloc: Global, router: Addr) -> Result<Option<SiteConf>, AllocError>
        ensures { IfOk result (λ made. made ≡ site_made self.now router) }
    {
        if self.ends_session(router) {
            Ok(None)
        } else {
            self.router_site(alloc, router)
        }
    }

    /// The router's site, as one owner more of the one that is kept; where none is, it is made. None where a virtual
    /// peer stands, or nobody.
    pub fn shared_site(&self, alloc: Global, router: Addr) -> Result<Option<SharedSite>, AllocError>
        ensures { IfOk result (λ site. site ≡ router_site self.now router) }
    {
        if let Some(site) = self.sites.get(&router) {
            return Ok(Some(site.copy(alloc)?));
        }
        match self.made_site(alloc, router)? {
            Some(site) => Ok(Some(SharedSite::of(alloc, site)?)),
            None => Ok(None),
        }
    }

    /// The router's site, be it kept or made: none where a virtual peer stands, or nobody.
    pub fn site_in<'a>(&'a self, made: &'a Option<SiteConf>, router: Addr) -> Option<&'a SiteConf>
        requires { made.now ≡ site_made self.now router }
        ensures { option_copied result ≡ router_site self.now router }
    {
        match self.kept_site(router) {
            Some(site) => Some(site),
            None => made.as_ref(),
        }
    }

    /// The sites to keep after an edit that makes the other configuration of this one: of all that it does not concern
    /// they are shared.
    pub(crate) fn sites_after(
        &self,
        alloc: Global,
        edit: &Edit,
        after: &ConfSessions,
        concerned: &BTreeSet<Addr>,
        turned: &BTreeSet<Addr>,
    ) -> Result<ChunkedMap<Addr, SharedSite>, AllocError>
        requires made { IsMadeBy self.now after.now edit.now turned.now.keys }
        requires concerned { ConcernsAlone self.now after.now concerned.now.keys }
        requires ends { EndsStayBut self.now after.now concerned.now.keys }
        ensures { IfOk result (λ sites. AreSitesKept after.now sites) }
    {
        let routers = listed(alloc, concerned)?;
        let renewed = self.renewed(alloc, edit, after, &routers, turned)?;
        Ok(renewed)
    }

    /// The sites that are kept, with those of these routers as they are after the edit.
    fn renewed(
        &self,
        alloc: Global,
        edit: &Edit,
        after: &ConfSessions,
        routers: &[Addr],
        turned: &BTreeSet<Addr>,
    ) -> Result<ChunkedMap<Addr, SharedSite>, AllocError>
        requires { IsMadeBy self.now after.now edit.now turned.now.keys }
        ensures { IfOk result (λ new. (r : Addr) →
            lookup (is_at (addr_cmp r)) new ≡ cond (is_among r routers.now) (site_kept after.now r)
            (site_kept self.now r)) }
    {
        let mut renewed = self.sites.share()?;
        for router in routers {
            let site = self.shared_after(alloc, edit, after, *router, turned)?;
            renew(alloc, &mut renewed, *router, site)?;
        }
        Ok(renewed)
    }

    /// The router's site after the edit, to be kept: none where it has no session then.
    fn shared_after(
        &self,
        alloc: Global,
        edit: &Edit,
        after: &ConfSessions,
        router: Addr,
        turned: &BTreeSet<Addr>,
    ) -> Result<Option<SharedSite>, AllocError>
        requires { IsMadeBy self.now after.now edit.now turned.now.keys }
        ensures { IfOk result (λ site. site ≡ site_kept after.now router) }
    {
        match self.site_after(alloc, edit, after, router, turned)? {
            Some(site) => {
                let shared = SharedSite::of(alloc, site)?;
                Ok(Some(shared))
            }
            None => Ok(None),
        }
    }

    /// The router's site after the edit, where it has a session then: made of the one that is kept, where one is.
    fn site_after(
        &self,
        alloc: Global,
        edit: &Edit,
        after: &ConfSessions,
        router: Addr,
        turned: &BTreeSet<Addr>,
    ) -> Result<Option<SiteConf>, AllocError>
        requires { IsMadeBy self.now after.now edit.now turned.now.keys }
        ensures { IfOk result (λ site. site ≡ site_kept after.now router) }
    {
        if !after.ends_session(router) {
            return Ok(None);
        }
        self.facts();
        after.facts();
        match self.kept_site(router) {
            None => after.router_site(alloc, router),
            Some(old) => {
                let site = after.site_from(alloc, edit, router, old, turned)?;
                Ok(site)
            }
        }
    }
}

/// Puts in the router's site, or takes out the one that is there.
fn renew(
    alloc: Global,
    sites: &mut ChunkedMap<Addr, SharedSite>,
    router: Addr,
    site: Option<SharedSite>,
) -> Result<(), AllocError>
    ensures { OnOk result ((r : Addr) →
        lookup (is_at (addr_cmp r)) sites.new ≡ cond (is_at (addr_cmp router) r) site
        (lookup (is_at (addr_cmp r)) sites.old)) }
{
    match site {
        Some(shared) => {
            sites.put(alloc, router, shared)?;
            Ok(())
        }
        None => {
            sites.order();
            sites.take_out(alloc, &router)?;
            Ok(())
        }
    }
}
