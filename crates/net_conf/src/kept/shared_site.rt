//! A site that configurations share.

ghost use Rattle.std.specs.Prelude.{◌≡◌, IfOk};

use crate::site::SiteConf;
use seq::Copied;
use std::alloc::{AllocError, Global};
use std::marker::Model;
use std::sync::Arc;

/// A site that never changes, which any number of owners share, configurations among them. A copy takes no memory: the
/// only fault is that 2^63 owners share it.
#[derive(Drop)]
pub struct SharedSite {
    site: Arc<SiteConf>,
}

impl Model for SharedSite {
    ghost use Rattle.std.specs.Arc.{arc_value};
    ghost use Rattle.net_conf.specs.declared.site.SiteConf.{SiteConf};

    ghost Value = { SiteConf };

    ghost view = { λ s. arc_value s.site };
}

impl SharedSite {
    /// The site, from now on shared.
    pub fn of(alloc: Global, site: SiteConf) -> Result<Self, AllocError>
        ensures { IfOk result (λ shared. shared ≡ site) }
    {
        Ok(SharedSite {
            site: Arc::new(alloc, site)?,
        })
    }

    /// The site, borrowed.
    pub fn get(&self) -> &SiteConf
        ensures { result.now ≡ self.now }
    {
        &self.site
    }
}

impl Copied for SharedSite {
    fn copy(&self, _alloc: Global) -> Result<SharedSite, AllocError> {
        Ok(SharedSite {
            site: Arc::try_clone(&self.site)?,
        })
    }
}
