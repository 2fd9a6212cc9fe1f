//! The configuration of a state, which others may go on holding.

ghost use Rattle.std.specs.Prelude.{◌≡◌, IfOk};
ghost use Rattle.std.specs.Arc.{arc_value};
ghost use Rattle.net_conf.specs.Configuration.{unconfigured};
ghost use Rattle.net_conf.specs.Configured.{IsConfigured};
ghost use Rattle.cell_engine.specs.Sharing.{conf_shown};

use net_conf::Conf;
use seq::Copied;
use std::alloc::{AllocError, Global};
use std::marker::Model;
use std::sync::Arc;

/// What is configured. Until an edit is accepted that is nothing, and takes no memory; from then on it is shared.
#[derive(Drop)]
pub(crate) struct HeldConf {
    nothing: Conf,
    share: Option<Arc<Conf>>,
}

impl Model for HeldConf {
    ghost use Rattle.std.specs.Prelude.{◌≡◌};
    ghost use Rattle.net_conf.specs.Configuration.{Configuration, unconfigured};
    ghost use Rattle.cell_engine.specs.Sharing.{conf_shown};

    ghost Value = { Configuration };

    ghost view = { λ c. conf_shown c.share };

    ghost invariant = { λ c. c.nothing ≡ unconfigured };
}

impl HeldConf {
    /// Nothing configured. It takes no memory.
    pub fn new(alloc: Global) -> Self
        ensures { result ≡ unconfigured }
    {
        HeldConf {
            nothing: Conf::new(alloc),
            share: None,
        }
    }

    /// The configuration, borrowed.
    pub fn get(&self) -> &Conf
        ensures { result.now ≡ self.now }
    {
        match &self.share {
            Some(conf) => conf,
            None => &self.nothing,
        }
    }

    /// A call gives the caller's proof what holds of every configuration.
    pub fn facts(&self)
        ensures configured { IsConfigured self.now }
    {
        self.get().facts();
    }

    /// One owner more of the configuration. None where no edit was accepted.
    pub fn share(&self) -> Result<Option<Arc<Conf>>, AllocError>
        ensures { IfOk result (λ share. conf_shown share ≡ self.now) }
    {
        match &self.share {
            Some(conf) => Ok(Some(Arc::try_clone(conf)?)),
            None => Ok(None),
        }
    }

    /// Puts another configuration in place. Who holds a share keeps the one that it was given.
    pub fn set(&mut self, conf: Arc<Conf>)
        ensures { self.new ≡ arc_value conf }
    {
        self.share = Some(conf);
    }
}

/// One owner more of the configuration.
impl Copied for HeldConf {
    fn copy(&self, alloc: Global) -> Result<Self, AllocError> {
        Ok(HeldConf {
            nothing: Conf::new(alloc),
            share: self.share()?,
        })
    }
}
