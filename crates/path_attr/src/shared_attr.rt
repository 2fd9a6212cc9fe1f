//! Attributes that their owners share.

ghost use Rattle.std.specs.Prelude.{◌≡◌, ◌↔◌, IsTrue, IfOk};
ghost use Rattle.path_attr.specs.Attribute.{same_attr};

use crate::attr::Attr;
use seq::Copied;
use std::alloc::{AllocError, Global};
use std::marker::Model;
use std::sync::Arc;

/// Attributes that never change, which any number of owners share: contracts see the attributes alone. It takes eight
/// bytes, and a share takes no memory.
#[derive(Debug, Drop)]
pub struct SharedAttr {
    attr: Arc<Attr>,
}

impl Model for SharedAttr {
    ghost use Rattle.std.specs.Arc.{arc_value};
    ghost use Rattle.path_attr.specs.declared.attr.Attr.{Attr};

    ghost Value = { Attr };

    ghost view = { λ s. arc_value s.attr };
}

impl SharedAttr {
    /// These attributes, from now on shared. The error is want of memory.
    pub fn new(alloc: Global, attr: Attr) -> Result<SharedAttr, AllocError>
        ensures { IfOk result (λ shared. shared ≡ attr) }
    {
        Ok(SharedAttr {
            attr: Arc::new(alloc, attr)?,
        })
    }

    /// The attributes, borrowed.
    pub fn attr(&self) -> &Attr
        ensures { result.now ≡ self.now }
    {
        &self.attr
    }

    /// One owner more of the same attributes. It takes no memory; the only fault is that 2^63 owners share them.
    pub fn share(&self) -> Result<SharedAttr, AllocError>
        ensures { IfOk result (λ other. other ≡ self.now) }
    {
        Ok(SharedAttr {
            attr: Arc::try_clone(&self.attr)?,
        })
    }

    /// Whether all eight attributes are the same.
    pub fn is_same(&self, other: &SharedAttr) -> bool
        ensures value { result ≡ same_attr self.now other.now }
        ensures meaning { IsTrue result ↔ (self.now ≡ other.now) }
    {
        self.attr().is_same(other.attr())
    }
}

impl Copied for SharedAttr {
    fn copy(&self, _alloc: Global) -> Result<SharedAttr, AllocError> {
        self.share()
    }
}

impl Clone for SharedAttr {
    ghost is_clone = { λ attr again. again ≡ attr };

    fn clone(&self) -> Result<SharedAttr, AllocError> {
        self.share()
    }
}

impl PartialEq for SharedAttr {
    ghost use Rattle.path_attr.specs.Attribute.{same_attr};
    ghost use Rattle.path_attr.specs.Sameness.{attr_per};

    ghost eq = { same_attr };

    ghost laws = { attr_per };

    fn eq(&self, other: &SharedAttr) -> bool {
        self.is_same(other)
    }
}
