//! Attributes with a LOCAL_PREF of their own.

ghost use Rattle.std.specs.Prelude.{◌≡◌, ◌↔◌, IsTrue, IfOk};
ghost use Rattle.path_attr.specs.Attribute.{same_attr, same_options};

use crate::attr::{Attr, are_same_lists, is_same_way};
use crate::communities::Communities;
use crate::origin::Origin;
use crate::path::AsPath;
use crate::shared_attr::SharedAttr;
use net_prefix::Addr;
use seq::{Copied, SharedSeq};
use std::alloc::{AllocError, Global};
use std::marker::Model;

/// The attributes of a route after import (RFC 4271, 9.1.1): shared with whoever has them, but for LOCAL_PREF, which
/// import sets for each route. Contracts see the attributes alone.
#[derive(Debug, Drop)]
pub struct ImportedAttr {
    /// All but LOCAL_PREF.
    shared: SharedAttr,
    pref: Option<u32>,
}

impl Model for ImportedAttr {
    ghost use Rattle.path_attr.specs.declared.attr.Attr.{Attr};

    ghost Value = { Attr };

    ghost view = { λ a. record a.shared { pref = a.pref } };
}

impl ImportedAttr {
    /// These attributes, with this LOCAL_PREF in place of theirs. It takes no memory.
    pub fn new(shared: SharedAttr, pref: Option<u32>) -> ImportedAttr
        ensures { result ≡ record shared { pref = pref } }
    {
        ImportedAttr { shared, pref }
    }

    /// The attributes that are shared: all but LOCAL_PREF.
    pub fn shared(&self) -> &SharedAttr
        ensures { self.now ≡ record result.now { pref = self.now.pref } }
    {
        &self.shared
    }

    /// AS_PATH.
    pub fn path(&self) -> &AsPath
        ensures { result.now ≡ self.now.path }
    {
        &self.shared.attr().path
    }

    /// ORIGIN.
    pub fn origin(&self) -> Origin
        ensures { result ≡ self.now.origin }
    {
        self.shared.attr().origin
    }

    /// NEXT_HOP.
    pub fn next(&self) -> Addr
        ensures { result ≡ self.now.next }
    {
        self.shared.attr().next
    }

    /// MULTI_EXIT_DISC.
    pub fn med(&self) -> Option<u32>
        ensures { result ≡ self.now.med }
    {
        self.shared.attr().med
    }

    /// LOCAL_PREF.
    pub fn pref(&self) -> Option<u32>
        ensures { result ≡ self.now.pref }
    {
        self.pref
    }

    /// ORIGINATOR_ID.
    pub fn oid(&self) -> Option<Addr>
        ensures { result ≡ self.now.oid }
    {
        self.shared.attr().oid
    }

    /// CLUSTER_LIST.
    pub fn clusters(&self) -> &SharedSeq<Addr>
        ensures { result.now ≡ self.now.clusters }
    {
        &self.shared.attr().clusters
    }

    /// COMMUNITIES.
    pub fn comms(&self) -> &Communities
        ensures { result.now ≡ self.now.comms }
    {
        &self.shared.attr().comms
    }

    /// Another owner of the same attributes. It takes no memory; the only fault is that 2^63 owners share them.
    pub fn share(&self) -> Result<ImportedAttr, AllocError>
        ensures { IfOk result (λ other. other ≡ self.now) }
    {
        Ok(ImportedAttr {
            shared: self.shared.share()?,
            pref: self.pref,
        })
    }

    /// The attributes by themselves, which share the lists of these. It takes no memory; the only fault is that 2^63
    /// owners share one of them.
    pub fn to_attr(&self) -> Result<Attr, AllocError>
        ensures { IfOk result (λ attr. attr ≡ self.now) }
    {
        let mut attr = self.shared.attr().share()?;
        attr.pref = self.pref;
        Ok(attr)
    }

    /// Whether all eight attributes are the same.
    pub fn is_same(&self, other: &ImportedAttr) -> bool
        ensures value { result ≡ same_attr self.now other.now }
        ensures meaning { IsTrue result ↔ (self.now ≡ other.now) }
    {
        self.has_same(other)
    }

    /// The same.
    #[tactic(auto, unfolding(crate::specs::Attribute::same_attr))]
    fn has_same(&self, other: &ImportedAttr) -> bool
        ensures { result ≡ same_attr self.now other.now }
    {
        is_same_way(self.shared.attr(), other.shared.attr())
            && self.has_same_options(other)
            && are_same_lists(self.shared.attr(), other.shared.attr())
    }

    /// Whether the three that may be missing are the same.
    fn has_same_options(&self, other: &ImportedAttr) -> bool
        ensures { result ≡ same_options self.now other.now }
    {
        self.med() == other.med() && self.pref == other.pref && self.oid() == other.oid()
    }
}

impl Copied for ImportedAttr {
    fn copy(&self, _alloc: Global) -> Result<ImportedAttr, AllocError> {
        self.share()
    }
}

impl PartialEq for ImportedAttr {
    ghost use Rattle.path_attr.specs.Attribute.{same_attr};
    ghost use Rattle.path_attr.specs.Sameness.{attr_per};

    ghost eq = { same_attr };

    ghost laws = { attr_per };

    fn eq(&self, other: &ImportedAttr) -> bool {
        self.is_same(other)
    }
}
