//! Attributes as the key of a hash table.

ghost use Rattle.std.specs.Prelude.{◌≡◌};

use crate::feeding::feed_attr;
use path_attr::{Attr, SharedAttr};
use std::alloc::AllocError;
use std::hash::{Hash, Hasher};
use std::marker::Model;

/// Attributes, which are compared by all eight. A hash reads all eight whole.
#[derive(Debug, Drop)]
pub(crate) struct Key {
    attr: SharedAttr,
}

impl Model for Key {
    ghost use Rattle.path_attr.specs.declared.attr.Attr.{Attr};

    ghost Value = { Attr };

    ghost view = { λ k. k.attr };
}

impl Key {
    /// The attributes as a key.
    pub(crate) fn new(attr: SharedAttr) -> Key
        ensures { result ≡ attr }
    {
        Key { attr }
    }

    /// The attributes, borrowed.
    pub(crate) fn attr(&self) -> &Attr
        ensures { result.now ≡ self.now }
    {
        self.attr.attr()
    }

    /// The attributes, borrowed, of which more owners can be had.
    pub(crate) fn shared(&self) -> &SharedAttr
        ensures { result.now ≡ self.now }
    {
        &self.attr
    }

    /// The attributes.
    pub(crate) fn into_shared(self) -> SharedAttr
        ensures { result ≡ self }
    {
        self.attr
    }
}

impl Clone for Key {
    ghost is_clone = { λ key again. again ≡ key };

    fn clone(&self) -> Result<Self, AllocError> {
        Ok(Key {
            attr: self.attr.share()?,
        })
    }
}

impl PartialEq for Key {
    ghost use Rattle.path_attr.specs.Attribute.{same_attr};
    ghost use Rattle.path_attr.specs.Sameness.{attr_per};

    ghost eq = { same_attr };

    ghost laws = { attr_per };

    fn eq(&self, other: &Key) -> bool {
        self.attr().is_same(other.attr())
    }
}

impl Eq for Key {
    ghost use Rattle.attr_pool.specs.Hashing.{attr_equiv};

    ghost laws = { attr_equiv };
}

impl Hash for Key {
    ghost use Rattle.attr_pool.specs.Hashing.{attr_input, attr_alike};

    ghost hash_input = { attr_input };

    ghost respects_eq = { attr_alike };

    fn hash<H: Hasher>(&self, state: &mut H) {
        feed_attr(self.attr(), state);
    }
}
