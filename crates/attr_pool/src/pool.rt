//! Attributes by number.

ghost use Rattle.std.specs.Prelude.{◌≡◌, true, false, [], length, Some, slice_get, option_copied, IsTrue, IfOk, IfErr, IfSome, OnOk, OnErr};
ghost use Rattle.attr_pool.specs.Pooled.{has_attr, with_attr, KeepsNumbers, HaveOneNumber};

use crate::attr_id::AttrId;
use crate::first_hasher::FirstHasher;
use crate::key::Key;
use indexmap::IndexSet;
use path_attr::{Attr, SharedAttr};
use seq::Copied;
use std::alloc::{AllocError, Global};
use std::hash::RandomState;
use std::marker::Model;

/// One less than the most attributes that four bytes can number.
const MOST: usize = 0xFFFF_FFFF;

/// Attributes by number, no two of them the same. It grows, and a number keeps its attributes for good.
#[derive(Debug, Drop)]
pub struct Pool {
    attrs: IndexSet<Key, FirstHasher>,
    /// The number that was asked for last: a router mostly sends one route to many.
    last: Option<AttrId>,
}

impl Model for Pool {
    ghost use Rattle.std.specs.Prelude.{List, length, ◌<◌, ◌^◌};
    ghost use Rattle.std.specs.List.{IsDistinct};
    ghost use Rattle.path_attr.specs.declared.attr.Attr.{Attr};
    ghost use Rattle.path_attr.specs.Attribute.{same_attr};

    ghost Value = { List Attr };

    ghost view = { λ p. p.attrs.keys };

    ghost invariant = { λ p. IsDistinct same_attr p.attrs.keys × (length p.attrs.keys < 2 ^ 32) };
}

impl Pool {
    /// The empty pool. It takes no memory. Nobody who does not know the keys can make it slow by a choice of
    /// attributes; with none, whoever knows the program can.
    pub fn new(alloc: Global, keys: Option<RandomState>) -> Pool
        ensures { result ≡ [] }
    {
        Pool {
            attrs: IndexSet::with_hasher(alloc, FirstHasher::keyed(keys)),
            last: None,
        }
    }

    /// The number of these attributes, which are put into the pool where they are new. The error, for new ones alone,
    /// is want of memory or of numbers: it hands the attributes back, and changes nothing.
    #[tactic(auto, using(crate::proofs::Numbers::has_of_number, crate::proofs::Numbers::with_present))]
    pub fn intern(&mut self, attr: SharedAttr) -> Result<AttrId, SharedAttr>
        ensures numbered { IfOk result (λ id. slice_get self.new id ≡ Some attr) }
        ensures pooled { OnOk result (self.new ≡ with_attr self.old attr) }
        ensures keeps { KeepsNumbers self.old self.new }
        ensures one_number { HaveOneNumber self.new }
        ensures back { IfErr result (λ back. back ≡ attr) }
        ensures absent { OnErr result (has_attr self.old attr ≡ false) }
        ensures err { OnErr result (self.new ≡ self.old) }
    {
        self.facts();
        match self.last_number(attr.attr()) {
            Some(id) => {
                drop(attr);
                Ok(id)
            }
            None => self.intern_hashed(attr),
        }
    }

    /// A call gives the caller's proof what holds of every pool.
    fn facts(&self)
        ensures { HaveOneNumber self.now }
    {
        let _ = &self.attrs;
    }

    /// Whether these attributes were asked for last: then they are in the pool. Nothing is hashed.
    #[tactic(auto, using(crate::proofs::Numbers::has_of_number))]
    pub fn is_last(&self, attr: &Attr) -> bool
        ensures { IsTrue result → has_attr self.now attr.now ≡ true }
    {
        match self.last_number(attr) {
            Some(_) => true,
            None => false,
        }
    }

    /// The number that was asked for last, where it is that of these attributes. Nothing is hashed.
    fn last_number(&self, attr: &Attr) -> Option<AttrId>
        ensures { IfSome result (λ id. slice_get self.now id ≡ Some attr.now) }
    {
        let id = self.last?;
        let last = self.attr(id)?;
        if last.attr().is_same(attr) {
            Some(id)
        } else {
            None
        }
    }

    /// The same, by their hash.
    fn intern_hashed(&mut self, attr: SharedAttr) -> Result<AttrId, SharedAttr>
        ensures numbered { IfOk result (λ id. slice_get self.new id ≡ Some attr) }
        ensures pooled { OnOk result (self.new ≡ with_attr self.old attr) }
        ensures keeps { KeepsNumbers self.old self.new }
        ensures one_number { HaveOneNumber self.new }
        ensures back { IfErr result (λ back. back ≡ attr) }
        ensures absent { OnErr result (has_attr self.old attr ≡ false) }
        ensures err { OnErr result (self.new ≡ self.old) }
    {
        let key = Key::new(attr);
        if self.attrs.len() == MOST && !self.attrs.contains(&key) {
            return Err(key.into_shared());
        }
        match self.attrs.insert_full(key) {
            Ok((number, _)) => {
                let id = AttrId::of(number);
                self.last = Some(id);
                return Ok(id);
            }
            Err(refused) => return Err(refused.value.into_shared()),
        }
    }

    /// Whether these attributes are in the pool. They are compared with each in turn, so no hash and no memory is
    /// needed, and not even a share of them.
    pub fn has(&self, attr: &Attr) -> bool
        ensures { result ≡ has_attr self.now attr.now }
    {
        self.attrs
            .as_slice()
            .iter()
            .any(|key| attr.is_same(key.attr()))
    }

    /// The attributes of this number, where the pool has given it.
    pub fn attr(&self, id: AttrId) -> Option<&SharedAttr>
        ensures { option_copied result ≡ slice_get self.now id }
    {
        let key = self.attrs.get_index(id.number())?;
        Some(key.shared())
    }
}

/// The same attributes under the same numbers, and under the same keys.
impl Copied for Pool {
    fn copy(&self, _alloc: Global) -> Result<Self, AllocError> {
        Ok(Pool {
            attrs: self.attrs.clone()?,
            last: self.last,
        })
    }
}
