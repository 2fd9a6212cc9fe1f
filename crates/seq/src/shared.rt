//! A list that its owners share.

ghost use Rattle.std.specs.Prelude.{◌≡◌, ◌↔◌, [], length, IsTrue, IfOk};

use crate::Copied;
use std::alloc::{AllocError, Global};
use std::marker::Model;
use std::sync::Arc;

/// A list that never changes, which any number of owners share: contracts see its elements alone. A copy takes no
/// memory.
#[derive(Debug, Drop)]
pub struct SharedSeq<T> {
    // None where the list is empty: no memory was taken for it.
    items: Option<Arc<Vec<T>>>,
}

impl<T> Model for SharedSeq<T> {
    ghost use Rattle.std.specs.Prelude.{List};
    ghost use Rattle.seq.specs.Shown.{items_shown};

    ghost Value = { List T };

    ghost view = { λ s. items_shown s.items };
}

impl<T> SharedSeq<T> {
    /// The empty list. It takes no memory.
    pub fn empty() -> Self
        ensures { result ≡ [] }
    {
        SharedSeq { items: None }
    }

    /// The elements, borrowed.
    pub fn as_slice(&self) -> &[T]
        ensures { result.now ≡ self.now }
    {
        match &self.items {
            Some(items) => items.as_slice(),
            None => &[],
        }
    }

    /// How many elements there are.
    pub fn len(&self) -> usize
        ensures { result ≡ length self.now }
    {
        self.as_slice().len()
    }

    /// Whether there is no element.
    pub fn is_empty(&self) -> bool
        ensures { IsTrue result ↔ (self.now ≡ []) }
    {
        self.as_slice().is_empty()
    }

    /// One owner more of the same list. It takes no memory; the only fault is that 2^63 owners share the list.
    pub fn share(&self) -> Result<Self, AllocError>
        ensures { IfOk result (λ other. other ≡ self.now) }
    {
        match &self.items {
            Some(items) => Ok(SharedSeq {
                items: Some(Arc::try_clone(items)?),
            }),
            None => Ok(SharedSeq::empty()),
        }
    }
}

impl<T: Drop> SharedSeq<T> {
    /// The vector's elements, from now on shared. Want of memory is the only fault; an empty vector takes none.
    pub fn of(alloc: Global, items: Vec<T>) -> Result<Self, AllocError>
        ensures { IfOk result (λ list. list ≡ items.items) }
    {
        if items.is_empty() {
            return Ok(SharedSeq::empty());
        }
        Ok(SharedSeq {
            items: Some(Arc::new(alloc, items)?),
        })
    }
}

impl<T: Drop> Copied for SharedSeq<T> {
    fn copy(&self, _alloc: Global) -> Result<Self, AllocError> {
        self.share()
    }
}

impl<T: Drop> Clone for SharedSeq<T> {
    ghost is_clone = { λ list again. again ≡ list };

    fn clone(&self) -> Result<Self, AllocError> {
        self.share()
    }
}

impl<T: PartialEq> PartialEq for SharedSeq<T> {
    ghost use Rattle.std.specs.Cmp.Lexicographic.{pointwise, lists_per};

    ghost eq = { pointwise T.eq };

    ghost laws = { lists_per T.laws };

    fn eq(&self, other: &Self) -> bool {
        self.as_slice() == other.as_slice()
    }
}
