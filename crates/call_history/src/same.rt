//! Whether two values are the same.

ghost use Rattle.std.specs.Prelude.{◌≡◌, ◌↔◌, IsTrue};

use net_prefix::{Addr, Prefix};
use path_attr::{ImportedAttr, SharedAttr};
use route_select::{Reason, Source};
use seq::Seq;
use session_queue::Message;

/// A value that can be compared with another.
pub trait Same {
    /// Whether both are the same.
    fn is_same(&self, other: &Self) -> bool
        ensures { IsTrue result ↔ (self.now ≡ other.now) };
}

/// Whether both lists have the same items in the same order.
pub fn are_same<T: Same>(some: &[T], others: &[T]) -> bool
    ensures { IsTrue result ↔ (some.now ≡ others.now) }
{
    if some.len() != others.len() {
        return false;
    }
    for (index, item) in some.iter().enumerate() {
        if !item.is_same(&others[index]) {
            return false;
        }
    }
    true
}

impl<T: Same> Same for Seq<T> {
    fn is_same(&self, other: &Seq<T>) -> bool {
        are_same(self.as_slice(), other.as_slice())
    }
}

impl<T: Same> Same for Option<T> {
    fn is_same(&self, other: &Option<T>) -> bool {
        match (self, other) {
            (None, None) => true,
            (Some(some), Some(another)) => some.is_same(another),
            _ => false,
        }
    }
}

impl<A: Same, B: Same> Same for (A, B) {
    fn is_same(&self, other: &(A, B)) -> bool {
        self.0.is_same(&other.0) && self.1.is_same(&other.1)
    }
}

impl Same for u32 {
    fn is_same(&self, other: &u32) -> bool {
        *self == *other
    }
}

impl Same for Addr {
    fn is_same(&self, other: &Addr) -> bool {
        self.0 == other.0
    }
}

impl Same for Prefix {
    fn is_same(&self, other: &Prefix) -> bool {
        self == other
    }
}

impl Same for SharedAttr {
    fn is_same(&self, other: &SharedAttr) -> bool {
        SharedAttr::is_same(self, other)
    }
}

impl Same for ImportedAttr {
    fn is_same(&self, other: &ImportedAttr) -> bool {
        ImportedAttr::is_same(self, other)
    }
}

impl Same for Message {
    fn is_same(&self, other: &Message) -> bool {
        Message::is_same(self, other)
    }
}

impl Same for Source {
    fn is_same(&self, other: &Source) -> bool {
        self == other
    }
}

impl Same for Reason {
    fn is_same(&self, other: &Reason) -> bool {
        self == other
    }
}
