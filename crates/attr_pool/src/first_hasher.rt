//! The hasher that each hash of a pool begins with.

use std::hash::{BuildHasher, DefaultHasher, RandomState};

/// SipHash-1-3, which has read its keys and nothing more.
#[derive(Clone, Copy, Debug)]
pub(crate) struct FirstHasher {
    hasher: DefaultHasher,
}

impl FirstHasher {
    /// Under these keys: whoever does not know them cannot choose attributes whose hashes meet. With none, under keys
    /// that everybody knows: both are 0.
    pub(crate) fn keyed(keys: Option<RandomState>) -> FirstHasher {
        let hasher = match keys {
            Some(keys) => keys.build_hasher(),
            None => DefaultHasher::new(),
        };
        FirstHasher { hasher }
    }
}

impl BuildHasher for FirstHasher {
    type Hasher = DefaultHasher;

    ghost build_hasher = { λ first. first.hasher };

    fn build_hasher(&self) -> DefaultHasher {
        self.hasher
    }
}
