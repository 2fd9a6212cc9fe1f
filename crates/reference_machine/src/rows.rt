//! The rows of the state.

use net_prefix::{Addr, Prefix};
use seq::{Copied, Seq};
use session_queue::{Direction, Message};
use std::alloc::{AllocError, Global};

/// Which route in which Adj-RIB-In: by receiver, then by prefix, then by sender.
#[derive(Clone, Copy, Debug, PartialEq, Eq, PartialOrd, Ord)]
pub struct RouteKey {
    pub to: Addr,
    pub prefix: Prefix,
    pub from: Addr,
}

/// The messages on their way in one direction, the head first.
#[derive(Debug, Drop)]
pub struct Queue {
    pub of: Direction,
    pub messages: Seq<Message>,
}

impl Copied for Queue {
    fn copy(&self, alloc: Global) -> Result<Queue, AllocError> {
        Ok(Queue {
            of: self.of,
            messages: self.messages.copy(alloc)?,
        })
    }
}
