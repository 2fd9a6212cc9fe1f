//! What a call leaves in a history.

use crate::event::Event;
use crate::reply::Reply;
use seq::Copied;
use std::alloc::{AllocError, Global};

/// A call of a machine that several share: whose it was, what was called, and what was answered.
#[derive(Debug, Drop)]
pub struct Entry {
    /// The number of the seat from which the call was made.
    pub seat: u8,
    pub event: Event,
    pub reply: Reply,
}

/// A call, as the one knows it who made it.
#[derive(Debug, Drop)]
pub struct Call {
    pub event: Event,
    pub reply: Reply,
}

impl Copied for Entry {
    fn copy(&self, alloc: Global) -> Result<Entry, AllocError> {
        Ok(Entry {
            seat: self.seat,
            event: self.event.copy(alloc)?,
            reply: self.reply.copy(alloc)?,
        })
    }
}

impl Copied for Call {
    fn copy(&self, alloc: Global) -> Result<Call, AllocError> {
        Ok(Call {
            event: self.event.copy(alloc)?,
            reply: self.reply.copy(alloc)?,
        })
    }
}
