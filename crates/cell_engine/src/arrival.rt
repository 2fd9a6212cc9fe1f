//! A message with its direction.

use session_queue::{Direction, Message};

/// A message as it comes to the receiver of its direction.
#[derive(Drop)]
pub(crate) struct Arrival<'a> {
    pub(crate) direction: Direction,
    pub(crate) message: &'a Message,
}
