//! How deliveries end.

use crate::delivery::{Delivery, Tally};

/// Why no more messages are delivered.
#[derive(Clone, Copy, Debug, PartialEq, Eq)]
pub enum Ending {
    /// No message waits.
    Converged,
    /// A message waits, and as many as asked for were delivered.
    Limit,
    /// A message waits, and there is no memory for its delivery, or to choose it.
    OutOfMemory,
}

/// A step towards convergence.
#[derive(Clone, Copy, Debug, PartialEq, Eq)]
pub enum Advance {
    /// A message was delivered.
    Took(Delivery),
    /// None was, and none will be.
    Ended(Ending),
}

/// What was delivered, and why no more was.
#[derive(Clone, Copy, Debug, PartialEq, Eq)]
pub struct Convergence {
    pub tally: Tally,
    pub ending: Ending,
}
