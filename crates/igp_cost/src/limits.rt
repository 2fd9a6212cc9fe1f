//! How much a graph holds: `specs/Limits.antt`.

/// How many nodes there may be.
pub const MAX_NODES: usize = 4096;
