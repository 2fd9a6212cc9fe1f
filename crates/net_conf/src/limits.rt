//! How much a configuration holds: `specs/Limits.antt`. There may be as many routers and virtual peers as nodes of a
//! graph.

/// How many links there may be.
pub const MAX_LINKS: usize = 16384;

/// How many sessions an address may have.
pub const MAX_SESSIONS: usize = 256;
