//! How much a feed holds (own): limits that a refusal cites.

/// The most AS numbers in a path that is fed.
pub const MOST_FED_NUMBERS: u64 = 255;

/// The most communities that a fed route carries.
pub const MOST_FED_COMMUNITIES: usize = 32;
