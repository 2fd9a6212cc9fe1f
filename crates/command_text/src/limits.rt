//! How much a line holds (own): a limit that a fault of syntax cites.

/// The most bytes of a line, without its end.
pub const MAX_LINE: usize = 4096;
