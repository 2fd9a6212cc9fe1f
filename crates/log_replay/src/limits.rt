//! How much a log holds (own).

/// The most bytes of a line, its line feed not counted.
pub const MOST_BYTES: usize = 1_048_576;

/// The most lines.
pub const MOST_LINES: u64 = 16_000_000;

/// Holds the longest line with its line feed.
pub const CAPACITY: usize = 1_048_577;
