//! What comes of replaying a log.

use crate::limits::MOST_LINES;
use thiserror::Error;

/// What a log was found to be. Lines count from 1.
#[derive(Clone, Copy, Debug, PartialEq, Eq)]
pub enum Replayed {
    /// The log of a legal history of so many calls.
    Agrees { entries: u64 },
    /// The first line that is not the line of a reply that the machine gives.
    Differs { line: u64 },
    /// The first line that may not stand in a log at its place.
    BadLine { line: u64 },
}

/// Why a log was not replayed to its end. Lines count from 1.
///
/// No contract says what `Display` writes. Where the text must be exact, `run_replay` makes a `RunFault` of the fault,
/// and `end_by` of `reply_text` writes the text that `fault_text` defines.
#[derive(Clone, Copy, Debug, PartialEq, Eq, Error)]
pub enum ReplayFault {
    /// The reader failed; the first line that was not read whole.
    #[error("read fault at line {line}")]
    Read { line: u64 },
    /// There are more lines than a log may have.
    #[error("a log has at most {most} lines", most = MOST_LINES)]
    TooManyLines,
    /// Memory was wanted for a call.
    #[error("out of memory")]
    Memory,
}
