//! How serving ends early.

use thiserror::Error;

/// Why serving ended before the end of the script. Lines count from 1.
///
/// No contract says what `Display` writes. Where the text must be exact, `run_lines` makes a `RunFault` of the fault,
/// and `end_by` of `reply_text` writes the text that `fault_text` defines.
#[derive(Clone, Copy, Debug, PartialEq, Eq, Error)]
pub enum ServeFault {
    /// The reader failed, a line is too long, or there are too many lines; the first line that was not read whole.
    #[error("read fault at line {line}")]
    Read { line: u64 },
    /// The writer failed; the line whose reply was being written.
    #[error("write fault at line {line}")]
    Write { line: u64 },
}
