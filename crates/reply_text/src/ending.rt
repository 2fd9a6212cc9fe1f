//! How a run of the program ends: its exit status, and what is told of a fault.

ghost use Rattle.std.specs.Prelude.{◌≡◌, false};
ghost use Rattle.watched.specs.Streams.{Writes};
ghost use Rattle.reply_text.specs.Ending.{fault_status, fault_text, memory_fault, IsTold};

use crate::part::Part;
use crate::reply::write_numbered;
use crate::text::write_each;
use std::alloc::AllocError;
use thiserror::Error;
use watched::{Output, Sink, WriterFailed};

/// The exit status where all was done.
pub const SUCCESS: u8 = 0;

/// The exit status where a log is not that of a legal history.
pub const DISAGREES: u8 = 1;

/// The exit status of a mistaken command line.
pub const MISTAKEN: u8 = 2;

/// The exit status where what was to be read was not.
pub const READ_FAULT: u8 = 3;

/// The exit status where the writer failed.
pub const WRITE_FAULT: u8 = 4;

/// The exit status of want of memory, and of a book that differs.
pub const NO_MEMORY: u8 = 5;

/// Why a run ended early.
///
/// What is told of it is exact: `end_by` writes the text that `fault_text` defines. No contract says what `Display`
/// writes, which is that text without its line feed. `From` is written by hand, since the derived one has no contract.
#[derive(Debug, Drop, Error)]
pub enum RunFault {
    /// The line of this number was not read whole, or is one too many. Lines count from 1.
    #[error("read fault at line {line}")]
    LineUnread { line: u64 },
    /// The file of this name could not be read, or is past the limits of a script.
    #[error("cannot read {0}")]
    FileUnread(String),
    /// Standard output failed.
    #[error("write fault")]
    Unwritten,
    /// There was no memory, be it for a thread.
    #[error("memory")]
    NoMemory,
    /// The notes of a seat are not its calls in the history.
    #[error("the book differs")]
    BookDiffers,
}

impl From<AllocError> for RunFault {
    ghost from_gives = { λ _ fault. fault ≡ memory_fault };

    fn from(_error: AllocError) -> RunFault {
        RunFault::NoMemory
    }
}

/// Tells the fault, sends that on, and gives the exit status. A failure to tell it is passed over.
pub fn end_by<E: Sink>(fault: &RunFault, errors: &mut Output<E>) -> u8
    ensures status { result ≡ fault_status fault.now }
    ensures told { IsTold errors.old (fault_text fault.now) errors.new }
    ensures sent { errors.new.failed ≡ false → errors.new.held ≡ false }
{
    tell(fault, errors);
    status_of(fault)
}

/// The exit status.
fn status_of(fault: &RunFault) -> u8
    ensures { result ≡ fault_status fault.now }
{
    match fault {
        RunFault::LineUnread { line: _ } | RunFault::FileUnread(_) => READ_FAULT,
        RunFault::Unwritten => WRITE_FAULT,
        RunFault::NoMemory | RunFault::BookDiffers => NO_MEMORY,
    }
}

/// Tells the fault, and sends that on. A failure to do so is passed over.
fn tell<E: Sink>(fault: &RunFault, errors: &mut Output<E>)
    ensures told { IsTold errors.old (fault_text fault.now) errors.new }
    ensures sent { errors.new.failed ≡ false → errors.new.held ≡ false }
{
    let _ = send_line(fault, errors);
}

/// Writes the line of the fault, and sends it on.
fn send_line<W: Sink>(fault: &RunFault, output: &mut Output<W>) -> Result<(), WriterFailed>
    ensures told { IsTold output.old (fault_text fault.now) output.new }
    ensures sent { output.new.failed ≡ false → output.new.held ≡ false }
{
    write_line(fault, output)?;
    output.flush()
}

/// Writes the line of the fault. At an error a front of it went out.
fn write_line<W: Sink>(fault: &RunFault, output: &mut Output<W>) -> Result<(), WriterFailed>
    ensures { Writes output.old (fault_text fault.now) result output.new }
{
    match fault {
        RunFault::LineUnread { line } => write_numbered(b"read fault at line ", *line, output),
        RunFault::FileUnread(name) => {
            let parts = [
                Part::Bytes(b"cannot read "),
                Part::Bytes(name.as_bytes()),
                Part::Bytes(b"\n"),
            ];
            write_each(&parts, output)
        }
        RunFault::Unwritten => output.write(b"write fault\n"),
        RunFault::NoMemory => output.write(b"memory\n"),
        RunFault::BookDiffers => output.write(b"the book differs\n"),
    }
}
