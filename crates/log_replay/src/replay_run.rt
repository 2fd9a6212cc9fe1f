//! A log on one stream, what it is found to be on a second, and what is told of a fault on a third.

ghost use Rattle.std.specs.Prelude.{◌≡◌, false, true, [], Ok, OnOk, OnErr};
ghost use Rattle.std.specs.Io.KnownBytes.{Appends};
ghost use Rattle.reference_machine.specs.Machine.{nothing};
ghost use Rattle.watched.specs.Streams.{Writes, AppendsFront};
ghost use Rattle.log_replay.specs.ReplayRun.{found_text, replay_status, run_fault, IsAnswered, IsReplayRun};

use crate::limits::{CAPACITY, MOST_LINES};
use crate::replaying::replay;
use crate::verdict::{ReplayFault, Replayed};
use reference_machine::Machine;
use reply_text::{DISAGREES, RunFault, SUCCESS, end_by, write_numbered};
use std::alloc::Global;
use std::thread::Threads;
use watched::{Input, LineBuffer, Output, Sink, Source, WriterFailed};

/// Replays the log on the reader, read into the buffer, by a machine that begins with the empty network. Writes what
/// the log is found to be, and tells a fault on the third stream, whose own failure is passed over. The exit status:
/// 0 the log agrees, 1 it does not, 3 read fault, 4 write fault, 5 out of memory at a call.
pub fn run_replay<M: Machine, R: Source, W: Sink, E: Sink>(
    rt: &(impl Threads + Sync),
    alloc: Global,
    buffer: LineBuffer<CAPACITY>,
    machine: &mut M,
    input: &mut Input<R>,
    output: &mut Output<W>,
    errors: &mut Output<E>,
) -> u8
    requires buffer { buffer ≡ [] }
    requires calm_input { input.old.failed ≡ false }
    requires calm_output { output.old.failed ≡ false }
    requires shown { output.old.held ≡ false }
    requires empty { M.network machine.old ≡ nothing }
    ensures sent { output.new.failed ≡ false → output.new.held ≡ false }
    ensures told_sent { errors.old.held ≡ false → errors.new.failed ≡ false → errors.new.held ≡ false }
    ensures run { IsReplayRun input.old.remaining output.old errors.old result input.new output.new errors.new }
{
    match replay(rt, alloc, buffer, input, machine) {
        Ok(found) => answer(found, output, errors),
        Err(fault) => end_by(&run_fault(fault), errors),
    }
}

/// Writes what the log is found to be, and sends it on. Where the writer fails, that is told.
fn answer<W: Sink, E: Sink>(found: Replayed, output: &mut Output<W>, errors: &mut Output<E>) -> u8
    requires calm { output.old.failed ≡ false }
    ensures sent { output.new.failed ≡ false → output.new.held ≡ false }
    ensures told_sent { errors.old.held ≡ false → errors.new.failed ≡ false → errors.new.held ≡ false }
    ensures answered { IsAnswered found output.old errors.old result output.new errors.new }
{
    if show(found, output).is_ok() {
        return found_status(found);
    }
    end_by(&RunFault::Unwritten, errors)
}

/// Writes what the log is found to be, and sends it on.
fn show<W: Sink>(found: Replayed, output: &mut Output<W>) -> Result<(), WriterFailed>
    requires { output.old.failed ≡ false }
    ensures written { OnOk result (Appends output.old.written output.new.written (found_text found)) }
    ensures calm { OnOk result (output.new.failed ≡ false) }
    ensures sent { OnOk result (output.new.held ≡ false) }
    ensures front { OnErr result (AppendsFront output.old.written output.new.written (found_text found)) }
    ensures failed { OnErr result (output.new.failed ≡ true) }
{
    write_found(found, output)?;
    output.flush()
}

/// Writes the line of what the log is found to be. At an error a front of it went out.
fn write_found<W: Sink>(found: Replayed, output: &mut Output<W>) -> Result<(), WriterFailed>
    ensures { Writes output.old (found_text found) result output.new }
{
    match found {
        Replayed::Agrees { entries } => write_numbered(b"ok ", entries, output),
        Replayed::Differs { line } => write_numbered(b"differs at line ", line, output),
        Replayed::BadLine { line } => write_numbered(b"bad line ", line, output),
    }
}

fn found_status(found: Replayed) -> u8
    ensures { result ≡ replay_status (Ok found) }
{
    match found {
        Replayed::Agrees { entries: _ } => SUCCESS,
        Replayed::Differs { line: _ } | Replayed::BadLine { line: _ } => DISAGREES,
    }
}

/// How the fault ends the run.
fn run_fault(fault: ReplayFault) -> RunFault
    ensures { result ≡ run_fault fault }
{
    match fault {
        ReplayFault::Read { line } => RunFault::LineUnread { line },
        ReplayFault::TooManyLines => RunFault::LineUnread {
            line: MOST_LINES + 1,
        },
        ReplayFault::Memory => RunFault::NoMemory,
    }
}
