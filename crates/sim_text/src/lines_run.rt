//! Lines on one stream, their answers on a second, and what is told of a fault on a third, whatever their language is.

ghost use Rattle.std.specs.Prelude.{◌≡◌, false, []};
ghost use Rattle.reply_text.specs.Ending.{IsTold};
ghost use Rattle.sim_text.specs.ScriptRun.{run_fault, status_of, told, IsRunOf};

use line_serving::{CAPACITY, Language, ServeFault, serve_lines};
use reply_text::{RunFault, SUCCESS, end_by};
use std::alloc::Global;
use std::thread::Threads;
use watched::{Input, LineBuffer, Output, Sink, Source};

/// Serves the lines on the reader, read into the buffer, to the writer, by the machine. Tells a fault on the third
/// stream, whose own failure is passed over. Nothing is held back at the end, on a stream that did not fail. The exit
/// status: 0 done, 3 read fault, 4 write fault.
pub fn run_lines<L: Language<M>, M, I: Source, W: Sink, E: Sink, R: Threads + Sync>(
    rt: &R,
    alloc: Global,
    buffer: LineBuffer<CAPACITY>,
    machine: &mut M,
    input: &mut Input<I>,
    output: &mut Output<W>,
    errors: &mut Output<E>,
) -> u8
    requires buffer { buffer ≡ [] }
    requires calm_input { input.old.failed ≡ false }
    requires calm_output { output.old.failed ≡ false }
    requires shown { output.old.held ≡ false }
    ensures sent { output.new.failed ≡ false → output.new.held ≡ false }
    ensures told_sent { errors.old.held ≡ false → errors.new.failed ≡ false → errors.new.held ≡ false }
    ensures run { IsRunOf L.answers machine.old input.old.remaining output.old errors.old result
        machine.new input.new output.new errors.new }
{
    let served = serve_lines::<L, M, Input<I>, W, R>(rt, alloc, buffer, input, output, machine);
    end(&served, errors)
}

/// Tells a fault, and gives the exit status.
fn end<E: Sink>(served: &Result<u64, ServeFault>, errors: &mut Output<E>) -> u8
    ensures status { result ≡ status_of served.now }
    ensures told { IsTold errors.old (told served.now) errors.new }
    ensures sent { errors.old.held ≡ false → errors.new.failed ≡ false → errors.new.held ≡ false }
{
    match served {
        Ok(_) => SUCCESS,
        Err(fault) => end_by(&run_fault(*fault), errors),
    }
}

/// How the fault ends the run.
fn run_fault(fault: ServeFault) -> RunFault
    ensures { result ≡ run_fault fault }
{
    match fault {
        ServeFault::Read { line } => RunFault::LineUnread { line },
        ServeFault::Write { line: _ } => RunFault::Unwritten,
    }
}
