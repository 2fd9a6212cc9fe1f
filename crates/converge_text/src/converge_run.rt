//! A script of commands and of deliveries until none waits, on three streams.

ghost use Rattle.std.specs.Prelude.{◌≡◌, false, []};
ghost use Rattle.convergence.specs.Kept.{nothing_kept};
ghost use Rattle.converge_text.specs.ConvergeRun.{IsConvergeRun};

use crate::answer::ConvergeLines;
use convergence::{Copying, Keeping, Waiting};
use line_serving::CAPACITY;
use sim_text::run_lines;
use std::alloc::Global;
use std::thread::Threads;
use watched::{Input, LineBuffer, Output, Sink, Source};

/// Serves the script on the reader, read into the buffer, to the writer, by a machine that begins with the empty
/// network. Tells a fault on the third stream, whose own failure is passed over. Nothing is held back at the end, on a
/// stream that did not fail. The exit status: 0 done, 3 read fault, 4 write fault.
pub fn run_converge<M: Waiting + Copying, I: Source, W: Sink, E: Sink, R: Threads + Sync>(
    rt: &R,
    alloc: Global,
    buffer: LineBuffer<CAPACITY>,
    machine: &mut Keeping<M>,
    input: &mut Input<I>,
    output: &mut Output<W>,
    errors: &mut Output<E>,
) -> u8
    requires buffer { buffer ≡ [] }
    requires calm_input { input.old.failed ≡ false }
    requires calm_output { output.old.failed ≡ false }
    requires shown { output.old.held ≡ false }
    requires empty { machine.old ≡ nothing_kept }
    ensures sent { output.new.failed ≡ false → output.new.held ≡ false }
    ensures told_sent { errors.old.held ≡ false → errors.new.failed ≡ false → errors.new.held ≡ false }
    ensures run { IsConvergeRun input.old.remaining output.old errors.old result
        machine.new input.new output.new errors.new }
{
    run_lines::<ConvergeLines, Keeping<M>, I, W, E, R>(
        rt, alloc, buffer, machine, input, output, errors,
    )
}
