//! A script on one stream, its replies on a second, and what is told of a fault on a third.

ghost use Rattle.std.specs.Prelude.{◌≡◌, false, []};
ghost use Rattle.reference_machine.specs.Machine.{nothing};
ghost use Rattle.sim_text.specs.ScriptRun.{IsScriptRun};

use crate::answer::Commands;
use crate::lines_run::run_lines;
use line_serving::CAPACITY;
use reference_machine::Machine;
use std::alloc::Global;
use std::thread::Threads;
use watched::{Input, LineBuffer, Output, Sink, Source};

/// Serves the script on the reader, read into the buffer, to the writer, by a machine that begins with the empty
/// network. Tells a fault on the third stream, whose own failure is passed over. Nothing is held back at the end, on a
/// stream that did not fail. The exit status: 0 done, 3 read fault, 4 write fault.
pub fn run_script<M: Machine, I: Source, W: Sink, E: Sink, R: Threads + Sync>(
    rt: &R,
    alloc: Global,
    buffer: LineBuffer<CAPACITY>,
    machine: &mut M,
    input: &mut Input<I>,
    output: &mut Output<W>,
    errors: &mut Output<E>,
) -> u8
    requires buffer { buffer ≡ [] }
    requires calm_input { input.old.failed ≡ false }
    requires calm_output { output.old.failed ≡ false }
    requires shown { output.old.held ≡ false }
    requires empty { M.network machine.old ≡ nothing }
    ensures sent { output.new.failed ≡ false → output.new.held ≡ false }
    ensures told_sent { errors.old.held ≡ false → errors.new.failed ≡ false → errors.new.held ≡ false }
    ensures run { IsScriptRun input.old.remaining output.old errors.old result
        (M.network machine.new) input.new output.new errors.new }
{
    run_lines::<Commands, M, I, W, E, R>(rt, alloc, buffer, machine, input, output, errors)
}
