//! Serving a script.

ghost use Rattle.std.specs.Prelude.{◌≡◌, false, [], IfSome};
ghost use Rattle.line_serving.specs.Serving.{is_write_fault, is_read_fault};
ghost use Rattle.sim_text.specs.Serving.{IsServing};

use crate::answer::Commands;
use line_serving::{CAPACITY, ServeFault, Typist, serve_lines};
use reference_machine::Machine;
use std::alloc::Global;
use std::thread::Threads;
use watched::{LineBuffer, Output, Sink};

/// Answers each line of the input in turn, read into the buffer, and says how many there were.
///
/// Lines end with LF or CR LF, and a last line may lack its end. A line has at most 65,536 bytes, its end not counted,
/// and a script at most 1,000,000 lines. All that was written is sent on before more is read, for which `Typist`
/// asks, and at the end: then nothing is held back, unless the writer failed. Takes no memory beside that of the events
/// and the machine.
pub fn serve<I: Typist<W>, W: Sink, M: Machine, R: Threads + Sync>(
    rt: &R,
    alloc: Global,
    buffer: LineBuffer<CAPACITY>,
    input: &mut I,
    output: &mut Output<W>,
    machine: &mut M,
) -> Result<u64, ServeFault>
    requires empty { buffer ≡ [] }
    requires reads { (I.reading input.old).failed ≡ false }
    requires writes { output.old.failed ≡ false }
    requires shown { output.old.held ≡ false }
    ensures reader { is_read_fault result ≡ false → (I.reading input.new).failed ≡ false }
    ensures writer { output.new.failed ≡ is_write_fault result }
    ensures sent { output.new.failed ≡ false → output.new.held ≡ false }
    ensures served { IfSome (I.reading input.old).remaining (λ bytes.
        IsServing bytes (M.network machine.old) output.old result
        (M.network machine.new) output.new (I.reading input.new)) }
{
    serve_lines::<Commands, M, I, W, R>(rt, alloc, buffer, input, output, machine)
}
