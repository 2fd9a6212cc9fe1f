//! What lines mean.

use std::alloc::Global;
use std::thread::Threads;
use watched::{Output, Sink, WriterFailed};

/// A language of lines, in which a machine is asked.
pub trait Language<M> {
    ghost use Rattle.std.specs.Prelude.{ℕ, List};
    ghost use Rattle.std.specs.Thread.{IsSync};
    ghost use Rattle.watched.specs.Streams.{Writes};

    /// What a line may be answered by a machine, and the machine after it.
    ghost answers: { M → List ℕ → List ℕ → M → Type 0 };

    /// Takes a line and writes its answer. Where the writer fails, the line was taken all the same.
    fn answer<W: Sink, R: Threads + Sync>(
        rt: &R,
        alloc: Global,
        line: &[u8],
        output: &mut Output<W>,
        machine: &mut M,
    ) -> Result<(), WriterFailed>
        requires { IsSync R.row }
        ensures { (answer : List ℕ) × answers machine.old line.now answer machine.new
            × Writes output.old answer result output.new };
}
