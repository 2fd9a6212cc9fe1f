//! Where messages wait, as a list.

ghost use Rattle.std.specs.Prelude.{ℕ, List};
ghost use Rattle.watched.specs.Streams.{Writes};
ghost use Rattle.converge_text.specs.Answers.{AreListed};

use crate::writing::{write_count, write_queued};
use convergence::{Reached, Waiting};
use watched::{Output, Sink, WriterFailed};

/// Writes each direction in which a message waits, with how many do and the prefix of the first; and how many
/// directions there are.
pub(crate) fn write_waiting<M: Waiting, W: Sink>(
    machine: &Reached<M>,
    output: &mut Output<W>,
) -> Result<(), WriterFailed>
    ensures { (answer : List ℕ) × AreListed machine.now answer × Writes output.old answer result output.new }
{
    let mut written = Ok(());
    let mut count: u64 = 0;
    let mut past = None;
    'directions: while let Some((from, to)) = machine.next_waiting(past) {
        let Some(queued) = machine.queued(from, to) else {
            unreachable!()
        };
        written = write_queued(written, from, to, queued, output);
        count = count.saturating_add(1);
        past = Some((from, to));
    }
    write_count(written, count, output)
}
