//! The deliveries that a line asks for, and its answer.

ghost use Rattle.std.specs.Prelude.{ℕ, List};
ghost use Rattle.watched.specs.Streams.{Writes};
ghost use Rattle.converge_text.specs.Answers.{AreDelivered};
ghost use Rattle.converge_text.specs.Requests.{most_of};

use crate::request::Converge;
use crate::writing::{write_echo, write_ending};
use convergence::{Advance, Order, Reached, Run, Waiting};
use std::alloc::Global;
use std::thread::Threads;
use watched::{Output, Sink, WriterFailed};

/// How many messages are delivered at most where the line does not say.
const MOST: u32 = 1_000_000;

/// Delivers messages until none waits, or as many were delivered as the line allows, and writes the answer. Where the
/// writer fails they are delivered all the same.
pub(crate) fn deliver_all<M: Waiting, W: Sink>(
    rt: &(impl Threads + Sync),
    alloc: Global,
    asked: Converge,
    output: &mut Output<W>,
    machine: &mut Reached<M>,
) -> Result<(), WriterFailed>
    ensures { (answer : List ℕ) × AreDelivered machine.old (most_of asked.most) asked.echo answer machine.new
        × Writes output.old answer result output.new }
{
    let order = asked.order.unwrap_or(Order::Fair);
    let most = asked.most.unwrap_or(MOST);
    let mut run = Run::new(alloc, order, u64::from(most));
    let mut written = Ok(());
    'deliveries: loop {
        match run.advance(rt, machine) {
            Advance::Took(delivery) => {
                written = write_echo(written, asked.echo, &delivery, output);
            }
            Advance::Ended(ending) => return write_ending(written, ending, run.tally(), output),
        }
    }
}
