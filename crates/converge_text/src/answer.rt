//! The language of commands and of deliveries until none waits: the answer to a line.

ghost use Rattle.std.specs.Prelude.{ℕ, List};
ghost use Rattle.watched.specs.Streams.{Writes};
ghost use Rattle.converge_text.specs.Answers.{IsReplyTo};

use crate::deliveries::deliver_all;
use crate::listing::write_waiting;
use crate::request::{Request, read_request};
use crate::snapshots::{keep, restore};
use convergence::{Copying, Keeping, Waiting};
use line_serving::Language;
use sim_text::answer_line;
use std::alloc::Global;
use std::thread::Threads;
use watched::{Output, Sink, WriterFailed};

/// The language of commands, with `converge`, `waiting`, `snapshot` and `restore`.
pub struct ConvergeLines;

impl<M: Waiting + Copying> Language<Keeping<M>> for ConvergeLines {
    ghost use Rattle.converge_text.specs.Answers.{IsAnswer};

    ghost answers = { IsAnswer };

    fn answer<W: Sink, R: Threads + Sync>(
        rt: &R,
        alloc: Global,
        line: &[u8],
        output: &mut Output<W>,
        machine: &mut Keeping<M>,
    ) -> Result<(), WriterFailed> {
        match read_request(line) {
            Some(request) => answer_request(rt, alloc, request, output, machine),
            None => answer_line(rt, alloc, line, output, &mut machine.machine),
        }
    }
}

/// Does what is asked for, and writes the answer.
fn answer_request<M: Waiting + Copying, W: Sink>(
    rt: &(impl Threads + Sync),
    alloc: Global,
    request: Request,
    output: &mut Output<W>,
    machine: &mut Keeping<M>,
) -> Result<(), WriterFailed>
    ensures { (answer : List ℕ) × IsReplyTo request machine.old answer machine.new
        × Writes output.old answer result output.new }
{
    match request {
        Request::Converge(asked) => deliver_all(rt, alloc, asked, output, &mut machine.machine),
        Request::Waiting => write_waiting(&machine.machine, output),
        Request::Snapshot => keep(machine, output),
        Request::Restore(number) => restore(machine, number, output),
    }
}
