//! The language of commands: the answer to a line.

ghost use Rattle.std.specs.Prelude.{ℕ, List};
ghost use Rattle.watched.specs.Streams.{Writes};
ghost use Rattle.sim_text.specs.Answering.{IsAnswerTo};
ghost use Rattle.sim_text.specs.Serving.{IsAnswer};

use command_text::read_line;
use line_serving::Language;
use net_conf::Refusal;
use reference_machine::Machine;
use reply_text::{write_refusal, write_reply};
use sim_event::Event;
use std::alloc::Global;
use std::thread::Threads;
use watched::{Output, Sink, WriterFailed};

/// The language of commands.
pub struct Commands;

impl<M: Machine> Language<M> for Commands {
    ghost use Rattle.sim_text.specs.Serving.{IsAnswer};

    ghost answers = { λ old line text new. IsAnswer (M.network old) line text (M.network new) };

    fn answer<W: Sink, R: Threads + Sync>(
        rt: &R,
        alloc: Global,
        line: &[u8],
        output: &mut Output<W>,
        machine: &mut M,
    ) -> Result<(), WriterFailed> {
        answer_line(rt, alloc, line, output, machine)
    }
}

/// Takes a line and writes its answer. Where the writer fails, the line's event was taken all the same.
pub fn answer_line<W: Sink, M: Machine>(
    rt: &(impl Threads + Sync),
    alloc: Global,
    line: &[u8],
    output: &mut Output<W>,
    machine: &mut M,
) -> Result<(), WriterFailed>
    ensures { (answer : List ℕ) × IsAnswer (M.network machine.old) line.now answer (M.network machine.new)
        × Writes output.old answer result output.new }
{
    let reading = read_line(alloc, line);
    answer(rt, &reading, output, machine)
}

/// Writes the answer to what was read of a line. An event is always taken.
fn answer<W: Sink, M: Machine>(
    rt: &(impl Threads + Sync),
    reading: &Result<Option<Event>, Refusal>,
    output: &mut Output<W>,
    machine: &mut M,
) -> Result<(), WriterFailed>
    ensures { (answer : List ℕ) × IsAnswerTo reading.now (M.network machine.old) answer (M.network machine.new)
        × Writes output.old answer result output.new }
{
    match reading {
        Ok(None) => Ok(()),
        Ok(Some(event)) => {
            let reply = machine.step(rt, event);
            write_reply(&reply, output)
        }
        Err(refusal) => write_refusal(*refusal, output),
    }
}
