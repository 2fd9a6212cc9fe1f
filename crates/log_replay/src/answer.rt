//! What the machine answers to a command, as a log has it.

ghost use Rattle.std.specs.Prelude.{◌≡◌, IfOk, OnOk};
ghost use Rattle.reference_machine.specs.Machine.{step};
ghost use Rattle.reply_text.specs.Lines.{marked, reply_lines};
ghost use Rattle.log_text.specs.Logs.{reply_mark};

use net_conf::Refusal;
use reference_machine::Machine;
use reply_text::write_marked_reply;
use sim_event::{Event, Reply};
use std::alloc::{AllocError, Global};
use std::thread::Threads;
use watched::{Output, Writer};

/// Runs the command. The lines of its reply, each with its mark.
pub(crate) fn answer<M: Machine>(
    rt: &(impl Threads + Sync),
    alloc: Global,
    event: &Event,
    machine: &mut M,
) -> Result<Vec<u8>, AllocError>
    ensures due { IfOk result (λ due.
        due.items ≡ marked reply_mark (reply_lines (step (M.network machine.old) event.now).reply)) }
    ensures state { OnOk result (M.network machine.new ≡ (step (M.network machine.old) event.now).next) }
{
    match machine.step(rt, event) {
        Reply::Refused(Refusal::Memory) => Err(AllocError),
        reply => marked_text(alloc, &reply),
    }
}

/// The lines of the reply, each with its mark.
fn marked_text(alloc: Global, reply: &Reply) -> Result<Vec<u8>, AllocError>
    ensures { IfOk result (λ text. text.items ≡ marked reply_mark (reply_lines reply.now)) }
{
    let mut output = Output::new(Writer::new(Vec::new(alloc)));
    match write_marked_reply(b"= ", reply, &mut output) {
        Ok(()) => Ok(output.into_inner().into_inner()),
        Err(_) => Err(AllocError),
    }
}
