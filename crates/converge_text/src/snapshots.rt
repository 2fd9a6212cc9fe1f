//! Snapshots that are kept, and taken back.

ghost use Rattle.std.specs.Prelude.{ℕ, List};
ghost use Rattle.watched.specs.Streams.{Writes};
ghost use Rattle.converge_text.specs.Answers.{IsSnapshotReply, IsRestoreReply};

use crate::writing::write_numbered;
use convergence::{Copying, Keeping};
use net_conf::Refusal;
use reply_text::{write_refusal, write_reply};
use sim_event::Reply;
use watched::{Output, Sink, WriterFailed};

/// Keeps the network as it is, and writes how many are kept then, or that there is no memory for it.
pub(crate) fn keep<M: Copying, W: Sink>(
    machine: &mut Keeping<M>,
    output: &mut Output<W>,
) -> Result<(), WriterFailed>
    ensures { (answer : List ℕ) × IsSnapshotReply machine.old answer machine.new × Writes output.old answer result output.new }
{
    match machine.keep() {
        Ok(count) => write_numbered(b"snapshot ", count, output),
        Err(_) => write_refusal(Refusal::Memory, output),
    }
}

/// Takes back the network that was kept as this number, and writes that it did, or that none is kept so.
pub(crate) fn restore<M: Copying, W: Sink>(
    machine: &mut Keeping<M>,
    number: u32,
    output: &mut Output<W>,
) -> Result<(), WriterFailed>
    ensures { (answer : List ℕ) × IsRestoreReply number machine.old answer machine.new
        × Writes output.old answer result output.new }
{
    if machine.restore(number) {
        return write_reply(&Reply::Done, output);
    }
    write_numbered(b"no snapshot ", u64::from(number), output)
}
