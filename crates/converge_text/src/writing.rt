//! Answers that are written piece by piece. Where the writer has failed, the rest is not written, and the work goes on.

ghost use Rattle.std.specs.Prelude.{ℕ, List, [], ◌∷◌, ◌++◌};
ghost use Rattle.watched.specs.Streams.{Writes, Writing};
ghost use Rattle.reply_text.specs.Replies.{end_line};
ghost use Rattle.converge_text.specs.Answers.{command_line, counts_text, delivery_text, echoed, ending_text, numbered_text, queued_text};

use convergence::{Delivery, Ending, Queued, Tally};
use net_conf::Refusal;
use net_prefix::Addr;
use reply_text::{Part, write_each, write_refusal, write_reply};
use sim_event::Reply;
use watched::{Output, Sink, WriterFailed};

/// Writes a delivery as a command with its reply, if it is to be written, and unless the writer has failed.
pub(crate) fn write_echo<W: Sink>(
    written: Result<(), WriterFailed>,
    echo: bool,
    delivery: &Delivery,
    output: &mut Output<W>,
) -> Result<(), WriterFailed>
    ensures { (old : Writing) (text : List ℕ) → Writes old text written output.old →
        Writes old (text ++ echoed echo (delivery.now ∷ [])) result output.new }
{
    if !echo {
        return written;
    }
    match written {
        Ok(()) => write_delivery(delivery, output),
        Err(failed) => Err(failed),
    }
}

/// Writes a delivery as a command with its reply.
fn write_delivery<W: Sink>(delivery: &Delivery, output: &mut Output<W>) -> Result<(), WriterFailed>
    ensures { Writes output.old (delivery_text delivery.now) result output.new }
{
    write_command(delivery, output)?;
    write_reply(&Reply::Took(delivery.prefix, delivery.kind), output)
}

/// Writes a delivery as a command.
#[tactic(auto, unfolding(crate::specs::Answers::command_line))]
fn write_command<W: Sink>(delivery: &Delivery, output: &mut Output<W>) -> Result<(), WriterFailed>
    ensures { Writes output.old (command_line delivery.now) result output.new }
{
    let parts = [
        Part::Bytes(b"deliver "),
        Part::Addr(delivery.from),
        Part::Bytes(b" "),
        Part::Addr(delivery.to),
        Part::Bytes(b"\n"),
    ];
    write_each(&parts, output)
}

/// Writes how the deliveries ended.
pub(crate) fn write_ending<W: Sink>(
    written: Result<(), WriterFailed>,
    ending: Ending,
    tally: Tally,
    output: &mut Output<W>,
) -> Result<(), WriterFailed>
    ensures { (old : Writing) (text : List ℕ) → Writes old text written output.old →
        Writes old (text ++ ending_text ending tally) result output.new }
{
    match written {
        Ok(()) => write_ended(ending, tally, output),
        Err(failed) => Err(failed),
    }
}

/// Writes how the deliveries ended.
fn write_ended<W: Sink>(
    ending: Ending,
    tally: Tally,
    output: &mut Output<W>,
) -> Result<(), WriterFailed>
    ensures { Writes output.old (ending_text ending tally) result output.new }
{
    match ending {
        Ending::Converged => write_counts(b"converged after ", tally, output),
        Ending::Limit => write_counts(b"not converged after ", tally, output),
        Ending::OutOfMemory => write_refusal(Refusal::Memory, output),
    }
}

/// Writes the words, and how many messages were delivered.
#[tactic(auto, unfolding(crate::specs::Answers::counts_text))]
fn write_counts<W: Sink>(
    words: &[u8],
    tally: Tally,
    output: &mut Output<W>,
) -> Result<(), WriterFailed>
    ensures { Writes output.old (counts_text words.now tally) result output.new }
{
    let parts = [
        Part::Bytes(words),
        Part::Number(tally.made),
        Part::Bytes(b" ("),
        Part::Number(tally.updates),
        Part::Bytes(b" updates, "),
        Part::Number(tally.withdrawals),
        Part::Bytes(b" withdrawals)"),
        Part::Bytes(b"\n"),
    ];
    write_each(&parts, output)
}

/// Writes what waits in a direction.
pub(crate) fn write_queued<W: Sink>(
    written: Result<(), WriterFailed>,
    from: Addr,
    to: Addr,
    queued: Queued,
    output: &mut Output<W>,
) -> Result<(), WriterFailed>
    ensures { (old : Writing) (text : List ℕ) → Writes old text written output.old →
        Writes old (text ++ queued_text from to queued) result output.new }
{
    match written {
        Ok(()) => write_queued_line(from, to, queued, output),
        Err(failed) => Err(failed),
    }
}

/// Writes what waits in a direction.
#[tactic(auto, unfolding(crate::specs::Answers::queued_text))]
fn write_queued_line<W: Sink>(
    from: Addr,
    to: Addr,
    queued: Queued,
    output: &mut Output<W>,
) -> Result<(), WriterFailed>
    ensures { Writes output.old (queued_text from to queued) result output.new }
{
    let parts = [
        Part::Addr(from),
        Part::Bytes(b" "),
        Part::Addr(to),
        Part::Bytes(b" "),
        Part::Number(queued.count),
        Part::Bytes(b" "),
        Part::Prefix(queued.prefix),
        Part::Bytes(b"\n"),
    ];
    write_each(&parts, output)
}

/// Writes how many lines there were.
pub(crate) fn write_count<W: Sink>(
    written: Result<(), WriterFailed>,
    count: u64,
    output: &mut Output<W>,
) -> Result<(), WriterFailed>
    ensures { (old : Writing) (text : List ℕ) → Writes old text written output.old →
        Writes old (text ++ end_line count) result output.new }
{
    match written {
        Ok(()) => write_end(count, output),
        Err(failed) => Err(failed),
    }
}

/// Writes how many lines there were.
fn write_end<W: Sink>(count: u64, output: &mut Output<W>) -> Result<(), WriterFailed>
    ensures { Writes output.old (end_line count) result output.new }
{
    let parts = [
        Part::Bytes(b"end "),
        Part::Number(count),
        Part::Bytes(b"\n"),
    ];
    write_each(&parts, output)
}

/// Writes the words, and a number behind them.
#[tactic(auto, unfolding(crate::specs::Answers::numbered_text))]
pub(crate) fn write_numbered<W: Sink>(
    words: &[u8],
    number: u64,
    output: &mut Output<W>,
) -> Result<(), WriterFailed>
    ensures { Writes output.old (numbered_text words.now number) result output.new }
{
    let parts = [Part::Bytes(words), Part::Number(number), Part::Bytes(b"\n")];
    write_each(&parts, output)
}
