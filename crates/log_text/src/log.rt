//! The text of a log.

ghost use Rattle.std.specs.Prelude.{◌++◌, length, codes};
ghost use Rattle.std.specs.Fmt.{decimal};
ghost use Rattle.std.specs.List.{flat_map};
ghost use Rattle.reply_text.specs.Replies.{line_end, end_line};
ghost use Rattle.log_text.specs.declared.version.Version.TheVariants.{Two};
ghost use Rattle.log_text.specs.Versions.{header};
ghost use Rattle.log_text.specs.Logs.{call_line, entry_text, log_text};
ghost use Rattle.watched.specs.Streams.{Writes};

use crate::command::write_command;
use reply_text::{Part, write_each, write_marked_reply, write_numbered};
use sim_event::{Entry, Event};
use watched::{Output, Sink, WriterFailed};

/// Writes the log of the history: a header, each call with its seat and its reply, and how many calls there are. Takes
/// no memory. At an error a front of it went out.
pub fn write_log<W: Sink>(entries: &[Entry], output: &mut Output<W>) -> Result<(), WriterFailed>
    ensures { Writes output.old (log_text entries.now) result output.new }
{
    write_header(output)?;
    write_entries(entries, output)?;
    write_end(entries.len() as u64, output)
}

/// Writes the first line of a log, which names the second version. At an error a front of it went out, here and in the
/// calls below.
pub fn write_header<W: Sink>(output: &mut Output<W>) -> Result<(), WriterFailed>
    ensures { Writes output.old (header Two ++ line_end) result output.new }
{
    output.write(b"bgpsim log 2\n")
}

/// Writes the last line of a log of so many calls.
pub fn write_end<W: Sink>(count: u64, output: &mut Output<W>) -> Result<(), WriterFailed>
    ensures { Writes output.old (end_line count) result output.new }
{
    write_numbered(b"end ", count, output)
}

/// Writes the calls, each with its reply, as they stand between the first line and the last.
pub fn write_entries<W: Sink>(entries: &[Entry], output: &mut Output<W>) -> Result<(), WriterFailed>
    ensures { Writes output.old (flat_map entry_text entries.now) result output.new }
{
    for entry in entries {
        write_entry(entry, output)?;
    }
    Ok(())
}

/// Writes a call and its reply.
#[tactic(auto, unfolding(crate::specs::Logs::entry_text))]
fn write_entry<W: Sink>(entry: &Entry, output: &mut Output<W>) -> Result<(), WriterFailed>
    ensures { Writes output.old (entry_text entry.now) result output.new }
{
    write_call(entry.seat, &entry.event, output)?;
    write_marked_reply(b"= ", &entry.reply, output)
}

/// Writes the line of a call.
fn write_call<W: Sink>(seat: u8, event: &Event, output: &mut Output<W>) -> Result<(), WriterFailed>
    ensures { Writes output.old (call_line seat event.now ++ line_end) result output.new }
{
    write_seat(seat, output)?;
    write_command(event, output)?;
    output.write(b"\n")
}

/// Writes the number of a seat, and a space.
fn write_seat<W: Sink>(seat: u8, output: &mut Output<W>) -> Result<(), WriterFailed>
    ensures { Writes output.old (codes "@" ++ decimal seat ++ codes " ") result output.new }
{
    let parts = [
        Part::Bytes(b"@"),
        Part::Number(u64::from(seat)),
        Part::Bytes(b" "),
    ];
    write_each(&parts, output)
}
