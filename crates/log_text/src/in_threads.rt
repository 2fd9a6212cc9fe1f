//! The log of a history, whose text several threads make.

mod text;

ghost use Rattle.std.specs.Prelude.{◌≡◌};
ghost use Rattle.std.specs.List.{flat_map};
ghost use Rattle.log_text.specs.Logs.{entry_text, log_text};
ghost use Rattle.watched.specs.Streams.{Writes};

use crate::log::{write_end, write_entries, write_header, write_log};
use sim_event::Entry;
use std::alloc::Global;
use std::thread::Threads;
use text::text_by_threads;
use watched::{Output, Sink, WriterFailed};

/// The most calls of which one thread makes the text before it is written.
const CALLS_AT_A_TIME: usize = 4_096;

/// Writes the log of the history, as `write_log` does. Where there are to be several threads, these make the text, of
/// some thousand calls each at a time, and this one writes it; where there is no memory for that, this one does all. At
/// an error a front of the log went out.
pub fn write_log_in_threads<W: Sink, R: Threads + Sync>(
    rt: &R,
    alloc: Global,
    threads: u16,
    entries: &[Entry],
    output: &mut Output<W>,
) -> Result<(), WriterFailed>
    ensures { Writes output.old (log_text entries.now) result output.new }
{
    if threads < 2 {
        return write_log(entries, output);
    }
    write_header(output)?;
    write_turns(rt, alloc, threads, entries, output)?;
    write_end(entries.len() as u64, output)
}

/// Writes the calls, turn by turn.
fn write_turns<W: Sink, R: Threads + Sync>(
    rt: &R,
    alloc: Global,
    threads: u16,
    entries: &[Entry],
    output: &mut Output<W>,
) -> Result<(), WriterFailed>
    ensures { Writes output.old (flat_map entry_text entries.now) result output.new }
{
    let most = usize::from(threads.max(1)) * CALLS_AT_A_TIME;
    let mut left = entries;
    while !left.is_empty() {
        let (turn, later) = left.split_at(left.len().min(most));
        write_turn(rt, alloc, threads, turn, output)?;
        left = later;
    }
    Ok(())
}

/// Writes the calls of one turn. Where there is no memory for their text, they are written one by one.
fn write_turn<W: Sink, R: Threads + Sync>(
    rt: &R,
    alloc: Global,
    threads: u16,
    entries: &[Entry],
    output: &mut Output<W>,
) -> Result<(), WriterFailed>
    ensures { Writes output.old (flat_map entry_text entries.now) result output.new }
{
    match text_by_threads(rt, alloc, threads, entries) {
        Some(text) => output.write(&text),
        None => write_entries(entries, output),
    }
}
