//! The lines of a report.

ghost use Rattle.std.specs.Prelude.{◌≡◌, ◌+◌, ◌++◌, length};
ghost use Rattle.std.specs.List.{flat_map};
ghost use Rattle.reply_text.specs.Replies.{best_text, end_line, hop_line, quiet_text, report_text, trace_end_line, way_text};
ghost use Rattle.watched.specs.Streams.{Writes};

use crate::part::Part;
use crate::text::{Text, write_each};
use net_prefix::{Addr, Prefix};
use sim_event::{Held, Report, TraceEnd};
use watched::{Output, Sink, WriterFailed};

/// Writes the report's lines.
pub(crate) fn write_report<W: Sink>(
    report: &Report,
    output: &mut Output<W>,
) -> Result<(), WriterFailed>
    ensures { Writes output.old (report_text report.now) result output.new }
{
    match report {
        Report::Routes(routes) => write_lines(routes.as_slice(), output),
        Report::Best(held) => write_best(held, output),
        Report::Why(reasons) => write_lines(reasons.as_slice(), output),
        Report::Rib(routes) => write_lines(routes.as_slice(), output),
        Report::Queue(messages) => write_lines(messages.as_slice(), output),
        Report::Quiet(quiet) => write_quiet(*quiet, output),
        Report::Cost(way) => write_way(*way, output),
        Report::Trace(hops, end) => write_trace(hops.as_slice(), *end, output),
    }
}

/// Writes the lines, and how many there are.
fn write_lines<T: Text, W: Sink>(lines: &[T], output: &mut Output<W>) -> Result<(), WriterFailed>
    ensures { Writes output.old (flat_map T.text lines.now ++ end_line (length lines.now)) result output.new }
{
    write_each(lines, output)?;
    write_end(lines.len() as u64, output)
}

/// Writes the last line of a report: how many lines there were before it.
pub(crate) fn write_end<W: Sink>(count: u64, output: &mut Output<W>) -> Result<(), WriterFailed>
    ensures { Writes output.old (end_line count) result output.new }
{
    let parts = [
        Part::Bytes(b"end "),
        Part::Number(count),
        Part::Bytes(b"\n"),
    ];
    write_each(&parts, output)
}

/// Writes the line of the chosen route, or that there is none.
fn write_best<W: Sink>(held: &Option<Held>, output: &mut Output<W>) -> Result<(), WriterFailed>
    ensures { Writes output.old (best_text held.now) result output.new }
{
    match held {
        None => output.write(b"none\n"),
        Some(held) => held.write(output),
    }
}

/// Writes whether all is quiet.
fn write_quiet<W: Sink>(quiet: bool, output: &mut Output<W>) -> Result<(), WriterFailed>
    ensures { Writes output.old (quiet_text quiet) result output.new }
{
    match quiet {
        true => output.write(b"yes\n"),
        false => output.write(b"no\n"),
    }
}

/// Writes the cost and the first hop, or that there is no way.
fn write_way<W: Sink>(way: Option<(u32, Addr)>, output: &mut Output<W>) -> Result<(), WriterFailed>
    ensures { Writes output.old (way_text way) result output.new }
{
    let Some((cost, hop)) = way else {
        return output.write(b"none\n");
    };
    let parts = [
        Part::Number(u64::from(cost)),
        Part::Bytes(b" via "),
        Part::Addr(hop),
        Part::Bytes(b"\n"),
    ];
    write_each(&parts, output)
}

/// Writes the routers that forward, how that ends, and how many lines these are.
fn write_trace<W: Sink>(
    hops: &[(Addr, Prefix)],
    end: TraceEnd,
    output: &mut Output<W>,
) -> Result<(), WriterFailed>
    ensures { Writes output.old (flat_map hop_line hops.now ++ trace_end_line end ++ end_line (length hops.now + 1))
        result output.new }
{
    write_each(hops, output)?;
    end.write(output)?;
    write_end(trace_line_count(hops), output)
}

/// How many lines a trace takes: one for each router that forwards, and its end.
pub(crate) fn trace_line_count(hops: &[(Addr, Prefix)]) -> u64
    ensures { result ≡ length hops.now + 1 }
{
    hops.len() as u64 + 1
}
