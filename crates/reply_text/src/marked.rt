//! The lines of a reply, each with a mark in front.

ghost use Rattle.std.specs.Prelude.{◌≡◌, ◌+◌, ◌++◌, ◌∷◌, [], length, map};
ghost use Rattle.std.specs.List.{flat_map};
ghost use Rattle.reply_text.specs.Replies.{end_line, hop_line, report_text, reply_text, trace_end_line};
ghost use Rattle.reply_text.specs.Lines.{marked, report_lines, reply_lines};
ghost use Rattle.watched.specs.Streams.{Writes};

use crate::reply::write_reply;
use crate::report::{trace_line_count, write_end, write_report};
use crate::text::Text;
use net_prefix::{Addr, Prefix};
use sim_event::{Reply, Report, TraceEnd};
use watched::{Output, Sink, WriterFailed};

/// Writes the reply's lines, each with the mark in front. At an error a front of this went out.
pub fn write_marked_reply<W: Sink>(
    mark: &[u8],
    reply: &Reply,
    output: &mut Output<W>,
) -> Result<(), WriterFailed>
    ensures { Writes output.old (marked mark.now (reply_lines reply.now)) result output.new }
{
    match reply {
        Reply::Report(report) => write_marked_report(mark, report, output),
        Reply::Done => write_marked_line(mark, reply, output),
        Reply::Took(_, _) => write_marked_line(mark, reply, output),
        Reply::Refused(_) => write_marked_line(mark, reply, output),
    }
}

/// Writes the mark, and the text of a reply that is one line.
fn write_marked_line<W: Sink>(
    mark: &[u8],
    reply: &Reply,
    output: &mut Output<W>,
) -> Result<(), WriterFailed>
    ensures { Writes output.old (marked mark.now (reply_text reply.now ∷ [])) result output.new }
{
    output.write(mark)?;
    write_reply(reply, output)
}

/// Writes the report's lines, each with the mark in front.
fn write_marked_report<W: Sink>(
    mark: &[u8],
    report: &Report,
    output: &mut Output<W>,
) -> Result<(), WriterFailed>
    ensures { Writes output.old (marked mark.now (report_lines report.now)) result output.new }
{
    match report {
        Report::Routes(routes) => write_marked_lines(mark, routes.as_slice(), output),
        Report::Why(reasons) => write_marked_lines(mark, reasons.as_slice(), output),
        Report::Rib(routes) => write_marked_lines(mark, routes.as_slice(), output),
        Report::Queue(messages) => write_marked_lines(mark, messages.as_slice(), output),
        Report::Trace(hops, end) => write_marked_trace(mark, hops.as_slice(), *end, output),
        Report::Best(_) => write_marked_answer(mark, report, output),
        Report::Quiet(_) => write_marked_answer(mark, report, output),
        Report::Cost(_) => write_marked_answer(mark, report, output),
    }
}

/// Writes the mark, and the text of a report that is one line.
fn write_marked_answer<W: Sink>(
    mark: &[u8],
    report: &Report,
    output: &mut Output<W>,
) -> Result<(), WriterFailed>
    ensures { Writes output.old (marked mark.now (report_text report.now ∷ [])) result output.new }
{
    output.write(mark)?;
    write_report(report, output)
}

/// Writes the lines and how many there are, the mark in front of each.
fn write_marked_lines<T: Text, W: Sink>(
    mark: &[u8],
    lines: &[T],
    output: &mut Output<W>,
) -> Result<(), WriterFailed>
    ensures { Writes output.old (marked mark.now (map T.text lines.now ++ end_line (length lines.now) ∷ [])) result
        output.new }
{
    write_each_marked(mark, lines, output)?;
    write_marked_end(mark, lines.len() as u64, output)
}

/// Writes the routers that forward, how that ends, and how many lines these are, the mark in front of each.
fn write_marked_trace<W: Sink>(
    mark: &[u8],
    hops: &[(Addr, Prefix)],
    end: TraceEnd,
    output: &mut Output<W>,
) -> Result<(), WriterFailed>
    ensures { Writes output.old
        (marked mark.now (map hop_line hops.now ++ trace_end_line end ∷ end_line (length hops.now + 1) ∷ [])) result
        output.new }
{
    write_each_marked(mark, hops, output)?;
    write_marked_text(mark, &end, output)?;
    write_marked_end(mark, trace_line_count(hops), output)
}

/// Writes the items, the mark in front of each.
fn write_each_marked<T: Text, W: Sink>(
    mark: &[u8],
    items: &[T],
    output: &mut Output<W>,
) -> Result<(), WriterFailed>
    ensures { Writes output.old (flat_map (λ item. mark.now ++ T.text item) items.now) result output.new }
{
    for item in items {
        write_marked_text(mark, item, output)?;
    }
    Ok(())
}

/// Writes the mark and the item.
fn write_marked_text<T: Text, W: Sink>(
    mark: &[u8],
    item: &T,
    output: &mut Output<W>,
) -> Result<(), WriterFailed>
    ensures { Writes output.old (mark.now ++ T.text item.now) result output.new }
{
    output.write(mark)?;
    item.write(output)
}

/// Writes the mark and the last line of a report: how many lines there were before it.
fn write_marked_end<W: Sink>(
    mark: &[u8],
    count: u64,
    output: &mut Output<W>,
) -> Result<(), WriterFailed>
    ensures { Writes output.old (mark.now ++ end_line count) result output.new }
{
    output.write(mark)?;
    write_end(count, output)
}
