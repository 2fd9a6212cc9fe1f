//! The lines of a reply.

ghost use Rattle.std.specs.Prelude.{◌≡◌, ◌≤◌, ◌∷◌, ◌++◌, length, drop};
ghost use Rattle.std.specs.Fmt.{decimal};
ghost use Rattle.reply_text.specs.Replies.{kind_text, line_end, refusal_text, reply_text};
ghost use Rattle.watched.specs.Streams.{Writes};

use crate::backward::{PREFIX_BYTES, put_bytes, put_prefix};
use crate::part::Part;
use crate::report::write_report;
use crate::text::write_each;
use net_conf::Refusal;
use net_prefix::Prefix;
use session_queue::MessageKind;
use sim_event::Reply;
use watched::{Output, Sink, WriterFailed};

/// The most bytes of the line of a message that was taken.
const TOOK_BYTES: usize = 5 + PREFIX_BYTES + 10;

/// Writes the reply's lines. At an error a front of them went out.
pub fn write_reply<W: Sink>(reply: &Reply, output: &mut Output<W>) -> Result<(), WriterFailed>
    ensures { Writes output.old (reply_text reply.now) result output.new }
{
    match reply {
        Reply::Done => output.write(b"ok\n"),
        Reply::Took(prefix, kind) => write_took(*prefix, *kind, output),
        Reply::Report(report) => write_report(report, output),
        Reply::Refused(refusal) => write_refusal(*refusal, output),
    }
}

/// Writes the line of a refusal: its number and its name. At an error a front of it went out.
pub fn write_refusal<W: Sink>(refusal: Refusal, output: &mut Output<W>) -> Result<(), WriterFailed>
    ensures { Writes output.old (refusal_text refusal) result output.new }
{
    let parts = [
        Part::Bytes(b"refused "),
        Part::Number(u64::from(refusal.number())),
        Part::Bytes(b" "),
        Part::Bytes(refusal.name().as_bytes()),
        Part::Bytes(b"\n"),
    ];
    write_each(&parts, output)
}

/// Writes a line of words and a number in decimal, as a fault's that names a line. At an error a front of it went out.
pub fn write_numbered<W: Sink>(
    words: &[u8],
    number: u64,
    output: &mut Output<W>,
) -> Result<(), WriterFailed>
    ensures { Writes output.old (words.now ++ decimal number ++ line_end) result output.new }
{
    let parts = [Part::Bytes(words), Part::Number(number), Part::Bytes(b"\n")];
    write_each(&parts, output)
}

/// Writes the line of a message that was taken.
fn write_took<W: Sink>(
    prefix: Prefix,
    kind: MessageKind,
    output: &mut Output<W>,
) -> Result<(), WriterFailed>
    ensures { Writes output.old (reply_text (Reply.Took prefix kind)) result output.new }
{
    let mut buffer = [0; TOOK_BYTES];
    let start = put_took(prefix, kind, &mut buffer);
    output.write(&buffer[start..])
}

/// Puts the line of a message that was taken at the end of the buffer, and returns where it starts.
fn put_took(prefix: Prefix, kind: MessageKind, buffer: &mut [u8; TOOK_BYTES]) -> usize
    ensures within { result ≤ length buffer.new }
    ensures text { drop result buffer.new ≡ reply_text (Reply.Took prefix kind) }
{
    let end = put_bytes(kind_end(kind), buffer, TOOK_BYTES);
    let end = put_prefix(prefix, buffer, end);
    put_bytes(b"took ", buffer, end)
}

/// The end of such a line, behind the prefix.
fn kind_end(kind: MessageKind) -> &'static [u8]
    ensures text { result.now ≡ 32 ∷ (kind_text kind ++ line_end) }
    ensures short { length result.now ≤ 10 }
{
    match kind {
        MessageKind::Update => b" update\n",
        MessageKind::Withdraw => b" withdraw\n",
    }
}
