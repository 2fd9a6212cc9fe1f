//! The parts of a line.

ghost use Rattle.reply_text.specs.Replies.{source_text};
ghost use Rattle.sim_event.specs.Wording.{origin_text, maybe_number_text, maybe_addr_text};
ghost use Rattle.watched.specs.Streams.{Writes};

use crate::number::write_number;
use crate::path::{write_clusters, write_communities, write_path};
use crate::text::Text;
use net_prefix::{Addr, Prefix};
use path_attr::{AsPath, Communities, Origin};
use route_select::Source;
use seq::SharedSeq;
use watched::{Output, Sink, WriterFailed};

/// A part of a line.
#[derive(Clone, Copy)]
pub enum Part<'a> {
    /// The bytes themselves.
    Bytes(&'a [u8]),
    Number(u64),
    /// A dash where there is no number.
    MaybeNumber(Option<u32>),
    Addr(Addr),
    /// A dash where there is no address.
    MaybeAddr(Option<Addr>),
    Prefix(Prefix),
    Source(Source),
    Origin(Origin),
    Path(&'a AsPath),
    Clusters(&'a SharedSeq<Addr>),
    /// Nothing where there are no communities.
    Communities(&'a Communities),
}

impl Text for Part<'_> {
    ghost use Rattle.reply_text.specs.Parts.{part_text};

    ghost text = { part_text };

    fn write<W: Sink>(&self, output: &mut Output<W>) -> Result<(), WriterFailed> {
        match self {
            Part::Bytes(bytes) => output.write(bytes),
            Part::Number(number) => write_number(*number, output),
            Part::MaybeNumber(number) => write_maybe_number(*number, output),
            Part::Addr(addr) => addr.write(output),
            Part::MaybeAddr(addr) => write_maybe_addr(*addr, output),
            Part::Prefix(prefix) => prefix.write(output),
            Part::Source(source) => write_source(*source, output),
            Part::Origin(origin) => write_origin(*origin, output),
            Part::Path(path) => write_path(path.segments(), output),
            Part::Clusters(clusters) => write_clusters(clusters.as_slice(), output),
            Part::Communities(communities) => write_communities(communities.numbers(), output),
        }
    }
}

/// Writes the number, or a dash.
fn write_maybe_number<W: Sink>(
    number: Option<u32>,
    output: &mut Output<W>,
) -> Result<(), WriterFailed>
    ensures { Writes output.old (maybe_number_text number) result output.new }
{
    match number {
        Some(number) => write_number(number, output),
        None => output.write(b"-"),
    }
}

/// Writes the address, or a dash.
fn write_maybe_addr<W: Sink>(addr: Option<Addr>, output: &mut Output<W>) -> Result<(), WriterFailed>
    ensures { Writes output.old (maybe_addr_text addr) result output.new }
{
    match addr {
        Some(addr) => addr.write(output),
        None => output.write(b"-"),
    }
}

/// Writes where a route comes from.
fn write_source<W: Sink>(source: Source, output: &mut Output<W>) -> Result<(), WriterFailed>
    ensures { Writes output.old (source_text source) result output.new }
{
    match source {
        Source::Own => output.write(b"self"),
        Source::Peer(addr) => addr.write(output),
    }
}

/// Writes the word for how a route came into being.
fn write_origin<W: Sink>(origin: Origin, output: &mut Output<W>) -> Result<(), WriterFailed>
    ensures { Writes output.old (origin_text origin) result output.new }
{
    match origin {
        Origin::Igp => output.write(b"igp"),
        Origin::Egp => output.write(b"egp"),
        Origin::Incomplete => output.write(b"inc"),
    }
}
