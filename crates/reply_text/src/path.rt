//! AS paths, cluster lists and communities as text.

ghost use Rattle.std.specs.Prelude.{[], ◌++◌, ◌∷◌, map};
ghost use Rattle.watched.specs.Streams.{Writes};
ghost use Rattle.sim_event.specs.Wording.{numbers_text, path_text, clusters_text};
ghost use Rattle.reply_text.specs.Replies.{communities_text};
ghost use Rattle.reply_text.specs.Parts.{dash_or_joined};

use crate::text::{Text, write_joined};
use net_prefix::Addr;
use path_attr::{Asn, Segment};
use watched::{Output, Sink, WriterFailed};

impl Text for Segment {
    ghost use Rattle.sim_event.specs.Wording.{segment_text};

    ghost text = { segment_text };

    /// Writes the numbers, joined by commas. A set stands in braces.
    fn write<W: Sink>(&self, output: &mut Output<W>) -> Result<(), WriterFailed> {
        match self {
            Segment::Seq(numbers) => write_joined(b',', numbers.as_slice(), output),
            Segment::Set(numbers) => write_set(numbers.as_slice(), output),
        }
    }
}

/// Writes the numbers, joined by commas, in braces.
fn write_set<W: Sink>(numbers: &[Asn], output: &mut Output<W>) -> Result<(), WriterFailed>
    ensures { Writes output.old (123 ∷ numbers_text numbers.now ++ (125 ∷ [])) result output.new }
{
    output.write(b"{")?;
    write_joined(b',', numbers, output)?;
    output.write(b"}")
}

/// Writes the items, the separator between each and the next. A dash where there is none.
fn write_list<T: Text, W: Sink>(
    separator: u8,
    items: &[T],
    output: &mut Output<W>,
) -> Result<(), WriterFailed>
    ensures { Writes output.old (dash_or_joined separator (map T.text items.now)) result output.new }
{
    if items.is_empty() {
        return output.write(b"-");
    }
    write_joined(separator, items, output)
}

/// Writes the segments, joined by underscores.
#[tactic(auto, unfolding(sim_event::specs::Wording::path_text))]
pub(crate) fn write_path<W: Sink>(
    segments: &[Segment],
    output: &mut Output<W>,
) -> Result<(), WriterFailed>
    ensures { Writes output.old (path_text segments.now) result output.new }
{
    write_list(b'_', segments, output)
}

/// Writes the addresses, joined by commas.
pub(crate) fn write_clusters<W: Sink>(
    clusters: &[Addr],
    output: &mut Output<W>,
) -> Result<(), WriterFailed>
    ensures { Writes output.old (clusters_text clusters.now) result output.new }
{
    write_list(b',', clusters, output)
}

/// Writes the name of communities and the numbers, joined by commas. Nothing where there is none.
pub(crate) fn write_communities<W: Sink>(
    communities: &[u32],
    output: &mut Output<W>,
) -> Result<(), WriterFailed>
    ensures { Writes output.old (communities_text communities.now) result output.new }
{
    if communities.is_empty() {
        return Ok(());
    }
    output.write(b" comms=")?;
    write_joined(b',', communities, output)
}
