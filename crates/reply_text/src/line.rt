//! The kinds of line of which there may be several.

ghost use Rattle.std.specs.Prelude.{◌≡◌, ◌++◌};
ghost use Rattle.std.specs.List.{flat_map};
ghost use Rattle.net_prefix.specs.Address.{addr_text};
ghost use Rattle.reply_text.specs.Parts.{part_text};
ghost use Rattle.reply_text.specs.Replies.{attr_text, line_end, reason_text};
ghost use Rattle.watched.specs.Streams.{Writes};

use crate::part::Part;
use crate::text::{Text, write_each};
use net_prefix::{Addr, Prefix};
use path_attr::{Attr, SharedAttr};
use route_select::{Reason, Source};
use session_queue::Message;
use sim_event::{Held, TraceEnd};
use watched::{Output, Sink, WriterFailed};

impl Text for Held {
    ghost use Rattle.reply_text.specs.Replies.{held_line};

    ghost text = { held_line };

    /// Writes the line of a chosen route.
    #[tactic(auto, unfolding(crate::specs::Replies::held_line))]
    fn write<W: Sink>(&self, output: &mut Output<W>) -> Result<(), WriterFailed> {
        let head = [
            Part::Prefix(self.prefix),
            Part::Bytes(b" from "),
            Part::Source(self.source),
            Part::Bytes(b" "),
        ];
        write_with_attr(&head, self.attr.shared().attr(), self.attr.pref(), output)
    }
}

impl Text for (Source, Reason) {
    ghost use Rattle.reply_text.specs.Replies.{reason_line};

    ghost text = { reason_line };

    /// Writes the line of a source: why its route was chosen or dropped.
    #[tactic(auto, unfolding(crate::specs::Replies::reason_line))]
    fn write<W: Sink>(&self, output: &mut Output<W>) -> Result<(), WriterFailed> {
        let parts = [
            Part::Source(self.0),
            Part::Bytes(b" "),
            Part::Bytes(reason_word(self.1).as_bytes()),
            Part::Bytes(b"\n"),
        ];
        write_each(&parts, output)
    }
}

impl Text for (Prefix, SharedAttr) {
    ghost use Rattle.reply_text.specs.Replies.{route_line};

    ghost text = { route_line };

    /// Writes the line of a route.
    #[tactic(auto, unfolding(crate::specs::Replies::route_line))]
    fn write<W: Sink>(&self, output: &mut Output<W>) -> Result<(), WriterFailed> {
        let head = [Part::Prefix(self.0), Part::Bytes(b" ")];
        write_with_shared(&head, &self.1, output)
    }
}

impl Text for Message {
    ghost use Rattle.reply_text.specs.Replies.{message_line};

    ghost text = { message_line };

    /// Writes the line of a message.
    #[tactic(auto, unfolding(crate::specs::Replies::message_line))]
    fn write<W: Sink>(&self, output: &mut Output<W>) -> Result<(), WriterFailed> {
        match self {
            Message::Update(prefix, attr) => {
                let head = [
                    Part::Bytes(b"update "),
                    Part::Prefix(*prefix),
                    Part::Bytes(b" "),
                ];
                write_with_shared(&head, attr, output)
            }
            Message::Withdraw(prefix) => {
                let parts = [
                    Part::Bytes(b"withdraw "),
                    Part::Prefix(*prefix),
                    Part::Bytes(b"\n"),
                ];
                write_each(&parts, output)
            }
        }
    }
}

impl Text for (Addr, Prefix) {
    ghost use Rattle.reply_text.specs.Replies.{hop_line};

    ghost text = { hop_line };

    /// Writes the line of a router that forwards.
    #[tactic(auto, unfolding(crate::specs::Replies::hop_line))]
    fn write<W: Sink>(&self, output: &mut Output<W>) -> Result<(), WriterFailed> {
        let parts = [
            Part::Addr(self.0),
            Part::Bytes(b" "),
            Part::Prefix(self.1),
            Part::Bytes(b"\n"),
        ];
        write_each(&parts, output)
    }
}

impl Text for TraceEnd {
    ghost use Rattle.reply_text.specs.Replies.{trace_end_line};

    ghost text = { trace_end_line };

    /// Writes the line that says how forwarding ends.
    #[tactic(auto, unfolding(crate::specs::Replies::trace_end_line))]
    fn write<W: Sink>(&self, output: &mut Output<W>) -> Result<(), WriterFailed> {
        match self {
            TraceEnd::Reached(addr) => write_word_and_addr(b"reached ", *addr, output),
            TraceEnd::NoRoute(addr) => write_word_and_addr(b"noroute ", *addr, output),
            TraceEnd::Loop(addr) => write_word_and_addr(b"loop ", *addr, output),
        }
    }
}

/// Writes a line that begins with these parts and ends with the attributes.
fn write_with_shared<W: Sink>(
    head: &[Part<'_>],
    attr: &SharedAttr,
    output: &mut Output<W>,
) -> Result<(), WriterFailed>
    ensures { Writes output.old (flat_map part_text head.now ++ (attr_text attr.now ++ line_end)) result output.new }
{
    let attr = attr.attr();
    write_with_attr(head, attr, attr.pref, output)
}

/// Writes a line that begins with these parts and ends with the attributes, with this LOCAL_PREF in place of theirs.
fn write_with_attr<W: Sink>(
    head: &[Part<'_>],
    attr: &Attr,
    pref: Option<u32>,
    output: &mut Output<W>,
) -> Result<(), WriterFailed>
    ensures { Writes output.old
        (flat_map part_text head.now ++ (attr_text (record attr.now { pref = pref }) ++ line_end)) result output.new }
{
    write_each(head, output)?;
    let parts = [
        Part::Bytes(b"path="),
        Part::Path(&attr.path),
        Part::Bytes(b" origin="),
        Part::Origin(attr.origin),
        Part::Bytes(b" next="),
        Part::Addr(attr.next),
        Part::Bytes(b" med="),
        Part::MaybeNumber(attr.med),
        Part::Bytes(b" pref="),
        Part::MaybeNumber(pref),
        Part::Bytes(b" oid="),
        Part::MaybeAddr(attr.oid),
        Part::Bytes(b" clusters="),
        Part::Clusters(&attr.clusters),
        Part::Communities(&attr.comms),
        Part::Bytes(b"\n"),
    ];
    write_each(&parts, output)
}

/// Writes a line of a word and an address.
fn write_word_and_addr<W: Sink>(
    word: &[u8],
    addr: Addr,
    output: &mut Output<W>,
) -> Result<(), WriterFailed>
    ensures { Writes output.old (word.now ++ addr_text addr ++ line_end) result output.new }
{
    let parts = [Part::Bytes(word), Part::Addr(addr), Part::Bytes(b"\n")];
    write_each(&parts, output)
}

/// The word for a reason.
fn reason_word(reason: Reason) -> &'static str
    ensures { result.now ≡ reason_text reason }
{
    match reason {
        Reason::Loop => "loop",
        Reason::Originator => "originator",
        Reason::Cluster => "cluster",
        Reason::Denied => "denied",
        Reason::Unresolved => "unresolved",
        Reason::Pref => "pref",
        Reason::Length => "length",
        Reason::Origin => "origin",
        Reason::Med => "med",
        Reason::External => "external",
        Reason::Cost => "cost",
        Reason::Ident => "ident",
        Reason::Clusters => "clusters",
        Reason::Peer => "peer",
        Reason::Best => "best",
    }
}
