//! The line of a command, by its shape.

ghost use Rattle.std.specs.Prelude.{◌≡◌, ◌∷◌, [], codes};
ghost use Rattle.std.specs.Fmt.{decimal};
ghost use Rattle.std.specs.List.{join_with_byte};
ghost use Rattle.net_prefix.specs.Address.{addr_text};
ghost use Rattle.net_prefix.specs.Prefix.{prefix_text};
ghost use Rattle.command_text.specs.Words.{ask_words, communities_words, comparison_word, edit_words, news_words, side_word, switch_word};
ghost use Rattle.sim_event.specs.Wording.{maybe_number_text, origin_text, path_text};
ghost use Rattle.log_text.specs.Logs.{command_text};
ghost use Rattle.log_text.specs.Rules.{spaced};
ghost use Rattle.watched.specs.Streams.{Writes};

use crate::rule::write_rule;
use net_conf::{Edit, PolicySide};
use net_prefix::{Addr, Prefix};
use reply_text::{Part, write_joined};
use sim_event::{Ask, Event, FedRoute, Feed, News};
use watched::{Output, Sink, WriterFailed};

/// Writes the command that spells the event: its words, with one space between each and the next. At an error a front
/// of it went out.
pub fn write_command<W: Sink>(event: &Event, output: &mut Output<W>) -> Result<(), WriterFailed>
    ensures { Writes output.old (command_text event.now) result output.new }
{
    match event {
        Event::Edit(edit) => write_edit(edit, output),
        Event::Feed(feed) => write_feed(feed, output),
        Event::Deliver(from, to) => write_pair(b"deliver", *from, *to, output),
        Event::Ask(ask) => write_ask(ask, output),
    }
}

/// Writes the words of a change of the configuration.
fn write_edit<W: Sink>(edit: &Edit, output: &mut Output<W>) -> Result<(), WriterFailed>
    ensures { Writes output.old (join_with_byte 32 (edit_words edit.now)) result output.new }
{
    match edit {
        Edit::Router(a, asn) => write_numbered(b"router", *a, asn.number(), output),
        Edit::Virtual(a, asn) => write_numbered(b"virtual", *a, asn.number(), output),
        Edit::Link(a, b, metric) => write_cost(b"link", *a, *b, metric.cost(), output),
        Edit::Metric(a, b, metric) => write_cost(b"metric", *a, *b, metric.cost(), output),
        Edit::Fail(a, b) => write_pair(b"fail", *a, *b, output),
        Edit::Mend(a, b) => write_pair(b"mend", *a, *b, output),
        Edit::Join(a, b) => write_pair(b"join", *a, *b, output),
        Edit::Stop(a, b) => write_pair(b"stop", *a, *b, output),
        Edit::Start(a, b) => write_pair(b"start", *a, *b, output),
        Edit::Client(a, b, on) => write_switch(b"client", *a, *b, *on, output),
        Edit::OwnNext(a, b, on) => write_switch(b"self", *a, *b, *on, output),
        Edit::Cluster(a, id) => write_pair(b"cluster", *a, *id, output),
        Edit::MedAlways(a, always) => write_comparison(*a, *always, output),
        Edit::Rule(a, b, side, rule) => write_rule(*a, *b, *side, rule, output),
        Edit::Clear(a, b, side) => write_clear(*a, *b, *side, output),
        Edit::Origin(a, prefix) => write_prefixed(b"origin", *a, *prefix, output),
        Edit::NoOrigin(a, prefix) => write_prefixed(b"noorigin", *a, *prefix, output),
    }
}

/// Writes the words of a question.
fn write_ask<W: Sink>(ask: &Ask, output: &mut Output<W>) -> Result<(), WriterFailed>
    ensures { Writes output.old (join_with_byte 32 (ask_words ask.now)) result output.new }
{
    match ask {
        Ask::Routes(router) => write_joined(
            b' ',
            &[Part::Bytes(b"routes"), Part::Addr(*router)],
            output,
        ),
        Ask::Best(router, prefix) => write_prefixed(b"best", *router, *prefix, output),
        Ask::Why(router, prefix) => write_prefixed(b"why", *router, *prefix, output),
        Ask::In(router, peer) => write_pair(b"in", *router, *peer, output),
        Ask::Out(router, peer) => write_pair(b"out", *router, *peer, output),
        Ask::Queue(from, to) => write_pair(b"queue", *from, *to, output),
        Ask::Quiet => output.write(b"quiet"),
        Ask::Cost(router, to) => write_pair(b"cost", *router, *to, output),
        Ask::Trace(router, to) => write_pair(b"trace", *router, *to, output),
    }
}

/// Writes the words of a feed.
fn write_feed<W: Sink>(feed: &Feed, output: &mut Output<W>) -> Result<(), WriterFailed>
    ensures { Writes output.old
        (join_with_byte 32 (codes "feed" ∷ addr_text feed.now.from ∷ addr_text feed.now.to ∷ news_words feed.now.news))
        result output.new }
{
    match &feed.news {
        News::Update(route) => {
            write_route(feed.from, feed.to, route, output)?;
            write_communities(route.comms.numbers(), output)
        }
        News::Withdraw(prefix) => {
            let words = [
                Part::Bytes(b"feed"),
                Part::Addr(feed.from),
                Part::Addr(feed.to),
                Part::Bytes(b"withdraw"),
                Part::Prefix(*prefix),
            ];
            write_joined(b' ', &words, output)
        }
    }
}

/// Writes the words of a route that is fed, but for its communities.
fn write_route<W: Sink>(
    from: Addr,
    to: Addr,
    route: &FedRoute,
    output: &mut Output<W>,
) -> Result<(), WriterFailed>
    ensures { Writes output.old
        (join_with_byte 32 (codes "feed" ∷ addr_text from ∷ addr_text to ∷ codes "update" ∷ prefix_text route.now.prefix
        ∷ path_text route.now.path ∷ origin_text route.now.origin ∷ maybe_number_text route.now.med ∷ []))
        result output.new }
{
    let words = [
        Part::Bytes(b"feed"),
        Part::Addr(from),
        Part::Addr(to),
        Part::Bytes(b"update"),
        Part::Prefix(route.prefix),
        Part::Path(&route.path),
        Part::Origin(route.origin),
        Part::MaybeNumber(route.med),
    ];
    write_joined(b' ', &words, output)
}

/// Writes the word of the communities after a space. Nothing where there are none.
fn write_communities<W: Sink>(
    communities: &[u32],
    output: &mut Output<W>,
) -> Result<(), WriterFailed>
    ensures { Writes output.old (spaced (communities_words communities.now)) result output.new }
{
    if communities.is_empty() {
        return Ok(());
    }
    output.write(b" comm=")?;
    write_joined(b',', communities, output)
}

/// Writes a verb and two addresses.
fn write_pair<W: Sink>(
    verb: &[u8],
    first: Addr,
    second: Addr,
    output: &mut Output<W>,
) -> Result<(), WriterFailed>
    ensures { Writes output.old (join_with_byte 32 (verb.now ∷ addr_text first ∷ addr_text second ∷ [])) result
        output.new }
{
    let words = [Part::Bytes(verb), Part::Addr(first), Part::Addr(second)];
    write_joined(b' ', &words, output)
}

/// Writes a verb, an address and a number.
fn write_numbered<W: Sink>(
    verb: &[u8],
    addr: Addr,
    number: u32,
    output: &mut Output<W>,
) -> Result<(), WriterFailed>
    ensures { Writes output.old (join_with_byte 32 (verb.now ∷ addr_text addr ∷ decimal number ∷ [])) result
        output.new }
{
    let words = [
        Part::Bytes(verb),
        Part::Addr(addr),
        Part::Number(u64::from(number)),
    ];
    write_joined(b' ', &words, output)
}

/// Writes a verb, two addresses and a cost.
fn write_cost<W: Sink>(
    verb: &[u8],
    first: Addr,
    second: Addr,
    cost: u32,
    output: &mut Output<W>,
) -> Result<(), WriterFailed>
    ensures { Writes output.old (join_with_byte 32 (verb.now ∷ addr_text first ∷ addr_text second ∷ decimal cost ∷ []))
        result output.new }
{
    let words = [
        Part::Bytes(verb),
        Part::Addr(first),
        Part::Addr(second),
        Part::Number(u64::from(cost)),
    ];
    write_joined(b' ', &words, output)
}

/// Writes a verb, an address and a prefix.
fn write_prefixed<W: Sink>(
    verb: &[u8],
    addr: Addr,
    prefix: Prefix,
    output: &mut Output<W>,
) -> Result<(), WriterFailed>
    ensures { Writes output.old (join_with_byte 32 (verb.now ∷ addr_text addr ∷ prefix_text prefix ∷ [])) result
        output.new }
{
    let words = [Part::Bytes(verb), Part::Addr(addr), Part::Prefix(prefix)];
    write_joined(b' ', &words, output)
}

/// Writes a verb, two addresses and a switch.
fn write_switch<W: Sink>(
    verb: &[u8],
    first: Addr,
    second: Addr,
    on: bool,
    output: &mut Output<W>,
) -> Result<(), WriterFailed>
    ensures { Writes output.old
        (join_with_byte 32 (verb.now ∷ addr_text first ∷ addr_text second ∷ switch_word on ∷ [])) result output.new }
{
    let switch = if on { "on" } else { "off" };
    let words = [
        Part::Bytes(verb),
        Part::Addr(first),
        Part::Addr(second),
        Part::Bytes(switch.as_bytes()),
    ];
    write_joined(b' ', &words, output)
}

/// Writes the words by which a router is told how to compare MULTI_EXIT_DISC.
fn write_comparison<W: Sink>(
    router: Addr,
    always: bool,
    output: &mut Output<W>,
) -> Result<(), WriterFailed>
    ensures { Writes output.old (join_with_byte 32 (codes "med" ∷ addr_text router ∷ comparison_word always ∷ []))
        result output.new }
{
    let comparison = if always { "always" } else { "as" };
    let words = [
        Part::Bytes(b"med"),
        Part::Addr(router),
        Part::Bytes(comparison.as_bytes()),
    ];
    write_joined(b' ', &words, output)
}

/// Writes the words by which a policy is emptied.
fn write_clear<W: Sink>(
    first: Addr,
    second: Addr,
    side: PolicySide,
    output: &mut Output<W>,
) -> Result<(), WriterFailed>
    ensures { Writes output.old
        (join_with_byte 32 (codes "clear" ∷ addr_text first ∷ addr_text second ∷ side_word side ∷ [])) result
        output.new }
{
    let words = [
        Part::Bytes(b"clear"),
        Part::Addr(first),
        Part::Addr(second),
        Part::Bytes(side_name(side).as_bytes()),
    ];
    write_joined(b' ', &words, output)
}

/// The word for a side of a session.
pub(crate) fn side_name(side: PolicySide) -> &'static str
    ensures { result.now ≡ side_word side }
{
    match side {
        PolicySide::Import => "in",
        PolicySide::Export => "out",
    }
}
