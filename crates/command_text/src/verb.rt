//! The first words of the commands that take no memory, by what follows them.
//!
//! Each shape of what follows has an enum of its verbs: so it has one reader, proved once, which is handed no verb of
//! another shape.

ghost use Rattle.std.specs.Prelude.{◌≡◌, ◌∷◌, ◌<◌, ◌≤◌, ⊤, length};
ghost use Rattle.sim_event.specs.Events.{IsEvent};
ghost use Rattle.command_text.specs.Words.{words_of};
ghost use Rattle.command_text.specs.Verbs.{verb_word, node_word, link_word, pair_word, setting_word, prefix_word};
ghost use Rattle.command_text.specs.Reading.{Reads};
ghost use Rattle.command_text.specs.Arguments.{numbered_words, metric_words, addresses_words, switch_words, prefix_words};

use net_conf::{Edit, Metric};
use net_prefix::{Addr, Prefix};
use path_attr::Asn;
use sim_event::{Ask, Event};

/// The first word of a command that takes no memory.
#[derive(Clone, Copy)]
pub(crate) enum Verb {
    /// An address and an AS number follow.
    Node(NodeVerb),
    /// Two addresses and a cost follow.
    Link(LinkVerb),
    /// Two addresses follow.
    Pair(PairVerb),
    /// Two addresses and `on` or `off` follow.
    Switch(SwitchVerb),
    /// An address and a prefix follow.
    Prefix(PrefixVerb),
    /// Two addresses, `in` or `out`, and the words of a rule follow.
    Rule,
    /// Two addresses follow, and `in` or `out`.
    Clear,
    /// An address follows, and `as` or `always`.
    Med,
    /// An address follows.
    Routes,
    /// Nothing follows.
    Quiet,
}

/// The verbs of an address and an AS number.
#[derive(Clone, Copy)]
pub(crate) enum NodeVerb {
    Router,
    Virtual,
}

/// The verbs of two addresses and a cost.
#[derive(Clone, Copy)]
pub(crate) enum LinkVerb {
    Link,
    Metric,
}

/// The verbs of two addresses.
#[derive(Clone, Copy)]
pub(crate) enum PairVerb {
    Fail,
    Mend,
    Join,
    Stop,
    Start,
    Cluster,
    Deliver,
    In,
    Out,
    Queue,
    Cost,
    Trace,
}

/// The verbs of two addresses and a switch.
#[derive(Clone, Copy)]
pub(crate) enum SwitchVerb {
    Client,
    OwnNext,
}

/// The verbs of an address and a prefix.
#[derive(Clone, Copy)]
pub(crate) enum PrefixVerb {
    Origin,
    NoOrigin,
    Best,
    Why,
}

/// The verb that the word is. One of as many letters is looked for.
pub(crate) fn verb_of(word: &[u8]) -> Option<Verb>
    ensures { Reads (λ _. ⊤) verb_word word.now result }
{
    match word.len() {
        2 | 3 => verb_of_three(word),
        4 => verb_of_four(word),
        5 => verb_of_five(word),
        6 => verb_of_six(word),
        _ => longer_verb(word),
    }
}

/// The verb of two or three letters that the word is.
fn verb_of_three(word: &[u8]) -> Option<Verb>
    ensures { Reads (λ verb. length (verb_word verb) ≤ 3) verb_word word.now result }
{
    match word {
        b"in" => Some(Verb::Pair(PairVerb::In)),
        b"out" => Some(Verb::Pair(PairVerb::Out)),
        b"why" => Some(Verb::Prefix(PrefixVerb::Why)),
        b"med" => Some(Verb::Med),
        _ => None,
    }
}

/// The verb of four letters that the word is.
fn verb_of_four(word: &[u8]) -> Option<Verb>
    ensures { Reads (λ verb. length (verb_word verb) ≡ 4) verb_word word.now result }
{
    match word {
        b"link" => Some(Verb::Link(LinkVerb::Link)),
        b"fail" => Some(Verb::Pair(PairVerb::Fail)),
        b"mend" => Some(Verb::Pair(PairVerb::Mend)),
        b"join" => Some(Verb::Pair(PairVerb::Join)),
        b"stop" => Some(Verb::Pair(PairVerb::Stop)),
        b"cost" => Some(Verb::Pair(PairVerb::Cost)),
        b"self" => Some(Verb::Switch(SwitchVerb::OwnNext)),
        b"best" => Some(Verb::Prefix(PrefixVerb::Best)),
        b"rule" => Some(Verb::Rule),
        _ => None,
    }
}

/// The verb of five letters that the word is.
fn verb_of_five(word: &[u8]) -> Option<Verb>
    ensures { Reads (λ verb. length (verb_word verb) ≡ 5) verb_word word.now result }
{
    match word {
        b"quiet" => Some(Verb::Quiet),
        b"queue" => Some(Verb::Pair(PairVerb::Queue)),
        b"trace" => Some(Verb::Pair(PairVerb::Trace)),
        b"start" => Some(Verb::Pair(PairVerb::Start)),
        b"clear" => Some(Verb::Clear),
        _ => None,
    }
}

/// The verb of six letters that the word is.
fn verb_of_six(word: &[u8]) -> Option<Verb>
    ensures { Reads (λ verb. length (verb_word verb) ≡ 6) verb_word word.now result }
{
    match word {
        b"origin" => Some(Verb::Prefix(PrefixVerb::Origin)),
        b"metric" => Some(Verb::Link(LinkVerb::Metric)),
        b"router" => Some(Verb::Node(NodeVerb::Router)),
        b"client" => Some(Verb::Switch(SwitchVerb::Client)),
        b"routes" => Some(Verb::Routes),
        _ => None,
    }
}

/// The verb of more letters that the word is.
fn longer_verb(word: &[u8]) -> Option<Verb>
    ensures { Reads (λ verb. 6 < length (verb_word verb)) verb_word word.now result }
{
    match word {
        b"deliver" => Some(Verb::Pair(PairVerb::Deliver)),
        b"virtual" => Some(Verb::Node(NodeVerb::Virtual)),
        b"cluster" => Some(Verb::Pair(PairVerb::Cluster)),
        b"noorigin" => Some(Verb::Prefix(PrefixVerb::NoOrigin)),
        _ => None,
    }
}

impl NodeVerb {
    /// The event of the verb with these arguments.
    pub(crate) fn event(self, addr: Addr, asn: Asn) -> Event
        ensures event { IsEvent result }
        ensures words { words_of result ≡ node_word self ∷ numbered_words (addr, asn) }
    {
        match self {
            NodeVerb::Router => Event::Edit(Edit::Router(addr, asn)),
            NodeVerb::Virtual => Event::Edit(Edit::Virtual(addr, asn)),
        }
    }
}

impl LinkVerb {
    /// The event of the verb with these arguments.
    pub(crate) fn event(self, first: Addr, second: Addr, metric: Metric) -> Event
        ensures event { IsEvent result }
        ensures words { words_of result ≡ link_word self ∷ metric_words (first, second, metric) }
    {
        match self {
            LinkVerb::Link => Event::Edit(Edit::Link(first, second, metric)),
            LinkVerb::Metric => Event::Edit(Edit::Metric(first, second, metric)),
        }
    }
}

impl PairVerb {
    /// The event of the verb with these arguments.
    pub(crate) fn event(self, first: Addr, second: Addr) -> Event
        ensures event { IsEvent result }
        ensures words { words_of result ≡ pair_word self ∷ addresses_words (first, second) }
    {
        match self {
            PairVerb::Fail => Event::Edit(Edit::Fail(first, second)),
            PairVerb::Mend => Event::Edit(Edit::Mend(first, second)),
            PairVerb::Join => Event::Edit(Edit::Join(first, second)),
            PairVerb::Stop => Event::Edit(Edit::Stop(first, second)),
            PairVerb::Start => Event::Edit(Edit::Start(first, second)),
            PairVerb::Cluster => Event::Edit(Edit::Cluster(first, second)),
            PairVerb::Deliver => Event::Deliver(first, second),
            PairVerb::In => Event::Ask(Ask::In(first, second)),
            PairVerb::Out => Event::Ask(Ask::Out(first, second)),
            PairVerb::Queue => Event::Ask(Ask::Queue(first, second)),
            PairVerb::Cost => Event::Ask(Ask::Cost(first, second)),
            PairVerb::Trace => Event::Ask(Ask::Trace(first, second)),
        }
    }
}

impl SwitchVerb {
    /// The event of the verb with these arguments.
    pub(crate) fn event(self, first: Addr, second: Addr, on: bool) -> Event
        ensures event { IsEvent result }
        ensures words { words_of result ≡ setting_word self ∷ switch_words (first, second, on) }
    {
        match self {
            SwitchVerb::Client => Event::Edit(Edit::Client(first, second, on)),
            SwitchVerb::OwnNext => Event::Edit(Edit::OwnNext(first, second, on)),
        }
    }
}

impl PrefixVerb {
    /// The event of the verb with these arguments.
    pub(crate) fn event(self, addr: Addr, prefix: Prefix) -> Event
        ensures event { IsEvent result }
        ensures words { words_of result ≡ prefix_word self ∷ prefix_words (addr, prefix) }
    {
        match self {
            PrefixVerb::Origin => Event::Edit(Edit::Origin(addr, prefix)),
            PrefixVerb::NoOrigin => Event::Edit(Edit::NoOrigin(addr, prefix)),
            PrefixVerb::Best => Event::Ask(Ask::Best(addr, prefix)),
            PrefixVerb::Why => Event::Ask(Ask::Why(addr, prefix)),
        }
    }
}
