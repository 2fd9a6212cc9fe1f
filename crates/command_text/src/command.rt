//! The commands. Those of one shape have one reader.

ghost use Rattle.std.specs.Prelude.{◌≡◌, ◌↔◌, ◌≤◌, ◌∷◌, length, codes, IsTrue};
ghost use Rattle.sim_event.specs.Events.{IsEvent};
ghost use Rattle.command_text.specs.Words.{words_of};
ghost use Rattle.command_text.specs.Verbs.{verb_word, node_word, link_word, pair_word, setting_word, prefix_word};
ghost use Rattle.command_text.specs.Lines.{tokens, feeds_route, most_command_bytes};
ghost use Rattle.command_text.specs.Reading.{Reads, Makes};

use crate::arguments::{
    added_rule, address, address_and_comparison, address_and_prefix, ends_and_metric,
    ends_and_side, ends_and_switch, numbered_address, two_addresses,
};
use crate::feed::read_feed;
use crate::verb::{LinkVerb, NodeVerb, PairVerb, PrefixVerb, SwitchVerb, Verb, verb_of};
use crate::words::is_blank;
use net_conf::{Edit, Refusal};
use sim_event::{Ask, Event};
use std::alloc::Global;

/// The event that the first word and the words after it spell.
pub(crate) fn read_command(alloc: Global, first: &[u8], words: &[u8]) -> Result<Event, Refusal>
    requires { length words.now ≤ most_command_bytes }
    ensures { Makes IsEvent feeds_route words_of (first.now ∷ tokens words.now) result }
{
    if is_feed(first) {
        return read_feed(alloc, words);
    }
    let Some(verb) = verb_of(first) else {
        return Err(Refusal::Syntax);
    };
    read_verb(verb, words).ok_or(Refusal::Syntax)
}

/// Whether the word is that of a feed.
fn is_feed(first: &[u8]) -> bool
    ensures { IsTrue result ↔ (first.now ≡ codes "feed") }
{
    matches!(first, b"feed")
}

/// The event of `deliver` and the words after it.
pub(crate) fn read_deliver(words: &[u8]) -> Result<Event, Refusal>
    ensures { Makes IsEvent feeds_route words_of (codes "deliver" ∷ tokens words.now) result }
{
    read_pair(PairVerb::Deliver, words).ok_or(Refusal::Syntax)
}

/// The event that the verb and the words after it spell.
fn read_verb(verb: Verb, words: &[u8]) -> Option<Event>
    ensures { Reads IsEvent words_of (verb_word verb ∷ tokens words.now) result }
{
    match verb {
        Verb::Node(verb) => read_node(verb, words),
        Verb::Link(verb) => read_link(verb, words),
        Verb::Pair(verb) => read_pair(verb, words),
        Verb::Switch(verb) => read_switch(verb, words),
        Verb::Prefix(verb) => read_prefix(verb, words),
        Verb::Rule => read_rule(words),
        Verb::Clear => read_clear(words),
        Verb::Med => read_med(words),
        Verb::Routes => read_routes(words),
        Verb::Quiet => read_quiet(words),
    }
}

/// `router A N` and `virtual A N`
fn read_node(verb: NodeVerb, words: &[u8]) -> Option<Event>
    ensures { Reads IsEvent words_of (node_word verb ∷ tokens words.now) result }
{
    let (addr, asn) = numbered_address(words)?;
    Some(verb.event(addr, asn))
}

/// `link A B M` and `metric A B M`
fn read_link(verb: LinkVerb, words: &[u8]) -> Option<Event>
    ensures { Reads IsEvent words_of (link_word verb ∷ tokens words.now) result }
{
    let (first, second, metric) = ends_and_metric(words)?;
    Some(verb.event(first, second, metric))
}

/// Two addresses after the verb
#[inline(always)]
fn read_pair(verb: PairVerb, words: &[u8]) -> Option<Event>
    ensures { Reads IsEvent words_of (pair_word verb ∷ tokens words.now) result }
{
    let (first, second) = two_addresses(words)?;
    Some(verb.event(first, second))
}

/// `client` and `self`, with `A B on` or `A B off`
fn read_switch(verb: SwitchVerb, words: &[u8]) -> Option<Event>
    ensures { Reads IsEvent words_of (setting_word verb ∷ tokens words.now) result }
{
    let (first, second, on) = ends_and_switch(words)?;
    Some(verb.event(first, second, on))
}

/// An address and a prefix after the verb
fn read_prefix(verb: PrefixVerb, words: &[u8]) -> Option<Event>
    ensures { Reads IsEvent words_of (prefix_word verb ∷ tokens words.now) result }
{
    let (addr, prefix) = address_and_prefix(words)?;
    Some(verb.event(addr, prefix))
}

/// `rule A B in|out`, and the words of the rule
fn read_rule(words: &[u8]) -> Option<Event>
    ensures { Reads IsEvent words_of (codes "rule" ∷ tokens words.now) result }
{
    let (first, second, side, rule) = added_rule(words)?;
    Some(Event::Edit(Edit::Rule(first, second, side, rule)))
}

/// `clear A B in|out`
fn read_clear(words: &[u8]) -> Option<Event>
    ensures { Reads IsEvent words_of (codes "clear" ∷ tokens words.now) result }
{
    let (first, second, side) = ends_and_side(words)?;
    Some(Event::Edit(Edit::Clear(first, second, side)))
}

/// `med A as|always`
fn read_med(words: &[u8]) -> Option<Event>
    ensures { Reads IsEvent words_of (codes "med" ∷ tokens words.now) result }
{
    let (addr, always) = address_and_comparison(words)?;
    Some(Event::Edit(Edit::MedAlways(addr, always)))
}

/// `routes R`
fn read_routes(words: &[u8]) -> Option<Event>
    ensures { Reads IsEvent words_of (codes "routes" ∷ tokens words.now) result }
{
    Some(Event::Ask(Ask::Routes(address(words)?)))
}

/// `quiet`
fn read_quiet(words: &[u8]) -> Option<Event>
    ensures { Reads IsEvent words_of (codes "quiet" ∷ tokens words.now) result }
{
    if is_blank(words) {
        Some(Event::Ask(Ask::Quiet))
    } else {
        None
    }
}
