//! The words after the first one of a command, by their shapes.

ghost use Rattle.std.specs.Prelude.{◌≡◌, ℕ, ◌≤◌, List, ◌∷◌, length, IfSome, IfNone};
ghost use Rattle.net_prefix.specs.declared.addr.Addr.{Addr};
ghost use Rattle.net_prefix.specs.Address.{addr_text};
ghost use Rattle.net_prefix.specs.Prefix.{Prefix, prefix_text};
ghost use Rattle.sim_event.specs.Events.{IsAddress, IsPrefix};
ghost use Rattle.command_text.specs.Lines.{tokens};
ghost use Rattle.command_text.specs.Reading.{Reads};
ghost use Rattle.command_text.specs.Arguments.{address_words, AreAddresses, addresses_words, IsNumberedAddress, numbered_words, AreEndsAndMetric, metric_words, IsAddressAndPrefix, prefix_words, AreEnds, switch_words, side_words, IsAddressAndComparison, comparison_words, IsAddedRule, added_words};

use crate::front::{front_address, front_prefix};
use crate::rule::rule_of;
use crate::values::{addr_of, asn_of, comparison_of, metric_of, prefix_of, side_of, switch_of};
use crate::words::{next_word, one_word, three_words, two_words};
use net_conf::{Metric, PolicySide};
use net_prefix::{Addr, Prefix};
use path_attr::Asn;
use route_policy::Rule;

/// `A`
pub(crate) fn address(words: &[u8]) -> Option<Addr>
    ensures { Reads IsAddress address_words (tokens words.now) result }
{
    addr_of(one_word(words)?)
}

/// `A B`
pub(crate) fn two_addresses(words: &[u8]) -> Option<(Addr, Addr)>
    ensures { Reads AreAddresses addresses_words (tokens words.now) result }
{
    let (first, rest) = next_address(words)?;
    Some((first, address(rest)?))
}

/// `A N`
pub(crate) fn numbered_address(words: &[u8]) -> Option<(Addr, Asn)>
    ensures { Reads IsNumberedAddress numbered_words (tokens words.now) result }
{
    let (addr, number) = two_words(words)?;
    Some((addr_of(addr)?, asn_of(number)?))
}

/// `A B M`
pub(crate) fn ends_and_metric(words: &[u8]) -> Option<(Addr, Addr, Metric)>
    ensures { Reads AreEndsAndMetric metric_words (tokens words.now) result }
{
    let (first, second, metric) = three_words(words)?;
    Some((addr_of(first)?, addr_of(second)?, metric_of(metric)?))
}

/// `A P`
pub(crate) fn address_and_prefix(words: &[u8]) -> Option<(Addr, Prefix)>
    ensures { Reads IsAddressAndPrefix prefix_words (tokens words.now) result }
{
    let (addr, prefix) = two_words(words)?;
    Some((addr_of(addr)?, prefix_of(prefix)?))
}

/// `A B on|off`
pub(crate) fn ends_and_switch(words: &[u8]) -> Option<(Addr, Addr, bool)>
    ensures { Reads AreEnds switch_words (tokens words.now) result }
{
    let (first, second, switch) = three_words(words)?;
    Some((addr_of(first)?, addr_of(second)?, switch_of(switch)?))
}

/// `A B in|out`
pub(crate) fn ends_and_side(words: &[u8]) -> Option<(Addr, Addr, PolicySide)>
    ensures { Reads AreEnds side_words (tokens words.now) result }
{
    let (first, second, side) = three_words(words)?;
    Some((addr_of(first)?, addr_of(second)?, side_of(side)?))
}

/// `A as|always`
pub(crate) fn address_and_comparison(words: &[u8]) -> Option<(Addr, bool)>
    ensures { Reads IsAddressAndComparison comparison_words (tokens words.now) result }
{
    let (addr, comparison) = two_words(words)?;
    Some((addr_of(addr)?, comparison_of(comparison)?))
}

/// `A B in|out MATCH ACT`
pub(crate) fn added_rule(words: &[u8]) -> Option<(Addr, Addr, PolicySide, Rule)>
    ensures { Reads IsAddedRule added_words (tokens words.now) result }
{
    let (first, rest) = next_address(words)?;
    let (second, rest) = next_address(rest)?;
    let (side, rest) = next_word(rest)?;
    Some((first, second, side_of(side)?, rule_of(rest)?))
}

/// The address that stands first, and the text after it.
pub(crate) fn next_address(words: &[u8]) -> Option<(Addr, &[u8])>
    ensures address { IfSome result (λ next. IsAddress next.0) }
    ensures found { IfSome result (λ next. tokens words.now ≡ addr_text next.0 ∷ tokens next.1.now) }
    ensures shorter { IfSome result (λ next. length next.1.now ≤ length words.now) }
    ensures none { IfNone result ((a : Addr) (more : List (List ℕ)) → IsAddress a →
        tokens words.now ≡ addr_text a ∷ more → ⊥) }
{
    if let Some((addr, rest)) = front_address(words) {
        return Some((addr, rest));
    }
    let (word, rest) = next_word(words)?;
    Some((addr_of(word)?, rest))
}

/// The prefix that stands first, and the text after it.
pub(crate) fn next_prefix(words: &[u8]) -> Option<(Prefix, &[u8])>
    ensures prefix { IfSome result (λ next. IsPrefix next.0) }
    ensures found { IfSome result (λ next. tokens words.now ≡ prefix_text next.0 ∷ tokens next.1.now) }
    ensures shorter { IfSome result (λ next. length next.1.now ≤ length words.now) }
    ensures none { IfNone result ((p : Prefix) (more : List (List ℕ)) → IsPrefix p →
        tokens words.now ≡ prefix_text p ∷ more → ⊥) }
{
    let found = front_prefix(words);
    if found.is_some() {
        return found;
    }
    let (word, rest) = next_word(words)?;
    let prefix = prefix_of(word)?;
    Some((prefix, rest))
}
