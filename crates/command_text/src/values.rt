//! Values that one word spells.

ghost use Rattle.std.specs.Prelude.{◌≡◌, ◌↔◌, ℕ, ◌<◌, ◌^◌, IfSome, IsTrue, ⊤};
ghost use Rattle.std.specs.Fmt.{decimal};
ghost use Rattle.igp_cost.specs.Metric.{IsMetric};
ghost use Rattle.net_prefix.specs.Address.{addr_text};
ghost use Rattle.net_prefix.specs.Prefix.{prefix_text};
ghost use Rattle.sim_event.specs.Events.{IsAddress, IsAsNumber, IsPrefix};
ghost use Rattle.sim_event.specs.Wording.{none_text, maybe_number_text, origin_text};
ghost use Rattle.command_text.specs.Words.{switch_word, comparison_word, side_word};
ghost use Rattle.command_text.specs.Reading.{Reads};

use crate::front::whole_address;
use decimal::read_decimal;
use net_conf::{Metric, PolicySide};
use net_prefix::{Addr, Prefix, read_addr, read_prefix};
use path_attr::{Asn, Origin};

/// An address, a.b.c.d.
pub(crate) fn addr_of(word: &[u8]) -> Option<Addr>
    ensures { Reads IsAddress addr_text word.now result }
{
    match whole_address(word) {
        Some(addr) => Some(addr),
        None => read_addr(word),
    }
}

/// A prefix, a.b.c.d/len.
pub(crate) fn prefix_of(word: &[u8]) -> Option<Prefix>
    ensures { Reads IsPrefix prefix_text word.now result }
{
    read_prefix(word)
}

/// An AS number, 1 to 4294967295.
pub(crate) fn asn_of(word: &[u8]) -> Option<Asn>
    ensures { Reads IsAsNumber decimal word.now result }
{
    Asn::new(read_decimal(word)?)
}

/// The cost of a link, 1 to 65535.
pub(crate) fn metric_of(word: &[u8]) -> Option<Metric>
    ensures { Reads IsMetric decimal word.now result }
{
    Metric::new(read_decimal(word)?)
}

/// ORIGIN: igp, egp or inc.
pub(crate) fn origin_of(word: &[u8]) -> Option<Origin>
    ensures { Reads (λ _. ⊤) origin_text word.now result }
{
    match word {
        b"igp" => Some(Origin::Igp),
        b"egp" => Some(Origin::Egp),
        b"inc" => Some(Origin::Incomplete),
        _ => None,
    }
}

/// MULTI_EXIT_DISC: a number, or a dash for none.
pub(crate) fn med_of(word: &[u8]) -> Option<Option<u32>>
    ensures { Reads (λ med. IfSome med (λ m. m < 2 ^ 32)) maybe_number_text word.now result }
{
    if is_dash(word) {
        return Some(None);
    }
    Some(Some(read_decimal(word)?))
}

/// Whether the word is the dash that stands for nothing.
pub(crate) fn is_dash(word: &[u8]) -> bool
    ensures { IsTrue result ↔ (word.now ≡ none_text) }
{
    matches!(word, b"-")
}

/// A switch: on or off.
pub(crate) fn switch_of(word: &[u8]) -> Option<bool>
    ensures { Reads (λ _. ⊤) switch_word word.now result }
{
    match word {
        b"on" => Some(true),
        b"off" => Some(false),
        _ => None,
    }
}

/// How a router compares MULTI_EXIT_DISC: `always`, or `as`, among the routes of one neighbouring AS.
pub(crate) fn comparison_of(word: &[u8]) -> Option<bool>
    ensures { Reads (λ _. ⊤) comparison_word word.now result }
{
    match word {
        b"always" => Some(true),
        b"as" => Some(false),
        _ => None,
    }
}

/// Which policy of an end: `in`, for what comes from the peer, or `out`, for what goes to it.
pub(crate) fn side_of(word: &[u8]) -> Option<PolicySide>
    ensures { Reads (λ _. ⊤) side_word word.now result }
{
    match word {
        b"in" => Some(PolicySide::Import),
        b"out" => Some(PolicySide::Export),
        _ => None,
    }
}
