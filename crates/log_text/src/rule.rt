//! The words of a rule.

ghost use Rattle.std.specs.Prelude.{◌≡◌, ◌∷◌, ◌++◌, [], codes};
ghost use Rattle.std.specs.List.{join_with_byte};
ghost use Rattle.std.specs.Fmt.{decimal};
ghost use Rattle.net_prefix.specs.Address.{addr_text};
ghost use Rattle.net_prefix.specs.Prefix.{prefix_text};
ghost use Rattle.command_text.specs.Words.{action_words, match_words, setting_words, settings_words, side_word};
ghost use Rattle.log_text.specs.Rules.{spaced};
ghost use Rattle.watched.specs.Streams.{Writes};

use crate::command::side_name;
use net_conf::PolicySide;
use net_prefix::{Addr, Prefix};
use reply_text::{Part, write_each, write_joined};
use route_policy::{Action, Match, Repeat, Rule, Settings};
use watched::{Output, Sink, WriterFailed};

/// Writes the words by which a rule is added to a policy.
pub(crate) fn write_rule<W: Sink>(
    first: Addr,
    second: Addr,
    side: PolicySide,
    rule: &Rule,
    output: &mut Output<W>,
) -> Result<(), WriterFailed>
    ensures { Writes output.old
        (join_with_byte 32 (codes "rule" ∷ addr_text first ∷ addr_text second ∷ side_word side
        ∷ match_words rule.now.cond ++ action_words rule.now.act)) result output.new }
{
    write_policy(first, second, side, output)?;
    write_match(rule.cond, output)?;
    write_action(rule.act, output)
}

/// Writes the words that name the policy to which a rule is added.
fn write_policy<W: Sink>(
    first: Addr,
    second: Addr,
    side: PolicySide,
    output: &mut Output<W>,
) -> Result<(), WriterFailed>
    ensures { Writes output.old
        (join_with_byte 32 (codes "rule" ∷ addr_text first ∷ addr_text second ∷ side_word side ∷ [])) result
        output.new }
{
    let words = [
        Part::Bytes(b"rule"),
        Part::Addr(first),
        Part::Addr(second),
        Part::Bytes(side_name(side).as_bytes()),
    ];
    write_joined(b' ', &words, output)
}

/// Writes which routes a rule is about, a space before each word.
fn write_match<W: Sink>(cond: Match, output: &mut Output<W>) -> Result<(), WriterFailed>
    ensures { Writes output.old (spaced (match_words cond)) result output.new }
{
    match cond {
        Match::Any => output.write(b" any"),
        Match::Is(prefix) => write_prefixed(b" is ", prefix, output),
        Match::Under(prefix) => write_prefixed(b" under ", prefix, output),
        Match::Path(asn) => write_numbered(b" path ", asn.number(), output),
        Match::First(asn) => write_numbered(b" first ", asn.number(), output),
        Match::Comm(number) => write_numbered(b" comm ", number, output),
    }
}

/// Writes what becomes of a route, a space before each word.
fn write_action<W: Sink>(act: Action, output: &mut Output<W>) -> Result<(), WriterFailed>
    ensures { Writes output.old (spaced (action_words act)) result output.new }
{
    match act {
        Action::Deny => output.write(b" deny"),
        Action::Permit(settings) => write_permit(settings, output),
    }
}

/// Writes the words of a permit, a space before each.
fn write_permit<W: Sink>(settings: Settings, output: &mut Output<W>) -> Result<(), WriterFailed>
    ensures { Writes output.old (spaced (codes "permit" ∷ settings_words settings)) result output.new }
{
    output.write(b" permit")?;
    write_settings(settings, output)
}

/// Writes the settings that are made, a space before each.
fn write_settings<W: Sink>(settings: Settings, output: &mut Output<W>) -> Result<(), WriterFailed>
    ensures { Writes output.old (spaced (settings_words settings)) result output.new }
{
    write_setting(b"pref=", settings.pref, output)?;
    write_setting(b"med=", settings.med, output)?;
    write_setting(b"prepend=", count_of(settings.prepend), output)?;
    write_setting(b"add=", settings.add, output)
}

/// How many times, as a number.
fn count_of(prepend: Option<Repeat>) -> Option<u32>
    ensures { result ≡ prepend }
{
    match prepend {
        Some(repeat) => Some(u32::from(repeat.count())),
        None => None,
    }
}

/// Writes the setting by its name after a space, where it is made.
fn write_setting<W: Sink>(
    name: &[u8],
    value: Option<u32>,
    output: &mut Output<W>,
) -> Result<(), WriterFailed>
    ensures { Writes output.old (spaced (setting_words name.now value)) result output.new }
{
    let Some(value) = value else {
        return Ok(());
    };
    let parts = [
        Part::Bytes(b" "),
        Part::Bytes(name),
        Part::Number(u64::from(value)),
    ];
    write_each(&parts, output)
}

/// Writes the bytes and a prefix.
fn write_prefixed<W: Sink>(
    bytes: &[u8],
    prefix: Prefix,
    output: &mut Output<W>,
) -> Result<(), WriterFailed>
    ensures { Writes output.old (bytes.now ++ prefix_text prefix) result output.new }
{
    write_each(&[Part::Bytes(bytes), Part::Prefix(prefix)], output)
}

/// Writes the bytes and a number.
fn write_numbered<W: Sink>(
    bytes: &[u8],
    number: u32,
    output: &mut Output<W>,
) -> Result<(), WriterFailed>
    ensures { Writes output.old (bytes.now ++ decimal number) result output.new }
{
    write_each(
        &[Part::Bytes(bytes), Part::Number(u64::from(number))],
        output,
    )
}
