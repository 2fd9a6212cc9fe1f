//! Rules of a policy: a match, and an action with its settings.

ghost use Rattle.std.specs.Prelude.{◌≡◌, ℕ, List, [], ◌∷◌, ◌++◌, codes, Option, IfSome, IfNone};
ghost use Rattle.route_policy.specs.Repeats.{IsRepeat};
ghost use Rattle.route_policy.specs.declared.rule.Match.{Match};
ghost use Rattle.sim_event.specs.Events.{IsMatch, AreSettings, IsAction};
ghost use Rattle.command_text.specs.Words.{match_words, setting_words, settings_words, action_words};
ghost use Rattle.command_text.specs.Lines.{tokens};
ghost use Rattle.command_text.specs.Rules.{IsRule, rule_words, IsMaybeNumber};
ghost use Rattle.command_text.specs.Reading.{Reads, BeginsWith};

use crate::values::{asn_of, prefix_of};
use crate::words::{is_blank, next_value, next_word};
use decimal::read_decimal;
use route_policy::{Action, Match, Repeat, Rule, Settings};

/// `MATCH ACT`
pub(crate) fn rule_of(words: &[u8]) -> Option<Rule>
    ensures { Reads IsRule rule_words (tokens words.now) result }
{
    let Some((cond, rest)) = next_match(words) else {
        return None;
    };
    let act = action_of(rest)?;
    Some(Rule { cond, act })
}

/// The match that stands first, and the text after it.
fn next_match(words: &[u8]) -> Option<(Match, &[u8])>
    ensures range { IfSome result (λ next. IsMatch next.0) }
    ensures found { IfSome result (λ next. tokens words.now ≡ match_words next.0 ++ tokens next.1.now) }
    ensures none { IfNone result ((m : Match) (more : List (List ℕ)) → IsMatch m →
        tokens words.now ≡ match_words m ++ more → ⊥) }
{
    let (kind, rest) = next_word(words)?;
    if kind == b"any".as_slice() {
        return Some((Match::Any, rest));
    }
    let (value, rest) = next_word(rest)?;
    Some((match_of(kind, value)?, rest))
}

/// `is P`, `under P`, `path N`, `first N` or `comm N`
fn match_of(kind: &[u8], value: &[u8]) -> Option<Match>
    ensures { Reads IsMatch match_words (kind.now ∷ value.now ∷ []) result }
{
    match kind {
        b"is" => Some(Match::Is(prefix_of(value)?)),
        b"under" => Some(Match::Under(prefix_of(value)?)),
        b"path" => Some(Match::Path(asn_of(value)?)),
        b"first" => Some(Match::First(asn_of(value)?)),
        b"comm" => Some(Match::Comm(read_decimal(value)?)),
        _ => None,
    }
}

/// `deny`, or `permit` and its settings.
fn action_of(words: &[u8]) -> Option<Action>
    ensures { Reads IsAction action_words (tokens words.now) result }
{
    let (first, rest) = next_word(words)?;
    if first == b"permit".as_slice() {
        return permit_of(rest);
    }
    if first == b"deny".as_slice() && is_blank(rest) {
        return Some(Action::Deny);
    }
    None
}

/// A permit with these settings.
fn permit_of(words: &[u8]) -> Option<Action>
    ensures { Reads IsAction action_words (codes "permit" ∷ tokens words.now) result }
{
    let settings = settings_of(words)?;
    Some(Action::Permit(settings))
}

/// The settings of a permit, in their order: `pref=N`, `med=N`, `prepend=N` and `add=N`, each or none of them.
fn settings_of(words: &[u8]) -> Option<Settings>
    ensures { Reads AreSettings settings_words (tokens words.now) result }
{
    let (pref, rest) = next_setting(words, b"pref=")?;
    let (med, rest) = next_setting(rest, b"med=")?;
    let (prepend, rest) = next_setting(rest, b"prepend=")?;
    let (add, rest) = next_setting(rest, b"add=")?;
    if !is_blank(rest) {
        return None;
    }
    let prepend = repeat_of(prepend)?;
    Some(Settings {
        pref,
        med,
        prepend,
        add,
    })
}

/// The number of the setting of that name, where the first word is one, and the text after it. None where that word
/// begins with the name, and no number follows in it.
fn next_setting<'a>(text: &'a [u8], name: &[u8]) -> Option<(Option<u32>, &'a [u8])>
    ensures range { IfSome result (λ next. IsMaybeNumber next.0) }
    ensures found { IfSome result (λ next. tokens text.now ≡ setting_words name.now next.0 ++ tokens next.1.now) }
    ensures after { IfSome result (λ next. (n : Option ℕ) (more : List (List ℕ)) → (BeginsWith name.now more → ⊥) →
        tokens text.now ≡ setting_words name.now n ++ more → tokens next.1.now ≡ more) }
    ensures none { IfNone result ((n : Option ℕ) (more : List (List ℕ)) → IsMaybeNumber n →
        (BeginsWith name.now more → ⊥) → tokens text.now ≡ setting_words name.now n ++ more → ⊥) }
{
    match next_value(text, name) {
        Some((value, rest)) => Some((Some(read_decimal(value)?), rest)),
        None => Some((None, text)),
    }
}

/// How many times the AS is put in front, 1 to 16, where a number is given.
fn repeat_of(number: Option<u32>) -> Option<Option<Repeat>>
    ensures { Reads (λ n. IfSome n IsRepeat) (λ n. n) number result }
{
    match number {
        Some(number) => Some(Some(Repeat::new(u8::try_from(number).ok()?)?)),
        None => Some(None),
    }
}
