//! Feeds: the news that a virtual peer tells a router.

ghost use Rattle.std.specs.Prelude.{◌≡◌, ◌↔◌, ℕ, ◌<◌, ◌≤◌, ◌^◌, List, ◌∷◌, length, codes, Option, IfSome, IfNone, IfOk, IsTrue, ⊤};
ghost use Rattle.sim_event.specs.declared.event.FedRoute.{FedRoute};
ghost use Rattle.path_attr.specs.declared.origin.Origin.{Origin};
ghost use Rattle.sim_event.specs.Events.{IsEvent, IsFedRoute, IsNews};
ghost use Rattle.sim_event.specs.Wording.{origin_text, maybe_number_text};
ghost use Rattle.command_text.specs.Words.{words_of, fed_words, news_words};
ghost use Rattle.command_text.specs.Lines.{tokens, is_route, feeds_route, most_command_bytes};
ghost use Rattle.command_text.specs.Reading.{Makes, Reads};
ghost use Rattle.command_text.specs.declared.feed.NewsKind.{NewsKind};
ghost use Rattle.command_text.specs.Updates.{kind_word, update_words, AreUpdateWords, HasRoute};

use crate::arguments::{next_address, next_prefix};
use crate::communities::{are_communities, read_communities};
use crate::path::{is_path, next_path};
use crate::values::{med_of, origin_of, prefix_of};
use crate::words::{next_two_words, next_word, one_word};
use net_conf::Refusal;
use net_prefix::Prefix;
use path_attr::Origin;
use sim_event::{Event, FedRoute, Feed, News};
use std::alloc::{AllocError, Global};

/// `feed V R`, and the news
pub(crate) fn read_feed(alloc: Global, words: &[u8]) -> Result<Event, Refusal>
    requires { length words.now ≤ most_command_bytes }
    ensures { Makes IsEvent feeds_route words_of (codes "feed" ∷ tokens words.now) result }
{
    let (from, rest) = next_address(words).ok_or(Refusal::Syntax)?;
    let (to, rest) = next_address(rest).ok_or(Refusal::Syntax)?;
    let news = read_news(alloc, rest)?;
    Ok(Event::Feed(Feed { from, to, news }))
}

/// `update` and the words of a route, or `withdraw P`
fn read_news(alloc: Global, words: &[u8]) -> Result<News, Refusal>
    requires { length words.now ≤ most_command_bytes }
    ensures { Makes IsNews is_route news_words (tokens words.now) result }
{
    let (kind, rest) = next_kind(words).ok_or(Refusal::Syntax)?;
    match kind {
        NewsKind::Update => read_update(alloc, rest),
        NewsKind::Withdraw => read_withdraw(rest),
    }
}

/// What kind of news is fed.
#[derive(Clone, Copy)]
enum NewsKind {
    Update,
    Withdraw,
}

/// The kind of news that stands first, and the text after it. `update` with one space behind it, as it mostly stands,
/// is not searched for its end.
fn next_kind(words: &[u8]) -> Option<(NewsKind, &[u8])>
    ensures found { IfSome result (λ next. tokens words.now ≡ kind_word next.0 ∷ tokens next.1.now) }
    ensures shorter { IfSome result (λ next. length next.1.now ≤ length words.now) }
    ensures none { IfNone result ((k : NewsKind) (more : List (List ℕ)) → tokens words.now ≡ kind_word k ∷ more → ⊥) }
{
    if let Some(rest) = behind_update(words) {
        return Some((NewsKind::Update, rest));
    }
    let (first, rest) = next_word(words)?;
    Some((kind_of(first)?, rest))
}

/// What stands behind `update` and one space at the front.
fn behind_update(words: &[u8]) -> Option<&[u8]>
    ensures found { IfSome result (λ rest. tokens words.now ≡ codes "update" ∷ tokens rest.now) }
    ensures shorter { IfSome result (λ rest. length rest.now ≤ length words.now) }
{
    match words {
        [b'u', b'p', b'd', b'a', b't', b'e', b' ', rest @ ..] => Some(rest),
        _ => None,
    }
}

/// The kind of news that the word is.
fn kind_of(word: &[u8]) -> Option<NewsKind>
    ensures { Reads (λ _. ⊤) kind_word word.now result }
{
    match word {
        b"update" => Some(NewsKind::Update),
        b"withdraw" => Some(NewsKind::Withdraw),
        _ => None,
    }
}

/// `withdraw P`
fn read_withdraw(words: &[u8]) -> Result<News, Refusal>
    ensures { Makes IsNews is_route news_words (codes "withdraw" ∷ tokens words.now) result }
{
    let word = one_word(words).ok_or(Refusal::Syntax)?;
    let prefix = prefix_of(word).ok_or(Refusal::Syntax)?;
    Ok(News::Withdraw(prefix))
}

/// `update P PATH ORIGIN MED`, and `comm=N,N..` where the route has communities
fn read_update(alloc: Global, words: &[u8]) -> Result<News, Refusal>
    requires { length words.now ≤ most_command_bytes }
    ensures { Makes IsNews is_route news_words (codes "update" ∷ tokens words.now) result }
{
    match read_route(alloc, words) {
        Ok(Some(route)) => Ok(News::Update(route)),
        Ok(None) => Err(Refusal::Syntax),
        Err(_) => {
            if !is_route(words) {
                return Err(Refusal::Syntax);
            }
            Err(Refusal::Memory)
        }
    }
}

/// The words of an update: all but the path are tested, and path and communities are not made.
#[derive(Clone, Copy)]
struct UpdateWords<'a> {
    prefix: Prefix,
    path: &'a [u8],
    origin: Origin,
    med: Option<u32>,
    // All that stands behind MED.
    communities: &'a [u8],
}

/// The words of an update. It takes no memory.
fn update_of(words: &[u8]) -> Option<UpdateWords<'_>>
    requires { length words.now ≤ most_command_bytes }
    ensures found { IfSome result (λ u. AreUpdateWords u × (tokens words.now ≡ update_words u)) }
    ensures none { IfNone result ((r : FedRoute) → IsFedRoute r → tokens words.now ≡ fed_words r → ⊥) }
{
    let Some((prefix, rest)) = next_prefix(words) else {
        return None;
    };
    let (path, rest) = next_word(rest)?;
    let (origin, med, rest) = next_origin_and_med(rest)?;
    if !are_communities(rest) {
        return None;
    }
    Some(UpdateWords {
        prefix,
        path,
        origin,
        med,
        communities: rest,
    })
}

/// ORIGIN and MED, and the text after them.
fn next_origin_and_med(words: &[u8]) -> Option<(Origin, Option<u32>, &[u8])>
    ensures range { IfSome result (λ next. IfSome next.1 (λ m. m < 2 ^ 32)) }
    ensures found { IfSome result (λ next. tokens words.now
        ≡ origin_text next.0 ∷ maybe_number_text next.1 ∷ tokens next.2.now) }
    ensures none { IfNone result ((o : Origin) (m : Option ℕ) (more : List (List ℕ)) → IfSome m (λ m. m < 2 ^ 32) →
        tokens words.now ≡ origin_text o ∷ maybe_number_text m ∷ more → ⊥) }
{
    let (origin, med, rest) = next_two_words(words)?;
    Some((origin_of(origin)?, med_of(med)?, rest))
}

/// Whether the words spell a route. It takes no memory.
fn is_route(words: &[u8]) -> bool
    requires { length words.now ≤ most_command_bytes }
    ensures { IsTrue result ↔ HasRoute (tokens words.now) }
{
    match update_of(words) {
        Some(update) => is_path(update.path),
        None => false,
    }
}

/// The route that the words spell. None where they spell none.
fn read_route(alloc: Global, words: &[u8]) -> Result<Option<FedRoute>, AllocError>
    requires { length words.now ≤ most_command_bytes }
    ensures { IfOk result (λ route. Reads IsFedRoute fed_words (tokens words.now) route) }
{
    let Some(first) = next_prefix(words) else {
        return Ok(None);
    };
    let Some((path, rest)) = next_path(alloc, first.1)? else {
        return Ok(None);
    };
    let Some((origin, med, rest)) = next_origin_and_med(rest) else {
        return Ok(None);
    };
    let Some(comms) = read_communities(alloc, rest)? else {
        return Ok(None);
    };
    Ok(Some(FedRoute {
        prefix: first.0,
        path,
        origin,
        med,
        comms,
    }))
}
