//! The lines that are no commands, and what they ask for.

ghost use Rattle.std.specs.Prelude.{◌≡◌, ◌↔◌, ◌<◌, ◌^◌, [], ◌∷◌, ◌++◌, ℕ, Bool, List, Option, IfSome, IsSomeAnd, IsTrue, Some, codes};
ghost use Rattle.std.specs.Fmt.{decimal};
ghost use Rattle.command_text.specs.Lines.{tokens};
ghost use Rattle.convergence.specs.declared.order.Order.{Order};
ghost use Rattle.converge_text.specs.declared.request.Converge.{Converge};
ghost use Rattle.converge_text.specs.declared.request.Request.{Request};
ghost use Rattle.converge_text.specs.Requests.{Asks, BeginsNoNumber, BeginsNoOrder, IsConverge, IsMost, IsOrder, converge_words, echo_words, maybe_order_words, most_words, order_words};

use crate::words::{is_blank, next_word};
use command_text::MAX_LINE;
use convergence::Order;
use decimal::read_decimal;

/// What a line asks for that is no command.
#[derive(Clone, Copy, Debug, PartialEq, Eq)]
pub enum Request {
    /// To deliver what waits.
    Converge(Converge),
    /// Where messages wait.
    Waiting,
    /// To keep the network as it is.
    Snapshot,
    /// To take back the network that was kept as this number.
    Restore(u32),
}

/// The deliveries that are asked for.
#[derive(Clone, Copy, Debug, PartialEq, Eq)]
pub struct Converge {
    /// In which order; fair where none is given.
    pub order: Option<Order>,
    /// How many at most; 1,000,000 where it is not given.
    pub most: Option<u32>,
    /// Whether each is written as a command with its reply.
    pub echo: bool,
}

/// What the line asks for, if it is no command.
pub(crate) fn read_request(line: &[u8]) -> Option<Request>
    ensures found { IfSome result (Asks line.now) }
    ensures complete { (request : Request) → Asks line.now request → result ≡ Some request }
{
    if line.len() > MAX_LINE {
        return None;
    }
    let (first, rest) = next_word(line)?;
    if is_converge(first) {
        return Some(Request::Converge(read_converge(rest)?));
    }
    if is_restore(first) {
        return Some(Request::Restore(read_number(rest)?));
    }
    if is_waiting(first) && is_blank(rest) {
        return Some(Request::Waiting);
    }
    if is_snapshot(first) && is_blank(rest) {
        return Some(Request::Snapshot);
    }
    None
}

/// Whether the word asks for deliveries.
fn is_converge(word: &[u8]) -> bool
    ensures { IsTrue result ↔ (word.now ≡ codes "converge") }
{
    matches!(word, b"converge")
}

/// Whether the word asks where messages wait.
fn is_waiting(word: &[u8]) -> bool
    ensures { IsTrue result ↔ (word.now ≡ codes "waiting") }
{
    matches!(word, b"waiting")
}

/// Whether the word asks for a snapshot.
fn is_snapshot(word: &[u8]) -> bool
    ensures { IsTrue result ↔ (word.now ≡ codes "snapshot") }
{
    matches!(word, b"snapshot")
}

/// Whether the word asks for a snapshot to be taken back, whose number stands behind it.
fn is_restore(word: &[u8]) -> bool
    ensures { IsTrue result ↔ (word.now ≡ codes "restore") }
{
    matches!(word, b"restore")
}

/// The number that is the only word.
fn read_number(text: &[u8]) -> Option<u32>
    ensures found { IfSome result (λ n. (n < 2 ^ 32) × (tokens text.now ≡ decimal n ∷ [])) }
    ensures complete { (n : ℕ) → n < 2 ^ 32 → tokens text.now ≡ decimal n ∷ [] → result ≡ Some n }
{
    let (number, rest) = next_number(text)?;
    if !is_blank(rest) {
        return None;
    }
    Some(number)
}

/// The deliveries that the words behind `converge` ask for.
fn read_converge(text: &[u8]) -> Option<Converge>
    ensures found { IfSome result (λ asked. IsConverge asked × (tokens text.now ≡ converge_words asked)) }
    ensures complete { (asked : Converge) → IsConverge asked → tokens text.now ≡ converge_words asked →
        result ≡ Some asked }
{
    let (order, text) = read_order(text);
    let (most, text) = read_most(text);
    let echo = read_echo(text)?;
    Some(Converge { order, most, echo })
}

/// The order at the head of the words, if there is one, and the words behind it.
fn read_order(text: &[u8]) -> (Option<Order>, &[u8])
    ensures fits { IfSome result.0 IsOrder }
    ensures found { tokens text.now ≡ maybe_order_words result.0 ++ tokens result.1.now }
    ensures complete { (order : Option Order) (words : List (List ℕ)) → IfSome order IsOrder → BeginsNoOrder words →
        tokens text.now ≡ maybe_order_words order ++ words → (result.0 ≡ order) × (tokens result.1.now ≡ words) }
{
    match next_order(text) {
        Some((order, rest)) => (Some(order), rest),
        None => (None, text),
    }
}

/// The order that the words begin with, and the words behind it.
fn next_order(text: &[u8]) -> Option<(Order, &[u8])>
    ensures fits { IfSome result (λ next. IsOrder next.0) }
    ensures found { IfSome result (λ next. tokens text.now ≡ order_words next.0 ++ tokens next.1.now) }
    ensures complete { (order : Order) (words : List (List ℕ)) → IsOrder order →
        tokens text.now ≡ order_words order ++ words → IsSomeAnd result (λ next. (next.0 ≡ order) × (tokens next.1.now ≡ words)) }
{
    let (word, rest) = next_word(text)?;
    if is_fair(word) {
        return Some((Order::Fair, rest));
    }
    if is_router(word) {
        return Some((Order::Router, rest));
    }
    if is_random(word) {
        let (seed, rest) = next_number(rest)?;
        return Some((Order::Random(seed), rest));
    }
    None
}

/// Whether the word asks for the fair order.
fn is_fair(word: &[u8]) -> bool
    ensures { IsTrue result ↔ (word.now ≡ codes "fair") }
{
    matches!(word, b"fair")
}

/// Whether the word asks for the order by router.
fn is_router(word: &[u8]) -> bool
    ensures { IsTrue result ↔ (word.now ≡ codes "router") }
{
    matches!(word, b"router")
}

/// Whether the word asks for the random order, whose seed stands behind it.
fn is_random(word: &[u8]) -> bool
    ensures { IsTrue result ↔ (word.now ≡ codes "random") }
{
    matches!(word, b"random")
}

/// The number at the head of the words, if there is one, and the words behind it.
fn read_most(text: &[u8]) -> (Option<u32>, &[u8])
    ensures found { tokens text.now ≡ most_words result.0 ++ tokens result.1.now }
    ensures complete { (most : Option ℕ) (words : List (List ℕ)) → IsMost most → BeginsNoNumber words →
        tokens text.now ≡ most_words most ++ words → (result.0 ≡ most) × (tokens result.1.now ≡ words) }
{
    match next_number(text) {
        Some((most, rest)) => (Some(most), rest),
        None => (None, text),
    }
}

/// The number that the words begin with, and the words behind it.
fn next_number(text: &[u8]) -> Option<(u32, &[u8])>
    ensures found { IfSome result (λ next. tokens text.now ≡ decimal next.0 ∷ tokens next.1.now) }
    ensures complete { (n : ℕ) (words : List (List ℕ)) → n < 2 ^ 32 → tokens text.now ≡ decimal n ∷ words →
        IsSomeAnd result (λ next. (next.0 ≡ n) × (tokens next.1.now ≡ words)) }
{
    let (word, rest) = next_word(text)?;
    let number = read_decimal(word)?;
    Some((number, rest))
}

/// Whether the words are `echo`, or none. None where they are others.
fn read_echo(text: &[u8]) -> Option<bool>
    ensures found { IfSome result (λ echo. tokens text.now ≡ echo_words echo) }
    ensures complete { (echo : Bool) → tokens text.now ≡ echo_words echo → result ≡ Some echo }
{
    let Some((word, rest)) = next_word(text) else {
        return Some(false);
    };
    if is_echo(word) && is_blank(rest) {
        return Some(true);
    }
    None
}

/// Whether the word asks for an echo.
fn is_echo(word: &[u8]) -> bool
    ensures { IsTrue result ↔ (word.now ≡ codes "echo") }
{
    matches!(word, b"echo")
}
