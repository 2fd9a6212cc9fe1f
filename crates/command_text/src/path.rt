//! AS paths: segments joined by underscores, numbers joined by commas, sets in braces. A path is made as it is read;
//! where there is no memory for that, `is_path` tells whether there is one, so that want of memory never hides a fault
//! of syntax.

ghost use Rattle.std.specs.Prelude.{◌≡◌, ◌↔◌, ℕ, ◌≤◌, List, [], ◌∷◌, ◌++◌, length, IfSome, IfNone, IfOk, IsTrue};
ghost use Rattle.std.specs.Option.{SomeIff};
ghost use Rattle.path_attr.specs.Path.{IsPath};
ghost use Rattle.command_text.specs.Lines.{tokens, most_command_bytes};
ghost use Rattle.command_text.specs.Ascending.{HasAscending};
ghost use Rattle.command_text.specs.Paths.{HasNumber, HasNumbers, AreNumbers, IsPart, HasSegment, AreParts, HasSegments, IsAsPath, HasPath};
ghost use Rattle.command_text.specs.Reading.{Reads};
ghost use Rattle.sim_event.specs.Wording.{segment_text, path_text};

use crate::ascending::are_ascending;
use crate::sequence::front_numbers;
use crate::values::{asn_of, is_dash};
use crate::words::next_word;
use decimal::cut_at;
use path_attr::{AsPath, Asn, Segment};
use seq::{Seq, SharedSeq};
use std::alloc::{AllocError, Global};

/// Whether the text spells a path of AS numbers. It takes no memory.
pub(crate) fn is_path(text: &[u8]) -> bool
    requires { length text.now ≤ most_command_bytes }
    ensures { IsTrue result ↔ HasPath text.now }
{
    is_dash(text) || are_segments(text)
}

/// The path of one sequence, of these numbers.
fn sequence_path(alloc: Global, numbers: Seq<Asn>) -> Result<Option<AsPath>, AllocError>
    ensures { IfOk result (λ made. SomeIff made (IsPath (Segment.Seq numbers ∷ [])) (Segment.Seq numbers ∷ [])) }
{
    let mut segments = Vec::with_capacity(alloc, 1)?;
    segments.push(Segment::Seq(numbers))?;
    let shared = SharedSeq::of(alloc, segments)?;
    Ok(AsPath::new(shared))
}

/// The path that the text spells. None where it spells none.
fn read_path(alloc: Global, text: &[u8]) -> Result<Option<AsPath>, AllocError>
    requires { length text.now ≤ most_command_bytes }
    ensures { IfOk result (λ path. Reads IsAsPath path_text text.now path) }
{
    if is_dash(text) {
        return Ok(Some(AsPath::empty()));
    }
    let Some(segments) = read_segments(alloc, text)? else {
        return Ok(None);
    };
    let shared = SharedSeq::of(alloc, segments)?;
    Ok(AsPath::new(shared))
}

/// The path that stands first, and the text after it. One of a single sequence with one space behind it, as most are,
/// is read in one pass, and any other by its word.
pub(crate) fn next_path(alloc: Global, words: &[u8]) -> Result<Option<(AsPath, &[u8])>, AllocError>
    requires { length words.now ≤ most_command_bytes }
    ensures found { IfOk result (λ made. IfSome made (λ next. IsAsPath next.0
        × (tokens words.now ≡ path_text next.0 ∷ tokens next.1.now))) }
    ensures none { IfOk result (λ made. IfNone made ((p : List Segment) (more : List (List ℕ)) → IsAsPath p →
        tokens words.now ≡ path_text p ∷ more → ⊥)) }
{
    if let Some((numbers, rest)) = front_numbers(alloc, words)? {
        let path = sequence_path(alloc, numbers)?;
        return Ok(Some((path.unwrap(), rest)));
    }
    let Some((word, rest)) = next_word(words) else {
        return Ok(None);
    };
    let Some(path) = read_path(alloc, word)? else {
        return Ok(None);
    };
    Ok(Some((path, rest)))
}

/// Whether the text spells segments joined by underscores.
fn are_segments(text: &[u8]) -> bool
    ensures { IsTrue result ↔ HasSegments text.now }
{
    let mut rest = text;
    while let Some((first, after)) = cut_at(rest, b'_') {
        if !is_segment(first) {
            return false;
        }
        rest = after;
    }
    is_segment(rest)
}

/// The segments that the text spells. None where it spells none.
fn read_segments(alloc: Global, text: &[u8]) -> Result<Option<Vec<Segment>>, AllocError>
    ensures found { IfOk result (λ made. IfSome made (λ segments. AreParts segments.items text.now)) }
    ensures none { IfOk result (λ made. IfNone made (HasSegments text.now → ⊥)) }
{
    let mut segments = Vec::new(alloc);
    let mut rest = text;
    while let Some((first, after)) = cut_at(rest, b'_') {
        let Some(segment) = read_segment(alloc, first)? else {
            return Ok(None);
        };
        segments.push(segment)?;
        rest = after;
    }
    let Some(segment) = read_segment(alloc, rest)? else {
        return Ok(None);
    };
    segments.push(segment)?;
    Ok(Some(segments))
}

/// What stands between the braces of a set.
fn within_braces(text: &[u8]) -> Option<&[u8]>
    ensures found { IfSome result (λ inner. text.now ≡ 123 ∷ inner.now ++ (125 ∷ [])) }
    ensures none { IfNone result ((inner : List ℕ) → text.now ≡ 123 ∷ inner ++ (125 ∷ []) → ⊥) }
{
    match text {
        [b'{', inner @ .., b'}'] => Some(inner),
        _ => None,
    }
}

/// Whether the text spells a segment.
fn is_segment(text: &[u8]) -> bool
    ensures { IsTrue result ↔ HasSegment text.now }
{
    match within_braces(text) {
        Some(numbers) => are_ascending(numbers, 1),
        None => are_numbers(text),
    }
}

/// The segment that the text spells. None where it spells none.
fn read_segment(alloc: Global, text: &[u8]) -> Result<Option<Segment>, AllocError>
    ensures { IfOk result (λ segment. Reads IsPart segment_text text.now segment) }
{
    match within_braces(text) {
        Some(inner) => read_set(alloc, inner),
        None => read_sequence(alloc, text),
    }
}

/// The sequence of the numbers that the text spells. None where it spells none.
fn read_sequence(alloc: Global, text: &[u8]) -> Result<Option<Segment>, AllocError>
    ensures found { IfOk result (λ made. IfSome made (λ part. IsPart part × (text.now ≡ segment_text part))) }
    ensures none { IfOk result (λ made. IfNone made (HasNumbers text.now → ⊥)) }
{
    let Some(numbers) = read_numbers(alloc, text)? else {
        return Ok(None);
    };
    Ok(Some(Segment::Seq(numbers)))
}

/// The set of the numbers that the text between the braces spells. None where it spells none.
fn read_set(alloc: Global, inner: &[u8]) -> Result<Option<Segment>, AllocError>
    ensures found { IfOk result (λ made. IfSome made (λ part. IsPart part
        × (123 ∷ inner.now ++ (125 ∷ []) ≡ segment_text part))) }
    ensures none { IfOk result (λ made. IfNone made (HasAscending 1 inner.now → ⊥)) }
{
    if !are_ascending(inner, 1) {
        return Ok(None);
    }
    let Some(numbers) = read_numbers(alloc, inner)? else {
        return Ok(None);
    };
    Ok(Some(Segment::Set(numbers)))
}

/// Whether the text spells AS numbers joined by commas.
fn are_numbers(text: &[u8]) -> bool
    ensures { IsTrue result ↔ HasNumbers text.now }
{
    let mut rest = text;
    while let Some((first, after)) = cut_at(rest, b',') {
        if !is_number(first) {
            return false;
        }
        rest = after;
    }
    is_number(rest)
}

/// Whether the text spells an AS number.
fn is_number(text: &[u8]) -> bool
    ensures { IsTrue result ↔ HasNumber text.now }
{
    asn_of(text).is_some()
}

/// The AS numbers that the text spells. None where it spells none.
fn read_numbers(alloc: Global, text: &[u8]) -> Result<Option<Seq<Asn>>, AllocError>
    ensures found { IfOk result (λ made. IfSome made (λ numbers. AreNumbers numbers text.now)) }
    ensures none { IfOk result (λ made. IfNone made (HasNumbers text.now → ⊥)) }
{
    let mut numbers = Seq::new(alloc);
    let mut rest = text;
    while let Some((first, after)) = cut_at(rest, b',') {
        let Some(number) = asn_of(first) else {
            return Ok(None);
        };
        numbers.push(number)?;
        rest = after;
    }
    let Some(number) = asn_of(rest) else {
        return Ok(None);
    };
    numbers.push(number)?;
    Ok(Some(numbers))
}
