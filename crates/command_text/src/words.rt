//! The words of a line, one after another.

ghost use Rattle.std.specs.Prelude.{◌≡◌, ◌↔◌, ℕ, ◌+◌, ◌<◌, ◌≤◌, List, [], ◌∷◌, ◌++◌, length, IfSome, IfNone, IsTrue};
ghost use Rattle.command_text.specs.Lines.{tokens};
ghost use Rattle.command_text.specs.Reading.{BeginsWith};

use decimal::cut_at;

/// The first word, and the text after it. None where there is no word.
pub(crate) fn next_word(text: &[u8]) -> Option<(&[u8], &[u8])>
    ensures found { IfSome result (λ next. tokens text.now ≡ next.0.now ∷ tokens next.1.now) }
    ensures word { IfSome result (λ next. 0 < length next.0.now) }
    ensures shorter { IfSome result (λ next. length next.0.now + length next.1.now ≤ length text.now) }
    ensures none { IfNone result (tokens text.now ≡ []) }
{
    let mut rest = text;
    while let Some((word, after)) = cut_at(rest, b' ') {
        if !word.is_empty() {
            return Some((word, after));
        }
        rest = after;
    }
    if rest.is_empty() {
        return None;
    }
    Some((rest, &[]))
}

/// Whether the text has no word.
pub(crate) fn is_blank(text: &[u8]) -> bool
    ensures { IsTrue result ↔ (tokens text.now ≡ []) }
{
    next_word(text).is_none()
}

/// The one word of a text.
pub(crate) fn one_word(text: &[u8]) -> Option<&[u8]>
    ensures found { IfSome result (λ word. tokens text.now ≡ word.now ∷ []) }
    ensures none { IfNone result ((a : List ℕ) → tokens text.now ≡ a ∷ [] → ⊥) }
{
    let (word, rest) = next_word(text)?;
    match next_word(rest) {
        Some(_) => None,
        None => Some(word),
    }
}

/// The two words of a text.
pub(crate) fn two_words(text: &[u8]) -> Option<(&[u8], &[u8])>
    ensures found { IfSome result (λ words. tokens text.now ≡ words.0.now ∷ words.1.now ∷ []) }
    ensures none { IfNone result ((a b : List ℕ) → tokens text.now ≡ a ∷ b ∷ [] → ⊥) }
{
    let (first, rest) = next_word(text)?;
    Some((first, one_word(rest)?))
}

/// The three words of a text.
pub(crate) fn three_words(text: &[u8]) -> Option<(&[u8], &[u8], &[u8])>
    ensures found { IfSome result (λ words. tokens text.now ≡ words.0.now ∷ words.1.now ∷ words.2.now ∷ []) }
    ensures none { IfNone result ((a b c : List ℕ) → tokens text.now ≡ a ∷ b ∷ c ∷ [] → ⊥) }
{
    let (first, rest) = next_word(text)?;
    let (second, third) = two_words(rest)?;
    Some((first, second, third))
}

/// The first two words, and the text after them.
pub(crate) fn next_two_words(text: &[u8]) -> Option<(&[u8], &[u8], &[u8])>
    ensures found { IfSome result (λ next. tokens text.now ≡ next.0.now ∷ next.1.now ∷ tokens next.2.now) }
    ensures within { IfSome result (λ next. length next.1.now ≤ length text.now) }
    ensures none { IfNone result ((a b : List ℕ) (more : List (List ℕ)) → tokens text.now ≡ a ∷ b ∷ more → ⊥) }
{
    let (first, rest) = next_word(text)?;
    let (second, rest) = next_word(rest)?;
    Some((first, second, rest))
}

/// What follows the name in the first word, where that word begins with it, and the text after the word.
pub(crate) fn next_value<'a>(text: &'a [u8], name: &[u8]) -> Option<(&'a [u8], &'a [u8])>
    ensures found { IfSome result (λ next. tokens text.now ≡ (name.now ++ next.0.now) ∷ tokens next.1.now) }
    ensures none { IfNone result (BeginsWith name.now (tokens text.now) → ⊥) }
{
    let (word, rest) = next_word(text)?;
    Some((word.strip_prefix(name)?, rest))
}

/// What follows the name in the one word of a text, where that word begins with it.
pub(crate) fn only_value<'a>(text: &'a [u8], name: &[u8]) -> Option<&'a [u8]>
    ensures found { IfSome result (λ value. tokens text.now ≡ (name.now ++ value.now) ∷ []) }
    ensures none { IfNone result ((value : List ℕ) → tokens text.now ≡ (name.now ++ value) ∷ [] → ⊥) }
{
    let (value, rest) = next_value(text, name)?;
    if is_blank(rest) {
        return Some(value);
    }
    None
}
