//! The words of a line, one after another.

ghost use Rattle.std.specs.Prelude.{◌≡◌, ◌↔◌, [], ◌∷◌, IfSome, IfNone, IsTrue};
ghost use Rattle.command_text.specs.Lines.{tokens};

use decimal::cut_at;

/// The first word, and the text after it. None where there is no word.
pub(crate) fn next_word(text: &[u8]) -> Option<(&[u8], &[u8])>
    ensures found { IfSome result (λ next. tokens text.now ≡ next.0.now ∷ tokens next.1.now) }
    ensures none { IfNone result (tokens text.now ≡ []) }
{
    let mut rest = text;
    while let Some((word, after)) = cut_at(rest, b' ') {
        if !word.is_empty() {
            return Some((word, after));
        }
        rest = after;
    }
    if rest.is_empty() {
        return None;
    }
    Some((rest, &[]))
}

/// Whether the text has no word.
pub(crate) fn is_blank(text: &[u8]) -> bool
    ensures { IsTrue result ↔ (tokens text.now ≡ []) }
{
    next_word(text).is_none()
}
