//! AS numbers that stand at the front of a text, joined by commas, with one space behind the last, as in most paths:
//! read in one pass. What is not found so is read by its word.

ghost use Rattle.std.specs.Prelude.{◌≡◌, ℕ, List, ◌∷◌, ◌++◌, IfOk, IfSome};
ghost use Rattle.std.specs.Fmt.{decimal};
ghost use Rattle.sim_event.specs.Events.{IsAsNumber};
ghost use Rattle.command_text.specs.Paths.{AreNumbers};

use path_attr::Asn;
use seq::Seq;
use std::alloc::{AllocError, Global};

/// The numbers before the first space, and the text after that.
pub(crate) fn front_numbers(
    alloc: Global,
    text: &[u8],
) -> Result<Option<(Seq<Asn>, &[u8])>, AllocError>
    ensures { IfOk result (λ made. IfSome made (λ next. (word : List ℕ) × AreNumbers next.0 word
        × (text.now ≡ word ++ (32 ∷ next.1.now)))) }
{
    let mut numbers = Seq::new(alloc);
    let mut rest = text;
    while let Some(front) = front_number(rest) {
        numbers.push(front.number)?;
        if front.end == b' ' {
            return Ok(Some((numbers, front.after)));
        }
        if front.end != b',' {
            return Ok(None);
        }
        rest = front.after;
    }
    Ok(None)
}

/// A number at the front of a text, the byte behind it, and the text after that.
#[derive(Clone, Copy)]
struct FrontNumber<'a> {
    number: Asn,
    end: u8,
    after: &'a [u8],
}

/// The number at the front of the text, where a byte stands behind it.
fn front_number(text: &[u8]) -> Option<FrontNumber<'_>>
    ensures number { IfSome result (λ front. IsAsNumber front.number) }
    ensures found { IfSome result (λ front. text.now ≡ decimal front.number ++ (front.end ∷ front.after.now)) }
{
    let mut value: u32 = 0;
    for i in 0..text.len() {
        let byte = text[i];
        if !byte.is_ascii_digit() {
            if text[0] == b'0' {
                return None;
            }
            return Some(FrontNumber {
                number: Asn::new(value)?,
                end: byte,
                after: &text[i + 1..],
            });
        }
        value = value.checked_mul(10)?.checked_add(u32::from(byte - b'0'))?;
    }
    None
}
