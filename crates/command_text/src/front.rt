//! An address or a prefix that stands at the front of a text, with one space behind it, as most do: read in one pass.
//! What is not found so is read by its word.

ghost use Rattle.std.specs.Prelude.{◌≡◌, ℕ, ◌+◌, ◌<◌, List, [], ◌∷◌, ◌++◌, IfSome};
ghost use Rattle.std.specs.Fmt.{decimal};
ghost use Rattle.net_prefix.specs.Address.{addr_text};
ghost use Rattle.net_prefix.specs.Prefix.{prefix_text};
ghost use Rattle.sim_event.specs.Events.{IsAddress, IsPrefix};

use net_prefix::{Addr, Prefix};

/// The address before the first space, and the text after that.
pub(crate) fn front_address(text: &[u8]) -> Option<(Addr, &[u8])>
    ensures address { IfSome result (λ next. IsAddress next.0) }
    ensures found { IfSome result (λ next. text.now ≡ addr_text next.0 ++ (32 ∷ next.1.now)) }
{
    address_before(text, b' ')
}

/// The prefix before the first space, and the text after that.
pub(crate) fn front_prefix(text: &[u8]) -> Option<(Prefix, &[u8])>
    ensures prefix { IfSome result (λ next. IsPrefix next.0) }
    ensures found { IfSome result (λ next. text.now ≡ prefix_text next.0 ++ (32 ∷ next.1.now)) }
{
    let (addr, rest) = address_before(text, b'/')?;
    let (len, rest) = octet_before(rest, b' ')?;
    Some((Prefix::new(addr, len)?, rest))
}

/// The address that the text is.
pub(crate) fn whole_address(text: &[u8]) -> Option<Addr>
    ensures address { IfSome result (λ addr. IsAddress addr) }
    ensures found { IfSome result (λ addr. text.now ≡ addr_text addr) }
{
    let (first, second, third, rest) = upper_octets(text)?;
    let fourth = octet(rest)?;
    Some(Addr(u32::from_be_bytes([first, second, third, fourth])))
}

/// The address before this byte, and what stands after the byte.
fn address_before(text: &[u8], end: u8) -> Option<(Addr, &[u8])>
    ensures address { IfSome result (λ next. IsAddress next.0) }
    ensures found { IfSome result (λ next. text.now ≡ addr_text next.0 ++ (end ∷ next.1.now)) }
{
    let (first, second, third, rest) = upper_octets(text)?;
    let (fourth, rest) = octet_before(rest, end)?;
    Some((
        Addr(u32::from_be_bytes([first, second, third, fourth])),
        rest,
    ))
}

/// The first three octets of an address, and what stands after the third dot.
#[inline(always)]
fn upper_octets(text: &[u8]) -> Option<(u8, u8, u8, &[u8])>
    ensures octets { IfSome result (λ next. (next.0 < 256) × (next.1 < 256) × (next.2 < 256)) }
    ensures found { IfSome result (λ next. text.now ≡ decimal next.0 ++ (46 ∷ decimal next.1 ++ (46 ∷ decimal next.2
        ++ (46 ∷ next.3.now)))) }
{
    let (first, rest) = octet_before(text, b'.')?;
    let (second, rest) = octet_before(rest, b'.')?;
    let (third, rest) = octet_before(rest, b'.')?;
    Some((first, second, third, rest))
}

/// The octet that the text is.
fn octet(text: &[u8]) -> Option<u8>
    ensures { IfSome result (λ n. text.now ≡ decimal n) }
{
    match text {
        [ones] => one_digit(*ones),
        [tens, ones] => two_digits(*tens, *ones),
        [hundreds, tens, ones] => three_digits(*hundreds, *tens, *ones),
        _ => None,
    }
}

/// The octet before this byte, and what stands after the byte.
#[inline(always)]
fn octet_before(text: &[u8], end: u8) -> Option<(u8, &[u8])>
    ensures octet { IfSome result (λ next. next.0 < 256) }
    ensures found { IfSome result (λ next. text.now ≡ decimal next.0 ++ (end ∷ next.1.now)) }
{
    match text {
        [ones, last, rest @ ..] if *last == end => Some((one_digit(*ones)?, rest)),
        [tens, ones, last, rest @ ..] if *last == end => Some((two_digits(*tens, *ones)?, rest)),
        [hundreds, tens, ones, last, rest @ ..] if *last == end => {
            Some((three_digits(*hundreds, *tens, *ones)?, rest))
        }
        _ => None,
    }
}

/// The number of one digit.
fn one_digit(ones: u8) -> Option<u8>
    ensures { IfSome result (λ n. ones ∷ [] ≡ decimal n) }
{
    digit(ones)
}

/// The value of a digit.
fn digit(byte: u8) -> Option<u8>
    ensures below { IfSome result (λ n. n < 10) }
    ensures found { IfSome result (λ n. byte ≡ 48 + n) }
{
    if byte.is_ascii_digit() {
        Some(byte - b'0')
    } else {
        None
    }
}

/// The number of two digits.
fn two_digits(tens: u8, ones: u8) -> Option<u8>
    ensures range { IfSome result (λ n. (9 < n) × (n < 100)) }
    ensures found { IfSome result (λ n. tens ∷ ones ∷ [] ≡ decimal n) }
{
    let (tens, ones) = (digit(tens)?, digit(ones)?);
    if tens == 0 {
        return None;
    }
    Some(tens * 10 + ones)
}

/// The number of three digits, where it is an octet.
fn three_digits(hundreds: u8, tens: u8, ones: u8) -> Option<u8>
    ensures { IfSome result (λ n. hundreds ∷ tens ∷ ones ∷ [] ≡ decimal n) }
{
    let (upper, last) = (two_digits(hundreds, tens)?, digit(ones)?);
    let number = u16::from(upper) * 10 + u16::from(last);
    if number > 255 {
        return None;
    }
    Some(number as u8)
}
