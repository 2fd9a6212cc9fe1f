//! Numbers joined by commas, each above the one before it.

ghost use Rattle.std.specs.Prelude.{◌↔◌, IsTrue};
ghost use Rattle.std.specs.Fmt.{decimal};
ghost use Rattle.command_text.specs.Ascending.{IsFrom, HasAscending};
ghost use Rattle.command_text.specs.Joined.{HasOne};
ghost use Rattle.command_text.specs.Reading.{Reads};

use decimal::{cut_at, read_decimal};

/// Whether the text spells numbers joined by commas, each above the one before it, and the first not below the least.
/// It takes no memory.
pub(crate) fn are_ascending(text: &[u8], least: u64) -> bool
    ensures { IsTrue result ↔ HasAscending least text.now }
{
    let mut low = least;
    let mut rest = text;
    while let Some((first, after)) = cut_at(rest, b',') {
        let Some(number) = number_from(low, first) else {
            return false;
        };
        low = u64::from(number) + 1;
        rest = after;
    }
    is_from(low, rest)
}

/// A number that is not below the least.
pub(crate) fn number_from(least: u64, text: &[u8]) -> Option<u32>
    ensures { Reads (IsFrom least) decimal text.now result }
{
    let number = read_decimal(text)?;
    if u64::from(number) < least {
        return None;
    }
    Some(number)
}

/// Whether the text spells a number that is not below the least.
fn is_from(least: u64, text: &[u8]) -> bool
    ensures { IsTrue result ↔ HasOne (IsFrom least) decimal text.now }
{
    number_from(least, text).is_some()
}
