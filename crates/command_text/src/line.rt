//! A line of input.

ghost use Rattle.std.specs.Prelude.{◌≡◌, ℕ, List, ◌∷◌, codes, IfSome};
ghost use Rattle.command_text.specs.Lines.{IsReading, are_silent, tokens};

use crate::command::{read_command, read_deliver};
use crate::limits::MAX_LINE;
use crate::words::next_word;
use net_conf::Refusal;
use sim_event::Event;
use std::alloc::Global;

/// The event that a line spells, without its end: the first word names the command, and words are parted by spaces.
/// None for a blank line and for a comment, whose first word begins with `#`. Over 4,096 bytes the line is a fault of
/// syntax, whatever it holds. Only the path and the communities of a fed route take memory; where they want it, the
/// line is tested to its end all the same.
pub fn read_line(alloc: Global, line: &[u8]) -> Result<Option<Event>, Refusal>
    ensures { IsReading line.now result }
{
    if line.len() > MAX_LINE {
        return Err(Refusal::Syntax);
    }
    if let Some(words) = behind_deliver(line) {
        return Ok(Some(read_deliver(words)?));
    }
    let Some((first, rest)) = next_word(line) else {
        return Ok(None);
    };
    if is_comment(first) {
        return Ok(None);
    }
    Ok(Some(read_command(alloc, first, rest)?))
}

/// What stands behind `deliver` and one space at the head of the line, as most deliveries are written. Other lines are
/// read by their first word.
fn behind_deliver(line: &[u8]) -> Option<&[u8]>
    ensures { IfSome result (λ words. tokens line.now ≡ codes "deliver" ∷ tokens words.now) }
{
    match line {
        [b'd', b'e', b'l', b'i', b'v', b'e', b'r', b' ', words @ ..] => Some(words),
        _ => None,
    }
}

/// Whether a line with this first word is a comment.
fn is_comment(first: &[u8]) -> bool
    ensures { (words : List (List ℕ)) → result ≡ are_silent (first.now ∷ words) }
{
    first.first() == Some(&b'#')
}
