//! The line of a call.

ghost use Rattle.std.specs.Prelude.{◌≡◌, ◌↔◌, ◌++◌, ◌∷◌, ℕ, ◌<◌, List, codes, IfSome, IfNone, IsTrue};
ghost use Rattle.std.specs.Fmt.{decimal};
ghost use Rattle.log_replay.specs.Reading.{IsSpaced, ReadsCall, ReadsCommand};

use command_text::{one_meaning, read_line};
use decimal::{cut_at, read_decimal};
use log_text::Version;
use net_conf::Refusal;
use sim_event::Event;
use std::alloc::{AllocError, Global};

/// The event of a call's line, where the version has a form for it. None where the line is no call, or the version has
/// none; want of memory only where the line is a call.
pub(crate) fn read_call(
    alloc: Global,
    version: Version,
    line: &[u8],
) -> Result<Option<Event>, AllocError>
    ensures { ReadsCall version line.now result }
{
    let event = match read_any_call(alloc, line)? {
        Some(event) => event,
        None => return Ok(None),
    };
    if version.has_form(&event) {
        return Ok(Some(event));
    }
    one_meaning();
    Ok(None)
}

/// The event of a call's line: `@`, the number of a seat, and a command with single spaces. None where the line is no
/// call; want of memory only where it is one.
fn read_any_call(alloc: Global, line: &[u8]) -> Result<Option<Event>, AllocError>
    ensures { ReadsCall Version.Two line.now result }
{
    match command_of(line) {
        Some(command) => read_command(alloc, command),
        None => Ok(None),
    }
}

/// What follows the number of a seat.
fn command_of(line: &[u8]) -> Option<&[u8]>
    ensures found { IfSome result (λ command. (seat : ℕ) × (seat < 256) ×
        (line.now ≡ codes "@" ++ decimal seat ++ codes " " ++ command.now)) }
    ensures none { IfNone result ((seat : ℕ) (command : List ℕ) → seat < 256 →
        line.now ≡ codes "@" ++ decimal seat ++ codes " " ++ command → ⊥) }
{
    let rest = after_sign(line)?;
    let (seat, command) = cut_at(rest, b' ')?;
    if !is_seat(seat) {
        return None;
    }
    Some(command)
}

/// What follows the sign of a call.
fn after_sign(line: &[u8]) -> Option<&[u8]>
    ensures found { IfSome result (λ rest. line.now ≡ 64 ∷ rest.now) }
    ensures none { IfNone result ((rest : List ℕ) → line.now ≡ 64 ∷ rest → ⊥) }
{
    match line {
        [b'@', rest @ ..] => Some(rest),
        _ => None,
    }
}

/// Whether the text is the number of a seat.
fn is_seat(text: &[u8]) -> bool
    ensures { IsTrue result ↔ ((seat : ℕ) × (seat < 256) × (text.now ≡ decimal seat)) }
{
    match read_decimal(text) {
        Some(seat) => seat < 256,
        None => false,
    }
}

/// The event that a command with single spaces spells.
fn read_command(alloc: Global, command: &[u8]) -> Result<Option<Event>, AllocError>
    ensures { ReadsCommand command.now result }
{
    if !is_spaced(command) {
        return Ok(None);
    }
    match read_line(alloc, command) {
        Ok(event) => Ok(event),
        Err(refusal) if refusal == Refusal::Memory => Err(AllocError),
        Err(_) => Ok(None),
    }
}

/// Whether words stand in the text with one space between each and the next.
fn is_spaced(text: &[u8]) -> bool
    ensures { IsTrue result ↔ IsSpaced text.now }
{
    let mut rest = text;
    while let Some((word, after)) = cut_at(rest, b' ') {
        if word.is_empty() {
            return false;
        }
        rest = after;
    }
    !rest.is_empty()
}
