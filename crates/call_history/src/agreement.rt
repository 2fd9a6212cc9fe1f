//! Whether notes are a seat's calls.

ghost use Rattle.std.specs.Prelude.{◌≡◌, ◌↔◌, map, IsTrue};
ghost use Rattle.reference_machine.specs.Histories.{call_of, calls_of};
ghost use Rattle.call_history.specs.Written.{caller_of};

use crate::same::Same;
use sim_event::{Call, Entry};

/// Whether these are the calls of the seat of this number in the history, of which each entry's seat is given apart.
pub(crate) fn agrees(entries: &[Entry], callers: &[u8], number: u8, notes: &[Call]) -> bool
    requires { callers.now ≡ map caller_of entries.now }
    ensures { IsTrue result ↔ (calls_of number entries.now ≡ notes.now) }
{
    let mut next = 0;
    for (index, caller) in callers.iter().enumerate() {
        let entry = &entries[index];
        if *caller == number {
            if next >= notes.len() || !is_of(&notes[next], entry) {
                return false;
            }
            next += 1;
        }
    }
    next == notes.len()
}

/// Whether the entry is of this call.
fn is_of(call: &Call, entry: &Entry) -> bool
    ensures { IsTrue result ↔ (call_of entry.now ≡ call.now) }
{
    entry.event.is_same(&call.event) && entry.reply.is_same(&call.reply)
}
