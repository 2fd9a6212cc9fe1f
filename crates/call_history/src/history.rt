//! The history of all calls.

ghost use Rattle.std.specs.Prelude.{◌≡◌, ◌+◌, ◌<◌, ◌≤◌, ◌∷◌, ◌++◌, ◌↔◌, ◌⊎◌, [], length, vec_len, vec_capacity, IsTrue, OnOk, OnErr};
ghost use Rattle.reference_machine.specs.Histories.{calls_of};
ghost use Rattle.call_history.specs.Written.{HistoryBook};

use crate::agreement::agrees;
use crate::draft::Draft;
use sim_event::{Call, Entry};
use std::alloc::{AllocError, Global};
use std::marker::Model;

/// The calls that were made, the first first. The numbers of their seats stand in a list of their own beside them, so
/// that the calls of one seat are found without a look at those of all others. Contracts see the entries, and for how
/// many calls more there is space.
#[derive(Drop)]
pub struct History {
    entries: Vec<Entry>,
    /// The number of the seat of each entry.
    callers: Vec<u8>,
}

impl Model for History {
    ghost use Rattle.std.specs.Prelude.{◌≡◌, ◌-◌, map, min, vec_len, vec_capacity};
    ghost use Rattle.call_history.specs.Written.{HistoryBook, caller_of};

    ghost Value = { HistoryBook };

    ghost view = { λ h. record {
      entries = h.entries.items;
      space = min (vec_capacity h.entries - vec_len h.entries) (vec_capacity h.callers - vec_len h.callers);
    } };

    ghost invariant = { λ h. h.callers.items ≡ map caller_of h.entries.items };
}

impl History {
    /// No calls, and space for none.
    pub fn new(alloc: Global) -> Self
        ensures { result ≡ record { entries = []; space = 0 } }
    {
        History {
            entries: Vec::new(alloc),
            callers: Vec::new(alloc),
        }
    }

    /// How many calls were made.
    pub fn len(&self) -> usize
        ensures { result ≡ length self.now.entries }
    {
        self.entries.len()
    }

    /// The calls, the first first.
    pub fn into_entries(self) -> Vec<Entry>
        ensures { result.items ≡ self.entries }
    {
        let History { entries, callers } = self;
        drop(callers);
        entries
    }

    /// Makes space for one call more, here and in the notes. It fails for want of memory, and only where there was no
    /// space here or in the notes. Where there is space, all calls and that one can be counted in 64 bits.
    pub fn make_space(&mut self, notes: &mut Vec<Call>) -> Result<(), AllocError>
        ensures entries { self.new.entries ≡ self.old.entries }
        ensures notes { notes.new.items ≡ notes.old.items }
        ensures here { OnOk result (1 ≤ self.new.space) }
        ensures in_notes { OnOk result (vec_len notes.new < vec_capacity notes.new) }
        ensures few { OnOk result (length self.new.entries < 18446744073709551615) }
        ensures full { OnErr result ((self.old.space ≡ 0) ⊎ (vec_len notes.old ≡ vec_capacity notes.old)) }
    {
        self.reserve()?;
        notes.reserve(1)
    }

    /// Makes space for one call more. It fails for want of memory, and only where there was none.
    fn reserve(&mut self) -> Result<(), AllocError>
        ensures entries { self.new.entries ≡ self.old.entries }
        ensures space { OnOk result (1 ≤ self.new.space) }
        ensures few { OnOk result (length self.new.entries < 18446744073709551615) }
        ensures full { OnErr result (self.old.space ≡ 0) }
    {
        self.entries.reserve(1)?;
        self.callers.reserve(1)
    }

    /// Writes the call down, here and in the notes, where there is space.
    pub fn write(&mut self, notes: &mut Vec<Call>, draft: Draft)
        requires here { 1 ≤ self.old.space }
        requires in_notes { vec_len notes.old < vec_capacity notes.old }
        ensures entries { self.new.entries ≡ self.old.entries ++ draft.entry ∷ [] }
        ensures space { self.new.space + 1 ≡ self.old.space }
        ensures notes { notes.new.items ≡ notes.old.items ++ draft.call ∷ [] }
    {
        let Draft { entry, call } = draft;
        self.callers.push_reserved(entry.seat);
        self.entries.push_reserved(entry);
        notes.push_reserved(call);
    }

    /// Whether these are the calls of the seat of this number.
    pub fn agrees(&self, number: u8, notes: &[Call]) -> bool
        ensures { IsTrue result ↔ (calls_of number self.now.entries ≡ notes.now) }
    {
        agrees(
            self.entries.as_slice(),
            self.callers.as_slice(),
            number,
            notes,
        )
    }
}
