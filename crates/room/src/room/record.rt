//! The end of a room.

ghost use Rattle.std.specs.Prelude.{◌≡◌, ◌↔◌, IsTrue};
ghost use Rattle.reference_machine.specs.Histories.{IsLegal};
ghost use Rattle.room.specs.Closing.{times, IsEachOnce, AllAgree};

use crate::room::Room;
use crate::room::seat::Seat;
use call_history::History;
use cell_engine::Cell;
use prefix_table::PrefixTable;
use route_select::Chosen;
use sim_event::Entry;
use std::marker::Model;
use std::sync::ledger::Ledger;
use thiserror::Error;

/// Why a room was not closed. No contract says what `Display` writes.
#[derive(Clone, Copy, Debug, PartialEq, Eq, Error)]
pub enum Fault {
    /// The seats' numbers are not each of the room's once.
    #[error("the seats are not each of the room's, once")]
    MissingSeat,
    /// The notes of a seat are not its calls in the history.
    #[error("the notes of a seat are not its calls in the history")]
    BookDiffers,
}

/// A room that was not closed, with the seats. It hands both back, so it is no `Error` itself: `fault` is one.
#[derive(Drop)]
pub struct CloseFault<S: Chosen, T: PrefixTable<Cell<S>>, L: Ledger> {
    pub fault: Fault,
    pub room: Room<S, T, L>,
    pub seats: Vec<Seat<L>>,
}

/// A legal history that is complete.
#[derive(Drop)]
pub struct Record {
    history: Vec<Entry>,
}

impl Model for Record {
    ghost use Rattle.std.specs.Prelude.{List};
    ghost use Rattle.sim_event.specs.declared.entry.Entry.{Entry};
    ghost use Rattle.reference_machine.specs.Histories.{IsLegal};

    ghost Value = { List Entry };

    ghost view = { λ r. r.history.items };

    ghost invariant = { λ r. IsLegal r.history.items };
}

impl Record {
    /// A legal history.
    pub(super) fn of(history: Vec<Entry>) -> Record
        requires { IsLegal history.items }
        ensures { result ≡ history.items }
    {
        Record { history }
    }

    /// The history, the first call first. It is legal.
    pub fn entries(&self) -> &[Entry]
        ensures entries { result.now ≡ self.now }
        ensures legal { IsLegal result.now }
    {
        self.history.as_slice()
    }
}

/// Whether the seats' numbers are each of 0 to `count` - 1 once.
pub(super) fn is_each_once<L: Ledger>(seats: &[Seat<L>], count: u16) -> bool
    ensures { IsTrue result ↔ IsEachOnce count seats.now }
{
    if seats.len() != usize::from(count) {
        return false;
    }
    for number in 0..count {
        if times(seats, number) != 1 {
            return false;
        }
    }
    true
}

/// How many of the seats have the number.
fn times<L: Ledger>(seats: &[Seat<L>], number: u16) -> usize
    ensures { result ≡ times number seats.now }
{
    let mut found = 0;
    for seat in seats {
        if u16::from(seat.number()) == number {
            found += 1;
        }
    }
    found
}

/// Whether the notes of each seat are its calls in the history.
pub(super) fn all_agree<L: Ledger>(history: &History, seats: &[Seat<L>]) -> bool
    ensures { IsTrue result ↔ AllAgree history.now.entries seats.now }
{
    for seat in seats {
        if !history.agrees(seat.number(), seat.notes()) {
            return false;
        }
    }
    true
}
