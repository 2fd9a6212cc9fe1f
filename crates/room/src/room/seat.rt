//! A seat: from where one makes calls.

ghost use Rattle.std.specs.Prelude.{◌≡◌, ◌≤◌, ◌+◌, vec_len, IfOk, OnOk};
ghost use Rattle.room.specs.Books.{blank_seats};
ghost use Rattle.room.specs.Closing.{counted};

use sim_event::Call;
use std::alloc::{AllocError, Global};
use std::marker::Model;
use std::sync::ledger::{Ledger, Share};

/// A seat in the room of the same name: who has it makes calls, and has notes of them. Contracts see its number, how
/// many calls it made, and the notes.
#[derive(Drop)]
pub struct Seat<L: Ledger> {
    pub(super) number: u8,
    pub(super) count: u64,
    pub(super) notes: Vec<Call>,
    pub(super) share: Share<L>,
}

impl<L: Ledger> Model for Seat<L> {
    ghost use Rattle.std.specs.Prelude.{◌≡◌, length};
    ghost use Rattle.room.specs.Books.{SeatBook};

    ghost Value = { SeatBook };

    ghost view = { λ s. record { number = s.number; count = s.count; notes = s.notes.items } };

    ghost invariant = { λ s. (s.count ≡ length s.notes.items) × (s.share.amount ≡ s.count) × (s.share.parts ≡ 1) };
}

impl<L: Ledger> Seat<L> {
    ghost use Rattle.std.specs.Prelude.{◌≡◌, length};

    /// Its number in the room.
    pub fn number(&self) -> u8
        ensures { result ≡ self.now.number }
    {
        self.number
    }

    /// How many calls it made.
    pub fn count(&self) -> u64
        ensures { result ≡ self.now.count }
    {
        self.count
    }

    /// Its calls, each with the reply that it got, the first first.
    pub fn notes(&self) -> &[Call]
        ensures notes { result.now ≡ self.now.notes }
        ensures counted { self.now.count ≡ length self.now.notes }
    {
        self.notes.as_slice()
    }
}

/// The seats of a new room: their numbers are 0 to `seats` - 1, and each has a part.
pub(super) fn all_of<L: Ledger>(
    alloc: Global,
    seats: u16,
    rest: &mut Share<L>,
) -> Result<Vec<Seat<L>>, AllocError>
    requires most { seats ≤ 256 }
    requires parts { rest.old.parts ≡ 256 }
    requires amount { rest.old.amount ≡ 0 }
    ensures seats { IfOk result (λ all. all.items ≡ blank_seats seats) }
    ensures parts { OnOk result (rest.new.parts + seats ≡ 256) }
    ensures amount { rest.new.amount ≡ 0 }
{
    let mut all = Vec::new(alloc);
    for number in 0..seats {
        let share = rest.split_off(1, 0);
        all.push(Seat {
            number: number as u8,
            count: 0,
            notes: Vec::new(alloc),
            share,
        })?;
    }
    Ok(all)
}

/// The parts of all together.
pub(super) fn together<L: Ledger>(rest: Share<L>, seats: Vec<Seat<L>>) -> Share<L>
    ensures parts { result.parts ≡ rest.parts + vec_len seats }
    ensures amount { result.amount ≡ rest.amount + counted seats.items }
{
    let mut all = rest;
    for seat in seats {
        let Seat {
            number: _,
            count: _,
            notes: _,
            share,
        } = seat;
        all.merge(share);
    }
    all
}
