//! An engineer: a script whose lines are called from a seat, from the first to the last.

ghost use Rattle.std.specs.Prelude.{◌≡◌, ◌↔◌, Some, None, IsTrue, IfOk, if◌then◌else◌};
ghost use Rattle.room.specs.Books.{is_memory};
ghost use Rattle.team_run.specs.Playing.{HasPlayed, IsCalled, IsLineCalled};

use crate::told::{Told, ToldLine};
use cell_engine::Cell;
use command_text::read_line;
use desk::{Desk, Seat};
use net_conf::Refusal;
use prefix_table::PrefixTable;
use route_select::Selector;
use script_files::{Line, Lines, Script};
use sim_event::Reply;
use std::alloc::{AllocError, Global};
use std::marker::Model;
use std::sync::Wait;
use std::sync::ledger::Ledger;
use std::thread::Threads;

/// An engineer: the number of the file, from 1 on, its script, and the seat.
#[derive(Drop)]
pub(crate) struct Engineer<L: Ledger> {
    pub(crate) file: u64,
    pub(crate) script: Script,
    pub(crate) seat: Seat<L>,
}

impl<L: Ledger> Model for Engineer<L> {
    ghost use Rattle.team_run.specs.Playing.{Engineering};

    ghost Value = { Engineering };

    ghost view = { λ e. record { file = e.file; script = e.script; seat = e.seat } };
}

/// An engineer who has called all lines: the seat, and the lines that made no call.
#[derive(Drop)]
pub(crate) struct Played<'t, L: Ledger> {
    pub(crate) seat: Seat<L>,
    pub(crate) told: Told<'t>,
}

impl<'t, L: Ledger> Model for Played<'t, L> {
    ghost use Rattle.team_run.specs.Playing.{PlayedBook};

    ghost Value = { PlayedBook };

    ghost view = { λ p. record { seat = p.seat; told = p.told } };
}

/// Calls each line of the script in turn, and takes down those that made no call. Where there is no memory for that it
/// ends.
pub(crate) fn play<
    't,
    S: Selector + Send + Sync + Drop,
    T: PrefixTable<Cell<S>> + Drop,
    L: Ledger,
    R: Threads + Wait + Sync,
>(
    rt: &R,
    alloc: Global,
    desk: &Desk<S, T, L>,
    all: &'t boxcar::Vec<ToldLine>,
    engineer: Engineer<L>,
) -> Result<Played<'t, L>, AllocError>
    ensures { IfOk result (HasPlayed engineer) }
{
    let Engineer {
        file,
        script,
        mut seat,
    } = engineer;
    let mut told = Told::new(alloc, all);
    let mut lines = Lines::of(script.as_bytes());
    while let Some(line) = lines.next() {
        let uncalled = call(rt, alloc, desk, &mut seat, file, line);
        told.add(rt, uncalled)?;
    }
    Ok(Played { seat, told })
}

/// Calls the line of the file from the seat. Where that has to be told, as it makes no call: what is told of it.
fn call<
    S: Selector + Send + Sync + Drop,
    T: PrefixTable<Cell<S>> + Drop,
    L: Ledger,
    R: Threads + Wait + Sync,
>(
    rt: &R,
    alloc: Global,
    desk: &Desk<S, T, L>,
    seat: &mut Seat<L>,
    file: u64,
    line: Line<'_>,
) -> Option<ToldLine>
    ensures { IsLineCalled file line.entry.number seat.old line.entry.bytes.now result seat.new }
{
    let number = line.number;
    match call_line(rt, alloc, desk, seat, line.bytes) {
        Some(refusal) => Some(ToldLine {
            file,
            line: number,
            refusal,
        }),
        None => None,
    }
}

/// Calls the line from the seat. Where that has to be told, as it makes no call: why not.
fn call_line<
    S: Selector + Send + Sync + Drop,
    T: PrefixTable<Cell<S>> + Drop,
    L: Ledger,
    R: Threads + Wait + Sync,
>(rt: &R, alloc: Global, desk: &Desk<S, T, L>, seat: &mut Seat<L>, line: &[u8]) -> Option<Refusal>
    ensures { IsCalled seat.old line.now result seat.new }
{
    match read_line(alloc, line) {
        Ok(Some(event)) => want_of_memory(&desk.call(rt, seat, event)),
        Ok(None) => None,
        Err(refusal) => Some(refusal),
    }
}

/// The refusal of a call, if it was refused for want of memory.
fn want_of_memory(reply: &Reply) -> Option<Refusal>
    ensures { result ≡ if is_memory reply.now then Some Refusal.Memory else None }
{
    match reply {
        Reply::Refused(refusal) if is_of_memory(*refusal) => Some(*refusal),
        Reply::Refused(_) | Reply::Done | Reply::Took(_, _) | Reply::Report(_) => None,
    }
}

/// Whether the refusal is want of memory.
fn is_of_memory(refusal: Refusal) -> bool
    ensures { IsTrue result ↔ (refusal ≡ Refusal.Memory) }
{
    refusal == Refusal::Memory
}
