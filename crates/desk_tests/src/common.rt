//! What several modules use: the desk of the program's engine, and calls and replies as text.

ghost use Rattle.std.specs.Prelude.{◌≡◌, ◌<◌};
ghost use Rattle.desk.specs.Desks.{IsDeskLedger};

use cell_engine::Cell;
use command_text::read_line;
use desk::{Desk, Done, Gate, OpenFault, Record, Room, Seat};
use log_replay::{Replayed, replay};
use log_text::write_log;
use prefix_table::{SortedTable, TrieTable};
use reply_text::write_reply;
use route_select::{FilterCell, GroupCell};
use sim_core::Sim;
use sim_event::Reply;
use std::alloc::Global;
use std::fmt::Debug;
use std::process::Abort;
use std::sync::Wait;
use std::sync::ledger::{Blank, Ledger};
use std::thread::Threads;
use watched::{Input, LineBuffer, Output, Reader, Writer};

/// The cells that keep groups of one neighbouring AS.
pub type Tries = TrieTable<Cell<GroupCell>>;

/// The engine with tries, whose cells keep groups: this is what `bgpsim` runs.
pub type TrieMachine = Sim<GroupCell, Tries>;

/// The engine with sorted tables, whose cells choose when they are asked.
pub type SortedMachine = Sim<FilterCell, SortedTable<Cell<FilterCell>>>;

/// A desk of the engine that keeps such cells in tries.
pub type GroupDesk<L> = Desk<GroupCell, Tries, L>;

/// The room of such a desk.
pub type GroupRoom<L> = Room<GroupCell, Tries, L>;

/// A desk with so many seats and shards.
pub fn opened<L: Ledger, R: Abort>(
    rt: &R,
    alloc: Global,
    seats: u16,
    shards: u64,
    blank: Blank,
) -> (GroupDesk<L>, Vec<Seat<L>>)
    requires ledger { IsDeskLedger blank.name blank.parts L.name L.parts }
    ensures { result.0.shards ≡ shards }
{
    let opened: Result<(GroupDesk<L>, Vec<Seat<L>>), OpenFault> = Desk::open(
        alloc, None, seats, shards, blank,
    );
    opened.ok().expect(rt, "a desk")
}

/// Fails, and shows both, unless they are equal. A call is much less to prove than `assert_eq!` in its place.
pub fn equal<T: PartialEq + Debug + Drop>(rt: &impl Abort, found: T, wanted: T) {
    assert_eq!(rt; found, wanted);
}

/// A command, and the text of its reply.
pub type Asked<'a> = (&'a str, &'a str);

/// A router with a message for two others, whose shards differ.
pub const STAR: [Asked<'static>; 8] = [
    ("router 1.0.0.1 1", "ok\n"),
    ("router 2.0.0.2 2", "ok\n"),
    ("router 3.0.0.1 3", "ok\n"),
    ("link 1.0.0.1 2.0.0.2 5", "ok\n"),
    ("link 1.0.0.1 3.0.0.1 5", "ok\n"),
    ("join 1.0.0.1 2.0.0.2", "ok\n"),
    ("join 1.0.0.1 3.0.0.1", "ok\n"),
    ("origin 1.0.0.1 10.0.0.0/8", "ok\n"),
];

/// Holds nobody up.
pub struct Open;

impl Gate for Open {
    fn taken(&self, _worker: usize, _n: u64) {}

    fn worked(&self, _worker: usize, _n: u64) {}

    fn may_hold(&self) -> bool {
        false
    }
}

/// Takes a job, and works it.
pub fn worked<L: Ledger, R: Wait>(rt: &R, desk: &GroupDesk<L>) -> Option<Done<GroupCell>>
    requires { 0 < desk.now.shards }
{
    desk.take(rt, 0).ok()??.work().ok()
}

/// Makes the calls from the seat, one after another. Whether each gets its reply.
pub fn are_answered<L: Ledger, R: Threads + Wait + Sync>(
    rt: &R,
    alloc: Global,
    desk: &GroupDesk<L>,
    seat: &mut Seat<L>,
    calls: &[Asked<'_>],
) -> bool {
    for asked in calls {
        if !is_answered(rt, alloc, desk, seat, asked.0, asked.1) {
            return false;
        }
    }
    true
}

/// Makes the call from the seat. Whether it gets the reply of this text.
pub fn is_answered<L: Ledger, R: Threads + Wait + Sync>(
    rt: &R,
    alloc: Global,
    desk: &GroupDesk<L>,
    seat: &mut Seat<L>,
    command: &str,
    text: &str,
) -> bool {
    let Ok(Some(event)) = read_line(alloc, command.as_bytes()) else {
        return false;
    };
    let reply = desk.call(rt, seat, event);
    let is_wanted = is_text(alloc, &reply, text);
    drop(reply);
    is_wanted
}

/// Whether this is the text of the reply.
fn is_text(alloc: Global, reply: &Reply, text: &str) -> bool {
    let mut output = Output::new(Writer::new(Vec::new(alloc)));
    if write_reply(reply, &mut output).is_err() {
        return false;
    }
    output.into_inner().into_inner().as_slice() == text.as_bytes()
}

/// What the record's log is found to be, by the plainest form of the engine.
pub fn replayed<R: Threads + Sync>(rt: &R, alloc: Global, record: &Record) -> Option<Replayed> {
    let log = log_of(alloc, record)?;
    let buffer = LineBuffer::new(alloc).ok()?;
    let mut machine = SortedMachine::new(alloc, None);
    let found = replay(
        rt,
        alloc,
        buffer,
        &mut Input::new(Reader::new(log.as_slice())),
        &mut machine,
    )
    .ok();
    drop((machine, log));
    found
}

fn log_of(alloc: Global, record: &Record) -> Option<Vec<u8>> {
    let mut output = Output::new(Writer::new(Vec::new(alloc)));
    write_log(record.entries(), &mut output).ok()?;
    Some(output.into_inner().into_inner())
}
