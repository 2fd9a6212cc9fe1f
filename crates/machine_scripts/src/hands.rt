//! A room with an engineer and a worker, and what the worker has in hand.

ghost use Rattle.std.specs.Prelude.{◌≡◌, IfOk};
ghost use Rattle.desk.specs.Desks.{IsDeskLedger};

use cell_engine::Cell;
use command_text::read_line;
use desk::{Desk, OpenFault};
use log_text::write_log;
use net_conf::Refusal;
use prefix_table::TrieTable;
use reply_text::{Part, RunFault, write_each, write_numbered, write_refusal, write_reply};
use room::{Audit, CommitFault, Committed, Done, Job, Jobs, Newer, Outcomes, Record, Room, Seat};
use route_select::GroupCell;
use std::alloc::{AllocError, Global};
use std::marker::Brand;
use std::sync::ledger::{Blank, Ledger};
use std::thread::Threads;
use watched::{Output, Sink, WriterFailed};

type Tries = TrieTable<Cell<GroupCell>>;

/// How many jobs are taken at one time at most, as by a worker of a desk.
const JOBS_AT_ONCE: usize = 16;

/// The calls beside commands.
#[derive(Clone, Copy)]
enum Call {
    /// `Room::job`: the job is in hand.
    Job,
    /// `Job::work` of the job that came to hand last: its outcome is in hand in its place.
    Work,
    /// `Room::commit` of the outcome that came to hand last.
    Commit,
    /// `Room::jobs`, `Job::work` of each, and `Room::commit_all` of the outcomes.
    Turns,
    /// `Desk::open` of the largest desk.
    Open,
    /// `Room::decided`.
    Decided,
    /// What the calls have come to.
    Book,
}

/// The call of the word.
fn call_named(word: &[u8]) -> Option<Call> {
    match word {
        b"job" => Some(Call::Job),
        b"work" => Some(Call::Work),
        b"commit" => Some(Call::Commit),
        b"turns" => Some(Call::Turns),
        b"open" => Some(Call::Open),
        b"decided" => Some(Call::Decided),
        b"book" => Some(Call::Book),
        _ => None,
    }
}

/// A room with an engineer and a worker, and what the worker has in hand.
#[derive(Drop)]
pub(crate) struct Hands<L: Ledger> {
    alloc: Global,
    room: Room<GroupCell, Tries, L>,
    engineer: Seat<L>,
    worker: Seat<L>,
    jobs: Vec<Job<GroupCell>>,
    outcomes: Vec<Done<GroupCell>>,
}

impl<L: Ledger> Hands<L> {
    /// In a new room, with nothing in hand.
    pub(crate) fn new(alloc: Global, blank: Blank) -> Result<Self, RunFault>
        requires ledger { IsDeskLedger blank.name blank.parts L.name L.parts }
    {
        let (room, seats) = Room::new(alloc, None, 2, blank)?;
        match both_of(seats) {
            Some((engineer, worker)) => Ok(Hands {
                alloc,
                room,
                engineer,
                worker,
                jobs: Vec::new(alloc),
                outcomes: Vec::new(alloc),
            }),
            None => {
                drop(room);
                Err(RunFault::BookDiffers)
            }
        }
    }

    /// Makes the call of the line, and answers it.
    pub(crate) fn answer<W: Sink>(
        &mut self,
        rt: &(impl Threads + Sync),
        line: &[u8],
        output: &mut Output<W>,
    ) -> Result<(), WriterFailed> {
        match call_named(line) {
            None => self.step(rt, line, output),
            Some(Call::Job) => self.take(output),
            Some(Call::Work) => self.work(output),
            Some(Call::Commit) => self.commit(output),
            Some(Call::Turns) => self.make_turns(output),
            Some(Call::Open) => open_another::<Brand, W>(self.alloc, Blank::new(256), output),
            Some(Call::Decided) => write_numbered(b"decided ", self.room.decided(), output),
            Some(Call::Book) => self.tell(output),
        }
    }

    /// The engineer gives the command.
    fn step<W: Sink>(
        &mut self,
        rt: &(impl Threads + Sync),
        line: &[u8],
        output: &mut Output<W>,
    ) -> Result<(), WriterFailed> {
        match read_line(self.alloc, line) {
            Ok(None) => Ok(()),
            Ok(Some(event)) => {
                let reply = self.room.step(rt, &mut self.engineer, event);
                let told = write_reply(&reply, output);
                drop(reply);
                told
            }
            Err(refusal) => write_refusal(refusal, output),
        }
    }

    /// The worker takes a job.
    fn take<W: Sink>(&mut self, output: &mut Output<W>) -> Result<(), WriterFailed> {
        match self.room.job(0, 1) {
            Ok(Some(job)) => self.keep_job(job, output),
            Ok(None) => output.write(b"none\n"),
            Err(_) => write_refusal(Refusal::Memory, output),
        }
    }

    /// Keeps the job in hand, and tells its ends.
    fn keep_job<W: Sink>(
        &mut self,
        job: Job<GroupCell>,
        output: &mut Output<W>,
    ) -> Result<(), WriterFailed> {
        let (from, to) = job.ends();
        if self.jobs.push(job).is_err() {
            return write_refusal(Refusal::Memory, output);
        }
        let parts = [
            Part::Bytes(b"from "),
            Part::Addr(from),
            Part::Bytes(b" to "),
            Part::Addr(to),
            Part::Bytes(b"\n"),
        ];
        write_each(&parts, output)
    }

    /// The worker works a job, once there is a place for its outcome. One that is handed back is in hand again.
    fn work<W: Sink>(&mut self, output: &mut Output<W>) -> Result<(), WriterFailed> {
        if self.jobs.is_empty() {
            return output.write(b"none\n");
        }
        if self.outcomes.reserve(1).is_err() {
            return write_refusal(Refusal::Memory, output);
        }
        let Some(job) = self.jobs.pop() else {
            return output.write(b"none\n");
        };
        match job.work() {
            Ok(done) => {
                drop(self.outcomes.push(done));
                output.write(b"done\n")
            }
            Err(job) => {
                drop(self.jobs.push(job));
                write_refusal(Refusal::Memory, output)
            }
        }
    }

    /// The worker commits an outcome. One that is handed back is in hand again.
    fn commit<W: Sink>(&mut self, output: &mut Output<W>) -> Result<(), WriterFailed> {
        let Some(done) = self.outcomes.pop() else {
            return output.write(b"none\n");
        };
        let committed = match self.room.commit(&mut self.worker, done) {
            Ok(committed) => committed,
            Err(CommitFault { done }) => {
                drop(self.outcomes.push(done));
                return write_refusal(Refusal::Memory, output);
            }
        };
        let told = match &committed {
            Committed::Delivered(reply) => write_reply(reply, output),
            Committed::Stale(newer) => write_newer(newer, output),
        };
        drop(committed);
        told
    }

    /// The worker makes turns: takes jobs, works them, and commits all their outcomes.
    fn make_turns<W: Sink>(&mut self, output: &mut Output<W>) -> Result<(), WriterFailed> {
        let Ok(jobs) = self.room.jobs(0, 1, JOBS_AT_ONCE) else {
            return write_refusal(Refusal::Memory, output);
        };
        let Ok(outcomes) = outcomes_of(self.alloc, jobs) else {
            return write_refusal(Refusal::Memory, output);
        };
        match self.room.commit_all(&mut self.worker, outcomes) {
            Ok(()) => output.write(b"ok\n"),
            Err(_) => write_refusal(Refusal::Memory, output),
        }
    }

    /// Tells what the calls have come to: how many edits and calls were made, whether each seat's notes agree, and what
    /// is in hand.
    fn tell<W: Sink>(&self, output: &mut Output<W>) -> Result<(), WriterFailed> {
        write_numbered(b"edits ", self.room.version(), output)?;
        write_numbered(b"calls ", self.room.progress().calls, output)?;
        for seat in [&self.engineer, &self.worker] {
            match self.room.audit(seat) {
                Audit::Agrees => write_numbered(b"agrees with notes of ", seat.count(), output)?,
                Audit::Differs => output.write(b"differs\n")?,
            }
        }
        write_numbered(b"jobs ", self.jobs.len() as u64, output)?;
        write_numbered(b"outcomes ", self.outcomes.len() as u64, output)
    }

    /// Closes the room with both seats, and tells its log, and how many routes were decided anew.
    pub(crate) fn close<W: Sink>(self, output: &mut Output<W>) -> Result<(), RunFault> {
        let Hands {
            alloc,
            room,
            engineer,
            worker,
            jobs: _,
            outcomes: _,
        } = self;
        let seats = match both(alloc, engineer, worker) {
            Ok(seats) => seats,
            Err(error) => {
                drop(room);
                return Err(RunFault::from(error));
            }
        };
        let (record, machine) = match room.close_with_machine(seats) {
            Ok(made) => made,
            Err(fault) => {
                drop(fault);
                return Err(RunFault::BookDiffers);
            }
        };
        let told = write_end(&record, machine.decided(), output);
        drop((record, machine));
        match told {
            Ok(()) => Ok(()),
            Err(_) => Err(RunFault::Unwritten),
        }
    }
}

/// Writes the log, and how many routes were decided anew.
fn write_end<W: Sink>(
    record: &Record,
    decided: u64,
    output: &mut Output<W>,
) -> Result<(), WriterFailed> {
    write_log(record.entries(), output)?;
    write_numbered(b"decided ", decided, output)?;
    output.flush()
}

/// The seats of a room that has two.
fn both_of<L: Ledger>(mut seats: Vec<Seat<L>>) -> Option<(Seat<L>, Seat<L>)> {
    let worker = seats.pop()?;
    let engineer = seats.pop()?;
    Some((engineer, worker))
}

/// Both seats.
fn both<L: Ledger>(
    alloc: Global,
    engineer: Seat<L>,
    worker: Seat<L>,
) -> Result<Vec<Seat<L>>, AllocError> {
    let mut seats = Vec::new(alloc);
    seats.push(engineer)?;
    seats.push(worker)?;
    Ok(seats)
}

/// The outcomes of jobs that were taken at one time. Where there is no memory for one, there is none for all.
fn outcomes_of(alloc: Global, jobs: Jobs<GroupCell>) -> Result<Outcomes<GroupCell>, AllocError> {
    let mut outcomes = Vec::new(alloc);
    for job in jobs.into_vec() {
        let Ok(done) = job.work() else {
            return Err(AllocError);
        };
        outcomes.push(done)?;
    }
    Ok(Outcomes::of(outcomes))
}

/// Opens another desk, the largest, and lets it go.
fn open_another<L: Ledger, W: Sink>(
    alloc: Global,
    blank: Blank,
    output: &mut Output<W>,
) -> Result<(), WriterFailed>
    requires ledger { IsDeskLedger blank.name blank.parts L.name L.parts }
{
    let opened: Result<(Desk<GroupCell, Tries, L>, Vec<Seat<L>>), OpenFault> = Desk::open(
        alloc, None, 256, 64, blank,
    );
    match opened {
        Ok(_) => output.write(b"ok\n"),
        Err(OpenFault::Memory) => write_refusal(Refusal::Memory, output),
        Err(OpenFault::Seats | OpenFault::Shards) => output.write(b"too many\n"),
    }
}

/// Writes what has moved.
fn write_newer<W: Sink>(newer: &Newer, output: &mut Output<W>) -> Result<(), WriterFailed> {
    match newer {
        Newer::ConfMoved { had, now } => {
            let parts = [
                Part::Bytes(b"stale: edits "),
                Part::Number(*had),
                Part::Bytes(b", now "),
                Part::Number(*now),
                Part::Bytes(b"\n"),
            ];
            write_each(&parts, output)
        }
        Newer::SiteMoved { .. } => output.write(b"stale: another site\n"),
        Newer::HeadMoved { had: _, now } => match now {
            None => output.write(b"stale: no message\n"),
            Some(_) => output.write(b"stale: another message\n"),
        },
        Newer::CellMoved { peer, .. } => {
            let parts = [
                Part::Bytes(b"stale: another route from "),
                Part::Addr(*peer),
                Part::Bytes(b"\n"),
            ];
            write_each(&parts, output)
        }
    }
}
