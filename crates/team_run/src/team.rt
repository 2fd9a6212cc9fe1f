//! A team at its desk, from the scripts to the log.

ghost use Rattle.std.specs.Prelude.{◌≡◌, ◌≤◌, ◌+◌, false, true, drop, length, vec_len, IfOk, IfErr, OnOk, OnErr};
ghost use Rattle.log_text.specs.Logs.{log_text};
ghost use Rattle.reference_machine.specs.Histories.{IsLegal};
ghost use Rattle.room.specs.Books.{blank_seats};
ghost use Rattle.room.specs.Closing.{AllAgree};
ghost use Rattle.desk.specs.Desks.{IsDeskLedger};
ghost use Rattle.team_run.specs.Playing.{AreBack, HasUnlike, IsOfBooks, IsOfPlay, all_told, engineers_of};
ghost use Rattle.team_run.specs.TeamRun.{AreOfScripts, AreOfWorkers, IsFrontOf, IsLogOf, IsPlayed, IsTeamRun};
ghost use Rattle.watched.specs.Streams.{AppendsFront};

use crate::crew::{Back, Crew};
use crate::engineer::Engineer;
use crate::screen::Screen;
use crate::told::{Told, ToldLine, tell_all};
use cell_engine::Cell;
use desk::{Audit, Desk, OpenFault, Record, Seat};
use log_text::write_log_in_threads;
use prefix_table::PrefixTable;
use reply_text::{RunFault, SUCCESS, end_by};
use route_select::Selector;
use script_files::{Script, ScriptFile, read_scripts};
use sim_event::Entry;
use std::alloc::{AllocError, Global};
use std::hash::RandomState;
use std::mem::forget;
use std::sync::Wait;
use std::sync::atomic::AtomicU64;
use std::sync::ledger::{Blank, Ledger};
use std::thread::Threads;
use watched::{Output, Sink, Source, WriterFailed};

/// How a team is run.
#[derive(Clone, Copy, Debug, PartialEq, Eq)]
pub struct Settings {
    /// How many workers there are, 1 to 64.
    pub workers: u16,
    /// How many turns each of them has.
    pub turns: u64,
    /// Whether the third stream is a terminal, on which it is told how far the team is.
    pub is_terminal: bool,
}

/// A team: on what it works, and how.
#[derive(Drop)]
pub struct Team {
    /// The ledger of its calls, with a part for each seat that there may be.
    pub blank: Blank,
    /// The keys of its machine, if there are any.
    pub keys: Option<RandomState>,
    /// How it is run.
    pub settings: Settings,
}

/// A team whose scripts were read.
#[derive(Drop)]
struct ReadyTeam {
    blank: Blank,
    keys: Option<RandomState>,
    settings: Settings,
    scripts: Vec<Script>,
}

/// What a team has done: its history, and the lines that made no call, engineer by engineer.
#[derive(Drop)]
struct Report<'t> {
    kept: Record,
    told: Vec<Told<'t>>,
}

/// Runs a team on files, 1 to 64, each the script of an engineer, from the empty network, its machine under its keys: a
/// thread calls the lines of each script in turn, and the workers' threads deliver what waits, until the engineers have
/// ended and no message waits, or their turns have. The log of all calls goes to the output. Once all have ended each line
/// that makes no call is told on the third stream, file by file, and so is a fault; its own failure is passed over. The
/// exit status: 0 done, 3 a file was not read, 4 write fault, 5 want of memory, or a seat whose notes are not its calls.
pub fn run_team<
    S: Selector + Send + Sync + Drop,
    T: PrefixTable<Cell<S>> + Drop + Send,
    L: Ledger + Send + Sync,
    F: Source,
    W: Sink,
    E: Sink + Send,
    R: Threads + Wait + Sync,
>(
    rt: &R,
    alloc: Global,
    team: Team,
    files: &mut [ScriptFile<F>],
    output: &mut Output<W>,
    errors: &mut Output<E>,
) -> u8
    requires name { team.blank.name ≡ L.name }
    requires ledger { team.blank.parts ≡ L.parts }
    requires parts { team.blank.parts ≡ 256 }
    requires some { 1 ≤ length files.old }
    requires most { length files.old ≤ 64 }
    requires workers { 1 ≤ team.settings.workers }
    requires hands { team.settings.workers ≤ 64 }
    requires calm { output.old.failed ≡ false }
    requires shown { output.old.held ≡ false }
    ensures run { IsTeamRun files.old files.new team.settings.workers team.settings.turns team.settings.is_terminal
        output.old errors.old result output.new errors.new }
{
    let Team {
        blank,
        keys,
        settings,
    } = team;
    match read_scripts(alloc, files) {
        Ok(scripts) => {
            let team = ReadyTeam {
                blank,
                keys,
                settings,
                scripts,
            };
            play::<S, T, L, W, E, R>(rt, alloc, team, output, errors)
        }
        Err(fault) => end_by(&fault, errors),
    }
}

/// Runs a team on its scripts. The exit status.
fn play<
    S: Selector + Send + Sync + Drop,
    T: PrefixTable<Cell<S>> + Drop + Send,
    L: Ledger + Send + Sync,
    W: Sink,
    E: Sink + Send,
    R: Threads + Wait + Sync,
>(rt: &R, alloc: Global, team: ReadyTeam, output: &mut Output<W>, errors: &mut Output<E>) -> u8
    requires name { team.blank.name ≡ L.name }
    requires ledger { team.blank.parts ≡ L.parts }
    requires parts { team.blank.parts ≡ 256 }
    requires some { 1 ≤ vec_len team.scripts }
    requires most { vec_len team.scripts ≤ 64 }
    requires workers { 1 ≤ team.settings.workers }
    requires hands { team.settings.workers ≤ 64 }
    requires calm { output.old.failed ≡ false }
    requires shown { output.old.held ≡ false }
    ensures { IsPlayed team.scripts.items team.settings.workers team.settings.turns team.settings.is_terminal
        output.old errors.old result output.new errors.new }
{
    let workers = team.settings.workers;
    let Ok(all) = boxcar::Vec::new(alloc) else {
        drop(team);
        return end_by(&RunFault::NoMemory, errors);
    };
    let Report { kept, told } = match recorded::<S, T, L, E, R>(rt, alloc, team, &all, errors) {
        Ok(report) => report,
        Err(fault) => return end_by(&fault, errors),
    };
    tell_all(told.as_slice(), errors);
    match write_record(rt, alloc, workers, &kept, output) {
        Ok(()) => SUCCESS,
        Err(fault) => end_by(&fault, errors),
    }
}

/// What a team does on its scripts. At a terminal it is told there how far it is.
fn recorded<
    't,
    S: Selector + Send + Sync + Drop,
    T: PrefixTable<Cell<S>> + Drop + Send,
    L: Ledger + Send + Sync,
    E: Sink + Send,
    R: Threads + Wait + Sync,
>(
    rt: &R,
    alloc: Global,
    team: ReadyTeam,
    all: &'t boxcar::Vec<ToldLine>,
    errors: &mut Output<E>,
) -> Result<Report<'t>, RunFault>
    requires name { team.blank.name ≡ L.name }
    requires ledger { team.blank.parts ≡ L.parts }
    requires parts { team.blank.parts ≡ 256 }
    requires some { 1 ≤ vec_len team.scripts }
    requires most { vec_len team.scripts ≤ 64 }
    requires workers { 1 ≤ team.settings.workers }
    requires hands { team.settings.workers ≤ 64 }
    ensures calls { IfOk result (λ report. AreOfScripts 0 team.scripts.items report.kept
        (all_told report.told.items)) }
    ensures deliveries { IfOk result (λ report. AreOfWorkers (length team.scripts.items) team.settings.workers
        team.settings.turns report.kept) }
    ensures fault { IfErr result IsOfPlay }
    ensures nothing_told { team.settings.is_terminal ≡ false → errors.new ≡ errors.old }
{
    let ReadyTeam {
        blank,
        keys,
        settings,
        scripts,
    } = team;
    let engineers = scripts.len() as u16;
    let Ok((desk, seats)) = opened::<S, T, L>(alloc, keys, engineers, settings.workers, blank)
    else {
        drop(scripts);
        return Err(RunFault::NoMemory);
    };
    match all_back(rt, alloc, &desk, all, settings, scripts, seats, errors) {
        Ok(back) => closed(rt, desk, back),
        Err(_) => {
            drop(desk);
            Err(RunFault::NoMemory)
        }
    }
}

/// A desk with a seat for each engineer, then one for each worker, and with a shard for each worker. Of both there are
/// no more than a desk may have, so the only fault is want of memory.
fn opened<S: Selector + Drop, T: PrefixTable<Cell<S>> + Drop, L: Ledger>(
    alloc: Global,
    keys: Option<RandomState>,
    engineers: u16,
    workers: u16,
    blank: Blank,
) -> Result<(Desk<S, T, L>, Vec<Seat<L>>), AllocError>
    requires ledger { IsDeskLedger blank.name blank.parts L.name L.parts }
    requires most { engineers ≤ 64 }
    requires some { 1 ≤ workers }
    requires hands { workers ≤ 64 }
    ensures seats { IfOk result (λ made. made.1.items ≡ blank_seats (engineers + workers)) }
    ensures shards { IfOk result (λ made. made.0.shards ≡ workers) }
{
    match Desk::open(alloc, keys, engineers + workers, u64::from(workers), blank) {
        Ok(made) => Ok(made),
        Err(OpenFault::Memory) => Err(AllocError),
        Err(OpenFault::Seats | OpenFault::Shards) => unreachable!(),
    }
}

/// All threads at the desk. Where the errors go to a terminal it is told there how far they are.
fn all_back<
    't,
    'e,
    S: Selector + Send + Sync + Drop,
    T: PrefixTable<Cell<S>> + Drop + Send,
    L: Ledger + Send + Sync,
    E: Sink + Send,
    R: Threads + Wait + Sync,
>(
    rt: &R,
    alloc: Global,
    desk: &Desk<S, T, L>,
    all: &'t boxcar::Vec<ToldLine>,
    settings: Settings,
    scripts: Vec<Script>,
    seats: Vec<Seat<L>>,
    errors: &'e mut Output<E>,
) -> Result<Back<'t, L>, AllocError>
    requires most { vec_len scripts ≤ 64 }
    requires enough { vec_len scripts ≤ vec_len seats }
    ensures nothing_told { settings.is_terminal ≡ false → errors.new ≡ errors.old }
    ensures back { IfOk result (λ back. AreBack desk.now.shards settings.turns
        (engineers_of 1 scripts.items seats.items) (drop (length scripts.items) seats.items)
        back.seats.items back.told.items) }
{
    if settings.is_terminal {
        at_terminal(rt, alloc, desk, all, settings.turns, scripts, seats, errors)
    } else {
        let screen: Option<&'e Screen<'e, E>> = None;
        at_desk(rt, alloc, desk, all, settings.turns, scripts, seats, screen)
    }
}

/// All threads at the desk, at a terminal.
fn at_terminal<
    't,
    S: Selector + Send + Sync + Drop,
    T: PrefixTable<Cell<S>> + Drop + Send,
    L: Ledger + Send + Sync,
    E: Sink + Send,
    R: Threads + Wait + Sync,
>(
    rt: &R,
    alloc: Global,
    desk: &Desk<S, T, L>,
    all: &'t boxcar::Vec<ToldLine>,
    turns: u64,
    scripts: Vec<Script>,
    seats: Vec<Seat<L>>,
    errors: &mut Output<E>,
) -> Result<Back<'t, L>, AllocError>
    requires most { vec_len scripts ≤ 64 }
    requires enough { vec_len scripts ≤ vec_len seats }
    ensures { IfOk result (λ back. AreBack desk.now.shards turns (engineers_of 1 scripts.items seats.items)
        (drop (length scripts.items) seats.items) back.seats.items back.told.items) }
{
    let screen = Screen::new(errors);
    let back = at_desk(rt, alloc, desk, all, turns, scripts, seats, Some(&screen));
    screen.clear();
    back
}

/// All threads at the desk, from the first call to the last. What comes back is the seats of the workers, and then those
/// of the engineers, from which their scripts were called, but for the lines that are told.
fn at_desk<
    't,
    S: Selector + Send + Sync + Drop,
    T: PrefixTable<Cell<S>> + Drop + Send,
    L: Ledger + Send + Sync,
    E: Sink + Send,
    R: Threads + Wait + Sync,
>(
    rt: &R,
    alloc: Global,
    desk: &Desk<S, T, L>,
    all: &'t boxcar::Vec<ToldLine>,
    turns: u64,
    scripts: Vec<Script>,
    seats: Vec<Seat<L>>,
    screen: Option<&Screen<'_, E>>,
) -> Result<Back<'t, L>, AllocError>
    requires most { vec_len scripts ≤ 64 }
    requires enough { vec_len scripts ≤ vec_len seats }
    ensures { IfOk result (λ back. AreBack desk.now.shards turns (engineers_of 1 scripts.items seats.items)
        (drop (length scripts.items) seats.items) back.seats.items back.told.items) }
{
    let at_work = AtomicU64::new(scripts.len() as u64);
    let (engineers, workers) = seated(alloc, scripts, seats)?;
    let crew = Crew {
        rt,
        alloc,
        desk,
        all,
        screen,
        at_work: &at_work,
        turns,
    };
    crew.run(engineers, workers)
}

/// An engineer for each script, with the seat at its place, the files numbered from 1 on; and the seats that are left.
fn seated<L: Ledger>(
    alloc: Global,
    scripts: Vec<Script>,
    seats: Vec<Seat<L>>,
) -> Result<(Vec<Engineer<L>>, Vec<Seat<L>>), AllocError>
    requires most { vec_len scripts ≤ 64 }
    requires enough { vec_len scripts ≤ vec_len seats }
    ensures engineers { IfOk result (λ made. made.0.items ≡ engineers_of 1 scripts.items seats.items) }
    ensures workers { IfOk result (λ made. made.1.items ≡ drop (length scripts.items) seats.items) }
{
    let mut engineers = Vec::new(alloc);
    let mut seats = seats.into_iter();
    for script in scripts {
        let seat = seats.next().unwrap();
        let file = engineers.len() as u64 + 1;
        engineers.push(Engineer { file, script, seat })?;
    }
    Ok((engineers, seats.collect(alloc)?))
}

/// Whether the notes of each seat are its calls.
fn all_agree<S: Selector + Drop, T: PrefixTable<Cell<S>> + Drop, L: Ledger, R: Wait>(
    rt: &R,
    desk: &Desk<S, T, L>,
    seats: &[Seat<L>],
) -> bool
    ensures { result ≡ false → HasUnlike seats.now }
{
    for seat in seats {
        if desk.audit(rt, seat) == Audit::Differs {
            return false;
        }
    }
    true
}

/// What the desk's room has recorded, where the notes of each seat are its calls in it, and what is told.
fn closed<'t, S: Selector + Drop, T: PrefixTable<Cell<S>> + Drop, L: Ledger, R: Wait>(
    rt: &R,
    desk: Desk<S, T, L>,
    back: Back<'t, L>,
) -> Result<Report<'t>, RunFault>
    ensures kept { IfOk result (λ report. AllAgree report.kept back.entry.seats.items
        × (report.told.items ≡ back.entry.told.items)) }
    ensures fault { IfErr result (IsOfBooks back.entry.seats.items) }
{
    let Back { seats, told } = back;
    if !all_agree(rt, &desk, seats.as_slice()) {
        drop((desk, seats, told));
        return Err(RunFault::BookDiffers);
    }
    match desk.end().close_with_machine(seats) {
        Ok((kept, machine)) => {
            // Nothing of it is needed any more, and the process ends: to free its cells one by one would only take
            // time.
            forget(machine);
            Ok(Report { kept, told })
        }
        Err(fault) => {
            drop((fault, told));
            Err(RunFault::BookDiffers)
        }
    }
}

/// Writes the log of the record, and sends it on. Several workers make its text together.
fn write_record<W: Sink, R: Threads + Sync>(
    rt: &R,
    alloc: Global,
    workers: u16,
    kept: &Record,
    output: &mut Output<W>,
) -> Result<(), RunFault>
    requires { output.old.failed ≡ false }
    ensures legal { IsLegal kept.now }
    ensures logged { OnOk result (IsLogOf kept.now output.old output.new) }
    ensures cut_off { IfErr result (λ fault. (fault ≡ RunFault.Unwritten) × IsFrontOf kept.now output.old output.new) }
{
    match write_entries(rt, alloc, workers, kept.entries(), output) {
        Ok(()) => Ok(()),
        Err(_) => Err(RunFault::Unwritten),
    }
}

/// Writes the log of the history, and sends it on.
fn write_entries<W: Sink, R: Threads + Sync>(
    rt: &R,
    alloc: Global,
    workers: u16,
    entries: &[Entry],
    output: &mut Output<W>,
) -> Result<(), WriterFailed>
    requires { output.old.failed ≡ false }
    ensures logged { OnOk result (IsLogOf entries.now output.old output.new) }
    ensures front { OnErr result (AppendsFront output.old.written output.new.written (log_text entries.now)) }
    ensures failed { OnErr result (output.new.failed ≡ true) }
{
    write_log_in_threads(rt, alloc, workers, entries, output)?;
    output.flush()
}
