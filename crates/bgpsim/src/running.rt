//! What the command line asks for, run on three streams.

ghost use Rattle.std.specs.Prelude.{◌≡◌, false, length, map, string_bytes, vec_len, IfErr, IfOk, OnErr};
ghost use Rattle.std.specs.Process.{exit_status};
ghost use Rattle.clap.specs.Words.{fault_of, kind_of, HasKind};
ghost use Rattle.reply_text.specs.Ending.{IsTold};
ghost use Rattle.command_line.specs.CommandLine.{commands, IsTeamWithin, IsWithin};
ghost use Rattle.bgpsim.specs.Running.{shown_status, shown_text, AreNamed, IsPrinted, IsProgramRun, IsReplayed, IsRunOf, IsServed, IsServedByConverge, IsShown, IsTeamPlayed};

use cell_engine::Cell;
use clap::Error;
use clap::error::ErrorKind;
use command_line::{Choice, Team, choose};
use converge_text::{Keeping, Reached, run_converge};
use log_replay::run_replay;
use prefix_table::{SortedTable, TrieTable};
use reply_text::{MISTAKEN, RunFault, SUCCESS, end_by};
use route_select::{FilterCell, GroupCell};
use script_files::ScriptFile;
use sim_core::Sim;
use sim_text::run_script;
use std::alloc::{AllocError, Global};
use std::fs::{File, Files};
use std::hash::RandomState;
use std::marker::Brand;
use std::process::ExitCode;
use std::random::RandomSource;
use std::sync::Wait;
use std::sync::ledger::{Blank, Ledger};
use std::thread::Threads;
use team_run::{self, Settings, run_team};
use watched::{Input, LineBuffer, Output, Reader, Sink, Source};

/// The machine that runs scripts: cells that keep groups of one neighbouring AS, in tries.
type Engine = Sim<GroupCell, TrieTable<Cell<GroupCell>>>;

/// The machine that replays logs: cells that keep all standings in one list, in sorted tables.
type PlainEngine = Sim<FilterCell, SortedTable<Cell<FilterCell>>>;

/// What the program reads, where it writes, and where it tells faults.
#[derive(Drop)]
pub(crate) struct Streams<R: Source, W: Sink, E: Sink> {
    pub(crate) input: Input<R>,
    pub(crate) output: Output<W>,
    pub(crate) errors: Output<E>,
    /// Whether faults are told to a terminal.
    pub(crate) is_terminal: bool,
}

/// Does what the words ask for, or shows why nothing is done. Only a script or a log is read.
pub(crate) fn run<
    H: Print + Eprint + AllocGlobal + Files + RandomSource + Threads + Wait + Sync,
    R: Source,
    W: Sink,
    E: Sink + Send,
>(rt: &H, words: &[String], streams: &mut Streams<R, W, E>) -> ExitCode
    requires fresh { streams.old.input.failed ≡ false }
    requires calm { streams.old.output.failed ≡ false }
    requires shown { streams.old.output.held ≡ false }
    ensures { IsProgramRun (map string_bytes words.now) streams.old.is_terminal
        streams.old.input streams.old.output streams.old.errors (exit_status result)
        streams.new.input streams.new.output streams.new.errors }
{
    ExitCode::from(run_words(rt, words, streams))
}

/// Does what the words ask for, or shows why nothing is done. The exit status.
fn run_words<
    H: Print + Eprint + AllocGlobal + Files + RandomSource + Threads + Wait + Sync,
    R: Source,
    W: Sink,
    E: Sink + Send,
>(rt: &H, words: &[String], streams: &mut Streams<R, W, E>) -> u8
    requires fresh { streams.old.input.failed ≡ false }
    requires calm { streams.old.output.failed ≡ false }
    requires shown { streams.old.output.held ≡ false }
    ensures { IsProgramRun (map string_bytes words.now) streams.old.is_terminal
        streams.old.input streams.old.output streams.old.errors result
        streams.new.input streams.new.output streams.new.errors }
{
    match run_chosen(rt, words, streams) {
        Ok(status) => status,
        Err(error) => show(rt, &error, &mut streams.errors),
    }
}

/// Does what the words ask for. The exit status, or the fault that the words have, or out of memory before anything of
/// it began.
#[tactic(auto, using(crate::proofs::ProgramRuns::begun))]
fn run_chosen<
    H: AllocGlobal + Files + RandomSource + Threads + Wait + Sync,
    R: Source,
    W: Sink,
    E: Sink + Send,
>(rt: &H, words: &[String], streams: &mut Streams<R, W, E>) -> Result<u8, Error>
    requires fresh { streams.old.input.failed ≡ false }
    requires calm { streams.old.output.failed ≡ false }
    requires shown { streams.old.output.held ≡ false }
    ensures run { IfOk result (λ status. IsProgramRun (map string_bytes words.now) streams.old.is_terminal
        streams.old.input streams.old.output streams.old.errors status
        streams.new.input streams.new.output streams.new.errors) }
    ensures fault { IfErr result (HasKind (fault_of commands (map string_bytes words.now))) }
    ensures unread { OnErr result (streams.new.input ≡ streams.old.input) }
    ensures unwritten { OnErr result (streams.new.output ≡ streams.old.output) }
    ensures untold { OnErr result (streams.new.errors ≡ streams.old.errors) }
{
    let choice = choose(rt.alloc(), words)?;
    Ok(run_choice(rt, &choice, streams)?)
}

/// Does what was asked for. The exit status, or out of memory before anything of it began.
fn run_choice<
    H: AllocGlobal + Files + RandomSource + Threads + Wait + Sync,
    R: Source,
    W: Sink,
    E: Sink + Send,
>(rt: &H, choice: &Choice<'_>, streams: &mut Streams<R, W, E>) -> Result<u8, AllocError>
    requires within { IsWithin choice.now }
    requires fresh { streams.old.input.failed ≡ false }
    requires calm { streams.old.output.failed ≡ false }
    requires shown { streams.old.output.held ≡ false }
    ensures run { IfOk result (λ status. IsRunOf choice.now streams.old.is_terminal
        streams.old.input streams.old.output streams.old.errors status
        streams.new.input streams.new.output streams.new.errors) }
    ensures unread { OnErr result (streams.new.input ≡ streams.old.input) }
    ensures unwritten { OnErr result (streams.new.output ≡ streams.old.output) }
    ensures untold { OnErr result (streams.new.errors ≡ streams.old.errors) }
{
    match choice {
        Choice::Script => serve_script(rt, streams),
        Choice::Converge => serve_converge(rt, streams),
        Choice::Replay => replay_log(rt, streams),
        Choice::ForTeam(team) => {
            play_team::<Brand, _, _, _, _>(rt, Blank::new(256), team, streams)
        }
    }
}

/// Serves the script that is read. The system takes the machine's memory back at once. Out of memory comes before
/// anything is read.
fn serve_script<R: Source, W: Sink, E: Sink>(
    rt: &(impl AllocGlobal + RandomSource + Threads + Sync),
    streams: &mut Streams<R, W, E>,
) -> Result<u8, AllocError>
    requires fresh { streams.old.input.failed ≡ false }
    requires calm { streams.old.output.failed ≡ false }
    requires shown { streams.old.output.held ≡ false }
    ensures run { IfOk result (λ status. IsServed streams.old.input streams.old.output streams.old.errors status
        streams.new.input streams.new.output streams.new.errors) }
    ensures unread { OnErr result (streams.new.input ≡ streams.old.input) }
    ensures unwritten { OnErr result (streams.new.output ≡ streams.old.output) }
    ensures untold { OnErr result (streams.new.errors ≡ streams.old.errors) }
{
    let alloc = rt.alloc();
    let buffer = LineBuffer::new(alloc)?;
    let mut machine: Engine = Sim::new(alloc, drawn_keys(rt));
    let status = run_script(
        rt,
        alloc,
        buffer,
        &mut machine,
        &mut streams.input,
        &mut streams.output,
        &mut streams.errors,
    );
    std::mem::forget(machine);
    Ok(status)
}

/// Serves the script that is read, in which messages may be delivered until none waits. Out of memory comes before
/// anything is read.
fn serve_converge<R: Source, W: Sink, E: Sink>(
    rt: &(impl AllocGlobal + RandomSource + Threads + Sync),
    streams: &mut Streams<R, W, E>,
) -> Result<u8, AllocError>
    requires fresh { streams.old.input.failed ≡ false }
    requires calm { streams.old.output.failed ≡ false }
    requires shown { streams.old.output.held ≡ false }
    ensures run { IfOk result (λ status. IsServedByConverge streams.old.input streams.old.output streams.old.errors
        status streams.new.input streams.new.output streams.new.errors) }
    ensures unread { OnErr result (streams.new.input ≡ streams.old.input) }
    ensures unwritten { OnErr result (streams.new.output ≡ streams.old.output) }
    ensures untold { OnErr result (streams.new.errors ≡ streams.old.errors) }
{
    let alloc = rt.alloc();
    let buffer = LineBuffer::new(alloc)?;
    let engine: Engine = Sim::new(alloc, drawn_keys(rt));
    let mut machine = Keeping::new(alloc, Reached::new(engine));
    let status = run_converge(
        rt,
        alloc,
        buffer,
        &mut machine,
        &mut streams.input,
        &mut streams.output,
        &mut streams.errors,
    );
    std::mem::forget(machine);
    Ok(status)
}

/// Replays the log that is read, and writes what it is found to be. Out of memory comes before anything is read.
fn replay_log<R: Source, W: Sink, E: Sink>(
    rt: &(impl AllocGlobal + RandomSource + Threads + Sync),
    streams: &mut Streams<R, W, E>,
) -> Result<u8, AllocError>
    requires fresh { streams.old.input.failed ≡ false }
    requires calm { streams.old.output.failed ≡ false }
    requires shown { streams.old.output.held ≡ false }
    ensures run { IfOk result (λ status. IsReplayed streams.old.input streams.old.output streams.old.errors status
        streams.new.input streams.new.output streams.new.errors) }
    ensures unread { OnErr result (streams.new.input ≡ streams.old.input) }
    ensures unwritten { OnErr result (streams.new.output ≡ streams.old.output) }
    ensures untold { OnErr result (streams.new.errors ≡ streams.old.errors) }
{
    let alloc = rt.alloc();
    let buffer = LineBuffer::new(alloc)?;
    let mut machine: PlainEngine = Sim::new(alloc, drawn_keys(rt));
    let status = run_replay(
        rt,
        alloc,
        buffer,
        &mut machine,
        &mut streams.input,
        &mut streams.output,
        &mut streams.errors,
    );
    std::mem::forget(machine);
    Ok(status)
}

/// Runs the team, and writes its log. Out of memory comes before any file is read.
#[tactic(auto, using(crate::proofs::ProgramRuns::played))]
fn play_team<
    L: Ledger + Send + Sync,
    H: AllocGlobal + Files + RandomSource + Threads + Wait + Sync,
    R: Source,
    W: Sink,
    E: Sink + Send,
>(rt: &H, blank: Blank, team: &Team<'_>, streams: &mut Streams<R, W, E>) -> Result<u8, AllocError>
    requires name { blank.name ≡ L.name }
    requires ledger { blank.parts ≡ L.parts }
    requires parts { blank.parts ≡ 256 }
    requires team { IsTeamWithin team.now }
    requires calm { streams.old.output.failed ≡ false }
    requires shown { streams.old.output.held ≡ false }
    ensures run { IfOk result (λ status. IsTeamPlayed (map (λ file. file.now) team.now.files.items)
        team.now.workers team.now.turns streams.old.is_terminal streams.old.input streams.old.output
        streams.old.errors status streams.new.input streams.new.output streams.new.errors) }
    ensures unread { OnErr result (streams.new.input ≡ streams.old.input) }
    ensures unwritten { OnErr result (streams.new.output ≡ streams.old.output) }
    ensures untold { OnErr result (streams.new.errors ≡ streams.old.errors) }
{
    let alloc = rt.alloc();
    let mut files = opened(rt, alloc, team.files.as_slice())?;
    let team = team_run::Team {
        blank,
        keys: drawn_keys(rt),
        settings: Settings {
            workers: team.workers as u16,
            turns: team.turns,
            is_terminal: streams.is_terminal,
        },
    };
    Ok(run_team::<GroupCell, TrieTable<Cell<GroupCell>>, L, _, _, _, _>(
        rt,
        alloc,
        team,
        files.as_mut_slice(),
        &mut streams.output,
        &mut streams.errors,
    ))
}

/// Keys that nobody else knows, if the system has random bytes to draw them from.
fn drawn_keys(rt: &impl RandomSource) -> Option<RandomState> {
    RandomState::new(rt).ok()
}

/// The files of these names, each opened where that can be done.
fn opened<H: Files>(
    rt: &H,
    alloc: Global,
    names: &[&str],
) -> Result<Vec<ScriptFile<Reader<H::File>>>, AllocError>
    ensures named { IfOk result (λ files. AreNamed (map (λ name. name.now) names.now) files.items) }
    ensures count { IfOk result (λ files. vec_len files ≡ length names.now) }
{
    let mut files = Vec::new(alloc);
    for name in names {
        let file = ScriptFile {
            name: String::from_str(alloc, name)?,
            reader: match File::open(rt, *name) {
                Ok(file) => Some(Input::new(Reader::new(file))),
                Err(_) => None,
            },
        };
        files.push(file)?;
    }
    Ok(files)
}

/// Shows why nothing is done. The exit status.
fn show<E: Sink>(rt: &(impl Print + Eprint), error: &Error, errors: &mut Output<E>) -> u8
    ensures { IsShown (kind_of error.now) errors.old result errors.new }
{
    let shown = printed(rt, error);
    end(&shown, errors)
}

/// Prints help and the version to standard output, and a mistake to standard error. The exit status, or the fault in
/// which that ends: want of memory is one.
fn printed(rt: &(impl Print + Eprint), error: &Error) -> Result<u8, RunFault>
    ensures { IsPrinted (kind_of error.now) result }
{
    match error.kind() {
        ErrorKind::OutOfMemory => Err(RunFault::NoMemory),
        ErrorKind::DisplayHelp | ErrorKind::DisplayVersion => match error.print(rt) {
            Ok(()) => Ok(SUCCESS),
            Err(_) => Err(RunFault::Unwritten),
        },
        _ => {
            let _ = error.print(rt);
            Ok(MISTAKEN)
        }
    }
}

/// Tells a fault, if there is one. The exit status.
fn end<E: Sink>(shown: &Result<u8, RunFault>, errors: &mut Output<E>) -> u8
    ensures status { result ≡ shown_status shown.now }
    ensures told { IsTold errors.old (shown_text shown.now) errors.new }
{
    match shown {
        Ok(status) => *status,
        Err(fault) => end_by(fault, errors),
    }
}
