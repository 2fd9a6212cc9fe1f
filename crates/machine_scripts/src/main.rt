//! `machine_scripts plain|sorted|trie`: a script on standard input, served as `bgpsim script` serves it, by the machine
//! of that name. `machine_scripts room`: lines on standard input, each a call in a room.
#![tactic(auto)]

mod calls;
mod command_line;
mod hands;
mod machines;

ghost use Rattle.std.specs.Prelude.{◌≡◌};
ghost use Rattle.std.specs.Process.{exit_status};
ghost use Rattle.reference_machine.specs.Machine.{nothing};
ghost use Rattle.reply_text.specs.Ending.{mistaken, no_memory};
ghost use Rattle.desk.specs.Desks.{IsDeskLedger};
ghost use Rattle.machine_scripts.specs.Status.{IsEnd};

use calls::serve_calls;
use command_line::{Kind, choose};
use machines::{PlainMachine, SortedMachine, TrieMachine};
use reference_machine::Machine;
use reply_text::{MISTAKEN, RunFault, SUCCESS, end_by};
use sim_text::run_script;
use std::env;
use std::io::{self, BufWriter, Write};
use std::marker::Brand;
use std::process::ExitCode;
use std::sync::ledger::{Blank, Ledger};
use std::thread::Threads;
use watched::{LineBuffer, Reader, Writer};

fn main(rt: HostRuntime) -> ExitCode {
    let alloc = rt.alloc();
    let words = match env::args(&rt) {
        Ok(words) => words,
        Err(error) if error.kind() == io::ErrorKind::OutOfMemory => {
            return without_memory(rt.stderr());
        }
        Err(_) => return without_machine(&rt),
    };
    let words: Vec<String> = match words.collect(alloc) {
        Ok(words) => words,
        Err(_) => return without_memory(rt.stderr()),
    };
    match choose(words.as_slice()) {
        Some(Kind::Plain) => serve_streams(&rt, rt.stderr(), PlainMachine::new(alloc)),
        Some(Kind::Sorted) => serve_streams(&rt, rt.stderr(), SortedMachine::new(alloc, None)),
        Some(Kind::Trie) => serve_streams(&rt, rt.stderr(), TrieMachine::new(alloc, None)),
        Some(Kind::Room) => call_streams::<Brand>(&rt, rt.stderr(), Blank::new(256)),
        None => without_machine(&rt),
    }
}

fn without_machine(rt: &impl Eprint) -> ExitCode
    ensures { exit_status result ≡ mistaken }
{
    let _ = rt.eprintln("use: machine_scripts plain|sorted|trie|room");
    ExitCode::from(MISTAKEN)
}

fn without_memory(errors: impl Write + Drop) -> ExitCode
    ensures { exit_status result ≡ no_memory }
{
    let mut errors = watched::Output::new(Writer::new(errors));
    ExitCode::from(end_by(&RunFault::NoMemory, &mut errors))
}

/// Serves standard input to standard output, by a machine that begins with the empty network.
fn serve_streams<M: Machine + Drop>(
    rt: &(impl Print + Input + AllocGlobal + Threads + Sync),
    errors: impl Write + Drop,
    mut machine: M,
) -> ExitCode
    requires { M.network machine ≡ nothing }
    ensures { IsEnd result }
{
    let alloc = rt.alloc();
    let Ok(writer) = BufWriter::new(alloc, io::writer(rt)) else {
        return without_memory(errors);
    };
    let Ok(buffer) = LineBuffer::new(alloc) else {
        return without_memory(errors);
    };
    let mut input = watched::Input::new(Reader::new(rt.reader()));
    let mut output = watched::Output::new(Writer::new(writer));
    let mut errors = watched::Output::new(Writer::new(errors));
    let status = run_script(
        rt,
        alloc,
        buffer,
        &mut machine,
        &mut input,
        &mut output,
        &mut errors,
    );
    ExitCode::from(status)
}

/// Answers the calls on standard input, on standard output.
fn call_streams<L: Ledger>(
    rt: &(impl Print + Input + AllocGlobal + Threads + Sync),
    errors: impl Write + Drop,
    blank: Blank,
) -> ExitCode
    requires ledger { IsDeskLedger blank.name blank.parts L.name L.parts }
{
    let alloc = rt.alloc();
    let Ok(writer) = BufWriter::new(alloc, io::writer(rt)) else {
        return without_memory(errors);
    };
    let mut input = watched::Input::new(Reader::new(rt.reader()));
    let mut output = watched::Output::new(Writer::new(writer));
    match serve_calls::<L, _, _>(rt, alloc, blank, &mut input, &mut output) {
        Ok(()) => ExitCode::from(SUCCESS),
        Err(fault) => ExitCode::from(end_by(
            &fault,
            &mut watched::Output::new(Writer::new(errors)),
        )),
    }
}
