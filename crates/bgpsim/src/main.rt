//! `bgpsim`: an interactive simulator of BGP-4 networks.
#![tactic(auto)]

mod running;

ghost use Rattle.std.specs.Prelude.{◌≡◌};
ghost use Rattle.std.specs.Process.{exit_status};
ghost use Rattle.reply_text.specs.Ending.{fault_text, memory_fault, no_memory, IsTold};

use reply_text::{MISTAKEN, RunFault, end_by};
use running::{Streams, run};
use std::env;
use std::io::{self, BufWriter, IsTerminal};
use std::process::ExitCode;
use watched::{Input, Output, Reader, Sink, Writer};

/// Runs the words of the command line on the three streams of the system.
fn main(rt: HostRuntime) -> ExitCode {
    let alloc = rt.alloc();
    let is_terminal = rt.stderr().is_terminal();
    let mut errors = Output::new(Writer::new(rt.stderr()));
    let words = match env::args(&rt) {
        Ok(words) => words,
        Err(error) if error.kind() == io::ErrorKind::OutOfMemory => {
            return without_memory(&mut errors);
        }
        Err(_) => {
            let _ = eprintln!(rt; "error: the command line is not UTF-8");
            return ExitCode::from(MISTAKEN);
        }
    };
    let words: Vec<String> = match words.collect(alloc) {
        Ok(words) => words,
        Err(_) => return without_memory(&mut errors),
    };
    let Ok(writer) = BufWriter::new(alloc, io::writer(&rt)) else {
        return without_memory(&mut errors);
    };
    let mut streams = Streams {
        input: Input::new(Reader::new(rt.reader())),
        output: Output::new(Writer::new(writer)),
        errors,
        is_terminal,
    };
    run(&rt, words.as_slice(), &mut streams)
}

/// Ends the program where there is no memory to begin.
fn without_memory<E: Sink>(errors: &mut Output<E>) -> ExitCode
    ensures status { exit_status result ≡ no_memory }
    ensures told { IsTold errors.old (fault_text memory_fault) errors.new }
{
    ExitCode::from(end_by(&RunFault::NoMemory, errors))
}
