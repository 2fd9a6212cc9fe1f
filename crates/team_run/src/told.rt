//! What is told of lines that made no call.

ghost use Rattle.std.specs.Prelude.{◌≡◌, ◌++◌, [], map, option_to_list, All, OnOk};
ghost use Rattle.boxcar.specs.Table.{Shows, Where};
ghost use Rattle.reply_text.specs.Ending.{IsTold};
ghost use Rattle.team_run.specs.declared.told.ToldLine.{ToldLine};
ghost use Rattle.team_run.specs.Playing.{all_told};
ghost use Rattle.team_run.specs.TeamRun.{AreTold, told_text};
ghost use Rattle.watched.specs.Streams.{Writes};

use boxcar::Pushed;
use net_conf::Refusal;
use reply_text::{Part, write_each};
use std::alloc::{AllocError, Global};
use std::marker::Model;
use std::sync::Wait;
use watched::{Output, Sink, WriterFailed};

/// A line that made no call. Files and lines count from 1.
#[derive(Clone, Copy, Debug, PartialEq, Eq)]
pub(crate) struct ToldLine {
    pub(crate) file: u64,
    pub(crate) line: u64,
    pub(crate) refusal: Refusal,
}

/// The lines of an engineer that made no call, in their order. They stand among those of all engineers; what is kept here
/// is where.
#[derive(Drop)]
pub(crate) struct Told<'a> {
    all: &'a boxcar::Vec<ToldLine>,
    tokens: Vec<Pushed<ToldLine>>,
}

impl<'a> Model for Told<'a> {
    ghost use Rattle.std.specs.Prelude.{List, map, All};
    ghost use Rattle.boxcar.specs.Table.{Shows, Where};
    ghost use Rattle.team_run.specs.declared.told.ToldLine.{ToldLine};

    ghost Value = { List ToldLine };

    ghost view = { λ t. map (λ (p : Where ToldLine). p.value) t.tokens.items };

    ghost invariant = { λ t. All (Shows t.all.now) t.tokens.items };
}

impl<'a> Told<'a> {
    /// Nothing is told yet.
    pub(crate) fn new(alloc: Global, all: &'a boxcar::Vec<ToldLine>) -> Self
        ensures { result ≡ [] }
    {
        Told {
            all,
            tokens: Vec::new(alloc),
        }
    }

    /// Takes a line down, if there is one.
    pub(crate) fn add<R: Wait>(&mut self, rt: &R, line: Option<ToldLine>) -> Result<(), AllocError>
        ensures { OnOk result (self.new ≡ self.old ++ option_to_list line) }
    {
        if let Some(line) = line {
            let Ok(token) = self.all.push_shown(rt, line) else {
                return Err(AllocError);
            };
            self.tokens.push(token)?;
        }
        Ok(())
    }

    /// Tells of each line in turn.
    fn tell_lines<E: Sink>(&self, errors: &mut Output<E>)
        ensures { AreTold errors.old (map told_text self.now) errors.new }
    {
        tell_each(self.all, self.tokens.as_slice(), errors);
    }
}

/// Tells of all lines that were taken down.
pub(crate) fn tell_all<E: Sink>(all: &[Told<'_>], errors: &mut Output<E>)
    ensures { AreTold errors.old (map told_text (all_told all.now)) errors.new }
{
    for told in all {
        told.tell_lines(errors);
    }
}

/// Tells in turn of each line that has a token.
fn tell_each<E: Sink>(
    all: &boxcar::Vec<ToldLine>,
    tokens: &[Pushed<ToldLine>],
    errors: &mut Output<E>,
)
    requires { All (Shows all.now) tokens.now }
    ensures { AreTold errors.old (map told_text (map (λ (p : Where ToldLine). p.value) tokens.now)) errors.new }
{
    for token in tokens {
        tell(*all.value(token), errors);
    }
}

/// Tells of the line. A failure to do so is passed over.
fn tell<E: Sink>(told: ToldLine, errors: &mut Output<E>)
    ensures { IsTold errors.old (told_text told) errors.new }
{
    let _ = write_told(told, errors);
}

/// Writes what is told of the line.
fn write_told<W: Sink>(told: ToldLine, output: &mut Output<W>) -> Result<(), WriterFailed>
    ensures { Writes output.old (told_text told) result output.new }
{
    let parts = [
        Part::Bytes(b"file "),
        Part::Number(told.file),
        Part::Bytes(b" line "),
        Part::Number(told.line),
        Part::Bytes(b": refused "),
        Part::Number(u64::from(told.refusal.number())),
        Part::Bytes(b" "),
        Part::Bytes(told.refusal.name().as_bytes()),
        Part::Bytes(b"\n"),
    ];
    write_each(&parts, output)
}
