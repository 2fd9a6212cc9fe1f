//! A log on its way: what was read of it, and the place to which its lines have brought it.

ghost use Rattle.std.specs.Prelude.{◌≡◌, ℕ, ◌+◌, ◌<◌, ◌≤◌, ◌==◌, ◌++◌, true, false, List, [], length, position, Ok, IfOk};
ghost use Rattle.watched.specs.Streams.{Reading};
ghost use Rattle.reference_machine.specs.Network.{Network};
ghost use Rattle.reference_machine.specs.Machine.{nothing};
ghost use Rattle.log_replay.specs.Replaying.{IsReplay, beginning, is_read_fault, most_bytes, most_lines};
ghost use Rattle.log_replay.specs.Reading.{IsAt};
ghost use Rattle.log_replay.specs.Progress.{Comes, IsNext, IsTakenLine, IsAdvance, work_left};
ghost use Rattle.log_replay.specs.declared.place.Next.TheVariants.{Line, Part};

use crate::checker::{check_line, has_ended};
use crate::limits::{CAPACITY, MOST_BYTES, MOST_LINES};
use crate::place::{Checked, Checker, Next};
use crate::verdict::{ReplayFault, Replayed};
use reference_machine::Machine;
use std::alloc::{AllocError, Global};
use std::thread::Threads;
use watched::{Input, LineBuffer, Source};

/// How far a log was read.
#[derive(Drop)]
pub(crate) struct Progress {
    pub(crate) pending: LineBuffer<CAPACITY>,
    /// How many lines were taken.
    pub(crate) lines: u64,
    pub(crate) checker: Checker,
}

impl Progress {
    /// Before the first line.
    pub(crate) fn new(alloc: Global, buffer: LineBuffer<CAPACITY>) -> Self
        requires { buffer ≡ [] }
        ensures pending { result.pending ≡ [] }
        ensures lines { result.lines ≡ 0 }
        ensures at { IsAt result.checker nothing beginning }
        ensures entries { result.checker.entries ≡ 0 }
    {
        Progress {
            pending: buffer,
            lines: 0,
            checker: Checker::new(alloc),
        }
    }
}

/// Whether a line may have so many bytes.
fn is_short(length: usize) -> bool
    ensures short { result ≡ true → length ≤ most_bytes }
    ensures long { result ≡ false → most_bytes < length }
{
    length <= MOST_BYTES
}

/// What stands at the head of the bytes that are left, after so many lines.
fn next_line(pending: &LineBuffer<CAPACITY>, lines: u64) -> Next
    ensures { IsNext pending.now lines result }
{
    let bytes = pending.as_slice();
    if lines >= MOST_LINES && !bytes.is_empty() {
        return Next::TooMany;
    }
    match pending.line_feed_at() {
        Some(end) if is_short(end) => Next::Line(end),
        None if bytes.len() < CAPACITY => Next::Part,
        _ => Next::TooLong,
    }
}

/// Takes the line that ends in the buffer. What follows it is not known yet, so all is said for every rest of the
/// input.
fn take_line<M: Machine>(
    rt: &(impl Threads + Sync),
    alloc: Global,
    progress: &mut Progress,
    end: usize,
    machine: &mut M,
) -> Result<Option<Replayed>, ReplayFault>
    requires next { IsNext progress.old.pending progress.old.lines (Line end) }
    requires each { progress.old.checker.entries ≤ progress.old.lines }
    ensures calm { is_read_fault result ≡ false }
    ensures taken { (bytes : List ℕ) (rest : List ℕ) (i : Reading) →
        Comes bytes (progress.old.pending ++ rest) progress.old.lines progress.old.checker (M.network machine.old) →
        IsTakenLine bytes (progress.new.pending ++ rest) result progress.new.lines progress.new.checker
        (M.network machine.new) i }
    ensures next { IfOk result (λ verdict. verdict ≡ None → progress.new.lines ≡ progress.old.lines + 1) }
    ensures each { IfOk result (λ verdict. verdict ≡ None → progress.new.checker.entries ≤ progress.new.lines) }
{
    let next = progress.lines + 1;
    let line = &progress.pending.as_slice()[..end];
    match check_line(rt, alloc, &mut progress.checker, line, machine) {
        Ok(Checked::Taken) => {
            progress.pending.skip(end + 1);
            progress.lines = next;
            Ok(None)
        }
        Ok(Checked::Differs) => Ok(Some(Replayed::Differs { line: next })),
        Ok(Checked::Bad) => Ok(Some(Replayed::BadLine { line: next })),
        Err(AllocError) => Err(ReplayFault::Memory),
    }
}

/// What a log is whose input has ended.
fn ending(progress: &Progress) -> Replayed
    requires next { IsNext progress.now.pending progress.now.lines Part }
    requires few { progress.now.lines ≤ most_lines }
    ensures { (bytes : List ℕ) (i : Reading) (s : Network) → i.remaining ≡ Some [] →
        Comes bytes progress.now.pending progress.now.lines progress.now.checker s → IsReplay bytes (Ok result) i }
{
    if progress.pending.as_slice().is_empty() && has_ended(&progress.checker) {
        return Replayed::Agrees {
            entries: progress.checker.entries,
        };
    }
    Replayed::BadLine {
        line: progress.lines + 1,
    }
}

/// Reads more bytes. At the end of the input, what the log is.
fn read_on<R: Source>(
    progress: &mut Progress,
    input: &mut Input<R>,
) -> Result<Option<Replayed>, ReplayFault>
    requires next { IsNext progress.old.pending progress.old.lines Part }
    requires few { progress.old.lines ≤ most_lines }
    requires reads { input.old.failed ≡ false }
    ensures reader { input.new.failed ≡ is_read_fault result }
    ensures advance { (bytes : List ℕ) (rest : List ℕ) (s : Network) → input.old.remaining ≡ Some rest →
        Comes bytes (progress.old.pending ++ rest) progress.old.lines progress.old.checker s →
        IsAdvance bytes result progress.new.pending progress.new.lines progress.new.checker s input.new }
    ensures lines { progress.new.lines ≡ progress.old.lines }
    ensures entries { progress.new.checker.entries ≡ progress.old.checker.entries }
    ensures more { IfOk result (λ verdict. verdict ≡ None → length progress.old.pending < length progress.new.pending) }
{
    let next = progress.lines + 1;
    match progress.pending.read_more(input) {
        Ok(true) => Ok(None),
        Ok(false) => Ok(Some(ending(progress))),
        Err(_) => Err(ReplayFault::Read { line: next }),
    }
}

/// Takes a line that was read, or reads more. What the log is, where that is known.
pub(crate) fn advance<R: Source, M: Machine>(
    rt: &(impl Threads + Sync),
    alloc: Global,
    progress: &mut Progress,
    input: &mut Input<R>,
    machine: &mut M,
) -> Result<Option<Replayed>, ReplayFault>
    requires reads { input.old.failed ≡ false }
    requires few { progress.old.lines ≤ most_lines }
    requires each { progress.old.checker.entries ≤ progress.old.lines }
    ensures reader { input.new.failed ≡ is_read_fault result }
    ensures advance { (bytes : List ℕ) (rest : List ℕ) → input.old.remaining ≡ Some rest →
        Comes bytes (progress.old.pending ++ rest) progress.old.lines progress.old.checker (M.network machine.old) →
        IsAdvance bytes result progress.new.pending progress.new.lines progress.new.checker
        (M.network machine.new) input.new }
    ensures few { IfOk result (λ verdict. verdict ≡ None → progress.new.lines ≤ most_lines) }
    ensures each { IfOk result (λ verdict. verdict ≡ None → progress.new.checker.entries ≤ progress.new.lines) }
    ensures smaller { IfOk result (λ verdict. verdict ≡ None →
        work_left progress.new.pending progress.new.lines < work_left progress.old.pending progress.old.lines) }
{
    match next_line(&progress.pending, progress.lines) {
        Next::Line(end) => take_line(rt, alloc, progress, end, machine),
        Next::Part => read_on(progress, input),
        Next::TooLong => Ok(Some(Replayed::BadLine {
            line: progress.lines + 1,
        })),
        Next::TooMany => Err(ReplayFault::TooManyLines),
    }
}
