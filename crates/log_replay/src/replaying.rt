//! Replaying a log.

ghost use Rattle.std.specs.Prelude.{◌≡◌, ◌≤◌, false, IfSome, []};
ghost use Rattle.reference_machine.specs.Machine.{nothing};
ghost use Rattle.log_replay.specs.Replaying.{IsReplay, beginning, is_read_fault};
ghost use Rattle.log_replay.specs.Reading.{IsAt};
ghost use Rattle.log_replay.specs.Exactness.{IsProof, IsFair};

use crate::limits::CAPACITY;
use crate::progress::{Progress, advance};
use crate::verdict::{ReplayFault, Replayed};
use command_text::one_meaning;
use reference_machine::Machine;
use reply_text::replies_are_lines;
use std::alloc::Global;
use std::thread::Threads;
use watched::{Input, LineBuffer, Source};

/// Reads a log line by line into the buffer, runs each of its commands on the machine, which has done nothing yet, and
/// compares each line of the reply. Ends at the first line that differs or is bad, and else at the end of the input.
///
/// It agrees just where the input is the log, of either version, of a legal history of so many calls, each command of
/// at most 4,096 bytes, in at most 16,000,000 lines of at most 1,048,576 bytes each; unless the reader failed, or
/// memory was wanted for a call. Holds one line and one reply at a time. More may have been read than was looked at.
pub fn replay<R: Source, M: Machine>(
    rt: &(impl Threads + Sync),
    alloc: Global,
    buffer: LineBuffer<CAPACITY>,
    input: &mut Input<R>,
    machine: &mut M,
) -> Result<Replayed, ReplayFault>
    requires empty { buffer ≡ [] }
    requires new { M.network machine.old ≡ nothing }
    requires reads { input.old.failed ≡ false }
    ensures reader { input.new.failed ≡ is_read_fault result }
    ensures replayed { IfSome input.old.remaining (λ bytes. IsReplay bytes result input.new) }
    // Only the log of a legal history agrees.
    ensures sound { IfSome input.old.remaining (λ bytes. IsProof bytes result) }
    // And each such log does.
    ensures complete { IfSome input.old.remaining (λ bytes. IsFair bytes result) }
{
    let mut progress = Progress::new(alloc, buffer);
    let result = read_through(rt, alloc, &mut progress, input, machine);
    one_meaning();
    replies_are_lines();
    result
}

/// Goes on until it is known what the log is.
fn read_through<R: Source, M: Machine>(
    rt: &(impl Threads + Sync),
    alloc: Global,
    progress: &mut Progress,
    input: &mut Input<R>,
    machine: &mut M,
) -> Result<Replayed, ReplayFault>
    requires new { M.network machine.old ≡ nothing }
    requires reads { input.old.failed ≡ false }
    requires pending { progress.old.pending ≡ [] }
    requires lines { progress.old.lines ≡ 0 }
    requires entries { progress.old.checker.entries ≡ 0 }
    requires at { IsAt progress.old.checker nothing beginning }
    ensures reader { input.new.failed ≡ is_read_fault result }
    ensures replayed { IfSome input.old.remaining (λ bytes. IsReplay bytes result input.new) }
{
    'lines: loop {
        if let Some(verdict) = advance(rt, alloc, progress, input, machine)? {
            return Ok(verdict);
        }
    }
}
