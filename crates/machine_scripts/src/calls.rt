//! A room whose calls are lines: a command is a call of `Room::step`, and words stand for the others.

ghost use Rattle.std.specs.Prelude.{◌<◌, length, IfOk, IfSome};
ghost use Rattle.desk.specs.Desks.{IsDeskLedger};

use crate::hands::Hands;
use reply_text::RunFault;
use line_serving::CAPACITY;
use std::alloc::Global;
use std::sync::ledger::{Blank, Ledger};
use std::thread::Threads;
use watched::{Input, LineBuffer, Output, Sink, Source};

/// The most lines.
const MOST_LINES: u64 = 1_000_000;

/// Answers each line in turn, in a new room. It ends with the input, or with the line `close`.
pub(crate) fn serve_calls<L: Ledger, R: Source, W: Sink>(
    rt: &(impl Threads + Sync),
    alloc: Global,
    blank: Blank,
    input: &mut Input<R>,
    output: &mut Output<W>,
) -> Result<(), RunFault>
    requires ledger { IsDeskLedger blank.name blank.parts L.name L.parts }
{
    let mut buffer = LineBuffer::new(alloc)?;
    let mut hands: Hands<L> = Hands::new(alloc, blank)?;
    match answer_lines(rt, &mut buffer, &mut hands, input, output) {
        Ok(true) => hands.close(output),
        Ok(false) => {
            drop(hands);
            Ok(())
        }
        Err(fault) => {
            drop(hands);
            Err(fault)
        }
    }
}

/// Answers each line in turn. Whether the room is to be closed.
fn answer_lines<L: Ledger, R: Source, W: Sink>(
    rt: &(impl Threads + Sync),
    buffer: &mut LineBuffer<CAPACITY>,
    hands: &mut Hands<L>,
    input: &mut Input<R>,
    output: &mut Output<W>,
) -> Result<bool, RunFault> {
    for number in 0..MOST_LINES {
        let Some(end) = next_line(buffer, number + 1, input, output)? else {
            return Ok(false);
        };
        let line = &buffer.as_slice()[..end];
        if line == b"close".as_slice() {
            return Ok(true);
        }
        if hands.answer(rt, line, output).is_err() {
            return Err(RunFault::Unwritten);
        }
        buffer.skip(end + 1);
    }
    Ok(false)
}

/// The index of the end of the line of that number, once it was read. None at the end of the input. All that was
/// written is sent on before more is read.
fn next_line<R: Source, W: Sink>(
    buffer: &mut LineBuffer<CAPACITY>,
    line: u64,
    input: &mut Input<R>,
    output: &mut Output<W>,
) -> Result<Option<usize>, RunFault>
    ensures within { IfOk result (λ found. IfSome found (λ end. end < length buffer.new)) }
{
    for _ in 0..CAPACITY {
        if let Some(end) = buffer.line_feed_at() {
            return Ok(Some(end));
        }
        if buffer.as_slice().len() >= CAPACITY {
            return Err(RunFault::LineUnread { line });
        }
        if output.flush().is_err() {
            return Err(RunFault::Unwritten);
        }
        match buffer.read_more(input) {
            Ok(true) => {}
            Ok(false) => return Ok(None),
            Err(_) => return Err(RunFault::LineUnread { line }),
        }
    }
    Err(RunFault::LineUnread { line })
}
