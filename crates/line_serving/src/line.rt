//! Where lines end.

ghost use Rattle.std.specs.Prelude.{◌≡◌};
ghost use Rattle.std.specs.Str.Lines.{strip_carriage_return};
ghost use Rattle.line_serving.specs.Next.{IsNext};

use crate::typist::CAPACITY;
use watched::LineBuffer;

/// The most bytes of a line, its end not counted.
pub(crate) const MOST_BYTES: usize = 65_536;

/// The most lines of a script.
pub(crate) const MOST_LINES: u64 = 1_000_000;

/// What stands at the head of the bytes that are left.
#[derive(Clone, Copy, Debug, PartialEq, Eq)]
pub(crate) enum Next {
    /// A line, with its line feed at this index.
    Line(usize),
    /// Nothing, or a part of a line that may be the last.
    Part,
    /// A line that is too long, or one too many.
    Unfit,
}

/// A line without the carriage return at its end.
pub(crate) fn without_carriage_return(line: &[u8]) -> &[u8]
    ensures { result.now ≡ strip_carriage_return line.now }
{
    match line {
        [front @ .., b'\r'] => front,
        _ => line,
    }
}

/// What stands at the head of the bytes that are left, after so many lines.
pub(crate) fn next_line(pending: &LineBuffer<CAPACITY>, answered: u64) -> Next
    ensures { IsNext pending.now answered result }
{
    let bytes = pending.as_slice();
    if answered >= MOST_LINES && !bytes.is_empty() {
        return Next::Unfit;
    }
    match pending.line_feed_at() {
        Some(end) if without_carriage_return(&bytes[..end]).len() <= MOST_BYTES => Next::Line(end),
        None if bytes.len() < CAPACITY => Next::Part,
        _ => Next::Unfit,
    }
}
