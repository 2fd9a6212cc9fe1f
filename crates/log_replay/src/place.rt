//! The place to which a log has come.

ghost use Rattle.std.specs.Prelude.{◌≤◌, vec_len};

use log_text::Version;

/// The parts of a log.
#[derive(Clone, Copy, Debug, PartialEq, Eq)]
pub(crate) enum Stage {
    /// The header is awaited.
    Beginning,
    /// A call of this version, a line of a reply, or the end is awaited.
    Within(Version),
    /// Nothing is awaited.
    Finished,
}

/// What a log has come to.
#[derive(Drop)]
pub(crate) struct Checker {
    pub(crate) stage: Stage,
    /// How many calls there were.
    pub(crate) entries: u64,
    /// The lines that are due of the last call's reply, each with its mark and its line feed, from `at` on.
    pub(crate) due: Vec<u8>,
    pub(crate) at: usize,
    ghost inside: { at ≤ vec_len due },
}

/// What becomes of a line.
#[derive(Clone, Copy, Debug, PartialEq, Eq)]
pub(crate) enum Checked {
    /// It may stand at its place.
    Taken,
    /// It stands where a line of a reply is due, and is another.
    Differs,
    /// It may not stand at its place.
    Bad,
}

/// What stands at the head of the bytes that are left.
#[derive(Clone, Copy, Debug, PartialEq, Eq)]
pub(crate) enum Next {
    /// A line, with its line feed at this index.
    Line(usize),
    /// Nothing, or a part of a line.
    Part,
    /// A line that is too long.
    TooLong,
    /// A line that is one too many.
    TooMany,
}
