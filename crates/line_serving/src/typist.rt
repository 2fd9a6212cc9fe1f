//! Whoever types the lines of a script and reads its replies.

ghost use Rattle.std.specs.Prelude.{◌≡◌, ℕ, ◌<◌, ◌==◌, List, [], ◌++◌, length, position, None, IfOk, OnOk, OnErr, true, false};
ghost use Rattle.std.specs.Io.KnownBytes.{Consumes, IsAtEnd, Keeps};

use std::io;
use watched::{Input, LineBuffer, Output, Sink, Source};

/// Holds the longest line with its end: 65,536 bytes, CR and LF.
pub const CAPACITY: usize = 65_538;

/// Whoever types lines and reads the replies on `W`: more is asked for only where nothing of them is held back.
pub trait Typist<W: Sink> {
    ghost use Rattle.watched.specs.Streams.{Reading};

    /// What is still to come, and whether a read has failed.
    ghost reading: { Self → Reading };

    /// Reads more bytes behind those that are pending, among which no line feed is, and says whether there were any.
    fn read_more(
        &mut self,
        pending: &mut LineBuffer<CAPACITY>,
        replies: &Output<W>,
    ) -> io::Result<bool>
        requires shown { replies.now.held ≡ false }
        requires room { length pending.old < 65538 }
        requires whole { position (λ b. b == 10) pending.old ≡ None }
        ensures ok { IfOk result (λ any. (more : List ℕ) × (pending.new ≡ pending.old ++ more)
            × Consumes (reading self.old).remaining (reading self.new).remaining more
            × (any ≡ true → 0 < length more)
            × (any ≡ false → (more ≡ []) × IsAtEnd (reading self.new).remaining)) }
        ensures calm { OnOk result ((reading self.new).failed ≡ (reading self.old).failed) }
        ensures err { OnErr result ((reading self.new).failed ≡ true) }
        ensures left { OnErr result (Keeps (reading self.old).remaining (reading self.new).remaining) };
}

impl<R: Source, W: Sink> Typist<W> for Input<R> {
    ghost reading = { λ input. input };

    fn read_more(
        &mut self,
        pending: &mut LineBuffer<CAPACITY>,
        _replies: &Output<W>,
    ) -> io::Result<bool> {
        pending.read_more(self)
    }
}
