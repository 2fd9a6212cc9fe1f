//! A source, as what is known of it.

ghost use Rattle.std.specs.Prelude.{◌≡◌, ◌≤◌, true, length, IfOk, OnOk, OnErr};
ghost use Rattle.std.specs.Io.KnownBytes.{ReadConsumes};

use crate::Source;
use std::io;
use std::marker::Model;

/// A source, as the bytes that are still to come and whether a read has failed.
#[derive(Drop)]
pub struct Input<R: Source> {
    source: R,
}

impl<R: Source> Model for Input<R> {
    ghost use Rattle.watched.specs.Streams.{Reading};

    ghost Value = { Reading };

    ghost view = { λ i. record { remaining = R.remaining i.source; failed = R.has_failed i.source } };
}

impl<R: Source> Input<R> {
    pub fn new(source: R) -> Self
        ensures remaining { result.remaining ≡ R.remaining source }
        ensures failed { result.failed ≡ R.has_failed source }
    {
        Input { source }
    }

    /// Reads some bytes into the buffer, as `std::io::Read::read` does: 0 at the end.
    pub fn read(&mut self, buffer: &mut [u8]) -> io::Result<usize>
        ensures bound { IfOk result (λ n. n ≤ length buffer.new) }
        ensures bytes { ReadConsumes self.old.remaining self.new.remaining result buffer.new }
        ensures ok { OnOk result (self.new.failed ≡ self.old.failed) }
        ensures err { OnErr result (self.new.failed ≡ true) }
    {
        self.source.read(buffer)
    }
}
