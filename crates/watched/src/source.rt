//! What bytes are read from.

ghost use Rattle.std.specs.Prelude.{◌≡◌, ◌≤◌, true, false, length, IfOk, OnOk, OnErr};
ghost use Rattle.std.specs.Io.KnownBytes.{ReadConsumes};

use std::io;
use std::io::Read;
use std::marker::Model;

/// A stream that is read. What it did is all that is known of it, and no caller can say otherwise: a read that fails
/// has failed in the stream.
pub trait Source {
    ghost use Rattle.std.specs.Prelude.{Bool, List, ℕ, Option};

    /// The bytes that are still to come, where it tells them.
    ghost remaining: { Self → Option (List ℕ) };

    /// Whether a read has failed.
    ghost has_failed: { Self → Bool };

    /// Reads some bytes into the buffer, as `std::io::Read::read` does: 0 at the end.
    fn read(&mut self, buffer: &mut [u8]) -> io::Result<usize>
        ensures bound { IfOk result (λ n. n ≤ length buffer.new) }
        ensures bytes { ReadConsumes (remaining self.old) (remaining self.new) result buffer.new }
        ensures ok { OnOk result (has_failed self.new ≡ has_failed self.old) }
        ensures err { OnErr result (has_failed self.new ≡ true) };
}

/// A reader of std's. It notes a failure where std's call answers one, and nowhere else: `tools/stream-faults` reads
/// that off this file.
#[derive(Drop)]
pub struct Reader<R: Read> {
    reader: R,
    failed: bool,
}

impl<R: Read> Model for Reader<R> {
    ghost use Rattle.watched.specs.Streams.{Reading};

    ghost Value = { Reading };

    ghost view = { λ r. record { remaining = R.remaining r.reader; failed = r.failed } };
}

impl<R: Read> Reader<R> {
    /// Notes failures from now on.
    pub fn new(reader: R) -> Self
        ensures remaining { result.remaining ≡ R.remaining reader }
        ensures failed { result.failed ≡ false }
    {
        Reader {
            reader,
            failed: false,
        }
    }
}

impl<R: Read> Source for Reader<R> {
    ghost remaining = { λ r. r.remaining };

    ghost has_failed = { λ r. r.failed };

    fn read(&mut self, buffer: &mut [u8]) -> io::Result<usize> {
        match self.reader.read(buffer) {
            Ok(count) => Ok(count),
            Err(error) => {
                self.failed = true;
                Err(error)
            }
        }
    }
}
