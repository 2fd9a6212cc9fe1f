//! What bytes are written to.

ghost use Rattle.std.specs.Prelude.{◌≡◌, ◌<◌, ◌≤◌, true, false, length, IfOk, OnOk, OnErr};
ghost use Rattle.std.specs.Io.KnownBytes.{Keeps, WriteAppends};

use std::io::Write;
use std::marker::Model;
use thiserror::Error;

/// The writer failed.
#[derive(Clone, Copy, Debug, PartialEq, Eq, Error)]
#[error("the writer failed")]
pub struct WriterFailed;

/// A stream that is written. What it did is all that is known of it, and no caller can say otherwise: a write that
/// fails has failed in the stream.
pub trait Sink {
    ghost use Rattle.std.specs.Prelude.{Bool, List, ℕ, Option};

    /// The bytes that were written, where it tells them.
    ghost written: { Self → Option (List ℕ) };

    /// Whether a write has failed.
    ghost has_failed: { Self → Bool };

    /// Writes a front of the bytes, of at least one byte where there are any, and says of how many.
    fn write(&mut self, bytes: &[u8]) -> Result<usize, WriterFailed>
        ensures bound { IfOk result (λ n. n ≤ length bytes.now) }
        ensures some { IfOk result (λ n. 0 < length bytes.now → 0 < n) }
        ensures bytes { WriteAppends (written self.old) (written self.new) result bytes.now }
        ensures ok { OnOk result (has_failed self.new ≡ has_failed self.old) }
        ensures err { OnErr result (has_failed self.new ≡ true) };

    /// Sends on what it holds back.
    fn flush(&mut self) -> Result<(), WriterFailed>
        ensures kept { Keeps (written self.old) (written self.new) }
        ensures ok { OnOk result (has_failed self.new ≡ has_failed self.old) }
        ensures err { OnErr result (has_failed self.new ≡ true) };
}

/// A writer of std's. It notes a failure where std's call answers one, or takes none of some bytes, and nowhere else:
/// `tools/stream-faults` reads that off this file.
#[derive(Drop)]
pub struct Writer<W: Write> {
    writer: W,
    failed: bool,
}

impl<W: Write> Model for Writer<W> {
    ghost use Rattle.watched.specs.Streams.{Receiving};

    ghost Value = { Receiving };

    ghost view = { λ w. record { written = W.contents w.writer; failed = w.failed } };
}

impl<W: Write> Writer<W> {
    /// Notes failures from now on.
    pub fn new(writer: W) -> Self
        ensures written { result.written ≡ W.contents writer }
        ensures failed { result.failed ≡ false }
    {
        Writer {
            writer,
            failed: false,
        }
    }

    /// The writer of std's.
    pub fn into_inner(self) -> W
        ensures { W.contents result ≡ self.written }
    {
        self.writer
    }
}

impl<W: Write> Sink for Writer<W> {
    ghost written = { λ w. w.written };

    ghost has_failed = { λ w. w.failed };

    fn write(&mut self, bytes: &[u8]) -> Result<usize, WriterFailed> {
        match self.writer.write(bytes) {
            Ok(n) if n > 0 || bytes.is_empty() => Ok(n),
            Ok(_) | Err(_) => {
                self.failed = true;
                Err(WriterFailed)
            }
        }
    }

    fn flush(&mut self) -> Result<(), WriterFailed> {
        match self.writer.flush() {
            Ok(()) => Ok(()),
            Err(_) => {
                self.failed = true;
                Err(WriterFailed)
            }
        }
    }
}
