//! A sink, as what is known of it.

ghost use Rattle.std.specs.Prelude.{◌≡◌, ◌<◌, length, true, false, OnOk, OnErr};
ghost use Rattle.std.specs.Io.KnownBytes.{Appends, Keeps};
ghost use Rattle.watched.specs.Streams.{AppendsFront, Writes};

use crate::{Sink, WriterFailed};
use std::marker::Model;

/// A sink, as the bytes that were written, whether a write has failed, and whether it may hold bytes back.
#[derive(Drop)]
pub struct Output<W: Sink> {
    sink: W,
    held: bool,
}

impl<W: Sink> Model for Output<W> {
    ghost use Rattle.watched.specs.Streams.{Writing};

    ghost Value = { Writing };

    ghost view = { λ o. record { written = W.written o.sink; failed = W.has_failed o.sink; held = o.held } };
}

impl<W: Sink> Output<W> {
    /// A sink that holds nothing back.
    pub fn new(sink: W) -> Self
        ensures written { result.written ≡ W.written sink }
        ensures failed { result.failed ≡ W.has_failed sink }
        ensures held { result.held ≡ false }
    {
        Output { sink, held: false }
    }

    /// The sink.
    pub fn into_inner(self) -> W
        ensures written { W.written result ≡ self.written }
        ensures failed { W.has_failed result ≡ self.failed }
    {
        self.sink
    }

    /// Whether bytes were written since all was last sent on.
    pub fn holds_back(&self) -> bool
        ensures { result ≡ self.now.held }
    {
        self.held
    }

    /// Writes all of the bytes, or fails after some of them.
    pub fn write(&mut self, bytes: &[u8]) -> Result<(), WriterFailed>
        ensures { Writes self.old bytes.now result self.new }
    {
        let result = write_all(&mut self.sink, bytes);
        self.held = self.held || !bytes.is_empty();
        result
    }

    /// Sends on what the sink holds back. After an error it may still hold all of it.
    pub fn flush(&mut self) -> Result<(), WriterFailed>
        ensures kept { Keeps self.old.written self.new.written }
        ensures calm { OnOk result (self.new.failed ≡ self.old.failed) }
        ensures sent { OnOk result (self.new.held ≡ false) }
        ensures failed { OnErr result (self.new.failed ≡ true) }
        ensures unsent { OnErr result (self.new.held ≡ self.old.held) }
    {
        self.sink.flush()?;
        self.held = false;
        Ok(())
    }
}

/// Writes all of the bytes, or fails after some of them.
fn write_all<W: Sink>(sink: &mut W, bytes: &[u8]) -> Result<(), WriterFailed>
    ensures ok { OnOk result (Appends (W.written sink.old) (W.written sink.new) bytes.now) }
    ensures calm { OnOk result (W.has_failed sink.new ≡ W.has_failed sink.old) }
    ensures front { OnErr result (AppendsFront (W.written sink.old) (W.written sink.new) bytes.now) }
    ensures failed { OnErr result (W.has_failed sink.new ≡ true) }
    ensures some { OnErr result (0 < length bytes.now) }
{
    let mut done = 0;
    while done < bytes.len() {
        done += sink.write(&bytes[done..])?;
    }
    Ok(())
}
