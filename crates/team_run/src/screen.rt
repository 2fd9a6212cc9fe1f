//! The terminal on which it is told how far a team is.

ghost use Rattle.team_run.specs.Screen.{progress_text};
ghost use Rattle.watched.specs.Streams.{Writes};

use desk::Progress;
use reply_text::{Part, write_each};
use std::sync::{Mutex, Wait};
use watched::{Output, Sink, WriterFailed};

/// A line of the terminal, which is written over.
#[derive(Drop)]
pub(crate) struct Screen<'e, E: Sink> {
    errors: Mutex<&'e mut Output<E>>,
}

impl<'e, E: Sink> Screen<'e, E> {
    pub(crate) fn new(errors: &'e mut Output<E>) -> Self {
        Screen {
            errors: Mutex::new(errors),
        }
    }

    /// Writes how far the team is over what stands there. A failure to do so is passed over.
    pub(crate) fn show<R: Wait>(&self, rt: &R, progress: Progress) {
        let mut errors = self.errors.lock(rt);
        let _ = write_progress(progress, &mut errors);
    }

    /// Empties the line. A failure to do so is passed over.
    pub(crate) fn clear(self) {
        let errors = self.errors.into_inner();
        let _ = errors.write(b"\r\x1b[K");
    }
}

/// Writes how far the team is over what stands on the terminal's line.
fn write_progress<W: Sink>(progress: Progress, output: &mut Output<W>) -> Result<(), WriterFailed>
    ensures { Writes output.old (progress_text progress.calls progress.waiting) result output.new }
{
    let parts = [
        Part::Bytes(b"\r\x1b[K"),
        Part::Number(progress.calls),
        Part::Bytes(b" calls, "),
        Part::Number(progress.waiting),
        Part::Bytes(b" messages wait"),
    ];
    write_each(&parts, output)
}
