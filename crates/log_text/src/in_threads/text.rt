//! The text of calls.

ghost use Rattle.std.specs.Prelude.{◌≡◌, ◌≤◌, IfSome, length};
ghost use Rattle.std.specs.List.{flat_map};
ghost use Rattle.std.specs.Thread.{IsSync};
ghost use Rattle.log_text.specs.Logs.{entry_text};

use crate::log::write_entries;
use sim_event::Entry;
use std::alloc::Global;
use std::thread::{Threads, join};
use watched::{Output, Writer};

/// The fewest calls that a thread is started for.
const LEAST_CALLS: usize = 512;

/// The text of the calls, which so many threads make, each its part. None where there is no memory for it.
pub(crate) fn text_by_threads<R: Threads + Sync>(
    rt: &R,
    alloc: Global,
    threads: u16,
    entries: &[Entry],
) -> Option<Vec<u8>>
    ensures { IfSome result (λ text. text.items ≡ flat_map entry_text entries.now) }
{
    if threads < 2 || entries.len() < LEAST_CALLS {
        return text_of(alloc, entries);
    }
    let few = threads / 2;
    let others = threads - few;
    let (front, back) = entries.split_at(entries.len() / usize::from(threads) * usize::from(few));
    let (front, back) = join(
        rt,
        || -> Option<Vec<u8>>
            requires { IsSync R.row }
            ensures { IfSome result (λ text. text.items ≡ flat_map entry_text front.entry.now) }
        { text_by_threads(rt, alloc, few, front) },
        || -> Option<Vec<u8>>
            requires { IsSync R.row }
            ensures { IfSome result (λ text. text.items ≡ flat_map entry_text back.entry.now) }
        { text_by_threads(rt, alloc, others, back) },
    );
    let mut text = front?;
    text.extend_from_slice(&back?).ok()?;
    Some(text)
}

/// The text of the calls. None where there is no memory for it.
fn text_of(alloc: Global, entries: &[Entry]) -> Option<Vec<u8>>
    ensures { IfSome result (λ text. text.items ≡ flat_map entry_text entries.now) }
{
    let mut output = Output::new(Writer::new(Vec::new(alloc)));
    write_entries(entries, &mut output).ok()?;
    Some(output.into_inner().into_inner())
}
