//! Places for what an edit sends.

ghost use Rattle.std.specs.Prelude.{◌≡◌, ◌≤◌, ◌+◌, length, cond, IfOk, OnOk};
ghost use Rattle.session_queue.specs.Waiting.{spare_at, same_direction};
ghost use Rattle.cell_engine.specs.Sending.{told_from};
ghost use Rattle.cell_engine.specs.Editing.{told_by_all};
ghost use Rattle.cell_engine.specs.Admitting.{AreAllAdmitted};
ghost use Rattle.cell_engine.specs.CellEdits.{edit_sends, edits_send};
ghost use Rattle.cell_engine.specs.Counts.{count_at};
ghost use Rattle.cell_engine.specs.Queueing.{KeepsMessages, KeepsPlaces};

use crate::edits::cell_edits::CellEdit;
use crate::sending::admit_all;
use net_prefix::Addr;
use route_select::Selector;
use session_queue::{Direction, Message, Queues};
use std::alloc::{AllocError, Global};
use std::collections::BTreeMap;

/// Counts one message more in the direction. What cannot be counted finds no place either: the error is want of memory,
/// and leaves any count.
fn count_one(
    counts: &mut BTreeMap<Direction, usize>,
    direction: Direction,
) -> Result<(), AllocError>
    ensures { OnOk result ((f t : Addr) →
        count_at counts.new.entries f t ≡ count_at counts.old.entries f t + cond
        (same_direction direction.from direction.to f t) 1 0) }
{
    let before = counts.get(&direction).copied().unwrap_or(0);
    if before == usize::MAX {
        return Err(AllocError);
    }
    counts.insert(direction, before + 1)?;
    Ok(())
}

/// Counts what the router sends.
fn count_sends(
    counts: &mut BTreeMap<Direction, usize>,
    router: Addr,
    sends: &[(Addr, Message)],
) -> Result<(), AllocError>
    ensures { OnOk result ((f t : Addr) →
        count_at counts.new.entries f t ≡ count_at counts.old.entries f t + length (told_from router sends.now f t)) }
{
    for send in sends {
        let direction = Direction {
            from: router,
            to: send.0,
        };
        count_one(counts, direction)?;
    }
    Ok(())
}

/// Counts what is sent for the edited cell: nothing where its cost alone changes.
fn count_edit<S: Selector>(
    counts: &mut BTreeMap<Direction, usize>,
    edit: &CellEdit<S>,
) -> Result<(), AllocError>
    ensures { OnOk result ((f t : Addr) →
        count_at counts.new.entries f t ≡ count_at counts.old.entries f t + length
        (told_from edit.now.router (edit_sends edit.now) f t)) }
{
    match &edit.remade {
        Some(outcome) => count_sends(counts, edit.router, &outcome.sends),
        None => Ok(()),
    }
}

/// How many messages are sent for the edited cells in each direction.
fn counts_of<S: Selector>(
    alloc: Global,
    edits: &[CellEdit<S>],
) -> Result<BTreeMap<Direction, usize>, AllocError>
    ensures { IfOk result (λ counts. (f t : Addr) →
        count_at counts.entries f t ≡ length (told_by_all (edits_send edits.now) f t)) }
{
    let mut counts = BTreeMap::new(alloc);
    for edit in edits {
        count_edit(&mut counts, edit)?;
    }
    Ok(counts)
}

/// Sees to it that each direction has as many places as were counted.
fn reserve_counts(
    queues: &mut Queues,
    counts: &BTreeMap<Direction, usize>,
) -> Result<(), AllocError>
    ensures queue { KeepsMessages queues.old queues.new }
    ensures room { OnOk result ((f t : Addr) → count_at counts.now.entries f t ≤ spare_at queues.new f t) }
    ensures admitted { queues.new.admitted ≡ queues.old.admitted }
{
    for (direction, count) in counts {
        queues.reserve(direction.from, direction.to, *count)?;
    }
    Ok(())
}

/// Sees to it that each message may be sent that is sent for the edited cells.
fn admit_each<S: Selector>(queues: &mut Queues, edits: &[CellEdit<S>]) -> Result<(), AllocError>
    ensures admitted { OnOk result (AreAllAdmitted queues.new.admitted edits.now) }
    ensures queue { KeepsMessages queues.old queues.new }
    ensures spare { KeepsPlaces queues.old queues.new }
{
    for edit in edits {
        admit_all(queues, edit.sends())?;
    }
    Ok(())
}

/// Sees to it that each message that is sent for the edited cells may be, and has a place. Each direction is asked for
/// its places once.
pub(crate) fn reserve_each<S: Selector>(
    alloc: Global,
    queues: &mut Queues,
    edits: &[CellEdit<S>],
) -> Result<(), AllocError>
    ensures queue { KeepsMessages queues.old queues.new }
    ensures room { OnOk result ((f t : Addr) →
        length (told_by_all (edits_send edits.now) f t) ≤ spare_at queues.new f t) }
    ensures admitted { OnOk result (AreAllAdmitted queues.new.admitted edits.now) }
{
    admit_each(queues, edits)?;
    let counts = counts_of(alloc, edits)?;
    reserve_counts(queues, &counts)
}
