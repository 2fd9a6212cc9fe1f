//! What is on its way.

ghost use Rattle.std.specs.Prelude.{◌≡◌, IfOk};
ghost use Rattle.session_queue.specs.Waiting.{queue_at};
ghost use Rattle.reference_machine.specs.Reports.{queue, is_quiet};
ghost use Rattle.cell_engine.specs.State.{network};

use cell_engine::{Cell, State};
use prefix_table::PrefixTable;
use route_select::Selector;
use session_queue::{Direction, Message, Queues};
use std::alloc::{AllocError, Global};

/// The messages on their way in the direction, the head first; none while the session is down.
pub(crate) fn queue<S: Selector, T: PrefixTable<Cell<S>>>(
    alloc: Global,
    state: &State<S, T>,
    direction: Direction,
) -> Result<Vec<Message>, AllocError>
    ensures { IfOk result (λ messages. messages.items ≡ queue (network state.now) direction) }
{
    state.facts();
    if state.conf().is_up(direction.from, direction.to) {
        messages_in(alloc, state.queues(), direction)
    } else {
        Ok(Vec::new(alloc))
    }
}

/// The messages in the direction's queue, the head first.
fn messages_in(
    alloc: Global,
    queues: &Queues,
    direction: Direction,
) -> Result<Vec<Message>, AllocError>
    ensures { IfOk result (λ messages. messages.items ≡ queue_at queues.now direction.from direction.to) }
{
    let mut messages = Vec::new(alloc);
    for index in 0..queues.len(direction.from, direction.to) {
        match queues.at(direction.from, direction.to, index) {
            None => unreachable!(),
            Some(message) => messages.push(message.to_message()?)?,
        }
    }
    Ok(messages)
}

/// Whether no message is on its way. It takes no memory.
pub(crate) fn is_quiet<S: Selector, T: PrefixTable<Cell<S>>>(state: &State<S, T>) -> bool
    ensures { result ≡ is_quiet (network state.now) }
{
    state.facts();
    state.queues().all_empty()
}
