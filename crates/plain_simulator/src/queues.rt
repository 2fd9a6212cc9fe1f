//! The messages on their way.

ghost use Rattle.std.specs.Prelude.{◌≡◌, ◌++◌, IfOk, OnOk, option_map, filter};
ghost use Rattle.std.specs.Ordering.{is_gt, is_lt};
ghost use Rattle.session_queue.specs.Waiting.{direction_cmp};
ghost use Rattle.reference_machine.specs.Network.{messages_in, with_direction, with_more, with_message, rest_of, without_head, without_its_head, with_one_more};

use reference_machine::Queue;
use seq::{Copied, Seq, copy_all};
use session_queue::{Direction, Message};
use std::alloc::{AllocError, Global};

/// The messages on their way in the direction, where there is a session.
pub fn messages_in(queues: &[Queue], direction: Direction) -> Option<&[Message]>
    ensures { option_map (λ messages. messages.now) result ≡ messages_in queues.now direction }
{
    queues
        .iter()
        .find(|q| q.of.from == direction.from && q.of.to == direction.to)
        .map(|q| q.messages.as_slice())
}

/// Adds the queues that stand before the direction.
fn add_before(
    alloc: Global,
    kept: &mut Vec<Queue>,
    queues: &[Queue],
    direction: Direction,
) -> Result<(), AllocError>
    ensures { OnOk result
        (kept.new.items ≡ kept.old.items ++ filter (λ q. is_gt (direction_cmp direction q.of)) queues.now) }
{
    for queue in queues {
        if direction.cmp(&queue.of).is_gt() {
            kept.push(queue.copy(alloc)?)?;
        }
    }
    Ok(())
}

/// Adds the queues that stand after the direction.
fn add_after(
    alloc: Global,
    kept: &mut Vec<Queue>,
    queues: &[Queue],
    direction: Direction,
) -> Result<(), AllocError>
    ensures { OnOk result
        (kept.new.items ≡ kept.old.items ++ filter (λ q. is_lt (direction_cmp direction q.of)) queues.now) }
{
    for queue in queues {
        if direction.cmp(&queue.of).is_lt() {
            kept.push(queue.copy(alloc)?)?;
        }
    }
    Ok(())
}

/// The queues, and an empty one for the direction, in order.
pub fn with_direction(
    alloc: Global,
    queues: &[Queue],
    direction: Direction,
) -> Result<Vec<Queue>, AllocError>
    ensures { IfOk result (λ more. more.items ≡ with_direction direction queues.now) }
{
    let mut more = Vec::new(alloc);
    add_before(alloc, &mut more, queues, direction)?;
    more.push(Queue {
        of: direction,
        messages: Seq::new(alloc),
    })?;
    add_after(alloc, &mut more, queues, direction)?;
    Ok(more)
}

/// The queue with more messages at its end.
pub fn with_more(alloc: Global, queue: &Queue, messages: Vec<Message>) -> Result<Queue, AllocError>
    ensures { IfOk result (λ more. more ≡ with_more queue.now messages.items) }
{
    let mut all = queue.messages.copy(alloc)?;
    for message in messages {
        all.push(message)?;
    }
    Ok(Queue {
        of: queue.of,
        messages: all,
    })
}

fn rest_of(alloc: Global, messages: &[Message]) -> Result<Vec<Message>, AllocError>
    ensures { IfOk result (λ rest. rest.items ≡ rest_of messages.now) }
{
    match messages {
        [] => Ok(Vec::new(alloc)),
        [_, rest @ ..] => copy_all(alloc, rest),
    }
}

/// The queue, without its head if it is that of the direction.
fn without_its_head(alloc: Global, queue: &Queue, direction: Direction) -> Result<Queue, AllocError>
    ensures { IfOk result (λ q. q ≡ without_its_head direction queue.now) }
{
    if queue.of.from == direction.from && queue.of.to == direction.to {
        Ok(Queue {
            of: queue.of,
            messages: Seq::of(rest_of(alloc, queue.messages.as_slice())?),
        })
    } else {
        queue.copy(alloc)
    }
}

/// The queues, without the head of that of the direction.
pub fn without_head(
    alloc: Global,
    queues: &[Queue],
    direction: Direction,
) -> Result<Vec<Queue>, AllocError>
    ensures { IfOk result (λ after. after.items ≡ without_head direction queues.now) }
{
    let mut after = Vec::new(alloc);
    for queue in queues {
        after.push(without_its_head(alloc, queue, direction)?)?;
    }
    Ok(after)
}

/// The queue, with the message at its end if it is that of the direction.
fn with_one_more(
    alloc: Global,
    queue: &Queue,
    direction: Direction,
    message: &Message,
) -> Result<Queue, AllocError>
    ensures { IfOk result (λ q. q ≡ with_one_more direction message.now queue.now) }
{
    let mut queue = queue.copy(alloc)?;
    if queue.of.from == direction.from && queue.of.to == direction.to {
        queue.messages.push(message.copy(alloc)?)?;
    }
    Ok(queue)
}

/// The queues, with a message at the end of that of the direction.
pub fn with_message(
    alloc: Global,
    queues: &[Queue],
    direction: Direction,
    message: &Message,
) -> Result<Vec<Queue>, AllocError>
    ensures { IfOk result (λ after. after.items ≡ with_message direction message.now queues.now) }
{
    let mut after = Vec::new(alloc);
    for queue in queues {
        after.push(with_one_more(alloc, queue, direction, message)?)?;
    }
    Ok(after)
}
