//! What is written down of one call.

ghost use Rattle.std.specs.Prelude.{◌≡◌, IfOk};
ghost use Rattle.call_history.specs.Written.{took_of};

use seq::Copied;
use session_queue::{Direction, Message};
use sim_event::{Call, Entry, Event, Reply};
use std::alloc::{AllocError, Global};

/// What is written down of a call, once in the history and once in the seat's notes, made before the call is.
#[derive(Drop)]
pub struct Draft {
    pub entry: Entry,
    pub call: Call,
}

impl Draft {
    /// The event and the reply, each twice. The only fault is want of memory.
    pub fn of(alloc: Global, number: u8, event: Event, reply: &Reply) -> Result<Draft, AllocError>
        ensures entry { IfOk result (λ draft.
            draft.entry ≡ record { seat = number; event = event; reply = reply.now }) }
        ensures call { IfOk result (λ draft. draft.call ≡ record { event = event; reply = reply.now }) }
    {
        let Ok(call) = call_of(alloc, &event, reply) else {
            drop(event);
            return Err(AllocError);
        };
        let Ok(reply) = reply.copy(alloc) else {
            drop((event, call));
            return Err(AllocError);
        };
        Ok(Draft {
            entry: entry_of(number, Call { event, reply }),
            call,
        })
    }

    /// Of the delivery of this message. It takes no memory.
    pub fn of_delivery(number: u8, direction: Direction, head: &Message) -> Draft
        ensures entry { result.entry ≡ record {
          seat = number;
          event = Event.Deliver direction.from direction.to;
          reply = took_of head.now;
        } }
        ensures call { result.call ≡ record {
          event = Event.Deliver direction.from direction.to;
          reply = took_of head.now;
        } }
    {
        Draft {
            entry: entry_of(number, delivery_of(direction, head)),
            call: delivery_of(direction, head),
        }
    }
}

/// The entry of the call, made from the seat of this number.
fn entry_of(number: u8, call: Call) -> Entry
    ensures { result ≡ record { seat = number; event = call.event; reply = call.reply } }
{
    let Call { event, reply } = call;
    Entry {
        seat: number,
        event,
        reply,
    }
}

/// The call that delivers the message.
fn delivery_of(direction: Direction, head: &Message) -> Call
    ensures { result ≡ record { event = Event.Deliver direction.from direction.to; reply = took_of head.now } }
{
    Call {
        event: Event::Deliver(direction.from, direction.to),
        reply: Reply::Took(head.prefix(), head.kind()),
    }
}

/// A call of this event with this reply.
fn call_of(alloc: Global, event: &Event, reply: &Reply) -> Result<Call, AllocError>
    ensures { IfOk result (λ call. call ≡ record { event = event.now; reply = reply.now }) }
{
    let event = event.copy(alloc)?;
    let Ok(reply) = reply.copy(alloc) else {
        drop(event);
        return Err(AllocError);
    };
    Ok(Call { event, reply })
}
