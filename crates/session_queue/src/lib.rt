//! The messages of a session, and the queues of those on their way.
//!
//! For: a message is an update or a withdrawal of one prefix (`Message`). `Queues` holds a list of messages for each
//! direction of a session (`Direction`: from an address, to an address), and finds the next direction that holds one.
//! RFC 4271, 3 (messages come in the order in which they were sent), 3.1 and 4.3 (what an UPDATE says of a route).
//! Differs: one message is of one prefix, and none is merged with another; a queue ends when its session goes down.
//! There is no timer, OPEN, KEEPALIVE or NOTIFICATION.
//! Called by: `cell_engine` and `sim_core`, which put messages in and take heads out; `plain_simulator` keeps queues
//! as plain lists. Definitions: `specs/Telling.antt` (messages), `specs/Waiting.antt` (queues).
#![tactic(auto)]

mod direction;
mod message;
mod numbered;
mod numbered_queues;
mod queue;
mod queues;
mod view;

pub use direction::Direction;
pub use message::{Message, MessageKind};
pub use queues::Queues;
pub use view::View;
