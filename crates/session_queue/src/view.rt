//! A message that stays in its queue.

ghost use Rattle.std.specs.Prelude.{◌≡◌, IfOk};

use crate::message::{Message, MessageKind};
use crate::numbered::Numbered;
use attr_pool::Pool;
use net_prefix::Prefix;
use path_attr::SharedAttr;
use std::alloc::AllocError;

/// A message that stays in its queue, its attributes borrowed.
#[derive(Clone, Copy, Debug, PartialEq)]
pub enum View<'a> {
    /// A route to the prefix is advertised, in place of any that was advertised before.
    Update(Prefix, &'a SharedAttr),
    /// The route that was advertised is withdrawn.
    Withdraw(Prefix),
}

impl<'a> View<'a> {
    ghost use Rattle.session_queue.specs.Numbers.{message_by, IsGiven};
    ghost use Rattle.session_queue.specs.Telling.{message_of, prefix_of, kind_of};

    /// The numbered message, its attributes borrowed from the pool that gave the number.
    pub(crate) fn by(pool: &'a Pool, message: Numbered) -> Self
        requires { IsGiven pool.now message }
        ensures { message_of result ≡ message_by pool.now message }
    {
        match message {
            Numbered::Update(prefix, id) => {
                let Some(attr) = pool.attr(id) else {
                    unreachable!()
                };
                View::Update(prefix, attr)
            }
            Numbered::Withdraw(prefix) => View::Withdraw(prefix),
        }
    }

    /// The prefix that it speaks of.
    pub fn prefix(&self) -> Prefix
        ensures { result ≡ prefix_of (message_of self.now) }
    {
        match self {
            View::Update(prefix, _) | View::Withdraw(prefix) => *prefix,
        }
    }

    /// Whether it advertises a route or withdraws one.
    pub fn kind(&self) -> MessageKind
        ensures { result ≡ kind_of (message_of self.now) }
    {
        match self {
            View::Update(_, _) => MessageKind::Update,
            View::Withdraw(_) => MessageKind::Withdraw,
        }
    }

    /// A copy of the message, which shares the attributes: the only fault is that 2^63 owners share them.
    pub fn to_message(&self) -> Result<Message, AllocError>
        ensures { IfOk result (λ message. message ≡ message_of self.now) }
    {
        match self {
            View::Update(prefix, attr) => Ok(Message::Update(*prefix, attr.share()?)),
            View::Withdraw(prefix) => Ok(Message::Withdraw(*prefix)),
        }
    }
}
