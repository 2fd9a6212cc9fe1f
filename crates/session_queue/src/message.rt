//! A message.

ghost use Rattle.std.specs.Prelude.{◌≡◌, ◌↔◌, IsTrue};

use net_prefix::Prefix;
use path_attr::SharedAttr;
use seq::Copied;
use std::alloc::{AllocError, Global};

/// What one end of a session sends the other of one prefix (RFC 4271, 3.1).
#[derive(Debug, Drop, PartialEq)]
pub enum Message {
    /// A route to the prefix is advertised, in place of any that was advertised before.
    Update(Prefix, SharedAttr),
    /// The route that was advertised is withdrawn.
    Withdraw(Prefix),
}

/// Whether a message advertises a route or withdraws one.
#[derive(Clone, Copy, Debug, PartialEq, Eq)]
pub enum MessageKind {
    Update,
    Withdraw,
}

impl Message {
    ghost use Rattle.session_queue.specs.Telling.{prefix_of, kind_of};

    /// Whether both say the same.
    pub fn is_same(&self, other: &Message) -> bool
        ensures { IsTrue result ↔ (self.now ≡ other.now) }
    {
        match (self, other) {
            (Message::Update(prefix, attr), Message::Update(also_prefix, also_attr)) => {
                prefix == also_prefix && attr.is_same(also_attr)
            }
            (Message::Withdraw(prefix), Message::Withdraw(also_prefix)) => prefix == also_prefix,
            _ => false,
        }
    }

    /// Whether it advertises a route or withdraws one.
    pub fn kind(&self) -> MessageKind
        ensures { result ≡ kind_of self.now }
    {
        match self {
            Message::Update(_, _) => MessageKind::Update,
            Message::Withdraw(_) => MessageKind::Withdraw,
        }
    }

    /// The prefix that it speaks of.
    pub fn prefix(&self) -> Prefix
        ensures { result ≡ prefix_of self.now }
    {
        match self {
            Message::Update(prefix, _) | Message::Withdraw(prefix) => *prefix,
        }
    }
}

impl Copied for Message {
    fn copy(&self, alloc: Global) -> Result<Message, AllocError> {
        match self {
            Message::Update(prefix, attr) => Ok(Message::Update(*prefix, attr.copy(alloc)?)),
            Message::Withdraw(prefix) => Ok(Message::Withdraw(*prefix)),
        }
    }
}
