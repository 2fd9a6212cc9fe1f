//! A message whose attributes are a number.

ghost use Rattle.std.specs.Prelude.{◌≡◌};
ghost use Rattle.session_queue.specs.Numbers.{message_by, IsGiven};
ghost use Rattle.session_queue.specs.Waiting.{IsAdmittedBy};

use crate::message::Message;
use attr_pool::{AttrId, Pool};
use net_prefix::Prefix;

/// A message, with the number of its attributes in a pool: 16 bytes.
#[derive(Clone, Copy, Debug)]
pub(crate) enum Numbered {
    /// A route to the prefix is advertised, in place of any that was advertised before.
    Update(Prefix, AttrId),
    /// The route that was advertised is withdrawn.
    Withdraw(Prefix),
}

/// The message by its number in the pool, which has its attributes.
pub(crate) fn numbered_in(pool: &mut Pool, message: Message) -> Numbered
    requires { IsAdmittedBy pool.old message }
    ensures message { message_by pool.new result ≡ message }
    ensures given { IsGiven pool.new result }
    ensures pool { pool.new ≡ pool.old }
{
    match message {
        Message::Update(prefix, attr) => {
            let Ok(id) = pool.intern(attr) else {
                unreachable!()
            };
            Numbered::Update(prefix, id)
        }
        Message::Withdraw(prefix) => Numbered::Withdraw(prefix),
    }
}
