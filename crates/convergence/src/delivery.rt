//! A message that was delivered, and how many were.

ghost use Rattle.std.specs.Prelude.{◌≡◌, ◌+◌, ◌^◌, ◌<◌};
ghost use Rattle.convergence.specs.Deliveries.{counted};

use net_prefix::{Addr, Prefix};
use session_queue::MessageKind;

/// A message that was delivered.
#[derive(Clone, Copy, Debug, PartialEq, Eq)]
pub struct Delivery {
    /// The sender.
    pub from: Addr,
    /// The receiver.
    pub to: Addr,
    pub prefix: Prefix,
    pub kind: MessageKind,
}

/// How many messages were delivered, in all and of each kind.
#[derive(Clone, Copy, Debug, PartialEq, Eq)]
pub struct Tally {
    pub made: u64,
    pub updates: u64,
    pub withdrawals: u64,
}

impl Tally {
    /// No message was delivered.
    pub const EMPTY: Tally = Tally {
        made: 0,
        updates: 0,
        withdrawals: 0,
    };

    /// Counts a message.
    pub(crate) fn count(&mut self, kind: MessageKind)
        requires made { self.old.made + 1 < 2 ^ 64 }
        requires updates { self.old.updates + 1 < 2 ^ 64 }
        requires withdrawals { self.old.withdrawals + 1 < 2 ^ 64 }
        ensures { self.new ≡ counted self.old kind }
    {
        self.made += 1;
        match kind {
            MessageKind::Update => self.updates += 1,
            MessageKind::Withdraw => self.withdrawals += 1,
        }
    }
}
