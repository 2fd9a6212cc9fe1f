//! What a virtual peer feeds.

ghost use Rattle.std.specs.Prelude.{◌≡◌, ◌+◌, ◌<◌, ◌⊎◌, max, true, OnOk, OnErr};
ghost use Rattle.net_conf.specs.Configuration.{has_session};
ghost use Rattle.session_queue.specs.Waiting.{spare_at, admitted_with, IsAdmitted, KeepsOthers};
ghost use Rattle.reference_machine.specs.Network.{with_message};
ghost use Rattle.cell_engine.specs.State.{network};
ghost use Rattle.cell_engine.specs.Admitting.{Admits, has_attributes};
ghost use Rattle.cell_engine.specs.Deliveries.{KeepsSame};

use crate::route_cell::Cell;
use crate::sending::admit;
use crate::state::State;
use prefix_table::PrefixTable;
use route_select::Selector;
use session_queue::{Direction, Message};
use std::alloc::AllocError;

impl<S: Selector, T: PrefixTable<Cell<S>>> State<S, T> {
    /// Sees to it that the message may be sent, and that the direction's queue has a place for it: one, where it had
    /// none. The network stays as it is, also at an error, which is want of memory: for a withdrawal, only where the
    /// queue had no place.
    pub fn reserve_one(&mut self, direction: Direction, message: &Message) -> Result<(), AllocError>
        ensures same { KeepsSame self.old self.new }
        ensures network { network self.new ≡ network self.old }
        ensures room { OnOk result (0 < spare_at self.new.queues direction.from direction.to) }
        ensures place { OnOk result
            (spare_at self.new.queues direction.from direction.to
            ≡ max 1 (spare_at self.old.queues direction.from direction.to)) }
        ensures others { KeepsOthers direction.from direction.to self.old.queues self.new.queues }
        ensures admitted { OnOk result (IsAdmitted self.new.queues message.now) }
        ensures admits { OnOk result (Admits message.now self.old.queues.admitted self.new.queues.admitted) }
        ensures short { OnErr result
            ((has_attributes message.now ≡ true) ⊎ (spare_at self.old.queues direction.from direction.to < 1)) }
        ensures none { OnErr result
            (spare_at self.new.queues direction.from direction.to
            ≡ spare_at self.old.queues direction.from direction.to) }
    {
        admit(&mut self.queues, message)?;
        self.queues.reserve(direction.from, direction.to, 1)
    }

    /// Adds a message at the end of the queue of a session's direction. It takes no memory.
    pub fn push(&mut self, direction: Direction, message: Message)
        requires session { has_session self.old.conf direction.from direction.to ≡ true }
        requires room { 0 < spare_at self.old.queues direction.from direction.to }
        requires admitted { IsAdmitted self.old.queues message }
        ensures { network self.new ≡ record
            (network self.old) { queues = with_message direction message (network self.old).queues } }
    {
        self.queues.push(direction.from, direction.to, message);
    }

    /// Adds a message at the end of the queue of a session's direction, with the memory that this takes: its attributes
    /// come to be admitted, and it gets a place, a spare one where there is one. The network stays as it is at an
    /// error, which is want of memory, and so do all places; the attributes may have come to be admitted.
    pub fn feed(&mut self, direction: Direction, message: Message) -> Result<(), AllocError>
        requires { has_session self.old.conf direction.from direction.to ≡ true }
        ensures next { OnOk result
            (network self.new ≡ record
            (network self.old) { queues = with_message direction message (network self.old).queues }) }
        ensures place { OnOk result
            (spare_at self.new.queues direction.from direction.to + 1
            ≡ max 1 (spare_at self.old.queues direction.from direction.to)) }
        ensures admitted { OnOk result (self.new.queues.admitted ≡ admitted_with self.old.queues message) }
        ensures same { OnErr result (network self.new ≡ network self.old) }
        ensures none { OnErr result
            (spare_at self.new.queues direction.from direction.to
            ≡ spare_at self.old.queues direction.from direction.to) }
        ensures at_most { OnErr result ((self.new.queues.admitted ≡ self.old.queues.admitted)
            ⊎ (self.new.queues.admitted ≡ admitted_with self.old.queues message)) }
        ensures others { KeepsOthers direction.from direction.to self.old.queues self.new.queues }
        ensures tables { self.new.tables ≡ self.old.tables }
    {
        self.queues.put(direction.from, direction.to, message)
    }
}
