//! What the engine does with a message at the head of a queue, with one whose outcome was made beside the state
//! (`installs`), in the receiver's cell where that stands (`in_place`), and with one that a virtual peer feeds
//! (`feeds`).

ghost use Rattle.std.specs.Prelude.{◌≡◌, ◌≤◌, length, true, false, is_some, IfOk, OnOk, OnErr};
ghost use Rattle.net_conf.specs.Costs.{is_up};
ghost use Rattle.session_queue.specs.Telling.{prefix_of};
ghost use Rattle.cell_engine.specs.RouterTables.{value_at, with_value};
ghost use Rattle.cell_engine.specs.Cells.{new_cell};
ghost use Rattle.reference_machine.specs.Network.{messages_in};
ghost use Rattle.reference_machine.specs.Machine.{head_step};
ghost use Rattle.cell_engine.specs.State.{network};
ghost use Rattle.cell_engine.specs.Sending.{told};
ghost use Rattle.cell_engine.specs.Editing.{with_cell};
ghost use Rattle.cell_engine.specs.Deliveries.{outcome_at, HasRoom, IsOfHead, KeepsSame};

mod feeds;
mod in_place;
mod installs;

use crate::route_cell::{Cell, Outcome, deliver, store};
use crate::router_tables::RouterTables;
use crate::sending::{make_ready, push_all};
use crate::state::State;
use net_prefix::{Addr, Prefix};
use prefix_table::PrefixTable;
use route_select::Selector;
use session_queue::{Direction, Message};
use std::alloc::{AllocError, Global};

/// Gives the router an empty cell of the prefix.
fn add_cell<S: Selector + Drop, T: PrefixTable<Cell<S>> + Drop>(
    alloc: Global,
    tables: &mut RouterTables<Cell<S>, T>,
    router: Addr,
    prefix: Prefix,
) -> Result<(), AllocError>
    ensures ok { OnOk result (tables.new ≡ with_value router prefix new_cell tables.old) }
    ensures err { OnErr result (tables.new ≡ tables.old) }
{
    match tables.insert(alloc, router, prefix, Cell::new(alloc, false)) {
        Ok(()) => Ok(()),
        Err(_) => Err(AllocError),
    }
}

impl<S: Selector + Drop, T: PrefixTable<Cell<S>> + Drop> State<S, T> {
    /// What the receiver makes of the message (RFC 4271, 9): its cell of the prefix, and what it sends. A router
    /// decides by its own site, a virtual peer keeps what it receives. What it takes to put that in is there
    /// afterwards: a cell, the attributes that are sent, and a place for each message. The network stays as it is, also
    /// at an error, which is want of memory.
    pub fn outcome(
        &mut self,
        direction: Direction,
        message: &Message,
    ) -> Result<Outcome<S>, AllocError>
        ensures same { KeepsSame self.old self.new }
        ensures network { network self.new ≡ network self.old }
        ensures outcome { IfOk result (λ outcome. outcome ≡ outcome_at self.old direction message.now) }
        ensures room { IfOk result (λ outcome. HasRoom self.new direction.to (prefix_of message.now) outcome.sends) }
    {
        self.facts();
        let (outcome, has_cell) = self.worked(direction, message)?;
        self.make_room(direction.to, message.prefix(), has_cell, &outcome)?;
        Ok(outcome)
    }

    /// What the receiver makes of the message, and whether it has a cell of the prefix. Want of memory is the only
    /// error.
    fn worked(
        &self,
        direction: Direction,
        message: &Message,
    ) -> Result<(Outcome<S>, bool), AllocError>
        ensures outcome { IfOk result (λ worked. worked.0 ≡ outcome_at self.now direction message.now) }
        ensures cell { IfOk result (λ worked.
            worked.1 ≡ is_some (value_at direction.to (prefix_of message.now) self.now.tables)) }
    {
        self.facts();
        let made = self.made_site(direction.to)?;
        let nothing = Cell::new(self.alloc, false);
        let found = self.cell(direction.to, message.prefix());
        let has_cell = found.is_some();
        let cell = found.unwrap_or(&nothing);
        let outcome = match self.site(direction.to, &made) {
            Some(site) => deliver(self.alloc, site, cell, direction.from, message),
            None => store(self.alloc, cell, direction.from, message),
        };
        drop((nothing, made));
        Ok((outcome?, has_cell))
    }

    /// Sees to it that what the outcome needs is there: a cell, which the router has or not, the attributes that are
    /// sent, and a place for each message. The network stays as it is, also at an error, which is want of memory.
    fn make_room(
        &mut self,
        router: Addr,
        prefix: Prefix,
        has_cell: bool,
        outcome: &Outcome<S>,
    ) -> Result<(), AllocError>
        requires one { (t : Addr) → length (told t outcome.now.sends) ≤ 1 }
        requires cell { has_cell ≡ is_some (value_at router prefix self.old.tables) }
        ensures same { KeepsSame self.old self.new }
        ensures network { network self.new ≡ network self.old }
        ensures room { OnOk result (HasRoom self.new router prefix outcome.now.sends) }
    {
        self.grow_unless(has_cell, router, prefix)?;
        make_ready(&mut self.queues, router, &outcome.sends)
    }

    /// Sees to it that the router has a cell of the prefix. An error changes nothing.
    pub(crate) fn make_cell(&mut self, router: Addr, prefix: Prefix) -> Result<(), AllocError>
        ensures same { KeepsSame self.old self.new }
        ensures queues { self.new.queues ≡ self.old.queues }
        ensures there { OnOk result (is_some (value_at router prefix self.new.tables) ≡ true) }
        ensures alone { OnOk result (self.new.tables ≡ with_cell router prefix self.old.tables) }
        ensures err { OnErr result (self.new.tables ≡ self.old.tables) }
    {
        let has_cell = self.cell(router, prefix).is_some();
        self.grow_unless(has_cell, router, prefix)
    }

    /// Gives the router a cell of the prefix, unless it has one.
    fn grow_unless(
        &mut self,
        has_cell: bool,
        router: Addr,
        prefix: Prefix,
    ) -> Result<(), AllocError>
        requires { has_cell ≡ is_some (value_at router prefix self.old.tables) }
        ensures same { KeepsSame self.old self.new }
        ensures queues { self.new.queues ≡ self.old.queues }
        ensures there { OnOk result (is_some (value_at router prefix self.new.tables) ≡ true) }
        ensures alone { OnOk result (self.new.tables ≡ with_cell router prefix self.old.tables) }
        ensures err { OnErr result (self.new.tables ≡ self.old.tables) }
    {
        if has_cell {
            return Ok(());
        }
        self.grow_cell(router, prefix)
    }

    /// Gives the router, which has none, a cell of the prefix.
    fn grow_cell(&mut self, router: Addr, prefix: Prefix) -> Result<(), AllocError>
        requires { is_some (value_at router prefix self.old.tables) ≡ false }
        ensures same { KeepsSame self.old self.new }
        ensures queues { self.new.queues ≡ self.old.queues }
        ensures there { OnOk result (is_some (value_at router prefix self.new.tables) ≡ true) }
        ensures alone { OnOk result (self.new.tables ≡ with_value router prefix new_cell self.old.tables) }
        ensures err { OnErr result (self.new.tables ≡ self.old.tables) }
    {
        // The length tells that the prefix is one, which holds of all that have a cell.
        let _ = prefix.len();
        add_cell(self.alloc, &mut self.tables, router, prefix)
    }

    /// Takes the message at the head of the direction's queue: its outcome's cell takes the place of the receiver's,
    /// and the receiver sends what changed. This is the machine's own next state. It takes no memory.
    pub fn take(&mut self, direction: Direction, prefix: Prefix, outcome: Outcome<S>)
        requires up { is_up self.old.conf direction.from direction.to ≡ true }
        requires head { IsOfHead self.old direction prefix outcome }
        requires room { HasRoom self.old direction.to prefix outcome.sends }
        ensures { network self.new ≡
            (head_step (network self.old) direction (messages_in (network self.old).queues direction)).next }
    {
        self.conf.facts();
        let Outcome { cell, sends } = outcome;
        self.queues.pop(direction.from, direction.to);
        match self.tables.replace(direction.to, prefix, cell) {
            Ok(_) => {}
            Err(_) => unreachable!(),
        }
        push_all(&mut self.queues, direction.to, sends);
    }
}
