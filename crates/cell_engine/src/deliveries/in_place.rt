//! A message is delivered to the receiver's RIB entry, which is changed where it stands.

ghost use Rattle.std.specs.Prelude.{◌≡◌, ◌≤◌, length, slice_get, true, Some, is_some, IfOk, OnOk, OnErr};
ghost use Rattle.std.specs.Option.{option_copied};
ghost use Rattle.net_prefix.specs.declared.addr.Addr as addr;
ghost use Rattle.net_conf.specs.Costs.{is_up};
ghost use Rattle.net_conf.specs.RouterSites.{router_site};
ghost use Rattle.session_queue.specs.Telling.{prefix_of};
ghost use Rattle.session_queue.specs.Waiting.{queue_at, spare_at};
ghost use Rattle.reference_machine.specs.Network.{messages_in};
ghost use Rattle.reference_machine.specs.Machine.{head_step};
ghost use Rattle.cell_engine.specs.Admitting.{AreAdmitted};
ghost use Rattle.cell_engine.specs.Cells.{IsDecided};
ghost use Rattle.cell_engine.specs.Deliveries.{outcome_by};
ghost use Rattle.cell_engine.specs.InPlace.{ArePeersInOrder};
ghost use Rattle.cell_engine.specs.Queueing.{KeepsMessages};
ghost use Rattle.cell_engine.specs.RouterTables.{with_value};
ghost use Rattle.cell_engine.specs.Sending.{told};
ghost use Rattle.cell_engine.specs.State.{cell_at, network};

use crate::arrival::Arrival;
use crate::route_cell::{Cell, receive_in_entry};
use crate::router_tables::RouterTables;
use crate::sending::push_all;
use crate::state::State;
use net_conf::SiteConf;
use net_prefix::Addr;
use prefix_table::PrefixTable;
use route_select::Selector;
use session_queue::{Direction, Message, Queues};
use std::alloc::{AllocError, Global};

/// Delivers the message to a RIB entry that the receiver does not have yet. What is sent has interned attributes and
/// reserved capacity. An error, which is out of memory, changes no table.
fn deliver_to_new_entry<S: Selector + Drop, T: PrefixTable<Cell<S>> + Drop>(
    alloc: Global,
    site: Option<&SiteConf>,
    cell: Cell<S>,
    tables: &mut RouterTables<Cell<S>, T>,
    queues: &mut Queues,
    arrival: &Arrival<'_>,
) -> Result<Vec<(Addr, Message)>, AllocError>
    requires decided { IsDecided (option_copied site) (prefix_of arrival.now.message.now) cell }
    requires peers { ArePeersInOrder (option_copied site) }
    requires one { (t : addr.Addr) →
        length (told t (outcome_by (option_copied site) cell arrival.now.direction.from
        arrival.now.message.now).sends) ≤ 1 }
    ensures cell { OnOk result
        (tables.new ≡ with_value arrival.now.direction.to (prefix_of arrival.now.message.now)
        (outcome_by (option_copied site.entry) cell arrival.now.direction.from
        arrival.now.message.now).cell tables.old) }
    ensures sends { IfOk result (λ sends.
        sends.items ≡ (outcome_by (option_copied site.entry) cell arrival.now.direction.from
        arrival.now.message.now).sends) }
    ensures room { IfOk result (λ sends.
        (t : addr.Addr) → length (told t sends.items) ≤ spare_at queues.new arrival.now.direction.to t) }
    ensures admitted { IfOk result (λ sends. AreAdmitted queues.new.admitted sends.items) }
    ensures queue { KeepsMessages queues.old queues.new }
    ensures same { OnErr result (tables.new ≡ tables.old) }
{
    let (direction, message) = (arrival.direction, arrival.message);
    let mut cell = cell;
    let sends = receive_in_entry(alloc, site, &mut cell, queues, direction, message)?;
    match tables.insert(alloc, direction.to, message.prefix(), cell) {
        Ok(()) => Ok(sends),
        Err(_) => Err(AllocError),
    }
}

/// Delivers the message to the receiver's RIB entry, which is lent out of its table for that, an empty one standing
/// there meanwhile; or to an empty one, where it has none. What is sent has interned attributes and reserved capacity.
/// An error, which is out of memory, changes no table.
fn deliver_to_entry<S: Selector + Drop, T: PrefixTable<Cell<S>> + Drop>(
    alloc: Global,
    site: Option<&SiteConf>,
    tables: &mut RouterTables<Cell<S>, T>,
    queues: &mut Queues,
    direction: Direction,
    message: &Message,
) -> Result<Vec<(Addr, Message)>, AllocError>
    requires decided { IsDecided (option_copied site) (prefix_of message.now)
        (cell_at direction.to (prefix_of message.now) tables.old) }
    requires peers { ArePeersInOrder (option_copied site) }
    requires one { (t : addr.Addr) →
        length (told t (outcome_by (option_copied site) (cell_at direction.to (prefix_of message.now) tables.old)
        direction.from message.now).sends) ≤ 1 }
    ensures cell { OnOk result
        (tables.new ≡ with_value direction.to (prefix_of message.now)
        (outcome_by (option_copied site.entry) (cell_at direction.to (prefix_of message.now) tables.old) direction.from
        message.now).cell tables.old) }
    ensures sends { IfOk result (λ sends.
        sends.items ≡ (outcome_by (option_copied site.entry) (cell_at direction.to (prefix_of message.now) tables.old)
        direction.from message.now).sends) }
    ensures room { IfOk result (λ sends.
        (t : addr.Addr) → length (told t sends.items) ≤ spare_at queues.new direction.to t) }
    ensures admitted { IfOk result (λ sends. AreAdmitted queues.new.admitted sends.items) }
    ensures queue { KeepsMessages queues.old queues.new }
    ensures same { OnErr result (tables.new ≡ tables.old) }
{
    let (router, prefix) = (direction.to, message.prefix());
    let mut cell = match tables.replace(router, prefix, Cell::new(alloc, false)) {
        Ok(cell) => cell,
        Err(empty) => {
            let arrival = Arrival { direction, message };
            return deliver_to_new_entry(alloc, site, empty, tables, queues, &arrival);
        }
    };
    let sends = receive_in_entry(alloc, site, &mut cell, queues, direction, message);
    match tables.replace(router, prefix, cell) {
        Ok(_) => sends,
        Err(_) => unreachable!(),
    }
}

impl<S: Selector + Drop, T: PrefixTable<Cell<S>> + Drop> State<S, T> {
    /// Delivers the message at the head of the direction's queue: the receiver's RIB entry is changed where it stands,
    /// and the receiver sends what changed. This is the machine's own next state. It says whether the receiver decides:
    /// a virtual peer does not. The network stays as it is at an error, which is out of memory.
    pub fn deliver(&mut self, direction: Direction, message: &Message) -> Result<bool, AllocError>
        requires up { is_up self.old.conf direction.from direction.to ≡ true }
        requires head { slice_get (queue_at self.old.queues direction.from direction.to) 0 ≡ Some message.now }
        ensures next { OnOk result
            (network self.new ≡ (head_step (network self.old) direction
            (messages_in (network self.old).queues direction)).next) }
        ensures decides { IfOk result (λ decides. decides ≡ is_some (router_site self.old.conf direction.to)) }
        ensures same { OnErr result (network self.new ≡ network self.old) }
    {
        self.conf.facts();
        // The length tells that the prefix is one, which holds of all that have a cell.
        let _ = message.prefix().len();
        // A router that ends a session has its site kept.
        let site = self.conf.get().kept_site(direction.to);
        let sends = deliver_to_entry(
            self.alloc,
            site,
            &mut self.tables,
            &mut self.queues,
            direction,
            message,
        )?;
        let decides = site.is_some();
        self.queues.pop(direction.from, direction.to);
        push_all(&mut self.queues, direction.to, sends);
        Ok(decides)
    }
}
