//! Taking a message whose outcome was made beside the state.

ghost use Rattle.std.specs.Prelude.{◌≡◌, ◌≤◌, length, true, IfErr, OnOk, OnErr};
ghost use Rattle.net_conf.specs.Costs.{is_up};
ghost use Rattle.session_queue.specs.Waiting.{spare_at};
ghost use Rattle.reference_machine.specs.Network.{messages_in};
ghost use Rattle.reference_machine.specs.Machine.{head_step};
ghost use Rattle.cell_engine.specs.State.{network};
ghost use Rattle.cell_engine.specs.Sending.{told};
ghost use Rattle.cell_engine.specs.Admitting.{AreAdmitted};
ghost use Rattle.cell_engine.specs.Deliveries.{IsOfHead, KeepsSame};

use crate::route_cell::{Cell, Outcome};
use crate::sending::{make_ready, push_all};
use crate::state::State;
use net_prefix::{Addr, Prefix};
use prefix_table::PrefixTable;
use route_select::Chosen;
use session_queue::{Direction, Message};
use std::alloc::AllocError;

impl<S: Chosen + Drop, T: PrefixTable<Cell<S>> + Drop> State<S, T> {
    /// Takes the message at the head of the direction's queue, whose outcome was made beside this state: this is the
    /// machine's own next state. For want of memory the error hands the outcome back, and the network stays as it is.
    /// It decides nothing.
    pub fn install(
        &mut self,
        direction: Direction,
        prefix: Prefix,
        outcome: Outcome<S>,
    ) -> Result<(), Outcome<S>>
        requires up { is_up self.old.conf direction.from direction.to ≡ true }
        requires head { IsOfHead self.old direction prefix outcome }
        ensures next { OnOk result
            (network self.new ≡ (head_step (network self.old) direction
            (messages_in (network self.old).queues direction)).next) }
        ensures same { OnErr result (network self.new ≡ network self.old) }
        ensures back { IfErr result (λ back. back ≡ outcome) }
    {
        self.facts();
        if self.make_places(direction.to, &outcome.sends).is_err() {
            return Err(outcome);
        }
        self.put(direction, prefix, outcome)
    }

    /// Sees to it that each message may be sent, and has a place. The network stays as it is, also at an error, which
    /// is want of memory.
    fn make_places(&mut self, router: Addr, sends: &[(Addr, Message)]) -> Result<(), AllocError>
        requires { (t : Addr) → length (told t sends.now) ≤ 1 }
        ensures same { KeepsSame self.old self.new }
        ensures room { OnOk result ((t : Addr) → length (told t sends.now) ≤ spare_at self.new.queues router t) }
        ensures admitted { OnOk result (AreAdmitted self.new.queues.admitted sends.now) }
    {
        make_ready(&mut self.queues, router, sends)
    }

    /// Puts in the outcome's cell, takes the message at the head and sends what changed, for which all is there.
    fn put(
        &mut self,
        direction: Direction,
        prefix: Prefix,
        outcome: Outcome<S>,
    ) -> Result<(), Outcome<S>>
        requires up { is_up self.old.conf direction.from direction.to ≡ true }
        requires head { IsOfHead self.old direction prefix outcome }
        requires places { (t : Addr) → length (told t outcome.sends) ≤ spare_at self.old.queues direction.to t }
        requires admitted { AreAdmitted self.old.queues.admitted outcome.sends }
        ensures next { OnOk result
            (network self.new ≡ (head_step (network self.old) direction
            (messages_in (network self.old).queues direction)).next) }
        ensures same { OnErr result (self.new ≡ self.old) }
        ensures back { IfErr result (λ back. back ≡ outcome) }
    {
        self.conf.facts();
        // The length tells that the prefix is one, which holds of all that have a cell.
        let _ = prefix.len();
        let Outcome { cell, sends } = outcome;
        match self.tables.insert(self.alloc, direction.to, prefix, cell) {
            Ok(()) => {}
            Err(cell) => return Err(Outcome { cell, sends }),
        }
        self.queues.pop(direction.from, direction.to);
        push_all(&mut self.queues, direction.to, sends);
        Ok(())
    }
}
