//! Deliveries whose outcome was made beside the machine.

ghost use Rattle.std.specs.Prelude.{◌≡◌, None, IfOk, IfErr, OnOk, OnErr};
ghost use Rattle.sim_event.specs.declared.event.Event.TheVariants.{Deliver};
ghost use Rattle.reference_machine.specs.Machine.{delivery_refusal, step};
ghost use Rattle.cell_engine.specs.State.{network};
ghost use Rattle.sim_core.specs.Counting.{Counts};
ghost use Rattle.sim_core.specs.Installing.{IsOutcomeOfHead};

use crate::counting::raised;
use crate::deliveries::decisions_at;
use crate::sim::Sim;
use cell_engine::{Cell, Outcome};
use prefix_table::PrefixTable;
use route_select::Chosen;
use session_queue::Direction;
use sim_event::Reply;

impl<S: Chosen + Drop, T: PrefixTable<Cell<S>> + Drop> Sim<S, T> {
    /// Takes the message at the head of the direction's queue, whose outcome was made beside the machine: this is the
    /// machine's own step. For want of memory the error hands the outcome back, and nothing changes. It decides
    /// nothing.
    pub fn install(
        &mut self,
        direction: Direction,
        outcome: Outcome<S>,
    ) -> Result<Reply, Outcome<S>>
        requires allowed { delivery_refusal self.old.engine.conf direction ≡ None }
        requires head { IsOutcomeOfHead self.old.engine direction outcome }
        ensures reply { IfOk result (λ reply.
            reply ≡ (step (network self.old.engine) (Deliver direction.from direction.to)).reply) }
        ensures next { OnOk result
            (network self.new.engine ≡ (step (network self.old.engine) (Deliver direction.from direction.to)).next) }
        ensures decided { IfOk result (λ reply.
            Counts (network self.old.engine) (Deliver direction.from direction.to) reply self.old.decided
            self.new.decided) }
        ensures back { IfErr result (λ back. back ≡ outcome) }
        ensures same { OnErr result (network self.new.engine ≡ network self.old.engine) }
        ensures uncounted { OnErr result (self.new.decided ≡ self.old.decided) }
    {
        self.state.facts();
        let more = decisions_at(&self.state, direction.to);
        let Some(head) = self.state.queues().head(direction.from, direction.to) else {
            unreachable!()
        };
        let prefix = head.prefix();
        let kind = head.kind();
        self.state.install(direction, prefix, outcome)?;
        self.decided = raised(self.decided, more);
        Ok(Reply::Took(prefix, kind))
    }
}
