//! Questions.

ghost use Rattle.std.specs.Prelude.{◌≡◌};
ghost use Rattle.sim_event.specs.declared.event.Event.TheVariants.{Ask as AnAsk};
ghost use Rattle.reference_machine.specs.Machine.{IsStep};
ghost use Rattle.cell_engine.specs.State.{network};
ghost use Rattle.sim_core.specs.Counting.{Counts};
ghost use Rattle.sim_core.specs.Plans.{Prepares};

use crate::counting::raised_by_none;
use crate::plan::Plan;
use crate::sim::Sim;
use crate::sim_report::ask;
use cell_engine::{Cell, State};
use net_conf::Refusal;
use prefix_table::PrefixTable;
use route_select::Selector;
use sim_event::{Ask, Reply};
use std::alloc::Global;

impl<S: Selector, T: PrefixTable<Cell<S>>> Sim<S, T> {
    /// Answers the question, which changes nothing and decides nothing: no plan is made.
    #[inline(never)]
    pub(crate) fn answer(&self, question: &Ask) -> Reply
        ensures step { IsStep (network self.now.engine) (AnAsk question.now) result (network self.now.engine) }
        ensures decided { Counts (network self.now.engine)
            (AnAsk question.now) result self.now.decided self.now.decided }
    {
        raised_by_none(self.decided);
        match ask(self.alloc, &self.state, question) {
            Ok(report) => Reply::Report(report),
            Err(refusal) => Reply::Refused(refusal),
        }
    }
}

/// Makes an answer ready.
pub(crate) fn prepare_answer<S: Selector, T: PrefixTable<Cell<S>>>(
    alloc: Global,
    state: &State<S, T>,
    question: &Ask,
) -> Result<Plan<S>, Refusal>
    ensures { Prepares state.now (AnAsk question.now) result }
{
    match ask(alloc, state, question) {
        Ok(report) => Ok(Plan {
            reply: Reply::Report(report),
            refreshed: Vec::new(alloc),
            pushed: None,
            taken: None,
            edited: None,
        }),
        Err(refusal) => Err(refusal),
    }
}
