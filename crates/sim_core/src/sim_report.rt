//! The answers to questions, read off the engine's cells, sites and queues.

ghost use Rattle.std.specs.Prelude.{◌≡◌, false, None, IfOk, OnErr};
ghost use Rattle.reference_machine.specs.Machine.{asks_quiet, ask_refusal, report_of};
ghost use Rattle.cell_engine.specs.State.{network};
ghost use Rattle.sim_core.specs.Answers.{IsAnswer};

mod adj_rib;
mod cells;
mod costs;
mod loc_rib;
mod queues;
mod reasons;
mod trace;

use cell_engine::{Cell, State};
use net_conf::Refusal;
use prefix_table::PrefixTable;
use reference_machine::ask_refusal;
use route_select::Selector;
use seq::Seq;
use session_queue::Direction;
use sim_event::{Ask, Event, Report};
use std::alloc::{AllocError, Global};

/// The answer to a question, which changes nothing: what the machine itself reports. Where no test refuses the
/// question, want of memory is the only error, and whether all queues are empty is told without memory.
pub fn ask<S: Selector, T: PrefixTable<Cell<S>>>(
    alloc: Global,
    state: &State<S, T>,
    ask: &Ask,
) -> Result<Report, Refusal>
    ensures { IsAnswer (network state.now) ask.now result }
{
    if let Ask::Quiet = ask {
        return Ok(Report::Quiet(queues::is_quiet(state)));
    }
    ask_of_somebody(alloc, state, ask)
}

/// The same, of a question that may be refused, or want memory.
#[inline(never)]
fn ask_of_somebody<S: Selector, T: PrefixTable<Cell<S>>>(
    alloc: Global,
    state: &State<S, T>,
    ask: &Ask,
) -> Result<Report, Refusal>
    ensures { IsAnswer (network state.now) ask.now result }
{
    match ask_refusal(state.conf(), ask) {
        Some(refusal) => Err(refusal),
        None => match report(alloc, state, ask) {
            Ok(report) => Ok(report),
            Err(_) => Err(Refusal::Memory),
        },
    }
}

/// The answer to a question that is not refused.
fn report<S: Selector, T: PrefixTable<Cell<S>>>(
    alloc: Global,
    state: &State<S, T>,
    ask: &Ask,
) -> Result<Report, AllocError>
    requires { ask_refusal state.now.conf ask.now ≡ None }
    ensures report { IfOk result (λ report. report ≡ report_of (network state.now) ask.now) }
    ensures quiet { OnErr result (asks_quiet (Event.Ask ask.now) ≡ false) }
{
    match *ask {
        Ask::Routes(router) => Ok(Report::Routes(Seq::of(loc_rib::loc_rib(alloc, state, router)?))),
        Ask::Best(router, prefix) => Ok(Report::Best(loc_rib::choice(state, router, prefix)?)),
        Ask::Why(router, prefix) => Ok(Report::Why(Seq::of(reasons::reasons(
            alloc, state, router, prefix,
        )?))),
        Ask::In(router, peer) => Ok(Report::Rib(Seq::of(adj_rib::adj_rib_in(
            alloc, state, router, peer,
        )?))),
        Ask::Out(router, peer) => Ok(Report::Rib(Seq::of(adj_rib::adj_rib_out(
            alloc, state, router, peer,
        )?))),
        Ask::Queue(from, to) => Ok(Report::Queue(Seq::of(queues::queue(
            alloc,
            state,
            Direction { from, to },
        )?))),
        Ask::Quiet => Ok(Report::Quiet(queues::is_quiet(state))),
        Ask::Cost(router, target) => {
            Ok(Report::Cost(costs::cost_and_hop(state, router, target)?))
        }
        Ask::Trace(router, target) => {
            let traced = trace::trace(alloc, state, router, target)?;
            Ok(Report::Trace(traced.hops, traced.ending))
        }
    }
}
