//! Edits.

ghost use Rattle.std.specs.Prelude.{◌≡◌, None, IfOk, OnOk};
ghost use Rattle.sim_event.specs.declared.event.Event.TheVariants.{Edit as AnEdit};
ghost use Rattle.net_conf.specs.Edits.{refusal_of};
ghost use Rattle.cell_engine.specs.State.{network};
ghost use Rattle.cell_engine.specs.Deliveries.{KeepsSame};
ghost use Rattle.cell_engine.specs.Edits.{HasPlaces, refreshed_by};
ghost use Rattle.sim_core.specs.Plans.{IsPrepared, Prepares};

use crate::plan::Plan;
use cell_engine::{Cell, Edited, State};
use net_conf::{Edit, Refusal};
use net_prefix::{Addr, Prefix};
use prefix_table::PrefixTable;
use route_select::Selector;
use sim_event::Reply;
use std::alloc::{AllocError, Global};
use std::thread::Threads;

/// Makes an edit ready.
pub(crate) fn prepare_edit<
    S: Selector + Send + Sync + Drop,
    T: PrefixTable<Cell<S>> + Drop,
    R: Threads + Sync,
>(rt: &R, alloc: Global, state: &mut State<S, T>, edit: &Edit) -> Result<Plan<S>, Refusal>
    ensures network { network state.new ≡ network state.old }
    ensures prepares { Prepares state.new (AnEdit edit.now) result }
{
    if let Err(refusal) = state.conf().check(edit) {
        return Err(refusal);
    }
    match plan_edit(rt, alloc, state, edit) {
        Ok(plan) => Ok(plan),
        Err(_) => Err(Refusal::Memory),
    }
}

/// The plan of an edit that is not refused: all that it makes, and room for what is sent.
fn plan_edit<S: Selector + Send + Sync + Drop, T: PrefixTable<Cell<S>> + Drop, R: Threads + Sync>(
    rt: &R,
    alloc: Global,
    state: &mut State<S, T>,
    edit: &Edit,
) -> Result<Plan<S>, AllocError>
    requires { refusal_of state.old.conf edit.now ≡ None }
    ensures network { network state.new ≡ network state.old }
    ensures plan { IfOk result (λ plan. IsPrepared state.new (AnEdit edit.now) plan) }
{
    let edited = state.edited(rt, edit)?;
    let Ok(refreshed) = make_ready(alloc, state, &edited) else {
        drop(edited);
        return Err(AllocError);
    };
    state.facts();
    Ok(Plan {
        reply: Reply::Done,
        refreshed,
        pushed: None,
        taken: None,
        edited: Some(edited),
    })
}

/// Sees to it that all is there that the edit will put in; the routers and prefixes that it decides anew.
fn make_ready<S: Selector + Drop, T: PrefixTable<Cell<S>> + Drop>(
    alloc: Global,
    state: &mut State<S, T>,
    edited: &Edited<S>,
) -> Result<Vec<(Addr, Prefix)>, AllocError>
    ensures same { KeepsSame state.old state.new }
    ensures tables { state.new.tables ≡ state.old.tables }
    ensures network { network state.new ≡ network state.old }
    ensures places { OnOk result (HasPlaces state.new edited.now) }
    ensures refreshed { IfOk result (λ cells. cells.items ≡ refreshed_by edited.now) }
{
    state.make_room_for(edited)?;
    edited.refreshed(alloc)
}
