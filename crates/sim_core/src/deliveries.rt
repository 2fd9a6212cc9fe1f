//! Deliveries.

ghost use Rattle.std.specs.Prelude.{◌≡◌, true, Some, None, length, slice_get, if◌then◌else◌, IfOk, IfErr, OnOk};
ghost use Rattle.net_prefix.specs.Prefix.{Prefix};
ghost use Rattle.net_conf.specs.Costs.{is_up};
ghost use Rattle.session_queue.specs.Waiting.{queue_at};
ghost use Rattle.sim_event.specs.declared.event.Event.TheVariants.{Deliver};
ghost use Rattle.reference_machine.specs.Network.{messages_in};
ghost use Rattle.reference_machine.specs.Machine.{delivery_refusal, head_step, IsStep};
ghost use Rattle.cell_engine.specs.State.{network};
ghost use Rattle.cell_engine.specs.Deliveries.{IsOfHead, HasRoom};
ghost use Rattle.sim_core.specs.Counting.{decided_at, Counts};
ghost use Rattle.sim_core.specs.Plans.{IsPrepared, IsRefused, Prepares};

use crate::counting::raised;
use crate::plan::{Plan, Taken};
use crate::sim::Sim;
use cell_engine::{Cell, State};
use net_conf::Refusal;
use net_prefix::{Addr, Prefix};
use prefix_table::PrefixTable;
use reference_machine::delivery_refusal;
use route_select::{Chosen, Selector};
use session_queue::{Direction, Message};
use sim_event::Reply;
use std::alloc::{AllocError, Global};

impl<S: Selector + Drop, T: PrefixTable<Cell<S>> + Drop> Sim<S, T> {
    /// Delivers the message at the head of the direction's queue: the machine's own step, without a plan. The refusal is
    /// the machine's own, or out of memory.
    #[inline(never)]
    pub(crate) fn deliver_head(&mut self, direction: Direction) -> Reply
        ensures step { IsStep (network self.old.engine) (Deliver direction.from direction.to) result
            (network self.new.engine) }
        ensures decided { Counts (network self.old.engine) (Deliver direction.from direction.to) result self.old.decided
            self.new.decided }
    {
        self.state.facts();
        let message = match message_to_take(&self.state, direction) {
            Ok(message) => message,
            Err(refusal) => return Reply::Refused(refusal),
        };
        match self.state.deliver(direction, &message) {
            Ok(decides) => {
                self.decided = raised(self.decided, decisions(decides));
                return Reply::Took(message.prefix(), message.kind());
            }
            Err(_) => return Reply::Refused(Refusal::Memory),
        }
    }
}

/// How many routes a delivery decides anew: one where its receiver decides.
fn decisions(decides: bool) -> usize
    ensures { result ≡ (if decides then 1 else 0) }
{
    if decides { 1 } else { 0 }
}

/// Makes a delivery ready.
pub(crate) fn prepare_delivery<S: Selector + Drop, T: PrefixTable<Cell<S>> + Drop>(
    alloc: Global,
    state: &mut State<S, T>,
    direction: Direction,
) -> Result<Plan<S>, Refusal>
    ensures network { network state.new ≡ network state.old }
    ensures prepares { Prepares state.new (Deliver direction.from direction.to) result }
{
    state.facts();
    let message = message_to_take(state, direction)?;
    match plan_delivery(alloc, state, direction, &message) {
        Ok(plan) => Ok(plan),
        Err(_) => Err(Refusal::Memory),
    }
}

/// The message at the head of the direction's queue, where the machine takes it. The refusal is the machine's own, or
/// want of memory.
fn message_to_take<S: Selector + Drop, T: PrefixTable<Cell<S>> + Drop>(
    state: &State<S, T>,
    direction: Direction,
) -> Result<Message, Refusal>
    ensures allowed { OnOk result (delivery_refusal state.now.conf direction ≡ None) }
    ensures head { IfOk result (λ message.
        slice_get (queue_at state.now.queues direction.from direction.to) 0 ≡ Some message) }
    ensures refused { IfErr result (IsRefused state.now (Deliver direction.from direction.to)) }
{
    state.facts();
    if let Some(refusal) = delivery_refusal(state.conf(), direction) {
        return Err(refusal);
    }
    let Some(head) = state.queues().head(direction.from, direction.to) else {
        return Err(Refusal::QueueEmpty);
    };
    match head.to_message() {
        Ok(message) => Ok(message),
        Err(_) => Err(Refusal::Memory),
    }
}

/// The plan of a delivery that is not refused: what the receiver makes of the message, and room for that.
fn plan_delivery<S: Selector + Drop, T: PrefixTable<Cell<S>> + Drop>(
    alloc: Global,
    state: &mut State<S, T>,
    direction: Direction,
    message: &Message,
) -> Result<Plan<S>, AllocError>
    requires allowed { delivery_refusal state.old.conf direction ≡ None }
    requires head { slice_get (queue_at state.old.queues direction.from direction.to) 0 ≡ Some message.now }
    ensures network { network state.new ≡ network state.old }
    ensures plan { IfOk result (λ plan. IsPrepared state.new (Deliver direction.from direction.to) plan) }
{
    state.facts();
    let prefix = message.prefix();
    let outcome = state.outcome(direction, message)?;
    let Ok(refreshed) = decided_at(alloc, state, direction.to, prefix) else {
        drop(outcome);
        return Err(AllocError);
    };
    let taken = Taken {
        direction,
        prefix,
        outcome,
    };
    let taken = match Box::new(alloc, taken) {
        Ok(taken) => taken,
        Err(failed) => {
            drop((failed, refreshed));
            return Err(AllocError);
        }
    };
    Ok(Plan {
        reply: Reply::Took(prefix, message.kind()),
        refreshed,
        pushed: None,
        taken: Some(taken),
        edited: None,
    })
}

/// The router's route to the prefix, as the one that is decided: none at a virtual peer.
fn decided_at<S: Selector + Drop, T: PrefixTable<Cell<S>> + Drop>(
    alloc: Global,
    state: &State<S, T>,
    router: Addr,
    prefix: Prefix,
) -> Result<Vec<(Addr, Prefix)>, AllocError>
    ensures { IfOk result (λ cells. cells.items ≡ decided_at state.now.conf router prefix) }
{
    let mut cells = Vec::new(alloc);
    if state.has_router(router) {
        cells.push((router, prefix))?;
    }
    Ok(cells)
}

/// How many routes a delivery to the address decides anew: a virtual peer decides none.
pub(crate) fn decisions_at<S: Chosen, T: PrefixTable<Cell<S>>>(
    state: &State<S, T>,
    address: Addr,
) -> usize
    ensures { (p : Prefix) → result ≡ length (decided_at state.now.conf address p) }
{
    if state.has_router(address) { 1 } else { 0 }
}

/// Takes the message at the head of the queue. It takes no memory.
pub(crate) fn take<S: Selector + Drop, T: PrefixTable<Cell<S>> + Drop>(
    state: &mut State<S, T>,
    taken: Box<Taken<S>>,
)
    requires up { is_up state.old.conf taken.value.direction.from taken.value.direction.to ≡ true }
    requires head { IsOfHead state.old taken.value.direction taken.value.prefix taken.value.outcome }
    requires room { HasRoom state.old taken.value.direction.to taken.value.prefix taken.value.outcome.sends }
    ensures { network state.new ≡
        (head_step (network state.old) taken.value.direction
        (messages_in (network state.old).queues taken.value.direction)).next }
{
    let Taken {
        direction,
        prefix,
        outcome,
    } = Box::into_inner(taken);
    state.take(direction, prefix, outcome);
}
