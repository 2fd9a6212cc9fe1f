//! Feeds.

ghost use Rattle.std.specs.Prelude.{◌≡◌, ◌<◌, None, IfOk, OnOk, OnErr};
ghost use Rattle.session_queue.specs.Waiting.{spare_at, IsAdmitted};
ghost use Rattle.sim_event.specs.declared.event.Event.TheVariants.{Feed as AFeed};
ghost use Rattle.reference_machine.specs.Machine.{after_feed, feed_refusal, fed_message, IsStep};
ghost use Rattle.cell_engine.specs.State.{network};
ghost use Rattle.cell_engine.specs.Deliveries.{KeepsSame};
ghost use Rattle.sim_core.specs.Counting.{Counts};
ghost use Rattle.sim_core.specs.Plans.{IsPrepared, Prepares};

use crate::counting::raised_by_none;
use crate::plan::Plan;
use crate::sim::Sim;
use cell_engine::{Cell, State};
use net_conf::Refusal;
use prefix_table::PrefixTable;
use reference_machine::{fed_message, feed_refusal};
use route_select::Selector;
use session_queue::{Direction, Message};
use sim_event::{Feed, Reply};
use std::alloc::{AllocError, Global};

impl<S: Selector + Drop, T: PrefixTable<Cell<S>> + Drop> Sim<S, T> {
    /// Puts what is fed on its way: the machine's own step, without a plan. It decides nothing. The refusal is the
    /// machine's own, or want of memory.
    #[inline(never)]
    pub(crate) fn take_feed(&mut self, feed: &Feed) -> Reply
        ensures step { IsStep (network self.old.engine) (AFeed feed.now) result (network self.new.engine) }
        ensures decided { Counts (network self.old.engine) (AFeed feed.now) result self.old.decided self.new.decided }
    {
        raised_by_none(self.decided);
        if let Some(refusal) = feed_refusal(self.state.conf(), feed) {
            return Reply::Refused(refusal);
        }
        match put_on_its_way(self.alloc, &mut self.state, feed) {
            Ok(()) => return Reply::Done,
            Err(_) => return Reply::Refused(Refusal::Memory),
        }
    }
}

/// Puts what is fed, and not refused, at the end of its queue. An error, which is want of memory, changes nothing.
fn put_on_its_way<S: Selector + Drop, T: PrefixTable<Cell<S>> + Drop>(
    alloc: Global,
    state: &mut State<S, T>,
    feed: &Feed,
) -> Result<(), AllocError>
    requires { feed_refusal state.old.conf feed.now ≡ None }
    ensures next { OnOk result (network state.new ≡ after_feed (network state.old) feed.now) }
    ensures same { OnErr result (network state.new ≡ network state.old) }
{
    let direction = Direction {
        from: feed.from,
        to: feed.to,
    };
    let message = fed_message(alloc, feed.from, &feed.news)?;
    state.feed(direction, message)
}

/// Makes a feed ready.
pub(crate) fn prepare_feed<S: Selector + Drop, T: PrefixTable<Cell<S>> + Drop>(
    alloc: Global,
    state: &mut State<S, T>,
    feed: &Feed,
) -> Result<Plan<S>, Refusal>
    ensures network { network state.new ≡ network state.old }
    ensures prepares { Prepares state.new (AFeed feed.now) result }
{
    if let Some(refusal) = feed_refusal(state.conf(), feed) {
        return Err(refusal);
    }
    match plan_feed(alloc, state, feed) {
        Ok(plan) => Ok(plan),
        Err(_) => Err(Refusal::Memory),
    }
}

/// The plan of a feed that is not refused: the message, and room for it.
fn plan_feed<S: Selector + Drop, T: PrefixTable<Cell<S>> + Drop>(
    alloc: Global,
    state: &mut State<S, T>,
    feed: &Feed,
) -> Result<Plan<S>, AllocError>
    requires { feed_refusal state.old.conf feed.now ≡ None }
    ensures network { network state.new ≡ network state.old }
    ensures plan { IfOk result (λ plan. IsPrepared state.new (AFeed feed.now) plan) }
{
    let direction = Direction {
        from: feed.from,
        to: feed.to,
    };
    let message = message_to_feed(alloc, state, direction, feed)?;
    Ok(Plan {
        reply: Reply::Done,
        refreshed: Vec::new(alloc),
        pushed: Some((direction, message)),
        taken: None,
        edited: None,
    })
}

/// The message that is fed in the direction, which may be sent, and for which its queue has room.
fn message_to_feed<S: Selector + Drop, T: PrefixTable<Cell<S>> + Drop>(
    alloc: Global,
    state: &mut State<S, T>,
    direction: Direction,
    feed: &Feed,
) -> Result<Message, AllocError>
    ensures same { KeepsSame state.old state.new }
    ensures network { network state.new ≡ network state.old }
    ensures message { IfOk result (λ message. message ≡ fed_message feed.now.from feed.now.news) }
    ensures room { OnOk result (0 < spare_at state.new.queues direction.from direction.to) }
    ensures admitted { IfOk result (IsAdmitted state.new.queues) }
{
    let message = fed_message(alloc, feed.from, &feed.news)?;
    state.reserve_one(direction, &message)?;
    Ok(message)
}
