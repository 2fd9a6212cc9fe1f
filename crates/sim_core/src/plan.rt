//! What an event will do.

ghost use Rattle.std.specs.Prelude.{◌≡◌};

use cell_engine::{Edited, Outcome};
use net_prefix::{Addr, Prefix};
use route_select::Selector;
use session_queue::{Direction, Message};
use sim_event::Reply;
use std::marker::Model;

/// The message at the head of a direction's queue is taken.
#[derive(Drop)]
pub(crate) struct Taken<S: Selector> {
    pub(crate) direction: Direction,
    /// The message's.
    pub(crate) prefix: Prefix,
    /// What the receiver makes of it.
    pub(crate) outcome: Outcome<S>,
}

impl<S: Selector> Model for Taken<S> {
    ghost use Rattle.sim_core.specs.Plans as plans;
    ghost use Rattle.sim_core.specs.Coding.{coded_taken};

    ghost Value = { plans.Taken };

    ghost coded = { coded_taken };

    ghost view = { λ t. record { direction = t.direction; prefix = t.prefix; outcome = t.outcome } };
}

/// What an event will do, with all that this takes: a message is put on its way, or one is taken, or the configuration
/// is edited, or nothing changes.
#[derive(Drop)]
pub struct Plan<S: Selector> {
    pub(crate) reply: Reply,
    /// The cells to be decided.
    pub(crate) refreshed: Vec<(Addr, Prefix)>,
    pub(crate) pushed: Option<(Direction, Message)>,
    // In boxes: the borrow checker follows a plan by value only where its parts that depend on the selector stand
    // behind one.
    pub(crate) taken: Option<Box<Taken<S>>>,
    pub(crate) edited: Option<Edited<S>>,
}

impl<S: Selector> Model for Plan<S> {
    ghost use Rattle.std.specs.Option.{option_map};
    ghost use Rattle.std.specs.Coded.{codes};
    ghost use Rattle.cell_engine.specs.Coding.{coded_edit};
    ghost use Rattle.sim_core.specs.Coding.{coded_taken};
    ghost use Rattle.sim_core.specs.Plans as plans;

    ghost Value = { plans.Plan };

    ghost coded = { Prim.hlevel (codes, coded_edit, coded_taken) };

    ghost view = { λ x. record {
      reply = x.reply;
      refreshed = x.refreshed.items;
      pushed = x.pushed;
      taken = option_map (λ t. t.value) x.taken;
      edited = x.edited;
    } };
}

impl<S: Selector> Plan<S> {
    /// What will be answered once the plan is carried out.
    pub fn reply(&self) -> &Reply
        ensures { result.now ≡ self.now.reply }
    {
        &self.reply
    }

    /// The cells to be decided, by router, then prefix: of an edit those that it touches, of a delivery the receiver's
    /// one. A virtual peer's is none of them.
    pub fn refreshed(&self) -> &[(Addr, Prefix)]
        ensures { result.now ≡ self.now.refreshed }
    {
        &self.refreshed
    }
}
