//! In which order directions give their messages.

ghost use Rattle.std.specs.Prelude.{◌≡◌, true, false, IfOk, IfSome, IfNone, OnErr};
ghost use Rattle.reference_machine.specs.Reports.{is_quiet};
ghost use Rattle.convergence.specs.Waiting.{waits};

use crate::by_router::ByRouter;
use crate::fair::Fair;
use crate::random::Random;
use crate::reached::Reached;
use crate::waiting::Waiting;
use net_prefix::Addr;
use std::alloc::{AllocError, Global};

/// An order that can be asked for.
#[derive(Clone, Copy, Debug, PartialEq, Eq)]
pub enum Order {
    /// Rounds, in which each direction that waits gives one message.
    Fair,
    /// All that waits for one router, then all for the next.
    Router,
    /// Each direction that waits is as likely as any other to give the next message, by the generator of this seed.
    Random(u32),
}

/// An order on its way.
#[derive(Drop)]
pub(crate) enum Turns {
    Fair(Fair),
    Router(ByRouter),
    Random(Random),
}

impl Turns {
    /// The order begins.
    pub(crate) fn new(alloc: Global, order: Order) -> Self {
        match order {
            Order::Fair => Turns::Fair(Fair::new()),
            Order::Router => Turns::Router(ByRouter::new()),
            Order::Random(seed) => Turns::Random(Random::new(alloc, seed)),
        }
    }

    /// The direction that gives a message next. The error is that there is no memory to choose among those in which one
    /// waits.
    pub(crate) fn next<M: Waiting>(
        &mut self,
        machine: &Reached<M>,
    ) -> Result<Option<(Addr, Addr)>, AllocError>
        ensures waits { IfOk result (λ next. IfSome next (λ found. waits machine.now found.0 found.1 ≡ true)) }
        ensures quiet { IfOk result (λ next. IfNone next (is_quiet machine.now ≡ true)) }
        ensures memory { OnErr result (is_quiet machine.now ≡ false) }
    {
        match self {
            Turns::Fair(fair) => Ok(fair.next(machine)),
            Turns::Router(by_router) => Ok(by_router.next(machine)),
            Turns::Random(random) => random.next(machine),
        }
    }
}
