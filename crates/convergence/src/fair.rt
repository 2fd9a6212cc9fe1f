//! The fair order.

ghost use Rattle.std.specs.Prelude.{◌≡◌, true, IfSome, IfNone};
ghost use Rattle.reference_machine.specs.Reports.{is_quiet};
ghost use Rattle.convergence.specs.Waiting.{waits};

use crate::reached::Reached;
use crate::waiting::Waiting;
use net_prefix::Addr;

/// Rounds: in each, every direction in which a message waits when its turn comes gives one, by sender, then by
/// receiver.
#[derive(Clone, Copy)]
pub(crate) struct Fair {
    /// The direction that gave the last message of this round.
    past: Option<(Addr, Addr)>,
}

impl Fair {
    /// A round begins.
    pub(crate) fn new() -> Self {
        Fair { past: None }
    }

    /// The direction that gives a message next.
    pub(crate) fn next<M: Waiting>(&mut self, machine: &Reached<M>) -> Option<(Addr, Addr)>
        ensures waits { IfSome result (λ found. waits machine.now found.0 found.1 ≡ true) }
        ensures quiet { IfNone result (is_quiet machine.now ≡ true) }
    {
        self.past = next_in_rounds(machine, self.past);
        self.past
    }
}

/// The next direction in which a message waits, past the one that is given, by sender, then by receiver; from the first
/// on where that was the last.
pub(crate) fn next_in_rounds<M: Waiting>(
    machine: &Reached<M>,
    past: Option<(Addr, Addr)>,
) -> Option<(Addr, Addr)>
    ensures waits { IfSome result (λ found. waits machine.now found.0 found.1 ≡ true) }
    ensures quiet { IfNone result (is_quiet machine.now ≡ true) }
{
    match machine.next_waiting(past) {
        Some(found) => Some(found),
        None => machine.next_waiting(None),
    }
}
