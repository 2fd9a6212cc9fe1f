//! The order by router.

ghost use Rattle.std.specs.Prelude.{◌≡◌, true, IfSome, IfNone};
ghost use Rattle.reference_machine.specs.Reports.{is_quiet};
ghost use Rattle.convergence.specs.Waiting.{waits};

use crate::fair::next_in_rounds;
use crate::reached::Reached;
use crate::waiting::Waiting;
use net_prefix::Addr;

/// All that waits for one router, by sender, then all that waits for the next: the receiver of the next direction in
/// which a message waits, by sender, then by receiver. A direction to a virtual peer is emptied alone.
#[derive(Clone, Copy)]
pub(crate) struct ByRouter {
    /// The direction at which the router's turn began.
    begun: Option<(Addr, Addr)>,
    /// How many of its sessions are passed.
    passed: usize,
}

impl ByRouter {
    /// No router has its turn.
    pub(crate) fn new() -> Self {
        ByRouter {
            begun: None,
            passed: 0,
        }
    }

    /// The direction that gives a message next.
    pub(crate) fn next<M: Waiting>(&mut self, machine: &Reached<M>) -> Option<(Addr, Addr)>
        ensures waits { IfSome result (λ found. waits machine.now found.0 found.1 ≡ true) }
        ensures quiet { IfNone result (is_quiet machine.now ≡ true) }
    {
        if let Some((from, to)) = self.begun {
            if machine.queued(from, to).is_some() {
                return Some((from, to));
            }
            if let Some(sender) = self.next_sender(machine, to) {
                return Some((sender, to));
            }
        }
        self.begun = next_in_rounds(machine, self.begun);
        self.passed = 0;
        self.begun
    }

    /// The next sender from whom a message waits for the router.
    fn next_sender<M: Waiting>(&mut self, machine: &Reached<M>, router: Addr) -> Option<Addr>
        ensures { IfSome result (λ sender. waits machine.now sender router ≡ true) }
    {
        let sessions = machine.sessions(router);
        for index in self.passed..sessions.len() {
            let peer = sessions[index].peer;
            if machine.queued(peer, router).is_some() {
                self.passed = index;
                return Some(peer);
            }
        }
        self.passed = sessions.len();
        None
    }
}
