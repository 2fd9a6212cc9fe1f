//! How far a room is, for people to read.

ghost use Rattle.std.specs.Prelude.{◌≡◌, ◌<◌, length, IfSome};
ghost use Rattle.session_queue.specs.Waiting.{queue_at, IsPast, SkipsNone};

use crate::room::Room;
use cell_engine::Cell;
use net_prefix::Addr;
use prefix_table::PrefixTable;
use route_select::Chosen;
use session_queue::Queues;
use std::sync::ledger::Ledger;

/// How far a room is.
#[derive(Clone, Copy, Debug, PartialEq, Eq)]
pub struct Progress {
    /// How many calls were made.
    pub calls: u64,
    /// How many messages wait. Nothing is claimed of this number.
    pub waiting: u64,
}

impl<S: Chosen, T: PrefixTable<Cell<S>>, L: Ledger> Room<S, T, L> {
    /// How far it is. This looks at each direction that has a message.
    pub fn progress(&self) -> Progress
        ensures { result.calls ≡ length self.now.history }
    {
        Progress {
            calls: self.history.len() as u64,
            waiting: waiting_in(self.sim.state().queues()),
        }
    }

    /// The next direction with a message, by sender, then by receiver: the first of all, or the first past the one that
    /// is given.
    pub fn next_full(&self, past: Option<(Addr, Addr)>) -> Option<(Addr, Addr)>
        ensures full { IfSome result (λ found. 0 < length (queue_at self.now.engine.queues found.0 found.1)) }
        ensures past { IfSome result (IsPast past) }
        ensures none_between { SkipsNone self.now.engine.queues past result }
    {
        self.sim.state().queues().next_full(past)
    }
}

/// How many messages wait in all directions.
fn waiting_in(queues: &Queues) -> u64 {
    let mut waiting = 0_u64;
    let mut past = None;
    for _ in 0..u64::MAX {
        let Some((from, to)) = queues.next_full(past) else {
            break;
        };
        waiting = waiting.saturating_add(queues.len(from, to) as u64);
        past = Some((from, to));
    }
    waiting
}
