//! What every machine promises, however it keeps its state.

ghost use Rattle.std.specs.Thread.{IsSync};

use sim_event::{Event, Reply};
use std::thread::Threads;

/// A machine: a network that takes events.
pub trait Machine {
    ghost use Rattle.reference_machine.specs.Network.{Network};
    ghost use Rattle.reference_machine.specs.Machine.{IsStep};

    /// The network, however it is kept.
    ghost network: { Self → Network };

    /// Takes an event, in as many threads as the machine likes. The reply and the new state are the definition's; only
    /// want of memory may refuse beside it, and then nothing changes.
    fn step<R: Threads + Sync>(&mut self, rt: &R, event: &Event) -> Reply
        requires { IsSync R.row }
        ensures { IsStep (network self.old) event.now result (network self.new) };
}
