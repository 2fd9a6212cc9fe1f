//! What a delivery asks of the configuration.

ghost use Rattle.std.specs.Prelude.{◌≡◌};
ghost use Rattle.reference_machine.specs.Machine.{delivery_refusal};

use net_conf::{Conf, Refusal};
use session_queue::Direction;

/// Why the delivery is refused before its queue is looked at, if it is. Where the session is up it is not, and nobody
/// else is looked up.
#[tactic(auto, unfolding(crate::specs::Machine::delivery_refusal))]
pub fn delivery_refusal(conf: &Conf, direction: Direction) -> Option<Refusal>
    ensures { result ≡ delivery_refusal conf.now direction }
{
    conf.facts();
    if conf.is_up(direction.from, direction.to) {
        None
    } else if !(conf.has_node(direction.from) && conf.has_node(direction.to)) {
        Some(Refusal::NoRouter)
    } else if !conf.has_session(direction.from, direction.to) {
        Some(Refusal::NoSession)
    } else {
        Some(Refusal::SessionDown)
    }
}
