//! What a question asks of the configuration.

ghost use Rattle.std.specs.Prelude.{◌≡◌};
ghost use Rattle.reference_machine.specs.Machine.{asks_nobody, asks_peer, asks_unjoined, ask_refusal};

use net_conf::{Conf, Refusal};
use sim_event::Ask;

/// Why the question is refused, if it is: the first test that holds.
#[tactic(auto, unfolding(crate::specs::Machine::ask_refusal))]
pub fn ask_refusal(conf: &Conf, ask: &Ask) -> Option<Refusal>
    ensures { result ≡ ask_refusal conf.now ask.now }
{
    if asks_nobody(conf, ask) {
        Some(Refusal::NoRouter)
    } else if asks_peer(conf, ask) {
        Some(Refusal::BadEnd)
    } else if asks_unjoined(conf, ask) {
        Some(Refusal::NoSession)
    } else {
        None
    }
}

/// 2: a router or peer that the question names is not there.
fn asks_nobody(conf: &Conf, ask: &Ask) -> bool
    ensures { result ≡ asks_nobody conf.now ask.now }
{
    match *ask {
        Ask::Routes(router) | Ask::Trace(router, _) => !conf.has_node(router),
        Ask::Best(router, _) | Ask::Why(router, _) => !conf.has_node(router),
        Ask::In(one, other) | Ask::Out(one, other) => !(conf.has_node(one) && conf.has_node(other)),
        Ask::Queue(one, other) | Ask::Cost(one, other) => {
            !(conf.has_node(one) && conf.has_node(other))
        }
        Ask::Quiet => false,
    }
}

/// 5: a virtual peer is asked what only a router knows.
fn asks_peer(conf: &Conf, ask: &Ask) -> bool
    ensures { result ≡ asks_peer conf.now ask.now }
{
    match *ask {
        Ask::Routes(router) | Ask::Trace(router, _) => conf.is_virtual(router),
        Ask::Best(router, _) | Ask::Why(router, _) => conf.is_virtual(router),
        Ask::Out(router, _) | Ask::Cost(router, _) => conf.is_virtual(router),
        Ask::In(_, _) | Ask::Queue(_, _) | Ask::Quiet => false,
    }
}

/// 10: the two have no session.
fn asks_unjoined(conf: &Conf, ask: &Ask) -> bool
    ensures { result ≡ asks_unjoined conf.now ask.now }
{
    match *ask {
        Ask::In(one, other) | Ask::Out(one, other) => !conf.has_session(one, other),
        Ask::Queue(one, other) => !conf.has_session(one, other),
        _ => false,
    }
}
