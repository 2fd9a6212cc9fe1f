//! For whom a call can put messages on their way.

ghost use Rattle.std.specs.Prelude.{◌≡◌};
ghost use Rattle.net_conf.specs.Scopes.{router_in, scope};
ghost use Rattle.scheduler.specs.Receiving.{receivers_of, receivers_of_router};

use net_conf::Edit;
use net_prefix::Addr;
use sim_event::Event;

/// The receivers for whom a call can put messages on their way.
#[derive(Clone, Copy, PartialEq, Eq)]
pub enum Receivers {
    /// Nobody.
    Nobody,
    /// This one.
    One(Addr),
    /// Those of this sender.
    OfSender(Addr),
    /// Any router or virtual peer.
    Everybody,
}

impl Receivers {
    /// Those for whom the event can put messages on their way.
    pub fn by(event: &Event) -> Self
        ensures { result ≡ receivers_of event.now }
    {
        match event {
            Event::Ask(_) => Receivers::Nobody,
            Event::Feed(feed) => Receivers::One(feed.to),
            Event::Deliver(_, receiver) => Receivers::OfSender(*receiver),
            Event::Edit(edit) => Receivers::by_edit(edit),
        }
    }

    fn by_edit(edit: &Edit) -> Self
        ensures { result ≡ receivers_of_router (router_in (scope edit.now)) }
    {
        match edit.scope().router() {
            Some(router) => Receivers::OfSender(router),
            None => Receivers::Everybody,
        }
    }
}
