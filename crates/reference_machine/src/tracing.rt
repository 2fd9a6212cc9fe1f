//! The way of what a router forwards.

use net_prefix::{Addr, Prefix};
use seq::Seq;
use sim_event::TraceEnd;

/// What becomes of it at one address.
#[derive(Clone, Copy, Debug, PartialEq, Eq)]
pub enum Look {
    /// It ends here.
    Ends(TraceEnd),
    /// It is forwarded by this prefix, to this address.
    Forwards(Prefix, Addr),
}

/// The routers that forward, each with the prefix by which it does; and how that ends.
#[derive(Drop)]
pub struct Traced {
    pub hops: Seq<(Addr, Prefix)>,
    pub ending: TraceEnd,
}
