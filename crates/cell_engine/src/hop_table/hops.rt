//! What is known of the NEXT_HOPs of some routes.

ghost use Rattle.std.specs.Prelude.{◌≡◌, List};
ghost use Rattle.net_prefix.specs.declared.addr.Addr as addr;
ghost use Rattle.path_attr.specs.declared.attr.Attr as attr;
ghost use Rattle.cell_engine.specs.Hops.{Have, with_hop, with_hops};

use net_prefix::Addr;
use path_attr::SharedAttr;

/// What is known of the NEXT_HOPs of some routes.
#[derive(Clone, Copy, Debug, PartialEq, Eq)]
pub enum Hops {
    /// There is no route.
    Nothing,
    /// All have this one.
    Only(Addr),
    /// There may be several.
    Several,
}

impl Hops {
    /// What is known once there is a route with this NEXT_HOP besides.
    fn with_hop(self, next: Addr) -> Hops
        ensures { result ≡ with_hop self next }
    {
        match self {
            Hops::Nothing => Hops::Only(next),
            Hops::Only(one) if one == next => self,
            _ => Hops::Several,
        }
    }

    /// What is known once there are these routes besides. Where there may be several, no route is looked at.
    pub fn with(self, routes: &[(Addr, SharedAttr)]) -> Hops
        ensures value { result ≡ with_hops self routes.now }
        ensures covers { Have result routes.now }
        ensures keeps { (known : List (addr.Addr × attr.Attr)) → Have self known → Have result known }
    {
        let mut hops = self;
        for route in routes {
            if let Hops::Several = hops {
                return hops;
            }
            hops = hops.with_hop(route.1.attr().next);
        }
        hops
    }
}
