//! Whether routers stand at addresses.

ghost use Rattle.std.specs.Prelude.{◌≡◌, IfSome, is_some};
ghost use Rattle.net_conf.specs.RouterSites.{router_site};
ghost use Rattle.cell_engine.specs.Edits.{has_router_kind};

use net_conf::{Conf, Kind};
use net_prefix::Addr;
use path_attr::Asn;

/// Whether a router stands at the address.
pub(crate) fn is_router(conf: &Conf, address: Addr) -> bool
    ensures { result ≡ is_some (router_site conf.now address) }
{
    has_router_kind(conf.router(address))
}

/// Whether what stands somewhere is a router.
fn has_router_kind(node: Option<(Asn, Kind)>) -> bool
    ensures { result ≡ has_router_kind node }
{
    match node {
        None => false,
        Some((_, kind)) => kind == Kind::Router,
    }
}

/// Whether a router stands at the address, with the last answer for another one at hand: cells are in the order of
/// their routers, so one look-up serves all cells of a router.
pub fn is_router_again(conf: &Conf, last: &mut Option<(Addr, bool)>, address: Addr) -> bool
    requires right { IfSome last.old (λ l. l.1 ≡ is_some (router_site conf.now l.0)) }
    ensures is { result ≡ is_some (router_site conf.now address) }
    ensures right { IfSome last.new (λ l. l.1 ≡ is_some (router_site conf.now l.0)) }
{
    if let Some((router, answer)) = *last {
        if router == address {
            return answer;
        }
    }
    let answer = is_router(conf, address);
    *last = Some((address, answer));
    answer
}
