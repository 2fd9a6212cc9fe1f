//! What a router advertises to a peer, who sends, and what a change of an advert takes.

ghost use Rattle.std.specs.Prelude.{◌≡◌, IfOk};
ghost use Rattle.std.specs.Option.{option_copied};
ghost use Rattle.reference_machine.specs.Advertising.{advert_of, change_of, sends};

use net_conf::{Conf, SiteConf};
use net_prefix::{Addr, Prefix};
use path_attr::SharedAttr;
use reflect_out::advert;
use route_select::Candidate;
use session_queue::Message;
use std::alloc::{AllocError, Global};

/// What the router of the site advertises to the peer of the route that it chose, if it chose one: nothing while their
/// session is down, and nothing where there is no site.
pub fn advert_of(
    alloc: Global,
    up: bool,
    site: Option<&SiteConf>,
    peer: Addr,
    prefix: Prefix,
    chosen: Option<&Candidate>,
) -> Result<Option<SharedAttr>, AllocError>
    ensures { IfOk result (λ attr.
        attr ≡ advert_of up (option_copied site.entry) peer prefix (option_copied chosen.entry)) }
{
    match (chosen, site) {
        (Some(best), Some(site)) if up => advert(alloc, site, prefix, best, peer),
        _ => Ok(None),
    }
}

/// The message that leads from what was advertised to what is advertised now: none where that is the same.
pub fn change_of(
    prefix: Prefix,
    old: Option<SharedAttr>,
    new: Option<SharedAttr>,
) -> Option<Message>
    ensures { result ≡ change_of prefix old new }
{
    match (old, new) {
        (None, None) => None,
        (Some(_), None) => Some(Message::Withdraw(prefix)),
        (None, Some(new)) => Some(Message::Update(prefix, new)),
        (Some(old), Some(new)) => {
            if old.is_same(&new) {
                None
            } else {
                Some(Message::Update(prefix, new))
            }
        }
    }
}

/// Whether a router stands at the address, and its session with the peer is up: a virtual peer sends nothing by itself.
pub fn sends(conf: &Conf, router: Addr, peer: Addr) -> bool
    ensures { result ≡ sends conf.now router peer }
{
    conf.has_node(router) && !conf.is_virtual(router) && conf.is_up(router, peer)
}
