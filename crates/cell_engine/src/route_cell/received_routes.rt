//! The routes that were received for one prefix, in a vector in the order of their senders. A cell has one to four of
//! them, for which a B-tree map is too large.

ghost use Rattle.std.specs.Prelude.{◌≡◌, ◌∷◌, ◌++◌, [], filter, IfOk, OnOk, OnErr};
ghost use Rattle.std.specs.Option.{option_copied};
ghost use Rattle.std.specs.Ordering.{is_gt, is_lt};
ghost use Rattle.std.specs.Map.{remove_entry};
ghost use Rattle.std.specs.BTreeMap.{insert_entry, is_at};
ghost use Rattle.net_prefix.specs.Address.{addr_cmp};
ghost use Rattle.net_conf.specs.Costs.{is_up};
ghost use Rattle.cell_engine.specs.Cells.{route_of, with_news, kept_routes};
ghost use Rattle.cell_engine.specs.Senders.{AreInOrder, is_past, first_past, seen};

use crate::route_cell::sends::is_up_in;
use crate::router_tables::places::place;
use net_conf::{Conf, SiteConf};
use net_prefix::Addr;
use path_attr::SharedAttr;
use seq::Copied;
use session_queue::Message;
use std::alloc::{AllocError, Global};
use std::marker::Model;

/// The routes to one prefix in a router's Adj-RIBs-In, by sender (RFC 4271, 3.2).
#[derive(Drop)]
pub(crate) struct ReceivedRoutes {
    routes: Vec<(Addr, SharedAttr)>,
}

impl Model for ReceivedRoutes {
    ghost use Rattle.std.specs.Prelude.{List};
    ghost use Rattle.net_prefix.specs.declared.addr.Addr.{Addr};
    ghost use Rattle.path_attr.specs.declared.attr.Attr.{Attr};
    ghost use Rattle.cell_engine.specs.Senders.{AreInOrder};

    ghost Value = { List (Addr × Attr) };

    ghost view = { λ r. r.routes.items };

    ghost invariant = { λ r. AreInOrder r.routes.items };
}

impl ReceivedRoutes {
    /// No route. It takes no memory.
    pub(crate) fn new(alloc: Global) -> Self
        ensures { result ≡ [] }
    {
        ReceivedRoutes {
            routes: Vec::new(alloc),
        }
    }

    /// These routes, and this one in place of any that was from its sender.
    pub(crate) fn with(
        &self,
        alloc: Global,
        sender: Addr,
        attr: &SharedAttr,
    ) -> Result<Self, AllocError>
        ensures { IfOk result (λ routes. routes ≡ insert_entry addr_cmp self.now sender attr.now) }
    {
        Ok(ReceivedRoutes {
            routes: with_route(alloc, &self.routes, sender, attr)?,
        })
    }

    /// These routes but for the sender's.
    pub(crate) fn without(&self, alloc: Global, sender: Addr) -> Result<Self, AllocError>
        ensures { IfOk result (λ routes. routes ≡ remove_entry (is_at (addr_cmp sender)) self.now) }
    {
        Ok(ReceivedRoutes {
            routes: without_sender(alloc, &self.routes, sender)?,
        })
    }

    /// The routes, once the sender's message has been taken.
    pub(crate) fn with_news(
        &self,
        alloc: Global,
        sender: Addr,
        message: &Message,
    ) -> Result<Self, AllocError>
        ensures news { IfOk result (λ routes. routes ≡ with_news sender message.now self.now) }
        ensures order { AreInOrder self.now }
    {
        let _ = &self.routes;
        match message {
            Message::Update(_, attr) => self.with(alloc, sender, attr),
            Message::Withdraw(_) => self.without(alloc, sender),
        }
    }

    /// Takes the sender's message where the routes stand. It takes memory for a sender more. An error changes nothing.
    pub(crate) fn take(
        &mut self,
        alloc: Global,
        sender: Addr,
        message: &Message,
    ) -> Result<(), AllocError>
        ensures ok { OnOk result (self.new ≡ with_news sender message.now self.old) }
        ensures err { OnErr result (self.new ≡ self.old) }
    {
        match message {
            Message::Update(_, attr) => {
                let attr = attr.copy(alloc)?;
                put_route(&mut self.routes, sender, attr)
            }
            Message::Withdraw(_) => {
                remove_route(&mut self.routes, sender);
                Ok(())
            }
        }
    }

    /// The routes that came over sessions of the site that are up.
    pub(crate) fn kept_at(&self, alloc: Global, site: &SiteConf) -> Result<Self, AllocError>
        ensures { IfOk result (λ routes. routes ≡ kept_routes site.now self.now) }
    {
        Ok(ReceivedRoutes {
            routes: kept_routes(alloc, site, &self.routes)?,
        })
    }

    /// The routes that came to the address over sessions that are up.
    pub(crate) fn kept_by(&self, alloc: Global, conf: &Conf, to: Addr) -> Result<Self, AllocError>
        ensures { IfOk result (λ routes. routes ≡ filter (λ e. is_up conf.now e.0 to) self.now) }
    {
        Ok(ReceivedRoutes {
            routes: routes_over(alloc, conf, to, &self.routes)?,
        })
    }

    /// The senders with their routes, by sender.
    pub(crate) fn routes(&self) -> &[(Addr, SharedAttr)]
        ensures routes { result.now ≡ self.now }
        ensures order { AreInOrder self.now }
    {
        &self.routes
    }

    /// The route of this sender.
    pub(crate) fn route_of(&self, sender: Addr) -> Option<&SharedAttr>
        ensures { option_copied result ≡ route_of self.now sender }
    {
        route_in(&self.routes, sender)
    }

    /// The first sender past this one, or with none the first of all, and its route.
    pub(crate) fn next(&self, past: Option<Addr>) -> Option<(Addr, &SharedAttr)>
        ensures next { seen result ≡ first_past self.now past }
        ensures order { AreInOrder self.now }
    {
        next_in(&self.routes, past)
    }
}

impl Copied for ReceivedRoutes {
    fn copy(&self, alloc: Global) -> Result<Self, AllocError> {
        Ok(ReceivedRoutes {
            routes: copy_routes(alloc, &self.routes)?,
        })
    }
}

/// Adds the routes of the senders before this one.
fn add_before(
    alloc: Global,
    kept: &mut Vec<(Addr, SharedAttr)>,
    routes: &[(Addr, SharedAttr)],
    sender: Addr,
) -> Result<(), AllocError>
    ensures { OnOk result (kept.new.items ≡ kept.old.items ++ filter (λ e. is_gt (addr_cmp sender e.0)) routes.now) }
{
    for route in routes {
        if sender.cmp(&route.0).is_gt() {
            kept.push((route.0, route.1.copy(alloc)?))?;
        }
    }
    Ok(())
}

/// Adds the routes of the senders after this one.
fn add_after(
    alloc: Global,
    kept: &mut Vec<(Addr, SharedAttr)>,
    routes: &[(Addr, SharedAttr)],
    sender: Addr,
) -> Result<(), AllocError>
    ensures { OnOk result (kept.new.items ≡ kept.old.items ++ filter (λ e. is_lt (addr_cmp sender e.0)) routes.now) }
{
    for route in routes {
        if sender.cmp(&route.0).is_lt() {
            kept.push((route.0, route.1.copy(alloc)?))?;
        }
    }
    Ok(())
}

/// The routes, and this one in place of any that was from its sender.
fn with_route(
    alloc: Global,
    routes: &[(Addr, SharedAttr)],
    sender: Addr,
    attr: &SharedAttr,
) -> Result<Vec<(Addr, SharedAttr)>, AllocError>
    requires { AreInOrder routes.now }
    ensures { IfOk result (λ more. more.items ≡ insert_entry addr_cmp routes.now sender attr.now) }
{
    let mut more = Vec::with_capacity(alloc, routes.len() + 1)?;
    add_before(alloc, &mut more, routes, sender)?;
    more.push((sender, attr.copy(alloc)?))?;
    add_after(alloc, &mut more, routes, sender)?;
    Ok(more)
}

/// The routes but for the sender's.
fn without_sender(
    alloc: Global,
    routes: &[(Addr, SharedAttr)],
    sender: Addr,
) -> Result<Vec<(Addr, SharedAttr)>, AllocError>
    requires { AreInOrder routes.now }
    ensures { IfOk result (λ less. less.items ≡ remove_entry (is_at (addr_cmp sender)) routes.now) }
{
    let mut less = Vec::new(alloc);
    add_before(alloc, &mut less, routes, sender)?;
    add_after(alloc, &mut less, routes, sender)?;
    Ok(less)
}

/// Up to so many routes a cell has just the room that they take: most cells have one to four.
const FEW: usize = 16;

/// Makes room for a route more. An error changes nothing.
fn make_room(routes: &mut Vec<(Addr, SharedAttr)>) -> Result<(), AllocError>
    ensures { routes.new.items ≡ routes.old.items }
{
    if routes.len() < FEW {
        routes.reserve_exact(1)
    } else {
        routes.reserve(1)
    }
}

/// Puts the route in place of any that was from its sender. An error changes nothing.
fn put_route(
    routes: &mut Vec<(Addr, SharedAttr)>,
    sender: Addr,
    attr: SharedAttr,
) -> Result<(), AllocError>
    requires { AreInOrder routes.old.items }
    ensures ok { OnOk result (routes.new.items ≡ insert_entry addr_cmp routes.old.items sender attr) }
    ensures err { OnErr result (routes.new.items ≡ routes.old.items) }
{
    match place(routes, sender) {
        Ok(at) => {
            routes[at] = (sender, attr);
            Ok(())
        }
        Err(at) => {
            make_room(routes)?;
            Ok(routes.insert(at, (sender, attr))?)
        }
    }
}

/// Takes out the sender's route, if there is one.
fn remove_route(routes: &mut Vec<(Addr, SharedAttr)>, sender: Addr)
    requires { AreInOrder routes.old.items }
    ensures { routes.new.items ≡ remove_entry (is_at (addr_cmp sender)) routes.old.items }
{
    if let Ok(at) = place(routes, sender) {
        routes.remove(at);
    }
}

/// Adds a copy of the route to those that are kept, of which there will be so many at most.
fn add_kept(
    alloc: Global,
    kept: &mut Vec<(Addr, SharedAttr)>,
    route: &(Addr, SharedAttr),
    most: usize,
) -> Result<(), AllocError>
    ensures { OnOk result (kept.new.items ≡ kept.old.items ++ (route.now ∷ [])) }
{
    if kept.is_empty() {
        kept.reserve_exact(most)?;
    }
    kept.push((route.0, route.1.copy(alloc)?))?;
    Ok(())
}

/// The routes that came over sessions that are up.
fn kept_routes(
    alloc: Global,
    site: &SiteConf,
    routes: &[(Addr, SharedAttr)],
) -> Result<Vec<(Addr, SharedAttr)>, AllocError>
    ensures { IfOk result (λ kept. kept.items ≡ kept_routes site.now routes.now) }
{
    let mut kept = Vec::new(alloc);
    for route in routes {
        if is_up_in(site, route.0) {
            add_kept(alloc, &mut kept, route, routes.len())?;
        }
    }
    Ok(kept)
}

/// The routes that came to the address over sessions that are up.
fn routes_over(
    alloc: Global,
    conf: &Conf,
    to: Addr,
    routes: &[(Addr, SharedAttr)],
) -> Result<Vec<(Addr, SharedAttr)>, AllocError>
    ensures { IfOk result (λ kept. kept.items ≡ filter (λ e. is_up conf.now e.0 to) routes.now) }
{
    let mut kept = Vec::new(alloc);
    for route in routes {
        if conf.is_up(route.0, to) {
            add_kept(alloc, &mut kept, route, routes.len())?;
        }
    }
    Ok(kept)
}

/// Copies of the routes, in order.
fn copy_routes(
    alloc: Global,
    routes: &[(Addr, SharedAttr)],
) -> Result<Vec<(Addr, SharedAttr)>, AllocError>
    ensures { IfOk result (λ copies. copies.items ≡ routes.now) }
{
    let mut copies = Vec::with_capacity(alloc, routes.len())?;
    for route in routes {
        copies.push((route.0, route.1.copy(alloc)?))?;
    }
    Ok(copies)
}

/// The route of this sender.
fn route_in(routes: &[(Addr, SharedAttr)], sender: Addr) -> Option<&SharedAttr>
    ensures { option_copied result ≡ route_of routes.now sender }
{
    for route in routes {
        if sender.cmp(&route.0).is_eq() {
            return Some(&route.1);
        }
    }
    None
}

/// Whether the sender comes after the one that is past, if one is.
fn is_past(past: Option<Addr>, sender: Addr) -> bool
    ensures { result ≡ is_past past sender }
{
    match past {
        None => true,
        Some(past) => past.cmp(&sender).is_lt(),
    }
}

/// The first sender past this one, or with none the first of all, and its route.
fn next_in(routes: &[(Addr, SharedAttr)], past: Option<Addr>) -> Option<(Addr, &SharedAttr)>
    ensures { seen result ≡ first_past routes.now past }
{
    for route in routes {
        if is_past(past, route.0) {
            return Some((route.0, &route.1));
        }
    }
    None
}
