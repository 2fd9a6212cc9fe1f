//! Whom an edit concerns.

ghost use Rattle.std.specs.Prelude.{◌≡◌, true, false, None, Some, List, IfOk, OnOk, option_map};
ghost use Rattle.std.specs.List.{list_any};
ghost use Rattle.std.specs.BTreeMap.{is_at};
ghost use Rattle.net_prefix.specs.declared.addr.Addr.{Addr};
ghost use Rattle.net_prefix.specs.Address.{addr_cmp};
ghost use Rattle.net_conf.specs.declared.tables.Ends.{Ends};
ghost use Rattle.net_conf.specs.Configuration.{ends_cmp, is_end};
ghost use Rattle.net_conf.specs.Concerned.{is_among, ConcernsAlone};
ghost use Rattle.net_conf.specs.Edits.{refusal_of, edited};
ghost use Rattle.net_conf.specs.Kept.{CostsStayBut, EndsStayBut, SessionsStayBut, IsTurned, IsLinked, link_in, node_in, session_in};
ghost use Rattle.net_conf.specs.Scopes.{scope, router_in};

use crate::edit::Edit;
use crate::kept::conf_sessions::ConfSessions;
use crate::kept::conf_trees::ConfTrees;
use crate::kept::edited::MadeTrees;
use crate::tables::Ends;
use igp_cost::lone_node_moves_no_tree;
use net_prefix::Addr;
use shared_map::ChunkedSet;
use std::alloc::{AllocError, Global};
use std::collections::BTreeSet;
use std::thread::Threads;

/// The tables, the trees and the sessions that are down, as an edit makes them, and whom it concerns.
#[derive(Drop)]
pub(crate) struct MadeSessions {
    pub(crate) conf: ConfSessions,
    pub(crate) concerned: BTreeSet<Addr>,
    /// Those of them who have a session that may have come up or gone down.
    pub(crate) turned: BTreeSet<Addr>,
}

/// The sessions that are down after an edit, and whom it concerns besides those whose trees have moved.
#[derive(Drop)]
struct Turned {
    down: ChunkedSet<Ends>,
    turned: BTreeSet<Addr>,
}

impl ConfSessions {
    /// What is configured after an edit that is not refused, and whom the edit concerns.
    pub(crate) fn made<R: Threads + Sync>(
        &self,
        rt: &R,
        alloc: Global,
        edit: &Edit,
    ) -> Result<MadeSessions, AllocError>
        requires { refusal_of self.now edit.now ≡ None }
        ensures conf { IfOk result (λ made. made.conf ≡ edited self.now edit.now) }
        ensures alone { IfOk result (λ made. ConcernsAlone self.now made.conf made.concerned.keys) }
        ensures ends { IfOk result (λ made. EndsStayBut self.now made.conf made.concerned.keys) }
        ensures sessions { IfOk result (λ made. SessionsStayBut self.now made.conf made.turned.keys) }
    {
        let MadeTrees { conf: trees, moved } = self.trees.made(rt, alloc, edit)?;
        let Ok(Turned { down, turned }) = self.turned(alloc, edit, &trees, &moved) else {
            drop((trees, moved));
            return Err(AllocError);
        };
        let conf = ConfSessions { trees, down };
        let Ok(concerned) = with_all(alloc, moved, &turned) else {
            drop((conf, turned));
            return Err(AllocError);
        };
        Ok(MadeSessions {
            conf,
            concerned,
            turned,
        })
    }

    /// The sessions that are down after the edit, and whom it concerns besides those whose trees have moved.
    fn turned(
        &self,
        alloc: Global,
        edit: &Edit,
        after: &ConfTrees,
        moved: &BTreeSet<Addr>,
    ) -> Result<Turned, AllocError>
        requires passes { refusal_of self.now edit.now ≡ None }
        requires made { after.now ≡ edited self.now edit.now }
        requires moved { CostsStayBut self.now after.now moved.now.keys }
        ensures { IfOk result (λ turned. IsTurned self.now after.now moved.now.keys turned.down turned.turned.keys) }
    {
        match edit.link() {
            Some((one, other)) => self.turned_by_link(alloc, after, one, other, moved),
            None => self.turned_by_other(alloc, edit, after, moved),
        }
    }

    /// The same, of an edit of the link of the two: where it stays up or down, so do all sessions.
    fn turned_by_link(
        &self,
        alloc: Global,
        after: &ConfTrees,
        one: Addr,
        other: Addr,
        moved: &BTreeSet<Addr>,
    ) -> Result<Turned, AllocError>
        requires linked { IsLinked self.now after.now one other }
        requires moved { CostsStayBut self.now after.now moved.now.keys }
        ensures { IfOk result (λ turned. IsTurned self.now after.now moved.now.keys turned.down turned.turned.keys) }
    {
        let was_up = self.trees.tables().has_link_up(one, other);
        if after.tables().has_link_up(one, other) == was_up {
            self.trees.turn_with_link(after, one, other);
            let down = self.down.share()?;
            let turned = BTreeSet::new(alloc);
            return Ok(Turned { down, turned });
        }
        let down = self.down_after_link(alloc, after, one, other, moved)?;
        let turned = ends_that_differ(alloc, &self.down, &down)?;
        Ok(Turned { down, turned })
    }

    /// The same, of an edit of no link: it names whom it concerns.
    fn turned_by_other(
        &self,
        alloc: Global,
        edit: &Edit,
        after: &ConfTrees,
        moved: &BTreeSet<Addr>,
    ) -> Result<Turned, AllocError>
        requires passes { refusal_of self.now edit.now ≡ None }
        requires made { after.now ≡ edited self.now edit.now }
        requires link { link_in edit.now ≡ None }
        ensures { IfOk result (λ turned. IsTurned self.now after.now moved.now.keys turned.down turned.turned.keys) }
    {
        let down = self.down_after_other(alloc, edit, after)?;
        let turned = self.trees.concerned_by_name(alloc, edit, after)?;
        Ok(Turned { down, turned })
    }
}

impl ConfTrees {
    /// Whom an edit of no link that makes the other configuration of this one concerns.
    fn concerned_by_name(
        &self,
        alloc: Global,
        edit: &Edit,
        after: &ConfTrees,
    ) -> Result<BTreeSet<Addr>, AllocError>
        requires passes { refusal_of self.now edit.now ≡ None }
        requires made { after.now ≡ edited self.now edit.now }
        requires link { link_in edit.now ≡ None }
        ensures alone { IfOk result (λ concerned. ConcernsAlone self.now after.now concerned.keys) }
        ensures ends { IfOk result (λ concerned. EndsStayBut self.now after.now concerned.keys) }
    {
        lone_node_moves_no_tree();
        self.tables.orders();
        let named = named(alloc, edit)?;
        Ok(named)
    }
}

/// The ends of the sessions that are in one of the sets and not in the other.
fn ends_that_differ(
    alloc: Global,
    some: &ChunkedSet<Ends>,
    others: &ChunkedSet<Ends>,
) -> Result<BTreeSet<Addr>, AllocError>
    ensures { IfOk result (λ ends. (r : Addr) (e : Ends) → is_among r ends.keys ≡ false → is_end r e ≡ true →
        list_any (is_at (ends_cmp e)) others.now ≡ list_any (is_at (ends_cmp e)) some.now) }
{
    let these = some.keys(alloc)?;
    let first = with_ends_unless(BTreeSet::new(alloc), &these, others)?;
    let those = others.keys(alloc)?;
    let both = with_ends_unless(first, &those, some)?;
    Ok(both)
}

/// The addresses, with the ends of each of the sessions that is not in the set.
fn with_ends_unless(
    addrs: BTreeSet<Addr>,
    sessions: &[Ends],
    known: &ChunkedSet<Ends>,
) -> Result<BTreeSet<Addr>, AllocError>
    ensures known { IfOk result (λ more. (r : Addr) → is_among r more.keys ≡ false → is_among r addrs.keys ≡ false) }
    ensures added { IfOk result (λ more. (r : Addr) (e : Ends) → is_among r more.keys ≡ false → is_end r e ≡ true →
        list_any (is_at (ends_cmp e)) sessions.now ≡ true → list_any (is_at (ends_cmp e)) known.now ≡ true) }
{
    let mut more = addrs;
    for ends in sessions {
        add_ends_unless(&mut more, known, *ends)?;
    }
    Ok(more)
}

/// Adds the ends of the session, unless it is in the set.
fn add_ends_unless(
    addrs: &mut BTreeSet<Addr>,
    known: &ChunkedSet<Ends>,
    ends: Ends,
) -> Result<(), AllocError>
    ensures known { OnOk result ((r : Addr) → is_among r addrs.new.keys ≡ false → is_among r addrs.old.keys ≡ false) }
    ensures added { OnOk result ((r : Addr) → is_among r addrs.new.keys ≡ false → is_end r ends ≡ true →
        list_any (is_at (ends_cmp ends)) known.now ≡ true) }
{
    if known.contains(&ends) {
        return Ok(());
    }
    addrs.insert(ends.low)?;
    addrs.insert(ends.high)?;
    Ok(())
}

/// These addresses, and those.
fn with_all(
    alloc: Global,
    these: BTreeSet<Addr>,
    those: &BTreeSet<Addr>,
) -> Result<BTreeSet<Addr>, AllocError>
    ensures these { IfOk result (λ all. (r : Addr) → is_among r all.keys ≡ false → is_among r these.keys ≡ false) }
    ensures those { IfOk result (λ all. (r : Addr) → is_among r all.keys ≡ false → is_among r those.now.keys ≡ false) }
{
    let more = listed(alloc, those)?;
    let all = with_each(these, &more)?;
    Ok(all)
}

/// The addresses, with each of these.
fn with_each(addrs: BTreeSet<Addr>, more: &[Addr]) -> Result<BTreeSet<Addr>, AllocError>
    ensures known { IfOk result (λ all. (r : Addr) → is_among r all.keys ≡ false → is_among r addrs.keys ≡ false) }
    ensures added { IfOk result (λ all. (r : Addr) → is_among r all.keys ≡ false → is_among r more.now ≡ false) }
{
    let mut all = addrs;
    for addr in more {
        all.insert(*addr)?;
    }
    Ok(all)
}

/// The addresses, in order.
pub(crate) fn listed(alloc: Global, addrs: &BTreeSet<Addr>) -> Result<Vec<Addr>, AllocError>
    ensures { IfOk result (λ v. v.items ≡ addrs.now.keys) }
{
    addrs.iter().map(|addr| *addr).collect(alloc)
}

/// Those whom an edit of no link names: the router whose settings it changes, the address that it adds, or the ends of
/// its session.
fn named(alloc: Global, edit: &Edit) -> Result<BTreeSet<Addr>, AllocError>
    ensures router { IfOk result (λ named. (r a : Addr) → is_among r named.keys ≡ false →
        router_in (scope edit.now) ≡ Some a → is_at (addr_cmp r) a ≡ false) }
    ensures node { IfOk result (λ named. (r a : Addr) → is_among r named.keys ≡ false → node_in edit.now ≡ Some a →
        is_at (addr_cmp r) a ≡ false) }
    ensures session { IfOk result (λ named. (r a b : Addr) → is_among r named.keys ≡ false →
        session_in edit.now ≡ Some (a, b) → (is_at (addr_cmp r) a ≡ false) × (is_at (addr_cmp r) b ≡ false)) }
{
    let router = with_addr(BTreeSet::new(alloc), edit.scope().router())?;
    let node = with_addr(router, edit.node())?;
    let (one, other) = split_ends(edit.session());
    let first = with_addr(node, one)?;
    let both = with_addr(first, other)?;
    Ok(both)
}

/// The two, where there are two.
fn split_ends(ends: Option<(Addr, Addr)>) -> (Option<Addr>, Option<Addr>)
    ensures one { result.0 ≡ option_map (λ e. e.0) ends }
    ensures other { result.1 ≡ option_map (λ e. e.1) ends }
{
    match ends {
        None => (None, None),
        Some((one, other)) => (Some(one), Some(other)),
    }
}

/// The addresses, with this one if there is one.
fn with_addr(addrs: BTreeSet<Addr>, addr: Option<Addr>) -> Result<BTreeSet<Addr>, AllocError>
    ensures known { IfOk result (λ more. (r : Addr) → is_among r more.keys ≡ false → is_among r addrs.keys ≡ false) }
    ensures added { IfOk result (λ more. (r a : Addr) → is_among r more.keys ≡ false → addr ≡ Some a →
        is_at (addr_cmp r) a ≡ false) }
{
    match addr {
        None => Ok(addrs),
        Some(addr) => {
            let mut more = addrs;
            more.insert(addr)?;
            Ok(more)
        }
    }
}
