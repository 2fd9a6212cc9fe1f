//! The sessions that are down after an edit, found beside those before it: only a session that can come up or go down
//! is asked.

ghost use Rattle.std.specs.Prelude.{◌≡◌, ◌||◌, true, false, not, None, IfOk, filter};
ghost use Rattle.std.specs.List.{list_any};
ghost use Rattle.std.specs.Map.{keys_of};
ghost use Rattle.std.specs.BTreeMap.{is_at};
ghost use Rattle.net_conf.specs.Configuration.{ends_of, ends_cmp, ends_session, has_link_up};
ghost use Rattle.net_conf.specs.Concerned.{is_among};
ghost use Rattle.net_conf.specs.Costs.{is_up, down_sessions};
ghost use Rattle.net_conf.specs.Edits.{refusal_of, edited};
ghost use Rattle.net_conf.specs.Kept.{CostsStayBut, NoneGoesDown, AreDown, IsLinked, AreLinked, IsJoined, link_in, session_in};

use crate::edit::Edit;
use crate::kept::conf_sessions::ConfSessions;
use crate::kept::conf_trees::ConfTrees;
use crate::tables::{ConfTables, Ends};
use igp_cost::{
    costs_are_least, costs_are_one, lone_node_moves_no_tree, more_edges_reach_more,
    tree_of_is_a_tree,
};
use net_prefix::Addr;
use shared_map::ChunkedSet;
use std::alloc::{AllocError, Global};
use std::collections::BTreeSet;

impl ConfSessions {
    /// The sessions that are down after an edit of the link of the two. Where the link is up then, no session goes down
    /// with it, so those are asked that are down; where it is not, none comes up, so those that are up.
    pub(crate) fn down_after_link(
        &self,
        alloc: Global,
        after: &ConfTrees,
        one: Addr,
        other: Addr,
        moved: &BTreeSet<Addr>,
    ) -> Result<ChunkedSet<Ends>, AllocError>
        requires linked { IsLinked self.now after.now one other }
        requires moved { CostsStayBut self.now after.now moved.now.keys }
        ensures { IfOk result (λ down. AreDown after.now down) }
    {
        self.trees.turn_with_link(after, one, other);
        after.facts();
        let link = Ends::of(one, other);
        if after.tables().has_link_up(one, other) {
            let were = self.down.keys(alloc)?;
            let down = self.trees.down_still(alloc, after, link, moved, &were)?;
            ChunkedSet::of(alloc, down)
        } else {
            let down = self.trees.down_then(alloc, after, link, moved, &self.down)?;
            ChunkedSet::of(alloc, down)
        }
    }

    /// The sessions that are down after an edit of no link: it can turn its own session alone.
    pub(crate) fn down_after_other(
        &self,
        alloc: Global,
        edit: &Edit,
        after: &ConfTrees,
    ) -> Result<ChunkedSet<Ends>, AllocError>
        requires passes { refusal_of self.now edit.now ≡ None }
        requires made { after.now ≡ edited self.now edit.now }
        requires link { link_in edit.now ≡ None }
        ensures { IfOk result (λ down. AreDown after.now down) }
    {
        match edit.session() {
            Some((one, other)) => self.down_with(alloc, after, one, other),
            None => {
                self.trees.no_session_turns(edit, after);
                self.down.share()
            }
        }
    }

    /// The sessions that are down after an edit of the session of the two.
    fn down_with(
        &self,
        alloc: Global,
        after: &ConfTrees,
        one: Addr,
        other: Addr,
    ) -> Result<ChunkedSet<Ends>, AllocError>
        requires { IsJoined self.now after.now one other }
        ensures { IfOk result (λ down. AreDown after.now down) }
    {
        self.trees.facts();
        after.facts();
        let ends = Ends::of(one, other);
        let mut down = self.down.share()?;
        if after.is_up(one, other) {
            down.remove(alloc, &ends)?;
            down.order();
            Ok(down)
        } else {
            down.insert(alloc, ends)?;
            down.order();
            Ok(down)
        }
    }
}

impl ConfTrees {
    /// A call gives the caller's proof what the link of the two tells of all sessions, where the configurations differ
    /// in it alone: unless it goes down, no session goes down; and unless it comes up, none comes up.
    pub(crate) fn turn_with_link(&self, after: &ConfTrees, one: Addr, other: Addr)
        requires { IsLinked self.now after.now one other }
        ensures down { (has_link_up self.now one other ≡ true → has_link_up after.now one other ≡ true) →
            NoneGoesDown self.now after.now }
        ensures up { (has_link_up after.now one other ≡ true → has_link_up self.now one other ≡ true) →
            NoneGoesDown after.now self.now }
    {
        more_edges_reach_more();
        costs_are_least();
        costs_are_one();
        tree_of_is_a_tree();
        self.tables.orders();
        after.tables.orders();
    }

    /// A call gives the caller's proof that an edit of neither a link nor a session takes no session down, and brings
    /// none up.
    fn no_session_turns(&self, edit: &Edit, after: &ConfTrees)
        requires passes { refusal_of self.now edit.now ≡ None }
        requires made { after.now ≡ edited self.now edit.now }
        requires link { link_in edit.now ≡ None }
        requires session { session_in edit.now ≡ None }
        ensures { down_sessions after.now ≡ down_sessions self.now }
    {
        lone_node_moves_no_tree();
        self.tables.orders();
    }

    /// Those of the sessions that are down which are so after an edit of the link.
    fn down_still(
        &self,
        alloc: Global,
        after: &ConfTrees,
        link: Ends,
        moved: &BTreeSet<Addr>,
        down: &[Ends],
    ) -> Result<Vec<Ends>, AllocError>
        requires linked { AreLinked self.now after.now link }
        requires moved { CostsStayBut self.now after.now moved.now.keys }
        requires down { AreDown self.now down.now }
        ensures { IfOk result (λ still. still.items ≡ filter (λ e. not (is_up after.now e.low e.high)) down.now) }
    {
        let mut still = Vec::new(alloc);
        for ends in down {
            if self.stays_down(after, link, moved, *ends) {
                still.push(*ends)?;
            }
        }
        Ok(still)
    }

    /// Whether a session that is down is so after an edit of the link.
    fn stays_down(&self, after: &ConfTrees, link: Ends, moved: &BTreeSet<Addr>, ends: Ends) -> bool
        requires linked { AreLinked self.now after.now link }
        requires moved { CostsStayBut self.now after.now moved.now.keys }
        requires low { ends_session self.now ends.low ≡ true }
        requires high { ends_session self.now ends.high ≡ true }
        requires down { is_up self.now ends.low ends.high ≡ false }
        ensures { result ≡ not (is_up after.now ends.low ends.high) }
    {
        !may_turn(moved, link, ends) || !after.is_up(ends.low, ends.high)
    }

    /// The sessions that are down after an edit that brings none up.
    fn down_then(
        &self,
        alloc: Global,
        after: &ConfTrees,
        link: Ends,
        moved: &BTreeSet<Addr>,
        down: &ChunkedSet<Ends>,
    ) -> Result<Vec<Ends>, AllocError>
        requires linked { AreLinked self.now after.now link }
        requires moved { CostsStayBut self.now after.now moved.now.keys }
        requires down { AreDown self.now down.now }
        requires none { NoneGoesDown after.now self.now }
        ensures { IfOk result (λ then. AreDown after.now then.items) }
    {
        let sessions = self.tables.session_list(alloc)?;
        let mut then = Vec::new(alloc);
        for ends in &sessions {
            if self.is_down_then(after, link, moved, down, *ends) {
                then.push(*ends)?;
            }
        }
        Ok(then)
    }

    /// Whether the session is down after such an edit.
    fn is_down_then(
        &self,
        after: &ConfTrees,
        link: Ends,
        moved: &BTreeSet<Addr>,
        down: &ChunkedSet<Ends>,
        ends: Ends,
    ) -> bool
        requires linked { AreLinked self.now after.now link }
        requires moved { CostsStayBut self.now after.now moved.now.keys }
        requires down { AreDown self.now down.now }
        requires none { NoneGoesDown after.now self.now }
        requires there { list_any (is_at (ends_cmp ends)) (keys_of self.now.sessions) ≡ true }
        requires low { ends_session self.now ends.low ≡ true }
        requires high { ends_session self.now ends.high ≡ true }
        ensures { result ≡ not (is_up after.now ends.low ends.high) }
    {
        down.contains(&ends) || self.goes_down(after, link, moved, ends)
    }

    /// Whether a session that is up goes down with the link.
    fn goes_down(&self, after: &ConfTrees, link: Ends, moved: &BTreeSet<Addr>, ends: Ends) -> bool
        requires linked { AreLinked self.now after.now link }
        requires moved { CostsStayBut self.now after.now moved.now.keys }
        requires low { ends_session self.now ends.low ≡ true }
        requires high { ends_session self.now ends.high ≡ true }
        requires up { is_up self.now ends.low ends.high ≡ true }
        ensures { result ≡ not (is_up after.now ends.low ends.high) }
    {
        may_turn(moved, link, ends) && !after.is_up(ends.low, ends.high)
    }
}

impl ConfTables {
    /// The ends of all sessions, in order.
    fn session_list(&self, alloc: Global) -> Result<Vec<Ends>, AllocError>
        ensures { IfOk result (λ v. v.items ≡ keys_of self.now.sessions) }
    {
        self.sessions.ends(alloc)
    }
}

/// Whether the session may come up or go down with the link: it is that link's, or the tree of an end of it has moved.
fn may_turn(moved: &BTreeSet<Addr>, link: Ends, session: Ends) -> bool
    ensures { result ≡ ((is_among session.low moved.now.keys || is_among session.high moved.now.keys) || is_at
        (ends_cmp (ends_of session.low session.high)) link) }
{
    let end_moved = moved.contains(&session.low) || moved.contains(&session.high);
    end_moved || Ends::of(session.low, session.high) == link
}
