//! When an edit is refused: one test for each refusal, and their order.

ghost use Rattle.std.specs.Prelude.{◌≡◌, MatchResult, length};
ghost use Rattle.net_conf.specs.Configuration.{rules_at};
ghost use Rattle.net_conf.specs.Edits.{lacks_either, lacks_node, repeats_node, has_one_end, has_bad_end, has_virtual_inside, is_inside, lacks_link, repeats_link, is_unlinked, lacks_session, repeats_session, needs_internal, sets_anything, sets_too_much, breaks_rule, repeats_origin, lacks_origin, rules_of, is_past_limit, refusal_of};

use crate::edit::Edit;
use crate::refusal::Refusal;
use crate::tables::conf_tables::ConfTables;
use crate::tables::{End, PolicySide};
use net_prefix::Addr;
use route_policy::{Action, Policy, Settings};
use shared_map::ChunkedMap;

impl ConfTables {
    /// Whether the edit may be made, which is past a limit or not: the first test that holds refuses it. It takes no
    /// memory.
    #[tactic(auto, unfolding(crate::specs::Edits::refusal_of))]
    pub(crate) fn check(&self, edit: &Edit, past_limit: bool) -> Result<(), Refusal>
        requires { past_limit ≡ is_past_limit self.now edit.now }
        ensures { MatchResult result (λ _. refusal_of self.now edit.now ≡ None) (λ r.
            refusal_of self.now edit.now ≡ Some r) }
    {
        if self.lacks_node(edit) {
            Err(Refusal::NoRouter)
        } else if self.repeats_node(edit) {
            Err(Refusal::RouterExists)
        } else if has_one_end(edit) {
            Err(Refusal::SameRouter)
        } else if self.has_bad_end(edit) {
            Err(Refusal::BadEnd)
        } else if self.is_inside(edit) {
            Err(Refusal::VirtualInside)
        } else if self.lacks_link(edit) {
            Err(Refusal::NoLink)
        } else if self.repeats_link(edit) {
            Err(Refusal::LinkExists)
        } else if self.is_unlinked(edit) {
            Err(Refusal::NotLinked)
        } else if self.lacks_session(edit) {
            Err(Refusal::NoSession)
        } else if self.repeats_session(edit) {
            Err(Refusal::SessionExists)
        } else if self.needs_internal(edit) {
            Err(Refusal::InternalOnly)
        } else if self.breaks_rule(edit) {
            Err(Refusal::RuleNotAllowed)
        } else if self.repeats_origin(edit) {
            Err(Refusal::OriginExists)
        } else if self.lacks_origin(edit) {
            Err(Refusal::NoOrigin)
        } else if past_limit {
            Err(Refusal::Limit)
        } else {
            Ok(())
        }
    }

    fn lacks_either(&self, one: Addr, other: Addr) -> bool
        ensures { result ≡ lacks_either self.now one other }
    {
        !self.has_node(one) || !self.has_node(other)
    }

    /// 2: a router or peer that the edit names is not there.
    fn lacks_node(&self, edit: &Edit) -> bool
        ensures { result ≡ lacks_node self.now edit.now }
    {
        match *edit {
            Edit::Router(_, _) | Edit::Virtual(_, _) => false,
            Edit::Link(one, other, _) | Edit::Metric(one, other, _) => self.lacks_either(
                one, other,
            ),
            Edit::Fail(one, other) | Edit::Mend(one, other) => self.lacks_either(one, other),
            Edit::Join(one, other) | Edit::Stop(one, other) | Edit::Start(one, other) => {
                self.lacks_either(one, other)
            }
            Edit::Client(router, peer, _) | Edit::OwnNext(router, peer, _) => {
                self.lacks_either(router, peer)
            }
            Edit::Rule(router, peer, _, _) => self.lacks_either(router, peer),
            Edit::Clear(router, peer, _) => self.lacks_either(router, peer),
            Edit::Cluster(router, _) | Edit::MedAlways(router, _) => !self.has_node(router),
            Edit::Origin(router, _) | Edit::NoOrigin(router, _) => !self.has_node(router),
        }
    }

    /// 3: the address that it adds is taken.
    fn repeats_node(&self, edit: &Edit) -> bool
        ensures { result ≡ repeats_node self.now edit.now }
    {
        match *edit {
            Edit::Router(addr, _) | Edit::Virtual(addr, _) => self.has_node(addr),
            _ => false,
        }
    }

    /// 5: both ends are virtual, or a virtual peer stands where a router is needed.
    fn has_bad_end(&self, edit: &Edit) -> bool
        ensures { result ≡ has_bad_end self.now edit.now }
    {
        match *edit {
            Edit::Link(one, other, _) => self.is_virtual(one) && self.is_virtual(other),
            Edit::Join(one, other) => self.is_virtual(one) && self.is_virtual(other),
            Edit::Client(router, _, _) | Edit::OwnNext(router, _, _) => self.is_virtual(router),
            Edit::Cluster(router, _) | Edit::MedAlways(router, _) => self.is_virtual(router),
            Edit::Rule(router, _, _, _) | Edit::Clear(router, _, _) => self.is_virtual(router),
            Edit::Origin(router, _) | Edit::NoOrigin(router, _) => self.is_virtual(router),
            _ => false,
        }
    }

    fn has_virtual_inside(&self, one: Addr, other: Addr) -> bool
        ensures { result ≡ has_virtual_inside self.now one other }
    {
        (self.is_virtual(one) || self.is_virtual(other)) && !self.is_external(one, other)
    }

    /// 6: a virtual peer would be linked or joined within its own AS.
    fn is_inside(&self, edit: &Edit) -> bool
        ensures { result ≡ is_inside self.now edit.now }
    {
        match *edit {
            Edit::Link(one, other, _) => self.has_virtual_inside(one, other),
            Edit::Join(one, other) => self.has_virtual_inside(one, other),
            _ => false,
        }
    }

    /// 7: the two have no link.
    fn lacks_link(&self, edit: &Edit) -> bool
        ensures { result ≡ lacks_link self.now edit.now }
    {
        match *edit {
            Edit::Metric(one, other, _) => !self.has_link(one, other),
            Edit::Fail(one, other) | Edit::Mend(one, other) => !self.has_link(one, other),
            _ => false,
        }
    }

    /// 8: the two have a link.
    fn repeats_link(&self, edit: &Edit) -> bool
        ensures { result ≡ repeats_link self.now edit.now }
    {
        match *edit {
            Edit::Link(one, other, _) => self.has_link(one, other),
            _ => false,
        }
    }

    /// 9: the two are in different ASes and have no link.
    fn is_unlinked(&self, edit: &Edit) -> bool
        ensures { result ≡ is_unlinked self.now edit.now }
    {
        match *edit {
            Edit::Join(one, other) => self.is_external(one, other) && !self.has_link(one, other),
            _ => false,
        }
    }

    /// 10: the two have no session.
    fn lacks_session(&self, edit: &Edit) -> bool
        ensures { result ≡ lacks_session self.now edit.now }
    {
        match *edit {
            Edit::Stop(one, other) | Edit::Start(one, other) => !self.has_session(one, other),
            Edit::Client(router, peer, _) | Edit::OwnNext(router, peer, _) => {
                !self.has_session(router, peer)
            }
            Edit::Rule(router, peer, _, _) => !self.has_session(router, peer),
            Edit::Clear(router, peer, _) => !self.has_session(router, peer),
            _ => false,
        }
    }

    /// 11: the two have a session.
    fn repeats_session(&self, edit: &Edit) -> bool
        ensures { result ≡ repeats_session self.now edit.now }
    {
        match *edit {
            Edit::Join(one, other) => self.has_session(one, other),
            _ => false,
        }
    }

    /// 12: a setting of internal sessions, on an external one.
    fn needs_internal(&self, edit: &Edit) -> bool
        ensures { result ≡ needs_internal self.now edit.now }
    {
        match *edit {
            Edit::Client(router, peer, _) | Edit::OwnNext(router, peer, _) => {
                self.is_external(router, peer)
            }
            _ => false,
        }
    }

    /// 13: the rule sets what it may not set there.
    fn breaks_rule(&self, edit: &Edit) -> bool
        ensures { result ≡ breaks_rule self.now edit.now }
    {
        match *edit {
            Edit::Rule(router, peer, side, rule) => {
                sets_too_much(self.is_external(router, peer), side, rule.act)
            }
            _ => false,
        }
    }

    /// 14: the router originates the prefix.
    fn repeats_origin(&self, edit: &Edit) -> bool
        ensures { result ≡ repeats_origin self.now edit.now }
    {
        match *edit {
            Edit::Origin(router, prefix) => self.originates(router, prefix),
            _ => false,
        }
    }

    /// 15: the router does not originate the prefix.
    fn lacks_origin(&self, edit: &Edit) -> bool
        ensures { result ≡ lacks_origin self.now edit.now }
    {
        match *edit {
            Edit::NoOrigin(router, prefix) => !self.originates(router, prefix),
            _ => false,
        }
    }

    /// How many rules the router has for what comes from the peer, or goes to it.
    pub(crate) fn rule_count(&self, router: Addr, peer: Addr, side: PolicySide) -> usize
        ensures { result ≡ length (rules_of self.now router peer side) }
    {
        match side {
            PolicySide::Import => count_at(&self.imports, End { router, peer }),
            PolicySide::Export => count_at(&self.exports, End { router, peer }),
        }
    }
}

/// 4: both ends are one.
fn has_one_end(edit: &Edit) -> bool
    ensures { result ≡ has_one_end edit.now }
{
    match *edit {
        Edit::Link(one, other, _) | Edit::Join(one, other) => one == other,
        _ => false,
    }
}

/// Whether a rule may not do this there.
fn sets_too_much(external: bool, side: PolicySide, action: Action) -> bool
    ensures { result ≡ sets_too_much external side action }
{
    match action {
        Action::Deny => false,
        Action::Permit(settings) => {
            if !external {
                sets_anything(settings)
            } else {
                match side {
                    PolicySide::Import => settings.prepend.is_some(),
                    PolicySide::Export => settings.pref.is_some(),
                }
            }
        }
    }
}

/// Whether a setting is given.
fn sets_anything(settings: Settings) -> bool
    ensures { result ≡ sets_anything settings }
{
    settings.pref.is_some()
        || settings.med.is_some()
        || settings.prepend.is_some()
        || settings.add.is_some()
}

/// How many rules the policy of the end has.
fn count_at(policies: &ChunkedMap<End, Policy>, end: End) -> usize
    ensures { result ≡ length (rules_at policies.now end) }
{
    match policies.get(&end) {
        None => 0,
        Some(policy) => policy.len(),
    }
}
