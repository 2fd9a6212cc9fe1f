//! What an edit changes.

ghost use Rattle.std.specs.Prelude.{◌≡◌, ◌∷◌, ◌++◌, [], true, false, not, IfOk, OnOk, OnErr};
ghost use Rattle.std.specs.BTreeMap.{insert_entry};
ghost use Rattle.std.specs.BTreeSet.{insert_key};
ghost use Rattle.net_prefix.specs.Address.{addr_cmp};
ghost use Rattle.route_policy.specs.Limits.{is_full};
ghost use Rattle.net_conf.specs.Configuration.{end_cmp, origination_cmp, link_between, rules_at};
ghost use Rattle.net_conf.specs.Edits.{with_link, with_link_changed, with_metric, with_state, with_session, switched, router_switched, with_rule, without_rules, with_rule_of, without_rules_of, rules_of, is_past_limit, edited};
ghost use Rattle.net_conf.specs.Kept.{has_end, has_setting};

use crate::edit::Edit;
use crate::tables::conf_tables::{ConfTables, policy_at};
use crate::tables::{End, Ends, Kind, Link, Node, Origination, PolicySide};
use igp_cost::Metric;
use net_prefix::Addr;
use path_attr::Asn;
use route_policy::{Policy, Rule};
use shared_map::{ChunkedMap, ChunkedSet};
use std::alloc::{AllocError, Global};

impl ConfTables {
    /// Whether the edit asks for what is so already: it changes nothing then. It takes no memory.
    pub fn has_setting(&self, edit: &Edit) -> bool
        ensures is { result ≡ has_setting self.now edit.now }
        ensures same { result ≡ true → edited self.now edit.now ≡ self.now }
    {
        self.orders();
        self.is_so(edit)
    }

    /// The same: a state of a link or a session, or a setting of a router.
    fn is_so(&self, edit: &Edit) -> bool
        ensures { result ≡ has_setting self.now edit.now }
    {
        match *edit {
            Edit::Fail(one, other) => !self.has_link_up(one, other),
            Edit::Mend(one, other) => self.has_link_up(one, other),
            Edit::Stop(one, other) => !self.session(one, other).unwrap_or(true),
            Edit::Start(one, other) => self.session(one, other).unwrap_or(false),
            Edit::Client(router, peer, on) => self.is_client(router, peer) == on,
            Edit::OwnNext(router, peer, on) => self.puts_itself(router, peer) == on,
            Edit::MedAlways(router, on) => self.compares_all_meds(router) == on,
            _ => false,
        }
    }

    /// Makes the edit, which is past no limit, whether or not it is to be refused for another reason. An error changes
    /// nothing.
    pub fn apply(&mut self, alloc: Global, edit: &Edit) -> Result<(), AllocError>
        requires { is_past_limit self.old edit.now ≡ false }
        ensures ok { OnOk result (self.new ≡ edited self.old edit.now) }
        ensures err { OnErr result (self.new ≡ self.old) }
    {
        match *edit {
            Edit::Router(addr, asn) => self.add_node(alloc, addr, asn, Kind::Router),
            Edit::Virtual(addr, asn) => self.add_node(alloc, addr, asn, Kind::Virtual),
            Edit::Link(one, other, metric) => {
                self.set_link(alloc, one, other, Link { metric, up: true })
            }
            Edit::Metric(one, other, metric) => self.set_metric(alloc, one, other, metric),
            Edit::Fail(one, other) => self.set_state(alloc, one, other, false),
            Edit::Mend(one, other) => self.set_state(alloc, one, other, true),
            Edit::Join(one, other) | Edit::Start(one, other) => self.set_session(
                alloc, one, other, true,
            ),
            Edit::Stop(one, other) => self.set_session(alloc, one, other, false),
            Edit::Client(router, peer, on) => switch(
                alloc,
                &mut self.clients,
                End { router, peer },
                on,
            ),
            Edit::OwnNext(router, peer, on) => switch(
                alloc,
                &mut self.own_next,
                End { router, peer },
                on,
            ),
            Edit::Cluster(router, id) => self.set_cluster(alloc, router, id),
            Edit::MedAlways(router, on) => self.set_comparison(alloc, router, on),
            Edit::Rule(router, peer, side, rule) => {
                self.add_rule(alloc, End { router, peer }, side, rule)
            }
            Edit::Clear(router, peer, side) => self.clear_rules(alloc, End { router, peer }, side),
            Edit::Origin(router, prefix) => {
                self.origins.insert(alloc, Origination { router, prefix })
            }
            Edit::NoOrigin(router, prefix) => {
                self.origins.remove(alloc, Origination { router, prefix })
            }
        }
    }

    fn add_node(
        &mut self,
        alloc: Global,
        addr: Addr,
        asn: Asn,
        kind: Kind,
    ) -> Result<(), AllocError>
        ensures ok { OnOk result
            (self.new ≡ record self.old {
              nodes = insert_entry addr_cmp self.old.nodes addr
                  (record { asn = asn; kind = kind });
            }) }
        ensures err { OnErr result (self.new ≡ self.old) }
    {
        self.nodes.insert(alloc, addr, Node { asn, kind })
    }

    fn set_link(
        &mut self,
        alloc: Global,
        one: Addr,
        other: Addr,
        link: Link,
    ) -> Result<(), AllocError>
        ensures ok { OnOk result (self.new ≡ with_link self.old one other link) }
        ensures err { OnErr result (self.new ≡ self.old) }
    {
        self.links.insert(alloc, Ends::of(one, other), link)
    }

    fn set_metric(
        &mut self,
        alloc: Global,
        one: Addr,
        other: Addr,
        metric: Metric,
    ) -> Result<(), AllocError>
        ensures ok { OnOk result
            (self.new ≡ with_link_changed self.old one other (with_metric metric) (link_between self.old one other)) }
        ensures err { OnErr result (self.new ≡ self.old) }
    {
        match self.link(one, other) {
            None => Ok(()),
            Some(link) => self.set_link(alloc, one, other, Link { metric, ..link }),
        }
    }

    fn set_state(
        &mut self,
        alloc: Global,
        one: Addr,
        other: Addr,
        up: bool,
    ) -> Result<(), AllocError>
        ensures ok { OnOk result
            (self.new ≡ with_link_changed self.old one other (with_state up) (link_between self.old one other)) }
        ensures err { OnErr result (self.new ≡ self.old) }
    {
        match self.link(one, other) {
            None => Ok(()),
            Some(link) => self.set_link(alloc, one, other, Link { up, ..link }),
        }
    }

    fn set_session(
        &mut self,
        alloc: Global,
        one: Addr,
        other: Addr,
        enabled: bool,
    ) -> Result<(), AllocError>
        ensures ok { OnOk result (self.new ≡ with_session self.old one other enabled) }
        ensures err { OnErr result (self.new ≡ self.old) }
    {
        self.sessions.insert(alloc, Ends::of(one, other), enabled)
    }

    fn set_cluster(&mut self, alloc: Global, router: Addr, id: Addr) -> Result<(), AllocError>
        ensures ok { OnOk result
            (self.new ≡ record self.old { clusters = insert_entry addr_cmp self.old.clusters router id }) }
        ensures err { OnErr result (self.new ≡ self.old) }
    {
        self.clusters.insert(alloc, router, id)
    }

    fn set_comparison(
        &mut self,
        alloc: Global,
        router: Addr,
        always: bool,
    ) -> Result<(), AllocError>
        ensures ok { OnOk result
            (self.new ≡ record self.old { med_always = router_switched always router self.old.med_always }) }
        ensures err { OnErr result (self.new ≡ self.old) }
    {
        if always {
            self.med_always.insert(alloc, router)
        } else {
            self.med_always.remove(alloc, &router)
        }
    }

    fn add_rule(
        &mut self,
        alloc: Global,
        end: End,
        side: PolicySide,
        rule: Rule,
    ) -> Result<(), AllocError>
        requires { is_full (rules_of self.old end.router end.peer side) ≡ false }
        ensures ok { OnOk result (self.new ≡ with_rule_of self.old end.router end.peer side rule) }
        ensures err { OnErr result (self.new ≡ self.old) }
    {
        match side {
            PolicySide::Import => append(alloc, &mut self.imports, end, rule),
            PolicySide::Export => append(alloc, &mut self.exports, end, rule),
        }
    }

    fn clear_rules(&mut self, alloc: Global, end: End, side: PolicySide) -> Result<(), AllocError>
        ensures ok { OnOk result (self.new ≡ without_rules_of self.old end.router end.peer side) }
        ensures err { OnErr result (self.new ≡ self.old) }
    {
        match side {
            PolicySide::Import => self.imports.take_out(alloc, &end),
            PolicySide::Export => self.exports.take_out(alloc, &end),
        }
    }
}

/// Adds the end to the set, or takes it out; where that is so already, it takes no memory. An error changes nothing.
fn switch(alloc: Global, ends: &mut ChunkedSet<End>, end: End, on: bool) -> Result<(), AllocError>
    ensures ok { OnOk result (ends.new ≡ switched on end ends.old) }
    ensures change { OnErr result (has_end end ends.old ≡ not on) }
    ensures err { OnErr result (ends.new ≡ ends.old) }
{
    if on {
        ends.insert(alloc, end)
    } else {
        ends.remove(alloc, &end)
    }
}

/// Adds a rule to the policy of the end, which has room for it. An error changes nothing.
fn append(
    alloc: Global,
    policies: &mut ChunkedMap<End, Policy>,
    end: End,
    rule: Rule,
) -> Result<(), AllocError>
    requires { is_full (rules_at policies.old end) ≡ false }
    ensures ok { OnOk result (policies.new ≡ with_rule end rule policies.old) }
    ensures err { OnErr result (policies.new ≡ policies.old) }
{
    let policy = longer(alloc, policies, end, rule)?;
    policies.put(alloc, end, policy)
}

/// The policy of the end, with a rule at its end.
fn longer(
    alloc: Global,
    policies: &ChunkedMap<End, Policy>,
    end: End,
    rule: Rule,
) -> Result<Policy, AllocError>
    requires { is_full (rules_at policies.now end) ≡ false }
    ensures { IfOk result (λ p. p ≡ rules_at policies.now end ++ rule ∷ []) }
{
    let mut policy = policy_at(alloc, policies, end)?;
    policy.append(rule)?;
    Ok(policy)
}
