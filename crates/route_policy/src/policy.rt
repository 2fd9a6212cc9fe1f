//! Policies.

ghost use Rattle.std.specs.Prelude.{◌≡◌, ◌↔◌, ◌≤◌, ◌∷◌, ◌++◌, [], false, length, find, option_map, IsTrue, IfSome, IfOk, OnOk, OnErr, IsErrOf};
ghost use Rattle.route_policy.specs.Judging.{matches, judged};
ghost use Rattle.route_policy.specs.Limits.{most_rules, is_full};
ghost use Rattle.route_policy.specs.PathSplit.{split_of, by_place, IsSplitOf};
ghost use Rattle.route_policy.specs.Sameness.{same_policy};
ghost use Rattle.route_policy.specs.declared.policy.AddFault.TheVariants.{Limit};

use crate::marked_route::MarkedRoute;
use crate::path_split::{PathSplit, SharedSplit};
use crate::rule::{Action, Rule};
use net_prefix::Prefix;
use path_attr::{Attr, ImportedAttr};
use seq::{Copied, SharedSeq};
use std::alloc::{AllocError, Global};
use std::error::Error;
use std::fmt;
use std::marker::Model;

/// The most rules that a policy takes.
pub const MAX_RULES: usize = 256;

/// From so many numbers of a path, and so many rules, on marks of the numbers are sooner there than looks at each.
const WORTH_MARKS: u64 = 16;

const WORTH_RULES: usize = 8;

/// Why a rule is not added. `Display` is written by hand, since its contract says the exact text (`fault_text`).
#[derive(Clone, Copy, Debug, PartialEq, Eq)]
pub enum AddFault {
    /// The policy has 256 rules.
    Limit,
    /// Memory was refused.
    Memory,
}

impl fmt::Display for AddFault {
    ghost use Rattle.std.specs.Prelude.{Some};
    ghost use Rattle.route_policy.specs.Faults.{fault_text};

    ghost output = { λ f. Some (fault_text f) };

    #[tactic(auto, unfolding(crate::specs::Faults::fault_text))]
    fn fmt<W: fmt::Write>(&self, f: &mut fmt::Formatter<W>) -> fmt::Result {
        match self {
            AddFault::Limit => write!(f, "the policy has 256 rules"),
            AddFault::Memory => write!(f, "out of memory"),
        }
    }
}

impl Error for AddFault {}

/// An ordered list of rules, at most 256. The first that matches a route decides what becomes of it. A copy shares the
/// rules; a change makes a list of its own.
#[derive(Debug, Drop)]
pub struct Policy {
    rules: SharedSeq<Rule>,
    split: SharedSplit,
    alloc: Global,
}

impl Model for Policy {
    ghost use Rattle.std.specs.Prelude.{List, ◌≤◌, length};
    ghost use Rattle.route_policy.specs.declared.rule.Rule.{Rule};
    ghost use Rattle.route_policy.specs.Limits.{most_rules};
    ghost use Rattle.route_policy.specs.PathSplit.{IsSplitOf};

    ghost Value = { List Rule };

    ghost view = { λ p. p.rules };

    ghost invariant = { λ p. (length p.rules ≤ most_rules) × IsSplitOf p.split p.rules };
}

impl Policy {
    /// The policy without rules: it permits each route as it is. It takes no memory.
    pub fn new(alloc: Global) -> Policy
        ensures { result ≡ [] }
    {
        Policy {
            rules: SharedSeq::empty(),
            split: SharedSplit::none(),
            alloc,
        }
    }

    /// The rules, in order.
    pub fn rules(&self) -> &[Rule]
        ensures value { result.now ≡ self.now }
        ensures limit { length self.now ≤ most_rules }
    {
        self.rules.as_slice()
    }

    /// How many rules there are.
    pub fn len(&self) -> usize
        ensures { result ≡ length self.now }
    {
        self.rules.len()
    }

    /// Whether there is no rule.
    pub fn is_empty(&self) -> bool
        ensures { IsTrue result ↔ (self.now ≡ []) }
    {
        self.rules.is_empty()
    }

    /// Whether it takes no more rules: it has 256.
    pub fn is_full(&self) -> bool
        ensures value { result ≡ is_full self.now }
        ensures meaning { IsTrue result ↔ (most_rules ≤ length self.now) }
    {
        self.len() >= MAX_RULES
    }

    /// Adds a rule at the end. A fault changes nothing: the limit where there are 256 rules, else want of memory.
    pub fn add(&mut self, rule: Rule) -> Result<(), AddFault>
        ensures ok { OnOk result (self.new ≡ self.old ++ rule ∷ []) }
        ensures err { OnErr result (self.new ≡ self.old) }
        ensures limit { IsErrOf result Limit ↔ (most_rules ≤ length self.old) }
    {
        if self.is_full() {
            return Err(AddFault::Limit);
        }
        match self.append(rule) {
            Ok(()) => Ok(()),
            Err(_) => Err(AddFault::Memory),
        }
    }

    /// Adds a rule at the end, where there is room for one. An error changes nothing.
    pub fn append(&mut self, rule: Rule) -> Result<(), AllocError>
        requires { is_full self.old ≡ false }
        ensures ok { OnOk result (self.new ≡ self.old ++ rule ∷ []) }
        ensures err { OnErr result (self.new ≡ self.old) }
    {
        let rules = longer(self.alloc, self.rules.as_slice(), rule)?;
        let split = self.split_with(rules.as_slice(), &rule)?;
        *self = Policy {
            rules,
            split,
            alloc: self.alloc,
        };
        Ok(())
    }

    /// The split of these rules, which are the policy's with this one at the end.
    #[tactic(auto, using(crate::proofs::PathSplits::split_longer))]
    fn split_with(&self, rules: &[Rule], rule: &Rule) -> Result<SharedSplit, AllocError>
        requires { rules.now ≡ self.now ++ rule.now ∷ [] }
        ensures { IfOk result (λ split. IsSplitOf split rules.now) }
    {
        match self.split.get() {
            Some(split) => SharedSplit::shared(self.alloc, split.with_rule(self.alloc, rule)?),
            None => SharedSplit::of(self.alloc, rules),
        }
    }

    /// Takes all rules away.
    pub fn clear(&mut self)
        ensures { self.new ≡ [] }
    {
        *self = Policy::new(self.alloc);
    }

    /// The split of its rules, where it keeps one.
    fn split(&self) -> Option<&PathSplit>
        ensures { IfSome result (λ split. split.now ≡ split_of self.now) }
    {
        self.split.get()
    }
}

/// The rules, with this one at the end.
fn longer(alloc: Global, rules: &[Rule], rule: Rule) -> Result<SharedSeq<Rule>, AllocError>
    ensures { IfOk result (λ longer. longer ≡ rules.now ++ rule ∷ []) }
{
    let mut longer = Vec::with_capacity(alloc, rules.len().saturating_add(1))?;
    longer.extend_from_slice(rules)?;
    // A slice of one, since the proof of a `push` of a rule is not generated.
    longer.extend_from_slice(&[rule])?;
    SharedSeq::of(alloc, longer)
}

/// What becomes of a route to the prefix with these attributes: the action of the first rule that matches it, and
/// a plain permit where none does.
#[tactic(auto, unfolding(crate::specs::Judging::judged))]
pub fn judge(policy: &Policy, prefix: Prefix, attr: &Attr) -> Action
    ensures { result ≡ judged policy.now prefix attr.now }
{
    first_action(policy, prefix, attr).unwrap_or(Action::PLAIN_PERMIT)
}

/// The same of a route after import. No rule asks for LOCAL_PREF.
#[tactic(auto, using(crate::proofs::AnyPreference::judged_at_any_preference))]
pub fn judge_imported(policy: &Policy, prefix: Prefix, attr: &ImportedAttr) -> Action
    ensures { result ≡ judged policy.now prefix attr.now }
{
    judge(policy, prefix, attr.shared().attr())
}

/// The action of the first rule that a route to the prefix with these attributes matches. Where many rules are by path,
/// the path is looked through once for all of them.
fn first_action(policy: &Policy, prefix: Prefix, attr: &Attr) -> Option<Action>
    ensures { result ≡ option_map (λ r. r.act) (find (λ r. matches r.cond prefix attr.now) policy.now) }
{
    let rules = policy.rules();
    if rules.len() < WORTH_RULES {
        return first_of(rules, prefix, attr);
    }
    match policy.split() {
        Some(split) => first_by_split(rules, split, prefix, attr),
        None => first_of_many(rules, prefix, attr),
    }
}

/// The same, by the split of the rules. Mostly no rule by path matches, and the others decide alone.
fn first_by_split(rules: &[Rule], split: &PathSplit, prefix: Prefix, attr: &Attr) -> Option<Action>
    requires { split.now ≡ split_of rules.now }
    ensures { result ≡ option_map (λ r. r.act) (find (λ r. matches r.cond prefix attr.now) rules.now) }
{
    let place = split.first_held(&attr.path);
    if place == split.number_count() {
        first_of(split.others(), prefix, attr)
    } else {
        first_by_place(rules, place, prefix, attr)
    }
}

/// The same, where so many rules by path come before the first of them that matches.
fn first_by_place(rules: &[Rule], place: usize, prefix: Prefix, attr: &Attr) -> Option<Action>
    ensures { result ≡ option_map (λ r. r.act) (by_place prefix attr.now place rules.now) }
{
    let mut left = place;
    for rule in rules {
        if rule.cond.path_number().is_some() {
            if left == 0 {
                return Some(rule.act);
            }
            left -= 1;
        } else if rule.cond.matches(prefix, attr) {
            return Some(rule.act);
        }
    }
    None
}

/// The same, of many rules. A long path is looked through once, and again only for a rule about an AS that it may hold.
fn first_of_many(rules: &[Rule], prefix: Prefix, attr: &Attr) -> Option<Action>
    ensures { result ≡ option_map (λ r. r.act) (find (λ r. matches r.cond prefix attr.now) rules.now) }
{
    if attr.path.number_count() < WORTH_MARKS {
        first_of(rules, prefix, attr)
    } else {
        first_of_marked(rules, prefix, attr)
    }
}

/// The same, by a look at the route for each rule.
fn first_of(rules: &[Rule], prefix: Prefix, attr: &Attr) -> Option<Action>
    ensures { result ≡ option_map (λ r. r.act) (find (λ r. matches r.cond prefix attr.now) rules.now) }
{
    rules
        .iter()
        .find(|r| r.cond.matches(prefix, attr))
        .map(|r| r.act)
}

/// The same, by marks of the numbers of the path.
fn first_of_marked(rules: &[Rule], prefix: Prefix, attr: &Attr) -> Option<Action>
    ensures { result ≡ option_map (λ r. r.act) (find (λ r. matches r.cond prefix attr.now) rules.now) }
{
    let route = MarkedRoute::of(attr);
    rules
        .iter()
        .find(|r| route.matches(r.cond, prefix))
        .map(|r| r.act)
}

impl Copied for Policy {
    fn copy(&self, _alloc: Global) -> Result<Policy, AllocError> {
        Ok(Policy {
            rules: self.rules.share()?,
            split: self.split.share()?,
            alloc: self.alloc,
        })
    }
}

impl Clone for Policy {
    ghost is_clone = { λ policy again. again ≡ policy };

    fn clone(&self) -> Result<Policy, AllocError> {
        Ok(Policy {
            rules: self.rules.share()?,
            split: self.split.share()?,
            alloc: self.alloc,
        })
    }
}

/// Whether both are the same rules in the same order.
fn are_same(rules: &[Rule], others: &[Rule]) -> bool
    ensures { result ≡ same_policy rules.now others.now }
{
    rules == others
}

impl PartialEq for Policy {
    ghost use Rattle.route_policy.specs.Sameness.{same_policy};
    ghost use Rattle.route_policy.specs.SameLaws.{policy_per};

    ghost eq = { same_policy };

    ghost laws = { policy_per };

    fn eq(&self, other: &Policy) -> bool {
        are_same(self.rules.as_slice(), other.rules.as_slice())
    }
}
