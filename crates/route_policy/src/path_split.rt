//! The rules of a policy in two: the AS numbers that its rules by path are about, and its other rules. One pass over a
//! path tells which of the numbers that it holds comes first: mostly none, and then the other rules decide alone.

ghost use Rattle.std.specs.Prelude.{◌≡◌, ◌++◌, ◌∷◌, [], false, length, nat_eq, IfOk};
ghost use Rattle.std.specs.List.{list_any, position};
ghost use Rattle.std.specs.Option.{option_copied};
ghost use Rattle.route_policy.specs.PathSplit.{path_numbers, other_rules, other_rule, split_of, split_with, first_with, first_among, first_held, IsSplitOf};

use crate::marks::Marks;
use crate::rule::Rule;
use path_attr::{AsPath, Asn};
use seq::{Seq, push_some};
use std::alloc::{AllocError, Global};
use std::marker::Model;
use std::sync::Arc;

/// From so many rules by path on a split is worth its memory.
const WORTH_SPLIT: usize = 8;

/// The rules of a policy in two, with marks of the numbers.
#[derive(Debug, Drop)]
pub(crate) struct PathSplit {
    numbers: Seq<Asn>,
    others: Seq<Rule>,
    marks: Marks,
}

impl Model for PathSplit {
    ghost use Rattle.route_policy.specs.Marks.{AreAllMarked};
    ghost use Rattle.route_policy.specs.PathSplit.{Split};

    ghost Value = { Split };

    ghost view = { λ s. record { numbers = s.numbers; others = s.others } };

    ghost invariant = { λ s. AreAllMarked s.numbers s.marks.words };
}

impl PathSplit {
    /// The rules that are not by path, in order.
    pub(crate) fn others(&self) -> &[Rule]
        ensures { result.now ≡ self.now.others }
    {
        self.others.as_slice()
    }

    /// That of the rules with one more at the end.
    pub(crate) fn with_rule(&self, alloc: Global, rule: &Rule) -> Result<PathSplit, AllocError>
        ensures { IfOk result (λ split. split ≡ split_with self.now rule.now) }
    {
        match rule.cond.path_number() {
            Some(asn) => self.with_number(alloc, asn),
            None => self.with_other(alloc, *rule),
        }
    }

    /// The same other rules, and one number more.
    fn with_number(&self, alloc: Global, asn: Asn) -> Result<PathSplit, AllocError>
        ensures { IfOk result (λ split.
            split ≡ record { numbers = self.now.numbers ++ asn ∷ []; others = self.now.others }) }
    {
        let others = Seq::copy_of(alloc, self.others.as_slice())?;
        let mut numbers = Vec::with_capacity(alloc, self.numbers.len().saturating_add(1))?;
        numbers.extend_from_slice(self.numbers.as_slice())?;
        numbers.push(asn)?;
        let mut marks = self.marks;
        marks.add(asn);
        Ok(PathSplit {
            numbers: Seq::of(numbers),
            others,
            marks,
        })
    }

    /// The same numbers, and one other rule more.
    fn with_other(&self, alloc: Global, rule: Rule) -> Result<PathSplit, AllocError>
        ensures { IfOk result (λ split.
            split ≡ record { numbers = self.now.numbers; others = self.now.others ++ rule ∷ [] }) }
    {
        let numbers = Seq::copy_of(alloc, self.numbers.as_slice())?;
        let mut others = Vec::from_slice(alloc, self.others.as_slice())?;
        // A slice of one, since the proof of a `push` of a rule is not generated.
        others.extend_from_slice(&[rule])?;
        Ok(PathSplit {
            numbers,
            others: Seq::of(others),
            marks: self.marks,
        })
    }

    /// How many numbers there are.
    pub(crate) fn number_count(&self) -> usize
        ensures { result ≡ length self.now.numbers }
    {
        self.numbers.len()
    }

    /// The first place of a number that stands in the path; how many numbers there are, where none does.
    pub(crate) fn first_held(&self, path: &AsPath) -> usize
        ensures { result ≡ first_held self.now.numbers path.now }
    {
        let mut first = self.numbers.len();
        for segment in path.segments() {
            first = self.first_among(first, segment.numbers());
        }
        first
    }

    /// The first of this place and the places of these numbers.
    fn first_among(&self, first: usize, numbers: &[Asn]) -> usize
        ensures { result ≡ first_among self.now.numbers first numbers.now }
    {
        let mut least = first;
        for number in numbers {
            least = self.first_with(least, *number);
        }
        least
    }

    /// The place of the number, where that comes before this place; else this place.
    #[tactic(auto, using(crate::proofs::PathSplits::first_without))]
    fn first_with(&self, first: usize, asn: Asn) -> usize
        ensures { result ≡ first_with self.now.numbers first asn }
    {
        if self.is_marked(asn) {
            first_before(self.numbers.as_slice(), first, asn)
        } else {
            first
        }
    }

    /// Whether the AS is marked, as each of the numbers is.
    fn is_marked(&self, asn: Asn) -> bool
        ensures { result ≡ false → list_any (nat_eq asn) self.now.numbers ≡ false }
    {
        self.marks.has(asn)
    }
}

/// The place of the number among these, where that comes before this place; else this place.
fn first_before(numbers: &[Asn], first: usize, asn: Asn) -> usize
    ensures { result ≡ first_with numbers.now first asn }
{
    place_in(&numbers[..first.min(numbers.len())], asn).unwrap_or(first)
}

/// The place of the number among these.
fn place_in(numbers: &[Asn], asn: Asn) -> Option<usize>
    ensures { result ≡ position (nat_eq asn) numbers.now }
{
    numbers.iter().position(|n| asn == *n)
}

/// The split with these numbers and other rules.
fn with_marks(numbers: Seq<Asn>, others: Seq<Rule>) -> PathSplit
    ensures { result ≡ record { numbers = numbers; others = others } }
{
    let mut marks = Marks::new();
    marks.add_all(numbers.as_slice());
    PathSplit {
        numbers,
        others,
        marks,
    }
}

/// The numbers that the rules by path are about, in order.
fn path_numbers(alloc: Global, rules: &[Rule]) -> Result<Vec<Asn>, AllocError>
    ensures { IfOk result (λ numbers. numbers.items ≡ path_numbers rules.now) }
{
    let mut numbers = Vec::with_capacity(alloc, rules.len())?;
    for rule in rules {
        push_some(&mut numbers, rule.cond.path_number())?;
    }
    Ok(numbers)
}

/// The rules that are not by path, in order.
fn other_rules(alloc: Global, rules: &[Rule]) -> Result<Vec<Rule>, AllocError>
    ensures { IfOk result (λ kept. kept.items ≡ other_rules rules.now) }
{
    let mut kept = Vec::new(alloc);
    for rule in rules {
        push_some(&mut kept, other_rule(*rule))?;
    }
    Ok(kept)
}

/// The rule, where it is not by path.
fn other_rule(rule: Rule) -> Option<Rule>
    ensures { result ≡ other_rule rule }
{
    match rule.cond.path_number() {
        Some(_) => None,
        None => Some(rule),
    }
}

/// A split of a policy's rules, which the policy's copies share, or none.
#[derive(Debug, Drop)]
pub(crate) struct SharedSplit {
    split: Option<Arc<PathSplit>>,
}

impl Model for SharedSplit {
    ghost use Rattle.std.specs.Prelude.{Option};
    ghost use Rattle.route_policy.specs.PathSplit.{Split, split_shown};

    ghost Value = { Option Split };

    ghost view = { λ s. split_shown s.split };
}

impl SharedSplit {
    /// None. It takes no memory.
    pub(crate) fn none() -> Self
        ensures { result ≡ None }
    {
        SharedSplit { split: None }
    }

    /// That of these rules, where enough of them are by path. Want of memory is the only fault.
    pub(crate) fn of(alloc: Global, rules: &[Rule]) -> Result<Self, AllocError>
        ensures { IfOk result (λ split. IsSplitOf split rules.now) }
    {
        if rules.len() < WORTH_SPLIT {
            return Ok(SharedSplit::none());
        }
        let numbers = path_numbers(alloc, rules)?;
        if numbers.len() < WORTH_SPLIT {
            return Ok(SharedSplit::none());
        }
        let others = other_rules(alloc, rules)?;
        SharedSplit::shared(alloc, with_marks(Seq::of(numbers), Seq::of(others)))
    }

    /// The split, from now on shared. Want of memory is the only fault.
    pub(crate) fn shared(alloc: Global, split: PathSplit) -> Result<Self, AllocError>
        ensures { IfOk result (λ shared. shared ≡ Some split) }
    {
        Ok(SharedSplit {
            split: Some(Arc::new(alloc, split)?),
        })
    }

    /// One owner more of the same. It takes no memory; the only fault is that 2^63 owners share it.
    pub(crate) fn share(&self) -> Result<Self, AllocError>
        ensures { IfOk result (λ other. other ≡ self.now) }
    {
        match &self.split {
            Some(split) => Ok(SharedSplit {
                split: Some(Arc::try_clone(split)?),
            }),
            None => Ok(SharedSplit::none()),
        }
    }

    /// The split, borrowed.
    pub(crate) fn get(&self) -> Option<&PathSplit>
        ensures { option_copied result ≡ self.now }
    {
        match &self.split {
            Some(split) => Some(split),
            None => None,
        }
    }
}
