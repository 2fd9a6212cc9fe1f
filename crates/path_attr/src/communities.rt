//! The communities of a route (RFC 1997).

ghost use Rattle.std.specs.Prelude.{◌≡◌, ◌↔◌, [], false, IsTrue, IfOk};
ghost use Rattle.std.specs.Option.{SomeIff};
ghost use Rattle.path_attr.specs.Path.{IsAscending};
ghost use Rattle.path_attr.specs.Communities.{carries, with_community, with_given};

use seq::{Copied, SharedSeq};
use std::alloc::{AllocError, Global};
use std::marker::Model;

/// NO_EXPORT: the route stays within its AS (RFC 1997).
pub const NO_EXPORT: u32 = 0xFFFF_FF01;

/// NO_ADVERTISE: the route stays at its router (RFC 1997).
pub const NO_ADVERTISE: u32 = 0xFFFF_FF02;

/// NO_EXPORT_SUBCONFED: the route goes to no external peer (RFC 1997).
pub const NO_EXPORT_SUBCONFED: u32 = 0xFFFF_FF03;

/// The communities that a route carries, each once, in ascending order. Copies share them.
#[derive(Debug, Drop)]
pub struct Communities {
    numbers: SharedSeq<u32>,
}

impl Model for Communities {
    ghost use Rattle.std.specs.Prelude.{ℕ, List};
    ghost use Rattle.path_attr.specs.Path.{IsAscending};

    ghost Value = { List ℕ };

    ghost view = { λ c. c.numbers };

    ghost invariant = { λ c. IsAscending c.numbers };
}

impl Communities {
    /// The communities of these numbers. None where they are not strictly ascending.
    pub fn new(numbers: SharedSeq<u32>) -> Option<Communities>
        ensures { SomeIff result (IsAscending numbers) numbers }
    {
        if are_ascending(numbers.as_slice()) {
            Some(Communities { numbers })
        } else {
            None
        }
    }

    /// No communities. It takes no memory.
    pub fn none() -> Communities
        ensures { result ≡ [] }
    {
        Communities {
            numbers: SharedSeq::empty(),
        }
    }

    /// The numbers, in ascending order.
    pub fn numbers(&self) -> &[u32]
        ensures value { result.now ≡ self.now }
        ensures ascending { IsAscending self.now }
    {
        self.numbers.as_slice()
    }

    /// Whether this community is among them.
    pub fn carries(&self, number: u32) -> bool
        ensures { result ≡ carries number self.now }
    {
        is_among(number, self.numbers())
    }

    /// One owner more of the same communities. It takes no memory; the only fault is that 2^63 owners share them.
    pub fn share(&self) -> Result<Communities, AllocError>
        ensures { IfOk result (λ other. other ≡ self.now) }
    {
        Ok(Communities {
            numbers: self.numbers.share()?,
        })
    }

    /// The communities with one more. One that is there is not put in again, and takes no memory.
    #[tactic(auto, using(crate::proofs::Inserting::with_present))]
    pub fn with(&self, alloc: Global, number: u32) -> Result<Communities, AllocError>
        ensures { IfOk result (λ more. more ≡ with_community number self.now) }
    {
        let numbers = self.numbers();
        if is_among(number, numbers) {
            return self.share();
        }
        let more = inserted(alloc, numbers, number)?;
        Ok(Communities {
            numbers: SharedSeq::of(alloc, more)?,
        })
    }

    /// The communities with the one that is given, if one is.
    pub fn with_given(&self, alloc: Global, number: Option<u32>) -> Result<Communities, AllocError>
        ensures { IfOk result (λ more. more ≡ with_given number self.now) }
    {
        match number {
            Some(number) => self.with(alloc, number),
            None => self.share(),
        }
    }
}

/// Whether the number is one of these.
fn is_among(number: u32, numbers: &[u32]) -> bool
    ensures { result ≡ carries number numbers.now }
{
    numbers.iter().any(|other| number == *other)
}

/// Whether each number is below the next.
fn are_ascending(numbers: &[u32]) -> bool
    ensures { IsTrue result ↔ IsAscending numbers.now }
{
    for i in 1..numbers.len() {
        if numbers[i - 1] >= numbers[i] {
            return false;
        }
    }
    true
}

/// The numbers with one more, at its place.
fn inserted(alloc: Global, numbers: &[u32], number: u32) -> Result<Vec<u32>, AllocError>
    requires ascending { IsAscending numbers.now }
    requires absent { carries number numbers.now ≡ false }
    ensures value { IfOk result (λ more. more.items ≡ with_community number numbers.now) }
    ensures ascending { IfOk result (λ more. IsAscending more.items) }
{
    let at = numbers.partition_point(|other| *other < number);
    let mut more = Vec::with_capacity(alloc, numbers.len().saturating_add(1))?;
    more.extend_from_slice(numbers)?;
    more.insert(at, number)?;
    Ok(more)
}

impl Copied for Communities {
    fn copy(&self, _alloc: Global) -> Result<Communities, AllocError> {
        self.share()
    }
}

impl PartialEq for Communities {
    ghost use Rattle.std.specs.Prelude.{nat_eq};
    ghost use Rattle.std.specs.Cmp.Lexicographic.{pointwise};
    ghost use Rattle.path_attr.specs.Sameness.{communities_per};

    ghost eq = { pointwise nat_eq };

    ghost laws = { communities_per };

    fn eq(&self, other: &Communities) -> bool {
        self.numbers.as_slice() == other.numbers.as_slice()
    }
}
