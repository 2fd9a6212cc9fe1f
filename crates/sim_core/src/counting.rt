//! The count of routes that were decided anew.

ghost use Rattle.std.specs.Prelude.{◌≡◌};
ghost use Rattle.sim_core.specs.Counting.{raised};

/// The count, raised by this many. It stops at the greatest number.
pub(crate) fn raised(count: u64, more: usize) -> u64
    ensures { result ≡ raised count more }
{
    let more = more as u64;
    if more > u64::MAX - count {
        u64::MAX
    } else {
        count + more
    }
}

/// A call gives the caller's proof that none leaves the count as it is.
pub(crate) fn raised_by_none(count: u64)
    ensures { count ≡ raised count 0 }
{}
