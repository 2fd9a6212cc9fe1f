//! Prefixes made of addresses.

ghost use Rattle.std.specs.Prelude.{◌≡◌, ◌≤◌};
ghost use Rattle.net_prefix.specs.declared.prefix.TheConstants.{MAX_LEN};
ghost use Rattle.prefix_table.specs.Places.{prefix_around};
ghost use Rattle.prefix_table.specs.Tables.{is_after};

use net_prefix::{Addr, MAX_LEN, Prefix};

/// The prefix of this length that contains the address.
pub(crate) fn cut(addr: Addr, len: u8) -> Prefix
    requires { len ≤ MAX_LEN }
    ensures { result ≡ prefix_around addr len }
{
    let size = 1u64 << (MAX_LEN - len);
    let low = u64::from(addr.0) / size * size;
    match Prefix::new(Addr(low as u32), len) {
        Some(prefix) => prefix,
        None => unreachable!(),
    }
}

/// Whether the prefix comes after the other one, if there is one.
pub(crate) fn comes_after(prefix: Prefix, after: Option<Prefix>) -> bool
    ensures { result ≡ is_after after prefix }
{
    match after {
        None => true,
        Some(other) => other.cmp(&prefix).is_lt(),
    }
}
