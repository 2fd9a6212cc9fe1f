//! What every table promises, however it keeps its entries.

ghost use Rattle.std.specs.Prelude.{◌≡◌, IfOk, IfErr, Some, None, is_some};
ghost use Rattle.std.specs.Option.{option_copied, IfSome, IfNone};
ghost use Rattle.std.specs.FinMap as map;
ghost use Rattle.prefix_table.specs.Tables.{Table, seen, all_seen, IsLongestMatch, HasNoMatch, first_after, adjusted};

use crate::adjust::Adjust;
use net_prefix::{Addr, Prefix};
use std::alloc::{AllocError, Global};

/// A finite map from prefixes to values, in the order of address, then length.
pub trait PrefixTable<V> {
    /// The values of the prefixes.
    ghost table: { Self → Table V };

    /// No prefix has a value. It takes no memory.
    fn new(alloc: Global) -> Self
        ensures { table result ≡ map.empty };

    /// The prefix's value. None where it has none.
    fn get(&self, prefix: Prefix) -> Option<&V>
        ensures { option_copied result ≡ map.get (table self.now) prefix };

    /// Gives the prefix this value, and hands back the one that it had. It takes memory only where the prefix has none.
    /// For want of memory the error hands back this value, and nothing changes.
    fn insert(&mut self, prefix: Prefix, value: V) -> Result<Option<V>, V>
        ensures before { IfOk result (λ before. before ≡ map.get (table self.old) prefix) }
        ensures inserted { IfOk result (λ _. table self.new ≡ map.insert (table self.old) prefix value) }
        ensures absent { IfErr result (λ _. map.get (table self.old) prefix ≡ None) }
        ensures back { IfErr result (λ back. back ≡ value) }
        ensures same { IfErr result (λ _. table self.new ≡ table self.old) };

    /// Gives a prefix that has a value this one, and hands back the one that it had. It takes no memory. Where the
    /// prefix has none, the error hands back this value, and nothing changes.
    fn replace(&mut self, prefix: Prefix, value: V) -> Result<V, V>
        ensures before { IfOk result (λ before. map.get (table self.old) prefix ≡ Some before) }
        ensures replaced { IfOk result (λ _. table self.new ≡ map.insert (table self.old) prefix value) }
        ensures back { IfErr result (λ back. back ≡ value) }
        ensures absent { IfErr result (λ _. map.get (table self.old) prefix ≡ None) }
        ensures same { IfErr result (λ _. table self.new ≡ table self.old) };

    /// Changes the prefix's value where it stands, and says whether it has one. It takes no memory.
    fn adjust<A: Adjust<V>>(&mut self, prefix: Prefix, change: &A) -> bool
        ensures there { result ≡ is_some (map.get (table self.old) prefix) }
        ensures adjusted { table self.new ≡ adjusted (A.after change.now) prefix (table self.old) };

    /// The longest prefix of at most this length that has a value and contains the address. A length above 32 is as 32.
    fn longest(&self, addr: Addr, most: u8) -> Option<(Prefix, &V)>
        ensures found { IfSome result (λ e. IsLongestMatch (table self.now) addr most e.0 e.1.now) }
        ensures none { IfNone result (HasNoMatch (table self.now) addr most) };

    /// The first prefix after this one, or the first of all, that has a value.
    fn next_after(&self, after: Option<Prefix>) -> Option<(Prefix, &V)>
        ensures { seen result ≡ first_after (table self.now) after };

    /// All entries, in order: one walk of the whole table, in the time of its size. It can want memory.
    fn entries(&self, alloc: Global) -> Result<Vec<(Prefix, &V)>, AllocError>
        ensures { IfOk result (λ entries. all_seen entries.items ≡ map.entries (table self.now)) };
}
