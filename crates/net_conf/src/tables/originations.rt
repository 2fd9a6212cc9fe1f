//! Who originates what, by router.

ghost use Rattle.std.specs.Prelude.{◌≡◌, ◌==◌, [], map, filter, IfOk, OnOk, OnErr};
ghost use Rattle.std.specs.List.{list_any};
ghost use Rattle.std.specs.List.Sorted.{IsStrictlySortedBy};
ghost use Rattle.std.specs.Map.{keys_of};
ghost use Rattle.std.specs.Set.{remove_key};
ghost use Rattle.std.specs.BTreeMap.{insert_entry, is_at};
ghost use Rattle.std.specs.BTreeSet.{insert_key};
ghost use Rattle.net_prefix.specs.Address.{addr_cmp};
ghost use Rattle.net_conf.specs.Configuration.{origination_cmp};
ghost use Rattle.net_conf.specs.Originations.{originations_in, prefixes_at};

use crate::tables::Origination;
use net_prefix::{Addr, Prefix};
use seq::Copied;
use shared_map::{ChunkedMap, ChunkedSet};
use std::alloc::{AllocError, Global};
use std::marker::Model;

/// Who originates what: contracts see one list, by router, then by prefix. The prefixes of each router are a set, which
/// its site shares.
#[derive(Drop)]
pub(crate) struct Originations {
    routers: ChunkedMap<Addr, ChunkedSet<Prefix>>,
}

impl Model for Originations {
    ghost use Rattle.std.specs.Prelude.{List};
    ghost use Rattle.std.specs.List.Sorted.{IsStrictlySortedBy};
    ghost use Rattle.net_conf.specs.declared.tables.Origination.{Origination};
    ghost use Rattle.net_conf.specs.Configuration.{origination_cmp};
    ghost use Rattle.net_conf.specs.Originations.{originations_in};

    ghost Value = { List Origination };

    ghost view = { λ o. originations_in o.routers };

    ghost invariant = { λ o. IsStrictlySortedBy origination_cmp (originations_in o.routers) };
}

impl Originations {
    /// None. It takes no memory.
    pub(crate) fn new() -> Self
        ensures { result ≡ [] }
    {
        Originations {
            routers: ChunkedMap::new(),
        }
    }

    /// A call gives the caller's proof that they are in order.
    pub(crate) fn order(&self)
        ensures { IsStrictlySortedBy origination_cmp self.now }
    {
        let _ = &self.routers;
    }

    /// Whether the router originates the prefix.
    pub(crate) fn contains(&self, origination: Origination) -> bool
        ensures { result ≡ list_any (is_at (origination_cmp origination)) self.now }
    {
        self.routers.order();
        match self.routers.get(&origination.router) {
            Some(prefixes) => prefixes.contains(&origination.prefix),
            None => false,
        }
    }

    /// The prefixes of the router, as one owner more of their set.
    pub(crate) fn of(&self, router: Addr) -> Result<ChunkedSet<Prefix>, AllocError>
        ensures { IfOk result (λ set. set ≡ map (λ o. o.prefix) (filter (λ o. o.router.0 == router.0) self.now)) }
    {
        prefixes_at(&self.routers, router)
    }

    /// Puts the prefix to those of the router. An error changes nothing.
    pub(crate) fn insert(
        &mut self,
        alloc: Global,
        origination: Origination,
    ) -> Result<(), AllocError>
        ensures ok { OnOk result (self.new ≡ insert_key origination_cmp self.old origination) }
        ensures err { OnErr result (self.new ≡ self.old) }
    {
        let mut prefixes = prefixes_at(&self.routers, origination.router)?;
        prefixes.insert(alloc, origination.prefix)?;
        self.routers.put(alloc, origination.router, prefixes)
    }

    /// Takes the prefix from those of the router. An error changes nothing.
    pub(crate) fn remove(
        &mut self,
        alloc: Global,
        origination: Origination,
    ) -> Result<(), AllocError>
        ensures ok { OnOk result (self.new ≡ remove_key (is_at (origination_cmp origination)) self.old) }
        ensures err { OnErr result (self.new ≡ self.old) }
    {
        let mut prefixes = prefixes_at(&self.routers, origination.router)?;
        prefixes.remove(alloc, &origination.prefix)?;
        set_prefixes(alloc, &mut self.routers, origination.router, prefixes)
    }

    /// One owner more of the same. It takes no memory.
    pub(crate) fn share(&self) -> Result<Self, AllocError>
        ensures { IfOk result (λ other. other ≡ self.now) }
    {
        Ok(Originations {
            routers: self.routers.share()?,
        })
    }
}

/// The prefixes of the router, as one owner more of their set.
fn prefixes_at(
    routers: &ChunkedMap<Addr, ChunkedSet<Prefix>>,
    router: Addr,
) -> Result<ChunkedSet<Prefix>, AllocError>
    ensures set { IfOk result (λ set. set ≡ prefixes_at routers.now router) }
    ensures ordered { IsStrictlySortedBy addr_cmp (keys_of routers.now) }
{
    routers.order();
    match routers.get(&router) {
        Some(prefixes) => prefixes.share(),
        None => Ok(ChunkedSet::new()),
    }
}

/// Gives the router these prefixes; with none it is not kept. An error changes nothing.
fn set_prefixes(
    alloc: Global,
    routers: &mut ChunkedMap<Addr, ChunkedSet<Prefix>>,
    router: Addr,
    prefixes: ChunkedSet<Prefix>,
) -> Result<(), AllocError>
    requires { IsStrictlySortedBy addr_cmp (keys_of routers.old) }
    ensures ok { OnOk result
        (originations_in routers.new ≡ originations_in (insert_entry addr_cmp routers.old router prefixes)) }
    ensures err { OnErr result (routers.new ≡ routers.old) }
{
    if prefixes.is_empty() {
        routers.take_out(alloc, &router)
    } else {
        routers.put(alloc, router, prefixes)
    }
}
