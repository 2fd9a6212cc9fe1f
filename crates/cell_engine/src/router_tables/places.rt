//! Where a router's table stands in a vector in the order of the routers.

ghost use Rattle.std.specs.Prelude.{◌≡◌, IfOk, IfErr};
ghost use Rattle.std.specs.List as list;
ghost use Rattle.std.specs.Option.{option_copied, option_map};
ghost use Rattle.std.specs.FinMap.Entries.{find};
ghost use Rattle.net_prefix.specs.Address.{addr_cmp};
ghost use Rattle.cell_engine.specs.RouterTables.{AreByRouter, is_past};
ghost use Rattle.cell_engine.specs.TablePlaces.{IsAt, IsFor};

use net_prefix::Addr;

/// Whether the router comes after this one, if one is given.
fn comes_past(router: Addr, past: Option<Addr>) -> bool
    ensures { result ≡ is_past past router }
{
    match past {
        None => true,
        Some(start) => start.cmp(&router).is_lt(),
    }
}

/// The place of the address's entry, as a router's or a sender's, or as an error the place where it would go.
pub(crate) fn place<T>(entries: &[(Addr, T)], router: Addr) -> Result<usize, usize>
    requires { AreByRouter entries.now }
    ensures found { IfOk result (IsAt entries.now router) }
    ensures absent { IfErr result (IsFor entries.now router) }
{
    let at = entries.partition_point(|entry| router.cmp(&entry.0).is_gt());
    match entries.get(at) {
        Some(entry) if router.cmp(&entry.0).is_eq() => Ok(at),
        _ => Err(at),
    }
}

/// The same, looked for first at this place.
pub(crate) fn place_from<T>(
    entries: &[(Addr, T)],
    first: usize,
    router: Addr,
) -> Result<usize, usize>
    requires { AreByRouter entries.now }
    ensures found { IfOk result (IsAt entries.now router) }
    ensures absent { IfErr result (IsFor entries.now router) }
{
    match entries.get(first) {
        Some(entry) if router.cmp(&entry.0).is_eq() => Ok(first),
        _ => place(entries, router),
    }
}

/// The router's table.
pub(crate) fn table_in<T>(entries: &[(Addr, T)], router: Addr) -> Option<&T>
    requires { AreByRouter entries.now }
    ensures { option_copied result ≡ find addr_cmp router entries.now }
{
    match place(entries, router) {
        Ok(at) => Some(&entries[at].1),
        Err(_) => None,
    }
}

/// The first router past this one, or the first of all.
pub(crate) fn next_in<T>(entries: &[(Addr, T)], past: Option<Addr>) -> Option<Addr>
    requires { AreByRouter entries.now }
    ensures { result ≡ option_map (λ e. e.0) (list.find (λ e. is_past past e.0) entries.now) }
{
    let at = entries.partition_point(|entry| !comes_past(entry.0, past));
    match entries.get(at) {
        Some(entry) => Some(entry.0),
        None => None,
    }
}
