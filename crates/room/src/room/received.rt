//! Where two lists of received routes differ.

ghost use Rattle.std.specs.Prelude.{◌≡◌, ◌↔◌, IsTrue};
ghost use Rattle.room.specs.Differences.{same_route, lower, first_difference};

use net_prefix::Addr;
use path_attr::SharedAttr;

/// The first sender whose route differs in two lists, each by sender. None where they are the same.
pub(super) fn first_difference(
    had: &[(Addr, SharedAttr)],
    now: &[(Addr, SharedAttr)],
) -> Option<Addr>
    ensures { result ≡ first_difference had.now now.now }
{
    for (index, route) in had.iter().enumerate() {
        if index >= now.len() {
            return Some(route.0);
        }
        let other = &now[index];
        if !is_same_route(route, other) {
            return Some(lower(route.0, other.0));
        }
    }
    if had.len() < now.len() {
        Some(now[had.len()].0)
    } else {
        None
    }
}

/// Whether both are the same route from the same sender.
fn is_same_route(route: &(Addr, SharedAttr), other: &(Addr, SharedAttr)) -> bool
    ensures { result ≡ same_route route.now other.now }
{
    route.0 == other.0 && route.1.is_same(&other.1)
}

/// The lower of the two.
fn lower(one: Addr, other: Addr) -> Addr
    ensures { result ≡ lower one other }
{
    if one.cmp(&other).is_lt() { one } else { other }
}
