//! Rules of a policy.

ghost use Rattle.std.specs.Prelude.{◌≡◌, ◌↔◌, IsTrue};

use crate::repeat::Repeat;
use net_prefix::Prefix;
use path_attr::{Asn, Attr};

/// Which routes a rule is about.
#[derive(Clone, Copy, Debug, PartialEq, Eq)]
pub enum Match {
    /// Any route.
    Any,
    /// The routes to this prefix.
    Is(Prefix),
    /// The routes to the prefixes that this one covers, itself included.
    Under(Prefix),
    /// The routes whose path holds the AS, in a sequence or in a set.
    Path(Asn),
    /// The routes that came through this neighbouring AS: none whose path is empty or begins with a set.
    First(Asn),
    /// The routes that carry the community (RFC 1997).
    Comm(u32),
}

/// What a rule sets of the routes that it permits: each setting where it is given.
#[derive(Clone, Copy, Debug, PartialEq, Eq)]
pub struct Settings {
    /// Its LOCAL_PREF.
    pub pref: Option<u32>,
    /// Its MULTI_EXIT_DISC.
    pub med: Option<u32>,
    /// How many more times than once the own AS is put in front of its path.
    pub prepend: Option<Repeat>,
    /// A community that it carries from then on.
    pub add: Option<u32>,
}

/// What becomes of a route.
#[derive(Clone, Copy, Debug, PartialEq, Eq)]
pub enum Action {
    /// It is left out.
    Deny,
    /// It passes, with these settings.
    Permit(Settings),
}

impl Action {
    /// A permit without settings.
    pub const PLAIN_PERMIT: Action = Action::Permit(Settings {
        pref: None,
        med: None,
        prepend: None,
        add: None,
    });
}

/// A rule: what becomes of the routes that it is about.
#[derive(Clone, Copy, Debug, PartialEq, Eq)]
pub struct Rule {
    /// Which routes it is about.
    pub cond: Match,
    /// What becomes of them.
    pub act: Action,
}

impl Match {
    ghost use Rattle.route_policy.specs.Judging.{Meets, matches};
    ghost use Rattle.route_policy.specs.PathSplit.{path_number};

    /// The AS that has to stand in the path, where it is about that.
    pub(crate) fn path_number(self) -> Option<Asn>
        ensures { result ≡ path_number self }
    {
        match self {
            Match::Path(asn) => Some(asn),
            Match::Any | Match::Is(_) | Match::Under(_) | Match::First(_) | Match::Comm(_) => None,
        }
    }

    /// Whether a route to the prefix with these attributes is one of them.
    pub fn matches(self, prefix: Prefix, attr: &Attr) -> bool
        ensures value { result ≡ matches self prefix attr.now }
        ensures meaning { IsTrue result ↔ Meets self prefix attr.now }
    {
        match self {
            Match::Any => true,
            Match::Is(block) => block == prefix,
            Match::Under(block) => block.covers(&prefix),
            Match::Path(asn) => attr.path.holds(asn),
            Match::First(asn) => attr.path.neighbour() == Some(asn),
            Match::Comm(number) => attr.comms.carries(number),
        }
    }
}
