//! The configuration itself, as plain tables of the rows that stand here: look-ups (`conf_tables`), the tests that an
//! edit has to pass (`checks`), what it does to the tables (`apply`), the sessions (`session_table`), who originates
//! what (`originations`), and the graph of the links that are up (`graph`).

mod apply;
mod checks;
mod conf_tables;
mod graph;
mod originations;
mod session_table;

pub use conf_tables::ConfTables;
pub(crate) use graph::are_few;
use igp_cost::Metric;
use net_prefix::{Addr, Prefix};
use path_attr::Asn;

/// What stands at an address.
#[derive(Clone, Copy, Debug, PartialEq, Eq)]
pub enum Kind {
    /// A router, which decides.
    Router,
    /// A virtual peer: an external neighbour that is fed by hand and decides nothing.
    Virtual,
}

/// A router or a virtual peer.
#[derive(Clone, Copy, Debug, PartialEq, Eq)]
pub struct Node {
    /// The autonomous system that it is in.
    pub asn: Asn,
    pub kind: Kind,
}

/// The two ends of a link or a session, the lower address first.
#[derive(Clone, Copy, Debug, PartialEq, Eq, PartialOrd, Ord)]
pub struct Ends {
    pub low: Addr,
    pub high: Addr,
}

impl Ends {
    ghost use Rattle.std.specs.Prelude.{◌≡◌};
    ghost use Rattle.net_conf.specs.Configuration.{ends_of};

    /// The ends of a link or a session of the two, which are the same in both orders.
    pub fn of(one: Addr, other: Addr) -> Ends
        ensures { result ≡ ends_of one other }
    {
        if one.0 <= other.0 {
            Ends {
                low: one,
                high: other,
            }
        } else {
            Ends {
                low: other,
                high: one,
            }
        }
    }
}

/// A link between two addresses, the same both ways.
#[derive(Clone, Copy, Debug, PartialEq, Eq)]
pub struct Link {
    pub metric: Metric,
    pub up: bool,
}

/// One end of a session: the router whose end it is, and the peer at the other.
#[derive(Clone, Copy, Debug, PartialEq, Eq, PartialOrd, Ord)]
pub struct End {
    pub router: Addr,
    pub peer: Addr,
}

/// Which of the two policies of a session's end (RFC 4271, 9.1.1 and 9.1.3).
#[derive(Clone, Copy, Debug, PartialEq, Eq)]
pub enum PolicySide {
    /// The import policy, for the routes that come in from the peer.
    Import,
    /// The export policy, for those that go out to it.
    Export,
}

/// A prefix that a router originates.
#[derive(Clone, Copy, Debug, PartialEq, Eq, PartialOrd, Ord)]
pub struct Origination {
    pub router: Addr,
    pub prefix: Prefix,
}
