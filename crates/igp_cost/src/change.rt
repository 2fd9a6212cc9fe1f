//! What has changed between two graphs.

ghost use Rattle.std.specs.Prelude.{◌≡◌, ◌↔◌, IsTrue};
ghost use Rattle.igp_cost.specs.Changes.{ends_of, metric_of, Loses};

use crate::metric::Metric;
use net_prefix::Addr;

/// One edge, by its ends, that a graph has now and had not, had and has no longer, or has with another metric.
#[derive(Clone, Copy, Debug, PartialEq, Eq)]
pub enum Change {
    Added(Addr, Addr, Metric),
    Removed(Addr, Addr),
    Changed(Addr, Addr, Metric),
}

impl Change {
    /// The ends of the edge.
    pub(crate) fn ends(&self) -> (Addr, Addr)
        ensures { result ≡ ends_of self.now }
    {
        match self {
            Change::Added(one, other, _) => (*one, *other),
            Change::Removed(one, other) => (*one, *other),
            Change::Changed(one, other, _) => (*one, *other),
        }
    }

    /// The metric that the edge has now and had not.
    pub(crate) fn metric(&self) -> Option<Metric>
        ensures { result ≡ metric_of self.now }
    {
        match self {
            Change::Added(_, _, metric) => Some(*metric),
            Change::Removed(_, _) => None,
            Change::Changed(_, _, metric) => Some(*metric),
        }
    }

    /// Whether an edge that was there is gone.
    pub(crate) fn loses(&self) -> bool
        ensures { IsTrue result ↔ Loses self.now }
    {
        !matches!(self, Change::Added(_, _, _))
    }
}
