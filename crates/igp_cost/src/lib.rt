//! IGP costs: the least cost and the first hop from a router to every other one, over the links that are up.
//!
//! For: `Graph` is what callers see. `least_trees` makes a shortest-path tree (SPT) of a graph; `repair` makes one of
//! the tree from before a change, and a last scan shows that it is the right one (`Change` says what changed).
//! RFC 4271, 9.1.2.1 and 9.1.2.2 e: the cost that resolves a NEXT_HOP and breaks ties. A metric is of OSPF's range
//! (RFC 2328, A.4.2 and C.3).
//! Differs: RFC 4271 leaves IGP routing open. Here a path stays in the AS of its first router up to its last link, so
//! no path crosses another AS, and costs change at once, without an IGP's own messages.
//! Called by: `net_conf`, which keeps one tree for each end of a session. Definitions: `specs/Walks.antt` (paths) and
//! `specs/Costs.antt` (functions); `specs/Laws.antt` says that both agree.
#![tactic(auto)]

mod change;
mod graph;
mod label;
mod laws;
mod least_trees;
mod limits;
mod metric;
mod repair;

pub use change::Change;
pub use graph::Graph;
pub use label::Label;
pub use laws::{
    costs_are_least, costs_are_one, first_hops_are_least, first_hops_are_one,
    lone_node_moves_no_tree, more_edges_reach_more, one_edge_is_a_change, own_edges_make_a_tree,
    own_nodes_make_a_tree, tree_of_is_a_tree, trees_are_one,
};
pub use least_trees::{Tree, is_topology};
pub use limits::MAX_NODES;
pub use metric::Metric;
