//! What holds of costs, first hops and trees in any graph. These functions do nothing: a call gives the caller's proof
//! what they ensure.

ghost use Rattle.igp_cost.specs.Laws.{CostsAreLeast, FirstHopsAreLeast, CostsAreOne, FirstHopsAreOne, TreesAreOne, OneEdgeIsAChange, TreeOfIsATree, LoneNodeMovesNoTree, MoreEdgesReachMore, OwnEdgesMakeATree, OwnNodesMakeATree};

/// The specification's function `cost` is the cost of a least walk.
pub fn costs_are_least()
    ensures { CostsAreLeast }
{}

/// The specification's function `first_hop` is the least second address of a least walk, where edges have metrics.
pub fn first_hops_are_least()
    ensures { FirstHopsAreLeast }
{}

/// A router has one cost to an address.
pub fn costs_are_one()
    ensures { CostsAreOne }
{}

/// A router has one first hop to an address.
pub fn first_hops_are_one()
    ensures { FirstHopsAreOne }
{}

/// A router has one tree: `retouch` gives what `tree` gives.
pub fn trees_are_one()
    ensures { TreesAreOne }
{}

/// An edge that is taken from a list, put into one, or given another metric, is one change.
pub fn one_edge_is_a_change()
    ensures { OneEdgeIsAChange }
{}

/// The specification's function `tree_of` is a tree, so two graphs whose `tree_of` is one have one tree.
pub fn tree_of_is_a_tree()
    ensures { TreeOfIsATree }
{}

/// A node that no edge leads to changes no tree of the other nodes.
pub fn lone_node_moves_no_tree()
    ensures { LoneNodeMovesNoTree }
{}

/// Where more is joined by edges, no router reaches less: their metrics do not matter.
pub fn more_edges_reach_more()
    ensures { MoreEdgesReachMore }
{}

/// A router's tree hangs on the edges from the nodes of its AS alone.
pub fn own_edges_make_a_tree()
    ensures { OwnEdgesMakeATree }
{}

/// A router's tree hangs on what is said of the ends of edges alone: of nodes without one it does not.
pub fn own_nodes_make_a_tree()
    ensures { OwnNodesMakeATree }
{}
