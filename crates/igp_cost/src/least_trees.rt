//! Topology and least trees: what a graph is made of, its links by the places of nodes, the search of the least labels
//! from a source, and the trees that hold them.

mod conditions;
mod link;
mod rooted;
mod search;
mod tree;
mod wiring;

pub use conditions::{has_node, is_topology, place_of};
pub use link::Link;
pub use rooted::RootedGraph;
pub use search::{Queue, improves};
pub use tree::Tree;
pub use wiring::{links_of, starts_of};
