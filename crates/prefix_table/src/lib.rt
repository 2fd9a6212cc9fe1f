//! Tables from prefixes to values, with longest match and a walk in order.
#![tactic(auto)]

mod adjust;
mod cut;
mod descent;
mod gather;
mod growth;
mod index;
mod link;
mod node;
mod sorted;
mod table;
mod trie;
mod walk;
mod way;

pub use adjust::Adjust;
pub use sorted::SortedTable;
pub use table::PrefixTable;
pub use trie::TrieTable;
