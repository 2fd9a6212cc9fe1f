//! The machines.

use cell_engine::Cell;
use plain_simulator::Simulator;
use prefix_table::{SortedTable, TrieTable};
use route_select::{FilterCell, GroupCell};
use sim_core::Sim;

/// The definitions made to run.
pub(crate) type PlainMachine = Simulator<FilterCell>;

/// The engine with sorted tables, whose cells choose when they are asked.
pub(crate) type SortedMachine = Sim<FilterCell, SortedTable<Cell<FilterCell>>>;

/// The engine with tries, whose cells keep groups: this is what `bgpsim` runs.
pub(crate) type TrieMachine = Sim<GroupCell, TrieTable<Cell<GroupCell>>>;
