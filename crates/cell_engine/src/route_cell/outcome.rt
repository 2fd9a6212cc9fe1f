//! What becomes of a cell.

use crate::route_cell::cell::Cell;
use net_prefix::Addr;
use route_select::Chosen;
use session_queue::Message;
use std::marker::Model;

/// A cell that takes the place of another, and what is sent for that.
#[derive(Drop)]
pub struct Outcome<S: Chosen> {
    /// What is received and chosen now.
    pub cell: Cell<S>,
    /// A message to each peer to which another route is advertised than before, by address of the peer.
    pub sends: Vec<(Addr, Message)>,
}

impl<S: Chosen> Model for Outcome<S> {
    ghost use Rattle.cell_engine.specs.Cells as cells;
    ghost use Rattle.cell_engine.specs.CellCoding.{coded_outcome};

    ghost Value = { cells.Outcome };

    ghost coded = { coded_outcome };

    ghost view = { λ o. record { cell = o.cell; sends = o.sends.items } };
}
