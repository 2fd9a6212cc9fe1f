//! What the engine keeps, and how a message or an edit changes it.
//!
//! For: `State` holds a table of RIB entries for each router (`Cell`, the module `route_cell`), beside the
//! configuration and the queues. `deliveries` does a message (an `arrival`), `edits` an edit; `sending` says what both
//! have to send; `router_tables` and `hop_table` keep the entries, by router, prefix and NEXT_HOP.
//! RFC 4271, 3.2 (Adj-RIBs-In and Loc-RIB), 9.1 and 9.2.
//! Differs: nothing from the model. A delivery recomputes one RIB entry, and an edit those that it can change, in
//! threads where they are many; the same routes, reasons and messages come out as by recomputing all.
//! Called by: `sim_core` for each event; `room` has outcomes computed outside a lock (`Outcome`).
//! Definitions: `specs/State.antt` has the network that a state stands for. None is needed to trust a reply, since
//! `sim_core` is proved from `reference_machine`.
#![tactic(auto)]

mod arrival;
mod deliveries;
mod edits;
mod hop_table;
mod route_cell;
mod router_tables;
mod sending;
mod state;

pub use edits::Edited;
pub use route_cell::{Cell, Outcome, deliver, refresh, store};
pub use state::State;
