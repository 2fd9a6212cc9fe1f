//! How many seats and shards a desk may have.

ghost use Rattle.desk.specs.Desks.{IsDeskLedger};

use crate::common::{GroupDesk, Tries, equal};
use desk::{Desk, OpenFault, Seat};
use route_select::GroupCell;
use std::alloc::Global;
use std::marker::Brand;
use std::process::Abort;
use std::sync::ledger::{Blank, Ledger};

#[test]
fn a_desk_has_1_to_256_seats_and_1_to_64_shards(rt: HostRuntime) {
    let alloc = rt.alloc();
    let none = fault_of::<Brand>(alloc, 0, 1, Blank::new(256));
    equal(&rt, none, Some(OpenFault::Seats));
    let many = fault_of::<Brand>(alloc, 257, 1, Blank::new(256));
    equal(&rt, many, Some(OpenFault::Seats));
    let shards = fault_of::<Brand>(alloc, 1, 65, Blank::new(256));
    equal(&rt, shards, Some(OpenFault::Shards));
    let most = fault_of::<Brand>(alloc, 256, 64, Blank::new(256));
    equal(&rt, most, None);
}

/// Why such a desk is not opened.
fn fault_of<L: Ledger>(alloc: Global, seats: u16, shards: u64, blank: Blank) -> Option<OpenFault>
    requires ledger { IsDeskLedger blank.name blank.parts L.name L.parts }
{
    let opened: Result<(GroupDesk<L>, Vec<Seat<L>>), OpenFault> = Desk::open(
        alloc, None, seats, shards, blank,
    );
    opened.err()
}
