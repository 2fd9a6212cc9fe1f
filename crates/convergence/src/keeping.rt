//! A machine, with snapshots of it.

ghost use Rattle.std.specs.Prelude.{◌≡◌, ◌<◌, ◌⊎◌, [], length, IfOk, OnOk, OnErr, MatchBool};
ghost use Rattle.convergence.specs.Kept.{with_snapshot, IsRestored};

use crate::copying::Copying;
use crate::reached::Reached;
use reference_machine::Machine;
use std::alloc::{AllocError, Global};
use std::marker::Model;

/// A machine, with the snapshots of it that are kept.
#[derive(Drop)]
pub struct Keeping<M: Machine> {
    pub machine: Reached<M>,
    snapshots: Vec<Reached<M>>,
}

impl<M: Machine> Model for Keeping<M> {
    ghost use Rattle.convergence.specs.Kept.{Kept};

    ghost Value = { Kept };

    ghost view = { λ k. record { network = k.machine; snapshots = k.snapshots.items } };
}

impl<M: Machine> Keeping<M> {
    /// The machine, of which no snapshot is kept.
    pub fn new(alloc: Global, machine: Reached<M>) -> Self
        ensures { result ≡ record { network = machine; snapshots = [] } }
    {
        Keeping {
            machine,
            snapshots: Vec::new(alloc),
        }
    }
}

impl<M: Copying> Keeping<M> {
    /// Keeps the network as it is, and says how many are kept then. The error is that there is no memory.
    pub fn keep(&mut self) -> Result<u64, AllocError>
        ensures kept { OnOk result (self.new ≡ with_snapshot self.old) }
        ensures count { IfOk result (λ count. count ≡ length self.new.snapshots) }
        ensures same { OnErr result (self.new ≡ self.old) }
    {
        let snapshot = self.machine.copy()?;
        self.snapshots.push(snapshot)?;
        Ok(self.snapshots.len() as u64)
    }

    /// Takes back the network that was kept as this number, from 1 on, and forgets that and all after it. It takes no
    /// memory. Whether one is kept as this number; where none is, nothing changes.
    pub fn restore(&mut self, number: u32) -> bool
        ensures { MatchBool result (IsRestored number self.old self.new)
            ((self.new ≡ self.old) × ((number ≡ 0) ⊎ (length self.old.snapshots < number))) }
    {
        let kept = number as usize;
        if kept == 0 || kept > self.snapshots.len() {
            return false;
        }
        self.snapshots.truncate(kept);
        match self.snapshots.pop() {
            Some(snapshot) => {
                self.machine = snapshot;
                true
            }
            None => unreachable!(),
        }
    }
}
