//! Machines of which copies can be made.

use reference_machine::Machine;
use std::alloc::AllocError;

/// A machine of which copies can be made: neither sees what becomes of the other.
pub trait Copying: Machine + Sized + Drop {
    ghost use Rattle.std.specs.Prelude.{◌≡◌, IfOk};

    /// The same network once more. The error is that there is no memory.
    fn copy(&self) -> Result<Self, AllocError>
        ensures { IfOk result (λ copy. Self.network copy ≡ Self.network self.now) };
}
