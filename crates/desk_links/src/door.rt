ghost use Rattle.std.specs.Prelude.{◌≡◌, ◌≤◌, Err};
ghost use Rattle.vet_base.specs.Outside.{HasRisen};
ghost use Rattle.desk_links.specs.declared.door.DoorFault.TheVariants.{Memory as OutOfMemory};
ghost use Rattle.desk_links.specs.Links.{Opens};

use crate::Link;
use std::alloc::{AllocError, Global};

/// Why a door opened nothing.
#[derive(Clone, Copy, Debug, PartialEq, Eq)]
pub enum DoorFault {
    /// The outside failed; the count of faults rose.
    Failed,
    Memory,
}

/// Connections, one after another. Reads and writes act on the present one.
pub trait Door: Link {
    /// Ends the present conversation and opens the next one. False where no more come, which a telling door says
    /// exactly where it has none left.
    fn next(&mut self, alloc: Global, port: u16) -> Result<bool, DoorFault>
        ensures told { Opens (Self.told self.old) (Self.told self.new) result }
        ensures cause { result ≡ Err DoorFault.Failed → HasRisen (Self.fault_count self.old)
            (Self.fault_count self.new) }
        ensures never_falls { Self.fault_count self.old ≤ Self.fault_count self.new };
}

impl From<AllocError> for DoorFault {
    ghost from_gives = { λ _ e. e ≡ OutOfMemory };

    fn from(_e: AllocError) -> DoorFault {
        DoorFault::Memory
    }
}
